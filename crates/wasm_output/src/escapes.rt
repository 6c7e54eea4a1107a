// Digits and escapes of bytes.
ghost use Rattle.std.specs.Prelude.{◌≡◌, ◌≤◌, false, length, take};
ghost use Rattle.std.specs.List.{flat_map, list_any};
ghost use Rattle.wasm_output.specs.Fields.{hexadecimal, is_escaped as byte_is_escaped};
ghost use Rattle.wasm_output.specs.Tree.{has_line_feed};

use crate::gathered::Gathered;

/// How many bytes are put at once at most.
pub(crate) const PAGE_BYTES: usize = 65_536;

// An `x` for each byte that is escaped. A look at a table takes fewer instructions than four comparisons.
static ESCAPED: [u8; 256] = *b"xxxxxxxxxxxxxxxxxxxxxxxxxxxxxxxx--x-----------------------------\
    ----------------------------x----------------------------------x\
    xxxxxxxxxxxxxxxxxxxxxxxxxxxxxxxxxxxxxxxxxxxxxxxxxxxxxxxxxxxxxxxx\
    xxxxxxxxxxxxxxxxxxxxxxxxxxxxxxxxxxxxxxxxxxxxxxxxxxxxxxxxxxxxxxxx";

/// Whether a byte of a text in quotes is written by its digits.
#[inline(always)]
pub(crate) fn is_escaped(byte: u8) -> bool
    ensures { result ≡ byte_is_escaped byte }
{
    ESCAPED[usize::from(byte)] == b'x'
}

// Whether one of these four bytes is escaped.
#[inline(always)]
fn is_any_escaped(four: &[u8]) -> bool
    requires { length four.now ≡ 4 }
    ensures { result ≡ list_any byte_is_escaped four.now }
{
    is_escaped(four[0]) || is_escaped(four[1]) || is_escaped(four[2]) || is_escaped(four[3])
}

// The number of leading bytes that are plain, in fours: one step for four bytes costs half of what four steps do.
#[inline(always)]
fn plain_fours(bytes: &[u8]) -> usize
    ensures within { result ≤ length bytes.now }
    ensures plain { list_any byte_is_escaped (take result bytes.now) ≡ false }
{
    let mut count = 0;
    'fours: while bytes.len() - count >= 4 && !is_any_escaped(&bytes[count..count + 4]) {
        count += 4;
    }
    count
}

/// The number of leading bytes that are plain in a text in quotes, and in a string of JSON too: at most a page of them.
#[inline(always)]
pub(crate) fn plain_count(bytes: &[u8]) -> usize
    ensures within { result ≤ length bytes.now }
    ensures short { result ≤ 65536 }
    ensures plain { list_any byte_is_escaped (take result bytes.now) ≡ false }
{
    let most = bytes.len().min(PAGE_BYTES);
    let mut count = plain_fours(&bytes[..most]);
    'plain: while count < most && !is_escaped(bytes[count]) {
        count += 1;
    }
    count
}

/// The two hexadecimal digits of a byte.
pub(crate) fn hexadecimal_digits(byte: u8) -> [u8; 2]
    ensures digits { result ≡ hexadecimal byte }
    ensures one_line { has_line_feed result ≡ false }
{
    let digits = b"0123456789abcdef";
    [
        digits[usize::from(byte / 16)],
        digits[usize::from(byte % 16)],
    ]
}

/// How many bytes are written as digits at once.
pub(crate) const GROUP: usize = 16;

/// The hexadecimal digits of at most 16 bytes.
pub(crate) fn digits_of(bytes: &[u8]) -> Gathered<32>
    requires { length bytes.now ≤ 16 }
    ensures digits { result ≡ flat_map hexadecimal bytes.now }
    ensures one_line { has_line_feed result ≡ false }
{
    let mut digits = Gathered::new();
    for byte in bytes {
        digits.put(&hexadecimal_digits(*byte));
    }
    digits
}
