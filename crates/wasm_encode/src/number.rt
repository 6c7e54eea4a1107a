// Numbers in LEB128, in as few bytes as possible.
ghost use Rattle.std.specs.Prelude.{◌≡◌, ◌+◌, ◌<◌, ◌≤◌, ◌⊎◌, ◌++◌, drop, length, take};
ghost use Rattle.wasm_encode.specs.Numbers.{is_negative, magnitude_of, septet, septets_of, signed_bytes, unsigned_bytes};

// The bound of the last septet of an unsigned number, and of a signed one, whose highest bit is the sign.
const UNSIGNED: u64 = 128;

const SIGNED: u64 = 64;

// Returns a septet, or for a negative number one with its bits flipped.
#[inline(always)]
fn septet_of(flips: bool, rest: u64) -> u8
    requires { rest < 128 }
    ensures { result ≡ septet flips rest }
{
    if flips { 127 - rest as u8 } else { rest as u8 }
}

// Returns how many bytes a number has.
#[tactic(auto, using(crate::proofs::Numbers::septets_more, crate::proofs::Numbers::septets_last, crate::proofs::Numbers::septets_some, crate::proofs::Numbers::septets_few))]
fn size_of(flips: bool, limit: u64, number: u64) -> usize
    requires { (limit ≡ 64) ⊎ (limit ≡ 128) }
    ensures { result ≡ length (septets_of flips limit number) }
{
    let mut rest = number;
    let mut size = 1;
    'septets: while rest >= limit {
        size += 1;
        rest /= 128;
    }
    size
}

// Writes the septets of a number at the index `at`, and returns the index after them.
#[tactic(auto, using(crate::proofs::Numbers::septets_more, crate::proofs::Numbers::septets_last, crate::proofs::Numbers::septets_some, crate::proofs::Numbers::septets_few, crate::proofs::Numbers::put_more, crate::proofs::Numbers::put_last))]
fn write_septets(bytes: &mut [u8], at: usize, flips: bool, limit: u64, number: u64) -> usize
    requires limit { (limit ≡ 64) ⊎ (limit ≡ 128) }
    requires room { at + length (septets_of flips limit number) ≤ length bytes.old }
    ensures end { result ≡ at + length (septets_of flips limit number) }
    ensures written { take result bytes.new ≡ take at bytes.old ++ septets_of flips limit number }
    ensures rest { drop result bytes.new ≡ drop result bytes.old }
    ensures len { length bytes.new ≡ length bytes.old }
{
    let mut rest = number;
    let mut end = at;
    'septets: while rest >= limit {
        bytes[end] = septet_of(flips, rest % 128) + 128;
        end += 1;
        rest /= 128;
    }
    bytes[end] = septet_of(flips, rest);
    end + 1
}

// Returns the septets of a signed number as one that isn't negative: a negative number is flipped.
#[inline(always)]
fn magnitude(number: i64) -> u64
    ensures { result ≡ magnitude_of number }
{
    if number < 0 {
        (-(number + 1)) as u64
    } else {
        number as u64
    }
}

/// Returns how many bytes `write_unsigned` writes of an unsigned number.
///
/// ```rattle
/// assert_eq!(rt; unsigned_len(127), 1);
/// assert_eq!(rt; unsigned_len(128), 2);
/// ```
///
/// (Core specification, Binary format, Values, Integers.)
pub fn unsigned_len(number: u64) -> usize
    // Proved: how many bytes the shortest LEB128 of a number has [the clauses of `unsigned_len`,
    //   `signed_len`]
    ensures { result ≡ length (unsigned_bytes number) }
{
    size_of(false, UNSIGNED, number)
}

/// Writes an unsigned number in LEB128, in as few bytes as possible.
///
/// Writes at the index `at`, where there must be room for it, and returns the index after it.
///
/// ```rattle
/// let mut bytes = [0; 4];
/// let end = write_unsigned(&mut bytes, 1, 624_485);
/// assert_eq!(rt; end, 4);
/// assert_eq!(rt; &bytes, b"\0\xe5\x8e\x26");
/// ```
///
/// (Core specification, Binary format, Values, Integers.)
pub fn write_unsigned(bytes: &mut [u8], at: usize, number: u64) -> usize
    requires { at + length (unsigned_bytes number) ≤ length bytes.old }
    ensures end { result ≡ at + length (unsigned_bytes number) }
    // Proved: a number is written in as few bytes as possible, and no byte before or after it
    //   changes [`written`, `rest` of `write_unsigned`, `write_signed`]
    ensures written { take result bytes.new ≡ take at bytes.old ++ unsigned_bytes number }
    ensures rest { drop result bytes.new ≡ drop result bytes.old }
    ensures len { length bytes.new ≡ length bytes.old }
{
    write_septets(bytes, at, false, UNSIGNED, number)
}

/// Returns how many bytes `write_signed` writes of a signed number.
///
/// ```rattle
/// assert_eq!(rt; signed_len(63), 1);
/// assert_eq!(rt; signed_len(64), 2);
/// ```
///
/// (Core specification, Binary format, Values, Integers.)
pub fn signed_len(number: i64) -> usize
    ensures { result ≡ length (signed_bytes number) }
{
    size_of(number < 0, SIGNED, magnitude(number))
}

/// Writes a signed number in LEB128, in as few bytes as possible.
///
/// Writes at the index `at`, where there must be room for it, and returns the index after it.
///
/// ```rattle
/// let mut bytes = [0; 3];
/// write_signed(&mut bytes, 0, -123_456);
/// assert_eq!(rt; &bytes, b"\xc0\xbb\x78");
/// ```
///
/// (Core specification, Binary format, Values, Integers.)
pub fn write_signed(bytes: &mut [u8], at: usize, number: i64) -> usize
    requires { at + length (signed_bytes number) ≤ length bytes.old }
    ensures end { result ≡ at + length (signed_bytes number) }
    ensures written { take result bytes.new ≡ take at bytes.old ++ signed_bytes number }
    ensures rest { drop result bytes.new ≡ drop result bytes.old }
    ensures len { length bytes.new ≡ length bytes.old }
{
    write_septets(bytes, at, number < 0, SIGNED, magnitude(number))
}
