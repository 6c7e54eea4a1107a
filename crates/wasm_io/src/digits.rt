// The digits of a number, written from the first to the last, and offsets, in decimal or in hexadecimal.
ghost use Rattle.std.specs.Prelude.{◌≡◌, ◌+◌, ◌<◌, ◌≤◌, ◌^◌, ◌++◌, codes, false, length, take};
ghost use Rattle.std.specs.Fmt.{decimal, digit_glyph, digits};
ghost use Rattle.wasm_io.specs.Digits.{last_digits};
ghost use Rattle.wasm_io.specs.Offsets.{offset_text};

use crate::short_text::write_word;

// The two digits of each number below 100, one pair after the other.
static PAIRS: [u8; 200] =
    *b"0001020304050607080910111213141516171819202122232425262728293031323334353637383940414243444546474849\
    5051525354555657585960616263646566676869707172737475767778798081828384858687888990919293949596979899";

// Writes two digits, which the table has side by side.
#[inline(always)]
fn write_two(bytes: &mut [u8], at: usize, number: u64) -> usize
    requires { (number < 100) × (at + 2 ≤ length bytes.old) }
    ensures end { result ≡ at + 2 }
    ensures written { take result bytes.new ≡ take at bytes.old ++ last_digits 2 number }
{
    let first = 2 * number as usize;
    bytes[at] = PAIRS[first];
    bytes[at + 1] = PAIRS[first + 1];
    at + 2
}

// Writes four digits.
#[inline(always)]
fn write_four(bytes: &mut [u8], at: usize, number: u64) -> usize
    requires { (number < 10000) × (at + 4 ≤ length bytes.old) }
    ensures end { result ≡ at + 4 }
    ensures written { take result bytes.new ≡ take at bytes.old ++ last_digits 4 number }
{
    let middle = write_two(bytes, at, number / 100);
    write_two(bytes, middle, number % 100)
}

// Writes eight digits.
#[inline(always)]
fn write_eight(bytes: &mut [u8], at: usize, number: u64) -> usize
    requires { (number < 100000000) × (at + 8 ≤ length bytes.old) }
    ensures end { result ≡ at + 8 }
    ensures written { take result bytes.new ≡ take at bytes.old ++ last_digits 8 number }
{
    let middle = write_four(bytes, at, number / 10_000);
    write_four(bytes, middle, number % 10_000)
}

// Writes a number of at most two digits.
#[inline(always)]
fn write_to_two(bytes: &mut [u8], at: usize, number: u64) -> usize
    requires { (number < 100) × (at + 2 ≤ length bytes.old) }
    ensures short { result ≤ at + 2 }
    ensures written { take result bytes.new ≡ take at bytes.old ++ decimal number }
{
    if number < 10 {
        bytes[at] = b'0' + number as u8;
        return at + 1;
    }
    write_two(bytes, at, number)
}

// Writes a number of at most four digits.
#[inline(always)]
fn write_to_four(bytes: &mut [u8], at: usize, number: u64) -> usize
    requires { (number < 10000) × (at + 4 ≤ length bytes.old) }
    ensures short { result ≤ at + 4 }
    ensures written { take result bytes.new ≡ take at bytes.old ++ decimal number }
{
    if number < 100 {
        return write_to_two(bytes, at, number);
    }
    let middle = write_to_two(bytes, at, number / 100);
    write_two(bytes, middle, number % 100)
}

// Writes a number of at most eight digits.
#[inline(always)]
fn write_to_eight(bytes: &mut [u8], at: usize, number: u64) -> usize
    requires { (number < 100000000) × (at + 8 ≤ length bytes.old) }
    ensures short { result ≤ at + 8 }
    ensures written { take result bytes.new ≡ take at bytes.old ++ decimal number }
{
    if number < 10_000 {
        return write_to_four(bytes, at, number);
    }
    let middle = write_to_four(bytes, at, number / 10_000);
    write_four(bytes, middle, number % 10_000)
}

// Writes a number of at most twelve digits.
fn write_to_twelve(bytes: &mut [u8], at: usize, number: u64) -> usize
    requires { (number < 1000000000000) × (at + 12 ≤ length bytes.old) }
    ensures short { result ≤ at + 12 }
    ensures written { take result bytes.new ≡ take at bytes.old ++ decimal number }
{
    if number < 100_000_000 {
        return write_to_eight(bytes, at, number);
    }
    let middle = write_to_four(bytes, at, number / 100_000_000);
    write_eight(bytes, middle, number % 100_000_000)
}

// Writes a number of more than eight digits. Out of line, because such numbers are rare.
#[inline(never)]
fn write_long(bytes: &mut [u8], at: usize, number: u64) -> usize
    requires { (100000000 ≤ number) × (at + 20 ≤ length bytes.old) }
    ensures short { result ≤ at + 20 }
    ensures written { take result bytes.new ≡ take at bytes.old ++ decimal number }
{
    let middle = write_to_twelve(bytes, at, number / 100_000_000);
    write_eight(bytes, middle, number % 100_000_000)
}

/// Writes a number in decimal at the index `at` of `bytes`, and returns the index after its last digit.
///
/// From `at` on there must be 20 bytes, the most that a `u64` takes. Later bytes may be overwritten.
///
/// ```rattle
/// let mut bytes = [0; 24];
/// let end = write_number(&mut bytes, 0, 1234);
/// assert_eq!(rt; &bytes[..end], b"1234".as_slice());
/// ```
#[inline(always)]
pub fn write_number(bytes: &mut [u8], at: usize, number: u64) -> usize
    requires { at + 20 ≤ length bytes.old }
    ensures short { result ≤ at + 20 }
    // Proved: a number is its decimal digits [`written` of `write_number` and of `ShortText` of
    //   `u64` (`decimal`)]
    ensures written { take result bytes.new ≡ take at bytes.old ++ decimal number }
{
    if number < 100_000_000 {
        return write_to_eight(bytes, at, number);
    }
    write_long(bytes, at, number)
}

/// The base in which a text has its offsets.
#[derive(Clone, Copy)]
pub enum Base {
    /// Decimal digits.
    Decimal,
    /// `0x` and hexadecimal digits.
    Hexadecimal,
}

// The hexadecimal digit of a number below 16.
fn digit_of(number: u64) -> u8
    requires { number < 16 }
    ensures { result ≡ digit_glyph false number }
{
    if number < 10 {
        b'0' + number as u8
    } else {
        b'a' + (number - 10) as u8
    }
}

// Writes a number of at most `most` hexadecimal digits.
fn write_digits(bytes: &mut [u8], at: usize, number: u64, most: usize) -> usize
    requires { (0 < most) × (number < 16 ^ most) × (at + most ≤ length bytes.old) }
    ensures short { result ≤ at + most }
    ensures written { take result bytes.new ≡ take at bytes.old ++ digits 16 false number }
{
    if number < 16 {
        bytes[at] = digit_of(number);
        return at + 1;
    }
    let end = write_digits(bytes, at, number / 16, most - 1);
    bytes[end] = digit_of(number % 16);
    end + 1
}

// Writes an offset in hexadecimal. Out of line, because most texts are decimal.
#[inline(never)]
fn write_hexadecimal(bytes: &mut [u8], at: usize, offset: u64) -> usize
    requires { at + 20 ≤ length bytes.old }
    ensures short { result ≤ at + 20 }
    ensures written { take result bytes.new ≡ take at bytes.old ++ (codes "0x" ++ digits 16 false offset) }
{
    let after = write_word(bytes, at, "0x");
    write_digits(bytes, after, offset, 16)
}

/// Writes an offset in a base at the index `at` of `bytes`, and returns the index after it.
///
/// From `at` on there must be 20 bytes. Later bytes may be overwritten.
///
/// ```rattle
/// let mut bytes = [0; 20];
/// let end = write_offset(&mut bytes, 0, Base::Hexadecimal, 1234);
/// assert_eq!(rt; &bytes[..end], b"0x4d2".as_slice());
/// ```
#[inline(always)]
pub fn write_offset(bytes: &mut [u8], at: usize, base: Base, offset: u64) -> usize
    requires { at + 20 ≤ length bytes.old }
    ensures short { result ≤ at + 20 }
    // Proved: an offset is its decimal digits, or `0x` and its hexadecimal digits as `{:x}` writes
    //   them
    ensures written { take result bytes.new ≡ take at bytes.old ++ offset_text base offset }
{
    match base {
        Base::Decimal => write_number(bytes, at, offset),
        Base::Hexadecimal => write_hexadecimal(bytes, at, offset),
    }
}
