// Numbers of each length, in decimal digits.
use crate::tests::same_at;
use std::process::Abort;
use wasm_io::{ShortText, TEXT_BYTES};

/// Numbers, and their digits: those between which the way to write them changes, and some whose digits differ.
const NUMBERS: [(u64, &'static [u8]); 22] = [
    (0, b"0"),
    (7, b"7"),
    (9, b"9"),
    (10, b"10"),
    (42, b"42"),
    (99, b"99"),
    (100, b"100"),
    (507, b"507"),
    (1_234, b"1234"),
    (9_999, b"9999"),
    (10_000, b"10000"),
    (706_050, b"706050"),
    (12_345_678, b"12345678"),
    (99_999_999, b"99999999"),
    (100_000_000, b"100000000"),
    (123_456_789_012, b"123456789012"),
    (999_999_999_999, b"999999999999"),
    (1_000_000_000_000, b"1000000000000"),
    (1_020_304_050_607_080, b"1020304050607080"),
    (9_999_999_999_999_999, b"9999999999999999"),
    (10_000_000_000_000_000, b"10000000000000000"),
    (18_446_744_073_709_551_615, b"18446744073709551615"),
];

// A number is written over what is there, from a place on, and what was before it stays.
fn is_written(rt: &impl Abort, number: u64, digits: &[u8]) {
    let mut room = [b'-'; TEXT_BYTES + 3];
    let end = number.write_at(&mut room, 3);
    same_at(rt, room.get(3..end), Some(digits), &number);
    same_at(rt, &room[..3], b"---".as_slice(), &number);
}

#[test]
fn numbers_of_each_length(rt: HostRuntime) {
    for (number, digits) in &NUMBERS {
        is_written(&rt, *number, digits);
    }
}
