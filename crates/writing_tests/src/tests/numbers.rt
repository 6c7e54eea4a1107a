// Numbers and names (core specification, Binary format, Values).
use std::process::Abort;
use wasm_encode::{
    name_fits, name_len, signed_len, unsigned_len, write_name, write_signed, write_unsigned,
};

// A number is written as these bytes, after one other byte.
fn is_unsigned(rt: &impl Abort, number: u64, wanted: &[u8]) {
    let mut bytes = [0xaa; 12];
    assert_eq!(rt; unsigned_len(number), wanted.len());
    assert!(rt; wanted.len() <= 10);
    let end = write_unsigned(&mut bytes, 1, number);
    assert_eq!(rt; &bytes[1..end], wanted);
    assert!(rt; bytes[0] == 0xaa && bytes[end] == 0xaa);
}

// The same for a signed number.
fn is_signed(rt: &impl Abort, number: i64, wanted: &[u8]) {
    let mut bytes = [0xaa; 12];
    assert_eq!(rt; signed_len(number), wanted.len());
    assert!(rt; wanted.len() <= 10);
    let end = write_signed(&mut bytes, 1, number);
    assert_eq!(rt; &bytes[1..end], wanted);
    assert!(rt; bytes[0] == 0xaa && bytes[end] == 0xaa);
}

#[test]
fn unsigned_numbers(rt: HostRuntime) {
    is_unsigned(&rt, 0, b"\0");
    is_unsigned(&rt, 127, b"\x7f");
    is_unsigned(&rt, 128, b"\x80\x01");
    is_unsigned(&rt, 16_383, b"\xff\x7f");
    is_unsigned(&rt, 16_384, b"\x80\x80\x01");
    is_unsigned(&rt, 624_485, b"\xe5\x8e\x26");
    is_unsigned(&rt, 0xffff_ffff, b"\xff\xff\xff\xff\x0f");
    is_unsigned(&rt, u64::MAX, b"\xff\xff\xff\xff\xff\xff\xff\xff\xff\x01");
}

#[test]
fn signed_numbers(rt: HostRuntime) {
    is_signed(&rt, 0, b"\0");
    is_signed(&rt, -1, b"\x7f");
    is_signed(&rt, 63, b"\x3f");
    is_signed(&rt, 64, b"\xc0\0");
    is_signed(&rt, -64, b"\x40");
    is_signed(&rt, -65, b"\xbf\x7f");
    is_signed(&rt, -123_456, b"\xc0\xbb\x78");
    is_signed(&rt, 8_191, b"\xff\x3f");
    is_signed(&rt, 8_192, b"\x80\xc0\0");
}

#[test]
fn extreme_signed_numbers(rt: HostRuntime) {
    is_signed(&rt, i64::MAX, b"\xff\xff\xff\xff\xff\xff\xff\xff\xff\0");
    is_signed(&rt, i64::MIN, b"\x80\x80\x80\x80\x80\x80\x80\x80\x80\x7f");
}

// A name is written as these bytes, after one other byte.
fn is_named(rt: &impl Abort, name: &str, wanted: &[u8]) {
    assert!(rt; name_fits(name));
    assert_eq!(rt; name_len(name), wanted.len());
    assert!(rt; wanted.len() < 14);
    let mut bytes = [0xaa; 16];
    let end = write_name(&mut bytes, 1, name);
    assert_eq!(rt; &bytes[1..end], wanted);
    assert!(rt; bytes[0] == 0xaa && bytes[end] == 0xaa);
}

#[test]
fn names(rt: HostRuntime) {
    is_named(&rt, "", b"\0");
    is_named(&rt, "env", b"\x03env");
    is_named(&rt, "\u{20ac}", b"\x03\xe2\x82\xac");
}
