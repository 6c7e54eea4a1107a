// Each call of a reader once.
use crate::tests::{same, window};
use bitflags::Flags;
use std::test::Fail;
use wasm_base::{BinaryReader, Error, Fault, FromReader, WasmFeatures, fits};

#[test]
fn numbers(rt: HostRuntime) {
    let mut reader = window(
        b"\x05\x7f\x80\x01\x80\x7f\x82\x80\x01\xff\x7e\x80\x80\x01\x04\x03\x02\x01",
        9,
    );
    same(&rt, reader.read_u8(), Ok(5));
    same(&rt, reader.read_u7(), Ok(127));
    same(&rt, reader.read_var_u32(), Ok(128));
    same(&rt, reader.read_var_i32(), Ok(-128));
    same(&rt, reader.read_var_u64(), Ok(16386));
    same(&rt, reader.read_var_i64(), Ok(-129));
    same(&rt, reader.read_var_s33(), Ok(16384));
    same(&rt, reader.read_u32(), Ok(0x01020304));
    assert!(rt; reader.eof());
}

#[test]
fn floats(rt: HostRuntime) -> Result<(), Fail> {
    let mut floats = window(b"\x00\x00\x80\x3f\x01\x02\x03\x04\x05\x06\xf8\x7f", 0);
    same(&rt, floats.read_f32()?.bits(), 1065353216);
    let nan = floats.read_f64()?;
    same(&rt, nan.bits(), 0x7ff8060504030201);
    same(&rt, nan.clone()?, nan);
    Ok(())
}

#[test]
fn texts_and_what_is_skipped(rt: HostRuntime) {
    let mut reader = window(b"\x01a\x02\xc3\xa4\x82\x00\xc3\x28\x05\x80\x01", 0);
    same(&rt, reader.read_string(), Ok("a"));
    same(&rt, reader.read_unlimited_string(), Ok("ä"));
    same(&rt, reader.skip_string(), Ok(()));
    same(&rt, reader.skip_var_u32s(2), Ok(()));
    assert!(rt; reader.eof());
    same(
        &rt,
        window(b"\0asm\x0d\0\x01\0", 0).read_header_version(),
        Ok(65549),
    );
}

// The size of a name and its bytes, all `a` but one, and then more bytes.
fn name_with(len: u8, place: u8, byte: u8) -> [u8; 71] {
    let mut stream = [b'a'; 71];
    stream[0] = len;
    if let Some(at) = stream.get_mut(usize::from(place) + 1) {
        *at = byte;
    }
    stream
}

// Names of each length below 70, with another byte at each place, which is ASCII or no character.
#[test]
fn bytes_of_names(rt: HostRuntime) {
    for len in 0..70u8 {
        for place in 0..len {
            let ascii = name_with(len, place, 127);
            let bytes = ascii.get(1..usize::from(len) + 1).unwrap_or(b"");
            same(&rt, window(&ascii, 0).read_string_bytes(), Ok(bytes));
            let malformed = Error::new(Fault::MalformedUtf8, u64::from(len));
            for byte in [128, 0xc3, 0xff] {
                let stream = name_with(len, place, byte);
                same(&rt, window(&stream, 0).read_string_bytes(), Err(malformed));
            }
        }
    }
}

#[test]
fn bytes_of_a_name(rt: HostRuntime) {
    let mut reader = window(b"\0\x02\xc3\xa4\x03ab", 0);
    same(&rt, reader.read_string_bytes(), Ok(b"".as_slice()));
    same(&rt, reader.read_string_bytes(), Ok(b"\xc3\xa4".as_slice()));
    let refused = reader.read_string_bytes().err();
    let facts = refused.map(|error| (error.fault(), error.offset(), error.needed_hint()));
    same(&rt, facts, Some((Fault::UnexpectedEof, 5, Some(1))));
    // A size of 100,001.
    let size = Error::new(Fault::StringSize, 2);
    same(
        &rt,
        window(b"\xa1\x8d\x06", 0).read_string_bytes(),
        Err(size),
    );
}

#[test]
fn items_of_a_reader(rt: HostRuntime) {
    let mut reader = window(&[1, 2, 0x68, 0x69, 0x85, 1, 0, 3], 9);
    same(&rt, bool::from_reader(&mut reader), Ok(true));
    same(&rt, reader.read::<&str>(), Ok("hi"));
    same(&rt, reader.read::<(u32, bool)>(), Ok((133, false)));
    let invalid = Error::new(Fault::InvalidBool, 16);
    same(&rt, reader.read::<bool>(), Err(invalid));
}

#[test]
fn texts_of_a_reader(rt: HostRuntime) {
    let mut texts = window(b"\x01a\x01b\x07", 0);
    same(&rt, <(&str, &str)>::from_reader(&mut texts), Ok(("a", "b")));
    same(&rt, u32::from_reader(&mut texts), Ok(7));
    same(&rt, <&str>::from_reader(&mut window(b"\x01c", 0)), Ok("c"));
}

#[test]
fn a_window_in_a_window(rt: HostRuntime) -> Result<(), Fail> {
    let mut reader = BinaryReader::new_features(&[5, 2, 8, 9, 1], 100, WasmFeatures::MEMORY64);
    assert!(rt; reader.memory64());
    assert!(rt; !reader.features().contains(WasmFeatures::COMPACT_IMPORTS));
    same(&rt, [reader.peek(), reader.read_u8()], [Ok(5), Ok(5)]);
    let window = reader.read_reader()?;
    same(&rt, window.range(), 102..104);
    same(&rt, window.remaining_buffer(), [8, 9].as_slice());
    assert!(rt; window.memory64());
    same(
        &rt,
        (reader.current_position(), reader.original_position()),
        (4, 104),
    );
    Ok(())
}

#[test]
fn places_in_a_window(rt: HostRuntime) -> Result<(), Fail> {
    let mut reader = window(&[5, 2, 8, 9, 1, 2, 3, 4], 100);
    reader.read_bytes(4)?;
    same(
        &rt,
        [
            reader.range(),
            reader.remaining_range(),
            reader.shrink().range(),
        ],
        [100..108, 104..108, 104..108],
    );
    same(&rt, reader.bytes_remaining(), 4);
    same(&rt, reader.peek_bytes(2), Ok([1, 2].as_slice()));
    same(&rt, reader.clone()?.read_u32(), Ok(0x04030201));
    same(&rt, reader.read_bytes(4), Ok([1, 2, 3, 4].as_slice()));
    assert!(rt; reader.eof());
    let missing = Error::new(Fault::UnexpectedEof, 108);
    same(&rt, reader.peek(), Err(missing));
    Ok(())
}

#[test]
fn the_window_that_a_closure_skips(rt: HostRuntime) -> Result<(), Fail> {
    let mut bytes = BinaryReader::new_features(b"\x01\x80\x01\x61\x62", 0, WasmFeatures::MEMORY64);
    bytes.read_u8()?;
    let window = bytes.skip(|inside| {
        inside.read_var_u32()?;
        inside.read_u8()?;
        Ok(())
    })?;
    same(&rt, window.range(), 1..4);
    same(&rt, window.remaining_buffer(), b"\x80\x01\x61".as_slice());
    assert!(rt; window.memory64());
    same(&rt, bytes.current_position(), 4);
    Ok(())
}

#[test]
fn a_closure_that_skips_nothing_and_one_that_fails(rt: HostRuntime) -> Result<(), Fail> {
    let mut bytes = window(b"\x61\x62\x80", 3);
    bytes.read_u8()?;
    same(&rt, bytes.skip(|_inside| Ok(()))?.range(), 4..4);
    let refused = bytes.skip(|inside| {
        inside.read_u8()?;
        inside.read_var_u32()?;
        Ok(())
    });
    let missing = Error::new(Fault::UnexpectedEof, 6);
    same(&rt, refused.err(), Some(missing));
    Ok(())
}

#[test]
fn room_below_the_top(rt: HostRuntime) {
    assert!(rt; fits(18446744073709551608, 7));
    assert!(rt; !fits(18446744073709551608, 8));
    assert!(rt;
        BinaryReader::new(&[], 18446744073709551615)
            .features()
            .contains(WasmFeatures::all())
    );
}
