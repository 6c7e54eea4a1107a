// Walks over the parts of a stream.
use crate::tests::same;
use wasm_base::{Error, Fault, Result};
use wasm_examples::{end_of, start_of};

fn end(bytes: &[u8]) -> Result<u64> {
    end_of(bytes)
}

#[test]
fn where_streams_end(rt: HostRuntime) {
    same(&rt, end(b"\0asm\x01\0\0\0"), Ok(8));
    same(&rt, end(b"\0asm\x01\0\0\0\x00\x02\x01a"), Ok(12));
    let id = Error::new(Fault::MalformedSectionId, 8);
    same(&rt, end(b"\0asm\x01\0\0\0\x80"), Err(id));
    let cut = Error::new(Fault::UnexpectedEof, 0);
    same(&rt, end(b""), Err(cut));
}

fn start(bytes: &[u8]) -> Result<Option<u32>> {
    start_of(bytes)
}

#[test]
fn which_function_starts(rt: HostRuntime) {
    same(&rt, start(b"\0asm\x01\0\0\0"), Ok(None));
    let stream = b"\0asm\x01\0\0\0\x03\x01\0\x08\x02\x85\x01\x09\x01\0";
    same(&rt, start(stream), Ok(Some(133)));
    let order = Error::new(Fault::OutOfOrder, 13);
    let stream = b"\0asm\x01\0\0\0\x08\x01\x01\x03\x01\0";
    same(&rt, start(stream), Err(order));
}
