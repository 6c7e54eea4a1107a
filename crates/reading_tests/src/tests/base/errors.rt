// Faults as texts, and their hints.
use crate::tests::{same, window};
use std::alloc::Global;
use std::process::Abort;
use std::test::Fail;
use wasm_base::{Error, Fault, Result};

// An error is printed as this text.
fn is_text(rt: &impl Abort, alloc: Global, error: Error, wanted: &str) {
    let text = error.to_string(alloc).expect(rt, "out of memory");
    same(rt, text.as_str(), wanted);
}

#[test]
fn errors_as_text(rt: HostRuntime) {
    let error = Error::new(Fault::UnknownVersion, 4).with_number(16843009);
    let text = "unknown binary version: 16843009 (at offset 0x4)";
    is_text(&rt, rt.alloc(), error, text);
    let error = Error::new(Fault::FunctionWithoutCode, 12);
    let text = "function section has non-zero count but code section is absent (at offset 0xc)";
    is_text(&rt, rt.alloc(), error, text);
}

#[test]
fn parts_of_errors(rt: HostRuntime) {
    let error = Error::new(Fault::UnknownVersion, 4).with_number(16843009);
    same(&rt, error.number(), Some(16843009));
    same(&rt, error.fault(), Fault::UnknownVersion);
    same(&rt, error.offset(), 4);
    same(&rt, error.message(), "unknown binary version");
    // The one fault that no row has.
    let memory = Error::new(Fault::OutOfMemory, 0);
    same(&rt, memory.message(), "out of memory");
}

// The fault of what was read, if it is one.
fn fault_of<T: Drop>(read: Result<T>) -> Option<(Fault, Option<usize>)> {
    match read {
        Ok(_) => None,
        Err(error) => Some((error.fault(), error.needed_hint())),
    }
}

// Truncated input that lacks this many bytes.
fn missing(count: usize) -> Option<(Fault, Option<usize>)> {
    Some((Fault::UnexpectedEof, Some(count)))
}

#[test]
fn hints_of_raw_bytes(rt: HostRuntime) {
    same(&rt, fault_of(window(&[], 0).peek()), missing(1));
    same(&rt, fault_of(window(&[1, 2], 0).peek_bytes(5)), missing(3));
    same(
        &rt,
        fault_of(window(&[1, 2], 0).read_bytes(300)),
        missing(298),
    );
}

#[test]
fn hints_inside_a_window(rt: HostRuntime) -> std::result::Result<(), Fail> {
    let mut inside = window(&[1, 2], 0);
    inside.read_u8()?;
    same(&rt, fault_of(inside.peek_bytes(3)), missing(2));
    same(&rt, fault_of(inside.read_u32()), missing(3));
    same(&rt, fault_of(inside.read_bytes(5)), missing(4));
    same(&rt, inside.current_position(), 1);
    Ok(())
}

#[test]
fn hints_can_be_removed(rt: HostRuntime) -> std::result::Result<(), Fail> {
    let refused = window(&[1, 2], 0).read_bytes(3).err().ok_or("read")?;
    same(&rt, refused, Error::new(Fault::UnexpectedEof, 0));
    same(&rt, refused.needed_hint(), Some(1));
    same(&rt, refused.without_needed_hint().needed_hint(), None);
    same(&rt, Error::new(Fault::UnexpectedEof, 0).needed_hint(), None);
    Ok(())
}
