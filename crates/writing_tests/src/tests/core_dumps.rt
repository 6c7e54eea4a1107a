// Parts of core dumps (tool conventions, Coredump).
use crate::tests::encodes;
use std::alloc::Global;
use std::process::Abort;
use wasm_base::{BinaryReader, FromReader, FromReaderIn};
use wasm_custom::{CoreDumpInstance, CoreDumpStackFrame, CoreDumpValue};

#[test]
fn values(rt: HostRuntime) {
    encodes(&rt, &CoreDumpValue::Missing, b"\x01");
    encodes(&rt, &CoreDumpValue::I32(-2), b"\x7f\x7e");
    encodes(&rt, &CoreDumpValue::I64(64), b"\x7e\xc0\0");
}

// The value that these bytes begin with is written as them.
fn is_value(rt: &impl Abort, bytes: &[u8]) {
    match CoreDumpValue::from_reader(&mut BinaryReader::new(bytes, 5)) {
        Ok(value) => encodes(rt, &value, bytes),
        Err(_) => panic!(rt; "no value"),
    }
}

#[test]
fn floats(rt: HostRuntime) {
    is_value(&rt, b"\x7d\x01\x02\xc0\x7f");
    is_value(&rt, b"\x7c\x01\x02\x03\x04\x05\x06\xf0\x3f");
}

// The instance that these bytes begin with is written as those.
fn is_instance(rt: &impl Abort, alloc: Global, bytes: &[u8], wanted: &[u8]) {
    match CoreDumpInstance::from_reader(alloc, &mut BinaryReader::new(bytes, 5)) {
        Ok(instance) => encodes(rt, &instance, wanted),
        Err(_) => panic!(rt; "no instance"),
    }
}

#[test]
fn instances(rt: HostRuntime) {
    let bytes = b"\0\x01\x02\x07\xac\x02\0";
    is_instance(&rt, rt.alloc(), bytes, bytes);
    // Numbers with bytes more than they take.
    is_instance(
        &rt,
        rt.alloc(),
        b"\0\x81\0\x80\0\x01\x85\0",
        b"\0\x01\0\x01\x05",
    );
}

#[test]
fn frames(rt: HostRuntime) {
    let bytes = b"\0\x04\x2a\xb3\x01\x02\x7f\x01\x01\x01\x7e\x03";
    match CoreDumpStackFrame::from_reader(rt.alloc(), &mut BinaryReader::new(bytes, 5)) {
        Ok(frame) => encodes(&rt, &frame, bytes),
        Err(_) => panic!(&rt; "no frame"),
    }
}
