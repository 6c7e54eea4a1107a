// What tools write: features, producers and branch hints (tool conventions).
use crate::tests::{encodes, is_refused};
use std::process::Abort;
use wasm_base::{BinaryReader, SectionLimited};
use wasm_custom::{
    BranchHint, BranchHintFunction, ProducersField, ProducersFieldValue, TargetFeature,
};

// A list with these bytes, its count first.
fn list<'a, T>(rt: &impl Abort, bytes: &'a [u8]) -> SectionLimited<'a, T> {
    match SectionLimited::new(BinaryReader::new(bytes, 9)) {
        Ok(list) => list,
        Err(_) => panic!(rt; "no count"),
    }
}

#[test]
fn target_features(rt: HostRuntime) {
    let feature = TargetFeature {
        prefix: b'+',
        name: "simd128",
    };
    encodes(&rt, &feature, b"+\x07simd128");
}

#[test]
fn producers(rt: HostRuntime) {
    let value = ProducersFieldValue {
        name: "Rust",
        version: "1.80",
    };
    encodes(&rt, &value, b"\x04Rust\x041.80");
}

#[test]
fn branch_hints(rt: HostRuntime) {
    let likely = BranchHint {
        func_offset: 200,
        taken: true,
    };
    encodes(&rt, &likely, b"\xc8\x01\x01\x01");
    let unlikely = BranchHint {
        func_offset: 9,
        taken: false,
    };
    encodes(&rt, &unlikely, b"\x09\x01\0");
}

// A field with this name and this list.
fn field<'a>(rt: &impl Abort, name: &'a str, values: &'a [u8]) -> ProducersField<'a> {
    ProducersField {
        name,
        values: list(rt, values),
    }
}

#[test]
fn producers_fields(rt: HostRuntime) {
    let tools = field(&rt, "sdk", b"\x02\x01a\0\0\x01b");
    encodes(&rt, &tools, b"\x03sdk\x02\x01a\0\0\x01b");
    // A count with a byte more than it takes.
    let languages = field(&rt, "language", b"\x81\0\x04Rust\0");
    encodes(&rt, &languages, b"\x08language\x01\x04Rust\0");
}

#[test]
fn refused_producers_fields(rt: HostRuntime) {
    // Another name, a value more than announced, and one less.
    is_refused(&rt, &field(&rt, "tool", b"\x01\x01a\0"));
    is_refused(&rt, &field(&rt, "sdk", b"\x01\x01a\0\0"));
    is_refused(&rt, &field(&rt, "sdk", b"\x02\x01a\0"));
}

#[test]
fn branch_hints_of_a_function(rt: HostRuntime) {
    let function = BranchHintFunction {
        func: 300,
        hints: list(&rt, b"\x02\x09\x01\x01\x0c\x01\0"),
    };
    encodes(&rt, &function, b"\xac\x02\x02\x09\x01\x01\x0c\x01\0");
    let function = BranchHintFunction {
        func: 300,
        hints: list(&rt, b"\x01\x09\x01\x02"),
    };
    is_refused(&rt, &function);
}
