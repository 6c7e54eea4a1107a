// Bundles of imports (core specification, Binary format, Modules, Import Section; the proposal for compact imports).
use super::{encodes, is_refused};
use wasm_base::{BinaryReader, FromReader, SectionLimited, WasmFeatures};
use wasm_items::{Import, Imports, TypeRef};

// Imports of the module `m`: a count and bytes.
fn of_module<'a>(count: u32, bytes: &'a [u8]) -> Imports<'a> {
    Imports::Compact1 {
        module: "m",
        items: SectionLimited::after_count(BinaryReader::new(bytes, 7), count),
    }
}

// Names of functions of type 5 of the module `m`: a count and bytes.
fn of_type<'a>(count: u32, bytes: &'a [u8]) -> Imports<'a> {
    Imports::Compact2 {
        module: "m",
        ty: TypeRef::Func(5),
        names: SectionLimited::after_count(BinaryReader::new(bytes, 7), count),
    }
}

#[test]
fn bundles(rt: HostRuntime) {
    let import = Import {
        module: "m",
        name: "f",
        ty: TypeRef::Func(5),
    };
    encodes(&rt, &Imports::Single(3, import), b"\x01m\x01f\0\x05");
    let two = of_module(2, b"\x01f\0\x05\x01g\x02\0\x01");
    encodes(&rt, &two, b"\x01m\0\x7f\x02\x01f\0\x05\x01g\x02\0\x01");
    encodes(
        &rt,
        &of_type(2, b"\x01f\x01g"),
        b"\x01m\0\x7e\0\x05\x02\x01f\x01g",
    );
}

#[test]
fn bundles_that_are_refused(rt: HostRuntime) {
    // An import is missing, has no type, or is one more.
    is_refused(&rt, &of_module(2, b"\x01f\0\x05"));
    is_refused(&rt, &of_module(1, b"\x01f"));
    is_refused(&rt, &of_module(0, b"\x01f\0\x05"));
    is_refused(&rt, &of_type(2, b"\x01f\x02g"));
}

#[test]
fn a_bundle_that_was_read(rt: HostRuntime) {
    let bytes = b"\x01m\0\x7e\0\x05\x02\x01f\x01g";
    let mut reader = BinaryReader::new_features(bytes, 90, WasmFeatures::COMPACT_IMPORTS);
    match Imports::from_reader(&mut reader) {
        Ok(bundle) => encodes(&rt, &bundle, bytes),
        Err(_) => panic!(&rt; "not a bundle"),
    }
}
