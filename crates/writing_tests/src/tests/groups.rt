// Groups of types (core specification, Binary format, Types, Recursive Types and Composite Types).
use crate::tests::{encodes, is_refused};
use std::alloc::Global;
use std::process::Abort;
use wasm_base::{BinaryReader, FromReaderIn};
use wasm_encode::Encode;
use wasm_items::{
    CompositeType, FieldType, FuncType, RecGroup, StorageType, SubType, SubTypes, ValType, ValTypes,
};

// A field.
fn field(storage: StorageType, mutable: bool) -> FieldType {
    FieldType { storage, mutable }
}

#[test]
fn fields(rt: HostRuntime) {
    encodes(&rt, &StorageType::I8, b"\x78");
    encodes(&rt, &StorageType::I16, b"\x77");
    encodes(&rt, &StorageType::Val(ValType::F64), b"\x7c");
    encodes(&rt, &field(StorageType::I8, true), b"\x78\x01");
    encodes(&rt, &field(StorageType::I16, false), b"\x77\0");
    let value = StorageType::Val(ValType::V128);
    encodes(&rt, &field(value, true), b"\x7b\x01");
}

// A list of these types.
fn list(rt: &impl Abort, alloc: Global, types: &[ValType]) -> ValTypes {
    let mut list = Vec::new(alloc);
    for ty in types {
        list.push(*ty).expect(rt, "out of memory");
    }
    ValTypes::from_vec(list)
}

// The type of a function with these parameters, which returns two numbers.
fn function(rt: &impl Abort, alloc: Global, params: &[ValType]) -> FuncType {
    FuncType {
        params: list(rt, alloc, params),
        results: list(rt, alloc, &[ValType::F32, ValType::F64]),
    }
}

#[test]
fn function_types(rt: HostRuntime) {
    let ty = function(&rt, rt.alloc(), &[]);
    encodes(&rt, &ty, b"\0\x02\x7d\x7c");
    let ty = function(&rt, rt.alloc(), &[ValType::I32; 7]);
    encodes(&rt, &ty, b"\x07\x7f\x7f\x7f\x7f\x7f\x7f\x7f\x02\x7d\x7c");
    encodes(
        &rt,
        &CompositeType::Func(ty),
        b"\x60\x07\x7f\x7f\x7f\x7f\x7f\x7f\x7f\x02\x7d\x7c",
    );
}

#[test]
fn array_types(rt: HostRuntime) {
    let ty = CompositeType::Array(field(StorageType::I16, true));
    encodes(&rt, &ty, b"\x5e\x77\x01");
}

// The item that these bytes begin with is written as those.
fn rewrites<'a, T: FromReaderIn<'a> + Encode + Drop>(
    rt: &impl Abort,
    alloc: Global,
    bytes: &'a [u8],
    wanted: &[u8],
) {
    let mut reader = BinaryReader::new(bytes, 0);
    let item = T::from_reader(alloc, &mut reader).expect(rt, "a fault");
    encodes(rt, &item, wanted);
}

#[test]
fn structure_types(rt: HostRuntime) {
    let bytes = b"\x5f\x02\x78\x01\x64\x6b\0";
    rewrites::<CompositeType>(&rt, rt.alloc(), bytes, bytes);
    // A structure without fields, whose count has a byte more than it takes.
    rewrites::<CompositeType>(&rt, rt.alloc(), b"\x5f\x80\0", b"\x5f\0");
}

#[test]
fn subtypes(rt: HostRuntime) {
    let bytes = b"\x50\0\x5e\x78\0";
    rewrites::<SubType>(&rt, rt.alloc(), bytes, bytes);
    let bytes = b"\x50\x01\x80\x01\x5e\x78\0";
    rewrites::<SubType>(&rt, rt.alloc(), bytes, bytes);
    let bytes = b"\x4f\x01\x05\x5e\x78\0";
    rewrites::<SubType>(&rt, rt.alloc(), bytes, bytes);
    // A final type that extends nothing is its composite type alone.
    rewrites::<SubType>(&rt, rt.alloc(), b"\x4f\0\x5e\x78\0", b"\x5e\x78\0");
}

#[test]
fn groups(rt: HostRuntime) {
    rewrites::<RecGroup>(&rt, rt.alloc(), b"\x60\0\0", b"\x60\0\0");
    let bytes = b"\x4e\x02\x60\0\0\x50\0\x5f\x01\x77\x01";
    rewrites::<RecGroup>(&rt, rt.alloc(), bytes, bytes);
    rewrites::<RecGroup>(&rt, rt.alloc(), b"\x4e\0", b"\x4e\0");
    // A group of one type that is explicit.
    rewrites::<RecGroup>(&rt, rt.alloc(), b"\x4e\x01\x60\0\0", b"\x4e\x01\x60\0\0");
}

#[test]
fn a_group_without_types(rt: HostRuntime) {
    let group = RecGroup {
        explicit: false,
        types: SubTypes::from_vec(Vec::new(rt.alloc())),
    };
    is_refused(&rt, &group);
}
