// Types (core specification, Binary format, Types).
use crate::tests::{encodes, is_refused};
use wasm_items::{GlobalType, HeapType, MemoryType, RefType, TableType, TagKind, TagType, ValType};

#[test]
fn heap_types(rt: HostRuntime) {
    encodes(&rt, &HeapType::NoExn, b"\x74");
    encodes(&rt, &HeapType::NoFunc, b"\x73");
    encodes(&rt, &HeapType::NoExtern, b"\x72");
    encodes(&rt, &HeapType::None, b"\x71");
    encodes(&rt, &HeapType::Func, b"\x70");
    encodes(&rt, &HeapType::Extern, b"\x6f");
    encodes(&rt, &HeapType::Any, b"\x6e");
}

#[test]
fn more_heap_types(rt: HostRuntime) {
    encodes(&rt, &HeapType::Eq, b"\x6d");
    encodes(&rt, &HeapType::I31, b"\x6c");
    encodes(&rt, &HeapType::Struct, b"\x6b");
    encodes(&rt, &HeapType::Array, b"\x6a");
    encodes(&rt, &HeapType::Exn, b"\x69");
    encodes(&rt, &HeapType::Concrete(63), b"\x3f");
    // A signed number: 105 takes two bytes.
    encodes(&rt, &HeapType::Concrete(105), b"\xe9\0");
    encodes(&rt, &HeapType::Concrete(u32::MAX), b"\xff\xff\xff\xff\x0f");
}

// A reference type.
fn reference(nullable: bool, heap: HeapType) -> RefType {
    RefType { nullable, heap }
}

#[test]
fn reference_types(rt: HostRuntime) {
    encodes(&rt, &RefType::FUNCREF, b"\x70");
    encodes(&rt, &reference(true, HeapType::Eq), b"\x6d");
    encodes(&rt, &reference(false, HeapType::Func), b"\x64\x70");
    encodes(&rt, &reference(true, HeapType::Concrete(5)), b"\x63\x05");
    encodes(
        &rt,
        &reference(false, HeapType::Concrete(64)),
        b"\x64\xc0\0",
    );
}

#[test]
fn value_types(rt: HostRuntime) {
    encodes(&rt, &ValType::I32, b"\x7f");
    encodes(&rt, &ValType::I64, b"\x7e");
    encodes(&rt, &ValType::F32, b"\x7d");
    encodes(&rt, &ValType::F64, b"\x7c");
    encodes(&rt, &ValType::V128, b"\x7b");
    encodes(&rt, &ValType::Ref(RefType::FUNCREF), b"\x70");
    let structure = reference(false, HeapType::Struct);
    encodes(&rt, &ValType::Ref(structure), b"\x64\x6b");
}

#[test]
fn table_types(rt: HostRuntime) {
    let mut ty = TableType {
        element_type: RefType::FUNCREF,
        table64: false,
        initial: 1,
        maximum: Some(300),
        shared: false,
    };
    encodes(&rt, &ty, b"\x70\x01\x01\xac\x02");
    ty.shared = true;
    encodes(&rt, &ty, b"\x70\x03\x01\xac\x02");
    ty.table64 = true;
    ty.maximum = None;
    encodes(&rt, &ty, b"\x70\x06\x01");
}

#[test]
fn memory_types(rt: HostRuntime) {
    let mut ty = MemoryType {
        memory64: false,
        shared: false,
        initial: 2,
        maximum: None,
        page_size_log2: None,
    };
    encodes(&rt, &ty, b"\0\x02");
    ty.page_size_log2 = Some(0);
    encodes(&rt, &ty, b"\x08\x02\0");
    ty.maximum = Some(128);
    ty.shared = true;
    ty.memory64 = true;
    encodes(&rt, &ty, b"\x0f\x02\x80\x01\0");
    // A page of 2^64 bytes has no size of 64 bits.
    ty.page_size_log2 = Some(64);
    is_refused(&rt, &ty);
}

#[test]
fn global_and_tag_types(rt: HostRuntime) {
    let mut ty = GlobalType {
        content_type: ValType::I64,
        mutable: true,
        shared: false,
    };
    encodes(&rt, &ty, b"\x7e\x01");
    ty.mutable = false;
    ty.shared = true;
    encodes(&rt, &ty, b"\x7e\x02");
    let tag = TagType {
        kind: TagKind::Exception,
        func_type_idx: 128,
    };
    encodes(&rt, &tag, b"\0\x80\x01");
}
