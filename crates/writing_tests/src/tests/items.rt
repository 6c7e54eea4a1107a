// Items of sections (core specification, Binary format, Modules).
use crate::tests::{encodes, is_refused};
use wasm_base::BinaryReader;
use wasm_items::{
    ConstExpr, Export, ExternalKind, Global, GlobalType, Import, MemoryType, RefType, TableType,
    TagKind, TagType, TypeRef, ValType,
};

#[test]
fn external_types(rt: HostRuntime) {
    encodes(&rt, &TypeRef::Func(300), b"\0\xac\x02");
    encodes(&rt, &TypeRef::FuncExact(1), b"\x20\x01");
    let table = TableType {
        element_type: RefType::FUNCREF,
        table64: false,
        initial: 7,
        maximum: None,
        shared: false,
    };
    encodes(&rt, &TypeRef::Table(table), b"\x01\x70\0\x07");
    let memory = MemoryType {
        memory64: false,
        shared: false,
        initial: 1,
        maximum: Some(2),
        page_size_log2: None,
    };
    encodes(&rt, &TypeRef::Memory(memory), b"\x02\x01\x01\x02");
}

#[test]
fn more_external_types(rt: HostRuntime) {
    let global = GlobalType {
        content_type: ValType::F32,
        mutable: true,
        shared: false,
    };
    encodes(&rt, &TypeRef::Global(global), b"\x03\x7d\x01");
    let tag = TagType {
        kind: TagKind::Exception,
        func_type_idx: 9,
    };
    encodes(&rt, &TypeRef::Tag(tag), b"\x04\0\x09");
}

#[test]
fn imports(rt: HostRuntime) {
    let import = Import {
        module: "env",
        name: "f",
        ty: TypeRef::Func(300),
    };
    encodes(&rt, &import, b"\x03env\x01f\0\xac\x02");
    let unnamed = Import {
        module: "",
        name: "g",
        ty: TypeRef::Func(0),
    };
    encodes(&rt, &unnamed, b"\0\x01g\0\0");
}

// An export with the index 200.
fn export(name: &str, kind: ExternalKind) -> Export<'_> {
    Export {
        name,
        kind,
        index: 200,
    }
}

#[test]
fn exports(rt: HostRuntime) {
    encodes(
        &rt,
        &export("main", ExternalKind::Func),
        b"\x04main\0\xc8\x01",
    );
    encodes(&rt, &export("t", ExternalKind::Table), b"\x01t\x01\xc8\x01");
    encodes(
        &rt,
        &export("m", ExternalKind::Memory),
        b"\x01m\x02\xc8\x01",
    );
    encodes(&rt, &export("", ExternalKind::Global), b"\0\x03\xc8\x01");
    encodes(
        &rt,
        &export("tag", ExternalKind::Tag),
        b"\x03tag\x04\xc8\x01",
    );
    // A function is exported as such, and never as an exact one.
    is_refused(&rt, &export("f", ExternalKind::FuncExact));
}

// A constant of 32 bits with this expression.
fn global(expression: &[u8]) -> Global<'_> {
    Global {
        ty: GlobalType {
            content_type: ValType::I32,
            mutable: false,
            shared: false,
        },
        init_expr: ConstExpr::new(BinaryReader::new(expression, 7)),
    }
}

#[test]
fn globals(rt: HostRuntime) {
    encodes(&rt, &global(b"\x41\x01\x0b"), b"\x7f\0\x41\x01\x0b");
    // A number with a byte more than it takes is copied.
    encodes(&rt, &global(b"\x41\x81\0\x0b"), b"\x7f\0\x41\x81\0\x0b");
    // No end, bytes after the end, and an operator that isn't constant.
    is_refused(&rt, &global(b"\x41\x01"));
    is_refused(&rt, &global(b"\x41\x01\x0b\x0b"));
    is_refused(&rt, &global(b"\0\x0b"));
}
