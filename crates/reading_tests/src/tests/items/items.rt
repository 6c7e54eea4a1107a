// Types and items of sections, by the debug texts of their copies. Tables of rows are in `test_rows`.
use crate::tests::{prints, prints_in, same};
use std::test::Fail;
use wasm_base::{BinaryReader, FromReaderIn};
use wasm_items::{
    ConstExpr, Export, FuncType, Global, HeapType, MemoryType, RecGroup, RefType, Table, TableType,
    TagType, ValType, ValTypes,
};

/// Types of values, the offsets after them and their debug texts.
const TYPES: [(&[u8], u64, &str); 7] = [
    (b"\x7f", 10, "I32"),
    (b"\x7e", 10, "I64"),
    (b"\x7d", 10, "F32"),
    (b"\x7c", 10, "F64"),
    (b"\x7b\x7b", 10, "V128"),
    (b"\x63\x6d", 11, "Ref(RefType { nullable: true, heap: Eq })"),
    (
        b"\x64\x80\x01",
        12,
        "Ref(RefType { nullable: false, heap: Concrete(128) })",
    ),
];

#[test]
fn types_of_values(rt: HostRuntime) {
    prints::<HeapType>(&rt, rt.alloc(), b"\x6f\x70", 3, 4, "Extern");
    prints::<HeapType>(&rt, rt.alloc(), b"\xf0\0", 3, 5, "Concrete(112)");
    let text = "RefType { nullable: true, heap: NoExn }";
    prints::<RefType>(&rt, rt.alloc(), b"\x74", 0, 1, text);
    let text = "RefType { nullable: false, heap: Concrete(128) }";
    prints::<RefType>(&rt, rt.alloc(), b"\x64\x80\x01", 0, 3, text);
    for (bytes, end, text) in &TYPES {
        prints::<ValType>(&rt, rt.alloc(), bytes, 9, *end, text);
    }
}

#[test]
fn groups_of_types(rt: HostRuntime) {
    let bytes = b"\x4e\x02\x60\x01\x7f\x00\x4f\x01\x80\x00\x5f\x02\x77\x00\x64\x83\x00\x01";
    let text = "RecGroup { explicit: true, types: [\
        SubType { is_final: true, supertype: None, composite: Func(FuncType { params: [I32], results: [] }) }, \
        SubType { is_final: true, supertype: Some(0), composite: Struct([\
        FieldType { storage: I16, mutable: false }, \
        FieldType { storage: Val(Ref(RefType { nullable: false, heap: Concrete(3) })), mutable: true }]) }] }";
    prints_in::<RecGroup>(&rt, rt.alloc(), bytes, 40, 58, text);
    let text = "RecGroup { explicit: false, types: [SubType { is_final: false, supertype: None, \
        composite: Array(FieldType { storage: I8, mutable: true }) }] }";
    prints_in::<RecGroup>(&rt, rt.alloc(), b"\x50\x00\x5e\x78\x01", 0, 5, text);
}

// The lengths of lists, whether the first is empty, and its second type.
fn measured(ty: &FuncType) -> (usize, usize, bool, Option<ValType>) {
    let second = ty.params.get(1).copied();
    (
        ty.params.len(),
        ty.results.len(),
        ty.params.is_empty(),
        second,
    )
}

// Whether the results begin with the parameters, by slices and by iterating.
fn begins_alike(ty: &FuncType) -> (bool, usize) {
    let mut alike = 0_usize;
    for (param, result) in (&ty.params).into_iter().zip(&ty.results) {
        alike = alike.wrapping_add(usize::from(param == result));
    }
    let begins = ty.results.as_slice().starts_with(ty.params.as_slice());
    (begins && ty.params != ty.results, alike)
}

// Six types are in the list itself, seven are allocated.
#[test]
fn lists_of_types(rt: HostRuntime) -> Result<(), Fail> {
    let bytes = b"\x06\x7f\x7e\x7d\x7c\x7b\x70\x07\x7f\x7e\x7d\x7c\x7b\x70\x6f";
    let ty = FuncType::from_reader(rt.alloc(), &mut BinaryReader::new(bytes, 0))?;
    same(&rt, measured(&ty), (6, 7, false, Some(ValType::I64)));
    same(&rt, begins_alike(&ty), (true, 6));
    Ok(())
}

// A list made of a `Vec` equals one that was read, and gives the `Vec` back; one whose items are in place gives itself back.
#[test]
fn lists_of_types_that_callers_build(rt: HostRuntime) -> Result<(), Fail> {
    let made = ValTypes::from_vec([ValType::I32, ValType::I64].to_vec(rt.alloc())?);
    let bytes = b"\x02\x7f\x7e\0";
    let read = FuncType::from_reader(rt.alloc(), &mut BinaryReader::new(bytes, 0))?.params;
    assert!(rt; made == read);
    same(&rt, taken(made), Ok(2));
    same(&rt, taken(read), Err(2));
    Ok(())
}

// The length of the `Vec`, or else of the list.
fn taken(list: ValTypes) -> std::result::Result<usize, usize> {
    match list.into_vec() {
        Ok(items) => Ok(items.len()),
        Err(list) => Err(list.len()),
    }
}

#[test]
fn memories_tags_and_exports(rt: HostRuntime) {
    let text =
        "MemoryType { memory64: true, shared: true, initial: 1, maximum: Some(2), page_size_log2: Some(3) }";
    prints::<MemoryType>(
        &rt,
        rt.alloc(),
        b"\x0f\x81\x00\x82\x00\x83\x00\x00",
        300,
        307,
        text,
    );
    let text = "TagType { kind: Exception, func_type_idx: 5 }";
    prints::<TagType>(&rt, rt.alloc(), b"\x00\x85\x00\x09", 10, 13, text);
    let text = "Export { name: \"é\", kind: Tag, index: 5 }";
    prints::<Export<'_>>(
        &rt,
        rt.alloc(),
        b"\x02\xc3\xa9\x04\x85\x80\x00",
        10,
        17,
        text,
    );
}

#[test]
fn tables_and_globals(rt: HostRuntime) {
    let text =
        "Table { ty: TableType { element_type: RefType { nullable: true, heap: Extern }, table64: true, \
        initial: 1, maximum: Some(2), shared: false }, init: Expr(ConstExpr { reader: BinaryReader { bytes: [208, 111, 11], start: 16, position: 0, features: WasmFeatures(3) } }) }";
    let bytes = b"\x40\x00\x6f\x05\x01\x02\xd0\x6f\x0b\xff";
    prints::<Table<'_>>(&rt, rt.alloc(), bytes, 10, 19, text);
    let text = "TableType { element_type: RefType { nullable: true, heap: Extern }, table64: true, \
        initial: 5, maximum: None, shared: true }";
    prints::<TableType>(&rt, rt.alloc(), b"\x6f\x06\x05\x0b", 10, 13, text);
    let text =
        "Global { ty: GlobalType { content_type: Ref(RefType { nullable: false, heap: Concrete(3) }), \
        mutable: false, shared: true }, init_expr: ConstExpr { reader: BinaryReader { bytes: [210, 133, 0, 11], start: 14, position: 0, features: WasmFeatures(3) } } }";
    prints::<Global<'_>>(
        &rt,
        rt.alloc(),
        b"\x64\x83\x00\x02\xd2\x85\x00\x0b\x00",
        10,
        18,
        text,
    );
    let text = "Table { ty: TableType { element_type: RefType { nullable: true, heap: Func }, \
        table64: false, initial: 1, maximum: None, shared: false }, init: Expr(ConstExpr { reader: \
        BinaryReader { bytes: [208, 112, 11], start: 5, position: 0, features: WasmFeatures(3) } }) }";
    let bytes = b"\x40\0\x70\0\x01\xd0\x70\x0b";
    prints::<Table<'_>>(&rt, rt.alloc(), bytes, 0, 8, text);
    let text = "Global { ty: GlobalType { content_type: I32, mutable: true, shared: false }, \
        init_expr: ConstExpr { reader: BinaryReader { bytes: [65, 5, 11], start: 2, position: 0, features: WasmFeatures(3) } } }";
    prints::<Global<'_>>(&rt, rt.alloc(), b"\x7f\x01\x41\x05\x0b", 0, 5, text);
    let bytes = b"\x41\x7f\x42\x7f\x7c\x0b\x0b";
    prints::<ConstExpr<'_>>(
        &rt,
        rt.alloc(),
        bytes,
        1000,
        1006,
        "ConstExpr { reader: BinaryReader { bytes: [65, 127, 66, 127, 124, 11], start: 1000, position: 0, features: WasmFeatures(3) } }",
    );
}
