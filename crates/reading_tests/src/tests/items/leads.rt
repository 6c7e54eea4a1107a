// Which bytes begin an item, or choose its kind: all 256 are tried.
use crate::tests::{same, same_at, window};
use std::alloc::Global;
use std::process::Abort;
use std::test::Fail;
use wasm_base::FromReader;
use wasm_custom::{ComdatSymbol, SymbolInfo};
use wasm_items::{
    Element, ExternalKind, FieldType, GlobalType, HeapType, MemoryType, RefType, StorageType,
    SubTypeHead, Table, TableType, TagType, ValType,
};

// A row for each byte: it, between these bytes.
fn rows_of(alloc: Global, before: &[u8], after: &[u8]) -> Result<Vec<u8>, Fail> {
    let mut rows = Vec::<u8>::new(alloc);
    for byte in 0..=255_u8 {
        rows.extend_from_slice(before)?;
        rows.push(byte)?;
        rows.extend_from_slice(after)?;
    }
    Ok(rows)
}

// The bytes whose row is read as an item.
fn accepted<'a, T: FromReader<'a>>(alloc: Global, rows: &'a [u8]) -> Result<Vec<u8>, Fail> {
    let mut reader = window(rows, 0);
    let size = rows.len() / 256;
    let mut accepted = Vec::<u8>::new(alloc);
    for byte in 0..=255_u8 {
        let row = reader.read_bytes(size)?;
        match T::from_reader(&mut window(row, 0)) {
            Ok(_) => accepted.push(byte)?,
            Err(_) => {}
        }
    }
    Ok(accepted)
}

/// The bytes of reference types.
const REFERENCES: [u8; 14] = [
    0x63, 0x64, 0x69, 0x6a, 0x6b, 0x6c, 0x6d, 0x6e, 0x6f, 0x70, 0x71, 0x72, 0x73, 0x74,
];

/// Those of number types and of the vector type.
const PLAIN: [u8; 5] = [0x7b, 0x7c, 0x7d, 0x7e, 0x7f];

/// Those of packed types.
const PACKED: [u8; 2] = [0x77, 0x78];

// Each byte is followed by an index of 0, for a type that is a reference to one (core specification, Binary format, Types).
#[test]
fn bytes_of_value_types(rt: HostRuntime) -> Result<(), Fail> {
    let rows = rows_of(rt.alloc(), b"", b"\0")?;
    let found = accepted::<RefType>(rt.alloc(), &rows)?;
    same(&rt, found.as_slice(), REFERENCES.as_slice());
    let found = accepted::<ValType>(rt.alloc(), &rows)?;
    let wanted = [REFERENCES.as_slice(), &PLAIN].concat(rt.alloc())?;
    same(&rt, found.as_slice(), wanted.as_slice());
    let found = accepted::<StorageType>(rt.alloc(), &rows)?;
    let wanted = [REFERENCES.as_slice(), &PACKED, &PLAIN].concat(rt.alloc())?;
    same(&rt, found.as_slice(), wanted.as_slice());
    Ok(())
}

// These are the bytes of abstract heap types, and those that begin an index, which is not negative. One above 127 goes on with the
// byte after it.
fn are_heap_types(rt: &impl Abort, found: &[u8]) {
    for byte in 0..=255_u8 {
        let is_abstract = 0x69 <= byte && byte <= 0x74;
        let wanted = byte < 0x40 || byte > 0x7f || is_abstract;
        same_at(rt, found.contains(&byte), wanted, &byte);
    }
}

#[test]
fn bytes_of_heap_types(rt: HostRuntime) -> Result<(), Fail> {
    let rows = rows_of(rt.alloc(), b"", b"\0")?;
    are_heap_types(&rt, &accepted::<HeapType>(rt.alloc(), &rows)?);
    for before in [b"\x63", b"\x64"] {
        let rows = rows_of(rt.alloc(), before, b"\0")?;
        are_heap_types(&rt, &accepted::<RefType>(rt.alloc(), &rows)?);
    }
    Ok(())
}

#[test]
fn bytes_of_kinds_and_flags(rt: HostRuntime) -> Result<(), Fail> {
    let alloc = rt.alloc();
    let rows = rows_of(alloc, b"", b"")?;
    let found = accepted::<ExternalKind>(alloc, &rows)?;
    same(&rt, found.as_slice(), [0, 1, 2, 3, 4, 0x20].as_slice());
    // A passive segment of functions, of which there are none: its kind.
    let rows = rows_of(alloc, b"\x01", b"\0")?;
    let found = accepted::<Element<'_>>(alloc, &rows)?;
    same(&rt, found.as_slice(), [0].as_slice());
    let rows = rows_of(alloc, b"", b"\0")?;
    let found = accepted::<TagType>(alloc, &rows)?;
    same(&rt, found.as_slice(), [0].as_slice());
    // A table whose first byte is 0x40 has an expression.
    let rows = rows_of(alloc, b"\x40", b"\x70\0\0\x0b")?;
    let found = accepted::<Table<'_>>(alloc, &rows)?;
    same(&rt, found.as_slice(), [0].as_slice());
    Ok(())
}

#[test]
fn bytes_of_flags(rt: HostRuntime) -> Result<(), Fail> {
    let alloc = rt.alloc();
    let rows = rows_of(alloc, b"\x7f", b"")?;
    let found = accepted::<FieldType>(alloc, &rows)?;
    same(&rt, found.as_slice(), [0, 1].as_slice());
    let found = accepted::<GlobalType>(alloc, &rows)?;
    same(&rt, found.as_slice(), [0, 1, 2, 3].as_slice());
    let rows = rows_of(alloc, b"\x70", b"\0\0")?;
    let found = accepted::<TableType>(alloc, &rows)?;
    same(&rt, found.as_slice(), [0, 1, 2, 3, 4, 5, 6, 7].as_slice());
    let rows = rows_of(alloc, b"", b"\0\0\0")?;
    let found = accepted::<MemoryType>(alloc, &rows)?;
    let wanted = [0, 1, 2, 3, 4, 5, 6, 7, 8, 9, 10, 11, 12, 13, 14, 15];
    same(&rt, found.as_slice(), wanted.as_slice());
    Ok(())
}

// A structure without fields, and functions and supertypes of which there are none.
#[test]
fn bytes_of_subtypes(rt: HostRuntime) -> Result<(), Fail> {
    let rows = rows_of(rt.alloc(), b"", b"\0\x5f\0")?;
    let found = accepted::<SubTypeHead>(rt.alloc(), &rows)?;
    let wanted = [0x4f, 0x50, 0x5e, 0x5f, 0x60];
    same(&rt, found.as_slice(), wanted.as_slice());
    Ok(())
}

// Symbols of all kinds, and those of a COMDAT (tool conventions, Linking).
#[test]
fn bytes_of_symbols(rt: HostRuntime) -> Result<(), Fail> {
    let alloc = rt.alloc();
    let rows = rows_of(alloc, b"", b"\0\0\0\0\0\0")?;
    let found = accepted::<SymbolInfo<'_>>(alloc, &rows)?;
    same(&rt, found.as_slice(), [0, 1, 2, 3, 4, 5].as_slice());
    let rows = rows_of(alloc, b"", b"\0")?;
    let found = accepted::<ComdatSymbol>(alloc, &rows)?;
    same(&rt, found.as_slice(), [0, 1, 2, 3, 4, 5].as_slice());
    Ok(())
}
