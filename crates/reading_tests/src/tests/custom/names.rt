// Names by the calls that read them. Tables of rows are in `test_rows`.
use crate::tests::{gives, same, window};
use std::alloc::Global;
use std::ops::Range;
use std::test::Fail;
use wasm_base::{Error, Fault, Result, Subsection};
use wasm_custom::{IndirectNameMap, Name, NameMap, NameSectionReader};

#[test]
fn names_by_index(rt: HostRuntime) -> std::result::Result<(), Fail> {
    let bytes = b"\x04\x80\x01\x01a\x80\x01\x00\x81\x01\x00\x03\x00\x09";
    let texts = [
        "Ok(Naming { index: 128, name: \"a\" })",
        "Err(Error { fault: NamesOrder, offset: 1005, number: None, hint: None })",
        "Ok(Naming { index: 129, name: \"\" })",
        "Err(Error { fault: NamesOrder, offset: 1011, number: None, hint: None })",
        "Err(Error { fault: SizeMismatch, offset: 1013, number: None, hint: None })",
    ];
    gives(&rt, rt.alloc(), NameMap::new(window(bytes, 1000))?, &texts);
    let bytes = b"\x03\x00\x00\x01\x02\xc3\x28\x02\x00";
    let texts = [
        "Ok(Naming { index: 0, name: \"\" })",
        "Err(Error { fault: MalformedUtf8, offset: 76, number: None, hint: None })",
    ];
    gives(&rt, rt.alloc(), NameMap::new(window(bytes, 70))?, &texts);
    Ok(())
}

#[test]
fn names_of_what_an_index_has(rt: HostRuntime) -> std::result::Result<(), Fail> {
    let mut names = IndirectNameMap::new(window(&[2, 1, 1, 0, 1, 0x61, 0, 0], 0))?;
    let first = names.next().ok_or("none")??;
    same(&rt, first.index, 1);
    let texts = ["Ok(Naming { index: 0, name: \"a\" })"];
    gives(&rt, rt.alloc(), first.names.clone()?, &texts);
    let texts = ["Err(Error { fault: IndirectOrder, offset: 6, number: None, hint: None })"];
    gives(&rt, rt.alloc(), names, &texts);
    Ok(())
}

/// The name of a module, that of a function, locals that come too late, and an unknown subsection.
const NAMES: &[u8; 15] = &[0, 2, 1, 0x61, 1, 4, 1, 0, 1, 0x66, 0, 1, 0, 14, 0];

// The id of a subsection, the bytes of the module's name or of an unknown subsection, and their range.
fn parts_of<'a>(name: Name<'a>) -> (u8, &'a [u8], Range<u64>) {
    match name {
        Name::Module { name, name_range } => (0, name.as_bytes(), name_range),
        Name::Function(_) => (1, b"", 0..0),
        Name::Unknown {
            ty,
            contents,
            range,
        } => (ty, contents, range),
        _other => (255, b"", 0..0),
    }
}

// The next subsection by its parts.
fn next<'a>(names: &mut NameSectionReader<'a>) -> Option<Result<(u8, &'a [u8], Range<u64>)>> {
    Some(names.next()?.map(parts_of))
}

#[test]
fn sections_of_names(rt: HostRuntime) {
    let mut names = NameSectionReader::new(rt.alloc(), window(NAMES, 0));
    same(&rt, next(&mut names), Some(Ok((0, b"a".as_slice(), 2..4))));
    same(&rt, next(&mut names), Some(Ok((1, b"".as_slice(), 0..0))));
    let order = Error::new(Fault::NameSectionOrder, 10);
    same(&rt, next(&mut names), Some(Err(order)));
    same(
        &rt,
        next(&mut names),
        Some(Ok((14, b"".as_slice(), 15..15))),
    );
    for _ in 0..4 {
        same(&rt, next(&mut names), None);
    }
}

// The names of functions, which are the second subsection.
fn functions_of<'a>(alloc: Global, bytes: &'a [u8; 15]) -> Option<NameMap<'a>> {
    let mut names = NameSectionReader::new(alloc, window(bytes, 0));
    drop(names.next()?);
    match names.next()?.ok()? {
        Name::Function(functions) => Some(functions),
        _other => None,
    }
}

#[test]
fn names_of_functions(rt: HostRuntime) -> std::result::Result<(), Fail> {
    let functions = functions_of(rt.alloc(), NAMES).ok_or("no functions")?;
    let texts = ["Ok(Naming { index: 0, name: \"f\" })"];
    gives(&rt, rt.alloc(), functions, &texts);
    Ok(())
}

// The parts of the subsection with this id that a reader is at after two bytes.
fn begun<'a>(alloc: Global, id: u8, bytes: &'a [u8; 5]) -> Result<(u8, &'a [u8], Range<u64>)> {
    let mut reader = window(bytes, 500);
    reader.read_bytes(2)?;
    Ok(parts_of(Name::from_reader(alloc, id, reader)?))
}

#[test]
fn subsections_that_were_begun(rt: HostRuntime) {
    let bytes = b"\x09\x08\x81\0a";
    same(
        &rt,
        begun(rt.alloc(), 0, bytes),
        Ok((0, b"a".as_slice(), 502..505)),
    );
    let unknown = (14, b"\x81\0a".as_slice(), 502..505);
    same(&rt, begun(rt.alloc(), 14, bytes), Ok(unknown));
}
