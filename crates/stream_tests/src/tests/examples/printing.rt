// The names of functions.
use crate::tests::same;
use std::alloc::{AllocError, Global};
use std::process::Abort;
use std::test::Fail;
use wasm_base::{Error, Fault};
use wasm_examples::function_names;

// A module that imports two functions and a global and has two functions, with parts before its functions and after them.
fn module(alloc: Global, before: &[u8], after: &[u8]) -> Result<Vec<u8>, AllocError> {
    let mut bytes = Vec::new(alloc);
    bytes.extend_from_slice(b"\0asm\x01\0\0\0\x01\x04\x01\x60\0\0")?;
    bytes.extend_from_slice(b"\x02\x14\x03\x01m\x01f\0\0\x01m\x01g\x03\x7f\0\x01m\x01e\0\0")?;
    bytes.extend_from_slice(before)?;
    bytes.extend_from_slice(b"\x03\x03\x02\0\0\x0a\x07\x02\x02\0\x0b\x02\0\x0b")?;
    bytes.extend_from_slice(after)?;
    Ok(bytes)
}

/// Parts before the functions and after them, and the names of the four functions.
type Row = (&'static [u8], &'static [u8], [Option<&'static str>; 4]);

const ROWS: [Row; 11] = [
    (b"", b"", [None, None, None, None]),
    // Names after the code, in a section `name` and in another one.
    (
        b"",
        b"\0\x0e\x04name\x01\x07\x02\0\x01a\x03\x01d",
        [Some("a"), None, None, Some("d")],
    ),
    (
        b"",
        b"\0\x0e\x04nama\x01\x07\x02\0\x01a\x03\x01d",
        [None, None, None, None],
    ),
    // Names before the code, and later ones.
    (
        b"\0\x0e\x04name\x01\x07\x02\0\x01a\x03\x01d",
        b"",
        [Some("a"), None, None, None],
    ),
    (
        b"\0\x0e\x04name\x01\x07\x02\0\x01a\x03\x01d",
        b"\0\x0b\x04name\x01\x04\x01\0\x01z",
        [Some("z"), None, None, None],
    ),
    // Names and subsections out of order.
    (
        b"",
        b"\0\x11\x04name\x01\x0a\x03\x01\x01b\0\x01a\x02\x01c",
        [None, Some("b"), Some("c"), None],
    ),
    (
        b"",
        b"\0\x11\x04name\x02\x01\0\x01\x04\x01\0\x01a\x04\x01\0",
        [None, None, None, None],
    ),
    // A name of no function.
    (
        b"",
        b"\0\x0e\x04name\x01\x07\x02\x01\x01b\x04\x01x",
        [None, Some("b"), None, None],
    ),
    // A truncated entry, a truncated subsection, and the name of the module truncated.
    (
        b"",
        b"\0\x0c\x04name\x01\x05\x02\0\x01a\x03",
        [Some("a"), None, None, None],
    ),
    (
        b"",
        b"\0\x0b\x04name\x01\x09\x01\0\x01a",
        [None, None, None, None],
    ),
    (
        b"",
        b"\0\x0e\x04name\0\x01\x05\x01\x04\x01\x02\x01c",
        [None, None, Some("c"), None],
    ),
];

fn names_of(alloc: Global, bytes: &[u8]) -> wasm_base::Result<Vec<Option<&str>>> {
    function_names(alloc, bytes)
}

// The functions of this module have these names.
fn are_named(
    rt: &impl Abort,
    alloc: Global,
    bytes: &[u8],
    wanted: &[Option<&str>],
) -> wasm_base::Result<()> {
    let names = names_of(alloc, bytes)?;
    same(rt, names.as_slice(), wanted);
    Ok(())
}

fn all_are_named(rt: &impl Abort, alloc: Global, rows: &[Row]) -> Result<(), Fail> {
    for (before, after, wanted) in rows {
        let bytes = module(alloc, before, after)?;
        are_named(rt, alloc, &bytes, wanted)?;
    }
    Ok(())
}

#[test]
fn names_before_and_after_the_code(rt: HostRuntime) -> Result<(), Fail> {
    all_are_named(&rt, rt.alloc(), &ROWS)
}

#[test]
fn names_of_imports_in_groups(rt: HostRuntime) -> Result<(), Fail> {
    let bytes =
        b"\0asm\x01\0\0\0\x02\x0f\x01\x01m\0\x7f\x02\x01a\x20\x05\x01b\x02\0\x01\0\x0b\x04name\x01\x04\x01\0\x01a";
    are_named(&rt, rt.alloc(), bytes, &[Some("a")])?;
    Ok(())
}

fn fault_of(alloc: Global, bytes: &[u8]) -> Option<Error> {
    names_of(alloc, bytes).err()
}

#[test]
fn streams_with_faults(rt: HostRuntime) {
    let id = Error::new(Fault::MalformedSectionId, 8);
    same(&rt, fault_of(rt.alloc(), b"\0asm\x01\0\0\0\x80"), Some(id));
    let cut = Error::new(Fault::UnexpectedEof, 13);
    let stream = b"\0asm\x01\0\0\0\x02\x03\x01\x01m";
    same(&rt, fault_of(rt.alloc(), stream), Some(cut));
}
