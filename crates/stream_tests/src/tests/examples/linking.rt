// Relocations with their symbols and the bytes that they fill in.
use crate::tests::same;
use std::alloc::{AllocError, Global};
use std::ops::Range;
use std::process::Abort;
use std::test::Fail;
use wasm_base::{Error, Fault, Lead};
use wasm_custom::{RelocationType, SymbolInfo};
use wasm_examples::{Fixup, Linked, linked_of};

// A type, a function and its body, which calls function 0 by a number of 5 bytes.
const HEAD: &[u8] =
    b"\0asm\x01\0\0\0\x01\x04\x01\x60\0\0\x03\x02\x01\0\x0a\x0a\x01\x08\0\x10\x80\x80\x80\x80\0\x0b";

// Two symbols: function 0, whose name is `f`, and undefined data with the name `d`.
const LINKING: &[u8] = b"\0\x15\x07linking\x02\x08\x0a\x02\0\0\0\x01f\x01\x10\x01d";

// Four relocations of section 2: of function `f`; of a type; of a symbol that is not there; and of `d`, past the section's end.
const RELOC: &[u8] = b"\0\x19\x0areloc.CODE\x02\x04\0\x04\0\x06\x04\0\0\x05\x02\0\x06\x01";

// A module of these.
fn module(alloc: Global, sections: &[&[u8]]) -> Result<Vec<u8>, AllocError> {
    let mut bytes = HEAD.to_vec(alloc)?;
    for section in sections {
        bytes.extend_from_slice(section)?;
    }
    Ok(bytes)
}

/// Of a relocation its type, whether it names a symbol, the symbol's name, and the bytes that it fills in.
type Row = (
    RelocationType,
    bool,
    Option<&'static str>,
    Option<(u64, u64)>,
);

const WITH_SYMBOLS: [Row; 4] = [
    (
        RelocationType::FunctionIndexLeb,
        true,
        Some("f"),
        Some((24, 29)),
    ),
    (RelocationType::TypeIndexLeb, false, None, Some((24, 29))),
    (
        RelocationType::FunctionIndexLeb,
        false,
        None,
        Some((25, 30)),
    ),
    (RelocationType::FunctionIndexLeb, true, Some("d"), None),
];

const WITHOUT_SYMBOLS: [Row; 4] = [
    (
        RelocationType::FunctionIndexLeb,
        false,
        None,
        Some((24, 29)),
    ),
    (RelocationType::TypeIndexLeb, false, None, Some((24, 29))),
    (
        RelocationType::FunctionIndexLeb,
        false,
        None,
        Some((25, 30)),
    ),
    (RelocationType::FunctionIndexLeb, false, None, None),
];

// The name of a symbol, if there is one and it has one.
fn name_of<'a>(symbol: Option<SymbolInfo<'a>>) -> Option<&'a str> {
    match symbol {
        Some(SymbolInfo::Func { name, .. }) => name,
        Some(SymbolInfo::Data { name, .. }) => Some(name),
        _ => None,
    }
}

fn bounds(range: &Range<u64>) -> (u64, u64) {
    (range.start, range.end)
}

fn bounds_of(range: &Option<Range<u64>>) -> Option<(u64, u64)> {
    match range {
        Some(range) => Some(bounds(range)),
        None => None,
    }
}

fn sections_are(rt: &impl Abort, linked: &Linked<'_>, wanted: &[(u64, u64)]) {
    same(rt, linked.sections.len(), wanted.len());
    for (range, wanted) in linked.sections.iter().zip(wanted) {
        same(rt, bounds(range), *wanted);
    }
}

fn is(rt: &impl Abort, fixup: &Fixup<'_>, wanted: &Row) {
    same(rt, fixup.entry.ty, wanted.0);
    same(rt, fixup.symbol.is_some(), wanted.1);
    same(rt, name_of(fixup.symbol), wanted.2);
    same(rt, bounds_of(&fixup.range), wanted.3);
}

fn fixups_are(rt: &impl Abort, linked: &Linked<'_>, wanted: &[Row]) {
    same(rt, linked.fixups.len(), wanted.len());
    for (fixup, wanted) in linked.fixups.iter().zip(wanted) {
        is(rt, fixup, wanted);
    }
}

fn linked_from(alloc: Global, bytes: &[u8]) -> wasm_base::Result<Linked<'_>> {
    linked_of(alloc, bytes)
}

#[test]
fn relocations_with_their_symbols_and_places(rt: HostRuntime) -> Result<(), Fail> {
    let bytes = module(rt.alloc(), &[LINKING, RELOC])?;
    let linked = linked_from(rt.alloc(), &bytes)?;
    let sections = [(10, 14), (16, 18), (20, 30), (32, 53), (55, 80)];
    sections_are(&rt, &linked, &sections);
    same(&rt, linked.symbols.len(), 2);
    fixups_are(&rt, &linked, &WITH_SYMBOLS);
    Ok(())
}

#[test]
fn relocations_before_the_symbols(rt: HostRuntime) -> Result<(), Fail> {
    let bytes = module(rt.alloc(), &[RELOC, LINKING])?;
    let linked = linked_from(rt.alloc(), &bytes)?;
    fixups_are(&rt, &linked, &WITHOUT_SYMBOLS);
    Ok(())
}

// Like `RELOC` and `LINKING`, with a relocation of type 27, with a symbol of kind 9, and of version 3.
const BAD_RELOC: &[u8] = b"\0\x19\x0areloc.CODE\x02\x04\0\x04\0\x1b\x04\0\0\x05\x02\0\x06\x01";

const BAD_SYMBOL: &[u8] = b"\0\x15\x07linking\x02\x08\x0a\x02\0\0\0\x01f\x09\x10\x01d";

const BAD_VERSION: &[u8] = b"\0\x15\x07linking\x03\x08\x0a\x02\0\0\0\x01f\x09\x10\x01d";

fn fault_of(alloc: Global, bytes: &[u8]) -> Option<Error> {
    linked_of(alloc, bytes).err()
}

// A module with these sections has this fault.
fn has_fault(
    rt: &impl Abort,
    alloc: Global,
    sections: &[&[u8]],
    fault: Error,
) -> Result<(), AllocError> {
    let bytes = module(alloc, sections)?;
    same(rt, fault_of(alloc, &bytes), Some(fault));
    Ok(())
}

#[test]
fn faults_of_symbols_and_relocations(rt: HostRuntime) -> Result<(), Fail> {
    let fault = Error::new(Fault::LeadingByte(Lead::Reloc), 71).with_number(27);
    has_fault(&rt, rt.alloc(), &[LINKING, BAD_RELOC], fault)?;
    let fault = Error::new(Fault::LeadingByte(Lead::Symbol), 49).with_number(9);
    has_fault(&rt, rt.alloc(), &[BAD_SYMBOL, BAD_RELOC], fault)?;
    let fault = Error::new(Fault::LinkingVersion, 40).with_number(3);
    has_fault(&rt, rt.alloc(), &[BAD_VERSION, BAD_RELOC], fault)?;
    Ok(())
}

#[test]
fn a_stream_with_a_fault_is_not_linked(rt: HostRuntime) {
    let fault = Error::new(Fault::FunctionWithoutCode, 12);
    same(
        &rt,
        fault_of(rt.alloc(), b"\0asm\x01\0\0\0\x03\x02\x01\0"),
        Some(fault),
    );
}
