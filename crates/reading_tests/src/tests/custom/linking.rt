// Symbols, comdats, subsections for linkers, and relocations by the calls that read them. Tables of rows are in `test_rows`.
use crate::tests::{gives, prints, prints_begun, same, window};
use bitflags::Flags;
use std::ops::Range;
use std::test::Fail;
use wasm_base::{Error, Fault, FromReader, Lead, SectionLimited, Subsection};
use wasm_custom::{
    Comdat, InitFunc, Linking, LinkingSectionReader, RelocAddendKind, RelocSectionReader,
    RelocationEntry, RelocationType, Segment, SegmentFlags, SymbolFlags, SymbolInfo,
};

/// Symbols, and their debug texts.
const SYMBOLS: [(&[u8], &str); 9] = [
    (
        b"\x00\x10\x03",
        "Func { flags: SymbolFlags(16), index: 3, name: None }",
    ),
    (
        b"\x00\x50\x03\x01f",
        "Func { flags: SymbolFlags(80), index: 3, name: Some(\"f\") }",
    ),
    (
        b"\x02\x00\x80\x01\x00",
        "Global { flags: SymbolFlags(0), index: 128, name: Some(\"\") }",
    ),
    (
        b"\x04\x90\x80\x00\x07",
        "Event { flags: SymbolFlags(16), index: 7, name: None }",
    ),
    (
        b"\x05\xff\xff\xff\xff\x0f\x00\x01t",
        "Table { flags: SymbolFlags(4294967295), index: 0, name: Some(\"t\") }",
    ),
    (
        b"\x01\x50\x01\x64",
        "Data { flags: SymbolFlags(80), name: \"d\", symbol: None }",
    ),
    (
        b"\x01\x30\x01d",
        "Data { flags: SymbolFlags(48), name: \"d\", symbol: None }",
    ),
    (
        b"\x01\x00\x01d\x02\x00\x04",
        "Data { flags: SymbolFlags(0), name: \"d\", symbol: Some(DefinedDataSymbol { index: 2, offset: 0, size: 4 }) }",
    ),
    (
        b"\x03\x80\x20\x05",
        "Section { flags: SymbolFlags(4096), section: 5 }",
    ),
];

#[test]
fn symbols(rt: HostRuntime) {
    for (bytes, text) in &SYMBOLS {
        prints::<SymbolInfo<'_>>(&rt, rt.alloc(), bytes, 0, bytes.len() as u64, text);
    }
}

#[test]
fn comdats_and_their_symbols(rt: HostRuntime) -> Result<(), Fail> {
    let bytes = b"\x01c\x80\x01\x82\x00\x01\x05\x04\x80\x01\xff";
    let text =
        "Comdat { name: \"c\", flags: 128, symbols: SectionLimited { count: 2, range: 904..911 } }";
    prints::<Comdat<'_>>(&rt, rt.alloc(), bytes, 900, 911, text);
    let symbols = Comdat::from_reader(&mut window(bytes, 900))?.symbols;
    let texts = [
        "Ok((906, ComdatSymbol { kind: Func, index: 5 }))",
        "Ok((908, ComdatSymbol { kind: Table, index: 128 }))",
    ];
    gives(&rt, rt.alloc(), symbols.into_iter_with_offsets(), &texts);
    Ok(())
}

#[test]
fn sections_for_linkers(rt: HostRuntime) -> Result<(), Fail> {
    let bytes = b"\x02\x06\x03\x01\x05\x07";
    let section = LinkingSectionReader::new(rt.alloc(), window(bytes, 0))?;
    same(
        &rt,
        (section.version(), section.original_position()),
        (2, 1),
    );
    same(&rt, section.range(), 0..6);
    let texts = ["Ok(InitFuncs(SectionLimited { count: 1, range: 3..6 }))"];
    gives(&rt, rt.alloc(), section.subsections(), &texts);
    Ok(())
}

#[test]
fn subsections_for_linkers(rt: HostRuntime) -> Result<(), Fail> {
    let bytes = b"\x82\x00\x09\x04\x01w\xff\xff\x05\x05\x01\x01s\x03\x03\x63\x81\x00\x07\x07\x00";
    let section = LinkingSectionReader::new(rt.alloc(), window(bytes, 2000))?;
    same(&rt, section.original_position(), 2002);
    let texts = [
        "Ok(TargetArch(\"w\"))",
        "Ok(SegmentInfo(SectionLimited { count: 1, range: 2010..2015 }))",
        "Ok(Unknown { ty: 99, contents: [7], range: 2018..2019 })",
        "Err(Error { fault: UnexpectedEof, offset: 2021, number: None, hint: Some(1) })",
    ];
    gives(&rt, rt.alloc(), section.clone()?.into_iter(), &texts);
    Ok(())
}

// The version is 2, however it is encoded. Any other one is the number of the fault.
#[test]
fn versions_for_linkers(rt: HostRuntime) -> Result<(), Fail> {
    for bytes in [b"\x02".as_slice(), b"\x82\0"] {
        let section = LinkingSectionReader::new(rt.alloc(), window(bytes, 40))?;
        same(&rt, section.version(), 2);
    }
    let others: [(&[u8], u64); 5] = [
        (b"\0", 0),
        (b"\x01", 1),
        (b"\x03", 3),
        (b"\x82\x02", 258),
        (b"\x82\x80\x80\x80\x08", 0x8000_0002),
    ];
    for (bytes, version) in others {
        match LinkingSectionReader::new(rt.alloc(), window(bytes, 40)) {
            Ok(_) => assert!(rt; false, "no fault in {bytes:?}"),
            Err(error) => {
                same(
                    &rt,
                    error,
                    Error::new(Fault::LinkingVersion, 40).with_number(version),
                );
                same(&rt, error.number(), Some(version));
            }
        }
    }
    Ok(())
}

// The segments of a subsection.
fn segments<'a>(linking: Linking<'a>) -> Option<SectionLimited<'a, Segment<'a>>> {
    match linking {
        Linking::SegmentInfo(segments) => Some(segments),
        _other => None,
    }
}

#[test]
fn segments_of_a_subsection(rt: HostRuntime) -> Result<(), Fail> {
    let linking = Linking::from_reader(rt.alloc(), 5, window(b"\x01\x01s\x03\x03", 0))?;
    let segments = segments(linking).ok_or("no segments")?;
    let texts = ["Ok(Segment { name: \"s\", alignment: 3, flags: SegmentFlags(3) })"];
    gives(&rt, rt.alloc(), segments.into_iter(), &texts);
    Ok(())
}

// The first functions of a subsection.
fn functions<'a>(linking: Linking<'a>) -> Option<SectionLimited<'a, InitFunc>> {
    match linking {
        Linking::InitFuncs(functions) => Some(functions),
        _other => None,
    }
}

#[test]
fn first_functions_of_a_subsection(rt: HostRuntime) -> Result<(), Fail> {
    let linking = Linking::from_reader(rt.alloc(), 6, window(b"\x01\x05\x07", 0))?;
    let functions = functions(linking).ok_or("no functions")?;
    let texts = ["Ok(InitFunc { priority: 5, symbol_index: 7 })"];
    gives(&rt, rt.alloc(), functions.into_iter(), &texts);
    Ok(())
}

#[test]
fn bits_of_flags(rt: HostRuntime) {
    let rows = [
        (SymbolFlags::BINDING_WEAK, 1),
        (SymbolFlags::BINDING_LOCAL, 2),
        (SymbolFlags::VISIBILITY_HIDDEN, 4),
        (SymbolFlags::UNDEFINED, 16),
        (SymbolFlags::EXPORTED, 32),
        (SymbolFlags::EXPLICIT_NAME, 64),
        (SymbolFlags::NO_STRIP, 128),
        (SymbolFlags::TLS, 256),
        (SymbolFlags::ABSOLUTE, 512),
    ];
    for (flags, bits) in rows {
        same(&rt, flags.bits(), bits);
    }
    same(&rt, SymbolFlags::all().bits(), 1015);
    let rows = [
        (SegmentFlags::STRINGS, 1),
        (SegmentFlags::TLS, 2),
        (SegmentFlags::all(), 3),
    ];
    for (flags, bits) in rows {
        same(&rt, flags.bits(), bits);
    }
}

#[test]
fn an_unknown_subsection_that_was_begun(rt: HostRuntime) {
    let text = "Unknown { ty: 99, contents: [7, 6, 5], range: 502..505 }";
    prints_begun::<Linking<'_>>(&rt, rt.alloc(), 99, b"\x09\x08\x07\x06\x05", text);
}

#[test]
fn types_by_number(rt: HostRuntime) {
    let extents = [
        5, 5, 4, 5, 5, 4, 5, 5, 4, 4, 5, 5, 5, 4, 10, 10, 8, 10, 10, 8, 5, 5, 8, 4, 10, 10, 4,
    ];
    let with_32 = [3, 4, 5, 8, 9, 11, 21, 23];
    let with_64 = [14, 15, 16, 17, 22, 25];
    for number in 0..=255_u8 {
        match RelocationType::try_from(number) {
            Ok(ty) => {
                assert!(rt; number <= 26);
                same(&rt, ty as u8, number);
                same(&rt, ty.extent(), extents[usize::from(number)]);
                let kind = if with_32.contains(&number) {
                    RelocAddendKind::Addend32
                } else if with_64.contains(&number) {
                    RelocAddendKind::Addend64
                } else {
                    RelocAddendKind::None
                };
                same(&rt, ty.addend_kind(), kind);
            }
            Err(()) => assert!(rt; number > 26),
        }
    }
}

// The section that relocations are of, the range of the relocations and the range of their entries.
fn places(section: &RelocSectionReader<'_>) -> (u32, Range<u64>, Range<u64>) {
    let entries = section.entries();
    (section.section_index(), section.range(), entries.range())
}

#[test]
fn a_section_of_relocations(rt: HostRuntime) -> Result<(), Fail> {
    let section = RelocSectionReader::new(window(b"\x03\x01\x03\x06\x00\x7f", 0))?;
    same(&rt, places(&section), (3, 0..6, 1..6));
    let texts = ["Ok(RelocationEntry { ty: MemoryAddrLeb, offset: 6, index: 0, addend: -1 })"];
    let entries = section.clone()?.entries().into_iter();
    gives(&rt, rt.alloc(), entries, &texts);
    same(&rt, first_range(section), Some(Ok(6..11)));
    Ok(())
}

// The range of the bytes that the first relocation is of.
fn first_range(section: RelocSectionReader<'_>) -> Option<wasm_base::Result<Range<usize>>> {
    Some(
        section
            .entries()
            .into_iter()
            .next()?
            .and_then(|entry| entry.relocation_range()),
    )
}

#[test]
fn relocations_with_offsets_and_a_trailing_byte(rt: HostRuntime) -> Result<(), Fail> {
    let bytes = b"\x85\x00\x81\x00\x05\x01\x02\x03\xff";
    let section = RelocSectionReader::new(window(bytes, 70000))?;
    same(&rt, places(&section), (5, 70000..70009, 70002..70009));
    let texts = [
        "Ok((70004, RelocationEntry { ty: MemoryAddrI32, offset: 1, index: 2, addend: 3 }))",
        "Err(Error { fault: SizeMismatch, offset: 70008, number: None, hint: None })",
    ];
    let entries = section.entries().into_iter_with_offsets();
    gives(&rt, rt.alloc(), entries, &texts);
    Ok(())
}

#[test]
fn relocated_bytes(rt: HostRuntime) {
    let entry = RelocationEntry {
        ty: RelocationType::FunctionIndexLeb,
        offset: 4294967292,
        index: 0,
        addend: 0,
    };
    same(&rt, entry.relocation_range(), Ok(4294967292..4294967297));
    let refused = RelocationType::from_reader(&mut window(&[0x1b], 0)).err();
    let leading = Error::new(Fault::LeadingByte(Lead::Reloc), 0).with_number(27);
    same(&rt, refused, Some(leading));
}
