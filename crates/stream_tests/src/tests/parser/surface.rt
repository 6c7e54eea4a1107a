// The calls of a parser beside `parse`, and the ids of payloads.
use super::{HEADER, after_header, end, next, pass, refusal, section_of};
use crate::tests::same;
use bitflags::Flags;
use wasm_parser::{Error, Fault, NextFrame, Parser, Payload, StoredParser, WasmFeatures};

#[test]
fn headers_are_distinguished(rt: HostRuntime) {
    let component: &[u8] = b"\0asm\x0d\0\x01\0";
    // Whether these are the first bytes of a module, and of a component.
    let rows: [(&[u8], bool, bool); 7] = [
        (HEADER, true, false),
        (b"\0asm\x01\0\0\0\0", true, false),
        (&HEADER[..7], false, false),
        (b"", false, false),
        (component, false, true),
        (b"\0asm\x0d\0\x01\0\xff", false, true),
        (&component[..7], false, false),
    ];
    for (bytes, is_module, is_component) in rows {
        let found = (Parser::is_core_wasm(bytes), Parser::is_component(bytes));
        same(&rt, found, (is_module, is_component));
    }
}

#[test]
fn windows_have_the_parsers_features(rt: HostRuntime) {
    let mut parser = Parser::default();
    same(&rt, parser.features(), WasmFeatures::all());
    parser.set_features(WasmFeatures::MEMORY64);
    same(&rt, parser.features(), WasmFeatures::MEMORY64);
    let reader = parser.binary_reader(b"abc", 7);
    same(&rt, reader.features(), WasmFeatures::MEMORY64);
    same(&rt, reader.range(), 7..10);
    pass(&rt, &mut parser, HEADER);
    pass(&rt, &mut parser, b"\0\x02\x01a");
    same(&rt, parser.features(), WasmFeatures::MEMORY64);
}

#[test]
fn a_copy_goes_its_own_way(rt: HostRuntime) {
    let mut parser = after_header(&rt, 0);
    pass(&rt, &mut parser, b"\x03\x02\x01\0");
    let mut copy = parser.clone().expect(&rt, "out of memory");
    pass(&rt, &mut copy, b"\x0a\x03\x01\x01");
    pass(&rt, &mut copy, b"\x01\0");
    same(&rt, (parser.offset(), copy.offset()), (12, 17));
    same(&rt, end(&mut copy), Some(17));
    same(
        &rt,
        refusal(&mut parser, b""),
        Some(Error::new(Fault::FunctionWithoutCode, 12)),
    );
}

// What a parser stores after a function section and the start of a code section whose one body remains.
#[test]
fn what_is_stored_in_a_code_section(rt: HostRuntime) {
    let mut parser = after_header(&rt, 100);
    pass(&rt, &mut parser, b"\x03\x02\x01\0");
    pass(&rt, &mut parser, b"\x0a\x04\x01\x02\0\x0b");
    let found = parser.stored();
    same(&rt, (found.offset, found.bodies), (115, 1));
    same(&rt, (found.code_bytes, found.in_code != 0), (3, true));
    same(&rt, (found.functions, found.codes), (1, 1));
    let counted = [
        found.has_functions,
        found.has_codes,
        found.has_datas,
        found.has_data_counts,
    ];
    same(&rt, counted.map(|has| has != 0), [true, true, false, false]);
    same(&rt, (found.is_begun != 0, found.is_component), (true, 0));
}

// The fault of a stored parser on these bytes, which are all that come.
fn stored_fault(parser: &mut StoredParser, bytes: &[u8]) -> Option<Error> {
    match parser.next(bytes, true) {
        NextFrame::Fault(error) => Some(error),
        _ => None,
    }
}

#[test]
fn a_stored_parser_goes_on_from_its_place(rt: HostRuntime) {
    let mut parser = after_header(&rt, 0);
    pass(&rt, &mut parser, b"\x03\x02\x01\0");
    let mut stored = parser.stored();
    pass(&rt, &mut parser, b"\x0a\x03\x01\x01");
    pass(&rt, &mut parser, b"\x01\0");
    same(&rt, end(&mut parser), Some(17));
    same(&rt, stored.offset, 12);
    same(
        &rt,
        stored_fault(&mut stored, b"\x03\x02\x01\0"),
        Some(Error::new(Fault::OutOfOrder, 14)),
    );
    same(
        &rt,
        stored_fault(&mut stored, b""),
        Some(Error::new(Fault::FunctionWithoutCode, 12)),
    );
}

// A section of each kind, a body, and a section that is not known.
const SECTIONS: &[u8] =
    b"\0asm\x01\0\0\0\x01\x01\0\x02\x01\0\x03\x02\x01\0\x04\x01\0\x05\x01\0\x0d\x01\0\x06\x01\0\x07\x01\0\x08\x01\0\x09\x01\0\x0c\x01\0\x0a\x04\x01\x02\0\x0b\x0b\x01\0\0\x01\0\x0e\0";

#[test]
fn sections_by_their_payloads(rt: HostRuntime) {
    let wanted = [
        None,
        Some((1, 10..11)),
        Some((2, 13..14)),
        Some((3, 16..18)),
        Some((4, 20..21)),
        Some((5, 23..24)),
        Some((13, 26..27)),
        Some((6, 29..30)),
        Some((7, 32..33)),
        Some((8, 35..36)),
        Some((9, 38..39)),
        Some((12, 41..42)),
        Some((10, 44..48)),
        None,
        Some((11, 50..51)),
        Some((0, 53..54)),
        Some((14, 56..56)),
        None,
    ];
    let mut walk = Parser::new(0).parse_all(SECTIONS);
    for wanted in &wanted {
        same(&rt, &section_of(next(&rt, &mut walk)), wanted);
    }
    assert!(rt; walk.next().is_none());
}

// The id and the count of a payload that begins with a count of items.
fn counted(payload: Payload<'_>) -> Option<(u8, u32)> {
    let section = payload.as_counted()?;
    Some((section.id, section.count))
}

#[test]
fn counted_sections_by_their_payloads(rt: HostRuntime) {
    let wanted = [
        None,
        Some((1, 0)),
        Some((2, 0)),
        Some((3, 1)),
        Some((4, 0)),
        Some((5, 0)),
        Some((13, 0)),
        Some((6, 0)),
        Some((7, 0)),
        None,
        Some((9, 0)),
        None,
        None,
        None,
        Some((11, 0)),
        None,
        None,
        None,
    ];
    let mut walk = Parser::new(0).parse_all(SECTIONS);
    for wanted in wanted {
        same(&rt, counted(next(&rt, &mut walk)), wanted);
    }
    assert!(rt; walk.next().is_none());
}
