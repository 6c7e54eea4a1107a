// Sections, bodies and custom sections as payloads. Tables of rows are in `test_rows`.
use super::next;
use crate::tests::{gives, same};
use std::ops::Range;
use wasm_parser::{Parser, Payload, WasmFeatures};

// A module whose fields take several bytes: a type section that announces 128 items, a function, a start, a body of
// three bytes and a custom section.
const MODULE: &[u8] =
    b"\0asm\x01\0\0\0\x01\x83\0\x80\x01\x09\x03\x83\0\x81\0\x07\x08\x82\0\x81\x01\x0a\x87\0\x81\0\x83\0\0\x41\x0b\0\x84\0\x01a\x05\x06";

const COMPONENT: &[u8] = b"\0asm\x0d\0\x01\0\x01\x01\0";

#[test]
fn a_module(rt: HostRuntime) {
    let texts = [
        "Ok(Version { num: 1, encoding: Module, range: 1000..1008 })",
        "Ok(TypeSection(\"...\"))",
        "Ok(FunctionSection(\"...\"))",
        "Ok(StartSection { func: 129, range: 1023..1025 })",
        "Ok(CodeSectionStart { count: 1, unchecked_range: 1028..1035, size: 5 })",
        "Ok(CodeSectionEntry(\"...\"))",
        "Ok(CustomSection(CustomSectionReader { name: \"a\", data_offset: 1040, data: \"...\", range: 1038..1042 }))",
        "Ok(End(1042))",
    ];
    gives(&rt, rt.alloc(), Parser::new(1000).parse_all(MODULE), &texts);
}

#[test]
fn a_component(rt: HostRuntime) {
    let texts = [
        "Ok(Version { num: 13, encoding: Component, range: 1000..1008 })",
        "Ok(UnknownSection { id: 1, range: 1010..1011 })",
        "Ok(End(1011))",
    ];
    let walk = Parser::new(1000).parse_all(COMPONENT);
    gives(&rt, rt.alloc(), walk, &texts);
}

#[test]
fn a_component_at_offset_0(rt: HostRuntime) {
    let texts = [
        "Ok(Version { num: 13, encoding: Component, range: 0..8 })",
        "Ok(UnknownSection { id: 1, range: 10..11 })",
        "Ok(End(11))",
    ];
    gives(&rt, rt.alloc(), Parser::new(0).parse_all(COMPONENT), &texts);
}

// The bytes of an unknown section.
fn contents_of<'a>(payload: Payload<'a>) -> Option<&'a [u8]> {
    match payload {
        Payload::UnknownSection { contents, .. } => Some(contents),
        _other => None,
    }
}

#[test]
fn contents_of_an_unknown_section(rt: HostRuntime) {
    let mut walk = Parser::new(1000).parse_all(COMPONENT);
    drop(next(&rt, &mut walk));
    let section = next(&rt, &mut walk);
    same(&rt, contents_of(section), Some(b"\0".as_slice()));
}

// What a payload has beside its debug text: the first offset of its items, or its bytes, and their offsets and features.
#[derive(Debug, Drop, PartialEq)]
enum Inside<'a> {
    Functions(u32, Range<u64>, u64),
    Bytes(&'a [u8], Range<u64>, WasmFeatures),
    Nothing,
}

fn inside_of<'a>(payload: Payload<'a>) -> Inside<'a> {
    match payload {
        Payload::FunctionSection(section) => {
            Inside::Functions(
                section.count(),
                section.range(),
                section.original_position(),
            )
        }
        Payload::CodeSectionEntry(body) => {
            let reader = body.get_binary_reader();
            Inside::Bytes(reader.remaining_buffer(), body.range(), reader.features())
        }
        Payload::CustomSection(section) => {
            let reader = section.data_reader();
            Inside::Bytes(section.data(), section.data_range(), reader.features())
        }
        _other => Inside::Nothing,
    }
}

#[test]
fn functions_bodies_and_custom_sections(rt: HostRuntime) {
    let set = WasmFeatures::MEMORY64;
    let wanted = [
        Inside::Nothing,
        Inside::Nothing,
        Inside::Functions(1, 1017..1020, 1019),
        Inside::Nothing,
        Inside::Nothing,
        Inside::Bytes(b"\0\x41\x0b", 1032..1035, set),
        Inside::Bytes(b"\x05\x06", 1040..1042, set),
        Inside::Nothing,
    ];
    let mut parser = Parser::new(1000);
    parser.set_features(set);
    let mut walk = parser.parse_all(MODULE);
    for wanted in wanted {
        same(&rt, inside_of(next(&rt, &mut walk)), wanted);
    }
}
