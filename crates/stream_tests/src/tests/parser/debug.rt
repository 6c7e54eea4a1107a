// Payloads as debug text.
use super::HEADER;
use crate::tests::is_printed;
use std::alloc::Global;
use std::fmt::Debug;
use std::process::Abort;
use wasm_parser::{Parser, Result};

// What the parser returned is printed so, after its first words.
pub(super) fn is_parsed<T: Debug + Drop>(
    rt: &impl Abort,
    alloc: Global,
    chunk: Result<T>,
    text: &str,
) {
    let wanted = format!(in alloc; "Parsed {{ consumed: {text}").expect(rt, "out of memory");
    is_printed(rt, alloc, &chunk.expect(rt, "a fault"), wanted.as_str());
}

/// The parts of a module, and what is returned for each.
const PAYLOADS: [(&[u8], &str); 18] = [
    (
        HEADER,
        "8, payload: Version { num: 1, encoding: Module, range: 0..8 } }",
    ),
    (b"\x01\x01\0", "3, payload: TypeSection(\"...\") }"),
    (b"\x02\x01\0", "3, payload: ImportSection(\"...\") }"),
    (b"\x03\x02\x01\0", "4, payload: FunctionSection(\"...\") }"),
    (b"\x04\x01\0", "3, payload: TableSection(\"...\") }"),
    (b"\x05\x01\0", "3, payload: MemorySection(\"...\") }"),
    (b"\x0d\x01\0", "3, payload: TagSection(\"...\") }"),
    (b"\x06\x01\0", "3, payload: GlobalSection(\"...\") }"),
    (b"\x07\x01\0", "3, payload: ExportSection(\"...\") }"),
    (
        b"\x08\x01\x01",
        "3, payload: StartSection { func: 1, range: 35..36 } }",
    ),
    (b"\x09\x01\0", "3, payload: ElementSection(\"...\") }"),
    (
        b"\x0c\x01\0",
        "3, payload: DataCountSection { count: 0, range: 41..42 } }",
    ),
    (
        b"\x0a\x04\x01\x02",
        "3, payload: CodeSectionStart { count: 1, unchecked_range: 44..48, size: 3 } }",
    ),
    (b"\x02\0\x0b", "3, payload: CodeSectionEntry(\"...\") }"),
    (b"\x0b\x01\0", "3, payload: DataSection(\"...\") }"),
    (
        b"\0\x02\x01a",
        "4, payload: CustomSection(CustomSectionReader { name: \"a\", data_offset: 55, data: \"...\", range: 53..55 }) }",
    ),
    (
        b"\x0e\0",
        "2, payload: UnknownSection { id: 14, range: 57..57 } }",
    ),
    (b"", "0, payload: End(57) }"),
];

#[test]
fn payloads_as_debug_text(rt: HostRuntime) {
    let mut parser = Parser::new(0);
    for (bytes, text) in &PAYLOADS {
        is_parsed(&rt, rt.alloc(), parser.parse(bytes, true), text);
    }
}

/// Parts with numbers of several bytes.
const LARGE: [(&[u8], &str); 6] = [
    (
        HEADER,
        "8, payload: Version { num: 1, encoding: Module, range: 1000..1008 } }",
    ),
    (
        b"\x03\x02\xac\x02",
        "4, payload: FunctionSection(\"...\") }",
    ),
    (
        b"\x08\x02\xac\x02",
        "4, payload: StartSection { func: 300, range: 1014..1016 } }",
    ),
    (
        b"\x0c\x02\xad\x02",
        "4, payload: DataCountSection { count: 301, range: 1018..1020 } }",
    ),
    (
        b"\x0a\xaf\x02\xac\x02",
        "5, payload: CodeSectionStart { count: 300, unchecked_range: 1023..1326, size: 301 } }",
    ),
    (b"\x02\0\x0b", "3, payload: CodeSectionEntry(\"...\") }"),
];

#[test]
fn large_numbers_as_debug_text(rt: HostRuntime) {
    let mut parser = Parser::new(1000);
    for (bytes, text) in &LARGE {
        is_parsed(&rt, rt.alloc(), parser.parse(bytes, true), text);
    }
}

/// The parts of a component.
const COMPONENT: [(&[u8], &str); 4] = [
    (
        b"\0asm\x0d\0\x01\0",
        "8, payload: Version { num: 13, encoding: Component, range: 1000..1008 } }",
    ),
    (
        b"\x01\x83\0\0\0\0",
        "6, payload: UnknownSection { id: 1, range: 1011..1014 } }",
    ),
    (
        b"\0\x83\0\x01a\0",
        "6, payload: CustomSection(CustomSectionReader { name: \"a\", data_offset: 1019, data: \"...\", range: 1017..1020 }) }",
    ),
    (b"", "0, payload: End(1020) }"),
];

#[test]
fn a_components_payloads_as_debug_text(rt: HostRuntime) {
    let mut parser = Parser::new(1000);
    for (bytes, text) in &COMPONENT {
        is_parsed(&rt, rt.alloc(), parser.parse(bytes, true), text);
    }
}
