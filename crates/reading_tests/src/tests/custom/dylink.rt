// What dynamic linkers read, by the debug texts of what is read. Tables of rows are in `test_rows`.
use crate::tests::{gives, prints_begun, window};
use wasm_custom::{Dylink0SectionReader, Dylink0Subsection};

#[test]
fn what_a_library_needs(rt: HostRuntime) {
    let bytes =
        b"\x01\x05\x10\x02\x01\x00\xff\x02\x03\x01\x01a\x03\x04\x01\x01f\x02\x04\x06\x01\x01m\x00\x90\x00\x05\x01\x02";
    let texts = [
        "Ok(MemInfo(MemInfo { memory_size: 16, memory_alignment: 2, table_size: 1, table_alignment: 0 }))",
        "Ok(Needed([\"a\"]))",
        "Ok(ExportInfo([ExportInfo { name: \"f\", flags: SymbolFlags(2) }]))",
        "Ok(ImportInfo([ImportInfo { module: \"m\", field: \"\", flags: SymbolFlags(16) }]))",
        "Err(Error { fault: UnexpectedEof, offset: 129, number: None, hint: Some(1) })",
    ];
    let section = Dylink0SectionReader::new(rt.alloc(), window(bytes, 100));
    gives(&rt, rt.alloc(), section, &texts);
}

#[test]
fn an_unknown_subsection_that_was_begun(rt: HostRuntime) {
    let text = "Unknown { ty: 0, contents: [7, 6, 5], range: 502..505 }";
    prints_begun::<Dylink0Subsection<'_>>(&rt, rt.alloc(), 0, b"\x09\x08\x07\x06\x05", text);
}
