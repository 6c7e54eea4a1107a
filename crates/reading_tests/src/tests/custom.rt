// Custom sections by the calls that read them. Tables of rows are in `test_rows`.
mod dylink;
mod linking;
mod memory;
mod names;
mod sections;

use crate::tests::{is_printed, same};
use std::ops::Range;
use std::test::Fail;
use wasm_base::{BinaryReader, Error, Fault, WasmFeatures};
use wasm_custom::CustomSectionReader;

// Where the data of a section begins, the range of the data and that of the section.
fn places(section: &CustomSectionReader<'_>) -> (u64, Range<u64>, Range<u64>) {
    (section.data_offset(), section.data_range(), section.range())
}

#[test]
fn a_section_with_no_name_and_no_data(rt: HostRuntime) -> Result<(), Fail> {
    let section = CustomSectionReader::new(BinaryReader::new(&[0], 10))?;
    same(&rt, section.name(), "");
    same(&rt, section.data(), b"".as_slice());
    same(&rt, places(&section), (11, 11..11, 10..11));
    assert!(rt; section.data_reader().eof());
    Ok(())
}

#[test]
fn a_section_with_a_name_and_data(rt: HostRuntime) -> Result<(), Fail> {
    let window = BinaryReader::new_features(b"\x04name\x00\x07", 1000, WasmFeatures::MEMORY64);
    let section = CustomSectionReader::new(window)?.clone()?;
    same(&rt, section.name(), "name");
    same(&rt, section.data(), [0, 7].as_slice());
    same(&rt, places(&section), (1005, 1005..1007, 1000..1007));
    Ok(())
}

#[test]
fn the_data_of_a_section(rt: HostRuntime) -> Result<(), Fail> {
    let window = BinaryReader::new_features(b"\x04name\x00\x07", 1000, WasmFeatures::MEMORY64);
    let mut data = CustomSectionReader::new(window)?.data_reader();
    same(&rt, data.range(), 1005..1007);
    same(&rt, data.features(), WasmFeatures::MEMORY64);
    same(&rt, data.read_u8(), Ok(0));
    same(&rt, data.original_position(), 1006);
    Ok(())
}

#[test]
fn hints_of_missing_bytes(rt: HostRuntime) -> Result<(), Fail> {
    let rows: [(&[u8], Option<usize>); 5] = [
        (b"", Some(1)),
        (b"\x80", Some(1)),
        (b"\x05ab", Some(3)),
        (b"\xac\x02ab", Some(298)),
        (b"\x02\xc3\x28", None),
    ];
    for (bytes, hint) in rows {
        let refused = CustomSectionReader::new(BinaryReader::new(bytes, 10))
            .err()
            .ok_or("read")?;
        same(&rt, refused.needed_hint(), hint);
    }
    Ok(())
}

#[test]
fn a_section_as_debug_text(rt: HostRuntime) -> Result<(), Fail> {
    let section = CustomSectionReader::new(BinaryReader::new(b"\x01a\x07\x08", 10))?;
    let text = "CustomSectionReader { name: \"a\", data_offset: 12, data: \"...\", range: 10..14 }";
    is_printed(&rt, rt.alloc(), &section, text);
    let section = CustomSectionReader::new(BinaryReader::new(b"\x04na\"e\x07\x08\x09", 70000))?;
    let text =
        "CustomSectionReader { name: \"na\\\"e\", data_offset: 70005, data: \"...\", range: 70000..70008 }";
    is_printed(&rt, rt.alloc(), &section, text);
    Ok(())
}
