// Imports by the debug texts of their copies, and the imports of a section. Tables of rows are in `test_rows`.
use crate::tests::{gives, prints, window};
use std::alloc::Global;
use std::process::Abort;
use std::test::Fail;
use wasm_base::{BinaryReader, FromReader, WasmFeatures, fits};
use wasm_items::{Import, ImportItemCompact, ImportSection, ImportSectionReader, Imports, TypeRef};

#[test]
fn imports_by_their_fields(rt: HostRuntime) {
    prints::<TypeRef>(&rt, rt.alloc(), b"\x00\x80\x01", 40, 43, "Func(128)");
    prints::<TypeRef>(&rt, rt.alloc(), b"\x20\x05\x00", 40, 42, "FuncExact(5)");
    let text = "Tag(TagType { kind: Exception, func_type_idx: 255 })";
    prints::<TypeRef>(&rt, rt.alloc(), b"\x04\x00\xff\x01", 40, 44, text);
    let text = "Import { module: \"é\", name: \"a\", ty: Memory(MemoryType { \
        memory64: false, shared: false, initial: 1, maximum: Some(2), page_size_log2: None }) }";
    let bytes = b"\x02\xc3\xa9\x01\x61\x02\x01\x81\x00\x02";
    prints::<Import<'_>>(&rt, rt.alloc(), bytes, 40, 50, text);
    let text =
        "ImportItemCompact { name: \"a\", ty: Tag(TagType { kind: Exception, func_type_idx: 1 }) }";
    prints::<ImportItemCompact<'_>>(&rt, rt.alloc(), b"\x01a\x04\x00\x01", 40, 45, text);
    let text = "Single(40, Import { module: \"m\", name: \"a\", ty: Func(3) })";
    prints::<Imports<'_>>(&rt, rt.alloc(), b"\x01m\x01a\x00\x03", 40, 46, text);
}

// A bundle's imports, of which the second one has a fault.
#[test]
fn imports_of_a_bundle(rt: HostRuntime) -> Result<(), Fail> {
    let bytes = b"\x01m\x00\x7e\x00\x05\x02\x01a\x01\xff";
    let bundle = Imports::from_reader(&mut window(bytes, 1))?;
    let texts = [
        "Ok((8, Import { module: \"m\", name: \"a\", ty: Func(5) }))",
        "Err(Error { fault: MalformedUtf8, offset: 11, number: None, hint: None })",
    ];
    gives(&rt, rt.alloc(), bundle.into_iter(), &texts);
    Ok(())
}

#[test]
fn windows_of_bundles(rt: HostRuntime) {
    let bytes = b"\x01m\x00\x7f\x82\x00\x81\x00a\x00\x03\x01b\x00\x04\x09";
    let text = "Compact1 { module: \"m\", items: SectionLimited { count: 2, range: 44..55 } }";
    prints::<Imports<'_>>(&rt, rt.alloc(), bytes, 40, 55, text);
    let bytes = b"\x01m\x00\x7e\x02\x00\x01\x82\x00\x81\x00a\x01b\x09";
    let text =
        "Compact2 { module: \"m\", ty: Memory(MemoryType { memory64: false, shared: false, initial: 1, \
        maximum: None, page_size_log2: None }), names: SectionLimited { count: 2, range: 47..54 } }";
    prints::<Imports<'_>>(&rt, rt.alloc(), bytes, 40, 54, text);
}

// The imports of a section are these, with their offsets and, as `plain`, without.
fn flattens(
    rt: &impl Abort,
    alloc: Global,
    bytes: &[u8],
    offset: u64,
    features: WasmFeatures,
    texts: [&[&str]; 2],
) {
    assert!(rt; fits(offset, bytes.len()));
    let reader = BinaryReader::new_features(bytes, offset, features);
    let section = ImportSectionReader::new(reader).expect(rt, "a fault");
    gives(
        rt,
        alloc,
        section
            .clone()
            .expect(rt, "out of memory")
            .into_imports_with_offsets(),
        texts[0],
    );
    gives(rt, alloc, section.into_imports(), texts[1]);
}

const COMPACT: WasmFeatures = WasmFeatures::COMPACT_IMPORTS;

#[test]
fn imports_of_a_section(rt: HostRuntime) {
    let trailing = "Err(Error { fault: SizeMismatch, offset: 122, number: None, hint: None })";
    let with = [
        "Ok((108, Import { module: \"m\", name: \"a\", ty: Func(3) }))",
        "Ok((114, Import { module: \"n\", name: \"x\", ty: Tag(TagType { kind: Exception, func_type_idx: 1 }) }))",
        trailing,
    ];
    let without = [
        "Ok(Import { module: \"m\", name: \"a\", ty: Func(3) })",
        "Ok(Import { module: \"n\", name: \"x\", ty: Tag(TagType { kind: Exception, func_type_idx: 1 }) })",
        trailing,
    ];
    let bytes = b"\x82\x00\x01m\x00\x7f\x81\x00\x81\x00a\x00\x83\x00\x01n\x01x\x04\x00\x81\x00\xff";
    flattens(&rt, rt.alloc(), bytes, 100, COMPACT, [&with, &without]);
}

// A fault in a bundle ends the bundle, and imports after it still come.
#[test]
fn imports_after_a_malformed_bundle(rt: HostRuntime) {
    let (first, second) = (
        "Err(Error { fault: MalformedUtf8, offset: 16, number: None, hint: None })",
        "Err(Error { fault: MalformedUtf8, offset: 30, number: None, hint: None })",
    );
    let with = [
        first,
        "Ok((24, Import { module: \"m\", name: \"a\", ty: Func(1) }))",
        second,
        "Ok((33, Import { module: \"n\", name: \"x\", ty: Func(3) }))",
    ];
    let without = [
        first,
        "Ok(Import { module: \"m\", name: \"a\", ty: Func(1) })",
        second,
        "Ok(Import { module: \"n\", name: \"x\", ty: Func(3) })",
    ];
    let bytes =
        b"\x03\x01m\x00\x7e\x00\x05\x02\x01\xff\x01b\x01m\x00\x7f\x02\x01a\x00\x01\x02\xc3\x28\x00\x02\x01n\x01x\x00\x03";
    flattens(&rt, rt.alloc(), bytes, 7, COMPACT, [&with, &without]);
}

#[test]
fn bundles_of_a_section_want_their_feature(rt: HostRuntime) {
    let lacking = ["Err(Error { fault: Compact7F, offset: 4, number: None, hint: None })"];
    let bytes = b"\x01\x01m\x00\x7f\x02\x01a\x00\x03\x01b\x00\x04";
    flattens(
        &rt,
        rt.alloc(),
        bytes,
        0,
        WasmFeatures::MEMORY64,
        [&lacking, &lacking],
    );
}
