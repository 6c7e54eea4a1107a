// The imports of a payload, whose window has the features of the parser.
use super::next;
use crate::tests::gives;
use std::alloc::Global;
use std::process::Abort;
use wasm_parser::{ImportSection, ImportSectionReader, Parser, Payload, WasmFeatures};

// A module whose import section has a bundle of two functions.
const GROUP: &[u8] = b"\0asm\x01\0\0\0\x02\x0e\x01\x01m\0\x7f\x02\x01a\0\x03\x01b\0\x04";

fn imports<'a>(payload: Payload<'a>) -> Option<ImportSectionReader<'a>> {
    match payload {
        Payload::ImportSection(section) => Some(section),
        _other => None,
    }
}

// The imports of the import section, by a parser with these features, are printed as these texts.
fn imports_are(rt: &impl Abort, alloc: Global, features: WasmFeatures, texts: &[&str]) {
    let mut parser = Parser::new(0);
    parser.set_features(features);
    let mut walk = parser.parse_all(GROUP);
    drop(next(rt, &mut walk));
    let section = imports(next(rt, &mut walk)).expect(rt, "no imports");
    gives(rt, alloc, section.into_imports_with_offsets(), texts);
}

#[test]
fn bundles_want_their_feature(rt: HostRuntime) {
    let texts = [
        "Ok((16, Import { module: \"m\", name: \"a\", ty: Func(3) }))",
        "Ok((20, Import { module: \"m\", name: \"b\", ty: Func(4) }))",
    ];
    imports_are(&rt, rt.alloc(), WasmFeatures::COMPACT_IMPORTS, &texts);
    let lacking = ["Err(Error { fault: Compact7F, offset: 14, number: None, hint: None })"];
    imports_are(&rt, rt.alloc(), WasmFeatures::MEMORY64, &lacking);
}
