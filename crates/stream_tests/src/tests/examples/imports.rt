// The imports of a module, as text.
use crate::tests::same;
use std::alloc::Global;
use std::test::Fail;
use wasm_base::{Error, Fault};
use wasm_examples::imports_text;

// A module that imports a memory alone, two functions from one module, and two globals of one type.
const IMPORTS: &[u8] = b"\0asm\x01\0\0\0\x01\x04\x01\x60\0\0\x02\x29\x03\
\x03env\x06memory\x02\0\x01\
\x01a\0\x7f\x02\x01f\0\0\x01g\0\0\
\x02bc\0\x7e\x03\x7f\0\x02\x01x\x01y";

// The text of a stream's imports.
fn text(alloc: Global, stream: &[u8]) -> wasm_base::Result<String> {
    imports_text(alloc, stream)
}

#[test]
fn each_import_has_a_line(rt: HostRuntime) -> Result<(), Fail> {
    let lines = text(rt.alloc(), IMPORTS)?;
    same(&rt, lines.as_str(), "env memory\na f\na g\nbc x\nbc y\n");
    let none = text(rt.alloc(), b"\0asm\x01\0\0\0\x01\x04\x01\x60\0\0")?;
    same(&rt, none.as_str(), "");
    Ok(())
}

fn fault_of(alloc: Global, stream: &[u8]) -> Option<Error> {
    text(alloc, stream).err()
}

#[test]
fn faults_stop_the_text(rt: HostRuntime) {
    // The section is not complete; the second import of two is missing; the header is bad.
    let cut = Error::new(Fault::UnexpectedEof, 16);
    same(&rt, fault_of(rt.alloc(), &IMPORTS[..42]), Some(cut));
    let missing = Error::new(Fault::UnexpectedEof, 18);
    let stream = b"\0asm\x01\0\0\0\x02\x08\x02\x01m\x01f\x02\0\x01";
    same(&rt, fault_of(rt.alloc(), stream), Some(missing));
    let bad = Error::new(Fault::BadMagic, 0);
    same(&rt, fault_of(rt.alloc(), b"\0asn\x01\0\0\0"), Some(bad));
}
