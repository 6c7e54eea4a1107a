// A module's outside.
use crate::tests::same;
use std::alloc::{AllocError, Global};
use std::process::Abort;
use std::test::Fail;
use wasm_base::{Error, Fault};
use wasm_examples::{Misfit, Outside, Spans, outside_of};
use wasm_items::{Export, ExternalKind, Import, TypeRef};

// A function and a global are imported, the function by a bundle; a function, a table and a tag are its own.
const HEAD: &[u8] =
    b"\0asm\x01\0\0\0\x01\x04\x01\x60\0\0\x02\x11\x02\x01m\0\x7f\x01\x01f\0\0\x01m\x01g\x03\x7f\0\x03\x02\x01\0\x04\x04\x01\x70\0\x01\x0d\x03\x01\0\0";

// A module of these, and of these sections after them.
fn module(alloc: Global, sections: &[u8]) -> Result<Vec<u8>, AllocError> {
    let mut bytes = HEAD.to_vec(alloc)?;
    bytes.extend_from_slice(sections)?;
    Ok(bytes)
}

fn outside_in(alloc: Global, bytes: &[u8]) -> Result<Outside<'_>, Misfit> {
    outside_of(alloc, bytes)
}

fn misfit_of(alloc: Global, bytes: &[u8]) -> Option<Misfit> {
    outside_in(alloc, bytes).err()
}

// There are two imports, of which this is the first, and three exports, of which this is the last.
fn are_outside(rt: &impl Abort, outside: &Outside<'_>, import: &Import<'_>, export: &Export<'_>) {
    same(rt, outside.imports.len(), 2);
    same(rt, outside.imports.get(0), Some(import));
    same(rt, outside.exports.len(), 3);
    same(rt, outside.exports.get(2), Some(export));
}

#[test]
fn exports_of_what_is_there(rt: HostRuntime) -> Result<(), Fail> {
    let bytes = module(
        rt.alloc(),
        b"\x07\x0d\x03\x01a\0\x01\x01b\x01\0\x01c\x03\0\x0a\x04\x01\x02\0\x0b",
    )?;
    let Ok(outside) = outside_in(rt.alloc(), &bytes) else {
        return Err("no outside".into());
    };
    let spans = Spans {
        functions: 2,
        tables: 1,
        memories: 0,
        globals: 1,
        tags: 1,
    };
    same(&rt, outside.spans, spans);
    let import = Import {
        module: "m",
        name: "f",
        ty: TypeRef::Func(0),
    };
    let export = Export {
        name: "c",
        kind: ExternalKind::Global,
        index: 0,
    };
    are_outside(&rt, &outside, &import, &export);
    Ok(())
}

#[test]
fn exports_of_what_is_not_there(rt: HostRuntime) -> Result<(), Fail> {
    let bytes = module(rt.alloc(), b"\x07\x09\x02\x01a\x04\0\x01b\0\x02")?;
    same(&rt, misfit_of(rt.alloc(), &bytes), Some(Misfit::NoSuch(1)));
    Ok(())
}

#[test]
fn a_stream_with_a_fault_has_no_outside(rt: HostRuntime) {
    let exact = Misfit::Stream(Error::new(Fault::ExactExport, 14));
    let stream = b"\0asm\x01\0\0\0\x07\x05\x01\x01a\x20\0";
    same(&rt, misfit_of(rt.alloc(), stream), Some(exact));
    let without = Misfit::Stream(Error::new(Fault::FunctionWithoutCode, 12));
    let stream = b"\0asm\x01\0\0\0\x03\x02\x01\0";
    same(&rt, misfit_of(rt.alloc(), stream), Some(without));
}
