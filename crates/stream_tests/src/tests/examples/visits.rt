// Visits of streams that come in chunks.
use crate::tests::same;
use bitflags::Flags;
use std::alloc::{AllocError, Global};
use std::test::Fail;
use wasm_base::{Error, Fault, Result, WasmFeatures};
use wasm_examples::{Compiler, Compiling, CustomSize, compile_pieces, custom_sizes};
use wasm_items::FunctionBody;

// Two functions, a custom section before them and one after.
const MODULE: &[u8] =
    b"\0asm\x01\0\0\0\0\x04\x03abc\x03\x03\x02\0\0\x0a\x09\x02\x02\0\x0b\x04\0\x41\0\x0b\0\x83\0\x01d\xff";

// A compiler that notes where its bodies lie.
struct Places {
    first: u64,
    last: u64,
    count: u32,
}

impl Compiler for Places {
    fn compile(&mut self, body: FunctionBody<'_>) {
        let range = body.range();
        if self.count == 0 {
            self.first = range.start;
        }
        self.last = range.end;
        self.count = self.count.wrapping_add(1);
    }
}

// The bytes in chunks of this size.
fn cut<'a>(
    alloc: Global,
    bytes: &'a [u8],
    size: usize,
) -> std::result::Result<Vec<&'a [u8]>, AllocError> {
    let mut pieces = Vec::new(alloc);
    for piece in bytes.chunks(size.max(1)) {
        pieces.push(piece)?;
    }
    Ok(pieces)
}

// What a visit returns if a compiler sees the bodies of these chunks.
fn compile(alloc: Global, pieces: &[&[u8]], compiler: &mut Compiling<Places>) -> Result<usize> {
    if !wasm_feed::fits_pieces(0, pieces) {
        return Err(Error::new(Fault::SizeMismatch, 0));
    }
    compile_pieces(alloc, WasmFeatures::all(), pieces, compiler)
}

// What a compiler saw of these bytes, cut so, and what the visit returned.
fn compiled(
    alloc: Global,
    bytes: &[u8],
    size: usize,
) -> std::result::Result<((u64, u64, u32), Result<usize>), AllocError> {
    let pieces = cut(alloc, bytes, size)?;
    let mut compiler = Compiling(Places {
        first: 0,
        last: 0,
        count: 0,
    });
    let most = compile(alloc, &pieces, &mut compiler);
    let Compiling(Places { first, last, count }) = compiler;
    Ok(((first, last, count), most))
}

#[test]
fn bodies_are_forwarded(rt: HostRuntime) -> std::result::Result<(), Fail> {
    for size in [1, 3, 7, 41] {
        let (places, most) = compiled(rt.alloc(), MODULE, size)?;
        same(&rt, places, (23, 30, 2));
        same(&rt, most? <= size.saturating_add(7), true);
    }
    Ok(())
}

#[test]
fn bodies_before_a_fault_are_forwarded(rt: HostRuntime) -> std::result::Result<(), Fail> {
    let stream = b"\0asm\x01\0\0\0\x03\x02\x01\0\x0a\x04\x01\x02\0\x0b\x80";
    let (places, most) = compiled(rt.alloc(), stream, 2)?;
    same(&rt, places, (16, 18, 1));
    let id = Error::new(Fault::MalformedSectionId, 18);
    same(&rt, most, Err(id));
    Ok(())
}

fn sizes(alloc: Global, pieces: &[&[u8]]) -> Result<Vec<CustomSize>> {
    if !wasm_feed::fits_pieces(0, pieces) {
        return Err(Error::new(Fault::SizeMismatch, 0));
    }
    custom_sizes(alloc, WasmFeatures::all(), pieces)
}

// The name of a section, and how many bytes it takes.
fn named(section: Option<&CustomSize>) -> Option<(&str, usize)> {
    let section = section?;
    Some((section.name.as_str(), section.size))
}

#[test]
fn custom_sections_are_listed(rt: HostRuntime) -> std::result::Result<(), Fail> {
    let pieces = cut(rt.alloc(), MODULE, 5)?;
    let list = sizes(rt.alloc(), &pieces)?;
    same(&rt, list.len(), 2);
    same(&rt, named(list.get(0)), Some(("abc", 6)));
    same(&rt, named(list.get(1)), Some(("d", 6)));
    Ok(())
}
