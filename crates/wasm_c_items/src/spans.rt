// Places in the caller's bytes.
ghost use Rattle.std.specs.Prelude.{◌≡◌, ◌+◌, ◌-◌, ◌<◌, ◌^◌, drop, length, take};
ghost use Rattle.wasm_base.specs.FaultAt.{at_offset, fault_at};
ghost use Rattle.wasm_base.specs.Number.{unsigned_at};
ghost use Rattle.wasm_base.specs.declared.fault.NumberKind.TheVariants.{VarU32};
ghost use Rattle.wasm_base.specs.Window.{place, window_over};
ghost use Rattle.wasm_base.specs.Name.{window_at};
ghost use Rattle.wasm_c_items.specs.Spans.{flag, items_span, span_before, text_after, text_span, window_span};
ghost use Rattle.wasm_base.specs.declared.fault.Fault.TheVariants.{OffsetRange};

use bitflags::Flags;
use wasm_parser::{BinaryReader, Error, Fault, SectionLimited, WasmFeatures};

/// A run of the bytes that a call was passed: a name, an expression or a list.
#[repr(C)]
#[derive(Clone, Copy)]
pub struct PlainSpan {
    /// The position of the first byte, counted from the first byte that the call was passed.
    pub at: usize,
    /// The size in bytes.
    pub size: usize,
}

/// No bytes.
pub(crate) const NO_SPAN: PlainSpan = PlainSpan { at: 0, size: 0 };

/// A reader of these bytes, which are at this offset of the stream.
pub(crate) fn reader_over<'a>(bytes: &'a [u8], offset: u64, features: u32) -> BinaryReader<'a>
    requires { offset + length bytes.now < 2 ^ 64 }
    ensures { result ≡ window_over features offset bytes.now }
{
    BinaryReader::new_features(bytes, offset, WasmFeatures::from_bits_retain(features))
}

/// That bytes at this offset pass the greatest offset of a stream.
pub(crate) fn out_of_range(offset: u64) -> Error
    ensures { fault_at result ≡ at_offset OffsetRange offset }
{
    Error::new(Fault::OffsetRange, offset)
}

/// How many bytes there are from one offset to another, which isn't before it.
pub(crate) fn distance(from: u64, to: u64) -> usize
    ensures { result ≡ to - from }
{
    to.saturating_sub(from) as usize
}

/// 1 for what holds.
pub(crate) fn flag(holds: bool) -> u32
    ensures { result ≡ flag holds }
{
    if holds { 1 } else { 0 }
}

/// Where a text of this many bytes is, from this offset on: after its size, with which the reader begins.
pub(crate) fn text_span(from: u64, mut reader: BinaryReader<'_>, size: usize) -> PlainSpan
    ensures { result ≡ text_span from (place reader.entry) size }
{
    let at = match reader.read_var_u32() {
        Ok(_) => distance(from, reader.original_position()),
        Err(_) => 0,
    };
    PlainSpan { at, size }
}

/// Like `text_span`, for the text after a size and this many bytes, with which the reader begins.
pub(crate) fn text_after_sized(from: u64, mut reader: BinaryReader<'_>, size: usize) -> PlainSpan
    ensures { result ≡ text_after from size (window_at (place reader.entry)) }
{
    match reader.read_reader() {
        Ok(_) => text_span(from, reader, size),
        Err(_) => unknown_span(size),
    }
}

/// Like `text_span`, for the text after a number.
pub(crate) fn text_after_number(from: u64, mut reader: BinaryReader<'_>, size: usize) -> PlainSpan
    ensures { result ≡ text_after from size (unsigned_at VarU32 (place reader.entry)) }
{
    match reader.read_var_u32() {
        Ok(_) => text_span(from, reader, size),
        Err(_) => unknown_span(size),
    }
}

/// Where bytes are, from this offset on, that end at another.
pub(crate) fn span_before(from: u64, to: u64, size: usize) -> PlainSpan
    ensures { result ≡ span_before from to size }
{
    PlainSpan {
        at: distance(from, to).saturating_sub(size),
        size,
    }
}

/// A text whose place isn't known.
pub(crate) fn unknown_span(size: usize) -> PlainSpan
    ensures at { result.at ≡ 0 }
    ensures size { result.size ≡ size }
{
    PlainSpan { at: 0, size }
}

/// Where the window of a reader is, from this offset on.
pub(crate) fn window_span(from: u64, window: &BinaryReader<'_>) -> PlainSpan
    ensures { result ≡ window_span from window.now }
{
    let range = window.range();
    PlainSpan {
        at: distance(from, range.start),
        size: distance(range.start, range.end),
    }
}

/// Where the items of a section are, from this offset on.
pub(crate) fn items_span<T>(from: u64, section: &SectionLimited<'_, T>) -> PlainSpan
    ensures { result ≡ items_span from section.now }
{
    let begin = section.original_position();
    PlainSpan {
        at: distance(from, begin),
        size: distance(begin, section.range().end),
    }
}

/// The first bytes.
pub(crate) fn front(bytes: &[u8], end: usize) -> &[u8]
    ensures { result.now ≡ take end bytes.now }
{
    if end <= bytes.len() {
        &bytes[..end]
    } else {
        bytes
    }
}

/// The bytes after the first.
pub(crate) fn after(bytes: &[u8], mark: usize) -> &[u8]
    ensures { result.now ≡ drop mark bytes.now }
{
    if mark <= bytes.len() {
        &bytes[mark..]
    } else {
        &[]
    }
}
