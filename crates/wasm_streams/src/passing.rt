// A part that is forwarded or dropped chunk by chunk, after its first fields.
ghost use Rattle.std.specs.Prelude.{◌≡◌, ◌<◌, ◌++◌, [], true, drop, length, IfErr, IfOk, OnErr};
ghost use Rattle.wasm_io.specs.Calls.{input_failed, output_failed};
ghost use Rattle.wasm_streams.specs.Beside.{seen};
ghost use Rattle.wasm_io.specs.Page.{IsCut, PutsBytes};
ghost use Rattle.wasm_io.specs.declared.devices.ListError.TheVariants.{Input};
ghost use Rattle.wasm_streams.specs.Passing.{FillsChunk, GivesUp, SettlesNot, PassesMissing, PassesPart, PutsAll, Settles, TakesSome, held_by, if_stays};

use crate::ahead::Ahead;
use crate::cursor::Cursor;
use std::alloc::Allocator;
use wasm_base::{Error, Fault};
use wasm_io::{ListError, Page, Sink, Source, write_all};

/// More bytes than this are written at once, and not put on the page.
const LARGE: usize = 16_384;

/// A part of a stream that is forwarded or dropped before all of it has come.
#[derive(Clone, Copy)]
pub struct Passing {
    /// The offset of its content in the stream.
    pub from: u64,
    /// Its size in bytes, from its id on, or for a body from its size on.
    pub size: u64,
    /// Whether it is forwarded, and not dropped.
    pub stays: bool,
}

// Puts bytes on the page; more than 16,384 bytes are written at once, after those of the page.
fn put_or_write<A: Allocator, W: Sink>(
    page: &mut Page<A>,
    bytes: &[u8],
    output: &mut W,
) -> Result<(), ListError>
    ensures puts { IfOk result (λ done. PutsBytes (W.taken output.old) (W.taken output.new)
        page.old bytes.now page.new) }
    ensures cut { IfErr result (λ e. IsCut (W.taken output.old) (W.taken output.new) (page.old ++ bytes.now) e) }
    ensures failed { W.has_failed output.new ≡ output_failed result (W.has_failed output.old) }
{
    if bytes.len() <= LARGE {
        return page.put(bytes, output);
    }
    page.write_out(output)?;
    match write_all(output, bytes) {
        Ok(()) => Ok(()),
        Err(_) => Err(ListError::Output),
    }
}

/// Puts bytes on the page; more than 16,384 bytes are written at once, after those of the page.
///
/// # Errors
///
/// A prefix of what waited and of these bytes has been written, and the page is empty.
///
/// * `Output` if the sink failed.
/// * `Memory` when an allocation fails.
pub fn put_all<A: Allocator, W: Sink>(
    page: &mut Page<A>,
    bytes: &[u8],
    output: &mut W,
) -> Result<(), ListError>
    // Proved: `put_all` puts all bytes on a page or behind it; at an error a prefix of what waited
    //   and of these was written, and the page is empty
    ensures puts { PutsAll (W.taken output.old) (W.taken output.new)
        page.old bytes.now page.new result }
    ensures failed { W.has_failed output.new ≡ output_failed result (W.has_failed output.old) }
{
    let put = put_or_write(page, bytes, output);
    if put.is_err() {
        page.clear();
    }
    put
}

// Puts bytes on the page if they stay.
fn put_if<A: Allocator, W: Sink>(
    stays: bool,
    page: &mut Page<A>,
    bytes: &[u8],
    output: &mut W,
) -> Result<(), ListError>
    ensures puts { PutsAll (W.taken output.old) (W.taken output.new)
        page.old (if_stays stays bytes.now) page.new result }
    ensures stays { OnErr result (stays ≡ true) }
    ensures failed { W.has_failed output.new ≡ output_failed result (W.has_failed output.old) }
{
    if stays {
        put_all(page, bytes, output)
    } else {
        Ok(())
    }
}

// Reads the next chunk if the chunk is empty.
fn fill<A: Allocator, R: Source>(ahead: &mut Ahead<A>, input: &mut R) -> Result<(), ListError>
    ensures fills { FillsChunk (R.remaining input.old) (R.remaining input.new) ahead.old ahead.new result }
    ensures err { IfErr result (λ e. e ≡ Input) }
    ensures failed { R.has_failed input.new ≡ input_failed result (R.has_failed input.old) }
{
    if ahead.bytes().is_empty() {
        match ahead.fetch(input) {
            Ok(()) => Ok(()),
            Err(_) => Err(ListError::Input),
        }
    } else {
        Ok(())
    }
}

// Takes at most `most` bytes from the chunk, and puts them on the page if they stay. An empty chunk is read first.
// Returns how many bytes it took: none if the source is at its end. Bytes that could not be put are taken too.
fn take_some<A: Allocator, R: Source, W: Sink>(
    most: u64,
    stays: bool,
    ahead: &mut Ahead<A>,
    page: &mut Page<A>,
    input: &mut R,
    output: &mut W,
) -> Result<u64, ListError>
    requires { 0 < most }
    ensures takes { IfOk result (λ count. TakesSome (R.remaining input.old) (R.remaining input.new)
        (W.taken output.old) (W.taken output.new) stays most ahead.old page.old count ahead.new page.new) }
    ensures cut { IfErr result (λ e. GivesUp (R.remaining input.old) (R.remaining input.new)
        (W.taken output.old) (W.taken output.new) stays most ahead.old page.old e ahead.new page.new) }
    ensures source { R.has_failed input.new ≡ input_failed result (R.has_failed input.old) }
    ensures sink { W.has_failed output.new ≡ output_failed result (W.has_failed output.old) }
{
    fill(ahead, input)?;
    let count = most.min(ahead.bytes().len() as u64) as usize;
    let put = put_if(stays, page, &ahead.bytes()[..count], output);
    ahead.pass(count);
    put?;
    Ok(count as u64)
}

// Forwards or drops the missing bytes of a part, and returns whether all of them came before the end of the source.
fn pass_missing<A: Allocator, R: Source, W: Sink>(
    missing: u64,
    stays: bool,
    ahead: &mut Ahead<A>,
    page: &mut Page<A>,
    input: &mut R,
    output: &mut W,
) -> Result<bool, ListError>
    ensures passes { IfOk result (λ whole. PassesMissing (R.remaining input.old) (R.remaining input.new)
        (W.taken output.old) (W.taken output.new) stays missing ahead.old page.old whole ahead.new page.new) }
    ensures cut { IfErr result (λ e. GivesUp (R.remaining input.old) (R.remaining input.new)
        (W.taken output.old) (W.taken output.new) stays missing ahead.old page.old e ahead.new page.new) }
    ensures source { R.has_failed input.new ≡ input_failed result (R.has_failed input.old) }
    ensures sink { W.has_failed output.new ≡ output_failed result (W.has_failed output.old) }
{
    let mut left = missing;
    'chunks: while left > 0 {
        let count = take_some(left, stays, ahead, page, input, output)?;
        if count == 0 {
            return Ok(false);
        }
        left -= count;
    }
    Ok(true)
}

// Puts the stored bytes of the part at the cursor on the page if it stays, so that its other bytes are in the chunk.
// Returns how many bytes it put or dropped. Bytes that could not be put are no longer stored either.
fn settle<A: Allocator, W: Sink>(
    stays: bool,
    cursor: &mut Cursor,
    stored: &mut Vec<u8, A>,
    ahead: &mut Ahead<A>,
    page: &mut Page<A>,
    output: &mut W,
) -> Result<usize, ListError>
    ensures settles { IfOk result (λ count. Settles (W.taken output.old) (W.taken output.new) stays
        cursor.old stored.old.items ahead.old page.old count ahead.new page.new) }
    ensures none { stored.new.items ≡ [] }
    ensures cursor { cursor.new ≡ record cursor.old { mark = 0 } }
    ensures cut { IfErr result (λ e. SettlesNot (W.taken output.old) (W.taken output.new)
        cursor.old stored.old.items ahead.old page.old e ahead.new page.new) }
    ensures stays { OnErr result (stays ≡ true) }
    ensures sink { W.has_failed output.new ≡ output_failed result (W.has_failed output.old) }
{
    if stored.is_empty() {
        ahead.pass(cursor.mark().min(ahead.bytes().len()));
        cursor.rewind();
        return Ok(0);
    }
    let held = cursor.remaining(stored);
    let count = held.len();
    let put = put_if(stays, page, held, output);
    stored.clear();
    cursor.rewind();
    put?;
    Ok(count)
}

/// Forwards a part to the output, or drops it, and returns the fault of a stream that ends before the part does.
///
/// The cursor has skipped the part (`Cursor::skip_next`), of which not all bytes are held. The others are read in
/// chunks. Afterwards no bytes are stored, and the cursor is at the rest of the chunk, which follows the part.
///
/// # Errors
///
/// No bytes are stored then either, and the cursor is at the rest of the chunk.
///
/// * `Input` if the source failed. The bytes so far were forwarded or dropped, and the rest of the chunk is empty.
/// * `Output` if the sink failed, and `Memory` when an allocation fails. A prefix of the page and of the part has been
///   written, the page is empty, and the rest of the chunk begins after the bytes that could not be forwarded.
pub fn pass_part<A: Allocator, R: Source, W: Sink>(
    passing: Passing,
    cursor: &mut Cursor,
    stored: &mut Vec<u8, A>,
    ahead: &mut Ahead<A>,
    page: &mut Page<A>,
    input: &mut R,
    output: &mut W,
) -> Result<Option<Error>, ListError>
    requires { length (drop cursor.old.mark (seen stored.old.items ahead.old)) < passing.size }
    // Proved: `pass_part` forwards a skipped part or drops it: what was held and then read is the
    //   part and what follows it; or the source ended within the part, which is `UnexpectedEof` at
    //   its content. No byte is stored then [`passes`, `none`, `cursor` on `pass_part`
    //   (`PassesPart`)]
    ensures passes { IfOk result (λ fault. PassesPart (R.remaining input.old) (R.remaining input.new)
        (W.taken output.old) (W.taken output.new) passing cursor.old stored.old.items ahead.old page.old
        fault ahead.new page.new) }
    ensures none { stored.new.items ≡ [] }
    ensures cursor { cursor.new ≡ record cursor.old { mark = 0 } }
    // Proved: if the source fails within `pass_part`, the bytes so far were forwarded or dropped,
    //   and none of the chunk remain; if they could not be forwarded, a prefix of the page and of
    //   the part was written, the page is empty, and the rest of the chunk follows the bytes that
    //   were tried. No byte is stored then either [`cut`, `none`, `cursor`, `source`, `sink` on
    //   `pass_part` (`GivesUp`, `EndsAtError`)]
    ensures cut { IfErr result (λ e. GivesUp (R.remaining input.old) (R.remaining input.new)
        (W.taken output.old) (W.taken output.new) passing.stays passing.size
        (held_by cursor.old stored.old.items ahead.old) page.old e ahead.new page.new) }
    ensures source { R.has_failed input.new ≡ input_failed result (R.has_failed input.old) }
    ensures sink { W.has_failed output.new ≡ output_failed result (W.has_failed output.old) }
{
    let held = settle(passing.stays, cursor, stored, ahead, page, output)?;
    let missing = passing.size - held as u64;
    if pass_missing(missing, passing.stays, ahead, page, input, output)? {
        Ok(None)
    } else {
        Ok(Some(Error::new(Fault::UnexpectedEof, passing.from)))
    }
}
