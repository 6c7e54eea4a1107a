// Editing a stream that need not fit in memory.
ghost use Rattle.std.specs.Prelude.{◌≡◌, ◌+◌, ◌≤◌, [], ◌∷◌, All, length, IfErr, IfOk, vec_len, vec_capacity};
ghost use Rattle.wasm_io.specs.Calls.{device_of, input_failed, output_failed};
ghost use Rattle.wasm_streams.specs.Beside.{beside};
ghost use Rattle.wasm_streams.specs.Cursors.{feed_of};
ghost use Rattle.wasm_streams.specs.Passing.{PutsAll};
ghost use Rattle.wasm_streams.specs.Step.{Part};
ghost use Rattle.wasm_streams.specs.Writers.{writer_stages};
ghost use Rattle.wasm_edits.specs.Edits.{CanBeMade, CanBeWritten, bytes_as};
ghost use Rattle.wasm_edits.specs.Encoded.{Fits, encoded_section};
ghost use Rattle.wasm_edits.specs.EditStream.{CanBePassed, CanBeSkipped, EditsParts, EditsSource, ReadsOrPasses, SkipsEdited, StopsHere, TakesPiece, WritesNew, editor};
ghost use Rattle.wasm_edits.specs.declared.edits.Edit.TheVariants as edit;

use crate::edits::{Edit, Fate, added_by, frame_fate, head_fate};
use crate::encoding::{NewSection, encode};
use crate::fates::Keep;
use std::alloc::Allocator;
use wasm_base::Error;
use wasm_frames::{Frame, FrameKind};
use wasm_io::{ListError, Page, Sink, Source};
use wasm_streams::{Ahead, Cursor, Ended, Passing, Visitor, pass_part, put_all, seen, visit};

// Puts a new section on the page.
fn put_section<A: Allocator + Copy, W: Sink>(
    alloc: A,
    section: NewSection<'_>,
    page: &mut Page<A>,
    output: &mut W,
) -> Result<(), ListError>
    requires { Fits section }
    ensures puts { PutsAll (W.taken output.old) (W.taken output.new)
        page.old (encoded_section section.entry) page.new result }
    ensures failed { W.has_failed output.new ≡ output_failed result (W.has_failed output.old) }
{
    match encode(alloc, section) {
        Ok(bytes) => put_all(page, &bytes, output),
        Err(_) => {
            page.clear();
            Err(ListError::Memory)
        }
    }
}

// Puts these bytes on the page, or what became of them.
#[inline(always)]
fn put_as<A: Allocator + Copy, W: Sink>(
    alloc: A,
    fate: Fate<'_>,
    bytes: &[u8],
    page: &mut Page<A>,
    output: &mut W,
) -> Result<(), ListError>
    requires { CanBeWritten fate }
    ensures puts { PutsAll (W.taken output.old) (W.taken output.new)
        page.old (bytes_as fate.entry bytes.now) page.new result }
    ensures failed { W.has_failed output.new ≡ output_failed result (W.has_failed output.old) }
{
    match fate {
        Fate::Stays => put_all(page, bytes, output),
        Fate::Goes => Ok(()),
        Fate::Becomes(section) => put_section(alloc, section, page, output),
    }
}

// Puts a part on the page, or what becomes of it. The end of the stream has no bytes.
#[inline(always)]
fn put_part<A: Allocator + Copy, W: Sink>(
    alloc: A,
    edits: &[Edit<'_>],
    frame: &Frame<'_>,
    bytes: &[u8],
    page: &mut Page<A>,
    output: &mut W,
) -> Result<(), ListError>
    requires { All CanBeMade edits.now }
    ensures takes { TakesPiece edits.now (W.taken output.old) (W.taken output.new)
        page.old page.new (Part frame.now bytes.now) result }
    ensures failed { W.has_failed output.new ≡ output_failed result (W.has_failed output.old) }
{
    match frame.kind() {
        FrameKind::End => Ok(()),
        _ => put_as(alloc, frame_fate(edits, frame), bytes, page, output),
    }
}

// A part that is skipped, and what becomes of it.
#[derive(Clone, Copy)]
struct Skipped<'a> {
    passing: Passing,
    fate: Fate<'a>,
}

// Skips the part at the cursor, if its first fields are in these bytes.
fn skip_part<'a>(cursor: &mut Cursor, bytes: &[u8], edits: &[Edit<'a>]) -> Option<Skipped<'a>>
    ensures skips { SkipsEdited edits.now cursor.old bytes.now result cursor.new }
    ensures fits { All CanBeMade edits.now → CanBeSkipped result }
{
    let start = cursor.offset();
    let part = cursor.skip_next(bytes)?;
    let fate = head_fate(edits, &part.head);
    Some(Skipped {
        passing: Passing {
            from: part.range.start,
            size: part.range.end - start,
            stays: fate.is_itself(),
        },
        fate,
    })
}

// What came of a request for more input.
#[derive(Clone, Copy)]
enum Passed<'a> {
    // The stream ended with this fault within a part that was skipped.
    Cut(Error),
    // Nothing but what becomes of a part that was skipped, and whose own bytes have been forwarded or dropped.
    Part(Fate<'a>),
}

// Skips the part at the cursor, and forwards or drops it; or reads more, if its first fields are not here.
fn read_or_pass<'a, A: Allocator, R: Source, W: Sink>(
    edits: &[Edit<'a>],
    cursor: &mut Cursor,
    stored: &mut Vec<u8, A>,
    ahead: &mut Ahead<A>,
    page: &mut Page<A>,
    input: &mut R,
    output: &mut W,
) -> Result<Passed<'a>, ListError>
    requires { vec_len stored.old + length ahead.old ≤ vec_capacity stored.old }
    ensures reads { IfOk result (λ passed. ReadsOrPasses edits.now
        (R.remaining input.old) (R.remaining input.new) (W.taken output.old) (W.taken output.new)
        cursor.old stored.old.items ahead.old page.old passed
        (beside (feed_of stored.new.items cursor.new) ahead.new) page.new) }
    ensures stops { IfErr result (λ e. StopsHere edits.now
        (R.remaining input.old) (R.remaining input.new) (W.taken output.old) (W.taken output.new)
        cursor.old stored.old.items ahead.old page.old e) }
    ensures fits { All CanBeMade edits.now → IfOk result CanBePassed }
    ensures source { R.has_failed input.new ≡ input_failed result (R.has_failed input.old) }
    ensures sink { W.has_failed output.new ≡ output_failed result (W.has_failed output.old) }
{
    match skip_part(cursor, seen(stored, ahead.bytes()), edits) {
        Some(skipped) => {
            match pass_part(skipped.passing, cursor, stored, ahead, page, input, output)? {
                None => Ok(Passed::Part(skipped.fate)),
                Some(error) => Ok(Passed::Cut(error)),
            }
        }
        None => {
            ahead.refill(cursor, stored, input)?;
            Ok(Passed::Part(Fate::Goes))
        }
    }
}

// Puts each part on a page, or what becomes of it.
#[derive(Drop)]
struct Editor<'a, A: Allocator> {
    alloc: A,
    edits: &'a [Edit<'a>],
    page: Page<A>,
}

impl<'a, A: Allocator + Copy, W: Sink> Visitor<A, W> for Editor<'a, A> {
    ghost stages = { writer_stages (editor (λ e. e.edits.now) (λ e. e.page) W.taken W.has_failed) };

    ghost sound = { λ editor. All CanBeMade editor.edits.now };

    fn take_part(
        &mut self,
        frame: Frame<'_>,
        bytes: &[u8],
        output: &mut W,
    ) -> Result<(), ListError> {
        let page = &mut self.page;
        put_part(self.alloc, self.edits, &frame, bytes, page, output)
    }

    fn take_fault(&mut self, _error: Error, _output: &mut W) -> Result<(), ListError> {
        Ok(())
    }

    fn read_on<R: Source>(
        &mut self,
        cursor: &mut Cursor,
        stored: &mut Vec<u8, A>,
        ahead: &mut Ahead<A>,
        input: &mut R,
        output: &mut W,
    ) -> Result<Option<Error>, ListError> {
        let page = &mut self.page;
        match read_or_pass(self.edits, cursor, stored, ahead, page, input, output)? {
            Passed::Part(fate) => {
                put_as(self.alloc, fate, b"", page, output)?;
                Ok(None)
            }
            Passed::Cut(error) => {
                page.write_out(output)?;
                Ok(Some(error))
            }
        }
    }

    fn finish(&mut self, output: &mut W) -> Result<(), ListError> {
        self.page.write_out(output)
    }

    fn out_of_memory(&mut self, _output: &mut W) -> ListError {
        ListError::Memory
    }
}

// Writes the parts of a stream, after edits, without the sections that are appended.
fn edit_parts<A: Allocator + Copy, R: Source, W: Sink>(
    alloc: A,
    edits: &[Edit<'_>],
    input: &mut R,
    output: &mut W,
    piece: usize,
) -> Result<Ended, ListError>
    requires piece { 1 ≤ piece }
    requires fits { All CanBeMade edits.now }
    ensures { EditsParts edits.now
        (device_of R.remaining R.has_failed input.old input.new)
        (device_of W.taken W.has_failed output.old output.new) result }
{
    let buffer = vec![in alloc; 0u8; piece]?;
    let mut editor = Editor {
        alloc,
        edits,
        page: Page::new(alloc),
    };
    visit(alloc, &mut editor, input, output, buffer)
}

// Writes the sections that edits append.
fn write_new<A: Allocator + Copy, W: Sink>(
    alloc: A,
    edits: &[Edit<'_>],
    output: &mut W,
) -> Result<(), ListError>
    requires { All CanBeMade edits.now }
    ensures { WritesNew edits.now (device_of W.taken W.has_failed output.old output.new) result }
{
    let mut page = Page::new(alloc);
    let mut rest = edits;
    'edits: while let [edit, later @ ..] = rest {
        put_as(alloc, added_by(edit, later), b"", &mut page, output)?;
        rest = later;
    }
    page.write_out(output)
}

/// Reads a stream from a source and writes it with other custom sections.
///
/// The other parts keep their bytes and their order, as do the custom sections that stay. It reads at most `piece` bytes
/// at once, which must be at least 1. It buffers one chunk, at most 65,536 bytes to be written, the first fields of a
/// part, and a new section while it writes it. The parts of a well-formed stream are not buffered, however large they
/// are. The new sections must fit (`all_fit`).
///
/// Bytes are written before the end of the stream is known. To write nothing if the stream has a fault, read it twice:
/// first into `std::io::sink()`.
///
/// A fault of the stream is no error: `Ended::Fault` is returned, and the parts before it have been written as the edits
/// leave them, perhaps with the first bytes of the part that it cuts. The appended sections are written only if there is
/// no fault.
///
/// # Errors
///
/// A prefix of the edited stream has been written.
///
/// * `Input` if the source failed.
/// * `Output` if the sink failed.
/// * `Memory` when an allocation fails.
///
/// ```rattle
/// let mut input = SliceSource::new(b"\0asm\x01\0\0\0\0\x02\x01a\x01\x01\0");
/// let mut output = BoundedSink::new(alloc, 1000)?;
/// let edits = [Edit::Replace(NewSection { name: "a", data: b"z" })];
/// assert!(rt; all_fit(&edits));
/// assert_eq!(rt; edit_stream(alloc, &edits, &mut input, &mut output, 4096)?, Ended::End);
/// assert_eq!(rt; output.written(), b"\0asm\x01\0\0\0\0\x03\x01az\x01\x01\0".as_slice());
/// ```
///
/// (Core specification, Binary format, Modules, Custom Section.)
pub fn edit_stream<A: Allocator + Copy, R: Source, W: Sink>(
    alloc: A,
    edits: &[Edit<'_>],
    input: &mut R,
    output: &mut W,
    piece: usize,
) -> Result<Ended, ListError>
    requires piece { 1 ≤ piece }
    requires fits { All CanBeMade edits.now }
    // Proved: `edit_stream` returns how the stream ended: at its end or at a fault. It has then written the bytes of the
    //   events after the edits, and at the end the sections that are appended. If the stream ended without a fault, that
    //   is the edited stream. After a fault it may also have written bytes of the part that the fault cuts, at most all
    //   of them and only if that part stays by its first fields [the clause of `edit_stream` (`EditsSource`:
    //   `IsStreamed`, `NextStays`, `EndsEdit`)]
    // Proved: if a device or an allocation fails, `edit_stream` returns which one. It has then written a prefix of those
    //   bytes [the same (`EditsHead`, `NextStays`, `WritesNew`)]
    ensures { EditsSource edits.now
        (device_of R.remaining R.has_failed input.old input.new)
        (device_of W.taken W.has_failed output.old output.new) result }
{
    match edit_parts(alloc, edits, input, output, piece)? {
        Ended::End => {
            write_new(alloc, edits, output)?;
            Ok(Ended::End)
        }
        Ended::Fault(error) => Ok(Ended::Fault(error)),
    }
}

/// Reads a stream from a source and writes it without its custom sections, except those that `keep` keeps: `edit_stream`
/// with the edit `Keep`.
///
/// # Errors
///
/// Those of `edit_stream`.
///
/// ```rattle
/// let mut input = SliceSource::new(b"\0asm\x01\0\0\0\0\x02\x01a\x01\x01\0");
/// let mut output = BoundedSink::new(alloc, 1000)?;
/// assert_eq!(rt; strip_stream(alloc, &mut input, &mut output, Keep::names(false), 4096)?, Ended::End);
/// assert_eq!(rt; output.written(), b"\0asm\x01\0\0\0\x01\x01\0".as_slice());
/// ```
///
/// (Core specification, Binary format, Modules, Custom Section.)
pub fn strip_stream<A: Allocator + Copy, R: Source, W: Sink>(
    alloc: A,
    input: &mut R,
    output: &mut W,
    keep: Keep<'_>,
    piece: usize,
) -> Result<Ended, ListError>
    requires { 1 ≤ piece }
    // Proved: `strip_stream` is `edit_stream` with the edit that keeps a choice of sections
    ensures { EditsSource (edit.Keep keep.entry ∷ [])
        (device_of R.remaining R.has_failed input.old input.new)
        (device_of W.taken W.has_failed output.old output.new) result }
{
    edit_stream(alloc, &[Edit::Keep(keep)], input, output, piece)
}
