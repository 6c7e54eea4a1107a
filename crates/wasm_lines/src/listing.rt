// The listing of a stream.
ghost use Rattle.std.specs.Prelude.{◌≡◌, ◌+◌, ◌≤◌, length, vec_len, vec_capacity};
ghost use Rattle.wasm_io.specs.Calls.{change_of, device_of, input_failed, output_failed};
ghost use Rattle.wasm_io.specs.Page.{WritesOut};
ghost use Rattle.wasm_lines.specs.Listing.{line_of, skip_text};
ghost use Rattle.wasm_io.specs.declared.digits.Base.TheVariants.{Decimal};
ghost use Rattle.wasm_frames.specs.SkipNext.{skip_is};
ghost use Rattle.wasm_streams.specs.Beside.{beside, lending};
ghost use Rattle.wasm_streams.specs.Cursors.{feed_of};
ghost use Rattle.wasm_streams.specs.Progress.{ReadsOnAnywhere};
ghost use Rattle.wasm_streams.specs.Step.{Stop};
ghost use Rattle.wasm_streams.specs.Writers.{writer_stages};
ghost use Rattle.wasm_lines.specs.Dropping.{DropsIfAny};
ghost use Rattle.wasm_lines.specs.ListStream.{ListsSource, TakesTurn, lister};

use crate::lines::{FaultLine, FrameLine, SkippedLine};
use std::alloc::{Allocator, Global};
use wasm_base::Error;
use wasm_frames::{Frame, PartHead, SkippedPart};
use wasm_io::{Base, ListError, Page, Sink, Source};
use wasm_streams::{Ahead, Cursor, Ended, Passing, Visitor, pass_part, seen, visit};

// Puts the line of the fault at which the stream stops on the page.
fn put_fault<A: Allocator, W: Sink>(
    page: &mut Page<A>,
    output: &mut W,
    error: &Error,
) -> Result<(), ListError>
    ensures takes { TakesTurn (W.taken output.old) (W.taken output.new)
        page.old page.new (Stop error.now) result }
    ensures failed { W.has_failed output.new ≡ output_failed result (W.has_failed output.old) }
{
    page.put_line(
        &FaultLine {
            base: Base::Decimal,
            error,
        },
        output,
    )
}

// A part that was skipped, whose bytes are dropped.
#[derive(Drop)]
struct Dropped {
    passing: Passing,
    // The part without its name, so that it borrows nothing: its line has none.
    part: SkippedPart<'static>,
}

// The part without its name.
fn without_name(part: SkippedPart<'_>) -> SkippedPart<'static>
    ensures { skip_text Decimal (skip_is result) ≡ skip_text Decimal (skip_is part.entry) }
{
    let head = match part.head {
        PartHead::Custom { data_offset, .. } => PartHead::Custom {
            name: "",
            data_offset,
        },
        PartHead::Items { id, count } => PartHead::Items { id, count },
        PartHead::Unknown { id } => PartHead::Unknown { id },
        PartHead::Body => PartHead::Body,
    };
    SkippedPart {
        range: part.range,
        head,
    }
}

// Skips the part at the cursor, if its first fields are in these bytes.
fn skip_dropped(cursor: &mut Cursor, bytes: &[u8]) -> Option<Dropped>
    // Proved: when they look, `list` and `edit_stream` skip the part at the cursor whenever
    //   `skip_next` can skip it. `edit_stream` reads more only if it can't [the clauses of
    //   `skip_dropped` and `skip_part` (`DropsIfAny`, `SkipsEdited`: `SkipsNothing`); `reads`,
    //   `stops` on `read_or_pass` (`ReadsOrPasses`, `StopsHere`). All three are private]
    ensures { DropsIfAny cursor.old bytes.now result cursor.new }
{
    let start = cursor.offset();
    let part = cursor.skip_next(bytes)?;
    Some(Dropped {
        passing: Passing {
            from: part.range.start,
            size: part.range.end - start,
            stays: false,
        },
        part: without_name(part),
    })
}

// Writes the lines so far, so that none waits for a read.
fn write_lines<A: Allocator, W: Sink>(page: &mut Page<A>, sink: &mut W) -> Result<(), ListError>
    ensures writes { WritesOut (W.taken sink.old) (W.taken sink.new) page.old page.new result }
    ensures failed { W.has_failed sink.new ≡ output_failed result (W.has_failed sink.old) }
{
    page.write_out(sink)
}

// Writes the page out, and reads on: drops the part at the cursor and puts its line on the page; or reads more, if its
// first fields are not here. Returns the fault of a stream that ends within a part that was skipped, once all is written.
fn read_on<A: Allocator, R: Source, W: Sink>(
    cursor: &mut Cursor,
    stored: &mut Vec<u8, A>,
    ahead: &mut Ahead<A>,
    page: &mut Page<A>,
    input: &mut R,
    output: &mut W,
) -> Result<Option<Error>, ListError>
    requires { vec_len stored.old + length ahead.old ≤ vec_capacity stored.old }
    ensures reads { ReadsOnAnywhere line_of (change_of R.remaining input.old input.new)
        (change_of W.taken output.old output.new)
        (lending stored.old.items ahead.old cursor.old) page.old
        (beside (feed_of stored.new.items cursor.new) ahead.new)
        page.new result }
    ensures source { R.has_failed input.new ≡ input_failed result (R.has_failed input.old) }
    ensures sink { W.has_failed output.new ≡ output_failed result (W.has_failed output.old) }
{
    write_lines(page, output)?;
    let Some(dropped) = skip_dropped(cursor, seen(stored, ahead.bytes())) else {
        ahead.refill(cursor, stored, input)?;
        return Ok(None);
    };
    match pass_part(dropped.passing, cursor, stored, ahead, page, input, output)? {
        None => {
            let part = &dropped.part;
            page.put_line(
                &SkippedLine {
                    base: Base::Decimal,
                    part,
                },
                output,
            )?;
            Ok(None)
        }
        Some(error) => {
            put_fault(page, output, &error)?;
            page.write_out(output)?;
            Ok(Some(error))
        }
    }
}

// Puts the line of each event on a page.
#[derive(Drop)]
struct Lister<A: Allocator> {
    page: Page<A>,
}

impl<A: Allocator, W: Sink> Visitor<A, W> for Lister<A> {
    ghost stages = { writer_stages (lister (λ l. l.page) W.taken W.has_failed) };

    ghost sound = { λ lister. Unit {0} };

    fn take_part(
        &mut self,
        frame: Frame<'_>,
        _bytes: &[u8],
        output: &mut W,
    ) -> Result<(), ListError> {
        self.page.put_line(
            &FrameLine {
                base: Base::Decimal,
                frame: &frame,
            },
            output,
        )
    }

    fn take_fault(&mut self, error: Error, output: &mut W) -> Result<(), ListError> {
        put_fault(&mut self.page, output, &error)
    }

    fn read_on<R: Source>(
        &mut self,
        cursor: &mut Cursor,
        stored: &mut Vec<u8, A>,
        ahead: &mut Ahead<A>,
        input: &mut R,
        output: &mut W,
    ) -> Result<Option<Error>, ListError> {
        read_on(cursor, stored, ahead, &mut self.page, input, output)
    }

    fn finish(&mut self, output: &mut W) -> Result<(), ListError> {
        self.page.write_out(output)
    }

    fn out_of_memory(&mut self, _output: &mut W) -> ListError {
        ListError::Memory
    }
}

/// Reads a stream and writes its listing like `list`, with any allocator.
///
/// # Errors
///
/// Those of `list`.
pub fn list_in<A: Allocator + Copy, R: Source, W: Sink>(
    alloc: A,
    input: &mut R,
    output: &mut W,
    piece: usize,
) -> Result<Ended, ListError>
    requires { 1 ≤ piece }
    ensures { ListsSource (device_of R.remaining R.has_failed input.old input.new)
        (device_of W.taken W.has_failed output.old output.new) result }
{
    let buffer = vec![in alloc; 0u8; piece]?;
    let mut lister = Lister {
        page: Page::new(alloc),
    };
    visit(alloc, &mut lister, input, output, buffer)
}

/// Reads a stream from a source and writes its listing to a sink: a line for each event.
///
/// It reads at most `piece` bytes at once, which must be at least 1. It writes the lines of all decided events before
/// it reads more. It buffers one chunk, at most 65,536 bytes of lines, and the first fields of a part. The parts of a
/// well-formed stream are not buffered, however large they are. Offsets are in bytes from the start of the stream, which
/// is offset 0.
///
/// A fault of the stream is no error: its line is written, and `Ended::Fault` is returned. A stream that ends beyond
/// the offset 2^64 - 1 has the fault `OffsetRange`.
///
/// # Errors
///
/// A prefix of the listing has been written.
///
/// * `Input` if the source failed. The listing of the bytes read so far has been written, without its last line, the
///   end or fault.
/// * `Output` if the sink failed.
/// * `Memory` when an allocation fails.
///
/// ```rattle
/// let mut input = SliceSource::new(b"\0asm\x01\0\0\0");
/// let mut output = BoundedSink::new(alloc, 1000)?;
/// assert_eq!(rt; list(alloc, &mut input, &mut output, 4096)?, Ended::End);
/// assert_eq!(rt; output.written(), b"version 0 8 1 module\nend 8\n".as_slice());
/// ```
pub fn list<R: Source, W: Sink>(
    alloc: Global,
    input: &mut R,
    output: &mut W,
    piece: usize,
) -> Result<Ended, ListError>
    requires { 1 ≤ piece }
    // Proved: what `list` wrote without an error is also the listing of the source's whole input,
    //   if what it read of that fits the offsets [the clause of `list` (`ListsSource`: `IsListed`,
    //   `IsWhole`)]
    // Proved: if the source failed, `list` has written all lines except the last of what the source
    //   returned, if that fits the offsets [the clause of `list` (`IsAllButLast`)]
    // Proved: at any other error `list` has written a prefix of its listing, if what the source
    //   returned fits the offsets [the same (`IsHead`)]
    // Proved: a stream that passes the offset 2^64 - 1 ends with that fault at the parser's offset,
    //   after the lines of what came before it [the same (`PassesTop`)]
    // Proved: after `list` a device is known to have failed if it had failed before, and if the
    //   result names it (`Input`, `Output`) [the same (`input_failed`, `output_failed`)]
    ensures { ListsSource (device_of R.remaining R.has_failed input.old input.new)
        (device_of W.taken W.has_failed output.old output.new) result }
{
    list_in(alloc, input, output, piece)
}
