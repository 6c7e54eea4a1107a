// A position in a stream that arrives in chunks.
ghost use Rattle.std.specs.Prelude.{⊤, ◌≡◌, ◌+◌, ◌<◌, ◌≤◌, ◌++◌, true, false, [], drop, length, option_map, OnOk, OnErr};
ghost use Rattle.wasm_frames.specs.SkipNext.{SkipsNext, skip_is, skip_of};
ghost use Rattle.wasm_frames.specs.Stored.{parser_of};
ghost use Rattle.wasm_streams.specs.Cursors.{feed_of, finished_cursor};
ghost use Rattle.wasm_streams.specs.Feed.{empty_feed, pushed};
ghost use Rattle.wasm_streams.specs.Lists.{Refills};
ghost use Rattle.wasm_streams.specs.Step.{StepsAt, says};
ghost use Rattle.wasm_io.specs.Calls.{input_failed};

use crate::buffer::{after, append};
use crate::parser::FrameParser;
use std::alloc::{AllocError, Allocator};
use wasm_base::Error;
use wasm_frames::{Frame, NextFrame, SkippedPart, StoredParser};
use wasm_io::{ListError, Source};

/// The result of one step over a stream in chunks: a frame, a request for more input, or the fault at which the stream
/// stops.
///
/// ```rattle
/// let mut cursor = Cursor::new(StoredParser::new(0));
/// assert!(rt; matches!(next_frame(&mut cursor, b"\0asm"), FrameStep::NeedMoreData(4)));
/// ```
#[derive(Drop)]
pub enum FrameStep<'a> {
    /// The next part of the stream.
    Parsed {
        /// The part.
        frame: Frame<'a>,
        /// The bytes that the part consumed, empty at the end. The part borrows from the same bytes.
        bytes: &'a [u8],
    },
    /// The bytes so far do not determine the next part. The hint is how many bytes are missing, at least 1; a part may
    /// need more.
    NeedMoreData(usize),
    /// The stream has a fault. Nothing was consumed.
    Fault(Error),
}

/// A position in a stream that arrives in chunks: a parser of frames, and the number of stored bytes that it has
/// consumed.
///
/// Most programs use a `Feeder` of `wasm_feed`, which has a cursor and the stored bytes. Use a cursor directly, with
/// `next_frame` or `Ahead`, to store the bytes yourself.
///
/// ```rattle
/// let mut cursor = Cursor::new(StoredParser::new(0));
/// match next_frame(&mut cursor, b"\0asm\x01\0\0\0") {
///     FrameStep::Parsed { bytes, .. } => assert_eq!(rt; bytes.len(), 8),
///     _ => assert!(rt; false),
/// }
/// ```
pub struct Cursor {
    pub(crate) parser: FrameParser,
    pub(crate) mark: usize,
    pub(crate) is_finished: bool,
    pub(crate) wants_more: bool,
}

impl Drop for Cursor {
    fn drop(self) {
        let Cursor {
            parser: _,
            mark: _,
            is_finished: _,
            wants_more: _,
        } = self;
    }
}

impl Clone for Cursor {
    // Proved: a clone of a cursor is that cursor, and can always be made [the clause of `clone`
    //   (`is_clone`, `is_infallible`)]
    ghost is_clone = { λ cursor copy. copy ≡ cursor };

    ghost is_infallible = { λ _. ⊤ };

    fn clone(&self) -> std::result::Result<Self, AllocError> {
        Ok(Cursor {
            parser: self.parser.copy(),
            mark: self.mark,
            is_finished: self.is_finished,
            wants_more: self.wants_more,
        })
    }
}

impl Cursor {
    /// Creates a cursor at the start of an empty buffer, which requests input first.
    pub fn new(parser: StoredParser) -> Cursor
        ensures { feed_of [] result ≡ empty_feed (parser_of parser) }
    {
        Cursor {
            parser: FrameParser::new(parser),
            mark: 0,
            is_finished: false,
            wants_more: true,
        }
    }

    /// Creates a cursor at the start of a buffer that holds the whole stream, so that a step never requests input.
    pub fn over_all(parser: StoredParser) -> Cursor
        // Proved: a cursor `over_all` is at the start of a finished buffer; `offset`, `mark`,
        //   `remaining`, `wants_more` and `is_finished` are what their names say, `rewind` moves the
        //   mark to 0 and nothing else; `skip_next` is that of the parser on the remaining bytes
        //   [the clause of each (`SkipsNext`)]
        ensures parser { result.parser ≡ parser_of parser }
        ensures mark { result.mark ≡ 0 }
        ensures finished { result.is_finished ≡ true }
    {
        Cursor {
            parser: FrameParser::new(parser),
            mark: 0,
            is_finished: true,
            wants_more: false,
        }
    }

    /// Returns the offset of the next part, in bytes from the start of the stream.
    pub fn offset(&self) -> u64
        ensures { result ≡ self.now.parser.offset }
    {
        self.parser.offset()
    }

    /// Skips the next section or body if its first fields are in these bytes, but not all of it, like
    /// `StoredParser::skip_next`. The mark stays where it is.
    pub fn skip_next<'a>(&mut self, bytes: &'a [u8]) -> Option<SkippedPart<'a>>
        ensures gives { option_map skip_is result
            ≡ skip_of self.old.parser (drop self.old.mark bytes.now) }
        ensures skips { SkipsNext self.old.parser (drop self.old.mark bytes.now)
            (option_map skip_is result) self.new.parser }
        ensures same { self.new ≡ record self.old { parser = self.new.parser } }
    {
        self.parser.skip_next(after(bytes, self.mark))
    }

    /// Returns how many bytes of the buffer are consumed.
    pub fn mark(&self) -> usize
        ensures { result ≡ self.now.mark }
    {
        self.mark
    }

    /// Returns the bytes of the buffer that are not consumed.
    pub fn remaining<'a>(&self, bytes: &'a [u8]) -> &'a [u8]
        ensures { result.now ≡ drop self.now.mark bytes.now }
    {
        after(bytes, self.mark)
    }

    /// Moves the mark to the start of the buffer. Call it when you empty the buffer.
    pub fn rewind(&mut self)
        ensures { self.new ≡ record self.old { mark = 0 } }
    {
        self.mark = 0;
    }

    /// Returns whether the last step requested input, and none has come since.
    pub fn wants_more(&self) -> bool
        ensures { result ≡ self.now.wants_more }
    {
        self.wants_more
    }

    /// Returns whether the end of input was marked.
    pub fn is_finished(&self) -> bool
        ensures { result ≡ self.now.is_finished }
    {
        self.is_finished
    }

    /// Marks the end of input after the stored bytes.
    pub fn finish(&mut self)
        ensures { self.new ≡ finished_cursor self.old }
    {
        self.is_finished = true;
        self.wants_more = false;
    }
}

/// Appends a chunk to the held bytes, and drops the consumed ones.
///
/// # Errors
///
/// `AllocError` when an allocation fails. Nothing has changed then.
pub fn refill<A: Allocator>(
    cursor: &mut Cursor,
    bytes: &mut Vec<u8, A>,
    piece: &[u8],
) -> Result<(), AllocError>
    ensures ok { OnOk result (feed_of bytes.new.items cursor.new
        ≡ pushed (feed_of bytes.old.items cursor.old) piece.now) }
    ensures unchanged { OnErr result (feed_of bytes.new.items cursor.new
        ≡ feed_of bytes.old.items cursor.old) }
{
    let spent = cursor.mark.min(bytes.len());
    append(bytes, spent, piece)?;
    cursor.mark = 0;
    cursor.wants_more = false;
    Ok(())
}

/// Performs one read from a source into `buffer`, which must have at least one byte, and appends the result to the held
/// bytes. A read of 0 bytes marks the end of input.
///
/// # Errors
///
/// Nothing has changed but the source.
///
/// * `Input` if the source failed.
/// * `Memory` when an allocation fails. The bytes that were read are lost.
pub fn read_more<A: Allocator, R: Source>(
    cursor: &mut Cursor,
    stored: &mut Vec<u8, A>,
    input: &mut R,
    buffer: &mut [u8],
) -> Result<(), ListError>
    requires { 0 < length buffer.old }
    ensures refills { Refills (R.remaining input.old) (R.remaining input.new)
        (feed_of stored.old.items cursor.old) (feed_of stored.new.items cursor.new) result }
    ensures unchanged { OnErr result (feed_of stored.new.items cursor.new
        ≡ feed_of stored.old.items cursor.old) }
    ensures failed { R.has_failed input.new ≡ input_failed result (R.has_failed input.old) }
{
    match input.read(buffer) {
        Ok(0) => {
            cursor.finish();
            Ok(())
        }
        Ok(count) => match refill(cursor, stored, &buffer[..count]) {
            Ok(()) => Ok(()),
            Err(_) => Err(ListError::Memory),
        },
        Err(_) => Err(ListError::Input),
    }
}

/// Performs one step of a cursor over the stored bytes, and returns the next frame, a request for more input, or the
/// fault at which the stream stops.
///
/// `bytes` are all stored bytes, including those that the cursor has consumed. After a frame the cursor has consumed
/// those of it, and otherwise nothing.
///
/// ```rattle
/// // A second magic is a fault.
/// let mut cursor = Cursor::new(StoredParser::new(0));
/// next_frame(&mut cursor, b"\0asm\x01\0\0\0\0asm");
/// match next_frame(&mut cursor, b"\0asm\x01\0\0\0\0asm") {
///     FrameStep::Fault(error) => assert_eq!(rt; error, Error::new(Fault::MagicAtSection, 8)),
///     _ => assert!(rt; false),
/// }
/// ```
pub fn next_frame<'a>(cursor: &mut Cursor, bytes: &'a [u8]) -> FrameStep<'a>
    // Proved: a step of a cursor says what its parser returns on the bytes that it has not consumed,
    //   and consumes those that it shows; `next_frame_for` and `next_stored_for` make the same step [the clauses of each
    //   (`StepsAt`)]
    ensures { StepsAt cursor.old bytes.now (says result) cursor.new }
{
    next_stored_for::<Frame<'_>, false>(cursor, bytes)
}

/// Performs the step that `next_frame` does. `For` and `AS_TEXT` are those of `StoredParser::next_for`.
#[inline(always)]
pub fn next_frame_for<'a, For, const AS_TEXT: bool>(
    cursor: &mut Cursor,
    bytes: &'a [u8],
) -> FrameStep<'a>
    ensures { StepsAt cursor.old bytes.now (says result) cursor.new }
{
    let rest = after(bytes, cursor.mark);
    let eof = cursor.is_finished;
    match cursor.parser.next_for::<For, AS_TEXT>(rest, eof) {
        NextFrame::Parsed { frame, consumed } => {
            cursor.wants_more = false;
            cursor.mark += consumed;
            FrameStep::Parsed {
                frame,
                bytes: &rest[..consumed],
            }
        }
        NextFrame::NeedMoreData(hint) => {
            cursor.wants_more = true;
            FrameStep::NeedMoreData(hint)
        }
        NextFrame::Fault(error) => {
            cursor.wants_more = false;
            FrameStep::Fault(error)
        }
    }
}

/// Performs the step that `next_frame_for` does, but once eight bytes of a part are there, it does not read the part again
/// before all of them are.
#[inline(always)]
pub fn next_stored_for<'a, For, const AS_TEXT: bool>(
    cursor: &mut Cursor,
    bytes: &'a [u8],
) -> FrameStep<'a>
    ensures { StepsAt cursor.old bytes.now (says result) cursor.new }
{
    let rest = after(bytes, cursor.mark);
    let missing = cursor.parser.missing(rest, cursor.is_finished);
    if missing > 0 {
        cursor.wants_more = true;
        return FrameStep::NeedMoreData(missing);
    }
    match next_frame_for::<For, AS_TEXT>(cursor, bytes) {
        FrameStep::NeedMoreData(hint) => {
            cursor.parser.remember(rest, hint);
            FrameStep::NeedMoreData(hint)
        }
        decided => decided,
    }
}
