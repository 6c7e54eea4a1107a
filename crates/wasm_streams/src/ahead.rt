// A chunk beside the stored bytes: parts that are complete in it are parsed in place, and only what its end cuts is stored.
ghost use Rattle.std.specs.Prelude.{◌≡◌, ◌+◌, ◌<◌, ◌≤◌, [], drop, length, vec_len, vec_capacity, is_ok, true, IfErr, OnErr, OnOk, if◌then◌else◌, ◌-◌, ◌^◌, false, IfOk};
ghost use Rattle.wasm_frames.specs.ParserState.{grammar_of};
ghost use Rattle.wasm_grammar.specs.Waiting.{enough, waiting};
ghost use Rattle.wasm_streams.specs.Beside.{beside, lending, Fetches, ReadsEnough, RefillsAlike, seen, AreEnough, Gathers, MakesReady};
ghost use Rattle.wasm_streams.specs.Cursors.{feed_of};
ghost use Rattle.wasm_io.specs.Calls.{input_failed};
ghost use Rattle.wasm_io.specs.declared.devices.ListError.TheVariants.{Memory};

use crate::buffer::{drop_front, make_room, put};
use crate::cursor::Cursor;
use crate::parser::FrameParser;
use std::alloc::{AllocError, Allocator};
use std::marker::Model;
use wasm_base::fits;
use wasm_frames::NextFrame;
use wasm_frames::laws::answers_last;
use wasm_io::{Failed, ListError, Source};

/// A chunk of at most this many bytes is stored whole after bytes that are held: copying it costs less than asking the
/// parser how many bytes are missing.
const SMALL_PIECE: usize = 512;

/// The remaining bytes of the last chunk that was read from a source, in the buffer that it was read into.
///
/// Together with a `Cursor` and a vector of stored bytes, it is a feeder that reads from a source and parses each chunk
/// in place. A loop calls `make_ready`, then `next_frame` on what `seen` returns, and then `pass_borrowed`, or `refill`
/// if the step requested more input.
///
/// ```rattle
/// let mut input = SliceSource::new(b"\0asm\x01\0\0\0");
/// let mut ahead = Ahead::new(vec![in alloc; 0; 4096]?);
/// let (mut cursor, mut stored) = (Cursor::new(StoredParser::new(0)), Vec::new(alloc));
/// let mut parts = 0;
/// loop {
///     ahead.make_ready(&mut cursor, &mut stored)?;
///     let is_request = match next_frame(&mut cursor, seen(&stored, ahead.bytes())) {
///         FrameStep::Parsed { frame, .. } if matches!(frame.kind(), FrameKind::End) => break,
///         FrameStep::Parsed { .. } => false,
///         FrameStep::NeedMoreData(_) => true,
///         FrameStep::Fault(error) => return Err(error.into()),
///     };
///     if is_request {
///         ahead.refill(&mut cursor, &mut stored, &mut input)?;
///     } else {
///         ahead.pass_borrowed(&mut cursor, &stored);
///         parts += 1;
///     }
/// }
/// assert_eq!(rt; parts, 1);
/// ```
pub struct Ahead<A: Allocator> {
    buffer: Vec<u8, A>,
    start: usize,
    end: usize,
}

impl<A: Allocator> Drop for Ahead<A> {
    fn drop(self) {
        let Ahead {
            buffer: _,
            start: _,
            end: _,
        } = self;
    }
}

impl<A: Allocator> Model for Ahead<A> {
    ghost use Rattle.std.specs.Prelude.{ℕ, ◌-◌, ◌<◌, ◌≤◌, List, take, drop, vec_len};

    ghost Value = { List ℕ };

    ghost view = { λ a. take (a.end - a.start) (drop a.start a.buffer.items) };

    ghost invariant = { λ a. (a.start ≤ a.end) × (a.end ≤ vec_len a.buffer)
        × (0 < vec_len a.buffer) };
}

impl<A: Allocator> Ahead<A> {
    /// Creates an `Ahead` without bytes that reads chunks into this buffer. The buffer must have at least one byte; its
    /// length is the size of the largest chunk.
    pub fn new(buffer: Vec<u8, A>) -> Self
        requires { 0 < vec_len buffer }
        ensures { result ≡ [] }
    {
        Ahead {
            buffer,
            start: 0,
            end: 0,
        }
    }

    /// Returns the remaining bytes of the chunk.
    pub fn bytes(&self) -> &[u8]
        ensures { result.now ≡ self.now }
    {
        &self.buffer[self.start..self.end]
    }

    /// Consumes the first `count` of them, which must not be more than there are.
    pub fn pass(&mut self, count: usize)
        requires { count ≤ length self.old }
        // Proved: `pass` drops bytes from the front of a chunk; `fetch` replaces the chunk by what
        //   one read returned, and leaves none if the source failed [the clauses of both
        //   (`Fetches`)]
        ensures { self.new ≡ drop count self.old }
    {
        self.start += count;
    }

    /// Reads the next chunk in place of the remaining bytes. It is empty only at the end of the source, or if the read
    /// failed.
    ///
    /// # Errors
    ///
    /// `Failed` if the source failed.
    pub fn fetch<R: Source>(&mut self, input: &mut R) -> Result<(), Failed>
        ensures fetches { Fetches (R.remaining input.old) (R.remaining input.new)
            self.new result }
        ensures failed { R.has_failed input.new
            ≡ (if is_ok result then R.has_failed input.old else true) }
        ensures none { OnErr result (self.new ≡ []) }
    {
        self.end = self.start;
        match input.read(self.buffer.as_mut_slice()) {
            Ok(count) => {
                self.start = 0;
                self.end = count;
                Ok(())
            }
            Err(failed) => Err(failed),
        }
    }

    /// Moves the bytes that the next step needs from the chunk to the stored ones: none, unless the end of a chunk cut
    /// a part.
    ///
    /// It also reserves room for the rest of the chunk, so that `refill` does not allocate.
    ///
    /// # Errors
    ///
    /// `Memory` when an allocation fails. No byte is lost: the call can be repeated.
    #[inline(always)]
    pub fn make_ready(
        &mut self,
        cursor: &mut Cursor,
        stored: &mut Vec<u8, A>,
    ) -> Result<(), ListError>
        // On success.
        // Proved: a cursor, stored bytes and `Ahead` are a feeder next to the chunk that was read
        //   last [the clauses of `make_ready`, `pass_borrowed` and `refill` (`beside`, `lending`)]
        ensures same { OnOk result (lending stored.new.items self.new cursor.new
            ≡ beside (feed_of stored.old.items cursor.old) self.old) }
        // Proved: after `make_ready`, a `next_frame` on what is `seen` is a step on all of it [the
        //   clauses of each (`ReadsEnough`)]
        ensures enough { OnOk result (ReadsEnough stored.new.items self.new cursor.new) }
        ensures room { OnOk result (vec_len stored.new + length self.new
            ≤ vec_capacity stored.new) }
        // On an error.
        // Proved: after an error of `make_ready` or `refill` the feeder is where it was
        //   [`unchanged` of both]
        ensures unchanged { OnErr result (beside (feed_of stored.new.items cursor.new) self.new
            ≡ beside (feed_of stored.old.items cursor.old) self.old) }
        ensures memory { IfErr result (λ e. e ≡ Memory) }
    {
        let count = make_ready(cursor, stored, self.bytes())?;
        self.pass(count);
        Ok(())
    }

    /// Removes from the chunk the bytes that a step consumed in place.
    pub fn pass_borrowed(&mut self, cursor: &mut Cursor, stored: &[u8])
        // Proved: `pass_borrowed` leaves the bytes after that step [the clause of
        //   `Ahead::pass_borrowed` (`lending`)]
        ensures { beside (feed_of stored.now cursor.new) self.new
            ≡ lending stored.now self.old cursor.old }
    {
        let count = pass_borrowed(cursor, stored, self.bytes());
        self.pass(count);
    }

    /// Stores the rest of the chunk, for which `make_ready` reserved room, and performs one read from the source.
    ///
    /// The read returns the next chunk; a read of 0 bytes marks the end of input. It never allocates.
    ///
    /// # Errors
    ///
    /// `Input` if the source failed. No byte is lost: the rest of the chunk is stored.
    pub fn refill<R: Source>(
        &mut self,
        cursor: &mut Cursor,
        stored: &mut Vec<u8, A>,
        input: &mut R,
    ) -> Result<(), ListError>
        requires { vec_len stored.old + length self.old ≤ vec_capacity stored.old }
        // Proved: `refill` adds the next chunk or records the end of input
        ensures refills { RefillsAlike (R.remaining input.old) (R.remaining input.new)
            (lending stored.old.items self.old cursor.old)
            (beside (feed_of stored.new.items cursor.new) self.new) result }
        ensures unchanged { OnErr result (beside (feed_of stored.new.items cursor.new) self.new
            ≡ lending stored.old.items self.old cursor.old) }
        ensures failed { R.has_failed input.new
            ≡ input_failed result (R.has_failed input.old) }
    {
        keep(cursor, stored, self.bytes());
        if self.fetch(input).is_err() {
            return Err(ListError::Input);
        }
        if self.bytes().is_empty() {
            cursor.finish();
        }
        Ok(())
    }
}

/// Returns the bytes that the next step reads: the stored bytes, or the chunk if none are stored.
///
/// ```rattle
/// assert_eq!(rt; seen(&[], &[1, 2]), [1, 2].as_slice());
/// assert_eq!(rt; seen(&[7], &[1, 2]), [7].as_slice());
/// ```
pub fn seen<'a>(stored: &'a [u8], piece: &'a [u8]) -> &'a [u8]
    ensures { result.now ≡ seen stored.now piece.now }
{
    if stored.is_empty() { piece } else { stored }
}

/// Stores as many bytes of the chunk as the next step needs after the held ones, and returns their number: none if
/// nothing is held, since the chunk is then read in place. There is room for the others too. A failed allocation
/// changes nothing.
// Inlined, since between the cuts of chunks there is nothing to do.
#[inline(always)]
pub fn make_ready<A: Allocator>(
    cursor: &mut Cursor,
    stored: &mut Vec<u8, A>,
    piece: &[u8],
) -> Result<usize, AllocError>
    ensures ok { IfOk result (λ count. MakesReady (feed_of stored.old.items cursor.old) piece.now
        count stored.new.items cursor.new) }
    ensures room { IfOk result (λ count. vec_len stored.new + (length piece.now - count)
        ≤ vec_capacity stored.new) }
    ensures unchanged { OnErr result (feed_of stored.new.items cursor.new
        ≡ feed_of stored.old.items cursor.old) }
{
    if stored.is_empty() {
        if piece.len() <= stored.capacity() {
            cursor.mark = 0;
            return Ok(0);
        }
    }
    if piece.is_empty() {
        return Ok(0);
    }
    reserve_and_gather(cursor, stored, piece)
}

// What `make_ready` does if bytes are held, or if there is no room for the chunk yet.
#[inline(never)]
fn reserve_and_gather<A: Allocator>(
    cursor: &mut Cursor,
    stored: &mut Vec<u8, A>,
    piece: &[u8],
) -> Result<usize, AllocError>
    ensures ok { IfOk result (λ count. MakesReady (feed_of stored.old.items cursor.old) piece.now
        count stored.new.items cursor.new) }
    ensures room { IfOk result (λ count. vec_len stored.new + (length piece.now - count)
        ≤ vec_capacity stored.new) }
    ensures unchanged { OnErr result (feed_of stored.new.items cursor.new
        ≡ feed_of stored.old.items cursor.old) }
{
    make_room(stored, cursor.mark.min(stored.len()), piece.len())?;
    cursor.mark = 0;
    if stored.is_empty() {
        return Ok(0);
    }
    if goes_whole(cursor, stored.len(), piece.len()) {
        put(stored, piece);
        return Ok(piece.len());
    }
    Ok(gather(&cursor.parser, stored, piece))
}

// Whether a chunk of `size` bytes is stored whole after `held` bytes: it is small and more was requested; or it passes the largest
// offset, or the input had ended before.
fn goes_whole(cursor: &Cursor, held: usize, size: usize) -> bool
    ensures finished { result ≡ false → cursor.now.is_finished ≡ false }
    ensures below { result ≡ false → cursor.now.parser.offset + (held + size) < 2 ^ 64 }
    ensures whole { cursor.now.wants_more ≡ false → cursor.now.is_finished ≡ false
        → cursor.now.parser.offset + (held + size) < 2 ^ 64 → result ≡ false }
{
    if size <= SMALL_PIECE && cursor.wants_more {
        return true;
    }
    if cursor.is_finished {
        return true;
    }
    let offset = cursor.parser.offset();
    if !fits(offset, held) {
        return true;
    }
    !fits(offset + held as u64, size)
}

// Appends bytes of the chunk to the held ones until they are enough, and returns their number.
fn gather<A: Allocator>(parser: &FrameParser, held: &mut Vec<u8, A>, piece: &[u8]) -> usize
    requires below { parser.now.offset + (vec_len held.old + length piece.now) < 2 ^ 64 }
    requires room { vec_len held.old + length piece.now ≤ vec_capacity held.old }
    ensures gathers { Gathers parser.now held.old.items piece.now result held.new.items }
    ensures room { vec_len held.new + (length piece.now - result) ≤ vec_capacity held.new }
{
    let mut count = 0;
    'parts: while count < piece.len() {
        let missing = missing(parser, held);
        if missing == 0 {
            return count;
        }
        let end = count + missing.min(piece.len() - count);
        put(held, &piece[count..end]);
        count = end;
    }
    count
}

// About how many bytes these miss: none where they are enough for the parser.
fn missing(parser: &FrameParser, bytes: &[u8]) -> usize
    ensures enough { result ≡ 0 → AreEnough parser.now bytes.now }
    ensures decided { waiting (grammar_of parser.now) bytes.now ≡ enough → result ≡ 0 }
{
    answers_last();
    let mut trial = parser.copy();
    match trial.next(bytes, false) {
        NextFrame::NeedMoreData(hint) => hint,
        NextFrame::Parsed { .. } => 0,
        NextFrame::Fault(_) => 0,
    }
}

/// Consumes the bytes that a step read in place from a chunk, and returns their number.
pub(crate) fn pass_borrowed(cursor: &mut Cursor, stored: &[u8], piece: &[u8]) -> usize
    ensures passes { beside (feed_of stored.now cursor.new) (drop result piece.now)
        ≡ lending stored.now piece.now cursor.old }
    ensures within { result ≤ length piece.now }
{
    if !stored.is_empty() {
        return 0;
    }
    let count = cursor.mark.min(piece.len());
    cursor.mark = 0;
    count
}

/// Stores the remaining bytes of the chunk after a step. There must be room for them.
pub(crate) fn keep<A: Allocator>(cursor: &mut Cursor, stored: &mut Vec<u8, A>, piece: &[u8])
    requires { vec_len stored.old + length piece.now ≤ vec_capacity stored.old }
    ensures keeps { beside (feed_of stored.new.items cursor.new) []
        ≡ lending stored.old.items piece.now cursor.old }
    ensures bounded { vec_len stored.new ≤ vec_len stored.old + length piece.now }
{
    let count = pass_borrowed(cursor, stored, piece);
    if count == piece.len() {
        return;
    }
    drop_front(stored, cursor.mark.min(stored.len()));
    cursor.mark = 0;
    put(stored, &piece[count..]);
}

/// Takes what a step consumed of the chunk and returns the number of bytes. Takes the whole chunk if the step requested
/// more, and if it read the chunk and consumed nothing: the bytes of a fault are held, so that the next step reports it
/// too.
pub fn take_left<A: Allocator>(cursor: &mut Cursor, stored: &mut Vec<u8, A>, piece: &[u8]) -> usize
    requires { vec_len stored.old + length piece.now ≤ vec_capacity stored.old }
    ensures takes { beside (feed_of stored.new.items cursor.new) (drop result piece.now)
        ≡ lending stored.old.items piece.now cursor.old }
    ensures within { result ≤ length piece.now }
    ensures asks { cursor.old.wants_more ≡ true → result ≡ length piece.now }
    ensures bounded { vec_len stored.new ≤ vec_len stored.old + length piece.now }
    ensures wants { cursor.new.wants_more ≡ cursor.old.wants_more }
    ensures stays { cursor.old.wants_more ≡ false → (stored.old.items ≡ [] → cursor.old.mark ≡ 0)
        → drop cursor.new.mark stored.new.items ≡ drop cursor.old.mark (seen stored.old.items piece.now) }
    ensures idle { cursor.old.wants_more ≡ false → 0 < length stored.old.items
        → (result ≡ 0) × (length stored.new.items ≡ length stored.old.items) }
{
    if cursor.wants_more {
        keep(cursor, stored, piece);
        return piece.len();
    }
    if stored.is_empty() {
        if cursor.mark == 0 {
            keep(cursor, stored, piece);
            return piece.len();
        }
        return pass_borrowed(cursor, stored, piece);
    }
    0
}
