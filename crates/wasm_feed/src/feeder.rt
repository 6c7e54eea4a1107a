// A feeder: it takes the bytes of a stream in chunks, and its payloads borrow from it.
ghost use Rattle.std.specs.Prelude.{◌≡◌, ◌+◌, ◌<◌, ◌≤◌, true, length, OnOk, OnErr, IfErr, IfOk};
ghost use Rattle.wasm_base.specs.FaultAt.{fault_at};
ghost use Rattle.wasm_base.specs.Features.{feature_bits};
ghost use Rattle.wasm_base.specs.Owned.{out_of_memory};
ghost use Rattle.wasm_streams.specs.Beside.{MayCome};
ghost use Rattle.wasm_feed.specs.Steps.{StepsOver};
ghost use Rattle.wasm_streams.specs.Cursors.{feed_of};
ghost use Rattle.wasm_streams.specs.Feed.{new_feed, pushed, finished, RefusesPush};
ghost use Rattle.wasm_streams.specs.Lists.{Refills};
ghost use Rattle.wasm_io.specs.Calls.{input_failed};
ghost use Rattle.wasm_streams.specs.Step.{Part, StepsAt};
ghost use Rattle.wasm_feed.specs.Steps.{GivesStep, StepBegins, told};

use bitflags::Flags;
use std::alloc::{Allocator, Global};
use std::marker::Model;
use wasm_frames::{Frame, FrameKind, StoredParser};
use wasm_io::{ListError, Source};
use wasm_parser::{Error, Fault, Payload, Result, WasmFeatures, fits};
use wasm_streams::{
    Cursor, FrameStep, make_ready, next_frame_for, next_stored_for, read_more, refill, seen,
    take_left,
};

/// The result of one step of a feeder: a part of the stream, or a request for more input.
///
/// ```rattle
/// use bitflags::Flags;
/// let mut feeder = Feeder::new(alloc, 0, WasmFeatures::all());
/// feeder.push(b"\0asm")?;
/// match feeder.step()? {
///     Step::NeedMoreData(hint) => assert_eq!(rt; hint, 4),
///     Step::Parsed { .. } => assert!(rt; false),
/// }
/// ```
#[derive(Drop)]
pub enum Step<'a> {
    /// The bytes so far do not determine the next part. The hint is how many bytes are missing, at least 1; a part may
    /// need more.
    ///
    /// Call `push` with the next chunk, or `finish` at the end of input.
    NeedMoreData(usize),
    /// The next part of the stream.
    Parsed {
        /// The bytes that the part consumed, empty for `End`. They are borrowed from the feeder's buffer or from the
        /// chunk.
        bytes: &'a [u8],
        /// The part, which borrows from the same bytes.
        payload: Payload<'a>,
    },
}

/// A parser with a buffer, for a stream that arrives in chunks.
///
/// It stores the bytes that were pushed and are not consumed yet. A push drops the consumed ones. The payloads that a
/// step returns borrow from them. Call `open().step()` in a loop; when the feeder `wants_more`, `push` the next chunk,
/// or `finish` at the end of input. `step_over` parses a part that lies entirely in a chunk in place, without storing
/// it.
///
/// Payloads, faults and their offsets do not depend on how the stream is chunked. Offsets are in bytes from the start
/// of the stream.
///
/// # Errors
///
/// A step returns the fault of `Parser::parse` at which the stream stops. Each later step returns the fault again, and
/// likewise `End`. A failed `push`, `read_from` or `step_over` leaves the feeder unchanged, so you can call it again,
/// except after `Memory`: `read_from` has then consumed bytes of the source, so the stream cannot be continued.
///
/// ```rattle
/// use bitflags::Flags;
/// let mut feeder = Feeder::new(alloc, 0, WasmFeatures::all());
/// let mut chunks = [b"\0asm\x01\0".as_slice(), b"\0\0\0\x02\x01a".as_slice()].into_iter();
/// let mut bytes_of_parts = 0;
/// loop {
///     match feeder.open().step()? {
///         Step::Parsed { payload: Payload::End(_), .. } => break,
///         Step::Parsed { bytes, .. } => bytes_of_parts += bytes.len(),
///         Step::NeedMoreData(_) => {}
///     }
///     if feeder.wants_more() {
///         match chunks.next() {
///             Some(chunk) => feeder.push(chunk)?,
///             None => feeder.finish(),
///         }
///     }
/// }
/// assert_eq!(rt; bytes_of_parts, 12);
/// ```
///
/// (Core specification, Binary format, Modules.)
pub struct Feeder<A: Allocator = Global> {
    cursor: Cursor,
    bytes: Vec<u8, A>,
}

impl<A: Allocator> Drop for Feeder<A> {
    fn drop(self) {
        let Feeder {
            cursor: _,
            bytes: _,
        } = self;
    }
}

impl<A: Allocator> Model for Feeder<A> {
    ghost use Rattle.wasm_streams.specs.Feed.{Feed};
    ghost use Rattle.wasm_streams.specs.Cursors.{feed_of};

    ghost Value = { Feed };

    ghost view = { λ f. feed_of f.bytes.items f.cursor };
}

// For `Global` only: what `step` and `open` state about the borrowed feeder names its type as memory has it (`the_row`). `step_over`
// exists for any allocator.
impl Feeder {
    ghost use Rattle.std.specs.Borrow.{sem};
    ghost use Rattle.std.specs.Io.BufRead.{Rests};
    ghost use Rattle.wasm_feed.specs.Steps.{Steps};
    ghost use Rattle.wasm_streams.specs.Cursors.{feed_of};
    ghost use Rattle.wasm_feed.specs.Opened.{LendsCursor};
    ghost use Rattle.wasm_feed.specs.Rows.{the_row};

    /// Creates a feeder for a stream that begins at this offset and is read with these features. Allocates nothing yet.
    pub fn new(alloc: Global, offset: u64, features: WasmFeatures) -> Feeder
        // Proved: a new feeder holds nothing and wants more
        ensures { result ≡ new_feed offset (feature_bits features) }
    {
        Feeder::new_in(alloc, offset, features)
    }

    /// Returns the next part of the stream, or a request for more input.
    ///
    /// The call is the same as `open().step()`. In verified code prefer that one: its contract describes the feeder right
    /// after the step, and not only after the payload is dropped.
    ///
    /// # Errors
    ///
    /// The fault at which the stream stops, as `Parser::parse` returns it. Each later step returns it again.
    pub fn step(&mut self) -> Result<Step<'_>>
        // Proved: after a step the feeder holds what follows the bytes that it consumed, and stores
        //   as much as before [`after` on `step`; the clauses of `open` and `Opened::step` (`Steps`,
        //   `LendsCursor`)]
        // Proved: after a step the feeder wants more exactly if the step asked for it
        ensures* after { sem 𝓛 (Rests the_row self.entry (Steps self.old result)) }
        // Proved: `step` returns what `parse` returns for the held bytes, and provides the bytes
        //   that it consumed
        ensures gives { GivesStep self.old.state self.old.eof self.old.held result }
    {
        self.open().step()
    }

    /// Borrows the cursor and the stored bytes of the feeder separately, so that a step can change the cursor while the
    /// payload borrows the bytes.
    pub fn open(&mut self) -> Opened<'_, '_>
        ensures* after { sem 𝓛 (LendsCursor self.entry result) }
        ensures opens { feed_of result.bytes.now result.cursor.now ≡ self.entry.now }
    {
        Opened {
            cursor: &mut self.cursor,
            bytes: &self.bytes,
        }
    }
}

impl<A: Allocator> Feeder<A> {
    ghost use Rattle.wasm_feed.specs.Steps.{Steps};

    /// Creates a feeder like `new`, with any allocator for the stored bytes.
    pub fn new_in(alloc: A, offset: u64, features: WasmFeatures) -> Feeder<A>
        // Proved: `new_in` of a feeder and of a `BoundedSink`, `read_pieces_in` and `list_in` do
        //   what the calls without `_in` do, with memory from any allocator [the same clauses on
        //   each]
        ensures { result ≡ new_feed offset (feature_bits features) }
    {
        let mut parser = StoredParser::new(offset);
        parser.features = features.bits();
        Feeder {
            cursor: Cursor::new(parser),
            bytes: Vec::new(alloc),
        }
    }

    /// Returns whether the feeder requests input, so that `push` may be called.
    ///
    /// That is so at first, and from a `NeedMoreData` until the next successful `push` or `read_from`, or `finish`.
    pub fn wants_more(&self) -> bool
        ensures { result ≡ self.now.wants_more }
    {
        self.cursor.wants_more()
    }

    /// Returns the number of bytes that were pushed and not consumed.
    pub fn held(&self) -> usize
        // Proved: `held`, `stored`, `wants_more`, `is_finished` and `finish` are what their names
        //   say [the clause of each]
        ensures { result ≡ length self.now.held }
    {
        self.cursor.remaining(&self.bytes).len()
    }

    /// Returns the number of stored bytes: the held ones, and those consumed since the last push.
    pub fn stored(&self) -> usize
        ensures { result ≡ self.now.stored }
    {
        self.bytes.len()
    }

    /// Returns whether the end of input was marked, by `finish` or by a `read_from` that reached it.
    pub fn is_finished(&self) -> bool
        ensures { result ≡ self.now.eof }
    {
        self.cursor.is_finished()
    }

    /// Marks the end of input. The steps after it report truncation as a fault, or return `End`. A second call changes
    /// nothing.
    pub fn finish(&mut self)
        ensures { self.new ≡ finished self.old }
    {
        self.cursor.finish();
    }

    /// Appends the next chunk of the stream, which is copied. Call it only if the feeder `wants_more`.
    ///
    /// An empty chunk is allowed and is not the end of input. Consumed bytes are dropped from the buffer first.
    ///
    /// # Errors
    ///
    /// The feeder is unchanged after an error.
    ///
    /// * `OffsetRange` at the offset of the first byte that is not consumed, if the stream would end beyond 2^64 - 1.
    /// * `OutOfMemory`, at offset 0, when an allocation fails.
    ///
    /// ```rattle
    /// use bitflags::Flags;
    /// let mut feeder = Feeder::new(alloc, 18446744073709551610, WasmFeatures::all());
    /// if let Err(error) = feeder.push(b"\0asm\x01\0\0\0") {
    ///     assert_eq!(rt; error.fault(), Fault::OffsetRange);
    /// }
    /// assert_eq!(rt; feeder.held(), 0);
    /// ```
    pub fn push(&mut self, piece: &[u8]) -> Result<()>
        requires { self.old.wants_more ≡ true }
        // Proved: `push` appends a chunk to the held bytes, and no other byte is stored then
        // Proved: `push` and `read_from` require that the feeder wants more, and `read_from` a
        //   buffer that isn't empty [the preconditions of each]
        ensures ok { OnOk result (self.new ≡ pushed self.old piece.now) }
        // Proved: a refused push leaves the feeder unchanged
        ensures unchanged { OnErr result (self.new ≡ self.old) }
        // Proved: a refused push is `OffsetRange` if the stream would pass its offsets, and
        //   otherwise out of memory
        ensures refuses { RefusesPush self.old piece.now result }
    {
        let offset = self.cursor.offset();
        let held = self.held();
        if !fits(offset, held) || !fits(offset + held as u64, piece.len()) {
            return Err(Error::new(Fault::OffsetRange, offset));
        }
        add_chunk(&mut self.cursor, &mut self.bytes, piece)
    }

    /// Performs one read from a source into `buffer` and appends the result. A read of 0 bytes marks the end of input.
    ///
    /// Call it only if the feeder `wants_more`, with a `buffer` that is not empty. If the stream ends beyond the offset
    /// 2^64 - 1, the next step returns `OffsetRange`.
    ///
    /// # Errors
    ///
    /// The feeder is unchanged after an error.
    ///
    /// * `Input` if the source failed.
    /// * `Memory` when an allocation fails. The bytes that were read are lost for the stream: they are in `buffer`, but
    ///   their number is not returned.
    ///
    /// ```rattle
    /// use bitflags::Flags;
    /// let mut feeder = Feeder::new(alloc, 0, WasmFeatures::all());
    /// let mut source = SliceSource::new(b"\0asm\x01\0\0\0");
    /// let mut buffer = [0; 5];
    /// feeder.read_from(&mut source, &mut buffer)?;
    /// assert_eq!(rt; feeder.held(), 5);
    /// ```
    pub fn read_from<R: Source>(
        &mut self,
        input: &mut R,
        buffer: &mut [u8],
    ) -> std::result::Result<(), ListError>
        requires wants { self.old.wants_more ≡ true }
        requires buffer { 0 < length buffer.old }
        // Proved: `read_from` appends what the source returned to the held bytes, or records the
        //   end of input if the source had no more [`refills`, `failed` on `read_from` (`Refills`)]
        ensures refills { Refills (R.remaining input.old) (R.remaining input.new) self.old self.new result }
        ensures failed { R.has_failed input.new ≡ input_failed result (R.has_failed input.old) }
        // Proved: a failed `read_from` leaves the feeder unchanged
        ensures unchanged { OnErr result (self.new ≡ self.old) }
    {
        // Bytes beyond the largest offset are not refused here, as `push` does: a `ListError` has no fault. The next step reports it.
        read_more(&mut self.cursor, &mut self.bytes, input, buffer)
    }

    /// Performs one step over the held bytes and a chunk, passes the result to `look`, and returns the number of bytes
    /// taken from the chunk, with what `look` returned.
    ///
    /// The step is the one that `step` would make after a push of the chunk, but a part that lies entirely in the chunk
    /// is parsed in place. Pass the bytes that were not taken again, at the front of the next call's chunk. When
    /// the feeder requests input it has taken all of the chunk. The bytes of a fault are stored and count as taken, so
    /// that each later step returns the fault again. After `finish` the chunk must be empty.
    ///
    /// # Errors
    ///
    /// `OutOfMemory`, at offset 0, if a buffer for the chunk cannot be allocated. The feeder is then unchanged, and
    /// `look` was not called. A fault of the stream is passed to `look`; `OffsetRange` is, too, if the stream ends
    /// beyond 2^64 - 1.
    ///
    /// ```rattle
    /// use bitflags::Flags;
    /// let mut feeder = Feeder::new(alloc, 0, WasmFeatures::all());
    /// // The header is parsed in place; the section stays in the chunk for the next call.
    /// let chunk = b"\0asm\x01\0\0\0\0\x02\x01a";
    /// let (taken, is_part) = feeder.step_over(chunk, |step| matches!(step, Ok(Step::Parsed { .. })))?;
    /// assert!(rt; is_part);
    /// assert_eq!(rt; taken, 8);
    /// assert_eq!(rt; feeder.stored(), 0);
    /// ```
    pub fn step_over<R, F: FnOnce(Result<Step<'_>>) -> R>(
        &mut self,
        piece: &[u8],
        look: F,
    ) -> Result<(usize, R)>
        requires may_come { MayCome self.old piece.now }
        requires callable { F.IsAlwaysCallable look }
        // On success.
        // Proved: `step_over` requires that no bytes come after the end of input [its precondition
        //   (`MayCome`)]
        // Proved: `step_over` passes on the step that a push of the chunk and then a step would
        // Proved: it leaves what these would leave: what the feeder then holds, and the bytes of
        //   the chunk after those it took [the same (`beside`)]
        // Proved: if it asks for more, it took all bytes of the chunk [`steps`, `within` on
        //   `step_over`]
        // Proved: it stores at most what was held and the chunk, and without a chunk no more than
        //   before [`bounded` of `MovesOver` (`Bounds`)]
        // Proved: below the largest offset, if the held bytes decide what comes next, it takes
        //   nothing of the chunk and stores no more than before [`idle` of `MovesOver`
        //   (`HasDecided`)]
        // Proved: after the end or a fault it holds the bytes that decided this [`stays` of
        //   `MovesOver`]
        ensures steps { IfOk result (λ out. (s : _) × F.post look s out.1
            × StepsOver self.old piece.now s out.0 self.new) }
        ensures within { IfOk result (λ out. out.0 ≤ length piece.now) }
        // On an error.
        // Proved: a failed allocation in `step_over` leaves the feeder unchanged [`unchanged`,
        //   `memory` on `step_over`]
        ensures unchanged { OnErr result (self.new ≡ self.old) }
        ensures memory { IfErr result (λ e. fault_at e ≡ out_of_memory) }
    {
        // Nothing here needs `wants_more`: a call may come in the middle of a chunk. Room for the whole chunk is made first, so that
        // `OutOfMemory` comes before the step. The result is passed to `look`, because the rest of the chunk is stored only after the
        // result, which borrows from the feeder or the chunk, is gone.
        let Ok(ready) = make_ready(&mut self.cursor, &mut self.bytes, piece) else {
            return Err(Error::new(Fault::OutOfMemory, 0));
        };
        let rest = &piece[ready..];
        let looked = look(parse_next_for::<F, false>(&mut self.cursor, seen(&self.bytes, rest)));
        let taken = take_left(&mut self.cursor, &mut self.bytes, rest);
        Ok((ready + taken, looked))
    }
}

/// A feeder whose cursor and stored bytes are borrowed separately, for one step. `Feeder::open` returns it.
///
/// ```rattle
/// use bitflags::Flags;
/// let mut feeder = Feeder::new(alloc, 0, WasmFeatures::all());
/// feeder.push(b"\0asm\x01\0\0\0")?;
/// if let Step::Parsed { bytes, .. } = feeder.open().step()? {
///     assert_eq!(rt; bytes.len(), 8);
/// }
/// assert_eq!(rt; feeder.held(), 0);
/// ```
#[derive(Drop)]
pub struct Opened<'c, 'a> {
    cursor: &'c mut Cursor,
    bytes: &'a [u8],
}

impl<'c, 'a> Opened<'c, 'a> {
    ghost use Rattle.wasm_streams.specs.Cursors.{feed_of};
    ghost use Rattle.wasm_feed.specs.Steps.{Steps};

    /// Returns the next part of the stream, or a request for more input.
    ///
    /// # Errors
    ///
    /// Those of `Feeder::step`.
    pub fn step(self) -> Result<Step<'a>>
        ensures { Steps (feed_of self.entry.bytes.now self.entry.cursor.now) result
            (feed_of self.entry.bytes.now self.exit.0.now) }
    {
        let Opened { cursor, bytes } = self;
        parse_next(cursor, bytes)
    }
}

/// Appends a chunk to the held bytes, and drops the consumed ones. A failed allocation changes nothing.
pub(crate) fn add_chunk<A: Allocator>(
    cursor: &mut Cursor,
    bytes: &mut Vec<u8, A>,
    piece: &[u8],
) -> Result<()>
    ensures ok { OnOk result (feed_of bytes.new.items cursor.new
        ≡ pushed (feed_of bytes.old.items cursor.old) piece.now) }
    ensures unchanged { OnErr result (feed_of bytes.new.items cursor.new
        ≡ feed_of bytes.old.items cursor.old) }
    ensures memory { IfErr result (λ e. fault_at e ≡ out_of_memory) }
{
    match refill(cursor, bytes, piece) {
        Ok(()) => Ok(()),
        Err(_) => Err(Error::new(Fault::OutOfMemory, 0)),
    }
}

/// Performs one step of a cursor over the stored bytes, and returns the next part, or a request for more input.
///
/// `bytes` are all stored bytes, including those that the cursor has consumed. On success the cursor has consumed those
/// of the part.
///
/// # Errors
///
/// The fault at which the stream stops, as `Parser::parse` returns it. The cursor has consumed nothing.
///
/// ```rattle
/// // A second magic is a fault.
/// let mut cursor = Cursor::new(StoredParser::new(0));
/// parse_next(&mut cursor, b"\0asm\x01\0\0\0\0asm")?;
/// if let Err(error) = parse_next(&mut cursor, b"\0asm\x01\0\0\0\0asm") {
///     assert_eq!(rt; error, Error::new(Fault::MagicAtSection, 8));
/// }
/// ```
pub fn parse_next<'a>(cursor: &mut Cursor, bytes: &'a [u8]) -> Result<Step<'a>>
    ensures steps { StepsAt cursor.old bytes.now (told result) cursor.new }
    ensures items { StepBegins result }
{
    parse_next_for::<Step<'_>, true>(cursor, bytes)
}

// Does what `parse_next` does. `For` is what the caller makes of a step: so each caller of `step_over` has an instance, which
// LLVM puts in place. The payload is made where the frame is read, and each of the frequent kinds returns on its own. A chunk is
// large, so that only of stored bytes it pays to remember that a part is not whole.
fn parse_next_for<'a, For, const ARE_STORED: bool>(
    cursor: &mut Cursor,
    bytes: &'a [u8],
) -> Result<Step<'a>>
    ensures steps { StepsAt cursor.old bytes.now (told result) cursor.new }
    ensures items { StepBegins result }
{
    let step = if ARE_STORED {
        next_stored_for::<For, true>(cursor, bytes)
    } else {
        next_frame_for::<For, true>(cursor, bytes)
    };
    match step {
        FrameStep::Parsed { frame, bytes } => match frame.kind() {
            FrameKind::Body => return Ok(parsed(frame, bytes)),
            FrameKind::Custom => return Ok(parsed(frame, bytes)),
            FrameKind::Unknown => return Ok(parsed(frame, bytes)),
            _ => return Ok(parsed(frame, bytes)),
        },
        FrameStep::NeedMoreData(hint) => Ok(Step::NeedMoreData(hint)),
        FrameStep::Fault(error) => Err(error),
    }
}

// Returns the step of a frame that consumed these bytes.
#[inline(always)]
fn parsed<'a>(frame: Frame<'a>, bytes: &'a [u8]) -> Step<'a>
    ensures says { told (Ok result) ≡ Part frame.entry bytes.now }
    ensures items { StepBegins (Ok result) }
{
    Step::Parsed {
        bytes,
        payload: Payload::from(frame),
    }
}
