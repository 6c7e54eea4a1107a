// A run over a stream that is read from a source.
ghost use Rattle.std.specs.Prelude.{◌≡◌, ◌+◌, ◌<◌, ◌≤◌, OnOk, length, vec_len, vec_capacity};
ghost use Rattle.wasm_streams.specs.Beside.{beside, lending};
ghost use Rattle.wasm_streams.specs.Cursors.{feed_of};
ghost use Rattle.wasm_streams.specs.Step.{Part, Stop};
ghost use Rattle.wasm_streams.specs.Visits.{Finishes, GivesOut, MayBegin, MeetsRequest, Stages, TakesStep};
ghost use Rattle.wasm_io.specs.Calls.{device_of};

use crate::ahead::{Ahead, seen};
use crate::cursor::{Cursor, FrameStep, next_frame_for};
use crate::turns::{Ended, is_end};
use std::alloc::Allocator;
use wasm_base::Error;
use wasm_frames::{Frame, StoredParser};
use wasm_io::{ListError, Source};

/// What is made of the parts of a stream.
///
/// `visit` calls it at each turn: with each part, with the fault at which the stream stops, when more input is requested,
/// and at the end. `W` is what it writes to.
pub trait Visitor<A: Allocator, W> {
    // The output is no field: had a visitor a `&mut`, the checker would know nothing of the output once a call has taken
    // the visitor.

    ghost use Rattle.wasm_streams.specs.Visits.{Stages};

    /// What it says of itself at each stage of a run.
    ghost stages: { Stages Self W };

    /// What holds of it before each call, and after it.
    ghost sound: { Self → Type 0 };

    /// Takes a part of the stream, or its end, and the bytes that it consumed.
    ///
    /// # Errors
    ///
    /// `Output` if the output failed, and `Memory` when an allocation fails.
    fn take_part(&mut self, frame: Frame<'_>, bytes: &[u8], output: &mut W) -> Result<(), ListError>
        requires sound { sound self.old }
        ensures takes { TakesStep stages self.old output.old
            (Part frame.entry bytes.now) result self.new output.new }
        ensures sound { sound self.new };

    /// Takes the fault at which the stream stops.
    ///
    /// # Errors
    ///
    /// Those of `take_part`.
    fn take_fault(&mut self, error: Error, output: &mut W) -> Result<(), ListError>
        requires sound { sound self.old }
        ensures takes { TakesStep stages self.old output.old
            (Stop error) result self.new output.new }
        ensures sound { sound self.new };

    /// Meets a request for more input: skips the part at the cursor, or reads the next chunk. Returns the fault of a
    /// stream that ends within a part that was skipped, once that is shown.
    ///
    /// # Errors
    ///
    /// Those of `take_part`, and `Input` if the source failed.
    fn read_on<R: Source>(
        &mut self,
        cursor: &mut Cursor,
        stored: &mut Vec<u8, A>,
        ahead: &mut Ahead<A>,
        input: &mut R,
        output: &mut W,
    ) -> Result<Option<Error>, ListError>
        requires sound { sound self.old }
        requires room { vec_len stored.old + length ahead.old ≤ vec_capacity stored.old }
        ensures meets { MeetsRequest stages self.old output.old
            (device_of R.remaining R.has_failed input.old input.new)
            (lending stored.old.items ahead.old cursor.old) result self.new output.new
            (beside (feed_of stored.new.items cursor.new) ahead.new) }
        ensures source { OnOk result (R.has_failed input.new ≡ R.has_failed input.old) }
        ensures sound { sound self.new };

    /// Writes the output out, at the end of the stream.
    ///
    /// # Errors
    ///
    /// Those of `take_part`.
    fn finish(&mut self, output: &mut W) -> Result<(), ListError>
        requires sound { sound self.old }
        ensures finishes { Finishes stages self.old output.old result output.new };

    /// Returns the error of a run for which an allocation failed.
    fn out_of_memory(&mut self, output: &mut W) -> ListError
        requires sound { sound self.old }
        ensures gives { GivesOut stages self.old output.old result output.new };
}

/// Reads a stream from a source, and passes each part of it to a visitor. Returns how the stream ended.
///
/// A visitor serves one run, and may end it before the stream ends. It reads into `buffer`, which must have at least one
/// byte; its length is the size of the largest chunk.
///
/// # Errors
///
/// Those of the visitor.
pub fn visit<A: Allocator, R: Source, W, V: Visitor<A, W>>(
    alloc: A,
    visitor: &mut V,
    input: &mut R,
    output: &mut W,
    buffer: Vec<u8, A>,
) -> Result<Ended, ListError>
    requires some { 0 < vec_len buffer }
    requires sound { V.sound visitor.old }
    requires begins { MayBegin V.stages visitor.old output.old
        (R.remaining input.old) (R.has_failed input.old) }
    // Proved: `visit` ends its run as the calls of its visitor lead from stage to stage, whatever the visitor makes of
    //   the parts: each part, each fault, each request and the end is passed to it in turn [`done` on `visit` (`Stages`), and
    //   `takes`, `meets`, `finishes`, `gives` of `Visitor` (`TakesStep`, `MeetsRequest`, `Finishes`, `GivesOut`)]
    ensures done { V.stages.done visitor.old output.old
        (device_of R.remaining R.has_failed input.old input.new) result output.new }
{
    // Separate values and not a `Feeder`, so that the result of a step can borrow the bytes while the cursor moves on.
    let mut ahead = Ahead::new(buffer);
    let mut stored = Vec::new(alloc);
    let mut cursor = Cursor::new(StoredParser::new(0));
    'events: loop {
        match ahead.make_ready(&mut cursor, &mut stored) {
            Ok(()) => {}
            Err(_) => return Err(visitor.out_of_memory(output)),
        }
        match next_frame_for::<(R, W, V), false>(&mut cursor, seen(&stored, ahead.bytes())) {
            FrameStep::Parsed { frame, bytes } => {
                let is_last = is_end(&frame);
                visitor.take_part(frame, bytes, output)?;
                if is_last {
                    visitor.finish(output)?;
                    return Ok(Ended::End);
                }
                ahead.pass_borrowed(&mut cursor, &stored);
            }
            FrameStep::NeedMoreData(_) => {
                let fault = visitor.read_on(&mut cursor, &mut stored, &mut ahead, input, output)?;
                if let Some(error) = fault {
                    return Ok(Ended::Fault(error));
                }
            }
            FrameStep::Fault(error) => {
                visitor.take_fault(error, output)?;
                visitor.finish(output)?;
                return Ok(Ended::Fault(error));
            }
        }
    }
}
