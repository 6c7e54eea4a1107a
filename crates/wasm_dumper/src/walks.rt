// Walks over a stream: reports the items of each part to a walker.
ghost use Rattle.std.specs.Prelude.{◌≡◌, ◌≤◌, ◌<◌, ◌+◌, ◌∷◌, [], false, length, vec_len, vec_capacity, Some, None, OnOk, IfErr};
ghost use Rattle.wasm_dumper.specs.Hiding.{CountsOutline};
ghost use Rattle.wasm_dumper.specs.Walking.{SeesLast, SeesOutline, walk_stages};
ghost use Rattle.wasm_dumper.specs.Walks.{SeesStream};
ghost use Rattle.wasm_dumper.specs.declared.events.Only.TheVariants.{All};
ghost use Rattle.wasm_io.specs.Calls.{device_of};
ghost use Rattle.wasm_streams.specs.Beside.{ReadsEnough, beside, lending};
ghost use Rattle.wasm_streams.specs.Cursors.{feed_of};

use crate::counts::Counts;
use crate::events::{Only, Shown};
use crate::hidden::{Outline, Supplied, supply};
use crate::stream::walk_payload;
use std::alloc::Global;
use wasm_frames::Frame;
use wasm_io::{ListError, Source};
use wasm_parser::{Error, Payload};
use wasm_show::{Walker, Within};
use wasm_streams::{Ahead, Cursor, Ended, Visitor, visit};

// Returns an error if the walker has stopped.
fn keep_on<W: Walker>(walker: &W) -> Result<(), ListError>
    ensures ok { OnOk result (W.why walker.now ≡ None) }
    ensures err { IfErr result (λ stop. W.why walker.now ≡ Some stop) }
{
    match walker.why_stopped() {
        None => Ok(()),
        Some(stop) => Err(stop),
    }
}

// Reports the fault at which the stream ends.
fn walk_last_fault<W: Walker>(error: &Error, walker: &mut W)
    ensures { SeesLast W.saw W.why W.IS_DEEP error.now walker.old walker.new }
{
    walker.enter(Within::Stream);
    walker.take_fault(0, error);
}

// What a walk reads: each part but the data of custom sections with unknown names.
fn all_parts() -> Shown<'static>
    ensures only { result.only.now ≡ All ∷ [] }
    ensures bytes { result.has_bytes ≡ false }
{
    Shown {
        only: &[Only::All],
        has_bytes: false,
        found: &[],
    }
}

// What walks over the items of each part.
#[derive(Drop)]
struct Steps {
    alloc: Global,
    // The items and bodies so far.
    counts: Counts,
}

impl Steps {
    // Counts a part that was skipped, and reports the section that it is.
    fn pass_skipped<W: Walker>(&mut self, outline: &Outline, walker: &mut W)
        ensures sees { SeesOutline W.saw W.why W.IS_DEEP self.old.counts outline.now
            walker.old walker.new }
        ensures counts { CountsOutline (All ∷ []) false outline.now self.old.counts self.new.counts }
    {
        match outline {
            Outline::Hidden { is_body } => self.counts.pass_hidden(*is_body),
            Outline::Custom(section) => {
                walk_payload(self.alloc, &self.counts, &section.without_data(), walker);
            }
        }
    }
}

impl<W: Walker> Visitor<Global, W> for Steps {
    ghost stages = { walk_stages W.saw W.why W.IS_DEEP (λ v. v.counts) };

    ghost sound = { λ v. Unit {0} };

    fn take_part(
        &mut self,
        frame: Frame<'_>,
        _bytes: &[u8],
        walker: &mut W,
    ) -> Result<(), ListError> {
        let payload = Payload::from(frame);
        walk_payload(self.alloc, &self.counts, &payload, walker);
        self.counts.pass(&payload);
        keep_on(walker)
    }

    fn take_fault(&mut self, error: Error, walker: &mut W) -> Result<(), ListError> {
        walk_last_fault(&error, walker);
        keep_on(walker)
    }

    fn read_on<R: Source>(
        &mut self,
        cursor: &mut Cursor,
        stored: &mut Vec<u8>,
        ahead: &mut Ahead<Global>,
        input: &mut R,
        walker: &mut W,
    ) -> Result<Option<Error>, ListError> {
        match supply(self.alloc, all_parts(), cursor, stored, ahead, input)? {
            Supplied::Read => Ok(None),
            Supplied::Passed(outline) => {
                self.pass_skipped(&outline, walker);
                keep_on(walker)?;
                Ok(None)
            }
            Supplied::Cut(error) => {
                walk_last_fault(&error, walker);
                keep_on(walker)?;
                Ok(Some(error))
            }
        }
    }

    fn finish(&mut self, walker: &mut W) -> Result<(), ListError> {
        keep_on(walker)
    }

    fn out_of_memory(&mut self, _walker: &mut W) -> ListError {
        ListError::Memory
    }
}

/// Reads a stream from a source, reports the items of each part to a walker, and returns how the stream ended.
///
/// Each part has its section, and under it its items, with their numbers in their index spaces. A fault is reported
/// in the place of its item, and the fault of the stream at the end. Offsets are in bytes from the start of the stream.
///
/// It reads at most `piece` bytes at once, which must be at least 1. It buffers the last chunk and the undecided bytes,
/// which are less than a part; of a custom section with an unknown name it buffers only the first fields.
///
/// # Errors
///
/// * `Input` if the source failed.
/// * Why the walker stopped, if it did: `Output` or `Memory`.
/// * `Memory` when an allocation fails.
///
/// ```rattle
/// let mut input = SliceSource::new(b"\0asm\x01\0\0\0\x07\x05\x01\x01f\0\x05");
/// let mut offsets = Offsets::new(alloc);
/// let ended = walk(alloc, &mut input, &mut offsets, 4096);
/// assert_eq!(rt; ended, Ok(Ended::End));
/// let noted = offsets.into_noted().ok_or("out of memory")?;
/// assert_eq!(rt; noted.as_slice(), [11].as_slice());
/// ```
pub fn walk<R: Source, W: Walker>(
    alloc: Global,
    input: &mut R,
    walker: &mut W,
    piece: usize,
) -> Result<Ended, ListError>
    requires { 1 ≤ piece }
    // Proved: what a walker sees of a whole stream: of each event its section, and each item of that with its level, its
    //   offset and its number, in order, and each fault in the place of an item; so also where the stream is cut
    //   [`walk` (`SeesWhole`, `events_seen`)]
    // Proved: if `walk` fails, the walker has stopped, the source has failed, or an allocation; and the walker has seen
    //   what the first events of the stream have, of which a source that fails leaves out only the one that it cuts
    //   [the same (`SeesFirst`, `FailsToRead`)]
    ensures { SeesStream W.saw W.why W.IS_DEEP
        (device_of R.remaining R.has_failed input.old input.new) result walker.old walker.new }
{
    let buffer = vec![in alloc; 0u8; piece]?;
    let mut steps = Steps {
        alloc,
        counts: Counts::new(),
    };
    visit(alloc, &mut steps, input, walker, buffer)
}
