// Streams in chunks: the events that are read, and each step of a feeder.
ghost use Rattle.std.specs.Prelude.{◌≡◌, false};
ghost use Rattle.wasm_output.specs.Tree.{has_line_feed};

use crate::rows::Failed;
use bitflags::Flags;
use std::alloc::Global;
use wasm_base::{BinaryReader, Error, WasmFeatures};
use wasm_feed::{Event, EventKind, Feeder, ListError, Step, fits_pieces, read_pieces};
use wasm_output::{Start, Tree};
use wasm_parser::{Encoding, Payload};

/// What is shown of a stream in chunks.
#[derive(Drop)]
pub(crate) enum Shown {
    /// The events that are read.
    Events,
    /// The steps of a feeder that receives chunks as it requests them, and one step after the last. Each with the bytes that are then
    /// held and stored.
    Steps,
}

/// Writes a line of a stream in chunks that begins at this offset.
pub(crate) fn show_pieces<O: Tree>(
    alloc: Global,
    shown: Shown,
    mut reader: BinaryReader<'_>,
    offset: u64,
    out: &mut O,
) -> Result<(), Failed> {
    let pieces = pieces_of(alloc, &mut reader)?;
    match shown {
        Shown::Events => show_events(alloc, &pieces, offset, out),
        Shown::Steps => show_steps(alloc, &pieces, offset, out),
    }
}

// Reads the chunks of a row: their count, and each chunk after its size.
fn pieces_of<'a>(alloc: Global, reader: &mut BinaryReader<'a>) -> Result<Vec<&'a [u8]>, Failed> {
    let mut pieces = Vec::new(alloc);
    for _ in 0..reader.read_var_u32()? {
        let piece = reader.read_reader()?.remaining_buffer();
        if pieces.push(piece).is_err() {
            return Err(Failed::System(ListError::Memory));
        }
    }
    Ok(pieces)
}

fn show_events<O: Tree>(
    alloc: Global,
    pieces: &[&[u8]],
    offset: u64,
    out: &mut O,
) -> Result<(), Failed> {
    if !fits_pieces(offset, pieces) {
        return Err(Failed::Row("the pieces overrun the largest offset"));
    }
    let events = read_pieces(alloc, offset, pieces)?;
    out.begin_line(1, Start::Empty);
    for event in &events {
        show_event(event, out);
    }
    Ok(())
}

fn show_event<O: Tree>(event: &Event, out: &mut O) {
    show_kind(&event.kind, out);
    out.text(" ");
    out.digits(event.range.start);
    out.text("..");
    out.digits(event.range.end);
    out.text(" x");
    out.hexadecimals(&event.bytes);
    out.text("; ");
}

fn show_kind<O: Tree>(kind: &EventKind, out: &mut O) {
    match kind {
        EventKind::Version { num, encoding } => show_version(*num, *encoding, out),
        EventKind::Section { id, count } => {
            show_words("section ", u64::from(*id), Some(*count), out);
        }
        EventKind::Start { func } => show_words("start ", u64::from(*func), None, out),
        EventKind::DataCount { count } => show_words("datacount ", u64::from(*count), None, out),
        EventKind::Code { count, size } => {
            show_words("code ", u64::from(*count), Some(*size), out);
        }
        EventKind::Body => out.text("body"),
        EventKind::Custom { data_offset } => show_words("custom ", *data_offset, None, out),
        EventKind::Unknown { id } => show_words("unknown ", u64::from(*id), None, out),
        EventKind::End => out.text("end"),
        EventKind::Fault(error) => out.fault_text(error),
    }
}

fn show_version<O: Tree>(num: u16, encoding: Encoding, out: &mut O) {
    show_words("version ", u64::from(num), None, out);
    match encoding {
        Encoding::Module => out.text(" module"),
        Encoding::Component => out.text(" component"),
    }
}

// Writes a word and one or two numbers.
fn show_words<O: Tree>(word: &str, first: u64, second: Option<u32>, out: &mut O)
    requires one_line { has_line_feed word.now ≡ false }
{
    out.text(word);
    out.digits(first);
    if let Some(second) = second {
        out.text(" ");
        out.digits(u64::from(second));
    }
}

fn show_steps<O: Tree>(
    alloc: Global,
    pieces: &[&[u8]],
    offset: u64,
    out: &mut O,
) -> Result<(), Failed> {
    let mut feeder = Feeder::new(alloc, offset, WasmFeatures::all());
    let mut given = 0_usize;
    let mut has_ended = false;
    out.begin_line(1, Start::Empty);
    for _ in 0..u64::MAX {
        let is_last = show_step(&mut feeder, out);
        if is_last && has_ended {
            break;
        }
        has_ended = is_last;
        given = push_next(&mut feeder, pieces, given, out)?;
    }
    Ok(())
}

// Writes the result of a step, and the numbers of bytes that are then held and stored. Returns whether it was the last step.
fn show_step<O: Tree>(feeder: &mut Feeder, out: &mut O) -> bool {
    let is_last = show_result(feeder.open().step(), out);
    out.text(" ");
    out.digits(feeder.held() as u64);
    out.text(" ");
    out.digits(feeder.stored() as u64);
    out.text("; ");
    is_last
}

fn show_result<O: Tree>(step: wasm_base::Result<Step<'_>>, out: &mut O) -> bool {
    match step {
        Ok(Step::NeedMoreData(hint)) => {
            show_words("need ", hint as u64, None, out);
            false
        }
        Ok(Step::Parsed { bytes, payload }) => {
            show_words("part ", bytes.len() as u64, None, out);
            is_end(&payload)
        }
        Err(error) => {
            out.fault_text(&error);
            true
        }
    }
}

fn is_end(payload: &Payload<'_>) -> bool {
    match payload {
        Payload::End(_) => true,
        _other => false,
    }
}

// If the feeder wants more, pushes the next chunk, or finishes after the last one. Returns the number of chunks pushed so far.
fn push_next<O: Tree>(
    feeder: &mut Feeder,
    pieces: &[&[u8]],
    given: usize,
    out: &mut O,
) -> Result<usize, Failed> {
    if !feeder.wants_more() {
        return Ok(given);
    }
    let Some(piece) = pieces.get(given) else {
        feeder.finish();
        return Ok(given);
    };
    match feeder.push(piece) {
        Ok(()) => Ok(given.saturating_add(1)),
        Err(error) => Err(stopped(error, out)),
    }
}

// Returns why a chunk was refused. If memory ran out, the current line is not written.
fn stopped<O: Tree>(error: Error, out: &mut O) -> Failed {
    let why = Failed::from(error);
    if let Failed::System(_) = why {
        out.out_of_memory();
    }
    why
}
