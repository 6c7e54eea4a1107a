// Reads a stream in several ways, each as the lines of its events.
use crate::rows::Failed;
use std::alloc::Global;
use wasm_base::{Error, Fault, Result as Read, WasmFeatures};
use wasm_dumper::write_payload;
use wasm_feed::{BoundedSink, Ended, Feeder, ListError, SliceSource, Step, list};
use wasm_io::{Base, ShortText, write_number};
use wasm_lines::FaultLine;
use wasm_parser::{Chunk, Parser, Payload};

/// A stream.
#[derive(Drop)]
pub(crate) struct Stream<'a> {
    /// Its bytes.
    pub(crate) bytes: &'a [u8],
    /// The offset at which it begins.
    pub(crate) offset: u64,
    /// The features that it is read with.
    pub(crate) features: WasmFeatures,
}

impl<'a> Stream<'a> {
    /// A parser of it.
    pub(crate) fn parser(&self) -> Parser {
        let mut parser = Parser::new(self.offset);
        parser.set_features(self.features);
        parser
    }
}

/// What the parser or a feeder returned.
#[derive(Drop)]
pub(crate) enum Next {
    /// An event, of which this many bytes were consumed.
    Event(usize),
    /// The end, or a fault.
    Last,
    /// It asked for this many bytes.
    More(usize),
}

/// Lines that are gathered. Only `finish` says whether an allocation failed, so that no line has to.
#[derive(Drop)]
pub(crate) struct Gathered {
    lines: Vec<u8>,
    has_failed: bool,
}

impl Gathered {
    /// No lines yet.
    pub(crate) fn new(alloc: Global) -> Gathered {
        Gathered {
            lines: Vec::new(alloc),
            has_failed: false,
        }
    }

    /// Adds bytes.
    pub(crate) fn add(&mut self, bytes: &[u8]) {
        if self.lines.extend_from_slice(bytes).is_err() {
            self.has_failed = true;
        }
    }

    /// Adds a word and a number.
    pub(crate) fn add_number(&mut self, word: &str, number: u64) {
        let mut digits = [0u8; 20];
        let end = write_number(&mut digits, 0, number);
        self.add(word.as_bytes());
        self.add(&digits[..end]);
    }

    // Adds the text of an event in a listing.
    fn add_event(&mut self, payload: &Payload<'_>) {
        let mut text = [b' '; 102];
        let end = write_payload(&mut text, 2, Base::Decimal, payload);
        self.add(&text[..end]);
    }

    // Adds the text of a fault in a listing and, if it has a hint, how many bytes are missing.
    fn add_fault(&mut self, error: &Error) {
        let mut text = [b' '; 161];
        let line = FaultLine {
            base: Base::Decimal,
            error,
        };
        let end = line.write_at(&mut text, 2);
        self.add(&text[..end]);
        if let Some(missing) = error.needed_hint() {
            self.add_number(" missing=", missing as u64);
        }
    }

    /// Returns all lines, or that an allocation failed.
    pub(crate) fn finish(self) -> Result<Vec<u8>, Failed> {
        if self.has_failed {
            return Err(Failed::System(ListError::Memory));
        }
        let Gathered { lines, .. } = self;
        Ok(lines)
    }
}

/// Returns the lines of the events that a walk over the whole stream returns. That of a fault has its hint, or not.
pub(crate) fn walked(alloc: Global, stream: &Stream<'_>, hints: bool) -> Result<Vec<u8>, Failed> {
    let mut lines = Gathered::new(alloc);
    for event in stream.parser().parse_all(stream.bytes) {
        add_walked(event, hints, &mut lines);
    }
    lines.finish()
}

fn add_walked(event: Read<Payload<'_>>, hints: bool, lines: &mut Gathered) {
    match event {
        Ok(payload) => lines.add_event(&payload),
        Err(error) => lines.add_fault(&shown(error, hints)),
    }
    lines.add(b"\n");
}

// Returns a fault with its hint, or without.
fn shown(error: Error, hints: bool) -> Error {
    if hints {
        error
    } else {
        error.without_needed_hint()
    }
}

/// Returns the lines of a stream of which the parser sees one more byte at a time. Each event is read as soon as it is complete.
pub(crate) fn read_bytewise(alloc: Global, stream: &Stream<'_>) -> Result<Vec<u8>, Failed> {
    let mut lines = Gathered::new(alloc);
    let mut parser = stream.parser();
    let mut from = 0_usize;
    for to in 0..=stream.bytes.len() {
        if add_to(&mut parser, stream.bytes, &mut from, to, &mut lines) {
            break;
        }
    }
    lines.finish()
}

// Adds the lines of the events that are complete in the bytes between these positions. Returns whether the last event was among them.
fn add_to(
    parser: &mut Parser,
    bytes: &[u8],
    from: &mut usize,
    to: usize,
    lines: &mut Gathered,
) -> bool {
    let (come, _) = bytes.split_at(to.min(bytes.len()));
    for _ in 0..=bytes.len() {
        let held = come.split_at((*from).min(come.len())).1;
        match add_next(parser, held, to == bytes.len(), lines) {
            Next::Event(consumed) => *from = (*from).saturating_add(consumed),
            Next::Last => {
                lines.add(b"\n");
                return true;
            }
            Next::More(_) => break,
        }
        lines.add(b"\n");
    }
    false
}

/// Parses the next event of these bytes, and adds its text, or that of the fault.
pub(crate) fn add_next(parser: &mut Parser, bytes: &[u8], eof: bool, lines: &mut Gathered) -> Next {
    match parser.parse(bytes, eof) {
        Ok(Chunk::NeedMoreData(count)) => Next::More(count),
        Ok(Chunk::Parsed { consumed, payload }) => add_payload(&payload, consumed, lines),
        Err(error) => {
            lines.add_fault(&error);
            Next::Last
        }
    }
}

// Adds the text of an event, of which this many bytes were consumed.
fn add_payload(payload: &Payload<'_>, consumed: usize, lines: &mut Gathered) -> Next {
    lines.add_event(payload);
    match payload {
        Payload::End(_) => Next::Last,
        _other => Next::Event(consumed),
    }
}

/// Returns the lines of a stream that a feeder receives in chunks of this many bytes.
pub(crate) fn feed(alloc: Global, stream: &Stream<'_>, size: usize) -> Result<Vec<u8>, Failed> {
    let mut lines = Gathered::new(alloc);
    let mut feeder = Feeder::new(alloc, stream.offset, stream.features);
    for chunk in stream.bytes.chunks(size.max(1)) {
        if !feeder.wants_more() {
            break;
        }
        match feeder.push(chunk) {
            Ok(()) => add_steps(&mut feeder, &mut lines),
            Err(error) => return with_last(lines, &error),
        }
    }
    if feeder.wants_more() {
        feeder.finish();
        add_steps(&mut feeder, &mut lines);
    }
    lines.finish()
}

// Returns these lines and that of a fault that `push` returned, or why there are none: an allocation failed.
fn with_last(mut lines: Gathered, error: &Error) -> Result<Vec<u8>, Failed> {
    match error.fault() {
        Fault::OutOfMemory => Err(Failed::System(ListError::Memory)),
        _ => {
            lines.add_fault(error);
            lines.add(b"\n");
            lines.finish()
        }
    }
}

// Adds the lines of the next steps of a feeder, up to a request, a fault or the end.
fn add_steps(feeder: &mut Feeder, lines: &mut Gathered) {
    for _ in 0..u64::MAX {
        let next = add_step(feeder.step(), lines);
        if let Next::More(_) = next {
            break;
        }
        lines.add(b"\n");
        if let Next::Last = next {
            break;
        }
    }
}

// Adds the text of the result of a step. The text of a fault has no hint.
fn add_step(step: Read<Step<'_>>, lines: &mut Gathered) -> Next {
    match step {
        Ok(Step::NeedMoreData(count)) => Next::More(count),
        Ok(Step::Parsed { bytes, payload }) => add_payload(&payload, bytes.len(), lines),
        Err(error) => {
            lines.add_fault(&error.without_needed_hint());
            Next::Last
        }
    }
}

/// Returns the lines of the listing of a stream that is read in chunks of this many bytes.
pub(crate) fn list_chunked(
    alloc: Global,
    stream: &Stream<'_>,
    size: usize,
) -> Result<Vec<u8>, Failed> {
    // A line has at most 160 bytes, and each event but the end at least one byte of the stream.
    let most = stream.bytes.len().saturating_add(2).saturating_mul(160);
    let mut output = BoundedSink::new(alloc, most)?;
    let mut source = SliceSource::new(stream.bytes);
    match list(alloc, &mut source, &mut output, size.max(1)) {
        Ok(ended) => indented(alloc, output.written(), is_end_of(&ended, stream)),
        Err(why) => Err(Failed::System(why)),
    }
}

// Returns whether a walk over the whole stream has the same result.
fn is_end_of(ended: &Ended, stream: &Stream<'_>) -> bool {
    let mut end = Ended::End;
    for event in stream.parser().parse_all(stream.bytes) {
        end = end_after(event);
    }
    *ended == end
}

fn end_after(event: Read<Payload<'_>>) -> Ended {
    match event {
        Ok(_) => Ended::End,
        Err(error) => Ended::Fault(error),
    }
}

// Returns these lines, indented by two blanks, and one more line if the walk ends differently.
fn indented(alloc: Global, text: &[u8], is_same_end: bool) -> Result<Vec<u8>, Failed> {
    let mut lines = Gathered::new(alloc);
    let mut is_start = true;
    for byte in text {
        if is_start {
            lines.add(b"  ");
        }
        lines.add(&[*byte]);
        is_start = *byte == b'\n';
    }
    if !is_same_end {
        lines.add(b"  the end is another\n");
    }
    lines.finish()
}
