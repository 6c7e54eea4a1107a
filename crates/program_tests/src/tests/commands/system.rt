// Files in memory.
ghost use Rattle.std.specs.Prelude.{◌≡◌, false};

use std::alloc::Global;
use std::cell::Cell;
use std::io::{self, ErrorKind, Read};
use wasm_commands::{Cause, Causes, System};
use wasm_io::{BoundedSink, ReadSource};

/// A file by its name, and whether it can be read twice.
#[derive(Clone, Copy)]
pub(super) struct Named<'a> {
    pub(super) name: &'a str,
    pub(super) bytes: &'a [u8],
    pub(super) is_regular: bool,
}

/// What was done to a file.
#[derive(Clone, Copy, PartialEq)]
pub(super) enum Change {
    /// One was created to replace the target with this number.
    Created(usize),
    /// One was replaced by this many bytes.
    Replaced(usize),
    /// What was written was discarded.
    Discarded,
}

// The names of files that tests replace.
const TARGETS: [&str; 5] = ["out", "=x", "a", "denied", "full"];

/// A file is created to replace the one with this name, or one that no test replaces.
pub(super) fn created(name: &str) -> Change {
    let mut number = 0usize;
    for target in TARGETS {
        if target == name {
            return Change::Created(number);
        }
        number = number.saturating_add(1);
    }
    Change::Created(number)
}

/// Standard input, and files. Reading the file `broken` fails, and so does creating `denied`.
#[derive(Drop)]
pub(super) struct Files<'a> {
    input: &'a [u8],
    named: &'a [Named<'a>],
    input_failure: Cell<Option<Cause>>,
    is_terminal: bool,
    // What was done to files, and how often something was.
    trace: [Change; 4],
    count: usize,
}

impl<'a> Files<'a> {
    /// Standard input alone.
    pub(super) fn of_input(input: &'a [u8]) -> Files<'a> {
        Files::new(input, &[])
    }

    /// Standard input, and these files.
    pub(super) fn new(input: &'a [u8], named: &'a [Named<'a>]) -> Files<'a> {
        Files {
            input,
            named,
            input_failure: Cell::new(None),
            is_terminal: false,
            trace: [Change::Discarded; 4],
            count: 0,
        }
    }

    /// The same files, where the output is a terminal.
    pub(super) fn at_terminal(mut self) -> Files<'a> {
        self.is_terminal = true;
        self
    }

    /// The same files, to which nothing was done yet.
    pub(super) fn again(&self) -> Files<'a> {
        let mut files = Files::new(self.input, self.named);
        files.is_terminal = self.is_terminal;
        files
    }

    /// What was done to files, in order.
    pub(super) fn changes(&self) -> &[Change] {
        self.trace.get(..self.count).unwrap_or(&[])
    }

    // Notes what was done. What the trace has no place for is noted in place of the last.
    fn note(&mut self, change: Change) {
        let at = self.count.min(3);
        if let Some(place) = self.trace.get_mut(at) {
            *place = change;
        }
        self.count = at + 1;
    }
}

/// A reader of bytes, or one that fails.
#[derive(Drop)]
pub(super) struct Reader<'a> {
    bytes: &'a [u8],
    is_broken: bool,
}

impl Read for Reader<'_> {
    ghost use Rattle.std.specs.Prelude.{Some};

    ghost remaining = { λ r. Some r.bytes.now };

    fn read(&mut self, buf: &mut [u8]) -> io::Result<usize> {
        if self.is_broken {
            return Err(io::Error::from(ErrorKind::IsADirectory));
        }
        self.bytes.read(buf)
    }
}

// The cause of an error of this kind.
fn cause(kind: ErrorKind) -> Cause {
    Cause::of(&io::Error::from(kind))
}

fn found<'a>(named: &'a [Named<'a>], name: &str) -> Option<Named<'a>> {
    for file in named {
        if file.name == name {
            return Some(*file);
        }
    }
    None
}

// A source of these bytes, or one that fails.
fn source_of<'a>(bytes: &'a [u8], is_broken: bool) -> ReadSource<Reader<'a>>
    ensures bytes { result.reader.bytes.now ≡ bytes.now }
    ensures failed { result.failed ≡ false }
{
    ReadSource::new(Reader { bytes, is_broken })
}

impl<'a> System for Files<'a> {
    ghost use Rattle.std.specs.Prelude.{◌≡◌, IfOk, Ok, codes, false};

    type Input = ReadSource<Reader<'a>>;

    type Output = BoundedSink;

    // Standard input has the bytes that were given for it.
    ghost opens = { λ files name result. name ≡ codes "-"
        → IfOk result (λ input. (input.failed ≡ false) × (input.reader.bytes.now ≡ files.input.now)) };

    ghost rereads = { λ files name result. Unit {0} };

    ghost shows = { λ files result. result ≡ files.is_terminal };

    ghost creates = { λ files input name result later. Unit {0} };

    ghost replaces = { λ files output is_complete result later. result ≡ Ok tt };

    fn open(&self, name: &str) -> Result<ReadSource<Reader<'a>>, Cause> {
        if name == "-" {
            return Ok(source_of(self.input, false));
        }
        if name == "broken" {
            self.input_failure.set(Some(cause(ErrorKind::IsADirectory)));
            return Ok(source_of(b"", true));
        }
        match found(self.named, name) {
            Some(file) => Ok(source_of(file.bytes, false)),
            None => Err(cause(ErrorKind::NotFound)),
        }
    }

    fn is_regular(&self, name: &str) -> bool {
        match found(self.named, name) {
            Some(file) => file.is_regular,
            None => name == "broken",
        }
    }

    fn is_terminal(&self) -> bool {
        self.is_terminal
    }

    fn create(&mut self, alloc: Global, _input: &str, name: &str) -> Result<BoundedSink, Cause> {
        if name == "denied" {
            return Err(cause(ErrorKind::PermissionDenied));
        }
        self.note(created(name));
        let room = if name == "full" { 9 } else { 100 };
        match BoundedSink::new(alloc, room) {
            Ok(output) => Ok(output),
            Err(_) => Err(cause(ErrorKind::OutOfMemory)),
        }
    }

    fn replace(&mut self, output: BoundedSink, is_complete: bool) -> Result<(), Cause> {
        self.note(if is_complete {
            Change::Replaced(output.written().len())
        } else {
            Change::Discarded
        });
        Ok(())
    }

    fn hide_progress(&self) {}

    fn causes(&self) -> Causes {
        Causes {
            input: self.input_failure.get(),
            output: Some(cause(ErrorKind::StorageFull)),
        }
    }
}
