// The streams of the program. They note why they failed, so that a message can say it.
ghost use Rattle.std.specs.Prelude.{◌≡◌};

use crate::reasons::Cause;
use std::cell::Cell;
use std::fs::File;
use std::io::{self, Read, Stderr, Stdin, Write};
use wasm_io::{Failed, Sink};

/// Standard input or a file. It is one type, so that a program contains the code that reads it only once.
#[derive(Drop)]
pub(crate) enum Device {
    /// Standard input.
    Standard(Stdin),
    /// A file.
    File(File),
}

/// A reader that notes why a read failed, and shows how far it has got, if that was asked for.
#[derive(Drop)]
pub(crate) struct Input<'a> {
    device: Device,
    failure: &'a Cell<Option<Cause>>,
    progress: Option<Progress>,
}

impl<'a> Input<'a> {
    /// Creates a reader of this device, which notes here why it failed.
    pub(crate) fn new(
        device: Device,
        failure: &'a Cell<Option<Cause>>,
        progress: Option<Progress>,
    ) -> Self {
        Input {
            device,
            failure,
            progress,
        }
    }
}

impl Read for Input<'_> {
    fn read(&mut self, buf: &mut [u8]) -> io::Result<usize> {
        let result = match &mut self.device {
            Device::Standard(stdin) => stdin.read(buf),
            Device::File(file) => file.read(buf),
        };
        match &result {
            Ok(count) => {
                if let Some(progress) = &mut self.progress {
                    progress.add(*count as u64);
                }
            }
            Err(error) => self.failure.set(Some(Cause::of(error))),
        }
        result
    }
}

/// Files above this size show how far they are read.
pub(crate) const LARGE: u64 = 64 << 20;

// How many bytes are read between two lines of progress.
const STEP: u64 = 8 << 20;

/// A line on a terminal that shows how much of a large file was read.
#[derive(Drop)]
pub(crate) struct Progress {
    terminal: Stderr,
    size: u64,
    read: u64,
    next: u64,
}

impl Progress {
    /// Creates a line for a file of this size, on this terminal. It shows nothing yet.
    pub(crate) fn new(terminal: Stderr, size: u64) -> Self {
        Progress {
            terminal,
            size,
            read: 0,
            next: STEP,
        }
    }

    // Counts bytes, and shows the share of the file that was read after each step; clears the line at the end of the file.
    fn add(&mut self, count: u64) {
        self.read = self.read.saturating_add(count);
        if count == 0 {
            let _ = self.terminal.write(b"\r\x1b[K");
        } else if self.read >= self.next {
            self.next = self.read.saturating_add(STEP);
            let percent = self.read / (self.size / 100 + 1);
            let _ = write!(self.terminal, "\r{percent} %");
        }
    }
}

/// A writer that notes why a write or a flush failed.
#[derive(Drop)]
pub struct Noting<'a, W> {
    writer: W,
    failure: &'a Cell<Option<Cause>>,
}

impl<'a, W: Write> Noting<'a, W> {
    /// Creates a writer that forwards to this one, and notes here why it failed.
    pub fn new(writer: W, failure: &'a Cell<Option<Cause>>) -> Self
        ensures writer { result.writer ≡ writer }
        ensures failure { result.failure ≡ failure.entry }
    {
        Noting { writer, failure }
    }
}

impl<W: Write> Write for Noting<'_, W> {
    ghost contents = { λ noting. W.contents noting.writer };

    fn write(&mut self, buf: &[u8]) -> io::Result<usize> {
        let result = self.writer.write(buf);
        if let Err(error) = &result {
            self.failure.set(Some(Cause::of(error)));
        }
        result
    }

    fn flush(&mut self) -> io::Result<()> {
        let result = self.writer.flush();
        if let Err(error) = &result {
            self.failure.set(Some(Cause::of(error)));
        }
        result
    }
}

/// A sink for messages. It discards them once the reader of the output has closed the pipe.
#[derive(Drop)]
pub struct Messages<'a, E> {
    sink: E,
    output_failure: &'a Cell<Option<Cause>>,
}

impl<'a, E: Sink> Messages<'a, E> {
    /// Creates a sink that forwards messages to this one, until the output is known to have failed with a closed pipe.
    pub fn new(sink: E, output_failure: &'a Cell<Option<Cause>>) -> Self
        ensures sink { result.sink ≡ sink }
        ensures failure { result.output_failure ≡ output_failure.entry }
    {
        Messages {
            sink,
            output_failure,
        }
    }
}

impl<E: Sink> Sink for Messages<'_, E> {
    ghost has_failed = { λ messages. E.has_failed messages.sink };

    fn write(&mut self, buf: &[u8]) -> Result<usize, Failed> {
        if let Some(cause) = self.output_failure.get() {
            if cause.is_closed_pipe() {
                return Ok(buf.len());
            }
        }
        self.sink.write(buf)
    }

    fn failed(&self) -> bool {
        self.sink.failed()
    }
}
