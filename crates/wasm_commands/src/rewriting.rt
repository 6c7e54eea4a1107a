// Writing a stream with other custom sections, which `strip` and `add` share.
ghost use Rattle.std.specs.Prelude.{◌≡◌, All, is_ok};
ghost use Rattle.std.specs.Io.KnownBytes.{Keeps};
ghost use Rattle.wasm_commands.specs.Parsing.{reads_of, text_if_any};
ghost use Rattle.wasm_commands.specs.Rewrites.{Changes, Closes, EditsHeld, EditsOriginal, EditsOut, EditsTarget, EditsTo, EndsFile, EndsRun, EndsTarget, Finds, FlushesAtEnd, WritesFile, WritesTo, route, route_from, sink_device, target_in};
ghost use Rattle.wasm_console.specs.Messages.{joined};
ghost use Rattle.wasm_edits.specs.Edits.{CanBeMade};
ghost use Rattle.wasm_io.specs.Calls.{writer_device};

mod twice;

use crate::arguments::Arguments;
use crate::options::Flag;
use crate::reasons::Cause;
use crate::runner::{Runner, writes_all};
use crate::system::System;
use std::alloc::Global;
use std::io::Write;
use twice::{Reopened, edit_twice};
use wasm_base::Fault;
use wasm_console::PIECE;
use wasm_edits::{Edit, edit, edit_stream};
use wasm_io::{ListError, Sink, WriteSink, write_all};
use wasm_streams::Ended;

/// A stream to change: a regular file, which is opened for each reading, or what was read of another one.
#[derive(Drop)]
pub(crate) struct Original<'a> {
    pub(crate) way: Way<'a>,
    pub(crate) held: Option<Vec<u8>>,
    /// Whether a reading has shown that it has no fault.
    pub(crate) is_checked: bool,
}

// Writes a stream in memory with edits, unless it has a fault.
fn edit_held<W: Sink>(
    alloc: Global,
    edits: &[Edit<'_>],
    bytes: &[u8],
    output: &mut W,
) -> Result<Ended, ListError>
    requires { All CanBeMade edits.now }
    ensures { EditsHeld edits.now bytes.now
        (sink_device W.Sink output.old output.new) result }
{
    match edit(alloc, bytes, edits) {
        Ok(edited) => match write_all(output, &edited) {
            Ok(()) => Ok(Ended::End),
            Err(_) => Err(ListError::Output),
        },
        Err(error) => match error.fault() {
            Fault::OutOfMemory => Err(ListError::Memory),
            _ => Ok(Ended::Fault(error)),
        },
    }
}

// Writes a stream with edits.
fn edit_original<S: System, W: Sink>(
    alloc: Global,
    edits: &[Edit<'_>],
    original: &Original<'_>,
    system: &S,
    output: &mut W,
) -> Result<Result<Ended, ListError>, Cause>
    requires { All CanBeMade edits.now }
    ensures { EditsOriginal S.System S.Input.Source system.now edits.now original.now
        (sink_device W.Sink output.old output.new) result }
{
    if let Some(bytes) = &original.held {
        return Ok(edit_held(alloc, edits, bytes, output));
    }
    let mut second = system.open(original.way.name)?;
    if original.is_checked {
        return Ok(edit_stream(alloc, edits, &mut second, output, PIECE));
    }
    let first = system.open(original.way.name)?;
    let mut files = Reopened { first, second };
    Ok(edit_twice(alloc, edits, &mut files, output))
}

// Flushes the output if all was written.
fn flushed<W: Write>(
    how: Result<Ended, ListError>,
    output: &mut WriteSink<W>,
) -> Result<Ended, ListError>
    ensures keeps { Keeps (W.contents output.old.writer) (W.contents output.new.writer) }
    ensures ends { FlushesAtEnd how (writer_device W.contents output.old output.new)
        output.new.forwarded result }
{
    match how {
        Ok(Ended::End) => match output.flush() {
            Ok(()) => Ok(Ended::End),
            Err(_) => Err(ListError::Output),
        },
        _ => how,
    }
}

/// Where a command reads a stream, and the file that it writes, if that isn't the output.
#[derive(Clone, Copy)]
pub(crate) struct Way<'a> {
    pub(crate) name: &'a str,
    pub(crate) target: Option<&'a str>,
}

/// Returns the way from a file to that of `--output`.
pub(crate) fn way_from<'a>(name: &'a str, arguments: &Arguments<'a>) -> Way<'a>
    ensures { route result ≡ route_from name.now (reads_of arguments.now) }
{
    Way {
        name,
        target: target_of(arguments),
    }
}

/// Returns the file of `--output`, none if that is the output.
pub(crate) fn target_of<'a>(arguments: &Arguments<'a>) -> Option<&'a str>
    ensures { text_if_any result ≡ target_in (reads_of arguments.now) }
{
    match arguments.last(Flag::Output) {
        Some(Some(target)) if target != "-" => Some(target),
        _ => None,
    }
}

impl<S: System, W: Write, E: Sink> Runner<S, W, E> {
    /// Returns the stream to change. One that can be read only once is read.
    pub(crate) fn find<'a>(&mut self, alloc: Global, way: Way<'a>) -> Result<Original<'a>, u8>
        ensures { Finds S.System S.Input.Source (route way.entry) result self.old self.new }
    {
        let held = if self.is_regular(way.name) {
            None
        } else {
            Some(self.hold(alloc, way.name)?)
        };
        Ok(Original {
            way,
            held,
            is_checked: false,
        })
    }

    /// Ends a run over a stream: says its fault, or why the run failed.
    pub(crate) fn end(&mut self, name: &str, how: Result<Ended, ListError>) -> Result<(), u8>
        ensures { EndsRun name.now how result self.old self.new }
    {
        match how {
            Ok(Ended::End) => Ok(()),
            Ok(Ended::Fault(error)) => Err(self.report_fault(name, &error)),
            Err(why) => Err(self.fail(name, why)),
        }
    }

    // Writes a stream with edits to the output.
    fn edit_output(
        &mut self,
        alloc: Global,
        edits: &[Edit<'_>],
        original: &Original<'_>,
    ) -> Result<(), u8>
        requires { All CanBeMade edits.now }
        ensures { EditsOut S.System S.Input.Source edits.now original.now
            result self.old self.new }
    {
        match edit_original(alloc, edits, original, &self.system, &mut self.output) {
            Ok(how) => {
                let how = flushed(how, &mut self.output);
                self.end(original.way.name, how)
            }
            Err(cause) => Err(self.refuse(original.way.name, cause)),
        }
    }

    // Writes a stream with edits to this file.
    fn edit_into(
        &self,
        alloc: Global,
        edits: &[Edit<'_>],
        original: &Original<'_>,
        output: &mut S::Output,
    ) -> Result<Result<Ended, ListError>, Cause>
        requires { All CanBeMade edits.now }
        ensures { EditsOriginal S.System S.Input.Source self.now.system edits.now
            original.now (sink_device S.Output.Sink output.old output.new) result }
    {
        edit_original(alloc, edits, original, &self.system, output)
    }

    // Ends a run that wrote a file.
    fn end_file(
        &mut self,
        name: &str,
        target: &str,
        edited: Result<Result<Ended, ListError>, Cause>,
    ) -> Result<(), u8>
        ensures { EndsFile name.now target.now edited result self.old self.new }
    {
        match edited {
            Ok(Err(ListError::Output)) => Err(self.fail_target(target)),
            Ok(how) => self.end(name, how),
            Err(cause) => Err(self.refuse(name, cause)),
        }
    }

    // Writes a stream with edits to a file, which is replaced once all of it is written.
    fn edit_target(
        &mut self,
        alloc: Global,
        edits: &[Edit<'_>],
        original: &Original<'_>,
        target: &str,
    ) -> Result<(), u8>
        requires { All CanBeMade edits.now }
        ensures { EditsTarget S.System S.Input.Source S.Output.Sink edits.now original.now
            target.now result self.old self.new }
    {
        let mut written = self.create(alloc, original.way.name, target)?;
        let edited = self.edit_into(alloc, edits, original, &mut written);
        let ended = self.end_file(original.way.name, target, edited);
        self.close(target, written, ended)
    }

    /// Writes a stream with edits to a file, or to the output.
    pub(crate) fn edit_to(
        &mut self,
        alloc: Global,
        edits: &[Edit<'_>],
        original: &Original<'_>,
    ) -> Result<(), u8>
        requires { All CanBeMade edits.now }
        ensures { EditsTo S.System S.Input.Source S.Output.Sink edits.now original.now
            result self.old self.new }
    {
        match original.way.target {
            Some(target) => self.edit_target(alloc, edits, original, target),
            None => self.edit_output(alloc, edits, original),
        }
    }

    /// Writes a file or standard input with edits to a file, or to the output.
    pub(crate) fn edit_file(
        &mut self,
        alloc: Global,
        edits: &[Edit<'_>],
        way: Way<'_>,
    ) -> Result<(), u8>
        requires { All CanBeMade edits.now }
        ensures { Changes S.System S.Input.Source S.Output.Sink edits.now (route way.entry)
            result self.old self.new }
    {
        let original = self.find(alloc, way)?;
        self.edit_to(alloc, edits, &original)
    }

    // Ends a run that wrote bytes to a file.
    fn end_target(&mut self, target: &str, is_complete: bool) -> Result<(), u8>
        ensures { EndsTarget target.now is_complete result self.old self.new }
    {
        if is_complete {
            return Ok(());
        }
        Err(self.fail_target(target))
    }

    // Replaces a file by what was written, if that ended well, and discards it otherwise.
    fn close(&mut self, target: &str, written: S::Output, ended: Result<(), u8>) -> Result<(), u8>
        ensures { Closes S.System target.now written (is_ok ended)
            ended result self.old self.new }
    {
        self.replace(target, written, ended.is_ok())?;
        ended
    }

    // Writes bytes that are in several parts to a file, which is replaced once all of them are written.
    fn write_target(
        &mut self,
        alloc: Global,
        parts: &[&[u8]],
        name: &str,
        target: &str,
    ) -> Result<(), u8>
        ensures { WritesFile S.System S.Output.Sink (joined parts.now)
            name.now target.now result self.old self.new }
    {
        let mut written = self.create(alloc, name, target)?;
        let is_complete = writes_all(&mut written, parts);
        let ended = self.end_target(target, is_complete);
        self.close(target, written, ended)
    }

    /// Writes bytes that are in several parts to a file, or to the output.
    pub(crate) fn write_to(
        &mut self,
        alloc: Global,
        parts: &[&[u8]],
        way: Way<'_>,
    ) -> Result<(), u8>
        ensures { WritesTo S.System S.Output.Sink (joined parts.now) (route way.entry)
            result self.old self.new }
    {
        match way.target {
            Some(target) => self.write_target(alloc, parts, way.name, target),
            None => self.write(parts),
        }
    }
}
