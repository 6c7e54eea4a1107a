// A run of a command: the system that it runs on, what it writes and what it says.
ghost use Rattle.std.specs.Prelude.{◌≡◌, Err, IfOk, codes, true};
ghost use Rattle.wasm_console.specs.Messages.{joined};
ghost use Rattle.wasm_commands.specs.ArgumentLists.{operands_in, values_in};
ghost use Rattle.wasm_commands.specs.Runs.{status_in};
ghost use Rattle.wasm_commands.specs.Messages.{complaint_text, fault_text, file_text, missing_text};
ghost use Rattle.wasm_commands.specs.Parsing.{AreTexts, reads_of, texts};
ghost use Rattle.wasm_commands.specs.Reasons.{reason_of};
ghost use Rattle.wasm_commands.specs.RewriteCommands.{TakesFile, TakesOnly};
ghost use Rattle.wasm_commands.specs.Rewrites.{Creates, Holds, Opens, Takes, WritesBytes, WritesOut, sink_device};
ghost use Rattle.wasm_io.specs.Calls.{writer_device};
ghost use Rattle.wasm_commands.specs.Runs.{Allocates, Allots, Fails, FailsToWrite, IsSound, Makes, Tells, run_of};
ghost use Rattle.wasm_edits.specs.Encoded.{Fits, encoded_section};
ghost use Rattle.wasm_base.specs.FaultAt.{fault_at};

use crate::arguments::Arguments;
use crate::messages::{
    self, Complaint, complain, refuse_file, refuse_run, refuse_target, stop_for_memory,
};
use crate::options::{Flag, Verb};
use crate::reasons::Cause;
use crate::system::System;
use std::alloc::{AllocError, Global};
use std::io::Write;
use std::marker::Model;
use wasm_base::{Error, Result as BaseResult};
use wasm_console::{read_all, write_parts};
use wasm_edits::{NewSection, encode};
use wasm_io::{ListError, Sink, WriteSink};

/// Writes bytes that are in several parts. Returns whether the device took all of them.
pub(crate) fn writes_all<W: Sink>(output: &mut W, parts: &[&[u8]]) -> bool
    ensures { WritesBytes (joined parts.now)
        (sink_device W.Sink output.old output.new) result }
{
    match write_parts(output, parts) {
        Ok(()) => true,
        Err(_) => false,
    }
}

// Writes bytes to the output and flushes it. Returns whether that succeeded.
fn forwards_all<W: Write>(output: &mut WriteSink<W>, parts: &[&[u8]]) -> bool
    ensures writes { WritesBytes (joined parts.now)
        (writer_device W.contents output.old output.new) result }
    ensures all { result ≡ true → output.new.forwarded ≡ true }
{
    if !writes_all(output, parts) {
        return false;
    }
    match output.flush() {
        Ok(()) => true,
        Err(_) => false,
    }
}

/// A run over a system and its devices.
///
/// A call that fails says why, and its error is the exit status with which the command stops. So the steps of a command
/// stand in a row, with `?` between them.
pub struct Runner<S: System, W: Write, E: Sink> {
    pub(crate) system: S,
    pub(crate) output: WriteSink<W>,
    pub(crate) errors: E,
}

impl<S: System, W: Write, E: Sink> Model for Runner<S, W, E> {
    ghost use Rattle.wasm_commands.specs.Runs.{Run, run_of};

    ghost Value = { Run S };

    ghost view = { λ r. run_of W.contents E.taken E.has_failed r.system r.output r.errors };
}

impl<S: System, W: Write, E: Sink> Runner<S, W, E> {
    /// Returns a run that has done nothing.
    pub fn new(system: S, output: WriteSink<W>, errors: E) -> Self
        ensures { result ≡ run_of W.contents E.taken E.has_failed system output errors }
    {
        Runner {
            system,
            output,
            errors,
        }
    }

    /// Returns the system and the devices after the run.
    pub fn into_parts(self) -> (S, WriteSink<W>, E)
        ensures { self ≡ run_of W.contents E.taken E.has_failed result.0 result.1 result.2 }
    {
        let Runner {
            system,
            output,
            errors,
        } = self;
        (system, output, errors)
    }

    /// Opens a file, or standard input if its name is `-`.
    pub(crate) fn open(&mut self, name: &str) -> Result<S::Input, u8>
        ensures { Opens S.System name.now result self.old self.new }
    {
        match self.system.open(name) {
            Ok(input) => Ok(input),
            Err(cause) => Err(self.refuse(name, cause)),
        }
    }

    /// Returns whether a file can be read twice.
    pub(crate) fn is_regular(&self, name: &str) -> bool
        ensures { S.rereads self.now.system name.now result }
    {
        self.system.is_regular(name)
    }

    /// Returns the values of an option.
    pub(crate) fn values<'a>(
        &mut self,
        alloc: Global,
        arguments: &Arguments<'a>,
        flag: Flag,
    ) -> Result<Vec<&'a str>, u8>
        ensures { Makes (AreTexts (values_in flag (reads_of arguments.now)))
            result self.old self.new }
    {
        self.allocated(arguments.values(alloc, flag))
    }

    /// Returns the operands of a command.
    pub(crate) fn operands<'a>(
        &mut self,
        alloc: Global,
        arguments: &Arguments<'a>,
    ) -> Result<Vec<&'a str>, u8>
        ensures { Makes (AreTexts (operands_in (reads_of arguments.now)))
            result self.old self.new }
    {
        self.allocated(arguments.operands(alloc))
    }

    /// Returns the file that is the only operand of a command: standard input if there is none.
    pub(crate) fn file_of<'a>(
        &mut self,
        alloc: Global,
        verb: Verb,
        arguments: &Arguments<'a>,
    ) -> Result<&'a str, u8>
        ensures { TakesFile verb (operands_in (reads_of arguments.now)) result self.old self.new }
    {
        let operands = self.operands(alloc, arguments)?;
        self.only_of(verb, &operands)
    }

    // Returns the only operand, or standard input if there is none.
    fn only_of<'a>(&mut self, verb: Verb, operands: &[&'a str]) -> Result<&'a str, u8>
        ensures { TakesOnly verb (texts operands.now) result self.old self.new }
    {
        match operands {
            [] => Ok("-"),
            [name] => Ok(name),
            [_, extra, ..] => Err(self.complain(Complaint::Extra(verb, extra))),
        }
    }

    /// Reads a file into memory.
    pub(crate) fn hold(&mut self, alloc: Global, name: &str) -> Result<Vec<u8>, u8>
        ensures { Holds S.System S.Input.Source name.now result self.old self.new }
    {
        let mut input = self.open(name)?;
        match read_all(alloc, &mut input) {
            Ok(bytes) => Ok(bytes),
            Err(why) => Err(self.fail(name, why)),
        }
    }

    /// Begins a file that is to replace `target`, with the permissions of `target` or `input`.
    pub(crate) fn create(
        &mut self,
        alloc: Global,
        input: &str,
        target: &str,
    ) -> Result<S::Output, u8>
        ensures { Creates S.System input.now target.now result self.old self.new }
    {
        match self.system.create(alloc, input, target) {
            Ok(output) => Ok(output),
            Err(cause) => Err(self.refuse(target, cause)),
        }
    }

    /// Replaces a file by what was written, if that is complete, and discards it otherwise.
    pub(crate) fn replace(
        &mut self,
        target: &str,
        written: S::Output,
        is_complete: bool,
    ) -> Result<(), u8>
        ensures { Takes S.System target.now written is_complete
            result self.old self.new }
    {
        match self.system.replace(written, is_complete) {
            Ok(()) => Ok(()),
            Err(cause) => Err(self.refuse(target, cause)),
        }
    }

    /// Says why a file can't be opened, read or written. Returns the exit status 3.
    pub(crate) fn refuse(&mut self, name: &str, cause: Cause) -> u8
        ensures status { result ≡ 3 }
        ensures tells { Tells (file_text name.now (reason_of cause)) self.old self.new }
    {
        refuse_file(name, cause, &mut self.errors)
    }

    /// Says that memory ran out. Returns the exit status 3.
    pub(crate) fn out_of_memory(&mut self) -> u8
        ensures status { result ≡ 3 }
        ensures tells { Tells (codes "pulleynavy: out of memory\n") self.old self.new }
    {
        stop_for_memory(&mut self.errors)
    }

    /// Returns whether the output is a terminal.
    pub(crate) fn is_terminal(&self) -> bool
        ensures { S.shows self.now.system result }
    {
        self.system.is_terminal()
    }

    /// Shows from now on no progress of large files.
    pub(crate) fn hide_progress(&self) {
        self.system.hide_progress();
    }

    /// Returns what was allocated. Says it if memory ran out.
    pub(crate) fn allocated<T>(&mut self, made: Result<T, AllocError>) -> Result<T, u8>
        ensures { Allocates made result self.old self.new }
    {
        match made {
            Ok(value) => Ok(value),
            Err(_) => Err(self.out_of_memory()),
        }
    }

    /// Returns the bytes of a custom section.
    pub(crate) fn encoded(&mut self, alloc: Global, new: NewSection<'_>) -> Result<Vec<u8>, u8>
        requires { Fits new }
        ensures encodes { IfOk result (λ section. section.items ≡ encoded_section new.entry) }
        ensures allots { Allots result self.old self.new }
    {
        match encode(alloc, new) {
            Ok(section) => Ok(section),
            Err(_) => Err(self.out_of_memory()),
        }
    }

    /// Returns what was read of a file. Says its fault, if it has one.
    pub(crate) fn sound<T>(&mut self, name: &str, read: BaseResult<T>) -> Result<T, u8>
        ensures { IsSound name.now read result self.old self.new }
    {
        match read {
            Ok(value) => Ok(value),
            Err(error) => Err(self.report_fault(name, &error)),
        }
    }

    /// Says the fault of a file. Returns the exit status 1.
    pub(crate) fn report_fault(&mut self, name: &str, error: &Error) -> u8
        ensures status { result ≡ 1 }
        ensures tells { Tells (fault_text name.now (fault_at error.now)) self.old self.new }
    {
        messages::report_fault(name, error, &mut self.errors)
    }

    /// Says what is wrong with the arguments. Returns the exit status 2.
    pub(crate) fn complain(&mut self, complaint: Complaint<'_>) -> u8
        ensures status { result ≡ 2 }
        ensures tells { Tells (complaint_text complaint.entry) self.old self.new }
    {
        complain(complaint, &mut self.errors)
    }

    /// Says why reading a file, the output or an allocation failed. Returns the exit status 3.
    pub(crate) fn fail(&mut self, name: &str, why: ListError) -> u8
        ensures { Fails {A = Unit {0}} name.now why (Err result) self.old self.new }
    {
        refuse_run(name, why, self.system.causes(), &mut self.errors)
    }

    /// Says why a file could not be written. Returns the exit status 3.
    pub(crate) fn fail_target(&mut self, target: &str) -> u8
        ensures { FailsToWrite {A = Unit {0}} target.now (Err result) self.old self.new }
    {
        refuse_target(target, self.system.causes(), &mut self.errors)
    }

    /// Says that a file has no section with this name. Returns the exit status 1.
    pub(crate) fn miss(&mut self, verb: Verb, name: &str, word: &str) -> u8
        ensures status { result ≡ 1 }
        ensures tells { Tells (missing_text verb name.now word.now) self.old self.new }
    {
        messages::warn_of_missing(verb, name, word, &mut self.errors);
        1
    }

    /// Writes bytes that are in several parts to the output, and flushes it.
    pub(crate) fn write(&mut self, parts: &[&[u8]]) -> Result<(), u8>
        ensures { WritesOut (joined parts.now) result self.old self.new }
    {
        if forwards_all(&mut self.output, parts) {
            return Ok(());
        }
        Err(self.fail("-", ListError::Output))
    }
}

/// Returns the exit status of a command: 0 unless it has stopped.
pub(crate) fn status_of(ended: Result<(), u8>) -> u8
    ensures { result ≡ status_in ended }
{
    match ended {
        Ok(()) => 0,
        Err(status) => status,
    }
}

/// Returns how a command ends that has this exit status.
pub(crate) fn ended(status: u8) -> Result<(), u8>
    ensures { status_in result ≡ status }
{
    if status == 0 { Ok(()) } else { Err(status) }
}
