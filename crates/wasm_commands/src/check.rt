// The command `check`: reads every item of files, and reports the malformed ones.
ghost use Rattle.std.specs.Prelude.{◌≡◌, true, IfOk, Ok};
ghost use Rattle.wasm_show.specs.Noted.{found_by};
ghost use Rattle.std.specs.Io.KnownBytes.{Keeps};
ghost use Rattle.std.specs.String.{string_bytes};
ghost use Rattle.wasm_commands.specs.Checks.{ChecksFile, ChecksInput, ChecksOpened, EndsCheck, ReadsInput, prefix_text};
ghost use Rattle.wasm_commands.specs.Parsing.{reads_of};
ghost use Rattle.wasm_commands.specs.Commands.{Checks};
ghost use Rattle.wasm_io.specs.Calls.{from_to};

use crate::arguments::Arguments;
use crate::files::{Task, use_files};
use crate::messages::shown_name;
use crate::options::Flag;
use crate::runner::Runner;
use crate::system::System;
use std::alloc::{AllocError, Global};
use std::io::Write;
use wasm_console::PIECE;
use wasm_dumper::walk;
use wasm_io::{ListError, Sink, Source, WriteSink};
use wasm_show::{Faults, Walker};

// Returns what comes before each fault of a file: its name and a colon.
fn prefix_of(alloc: Global, name: &str) -> Result<String, AllocError>
    ensures { IfOk result (λ prefix. string_bytes prefix ≡ prefix_text name.now) }
{
    format!(in alloc; "{}: ", shown_name(name))
}

// Flushes the output if the check did not fail.
fn flushed<W: Write>(
    checked: Result<bool, ListError>,
    output: &mut WriteSink<W>,
) -> Result<bool, ListError>
    ensures found { IfOk result (λ found. checked ≡ Ok found) }
    ensures bytes { Keeps (W.contents output.old.writer) (W.contents output.new.writer) }
    ensures forwards { IfOk result (λ found. output.new.forwarded ≡ true) }
{
    match checked {
        Ok(found) => match output.flush() {
            Ok(()) => Ok(found),
            Err(_) => Err(ListError::Output),
        },
        Err(why) => Err(why),
    }
}

// Walks over an input and each item in it. Returns whether there was a fault.
fn find_faults<R: Source, W: Sink>(
    alloc: Global,
    input: &mut R,
    faults: &mut Faults<W>,
) -> Result<bool, ListError>
    ensures { ReadsInput (from_to (R.remaining input.old) (R.remaining input.new))
        (found_by faults.old) (found_by faults.new) result }
{
    let walked = walk(alloc, input, faults, PIECE);
    // What was found before a source failed is written too.
    faults.write_out();
    walked?;
    match faults.why_stopped() {
        None => Ok(faults.has_faults()),
        Some(why) => Err(why),
    }
}

/// Reads an input and each item in it, and writes a line that begins with `prefix` for each fault, unless `is_quiet`.
/// Returns whether there was one, and the output.
///
/// # Errors
///
/// Those of `wasm_dumper::walk`, and `Output` if flushing fails.
///
/// ```rattle
/// // An export section whose name ends too early.
/// let mut input = SliceSource::new(b"\0asm\x01\0\0\0\x07\x03\x01\x05f");
/// let mut text = Vec::new(alloc);
/// let output = WriteSink::new(&mut text);
/// let (found, _) = check_as(alloc, String::from_str(alloc, "a: ")?, false, &mut input, output);
/// assert_eq!(rt; found, Ok(true));
/// assert_eq!(rt; text.as_slice(), b"a: 0xc: unexpected end-of-file, in section export\n".as_slice());
/// ```
pub fn check_as<R: Source, W: Write>(
    alloc: Global,
    prefix: String,
    is_quiet: bool,
    input: &mut R,
    output: WriteSink<W>,
) -> (Result<bool, ListError>, WriteSink<W>)
    // Proved: `check_as` returns whether there is a fault: none exactly if the stream is accepted,
    //   each section of a known kind is read to its end without a fault by the meaning of its items,
    //   their lists and subsections, and so is each custom section with a known name, whose reader
    //   accepts its data
    //   [its clause (`ChecksInput`: `SeenOf`, `any_fault`)]
    // Proved: if `check_as` ends at the end or the fault of the stream, it has written these lines and no others, in
    //   order: of the first malformed item of each list, each refused subsection and name that is out of order, and the
    //   fault of the stream, each with its offset, message, number and section; and a warning of each section with an
    //   unknown id. A quiet check writes none [the same (`ChecksWhole`: `lines_of`, `events_seen`)]
    // Proved: if the input, the output or an allocation fails, it has written a beginning of the lines of what the first
    //   events of the stream have [the same (`ChecksFirst`)]
    ensures checks { ChecksInput (string_bytes prefix) is_quiet
        (from_to (R.remaining input.old) (R.remaining input.new))
        (from_to (W.contents output.writer) (W.contents result.1.writer)) result.0 }
    ensures forwards { IfOk result.0 (λ found. result.1.forwarded ≡ true) }
{
    let mut faults = Faults::new(alloc, output, prefix, is_quiet);
    let found = find_faults(alloc, input, &mut faults);
    let mut output = faults.into_output();
    (flushed(found, &mut output), output)
}

impl<S: System, W: Write, E: Sink> Runner<S, W, E> {
    // Ends a command after a check, which has said the faults.
    fn end_check(&mut self, name: &str, found: Result<bool, ListError>) -> Result<(), u8>
        ensures { EndsCheck name.now found result self.old self.new }
    {
        match found {
            Ok(false) => Ok(()),
            Ok(true) => Err(1),
            Err(why) => Err(self.fail(name, why)),
        }
    }
}

// Checks an input. Returns how the command ends, and the run.
fn check_input<S: System, W: Write, E: Sink>(
    alloc: Global,
    is_quiet: bool,
    name: &str,
    begun: (String, S::Input),
    runner: Runner<S, W, E>,
) -> (Result<(), u8>, Runner<S, W, E>)
    requires { string_bytes begun.0 ≡ prefix_text name.now }
    ensures { ChecksOpened S.Input.Source is_quiet name.now begun.1
        result.0 runner result.1 }
{
    let (prefix, mut input) = begun;
    let (system, output, errors) = runner.into_parts();
    let (found, output) = check_as(alloc, prefix, is_quiet, &mut input, output);
    let mut runner = Runner::new(system, output, errors);
    (runner.end_check(name, found), runner)
}

/// Checks a file or standard input. Returns how the command ends, and the run.
pub(crate) fn check_file<S: System, W: Write, E: Sink>(
    alloc: Global,
    is_quiet: bool,
    name: &str,
    mut runner: Runner<S, W, E>,
) -> (Result<(), u8>, Runner<S, W, E>)
    ensures { ChecksFile S.System S.Input.Source is_quiet name.now
        result.0 runner result.1 }
{
    let prefix = match runner.allocated(prefix_of(alloc, name)) {
        Ok(prefix) => prefix,
        Err(status) => return (Err(status), runner),
    };
    match runner.open(name) {
        Ok(input) => check_input(alloc, is_quiet, name, (prefix, input), runner),
        Err(status) => (Err(status), runner),
    }
}

/// Runs `check`, which stops with the exit status 1 if there is a fault in any file. Returns how it ended, and the run.
pub(crate) fn check<S: System, W: Write, E: Sink>(
    alloc: Global,
    arguments: &Arguments<'_>,
    mut runner: Runner<S, W, E>,
) -> (Result<(), u8>, Runner<S, W, E>)
    ensures { Checks S.System S.Input.Source (reads_of arguments.now)
        result.0 runner result.1 }
{
    let task = Task::Check(arguments.has(Flag::Quiet));
    match runner.operands(alloc, arguments) {
        Ok(operands) => use_files(alloc, task, operands.as_slice(), runner),
        Err(status) => (Err(status), runner),
    }
}
