// Runs the program over any devices.
ghost use Rattle.std.specs.Prelude.{◌≡◌, map, string_bytes};
ghost use Rattle.std.specs.Process.{exit_status};
ghost use Rattle.std.specs.Vec.Iter.{into_iter_items};
ghost use Rattle.wasm_console.specs.Arguments.{WantsMemory};
ghost use Rattle.wasm_console.specs.Strips.{AnswersAs};
ghost use Rattle.wasm_list.specs.ListCommands.{asked_by, asked_if_any, asked_of};
ghost use Rattle.wasm_list.specs.ListRuns.{Runs, RunsGivenList, RunsListing, RunsListProgram, RunsStripping, RunsWhole};
ghost use Rattle.wasm_io.specs.Calls.{device_of, writer_device};

use crate::command::{Command, command_of};
use std::alloc::Global;
use std::env::Args;
use std::io::{self, Write};
use std::process::ExitCode;
use wasm_console::{Given, PIECE, finish, report_fault, strip_input, words_given};
use wasm_edits::Keep;
use wasm_io::{ListError, Sink, Source, WriteSink, complain, give_up};
use wasm_lines::list;
use wasm_streams::Ended;

/// Runs `wasm_list` with arguments as the system has them, flushes the output, and returns the exit status.
///
/// `arguments` begin with the name of the program, which is skipped. One that is not valid UTF-8 is a wrong argument.
/// The statuses are those of `run`.
///
/// # Errors
///
/// If the arguments can't be fetched or stored, it writes `out of memory` to `errors` and returns 3.
pub(crate) fn run_program<R: Source, W: Write, E: Sink>(
    alloc: Global,
    arguments: io::Result<Args>,
    input: &mut R,
    output: &mut WriteSink<W>,
    errors: &mut E,
) -> ExitCode
    // Proved: `run_program` is the whole program over any devices: which bytes it reads and writes,
    //   what it prints, and its status, for all arguments; `main` only passes it the arguments and
    //   the standard streams
    ensures { RunsListProgram (asked_if_any (λ args. map string_bytes (into_iter_items args)) arguments)
        (WantsMemory (λ args. map string_bytes (into_iter_items args)) arguments)
        output.new.forwarded
        (device_of R.remaining R.has_failed input.old input.new)
        (writer_device W.contents output.old output.new)
        (device_of E.taken E.has_failed errors.old errors.new) (exit_status result) }
{
    run_given(alloc, words_given(alloc, arguments), input, output, errors)
}

// Runs `wasm_list` with these arguments, flushes the output, and returns the exit status.
fn run_given<R: Source, W: Write, E: Sink>(
    alloc: Global,
    given: Given,
    input: &mut R,
    output: &mut WriteSink<W>,
    errors: &mut E,
) -> ExitCode
    ensures { RunsGivenList given output.new.forwarded
        (device_of R.remaining R.has_failed input.old input.new)
        (writer_device W.contents output.old output.new)
        (device_of E.taken E.has_failed errors.old errors.new) (exit_status result) }
{
    match given {
        Given::Words(words) => run_whole(alloc, command_of(&words), input, output, errors),
        Given::NotUtf8 => run_whole(alloc, Command::Unknown, input, output, errors),
        Given::Nothing => ExitCode::from(give_up(errors, ListError::Memory)),
    }
}

// Runs a command, flushes the output, and returns the exit status.
fn run_whole<R: Source, W: Write, E: Sink>(
    alloc: Global,
    command: Command,
    input: &mut R,
    output: &mut WriteSink<W>,
    errors: &mut E,
) -> ExitCode
    ensures { RunsWhole (asked_of command) output.new.forwarded
        (device_of R.remaining R.has_failed input.old input.new)
        (writer_device W.contents output.old output.new)
        (device_of E.taken E.has_failed errors.old errors.new) (exit_status result) }
{
    let status = run_command(alloc, command, input, output, errors);
    ExitCode::from(finish(status, output, errors))
}

/// Runs `wasm_list` with these arguments, and returns its exit status.
///
/// Without arguments it lists the input, as `wasm_lines::list` does. With the one argument `strip` it reads all of the
/// input and writes it without its custom sections.
///
/// # Errors
///
/// * 1 at a fault of the stream. A listing ends with the fault. With `strip`, the fault is written to `errors`, and
///   nothing to the output.
/// * 2 for other arguments. The usage is written to `errors`.
/// * 3 if the input, the output or an allocation failed. The reason is written to `errors`.
///
/// Whether `errors` takes the message does not change the status.
pub fn run<R: Source, W: Sink, E: Sink>(
    alloc: Global,
    args: &[String],
    input: &mut R,
    output: &mut W,
    errors: &mut E,
) -> u8
    // Proved: `run` without arguments lists, and returns 0, 1 or 3 as the listing ended
    //   [the clause of `run` (`Runs`: `RunsListing`)]
    // Proved: `run` with the argument `strip` strips; at a fault it returns 1 and prints the fault's
    //   text, and if a device or an allocation failed it returns 3 and says why
    //   [the clause of `run` (`Runs`: `RunsStripping`)]
    // Proved: `run` with any other arguments returns 2, prints its usage, and touches neither input
    //   nor output [the clause of `run` (`Runs`: `RunsUsage`)]
    ensures { Runs (asked_by (map string_bytes args.now))
        (device_of R.remaining R.has_failed input.old input.new)
        (device_of W.taken W.has_failed output.old output.new)
        (device_of E.taken E.has_failed errors.old errors.new) result }
{
    run_command(alloc, command_of(args), input, output, errors)
}

// Runs a command. Returns the exit status of `run`.
fn run_command<R: Source, W: Sink, E: Sink>(
    alloc: Global,
    command: Command,
    input: &mut R,
    output: &mut W,
    errors: &mut E,
) -> u8
    ensures { Runs (asked_of command)
        (device_of R.remaining R.has_failed input.old input.new)
        (device_of W.taken W.has_failed output.old output.new)
        (device_of E.taken E.has_failed errors.old errors.new) result }
{
    match command {
        Command::Listing => list_all(alloc, input, output, errors),
        Command::Stripping => strip_all(alloc, input, output, errors),
        Command::Unknown => {
            complain(errors, b"usage: wasm_list [strip]\n");
            2
        }
    }
}

// Lists the input. Returns the status.
fn list_all<R: Source, W: Sink, E: Sink>(
    alloc: Global,
    input: &mut R,
    output: &mut W,
    errors: &mut E,
) -> u8
    ensures { RunsListing
        (device_of R.remaining R.has_failed input.old input.new)
        (device_of W.taken W.has_failed output.old output.new)
        (device_of E.taken E.has_failed errors.old errors.new) result }
{
    match list(alloc, input, output, PIECE) {
        Ok(Ended::End) => 0,
        Ok(Ended::Fault(_)) => 1,
        Err(error) => give_up(errors, error),
    }
}

// Returns the exit status after stripping. Writes the fault of the stream, or why it failed, to `errors`.
fn answer<E: Sink>(alloc: Global, how: Result<Ended, ListError>, errors: &mut E) -> u8
    ensures { AnswersAs how (device_of E.taken E.has_failed errors.old errors.new) result }
{
    match how {
        Ok(Ended::End) => 0,
        Ok(Ended::Fault(error)) => report_fault(alloc, error, errors),
        Err(why) => give_up(errors, why),
    }
}

// Strips the input of all its custom sections. Returns the status.
fn strip_all<R: Source, W: Sink, E: Sink>(
    alloc: Global,
    input: &mut R,
    output: &mut W,
    errors: &mut E,
) -> u8
    ensures { RunsStripping
        (device_of R.remaining R.has_failed input.old input.new)
        (device_of W.taken W.has_failed output.old output.new)
        (device_of E.taken E.has_failed errors.old errors.new) result }
{
    let how = strip_input(alloc, Keep::names(false), input, output);
    answer(alloc, how, errors)
}
