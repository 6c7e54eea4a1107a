// The program: its first word is a command, which reads the other words.
ghost use Rattle.std.specs.Prelude.{◌≡◌};
ghost use Rattle.std.specs.Process.{exit_status};
ghost use Rattle.wasm_commands.specs.Commands.{Exits, PrintsHelp, RunsCommand, RunsGiven, RunsNamed, RunsOther, RunsParsed, RunsProgram, RunsWords};
ghost use Rattle.wasm_commands.specs.Messages.{complaint_text};
ghost use Rattle.wasm_commands.specs.Parsing.{reads_of, strings};
ghost use Rattle.wasm_commands.specs.Refusals.{unknown_text};
ghost use Rattle.wasm_commands.specs.Rewrites.{WritesOut};
ghost use Rattle.wasm_commands.specs.Runs.{Stops};

use crate::add::add;
use crate::arguments::{Arguments, is_option, parse};
use crate::check::check;
use crate::dump::show;
use crate::extract::extract;
use crate::help::{Topic, help_of, version};
use crate::host::Host;
use crate::messages::Complaint;
use crate::options::{Flag, Verb, verb_of};
use crate::producers::producers;
use crate::runner::{Runner, status_of};
use crate::streams::{Messages, Noting};
use crate::strip::strip;
use crate::system::System;
use std::alloc::Global;
use std::cell::Cell;
use std::env::{self, Args};
use std::io::{self, Write};
use std::process::ExitCode;
use wasm_console::{Given, words_given};
use wasm_io::{Sink, WriteSink};

// Runs a command with its parsed arguments, which ask for no help. Returns how it ended, and the run.
fn run_command<S: System, W: Write, E: Sink>(
    alloc: Global,
    verb: Verb,
    args: &Arguments<'_>,
    mut runner: Runner<S, W, E>,
) -> (Result<(), u8>, Runner<S, W, E>)
    ensures { RunsCommand S.System S.Input.Source S.Output.Sink verb (reads_of args.now)
        result.0 runner result.1 }
{
    let ended = match verb {
        Verb::List | Verb::Dump => return show(alloc, verb, args, runner),
        Verb::Check => return check(alloc, args, runner),
        Verb::Producers => return producers(alloc, args, runner),
        Verb::Add => return add(alloc, args, runner),
        Verb::Strip => strip(alloc, args, &mut runner),
        Verb::Extract => extract(alloc, args, &mut runner),
    };
    (ended, runner)
}

// Prints a text. Returns how it ended, and the run.
fn print<S: System, W: Write, E: Sink>(
    text: &[u8],
    mut runner: Runner<S, W, E>,
) -> (Result<(), u8>, Runner<S, W, E>)
    ensures { WritesOut text.now result.0 runner result.1 }
{
    let ended = runner.write(&[text]);
    (ended, runner)
}

// Says what is wrong with the arguments. Returns how it ended, and the run.
fn refuse<S: System, W: Write, E: Sink>(
    complaint: Complaint<'_>,
    mut runner: Runner<S, W, E>,
) -> (Result<(), u8>, Runner<S, W, E>)
    ensures { Stops 2 (complaint_text complaint.entry) result.0 runner result.1 }
{
    (Err(runner.complain(complaint)), runner)
}

// Runs a command with its parsed arguments. Returns how it ended, and the run.
fn run_parsed<S: System, W: Write, E: Sink>(
    alloc: Global,
    verb: Verb,
    args: &Arguments<'_>,
    runner: Runner<S, W, E>,
) -> (Result<(), u8>, Runner<S, W, E>)
    ensures { RunsParsed S.System S.Input.Source S.Output.Sink verb (reads_of args.now)
        result.0 runner result.1 }
{
    if args.has(Flag::Help) {
        return print(help_of(Topic::Command(verb)), runner);
    }
    if args.has(Flag::Version) {
        return print(version(), runner);
    }
    if args.has(Flag::NoProgress) {
        runner.hide_progress();
    }
    run_command(alloc, verb, args, runner)
}

// Runs a command with these arguments. Returns how it ended, and the run.
fn run_verb<S: System, W: Write, E: Sink>(
    alloc: Global,
    verb: Verb,
    words: &[String],
    mut runner: Runner<S, W, E>,
) -> (Result<(), u8>, Runner<S, W, E>)
    ensures { RunsNamed S.System S.Input.Source S.Output.Sink verb (strings words.now)
        result.0 runner result.1 }
{
    match runner.allocated(parse(alloc, verb, words)) {
        Ok(Ok(arguments)) => run_parsed(alloc, verb, &arguments, runner),
        Ok(Err(refusal)) => refuse(Complaint::Argument(verb, refusal), runner),
        Err(status) => (Err(status), runner),
    }
}

// Runs `help`, with the words after it. Returns how it ended, and the run.
fn run_help<S: System, W: Write, E: Sink>(
    words: &[String],
    runner: Runner<S, W, E>,
) -> (Result<(), u8>, Runner<S, W, E>)
    ensures { PrintsHelp (strings words.now) result.0 runner result.1 }
{
    let [word, ..] = words else {
        return print(help_of(Topic::Program), runner);
    };
    match verb_of(word.as_str()) {
        Some(verb) => print(help_of(Topic::Command(verb)), runner),
        None => refuse(Complaint::UnknownCommand(word.as_str()), runner),
    }
}

// What is wrong with a first word that is neither a command nor an option of the program.
fn unknown<'a>(word: &'a str) -> Complaint<'a>
    ensures { complaint_text result ≡ unknown_text word.now }
{
    if is_option(word) {
        Complaint::UnknownOption(word)
    } else {
        Complaint::UnknownCommand(word)
    }
}

// Runs the program with a first word that is not a command. Returns how it ended, and the run.
fn run_other<S: System, W: Write, E: Sink>(
    word: &str,
    more: &[String],
    runner: Runner<S, W, E>,
) -> (Result<(), u8>, Runner<S, W, E>)
    ensures { RunsOther word.now (strings more.now) result.0 runner result.1 }
{
    match word {
        "help" | "--help" | "-h" => run_help(more, runner),
        "--version" | "-V" => print(version(), runner),
        _ => refuse(unknown(word), runner),
    }
}

// Runs the program with these arguments. Returns how it ended, and the run.
fn run_words<S: System, W: Write, E: Sink>(
    alloc: Global,
    words: &[String],
    runner: Runner<S, W, E>,
) -> (Result<(), u8>, Runner<S, W, E>)
    ensures { RunsWords S.System S.Input.Source S.Output.Sink (strings words.now)
        result.0 runner result.1 }
{
    let [word, more @ ..] = words else {
        return refuse(Complaint::NoCommand, runner);
    };
    match verb_of(word.as_str()) {
        Some(verb) => run_verb(alloc, verb, more, runner),
        None => run_other(word.as_str(), more, runner),
    }
}

/// Runs the program with these arguments, without the name of the program. Returns its exit status, and the run.
///
/// # Errors
///
/// * 1 at a fault of a stream, or where `check` finds a malformed item, or where `--section` chooses nothing.
/// * 2 for wrong arguments. The reason is said.
/// * 3 if a file, a device or an allocation failed. The reason is said.
///
/// Whether the messages are taken does not change the status.
pub fn run<S: System, W: Write, E: Sink>(
    alloc: Global,
    words: &[String],
    runner: Runner<S, W, E>,
) -> (u8, Runner<S, W, E>)
    // Proved: arguments that are wrong before anything is read give the status 2 and the message that names the first
    //   wrong one: no command, an unknown one, an unknown option, an option without its value, or with a value that it
    //   does not take. If memory runs out before, the status is 3, and the message says so [the clause of `run`
    //   (`RunsWords`, `Stops`)]
    // Proved: `check` opens each file that it is asked for in turn, as the system allows, and its status is the greatest:
    //   0 for a file without a fault, 1 for one with a fault, and 3 with a message for one that could not be opened or
    //   read [the clause of `run` (`RunsWords`, `InTurn`, `ChecksFile`)]
    // Proved: where `help`, `--help` or `--version` asks for a text, a text is written and forwarded, and the status is 0,
    //   or the output fails, and the status is 3 with its reason [the clause of `run` (`RunsWords`, `WritesOut`)]
    // Proved: what `check`, `list` and `dump` wrote of a file was forwarded if its status is 0 or 1, and they change no
    //   file [the clause of `run` (`RunsWords`: `ChecksOpened`, `DumpsInput`, `OnlyWrites`)]
    // Proved: `strip`, `extract`, `add` and `producers` do what is said of them above [the clause of `run` (`RunsWords`,
    //   `RunsCommand`)]
    // Proved: which files are created, replaced and discarded, and in which order: a body that replaces another file, or
    //   one twice, is refused [the clause of `run` (`Creates`, `Takes`: `creates` and `replaces` of `System`)]
    // Proved: `list` and `dump` open each file in turn, twice for names, and write what is asked for in the format that is
    //   asked for, as lines each under its name if there are several. The status is the greatest: 0 for a file that was read to its
    //   end, 1 at its fault or with a message for each word that chose nothing, and 3 with the system's reason if something
    //   failed [the clause of `run` (`RunsWords`, `InTurn`, `ShowsFile`)]
    ensures { Exits (RunsWords S.System S.Input.Source S.Output.Sink (strings words.now))
        result.0 runner result.1 }
{
    let (ended, runner) = run_words(alloc, words, runner);
    (status_of(ended), runner)
}

// Runs the program with what was stored of its arguments. Returns how it ended, and the run.
fn run_given<S: System, W: Write, E: Sink>(
    alloc: Global,
    given: Given,
    mut runner: Runner<S, W, E>,
) -> (Result<(), u8>, Runner<S, W, E>)
    ensures { RunsGiven S.System S.Input.Source S.Output.Sink given result.0 runner result.1 }
{
    match given {
        Given::Words(words) => run_words(alloc, &words, runner),
        Given::NotUtf8 => refuse(Complaint::NotUtf8, runner),
        Given::Nothing => (Err(runner.out_of_memory()), runner),
    }
}

/// Runs the program with arguments as the system has them, and returns its exit status and the run.
///
/// `arguments` begin with the name of the program, which is skipped. One that is not valid UTF-8 is a wrong argument.
/// The statuses are those of `run`.
///
/// # Errors
///
/// If the arguments can't be fetched or stored, it says `out of memory` and returns 3.
pub fn run_program<S: System, W: Write, E: Sink>(
    alloc: Global,
    arguments: io::Result<Args>,
    runner: Runner<S, W, E>,
) -> (ExitCode, Runner<S, W, E>)
    // Proved: `run_program` is the whole program over any system and devices: it runs the words after the program's
    //   name, refuses arguments that are not valid UTF-8, or says that memory ran out; `main` only passes it the
    //   arguments, the files and the standard streams [its clause (`RunsProgram`)]
    ensures { RunsProgram S.System S.Input.Source S.Output.Sink arguments (exit_status result.0)
        runner result.1 }
{
    let given = words_given(alloc, arguments);
    let (ended, runner) = run_given(alloc, given, runner);
    (ExitCode::from(status_of(ended)), runner)
}

/// Runs the program over the files and streams of the system, and returns its exit status.
///
/// It prints no message if the reader of its output has closed the pipe.
pub fn run_host(rt: HostRuntime) -> ExitCode {
    let (input_failure, output_failure) = (Cell::new(None), Cell::new(None));
    let has_progress = Cell::new(true);
    let output = WriteSink::new(Noting::new(rt.stdout(), &output_failure));
    let errors = Messages::new(WriteSink::new(rt.stderr()), &output_failure);
    let host = Host {
        rt: &rt,
        input_failure: &input_failure,
        output_failure: &output_failure,
        has_progress: &has_progress,
    };
    let runner = Runner::new(host, output, errors);
    let (code, runner) = run_program(rt.alloc(), env::args(&rt), runner);
    let (_host, _output, _errors) = runner.into_parts();
    code
}
