// What commands do with each of several files.
ghost use Rattle.std.specs.Prelude.{◌≡◌};
ghost use Rattle.wasm_commands.specs.Commands.{DoesTask, UsesFiles};
ghost use Rattle.wasm_commands.specs.Parsing.{texts};
ghost use Rattle.wasm_commands.specs.Runs.{InTurn, named_files};

use crate::check::check_file;
use crate::dump::{Plan, show_file};
use crate::runner::{Runner, ended, status_of};
use crate::system::System;
use std::alloc::Global;
use std::io::Write;
use wasm_io::Sink;

/// What a command does with each of its files.
#[derive(Clone, Copy)]
pub(crate) enum Task<'w> {
    /// It shows them like this.
    Show(Plan<'w>),
    /// It checks them, and writes no lines if this is set.
    Check(bool),
}

// Returns the files that operands name: standard input if there are none.
fn or_input<'a>(operands: &'a [&'a str]) -> &'a [&'a str]
    ensures { texts result.now ≡ named_files (texts operands.now) }
{
    if operands.is_empty() {
        &["-"]
    } else {
        operands
    }
}

// Does this with a file. Returns how the command ends, and the run.
fn do_task<S: System, W: Write, E: Sink>(
    alloc: Global,
    task: Task<'_>,
    name: &str,
    runner: Runner<S, W, E>,
) -> (Result<(), u8>, Runner<S, W, E>)
    ensures { DoesTask S.System S.Input.Source task.entry name.now
        result.0 runner result.1 }
{
    match task {
        Task::Show(plan) => show_file(alloc, plan, name, runner),
        Task::Check(is_quiet) => check_file(alloc, is_quiet, name, runner),
    }
}

// Does this with files, each in turn. Returns the greatest status, and the run.
fn do_in_turn<S: System, W: Write, E: Sink>(
    alloc: Global,
    task: Task<'_>,
    names: &[&str],
    runner: Runner<S, W, E>,
) -> (u8, Runner<S, W, E>)
    ensures { InTurn (DoesTask S.System S.Input.Source task.entry) (texts names.now)
        result.0 runner result.1 }
{
    let mut status = 0u8;
    let mut runner = runner;
    for name in names {
        let (ended, after) = do_task(alloc, task, name, runner);
        runner = after;
        status = status.max(status_of(ended));
    }
    (status, runner)
}

/// Does this with the files that operands name, or with standard input if there are none. Returns how the command ends,
/// with the greatest status, and the run.
pub(crate) fn use_files<S: System, W: Write, E: Sink>(
    alloc: Global,
    task: Task<'_>,
    operands: &[&str],
    runner: Runner<S, W, E>,
) -> (Result<(), u8>, Runner<S, W, E>)
    ensures { UsesFiles S.System S.Input.Source task.entry (texts operands.now)
        result.0 runner result.1 }
{
    let (status, runner) = do_in_turn(alloc, task, or_input(operands), runner);
    (ended(status), runner)
}
