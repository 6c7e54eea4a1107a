// The command `strip`: removes custom sections.
ghost use Rattle.std.specs.Prelude.{◌≡◌, IfOk};
ghost use Rattle.wasm_commands.specs.Parsing.{AreTexts, reads_of, text_if_any, texts};
ghost use Rattle.wasm_commands.specs.RewriteCommands.{Strips, removed_in};
ghost use Rattle.wasm_commands.specs.Rewrites.{SparesTerminal};
ghost use Rattle.wasm_commands.specs.Runs.{Makes};

use crate::arguments::Arguments;
use crate::messages::Complaint;
use crate::options::{Flag, Verb};
use crate::rewriting::way_from;
use crate::runner::Runner;
use crate::system::System;
use std::alloc::{AllocError, Global};
use std::io::Write;
use wasm_edits::{Edit, Keep};
use wasm_io::Sink;

// Returns the patterns of the sections that `--only` and `--debug` remove.
fn removed_of<'a>(alloc: Global, arguments: &Arguments<'a>) -> Result<Vec<&'a str>, AllocError>
    ensures { IfOk result (λ patterns. texts patterns.items ≡ removed_in (reads_of arguments.now)) }
{
    let mut patterns = arguments.values(alloc, Flag::Only)?;
    if arguments.has(Flag::Debug) {
        patterns.push(".debug_*")?;
    }
    Ok(patterns)
}

impl<S: System, W: Write, E: Sink> Runner<S, W, E> {
    // Returns the patterns of the sections to remove.
    fn removed<'a>(&mut self, alloc: Global, arguments: &Arguments<'a>) -> Result<Vec<&'a str>, u8>
        ensures { Makes (AreTexts (removed_in (reads_of arguments.now))) result self.old self.new }
    {
        self.allocated(removed_of(alloc, arguments))
    }

    // Refuses to write a module to the output if that is a terminal.
    fn spare_terminal(&mut self, target: Option<&str>) -> Result<(), u8>
        ensures { SparesTerminal S.System (text_if_any target.entry)
            result self.old self.new }
    {
        if target.is_some() {
            return Ok(());
        }
        if self.is_terminal() {
            return Err(self.complain(Complaint::Terminal));
        }
        Ok(())
    }
}

/// Runs `strip`: removes the custom sections of a file or of standard input, except those that stay.
///
/// # Errors
///
/// The exit status, if it is not 0.
pub(crate) fn strip<S: System, W: Write, E: Sink>(
    alloc: Global,
    arguments: &Arguments<'_>,
    runner: &mut Runner<S, W, E>,
) -> Result<(), u8>
    // Proved: `strip` reads the file that is named, or standard input, and writes it with the
    //   custom sections that `--keep`, `--only`, `--debug` and `--keep-names` keep, to the output or
    //   to the file of `--output`, which is replaced only if all was written; or it says why not. No
    //   other file is created or replaced [`strip` (`Strips`: `Changes`, `Replaces`)]
    // Proved: if the output is a terminal, as the system says, `strip` without `--output` says so and
    //   returns 2. It writes nothing, and creates and replaces no file [`strip` (`Strips`:
    //   `SparesTerminal`)]
    ensures { Strips S.System S.Input.Source S.Output.Sink (reads_of arguments.now)
        result runner.old runner.new }
{
    let kept = runner.values(alloc, arguments, Flag::Keep)?;
    let removed = runner.removed(alloc, arguments)?;
    let name = runner.file_of(alloc, Verb::Strip, arguments)?;
    let way = way_from(name, arguments);
    runner.spare_terminal(way.target)?;
    let edits = [Edit::Keep(Keep {
        names: arguments.has(Flag::KeepNames),
        kept: &kept,
        removed: &removed,
    })];
    runner.edit_file(alloc, &edits, way)
}
