// The commands `dump` and `list`: show the items of files, or only their parts.
ghost use Rattle.std.specs.Prelude.{◌≡◌, IfOk};
ghost use Rattle.wasm_commands.specs.Commands.{Shows};
ghost use Rattle.wasm_commands.specs.Parsing.{reads_of, texts};
ghost use Rattle.wasm_commands.specs.Runs.{Allots, InTurn};
ghost use Rattle.wasm_commands.specs.Shows.{Begins, ChooseFor, Dumps, DumpsInput, EndsDump, Heads, IsRequest, MayReread, MayWarn, OpensForNames, ReadsNames, ShowsAll, ShowsFile, TakesNames, WarnsAfter, WritesHeading, has_titles, words_asked};

mod choices;
mod colored;
mod format;
mod gathered;
mod inks;
mod plain;
mod run;

use crate::arguments::Arguments;
use crate::files::{Task, use_files};
use crate::messages::Complaint;
use crate::options::{Flag, Verb};
use crate::producers::NAME;
use crate::runner::{Runner, ended, status_of, writes_all};
use crate::system::System;
use choices::chosen_by;
pub use colored::Colored;
pub use format::Format;
use format::format_of;
pub use run::{Titles, dump_as};
use std::alloc::{AllocError, Global};
use std::cell::Cell;
use std::io::Write;
use wasm_dumper::{Only, Shown, collect_names};
use wasm_io::{ListError, Sink};
use wasm_output::ItemNames;
use wasm_streams::Ended;

/// What a command shows of each file.
#[derive(Clone, Copy)]
pub(crate) struct Plan<'w> {
    pub(crate) verb: Verb,
    /// The values of `--section`.
    pub(crate) words: &'w [&'w str],
    pub(crate) shown: Shown<'w>,
    pub(crate) format: Format,
    /// Whether the file's name is written before it.
    pub(crate) is_titled: bool,
}

// Returns the first of these flags, which is set if there is none, and the others.
fn first_flag(flags: &[Cell<bool>]) -> (bool, &[Cell<bool>]) {
    match flags {
        [flag, later @ ..] => (flag.get(), later),
        [] => (true, flags),
    }
}

// Unsets all flags.
fn clear(flags: &[Cell<bool>]) {
    for flag in flags {
        flag.set(false);
    }
}

impl<S: System, W: Write, E: Sink> Runner<S, W, E> {
    // Writes the name of a file as a line before what is shown of it, if files have titles.
    fn head(&mut self, is_titled: bool, name: &str) -> Result<(), u8>
        ensures { Heads is_titled name.now result self.old self.new }
    {
        if is_titled {
            self.write_heading(name)
        } else {
            Ok(())
        }
    }

    // Writes the name of a file as a line.
    fn write_heading(&mut self, name: &str) -> Result<(), u8>
        ensures { WritesHeading name.now result self.old self.new }
    {
        if writes_all(&mut self.output, &[name.as_bytes(), b":\n"]) {
            return Ok(());
        }
        Err(self.fail("-", ListError::Output))
    }

    // Reads the names of a file's items from an input, if the file can be read again.
    fn names_in(
        &mut self,
        alloc: Global,
        name: &str,
        input: &mut S::Input,
    ) -> Result<Option<ItemNames>, u8>
        ensures { MayReread S.System name.now result self.old self.new }
    {
        if !self.is_regular(name) {
            return Err(self.complain(Complaint::NamesOf(name)));
        }
        match collect_names(alloc, input) {
            Ok(names) => Ok(Some(names)),
            Err(_) => Err(self.out_of_memory()),
        }
    }

    // Opens a file and reads the names of its items.
    fn names_of(&mut self, alloc: Global, name: &str) -> Result<Option<ItemNames>, u8>
        ensures { OpensForNames S.System name.now result self.old self.new }
    {
        let mut input = self.open(name)?;
        self.names_in(alloc, name, &mut input)
    }

    // Reads the names of a file's items. Standard input can't be read twice, so it is not even opened.
    fn read_names(&mut self, alloc: Global, name: &str) -> Result<Option<ItemNames>, u8>
        ensures { ReadsNames S.System name.now result self.old self.new }
    {
        if name == "-" {
            Err(self.complain(Complaint::NamesOf(name)))
        } else {
            self.names_of(alloc, name)
        }
    }

    // Reads the names of a file's items, if names are shown.
    fn take_names(
        &mut self,
        alloc: Global,
        is_named: bool,
        name: &str,
    ) -> Result<Option<ItemNames>, u8>
        ensures { TakesNames S.System is_named name.now
            result self.old self.new }
    {
        if is_named {
            self.read_names(alloc, name)
        } else {
            Ok(None)
        }
    }

    // Opens a file, and makes what is said of it besides its bytes, for which it may be read before.
    fn begin(&mut self, alloc: Global, format: Format, name: &str) -> Result<(S::Input, Titles), u8>
        ensures { Begins S.System format.is_named name.now
            result self.old self.new }
    {
        let names = self.take_names(alloc, format.is_named, name)?;
        let input = self.open(name)?;
        let file = self.title(alloc, format.is_json, name)?;
        Ok((input, Titles { file, names }))
    }

    // Returns the name that each JSON object has, if there are objects.
    fn title(&mut self, alloc: Global, is_json: bool, name: &str) -> Result<Option<String>, u8>
        ensures { Allots result self.old self.new }
    {
        if is_json {
            let title = self.allocated(String::from_str(alloc, name))?;
            Ok(Some(title))
        } else {
            Ok(None)
        }
    }

    // Ends a command after a dump, which has shown a fault of the stream.
    fn end_dump(&mut self, name: &str, how: Result<Ended, ListError>) -> Result<(), u8>
        ensures { EndsDump name.now how result self.old self.new }
    {
        match how {
            Ok(Ended::End) => Ok(()),
            Ok(Ended::Fault(_)) => Err(1),
            Err(why) => Err(self.fail(name, why)),
        }
    }

    // Warns of a choice that chose nothing.
    fn warn_unless_found(
        &mut self,
        is_found: bool,
        verb: Verb,
        name: &str,
        word: &str,
    ) -> Result<(), u8>
        ensures { MayWarn verb name.now word.now result self.old self.new }
    {
        if is_found {
            return Ok(());
        }
        Err(self.miss(verb, name, word))
    }

    // Warns of the choices that chose nothing of a file. Returns the status, which is 1 if there is one.
    fn warn_of_unfound(&mut self, plan: Plan<'_>, name: &str) -> u8
        ensures { InTurn (MayWarn plan.entry.verb name.now) (texts plan.entry.words.now)
            result self.old self.new }
    {
        let mut status = 0u8;
        let mut flags = plan.shown.found;
        for word in plan.words {
            let (is_found, later) = first_flag(flags);
            let ended = self.warn_unless_found(is_found, plan.verb, name, word);
            status = status.max(status_of(ended));
            flags = later;
        }
        status
    }

    // Warns of the choices that chose nothing of a file, if it was read to its end. Returns the greater status.
    fn warn_after(&mut self, plan: Plan<'_>, name: &str, status: u8) -> u8
        ensures { WarnsAfter plan.entry name.now status result self.old self.new }
    {
        if status > 1 {
            return status;
        }
        status.max(self.warn_of_unfound(plan, name))
    }
}

// Dumps an input to the output. Returns how the command ends, and the run.
fn dump_input<S: System, W: Write, E: Sink>(
    alloc: Global,
    plan: Plan<'_>,
    name: &str,
    begun: (S::Input, Titles),
    runner: Runner<S, W, E>,
) -> (Result<(), u8>, Runner<S, W, E>)
    ensures { DumpsInput S.Input.Source plan.entry name.now begun.0
        result.0 runner result.1 }
{
    let (mut input, titles) = begun;
    let (system, output, errors) = runner.into_parts();
    let (how, output) = dump_as(alloc, plan.shown, plan.format, titles, &mut input, output);
    let mut runner = Runner::new(system, output, errors);
    (runner.end_dump(name, how), runner)
}

// Opens a file and dumps it. Returns how the command ends, and the run.
fn dump_file<S: System, W: Write, E: Sink>(
    alloc: Global,
    plan: Plan<'_>,
    name: &str,
    mut runner: Runner<S, W, E>,
) -> (Result<(), u8>, Runner<S, W, E>)
    ensures { Dumps S.System S.Input.Source plan.entry name.now
        result.0 runner result.1 }
{
    match runner.begin(alloc, plan.format, name) {
        Ok(begun) => dump_input(alloc, plan, name, begun, runner),
        Err(status) => (Err(status), runner),
    }
}

// Dumps a file, and warns of the choices that chose nothing of it. Returns how the command ends, and the run.
fn show_all<S: System, W: Write, E: Sink>(
    alloc: Global,
    plan: Plan<'_>,
    name: &str,
    runner: Runner<S, W, E>,
) -> (Result<(), u8>, Runner<S, W, E>)
    ensures { ShowsAll S.System S.Input.Source plan.entry name.now
        result.0 runner result.1 }
{
    clear(plan.shown.found);
    let (dumped, mut runner) = dump_file(alloc, plan, name, runner);
    let status = runner.warn_after(plan, name, status_of(dumped));
    (ended(status), runner)
}

/// Shows a file, after its name if files have titles. Returns how the command ends, and the run.
pub(crate) fn show_file<S: System, W: Write, E: Sink>(
    alloc: Global,
    plan: Plan<'_>,
    name: &str,
    mut runner: Runner<S, W, E>,
) -> (Result<(), u8>, Runner<S, W, E>)
    ensures { ShowsFile S.System S.Input.Source plan.entry name.now
        result.0 runner result.1 }
{
    match runner.head(plan.is_titled, name) {
        Ok(()) => show_all(alloc, plan, name, runner),
        Err(status) => (Err(status), runner),
    }
}

// Returns the words that choose sections: the values of `--section`, or the name of the section that `producers` shows.
fn words_of<'a>(
    alloc: Global,
    verb: Verb,
    arguments: &Arguments<'a>,
) -> Result<Vec<&'a str>, AllocError>
    ensures { IfOk result (λ words. texts words.items ≡ words_asked verb (reads_of arguments.now)) }
{
    let mut words = arguments.values(alloc, Flag::Section)?;
    if let Verb::Producers = verb {
        words.push(NAME)?;
    }
    Ok(words)
}

// Returns what these words choose: all if there are none, and only parts for `list`.
fn only_of<'w>(alloc: Global, verb: Verb, words: &[&'w str]) -> Result<Vec<Only<'w>>, AllocError>
    ensures { IfOk result (λ only. ChooseFor verb (texts words.now) only.items) }
{
    let mut only = chosen_by(alloc, words)?;
    match verb {
        Verb::List => only.push(Only::Parts)?,
        _ if words.is_empty() => only.push(Only::All)?,
        _ => {}
    }
    Ok(only)
}

// What a command was asked to show.
#[derive(Drop)]
struct Request<'a> {
    names: Vec<&'a str>,
    words: Vec<&'a str>,
    only: Vec<Only<'a>>,
    found: Vec<Cell<bool>>,
}

// Returns what the arguments ask for.
fn request_of<'a>(
    alloc: Global,
    verb: Verb,
    arguments: &Arguments<'a>,
) -> Result<Request<'a>, AllocError>
    ensures { IfOk result (λ request. IsRequest verb (reads_of arguments.now) request) }
{
    let names = arguments.operands(alloc)?;
    let words = words_of(alloc, verb, arguments)?;
    let only = only_of(alloc, verb, words.as_slice())?;
    let found = vec![in alloc; Cell::new(false); words.len()]?;
    Ok(Request {
        names,
        words,
        only,
        found,
    })
}

// Returns whether each file's name is written before what is shown of it: of several, unless JSON has the names.
fn has_titles(format: Format, names: &[&str]) -> bool
    ensures { result ≡ has_titles format (texts names.now) }
{
    !format.is_json && names.len() > 1
}

/// Runs `list`, `dump` or `producers`. Returns how it ended, and the run.
pub(crate) fn show<S: System, W: Write, E: Sink>(
    alloc: Global,
    verb: Verb,
    arguments: &Arguments<'_>,
    mut runner: Runner<S, W, E>,
) -> (Result<(), u8>, Runner<S, W, E>)
    ensures { Shows S.System S.Input.Source verb (reads_of arguments.now)
        result.0 runner result.1 }
{
    let format = match format_of(verb, arguments, runner.is_terminal()) {
        Ok(format) => format,
        Err(complaint) => return (Err(runner.complain(complaint)), runner),
    };
    let request = match runner.allocated(request_of(alloc, verb, arguments)) {
        Ok(request) => request,
        Err(status) => return (Err(status), runner),
    };
    let plan = Plan {
        verb,
        words: request.words.as_slice(),
        shown: Shown {
            only: request.only.as_slice(),
            has_bytes: arguments.has(Flag::Bytes),
            found: request.found.as_slice(),
        },
        format,
        is_titled: has_titles(format, request.names.as_slice()),
    };
    use_files(alloc, Task::Show(plan), request.names.as_slice(), runner)
}
