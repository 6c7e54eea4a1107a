// The command `add`: appends custom sections, or replaces them.
ghost use Rattle.std.specs.Prelude.{◌≡◌, ◌++◌, ◌∷◌, [], false, IfOk, map};
ghost use Rattle.wasm_commands.specs.ArgumentLists.{operands_in};
ghost use Rattle.wasm_commands.specs.Parsing.{reads_of, texts};
ghost use Rattle.wasm_commands.specs.Runs.{Allots};
ghost use Rattle.wasm_commands.specs.RewriteCommands.{Adds, AddsBy, AddsFound, AddsHeld, AddsTo, AreAdditions, AreOperands, EachInTurn, IsAdded, IsAddedBy, IsAddition, LoadsAll, Prepares, Searches, TakesAdditions, TakesParts, TakesWords, WritesAdded, is_asked_again, is_input, loaded_parts, no_addition, parts_of};

use crate::arguments::Arguments;
use crate::extract::{Wanted, find};
use crate::messages::Complaint;
use crate::options::{Flag, Verb};
use crate::rewriting::{Original, way_from};
use crate::runner::Runner;
use crate::system::System;
use std::alloc::{AllocError, Global};
use std::cell::Cell;
use std::io::{self, Write};
use wasm_console::PIECE;
use wasm_dumper::{Only, Shown, dump};
use wasm_edits::{Edit, NewSection, all_fit};
use wasm_io::{ListError, Sink, Source};
use wasm_output::TextLines;
use wasm_parser::Result as ParserResult;
use wasm_streams::Ended;

// A section to add: its name, and the file with its data.
#[derive(Drop)]
struct Addition<'a> {
    name: &'a str,
    file: &'a str,
}

// A section to add: its name and its data.
#[derive(Drop)]
struct Loaded<'a> {
    name: &'a str,
    bytes: Vec<u8>,
}

// Parses `NAME=DATA`.
fn parse_addition(word: &str) -> Option<Addition<'_>>
    ensures { IsAddition word.now result }
{
    match word.split_once('=') {
        Some((name, file)) => Some(Addition { name, file }),
        None => None,
    }
}

// Parses all of them. Returns the first word that has no `=`.
fn parse_additions<'a>(
    alloc: Global,
    words: &[&'a str],
) -> Result<Result<Vec<Addition<'a>>, &'a str>, AllocError>
    ensures { IfOk result (λ parsed. AreAdditions (texts words.now) parsed) }
{
    let mut additions = Vec::new(alloc);
    let mut rest = words;
    'words: while let [word, more @ ..] = rest {
        match parse_addition(word) {
            Some(addition) => additions.push(addition)?,
            None => return Ok(Err(word)),
        }
        rest = more;
    }
    Ok(Ok(additions))
}

// Returns whether more than one of these files is standard input, which can be read only once.
fn reads_input_twice(additions: &[Addition<'_>], file: &str) -> bool
    ensures { result ≡ is_asked_again (is_input file.now) (map parts_of additions.now) }
{
    let mut is_asked = file == "-";
    let mut rest = additions;
    'additions: while let [addition, more @ ..] = rest {
        if addition.file == "-" {
            if is_asked {
                return true;
            }
            is_asked = true;
        }
        rest = more;
    }
    false
}

// Adds a section after the others.
fn push_loaded<'a>(all: &mut Vec<Loaded<'a>>, loaded: Loaded<'a>) -> Result<(), AllocError>
    ensures { IfOk result (λ done. all.new.items ≡ all.old.items ++ loaded.entry ∷ []) }
{
    all.push(loaded)?;
    Ok(())
}

// The operands of the command: what is added, and the file to which it is added.
#[derive(Clone, Copy)]
struct Operands<'o, 'a> {
    words: &'o [&'a str],
    file: &'a str,
}

// Returns the operands, if there are enough.
fn operands_of<'o, 'a>(operands: &'o [&'a str]) -> Option<Operands<'o, 'a>>
    ensures { AreOperands (texts operands.now) result }
{
    match operands {
        [] | [_] => None,
        [words @ .., file] => Some(Operands { words, file }),
    }
}

// Returns the edit that adds a section: in place of those with its name, or after the others.
fn edit_of<'a>(name: &'a str, bytes: &'a [u8], replaces: bool) -> Edit<'a>
    ensures { IsAddedBy replaces (name.now, bytes.now) result }
{
    let new = NewSection { name, data: bytes };
    if replaces {
        Edit::Replace(new)
    } else {
        Edit::Append(new)
    }
}

// Returns the edits that append these sections.
fn edits_at_end<'a>(alloc: Global, loaded: &'a [Loaded<'a>]) -> Result<Vec<Edit<'a>>, AllocError>
    ensures { IfOk result (λ edits.
        EachInTurn (IsAddedBy false) (map loaded_parts loaded.now) edits.items) }
{
    let mut edits = Vec::new(alloc);
    for section in loaded {
        edits.push(edit_of(section.name, section.bytes.as_slice(), false))?;
    }
    Ok(edits)
}

// Returns the edits that add these sections to a stream in memory. Those whose name it has are replaced.
fn edits_to<'a>(
    alloc: Global,
    loaded: &'a [Loaded<'a>],
    bytes: &[u8],
) -> Result<ParserResult<Vec<Edit<'a>>>, AllocError>
    ensures { IfOk result (λ edits. AddsTo bytes.now (map loaded_parts loaded.now) edits) }
{
    let mut edits = Vec::new(alloc);
    for section in loaded {
        let wanted = Wanted {
            name: section.name,
            before: 0,
        };
        let replaces = match find(bytes, wanted) {
            Ok(found) => found.is_some(),
            Err(error) => return Ok(Err(error)),
        };
        edits.push(edit_of(section.name, section.bytes.as_slice(), replaces))?;
    }
    Ok(Ok(edits))
}

// Returns whether the flag with this index is set.
fn is_set(found: &[Cell<bool>], index: usize) -> bool {
    match found.get(index) {
        Some(flag) => flag.get(),
        None => false,
    }
}

// Returns the edits that add these sections. Those of which the flag is set are replaced.
fn edits_by<'a>(
    alloc: Global,
    loaded: &'a [Loaded<'a>],
    found: &[Cell<bool>],
) -> Result<Vec<Edit<'a>>, AllocError>
    ensures { IfOk result (λ edits.
        EachInTurn IsAdded (map loaded_parts loaded.now) edits.items) }
{
    let mut edits = Vec::new(alloc);
    for section in loaded {
        let replaces = is_set(found, edits.len());
        edits.push(edit_of(section.name, section.bytes.as_slice(), replaces))?;
    }
    Ok(edits)
}

// Returns the choices of the sections with these names.
fn choices_of<'a>(alloc: Global, loaded: &[Loaded<'a>]) -> Result<Vec<Only<'a>>, AllocError> {
    let mut only = Vec::new(alloc);
    for section in loaded {
        only.push(Only::Name(section.name))?;
    }
    Ok(only)
}

// Reads a stream for these custom sections, and sets a flag for each one that it has. Returns how the stream ended.
fn find_named<R: Source>(
    alloc: Global,
    only: &[Only<'_>],
    found: &[Cell<bool>],
    input: &mut R,
) -> Result<Ended, ListError> {
    let shown = Shown {
        only,
        has_bytes: false,
        found,
    };
    let mut tree = TextLines::new(alloc, io::sink());
    let how = dump(alloc, shown, input, &mut tree, PIECE);
    tree.into_output();
    how
}

// Returns the name of the first section that is too large.
fn large_name<'a>(edits: &[Edit<'a>]) -> &'a str {
    for edit in edits {
        match edit {
            Edit::Append(section) | Edit::Replace(section) if !section.fits() => {
                return section.name;
            }
            _ => {}
        }
    }
    ""
}

impl<S: System, W: Write, E: Sink> Runner<S, W, E> {
    // Returns what is added, and the file to which it is added.
    fn additions_of<'a>(
        &mut self,
        alloc: Global,
        arguments: &Arguments<'a>,
    ) -> Result<(Vec<Addition<'a>>, &'a str), u8>
        ensures { TakesAdditions (operands_in (reads_of arguments.now)) result self.old self.new }
    {
        let operands = self.operands(alloc, arguments)?;
        self.additions_in(alloc, &operands)
    }

    // Returns what these operands add, and the file to which they add it.
    fn additions_in<'a>(
        &mut self,
        alloc: Global,
        operands: &[&'a str],
    ) -> Result<(Vec<Addition<'a>>, &'a str), u8>
        ensures { TakesParts (texts operands.now) result self.old self.new }
    {
        let Some(Operands { words, file }) = operands_of(operands) else {
            return Err(self.complain(Complaint::Few(Verb::Add, "NAME=DATA and FILE")));
        };
        let parsed = self.allocated(parse_additions(alloc, words))?;
        self.once(words, file, parsed)
    }

    // Returns what was parsed of these words, unless one was refused, or standard input is read twice.
    fn once<'a>(
        &mut self,
        words: &[&'a str],
        file: &'a str,
        parsed: Result<Vec<Addition<'a>>, &'a str>,
    ) -> Result<(Vec<Addition<'a>>, &'a str), u8>
        requires { AreAdditions (texts words.now) parsed }
        ensures { TakesWords (no_addition (texts words.now)) (texts words.now) file.now
            result self.old self.new }
    {
        match parsed {
            Ok(additions) => {
                if reads_input_twice(&additions, file) {
                    return Err(self.complain(Complaint::InputTwice));
                }
                Ok((additions, file))
            }
            Err(word) => Err(self.complain(Complaint::NoData(word))),
        }
    }

    // Reads the data of all sections.
    fn load_all<'a>(
        &mut self,
        alloc: Global,
        additions: &[Addition<'a>],
    ) -> Result<Vec<Loaded<'a>>, u8>
        ensures { LoadsAll S.System S.Input.Source (map parts_of additions.now)
            result self.old self.new }
    {
        let mut all = Vec::new(alloc);
        for addition in additions {
            let bytes = self.hold(alloc, addition.file)?;
            let name = addition.name;
            self.allocated(push_loaded(&mut all, Loaded { name, bytes }))?;
        }
        Ok(all)
    }

    // Writes a stream with these edits, unless a section is too large.
    fn write_added(
        &mut self,
        alloc: Global,
        edits: &[Edit<'_>],
        original: &Original<'_>,
    ) -> Result<(), u8>
        ensures { WritesAdded S.System S.Input.Source S.Output.Sink edits.now original.now
            result self.old self.new }
    {
        if all_fit(edits) {
            return self.edit_to(alloc, edits, original);
        }
        Err(self.complain(Complaint::TooLarge(Verb::Add, large_name(edits))))
    }

    // Returns the sections with their data, and the stream to which they are added.
    fn prepare<'a>(
        &mut self,
        alloc: Global,
        arguments: &Arguments<'a>,
    ) -> Result<(Vec<Loaded<'a>>, Original<'a>), u8>
        ensures { Prepares S.System S.Input.Source (reads_of arguments.now)
            result self.old self.new }
    {
        let (additions, file) = self.additions_of(alloc, arguments)?;
        let loaded = self.load_all(alloc, &additions)?;
        let original = self.find(alloc, way_from(file, arguments))?;
        Ok((loaded, original))
    }

    // Returns the choices of the sections with these names, and a flag for each.
    fn choose<'a>(
        &mut self,
        alloc: Global,
        loaded: &[Loaded<'a>],
    ) -> Result<(Vec<Only<'a>>, Vec<Cell<bool>>), u8>
        ensures { Allots result self.old self.new }
    {
        let only = self.allocated(choices_of(alloc, loaded))?;
        let found = self.allocated(vec![in alloc; Cell::new(false); loaded.len()])?;
        Ok((only, found))
    }

    // Reads a file for the sections with these names. Returns a flag for each, whether the file has it.
    fn search<'a>(
        &mut self,
        alloc: Global,
        loaded: &[Loaded<'a>],
        name: &str,
    ) -> Result<Vec<Cell<bool>>, u8>
        ensures { Searches S.System name.now result self.old self.new }
    {
        let (only, found) = self.choose(alloc, loaded)?;
        let mut input = self.open(name)?;
        let how = find_named(alloc, &only, &found, &mut input);
        self.end(name, how)?;
        Ok(found)
    }

    // Returns the edits that add these sections to a stream in memory, in place of those with their names.
    fn edits_in<'a>(
        &mut self,
        alloc: Global,
        loaded: &'a [Loaded<'a>],
        bytes: &[u8],
        name: &str,
    ) -> Result<Vec<Edit<'a>>, u8>
        ensures { AddsHeld (map loaded_parts loaded.now) name.now bytes.now
            result self.old self.new }
    {
        let found = self.allocated(edits_to(alloc, loaded, bytes))?;
        self.sound(name, found)
    }

    // Searches a file for these sections. Returns the edits that add them, in place of those that it has.
    fn edits_in_file<'a>(
        &mut self,
        alloc: Global,
        loaded: &'a [Loaded<'a>],
        name: &str,
    ) -> Result<Vec<Edit<'a>>, u8>
        ensures { AddsFound S.System (map loaded_parts loaded.now) name.now
            result self.old self.new }
    {
        let found = self.search(alloc, loaded, name)?;
        self.allocated(edits_by(alloc, loaded, &found))
    }

    // Returns the edits that add these sections: after the others, or in place of those with their names.
    fn edits_for<'a>(
        &mut self,
        alloc: Global,
        loaded: &'a [Loaded<'a>],
        original: &Original<'_>,
        replaces: bool,
    ) -> Result<Vec<Edit<'a>>, u8>
        ensures { AddsBy S.System (map loaded_parts loaded.now) original.now replaces
            result self.old self.new }
    {
        if !replaces {
            return self.allocated(edits_at_end(alloc, loaded));
        }
        match &original.held {
            Some(bytes) => self.edits_in(alloc, loaded, bytes, original.way.name),
            None => self.edits_in_file(alloc, loaded, original.way.name),
        }
    }
}

/// Runs `add`: writes a file or standard input with more custom sections. Returns how it ended, and the run.
pub(crate) fn add<S: System, W: Write, E: Sink>(
    alloc: Global,
    arguments: &Arguments<'_>,
    mut runner: Runner<S, W, E>,
) -> (Result<(), u8>, Runner<S, W, E>)
    // Proved: `add` reads the files with the data of the sections, in order, and then the file to
    //   which they are added, or standard input, and writes that with a section for each, to the
    //   output or to the file of `--output`, which is replaced only if all was written; or it says
    //   why not. No other file is created or replaced. With `--replace`, of a stream in memory exactly
    //   the sections that are found by their names are replaced [`add` (`Adds`: `Prepares`,
    //   `AddsBy`, `AddsHeld`)]
    ensures { Adds S.System S.Input.Source S.Output.Sink (reads_of arguments.now)
        result.0 runner result.1 }
{
    let (loaded, mut original) = match runner.prepare(alloc, arguments) {
        Ok(prepared) => prepared,
        Err(status) => return (Err(status), runner),
    };
    let replaces = arguments.has(Flag::Replace);
    let edits = match runner.edits_for(alloc, &loaded, &original, replaces) {
        Ok(edits) => edits,
        Err(status) => return (Err(status), runner),
    };
    // A file that was searched is read only once more.
    original.is_checked = replaces;
    let ended = runner.write_added(alloc, &edits, &original);
    (ended, runner)
}
