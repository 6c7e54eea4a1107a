// The command `extract`: writes the data of a custom section.
ghost use Rattle.std.specs.Prelude.{◌≡◌, None, option_map};
ghost use Rattle.wasm_commands.specs.ArgumentLists.{last_value, operands_in};
ghost use Rattle.wasm_commands.specs.Finding.{FindsSection, IsNamedIn};
ghost use Rattle.wasm_commands.specs.Parsing.{reads_of, text_if_any, texts};
ghost use Rattle.wasm_commands.specs.Rewrites.{route};
ghost use Rattle.wasm_commands.specs.RewriteCommands.{Extracts, ExtractsIn, Skips, TakesIndex, TakesNamed, TakesSection, value_text};
ghost use Rattle.wasm_commands.specs.declared.options.Flag.TheVariants as option;

use crate::arguments::Arguments;
use crate::messages::Complaint;
use crate::options::{Flag, Verb};
use crate::rewriting::{Way, way_from};
use crate::runner::Runner;
use crate::system::System;
use std::alloc::Global;
use std::io::Write;
use wasm_io::Sink;
use wasm_parser::{CustomSectionReader, Parser, Payload, Result as ParserResult};

/// The custom section that is looked for: its name, and how many with this name come before it.
#[derive(Clone, Copy)]
pub(crate) struct Wanted<'a> {
    pub(crate) name: &'a str,
    pub(crate) before: u64,
}

// Returns the custom section of a payload, if it is one with this name.
fn named_in<'a>(payload: Payload<'a>, name: &str) -> Option<CustomSectionReader<'a>>
    ensures { IsNamedIn name.now payload.entry result }
{
    match payload {
        Payload::CustomSection(section) => {
            if section.name() == name {
                Some(section)
            } else {
                None
            }
        }
        _other => None,
    }
}

/// Returns the section, if the stream has it before its first fault.
pub(crate) fn find<'a>(
    bytes: &'a [u8],
    wanted: Wanted<'_>,
) -> ParserResult<Option<CustomSectionReader<'a>>>
    // Proved: the section that `extract` writes is the custom section with the name after as many
    //   others as `--index` says, if it comes before the end and the first fault of the stream
    //   [`find` (`FindsSection`)]
    ensures { FindsSection wanted.entry.name.now wanted.entry.before bytes.now result }
{
    let mut before = wanted.before;
    for payload in Parser::new(0).parse_all(bytes) {
        if let Some(section) = named_in(payload?, wanted.name) {
            if before == 0 {
                return Ok(Some(section));
            }
            before -= 1;
        }
    }
    Ok(None)
}

// Parses the value of `--index`: a number from 1 on. Returns how many sections come before.
fn before_of(value: Option<Option<&str>>) -> Option<u64>
    ensures { Skips (option_map text_if_any value.entry) result }
{
    match value {
        Some(Some(word)) => match word.parse::<u64>() {
            Ok(index) => index.checked_sub(1),
            Err(_) => None,
        },
        _ => Some(0),
    }
}

// Returns the value of an option, or nothing if it has none.
fn word_of<'a>(value: Option<Option<&'a str>>) -> &'a str
    ensures { result.now ≡ value_text (option_map text_if_any value.entry) }
{
    match value {
        Some(Some(word)) => word,
        _ => "",
    }
}

impl<S: System, W: Write, E: Sink> Runner<S, W, E> {
    // Returns the name of the section, and the file: standard input if there is none.
    fn wanted_of<'a>(
        &mut self,
        alloc: Global,
        arguments: &Arguments<'a>,
    ) -> Result<(&'a str, &'a str), u8>
        ensures { TakesSection (operands_in (reads_of arguments.now)) result self.old self.new }
    {
        let operands = self.operands(alloc, arguments)?;
        self.wanted_in(&operands)
    }

    // Returns the first of these operands, and the second one, or standard input if there is none.
    fn wanted_in<'a>(&mut self, operands: &[&'a str]) -> Result<(&'a str, &'a str), u8>
        ensures { TakesNamed (texts operands.now) result self.old self.new }
    {
        match operands {
            [] => Err(self.complain(Complaint::Few(Verb::Extract, "NAME"))),
            [wanted] => Ok((wanted, "-")),
            [wanted, name] => Ok((wanted, name)),
            [_, _, extra, ..] => Err(self.complain(Complaint::Extra(Verb::Extract, extra))),
        }
    }

    // Returns how many sections come before the wanted one.
    fn skips_of(&mut self, arguments: &Arguments<'_>) -> Result<u64, u8>
        ensures { TakesIndex (last_value option.Index None (reads_of arguments.now))
            result self.old self.new }
    {
        let index = arguments.last(Flag::Index);
        match before_of(index) {
            Some(before) => Ok(before),
            None => {
                let complaint = Complaint::WrongValue(Verb::Extract, "--index", word_of(index));
                Err(self.complain(complaint))
            }
        }
    }

    // Writes the section of a stream, if it has it before its first fault.
    fn extract_from(
        &mut self,
        alloc: Global,
        bytes: &[u8],
        wanted: Wanted<'_>,
        way: Way<'_>,
    ) -> Result<(), u8>
        ensures { ExtractsIn S.System S.Output.Sink (route way.entry) wanted.entry bytes.now
            result self.old self.new }
    {
        match find(bytes, wanted) {
            Ok(Some(section)) => self.write_to(alloc, &[section.data()], way),
            Ok(None) => Err(self.miss(Verb::Extract, way.name, wanted.name)),
            Err(error) => Err(self.report_fault(way.name, &error)),
        }
    }
}

/// Runs `extract`: writes the data of a custom section of a file or of standard input.
///
/// # Errors
///
/// The exit status, if it is not 0.
pub(crate) fn extract<S: System, W: Write, E: Sink>(
    alloc: Global,
    arguments: &Arguments<'_>,
    runner: &mut Runner<S, W, E>,
) -> Result<(), u8>
    // Proved: `extract` reads the file that is named, or standard input, and writes the data of the
    //   section that it finds, to the output or to the file of `--output`, which is replaced only
    //   if all was written; or it says why not. No other file is created or replaced [`extract`
    //   (`Extracts`: `FindsSection`, `ReplacesBytes`)]
    ensures { Extracts S.System S.Input.Source S.Output.Sink (reads_of arguments.now)
        result runner.old runner.new }
{
    let (wanted, name) = runner.wanted_of(alloc, arguments)?;
    let before = runner.skips_of(arguments)?;
    let bytes = runner.hold(alloc, name)?;
    let wanted = Wanted {
        name: wanted,
        before,
    };
    runner.extract_from(alloc, &bytes, wanted, way_from(name, arguments))
}
