// The command `producers`: shows or changes what a module was produced with.
ghost use Rattle.std.specs.Prelude.{◌≡◌, ◌<◌, ◌^◌, ◌++◌, IfOk, OnOk, is_some};
ghost use Rattle.wasm_commands.specs.ArgumentLists.{values_in};
ghost use Rattle.wasm_commands.specs.Commands.{Produces, SetsOrShows, ShowsProducers};
ghost use Rattle.wasm_commands.specs.Parsing.{reads_of, texts};
ghost use Rattle.wasm_commands.specs.Rewrites.{route};
ghost use Rattle.wasm_commands.specs.RewriteCommands.{AreSettings, FindsChange, SetsHeld, SetsIn, SetsProducers, SetsSection, TakesSettings, WritesSet, is_setting, no_setting, wrong_setting};
ghost use Rattle.wasm_commands.specs.declared.options.Flag.TheVariants as option;
ghost use Rattle.wasm_edits.specs.Encoded.{Fits, encoded, encoded_section};

use crate::arguments::Arguments;
use crate::around::{Around, find_first};
use crate::dump::show;
use crate::extract::{Wanted, find};
use crate::messages::Complaint;
use crate::options::{Flag, Verb};
use crate::rewriting::{Way, way_from};
use crate::runner::Runner;
use crate::system::System;
use std::alloc::{AllocError, Global};
use std::io::Write;
use wasm_edits::NewSection;
use wasm_io::Sink;
use wasm_parser::{
    CustomSectionReader, ProducersField, ProducersFieldValue, ProducersSectionReader,
    Result as ParserResult,
};

/// The name of the section (tool conventions, Producers Section).
pub(crate) const NAME: &str = "producers";

// A language or tool with a version, and the field that it is in.
#[derive(Clone, Copy)]
struct Setting<'a> {
    field: &'a str,
    value: ProducersFieldValue<'a>,
}

// A field of the section with its values.
#[derive(Drop)]
struct Field<'a> {
    name: &'a str,
    values: Vec<ProducersFieldValue<'a>>,
}

// Parses `FIELD=NAME` or `FIELD=NAME:VERSION`. The name is not empty, and ends at the first colon.
fn parse_setting(word: &str) -> Option<Setting<'_>>
    ensures { is_some result ≡ is_setting word.now }
{
    let (field, value) = word.split_once('=')?;
    if !matches!(field, "language" | "processed-by" | "sdk") {
        return None;
    }
    let (name, version) = value.split_once(':').unwrap_or((value, ""));
    if name.is_empty() {
        return None;
    }
    let value = ProducersFieldValue { name, version };
    Some(Setting { field, value })
}

// Parses all of them. Returns the first word that is none.
fn parse_settings<'a>(
    alloc: Global,
    words: &[&'a str],
) -> Result<Result<Vec<Setting<'a>>, &'a str>, AllocError>
    ensures { IfOk result (λ parsed. wrong_setting parsed ≡ no_setting (texts words.now)) }
{
    let mut settings = Vec::new(alloc);
    let mut rest = words;
    'words: while let [word, more @ ..] = rest {
        match parse_setting(word) {
            Some(setting) => settings.push(setting)?,
            None => return Ok(Err(word)),
        }
        rest = more;
    }
    Ok(Ok(settings))
}

// Reads the values of a field.
fn read_field<'a>(
    alloc: Global,
    field: ProducersField<'a>,
) -> Result<ParserResult<Field<'a>>, AllocError> {
    let mut values = Vec::new(alloc);
    for value in field.values {
        match value {
            Ok(value) => values.push(value)?,
            Err(error) => return Ok(Err(error)),
        }
    }
    let name = field.name;
    Ok(Ok(Field { name, values }))
}

// Reads the fields of the section.
fn read_fields<'a>(
    alloc: Global,
    section: &CustomSectionReader<'a>,
) -> Result<ParserResult<Vec<Field<'a>>>, AllocError> {
    let mut fields = Vec::new(alloc);
    let reader = match ProducersSectionReader::new(section.data_reader()) {
        Ok(reader) => reader,
        Err(error) => return Ok(Err(error)),
    };
    for field in reader {
        let field = match field {
            Ok(field) => field,
            Err(error) => return Ok(Err(error)),
        };
        match read_field(alloc, field)? {
            Ok(field) => fields.push(field)?,
            Err(error) => return Ok(Err(error)),
        }
    }
    Ok(Ok(fields))
}

// Sets the version of a language or tool, after the others if it is new.
fn set_value<'a>(
    values: &mut Vec<ProducersFieldValue<'a>>,
    new: ProducersFieldValue<'a>,
) -> Result<(), AllocError> {
    for value in values.iter_mut() {
        if value.name == new.name {
            *value = new;
            return Ok(());
        }
    }
    values.push(new)?;
    Ok(())
}

// Sets a version in its field, after the others if the field is new.
fn set<'a>(
    alloc: Global,
    fields: &mut Vec<Field<'a>>,
    setting: Setting<'a>,
) -> Result<(), AllocError> {
    for field in fields.iter_mut() {
        if field.name == setting.field {
            return set_value(&mut field.values, setting.value);
        }
    }
    let mut values = Vec::new(alloc);
    values.push(setting.value)?;
    let name = setting.field;
    fields.push(Field { name, values })?;
    Ok(())
}

// Appends a number in LEB128, in as few bytes as possible.
fn push_number(bytes: &mut Vec<u8>, number: usize) -> Result<(), AllocError>
    ensures { number < 2 ^ 32 → OnOk result (bytes.new.items ≡ bytes.old.items ++ encoded number) }
{
    let mut rest = number;
    'septets: while rest >= 128 {
        bytes.push((rest % 128) as u8 + 128)?;
        rest /= 128;
    }
    bytes.push(rest as u8)?;
    Ok(())
}

// Appends a text with its size.
fn push_text(bytes: &mut Vec<u8>, text: &str) -> Result<(), AllocError> {
    push_number(bytes, text.len())?;
    bytes.extend_from_slice(text.as_bytes())
}

// Appends a field with its values.
fn push_field(bytes: &mut Vec<u8>, field: &Field<'_>) -> Result<(), AllocError> {
    push_text(bytes, field.name)?;
    push_number(bytes, field.values.len())?;
    for value in &field.values {
        push_text(bytes, value.name)?;
        push_text(bytes, value.version)?;
    }
    Ok(())
}

// Returns the data of a section with these fields.
fn data_of(alloc: Global, fields: &[Field<'_>]) -> Result<Vec<u8>, AllocError> {
    let mut bytes = Vec::new(alloc);
    push_number(&mut bytes, fields.len())?;
    for field in fields {
        push_field(&mut bytes, field)?;
    }
    Ok(bytes)
}

// Returns the data of the section after these settings.
fn changed_data<'a>(
    alloc: Global,
    section: &Option<CustomSectionReader<'a>>,
    settings: &[Setting<'a>],
) -> Result<ParserResult<Vec<u8>>, AllocError> {
    let mut fields = match section {
        Some(section) => match read_fields(alloc, section)? {
            Ok(fields) => fields,
            Err(error) => return Ok(Err(error)),
        },
        None => Vec::new(alloc),
    };
    for setting in settings {
        set(alloc, &mut fields, *setting)?;
    }
    Ok(Ok(data_of(alloc, &fields)?))
}

// Returns the new data of the section of a stream.
fn new_data(
    alloc: Global,
    bytes: &[u8],
    settings: &[Setting<'_>],
) -> Result<ParserResult<Vec<u8>>, AllocError>
    ensures { IfOk result (λ change. FindsChange bytes.now change) }
{
    let wanted = Wanted {
        name: NAME,
        before: 0,
    };
    match find(bytes, wanted) {
        Ok(section) => changed_data(alloc, &section, settings),
        Err(error) => Ok(Err(error)),
    }
}

// Returns what `--set` sets.
fn settings_of<'a, S: System, W: Write, E: Sink>(
    alloc: Global,
    words: &[&'a str],
    runner: &mut Runner<S, W, E>,
) -> Result<Vec<Setting<'a>>, u8>
    ensures { TakesSettings (texts words.now) result runner.old runner.new }
{
    let parsed = runner.allocated(parse_settings(alloc, words))?;
    settings_in(words, parsed, runner)
}

// Returns what was parsed, unless a word was refused.
fn settings_in<'a, S: System, W: Write, E: Sink>(
    words: &[&'a str],
    parsed: Result<Vec<Setting<'a>>, &'a str>,
    runner: &mut Runner<S, W, E>,
) -> Result<Vec<Setting<'a>>, u8>
    requires { wrong_setting parsed ≡ no_setting (texts words.now) }
    ensures { AreSettings (texts words.now) result runner.old runner.new }
{
    match parsed {
        Ok(settings) => Ok(settings),
        Err(word) => { Err(runner.complain(Complaint::WrongValue(Verb::Producers, "--set", word))) }
    }
}

// Writes a stream with this section between these bytes.
fn write_between<S: System, W: Write, E: Sink>(
    alloc: Global,
    new: NewSection<'_>,
    around: Around<'_>,
    way: Way<'_>,
    runner: &mut Runner<S, W, E>,
) -> Result<(), u8>
    requires { Fits new }
    ensures { WritesSet S.System S.Output.Sink (route way.entry)
        (around.entry.before.now ++ (encoded_section new.entry ++ around.entry.after.now))
        result runner.old runner.new }
{
    let section = runner.encoded(alloc, new)?;
    runner.write_to(
        alloc,
        &[around.before, section.as_slice(), around.after],
        way,
    )
}

// Writes a stream with this section in place of its first one with the name, or after its own sections.
fn write_set<S: System, W: Write, E: Sink>(
    alloc: Global,
    new: NewSection<'_>,
    bytes: &[u8],
    way: Way<'_>,
    runner: &mut Runner<S, W, E>,
) -> Result<(), u8>
    requires { Fits new }
    ensures { SetsIn S.System S.Output.Sink (route way.entry)
        new.entry bytes.now result runner.old runner.new }
{
    // A slice is shorter than 2^64 bytes, which the proof wants to know.
    let _length = bytes.len();
    match find_first(bytes, new.name) {
        Ok(Some(around)) => write_between(alloc, new, around, way, runner),
        Ok(None) => {
            let around = Around {
                before: bytes,
                after: b"",
            };
            write_between(alloc, new, around, way, runner)
        }
        Err(error) => Err(runner.report_fault(way.name, &error)),
    }
}

// Writes a stream with new data of the section, unless they are too large.
fn write_new<S: System, W: Write, E: Sink>(
    alloc: Global,
    data: &[u8],
    bytes: &[u8],
    way: Way<'_>,
    runner: &mut Runner<S, W, E>,
) -> Result<(), u8>
    ensures { SetsSection S.System S.Output.Sink (route way.entry)
        bytes.now result runner.old runner.new }
{
    let new = NewSection { name: NAME, data };
    if new.fits() {
        return write_set(alloc, new, bytes, way, runner);
    }
    Err(runner.complain(Complaint::TooLarge(Verb::Producers, NAME)))
}

// Writes a stream with these settings.
fn change<S: System, W: Write, E: Sink>(
    alloc: Global,
    settings: &[Setting<'_>],
    bytes: &[u8],
    way: Way<'_>,
    runner: &mut Runner<S, W, E>,
) -> Result<(), u8>
    ensures { SetsHeld S.System S.Output.Sink (route way.entry)
        bytes.now result runner.old runner.new }
{
    let changed = runner.allocated(new_data(alloc, bytes, settings))?;
    let data = runner.sound(way.name, changed)?;
    write_new(alloc, &data, bytes, way, runner)
}

// Runs `producers` with these values of `--set`.
fn set_all<S: System, W: Write, E: Sink>(
    alloc: Global,
    words: &[&str],
    args: &Arguments<'_>,
    runner: &mut Runner<S, W, E>,
) -> Result<(), u8>
    requires { texts words.now ≡ values_in option.Set (reads_of args.now) }
    // Proved: `producers --set` reads the file that is named, or standard input, and writes it with
    //   a new `producers` section in place of the first that it has, or at the end, to the output or to
    //   the file of `--output`, which is replaced only if all was written; or it says why not. All other
    //   bytes stay, and no other file is created or replaced. What the new section holds is not stated
    //   [`set_all` (`SetsProducers`: `ReplacesFirst`)]
    ensures { SetsProducers S.System S.Input.Source S.Output.Sink (reads_of args.now)
        result runner.old runner.new }
{
    let settings = settings_of(alloc, words, runner)?;
    let name = runner.file_of(alloc, Verb::Producers, args)?;
    let bytes = runner.hold(alloc, name)?;
    change(alloc, &settings, &bytes, way_from(name, args), runner)
}

// Shows the section, unless `--output` is given. Returns how that ended, and the run.
fn show_section<S: System, W: Write, E: Sink>(
    alloc: Global,
    arguments: &Arguments<'_>,
    mut runner: Runner<S, W, E>,
) -> (Result<(), u8>, Runner<S, W, E>)
    ensures { ShowsProducers S.System S.Input.Source (reads_of arguments.now)
        result.0 runner result.1 }
{
    if arguments.has(Flag::Output) {
        let complaint = Complaint::Few(Verb::Producers, "--set with --output");
        return (Err(runner.complain(complaint)), runner);
    }
    show(alloc, Verb::Producers, arguments, runner)
}

// Sets these values of `--set`, or shows the section if there are none. Returns how that ended, and the run.
fn set_or_show<S: System, W: Write, E: Sink>(
    alloc: Global,
    words: &[&str],
    arguments: &Arguments<'_>,
    mut runner: Runner<S, W, E>,
) -> (Result<(), u8>, Runner<S, W, E>)
    requires { texts words.now ≡ values_in option.Set (reads_of arguments.now) }
    ensures { SetsOrShows S.System S.Input.Source S.Output.Sink (reads_of arguments.now)
        result.0 runner result.1 }
{
    match words {
        [] => show_section(alloc, arguments, runner),
        _ => {
            let ended = set_all(alloc, words, arguments, &mut runner);
            (ended, runner)
        }
    }
}

/// Runs `producers`: sets the versions of `--set`, or shows the section if there are none. Returns how it ended, and the
/// run.
pub(crate) fn producers<S: System, W: Write, E: Sink>(
    alloc: Global,
    arguments: &Arguments<'_>,
    mut runner: Runner<S, W, E>,
) -> (Result<(), u8>, Runner<S, W, E>)
    ensures { Produces S.System S.Input.Source S.Output.Sink (reads_of arguments.now)
        result.0 runner result.1 }
{
    match runner.values(alloc, arguments, Flag::Set) {
        Ok(words) => set_or_show(alloc, &words, arguments, runner),
        Err(status) => (Err(status), runner),
    }
}
