// Dumps an input to an output.
ghost use Rattle.std.specs.Prelude.{◌≡◌, true, false};
ghost use Rattle.std.specs.Io.KnownBytes.{Keeps};
ghost use Rattle.wasm_commands.specs.DumpRuns.{DumpsTo, Flushes, RunsTo};

use super::colored::Colored;
use super::format::Format;
use std::alloc::Global;
use std::io::Write;
use wasm_console::PIECE;
use wasm_dumper::{Shown, dump};
use wasm_io::{ListError, Source, WriteSink};
use wasm_output::{ItemNames, Objects, TextLines};
use wasm_streams::Ended;

/// What a dump says of an input besides its bytes.
#[derive(Drop)]
pub struct Titles {
    /// The name of the input, which each JSON object has as `file` if it is given.
    pub file: Option<String>,
    /// The names of items, if they are shown.
    pub names: Option<ItemNames>,
}

// Flushes the output if the dump did not fail.
fn forward_all<W: Write>(
    how: Result<Ended, ListError>,
    output: &mut WriteSink<W>,
) -> Result<Ended, ListError>
    ensures keeps { Keeps (W.contents output.old.writer) (W.contents output.new.writer) }
    ensures ends { Flushes how output.old.failed output.new.failed output.new.forwarded result }
{
    match how {
        Ok(ended) => match output.flush() {
            Ok(()) => Ok(ended),
            Err(_) => Err(ListError::Output),
        },
        Err(why) => Err(why),
    }
}

// Dumps these sections of the input as lines.
fn dump_lines<R: Source, W: Write>(
    alloc: Global,
    shown: Shown<'_>,
    format: Format,
    titles: Titles,
    input: &mut R,
    output: WriteSink<W>,
) -> (Result<Ended, ListError>, WriteSink<W>)
    requires { format.is_json ≡ false }
    ensures { DumpsTo R.Source W.contents format shown.entry input.old input.new
        output result.1 result.0 }
{
    let colored = Colored::new(output, format.has_colors());
    let mut tree = TextLines::with_names(alloc, colored, format.base(), titles.names);
    let how = dump(alloc, shown, input, &mut tree, PIECE);
    let colored = tree.into_output();
    (how, colored.into_inner())
}

// Dumps these sections of the input as JSON objects.
fn dump_objects<R: Source, W: Write>(
    alloc: Global,
    shown: Shown<'_>,
    format: Format,
    titles: Titles,
    input: &mut R,
    output: WriteSink<W>,
) -> (Result<Ended, ListError>, WriteSink<W>)
    requires { format.is_json ≡ true }
    ensures { DumpsTo R.Source W.contents format shown.entry input.old input.new
        output result.1 result.0 }
{
    let Titles { file, names } = titles;
    let mut tree = Objects::of_file(alloc, output, names, file);
    let how = dump(alloc, shown, input, &mut tree, PIECE);
    (how, tree.into_output())
}

// Dumps these sections of the input as lines or objects.
fn dump_over<R: Source, W: Write>(
    alloc: Global,
    shown: Shown<'_>,
    format: Format,
    titles: Titles,
    input: &mut R,
    output: WriteSink<W>,
) -> (Result<Ended, ListError>, WriteSink<W>)
    ensures { DumpsTo R.Source W.contents format shown.entry input.old input.new
        output result.1 result.0 }
{
    if format.is_json {
        dump_objects(alloc, shown, format, titles, input, output)
    } else {
        dump_lines(alloc, shown, format, titles, input, output)
    }
}

/// Writes the dump of the input in a format, flushes the output, and returns how the stream ended, and the
/// output.
///
/// `shown` chooses the events. With colors, the output is the dump with escape sequences between its bytes.
///
/// # Errors
///
/// Those of `wasm_dumper::dump`, and `Output` if flushing fails.
///
/// ```rattle
/// let mut input = SliceSource::new(b"\0asm\x01\0\0\0");
/// let mut text = Vec::new(alloc);
/// let output = WriteSink::new(&mut text);
/// let shown = Shown { only: &[Only::All], has_bytes: false, found: &[] };
/// let titles = Titles { file: None, names: None };
/// let (ended, _) = dump_as(alloc, shown, Format::new(), titles, &mut input, output);
/// assert_eq!(rt; ended, Ok(Ended::End));
/// assert_eq!(rt; text.as_slice(), b"version 0 8 1 module\nend 8\n".as_slice());
/// ```
pub fn dump_as<R: Source, W: Write>(
    alloc: Global,
    shown: Shown<'_>,
    format: Format,
    titles: Titles,
    input: &mut R,
    output: WriteSink<W>,
) -> (Result<Ended, ListError>, WriteSink<W>)
    // Proved: `dump_as` dumps what is chosen in a format, and flushes what was written, or returns
    //   `Output` if that fails; after a dump that was given up it returns why
    // Proved: with colors, what the output received is the same text without its colors: no byte of
    //   the text is lost, changed or out of order [that of `dump_as` (`seen_as`)]
    ensures { RunsTo R.Source W.contents format shown.entry input.old input.new
        output result.1 result.0 }
{
    let (how, mut output) = dump_over(alloc, shown, format, titles, input, output);
    let result = forward_all(how, &mut output);
    (result, output)
}
