// The format of a dump.
ghost use Rattle.std.specs.Prelude.{◌≡◌, None};
ghost use Rattle.wasm_commands.specs.Formats.{color_in, colors_asked, colors_when, format_asked, has_colors, offset_base, or_text, plain_format, unless_excluded};
ghost use Rattle.wasm_commands.specs.Parsing.{reads_of};
ghost use Rattle.wasm_commands.specs.declared.options.Flag.TheVariants as option;

use crate::arguments::Arguments;
use crate::messages::Complaint;
use crate::options::{Flag, Verb};
use wasm_io::Base;

/// The format of a dump, and what it shows besides the items.
///
/// ```rattle
/// let format = Format { is_json: true, ..Format::new() };
/// assert!(rt; !format.is_colored);
/// ```
#[derive(Clone, Copy)]
pub struct Format {
    /// Whether the text has colors, as a terminal shows them (`--color`). JSON has none.
    pub is_colored: bool,
    /// Whether items have the names that custom sections have for them (`--names`).
    pub is_named: bool,
    /// Whether each line is a JSON object (`--json`).
    pub is_json: bool,
    /// Whether offsets are hexadecimal (`--hex`). JSON has no such numbers.
    pub is_hex: bool,
}

impl Format {
    /// Returns the default format: text without colors and names, with decimal offsets.
    pub fn new() -> Format
        ensures { result ≡ plain_format }
    {
        Format {
            is_colored: false,
            is_named: false,
            is_json: false,
            is_hex: false,
        }
    }

    /// Returns whether the dump has colors.
    pub(crate) fn has_colors(self) -> bool
        ensures { result ≡ has_colors self }
    {
        !self.is_json && self.is_colored
    }

    /// Returns the base of the offsets in lines.
    pub(crate) fn base(self) -> Base
        ensures { result ≡ offset_base self }
    {
        if self.is_hex {
            Base::Hexadecimal
        } else {
            Base::Decimal
        }
    }
}

// Returns whether `--color` with a value asks for colors.
fn colors_for<'a>(verb: Verb, when: &'a str, is_terminal: bool) -> Result<bool, Complaint<'a>>
    ensures { or_text result ≡ colors_when verb when.now is_terminal }
{
    match when {
        "always" => Ok(true),
        "never" => Ok(false),
        "auto" => Ok(is_terminal),
        _ => Err(Complaint::WrongValue(verb, "--color", when)),
    }
}

// Returns whether there are colors: `--color` alone asks for them.
fn colors_of<'a>(
    verb: Verb,
    arguments: &Arguments<'a>,
    is_terminal: bool,
) -> Result<bool, Complaint<'a>>
    ensures { or_text result ≡ colors_asked verb (color_in (reads_of arguments.now)) is_terminal }
{
    match arguments.last(Flag::Color) {
        None => Ok(false),
        Some(None) => Ok(true),
        Some(Some(when)) => colors_for(verb, when, is_terminal),
    }
}

// Returns the format, unless JSON is asked for with what it has not: colors, rows of bytes, hexadecimal numbers.
fn unless_contradictory(
    verb: Verb,
    format: Format,
    has_bytes: bool,
) -> Result<Format, Complaint<'static>>
    ensures { or_text result ≡ unless_excluded verb format has_bytes }
{
    if !format.is_json {
        Ok(format)
    } else if format.is_colored {
        Err(Complaint::Excluded(verb, "--json", "--color"))
    } else if has_bytes {
        Err(Complaint::Excluded(verb, "--json", "--bytes"))
    } else if format.is_hex {
        Err(Complaint::Excluded(verb, "--json", "--hex"))
    } else {
        Ok(format)
    }
}

/// Returns the format that options ask for, or what is wrong with them.
pub(crate) fn format_of<'a>(
    verb: Verb,
    arguments: &Arguments<'a>,
    is_terminal: bool,
) -> Result<Format, Complaint<'a>>
    // Proved: the format that options ask for; `--json` with `--color`, `--bytes` or `--hex` is
    //   refused, and a value of `--color` but `always`, `never` and `auto`
    ensures { or_text result ≡ format_asked verb (reads_of arguments.now) is_terminal }
{
    let is_colored = match colors_of(verb, arguments, is_terminal) {
        Ok(is_colored) => is_colored,
        Err(complaint) => return Err(complaint),
    };
    let format = Format {
        is_colored,
        is_named: arguments.has(Flag::Names),
        is_json: arguments.has(Flag::Json),
        is_hex: arguments.has(Flag::Hex),
    };
    unless_contradictory(verb, format, arguments.has(Flag::Bytes))
}
