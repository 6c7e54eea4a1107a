// The name of a custom section.
ghost use Rattle.std.specs.Prelude.{◌≡◌, [], Some};
ghost use Rattle.std.specs.Str.{IsUtf8};
ghost use Rattle.wasm_base.specs.Hints.{Hints, missing_of_sized};
ghost use Rattle.wasm_base.specs.Name.{name_limit, text_at};
ghost use Rattle.wasm_base.specs.Outcome.{GivesBy};
ghost use Rattle.wasm_base.specs.Window.{place, KeepsWindow};

use std::fmt;
use std::marker::Model;
use wasm_base::{BinaryReader, Result};

/// A name.
#[derive(Drop)]
pub(crate) struct Name<'a> {
    bytes: &'a [u8],
    // The same as text, for a caller that needs it: `std` makes a `&str` only by a check of its own.
    text: Option<&'a str>,
}

impl<'a> Model for Name<'a> {
    ghost use Rattle.std.specs.Prelude.{ℕ, List, option_map};
    ghost use Rattle.wasm_frames.specs.Frame.{IsName};

    ghost Value = { List ℕ };

    ghost view = { λ name. name.bytes.now };

    ghost invariant = { λ name. IsName name.bytes.now (option_map (λ text. text.now) name.text) };
}

impl<'a> fmt::Debug for Name<'a> {
    fn fmt<W: fmt::Write>(&self, f: &mut fmt::Formatter<W>) -> fmt::Result {
        write!(f, "{:?}", self.text())
    }
}

impl<'a> Name<'a> {
    /// The name of a part that has none.
    #[inline(always)]
    pub(crate) fn none() -> Self
        ensures { result ≡ [] }
    {
        Name {
            bytes: &[],
            text: Some(""),
        }
    }

    /// Reads a name, and keeps it as text too if `AS_TEXT` says so.
    #[inline(always)]
    pub(crate) fn read<const AS_TEXT: bool>(reader: &mut BinaryReader<'a>) -> Result<Self>
        ensures gives { GivesBy (λ name. name) result reader.old reader.new (text_at (Some name_limit)) }
        ensures keeps { KeepsWindow reader.old reader.new }
        ensures hints { Hints (missing_of_sized (place reader.old)) result }
    {
        if AS_TEXT {
            let text = reader.read_string()?;
            Ok(Name {
                bytes: text.as_bytes(),
                text: Some(text),
            })
        } else {
            let bytes = reader.read_string_bytes()?;
            Ok(Name { bytes, text: None })
        }
    }

    /// Returns its bytes.
    #[inline(always)]
    pub(crate) fn bytes(&self) -> &'a [u8]
        ensures { result.now ≡ self.now }
    {
        self.bytes
    }

    /// Returns it as text.
    #[inline(always)]
    pub(crate) fn text(&self) -> &'a str
        ensures { result.now ≡ self.now }
    {
        match self.text {
            Some(text) => text,
            None => text_of(self.bytes),
        }
    }
}

// Returns these bytes as text. A call, so that it costs nothing where the name is known as text.
#[inline(never)]
fn text_of(bytes: &[u8]) -> &str
    requires { IsUtf8 bytes.now }
    ensures { result.now ≡ bytes.now }
{
    match std::str::from_utf8(bytes) {
        Ok(text) => text,
        Err(_) => unreachable!(),
    }
}
