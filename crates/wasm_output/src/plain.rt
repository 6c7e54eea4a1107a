// Short texts without escapes, which are put at once.
ghost use Rattle.std.specs.List.{list_any};
ghost use Rattle.std.specs.Prelude.{◌≡◌, ◌≤◌, ◌+◌, ◌++◌, IfSome, false, length, take};
ghost use Rattle.wasm_output.specs.Fields.{field_start, is_escaped};

use crate::escapes::plain_count;
use std::marker::Model;
use wasm_io::{ShortText, write_number, write_word};

/// Longer texts are put in parts.
const MOST_BYTES: usize = 128;

/// A text of at most 128 bytes, none of which is escaped.
#[derive(Drop)]
pub(crate) struct Plain<'a> {
    text: &'a str,
}

impl<'a> Model for Plain<'a> {
    ghost use Rattle.std.specs.List.{list_any};
    ghost use Rattle.std.specs.Prelude.{◌≡◌, ◌≤◌, ℕ, List, false, length};
    ghost use Rattle.wasm_output.specs.Fields.{is_escaped};

    ghost Value = { List ℕ };

    ghost view = { λ p. p.text.now };

    ghost invariant = { λ p. (length p.text.now ≤ 128) × (list_any is_escaped p.text.now ≡ false) };
}

impl<'a> Plain<'a> {
    /// This text, if it is short and has no escapes.
    #[inline(always)]
    pub(crate) fn of(text: &'a str) -> Option<Plain<'a>>
        ensures text { IfSome result (λ p. p ≡ text.now) }
        ensures plain { IfSome result (λ p. list_any is_escaped p ≡ false) }
    {
        if text.len() <= MOST_BYTES && plain_count(text.as_bytes()) == text.len() {
            Some(Plain { text })
        } else {
            None
        }
    }

    /// The text.
    #[inline(always)]
    pub(crate) fn as_str(&self) -> &str
        ensures text { result.now ≡ self.now }
        ensures short { length result.now ≤ 128 }
    {
        self.text
    }
}

/// The start of a field: a blank, its name of at most 128 bytes, and an equals sign.
#[derive(Drop)]
pub(crate) struct FieldStart<'a> {
    name: &'a str,
}

impl<'a> Model for FieldStart<'a> {
    ghost use Rattle.std.specs.Prelude.{◌≤◌, ℕ, List, length};
    ghost use Rattle.wasm_output.specs.Fields.{field_start};

    ghost Value = { List ℕ };

    ghost view = { λ f. field_start f.name.now };

    ghost invariant = { λ f. length f.name.now ≤ 128 };
}

impl<'a> FieldStart<'a> {
    /// The start of a field with this name, if it is short.
    #[inline(always)]
    pub(crate) fn of(name: &'a str) -> Option<FieldStart<'a>>
        ensures { IfSome result (λ f. f ≡ field_start name.now) }
    {
        if name.len() <= MOST_BYTES {
            Some(FieldStart { name })
        } else {
            None
        }
    }
}

impl ShortText for FieldStart<'_> {
    ghost text = { λ f. f };

    #[inline(always)]
    fn write_at(&self, bytes: &mut [u8], at: usize) -> usize {
        write_field_start(bytes, at, self)
    }
}

// Writes the start of a field.
#[inline(always)]
fn write_field_start(bytes: &mut [u8], at: usize, start: &FieldStart<'_>) -> usize
    requires { at + 130 ≤ length bytes.old }
    ensures short { result ≤ at + 130 }
    ensures written { take result bytes.new ≡ take at bytes.old ++ start.now }
{
    let at = write_word(bytes, at, " ");
    let at = write_word(bytes, at, start.name);
    write_word(bytes, at, "=")
}

/// A field whose value is a number.
#[derive(Drop)]
pub(crate) struct NumberField<'a> {
    pub(crate) start: FieldStart<'a>,
    pub(crate) number: u64,
}

impl ShortText for NumberField<'_> {
    ghost use Rattle.std.specs.Prelude.{◌++◌, decimal};

    ghost text = { λ f. f.start ++ decimal f.number };

    #[inline(always)]
    fn write_at(&self, bytes: &mut [u8], at: usize) -> usize {
        let at = write_field_start(bytes, at, &self.start);
        write_number(bytes, at, self.number)
    }
}

/// A text in quotes.
#[derive(Drop)]
pub(crate) struct Quoted<'a> {
    pub(crate) text: Plain<'a>,
}

impl ShortText for Quoted<'_> {
    ghost use Rattle.std.specs.Prelude.{◌++◌, codes};

    ghost text = { λ q. codes "\"" ++ (q.text ++ codes "\"") };

    #[inline(always)]
    fn write_at(&self, bytes: &mut [u8], at: usize) -> usize {
        let at = write_word(bytes, at, "\"");
        let at = write_word(bytes, at, self.text.as_str());
        write_word(bytes, at, "\"")
    }
}
