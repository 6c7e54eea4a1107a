// What items are written to.
ghost use Rattle.std.specs.Prelude.{◌≡◌, ◌++◌, ◌∷◌, [], None, codes, decimal, false, take, true};
ghost use Rattle.std.specs.List.{flat_map};
ghost use Rattle.std.specs.Fmt.{signed_decimal};
ghost use Rattle.std.specs.Option.{is_some};
ghost use Rattle.wasm_output.specs.Fields.{alone, cut_mark, field_start, field_text, named, number as number_value, word as word_value, quoted, raw};
ghost use Rattle.wasm_output.specs.Fields.{range, signed as signed_value, flag as flag_value, number_if_any as optional, hexadecimal, is_default as is_default_value};
ghost use Rattle.wasm_io.specs.Offsets.{offset_text};
ghost use Rattle.wasm_output.specs.Said.{Says, SaysInBase, SaysSome};
ghost use Rattle.wasm_output.specs.Tree.{Adds, AddsBytes, AddsFirst, AddsNumber, IsOut, Writing, are_lines, has_line_feed};
ghost use Rattle.wasm_output.specs.declared.objects.Spot.TheVariants.{Outside};
ghost use Rattle.wasm_output.specs.declared.tree.Style.TheVariants.{Objects};
ghost use Rattle.wasm_output.specs.Values.{breaks_line, start_breaks_line, value_of};

use crate::escapes::{GROUP, digits_of};
use crate::known_names::ItemNames;
use crate::numbers::Space;
use std::alloc::Global;
use wasm_base::Error;
use wasm_io::{Base, ListError, ShortText};

/// How many bytes of a byte string are shown.
const SHOWN: usize = 16;

// The bytes of a byte string that are shown: its first ones.
fn first_bytes(bytes: &[u8]) -> &[u8]
    ensures { result.now ≡ take 16 bytes.now }
{
    if bytes.len() <= SHOWN {
        bytes
    } else {
        &bytes[..SHOWN]
    }
}

/// The format of what a tree writes.
#[derive(Clone, Copy)]
pub enum Style {
    /// Lines of text, indented by two blanks a level, with offsets in this base.
    Lines(Base),
    /// Lines of JSON (RFC 8259), each one object.
    Objects,
}

/// The start of a line under another one.
#[derive(Clone, Copy)]
pub enum Start<'a> {
    /// No start: the next calls write the line.
    Empty,
    /// The offset at which an item begins, in bytes from the start of the stream.
    Item(u64),
    /// A word, for a line without an offset.
    Word(&'a str),
    /// A field with this name, whose value is the texts that the next calls write.
    Field(&'a str),
}

/// The value of a field.
#[derive(Clone, Copy)]
pub enum Value<'a> {
    /// An unsigned number.
    Number(u64),
    /// A signed number.
    Signed(i64),
    /// `true` or `false`. Lines leave out a field that is `false`.
    Flag(bool),
    /// A word, without a line feed.
    Word(&'a str),
    /// A text. In lines it is in double quotes, where `"`, `\` and bytes outside 32 to 126 are `\` and two hexadecimal
    /// digits.
    Quoted(&'a str),
    /// A range of offsets, in bytes from the start of the stream: `start..end` in lines.
    Range(u64, u64),
    /// No value. Lines leave out such a field.
    Nothing,
}

/// Whether lines leave out a field with this value: `false`, or no value.
pub(crate) fn is_default(value: Value<'_>) -> bool
    ensures { result ≡ is_default_value (value_of value.entry) }
{
    match value {
        Value::Flag(flag) => !flag,
        Value::Nothing => true,
        _ => false,
    }
}

/// A writer of lines under other lines, composed of fields.
///
/// `begin_line` begins a line, the other calls write its parts, and `end` or the next `begin_line` ends it. Names,
/// words and texts must not have line feeds. Lines are buffered; call `write_out` at the end.
///
/// # Errors
///
/// No call returns an error. When the sink or an allocation fails, the tree stops and writes nothing more. `stopped`
/// then returns `Output` or `Memory`.
///
/// ```rattle
/// let mut out = TextLines::new(alloc, BoundedSink::new(alloc, 1000)?);
/// out.line(1, "memory");
/// out.number("initial", 2);
/// out.flag("shared", false);
/// out.end();
/// out.write_out();
/// assert_eq!(rt; out.stopped(), None);
/// assert_eq!(rt; out.into_output().written(), b"  memory initial=2\n".as_slice());
/// ```
pub trait Tree {
    // A tree owns its sink: had it a `&mut`, the checker would know nothing of the sink once a call has taken the tree.

    /// What it has written.
    ghost writing: { Self → Writing };

    /// Returns why the tree has stopped, if it has: `Output` or `Memory`.
    fn stopped(&self) -> Option<ListError>
        ensures { result ≡ (writing self.now).why };

    /// Returns the format of what the tree writes.
    fn style(&self) -> Style
        ensures { result ≡ (writing self.now).style };

    /// Stops the tree because an allocation failed.
    fn out_of_memory(&mut self)
        // Proved: what a writer has written below a line stays below it [`adds`, or the clause of each call of `Tree`
        //   and of each call that shows (`Adds`); `first` of `TextLines` (`AddsFirst`)]
        ensures adds { Adds (writing self.old) (writing self.new) }
        ensures style { (writing self.new).style ≡ (writing self.old).style }
        ensures stops { is_some (writing self.new).why ≡ true };

    /// Writes the buffered bytes to the sink. Ends the current line first, and shows the remaining bytes of
    /// `begin_part`.
    fn write_out(&mut self)
        ensures adds { Adds (writing self.old) (writing self.new) }
        // Proved: a writer stops if its sink fails or an allocation does
        ensures out { IsOut (writing self.new) };

    /// Ends the current line, if one is begun.
    fn end(&mut self)
        ensures adds { Adds (writing self.old) (writing self.new) }
        ensures style { (writing self.new).style ≡ (writing self.old).style }
        ensures ended { are_lines (writing self.new).style ≡ true
            → (writing self.new).is_begun ≡ false }
        ensures outside { (writing self.new).style ≡ Objects → (writing self.new).spot ≡ Outside };

    /// Begins a line at this level. A line of level 1 is under a line of the first level, and so on. Ends the current
    /// line first.
    fn begin_line(&mut self, level: usize, start: Start<'_>)
        requires one_line { start_breaks_line start ≡ false }
        ensures { Adds (writing self.old) (writing self.new) };

    /// Writes bytes of a text, without a line feed, as they are. In objects they belong to the current field.
    fn bytes(&mut self, bytes: &[u8])
        requires one_line { has_line_feed bytes.now ≡ false }
        ensures adds { Adds (writing self.old) (writing self.new) }
        ensures says { Says bytes.now (writing self.old) (writing self.new) }
        ensures some { SaysSome (writing self.old) (writing self.new) };

    /// Writes a number in decimal digits.
    fn digits(&mut self, number: u64)
        ensures adds { Adds (writing self.old) (writing self.new) }
        ensures says { Says (decimal number) (writing self.old) (writing self.new) }
        ensures some { SaysSome (writing self.old) (writing self.new) };

    /// Writes an offset, in bytes from the start of the stream: in the base of the lines, or in decimal digits.
    fn offset(&mut self, offset: u64)
        ensures adds { Adds (writing self.old) (writing self.new) }
        ensures says { SaysInBase (λ base. offset_text base offset) (writing self.old) (writing self.new) }
        ensures some { SaysSome (writing self.old) (writing self.new) };

    /// Begins a field, whose value is the texts that the next calls write. In lines, writes a blank, the name and `=`.
    fn begin_field(&mut self, name: &str)
        requires one_line { has_line_feed name.now ≡ false }
        ensures adds { Adds (writing self.old) (writing self.new) }
        ensures says { Says (field_start name.now) (writing self.old) (writing self.new) }
        ensures some { SaysSome (writing self.old) (writing self.new) };

    /// Writes a field: its name and its value.
    fn field(&mut self, name: &str, value: Value<'_>)
        requires name_line { has_line_feed name.now ≡ false }
        requires value_line { breaks_line value ≡ false }
        ensures adds { Adds (writing self.old) (writing self.new) }
        // Proved: in the style of lines each field is a space, its name, `=` and its value, including text in quotes
        //   with its escapes, and ranges in the base of the tree [`says` of each call of `Tree` that writes a field
        //   (`SaysInBase`, `field_text`)]
        // Proved: a field that is `false` or has no value is left out [the same]
        ensures says { SaysInBase (field_text (named name.now (value_of value.entry)))
            (writing self.old) (writing self.new) };

    /// Writes a word as the value of a field, without the name of the field in lines.
    fn label(&mut self, name: &str, word: &str)
        requires name_line { has_line_feed name.now ≡ false }
        requires word_line { has_line_feed word.now ≡ false }
        ensures adds { Adds (writing self.old) (writing self.new) }
        // Proved: a word or a label is a space and the word [`says` of `Tree::word` and `Tree::label` (`SaysInBase`,
        //   `field_text`)]
        ensures says { SaysInBase (field_text (alone word.now)) (writing self.old) (writing self.new) };

    /// Writes the number of an item, as `func[5]`, and its name after it, if the tree has one.
    fn item_number(&mut self, space: Space, index: u64)
        ensures { AddsNumber space index (writing self.old) (writing self.new) };

    /// Writes the name of an item, if the tree has one: in lines after a blank, in objects as a field.
    fn item_name(&mut self, space: Space, index: u64)
        ensures { Adds (writing self.old) (writing self.new) };

    /// Takes the names of items out of the tree, if it has some: until they are set again, it shows none.
    fn take_names(&mut self) -> Option<ItemNames>
        ensures { writing self.new ≡ writing self.old };

    /// Sets the names of items that the tree shows from now on.
    fn set_names(&mut self, names: ItemNames)
        ensures { writing self.new ≡ writing self.old };

    /// Writes a line of the first level: this text, and the name of the function with this index, if the tree has one.
    ///
    /// The text may end with numbers of items. A tree of objects writes nothing.
    fn first_of_function<T: ShortText>(&mut self, text: &T, function: Option<u64>)
        ensures { AddsFirst (T.text text.now ++ codes "\n") (writing self.old) (writing self.new) };

    /// Writes a line of the first level: this text, and this name in quotes after a blank.
    ///
    /// The text may end with numbers of items. A tree of objects writes nothing.
    fn first_named<T: ShortText>(&mut self, text: &T, name: &str)
        ensures { AddsFirst (T.text text.now ++ codes "\n") (writing self.old) (writing self.new) };

    /// Shows the bytes of a part of the stream, in rows of hexadecimal digits, between the lines that follow.
    ///
    /// The bytes begin at `offset` of the stream. Before each line the tree shows those up to the next of `cuts`, the
    /// offsets at which items begin; `write_out`, or the next part, shows the rest. A tree of objects does not show
    /// bytes.
    fn begin_part(&mut self, alloc: Global, offset: u64, bytes: &[u8], cuts: Vec<u64>)
        ensures { AddsBytes bytes.now (writing self.old) (writing self.new) };

    /// Returns whether the tree has stopped.
    final fn has_stopped(&self) -> bool
        ensures { result ≡ is_some (writing self.now).why }
    {
        self.stopped().is_some()
    }

    /// Begins the line of an item whose bytes begin at this offset, in bytes from the start of the stream.
    final fn item(&mut self, level: usize, offset: u64)
        ensures { Adds (writing self.old) (writing self.new) }
    {
        self.begin_line(level, Start::Item(offset));
    }

    /// Begins a line with this word.
    final fn line(&mut self, level: usize, word: &str)
        requires one_line { has_line_feed word.now ≡ false }
        ensures { Adds (writing self.old) (writing self.new) }
    {
        self.begin_line(level, Start::Word(word));
    }

    /// Begins a line with a field of this name, whose value is the texts that the next calls write.
    final fn line_field(&mut self, level: usize, name: &str)
        requires one_line { has_line_feed name.now ≡ false }
        ensures { Adds (writing self.old) (writing self.new) }
    {
        self.begin_line(level, Start::Field(name));
    }

    /// Writes a text as it is.
    #[inline(always)]
    final fn text(&mut self, text: &str)
        requires one_line { has_line_feed text.now ≡ false }
        ensures adds { Adds (writing self.old) (writing self.new) }
        ensures says { Says text.now (writing self.old) (writing self.new) }
        ensures some { SaysSome (writing self.old) (writing self.new) }
    {
        self.bytes(text.as_bytes());
    }

    /// Writes a blank and a word.
    final fn word(&mut self, word: &str)
        requires one_line { has_line_feed word.now ≡ false }
        ensures adds { Adds (writing self.old) (writing self.new) }
        ensures says { SaysInBase (field_text (alone word.now)) (writing self.old) (writing self.new) }
        ensures some { SaysSome (writing self.old) (writing self.new) }
    {
        self.text(" ");
        self.text(word);
    }

    /// Writes a signed number in decimal digits.
    final fn integer(&mut self, number: i64)
        ensures adds { Adds (writing self.old) (writing self.new) }
        ensures says { Says (signed_decimal number) (writing self.old) (writing self.new) }
        ensures some { SaysSome (writing self.old) (writing self.new) }
    {
        if number < 0 {
            self.text("-");
        }
        self.digits(number.unsigned_abs());
    }

    /// Writes bytes, each as two hexadecimal digits.
    final fn hexadecimals(&mut self, bytes: &[u8])
        ensures adds { Adds (writing self.old) (writing self.new) }
        ensures says { Says (flat_map hexadecimal bytes.now) (writing self.old) (writing self.new) }
        ensures some { SaysSome (writing self.old) (writing self.new) }
    {
        let mut rest = bytes;
        'groups: while rest.len() > GROUP {
            let (first, later) = rest.split_at(GROUP);
            self.bytes(digits_of(first).as_bytes());
            rest = later;
        }
        self.bytes(digits_of(rest).as_bytes());
    }

    /// Writes a field with a word as its value.
    #[inline(always)]
    final fn word_field(&mut self, name: &str, word: &str)
        requires name_line { has_line_feed name.now ≡ false }
        requires word_line { has_line_feed word.now ≡ false }
        ensures adds { Adds (writing self.old) (writing self.new) }
        ensures says { SaysInBase (field_text (named name.now (word_value word.now)))
            (writing self.old) (writing self.new) }
    {
        self.field(name, Value::Word(word));
    }

    /// Writes a field with an unsigned number as its value.
    #[inline(always)]
    final fn number(&mut self, name: &str, number: u64)
        requires one_line { has_line_feed name.now ≡ false }
        ensures adds { Adds (writing self.old) (writing self.new) }
        ensures says { SaysInBase (field_text (named name.now (number_value number)))
            (writing self.old) (writing self.new) }
    {
        self.field(name, Value::Number(number));
    }

    /// Writes a field with a signed number as its value.
    #[inline(always)]
    final fn signed(&mut self, name: &str, number: i64)
        requires one_line { has_line_feed name.now ≡ false }
        ensures adds { Adds (writing self.old) (writing self.new) }
        ensures says { SaysInBase (field_text (named name.now (signed_value number)))
            (writing self.old) (writing self.new) }
    {
        self.field(name, Value::Signed(number));
    }

    /// Writes a field with an optional number as its value.
    #[inline(always)]
    final fn number_if_any(&mut self, name: &str, number: Option<u64>)
        requires one_line { has_line_feed name.now ≡ false }
        ensures adds { Adds (writing self.old) (writing self.new) }
        ensures says { SaysInBase (field_text (named name.now (optional number)))
            (writing self.old) (writing self.new) }
    {
        match number {
            Some(number) => self.number(name, number),
            None => self.nothing(name),
        }
    }

    /// Writes a field without a value, which lines leave out.
    #[inline(always)]
    final fn nothing(&mut self, name: &str)
        requires one_line { has_line_feed name.now ≡ false }
        ensures adds { Adds (writing self.old) (writing self.new) }
        ensures says { SaysInBase (field_text (named name.now (optional None)))
            (writing self.old) (writing self.new) }
    {
        self.field(name, Value::Nothing);
    }

    /// Writes a field with a truth value, which lines leave out if it is `false`.
    #[inline(always)]
    final fn flag(&mut self, name: &str, flag: bool)
        requires one_line { has_line_feed name.now ≡ false }
        ensures adds { Adds (writing self.old) (writing self.new) }
        ensures says { SaysInBase (field_text (named name.now (flag_value flag)))
            (writing self.old) (writing self.new) }
    {
        self.field(name, Value::Flag(flag));
    }

    /// Writes a field with a text as its value, which lines quote and escape.
    #[inline(always)]
    final fn quoted(&mut self, name: &str, text: &str)
        requires one_line { has_line_feed name.now ≡ false }
        ensures adds { Adds (writing self.old) (writing self.new) }
        ensures says { SaysInBase (field_text (named name.now (quoted text.now)))
            (writing self.old) (writing self.new) }
    {
        self.field(name, Value::Quoted(text));
    }

    /// Writes, in lines, the mark after the bytes that are shown, if there are more.
    final fn cut_mark(&mut self, count: usize)
        ensures adds { Adds (writing self.old) (writing self.new) }
        ensures says { Says (cut_mark count) (writing self.old) (writing self.new) }
    {
        if count > SHOWN {
            if let Style::Lines(_) = self.style() {
                self.text("..");
            }
        }
    }

    /// Writes a field with bytes as its value: their number, a colon, and the first 16 in hexadecimal. In lines `..`
    /// follows if there are more.
    final fn raw(&mut self, name: &str, bytes: &[u8])
        requires one_line { has_line_feed name.now ≡ false }
        ensures adds { Adds (writing self.old) (writing self.new) }
        ensures says { SaysInBase (field_text (named name.now (raw bytes.now)))
            (writing self.old) (writing self.new) }
    {
        self.begin_field(name);
        self.digits(bytes.len() as u64);
        self.text(":");
        self.hexadecimals(first_bytes(bytes));
        self.cut_mark(bytes.len());
    }

    /// Writes a field with a range of offsets as its value, in bytes from the start of the stream.
    #[inline(always)]
    final fn range(&mut self, name: &str, start: u64, end: u64)
        requires one_line { has_line_feed name.now ≡ false }
        ensures adds { Adds (writing self.old) (writing self.new) }
        ensures says { SaysInBase (field_text (named name.now (range start end)))
            (writing self.old) (writing self.new) }
    {
        self.field(name, Value::Range(start, end));
    }

    /// Writes a line for a fault, at this level.
    final fn fault(&mut self, level: usize, error: &Error)
        ensures { Adds (writing self.old) (writing self.new) }
    {
        self.begin_line(level, Start::Empty);
        match self.style() {
            Style::Lines(_) => self.fault_text(error),
            Style::Objects => self.fault_fields(error),
        }
    }

    /// Writes a fault as fields: its message, its offset in bytes from the start of the stream, and its number, if it
    /// has one.
    final fn fault_fields(&mut self, error: &Error)
        ensures { Adds (writing self.old) (writing self.new) }
    {
        self.word_field("fault", error.message());
        self.number("offset", error.offset());
        self.number_if_any("number", error.number());
    }

    /// Writes a fault as text: `fault`, its offset in bytes from the start of the stream, its message, and its number,
    /// if it has one.
    final fn fault_text(&mut self, error: &Error)
        ensures adds { Adds (writing self.old) (writing self.new) }
        ensures some { SaysSome (writing self.old) (writing self.new) }
    {
        self.text("fault ");
        self.offset(error.offset());
        self.word(error.message());
        if let Some(number) = error.number() {
            self.text(": ");
            self.digits(number);
        }
    }
}
