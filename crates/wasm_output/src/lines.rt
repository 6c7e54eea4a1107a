// Lines of text, some of them under others.
ghost use Rattle.std.specs.Prelude.{◌≡◌, ◌≤◌, ◌++◌, [], None, true, false, codes, decimal, length, option_map};
ghost use Rattle.std.specs.List.{flat_map};
ghost use Rattle.std.specs.Option.{is_some};
ghost use Rattle.wasm_io.specs.Offsets.{offset_text};
ghost use Rattle.wasm_io.specs.declared.digits.Base.TheVariants.{Decimal};
ghost use Rattle.wasm_output.specs.Fields.{alone, field_start, field_text, named, quoted_byte, quoted_text, value_text, whole_field_text};
ghost use Rattle.wasm_output.specs.Said.{Says, SaysInBase, SaysSome};
ghost use Rattle.wasm_output.specs.Tree.{Adds, AddsBytes, AddsFirst, IsOut, has_line_feed, name_text, starts};
ghost use Rattle.wasm_output.specs.Values.{breaks_line, value_of};
ghost use Rattle.wasm_output.specs.Written.{lines};

use crate::escapes::{PAGE_BYTES, hexadecimal_digits, is_escaped, plain_count};
use crate::known_names::{ItemNames, function_name, name_in};
use crate::numbers::{ItemNumber, Space};
use crate::output::Output;
use crate::plain::{FieldStart, NumberField, Plain, Quoted};
use crate::rows::Rows;
use crate::short::{Offset, flag_word, signed_of};
use crate::tree::{Start, Style, Tree, Value, is_default};
use std::alloc::Global;
use wasm_io::{Base, ListError, ShortText, Sink};

/// A tree that writes lines of text to a sink, indented by two blanks a level. It buffers at most 65,536 bytes.
///
/// Items with a name have it after their numbers. If the bytes of the stream are shown, they are in rows before the
/// lines that are read from them. Call `write_out` at the end to write the buffered lines.
///
/// ```rattle
/// let mut out = TextLines::new(alloc, BoundedSink::new(alloc, 1000)?);
/// out.first(b"section 2 10 20 1 import\n");
/// out.item(1, 11);
/// out.quoted("module", "env");
/// out.number("index", 5);
/// out.write_out();
/// let wanted = b"section 2 10 20 1 import\n  11 module=\"env\" index=5\n";
/// assert_eq!(rt; out.into_output().written(), wanted.as_slice());
/// ```
pub struct TextLines<W: Sink> {
    output: Output<W>,
    base: Base,
    is_begun: bool,
    names: Option<ItemNames>,
    rows: Rows,
}

impl<W: Sink> TextLines<W> {
    /// Creates a tree of lines with decimal offsets and without names of items. Nothing is written yet.
    pub fn new(alloc: Global, output: W) -> TextLines<W>
        ensures { lines result ≡ starts Decimal (W.taken output) (W.has_failed output) }
    {
        TextLines::with_names(alloc, output, Base::Decimal, None)
    }

    /// Creates a tree of lines with offsets in this base, and with names for items if there are any.
    pub fn with_names(
        alloc: Global,
        output: W,
        base: Base,
        names: Option<ItemNames>,
    ) -> TextLines<W>
        // Proved: what holds for a tree holds for one that has names of items, with offsets in either base
        //   [`with_names` of `TextLines` and `Objects` (`starts`, `starts_objects`), `Tree::item_number` (`AddsNumber`)]
        ensures { lines result ≡ starts base (W.taken output) (W.has_failed output) }
    {
        TextLines {
            output: Output::new(alloc, output),
            base,
            is_begun: false,
            names,
            rows: Rows::new(alloc),
        }
    }

    /// Returns the sink, with what was written to it. Buffered bytes are dropped: call `write_out` first.
    pub fn into_output(self) -> W
        ensures taken { W.taken result ≡ (lines self).taken }
        ensures failed { W.has_failed result ≡ (lines self).has_failed }
    {
        let TextLines {
            output,
            base: _,
            is_begun: _,
            names: _,
            rows: _,
        } = self;
        output.into_sink()
    }

    /// Returns the number of buffered bytes, at most 65,536.
    pub fn waits(&self) -> usize
        ensures waits { result ≡ length (lines self.now).waiting }
        // Proved: at most 65,536 bytes of a tree wait to be written [`bounded` of `waits` of `TextLines` and `Objects`,
        //   by the invariant of a `Page`]
        ensures bounded { result ≤ 65536 }
    {
        self.output.waits()
    }

    /// Writes a line of the first level. It ends with a line feed, and has at most 65,536 bytes.
    ///
    /// The line may end with numbers of items.
    pub fn first(&mut self, line: &[u8])
        requires { length line.now ≤ 65536 }
        ensures { AddsFirst line.now (lines self.old) (lines self.new) }
    {
        self.rows_to_cut();
        self.output.put(line);
    }

    // Writes a line of the first level, with a name after its text, if there is one.
    fn first_with_name<T: ShortText>(&mut self, text: &T, name: Option<&str>)
        ensures { AddsFirst (T.text text.now ++ codes "\n") (lines self.old) (lines self.new) }
    {
        self.rows_to_cut();
        self.is_begun = true;
        self.named_text(text, name);
        self.is_begun = false;
    }

    // A name may be longer than a page, so this line is put in parts. What is written is stated before and after it only.
    // Puts a text, a name, if there is one, and the line feed.
    fn named_text<T: ShortText>(&mut self, text: &T, name: Option<&str>)
        ensures { Says (T.text text.now ++ (name_text (option_map (λ n. n.now) name.entry)
            ++ codes "\n")) (lines self.old) (lines self.new) }
    {
        self.output.put_text(text);
        self.name_in_quotes(name);
        self.output.put(b"\n");
    }

    // Puts a name in quotes after a blank, if there is one.
    fn name_in_quotes(&mut self, name: Option<&str>)
        ensures adds { Adds (lines self.old) (lines self.new) }
        ensures says { Says (name_text (option_map (λ n. n.now) name.entry))
            (lines self.old) (lines self.new) }
    {
        if let Some(name) = name {
            self.bytes(b" ");
            self.in_quotes(name);
        }
    }

    // Begins a line, if none is begun.
    fn begin(&mut self)
        ensures adds { Adds (lines self.old) (lines self.new) }
        ensures begun { self.new.is_begun ≡ true }
        ensures same { self.old.is_begun ≡ true → self.new ≡ self.old }
    {
        if self.is_begun {
            return;
        }
        self.output.put(b"  ");
        self.is_begun = true;
    }

    // Writes bytes, at most a page of them, on the line that is begun.
    #[inline(always)]
    fn piece(&mut self, bytes: &[u8])
        requires short { length bytes.now ≤ 65536 }
        requires one_line { has_line_feed bytes.now ≡ false }
        ensures adds { Adds (lines self.old) (lines self.new) }
        ensures says { Says bytes.now (lines self.old) (lines self.new) }
        ensures some { SaysSome (lines self.old) (lines self.new) }
    {
        self.begin();
        self.output.put(bytes);
    }

    // Writes a short text on the line that is begun.
    fn short<T: ShortText>(&mut self, text: &T)
        requires one_line { has_line_feed (T.text text.now) ≡ false }
        ensures adds { Adds (lines self.old) (lines self.new) }
        ensures says { Says (T.text text.now) (lines self.old) (lines self.new) }
        ensures some { SaysSome (lines self.old) (lines self.new) }
    {
        self.begin();
        self.output.put_text(text);
    }

    // Writes a byte of a text in quotes.
    fn quoted_byte(&mut self, byte: u8)
        ensures adds { Adds (lines self.old) (lines self.new) }
        ensures says { Says (quoted_byte byte) (lines self.old) (lines self.new) }
    {
        if is_escaped(byte) {
            self.bytes(b"\\");
            self.bytes(&hexadecimal_digits(byte));
        } else {
            self.bytes(&[byte]);
        }
    }

    // Writes the bytes of a text in quotes, plain ones many at once.
    fn quoted_bytes(&mut self, bytes: &[u8])
        ensures adds { Adds (lines self.old) (lines self.new) }
        ensures says { Says (flat_map quoted_byte bytes.now) (lines self.old) (lines self.new) }
    {
        let mut rest = bytes;
        'runs: while let Some((byte, later)) = rest.split_first() {
            let count = plain_count(rest);
            if count == 0 {
                self.quoted_byte(*byte);
                rest = later;
            } else {
                let (plain, others) = rest.split_at(count);
                self.piece(plain);
                rest = others;
            }
        }
    }

    // Writes a long text, or one with escapes, in quotes.
    fn long_in_quotes(&mut self, text: &str)
        ensures adds { Adds (lines self.old) (lines self.new) }
        ensures says { Says (quoted_text text.now) (lines self.old) (lines self.new) }
    {
        self.bytes(b"\"");
        self.quoted_bytes(text.as_bytes());
        self.bytes(b"\"");
    }

    // Writes a text in quotes.
    fn in_quotes(&mut self, text: &str)
        ensures adds { Adds (lines self.old) (lines self.new) }
        ensures says { Says (quoted_text text.now) (lines self.old) (lines self.new) }
    {
        match Plain::of(text) {
            Some(text) => self.short(&Quoted { text }),
            None => self.long_in_quotes(text),
        }
    }

    // Begins a field with a long name.
    fn begin_long_field(&mut self, name: &str)
        requires one_line { has_line_feed name.now ≡ false }
        ensures adds { Adds (lines self.old) (lines self.new) }
        ensures says { Says (field_start name.now) (lines self.old) (lines self.new) }
        ensures some { SaysSome (lines self.old) (lines self.new) }
    {
        self.bytes(b" ");
        self.bytes(name.as_bytes());
        self.bytes(b"=");
    }

    // Writes a range of offsets.
    fn offsets(&mut self, start: u64, end: u64)
        ensures adds { Adds (lines self.old) (lines self.new) }
        ensures says { SaysInBase
            (λ base. offset_text base start ++ (codes ".." ++ offset_text base end))
            (lines self.old) (lines self.new) }
    {
        self.offset(start);
        self.bytes(b"..");
        self.offset(end);
    }

    // Writes the value of a field.
    #[inline(always)]
    fn value(&mut self, value: Value<'_>)
        requires one_line { breaks_line value ≡ false }
        ensures adds { Adds (lines self.old) (lines self.new) }
        ensures says { SaysInBase (value_text (value_of value.entry)) (lines self.old) (lines self.new) }
    {
        match value {
            Value::Number(number) => self.digits(number),
            Value::Signed(number) => self.short(&signed_of(number)),
            Value::Flag(flag) => self.bytes(flag_word(flag).as_bytes()),
            Value::Word(word) => self.bytes(word.as_bytes()),
            Value::Quoted(text) => self.in_quotes(text),
            Value::Range(start, end) => self.offsets(start, end),
            Value::Nothing => self.bytes(b"none"),
        }
    }

    // Writes a field whose value is a number. Most are, so that it is put at once.
    #[inline(always)]
    fn number_field(&mut self, name: &str, number: u64)
        requires one_line { has_line_feed name.now ≡ false }
        ensures adds { Adds (lines self.old) (lines self.new) }
        ensures says { Says (field_start name.now ++ decimal number) (lines self.old) (lines self.new) }
    {
        match FieldStart::of(name) {
            Some(start) => self.short(&NumberField { start, number }),
            None => {
                self.begin_long_field(name);
                self.digits(number);
            }
        }
    }

    // Writes a field whatever its value is.
    #[inline(always)]
    fn whole_field(&mut self, name: &str, value: Value<'_>)
        requires name_line { has_line_feed name.now ≡ false }
        requires value_line { breaks_line value ≡ false }
        ensures adds { Adds (lines self.old) (lines self.new) }
        ensures says { SaysInBase (whole_field_text name.now (value_of value.entry))
            (lines self.old) (lines self.new) }
    {
        if let Value::Number(number) = value {
            self.number_field(name, number);
            return;
        }
        self.begin_field(name);
        self.value(value);
    }

    // Begins a line at this level.
    fn indent(&mut self, level: usize)
        ensures { Adds (lines self.old) (lines self.new) }
    {
        self.begin();
        for _ in 1..level {
            self.bytes(b"  ");
        }
    }

    // Shows the bytes in rows that end at this offset at the latest, or all. Most dumps show none.
    #[inline(always)]
    fn rows_to(&mut self, end: Option<u64>)
        requires ended { self.old.is_begun ≡ false }
        ensures adds { Adds (lines self.old) (lines self.new) }
        ensures ended { self.new.is_begun ≡ false }
        ensures all { end ≡ None → self.new.rows ≡ [] }
    {
        if !self.rows.is_empty() {
            self.put_rows(end);
        }
    }

    // Puts rows of bytes that end at this offset at the latest, or of all bytes.
    #[inline(never)]
    fn put_rows(&mut self, end: Option<u64>)
        requires ended { self.old.is_begun ≡ false }
        ensures adds { Adds (lines self.old) (lines self.new) }
        ensures ended { self.new.is_begun ≡ false }
        ensures all { end ≡ None → self.new.rows ≡ [] }
    {
        'rows: while let Some((row, count)) = self.rows.next_row(self.base, end) {
            self.output.put_text(&row);
            self.rows.pass(count);
        }
    }

    // Ends the line that is begun, and shows the bytes up to the next item.
    fn rows_to_cut(&mut self)
        ensures adds { Adds (lines self.old) (lines self.new) }
        ensures ended { self.new.is_begun ≡ false }
    {
        self.end();
        let end = self.rows.next_cut();
        self.rows_to(end);
    }

    // Ends the line that is begun, and shows all bytes that are left.
    fn rows_to_end(&mut self)
        ensures adds { Adds (lines self.old) (lines self.new) }
        ensures ended { self.new.is_begun ≡ false }
        ensures all { self.new.rows ≡ [] }
    {
        self.end();
        self.rows_to(None);
    }
}

impl<W: Sink> Tree for TextLines<W> {
    ghost writing = { λ t. lines t };

    fn stopped(&self) -> Option<ListError> {
        self.output.stopped()
    }

    fn style(&self) -> Style {
        Style::Lines(self.base)
    }

    fn out_of_memory(&mut self) {
        self.output.out_of_memory();
    }

    fn write_out(&mut self)
        ensures adds { Adds (lines self.old) (lines self.new) }
        ensures out { IsOut (lines self.new) }
    {
        self.rows_to_end();
        self.output.write_out();
    }

    fn end(&mut self) {
        if !self.is_begun {
            return;
        }
        self.output.put(b"\n");
        self.is_begun = false;
    }

    fn begin_line(&mut self, level: usize, start: Start<'_>) {
        if let Start::Item(_) = start {
            self.rows_to_cut();
        }
        self.end();
        self.indent(level);
        match start {
            Start::Empty => {}
            Start::Item(offset) => self.offset(offset),
            Start::Word(word) => self.bytes(word.as_bytes()),
            Start::Field(name) => {
                self.bytes(name.as_bytes());
                self.bytes(b"=");
            }
        }
    }

    #[inline(always)]
    fn bytes(&mut self, bytes: &[u8])
        requires one_line { has_line_feed bytes.now ≡ false }
        ensures adds { Adds (lines self.old) (lines self.new) }
        ensures says { Says bytes.now (lines self.old) (lines self.new) }
        ensures some { SaysSome (lines self.old) (lines self.new) }
    {
        let mut rest = bytes;
        'pieces: while rest.len() > PAGE_BYTES {
            let (first, later) = rest.split_at(PAGE_BYTES);
            self.piece(first);
            rest = later;
        }
        self.piece(rest);
    }

    fn digits(&mut self, number: u64) {
        self.short(&number);
    }

    fn offset(&mut self, offset: u64) {
        self.short(&Offset {
            base: self.base,
            offset,
        });
    }

    #[inline(always)]
    fn begin_field(&mut self, name: &str)
        requires one_line { has_line_feed name.now ≡ false }
        ensures adds { Adds (lines self.old) (lines self.new) }
        ensures says { Says (field_start name.now) (lines self.old) (lines self.new) }
        ensures some { SaysSome (lines self.old) (lines self.new) }
    {
        match FieldStart::of(name) {
            Some(start) => self.short(&start),
            None => self.begin_long_field(name),
        }
    }

    #[inline(always)]
    fn field(&mut self, name: &str, value: Value<'_>)
        requires name_line { has_line_feed name.now ≡ false }
        requires value_line { breaks_line value ≡ false }
        ensures adds { Adds (lines self.old) (lines self.new) }
        ensures says { SaysInBase (field_text (named name.now (value_of value.entry)))
            (lines self.old) (lines self.new) }
    {
        if !is_default(value) {
            self.whole_field(name, value);
        }
    }

    #[inline(always)]
    fn label(&mut self, _name: &str, word: &str)
        requires word_line { has_line_feed word.now ≡ false }
        ensures adds { Adds (lines self.old) (lines self.new) }
        ensures says { SaysInBase (field_text (alone word.now)) (lines self.old) (lines self.new) }
    {
        self.bytes(b" ");
        self.bytes(word.as_bytes());
    }

    fn item_number(&mut self, space: Space, index: u64) {
        self.begin();
        self.output.put_text(&ItemNumber { space, index });
        self.item_name(space, index);
    }

    fn item_name(&mut self, space: Space, index: u64) {
        let names = self.names.take();
        self.name_in_quotes(name_in(&names, space, index));
        self.names = names;
    }

    fn take_names(&mut self) -> Option<ItemNames> {
        self.names.take()
    }

    fn set_names(&mut self, names: ItemNames) {
        self.names = Some(names);
    }

    fn first_of_function<T: ShortText>(&mut self, text: &T, function: Option<u64>) {
        let names = self.names.take();
        self.first_with_name(text, function_name(&names, function));
        self.names = names;
    }

    fn first_named<T: ShortText>(&mut self, text: &T, name: &str) {
        self.first_with_name(text, Some(name));
    }

    fn begin_part(&mut self, alloc: Global, offset: u64, bytes: &[u8], cuts: Vec<u64>)
        ensures { AddsBytes bytes.now (lines self.old) (lines self.new) }
    {
        self.rows_to_end();
        if self.output.stopped().is_some() {
            return;
        }
        match Rows::of(alloc, offset, bytes, cuts) {
            Ok(rows) => self.rows = rows,
            Err(_) => self.output.out_of_memory(),
        }
    }
}
