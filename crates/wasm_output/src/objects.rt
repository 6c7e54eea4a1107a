// Lines of JSON, each an object.
ghost use Rattle.std.specs.List.{list_any};
ghost use Rattle.std.specs.Prelude.{◌≡◌, ◌≤◌, ◌<◌, false, length, true, None};
ghost use Rattle.wasm_output.specs.Fields.{is_escaped};
ghost use Rattle.wasm_output.specs.Json.{escaped_byte, is_in_string, Leads};
ghost use Rattle.wasm_output.specs.Tree.{Adds, starts_objects};
ghost use Rattle.wasm_output.specs.Written.{objects};
ghost use Rattle.wasm_output.specs.declared.objects.Spot.TheVariants.{Outside, Ended, InName, AtValue, InText};

use crate::escapes::{hexadecimal_digits, plain_count};
use crate::known_names::{ItemNames, name_in};
use crate::members::{
    ItemStart, MemberStart, NumberMember, NumberMembers, TextStart, name_start_of, object_end_of,
};
use crate::numbers::Space;
use crate::output::Output;
use crate::plain::Plain;
use crate::short::{Two, flag_word, signed_of};
use crate::tree::{Start, Style, Tree, Value};
use std::alloc::Global;
use wasm_io::{ListError, ShortText, Sink};

/// Where a tree of objects is.
#[derive(Clone, Copy)]
pub(crate) enum Spot {
    /// Before an object.
    Outside,
    /// In an object, after a member.
    Ended,
    /// In the name of a member.
    InName,
    /// Before the value of a member.
    AtValue,
    /// In a text, which is the value of a member.
    InText,
}

// The escape of a control character.
fn control_escape(byte: u8) -> [u8; 6]
    requires { byte < 32 }
    ensures { result ≡ escaped_byte byte }
{
    let digits = hexadecimal_digits(byte);
    [b'\\', b'u', b'0', b'0', digits[0], digits[1]]
}

/// A tree that writes JSON objects to a sink, each on a line (RFC 8259). It buffers at most 65,536 bytes.
///
/// An object has a member for each field. Texts outside of fields are left out. Call `write_out` at the end to write
/// the buffered objects.
///
/// ```rattle
/// let mut out = Objects::new(alloc, BoundedSink::new(alloc, 1000)?);
/// out.line(1, "import");
/// out.quoted("module", "env");
/// out.number("index", 5);
/// out.write_out();
/// let output = out.into_output();
/// let wanted = b"{\"level\":1,\"line\":\"import\",\"module\":\"env\",\"index\":5}\n";
/// assert_eq!(rt; output.written(), wanted.as_slice());
/// ```
pub struct Objects<W: Sink> {
    output: Output<W>,
    spot: Spot,
    names: Option<ItemNames>,
    // The name of the file that the objects are about.
    file: Option<String>,
}

impl<W: Sink> Objects<W> {
    /// Creates a tree of objects without names of items. Nothing is written yet.
    pub fn new(alloc: Global, output: W) -> Objects<W>
        ensures { objects result ≡ starts_objects (W.taken output) (W.has_failed output) }
    {
        Objects::with_names(alloc, output, None)
    }

    /// Creates a tree of objects, with names for items if there are any.
    pub fn with_names(alloc: Global, output: W, names: Option<ItemNames>) -> Objects<W>
        ensures { objects result ≡ starts_objects (W.taken output) (W.has_failed output) }
    {
        Objects::of_file(alloc, output, names, None)
    }

    /// Creates a tree of objects about a file, with names for items if there are any. If the name of the file is given,
    /// the last member of each object is `file`, which has it.
    ///
    /// ```rattle
    /// let file = String::from_str(alloc, "a.wasm")?;
    /// let mut out = Objects::of_file(alloc, BoundedSink::new(alloc, 1000)?, None, Some(file));
    /// out.line(1, "import");
    /// out.write_out();
    /// let output = out.into_output();
    /// let wanted = b"{\"level\":1,\"line\":\"import\",\"file\":\"a.wasm\"}\n";
    /// assert_eq!(rt; output.written(), wanted.as_slice());
    /// ```
    pub fn of_file(
        alloc: Global,
        output: W,
        names: Option<ItemNames>,
        file: Option<String>,
    ) -> Objects<W>
        ensures { objects result ≡ starts_objects (W.taken output) (W.has_failed output) }
    {
        Objects {
            output: Output::new(alloc, output),
            spot: Spot::Outside,
            names,
            file,
        }
    }

    /// Returns the sink, with what was written to it. Buffered bytes are dropped: call `write_out` first.
    pub fn into_output(self) -> W
        ensures taken { W.taken result ≡ (objects self).taken }
        ensures failed { W.has_failed result ≡ (objects self).has_failed }
    {
        let Objects {
            output,
            spot: _,
            names: _,
            file: _,
        } = self;
        output.into_sink()
    }

    /// Returns the number of buffered bytes, at most 65,536.
    pub fn waits(&self) -> usize
        ensures waits { result ≡ length (objects self.now).waiting }
        ensures bounded { result ≤ 65536 }
    {
        self.output.waits()
    }

    // Puts bytes that lead to this spot.
    fn put(&mut self, bytes: &[u8], spot: Spot)
        requires short { length bytes.now ≤ 65536 }
        requires leads { Leads self.old.spot bytes.now spot }
        ensures adds { Adds (objects self.old) (objects self.new) }
        ensures spot { self.new.spot ≡ spot }
    {
        self.output.put(bytes);
        self.spot = spot;
    }

    // Puts a text that leads to this spot.
    fn short<T: ShortText>(&mut self, text: &T, spot: Spot)
        requires leads { Leads self.old.spot (T.text text.now) spot }
        ensures adds { Adds (objects self.old) (objects self.new) }
        ensures spot { self.new.spot ≡ spot }
    {
        self.output.put_text(text);
        self.spot = spot;
    }

    // Puts a byte of a string, escaped if it must be.
    fn put_escaped(&mut self, byte: u8)
        requires in_string { is_in_string self.old.spot ≡ true }
        ensures adds { Adds (objects self.old) (objects self.new) }
        ensures spot { self.new.spot ≡ self.old.spot }
    {
        let spot = self.spot;
        if byte < 32 {
            self.put(&control_escape(byte), spot);
        } else if byte == b'"' || byte == b'\\' {
            self.put(&[b'\\', byte], spot);
        } else {
            self.put(&[byte], spot);
        }
    }

    // Puts more of a string.
    fn put_string(&mut self, bytes: &[u8])
        requires in_string { is_in_string self.old.spot ≡ true }
        ensures adds { Adds (objects self.old) (objects self.new) }
        ensures spot { self.new.spot ≡ self.old.spot }
    {
        let mut rest = bytes;
        'runs: while let Some((byte, later)) = rest.split_first() {
            let count = plain_count(rest);
            if count == 0 {
                self.put_escaped(*byte);
                rest = later;
            } else {
                let (plain, others) = rest.split_at(count);
                let spot = self.spot;
                self.put(plain, spot);
                rest = others;
            }
        }
    }

    // Puts more of a text, if one is begun. No byte is escaped.
    fn plain_text(&mut self, bytes: &[u8])
        requires short { length bytes.now ≤ 65536 }
        requires plain { list_any is_escaped bytes.now ≡ false }
        ensures { Adds (objects self.old) (objects self.new) }
    {
        if let Spot::InText = self.spot {
            self.put(bytes, Spot::InText);
        }
    }

    // Like `plain_text`, for bytes that may have escapes.
    fn any_text(&mut self, bytes: &[u8])
        ensures { Adds (objects self.old) (objects self.new) }
    {
        if let Spot::InText = self.spot {
            self.put_string(bytes);
        }
    }

    // Begins a member with a short name.
    fn begin_plain_member(&mut self, name: Plain<'_>)
        requires { list_any is_escaped name ≡ false }
        ensures adds { Adds (objects self.old) (objects self.new) }
        ensures spot { self.new.spot ≡ AtValue }
    {
        let start = MemberStart {
            spot: self.spot,
            name,
        };
        self.short(&start, Spot::AtValue);
    }

    // Begins a member whose name is long or has escapes.
    #[tactic(auto, using(crate::proofs::MemberTexts::start_leads))]
    fn begin_long_member(&mut self, name: &str)
        ensures adds { Adds (objects self.old) (objects self.new) }
        ensures spot { self.new.spot ≡ AtValue }
    {
        self.short(&name_start_of(self.spot), Spot::InName);
        self.put_string(name.as_bytes());
        self.put(b"\":", Spot::AtValue);
    }

    // Ends the line, and begins the object of an item.
    fn begin_item(&mut self, level: usize, offset: u64)
        ensures { Adds (objects self.old) (objects self.new) }
    {
        self.put_file();
        let start = ItemStart {
            spot: self.spot,
            level: level as u64,
            offset,
        };
        self.short(&start, Spot::Ended);
    }

    // Ends the line, and begins an object with its level.
    fn begin_level(&mut self, level: usize)
        ensures { Adds (objects self.old) (objects self.new) }
    {
        self.end();
        self.member("level", Value::Number(level as u64));
    }

    // Puts the name of the file at the end of an object, if one is begun and the name is known.
    fn put_file(&mut self)
        ensures { Adds (objects self.old) (objects self.new) }
    {
        if let Spot::Outside = self.spot {
            return;
        }
        let file = self.file.take();
        if let Some(name) = &file {
            self.member("file", Value::Quoted(name.as_str()));
        }
        self.file = file;
    }

    // Puts the number of an item.
    fn number_members(&mut self, space: Space, index: u64)
        ensures { Adds (objects self.old) (objects self.new) }
    {
        let members = NumberMembers {
            spot: self.spot,
            space,
            index,
        };
        self.short(&members, Spot::Ended);
    }

    // Puts a long text, or one with escapes, as the value.
    fn begin_long_text(&mut self, text: &str)
        requires { self.old.spot ≡ AtValue }
        ensures { Adds (objects self.old) (objects self.new) }
    {
        self.put(b"\"", Spot::InText);
        self.put_string(text.as_bytes());
    }

    // Puts a text as the value. More of it may follow.
    fn begin_text(&mut self, text: &str)
        requires { self.old.spot ≡ AtValue }
        ensures { Adds (objects self.old) (objects self.new) }
    {
        match Plain::of(text) {
            Some(text) => self.short(&TextStart { text }, Spot::InText),
            None => self.begin_long_text(text),
        }
    }

    // Puts a number as the value.
    fn decimal(&mut self, number: u64)
        requires { self.old.spot ≡ AtValue }
        ensures { Adds (objects self.old) (objects self.new) }
    {
        self.short(&number, Spot::Ended);
    }

    // Puts an array of two numbers as the value.
    fn pair(&mut self, first: u64, second: u64)
        requires { self.old.spot ≡ AtValue }
        ensures { Adds (objects self.old) (objects self.new) }
    {
        self.short(&Two { first, second }, Spot::Ended);
    }

    // Puts the value.
    fn value(&mut self, value: Value<'_>)
        requires { self.old.spot ≡ AtValue }
        ensures { Adds (objects self.old) (objects self.new) }
    {
        match value {
            Value::Number(number) => self.decimal(number),
            Value::Signed(number) => self.short(&signed_of(number), Spot::Ended),
            Value::Flag(flag) => self.put(flag_word(flag).as_bytes(), Spot::Ended),
            Value::Word(text) | Value::Quoted(text) => self.begin_text(text),
            Value::Range(start, end) => self.pair(start, end),
            Value::Nothing => self.put(b"null", Spot::Ended),
        }
    }

    // A member whose value is a number. Many are, so that it is put at once.
    fn number_member(&mut self, name: Plain<'_>, number: u64)
        requires { list_any is_escaped name ≡ false }
        ensures { Adds (objects self.old) (objects self.new) }
    {
        let member = NumberMember {
            spot: self.spot,
            name,
            number,
        };
        self.short(&member, Spot::Ended);
    }

    // A member whose value is a text. More of it may follow.
    fn text_member(&mut self, name: Plain<'_>, text: &str)
        requires { list_any is_escaped name ≡ false }
        ensures { Adds (objects self.old) (objects self.new) }
    {
        self.begin_plain_member(name);
        self.begin_text(text);
    }

    // A member with a short name and this value.
    #[inline(always)]
    fn plain_member(&mut self, name: Plain<'_>, value: Value<'_>)
        requires { list_any is_escaped name ≡ false }
        ensures { Adds (objects self.old) (objects self.new) }
    {
        match value {
            Value::Number(number) => self.number_member(name, number),
            Value::Word(text) | Value::Quoted(text) => self.text_member(name, text),
            other => {
                self.begin_plain_member(name);
                self.value(other);
            }
        }
    }

    // A member with this value, whose name is long or has escapes.
    fn long_member(&mut self, name: &str, value: Value<'_>)
        ensures { Adds (objects self.old) (objects self.new) }
    {
        self.begin_long_member(name);
        self.value(value);
    }

    // A member with this value. Most names are constants. Since this is inlined in the caller, LLVM searches such a name
    // for escapes when it compiles, and knows the kind of the value.
    #[inline(always)]
    fn member(&mut self, name: &str, value: Value<'_>)
        ensures { Adds (objects self.old) (objects self.new) }
    {
        match Plain::of(name) {
            Some(name) => self.plain_member(name, value),
            None => self.long_member(name, value),
        }
    }
}

#[tactic(auto, using(crate::proofs::Saying::says_never, crate::proofs::Saying::says_none_ever))]
impl<W: Sink> Tree for Objects<W> {
    ghost writing = { λ t. objects t };

    fn stopped(&self) -> Option<ListError> {
        self.output.stopped()
    }

    fn style(&self) -> Style {
        Style::Objects
    }

    fn out_of_memory(&mut self) {
        self.output.out_of_memory();
    }

    fn write_out(&mut self) {
        self.end();
        self.output.write_out();
    }

    #[tactic(auto, using(crate::proofs::MemberTexts::end_leads))]
    fn end(&mut self) {
        self.put_file();
        self.short(&object_end_of(self.spot), Spot::Outside);
    }

    fn begin_line(&mut self, level: usize, start: Start<'_>) {
        match start {
            Start::Empty => self.begin_level(level),
            Start::Item(offset) => self.begin_item(level, offset),
            Start::Word(word) => {
                self.begin_level(level);
                self.member("line", Value::Word(word));
            }
            Start::Field(name) => {
                self.begin_level(level);
                self.member(name, Value::Word(""));
            }
        }
    }

    // Most texts are constants, so this is inlined in the caller, like `member`.
    #[inline(always)]
    fn bytes(&mut self, bytes: &[u8]) {
        if plain_count(bytes) == bytes.len() {
            self.plain_text(bytes);
        } else {
            self.any_text(bytes);
        }
    }

    fn digits(&mut self, number: u64) {
        if let Spot::InText = self.spot {
            self.short(&number, Spot::InText);
        }
    }

    fn offset(&mut self, offset: u64) {
        self.digits(offset);
    }

    #[inline(always)]
    fn begin_field(&mut self, name: &str) {
        self.member(name, Value::Word(""));
    }

    #[inline(always)]
    fn field(&mut self, name: &str, value: Value<'_>) {
        self.member(name, value);
    }

    #[inline(always)]
    fn label(&mut self, name: &str, word: &str) {
        self.member(name, Value::Word(word));
    }

    fn item_number(&mut self, space: Space, index: u64) {
        self.number_members(space, index);
        self.item_name(space, index);
    }

    fn item_name(&mut self, space: Space, index: u64) {
        let names = self.names.take();
        if let Some(name) = name_in(&names, space, index) {
            self.member("item_name", Value::Quoted(name));
        }
        self.names = names;
    }

    fn take_names(&mut self) -> Option<ItemNames> {
        self.names.take()
    }

    fn set_names(&mut self, names: ItemNames) {
        self.names = Some(names);
    }

    fn first_of_function<T: ShortText>(&mut self, _text: &T, _function: Option<u64>) {}

    fn first_named<T: ShortText>(&mut self, _text: &T, _name: &str) {}

    fn begin_part(&mut self, _alloc: Global, _offset: u64, _bytes: &[u8], _cuts: Vec<u64>) {}
}
