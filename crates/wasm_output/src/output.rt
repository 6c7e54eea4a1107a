// A sink with the bytes that wait for it.
ghost use Rattle.std.specs.Prelude.{◌≡◌, ◌≤◌, [], None, length};
ghost use Rattle.std.specs.List.{flat_map};
ghost use Rattle.wasm_output.specs.Fields.{quoted_byte, quoted_text};
ghost use Rattle.wasm_io.specs.Offsets.{offset_text};
ghost use Rattle.wasm_output.specs.Said.{PutsMore};
ghost use Rattle.wasm_output.specs.Tree.{Put, Puts, Rest, stopped_without_memory, with_rest};

use crate::escapes::{PAGE_BYTES, hexadecimal_digits, is_escaped, plain_count};
use crate::short::Offset;
use std::alloc::Global;
use std::marker::Model;
use wasm_io::{Base, ListError, Page, ShortText, Sink};

/// A sink, and the bytes that wait for it until there are many: at most 65,536.
///
/// No call returns an error. Where the sink fails, or an allocation does, the output stops, and nothing more is written.
///
/// ```rattle
/// let mut out = Output::new(alloc, BoundedSink::new(alloc, 1000)?);
/// out.put_offset(Base::Hexadecimal, 60);
/// out.put_long(b": ");
/// out.put_quoted("a\nb");
/// out.write_out();
/// assert_eq!(rt; out.stopped(), None);
/// assert_eq!(rt; out.into_sink().written(), b"0x3c: \"a\\0ab\"".as_slice());
/// ```
pub struct Output<W: Sink> {
    sink: W,
    page: Page,
    why: Option<ListError>,
}

impl<W: Sink> Model for Output<W> {
    ghost use Rattle.wasm_output.specs.Tree.{Put};

    ghost Value = { Put };

    ghost view = { λ t. record { taken = W.taken t.sink; waiting = t.page; has_failed = W.has_failed t.sink; why = t.why } };
}

impl<W: Sink> Output<W> {
    /// Creates an output to this sink. Nothing is written yet.
    pub fn new(alloc: Global, sink: W) -> Output<W>
        ensures { result ≡ record {
          taken = W.taken sink;
          waiting = [];
          has_failed = W.has_failed sink;
          why = None;
        } }
    {
        Output {
            sink,
            page: Page::new(alloc),
            why: None,
        }
    }

    /// Returns the sink, with what was written to it. Bytes that wait are dropped: call `write_out` first.
    pub fn into_sink(self) -> W
        ensures taken { W.taken result ≡ self.taken }
        ensures failed { W.has_failed result ≡ self.has_failed }
    {
        let Output {
            sink,
            page: _,
            why: _,
        } = self;
        sink
    }

    /// Returns why the output has stopped, if it has: `Output` or `Memory`.
    pub fn stopped(&self) -> Option<ListError>
        ensures { result ≡ self.now.why }
    {
        self.why
    }

    /// How many bytes wait to be written: never more than 65,536.
    pub(crate) fn waits(&self) -> usize
        ensures waits { result ≡ length self.now.waiting }
        ensures bounded { result ≤ 65536 }
    {
        self.page.len()
    }

    /// Stops the output because an allocation failed, unless it has stopped.
    pub fn out_of_memory(&mut self)
        ensures { self.new ≡ stopped_without_memory self.old }
    {
        if self.why.is_none() {
            self.why = Some(ListError::Memory);
        }
    }

    /// Puts bytes after those that wait, unless the output has stopped; it stops where this can't be.
    pub(crate) fn put(&mut self, bytes: &[u8])
        requires short { length bytes.now ≤ 65536 }
        ensures { (rest : Rest)
            → Puts bytes.now (with_rest rest self.old) (with_rest rest self.new) }
    {
        if self.why.is_some() {
            return;
        }
        if let Err(why) = self.page.put(bytes, &mut self.sink) {
            self.why = Some(why);
        }
    }

    /// Like `put`, for a text, which is written where it waits.
    pub(crate) fn put_text<T: ShortText>(&mut self, text: &T)
        ensures { (rest : Rest)
            → Puts (T.text text.now) (with_rest rest self.old) (with_rest rest self.new) }
    {
        if self.why.is_some() {
            return;
        }
        if let Err(why) = self.page.put_text(text, &mut self.sink) {
            self.why = Some(why);
        }
    }

    /// Writes the bytes that wait to the sink, unless the output has stopped.
    pub fn write_out(&mut self)
        ensures puts { (rest : Rest) → Puts [] (with_rest rest self.old) (with_rest rest self.new) }
        ensures all { self.new.why ≡ None → self.new.waiting ≡ [] }
    {
        if self.why.is_some() {
            return;
        }
        if let Err(why) = self.page.write_out(&mut self.sink) {
            self.why = Some(why);
        }
    }

    // Like `put`, for a text that others are put after.
    fn put_more(&mut self, bytes: &[u8])
        requires short { length bytes.now ≤ 65536 }
        ensures { PutsMore bytes.now self.old self.new }
    {
        self.put(bytes);
    }

    /// Puts a short text after the others.
    pub fn put_short<T: ShortText>(&mut self, text: &T)
        ensures { PutsMore (T.text text.now) self.old self.new }
    {
        self.put_text(text);
    }

    /// Puts bytes after the others, however many.
    pub fn put_long(&mut self, bytes: &[u8])
        ensures { PutsMore bytes.now self.old self.new }
    {
        let mut rest = bytes;
        'pieces: while rest.len() > PAGE_BYTES {
            let (first, later) = rest.split_at(PAGE_BYTES);
            self.put_more(first);
            rest = later;
        }
        self.put_more(rest);
    }

    // Puts a byte of a text in quotes.
    fn put_quoted_byte(&mut self, byte: u8)
        ensures { PutsMore (quoted_byte byte) self.old self.new }
    {
        if is_escaped(byte) {
            self.put_more(b"\\");
            self.put_more(&hexadecimal_digits(byte));
        } else {
            self.put_more(&[byte]);
        }
    }

    // Puts the bytes of a text in quotes, plain ones many at once.
    fn put_quoted_bytes(&mut self, bytes: &[u8])
        ensures { PutsMore (flat_map quoted_byte bytes.now) self.old self.new }
    {
        let mut rest = bytes;
        'runs: while let Some((byte, later)) = rest.split_first() {
            let count = plain_count(rest);
            if count == 0 {
                self.put_quoted_byte(*byte);
                rest = later;
            } else {
                let (plain, others) = rest.split_at(count);
                self.put_more(plain);
                rest = others;
            }
        }
    }

    /// Puts an offset, in bytes from the start of the stream, in this base.
    pub fn put_offset(&mut self, base: Base, offset: u64)
        ensures { PutsMore (offset_text base offset) self.old self.new }
    {
        self.put_short(&Offset { base, offset });
    }

    /// Puts a text in double quotes, where `"`, `\` and bytes outside 32 to 126 are `\` and two hexadecimal digits.
    pub fn put_quoted(&mut self, text: &str)
        ensures { PutsMore (quoted_text text.now) self.old self.new }
    {
        self.put_more(b"\"");
        self.put_quoted_bytes(text.as_bytes());
        self.put_more(b"\"");
    }
}
