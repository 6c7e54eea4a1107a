// A buffer before a sink.
ghost use Rattle.std.specs.Prelude.{◌≡◌, ◌≤◌, ◌+◌, ◌++◌, [], codes, length, take, vec_len, IfErr, IfOk, OnErr, OnOk};
ghost use Rattle.wasm_io.specs.Calls.{output_failed};
ghost use Rattle.std.specs.Io.KnownBytes.{Appends};
ghost use Rattle.wasm_io.specs.Page.{IsCut, Puts, PutsBytes, WritesHead, WritesOut};
ghost use Rattle.wasm_io.specs.declared.devices.ListError.TheVariants.{Memory, Output};

use crate::devices::{ListError, Sink, write_all};
use crate::short_text::{ShortText, TEXT_BYTES, write_bytes, write_word};
use std::alloc::{Allocator, Global};
use std::marker::Model;

/// The most bytes that a page buffers.
const PAGE_BYTES: usize = 65_536;

// Makes the buffer a whole page, of which no byte is kept. Returns `Memory` when an allocation fails.
fn fill<A: Allocator>(bytes: &mut Vec<u8, A>) -> Result<(), ListError>
    requires { vec_len bytes.old ≤ 65536 }
    ensures len { OnOk result (vec_len bytes.new ≡ 65536) }
    ensures err { IfErr result (λ e. (e ≡ Memory) × (vec_len bytes.new ≡ vec_len bytes.old)) }
    ensures kept { OnErr result (bytes.new.items ≡ bytes.old.items) }
{
    match bytes.resize(PAGE_BYTES, 0) {
        Ok(()) => Ok(()),
        Err(_) => Err(ListError::Memory),
    }
}

// Writes a text and its end at the index `at`, and returns the index after both.
#[inline(always)]
fn write_ended<T: ShortText>(bytes: &mut [u8], at: usize, text: &T, end: &str) -> usize
    requires { (at + 160 ≤ length bytes.old) × (length end.now ≤ 1) }
    ensures within { result ≤ at + 160 }
    ensures written { take result bytes.new
        ≡ take at bytes.old ++ (T.text text.now ++ end.now) }
{
    let after = text.write_at(bytes, at);
    write_word(bytes, after, end)
}

// Writes the first `len` bytes, and makes the buffer a whole page, of which no byte is kept.
#[inline(never)]
fn begin_anew<A: Allocator, W: Sink>(
    bytes: &mut Vec<u8, A>,
    len: usize,
    output: &mut W,
) -> Result<(), ListError>
    requires { (len ≤ vec_len bytes.old) × (vec_len bytes.old ≤ 65536) }
    ensures writes { OnOk result (Appends (W.taken output.old) (W.taken output.new)
        (take len bytes.old.items)) }
    ensures whole { OnOk result (vec_len bytes.new ≡ 65536) }
    ensures cut { IfErr result (λ e. IsCut (W.taken output.old) (W.taken output.new)
        (take len bytes.old.items) e) }
    ensures keeps { IfErr result (λ e. vec_len bytes.new ≡ vec_len bytes.old) }
    ensures kept { OnErr result (bytes.new.items ≡ bytes.old.items) }
    ensures failed { W.has_failed output.new
        ≡ output_failed result (W.has_failed output.old) }
{
    write_first(bytes, len, output)?;
    fill(bytes)
}

// Writes the first `len` bytes. Returns `Output` if the sink fails; a prefix of them is then written.
fn write_first<W: Sink>(bytes: &[u8], len: usize, output: &mut W) -> Result<(), ListError>
    requires { len ≤ length bytes.now }
    ensures writes { OnOk result (Appends (W.taken output.old) (W.taken output.new)
        (take len bytes.now)) }
    ensures output { IfErr result (λ e. e ≡ Output) }
    ensures cut { OnErr result (WritesHead (W.taken output.old) (W.taken output.new)
        (take len bytes.now)) }
    ensures failed { W.has_failed output.new
        ≡ output_failed result (W.has_failed output.old) }
{
    match write_all(output, &bytes[..len]) {
        Ok(()) => Ok(()),
        Err(_) => Err(ListError::Output),
    }
}

// Makes room for `count` bytes after the first `len`, which are written if there is none, and returns the index of the room.
#[inline(always)]
fn make_room<A: Allocator, W: Sink>(
    bytes: &mut Vec<u8, A>,
    len: usize,
    count: usize,
    output: &mut W,
) -> Result<usize, ListError>
    requires page { (len ≤ vec_len bytes.old) × (vec_len bytes.old ≤ 65536) }
    requires short { count ≤ 65536 }
    ensures room { IfOk result (λ at. at + count ≤ vec_len bytes.new) }
    ensures page { vec_len bytes.new ≤ 65536 }
    ensures moves { IfOk result (λ at. PutsBytes (W.taken output.old) (W.taken output.new)
        (take len bytes.old.items) [] (take at bytes.new.items)) }
    ensures cut { IfErr result (λ e. IsCut (W.taken output.old) (W.taken output.new)
        (take len bytes.old.items) e) }
    ensures keeps { IfErr result (λ e. vec_len bytes.new ≡ vec_len bytes.old) }
    ensures kept { OnErr result (bytes.new.items ≡ bytes.old.items) }
    ensures failed { W.has_failed output.new
        ≡ output_failed result (W.has_failed output.old) }
{
    if count <= bytes.len() - len {
        return Ok(len);
    }
    begin_anew(bytes, len, output)?;
    Ok(0)
}

/// A buffer of up to 65,536 bytes before a sink, so that the sink is called once for many lines.
///
/// Call `write_out` at the end: dropping a page writes nothing.
///
/// ```rattle
/// let mut output = BoundedSink::new(alloc, 100)?;
/// let mut page = Page::new(alloc);
/// page.put(b"count ", &mut output)?;
/// page.put_line(&7_u64, &mut output)?;
/// assert_eq!(rt; output.written().len(), 0);
/// page.write_out(&mut output)?;
/// assert_eq!(rt; output.written(), b"count 7\n".as_slice());
/// ```
pub struct Page<A: Allocator = Global> {
    // No bytes, or a whole page of them: first the buffered ones.
    bytes: Vec<u8, A>,
    len: usize,
}

impl<A: Allocator> Drop for Page<A> {
    fn drop(self) {
        let Page { bytes: _, len: _ } = self;
    }
}

impl<A: Allocator> Model for Page<A> {
    ghost use Rattle.std.specs.Prelude.{ℕ, ◌≤◌, List, take, vec_len};

    ghost Value = { List ℕ };

    ghost view = { λ p. take p.len p.bytes.items };

    ghost invariant = { λ p. (p.len ≤ vec_len p.bytes) × (vec_len p.bytes ≤ 65536) };
}

impl<A: Allocator> Page<A> {
    /// Returns an empty page, which allocates its buffer with this allocator when bytes are first put.
    pub fn new(alloc: A) -> Self
        ensures { result ≡ [] }
    {
        // The first put allocates the whole page. So making one can't fail, and further puts only copy.
        Page {
            bytes: Vec::new(alloc),
            len: 0,
        }
    }

    /// Returns the number of buffered bytes, at most 65,536.
    pub fn len(&self) -> usize
        ensures len { result ≡ length self.now }
        ensures bounded { result ≤ 65536 }
    {
        self.len
    }

    /// Empties the page. The buffered bytes are not written.
    pub fn clear(&mut self)
        // Proved: `clear` empties a page
        ensures { self.new ≡ [] }
    {
        self.len = 0;
    }

    /// Appends at most 65,536 bytes to the buffer. If there is no room for them, the buffered bytes are written first.
    ///
    /// # Errors
    ///
    /// - `Output` if the sink fails.
    /// - `Memory` if an allocation fails.
    ///
    /// A prefix of the buffered bytes is then written. The page still holds all of them, and none of the new ones.
    #[inline(always)]
    pub fn put<W: Sink>(&mut self, bytes: &[u8], output: &mut W) -> Result<(), ListError>
        requires { length bytes.now ≤ 65536 }
        // Proved: what is put on a `Page`, at most 65,536 bytes, a text or a line, comes after what
        //   waits; a prefix of both may be written, and the remaining bytes wait [`puts`, `failed`
        //   of `put`, `put_text` and `put_line` (`Puts`)]
        // Proved: if the sink fails or an allocation does, a prefix of what waited was written, and
        //   the page still holds all of it [the same; `kept` on each, `writes` of `write_out`]
        ensures puts { Puts (W.taken output.old) (W.taken output.new)
            self.old bytes.now self.new result }
        ensures kept { OnErr result (self.new ≡ self.old) }
        ensures failed { W.has_failed output.new
            ≡ output_failed result (W.has_failed output.old) }
    {
        let at = make_room(&mut self.bytes, self.len, bytes.len(), output)?;
        self.len = write_bytes(&mut self.bytes, at, bytes);
        Ok(())
    }

    /// Appends a short text to the buffer, where it is written in place.
    ///
    /// # Errors
    ///
    /// Those of `put`.
    #[inline(always)]
    pub fn put_text<T: ShortText, W: Sink>(
        &mut self,
        text: &T,
        output: &mut W,
    ) -> Result<(), ListError>
        ensures puts { Puts (W.taken output.old) (W.taken output.new)
            self.old (T.text text.now) self.new result }
        ensures kept { OnErr result (self.new ≡ self.old) }
        ensures failed { W.has_failed output.new
            ≡ output_failed result (W.has_failed output.old) }
    {
        self.put_ended(text, "", output)
    }

    /// Appends a short text and a line feed to the buffer.
    ///
    /// # Errors
    ///
    /// Those of `put`.
    #[inline(always)]
    pub fn put_line<T: ShortText, W: Sink>(
        &mut self,
        text: &T,
        output: &mut W,
    ) -> Result<(), ListError>
        ensures puts { Puts (W.taken output.old) (W.taken output.new)
            self.old (T.text text.now ++ codes "\n") self.new result }
        ensures kept { OnErr result (self.new ≡ self.old) }
        ensures failed { W.has_failed output.new
            ≡ output_failed result (W.has_failed output.old) }
    {
        self.put_ended(text, "\n", output)
    }

    // Appends a text and its end.
    #[inline(always)]
    fn put_ended<T: ShortText, W: Sink>(
        &mut self,
        text: &T,
        end: &str,
        output: &mut W,
    ) -> Result<(), ListError>
        requires { length end.now ≤ 1 }
        ensures puts { Puts (W.taken output.old) (W.taken output.new)
            self.old (T.text text.now ++ end.now) self.new result }
        ensures kept { OnErr result (self.new ≡ self.old) }
        ensures failed { W.has_failed output.new
            ≡ output_failed result (W.has_failed output.old) }
    {
        let at = make_room(&mut self.bytes, self.len, TEXT_BYTES + 1, output)?;
        self.len = write_ended(&mut self.bytes, at, text, end);
        Ok(())
    }

    /// Writes the buffered bytes to the sink. The page is then empty.
    ///
    /// # Errors
    ///
    /// `Output` if the sink fails. A prefix of the buffered bytes is then written, and the page still holds all of them.
    pub fn write_out<W: Sink>(&mut self, output: &mut W) -> Result<(), ListError>
        ensures writes { WritesOut (W.taken output.old) (W.taken output.new)
            self.old self.new result }
        ensures kept { OnErr result (self.new ≡ self.old) }
        ensures failed { W.has_failed output.new
            ≡ output_failed result (W.has_failed output.old) }
    {
        write_first(&self.bytes, self.len, output)?;
        self.len = 0;
        Ok(())
    }
}
