// Where bytes go.
ghost use Rattle.std.specs.Prelude.{◌≡◌, ℕ, ◌≤◌, ◌<◌, Bool, true, false, List, Option, Some, None, Ok, [], length, take, min, IfOk, OnOk, OnErr, is_ok, if◌then◌else◌, vec_len, vec_capacity};
ghost use Rattle.std.specs.Io.KnownBytes.{WriteAppends, Appends, Keeps};

use super::Failed;
use std::alloc::{AllocError, Allocator, Global};
use std::io::{self, Write};

/// A device that bytes are written to, as many at a time as it takes: a file, a pipe, memory.
///
/// Implement it for your own output. `BoundedSink` keeps the bytes, and `WriteSink` covers everything with
/// `std::io::Write`.
///
/// ```rattle
/// let mut sink = BoundedSink::new(alloc, 4)?;
/// assert_eq!(rt; sink.write(b"abc")?, 3);
/// assert_eq!(rt; sink.write(b"def")?, 1);
/// assert_eq!(rt; sink.write(b"ef"), Err(Failed));
/// assert!(rt; sink.failed());
/// ```
pub trait Sink {
    /// The bytes that it has taken, where these are known.
    ghost taken: { Self → Option (List ℕ) } = { λ _. None };

    /// Whether a write has failed.
    ghost has_failed: { Self → Bool };

    /// Takes bytes from the start of `buf` and returns how many. It is 0 only if `buf` is empty.
    ///
    /// # Errors
    ///
    /// `Failed` if the write failed. No byte was taken.
    fn write(&mut self, buf: &[u8]) -> Result<usize, Failed>
        ensures bound { IfOk result (λ n. n ≤ length buf.now) }
        ensures some { IfOk result (λ n. 0 < length buf.now → 0 < n) }
        // Proved: the sources and sinks move the bytes that they say. A write of some bytes that
        //   succeeds takes at least one [`bound`, `bytes` of `Source` and `Sink`; `some` of `Sink`]
        ensures bytes { WriteAppends (taken self.old) (taken self.new) result buf.now }
        ensures failed { has_failed self.new
            ≡ (if is_ok result then has_failed self.old else true) };

    /// Returns whether a write has failed.
    fn failed(&self) -> bool
        ensures { result ≡ has_failed self.now };
}

/// Writes all bytes, in as many calls of `write` as the sink needs.
///
/// # Errors
///
/// `Failed` if a write failed. A prefix of the bytes is then written.
///
/// # Example
///
/// ```rattle
/// let mut sink = BoundedSink::new(alloc, 10)?;
/// write_all(&mut sink, b"abc")?;
/// assert_eq!(rt; sink.written(), b"abc".as_slice());
/// ```
pub fn write_all<W: Sink>(output: &mut W, bytes: &[u8]) -> Result<(), Failed>
    // Proved: `write_all` writes all bytes, or if the sink fails a prefix of them [`ok`, `err`,
    //   `failed` on `write_all`]
    ensures ok { OnOk result (Appends (W.taken output.old) (W.taken output.new) bytes.now) }
    ensures err { OnErr result
        ((n : ℕ) × Appends (W.taken output.old) (W.taken output.new) (take n bytes.now)) }
    ensures failed { W.has_failed output.new
        ≡ (if is_ok result then W.has_failed output.old else true) }
{
    let mut written = 0;
    while written < bytes.len() {
        written += output.write(&bytes[written..])?;
    }
    Ok(())
}

/// Returns an empty list with room for `size` bytes, up to which it grows without allocating.
///
/// # Errors
///
/// `AllocError` if the allocation fails.
pub fn list_of_capacity<A: Allocator>(alloc: A, size: usize) -> Result<Vec<u8, A>, AllocError>
    ensures empty { IfOk result (λ bytes. bytes.items ≡ []) }
    ensures capacity { IfOk result (λ bytes. size ≤ vec_capacity bytes) }
{
    Vec::with_capacity(alloc, size)
}

/// A sink that keeps up to `size` bytes in memory, and fails only when it is full.
///
/// ```rattle
/// let mut sink = BoundedSink::new(alloc, 4)?;
/// write_all(&mut sink, b"abcd")?;
/// assert_eq!(rt; write_all(&mut sink, b"ef"), Err(Failed));
/// assert_eq!(rt; sink.written(), b"abcd".as_slice());
/// ```
#[derive(Drop)]
pub struct BoundedSink<A: Allocator = Global> {
    bytes: Vec<u8, A>,
    size: usize,
    failed: bool,
    ghost capacity: { size ≤ vec_capacity bytes },
    ghost within: { vec_len bytes ≤ size },
}

impl BoundedSink {
    /// Returns a sink with room for `size` bytes, which it allocates at once.
    ///
    /// # Errors
    ///
    /// `AllocError` if the allocation fails.
    pub fn new(alloc: Global, size: usize) -> Result<Self, AllocError>
        ensures bytes { IfOk result (λ s. s.bytes.items ≡ []) }
        ensures size { IfOk result (λ s. s.size ≡ size) }
        ensures failed { IfOk result (λ s. s.failed ≡ false) }
    {
        BoundedSink::new_in(alloc, size)
    }
}

impl<A: Allocator> BoundedSink<A> {
    /// Like `new`, with memory from any allocator.
    ///
    /// # Errors
    ///
    /// Those of `new`.
    pub fn new_in(alloc: A, size: usize) -> Result<Self, AllocError>
        ensures bytes { IfOk result (λ s. s.bytes.items ≡ []) }
        ensures size { IfOk result (λ s. s.size ≡ size) }
        ensures failed { IfOk result (λ s. s.failed ≡ false) }
    {
        Ok(BoundedSink {
            bytes: list_of_capacity(alloc, size)?,
            size,
            failed: false,
        })
    }

    /// Returns the bytes written so far.
    pub fn written(&self) -> &[u8]
        ensures { result.now ≡ self.now.bytes.items }
    {
        self.bytes.as_slice()
    }
}

impl<A: Allocator> Sink for BoundedSink<A> {
    ghost use Rattle.wasm_io.specs.Devices.{room_left};

    ghost taken = { λ s. Some s.bytes.items };

    ghost has_failed = { λ s. s.failed };

    fn write(&mut self, buf: &[u8]) -> Result<usize, Failed>
        ensures bound { IfOk result (λ n. n ≤ length buf.now) }
        ensures some { IfOk result (λ n. 0 < length buf.now → 0 < n) }
        ensures bytes { WriteAppends (Some self.old.bytes.items) (Some self.new.bytes.items)
            result buf.now }
        ensures failed { self.new.failed ≡ (if is_ok result then self.old.failed else true) }
        ensures size { self.new.size ≡ self.old.size }
        // Proved: a `BoundedSink` takes as much as it has room for, and fails only if it is full
        //   [`fits`, `full` on its `write`]
        ensures fits { IfOk result (λ n. n ≡ min (length buf.now) (room_left self.old)) }
        ensures full { OnErr result ((0 < length buf.now) × (room_left self.old ≡ 0)) }
    {
        let count = buf.len().min(self.size - self.bytes.len());
        if count == 0 && !buf.is_empty() {
            self.failed = true;
            return Err(Failed);
        }
        self.bytes.extend_from_slice(&buf[..count]).unwrap();
        Ok(count)
    }

    fn failed(&self) -> bool {
        self.failed
    }
}

/// Discards its bytes, and never fails.
impl Sink for io::Sink {
    ghost has_failed = { λ _. false };

    fn write(&mut self, buf: &[u8]) -> Result<usize, Failed>
        ensures bound { IfOk result (λ n. n ≤ length buf.now) }
        ensures some { IfOk result (λ n. 0 < length buf.now → 0 < n) }
        ensures bytes { WriteAppends None None result buf.now }
        ensures failed { is_ok result ≡ true }
        // Proved: `std`'s `io::Sink` takes all bytes and never fails
        ensures all { result ≡ Ok (length buf.now) }
    {
        Ok(buf.len())
    }

    fn failed(&self) -> bool {
        false
    }
}

/// A sink over a writer of `std::io::Write`.
///
/// A writer that takes 0 bytes of a `buf` that has some has failed. Call `flush` after the last write: a writer may
/// buffer.
///
/// ```rattle
/// let mut sink = WriteSink::new(Vec::new(alloc));
/// write_all(&mut sink, b"abc")?;
/// sink.flush()?;
/// assert!(rt; !sink.failed());
/// ```
#[derive(Drop)]
pub struct WriteSink<W> {
    writer: W,
    failed: bool,
    // Whether the writer was flushed after the last write. No clause of `std` states that a flush was made, so without this field a
    // program that never flushes would satisfy its contract.
    forwarded: bool,
}

impl<W: Write> WriteSink<W> {
    /// Returns a sink that forwards to this writer.
    pub fn new(writer: W) -> Self
        ensures writer { result.writer ≡ writer }
        ensures failed { result.failed ≡ false }
        ensures all { result.forwarded ≡ true }
    {
        WriteSink {
            writer,
            failed: false,
            forwarded: true,
        }
    }

    /// Flushes the writer, so that what it has buffered is forwarded.
    ///
    /// # Errors
    ///
    /// `Failed` if the flush failed. `failed` then returns true.
    pub fn flush(&mut self) -> Result<(), Failed>
        ensures bytes { Keeps (W.contents self.old.writer) (W.contents self.new.writer) }
        ensures failed { self.new.failed ≡ (if is_ok result then self.old.failed else true) }
        ensures all { OnOk result (self.new.forwarded ≡ true) }
        ensures kept { OnErr result (self.new.forwarded ≡ self.old.forwarded) }
    {
        // `std` states only that a flush keeps the bytes, so that it reaches the writer is a test (`a_sink_flushes_its_writer`).
        match self.writer.flush() {
            Ok(()) => {
                self.forwarded = true;
                Ok(())
            }
            Err(_) => {
                self.failed = true;
                Err(Failed)
            }
        }
    }
}

impl<W: Write> Sink for WriteSink<W> {
    // Proved: for a writer or a reader the bytes that move are those of which `std`'s `Read` and
    //   `Write` speak
    ghost taken = { λ s. W.contents s.writer };

    ghost has_failed = { λ s. s.failed };

    fn write(&mut self, buf: &[u8]) -> Result<usize, Failed>
        ensures bound { IfOk result (λ n. n ≤ length buf.now) }
        ensures some { IfOk result (λ n. 0 < length buf.now → 0 < n) }
        ensures bytes { WriteAppends (W.contents self.old.writer) (W.contents self.new.writer)
            result buf.now }
        ensures failed { self.new.failed ≡ (if is_ok result then self.old.failed else true) }
        ensures kept { self.new.forwarded ≡ false }
    {
        self.forwarded = false;
        match self.writer.write(buf) {
            Ok(count) if count > 0 || buf.is_empty() => Ok(count),
            _ => {
                self.failed = true;
                Err(Failed)
            }
        }
    }

    fn failed(&self) -> bool {
        self.failed
    }
}
