// Where bytes come from.
ghost use Rattle.std.specs.Prelude.{◌≡◌, ℕ, ◌≤◌, Bool, true, false, List, Option, Some, None, Ok, length, min, IfOk, is_ok, if◌then◌else◌};
ghost use Rattle.std.specs.Io.KnownBytes.{ReadConsumes};

use super::Failed;
use std::io::Read;

/// A device that bytes are read from, in chunks of its own choice: a file, a pipe, a slice.
///
/// Implement it for your own input. `SliceSource` and `ReadSource` cover slices and everything with `std::io::Read`.
///
/// ```rattle
/// let mut source = SliceSource::new(b"abc");
/// let mut buffer = [0; 2];
/// assert_eq!(rt; source.read(&mut buffer)?, 2);
/// assert_eq!(rt; source.read(&mut buffer)?, 1);
/// assert_eq!(rt; source.read(&mut buffer)?, 0);
/// ```
pub trait Source {
    /// The bytes that it has left, where these are known.
    ghost remaining: { Self → Option (List ℕ) } = { λ _. None };

    /// Whether a read has failed.
    ghost has_failed: { Self → Bool };

    /// Moves bytes from the source to the start of `buf` and returns how many.
    ///
    /// It is 0 only at the end of the source, or if `buf` is empty. A short read is no sign of the end.
    ///
    /// # Errors
    ///
    /// `Failed` if the read failed. No byte was moved.
    fn read(&mut self, buf: &mut [u8]) -> Result<usize, Failed>
        ensures bound { IfOk result (λ n. n ≤ length buf.new) }
        ensures bytes { ReadConsumes (remaining self.old) (remaining self.new) result buf.new }
        ensures failed { has_failed self.new
            ≡ (if is_ok result then has_failed self.old else true) };

    /// Returns whether a read has failed.
    fn failed(&self) -> bool
        // Proved: the sources and sinks know whether they have failed [`failed` of `Source` and
        //   `Sink`]
        ensures { result ≡ has_failed self.now };
}

/// A source of the bytes of a slice, which never fails.
#[derive(Drop)]
pub struct SliceSource<'a> {
    rest: &'a [u8],
}

impl<'a> SliceSource<'a> {
    /// Returns a source of these bytes.
    pub fn new(bytes: &'a [u8]) -> Self
        ensures { result.rest.now ≡ bytes.now }
    {
        SliceSource { rest: bytes }
    }
}

impl Source for SliceSource<'_> {
    ghost remaining = { λ s. Some s.rest.now };

    ghost has_failed = { λ _. false };

    fn read(&mut self, buf: &mut [u8]) -> Result<usize, Failed>
        ensures bound { IfOk result (λ n. n ≤ length buf.new) }
        ensures bytes { ReadConsumes (Some self.old.rest.now) (Some self.new.rest.now)
            result buf.new }
        ensures failed { false ≡ (if is_ok result then false else true) }
        // Proved: a `SliceSource` returns as much as there is room for, and never fails [`fits`,
        //   `failed` on its `read`]
        ensures fits { result ≡ Ok (min (length buf.new) (length self.old.rest.now)) }
    {
        let count = buf.len().min(self.rest.len());
        buf[..count].copy_from_slice(&self.rest[..count]);
        self.rest = &self.rest[count..];
        Ok(count)
    }

    fn failed(&self) -> bool {
        false
    }
}

/// A source over a reader of `std::io::Read`.
///
/// ```rattle
/// let mut source = ReadSource::new(b"abc".as_slice());
/// let mut buffer = [0; 8];
/// assert_eq!(rt; source.read(&mut buffer)?, 3);
/// ```
#[derive(Drop)]
pub struct ReadSource<R> {
    reader: R,
    failed: bool,
}

impl<R: Read> ReadSource<R> {
    /// Returns a source of what this reader reads.
    pub fn new(reader: R) -> Self
        ensures reader { result.reader ≡ reader }
        ensures failed { result.failed ≡ false }
    {
        ReadSource {
            reader,
            failed: false,
        }
    }
}

impl<R: Read> Source for ReadSource<R> {
    ghost remaining = { λ s. R.remaining s.reader };

    ghost has_failed = { λ s. s.failed };

    fn read(&mut self, buf: &mut [u8]) -> Result<usize, Failed> {
        match self.reader.read(buf) {
            Ok(count) => Ok(count),
            Err(_) => {
                self.failed = true;
                Err(Failed)
            }
        }
    }

    fn failed(&self) -> bool {
        self.failed
    }
}
