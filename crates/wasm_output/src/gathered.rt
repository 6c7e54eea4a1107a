// Bytes that are put together.
ghost use Rattle.std.specs.Prelude.{◌≡◌, ◌≤◌, ◌+◌, ◌++◌, [], length};

use std::marker::Model;

/// A byte string of at most `N` bytes, which never allocates.
///
/// ```rattle
/// let mut gathered = Gathered::<8>::new();
/// gathered.put(b"ab");
/// gathered.put(b"c");
/// assert_eq!(rt; gathered.as_bytes(), b"abc".as_slice());
/// ```
#[derive(Drop)]
pub struct Gathered<const N: usize> {
    bytes: [u8; N],
    len: usize,
}

impl<const N: usize> Model for Gathered<N> {
    ghost use Rattle.std.specs.Prelude.{ℕ, ◌≤◌, List, take};

    ghost Value = { List ℕ };

    ghost view = { λ g. take g.len g.bytes };

    ghost invariant = { λ g. g.len ≤ N };
}

impl<const N: usize> Gathered<N> {
    /// Creates an empty string.
    pub fn new() -> Gathered<N>
        ensures { result ≡ [] }
    {
        Gathered {
            bytes: [0; N],
            len: 0,
        }
    }

    /// Returns the number of bytes.
    pub fn len(&self) -> usize
        ensures { result ≡ length self.now }
    {
        self.len
    }

    /// Appends bytes. There must be room for them: the string has at most `N` bytes afterwards.
    pub fn put(&mut self, bytes: &[u8])
        requires { length self.old + length bytes.now ≤ N }
        ensures { self.new ≡ self.old ++ bytes.now }
    {
        let end = self.len + bytes.len();
        let room = &mut self.bytes[..];
        room[self.len..end].copy_from_slice(bytes);
        self.len = end;
    }

    /// Returns the bytes.
    pub fn as_bytes(&self) -> &[u8]
        ensures bytes { result.now ≡ self.now }
        ensures short { length result.now ≤ N }
    {
        let room = &self.bytes[..];
        &room[..self.len]
    }
}
