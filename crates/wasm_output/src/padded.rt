// Short words that are copied with what follows them.
ghost use Rattle.std.specs.Prelude.{◌≡◌, ◌≤◌, ◌+◌, ◌++◌, length, take};

use std::marker::Model;
use wasm_io::{ShortText, write_word};

/// A word of at most 8 bytes, padded to 8 with blanks. All 8 are copied by one store; a word of any length would be
/// copied by a call.
#[derive(Drop)]
pub(crate) struct Padded {
    bytes: &'static str,
    len: usize,
}

impl Model for Padded {
    ghost use Rattle.std.specs.Prelude.{◌≡◌, ◌≤◌, ℕ, List, length, take};

    ghost Value = { List ℕ };

    ghost view = { λ p. take p.len p.bytes.now };

    ghost invariant = { λ p. (length p.bytes.now ≡ 8) × (p.len ≤ 8) };
}

impl Padded {
    /// The first `len` of these 8 bytes.
    #[inline(always)]
    pub(crate) fn of(bytes: &'static str, len: usize) -> Padded
        requires { (length bytes.now ≡ 8) × (len ≤ 8) }
        ensures { result ≡ take len bytes.now }
    {
        Padded { bytes, len }
    }
}

/// Writes a word. From `at` on there must be 8 bytes.
#[inline(always)]
pub(crate) fn write_padded(bytes: &mut [u8], at: usize, word: &Padded) -> usize
    requires { at + 8 ≤ length bytes.old }
    ensures end { result ≡ at + length word.now }
    ensures short { result ≤ at + 8 }
    ensures written { take result bytes.new ≡ take at bytes.old ++ word.now }
{
    write_word(bytes, at, word.bytes);
    at + word.len
}

impl ShortText for Padded {
    ghost text = { λ p. p };

    #[inline(always)]
    fn write_at(&self, bytes: &mut [u8], at: usize) -> usize {
        write_padded(bytes, at, self)
    }
}
