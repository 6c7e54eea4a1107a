// Short texts, which are written in place.
ghost use Rattle.std.specs.Prelude.{◌≡◌, ℕ, ◌+◌, ◌≤◌, ◌++◌, List, drop, length, take};

use crate::digits::write_number;

/// The most bytes of a short text. The longest is that of a fault: a message of at most 80 bytes and two numbers of at
/// most 20.
pub const TEXT_BYTES: usize = 159;

/// A text of at most 159 bytes, which is written in place, such as a number or the line of an event.
///
/// Implement it for your own lines, and put them on a `Page`.
///
/// ```rattle
/// let mut bytes = [0; TEXT_BYTES];
/// let end = 12_345u64.write_at(&mut bytes, 0);
/// assert_eq!(rt; &bytes[..end], b"12345".as_slice());
/// ```
pub trait ShortText {
    /// The text.
    ghost text: { Self → List ℕ };

    /// Writes the text at the index `at` of `bytes`, and returns the index after it.
    ///
    /// From `at` on there must be 159 bytes. Later bytes may be overwritten.
    fn write_at(&self, bytes: &mut [u8], at: usize) -> usize
        requires { at + 159 ≤ length bytes.old }
        ensures short { result ≤ at + 159 }
        // Proved: the text of an event, of a fault and of a number is written from its place on,
        //   and what is before it stays; that of a part that was skipped is that of its event
        //   [`written` of `ShortText` for `FrameLine`, `FaultLine` (`report_text`) and
        //   `SkippedLine` (`skip_text`), of `write_word` and `write_number`]
        ensures written { take result bytes.new ≡ take at bytes.old ++ text self.now };
}

/// Writes bytes at the index `at`, where there must be room for them, and returns the index after them.
#[inline(always)]
pub fn write_bytes(bytes: &mut [u8], at: usize, more: &[u8]) -> usize
    requires { at + length more.now ≤ length bytes.old }
    ensures end { result ≡ at + length more.now }
    ensures written { take result bytes.new ≡ take at bytes.old ++ more.now }
    ensures rest { drop result bytes.new ≡ drop result bytes.old }
{
    let end = at + more.len();
    bytes[at..end].copy_from_slice(more);
    end
}

/// Writes a word at the index `at` of `bytes`, and returns the index after it. There must be room for the word.
#[inline(always)]
pub fn write_word(bytes: &mut [u8], at: usize, word: &str) -> usize
    requires { at + length word.now ≤ length bytes.old }
    ensures end { result ≡ at + length word.now }
    ensures written { take result bytes.new ≡ take at bytes.old ++ word.now }
{
    write_bytes(bytes, at, word.as_bytes())
}

/// A number in decimal.
impl ShortText for u64 {
    ghost use Rattle.std.specs.Fmt.{decimal};

    ghost text = { λ n. decimal n };

    #[inline(always)]
    fn write_at(&self, bytes: &mut [u8], at: usize) -> usize {
        write_number(bytes, at, *self)
    }
}
