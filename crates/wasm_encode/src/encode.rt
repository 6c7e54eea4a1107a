// Items that can be written.
ghost use Rattle.std.specs.Prelude.{◌≡◌, ℕ, ◌+◌, ◌<◌, ◌≤◌, ◌^◌, ◌++◌, ◌↔◌, IsTrue, List, drop, length, take};
ghost use Rattle.wasm_base.specs.Outcome.{Outcome};
ghost use Rattle.wasm_base.specs.Window.{Place};
ghost use Rattle.wasm_encode.specs.Sections.{IsReadBack};

/// A type whose values can be written in the binary format.
///
/// ```rattle
/// let import = Import { module: "env", name: "f", ty: TypeRef::Func(300) };
/// assert!(rt; import.fits());
/// assert_eq!(rt; import.encoded_len(), 9);
/// let mut bytes = [0; 9];
/// let end = import.encode_at(&mut bytes, 0);
/// assert_eq!(rt; &bytes[..end], b"\x03env\x01f\0\xac\x02".as_slice());
/// ```
pub trait Encode {
    /// What reading at a place may result in, as `FromReader` of the type says.
    ghost meaning: { Place → Outcome Self → Type 0 };

    /// The bytes of an item.
    ghost encoded: { Self → List ℕ };

    /// Whether the item is within the limits of the format: of names and numbers.
    ghost is_encodable: { Self → Type 0 };

    /// Whether readers with these features read the item.
    ghost is_allowed: { (features : ℕ) → Self → Type 0 };

    /// The item as it is read with these features at an offset: its windows and offsets are there.
    ghost placed: { (features offset : ℕ) → Self → Self };

    /// Returns whether the item can be written: whether it is within the limits of the format, and has a spelling.
    fn fits(&self) -> bool
        // Proved: whether an item can be written
        ensures { IsTrue result ↔ is_encodable self.now };

    /// Returns how many bytes the item has. The item must fit (`fits`).
    fn encoded_len(&self) -> usize
        requires { is_encodable self.now }
        // Proved: `encoded_len` is how many bytes `encode_at` writes
        ensures len { result ≡ length (encoded self.now) }
        ensures short { result < 2 ^ 32 };

    /// Writes the item at the index `at`, where there must be room for its bytes, and returns the index after them. The
    /// item must fit (`fits`).
    fn encode_at(&self, bytes: &mut [u8], at: usize) -> usize
        requires fits { is_encodable self.now }
        requires room { at + length (encoded self.now) ≤ length bytes.old }
        ensures end { result ≡ at + length (encoded self.now) }
        // Proved: writing an item changes no byte before or after it [`written`, `rest` of `Encode::encode_at`]
        ensures written { take result bytes.new ≡ take at bytes.old ++ encoded self.now }
        ensures rest { drop result bytes.new ≡ drop result bytes.old }
        ensures len { length bytes.new ≡ length bytes.old };

    /// The bytes of an item are read as the item, wherever they are and whatever comes after them. Does nothing.
    fn reads_back(&self)
        requires { is_encodable self.now }
        // Proved: the bytes of every item that fits are read as exactly that item, wherever they are
        //   and whatever comes after them, by readers whose features allow it [the clause of
        //   `Encode::reads_back` (`IsReadBack`)]
        ensures { IsReadBack meaning encoded is_allowed placed self.now };
}
