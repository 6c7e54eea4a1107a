// Raw bytes.
ghost use Rattle.std.specs.Prelude.{◌≡◌, ◌+◌, ◌≤◌, ◌++◌, ◌∷◌, [], drop, length, take};
ghost use Rattle.wasm_encode.specs.Types.{maybe_byte};

/// Writes a byte at the index `at`, and returns the index after it.
#[inline(always)]
pub(crate) fn write_byte(bytes: &mut [u8], at: usize, byte: u8) -> usize
    requires { at + 1 ≤ length bytes.old }
    ensures end { result ≡ at + 1 }
    ensures written { take result bytes.new ≡ take at bytes.old ++ byte ∷ [] }
    ensures rest { drop result bytes.new ≡ drop result bytes.old }
    ensures len { length bytes.new ≡ length bytes.old }
{
    bytes[at] = byte;
    at + 1
}

/// Writes a byte, if there is one, at the index `at`, and returns the index after it.
#[inline(always)]
pub(crate) fn write_maybe(bytes: &mut [u8], at: usize, byte: Option<u8>) -> usize
    requires { at + length (maybe_byte byte) ≤ length bytes.old }
    ensures end { result ≡ at + length (maybe_byte byte) }
    ensures written { take result bytes.new ≡ take at bytes.old ++ maybe_byte byte }
    ensures rest { drop result bytes.new ≡ drop result bytes.old }
    ensures len { length bytes.new ≡ length bytes.old }
{
    match byte {
        Some(byte) => write_byte(bytes, at, byte),
        None => at,
    }
}

/// Writes bytes at the index `at`, and returns the index after them.
#[inline(always)]
pub(crate) fn write_bytes(bytes: &mut [u8], at: usize, more: &[u8]) -> usize
    requires { at + length more.now ≤ length bytes.old }
    ensures end { result ≡ at + length more.now }
    ensures written { take result bytes.new ≡ take at bytes.old ++ more.now }
    ensures rest { drop result bytes.new ≡ drop result bytes.old }
    ensures len { length bytes.new ≡ length bytes.old }
{
    let end = at + more.len();
    bytes[at..end].copy_from_slice(more);
    end
}
