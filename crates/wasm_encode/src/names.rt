// Names.
ghost use Rattle.std.specs.Prelude.{◌≡◌, ◌+◌, ◌≤◌, ◌++◌, ◌↔◌, IsTrue, drop, length, take};
ghost use Rattle.wasm_encode.specs.Names.{NameFits, name_bytes};

use crate::bytes::write_bytes;
use crate::number::{unsigned_len, write_unsigned};
use wasm_base::MAX_WASM_STRING_SIZE;

/// Returns whether a name has at most 100,000 bytes, which is the limit of names.
///
/// ```rattle
/// assert!(rt; name_fits("env"));
/// ```
pub fn name_fits(name: &str) -> bool
    // Proved: whether a name is within the limit of names
    ensures { IsTrue result ↔ NameFits name.now }
{
    name.len() <= MAX_WASM_STRING_SIZE
}

/// Returns how many bytes `write_name` writes of a name, its size and its text. The name must fit (`name_fits`).
///
/// ```rattle
/// assert_eq!(rt; name_len("env"), 4);
/// ```
///
/// (Core specification, Binary format, Values, Names.)
#[tactic(auto, using(crate::proofs::Numbers::septets_few))]
pub fn name_len(name: &str) -> usize
    requires { NameFits name.now }
    // Proved: `name_len` is how many bytes `write_name` writes: the size of a name and its text
    ensures len { result ≡ length (name_bytes name.now) }
    ensures most { result ≤ 100010 }
{
    unsigned_len(name.len() as u64) + name.len()
}

/// Writes a name: its size and its text.
///
/// Writes at the index `at`, where there must be room for it, and returns the index after it. Writes a name of any size:
/// only one that fits (`name_fits`) is read back.
///
/// ```rattle
/// let mut bytes = [0; 4];
/// write_name(&mut bytes, 0, "env");
/// assert_eq!(rt; &bytes, b"\x03env");
/// ```
///
/// (Core specification, Binary format, Values, Names.)
#[tactic(auto, using(crate::proofs::RestStays::stays_on))]
pub fn write_name(bytes: &mut [u8], at: usize, name: &str) -> usize
    requires { at + length (name_bytes name.now) ≤ length bytes.old }
    ensures end { result ≡ at + length (name_bytes name.now) }
    ensures written { take result bytes.new ≡ take at bytes.old ++ name_bytes name.now }
    ensures rest { drop result bytes.new ≡ drop result bytes.old }
    ensures len { length bytes.new ≡ length bytes.old }
{
    let after_size = write_unsigned(bytes, at, name.len() as u64);
    write_bytes(bytes, after_size, name.as_bytes())
}
