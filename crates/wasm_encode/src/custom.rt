// Custom sections, by their names and data.
ghost use Rattle.std.specs.Prelude.{◌≡◌, ◌+◌, ◌≤◌, ◌++◌, ◌↔◌, IsTrue, drop, length, take};
ghost use Rattle.wasm_encode.specs.Custom.{CustomFits, custom_bytes, custom_content};

use crate::bytes::{write_byte, write_bytes};
use crate::names::{name_fits, name_len, write_name};
use crate::number::{unsigned_len, write_unsigned};
use wasm_grammar::CUSTOM_SECTION;

// Returns how many bytes the content of a custom section has.
fn content_len(name: &str, data: &[u8]) -> usize
    requires { CustomFits name.now «data».now }
    ensures { result ≡ length (custom_content name.now «data».now) }
{
    name_len(name) + data.len()
}

/// Returns whether a custom section can be written: its name has at most 100,000 bytes, which is the limit of names, and
/// its content, the name with its size and the data, fewer than 2^32.
///
/// ```rattle
/// assert!(rt; custom_fits("a", b"xyz"));
/// ```
///
/// (Core specification, Binary format, Modules, Custom Section.)
pub fn custom_fits(name: &str, data: &[u8]) -> bool
    // Proved: whether a custom section can be written: its name and its length are within their limits
    ensures { IsTrue result ↔ CustomFits name.now «data».now }
{
    if !name_fits(name) || data.len() > u32::MAX as usize {
        return false;
    }
    name_len(name) + data.len() <= u32::MAX as usize
}

/// Returns how many bytes `write_custom` writes of a custom section, with its id and its length.
///
/// It must fit (`custom_fits`).
///
/// ```rattle
/// assert_eq!(rt; custom_len("a", b"xyz"), 7);
/// ```
///
/// (Core specification, Binary format, Modules, Custom Section.)
#[tactic(auto, using(crate::proofs::Numbers::septets_few))]
pub fn custom_len(name: &str, data: &[u8]) -> usize
    requires { CustomFits name.now «data».now }
    // Proved: `custom_len` is how many bytes `write_custom` writes
    ensures { result ≡ length (custom_bytes name.now «data».now) }
{
    let size = content_len(name, data);
    1 + unsigned_len(size as u64) + size
}

/// Writes a custom section: its id, its length, its name, and its data.
///
/// Writes at the index `at`, where there must be room for it, and returns the index after it. The section must fit
/// (`custom_fits`).
///
/// ```rattle
/// let mut bytes = [0; 8];
/// assert!(rt; custom_fits("a", b"xyz"));
/// write_custom(&mut bytes, 1, "a", b"xyz");
/// assert_eq!(rt; &bytes, b"\0\0\x05\x01axyz");
/// ```
///
/// (Core specification, Binary format, Modules, Custom Section.)
#[tactic(auto, using(crate::proofs::RestStays::stays_on))]
pub fn write_custom(bytes: &mut [u8], at: usize, name: &str, data: &[u8]) -> usize
    requires fits { CustomFits name.now «data».now }
    requires room { at + length (custom_bytes name.now «data».now) ≤ length bytes.old }
    ensures end { result ≡ at + length (custom_bytes name.now «data».now) }
    // Proved: a custom section is written as its name and its data, and no byte before or after it changes [`written`,
    //   `rest` of `write_custom` (`custom_bytes`)]
    ensures written { take result bytes.new ≡ take at bytes.old ++ custom_bytes name.now «data».now }
    ensures rest { drop result bytes.new ≡ drop result bytes.old }
    ensures len { length bytes.new ≡ length bytes.old }
{
    let after_id = write_byte(bytes, at, CUSTOM_SECTION);
    let after_size = write_unsigned(bytes, after_id, content_len(name, data) as u64);
    let after_name = write_name(bytes, after_size, name);
    write_bytes(bytes, after_name, data)
}
