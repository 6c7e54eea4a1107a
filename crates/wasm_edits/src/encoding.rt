// The bytes of custom sections.
ghost use Rattle.std.specs.Prelude.{◌≡◌, ◌+◌, ◌<◌, ◌≤◌, ◌^◌, ◌++◌, ◌↔◌, IfErr, IfOk, IsTrue, drop, length, take};
ghost use Rattle.wasm_base.specs.FaultAt.{fault_at};
ghost use Rattle.wasm_base.specs.Owned.{out_of_memory};
ghost use Rattle.wasm_edits.specs.Encoded.{Fits, content_of, encoded, encoded_section};

use std::alloc::Allocator;
use wasm_base::{Error, Fault, MAX_WASM_STRING_SIZE, Result};
use wasm_io::write_bytes;

/// A custom section to write: its name and its data.
///
/// (Core specification, Binary format, Modules, Custom Section.)
#[derive(Clone, Copy)]
pub struct NewSection<'a> {
    /// The name.
    pub name: &'a str,
    /// The data after the name.
    pub data: &'a [u8],
}

// Writes a number in LEB128 at the index `at`, in as few bytes as possible, and returns the index after it.
fn write_number(bytes: &mut [u8], at: usize, number: u32) -> usize
    requires { at + length (encoded number) ≤ length bytes.old }
    ensures end { result ≡ at + length (encoded number) }
    ensures written { take result bytes.new ≡ take at bytes.old ++ encoded number }
    ensures rest { drop result bytes.new ≡ drop result bytes.old }
    ensures len { length bytes.new ≡ length bytes.old }
{
    let mut rest = number;
    let mut end = at;
    'septets: while rest >= 128 {
        bytes[end] = (rest % 128) as u8 + 128;
        end += 1;
        rest /= 128;
    }
    bytes[end] = rest as u8;
    end + 1
}

// Returns how many bytes a number is encoded as.
fn size_of_number(number: u32) -> usize
    ensures { result ≡ length (encoded number) }
{
    match number {
        0..=127 => 1,
        128..=16_383 => 2,
        16_384..=2_097_151 => 3,
        2_097_152..=268_435_455 => 4,
        _ => 5,
    }
}

impl<'a> NewSection<'a> {
    // Returns the name.
    fn text(&self) -> &'a str
        ensures { result.now ≡ self.now.name.now }
    {
        self.name
    }

    // Returns how many bytes the content has.
    fn content_size(&self) -> usize
        requires name { length self.now.name.now < 2 ^ 32 }
        requires data { length self.now.«data».now < 2 ^ 32 }
        ensures { result ≡ length (content_of self.now) }
    {
        let size = self.name.len();
        size_of_number(size as u32) + size + self.data.len()
    }

    /// Returns whether the section can be written: whether its name has at most 100,000 bytes, which is the limit of
    /// names, and its content, the name with its size and the data, less than 2^32.
    ///
    /// ```rattle
    /// let section = NewSection { name: "a", data: b"" };
    /// assert!(rt; section.fits());
    /// ```
    pub fn fits(&self) -> bool
        // Proved: whether a section can be written: it has a name within the limit, and a length of 32 bits
        ensures { IsTrue result ↔ Fits self.now }
    {
        let name = self.text();
        if name.len() > MAX_WASM_STRING_SIZE || self.data.len() > u32::MAX as usize {
            return false;
        }
        self.content_size() <= u32::MAX as usize
    }

    /// Returns how many bytes the section has, with its id and its length. The section must fit.
    pub fn size(&self) -> usize
        requires { Fits self.now }
        // Proved: `size` is how many bytes `encode` returns, and `write_at` writes
        ensures { result ≡ length (encoded_section self.now) }
    {
        let size = self.content_size();
        1 + size_of_number(size as u32) + size
    }

    /// Writes the bytes of the section at the index `at`, where there must be room for them, and returns the index after
    /// them. The section must fit.
    pub fn write_at(&self, bytes: &mut [u8], at: usize) -> usize
        requires fits { Fits self.now }
        requires room { at + length (encoded_section self.now) ≤ length bytes.old }
        ensures end { result ≡ at + length (encoded_section self.now) }
        // Proved: writing a section changes no byte before or after it [`written`, `rest` of `write_at`]
        ensures written { take result bytes.new ≡ take at bytes.old ++ encoded_section self.now }
        ensures rest { drop result bytes.new ≡ drop result bytes.old }
        ensures len { length bytes.new ≡ length bytes.old }
    {
        bytes[at] = 0;
        let after_size = write_number(bytes, at + 1, self.content_size() as u32);
        let before_name = write_number(bytes, after_size, self.name.len() as u32);
        let after_name = write_bytes(bytes, before_name, self.name.as_bytes());
        write_bytes(bytes, after_name, self.data)
    }
}

/// Returns the bytes of a custom section: its id, its length, its name with its size, and its data.
///
/// The section must fit (`NewSection::fits`). Numbers have as few bytes as possible.
///
/// # Errors
///
/// `OutOfMemory`, at offset 0, when an allocation fails.
///
/// ```rattle
/// let section = NewSection { name: "a", data: b"xyz" };
/// assert!(rt; section.fits());
/// assert_eq!(rt; encode(alloc, section)?.as_slice(), b"\0\x05\x01axyz".as_slice());
/// ```
///
/// (Core specification, Binary format, Modules, Custom Section.)
pub fn encode<A: Allocator>(alloc: A, section: NewSection<'_>) -> Result<Vec<u8, A>>
    requires { Fits section }
    // Proved: `encode` returns the bytes of a custom section, or that an allocation failed
    ensures ok { IfOk result (λ bytes. bytes.items ≡ encoded_section section.entry) }
    ensures err { IfErr result (λ e. fault_at e ≡ out_of_memory) }
{
    let Ok(mut bytes) = vec![in alloc; 0u8; section.size()] else {
        return Err(Error::new(Fault::OutOfMemory, 0));
    };
    section.write_at(&mut bytes, 0);
    Ok(bytes)
}
