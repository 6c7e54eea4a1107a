// Custom sections.
ghost use Rattle.std.specs.Prelude.{⊤, ◌≡◌, ◌+◌, length};
ghost use Rattle.wasm_base.specs.Hints.{Hints, NotOutOfMemory, missing_of_sized};
ghost use Rattle.wasm_base.specs.Window.{place, whole_window, range_of, rest_range};

use std::alloc::AllocError;
use std::fmt;
use std::marker::Model;
use std::ops::Range;
use wasm_base::{BinaryReader, Result};

/// A custom section: a name and the data after it.
///
/// `as_known` returns a reader for the data of a section with a known name. Offsets are in bytes from the start of the
/// stream.
///
/// ```rattle
/// let section = CustomSectionReader::new(BinaryReader::new(b"\x01a\x07\x08", 100))?;
/// assert_eq!(rt; section.name(), "a");
/// assert_eq!(rt; section.data(), [7, 8].as_slice());
/// assert_eq!(rt; section.data_offset(), 102);
/// ```
///
/// (Core specification, Binary format, Modules, Custom Section.)
#[derive(Drop)]
pub struct CustomSectionReader<'a> {
    name: &'a str,
    reader: BinaryReader<'a>,
}

impl<'a> Model for CustomSectionReader<'a> {
    ghost use Rattle.wasm_custom.specs.Custom.{Custom};

    ghost Value = { Custom };

    ghost view = { λ s. record { name = s.name.now; reader = s.reader } };
}

impl<'a> Clone for CustomSectionReader<'a> {
    ghost is_clone = { λ section copy. copy ≡ section };

    ghost is_infallible = { λ _. ⊤ };

    fn clone(&self) -> std::result::Result<Self, AllocError> {
        Ok(CustomSectionReader {
            name: self.name,
            reader: self.reader.clone()?,
        })
    }
}

impl<'a> CustomSectionReader<'a> {
    ghost use Rattle.wasm_custom.specs.Custom.{ReadsCustom, custom_after};

    /// Reads the name, a text of at most 100,000 bytes. The remaining bytes of the window are the data, which is not
    /// read.
    ///
    /// # Errors
    ///
    /// * `UnexpectedEof`, `NumberTooLong` or `NumberTooLarge` in the size of the name, a u32.
    /// * `StringSize` at the last byte of the size if it is above 100,000.
    /// * `UnexpectedEof` after the size if the window ends before the name does.
    /// * `MalformedUtf8` at the last byte of the name.
    pub fn new(mut reader: BinaryReader<'a>) -> Result<Self>
        // Proved: `CustomSectionReader::new` returns the name at the start of the window and the
        //   window after it, or the fault of the name
        ensures reads { ReadsCustom reader.entry result }
        // Proved: its error hints at the missing bytes, and is never `OutOfMemory` [`hints`,
        //   `memory`]
        ensures hints { Hints (missing_of_sized (place reader.entry)) result }
        ensures memory { NotOutOfMemory result }
    {
        let name = reader.read_string()?;
        Ok(CustomSectionReader { name, reader })
    }

    /// Returns the custom section of a window whose name was read: the reader is after this name.
    pub fn after_name(name: &'a str, reader: BinaryReader<'a>) -> Self
        // Proved: `after_name` is the custom section with this name and this reader
        ensures { result ≡ custom_after name.now reader.entry }
    {
        CustomSectionReader { name, reader }
    }

    /// Returns the name of the section.
    pub fn name(&self) -> &'a str
        // Proved: name, data, offsets and ranges are those of that window [the clauses of the
        //   getters]
        ensures { result.now ≡ self.now.name }
    {
        self.name
    }

    /// Returns the data: the bytes after the name.
    pub fn data(&self) -> &'a [u8]
        ensures { result.now ≡ (place self.now.reader).rest }
    {
        self.reader.remaining_buffer()
    }

    /// Returns the offset of the start of the data.
    pub fn data_offset(&self) -> u64
        ensures { result ≡ (place self.now.reader).offset }
    {
        self.reader.original_position()
    }

    /// Returns the offsets of the data.
    pub fn data_range(&self) -> Range<u64>
        ensures { result ≡ rest_range self.now.reader }
    {
        self.reader.remaining_range()
    }

    /// Returns the offsets of the whole window: the name's size, the name and the data.
    pub fn range(&self) -> Range<u64>
        ensures { result ≡ range_of self.now.reader }
    {
        self.reader.range()
    }

    /// Returns a reader over the data, with the features of the section's window.
    pub fn data_reader(&self) -> BinaryReader<'a>
        ensures { result ≡ whole_window (place self.now.reader) }
    {
        self.reader.shrink()
    }
}

impl<'a> fmt::Debug for CustomSectionReader<'a> {
    fn fmt<W: fmt::Write>(&self, f: &mut fmt::Formatter<W>) -> fmt::Result {
        f.debug_struct("CustomSectionReader")
            .field("name", &self.name)
            .field("data_offset", &self.data_offset())
            .field("data", &"...")
            .field("range", &self.range())
            .finish()
    }
}
