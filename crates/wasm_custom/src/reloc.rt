// Relocations.
ghost use Rattle.std.specs.Prelude.{◌≡◌, ◌+◌, slice_get};
ghost use Rattle.wasm_base.specs.Hints.{NotOutOfMemory};
ghost use Rattle.wasm_base.specs.Item.{ReadsAs};
ghost use Rattle.wasm_base.specs.Outcome.{GivesBy};
ghost use Rattle.wasm_base.specs.Window.{place, KeepsWindow};
ghost use Rattle.wasm_custom.specs.Reloc.{types, addend_of, extent_of, addend_at};

use std::ops::Range;
use wasm_base::{BinaryReader, FromReader, Lead, Result, SectionLimited, leading_byte_error};

/// A list of relocations.
///
/// ```rattle
/// // The index of function symbol 2, at offset 6.
/// for entry in RelocationEntryReader::new(BinaryReader::new(&[1, 0, 6, 2], 0))? {
///     assert_eq!(rt; entry?.ty, RelocationType::FunctionIndexLeb);
/// }
/// ```
///
/// (Tool conventions, Linking, Relocation Sections.)
pub type RelocationEntryReader<'a> = SectionLimited<'a, RelocationEntry>;

/// A section whose name begins with `reloc.`: the relocations of another section.
///
/// ```rattle
/// // In section 3: the index of function symbol 2, at offset 6.
/// let section = RelocSectionReader::new(BinaryReader::new(&[3, 1, 0, 6, 2], 0))?;
/// assert_eq!(rt; section.section_index(), 3);
/// for entry in section.entries() {
///     assert_eq!(rt; entry?.index, 2);
/// }
/// ```
///
/// (Tool conventions, Linking, Relocation Sections.)
#[derive(Clone, Debug, Drop)]
pub struct RelocSectionReader<'a> {
    section: u32,
    range: Range<u64>,
    entries: RelocationEntryReader<'a>,
}

/// A relocation: a place in a section that the linker fills in.
///
/// ```rattle
/// // The address of symbol 2 plus 8, at offset 6.
/// let mut reader = BinaryReader::new(&[3, 6, 2, 8], 0);
/// let entry = RelocationEntry::from_reader(&mut reader)?;
/// assert_eq!(rt; entry.addend, 8);
/// let range = entry.relocation_range()?;
/// assert_eq!(rt; range.end, 11);
/// ```
///
/// (Tool conventions, Linking, Relocation Sections.)
#[derive(Clone, Copy, Debug, PartialEq, Eq, Hash)]
pub struct RelocationEntry {
    /// The type of the relocation: what to write, and in which encoding.
    pub ty: RelocationType,
    /// The offset of the place from the start of the section's content, in bytes.
    pub offset: u32,
    /// The index of the symbol whose value is written; for `TypeIndexLeb`, the index of a type.
    pub index: u32,
    /// The addend, which is added to the value. It is 0 if the type has no addend.
    pub addend: i64,
}

/// The type of a relocation: what the linker writes, and in which encoding.
///
/// The variants have the numbers of the tool conventions, which a cast (`ty as u8`) returns and `try_from` takes.
/// Below, a number is in LEB128, padded to the given bytes, unless it is written "as *n* bytes", in little-endian
/// order.
///
/// ```rattle
/// let ty = RelocationType::MemoryAddrI32;
/// assert_eq!(rt; ty as u8, 5);
/// assert_eq!(rt; ty.extent(), 4);
/// assert_eq!(rt; ty.addend_kind(), RelocAddendKind::Addend32);
/// assert_eq!(rt; RelocationType::try_from(5), Ok(ty));
/// ```
///
/// (Tool conventions, Linking, Relocation Sections.)
#[derive(Clone, Copy, Debug, PartialEq, Eq, Hash)]
#[repr(u8)]
pub enum RelocationType {
    // In the order of their numbers, because the checker refuses explicit numbers together with `repr(u8)`.
    /// 0: the index of a function, as an unsigned number of 5 bytes.
    FunctionIndexLeb,
    /// 1: the place of a function in a table, as a signed number of 5 bytes.
    TableIndexSleb,
    /// 2: the place of a function in a table, as 4 bytes.
    TableIndexI32,
    /// 3: an address in memory, as an unsigned number of 5 bytes.
    MemoryAddrLeb,
    /// 4: an address in memory, as a signed number of 5 bytes.
    MemoryAddrSleb,
    /// 5: an address in memory, as 4 bytes.
    MemoryAddrI32,
    /// 6: the index of a type, as an unsigned number of 5 bytes.
    TypeIndexLeb,
    /// 7: the index of a global, as an unsigned number of 5 bytes.
    GlobalIndexLeb,
    /// 8: the offset of a function in the code section, as 4 bytes.
    FunctionOffsetI32,
    /// 9: an offset in a section, as 4 bytes.
    SectionOffsetI32,
    /// 10: the index of a tag, as an unsigned number of 5 bytes.
    EventIndexLeb,
    /// 11: an address relative to the memory base, as a signed number of 5 bytes.
    MemoryAddrRelSleb,
    /// 12: a function's place in a table relative to the table base, as a signed number of 5 bytes.
    TableIndexRelSleb,
    /// 13: the index of a global, as 4 bytes.
    GlobalIndexI32,
    /// 14: an address in a 64-bit memory, as an unsigned number of 10 bytes.
    MemoryAddrLeb64,
    /// 15: an address in a 64-bit memory, as a signed number of 10 bytes.
    MemoryAddrSleb64,
    /// 16: an address in a 64-bit memory, as 8 bytes.
    MemoryAddrI64,
    /// 17: an address relative to the base of a 64-bit memory, as a signed number of 10 bytes.
    MemoryAddrRelSleb64,
    /// 18: the place of a function in a 64-bit table, as a signed number of 10 bytes.
    TableIndexSleb64,
    /// 19: the place of a function in a 64-bit table, as 8 bytes.
    TableIndexI64,
    /// 20: the index of a table, as an unsigned number of 5 bytes.
    TableNumberLeb,
    /// 21: an address relative to the thread-local base, as a signed number of 5 bytes.
    MemoryAddrTlsSleb,
    /// 22: the offset of a function in the code section, as 8 bytes.
    FunctionOffsetI64,
    /// 23: an address relative to the place itself, as 4 bytes.
    MemoryAddrLocrelI32,
    /// 24: a function's place in a 64-bit table relative to the table base, as a signed number of 10 bytes.
    TableIndexRelSleb64,
    /// 25: an address relative to the thread-local base of a 64-bit memory, as a signed number of 10 bytes.
    MemoryAddrTlsSleb64,
    /// 26: the index of a function, as 4 bytes.
    FunctionIndexI32,
}

/// The encoding of the addend of a relocation type (tool conventions, Linking, Relocation Sections).
#[derive(Clone, Copy, Debug, PartialEq, Eq, Hash)]
pub enum RelocAddendKind {
    /// No addend.
    None,
    /// A signed 32-bit number.
    Addend32,
    /// A signed 64-bit number.
    Addend64,
}

// Returns the type with this number, if any.
//
// A `match`, and no table of the types, because LLVM finds that each has the number that it is looked up by.
fn type_numbered(number: u8) -> Option<RelocationType>
    ensures { result ≡ slice_get types number }
{
    match number {
        0 => Some(RelocationType::FunctionIndexLeb),
        1 => Some(RelocationType::TableIndexSleb),
        2 => Some(RelocationType::TableIndexI32),
        3 => Some(RelocationType::MemoryAddrLeb),
        4 => Some(RelocationType::MemoryAddrSleb),
        5 => Some(RelocationType::MemoryAddrI32),
        6 => Some(RelocationType::TypeIndexLeb),
        7 => Some(RelocationType::GlobalIndexLeb),
        8 => Some(RelocationType::FunctionOffsetI32),
        9 => Some(RelocationType::SectionOffsetI32),
        10 => Some(RelocationType::EventIndexLeb),
        11 => Some(RelocationType::MemoryAddrRelSleb),
        12 => Some(RelocationType::TableIndexRelSleb),
        13 => Some(RelocationType::GlobalIndexI32),
        14 => Some(RelocationType::MemoryAddrLeb64),
        15 => Some(RelocationType::MemoryAddrSleb64),
        16 => Some(RelocationType::MemoryAddrI64),
        17 => Some(RelocationType::MemoryAddrRelSleb64),
        18 => Some(RelocationType::TableIndexSleb64),
        19 => Some(RelocationType::TableIndexI64),
        20 => Some(RelocationType::TableNumberLeb),
        21 => Some(RelocationType::MemoryAddrTlsSleb),
        22 => Some(RelocationType::FunctionOffsetI64),
        23 => Some(RelocationType::MemoryAddrLocrelI32),
        24 => Some(RelocationType::TableIndexRelSleb64),
        25 => Some(RelocationType::MemoryAddrTlsSleb64),
        26 => Some(RelocationType::FunctionIndexI32),
        _ => None,
    }
}

/// Returns the relocation type with this number. The error, for a number above 26, is `()`.
impl TryFrom<u8> for RelocationType {
    ghost use Rattle.wasm_custom.specs.Reloc.{IsTypeOf};

    type Error = ();

    // Proved: `RelocationType::try_from` returns a type exactly for 0 to 26, and the type has that
    //   number
    ghost try_from_gives = { IsTypeOf };

    fn try_from(number: u8) -> std::result::Result<Self, ()> {
        type_numbered(number).ok_or(())
    }
}

impl RelocationType {
    /// Returns whether relocations of this type have an addend, and in which encoding.
    pub fn addend_kind(&self) -> RelocAddendKind
        ensures { result ≡ addend_of self.now }
    {
        match self {
            RelocationType::MemoryAddrLeb
            | RelocationType::MemoryAddrSleb
            | RelocationType::MemoryAddrI32
            | RelocationType::FunctionOffsetI32
            | RelocationType::SectionOffsetI32
            | RelocationType::MemoryAddrRelSleb
            | RelocationType::MemoryAddrTlsSleb
            | RelocationType::MemoryAddrLocrelI32 => RelocAddendKind::Addend32,
            RelocationType::MemoryAddrLeb64
            | RelocationType::MemoryAddrSleb64
            | RelocationType::MemoryAddrI64
            | RelocationType::MemoryAddrRelSleb64
            | RelocationType::FunctionOffsetI64
            | RelocationType::MemoryAddrTlsSleb64 => RelocAddendKind::Addend64,
            _ => RelocAddendKind::None,
        }
    }

    /// Returns the size of the place that a relocation of this type fills in, in bytes: 4, 5, 8 or 10.
    pub fn extent(&self) -> usize
        ensures { result ≡ extent_of self.now }
    {
        match self {
            RelocationType::TableIndexI32
            | RelocationType::MemoryAddrI32
            | RelocationType::FunctionOffsetI32
            | RelocationType::SectionOffsetI32
            | RelocationType::GlobalIndexI32
            | RelocationType::MemoryAddrLocrelI32
            | RelocationType::FunctionIndexI32 => 4,
            RelocationType::MemoryAddrI64
            | RelocationType::TableIndexI64
            | RelocationType::FunctionOffsetI64 => 8,
            RelocationType::MemoryAddrLeb64
            | RelocationType::MemoryAddrSleb64
            | RelocationType::MemoryAddrRelSleb64
            | RelocationType::TableIndexSleb64
            | RelocationType::TableIndexRelSleb64
            | RelocationType::MemoryAddrTlsSleb64 => 10,
            _ => 5,
        }
    }
}

/// Reads a byte, the number of the type.
///
/// # Errors
///
/// `UnexpectedEof` if no byte remains; `LeadingByte(Reloc)` at a byte above 26, the error's number.
impl<'a> FromReader<'a> for RelocationType {
    ghost use Rattle.wasm_custom.specs.Reloc.{relocation_type_at};

    ghost meaning = { ReadsAs (λ ty. ty) relocation_type_at };

    #[tactic(auto, unfolding(crate::specs::Reloc::relocation_type_at))]
    fn from_reader(reader: &mut BinaryReader<'a>) -> Result<Self> {
        let start = reader.original_position();
        let byte = reader.read_u8()?;
        match type_numbered(byte) {
            Some(ty) => Ok(ty),
            None => Err(leading_byte_error(Lead::Reloc, byte, start)),
        }
    }
}

// Reads the addend of a relocation of this type.
fn read_addend(ty: RelocationType, reader: &mut BinaryReader<'_>) -> Result<i64>
    ensures gives { GivesBy (λ addend. addend) result reader.old reader.new (addend_at (addend_of ty)) }
    ensures keeps { KeepsWindow reader.old reader.new }
    ensures memory { NotOutOfMemory result }
{
    match ty.addend_kind() {
        RelocAddendKind::None => Ok(0),
        RelocAddendKind::Addend32 => Ok(i64::from(reader.read_var_i32()?)),
        RelocAddendKind::Addend64 => reader.read_var_i64(),
    }
}

/// Reads a type, a byte, an offset and an index, each a u32, and the addend, if the type has one.
///
/// # Errors
///
/// Those of `RelocationType`, `read_var_u32` and, for the addend, `read_var_i32` or `read_var_i64`.
impl<'a> FromReader<'a> for RelocationEntry {
    ghost use Rattle.wasm_custom.specs.Reloc.{relocation_at};

    ghost meaning = { ReadsAs (λ entry. entry) relocation_at };

    #[tactic(auto, unfolding(crate::specs::Reloc::relocation_at))]
    fn from_reader(reader: &mut BinaryReader<'a>) -> Result<Self> {
        let ty = RelocationType::from_reader(reader)?;
        let offset = reader.read_var_u32()?;
        let index = reader.read_var_u32()?;
        let addend = read_addend(ty, reader)?;
        Ok(RelocationEntry {
            ty,
            offset,
            index,
            addend,
        })
    }
}

impl RelocationEntry {
    ghost use Rattle.std.specs.Prelude.{Ok};
    ghost use Rattle.wasm_custom.specs.Reloc.{relocated_range};

    /// Returns the range of the bytes that the relocation fills in, in bytes from the start of the section's content.
    ///
    /// # Errors
    ///
    /// None: the result is always `Ok`, even if the range ends after the section.
    pub fn relocation_range(&self) -> Result<Range<usize>>
        ensures { result ≡ Ok (relocated_range self.now) }
    {
        let start = self.offset as usize;
        Ok(start..start + self.ty.extent())
    }
}

impl<'a> RelocSectionReader<'a> {
    ghost use Rattle.wasm_custom.specs.Reloc.{reloc_section_in};
    ghost use Rattle.wasm_base.specs.Outcome.{GivesResult};

    /// Reads the index of the relocated section and the count of relocations, each a u32. The relocations are read
    /// lazily.
    ///
    /// # Errors
    ///
    /// Those of `read_var_u32` for the two numbers.
    #[tactic(auto, unfolding(crate::specs::Reloc::reloc_section_in))]
    pub fn new(mut reader: BinaryReader<'a>) -> Result<Self>
        ensures gives { GivesResult (λ section. section) result (reloc_section_in reader.entry) }
        ensures memory { NotOutOfMemory result }
    {
        let range = reader.range();
        let section = reader.read_var_u32()?;
        let entries = SectionLimited::new(reader.shrink())?;
        Ok(RelocSectionReader {
            section,
            range,
            entries,
        })
    }

    /// Returns the index of the relocated section among all sections of the module.
    pub fn section_index(&self) -> u32
        ensures { result ≡ self.now.section }
    {
        self.section
    }

    /// Returns the offsets of the whole window, in bytes from the start of the stream.
    pub fn range(&self) -> Range<u64>
        ensures { result ≡ self.now.range }
    {
        self.range.start..self.range.end
    }

    /// Returns the list of relocations. Its window begins at the count.
    ///
    /// Iterating over it yields the errors of `RelocationEntry`, and `SizeMismatch` at the first byte after the last
    /// relocation.
    pub fn entries(&self) -> RelocationEntryReader<'a>
        ensures { result ≡ self.now.entries }
    {
        self.entries.clone().unwrap()
    }
}
