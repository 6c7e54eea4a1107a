// Memories.
ghost use Rattle.std.specs.Prelude.{◌≡◌};
ghost use Rattle.wasm_base.specs.Hints.{NotOutOfMemory};
ghost use Rattle.wasm_base.specs.Item.{ReadsAs};
ghost use Rattle.wasm_base.specs.Outcome.{GivesBy};
ghost use Rattle.wasm_base.specs.Window.{place, KeepsWindow};
ghost use Rattle.wasm_items.specs.Memories.{page_size_at};

use crate::limits::{HAS_PAGE_SIZE, IS_SHARED, IS_WIDE, has_flag, read_limits};
use crate::types::MemoryType;
use wasm_base::{BinaryReader, Error, Fault, FromReader, Result, SectionLimited};

/// The memory section, whose items are memory types.
///
/// ```rattle
/// // One memory of 1 to 16 pages.
/// let section = MemorySectionReader::new(BinaryReader::new(&[1, 0x01, 1, 16], 0))?;
/// for memory in section {
///     assert_eq!(rt; memory?.maximum, Some(16));
/// }
/// ```
///
/// (Core specification, Binary format, Modules, Memory Section.)
pub type MemorySectionReader<'a> = SectionLimited<'a, MemoryType>;

// Reads the page size, if its flag is set, of a memory type that begins at this offset.
#[tactic(auto, unfolding(crate::specs::Memories::page_size_at))]
fn read_page_size(start: u64, flags: u8, reader: &mut BinaryReader<'_>) -> Result<Option<u32>>
    ensures gives { GivesBy (λ size. size) result reader.old reader.new (page_size_at start flags) }
    ensures keeps { KeepsWindow reader.old reader.new }
    ensures memory { NotOutOfMemory result }
{
    if !has_flag(flags, HAS_PAGE_SIZE) {
        return Ok(None);
    }
    let size = reader.read_var_u32()?;
    if size >= 64 {
        return Err(Error::new(Fault::PageSize, start));
    }
    Ok(Some(size))
}

/// Reads a byte of flags, the initial number of pages, the maximum if flagged, and the logarithm of the page size if
/// flagged.
///
/// The flags are bit 0 for a maximum, bit 1 for a shared memory, bit 2 for 64-bit addresses and bit 3 for a page size.
/// The limits are read as u64 if the reader has the feature `MEMORY64`, and as u32 otherwise, whatever the flags are.
///
/// # Errors
///
/// * `MemoryFlags` at flags above 15.
/// * `PageSize` at the flags, for a page of 2^64 bytes or more.
/// * `UnexpectedEof` if the flags are missing, and the errors of `read_var_u64` and `read_var_u32`.
impl<'a> FromReader<'a> for MemoryType {
    ghost use Rattle.wasm_items.specs.Memories.{memory_type_at};

    ghost meaning = { ReadsAs (λ memory. memory) memory_type_at };

    #[tactic(auto, unfolding(crate::specs::Memories::memory_type_at, crate::specs::Memories::memory_after_flags))]
    fn from_reader(reader: &mut BinaryReader<'a>) -> Result<Self> {
        let start = reader.original_position();
        let flags = reader.read_u8()?;
        if flags > 15 {
            return Err(Error::new(Fault::MemoryFlags, start));
        }
        let (initial, maximum) = read_limits(flags, reader)?;
        let page_size_log2 = read_page_size(start, flags, reader)?;
        Ok(MemoryType {
            memory64: has_flag(flags, IS_WIDE),
            shared: has_flag(flags, IS_SHARED),
            initial,
            maximum,
            page_size_log2,
        })
    }
}
