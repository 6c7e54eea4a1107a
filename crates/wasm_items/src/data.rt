// Data segments.
ghost use Rattle.std.specs.Prelude.{◌≡◌};
ghost use Rattle.wasm_base.specs.Hints.{NotOutOfMemory};
ghost use Rattle.wasm_base.specs.Item.{ReadsAs};
ghost use Rattle.wasm_base.specs.Outcome.{GivesBy};
ghost use Rattle.wasm_base.specs.Window.{place, KeepsWindow};
ghost use Rattle.wasm_items.specs.Data.{active_data_at, indexed_data_at, data_kind_at};

use crate::init::ConstExpr;
use std::ops::Range;
use wasm_base::{BinaryReader, Error, Fault, FromReader, Result, SectionLimited, read_flags};

/// The data section, whose items are data segments.
///
/// ```rattle
/// let section = DataSectionReader::new(BinaryReader::new(b"\x01\x01\x02hi", 0))?;
/// for segment in section {
///     assert_eq!(rt; segment?.bytes, b"hi".as_slice());
/// }
/// ```
///
/// (Core specification, Binary format, Modules, Data Section.)
pub type DataSectionReader<'a> = SectionLimited<'a, Data<'a>>;

/// A data segment.
///
/// ```rattle
/// // Active, in memory 0 at address 8, with two bytes.
/// let mut reader = BinaryReader::new(b"\x00\x41\x08\x0b\x02hi", 0);
/// let segment = Data::from_reader(&mut reader)?;
/// assert_eq!(rt; segment.bytes, b"hi".as_slice());
/// assert_eq!(rt; segment.range.end, 7);
/// ```
///
/// (Core specification, Binary format, Modules, Data Section.)
#[derive(Clone, Debug, Drop)]
pub struct Data<'a> {
    /// The kind of the segment: passive or active.
    pub kind: DataKind<'a>,
    /// The bytes to copy to memory, borrowed from the input.
    pub bytes: &'a [u8],
    /// The offsets of the whole segment, from its flags to its last byte, in bytes from the start of the stream.
    pub range: Range<u64>,
}

/// The kind of a data segment.
///
/// ```rattle
/// let mut reader = BinaryReader::new(b"\x00\x41\x08\x0b\x02hi", 0);
/// let segment = Data::from_reader(&mut reader)?;
/// if let DataKind::Active { memory_index, offset_expr } = segment.kind {
///     assert_eq!(rt; memory_index, 0);
///     assert_eq!(rt; offset_expr.range().start, 1);
/// }
/// ```
///
/// (Core specification, Binary format, Modules, Data Section.)
#[derive(Clone, Debug, Drop)]
pub enum DataKind<'a> {
    /// A passive segment, which instructions such as `memory.init` copy to a memory.
    Passive,
    /// An active segment, which is copied to a memory at instantiation.
    Active {
        /// The index of the memory.
        memory_index: u32,
        /// The expression of the address to copy the first byte to.
        offset_expr: ConstExpr<'a>,
    },
}

// Reads an active segment after its memory index.
#[inline(always)]
fn read_active<'a>(memory_index: u32, reader: &mut BinaryReader<'a>) -> Result<DataKind<'a>>
    ensures gives { GivesBy (λ kind. kind) result reader.old reader.new (active_data_at memory_index) }
    ensures keeps { KeepsWindow reader.old reader.new }
    ensures memory { NotOutOfMemory result }
{
    let offset_expr = ConstExpr::from_reader(reader)?;
    Ok(DataKind::Active {
        memory_index,
        offset_expr,
    })
}

// Reads an active segment with its memory index. It isn't inlined, so that `read_active` is in place only for memory 0.
#[inline(never)]
fn read_indexed<'a>(reader: &mut BinaryReader<'a>) -> Result<DataKind<'a>>
    ensures gives { GivesBy (λ kind. kind) result reader.old reader.new indexed_data_at }
    ensures keeps { KeepsWindow reader.old reader.new }
    ensures memory { NotOutOfMemory result }
{
    let memory_index = reader.read_var_u32()?;
    read_active(memory_index, reader)
}

// Reads the flags of a segment, and its kind.
#[tactic(auto, unfolding(crate::specs::Data::data_kind_at))]
fn read_kind<'a>(reader: &mut BinaryReader<'a>) -> Result<DataKind<'a>>
    ensures gives { GivesBy (λ kind. kind) result reader.old reader.new data_kind_at }
    ensures keeps { KeepsWindow reader.old reader.new }
    ensures memory { NotOutOfMemory result }
{
    let start = reader.original_position();
    match read_flags(2, reader)? {
        Some(0) => read_active(0, reader),
        Some(1) => Ok(DataKind::Passive),
        Some(_) => read_indexed(reader),
        None => Err(Error::new(Fault::DataFlags, start)),
    }
}

/// Reads a segment: flags, a u32; for an active segment the memory index if the flags are 2, and the offset expression;
/// then a size, a u32, and that many bytes.
///
/// The flags are 0 (active, in memory 0), 1 (passive) or 2 (active, with a memory index).
///
/// # Errors
///
/// `DataFlags` at the start of the segment for other flags; `UnexpectedEof` after the size if fewer bytes remain; and
/// the errors of `read_var_u32` and of the expression.
impl<'a> FromReader<'a> for Data<'a> {
    ghost use Rattle.wasm_items.specs.Data.{data_parts, data_at};

    ghost meaning = { ReadsAs data_parts data_at };

    #[tactic(auto, unfolding(crate::specs::Data::data_at))]
    fn from_reader(reader: &mut BinaryReader<'a>) -> Result<Self> {
        let start = reader.original_position();
        let kind = read_kind(reader)?;
        let size = reader.read_var_u32()?;
        let bytes = reader.read_bytes(size as usize)?;
        Ok(Data {
            kind,
            bytes,
            range: start..reader.original_position(),
        })
    }
}
