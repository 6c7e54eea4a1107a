// Relocations as plain numbers.
ghost use Rattle.std.specs.Prelude.{◌≡◌};
ghost use Rattle.wasm_c_items.specs.Relocations.{plain_relocation};
ghost use Rattle.wasm_custom.specs.Reloc.{extent_of, number_of, relocation_at};
ghost use Rattle.wasm_custom.specs.declared.reloc.RelocationEntry.{RelocationEntry};

use crate::faults::{NO_FAULT, PlainFault, plain_fault};
use crate::readable::Readable;
use crate::spans::distance;
use wasm_parser::{BinaryReader, Error, FromReader, RelocationEntry, RelocationType, Result};

/// A relocation, or a fault.
#[repr(C)]
#[derive(Clone, Copy)]
pub struct PlainRelocation {
    /// The fault of the item, of kind 0 if there is none.
    pub fault: PlainFault,
    /// The size of the item in bytes, 0 after a fault.
    pub consumed: usize,
    /// The type, a `pulleynavy_relocation_kind` from 0 to 26.
    pub kind: u32,
    /// The number of bytes that the relocation fills in: 4, 5, 8 or 10.
    pub extent: u32,
    /// The offset of these bytes, in bytes from the start of the relocated section's content.
    pub offset: u32,
    /// The index of the symbol, or of the type for `TYPE_INDEX_LEB`.
    pub index: u32,
    /// The addend, which is added to the value of the symbol; 0 if the type has none.
    pub addend: i64,
}

fn relocation_number(ty: RelocationType) -> u32
    ensures { result ≡ number_of ty }
{
    match ty {
        RelocationType::FunctionIndexLeb => 0,
        RelocationType::TableIndexSleb => 1,
        RelocationType::TableIndexI32 => 2,
        RelocationType::MemoryAddrLeb => 3,
        RelocationType::MemoryAddrSleb => 4,
        RelocationType::MemoryAddrI32 => 5,
        RelocationType::TypeIndexLeb => 6,
        RelocationType::GlobalIndexLeb => 7,
        RelocationType::FunctionOffsetI32 => 8,
        RelocationType::SectionOffsetI32 => 9,
        RelocationType::EventIndexLeb => 10,
        RelocationType::MemoryAddrRelSleb => 11,
        RelocationType::TableIndexRelSleb => 12,
        RelocationType::GlobalIndexI32 => 13,
        RelocationType::MemoryAddrLeb64 => 14,
        RelocationType::MemoryAddrSleb64 => 15,
        RelocationType::MemoryAddrI64 => 16,
        RelocationType::MemoryAddrRelSleb64 => 17,
        RelocationType::TableIndexSleb64 => 18,
        RelocationType::TableIndexI64 => 19,
        RelocationType::TableNumberLeb => 20,
        RelocationType::MemoryAddrTlsSleb => 21,
        RelocationType::FunctionOffsetI64 => 22,
        RelocationType::MemoryAddrLocrelI32 => 23,
        RelocationType::TableIndexRelSleb64 => 24,
        RelocationType::MemoryAddrTlsSleb64 => 25,
        RelocationType::FunctionIndexI32 => 26,
    }
}

// How many bytes a relocation fills in.
fn extent(ty: RelocationType) -> u32
    ensures { result ≡ extent_of ty }
{
    u32::try_from(ty.extent()).unwrap_or(0)
}

/// Relocations.
#[derive(Clone, Copy)]
pub struct Relocations;

impl Readable for Relocations {
    type Plain = PlainRelocation;

    ghost Item = { RelocationEntry };

    ghost reading = { λ _. relocation_at };

    ghost plain = { λ _. plain_relocation };

    fn read(self, reader: &mut BinaryReader<'_>, _from: u64) -> Result<PlainRelocation> {
        let start = reader.original_position();
        let entry = RelocationEntry::from_reader(reader)?;
        Ok(PlainRelocation {
            fault: NO_FAULT,
            consumed: distance(start, reader.original_position()),
            kind: relocation_number(entry.ty),
            extent: extent(entry.ty),
            offset: entry.offset,
            index: entry.index,
            addend: entry.addend,
        })
    }

    fn refused(self, error: Error) -> PlainRelocation {
        PlainRelocation {
            fault: plain_fault(error),
            consumed: 0,
            kind: 0,
            extent: 0,
            offset: 0,
            index: 0,
            addend: 0,
        }
    }
}
