// Reading value types, reference types and heap types.
ghost use Rattle.std.specs.Prelude.{◌≡◌};
ghost use Rattle.wasm_base.specs.Hints.{NotOutOfMemory};
ghost use Rattle.wasm_base.specs.Item.{ReadsAs};
ghost use Rattle.wasm_base.specs.Outcome.{GivesBy};
ghost use Rattle.wasm_base.specs.Window.{place, KeepsWindow};
ghost use Rattle.wasm_items.specs.Values.{abstract_heap_of, plain_type_of, ref_type_in};

use crate::types::{HeapType, RefType, ValType};
use wasm_base::{BinaryReader, FromReader, Lead, Result, leading_byte_error};

// Returns the abstract heap type that a byte encodes, if any.
fn abstract_heap(byte: u8) -> Option<HeapType>
    ensures { result ≡ abstract_heap_of byte }
{
    match byte {
        0x69 => Some(HeapType::Exn),
        0x6a => Some(HeapType::Array),
        0x6b => Some(HeapType::Struct),
        0x6c => Some(HeapType::I31),
        0x6d => Some(HeapType::Eq),
        0x6e => Some(HeapType::Any),
        0x6f => Some(HeapType::Extern),
        0x70 => Some(HeapType::Func),
        0x71 => Some(HeapType::None),
        0x72 => Some(HeapType::NoExtern),
        0x73 => Some(HeapType::NoFunc),
        0x74 => Some(HeapType::NoExn),
        _ => None,
    }
}

/// Reads a byte that encodes an abstract heap type, or the index of a type as a signed 33-bit number.
///
/// # Errors
///
/// `LeadingByte(Heap)` at the first byte of a negative number, with that byte as the number of the error; and the
/// errors of `read_var_s33`.
impl<'a> FromReader<'a> for HeapType {
    ghost use Rattle.wasm_items.specs.Values.{heap_type_at};

    ghost meaning = { ReadsAs (λ heap. heap) heap_type_at };

    #[tactic(auto, unfolding(crate::specs::Values::heap_type_at))]
    fn from_reader(reader: &mut BinaryReader<'a>) -> Result<Self> {
        let start = reader.original_position();
        let first = reader.peek()?;
        if let Some(heap) = abstract_heap(first) {
            reader.read_u8()?;
            return Ok(heap);
        }
        let index = reader.read_var_s33()?;
        if index < 0 {
            return Err(leading_byte_error(Lead::Heap, first, start));
        }
        Ok(HeapType::Concrete(index as u32))
    }
}

// Reads a reference type. Any other first byte is a `LeadingByte` fault with this `lead`.
#[tactic(auto, unfolding(crate::specs::Values::ref_type_in))]
fn read_ref_type(lead: Lead, reader: &mut BinaryReader<'_>) -> Result<RefType>
    ensures gives { GivesBy (λ ty. ty) result reader.old reader.new (ref_type_in lead) }
    ensures keeps { KeepsWindow reader.old reader.new }
    ensures memory { NotOutOfMemory result }
{
    let start = reader.original_position();
    let first = reader.read_u8()?;
    if let Some(heap) = abstract_heap(first) {
        return Ok(RefType {
            nullable: true,
            heap,
        });
    }
    match first {
        0x63 => Ok(RefType {
            nullable: true,
            heap: reader.read()?,
        }),
        0x64 => Ok(RefType {
            nullable: false,
            heap: reader.read()?,
        }),
        _ => Err(leading_byte_error(lead, first, start)),
    }
}

/// Reads the byte of an abstract heap type, for a nullable reference to it; or the byte 0x63 (nullable) or 0x64 (not
/// nullable) and a heap type.
///
/// # Errors
///
/// `LeadingByte(Reference)` at any other first byte, the error's number; `UnexpectedEof` if no byte remains; and the
/// errors of `HeapType`.
impl<'a> FromReader<'a> for RefType {
    ghost use Rattle.wasm_items.specs.Values.{ref_type_at};

    ghost meaning = { ReadsAs (λ ty. ty) ref_type_at };

    fn from_reader(reader: &mut BinaryReader<'a>) -> Result<Self> {
        read_ref_type(Lead::Reference, reader)
    }
}

// Returns the number type or vector type that a byte encodes, if any.
fn plain_type(byte: u8) -> Option<ValType>
    ensures { result ≡ plain_type_of byte }
{
    match byte {
        0x7f => Some(ValType::I32),
        0x7e => Some(ValType::I64),
        0x7d => Some(ValType::F32),
        0x7c => Some(ValType::F64),
        0x7b => Some(ValType::V128),
        _ => None,
    }
}

/// Reads the byte of a number type or vector type, or a reference type.
///
/// # Errors
///
/// `LeadingByte(Value)` at any other first byte, the error's number; `UnexpectedEof` if no byte remains; and the
/// errors of `HeapType`.
impl<'a> FromReader<'a> for ValType {
    ghost use Rattle.wasm_items.specs.Values.{val_type_at};

    // Proved: `from_reader` of each item returns what its definition says at the place, or the
    //   first fault; an item that owns lists may return `OutOfMemory` instead [`meaning` of each
    //   type]
    // Proved: these items are read this way: value, reference and heap types, constant expressions,
    //   external kinds and types, imports and their bundles, tables, memories, tags, globals,
    //   exports, element and data segments [`meaning` on each (`ReadsAs`)]
    // Proved: reading one of these items is never `OutOfMemory`, and keeps the window [`memory`,
    //   `keeps` of `FromReader`]
    ghost meaning = { ReadsAs (λ ty. ty) val_type_at };

    #[tactic(auto, unfolding(crate::specs::Values::val_type_at))]
    #[inline(always)]
    fn from_reader(reader: &mut BinaryReader<'a>) -> Result<Self> {
        if let Some(plain) = plain_type(reader.peek()?) {
            reader.read_u8()?;
            return Ok(plain);
        }
        Ok(ValType::Ref(read_ref_type(Lead::Value, reader)?))
    }
}
