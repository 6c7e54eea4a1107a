// Reading groups of types.
ghost use Rattle.std.specs.Prelude.{◌≡◌, map};
ghost use Rattle.wasm_base.specs.Hints.{NotOutOfMemory};
ghost use Rattle.wasm_base.specs.Item.{ReadsAs};
ghost use Rattle.wasm_base.specs.Outcome.{GivesBy};
ghost use Rattle.wasm_base.specs.Owned.{GivesUnlessMemory, list_at};
ghost use Rattle.wasm_base.specs.Window.{place, KeepsWindow};
ghost use Rattle.wasm_items.specs.RecGroups.{field_type_at, supertypes_at, subtype_parts, subtype_at, extending_at};
ghost use Rattle.wasm_items.specs.Values.{val_type_at};

use crate::type_lists::{FieldTypes, OneSubType, TypeList, ValTypes, read_types};
use crate::types::{CompositeType, FieldType, FuncType, RecGroup, StorageType, SubType, ValType};
use std::alloc::Global;
use wasm_base::{
    BinaryReader, Error, Fault, FromReader, FromReaderIn, Lead, Result, leading_byte_error,
    read_flag, read_list_in,
};

/// Reads the byte 0x78 for `I8` or 0x77 for `I16`, or a value type, with the errors of `ValType`.
impl<'a> FromReader<'a> for StorageType {
    ghost use Rattle.wasm_items.specs.RecGroups.{storage_type_at};

    ghost meaning = { ReadsAs (λ storage. storage) storage_type_at };

    #[tactic(auto, unfolding(crate::specs::RecGroups::storage_type_at))]
    fn from_reader(reader: &mut BinaryReader<'a>) -> Result<Self> {
        match reader.peek()? {
            0x78 => {
                reader.read_u8()?;
                Ok(StorageType::I8)
            }
            0x77 => {
                reader.read_u8()?;
                Ok(StorageType::I16)
            }
            _ => Ok(StorageType::Val(ValType::from_reader(reader)?)),
        }
    }
}

/// Reads the storage type, and a byte that is 0 for an immutable or 1 for a mutable field.
///
/// # Errors
///
/// `LeadingByte(Mutability)` at any other second byte, with that byte as the error's number; `UnexpectedEof` if it is
/// missing; and the errors of `StorageType`.
impl<'a> FromReader<'a> for FieldType {
    ghost meaning = { ReadsAs (λ field. field) field_type_at };

    #[tactic(auto, unfolding(crate::specs::RecGroups::field_type_at))]
    fn from_reader(reader: &mut BinaryReader<'a>) -> Result<Self> {
        let storage = StorageType::from_reader(reader)?;
        let mutable = read_flag(Lead::Mutability, reader)?;
        Ok(FieldType { storage, mutable })
    }
}

// Reads a list of value types.
#[inline(always)]
fn read_val_types(alloc: Global, reader: &mut BinaryReader<'_>) -> Result<ValTypes>
    ensures gives { GivesUnlessMemory (λ types. types)
        result (place reader.new) (list_at val_type_at (place reader.old)) }
    ensures keeps { KeepsWindow reader.old reader.new }
{
    read_types(alloc, reader)
}

// Reads a list of fields.
fn read_fields(alloc: Global, reader: &mut BinaryReader<'_>) -> Result<FieldTypes>
    ensures gives { GivesUnlessMemory (λ fields. fields)
        result (place reader.new) (list_at field_type_at (place reader.old)) }
    ensures keeps { KeepsWindow reader.old reader.new }
{
    read_types(alloc, reader)
}

// Reads a list of subtypes.
fn read_subtypes(alloc: Global, reader: &mut BinaryReader<'_>) -> Result<Vec<SubType>>
    ensures gives { GivesUnlessMemory (λ types. map subtype_parts types.items)
        result (place reader.new) (list_at subtype_at (place reader.old)) }
    ensures keeps { KeepsWindow reader.old reader.new }
{
    read_list_in(alloc, reader)
}

/// Reads the list of parameter types and the list of result types, after the byte 0x60.
///
/// # Errors
///
/// The errors of `read_var_u32` for the counts and of `ValType`; `OutOfMemory`, at offset 0, when an allocation fails.
impl<'a> FromReaderIn<'a> for FuncType {
    ghost use Rattle.wasm_items.specs.RecGroups.{function_parts, func_type_at};

    ghost meaning = { ReadsAs function_parts func_type_at };

    #[tactic(auto, unfolding(crate::specs::RecGroups::func_type_at))]
    #[inline(always)]
    fn from_reader(alloc: Global, reader: &mut BinaryReader<'a>) -> Result<Self> {
        let params = read_val_types(alloc, reader)?;
        let results = read_val_types(alloc, reader)?;
        Ok(FuncType { params, results })
    }
}

/// Reads the byte 0x60 and a function type, 0x5F and a list of fields, or 0x5E and the type of an array's elements.
///
/// # Errors
///
/// `LeadingByte(Composite)` at any other byte, with that byte as the error's number; `UnexpectedEof` if no byte remains;
/// the errors of the parts; and `OutOfMemory`, at offset 0, when an allocation fails.
impl<'a> FromReaderIn<'a> for CompositeType {
    ghost use Rattle.wasm_items.specs.RecGroups.{composite_parts, composite_type_at};

    ghost meaning = { ReadsAs composite_parts composite_type_at };

    #[tactic(auto, unfolding(crate::specs::RecGroups::composite_type_at))]
    #[inline(always)]
    fn from_reader(alloc: Global, reader: &mut BinaryReader<'a>) -> Result<Self> {
        let start = reader.original_position();
        match reader.read_u8()? {
            0x60 => Ok(CompositeType::Func(FuncType::from_reader(alloc, reader)?)),
            0x5f => Ok(CompositeType::Struct(read_fields(alloc, reader)?)),
            0x5e => Ok(CompositeType::Array(FieldType::from_reader(reader)?)),
            byte => Err(leading_byte_error(Lead::Composite, byte, start)),
        }
    }
}

/// Reads the supertypes of a subtype, at most one.
#[tactic(auto, unfolding(crate::specs::RecGroups::supertypes_at))]
pub(crate) fn read_supertype(reader: &mut BinaryReader<'_>) -> Result<Option<u32>>
    ensures gives { GivesBy (λ supertype. supertype) result reader.old reader.new supertypes_at }
    ensures keeps { KeepsWindow reader.old reader.new }
    ensures memory { NotOutOfMemory result }
{
    let start = reader.original_position();
    match reader.read_var_u32()? {
        0 => Ok(None),
        1 => Ok(Some(reader.read_var_u32()?)),
        _ => Err(Error::new(Fault::Supertypes, start)),
    }
}

// Reads a subtype after its first byte.
#[tactic(auto, unfolding(crate::specs::RecGroups::extending_at))]
fn read_extending(alloc: Global, is_final: bool, reader: &mut BinaryReader<'_>) -> Result<SubType>
    ensures gives { GivesUnlessMemory subtype_parts
        result (place reader.new) (extending_at is_final (place reader.old)) }
    ensures keeps { KeepsWindow reader.old reader.new }
{
    let supertype = read_supertype(reader)?;
    let composite = CompositeType::from_reader(alloc, reader)?;
    Ok(SubType {
        is_final,
        supertype,
        composite,
    })
}

/// Reads the byte 0x50 or, for a final type, 0x4F, the list of supertypes and a composite type; or a composite type
/// alone, which is final.
///
/// # Errors
///
/// `Supertypes` at the count of supertypes if it is above 1; `UnexpectedEof` if no byte remains; the errors of
/// `read_var_u32` and `CompositeType`; and `OutOfMemory`, at offset 0, when an allocation fails.
impl<'a> FromReaderIn<'a> for SubType {
    ghost meaning = { ReadsAs subtype_parts subtype_at };

    #[tactic(auto, unfolding(crate::specs::RecGroups::subtype_at))]
    #[inline(always)]
    fn from_reader(alloc: Global, reader: &mut BinaryReader<'a>) -> Result<Self> {
        match reader.peek()? {
            0x50 => {
                reader.read_u8()?;
                read_extending(alloc, false, reader)
            }
            0x4f => {
                reader.read_u8()?;
                read_extending(alloc, true, reader)
            }
            _ => Ok(SubType {
                is_final: true,
                supertype: None,
                composite: CompositeType::from_reader(alloc, reader)?,
            }),
        }
    }
}

/// Reads the byte 0x4E and a list of subtypes, for an explicit group; or a subtype alone.
///
/// # Errors
///
/// `UnexpectedEof` if no byte remains; the errors of `read_var_u32` for the count and of `SubType`; and `OutOfMemory`,
/// at offset 0, when an allocation fails.
impl<'a> FromReaderIn<'a> for RecGroup {
    ghost use Rattle.wasm_items.specs.RecGroups.{rec_group_parts, rec_group_at};

    // Proved: groups of types, subtypes, composite, function, field and storage types are read by
    //   their definitions; those that own lists may return `OutOfMemory` instead [`meaning` on each
    //   (`rec_group_at`, `subtype_at`, `composite_type_at`, `func_type_at`, `field_type_at`,
    //   `storage_type_at`)]
    ghost meaning = { ReadsAs rec_group_parts rec_group_at };

    #[tactic(auto, unfolding(crate::specs::RecGroups::rec_group_at))]
    fn from_reader(alloc: Global, reader: &mut BinaryReader<'a>) -> Result<Self> {
        if reader.peek()? == 0x4e {
            reader.read_u8()?;
            return Ok(RecGroup {
                explicit: true,
                types: TypeList::from_vec(read_subtypes(alloc, reader)?),
            });
        }
        let one = SubType::from_reader(alloc, reader)?;
        Ok(RecGroup {
            explicit: false,
            types: TypeList::in_place(OneSubType::new(one)),
        })
    }
}
