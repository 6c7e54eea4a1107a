// The heads of groups of types and of subtypes. Types come in parts, heads and then lists item by item, so that no call
// allocates.
ghost use Rattle.std.specs.Prelude.{◌≡◌};
ghost use Rattle.wasm_c_items.specs.TypeHeads.{composite_number as number_of, plain_subtype, plain_type_group};
ghost use Rattle.wasm_items.specs.TypeHeads.{group_head_at, subtype_head_at};
ghost use Rattle.wasm_items.specs.declared.type_heads.RecGroupHead.{RecGroupHead};
ghost use Rattle.wasm_items.specs.declared.type_heads.SubTypeHead.{SubTypeHead};

use crate::faults::{NO_FAULT, PlainFault, plain_fault};
use crate::kinds::small_parts;
use crate::readable::Readable;
use crate::spans::{distance, flag};
use wasm_base::FromReader;
use wasm_items::{CompositeKind, RecGroupHead, SubTypeHead};
use wasm_parser::{BinaryReader, Error, Result};

/// The head of a recursive group of types, or a fault. The subtypes of the group follow.
#[repr(C)]
#[derive(Clone, Copy)]
pub struct PlainTypeGroup {
    /// The fault of the item, of kind 0 if there is none.
    pub fault: PlainFault,
    /// The size of the head in bytes, without the subtypes; 0 after a fault, and for a single type.
    pub consumed: usize,
    /// 1 if the group is encoded as a group, or 0 for a single type.
    pub is_explicit: u32,
    /// The number of subtypes that follow.
    pub count: u32,
}

/// The head of a subtype, or a fault. The parameters and results, or the fields, follow.
#[repr(C)]
#[derive(Clone, Copy)]
pub struct PlainSubtype {
    /// The fault of the item, of kind 0 if there is none.
    pub fault: PlainFault,
    /// The size of the head in bytes, up to and including the count; 0 after a fault.
    pub consumed: usize,
    /// 1 if no type may extend the type, or 0.
    pub is_final: u32,
    /// 1 if the type extends another one, or 0.
    pub has_supertype: u32,
    /// The index of the extended type, or 0.
    pub supertype: u32,
    /// The kind of the type, a `pulleynavy_composite_kind`: 0 functions, 1 arrays, 2 structures.
    pub kind: u32,
    /// The number of parameters or fields that follow; 1 for an array.
    pub count: u32,
}

// The number of a kind of composite types.
fn composite_number(kind: CompositeKind) -> u32
    ensures { result ≡ number_of kind }
{
    match kind {
        CompositeKind::Func => 0,
        CompositeKind::Array => 1,
        CompositeKind::Struct => 2,
    }
}

/// Groups of types, without their lists.
#[derive(Clone, Copy)]
pub struct TypeGroups;

impl Readable for TypeGroups {
    type Plain = PlainTypeGroup;

    ghost Item = { RecGroupHead };

    ghost reading = { λ _. group_head_at };

    ghost plain = { λ _. plain_type_group };

    fn read(self, reader: &mut BinaryReader<'_>, _from: u64) -> Result<PlainTypeGroup> {
        let start = reader.original_position();
        let group = RecGroupHead::from_reader(reader)?;
        Ok(PlainTypeGroup {
            fault: NO_FAULT,
            consumed: distance(start, reader.original_position()),
            is_explicit: flag(group.explicit),
            count: group.count,
        })
    }

    fn refused(self, error: Error) -> PlainTypeGroup {
        PlainTypeGroup {
            fault: plain_fault(error),
            consumed: 0,
            is_explicit: 0,
            count: 0,
        }
    }
}

/// Types, without their lists.
#[derive(Clone, Copy)]
pub struct Subtypes;

impl Readable for Subtypes {
    type Plain = PlainSubtype;

    ghost Item = { SubTypeHead };

    ghost reading = { λ _. subtype_head_at };

    ghost plain = { λ _. plain_subtype };

    fn read(self, reader: &mut BinaryReader<'_>, _from: u64) -> Result<PlainSubtype> {
        let start = reader.original_position();
        let subtype = SubTypeHead::from_reader(reader)?;
        Ok(PlainSubtype {
            fault: NO_FAULT,
            consumed: distance(start, reader.original_position()),
            is_final: flag(subtype.is_final),
            has_supertype: small_parts(subtype.supertype).0,
            supertype: small_parts(subtype.supertype).1,
            kind: composite_number(subtype.kind),
            count: subtype.count,
        })
    }

    fn refused(self, error: Error) -> PlainSubtype {
        PlainSubtype {
            fault: plain_fault(error),
            consumed: 0,
            is_final: 0,
            has_supertype: 0,
            supertype: 0,
            kind: 0,
            count: 0,
        }
    }
}
