// The heads of groups of types and of subtypes, so that a type section can be read without allocating.
ghost use Rattle.wasm_base.specs.Hints.{NotOutOfMemory};
ghost use Rattle.wasm_base.specs.Item.{ReadsAs};
ghost use Rattle.wasm_base.specs.Outcome.{GivesBy};
ghost use Rattle.wasm_base.specs.Window.{KeepsWindow};
ghost use Rattle.wasm_items.specs.TypeHeads.{composite_head_at, extending_head_at};

use crate::rec_groups::read_supertype;
use wasm_base::{BinaryReader, FromReader, Lead, Result, leading_byte_error};

/// The head of a group of types, which `count` subtypes follow.
///
/// A `RecGroup` owns its lists. To read a type section without allocating, read the head of each group, the head of
/// each of its subtypes, and then the lists item by item:
///
/// ```rattle
/// // One function type: from an `i32` to nothing.
/// let mut reader = BinaryReader::new(&[0x60, 1, 0x7f, 0], 0);
/// assert_eq!(rt; reader.read::<RecGroupHead>()?, RecGroupHead { explicit: false, count: 1 });
/// let ty = reader.read::<SubTypeHead>()?;
/// assert_eq!(rt; (ty.kind, ty.count), (CompositeKind::Func, 1));
/// assert_eq!(rt; reader.read::<ValType>()?, ValType::I32);
/// assert_eq!(rt; reader.read_var_u32()?, 0);
/// assert!(rt; reader.eof());
/// ```
///
/// (Core specification, Binary format, Types, Recursive Types; Modules, Type Section.)
#[derive(Clone, Copy, Debug, PartialEq, Eq)]
pub struct RecGroupHead {
    /// Whether the group is encoded as a group.
    pub explicit: bool,
    /// The number of subtypes that follow: 1 unless the group is explicit.
    pub count: u32,
}

/// The kind of a composite type (core specification, Binary format, Types, Composite Types).
#[derive(Clone, Copy, Debug, PartialEq, Eq)]
pub enum CompositeKind {
    /// A function type.
    Func,
    /// An array type.
    Array,
    /// A structure type.
    Struct,
}

/// The head of a subtype.
///
/// For functions `count` parameters follow, then the number of results, read by `read_var_u32`, and that many results.
/// Each of them is a `ValType`. For arrays and structures `count` fields follow, each a `FieldType`.
///
/// (Core specification, Binary format, Types, Recursive Types and Composite Types.)
#[derive(Clone, Copy, Debug, PartialEq, Eq)]
pub struct SubTypeHead {
    /// Whether no type may extend the type.
    pub is_final: bool,
    /// The index of the type that it extends, if any.
    pub supertype: Option<u32>,
    /// Whether it is a function, an array or a structure.
    pub kind: CompositeKind,
    /// The number of parameters or fields that follow: 1 for an array.
    pub count: u32,
}

/// Reads the byte 0x4E and the number of subtypes, for an explicit group; or nothing before a single subtype.
///
/// # Errors
///
/// `UnexpectedEof` if no byte remains, and the errors of `read_var_u32` for the count.
impl<'a> FromReader<'a> for RecGroupHead {
    ghost use Rattle.wasm_items.specs.TypeHeads.{group_head_at};

    // Proved: the head of a group, and of a subtype, is read without allocating; a group is its
    //   head and as many subtypes as announced, and a subtype is its head and what its kind has
    //   [`meaning` on `RecGroupHead` and `SubTypeHead` (`group_head_at`, `subtype_head_at`);
    //   `laws::types_have_heads` (`GroupsHaveHeads`, `SubtypesHaveHeads`)]
    ghost meaning = { ReadsAs (λ head. head) group_head_at };

    #[tactic(auto, unfolding(crate::specs::TypeHeads::group_head_at))]
    fn from_reader(reader: &mut BinaryReader<'a>) -> Result<Self> {
        if reader.peek()? != 0x4e {
            return Ok(RecGroupHead {
                explicit: false,
                count: 1,
            });
        }
        reader.read_u8()?;
        Ok(RecGroupHead {
            explicit: true,
            count: reader.read_var_u32()?,
        })
    }
}

// The head of a composite type.
#[derive(Clone, Copy)]
pub(crate) struct CompositeParts {
    kind: CompositeKind,
    count: u32,
}

// Reads the head of a composite type.
#[tactic(auto, unfolding(crate::specs::TypeHeads::composite_head_at))]
fn read_composite(reader: &mut BinaryReader<'_>) -> Result<CompositeParts>
    ensures gives { GivesBy (λ head. head) result reader.old reader.new composite_head_at }
    ensures keeps { KeepsWindow reader.old reader.new }
    ensures memory { NotOutOfMemory result }
{
    let start = reader.original_position();
    match reader.read_u8()? {
        0x60 => Ok(CompositeParts {
            kind: CompositeKind::Func,
            count: reader.read_var_u32()?,
        }),
        0x5f => Ok(CompositeParts {
            kind: CompositeKind::Struct,
            count: reader.read_var_u32()?,
        }),
        0x5e => Ok(CompositeParts {
            kind: CompositeKind::Array,
            count: 1,
        }),
        byte => Err(leading_byte_error(Lead::Composite, byte, start)),
    }
}

// Reads the head of a subtype after its first byte.
#[tactic(auto, unfolding(crate::specs::TypeHeads::extending_head_at))]
fn read_extending(is_final: bool, reader: &mut BinaryReader<'_>) -> Result<SubTypeHead>
    ensures gives { GivesBy (λ head. head) result reader.old reader.new (extending_head_at is_final) }
    ensures keeps { KeepsWindow reader.old reader.new }
    ensures memory { NotOutOfMemory result }
{
    let supertype = read_supertype(reader)?;
    let CompositeParts { kind, count } = read_composite(reader)?;
    Ok(SubTypeHead {
        is_final,
        supertype,
        kind,
        count,
    })
}

/// Reads the byte 0x50 or, for a final type, 0x4F, and the list of supertypes, unless the type is a composite type alone;
/// then the byte 0x60 for functions, 0x5F for structures or 0x5E for arrays, and the number of parameters or fields.
///
/// # Errors
///
/// `Supertypes` at the count of supertypes if it is above 1; `LeadingByte(Composite)` at a byte that begins no composite
/// type, with that byte as the error's number; `UnexpectedEof` if a byte is missing; and the errors of `read_var_u32`.
impl<'a> FromReader<'a> for SubTypeHead {
    ghost use Rattle.wasm_items.specs.TypeHeads.{subtype_head_at};

    ghost meaning = { ReadsAs (λ head. head) subtype_head_at };

    #[tactic(auto, unfolding(crate::specs::TypeHeads::subtype_head_at))]
    fn from_reader(reader: &mut BinaryReader<'a>) -> Result<Self> {
        match reader.peek()? {
            0x50 => {
                reader.read_u8()?;
                read_extending(false, reader)
            }
            0x4f => {
                reader.read_u8()?;
                read_extending(true, reader)
            }
            _ => {
                let CompositeParts { kind, count } = read_composite(reader)?;
                Ok(SubTypeHead {
                    is_final: true,
                    supertype: None,
                    kind,
                    count,
                })
            }
        }
    }
}
