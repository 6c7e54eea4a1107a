// Element segments.
ghost use Rattle.std.specs.Prelude.{◌≡◌};
ghost use Rattle.wasm_base.specs.Hints.{NotOutOfMemory};
ghost use Rattle.wasm_base.specs.Item.{ReadsAs};
ghost use Rattle.wasm_base.specs.Outcome.{GivesBy};
ghost use Rattle.wasm_base.specs.Window.{place, KeepsWindow};
ghost use Rattle.wasm_items.specs.Elements.{active_element_at, element_flags_at, element_kind_at, after_element_kind, function_elements_at, element_type_at, elements_at, expression_elements_at, is_typed};

use crate::exports::ExternalKind;
use crate::init::ConstExpr;
use crate::limits::has_flag;
use crate::types::RefType;
use std::ops::Range;
use wasm_base::{
    BinaryReader, Error, Fault, FromReader, Result, SectionLimited, read_flags, read_inner,
    read_inner_u32s,
};

/// The element section, whose items are element segments.
///
/// ```rattle
/// let bytes = b"\x01\x00\x41\x00\x0b\x02\x00\x01";
/// for segment in ElementSectionReader::new(BinaryReader::new(bytes, 0))? {
///     assert_eq!(rt; segment?.range.end, 8);
/// }
/// ```
///
/// (Core specification, Binary format, Modules, Element Section.)
pub type ElementSectionReader<'a> = SectionLimited<'a, Element<'a>>;

/// An element segment.
///
/// ```rattle
/// // Active, in table 0 at index 0, with the functions 5 and 6.
/// let mut reader = BinaryReader::new(&[0, 0x41, 0, 0x0b, 2, 5, 6], 0);
/// let segment = Element::from_reader(&mut reader)?;
/// let mut sum = 0;
/// if let ElementItems::Functions(functions) = segment.items {
///     for function in functions {
///         sum += function?;
///     }
/// }
/// assert_eq!(rt; sum, 11);
/// ```
///
/// (Core specification, Binary format, Modules, Element Section.)
#[derive(Clone, Drop)]
pub struct Element<'a> {
    /// The kind of the segment: passive, active or declared.
    pub kind: ElementKind<'a>,
    /// The elements: function indices or expressions.
    pub items: ElementItems<'a>,
    /// The offsets of the whole segment, from its flags to its last element, in bytes from the start of the stream.
    pub range: Range<u64>,
}

/// The kind of an element segment.
///
/// ```rattle
/// let mut reader = BinaryReader::new(&[0, 0x41, 0, 0x0b, 1, 5], 0);
/// match Element::from_reader(&mut reader)?.kind {
///     ElementKind::Active { table_index, .. } => assert_eq!(rt; table_index, None),
///     ElementKind::Passive | ElementKind::Declared => assert!(rt; false),
/// }
/// ```
///
/// (Core specification, Binary format, Modules, Element Section.)
#[derive(Clone, Drop)]
pub enum ElementKind<'a> {
    /// A passive segment, which instructions such as `table.init` copy to a table.
    Passive,
    /// An active segment, which is copied to a table at instantiation.
    Active {
        /// The index of the table, if encoded; otherwise the segment is for table 0.
        table_index: Option<u32>,
        /// The expression of the table index to copy the first element to.
        offset_expr: ConstExpr<'a>,
    },
    /// A declarative segment, which only makes functions available to `ref.func`.
    Declared,
}

/// The elements of a segment.
///
/// The list is read lazily. If it comes from a segment that was read, iterating over it yields as many elements as
/// announced and no error, because reading the segment checked them.
///
/// ```rattle
/// // Passive, of `funcref`, with one expression: `ref.func 5`.
/// let mut reader = BinaryReader::new(&[5, 0x70, 1, 0xd2, 5, 0x0b], 0);
/// if let ElementItems::Expressions(ty, expressions) = Element::from_reader(&mut reader)?.items {
///     assert_eq!(rt; ty, RefType::FUNCREF);
///     assert_eq!(rt; expressions.count(), 1);
/// }
/// ```
///
/// (Core specification, Binary format, Modules, Element Section.)
#[derive(Clone, Drop)]
pub enum ElementItems<'a> {
    /// Function indices.
    Functions(SectionLimited<'a, u32>),
    /// The type of the elements, and a constant expression for each of them.
    Expressions(RefType, SectionLimited<'a, ConstExpr<'a>>),
}

// The flag of a passive or declared segment.
const IS_NOT_ACTIVE: u8 = 1;

// The flag of an active segment with a table index, or of a declared segment.
const IS_INDEXED_OR_DECLARED: u8 = 2;

// The flag of elements that are expressions rather than function indices.
const HAS_EXPRESSIONS: u8 = 4;

// Reads the flags of a segment.
#[tactic(auto, unfolding(crate::specs::Elements::element_flags_at))]
fn read_element_flags(reader: &mut BinaryReader<'_>) -> Result<u8>
    ensures gives { GivesBy (λ flags. flags) result reader.old reader.new element_flags_at }
    ensures keeps { KeepsWindow reader.old reader.new }
    ensures memory { NotOutOfMemory result }
{
    match read_flags(7, reader)? {
        Some(flags) => Ok(flags),
        None => Err(Error::new(Fault::ElementFlags, reader.original_position() - 1)),
    }
}

// Reads an active segment after its table index.
fn read_active<'a>(
    table_index: Option<u32>,
    reader: &mut BinaryReader<'a>,
) -> Result<ElementKind<'a>>
    ensures gives { GivesBy (λ kind. kind) result reader.old reader.new (active_element_at table_index) }
    ensures keeps { KeepsWindow reader.old reader.new }
    ensures memory { NotOutOfMemory result }
{
    let offset_expr = ConstExpr::from_reader(reader)?;
    Ok(ElementKind::Active {
        table_index,
        offset_expr,
    })
}

// Reads the kind of a segment with these flags.
#[tactic(auto, unfolding(crate::specs::Elements::element_kind_at))]
fn read_kind<'a>(flags: u8, reader: &mut BinaryReader<'a>) -> Result<ElementKind<'a>>
    ensures gives { GivesBy (λ kind. kind) result reader.old reader.new (element_kind_at flags) }
    ensures keeps { KeepsWindow reader.old reader.new }
    ensures memory { NotOutOfMemory result }
{
    if has_flag(flags, IS_NOT_ACTIVE) {
        if has_flag(flags, IS_INDEXED_OR_DECLARED) {
            return Ok(ElementKind::Declared);
        }
        return Ok(ElementKind::Passive);
    }
    if has_flag(flags, IS_INDEXED_OR_DECLARED) {
        let table_index = reader.read_var_u32()?;
        return read_active(Some(table_index), reader);
    }
    read_active(None, reader)
}

// Whether the kind or the type of the elements is present.
fn is_typed(flags: u8) -> bool
    ensures { result ≡ is_typed flags }
{
    has_flag(flags, IS_NOT_ACTIVE) || has_flag(flags, IS_INDEXED_OR_DECLARED)
}

// Skips the kind of the elements, if present.
#[tactic(auto, unfolding(crate::specs::Elements::skipped_element_kind_at))]
fn skip_kind(flags: u8, reader: &mut BinaryReader<'_>) -> Result<()>
    ensures gives { GivesBy (λ nothing. nothing) result reader.old reader.new (after_element_kind flags) }
    ensures keeps { KeepsWindow reader.old reader.new }
    ensures memory { NotOutOfMemory result }
{
    if !is_typed(flags) {
        return Ok(());
    }
    let start = reader.original_position();
    match ExternalKind::from_reader(reader)? {
        ExternalKind::Func => Ok(()),
        _ => Err(Error::new(Fault::ElementFunctionOnly, start)),
    }
}

// Reads elements that are function indices.
#[tactic(auto, unfolding(crate::specs::Elements::function_elements_at))]
fn read_functions<'a>(flags: u8, reader: &mut BinaryReader<'a>) -> Result<ElementItems<'a>>
    ensures gives { GivesBy (λ items. items) result reader.old reader.new (function_elements_at flags) }
    ensures keeps { KeepsWindow reader.old reader.new }
    ensures memory { NotOutOfMemory result }
{
    skip_kind(flags, reader)?;
    Ok(ElementItems::Functions(read_inner_u32s(reader)?))
}

// Reads the type of the elements, if present; without one it is `funcref`.
fn read_type(flags: u8, reader: &mut BinaryReader<'_>) -> Result<RefType>
    ensures gives { GivesBy (λ ty. ty) result reader.old reader.new (element_type_at flags) }
    ensures keeps { KeepsWindow reader.old reader.new }
    ensures memory { NotOutOfMemory result }
{
    if is_typed(flags) {
        RefType::from_reader(reader)
    } else {
        Ok(RefType::FUNCREF)
    }
}

// Reads elements that are expressions.
#[tactic(auto, unfolding(crate::specs::Elements::expression_elements_at))]
fn read_typed<'a>(flags: u8, reader: &mut BinaryReader<'a>) -> Result<ElementItems<'a>>
    ensures gives { GivesBy (λ items. items) result reader.old reader.new (expression_elements_at flags) }
    ensures keeps { KeepsWindow reader.old reader.new }
    ensures memory { NotOutOfMemory result }
{
    let ty = read_type(flags, reader)?;
    Ok(ElementItems::Expressions(ty, read_inner(reader)?))
}

// Reads the elements of a segment with these flags.
fn read_items<'a>(flags: u8, reader: &mut BinaryReader<'a>) -> Result<ElementItems<'a>>
    ensures gives { GivesBy (λ items. items) result reader.old reader.new (elements_at flags) }
    ensures keeps { KeepsWindow reader.old reader.new }
    ensures memory { NotOutOfMemory result }
{
    if has_flag(flags, HAS_EXPRESSIONS) {
        return read_typed(flags, reader);
    }
    read_functions(flags, reader)
}

/// Reads a segment: flags, a u32; for an active segment a table index, if flagged, and an offset expression; the kind
/// or type of the elements, if flagged; then the list of elements, function indices or expressions.
///
/// The elements are skipped and their errors returned here, so that iterating over them later can't fail.
///
/// # Errors
///
/// * `ElementFlags` at the last byte of flags above 7.
/// * `ElementFunctionOnly` at an element kind other than that of functions; `LeadingByte(External)` at a byte that is
///   no kind.
/// * The errors of `read_var_u32`, of the type (`RefType`) and of the expressions (`ConstExpr`).
impl<'a> FromReader<'a> for Element<'a> {
    ghost use Rattle.wasm_items.specs.Elements.{element_at};

    ghost meaning = { ReadsAs (λ element. element) element_at };

    #[tactic(auto, unfolding(crate::specs::Elements::element_at))]
    fn from_reader(reader: &mut BinaryReader<'a>) -> Result<Self> {
        let start = reader.original_position();
        let flags = read_element_flags(reader)?;
        let kind = read_kind(flags, reader)?;
        let items = read_items(flags, reader)?;
        Ok(Element {
            kind,
            items,
            range: start..reader.original_position(),
        })
    }
}
