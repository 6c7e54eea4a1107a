// Element segments.
ghost use Rattle.std.specs.Prelude.{◌≡◌, ℕ, ◌+◌, ◌≤◌, ◌<◌, ◌^◌, ◌++◌, ◌↔◌, All, IsTrue, Option, drop, length, take};
ghost use Rattle.wasm_base.specs.Inner.{after_reading};
ghost use Rattle.wasm_base.specs.Number.{unsigned_at};
ghost use Rattle.wasm_base.specs.declared.fault.NumberKind.TheVariants.{VarU32};
ghost use Rattle.wasm_encode.specs.Elements.{ElementFits, ReadsAsSegments};
ghost use Rattle.wasm_encode.specs.Elements.{ElementsFit, IsSpelled, KindFits, element_bytes, elements_bytes};
ghost use Rattle.wasm_encode.specs.Elements.{elements_flag, has_type, kind_bytes, kind_flags, list_of, type_bytes};
ghost use Rattle.wasm_encode.specs.Limits.{IsBelow};
ghost use Rattle.wasm_encode.specs.Lists.{IsList, list_bytes};

use crate::bytes::{write_byte, write_bytes};
use crate::encode::Encode;
use crate::expressions::bytes_of;
use crate::globals::is_expression;
use crate::limits::{maybe_len, write_maybe_number};
use crate::lists::{copied_len, is_list, write_copied};
use crate::sections::section_reads_back;
use wasm_base::SectionLimited;
use wasm_items::{Element, ElementItems, ElementKind, RefType};

// Returns whether the index of a table is a number of 32 bits, as it always is.
fn table_fits(table: Option<u32>) -> bool
    ensures { IsTrue result ↔ IsBelow (2 ^ 32) table }
{
    match table {
        Some(_index) => true,
        None => true,
    }
}

// Returns the index of a table as a number of 64 bits.
fn wide(table: Option<u32>) -> Option<u64>
    ensures { result ≡ table }
{
    match table {
        Some(index) => Some(u64::from(index)),
        None => None,
    }
}

// Returns the flags of a kind.
fn flags_of(kind: &ElementKind<'_>) -> u8
    ensures flags { result ≡ kind_flags kind.now }
    ensures most { result ≤ 3 }
{
    match kind {
        ElementKind::Passive => 1,
        ElementKind::Active { table_index, .. } => match table_index {
            Some(_) => 2,
            None => 0,
        },
        ElementKind::Declared => 3,
    }
}

// Returns the flag of elements that are expressions.
fn flag_of(items: &ElementItems<'_>) -> u8
    ensures flag { result ≡ elements_flag items.now }
    ensures most { result ≤ 4 }
{
    match items {
        ElementItems::Functions(_) => 0,
        ElementItems::Expressions(_, _) => 4,
    }
}

// Returns whether the kind of a segment can be written.
fn kind_fits(kind: &ElementKind<'_>) -> bool
    ensures { IsTrue result ↔ KindFits kind.now }
{
    match kind {
        ElementKind::Passive => true,
        ElementKind::Active {
            table_index,
            offset_expr,
        } => {
            if !table_fits(*table_index) {
                return false;
            }
            is_expression(offset_expr)
        }
        ElementKind::Declared => true,
    }
}

// Returns how many bytes the kind of a segment has after the flags.
fn kind_len(kind: &ElementKind<'_>) -> usize
    ensures len { result ≡ length (kind_bytes kind.now) }
    ensures most { result < 2 ^ 63 + 10 }
{
    match kind {
        ElementKind::Passive => 0,
        ElementKind::Active {
            table_index,
            offset_expr,
        } => maybe_len(wide(*table_index)) + bytes_of(offset_expr).len(),
        ElementKind::Declared => 0,
    }
}

// Writes what belongs to the kind of a segment after the flags.
#[tactic(auto, using(crate::proofs::RestStays::stays_on))]
fn write_kind(bytes: &mut [u8], at: usize, kind: &ElementKind<'_>) -> usize
    requires { at + length (kind_bytes kind.now) ≤ length bytes.old }
    ensures end { result ≡ at + length (kind_bytes kind.now) }
    ensures written { take result bytes.new ≡ take at bytes.old ++ kind_bytes kind.now }
    ensures rest { drop result bytes.new ≡ drop result bytes.old }
    ensures len { length bytes.new ≡ length bytes.old }
{
    match kind {
        ElementKind::Passive => at,
        ElementKind::Active {
            table_index,
            offset_expr,
        } => {
            let after_table = write_maybe_number(bytes, at, wide(*table_index));
            write_bytes(bytes, after_table, bytes_of(offset_expr))
        }
        ElementKind::Declared => at,
    }
}

// Returns whether the elements of a segment of this kind have a kind or a type.
fn has_type(kind: &ElementKind<'_>) -> bool
    ensures { result ≡ has_type kind.now }
{
    match kind {
        ElementKind::Passive => true,
        ElementKind::Active { table_index, .. } => table_index.is_some(),
        ElementKind::Declared => true,
    }
}

// Returns whether a list has as many numbers as it announces, and nothing after them.
fn is_list_of_numbers(list: &SectionLimited<'_, u32>) -> bool
    ensures { IsTrue result ↔ IsList (after_reading (unsigned_at VarU32)) list.now }
{
    let mut reader = list.get_binary_reader();
    match reader.skip_var_u32s(list.count()) {
        Ok(()) => reader.eof(),
        Err(_) => false,
    }
}

// Returns whether elements can be written, apart from their number of bytes.
fn elements_fit(items: &ElementItems<'_>) -> bool
    ensures { IsTrue result ↔ ElementsFit items.now }
{
    match items {
        ElementItems::Functions(indices) => is_list_of_numbers(indices),
        ElementItems::Expressions(ty, expressions) => {
            if !ty.fits() {
                return false;
            }
            is_list(expressions)
        }
    }
}

// Returns whether elements are read with their type, if it isn't written.
fn is_spelled(typed: bool, items: &ElementItems<'_>) -> bool
    ensures { IsTrue result ↔ IsSpelled typed items.now }
{
    if typed {
        return true;
    }
    match items {
        ElementItems::Functions(_) => true,
        ElementItems::Expressions(ty, _) => *ty == RefType::FUNCREF,
    }
}

// Returns how many bytes the kind or the type of elements has, if it is written.
#[tactic(auto, using(crate::proofs::Lengths::ref_few))]
fn type_len(typed: bool, items: &ElementItems<'_>) -> usize
    requires { ElementsFit items.now }
    ensures len { result ≡ length (type_bytes typed items.now) }
    ensures most { result ≤ 11 }
{
    if !typed {
        return 0;
    }
    match items {
        ElementItems::Functions(_) => 1,
        ElementItems::Expressions(ty, _) => ty.encoded_len(),
    }
}

// Writes the kind or the type of elements, if it is written.
fn write_type(bytes: &mut [u8], at: usize, typed: bool, items: &ElementItems<'_>) -> usize
    requires fits { ElementsFit items.now }
    requires room { at + length (type_bytes typed items.now) ≤ length bytes.old }
    ensures end { result ≡ at + length (type_bytes typed items.now) }
    ensures written { take result bytes.new ≡ take at bytes.old ++ type_bytes typed items.now }
    ensures rest { drop result bytes.new ≡ drop result bytes.old }
    ensures len { length bytes.new ≡ length bytes.old }
{
    if !typed {
        return at;
    }
    match items {
        ElementItems::Functions(_) => write_byte(bytes, at, 0x00),
        ElementItems::Expressions(ty, _) => ty.encode_at(bytes, at),
    }
}

// Returns how many bytes the list of elements has.
fn elements_len(items: &ElementItems<'_>) -> usize
    ensures { result ≡ length (list_bytes (list_of items.now)) }
{
    match items {
        ElementItems::Functions(indices) => copied_len(indices),
        ElementItems::Expressions(_, expressions) => copied_len(expressions),
    }
}

// Writes the list of elements.
fn write_elements(bytes: &mut [u8], at: usize, items: &ElementItems<'_>) -> usize
    requires { at + length (list_bytes (list_of items.now)) ≤ length bytes.old }
    ensures end { result ≡ at + length (list_bytes (list_of items.now)) }
    ensures written { take result bytes.new ≡ take at bytes.old ++ list_bytes (list_of items.now) }
    ensures rest { drop result bytes.new ≡ drop result bytes.old }
    ensures len { length bytes.new ≡ length bytes.old }
{
    match items {
        ElementItems::Functions(indices) => write_copied(bytes, at, indices),
        ElementItems::Expressions(_, expressions) => write_copied(bytes, at, expressions),
    }
}

// Returns how many bytes a segment has.
#[tactic(auto, unfolding(crate::specs::Elements::element_bytes))]
fn element_len(segment: &Element<'_>) -> usize
    requires fits { ElementsFit segment.now.items }
    requires few { length (list_bytes (list_of segment.now.items)) < 2 ^ 32 }
    ensures { result ≡ length (element_bytes segment.now) }
{
    let typed = has_type(&segment.kind);
    1 + kind_len(&segment.kind) + type_len(typed, &segment.items) + elements_len(&segment.items)
}

/// Writes the flags that the kind and the elements need, then what belongs to the kind, then the elements, whose bytes
/// are copied.
///
/// A segment fits if its list has as many elements as it announces and nothing after them. Expressions of an active
/// segment without the index of a table have to be of type `funcref`, since their type isn't written.
///
/// ```rattle
/// let functions = SectionLimited::after_count(BinaryReader::new(&[5, 6], 0), 2);
/// let segment = Element {
///     kind: ElementKind::Declared,
///     items: ElementItems::Functions(functions),
///     range: 0..0,
/// };
/// let mut bytes = [0; 5];
/// assert!(rt; segment.fits());
/// segment.encode_at(&mut bytes, 0);
/// assert_eq!(rt; &bytes, b"\x03\0\x02\x05\x06");
/// ```
///
/// (Core specification, Binary format, Modules, Element Section.)
impl<'a> Encode for Element<'a> {
    ghost use Rattle.wasm_base.specs.Item.{ReadsAs};
    ghost use Rattle.wasm_encode.specs.Elements.{element_placed};
    ghost use Rattle.wasm_items.specs.Elements.{element_at};

    ghost meaning = { ReadsAs (λ element. element) element_at };

    ghost encoded = { element_bytes };

    ghost is_encodable = { ElementFits };

    ghost is_allowed = { λ features element. Unit {0} };

    ghost placed = { element_placed };

    #[tactic(auto, using(crate::proofs::ElementsBack::list_few))]
    fn fits(&self) -> bool {
        if !kind_fits(&self.kind) {
            return false;
        }
        if !elements_fit(&self.items) {
            return false;
        }
        if !is_spelled(has_type(&self.kind), &self.items) {
            return false;
        }
        if elements_len(&self.items) > u32::MAX as usize {
            return false;
        }
        element_len(self) <= u32::MAX as usize
    }

    #[tactic(auto, using(crate::proofs::ElementsBack::list_few))]
    fn encoded_len(&self) -> usize {
        element_len(self)
    }

    #[tactic(auto, unfolding(crate::specs::Elements::element_bytes), using(crate::proofs::RestStays::stays_on))]
    fn encode_at(&self, bytes: &mut [u8], at: usize) -> usize {
        let typed = has_type(&self.kind);
        let after_flags = write_byte(bytes, at, flags_of(&self.kind) + flag_of(&self.items));
        let after_kind = write_kind(bytes, after_flags, &self.kind);
        let after_type = write_type(bytes, after_kind, typed, &self.items);
        write_elements(bytes, after_type, &self.items)
    }

    fn reads_back(&self) {}
}

/// The content of an element section, at any offset, is read as its count and exactly these segments, each at its offset.
/// Does nothing.
pub fn element_sections_read_back(segments: &[Element<'_>])
    requires fits { All ElementFits segments.now }
    requires few { length segments.now < 2 ^ 32 }
    // Proved: an element section that was written is read as exactly the given segments, each at its offset
    ensures { (features offset : ℕ) → ReadsAsSegments features offset segments.now }
{
    section_reads_back(segments)
}
