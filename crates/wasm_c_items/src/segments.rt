// Expressions and segments as plain numbers.
ghost use Rattle.std.specs.Prelude.{◌≡◌};
ghost use Rattle.wasm_base.specs.Window.{Window};
ghost use Rattle.wasm_c_items.specs.Segments.{data_code, data_memory, data_offset, element_code, element_from, element_offset, element_table, elements_section, elements_type, has_expressions, plain_data, plain_element, plain_expression};
ghost use Rattle.wasm_c_items.specs.Spans.{items_span};
ghost use Rattle.wasm_items.specs.Data.{DataParts, data_at};
ghost use Rattle.wasm_items.specs.Elements.{element_at};
ghost use Rattle.wasm_items.specs.Init.{expression_at};
ghost use Rattle.wasm_items.specs.declared.elements.Element.{Element};

use crate::faults::{NO_FAULT, PlainFault, plain_fault};
use crate::kinds::{expression_span, small_parts};
use crate::readable::Readable;
use crate::spans::{NO_SPAN, PlainSpan, distance, items_span, span_before};
use crate::values::{PlainType, SIMPLE, plain_ref};
use wasm_parser::{
    BinaryReader, ConstExpr, Data, DataKind, Element, ElementItems, ElementKind, Error, FromReader,
    RefType, Result,
};

/// A constant expression, or a fault.
#[repr(C)]
#[derive(Clone, Copy)]
pub struct PlainExpression {
    /// The fault of the item, of kind 0 if there is none.
    pub fault: PlainFault,
    /// The size of the expression in bytes, including its `end`; 0 after a fault.
    pub consumed: usize,
}

/// An element segment, or a fault.
#[repr(C)]
#[derive(Clone, Copy)]
pub struct PlainElement {
    /// The fault of the item, of kind 0 if there is none.
    pub fault: PlainFault,
    /// The size of the item in bytes, 0 after a fault.
    pub consumed: usize,
    /// The kind of the segment, a `pulleynavy_element_kind`: 0 passive, 1 active, 2 declarative.
    pub kind: u32,
    /// 1 if the index of a table is encoded, or 0.
    pub has_table: u32,
    /// The index of the table of an active segment; 0 if none is encoded.
    pub table: u32,
    /// 1 if the elements are constant expressions, or 0 if they are function indices.
    pub has_expressions: u32,
    /// The expression of an active segment's offset in the table, including its `end`; otherwise empty.
    pub offset_expression: PlainSpan,
    /// The type of the elements; `funcref` for function indices.
    pub ty: PlainType,
    /// The elements, after their count.
    pub items: PlainSpan,
    /// The number of elements.
    pub count: u32,
}

/// A data segment, or a fault.
#[repr(C)]
#[derive(Clone, Copy)]
pub struct PlainData {
    /// The fault of the item, of kind 0 if there is none.
    pub fault: PlainFault,
    /// The size of the item in bytes, 0 after a fault.
    pub consumed: usize,
    /// The kind of the segment, a `pulleynavy_data_kind`: 0 passive, 1 active.
    pub kind: u32,
    /// The index of an active segment's memory, or 0.
    pub memory: u32,
    /// The expression of an active segment's address in the memory, including its `end`; otherwise empty.
    pub offset_expression: PlainSpan,
    /// The bytes of the segment.
    pub bytes: PlainSpan,
}

/// Constant expressions.
#[derive(Clone, Copy)]
pub struct Expressions;

impl Readable for Expressions {
    type Plain = PlainExpression;

    ghost Item = { Window };

    ghost reading = { λ _. expression_at };

    ghost plain = { λ _. plain_expression };

    fn read(self, reader: &mut BinaryReader<'_>, _from: u64) -> Result<PlainExpression> {
        let start = reader.original_position();
        ConstExpr::from_reader(reader)?;
        Ok(PlainExpression {
            fault: NO_FAULT,
            consumed: distance(start, reader.original_position()),
        })
    }

    fn refused(self, error: Error) -> PlainExpression {
        PlainExpression {
            fault: plain_fault(error),
            consumed: 0,
        }
    }
}

fn element_code(kind: &ElementKind) -> u32
    ensures { result ≡ element_code kind.now }
{
    match kind {
        ElementKind::Passive => 0,
        ElementKind::Active { .. } => 1,
        ElementKind::Declared => 2,
    }
}

// The table of an active segment, if it is written.
fn element_table(kind: &ElementKind) -> Option<u32>
    ensures { result ≡ element_table kind.now }
{
    match kind {
        ElementKind::Active { table_index, .. } => *table_index,
        ElementKind::Passive | ElementKind::Declared => None,
    }
}

// The expression of an active segment's offset.
fn element_offset(from: u64, kind: &ElementKind) -> PlainSpan
    ensures { result ≡ element_offset from kind.now }
{
    match kind {
        ElementKind::Active { offset_expr, .. } => expression_span(from, offset_expr),
        ElementKind::Passive | ElementKind::Declared => NO_SPAN,
    }
}

fn has_expressions(items: &ElementItems) -> u32
    ensures { result ≡ has_expressions items.now }
{
    match items {
        ElementItems::Functions(_) => 0,
        ElementItems::Expressions(..) => 1,
    }
}

// The type of the elements.
fn elements_type(items: &ElementItems) -> RefType
    ensures { result ≡ elements_type items.now }
{
    match items {
        ElementItems::Functions(_) => RefType::FUNCREF,
        ElementItems::Expressions(ty, _) => *ty,
    }
}

// Where the elements are.
fn elements_span(from: u64, items: &ElementItems) -> PlainSpan
    ensures { result ≡ items_span from (elements_section items.now) }
{
    match items {
        ElementItems::Functions(indices) => items_span(from, indices),
        ElementItems::Expressions(_, expressions) => items_span(from, expressions),
    }
}

fn elements_count(items: &ElementItems) -> u32
    ensures { result ≡ (elements_section items.now).count }
{
    match items {
        ElementItems::Functions(indices) => indices.count(),
        ElementItems::Expressions(_, expressions) => expressions.count(),
    }
}

// A segment, which takes this many bytes from this offset on.
fn whole_element(from: u64, consumed: usize, element: &Element) -> PlainElement
    ensures { result ≡ element_from from consumed element.now }
{
    let (has_table, table) = small_parts(element_table(&element.kind));
    PlainElement {
        fault: NO_FAULT,
        consumed,
        kind: element_code(&element.kind),
        has_table,
        table,
        has_expressions: has_expressions(&element.items),
        offset_expression: element_offset(from, &element.kind),
        ty: plain_ref(elements_type(&element.items)),
        items: elements_span(from, &element.items),
        count: elements_count(&element.items),
    }
}

/// Element segments.
#[derive(Clone, Copy)]
pub struct ElementSegments;

impl Readable for ElementSegments {
    type Plain = PlainElement;

    ghost Item = { Element };

    ghost reading = { λ _. element_at };

    ghost plain = { λ _. plain_element };

    fn read(self, reader: &mut BinaryReader<'_>, from: u64) -> Result<PlainElement> {
        let start = reader.original_position();
        let element = Element::from_reader(reader)?;
        Ok(whole_element(from, distance(start, reader.original_position()), &element))
    }

    fn refused(self, error: Error) -> PlainElement {
        PlainElement {
            fault: plain_fault(error),
            consumed: 0,
            kind: 0,
            has_table: 0,
            table: 0,
            has_expressions: 0,
            offset_expression: NO_SPAN,
            ty: SIMPLE,
            items: NO_SPAN,
            count: 0,
        }
    }
}

fn data_code(kind: &DataKind) -> u32
    ensures { result ≡ data_code kind.now }
{
    match kind {
        DataKind::Passive => 0,
        DataKind::Active { .. } => 1,
    }
}

fn data_memory(kind: &DataKind) -> u32
    ensures { result ≡ data_memory kind.now }
{
    match kind {
        DataKind::Passive => 0,
        DataKind::Active { memory_index, .. } => *memory_index,
    }
}

// The expression of an active segment's offset.
fn data_offset(from: u64, kind: &DataKind) -> PlainSpan
    ensures { result ≡ data_offset from kind.now }
{
    match kind {
        DataKind::Passive => NO_SPAN,
        DataKind::Active { offset_expr, .. } => expression_span(from, offset_expr),
    }
}

/// Data segments.
#[derive(Clone, Copy)]
pub struct DataSegments;

impl Readable for DataSegments {
    type Plain = PlainData;

    ghost Item = { DataParts };

    ghost reading = { λ _. data_at };

    ghost plain = { λ _. plain_data };

    fn read(self, reader: &mut BinaryReader<'_>, from: u64) -> Result<PlainData> {
        let start = reader.original_position();
        let segment = Data::from_reader(reader)?;
        Ok(PlainData {
            fault: NO_FAULT,
            consumed: distance(start, reader.original_position()),
            kind: data_code(&segment.kind),
            memory: data_memory(&segment.kind),
            offset_expression: data_offset(from, &segment.kind),
            bytes: span_before(from, segment.range.end, segment.bytes.len()),
        })
    }

    fn refused(self, error: Error) -> PlainData {
        PlainData {
            fault: plain_fault(error),
            consumed: 0,
            kind: 0,
            memory: 0,
            offset_expression: NO_SPAN,
            bytes: NO_SPAN,
        }
    }
}
