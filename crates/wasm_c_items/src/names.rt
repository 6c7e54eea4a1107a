// Names and subsections as plain numbers.
ghost use Rattle.std.specs.Prelude.{◌+◌, ◌<◌, ◌^◌, Err, [], length};
ghost use Rattle.wasm_base.specs.FaultAt.{fault_at};
ghost use Rattle.wasm_c_items.specs.Spans.{place_over};
ghost use Rattle.wasm_base.specs.declared.fault.Fault.TheVariants.{IndirectOrder, NamesOrder};
ghost use Rattle.wasm_c_items.specs.Cursors.{indirect_index, naming_index, next_name_subsection, next_subsection, place_of, subsection_by, subsection_in, unless_fault};
ghost use Rattle.std.specs.Prelude.{ℕ, ◌≡◌};
ghost use Rattle.wasm_base.specs.Subsections.{subsection_at};
ghost use Rattle.wasm_base.specs.Window.{Window};
ghost use Rattle.wasm_c_items.specs.Names.{indirect_from, plain_indirect, plain_naming, plain_subsection, subsection_from};
ghost use Rattle.wasm_custom.specs.Names.{NamingParts, indirect_naming_at, naming_at};
ghost use Rattle.wasm_custom.specs.declared.names.IndirectNaming.{IndirectNaming};

use crate::cursors::{Indexed, StoredItems, Walk};
use crate::faults::{NO_FAULT, PlainFault, plain_fault};
use crate::readable::Readable;
use crate::spans::{
    NO_SPAN, PlainSpan, after, distance, items_span, out_of_range, reader_over, text_after_number,
    window_span,
};
use wasm_base::read_subsection;
use wasm_parser::{
    BinaryReader, Error, Fault, FromReader, IndirectNaming, Naming, Result, SectionLimited, fits,
};

/// A subsection, or a fault.
#[repr(C)]
#[derive(Clone, Copy)]
pub struct PlainSubsection {
    /// The fault of the item, of kind 0 if there is none.
    pub fault: PlainFault,
    /// The size of the item in bytes, 0 after a fault.
    pub consumed: usize,
    /// The id, below 128: of the section `name` a `pulleynavy_name_id`, of `linking` a `pulleynavy_linking_id`, of
    /// `dylink.0` a `pulleynavy_dylink_id`.
    pub id: u32,
    /// The content, without the id and the size.
    pub contents: PlainSpan,
}

/// An index and a name, or a fault.
#[repr(C)]
#[derive(Clone, Copy)]
pub struct PlainNaming {
    /// The fault of the item, of kind 0 if there is none.
    pub fault: PlainFault,
    /// The size of the item in bytes, 0 after a fault.
    pub consumed: usize,
    /// The index of the named item, in the index space of the map.
    pub index: u32,
    /// The name, which is UTF-8.
    pub name: PlainSpan,
}

/// An index and a name map, or a fault.
#[repr(C)]
#[derive(Clone, Copy)]
pub struct PlainIndirectNaming {
    /// The fault of the item, of kind 0 if there is none.
    pub fault: PlainFault,
    /// The size of the item in bytes, including the name map; 0 after a fault.
    pub consumed: usize,
    /// The index of the item whose parts are named, such as a function.
    pub index: u32,
    /// The number of names.
    pub count: u32,
    /// The names of the parts, such as the locals of the function, after their count.
    pub names: PlainSpan,
}

// A subsection of this many bytes.
fn whole_subsection(
    from: u64,
    consumed: usize,
    id: u8,
    window: &BinaryReader<'_>,
) -> PlainSubsection
    ensures { result ≡ subsection_from from consumed id window.now }
{
    PlainSubsection {
        fault: NO_FAULT,
        consumed,
        id: u32::from(id),
        contents: window_span(from, window),
    }
}

// The fault of a subsection.
fn refused_subsection(error: Error) -> PlainSubsection
    ensures { result ≡ plain_subsection 0 (place_over 0 0 []) (Err (fault_at error)) }
{
    PlainSubsection {
        fault: plain_fault(error),
        consumed: 0,
        id: 0,
        contents: NO_SPAN,
    }
}

/// Subsections with any id.
#[derive(Clone, Copy)]
pub struct AnySubsections;

impl Readable for AnySubsections {
    type Plain = PlainSubsection;

    ghost Item = { (ℕ × Window) };

    ghost reading = { λ _. subsection_at };

    ghost plain = { λ _. plain_subsection };

    fn read(self, reader: &mut BinaryReader<'_>, from: u64) -> Result<PlainSubsection> {
        let start = reader.original_position();
        let (id, window) = read_subsection(reader)?;
        let consumed = distance(start, reader.original_position());
        Ok(whole_subsection(from, consumed, id, &window))
    }

    fn refused(self, error: Error) -> PlainSubsection {
        refused_subsection(error)
    }
}

/// Entries of a name map.
#[derive(Clone, Copy)]
pub struct Namings;

impl Readable for Namings {
    type Plain = PlainNaming;

    ghost Item = { NamingParts };

    ghost reading = { λ _. naming_at };

    ghost plain = { λ _. plain_naming };

    fn read(self, reader: &mut BinaryReader<'_>, from: u64) -> Result<PlainNaming> {
        let start = reader.original_position();
        let before = reader.clone().unwrap();
        let naming = Naming::from_reader(reader)?;
        Ok(PlainNaming {
            fault: NO_FAULT,
            consumed: distance(start, reader.original_position()),
            index: naming.index,
            name: text_after_number(from, before, naming.name.len()),
        })
    }

    fn refused(self, error: Error) -> PlainNaming {
        PlainNaming {
            fault: plain_fault(error),
            consumed: 0,
            index: 0,
            name: NO_SPAN,
        }
    }
}

// An index and its names, which take this many bytes from this offset on.
fn whole_indirect(
    from: u64,
    consumed: usize,
    index: u32,
    names: &SectionLimited<'_, Naming<'_>>,
) -> PlainIndirectNaming
    ensures { result ≡ indirect_from from consumed index names.now }
{
    PlainIndirectNaming {
        fault: NO_FAULT,
        consumed,
        index,
        count: names.count(),
        names: items_span(from, names),
    }
}

/// Entries of an indirect name map.
#[derive(Clone, Copy)]
pub struct IndirectNamings;

impl Readable for IndirectNamings {
    type Plain = PlainIndirectNaming;

    ghost Item = { IndirectNaming };

    ghost reading = { λ _. indirect_naming_at };

    ghost plain = { λ _. plain_indirect };

    fn read(self, reader: &mut BinaryReader<'_>, from: u64) -> Result<PlainIndirectNaming> {
        let start = reader.original_position();
        let IndirectNaming { index, names } = IndirectNaming::from_reader(reader)?;
        let consumed = distance(start, reader.original_position());
        Ok(whole_indirect(from, consumed, index, &SectionLimited::from(names.names)))
    }

    fn refused(self, error: Error) -> PlainIndirectNaming {
        PlainIndirectNaming {
            fault: plain_fault(error),
            consumed: 0,
            index: 0,
            count: 0,
            names: NO_SPAN,
        }
    }
}

impl Indexed for Namings {
    ghost index = { naming_index };

    ghost order = { NamesOrder };

    fn index(item: &PlainNaming) -> Option<u32> {
        unless_fault(&item.fault, item.index)
    }

    fn order() -> Fault {
        Fault::NamesOrder
    }
}

impl Indexed for IndirectNamings {
    ghost index = { indirect_index };

    ghost order = { IndirectOrder };

    fn index(item: &PlainIndirectNaming) -> Option<u32> {
        unless_fault(&item.fault, item.index)
    }

    fn order() -> Fault {
        Fault::IndirectOrder
    }
}

// A number of an item that has no fault.
fn unless_fault(fault: &PlainFault, number: u32) -> Option<u32>
    ensures { result ≡ unless_fault fault.now number }
{
    if fault.kind == 0 { Some(number) } else { None }
}

// Reads the subsection at which the cursor is. The next one begins after it, or after the bytes that reading its id and size
// takes.
fn read_next_subsection(items: &mut StoredItems, rest: &[u8]) -> PlainSubsection
    requires some { 0 < length rest.now }
    requires fits { items.old.offset + length rest.now < 2 ^ 64 }
    ensures { (result, items.new) ≡ subsection_in items.old (place_of items.old rest.now)
        (subsection_at (place_of items.old rest.now)) }
{
    let (from, start) = (items.start(), items.offset);
    let mut reader = reader_over(rest, start, items.features);
    let read = read_subsection(&mut reader);
    items.move_to(reader.original_position());
    match read {
        Ok((id, window)) => whole_subsection(from, distance(start, items.offset), id, &window),
        Err(error) => refused_subsection(error),
    }
}

// Like `read_next_subsection`, for any bytes.
fn next_subsection(items: &mut StoredItems, rest: &[u8]) -> PlainSubsection
    requires { 0 < length rest.now }
    ensures { (result, items.new) ≡ subsection_by items.old rest.now }
{
    if fits(items.offset, rest.len()) {
        return read_next_subsection(items, rest);
    }
    items.is_ended = 1;
    refused_subsection(out_of_range(items.offset))
}

/// The subsections of a section, up to the end of its bytes.
/// Subsections in any order.
#[derive(Clone, Copy)]
pub struct Subsections;

impl Walk for Subsections {
    type Plain = PlainSubsection;

    type Cursor = StoredItems;

    ghost next = { λ _. next_subsection };

    fn next(self, items: &mut StoredItems, bytes: &[u8]) -> Option<PlainSubsection> {
        if items.is_ended != 0 {
            return None;
        }
        let rest = after(bytes, items.position);
        if rest.is_empty() {
            items.is_ended = 1;
            return None;
        }
        Some(next_subsection(items, rest))
    }
}

/// Those of a section of names, whose ids ascend.
/// Subsections of the section `name`, whose ids ascend.
#[derive(Clone, Copy)]
pub struct NameSubsections;

impl Walk for NameSubsections {
    type Plain = PlainSubsection;

    type Cursor = StoredItems;

    ghost next = { λ _. next_name_subsection };

    fn next(self, items: &mut StoredItems, bytes: &[u8]) -> Option<PlainSubsection> {
        let start = items.offset;
        let item = Subsections.next(items, bytes)?;
        let id = unless_fault(&item.fault, item.id);
        if items.takes(id) {
            return Some(item);
        }
        Some(refused_subsection(Error::new(Fault::NameSectionOrder, start)))
    }
}
