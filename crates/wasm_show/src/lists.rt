// Lists of items.
ghost use Rattle.std.specs.Prelude.{◌≡◌, List, false, true};
ghost use Rattle.std.specs.List.{flat_map};
ghost use Rattle.std.specs.Option.{is_some};
ghost use Rattle.wasm_base.specs.FaultAt.{fault_at};
ghost use Rattle.wasm_base.specs.Hints.{is_out_of_memory};
ghost use Rattle.wasm_show.specs.Lists.{SeesFound, SeesSection, found_seen, under as under_level, with_offset, without_number as found_without_number};
ghost use Rattle.wasm_show.specs.Seen.{Seen};
ghost use Rattle.wasm_show.specs.Walk.{Sees};
ghost use Rattle.wasm_output.specs.Said.{Says, SaysSome};
ghost use Rattle.wasm_output.specs.Tree.{Adds, has_line_feed};
ghost use Rattle.wasm_show.specs.TypeText.{after_blank};

use crate::names::walk_names;
use crate::show::{Show, Text};
use crate::walker::Walker;
use wasm_base::{
    Error, Fault, FromReader, FromReaderIn, Result, SectionLimited, SectionLimitedIntoIterIn,
    SectionLimitedIntoIterWithOffsets, Subsection, Subsections,
};
use wasm_custom::{IndirectNameMap, IndirectNaming, Name, NameMap, NameSectionReader, Naming};
use wasm_items::{Import, IntoImportsWithOffsets};
use wasm_output::{Space, Tree};

/// An item with its offset, in bytes from the start of the stream, and its index space and index, if it has one.
pub type Found<T> = (u64, Option<(Space, u64)>, T);

/// An iterator over items that can be walked.
///
/// It is implemented for the iterators over sections, subsections and name maps.
pub trait Items: Drop {
    ghost use Rattle.std.specs.Prelude.{Bool, ℕ, List};
    ghost use Rattle.wasm_show.specs.Lists.{GivesOwed, IsFewer};
    ghost use Rattle.wasm_show.specs.Seen.{Seen};

    /// The type of the items.
    type Item: Show;

    /// What is to be seen of the remaining items at a level, with the items of their lists or without. What this can't
    /// be said of owes nothing.
    ghost owes: { (deep : Bool) (level : ℕ) → Self → List Seen → Type 0 };

    /// What is seen of an item's lists at a level.
    ghost lists: { (deep : Bool) → ℕ → Self.Item → List Seen };

    /// How many calls of `next_item` return an item or a fault at most.
    ghost most: { Self → ℕ };

    /// Returns the next item, or the fault in its place. Returns `None` at the end.
    fn next_item(&mut self) -> Option<Result<Found<Self::Item>>>
        ensures owed { GivesOwed owes lists self.old result self.new }
        ensures fewer { IsFewer most self.old result self.new };

    /// Walks over the items of an item's lists, which are at this level.
    fn walk_lists<W: Walker>(level: usize, item: &Self::Item, walker: &mut W)
        ensures { Sees W.saw W.why (lists W.IS_DEEP level item.now) walker.old walker.new };
}

/// Walks over items at this level, each with the items of its lists.
///
/// It stops early if the walker has stopped.
///
/// ```rattle
/// let bytes = b"\x01\x01m\x01f\x00\x05";
/// let section = ImportSectionReader::new(BinaryReader::new(bytes, 100))?;
/// let mut out = TextLines::new(alloc, BoundedSink::new(alloc, 1000)?);
/// walk_items(1, section.into_imports_with_offsets(), &mut out);
/// out.write_out();
/// let wanted = b"  101 module=\"m\" name=\"f\" ty=func index=5\n";
/// assert_eq!(rt; out.into_output().written(), wanted.as_slice());
/// ```
pub fn walk_items<I: Items, W: Walker>(level: usize, mut items: I, walker: &mut W)
    ensures { (all : List Seen) → I.owes W.IS_DEEP level items all
        → Sees W.saw W.why all walker.old walker.new }
{
    'items: while walker.why_stopped().is_none() {
        match items.next_item() {
            Some(found) => walk_found::<I, W>(level, &found, walker),
            None => break,
        }
    }
}

// Walks over an item and the items of its lists.
fn walk_item<I: Items, W: Walker>(level: usize, found: &Found<I::Item>, walker: &mut W)
    ensures { Sees W.saw W.why (found_seen (I.lists W.IS_DEEP) W.IS_DEEP level found.now)
        walker.old walker.new }
{
    let (offset, number, item) = found;
    walker.take_item(level, Some(*offset), *number, item);
    if W::IS_DEEP {
        I::walk_lists(under(level), item, walker);
    }
}

// Walks over an item, or reports the fault in its place.
fn walk_found<I: Items, W: Walker>(level: usize, found: &Result<Found<I::Item>>, walker: &mut W)
    ensures { SeesFound W.saw W.why (found_seen (I.lists W.IS_DEEP) W.IS_DEEP level) found.now
        walker.old walker.new }
{
    match found {
        Ok(found) => walk_item::<I, W>(level, found, walker),
        Err(e) => walker.take_fault(level, e),
    }
}

/// Walks over the items of a section at this level.
///
/// ```rattle
/// let section = FunctionSectionReader::new(BinaryReader::new(&[2, 5, 7], 100))?;
/// let mut out = TextLines::new(alloc, BoundedSink::new(alloc, 1000)?);
/// walk_section(1, &section, &mut out);
/// out.write_out();
/// assert_eq!(rt; out.into_output().written(), b"  101 index=5\n  102 index=7\n".as_slice());
/// ```
pub fn walk_section<'a, T: FromReader<'a> + Show, W: Walker>(
    level: usize,
    section: &SectionLimited<'a, T>,
    walker: &mut W,
)
    ensures { SeesSection T.meaning W.saw W.why W.IS_DEEP level section.now walker.old walker.new }
{
    walk_items(
        level,
        section.clone().unwrap().into_iter_with_offsets(),
        walker,
    );
}

/// Returns the level of the lines under a line of this level.
pub(crate) fn under(level: usize) -> usize
    ensures { result ≡ under_level level }
{
    level.saturating_add(1)
}

/// Writes the offsets of a section and its count on the line that is begun.
pub(crate) fn show_extent<T, O: Tree>(name: &str, section: &SectionLimited<'_, T>, out: &mut O)
    requires one_line { has_line_feed name.now ≡ false }
    ensures { Adds (O.writing out.old) (O.writing out.new) }
{
    let range = section.range();
    out.range(name, range.start, range.end);
    out.number("count", u64::from(section.count()));
}

/// Writes items inside an item, each on a line at this level that begins with its offset.
///
/// A fault is a line in the place of its item. It stops early if the tree has stopped.
///
/// ```rattle
/// let bytes = b"\x01\x01m\x01f\x00\x05";
/// let section = ImportSectionReader::new(BinaryReader::new(bytes, 100))?;
/// let mut out = TextLines::new(alloc, BoundedSink::new(alloc, 1000)?);
/// show_items(1, section.into_imports_with_offsets(), &mut out);
/// out.write_out();
/// let wanted = b"  101 module=\"m\" name=\"f\" ty=func index=5\n";
/// assert_eq!(rt; out.into_output().written(), wanted.as_slice());
/// ```
pub fn show_items<I: Items, O: Tree>(level: usize, mut items: I, out: &mut O)
    ensures { Adds (O.writing out.old) (O.writing out.new) }
{
    'items: while !out.has_stopped() {
        match items.next_item() {
            Some(found) => show_found::<I, O>(level, &found, out),
            None => break,
        }
    }
}

// Writes an item inside an item, or its fault.
fn show_found<I: Items, O: Tree>(level: usize, found: &Result<Found<I::Item>>, out: &mut O)
    ensures { Adds (O.writing out.old) (O.writing out.new) }
{
    match found {
        Ok((offset, _, item)) => {
            out.item(level, *offset);
            item.show(level, out);
        }
        Err(e) => show_fault(level, e, out),
    }
}

/// Writes a line for a fault, at this level. At `OutOfMemory`, which is not a fault of the stream, the tree stops instead.
pub fn show_fault<O: Tree>(level: usize, error: &Error, out: &mut O)
    ensures adds { Adds (O.writing out.old) (O.writing out.new) }
    ensures stops { is_out_of_memory (fault_at error.now).fault ≡ true
        → is_some (O.writing out.new).why ≡ true }
{
    match error.fault() {
        Fault::OutOfMemory => out.out_of_memory(),
        _ => out.fault(level, error),
    }
}

/// Writes a list inside an item: a field with its offsets and its count on the current line, and the items under that
/// line.
///
/// `name` is the name of the field, without a line feed. The current line is at `level`.
pub fn show_list<'a, T: FromReader<'a> + Show, O: Tree>(
    name: &str,
    level: usize,
    section: &SectionLimited<'a, T>,
    out: &mut O,
)
    requires one_line { has_line_feed name.now ≡ false }
    ensures { Adds (O.writing out.old) (O.writing out.new) }
{
    show_extent(name, section, out);
    show_section(under(level), section, out);
}

/// Writes the items of a section, each on a line at this level that begins with its offset.
pub(crate) fn show_section<'a, T: FromReader<'a> + Show, O: Tree>(
    level: usize,
    section: &SectionLimited<'a, T>,
    out: &mut O,
)
    ensures { Adds (O.writing out.old) (O.writing out.new) }
{
    show_items(
        level,
        section.clone().unwrap().into_iter_with_offsets(),
        out,
    );
}

/// Writes items without offsets, each on a line at this level that begins with this word.
pub(crate) fn show_lines<T: Show, O: Tree>(level: usize, word: &str, items: &[T], out: &mut O)
    requires one_line { has_line_feed word.now ≡ false }
    ensures { Adds (O.writing out.old) (O.writing out.new) }
{
    for item in items {
        out.line(level, word);
        item.show(level, out);
    }
}

/// Writes texts, each on a line at this level that begins with a field of this name.
pub(crate) fn write_lines<T: Text, O: Tree>(level: usize, name: &str, items: &[T], out: &mut O)
    requires one_line { has_line_feed name.now ≡ false }
    ensures { Adds (O.writing out.old) (O.writing out.new) }
{
    for item in items {
        out.line_field(level, name);
        item.text(out);
    }
}

/// Writes a text on the line that is begun, after a blank.
pub(crate) fn write_word<T: Text, O: Tree>(item: &T, out: &mut O)
    ensures adds { Adds (O.writing out.old) (O.writing out.new) }
    ensures says { Says (after_blank (T.words item.now)) (O.writing out.old) (O.writing out.new) }
    ensures some { SaysSome (O.writing out.old) (O.writing out.new) }
{
    out.text(" ");
    item.text(out);
}

/// Writes texts on the line that is begun, each after a blank.
pub(crate) fn write_words<T: Text, O: Tree>(items: &[T], out: &mut O)
    ensures adds { Adds (O.writing out.old) (O.writing out.new) }
    ensures says { Says (flat_map (λ x. after_blank (T.words x)) items.now)
        (O.writing out.old) (O.writing out.new) }
{
    for item in items {
        write_word(item, out);
    }
}

/// Pairs an item with its offset, in bytes from the start of the stream. It has no number.
pub fn placed<T>(offset: u64, item: Option<Result<T>>) -> Option<Result<Found<T>>>
    ensures { result ≡ with_offset offset item }
{
    match item {
        Some(Ok(item)) => Some(Ok((offset, None, item))),
        Some(Err(e)) => Some(Err(e)),
        None => None,
    }
}

/// Returns an item that has no number.
pub(crate) fn without_number<T>(item: Option<Result<(u64, T)>>) -> Option<Result<Found<T>>>
    ensures { result ≡ found_without_number item }
{
    match item {
        Some(Ok((offset, item))) => Some(Ok((offset, None, item))),
        Some(Err(e)) => Some(Err(e)),
        None => None,
    }
}

impl<'a, T: FromReader<'a> + Show> Items for SectionLimitedIntoIterWithOffsets<'a, T> {
    ghost use Rattle.wasm_base.specs.Section.{most_items};
    ghost use Rattle.wasm_show.specs.Lists.{OwesBy, never_lists, unnumbered};

    type Item = T;

    ghost owes = { λ deep level s. OwesBy T.meaning unnumbered never_lists deep level tt s };

    ghost lists = { never_lists };

    ghost most = { most_items };

    fn next_item(&mut self) -> Option<Result<Found<T>>> {
        without_number(self.next())
    }

    fn walk_lists<W: Walker>(_level: usize, _item: &T, _walker: &mut W) {}
}

impl<'a, T: FromReaderIn<'a> + Show> Items for SectionLimitedIntoIterIn<'a, T> {
    ghost use Rattle.wasm_base.specs.Section.{most_items};
    ghost use Rattle.wasm_show.specs.Lists.{OwesBy, never_lists, unnumbered};

    type Item = T;

    ghost owes = { λ deep level s. OwesBy T.meaning unnumbered never_lists deep level tt s };

    ghost lists = { never_lists };

    ghost most = { most_items };

    fn next_item(&mut self) -> Option<Result<Found<T>>> {
        let offset = self.original_position();
        placed(offset, self.next())
    }

    fn walk_lists<W: Walker>(_level: usize, _item: &T, _walker: &mut W) {}
}

impl<'a> Items for IntoImportsWithOffsets<'a> {
    ghost use Rattle.std.specs.Prelude.{length};
    ghost use Rattle.wasm_show.specs.Lists.{OwesList, never_lists};

    type Item = Import<'a>;

    ghost owes = { λ deep level s. OwesList deep level s };

    ghost lists = { never_lists };

    ghost most = { length };

    fn next_item(&mut self) -> Option<Result<Found<Import<'a>>>> {
        without_number(self.next())
    }

    fn walk_lists<W: Walker>(_level: usize, _item: &Import<'a>, _walker: &mut W) {}
}

impl<'a, T: Subsection<'a> + Show> Items for Subsections<'a, T> {
    ghost use Rattle.std.specs.Prelude.{length};
    ghost use Rattle.wasm_base.specs.Window.{place};
    ghost use Rattle.wasm_show.specs.Lists.{OwesSubsections, never_lists};

    type Item = T;

    ghost owes = { OwesSubsections T.meaning never_lists };

    ghost lists = { never_lists };

    ghost most = { λ w. length (place w).rest };

    fn next_item(&mut self) -> Option<Result<Found<T>>> {
        let offset = self.original_position();
        placed(offset, self.next())
    }

    fn walk_lists<W: Walker>(_level: usize, _item: &T, _walker: &mut W) {}
}

impl<'a> Items for NameSectionReader<'a> {
    ghost use Rattle.std.specs.Prelude.{length};
    ghost use Rattle.wasm_base.specs.Window.{place};
    ghost use Rattle.wasm_show.specs.Lists.{OwesNames, name_seen};

    type Item = Name<'a>;

    ghost owes = { OwesNames };

    ghost lists = { name_seen };

    ghost most = { λ s. length (place s.entries).rest };

    fn next_item(&mut self) -> Option<Result<Found<Name<'a>>>> {
        let offset = self.sections.original_position();
        placed(offset, self.next())
    }

    fn walk_lists<W: Walker>(level: usize, item: &Name<'a>, walker: &mut W) {
        walk_names(level, item, walker);
    }
}

impl<'a> Items for NameMap<'a> {
    ghost use Rattle.wasm_base.specs.Section.{most_items};
    ghost use Rattle.wasm_show.specs.Lists.{OwesNamings, never_lists};

    type Item = Naming<'a>;

    ghost owes = { OwesNamings };

    ghost lists = { never_lists };

    ghost most = { λ m. most_items m.entries };

    fn next_item(&mut self) -> Option<Result<Found<Naming<'a>>>> {
        let offset = self.names.original_position();
        placed(offset, self.next())
    }

    fn walk_lists<W: Walker>(_level: usize, _item: &Naming<'a>, _walker: &mut W) {}
}

impl<'a> Items for IndirectNameMap<'a> {
    ghost use Rattle.wasm_base.specs.Section.{most_items};
    ghost use Rattle.wasm_show.specs.Lists.{OwesIndirect, indirect_seen};

    type Item = IndirectNaming<'a>;

    ghost owes = { OwesIndirect };

    ghost lists = { indirect_seen };

    ghost most = { λ m. most_items m.entries };

    fn next_item(&mut self) -> Option<Result<Found<IndirectNaming<'a>>>> {
        let offset = self.names.original_position();
        placed(offset, self.next())
    }

    fn walk_lists<W: Walker>(level: usize, item: &IndirectNaming<'a>, walker: &mut W) {
        walk_items(level, item.names.clone().unwrap(), walker);
    }
}
