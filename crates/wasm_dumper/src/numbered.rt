// Items with their indices in their index spaces.
ghost use Rattle.std.specs.Prelude.{◌≡◌, length};
ghost use Rattle.wasm_base.specs.Window.{place};
ghost use Rattle.wasm_dumper.specs.Counting.{count_of};
ghost use Rattle.wasm_dumper.specs.Walks.{SeesNumbered, after_found, after_types, elements_seen, after_group, found_group, group_seen, groups_seen, imports_seen, next_group, numbered_found, types_seen};
ghost use Rattle.wasm_items.specs.Flattened.{flattened};
ghost use Rattle.wasm_show.specs.Lists.{SeesFound};
ghost use Rattle.wasm_show.specs.Walk.{Sees};
ghost use Rattle.wasm_output.specs.Tree.{Adds};

use crate::counts::{Counts, import_space};
use std::alloc::Global;
use wasm_base::{FromReader, Result, SectionLimited, SectionLimitedIntoIterWithOffsets};
use wasm_items::{
    Element, ElementSectionReader, Import, ImportSection, ImportSectionReader,
    IntoImportsWithOffsets, RecGroup, SubType, TypeSectionReader,
};
use wasm_output::{Space, Tree};
use wasm_show::{Found, Items, Show, Text, Walker, placed, walk_elements, walk_items};

// The items of a section, of which the next one has this index.
struct Numbered<'a, T> {
    items: SectionLimitedIntoIterWithOffsets<'a, T>,
    space: Space,
    index: u64,
}

impl<'a, T> Drop for Numbered<'a, T> {
    fn drop(self) {
        let Numbered {
            items: _,
            space: _,
            index: _,
        } = self;
    }
}

// Returns an item with this number, and counts it.
fn with_index<T>(
    space: Space,
    index: &mut u64,
    item: Option<Result<(u64, T)>>,
) -> Option<Result<Found<T>>>
    ensures found { result ≡ numbered_found space index.old item }
    ensures next { index.new ≡ after_found index.old item }
{
    match item {
        Some(Ok((offset, item))) => {
            let number = (space, *index);
            *index = index.saturating_add(1);
            Some(Ok((offset, Some(number), item)))
        }
        Some(Err(e)) => Some(Err(e)),
        None => None,
    }
}

impl<'a, T: FromReader<'a> + Show> Items for Numbered<'a, T> {
    ghost use Rattle.wasm_base.specs.Section.{most_items};
    ghost use Rattle.wasm_show.specs.Lists.{OwesBy, never_lists, numbered_in};

    type Item = T;

    ghost owes = { λ deep level n.
        OwesBy T.meaning (numbered_in n.space) never_lists deep level n.index n.items };

    ghost lists = { never_lists };

    ghost most = { λ n. most_items n.items };

    fn next_item(&mut self) -> Option<Result<Found<T>>> {
        with_index(self.space, &mut self.index, self.items.next())
    }

    fn walk_lists<W: Walker>(_level: usize, _item: &T, _walker: &mut W) {}
}

/// Walks over the items of a section, each with its index in this index space.
pub(crate) fn walk_numbered<'a, T: FromReader<'a> + Show, W: Walker>(
    space: Space,
    counts: &Counts,
    section: &SectionLimited<'a, T>,
    walker: &mut W,
)
    ensures { SeesNumbered T.meaning W.saw W.why W.IS_DEEP space (count_of counts.now space) section.now
        walker.old walker.new }
{
    let numbered = Numbered {
        items: section.clone().unwrap().into_iter_with_offsets(),
        space,
        index: counts.of(space),
    };
    walk_items(1, numbered, walker);
}

// The segments of an element section, of which the next one has this index.
#[derive(Drop)]
struct Segments<'a> {
    segments: SectionLimitedIntoIterWithOffsets<'a, Element<'a>>,
    index: u64,
}

impl<'a> Items for Segments<'a> {
    ghost use Rattle.wasm_base.specs.Section.{most_items};
    ghost use Rattle.wasm_dumper.specs.Walks.{OwesElements};
    ghost use Rattle.wasm_show.specs.Lists.{element_seen};

    type Item = Element<'a>;

    ghost owes = { λ deep level s. OwesElements deep level s.index s.segments };

    ghost lists = { element_seen };

    ghost most = { λ s. most_items s.segments };

    fn next_item(&mut self) -> Option<Result<Found<Element<'a>>>> {
        with_index(Space::Elements, &mut self.index, self.segments.next())
    }

    fn walk_lists<W: Walker>(level: usize, item: &Element<'a>, walker: &mut W) {
        walk_elements(level, item, walker);
    }
}

/// Walks over the segments of an element section, each with its index.
pub(crate) fn walk_segments<W: Walker>(section: &ElementSectionReader<'_>, walker: &mut W)
    ensures { Sees W.saw W.why (elements_seen W.IS_DEEP section.now.count (place section.now.reader))
        walker.old walker.new }
{
    let segments = section.clone().unwrap().into_iter_with_offsets();
    walk_items(1, Segments { segments, index: 0 }, walker);
}

// The imports of a section, of which these were counted.
#[derive(Drop)]
struct Counted<'a> {
    imports: IntoImportsWithOffsets<'a>,
    counts: Counts,
}

impl<'a> Items for Counted<'a> {
    ghost use Rattle.std.specs.Prelude.{length};
    ghost use Rattle.wasm_dumper.specs.Walks.{OwesImports};
    ghost use Rattle.wasm_show.specs.Lists.{never_lists};

    type Item = Import<'a>;

    ghost owes = { λ deep level c. OwesImports level c.counts c.imports };

    ghost lists = { never_lists };

    ghost most = { λ c. length c.imports };

    fn next_item(&mut self) -> Option<Result<Found<Import<'a>>>> {
        match self.imports.next() {
            Some(Ok((offset, import))) => {
                let space = import_space(&import.ty);
                let index = self.counts.of(space);
                self.counts.add(space);
                Some(Ok((offset, Some((space, index)), import)))
            }
            Some(Err(e)) => Some(Err(e)),
            None => None,
        }
    }

    fn walk_lists<W: Walker>(_level: usize, _item: &Import<'a>, _walker: &mut W) {}
}

/// Walks over the imports of a section, each with its index in its index space.
pub(crate) fn walk_imports<W: Walker>(
    counts: &Counts,
    section: &ImportSectionReader<'_>,
    walker: &mut W,
)
    ensures { Sees W.saw W.why
        (imports_seen 1 counts.now (flattened section.now.count (place section.now.reader)))
        walker.old walker.new }
{
    let imports = section.clone().unwrap().into_imports_with_offsets();
    let counts = *counts;
    walk_items(1, Counted { imports, counts }, walker);
}

// A group of types that is written as one.
#[derive(Drop)]
struct Explicit;

impl Show for Explicit {
    fn show<O: Tree>(&self, _level: usize, out: &mut O) {
        out.flag("explicit", true);
    }
}

// A type of such a group.
#[derive(Drop)]
struct Member<'a> {
    ty: &'a SubType,
}

impl Show for Member<'_> {
    fn show<O: Tree>(&self, _level: usize, out: &mut O) {
        out.begin_field("type");
        self.ty.text(out);
    }
}

// Walks over the types of a group, each with its index. Returns the index of the next type.
fn walk_types<W: Walker>(first: u64, types: &[SubType], walker: &mut W) -> u64
    ensures sees { Sees W.saw W.why (types_seen first (length types.now)) walker.old walker.new }
    ensures next { result ≡ after_types first (length types.now) }
{
    let mut index = first;
    for ty in types {
        walker.take_item(2, None, Some((Space::Types, index)), &Member { ty });
        index = index.saturating_add(1);
    }
    index
}

// Walks over a group, and returns the index of the next type. The types of an explicit group follow it, a level below. The
// one type of any other group is the group.
fn walk_group<W: Walker>(first: u64, offset: u64, group: &RecGroup, walker: &mut W) -> u64
    ensures sees { Sees W.saw W.why (group_seen first offset group.now) walker.old walker.new }
    ensures next { result ≡ next_group first group.now }
{
    if !group.explicit {
        walker.take_item(1, Some(offset), Some((Space::Types, first)), group);
        return first.saturating_add(1);
    }
    walker.take_item(1, Some(offset), None, &Explicit);
    walk_types(first, &group.types, walker)
}

// Walks over a group, or reports the fault in its place. Returns the index of the next type.
fn walk_found<W: Walker>(index: u64, group: &Result<Found<RecGroup>>, walker: &mut W) -> u64
    ensures sees { SeesFound W.saw W.why (found_group index) group.now walker.old walker.new }
    ensures next { result ≡ after_group index group.now }
{
    match group {
        Ok((offset, _, group)) => walk_group(index, *offset, group, walker),
        Err(e) => {
            walker.take_fault(1, e);
            index
        }
    }
}

/// Walks over the groups of a type section, with the index of each type.
pub(crate) fn walk_groups<W: Walker>(alloc: Global, section: &TypeSectionReader<'_>, walker: &mut W)
    ensures { Sees W.saw W.why (groups_seen section.now.count (place section.now.reader))
        walker.old walker.new }
{
    let mut groups = section.clone().unwrap().into_iter_in(alloc);
    let mut index = 0;
    'groups: while walker.why_stopped().is_none() {
        let offset = groups.original_position();
        match placed(offset, groups.next()) {
            Some(group) => {
                index = walk_found(index, &group, walker);
                drop(group);
            }
            None => break,
        }
    }
}
