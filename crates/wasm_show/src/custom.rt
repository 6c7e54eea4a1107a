// Texts of custom sections.
ghost use Rattle.std.specs.Prelude.{[], ◌∷◌, true};
ghost use Rattle.wasm_custom.specs.Known.{known_parts};
ghost use Rattle.wasm_show.specs.CustomText.{feature_fields, hint_fields, prefix_field, value_fields};
ghost use Rattle.wasm_custom.specs.BranchHinting.{function_hints_at};
ghost use Rattle.wasm_custom.specs.Producers.{field_at};
ghost use Rattle.wasm_show.specs.Lists.{custom_seen, features_seen, hints_seen, known_seen, listing, values_seen};
ghost use Rattle.wasm_show.specs.Walk.{Sees};
ghost use Rattle.wasm_output.specs.Said.{SaysFields};
ghost use Rattle.wasm_output.specs.Tree.{Adds};

use crate::linking::walk_linking;
use crate::lists::{
    Found, Items, show_items, show_list, under, walk_items, walk_section, without_number,
};
use crate::show::Show;
use crate::walker::Walker;
use std::alloc::Global;
use wasm_base::{Error, Fault, Result, SectionLimitedIntoIterWithOffsets};
use wasm_custom::{
    BranchHint, BranchHintFunction, BranchHintSectionReader, CustomSectionReader, KnownCustom,
    NameSectionReader, ProducersField, ProducersFieldValue, ProducersSectionReader, TargetFeature,
    TargetFeaturesSectionReader,
};
use wasm_output::{Space, Tree};

impl Show for BranchHint {
    fn show<O: Tree>(&self, _level: usize, out: &mut O)
        ensures adds { Adds (O.writing out.old) (O.writing out.new) }
        // Proved: what the line of a branch hint says
        ensures says { SaysFields (hint_fields self.now) (O.writing out.old) (O.writing out.new) }
    {
        out.number("func_offset", u64::from(self.func_offset));
        out.flag("taken", self.taken);
    }
}

/// Writes the fields of the item, and the hints on lines under it.
impl Show for BranchHintFunction<'_> {
    fn show<O: Tree>(&self, level: usize, out: &mut O) {
        out.number("func", u64::from(self.func));
        out.item_name(Space::Functions, u64::from(self.func));
        show_list("hints", level, &self.hints, out);
    }
}

impl Show for ProducersFieldValue<'_> {
    fn show<O: Tree>(&self, _level: usize, out: &mut O)
        ensures adds { Adds (O.writing out.old) (O.writing out.new) }
        // Proved: what the line of a value of a producer says
        ensures says { SaysFields (value_fields self.now) (O.writing out.old) (O.writing out.new) }
    {
        out.quoted("name", self.name);
        out.quoted("version", self.version);
    }
}

/// Writes the fields of the item, and the values on lines under it.
impl Show for ProducersField<'_> {
    fn show<O: Tree>(&self, level: usize, out: &mut O) {
        out.quoted("name", self.name);
        show_list("values", level, &self.values, out);
    }
}

// The fields of a section `producers`.
#[derive(Drop)]
struct Fields<'a> {
    fields: SectionLimitedIntoIterWithOffsets<'a, ProducersField<'a>>,
}

impl<'a> Items for Fields<'a> {
    ghost use Rattle.wasm_base.specs.Section.{most_items};
    ghost use Rattle.wasm_custom.specs.Producers.{field_at};
    ghost use Rattle.wasm_show.specs.Lists.{OwesListing, values_of_field, values_seen};

    type Item = ProducersField<'a>;

    ghost owes = { λ deep level f. OwesListing values_seen field_at deep level f.fields };

    ghost lists = { values_of_field };

    ghost most = { λ f. most_items f.fields };

    fn next_item(&mut self) -> Option<Result<Found<ProducersField<'a>>>> {
        without_number(self.fields.next())
    }

    fn walk_lists<W: Walker>(level: usize, item: &ProducersField<'a>, walker: &mut W) {
        walk_section(level, &item.values, walker);
    }
}

// The functions of a section of branch hints.
#[derive(Drop)]
struct Hints<'a> {
    functions: SectionLimitedIntoIterWithOffsets<'a, BranchHintFunction<'a>>,
}

impl<'a> Items for Hints<'a> {
    ghost use Rattle.wasm_base.specs.Section.{most_items};
    ghost use Rattle.wasm_custom.specs.BranchHinting.{function_hints_at};
    ghost use Rattle.wasm_show.specs.Lists.{OwesListing, hints_seen};

    type Item = BranchHintFunction<'a>;

    ghost owes = { λ deep level h. OwesListing hints_seen function_hints_at deep level h.functions };

    ghost lists = { hints_seen };

    ghost most = { λ h. most_items h.functions };

    fn next_item(&mut self) -> Option<Result<Found<BranchHintFunction<'a>>>> {
        without_number(self.functions.next())
    }

    fn walk_lists<W: Walker>(level: usize, item: &BranchHintFunction<'a>, walker: &mut W) {
        walk_section(level, &item.hints, walker);
    }
}

// Writes the byte that says how a feature is used: the signs of the standard as they are, others as numbers.
fn show_prefix<O: Tree>(prefix: u8, out: &mut O)
    ensures adds { Adds (O.writing out.old) (O.writing out.new) }
    ensures says { SaysFields (prefix_field prefix ∷ []) (O.writing out.old) (O.writing out.new) }
{
    match prefix {
        b'+' => out.label("prefix", "+"),
        b'-' => out.label("prefix", "-"),
        b'=' => out.label("prefix", "="),
        _ => out.number("prefix", u64::from(prefix)),
    }
}

impl Show for TargetFeature<'_> {
    fn show<O: Tree>(&self, _level: usize, out: &mut O)
        ensures adds { Adds (O.writing out.old) (O.writing out.new) }
        // Proved: what the line of a feature says
        ensures says { SaysFields (feature_fields self.now) (O.writing out.old) (O.writing out.new) }
    {
        show_prefix(self.prefix, out);
        out.quoted("name", self.name);
    }
}

/// Writes the subsections on lines under the current line.
impl Show for NameSectionReader<'_> {
    fn show<O: Tree>(&self, level: usize, out: &mut O) {
        show_items(under(level), self.clone().unwrap(), out);
    }
}

/// Writes a custom section under the line of its event: a line with its name and, if it is known, its contents under
/// that line.
///
/// An unknown section, or one whose data its reader rejects, is shown as `unknown`. The section `target_features`, which `as_known` does not know, is shown with its
/// features. The tree stops if an allocation fails.
///
/// ```rattle
/// let section = CustomSectionReader::new(BinaryReader::new(b"\x04core\x00\x03app", 0))?;
/// let mut out = TextLines::new(alloc, BoundedSink::new(alloc, 1000)?);
/// show_custom(alloc, &section, &mut out);
/// out.write_out();
/// let wanted = b"  section name=\"core\" process=\"app\"\n";
/// assert_eq!(rt; out.into_output().written(), wanted.as_slice());
/// ```
pub fn show_custom<O: Tree>(alloc: Global, section: &CustomSectionReader<'_>, out: &mut O)
    ensures { Adds (O.writing out.old) (O.writing out.new) }
{
    out.line(1, "section");
    out.quoted("name", section.name());
    if section.name() == "target_features" {
        return show_features(section, out);
    }
    match section.read_known(alloc) {
        Ok(known) => show_known(1, &known, out),
        Err(error) => show_refused(&error, out),
    }
}

// Writes the features of a section `target_features`.
fn show_features<O: Tree>(section: &CustomSectionReader<'_>, out: &mut O)
    ensures { Adds (O.writing out.old) (O.writing out.new) }
{
    match TargetFeaturesSectionReader::new(section.data_reader()) {
        Ok(features) => show_list("features", 1, &features, out),
        Err(error) => show_refused(&error, out),
    }
}

// Writes that the reader of a section rejects its data. At `OutOfMemory` the tree stops.
fn show_refused<O: Tree>(error: &Error, out: &mut O)
    ensures { Adds (O.writing out.old) (O.writing out.new) }
{
    match error.fault() {
        Fault::OutOfMemory => out.out_of_memory(),
        _ => out.label("known", "unknown"),
    }
}

// Writes the contents of a custom section: its fields on the current line, which is at this level, and its items under it.
fn show_known<O: Tree>(level: usize, known: &KnownCustom<'_>, out: &mut O)
    ensures { Adds (O.writing out.old) (O.writing out.new) }
{
    match known {
        KnownCustom::Name(section) => section.show(level, out),
        KnownCustom::BranchHints(section) => show_list("functions", level, section, out),
        KnownCustom::Producers(section) => show_list("fields", level, section, out),
        KnownCustom::Dylink0(section) => section.show(level, out),
        KnownCustom::CoreDump(section) => section.show(level, out),
        KnownCustom::CoreDumpStack(section) => section.show(level, out),
        KnownCustom::CoreDumpInstances(section) => section.show(level, out),
        KnownCustom::CoreDumpModules(section) => section.show(level, out),
        KnownCustom::Linking(section) => section.show(level, out),
        KnownCustom::Reloc(section) => section.show(level, out),
        KnownCustom::Unknown => out.label("known", "unknown"),
    }
}

/// Walks over the items of a custom section, which are at this level.
///
/// If the reader for the name of the section rejects its data, that is a fault. Of an unknown section nothing is seen. The
/// walker stops if an allocation fails.
///
/// ```rattle
/// // A section `name` with the name "f" of function 5.
/// let section = CustomSectionReader::new(BinaryReader::new(b"\x04name\x01\x04\x01\x05\x01f", 100))?;
/// let mut offsets = Offsets::new(alloc);
/// walk_custom(alloc, 1, &section, &mut offsets);
/// let noted = offsets.into_noted().ok_or("out of memory")?;
/// assert_eq!(rt; noted.as_slice(), [105, 108].as_slice());
/// ```
pub fn walk_custom<W: Walker>(
    alloc: Global,
    level: usize,
    section: &CustomSectionReader<'_>,
    walker: &mut W,
)
    ensures { Sees W.saw W.why (custom_seen W.IS_DEEP level section.now) walker.old walker.new }
{
    if section.name() == "target_features" {
        return walk_features(level, section, walker);
    }
    match section.read_known(alloc) {
        Ok(known) => walk_known(level, &known, walker),
        Err(error) => walker.take_fault(level, &error),
    }
}

// Walks over the features of a section `target_features`.
fn walk_features<W: Walker>(level: usize, section: &CustomSectionReader<'_>, walker: &mut W)
    ensures { Sees W.saw W.why (features_seen W.IS_DEEP level section.now) walker.old walker.new }
{
    match TargetFeaturesSectionReader::new(section.data_reader()) {
        Ok(features) => walk_section(level, &features, walker),
        Err(error) => walker.take_fault(level, &error),
    }
}

// Walks over the fields of a section `producers`.
fn walk_producers<W: Walker>(level: usize, section: &ProducersSectionReader<'_>, walker: &mut W)
    ensures { Sees W.saw W.why (listing values_seen W.IS_DEEP level field_at section.now)
        walker.old walker.new }
{
    let fields = section.clone().unwrap().into_iter_with_offsets();
    walk_items(level, Fields { fields }, walker);
}

// Walks over the functions of a section of branch hints.
fn walk_hints<W: Walker>(level: usize, section: &BranchHintSectionReader<'_>, walker: &mut W)
    ensures { Sees W.saw W.why (listing hints_seen W.IS_DEEP level function_hints_at section.now)
        walker.old walker.new }
{
    let functions = section.clone().unwrap().into_iter_with_offsets();
    walk_items(level, Hints { functions }, walker);
}

// Walks over the items of a custom section, by what it is known as.
fn walk_known<W: Walker>(level: usize, known: &KnownCustom<'_>, walker: &mut W)
    ensures { Sees W.saw W.why (known_seen W.IS_DEEP level (known_parts known.now))
        walker.old walker.new }
{
    match known {
        KnownCustom::Name(section) => walk_items(level, section.clone().unwrap(), walker),
        KnownCustom::BranchHints(section) => walk_hints(level, section, walker),
        KnownCustom::Producers(section) => walk_producers(level, section, walker),
        KnownCustom::Dylink0(section) => walk_items(level, section.clone().unwrap(), walker),
        KnownCustom::Linking(section) => walk_linking(level, section, walker),
        KnownCustom::Reloc(section) => walk_section(level, &section.entries(), walker),
        KnownCustom::CoreDump(_) => {}
        KnownCustom::CoreDumpStack(_) => {}
        KnownCustom::CoreDumpInstances(_) => {}
        KnownCustom::CoreDumpModules(_) => {}
        KnownCustom::Unknown => {}
    }
}
