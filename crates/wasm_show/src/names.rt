// Texts of names.
ghost use Rattle.std.specs.Prelude.{◌≡◌, false};
ghost use Rattle.wasm_show.specs.CustomText.{naming_fields};
ghost use Rattle.wasm_show.specs.Lists.{name_seen};
ghost use Rattle.wasm_show.specs.Walk.{Sees};
ghost use Rattle.wasm_output.specs.Said.{SaysFields};
ghost use Rattle.wasm_output.specs.Tree.{Adds, has_line_feed};

use crate::lists::{show_items, under, walk_items};
use crate::show::Show;
use crate::walker::Walker;
use std::ops::Range;
use wasm_custom::{IndirectNameMap, IndirectNaming, Name, NameMap, Naming};
use wasm_output::Tree;

impl Show for Naming<'_> {
    fn show<O: Tree>(&self, _level: usize, out: &mut O)
        ensures adds { Adds (O.writing out.old) (O.writing out.new) }
        // Proved: what the line of a name says
        ensures says { SaysFields (naming_fields self.now) (O.writing out.old) (O.writing out.new) }
    {
        out.number("index", u64::from(self.index));
        out.quoted("name", self.name);
    }
}

/// Writes the fields of the item, and the names on lines under it.
impl Show for IndirectNaming<'_> {
    fn show<O: Tree>(&self, level: usize, out: &mut O) {
        out.number("index", u64::from(self.index));
        self.names.show(level, out);
    }
}

/// Writes the names on lines under the current line.
impl Show for NameMap<'_> {
    fn show<O: Tree>(&self, level: usize, out: &mut O) {
        show_items(under(level), self.clone().unwrap(), out);
    }
}

/// Writes the items that have names on lines under the current line.
impl Show for IndirectNameMap<'_> {
    fn show<O: Tree>(&self, level: usize, out: &mut O) {
        show_items(under(level), self.clone().unwrap(), out);
    }
}

// Writes the kind of the named items, and the names on lines under the current line.
fn show_map<T: Show, O: Tree>(word: &str, level: usize, names: &T, out: &mut O)
    requires one_line { has_line_feed word.now ≡ false }
    ensures { Adds (O.writing out.old) (O.writing out.new) }
{
    out.label("kind", word);
    names.show(level, out);
}

/// Writes an unknown subsection.
pub(crate) fn show_unknown<O: Tree>(ty: u8, contents: &[u8], range: &Range<u64>, out: &mut O)
    ensures { Adds (O.writing out.old) (O.writing out.new) }
{
    out.label("kind", "unknown");
    out.number("ty", u64::from(ty));
    out.raw("contents", contents);
    out.range("range", range.start, range.end);
}

// Writes the name of the module.
fn show_module_name<O: Tree>(name: &str, range: &Range<u64>, out: &mut O)
    ensures { Adds (O.writing out.old) (O.writing out.new) }
{
    out.label("kind", "module");
    out.quoted("name", name);
    out.range("range", range.start, range.end);
}

/// Walks over the names of a subsection at this level.
pub(crate) fn walk_names<W: Walker>(level: usize, name: &Name<'_>, walker: &mut W)
    ensures { Sees W.saw W.why (name_seen W.IS_DEEP level name.now) walker.old walker.new }
{
    match name {
        Name::Function(names) => walk_items(level, names.clone().unwrap(), walker),
        Name::Types(names) => walk_items(level, names.clone().unwrap(), walker),
        Name::Table(names) => walk_items(level, names.clone().unwrap(), walker),
        Name::Memory(names) => walk_items(level, names.clone().unwrap(), walker),
        Name::Global(names) => walk_items(level, names.clone().unwrap(), walker),
        Name::Element(names) => walk_items(level, names.clone().unwrap(), walker),
        Name::Data(names) => walk_items(level, names.clone().unwrap(), walker),
        Name::Tag(names) => walk_items(level, names.clone().unwrap(), walker),
        Name::Local(names) => walk_items(level, names.clone().unwrap(), walker),
        Name::Label(names) => walk_items(level, names.clone().unwrap(), walker),
        Name::Field(names) => walk_items(level, names.clone().unwrap(), walker),
        Name::Parameter(names) => walk_items(level, names.clone().unwrap(), walker),
        Name::TagParameter(names) => walk_items(level, names.clone().unwrap(), walker),
        Name::Module { .. } => {}
        Name::Unknown { .. } => {}
    }
}

/// Writes the fields of the item, and the names on lines under it.
impl Show for Name<'_> {
    fn show<O: Tree>(&self, level: usize, out: &mut O) {
        match self {
            Name::Module { name, name_range } => show_module_name(name, name_range, out),
            Name::Function(names) => show_map("function", level, names, out),
            Name::Local(names) => show_map("local", level, names, out),
            Name::Label(names) => show_map("label", level, names, out),
            Name::Types(names) => show_map("type", level, names, out),
            Name::Table(names) => show_map("table", level, names, out),
            Name::Memory(names) => show_map("memory", level, names, out),
            Name::Global(names) => show_map("global", level, names, out),
            Name::Element(names) => show_map("element", level, names, out),
            Name::Data(names) => show_map("data", level, names, out),
            Name::Field(names) => show_map("field", level, names, out),
            Name::Tag(names) => show_map("tag", level, names, out),
            Name::Parameter(names) => show_map("parameter", level, names, out),
            Name::TagParameter(names) => show_map("tag_parameter", level, names, out),
            Name::Unknown {
                ty,
                contents,
                range,
            } => show_unknown(*ty, contents, range, out),
        }
    }
}
