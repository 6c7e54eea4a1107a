// Texts of the items of a module's sections.
ghost use Rattle.std.specs.Prelude.{◌≡◌, false};
ghost use Rattle.wasm_items.specs.Data.{data_parts};
ghost use Rattle.wasm_items.specs.Exports.{export_parts};
ghost use Rattle.wasm_show.specs.ItemText.{data_fields, data_kind_fields, global_fields, table_item_fields};
ghost use Rattle.wasm_items.specs.Imports.{import_parts};
ghost use Rattle.wasm_output.specs.Fields.{field_text};
ghost use Rattle.wasm_show.specs.ItemText.{export_fields, import_fields, kind_field, kind_word as word_of_kind, type_ref_fields};
ghost use Rattle.wasm_output.specs.Said.{SaysFields, SaysInBase, SaysWith};
ghost use Rattle.wasm_output.specs.Tree.{Adds, has_line_feed};
ghost use Rattle.wasm_show.specs.Lists.{element_seen};
ghost use Rattle.wasm_show.specs.Walk.{Sees};

use crate::expressions::show_expr;
use crate::lists::{show_extent, show_fault, show_list, show_section, under, walk_section};
use crate::show::Show;
use crate::types::wide;
use crate::walker::Walker;
use wasm_base::{Result, SectionLimited};
use wasm_items::{
    Data, DataKind, Element, ElementItems, ElementKind, Export, ExternalKind, Global as GlobalItem,
    Import, ImportItemCompact, Imports, Table, TableInit, TypeRef,
};
use wasm_output::{Space, Tree};

// Returns the name of an external kind in the text format.
fn kind_word(kind: &ExternalKind) -> &'static str
    ensures word { result.now ≡ word_of_kind kind.now }
    ensures one_line { has_line_feed result.now ≡ false }
{
    match kind {
        ExternalKind::Func => "func",
        ExternalKind::Table => "table",
        ExternalKind::Memory => "memory",
        ExternalKind::Global => "global",
        ExternalKind::Tag => "tag",
        ExternalKind::FuncExact => "func_exact",
    }
}

// Writes the external kind of an import or export.
fn show_kind<O: Tree>(kind: &ExternalKind, out: &mut O)
    ensures adds { Adds (O.writing out.old) (O.writing out.new) }
    ensures says { SaysInBase (field_text (kind_field kind.now)) (O.writing out.old) (O.writing out.new) }
{
    out.word_field("kind", kind_word(kind));
}

impl Show for ExternalKind {
    fn show<O: Tree>(&self, _level: usize, out: &mut O) {
        show_kind(self, out);
    }
}

impl Show for TypeRef {
    fn show<O: Tree>(&self, level: usize, out: &mut O)
        ensures adds { Adds (O.writing out.old) (O.writing out.new) }
        ensures says { SaysFields (type_ref_fields self.now)
            (O.writing out.old) (O.writing out.new) }
    {
        match self {
            TypeRef::Func(index) => {
                out.word_field("ty", "func");
                index.show(level, out);
            }
            TypeRef::FuncExact(index) => {
                out.word_field("ty", "func_exact");
                index.show(level, out);
            }
            TypeRef::Table(ty) => {
                out.word_field("ty", "table");
                ty.show(level, out);
            }
            TypeRef::Memory(ty) => {
                out.word_field("ty", "memory");
                ty.show(level, out);
            }
            TypeRef::Global(ty) => {
                out.word_field("ty", "global");
                ty.show(level, out);
            }
            TypeRef::Tag(ty) => {
                out.word_field("ty", "tag");
                ty.show(level, out);
            }
        }
    }
}

impl Show for Import<'_> {
    fn show<O: Tree>(&self, level: usize, out: &mut O)
        ensures adds { Adds (O.writing out.old) (O.writing out.new) }
        // Proved: what the line of an import of the flattened reading says, field by field
        ensures says { SaysFields (import_fields (import_parts self.now))
            (O.writing out.old) (O.writing out.new) }
    {
        out.quoted("module", self.module);
        out.quoted("name", self.name);
        self.ty.show(level, out);
    }
}

impl Show for ImportItemCompact<'_> {
    fn show<O: Tree>(&self, level: usize, out: &mut O) {
        out.quoted("name", self.name);
        self.ty.show(level, out);
    }
}

/// Writes an import, or the module of a bundle and its imports on lines under it.
impl Show for Imports<'_> {
    fn show<O: Tree>(&self, level: usize, out: &mut O) {
        match self {
            Imports::Single(offset, import) => {
                out.number("offset", *offset);
                import.show(level, out);
            }
            Imports::Compact1 { module, items } => {
                out.quoted("module", module);
                show_list("items", level, items, out);
            }
            Imports::Compact2 { module, ty, names } => {
                out.quoted("module", module);
                ty.show(level, out);
                show_list("names", level, names, out);
            }
        }
    }
}

impl Show for Table<'_> {
    fn show<O: Tree>(&self, level: usize, out: &mut O)
        ensures adds { Adds (O.writing out.old) (O.writing out.new) }
        ensures says { SaysWith (table_item_fields self.now)
            (O.writing out.old) (O.writing out.new) }
    {
        self.ty.show(level, out);
        match &self.init {
            TableInit::RefNull => out.word_field("init", "null"),
            TableInit::Expr(init) => show_expr("init", init, out),
        }
    }
}

impl Show for GlobalItem<'_> {
    fn show<O: Tree>(&self, level: usize, out: &mut O)
        ensures adds { Adds (O.writing out.old) (O.writing out.new) }
        ensures says { SaysWith (global_fields self.now) (O.writing out.old) (O.writing out.new) }
    {
        self.ty.show(level, out);
        show_expr("init_expr", &self.init_expr, out);
    }
}

// Writes the fields of an export.
fn show_export<O: Tree>(export: &Export<'_>, out: &mut O)
    ensures adds { Adds (O.writing out.old) (O.writing out.new) }
    // Proved: what the line of an export says before the name of what is exported
    ensures says { SaysFields (export_fields (export_parts export.now))
        (O.writing out.old) (O.writing out.new) }
{
    out.quoted("name", export.name);
    show_kind(&export.kind, out);
    out.number("index", u64::from(export.index));
}

// Returns the index space of an external kind.
fn kind_space(kind: &ExternalKind) -> Space {
    match kind {
        ExternalKind::Func | ExternalKind::FuncExact => Space::Functions,
        ExternalKind::Table => Space::Tables,
        ExternalKind::Memory => Space::Memories,
        ExternalKind::Global => Space::Globals,
        ExternalKind::Tag => Space::Tags,
    }
}

/// Writes the fields of the item, and the name of what is exported, if the tree has it.
impl Show for Export<'_> {
    fn show<O: Tree>(&self, _level: usize, out: &mut O) {
        show_export(self, out);
        out.item_name(kind_space(&self.kind), u64::from(self.index));
    }
}

// Writes the mode of an element segment: passive, active or declared.
fn show_element_kind<O: Tree>(kind: &ElementKind<'_>, out: &mut O)
    ensures { Adds (O.writing out.old) (O.writing out.new) }
{
    match kind {
        ElementKind::Passive => out.word_field("kind", "passive"),
        ElementKind::Declared => out.word_field("kind", "declared"),
        ElementKind::Active {
            table_index,
            offset_expr,
        } => {
            out.word_field("kind", "active");
            out.number_if_any("table_index", wide(*table_index));
            show_expr("offset_expr", offset_expr, out);
        }
    }
}

// Writes the offsets and the count of the items of an element segment.
fn show_elements_extent<O: Tree>(items: &ElementItems<'_>, out: &mut O)
    ensures { Adds (O.writing out.old) (O.writing out.new) }
{
    match items {
        ElementItems::Functions(indices) => show_extent("functions", indices, out),
        ElementItems::Expressions(ty, expressions) => {
            show_extent("expressions", expressions, out);
            ty.show(0, out);
        }
    }
}

// Writes a function that an element segment refers to, with its name, if the tree has it.
fn show_function<O: Tree>(level: usize, function: &Result<(u64, u32)>, out: &mut O)
    ensures { Adds (O.writing out.old) (O.writing out.new) }
{
    match function {
        Ok((offset, index)) => {
            out.item(level, *offset);
            index.show(level, out);
            out.item_name(Space::Functions, u64::from(*index));
        }
        Err(e) => show_fault(level, e, out),
    }
}

// Writes the functions of an element segment.
fn show_functions<O: Tree>(level: usize, indices: &SectionLimited<'_, u32>, out: &mut O)
    ensures { Adds (O.writing out.old) (O.writing out.new) }
{
    for function in indices.clone().unwrap().into_iter_with_offsets() {
        if out.has_stopped() {
            break;
        }
        show_function(level, &function, out);
    }
}

// Writes the items of an element segment.
fn show_elements<O: Tree>(level: usize, items: &ElementItems<'_>, out: &mut O)
    ensures { Adds (O.writing out.old) (O.writing out.new) }
{
    match items {
        ElementItems::Functions(indices) => show_functions(level, indices, out),
        ElementItems::Expressions(_, expressions) => show_section(level, expressions, out),
    }
}

impl Show for Element<'_> {
    fn show<O: Tree>(&self, level: usize, out: &mut O) {
        show_element_kind(&self.kind, out);
        show_elements_extent(&self.items, out);
        out.range("range", self.range.start, self.range.end);
        show_elements(under(level), &self.items, out);
    }
}

// Writes the mode of a data segment: passive or active.
fn show_data_kind<O: Tree>(kind: &DataKind<'_>, out: &mut O)
    ensures adds { Adds (O.writing out.old) (O.writing out.new) }
    ensures says { SaysWith (data_kind_fields kind.now) (O.writing out.old) (O.writing out.new) }
{
    match kind {
        DataKind::Passive => out.word_field("kind", "passive"),
        DataKind::Active {
            memory_index,
            offset_expr,
        } => {
            out.word_field("kind", "active");
            out.number("memory_index", u64::from(*memory_index));
            show_expr("offset_expr", offset_expr, out);
        }
    }
}

impl Show for Data<'_> {
    fn show<O: Tree>(&self, _level: usize, out: &mut O)
        ensures adds { Adds (O.writing out.old) (O.writing out.new) }
        // Proved: what the line of a table, a global or a data segment says, with some text in the place of an
        //   expression [`says` of `show` of `Table`, `Global`, `Data` (`SaysWith`, `table_item_fields`, `global_fields`,
        //   `data_fields`)]
        ensures says { SaysWith (data_fields (data_parts self.now))
            (O.writing out.old) (O.writing out.new) }
    {
        show_data_kind(&self.kind, out);
        out.raw("data", self.bytes);
        out.range("range", self.range.start, self.range.end);
    }
}

/// Walks over the functions or the expressions of an element segment, which are at this level.
pub fn walk_elements<W: Walker>(level: usize, element: &Element<'_>, walker: &mut W)
    ensures { Sees W.saw W.why (element_seen W.IS_DEEP level element.now) walker.old walker.new }
{
    match &element.items {
        ElementItems::Functions(indices) => walk_section(level, indices, walker),
        ElementItems::Expressions(_, expressions) => walk_section(level, expressions, walker),
    }
}
