// Texts of types, in the standard's words.
ghost use Rattle.std.specs.Prelude.{◌≡◌, false};
ghost use Rattle.wasm_output.specs.Fields.{field_text, named, word};
ghost use Rattle.wasm_show.specs.ItemText.{global_type_fields, memory_fields, table_fields, tag_fields};
ghost use Rattle.wasm_output.specs.Said.{Says, SaysFields, SaysInBase};
ghost use Rattle.wasm_output.specs.Tree.{Adds, has_line_feed};
ghost use Rattle.wasm_show.specs.TypeText.{array_text, heap_word as word_of_heap, mutable_text, ref_start as start_of_ref, struct_text};
ghost use Rattle.wasm_show.specs.TypeText.{is_plain as is_plain_type, sub_start as start_of_sub, supertype_text, types_text, val_text};

use crate::lists::{under, write_lines, write_words};
use crate::show::{Show, Text};
use wasm_items::{
    CompositeType, FieldType, FuncType, GlobalType, HeapType, MemoryType, RecGroup, RefType,
    StorageType, SubType, TableType, TagKind, TagType, ValType,
};
use wasm_output::Tree;

// Returns the name of an abstract heap type in the text format.
fn heap_word(heap: &HeapType) -> &'static str
    ensures word { result.now ≡ word_of_heap heap.now }
    ensures one_line { has_line_feed result.now ≡ false }
{
    match heap {
        HeapType::Func => "func",
        HeapType::Extern => "extern",
        HeapType::Any => "any",
        HeapType::Eq => "eq",
        HeapType::I31 => "i31",
        HeapType::Struct => "struct",
        HeapType::Array => "array",
        HeapType::Exn => "exn",
        HeapType::None => "none",
        HeapType::NoExtern => "noextern",
        HeapType::NoFunc => "nofunc",
        HeapType::NoExn => "noexn",
        HeapType::Concrete(_) => "",
    }
}

impl Text for HeapType {
    ghost use Rattle.wasm_show.specs.TypeText.{heap_text};

    ghost words = { heap_text };

    fn text<O: Tree>(&self, out: &mut O) {
        if let HeapType::Concrete(index) = self {
            out.digits(u64::from(*index));
            return;
        }
        out.text(heap_word(self));
    }
}

// Returns the start of the text of a reference type.
fn ref_start(nullable: bool) -> &'static str
    ensures word { result.now ≡ start_of_ref nullable }
    ensures one_line { has_line_feed result.now ≡ false }
{
    if nullable { "(ref null " } else { "(ref " }
}

impl Text for RefType {
    ghost use Rattle.wasm_show.specs.TypeText.{ref_text};

    ghost words = { ref_text };

    fn text<O: Tree>(&self, out: &mut O) {
        out.text(ref_start(self.nullable));
        self.heap.text(out);
        out.text(")");
    }
}

impl Text for ValType {
    ghost use Rattle.wasm_show.specs.TypeText.{val_text};

    ghost words = { val_text };

    fn text<O: Tree>(&self, out: &mut O) {
        match self {
            ValType::I32 => out.text("i32"),
            ValType::I64 => out.text("i64"),
            ValType::F32 => out.text("f32"),
            ValType::F64 => out.text("f64"),
            ValType::V128 => out.text("v128"),
            ValType::Ref(ty) => ty.text(out),
        }
    }
}

impl Text for StorageType {
    ghost use Rattle.wasm_show.specs.TypeText.{storage_text};

    ghost words = { storage_text };

    fn text<O: Tree>(&self, out: &mut O) {
        match self {
            StorageType::I8 => out.text("i8"),
            StorageType::I16 => out.text("i16"),
            StorageType::Val(ty) => ty.text(out),
        }
    }
}

// Writes a type, inside `(mut ...)` if it is mutable.
fn write_mutable<T: Text, O: Tree>(mutable: bool, ty: &T, out: &mut O)
    ensures adds { Adds (O.writing out.old) (O.writing out.new) }
    ensures says { Says (mutable_text mutable (T.words ty.now))
        (O.writing out.old) (O.writing out.new) }
{
    if !mutable {
        ty.text(out);
        return;
    }
    out.text("(mut ");
    ty.text(out);
    out.text(")");
}

/// A field of a structure.
impl Text for FieldType {
    ghost use Rattle.wasm_show.specs.TypeText.{field_type_text};

    ghost words = { field_type_text };

    fn text<O: Tree>(&self, out: &mut O) {
        out.text("(field ");
        write_mutable(self.mutable, &self.storage, out);
        out.text(")");
    }
}

// Writes the types of parameters or results, if there are any.
fn write_types<O: Tree>(start: &str, types: &[ValType], out: &mut O)
    requires one_line { has_line_feed start.now ≡ false }
    ensures adds { Adds (O.writing out.old) (O.writing out.new) }
    ensures says { Says (types_text start.now types.now) (O.writing out.old) (O.writing out.new) }
{
    if types.is_empty() {
        return;
    }
    out.text(start);
    write_words(types, out);
    out.text(")");
}

impl Text for FuncType {
    ghost use Rattle.wasm_show.specs.TypeText.{func_text};

    ghost words = { func_text };

    fn text<O: Tree>(&self, out: &mut O) {
        out.text("(func");
        write_types(" (param", &self.params, out);
        write_types(" (result", &self.results, out);
        out.text(")");
    }
}

// Writes the type of an array.
fn write_array<O: Tree>(field: &FieldType, out: &mut O)
    ensures adds { Adds (O.writing out.old) (O.writing out.new) }
    ensures says { Says (array_text field.now) (O.writing out.old) (O.writing out.new) }
{
    out.text("(array ");
    write_mutable(field.mutable, &field.storage, out);
    out.text(")");
}

// Writes the type of a structure.
fn write_struct<O: Tree>(fields: &[FieldType], out: &mut O)
    ensures adds { Adds (O.writing out.old) (O.writing out.new) }
    ensures says { Says (struct_text fields.now) (O.writing out.old) (O.writing out.new) }
{
    out.text("(struct");
    write_words(fields, out);
    out.text(")");
}

impl Text for CompositeType {
    ghost use Rattle.wasm_show.specs.TypeText.{composite_text};

    ghost words = { composite_text };

    fn text<O: Tree>(&self, out: &mut O) {
        match self {
            CompositeType::Func(ty) => ty.text(out),
            CompositeType::Array(field) => write_array(field, out),
            CompositeType::Struct(fields) => write_struct(fields, out),
        }
    }
}

// Returns the start of the text of a composite type.
fn sub_start(is_final: bool) -> &'static str
    ensures word { result.now ≡ start_of_sub is_final }
    ensures one_line { has_line_feed result.now ≡ false }
{
    if is_final { "(sub final " } else { "(sub " }
}

// Returns whether the text format leaves out `sub`, as it may for a final type without a supertype.
fn is_plain(is_final: bool, supertype: Option<u32>) -> bool
    ensures { result ≡ is_plain_type is_final supertype }
{
    is_final && supertype.is_none()
}

// Writes the index of the supertype, if there is one.
fn write_supertype<O: Tree>(supertype: Option<u32>, out: &mut O)
    ensures adds { Adds (O.writing out.old) (O.writing out.new) }
    ensures says { Says (supertype_text supertype) (O.writing out.old) (O.writing out.new) }
{
    if let Some(index) = supertype {
        out.digits(u64::from(index));
        out.text(" ");
    }
}

impl Text for SubType {
    ghost use Rattle.wasm_show.specs.TypeText.{sub_text};

    ghost words = { sub_text };

    fn text<O: Tree>(&self, out: &mut O) {
        if is_plain(self.is_final, self.supertype) {
            self.composite.text(out);
            return;
        }
        out.text(sub_start(self.is_final));
        write_supertype(self.supertype, out);
        self.composite.text(out);
        out.text(")");
    }
}

// Writes a type as a field of an item.
fn show_type<T: Text, O: Tree>(name: &str, ty: &T, out: &mut O)
    requires one_line { has_line_feed name.now ≡ false }
    ensures adds { Adds (O.writing out.old) (O.writing out.new) }
    ensures says { SaysInBase (field_text (named name.now (word (T.words ty.now))))
        (O.writing out.old) (O.writing out.new) }
{
    out.begin_field(name);
    ty.text(out);
}

// Writes a type that may be mutable as a field of an item.
fn show_mutable<O: Tree>(name: &str, mutable: bool, ty: &ValType, out: &mut O)
    requires one_line { has_line_feed name.now ≡ false }
    ensures adds { Adds (O.writing out.old) (O.writing out.new) }
    ensures says { SaysInBase (field_text (named name.now (word (mutable_text mutable (val_text ty.now)))))
        (O.writing out.old) (O.writing out.new) }
{
    out.begin_field(name);
    write_mutable(mutable, ty, out);
}

/// Widens an optional number.
pub(crate) fn wide(number: Option<u32>) -> Option<u64>
    ensures { result ≡ number }
{
    match number {
        Some(number) => Some(u64::from(number)),
        None => None,
    }
}

impl Show for HeapType {
    fn show<O: Tree>(&self, _level: usize, out: &mut O) {
        show_type("type", self, out);
    }
}

impl Show for RefType {
    fn show<O: Tree>(&self, _level: usize, out: &mut O) {
        show_type("type", self, out);
    }
}

impl Show for ValType {
    fn show<O: Tree>(&self, _level: usize, out: &mut O) {
        show_type("type", self, out);
    }
}

impl Show for TableType {
    fn show<O: Tree>(&self, _level: usize, out: &mut O)
        ensures adds { Adds (O.writing out.old) (O.writing out.new) }
        // Proved: what the line of the type of a table, memory, global or tag says [`says` of `show` of
        //   `TableType`, `MemoryType`, `GlobalType`, `TagType` (`SaysFields` and the fields of each)]
        ensures says { SaysFields (table_fields self.now) (O.writing out.old) (O.writing out.new) }
    {
        show_type("element_type", &self.element_type, out);
        out.flag("table64", self.table64);
        out.number("initial", self.initial);
        out.number_if_any("maximum", self.maximum);
        out.flag("shared", self.shared);
    }
}

impl Show for MemoryType {
    fn show<O: Tree>(&self, _level: usize, out: &mut O)
        ensures adds { Adds (O.writing out.old) (O.writing out.new) }
        ensures says { SaysFields (memory_fields self.now) (O.writing out.old) (O.writing out.new) }
    {
        out.flag("memory64", self.memory64);
        out.flag("shared", self.shared);
        out.number("initial", self.initial);
        out.number_if_any("maximum", self.maximum);
        out.number_if_any("page_size_log2", wide(self.page_size_log2));
    }
}

impl Show for GlobalType {
    fn show<O: Tree>(&self, _level: usize, out: &mut O)
        ensures adds { Adds (O.writing out.old) (O.writing out.new) }
        ensures says { SaysFields (global_type_fields self.now)
            (O.writing out.old) (O.writing out.new) }
    {
        show_mutable("content_type", self.mutable, &self.content_type, out);
        out.flag("shared", self.shared);
    }
}

impl Show for TagType {
    fn show<O: Tree>(&self, _level: usize, out: &mut O)
        ensures adds { Adds (O.writing out.old) (O.writing out.new) }
        ensures says { SaysFields (tag_fields self.now) (O.writing out.old) (O.writing out.new) }
    {
        match self.kind {
            TagKind::Exception => {}
        }
        out.word_field("kind", "exception");
        out.number("func_type_idx", u64::from(self.func_type_idx));
    }
}

/// Writes the types of an explicit group on lines under the item's line, and the one type of any other group on that line.
impl Show for RecGroup {
    fn show<O: Tree>(&self, level: usize, out: &mut O) {
        out.flag("explicit", self.explicit);
        if self.explicit {
            write_lines(under(level), "type", &self.types, out);
            return;
        }
        match self.types.get(0) {
            Some(ty) => show_type("type", ty, out),
            None => {}
        }
    }
}
