// Imports as plain numbers.
ghost use Rattle.std.specs.Prelude.{List, None, Some, ℕ, ◌≡◌};
ghost use Rattle.wasm_base.specs.Name.{name_limit, text_at};
ghost use Rattle.wasm_base.specs.Window.{place};
ghost use Rattle.wasm_c_items.specs.Imports.{import_from, indexed_type, plain_import, plain_import_item, plain_import_type, plain_name, plain_named};
ghost use Rattle.wasm_items.specs.Imports.{Bundle, ItemParts, bundle_at, bundle_parts, item_at};

use crate::faults::{NO_FAULT, PlainFault, plain_fault};
use crate::kinds::{
    NO_GLOBAL_TYPE, NO_MEMORY_TYPE, NO_TABLE_TYPE, PlainGlobalType, PlainMemoryType,
    PlainTableType, plain_global_type, plain_memory_type, plain_table_type,
};
use crate::readable::Readable;
use crate::spans::{NO_SPAN, PlainSpan, distance, items_span, text_after_sized, text_span};
use wasm_parser::{BinaryReader, Error, FromReader, ImportItemCompact, Imports, Result, TypeRef};

/// The kind and type of an import. The fields of other kinds are 0.
#[repr(C)]
#[derive(Clone, Copy)]
pub struct PlainImportType {
    /// The kind, a `pulleynavy_external_kind`: 0 a function, 1 a table, 2 a memory, 3 a global, 4 a tag, 5 a function
    /// of exactly the given type.
    pub kind: u32,
    /// The type index of a function or a tag, or 0.
    pub index: u32,
    /// The type of a table.
    pub table: PlainTableType,
    /// The type of a memory.
    pub memory: PlainMemoryType,
    /// The type of a global.
    pub global: PlainGlobalType,
}

/// An item of an import section: an import, or a bundle of imports from one module; or a fault.
#[repr(C)]
#[derive(Clone, Copy)]
pub struct PlainImport {
    /// The fault of the item, of kind 0 if there is none.
    pub fault: PlainFault,
    /// The size of the item in bytes, including the imports of a bundle; 0 after a fault.
    pub consumed: usize,
    /// The name of the module to import from, which is UTF-8.
    pub module_name: PlainSpan,
    /// The name of the import in that module, which is UTF-8; empty for a bundle.
    pub name: PlainSpan,
    /// The kind and type of the import, or of every import of a bundle of kind 2; all 0 for a bundle of kind 1.
    pub ty: PlainImportType,
    /// The imports of a bundle, after their count; empty for a single import.
    pub items: PlainSpan,
    /// The kind of the item, a `pulleynavy_import_kind`: 0 an import, 1 a bundle of imports from one module, 2 a bundle
    /// of one module and one type.
    pub kind: u32,
    /// The number of imports: 1 for a single import.
    pub count: u32,
}

/// An import of a bundle, or a fault.
#[repr(C)]
#[derive(Clone, Copy)]
pub struct PlainImportItem {
    /// The fault of the item, of kind 0 if there is none.
    pub fault: PlainFault,
    /// The size of the item in bytes, 0 after a fault.
    pub consumed: usize,
    /// The name of the import in the bundle's module, which is UTF-8.
    pub name: PlainSpan,
    /// The kind and type of the import.
    pub ty: PlainImportType,
}

/// A name or text, or a fault.
#[repr(C)]
#[derive(Clone, Copy)]
pub struct PlainName {
    /// The fault of the item, of kind 0 if there is none.
    pub fault: PlainFault,
    /// The size of the item in bytes, 0 after a fault.
    pub consumed: usize,
    /// The name, which is UTF-8.
    pub name: PlainSpan,
}

/// The kind of a bundle of one module and one type.
pub const OF_TYPE: u32 = 2;

const NO_TYPE: PlainImportType = PlainImportType {
    kind: 0,
    index: 0,
    table: NO_TABLE_TYPE,
    memory: NO_MEMORY_TYPE,
    global: NO_GLOBAL_TYPE,
};

pub(crate) const NO_IMPORT: PlainImport = PlainImport {
    fault: NO_FAULT,
    consumed: 0,
    module_name: NO_SPAN,
    name: NO_SPAN,
    ty: NO_TYPE,
    items: NO_SPAN,
    kind: 0,
    count: 0,
};

// What is imported, by its kind and an index.
fn indexed_type(kind: u32, index: u32) -> PlainImportType
    ensures { result ≡ indexed_type kind index }
{
    PlainImportType {
        kind,
        index,
        ..NO_TYPE
    }
}

fn plain_import_type(ty: TypeRef) -> PlainImportType
    ensures { result ≡ plain_import_type ty }
{
    match ty {
        TypeRef::Func(index) => indexed_type(0, index),
        TypeRef::Table(ty) => PlainImportType {
            table: plain_table_type(ty),
            ..indexed_type(1, 0)
        },
        TypeRef::Memory(ty) => PlainImportType {
            memory: plain_memory_type(ty),
            ..indexed_type(2, 0)
        },
        TypeRef::Global(ty) => PlainImportType {
            global: plain_global_type(ty),
            ..indexed_type(3, 0)
        },
        TypeRef::Tag(ty) => indexed_type(4, ty.func_type_idx),
        TypeRef::FuncExact(index) => indexed_type(5, index),
    }
}

// An import, or the head of a bundle, that takes this many bytes from where the reader is.
fn whole_import(
    from: u64,
    before: BinaryReader<'_>,
    consumed: usize,
    bundle: &Imports,
) -> PlainImport
    ensures { result ≡ import_from from (place before.entry) consumed (bundle_parts bundle.now) }
{
    match bundle {
        Imports::Single(_, one) => PlainImport {
            consumed,
            module_name: text_span(from, before.clone().unwrap(), one.module.len()),
            name: text_after_sized(from, before, one.name.len()),
            ty: plain_import_type(one.ty),
            count: 1,
            ..NO_IMPORT
        },
        Imports::Compact1 { module, items } => PlainImport {
            consumed,
            module_name: text_span(from, before, module.len()),
            items: items_span(from, items),
            kind: 1,
            count: items.count(),
            ..NO_IMPORT
        },
        Imports::Compact2 { module, ty, names } => PlainImport {
            consumed,
            module_name: text_span(from, before, module.len()),
            ty: plain_import_type(*ty),
            items: items_span(from, names),
            kind: OF_TYPE,
            count: names.count(),
            ..NO_IMPORT
        },
    }
}

/// Imports, and bundles of imports.
#[derive(Clone, Copy)]
pub struct Bundles;

impl Readable for Bundles {
    type Plain = PlainImport;

    ghost Item = { Bundle };

    ghost reading = { λ _. bundle_at };

    ghost plain = { λ _. plain_import };

    fn read(self, reader: &mut BinaryReader<'_>, from: u64) -> Result<PlainImport> {
        let start = reader.original_position();
        let before = reader.clone().unwrap();
        let bundle = Imports::from_reader(reader)?;
        let consumed = distance(start, reader.original_position());
        Ok(whole_import(from, before, consumed, &bundle))
    }

    fn refused(self, error: Error) -> PlainImport {
        PlainImport {
            fault: plain_fault(error),
            ..NO_IMPORT
        }
    }
}

/// Imports of a bundle, each with its type.
#[derive(Clone, Copy)]
pub struct BundledItems;

impl Readable for BundledItems {
    type Plain = PlainImportItem;

    ghost Item = { ItemParts };

    ghost reading = { λ _. item_at };

    ghost plain = { λ _. plain_import_item };

    fn read(self, reader: &mut BinaryReader<'_>, from: u64) -> Result<PlainImportItem> {
        let start = reader.original_position();
        let before = reader.clone().unwrap();
        let item = ImportItemCompact::from_reader(reader)?;
        Ok(PlainImportItem {
            fault: NO_FAULT,
            consumed: distance(start, reader.original_position()),
            name: text_span(from, before, item.name.len()),
            ty: plain_import_type(item.ty),
        })
    }

    fn refused(self, error: Error) -> PlainImportItem {
        PlainImportItem {
            fault: plain_fault(error),
            consumed: 0,
            name: NO_SPAN,
            ty: NO_TYPE,
        }
    }
}

/// Names of at most 100,000 bytes.
#[derive(Clone, Copy)]
pub struct Names;

impl Readable for Names {
    type Plain = PlainName;

    ghost Item = { (List ℕ) };

    ghost reading = { λ _. text_at (Some name_limit) };

    ghost plain = { λ _. plain_name };

    fn read(self, reader: &mut BinaryReader<'_>, from: u64) -> Result<PlainName> {
        let start = reader.original_position();
        let before = reader.clone().unwrap();
        let name = reader.read_string()?;
        Ok(PlainName {
            fault: NO_FAULT,
            consumed: distance(start, reader.original_position()),
            name: text_span(from, before, name.len()),
        })
    }

    fn refused(self, error: Error) -> PlainName {
        PlainName {
            fault: plain_fault(error),
            consumed: 0,
            name: NO_SPAN,
        }
    }
}

/// Names of any length.
#[derive(Clone, Copy)]
pub struct Texts;

impl Readable for Texts {
    type Plain = PlainName;

    ghost Item = { List ℕ };

    ghost reading = { λ _. text_at None };

    ghost plain = { λ _. plain_name };

    fn read(self, reader: &mut BinaryReader<'_>, from: u64) -> Result<PlainName> {
        let start = reader.original_position();
        let before = reader.clone().unwrap();
        let text = reader.read_unlimited_string()?;
        Ok(PlainName {
            fault: NO_FAULT,
            consumed: distance(start, reader.original_position()),
            name: text_span(from, before, text.len()),
        })
    }

    fn refused(self, error: Error) -> PlainName {
        Names.refused(error)
    }
}

// The imports of a bundle of one type, which are names.
/// Imports of a bundle of one type.
#[derive(Clone, Copy)]
pub struct TypedNames {
    /// The type of the imports.
    pub ty: PlainImportType,
}

impl Readable for TypedNames {
    type Plain = PlainImportItem;

    ghost Item = { List ℕ };

    ghost reading = { λ _. text_at (Some name_limit) };

    ghost plain = { λ kind. plain_named kind.ty };

    fn read(self, reader: &mut BinaryReader<'_>, from: u64) -> Result<PlainImportItem> {
        let name = Names.read(reader, from)?;
        Ok(PlainImportItem {
            fault: NO_FAULT,
            consumed: name.consumed,
            name: name.name,
            ty: self.ty,
        })
    }

    fn refused(self, error: Error) -> PlainImportItem {
        BundledItems.refused(error)
    }
}
