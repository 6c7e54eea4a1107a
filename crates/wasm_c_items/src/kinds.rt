// Tables, memories, tags and globals as plain numbers.
ghost use Rattle.std.specs.Prelude.{◌≡◌};
ghost use Rattle.wasm_c_items.specs.Faults.{number_flag, number_or_0};
ghost use Rattle.wasm_c_items.specs.Kinds.{has_expression, init_span, plain_global, plain_global_alone, plain_global_type, plain_memory, plain_memory_type, plain_table, plain_table_alone, plain_table_type, plain_tag};
ghost use Rattle.wasm_c_items.specs.Spans.{window_span};
ghost use Rattle.wasm_items.specs.Globals.{global_at, global_type_at};
ghost use Rattle.wasm_items.specs.Memories.{memory_type_at};
ghost use Rattle.wasm_items.specs.Tables.{table_at, table_type_at};
ghost use Rattle.wasm_items.specs.Tags.{tag_type_at};
ghost use Rattle.wasm_items.specs.Windows.{expression_window};
ghost use Rattle.wasm_items.specs.declared.globals.Global.{Global};
ghost use Rattle.wasm_items.specs.declared.tables.Table.{Table};
ghost use Rattle.wasm_items.specs.declared.types.GlobalType.{GlobalType};
ghost use Rattle.wasm_items.specs.declared.types.MemoryType.{MemoryType};
ghost use Rattle.wasm_items.specs.declared.types.TableType.{TableType};
ghost use Rattle.wasm_items.specs.declared.types.TagType.{TagType};

use crate::faults::{NO_FAULT, PlainFault, number_parts, plain_fault};
use crate::readable::Readable;
use crate::spans::{NO_SPAN, PlainSpan, distance, flag, window_span};
use crate::values::{PlainType, SIMPLE, plain_ref, plain_type};
use wasm_parser::{
    BinaryReader, ConstExpr, Error, FromReader, Global, GlobalType, MemoryType, Result, Table,
    TableInit, TableType, TagType,
};

/// The type of a table (core specification, Binary format, Types, Table Types).
#[repr(C)]
#[derive(Clone, Copy)]
pub struct PlainTableType {
    /// The type of the elements.
    pub element: PlainType,
    /// 1 if indices have 64 bits, or 0.
    pub table64: u32,
    /// 1 if threads share the table, or 0.
    pub shared: u32,
    /// 1 if there is a maximum, or 0.
    pub has_maximum: u32,
    /// The initial number of elements.
    pub initial: u64,
    /// The maximum number of elements, or 0.
    pub maximum: u64,
}

/// The type of a memory (core specification, Binary format, Types, Memory Types).
#[repr(C)]
#[derive(Clone, Copy)]
pub struct PlainMemoryType {
    /// 1 if addresses have 64 bits, or 0.
    pub memory64: u32,
    /// 1 if threads share the memory, or 0.
    pub shared: u32,
    /// 1 if there is a maximum, or 0.
    pub has_maximum: u32,
    /// 1 if the page size is encoded, or 0. Otherwise a page has 65,536 bytes.
    pub has_page_size: u32,
    /// The base-2 logarithm of the page size in bytes, below 64, or 0.
    pub page_size_log2: u32,
    /// The initial size, in pages.
    pub initial: u64,
    /// The maximum size in pages, or 0.
    pub maximum: u64,
}

/// The type of a global (core specification, Binary format, Types, Global Types).
#[repr(C)]
#[derive(Clone, Copy)]
pub struct PlainGlobalType {
    /// The type of the value.
    pub content: PlainType,
    /// 1 if the value is mutable, or 0.
    pub is_mutable: u32,
    /// 1 if threads share the global, or 0.
    pub shared: u32,
}

/// A table, or a fault.
#[repr(C)]
#[derive(Clone, Copy)]
pub struct PlainTable {
    /// The fault of the item, of kind 0 if there is none.
    pub fault: PlainFault,
    /// The size of the item in bytes, 0 after a fault.
    pub consumed: usize,
    /// The type of the table.
    pub ty: PlainTableType,
    /// The constant expression of the initial elements, including its `end`, if `has_init` is 1.
    pub init: PlainSpan,
    /// 1 if there is an expression, or 0 if the initial elements are null.
    pub has_init: u32,
}

/// A memory, or a fault.
#[repr(C)]
#[derive(Clone, Copy)]
pub struct PlainMemory {
    /// The fault of the item, of kind 0 if there is none.
    pub fault: PlainFault,
    /// The size of the item in bytes, 0 after a fault.
    pub consumed: usize,
    /// The type of the memory.
    pub ty: PlainMemoryType,
}

/// A tag of exceptions, or a fault.
#[repr(C)]
#[derive(Clone, Copy)]
pub struct PlainTag {
    /// The fault of the item, of kind 0 if there is none.
    pub fault: PlainFault,
    /// The size of the item in bytes, 0 after a fault.
    pub consumed: usize,
    /// The index of the function type whose parameters the tag carries.
    pub func_type_index: u32,
}

/// A global, or a fault.
#[repr(C)]
#[derive(Clone, Copy)]
pub struct PlainGlobal {
    /// The fault of the item, of kind 0 if there is none.
    pub fault: PlainFault,
    /// The size of the item in bytes, 0 after a fault.
    pub consumed: usize,
    /// The type of the global.
    pub ty: PlainGlobalType,
    /// The constant expression of the initial value, including its `end`; empty for `pulleynavy_read_global_type`.
    pub init: PlainSpan,
}

/// The type if there is no table.
pub(crate) const NO_TABLE_TYPE: PlainTableType = PlainTableType {
    element: SIMPLE,
    table64: 0,
    shared: 0,
    has_maximum: 0,
    initial: 0,
    maximum: 0,
};

/// The type if there is no memory.
pub(crate) const NO_MEMORY_TYPE: PlainMemoryType = PlainMemoryType {
    memory64: 0,
    shared: 0,
    has_maximum: 0,
    has_page_size: 0,
    page_size_log2: 0,
    initial: 0,
    maximum: 0,
};

/// The type if there is no global.
pub(crate) const NO_GLOBAL_TYPE: PlainGlobalType = PlainGlobalType {
    content: SIMPLE,
    is_mutable: 0,
    shared: 0,
};

/// Whether there is a number, and which.
pub(crate) fn small_parts(number: Option<u32>) -> (u32, u32)
    ensures has { result.0 ≡ number_flag number }
    ensures number { result.1 ≡ number_or_0 number }
{
    match number {
        Some(number) => (1, number),
        None => (0, 0),
    }
}

/// A table type.
pub(crate) fn plain_table_type(ty: TableType) -> PlainTableType
    ensures { result ≡ plain_table_type ty }
{
    let (has_maximum, maximum) = number_parts(ty.maximum);
    PlainTableType {
        element: plain_ref(ty.element_type),
        table64: flag(ty.table64),
        shared: flag(ty.shared),
        has_maximum,
        initial: ty.initial,
        maximum,
    }
}

/// A memory type.
pub(crate) fn plain_memory_type(ty: MemoryType) -> PlainMemoryType
    ensures { result ≡ plain_memory_type ty }
{
    let (has_maximum, maximum) = number_parts(ty.maximum);
    let (has_page_size, page_size_log2) = small_parts(ty.page_size_log2);
    PlainMemoryType {
        memory64: flag(ty.memory64),
        shared: flag(ty.shared),
        has_maximum,
        has_page_size,
        page_size_log2,
        initial: ty.initial,
        maximum,
    }
}

/// A global type.
pub(crate) fn plain_global_type(ty: GlobalType) -> PlainGlobalType
    ensures { result ≡ plain_global_type ty }
{
    PlainGlobalType {
        content: plain_type(ty.content_type),
        is_mutable: flag(ty.mutable),
        shared: flag(ty.shared),
    }
}

// The expression of a table's elements, if there is one, from this offset on.
fn init_span(from: u64, init: &TableInit) -> PlainSpan
    ensures { result ≡ init_span from init.now }
{
    match init {
        TableInit::RefNull => NO_SPAN,
        TableInit::Expr(expression) => expression_span(from, expression),
    }
}

/// Where an expression is, from this offset on.
pub(crate) fn expression_span(from: u64, expression: &ConstExpr<'_>) -> PlainSpan
    ensures { result ≡ window_span from (expression_window expression.now) }
{
    window_span(from, &expression.get_binary_reader())
}

fn has_expression(init: &TableInit) -> u32
    ensures { result ≡ has_expression init.now }
{
    match init {
        TableInit::RefNull => 0,
        TableInit::Expr(_) => 1,
    }
}

/// Tables.
#[derive(Clone, Copy)]
pub struct Tables;

impl Readable for Tables {
    type Plain = PlainTable;

    ghost Item = { Table };

    ghost reading = { λ _. table_at };

    ghost plain = { λ _. plain_table };

    fn read(self, reader: &mut BinaryReader<'_>, from: u64) -> Result<PlainTable> {
        let start = reader.original_position();
        let table = Table::from_reader(reader)?;
        Ok(PlainTable {
            fault: NO_FAULT,
            consumed: distance(start, reader.original_position()),
            ty: plain_table_type(table.ty),
            init: init_span(from, &table.init),
            has_init: has_expression(&table.init),
        })
    }

    fn refused(self, error: Error) -> PlainTable {
        PlainTable {
            fault: plain_fault(error),
            consumed: 0,
            ty: NO_TABLE_TYPE,
            init: NO_SPAN,
            has_init: 0,
        }
    }
}

/// Memories.
#[derive(Clone, Copy)]
pub struct Memories;

impl Readable for Memories {
    type Plain = PlainMemory;

    ghost Item = { MemoryType };

    ghost reading = { λ _. memory_type_at };

    ghost plain = { λ _. plain_memory };

    fn read(self, reader: &mut BinaryReader<'_>, _from: u64) -> Result<PlainMemory> {
        let start = reader.original_position();
        let ty = MemoryType::from_reader(reader)?;
        Ok(PlainMemory {
            fault: NO_FAULT,
            consumed: distance(start, reader.original_position()),
            ty: plain_memory_type(ty),
        })
    }

    fn refused(self, error: Error) -> PlainMemory {
        PlainMemory {
            fault: plain_fault(error),
            consumed: 0,
            ty: NO_MEMORY_TYPE,
        }
    }
}

/// Tags of exceptions.
#[derive(Clone, Copy)]
pub struct Tags;

impl Readable for Tags {
    type Plain = PlainTag;

    ghost Item = { TagType };

    ghost reading = { λ _. tag_type_at };

    ghost plain = { λ _. plain_tag };

    fn read(self, reader: &mut BinaryReader<'_>, _from: u64) -> Result<PlainTag> {
        let start = reader.original_position();
        let tag = TagType::from_reader(reader)?;
        Ok(PlainTag {
            fault: NO_FAULT,
            consumed: distance(start, reader.original_position()),
            func_type_index: tag.func_type_idx,
        })
    }

    fn refused(self, error: Error) -> PlainTag {
        PlainTag {
            fault: plain_fault(error),
            consumed: 0,
            func_type_index: 0,
        }
    }
}

/// Globals.
#[derive(Clone, Copy)]
pub struct Globals;

impl Readable for Globals {
    type Plain = PlainGlobal;

    ghost Item = { Global };

    ghost reading = { λ _. global_at };

    ghost plain = { λ _. plain_global };

    fn read(self, reader: &mut BinaryReader<'_>, from: u64) -> Result<PlainGlobal> {
        let start = reader.original_position();
        let global = Global::from_reader(reader)?;
        Ok(PlainGlobal {
            fault: NO_FAULT,
            consumed: distance(start, reader.original_position()),
            ty: plain_global_type(global.ty),
            init: expression_span(from, &global.init_expr),
        })
    }

    fn refused(self, error: Error) -> PlainGlobal {
        PlainGlobal {
            fault: plain_fault(error),
            consumed: 0,
            ty: NO_GLOBAL_TYPE,
            init: NO_SPAN,
        }
    }
}

/// Types of tables.
#[derive(Clone, Copy)]
pub struct TableTypes;

impl Readable for TableTypes {
    type Plain = PlainTable;

    ghost Item = { TableType };

    ghost reading = { λ _. table_type_at };

    ghost plain = { λ _. plain_table_alone };

    fn read(self, reader: &mut BinaryReader<'_>, _from: u64) -> Result<PlainTable> {
        let start = reader.original_position();
        let ty = TableType::from_reader(reader)?;
        Ok(PlainTable {
            fault: NO_FAULT,
            consumed: distance(start, reader.original_position()),
            ty: plain_table_type(ty),
            init: NO_SPAN,
            has_init: 0,
        })
    }

    fn refused(self, error: Error) -> PlainTable {
        Tables.refused(error)
    }
}

/// Types of globals.
#[derive(Clone, Copy)]
pub struct GlobalTypes;

impl Readable for GlobalTypes {
    type Plain = PlainGlobal;

    ghost Item = { GlobalType };

    ghost reading = { λ _. global_type_at };

    ghost plain = { λ _. plain_global_alone };

    fn read(self, reader: &mut BinaryReader<'_>, _from: u64) -> Result<PlainGlobal> {
        let start = reader.original_position();
        let ty = GlobalType::from_reader(reader)?;
        Ok(PlainGlobal {
            fault: NO_FAULT,
            consumed: distance(start, reader.original_position()),
            ty: plain_global_type(ty),
            init: NO_SPAN,
        })
    }

    fn refused(self, error: Error) -> PlainGlobal {
        Globals.refused(error)
    }
}
