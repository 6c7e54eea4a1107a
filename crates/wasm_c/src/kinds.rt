// Tables, memories, tags and globals.
ghost use Rattle.std.specs.Prelude.{◌≡◌};
ghost use Rattle.wasm_c_items.specs.Cursors.{StoresItems, next_by};
ghost use Rattle.wasm_c_items.specs.Kinds.{plain_global, plain_global_alone, plain_memory, plain_table, plain_table_alone, plain_tag};
ghost use Rattle.wasm_c_items.specs.Readable.{item_over};
ghost use Rattle.wasm_items.specs.Globals.{global_at, global_type_at};
ghost use Rattle.wasm_items.specs.Memories.{memory_type_at};
ghost use Rattle.wasm_items.specs.Tables.{table_at, table_type_at};
ghost use Rattle.wasm_items.specs.Tags.{tag_type_at};

use wasm_c_items::{
    Counted, GlobalTypes, Globals, Memories, PlainGlobal, PlainMemory, PlainTable, PlainTag,
    StoredItems, TableTypes, Tables, Tags, read_at, store_items,
};

/// Reads a table. With `PULLEYNAVY_FEATURE_MEMORY64` limits are 64-bit numbers, without it 32-bit numbers.
///
/// # Errors
///
/// * `TABLE_ENCODING` at a byte after 0x40 that is not 0.
/// * `TABLE_FLAGS` at flags above 7.
/// * The faults of `pulleynavy_read_reference_type`, of the limits (`pulleynavy_read_number` or `pulleynavy_read_u64`)
///   and of `pulleynavy_read_expression`.
///
/// (Core specification, Binary format, Modules, Table Section.)
#[unsafe(no_mangle)]
pub extern "C" fn pulleynavy_read_table(bytes: &[u8], offset: u64, features: u32) -> PlainTable
    ensures { result ≡ item_over plain_table table_at features offset bytes.now }
{
    read_at(Tables, bytes, offset, features)
}

/// Stores the next tables of a list in `out`, and returns their number.
///
/// # Errors
///
/// An item has the faults of `pulleynavy_read_table`; the last one `SIZE_MISMATCH` if bytes follow the list.
#[unsafe(no_mangle)]
pub extern "C" fn pulleynavy_next_tables(
    items: &mut StoredItems,
    bytes: &[u8],
    out: &mut [PlainTable],
) -> usize
    ensures { StoresItems (next_by plain_table table_at bytes.now)
        items.old out.old result items.new out.new }
{
    store_items(Counted(Tables), items, bytes, out)
}

/// Reads a memory. With `PULLEYNAVY_FEATURE_MEMORY64` limits are 64-bit numbers, without it 32-bit numbers.
///
/// # Errors
///
/// * `MEMORY_FLAGS` at flags above 15.
/// * `PAGE_SIZE` at the flags, if the page size is 2^64 bytes or more.
/// * `UNEXPECTED_EOF`, and the faults of the limits (`pulleynavy_read_number` or `pulleynavy_read_u64`).
///
/// (Core specification, Binary format, Modules, Memory Section.)
#[unsafe(no_mangle)]
pub extern "C" fn pulleynavy_read_memory(bytes: &[u8], offset: u64, features: u32) -> PlainMemory
    ensures { result ≡ item_over plain_memory memory_type_at features offset bytes.now }
{
    read_at(Memories, bytes, offset, features)
}

/// Stores the next memories of a list in `out`, and returns their number.
///
/// # Errors
///
/// An item has the faults of `pulleynavy_read_memory`; the last one `SIZE_MISMATCH` if bytes follow the list.
#[unsafe(no_mangle)]
pub extern "C" fn pulleynavy_next_memories(
    items: &mut StoredItems,
    bytes: &[u8],
    out: &mut [PlainMemory],
) -> usize
    ensures { StoresItems (next_by plain_memory memory_type_at bytes.now)
        items.old out.old result items.new out.new }
{
    store_items(Counted(Memories), items, bytes, out)
}

/// Reads a tag.
///
/// # Errors
///
/// `TAG_ATTRIBUTES` at a first byte other than 0; `UNEXPECTED_EOF`; and the faults of `pulleynavy_read_number` for the
/// index.
///
/// (Core specification, Binary format, Modules, Tag Section.)
#[unsafe(no_mangle)]
pub extern "C" fn pulleynavy_read_tag(bytes: &[u8], offset: u64, features: u32) -> PlainTag
    ensures { result ≡ item_over plain_tag tag_type_at features offset bytes.now }
{
    read_at(Tags, bytes, offset, features)
}

/// Stores the next tags of a list in `out`, and returns their number.
///
/// # Errors
///
/// An item has the faults of `pulleynavy_read_tag`; the last one `SIZE_MISMATCH` if bytes follow the list.
#[unsafe(no_mangle)]
pub extern "C" fn pulleynavy_next_tags(
    items: &mut StoredItems,
    bytes: &[u8],
    out: &mut [PlainTag],
) -> usize
    ensures { StoresItems (next_by plain_tag tag_type_at bytes.now)
        items.old out.old result items.new out.new }
{
    store_items(Counted(Tags), items, bytes, out)
}

/// Reads a global.
///
/// # Errors
///
/// `GLOBAL_FLAGS` at flags above 3; `UNEXPECTED_EOF`; and the faults of `pulleynavy_read_value_type` and
/// `pulleynavy_read_expression`.
///
/// (Core specification, Binary format, Modules, Global Section.)
#[unsafe(no_mangle)]
pub extern "C" fn pulleynavy_read_global(bytes: &[u8], offset: u64, features: u32) -> PlainGlobal
    ensures { result ≡ item_over plain_global global_at features offset bytes.now }
{
    read_at(Globals, bytes, offset, features)
}

/// Stores the next globals of a list in `out`, and returns their number.
///
/// # Errors
///
/// An item has the faults of `pulleynavy_read_global`; the last one `SIZE_MISMATCH` if bytes follow the list.
#[unsafe(no_mangle)]
pub extern "C" fn pulleynavy_next_globals(
    items: &mut StoredItems,
    bytes: &[u8],
    out: &mut [PlainGlobal],
) -> usize
    ensures { StoresItems (next_by plain_global global_at bytes.now)
        items.old out.old result items.new out.new }
{
    store_items(Counted(Globals), items, bytes, out)
}

/// Reads a table type, as a table without an expression.
///
/// # Errors
///
/// Those of `pulleynavy_read_table`, except `TABLE_ENCODING` and those of the expression.
///
/// (Core specification, Binary format, Types, Table Types.)
#[unsafe(no_mangle)]
pub extern "C" fn pulleynavy_read_table_type(bytes: &[u8], offset: u64, features: u32) -> PlainTable
    ensures { result ≡ item_over plain_table_alone table_type_at features offset bytes.now }
{
    read_at(TableTypes, bytes, offset, features)
}

/// Reads a global type, as a global without an expression.
///
/// # Errors
///
/// Those of `pulleynavy_read_global`, except those of the expression.
///
/// (Core specification, Binary format, Types, Global Types.)
#[unsafe(no_mangle)]
pub extern "C" fn pulleynavy_read_global_type(
    bytes: &[u8],
    offset: u64,
    features: u32,
) -> PlainGlobal
    ensures { result ≡ item_over plain_global_alone global_type_at features offset bytes.now }
{
    read_at(GlobalTypes, bytes, offset, features)
}
