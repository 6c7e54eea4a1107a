// What a dynamic linker reads.
ghost use Rattle.wasm_c_items.specs.Cursors.{StoresItems, next_by};
ghost use Rattle.std.specs.Prelude.{◌≡◌};
ghost use Rattle.wasm_c_items.specs.Dylink.{plain_dylink_export, plain_dylink_import, plain_dylink_memory};
ghost use Rattle.wasm_c_items.specs.Readable.{item_over};
ghost use Rattle.wasm_custom.specs.Dylink0.{export_info_at, import_info_at, mem_info_at};

use wasm_c_items::{
    Counted, DylinkExports, DylinkImports, DylinkMemories, PlainDylinkExport, PlainDylinkImport,
    PlainDylinkMemory, StoredItems, read_at, store_items,
};

/// Reads the content of subsection 1 of the section `dylink.0`. Bytes after it are ignored.
///
/// # Errors
///
/// Those of `pulleynavy_read_number`, for any of its four numbers.
///
/// ```c
/// const uint8_t contents[] = {16, 2, 1, 0};
/// pulleynavy_dylink_memory needs = pulleynavy_read_dylink_memory(contents, 4, 0, PULLEYNAVY_ALL_FEATURES);
/// assert(needs.memory_size == 16 && needs.memory_alignment == 2 && needs.table_size == 1);
/// ```
///
/// (Tool conventions, Dynamic Linking, The "dylink.0" Section.)
#[unsafe(no_mangle)]
pub extern "C" fn pulleynavy_read_dylink_memory(
    bytes: &[u8],
    offset: u64,
    features: u32,
) -> PlainDylinkMemory
    ensures { result ≡ item_over plain_dylink_memory mem_info_at features offset bytes.now }
{
    read_at(DylinkMemories, bytes, offset, features)
}

/// Reads an export of subsection 3 of the section `dylink.0`, whose content is a count and as many exports.
///
/// # Errors
///
/// Those of `pulleynavy_read_text` and `pulleynavy_read_number`.
///
/// (Tool conventions, Dynamic Linking, The "dylink.0" Section.)
#[unsafe(no_mangle)]
pub extern "C" fn pulleynavy_read_dylink_export(
    bytes: &[u8],
    offset: u64,
    features: u32,
) -> PlainDylinkExport
    ensures { result ≡ item_over plain_dylink_export export_info_at features offset bytes.now }
{
    read_at(DylinkExports, bytes, offset, features)
}

/// Stores the next exports of a list in `out`, and returns their number.
///
/// # Errors
///
/// An item has the faults of `pulleynavy_read_dylink_export`; the last one `SIZE_MISMATCH` if bytes follow the list.
#[unsafe(no_mangle)]
pub extern "C" fn pulleynavy_next_dylink_exports(
    items: &mut StoredItems,
    bytes: &[u8],
    out: &mut [PlainDylinkExport],
) -> usize
    ensures { StoresItems (next_by plain_dylink_export export_info_at bytes.now)
        items.old out.old result items.new out.new }
{
    store_items(Counted(DylinkExports), items, bytes, out)
}

/// Reads an import of subsection 4 of the section `dylink.0`, whose content is a count and as many imports.
///
/// # Errors
///
/// Those of `pulleynavy_read_text` and `pulleynavy_read_number`.
///
/// (Tool conventions, Dynamic Linking, The "dylink.0" Section.)
#[unsafe(no_mangle)]
pub extern "C" fn pulleynavy_read_dylink_import(
    bytes: &[u8],
    offset: u64,
    features: u32,
) -> PlainDylinkImport
    ensures { result ≡ item_over plain_dylink_import import_info_at features offset bytes.now }
{
    read_at(DylinkImports, bytes, offset, features)
}

/// Stores the next imports of a list in `out`, and returns their number.
///
/// # Errors
///
/// An item has the faults of `pulleynavy_read_dylink_import`; the last one `SIZE_MISMATCH` if bytes follow the list.
#[unsafe(no_mangle)]
pub extern "C" fn pulleynavy_next_dylink_imports(
    items: &mut StoredItems,
    bytes: &[u8],
    out: &mut [PlainDylinkImport],
) -> usize
    ensures { StoresItems (next_by plain_dylink_import import_info_at bytes.now)
        items.old out.old result items.new out.new }
{
    store_items(Counted(DylinkImports), items, bytes, out)
}
