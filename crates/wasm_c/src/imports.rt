// Imports, and names.
ghost use Rattle.std.specs.Prelude.{None, Some, ◌≡◌};
ghost use Rattle.wasm_base.specs.Name.{name_limit, text_at};
ghost use Rattle.wasm_c_items.specs.Cursors.{StoresItems, next_by};
ghost use Rattle.wasm_c_items.specs.Imports.{bundled_over, plain_import, plain_import_item, plain_name};
ghost use Rattle.wasm_c_items.specs.Readable.{item_over};
ghost use Rattle.wasm_items.specs.Imports.{bundle_at, item_at};

use wasm_c_items::{
    BundledItems, Bundles, Counted, Names, OF_TYPE, PlainImport, PlainImportItem, PlainName,
    StoredItems, Texts, TypedNames, read_at, store_items,
};

/// Reads an item of an import section: an import, or a bundle of imports from one module.
///
/// The imports of a bundle are skipped, without checking that their names are UTF-8. `pulleynavy_read_bundled_import`
/// reads each. To read all imports one by one, use `pulleynavy_next_flat_imports`.
///
/// # Errors
///
/// * `COMPACT_7F` or `COMPACT_7E` at the byte that begins a bundle, without `PULLEYNAVY_FEATURE_COMPACT_IMPORTS`.
/// * `LEADING_BYTE` with `PULLEYNAVY_LEAD_EXTERNAL` at a byte that is no kind of imports.
/// * The faults of `pulleynavy_read_name`, and of the types of tables, memories, globals and tags.
///
/// (Core specification, Binary format, Modules, Import Section; the bundles are of the proposal for compact imports.)
#[unsafe(no_mangle)]
pub extern "C" fn pulleynavy_read_import(bytes: &[u8], offset: u64, features: u32) -> PlainImport
    ensures { result ≡ item_over plain_import bundle_at features offset bytes.now }
{
    read_at(Bundles, bytes, offset, features)
}

/// Stores the next items of an import section, imports and bundles, in `out`, and returns their number.
///
/// # Errors
///
/// An item has the faults of `pulleynavy_read_import`; the last one `SIZE_MISMATCH` if bytes follow the list.
#[unsafe(no_mangle)]
pub extern "C" fn pulleynavy_next_imports(
    items: &mut StoredItems,
    bytes: &[u8],
    out: &mut [PlainImport],
) -> usize
    ensures { StoresItems (next_by plain_import bundle_at bytes.now)
        items.old out.old result items.new out.new }
{
    store_items(Counted(Bundles), items, bytes, out)
}

/// Reads an import of a bundle of kind 1: a name and a type.
///
/// # Errors
///
/// Those of `pulleynavy_read_import`, except `COMPACT_7F` and `COMPACT_7E`.
///
/// (The proposal for compact imports.)
#[unsafe(no_mangle)]
pub extern "C" fn pulleynavy_read_import_item(
    bytes: &[u8],
    offset: u64,
    features: u32,
) -> PlainImportItem
    ensures { result ≡ item_over plain_import_item item_at features offset bytes.now }
{
    read_at(BundledItems, bytes, offset, features)
}

/// Reads a name of at most 100,000 bytes: a size, a u32, and that many bytes.
///
/// # Errors
///
/// `STRING_SIZE`, `MALFORMED_UTF8`, `UNEXPECTED_EOF` after the size, and the faults of `pulleynavy_read_number` for the
/// size.
///
/// (Core specification, Binary format, Values, Names.)
#[unsafe(no_mangle)]
pub extern "C" fn pulleynavy_read_name(bytes: &[u8], offset: u64, features: u32) -> PlainName
    ensures { result ≡ item_over plain_name (text_at (Some name_limit)) features offset bytes.now }
{
    read_at(Names, bytes, offset, features)
}

/// Stores the next names of a list in `out`, and returns their number.
///
/// # Errors
///
/// An item has the faults of `pulleynavy_read_name`; the last one `SIZE_MISMATCH` if bytes follow the list.
#[unsafe(no_mangle)]
pub extern "C" fn pulleynavy_next_names(
    items: &mut StoredItems,
    bytes: &[u8],
    out: &mut [PlainName],
) -> usize
    ensures { StoresItems (next_by plain_name (text_at (Some name_limit)) bytes.now)
        items.old out.old result items.new out.new }
{
    store_items(Counted(Names), items, bytes, out)
}

/// Reads a name of any length, as the sections `producers`, `linking` and `dylink.0` have them.
///
/// # Errors
///
/// Those of `pulleynavy_read_name`, except `STRING_SIZE`.
///
/// (Core specification, Binary format, Values, Names.)
#[unsafe(no_mangle)]
pub extern "C" fn pulleynavy_read_text(bytes: &[u8], offset: u64, features: u32) -> PlainName
    ensures { result ≡ item_over plain_name (text_at None) features offset bytes.now }
{
    read_at(Texts, bytes, offset, features)
}

/// Stores the next texts of a list in `out`, and returns their number.
///
/// # Errors
///
/// An item has the faults of `pulleynavy_read_text`; the last one `SIZE_MISMATCH` if bytes follow the list.
#[unsafe(no_mangle)]
pub extern "C" fn pulleynavy_next_texts(
    items: &mut StoredItems,
    bytes: &[u8],
    out: &mut [PlainName],
) -> usize
    ensures { StoresItems (next_by plain_name (text_at None) bytes.now)
        items.old out.old result items.new out.new }
{
    store_items(Counted(Texts), items, bytes, out)
}

/// Reads an import of this bundle, which `pulleynavy_read_import` or `pulleynavy_next_imports` returned.
///
/// For a bundle of kind 2 it reads a name, and the type is that of the bundle.
///
/// # Errors
///
/// Those of `pulleynavy_read_import_item`; for a bundle of kind 2 those of `pulleynavy_read_name`.
///
/// (The proposal for compact imports.)
#[unsafe(no_mangle)]
pub extern "C" fn pulleynavy_read_bundled_import(
    bundle: &PlainImport,
    bytes: &[u8],
    offset: u64,
    features: u32,
) -> PlainImportItem
    // Proved: `pulleynavy_read_bundled_import` reads the next import of a bundle of either kind; if
    //   the bundle has one type, that is the import's
    ensures { result ≡ bundled_over bundle.now features offset bytes.now }
{
    if bundle.kind == OF_TYPE {
        return read_at(TypedNames { ty: bundle.ty }, bytes, offset, features);
    }
    read_at(BundledItems, bytes, offset, features)
}
