// Symbols.
ghost use Rattle.wasm_c_items.specs.Cursors.{StoresItems, next_by};
ghost use Rattle.std.specs.Prelude.{◌≡◌};
ghost use Rattle.wasm_c_items.specs.Readable.{item_over};
ghost use Rattle.wasm_c_items.specs.Symbols.{linking_version_at, plain_symbol};
ghost use Rattle.wasm_c_items.specs.Numbers.{plain_number};
ghost use Rattle.wasm_custom.specs.Linking.{symbol_at};

use wasm_c_items::{
    Counted, LinkingVersions, PlainNumber, PlainSymbol, StoredItems, Symbols, read_at, store_items,
};

/// Reads the version at the start of the data of a section `linking`, which has to be 2. The subsections follow.
///
/// # Errors
///
/// `LINKING_VERSION` at the version, which is the number of the fault, if it is not 2; and the faults of
/// `pulleynavy_read_number`.
///
/// ```c
/// // Version 2, and a subsection with the function symbol 4 to call at startup.
/// const uint8_t data[] = {2, 6, 3, 1, 10, 4};
/// pulleynavy_number version = pulleynavy_read_linking_version(data, sizeof data, 0, PULLEYNAVY_ALL_FEATURES);
/// assert(version.value == 2);
/// pulleynavy_items items = pulleynavy_list_init(version.consumed, 0, PULLEYNAVY_ALL_FEATURES);
/// pulleynavy_subsection part;
/// assert(pulleynavy_next_subsections(&items, data + 1, sizeof data - 1, &part, 1) == 1);
/// assert(part.id == PULLEYNAVY_LINKING_INIT_FUNCS && part.contents.size == 3);
/// ```
///
/// (Tool conventions, Linking, Linking Metadata Section.)
#[unsafe(no_mangle)]
pub extern "C" fn pulleynavy_read_linking_version(
    bytes: &[u8],
    offset: u64,
    features: u32,
) -> PlainNumber
    ensures { result ≡ item_over plain_number linking_version_at features offset bytes.now }
{
    read_at(LinkingVersions, bytes, offset, features)
}

/// Reads a symbol of subsection 8 of the section `linking`, whose content is a count and as many symbols.
///
/// # Errors
///
/// `LEADING_BYTE` with `PULLEYNAVY_LEAD_SYMBOL` at a kind above 5, if the flags after it can be read; `UNEXPECTED_EOF`;
/// and the faults of `pulleynavy_read_number` and `pulleynavy_read_text`.
///
/// (Tool conventions, Linking, Symbol Table Subsection.)
#[unsafe(no_mangle)]
pub extern "C" fn pulleynavy_read_symbol(bytes: &[u8], offset: u64, features: u32) -> PlainSymbol
    ensures { result ≡ item_over plain_symbol symbol_at features offset bytes.now }
{
    read_at(Symbols, bytes, offset, features)
}

/// Stores the next symbols of a list in `out`, and returns their number.
///
/// # Errors
///
/// An item has the faults of `pulleynavy_read_symbol`; the last one `SIZE_MISMATCH` if bytes follow the list.
#[unsafe(no_mangle)]
pub extern "C" fn pulleynavy_next_symbols(
    items: &mut StoredItems,
    bytes: &[u8],
    out: &mut [PlainSymbol],
) -> usize
    ensures { StoresItems (next_by plain_symbol symbol_at bytes.now)
        items.old out.old result items.new out.new }
{
    store_items(Counted(Symbols), items, bytes, out)
}
