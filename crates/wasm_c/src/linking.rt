// What a linker reads.
ghost use Rattle.wasm_c_items.specs.Cursors.{StoresItems, next_by};
ghost use Rattle.std.specs.Prelude.{◌≡◌};
ghost use Rattle.wasm_c_items.specs.Linking.{plain_comdat, plain_comdat_symbol, plain_init_function, plain_linking_segment};
ghost use Rattle.wasm_c_items.specs.Readable.{item_over};
ghost use Rattle.wasm_custom.specs.Linking.{comdat_at, comdat_symbol_at, init_function_at, segment_at};

use wasm_c_items::{
    ComdatSymbols, Comdats, Counted, InitFunctions, LinkingSegments, PlainComdat,
    PlainComdatSymbol, PlainInitFunction, PlainLinkingSegment, StoredItems, read_at, store_items,
};

/// Reads a data segment of subsection 5 of the section `linking`, whose content is a count and as many segments.
///
/// # Errors
///
/// Those of `pulleynavy_read_text` and `pulleynavy_read_number`.
///
/// (Tool conventions, Linking, Segment Info Subsection.)
#[unsafe(no_mangle)]
pub extern "C" fn pulleynavy_read_linking_segment(
    bytes: &[u8],
    offset: u64,
    features: u32,
) -> PlainLinkingSegment
    ensures { result ≡ item_over plain_linking_segment segment_at features offset bytes.now }
{
    read_at(LinkingSegments, bytes, offset, features)
}

/// Stores the next segments of a list in `out`, and returns their number.
///
/// # Errors
///
/// An item has the faults of `pulleynavy_read_linking_segment`; the last one `SIZE_MISMATCH` if bytes follow the list.
#[unsafe(no_mangle)]
pub extern "C" fn pulleynavy_next_linking_segments(
    items: &mut StoredItems,
    bytes: &[u8],
    out: &mut [PlainLinkingSegment],
) -> usize
    ensures { StoresItems (next_by plain_linking_segment segment_at bytes.now)
        items.old out.old result items.new out.new }
{
    store_items(Counted(LinkingSegments), items, bytes, out)
}

/// Reads a function of subsection 6 of the section `linking`, whose content is a count and as many functions to call at
/// startup.
///
/// # Errors
///
/// Those of `pulleynavy_read_number`.
///
/// (Tool conventions, Linking, Init Functions Subsection.)
#[unsafe(no_mangle)]
pub extern "C" fn pulleynavy_read_init_function(
    bytes: &[u8],
    offset: u64,
    features: u32,
) -> PlainInitFunction
    ensures { result ≡ item_over plain_init_function init_function_at features offset bytes.now }
{
    read_at(InitFunctions, bytes, offset, features)
}

/// Stores the next functions of a list in `out`, and returns their number.
///
/// # Errors
///
/// An item has the faults of `pulleynavy_read_init_function`; the last one `SIZE_MISMATCH` if bytes follow the list.
#[unsafe(no_mangle)]
pub extern "C" fn pulleynavy_next_init_functions(
    items: &mut StoredItems,
    bytes: &[u8],
    out: &mut [PlainInitFunction],
) -> usize
    ensures { StoresItems (next_by plain_init_function init_function_at bytes.now)
        items.old out.old result items.new out.new }
{
    store_items(Counted(InitFunctions), items, bytes, out)
}

/// Reads a comdat of subsection 7 of the section `linking`, whose content is a count and as many comdats.
///
/// Walk the symbols with `pulleynavy_next_comdat_symbols`: they were checked, and have no fault.
///
/// # Errors
///
/// Those of `pulleynavy_read_text`, `pulleynavy_read_number` and `pulleynavy_read_comdat_symbol`.
///
/// (Tool conventions, Linking, COMDAT Subsection.)
#[unsafe(no_mangle)]
pub extern "C" fn pulleynavy_read_comdat(bytes: &[u8], offset: u64, features: u32) -> PlainComdat
    ensures { result ≡ item_over plain_comdat comdat_at features offset bytes.now }
{
    read_at(Comdats, bytes, offset, features)
}

/// Stores the next comdats of a list in `out`, and returns their number.
///
/// # Errors
///
/// An item has the faults of `pulleynavy_read_comdat`; the last one `SIZE_MISMATCH` if bytes follow the list.
#[unsafe(no_mangle)]
pub extern "C" fn pulleynavy_next_comdats(
    items: &mut StoredItems,
    bytes: &[u8],
    out: &mut [PlainComdat],
) -> usize
    ensures { StoresItems (next_by plain_comdat comdat_at bytes.now)
        items.old out.old result items.new out.new }
{
    store_items(Counted(Comdats), items, bytes, out)
}

/// Reads a symbol of a comdat.
///
/// # Errors
///
/// `LEADING_BYTE` with `PULLEYNAVY_LEAD_COMDAT_SYMBOL` at a kind above 5; `UNEXPECTED_EOF`; and the faults of
/// `pulleynavy_read_number`.
///
/// (Tool conventions, Linking, COMDAT Subsection.)
#[unsafe(no_mangle)]
pub extern "C" fn pulleynavy_read_comdat_symbol(
    bytes: &[u8],
    offset: u64,
    features: u32,
) -> PlainComdatSymbol
    ensures { result ≡ item_over plain_comdat_symbol comdat_symbol_at features offset bytes.now }
{
    read_at(ComdatSymbols, bytes, offset, features)
}

/// Stores the next symbols of a comdat in `out`, and returns their number.
///
/// # Errors
///
/// An item has the faults of `pulleynavy_read_comdat_symbol`; the last one `SIZE_MISMATCH` if bytes follow the list.
#[unsafe(no_mangle)]
pub extern "C" fn pulleynavy_next_comdat_symbols(
    items: &mut StoredItems,
    bytes: &[u8],
    out: &mut [PlainComdatSymbol],
) -> usize
    ensures { StoresItems (next_by plain_comdat_symbol comdat_symbol_at bytes.now)
        items.old out.old result items.new out.new }
{
    store_items(Counted(ComdatSymbols), items, bytes, out)
}
