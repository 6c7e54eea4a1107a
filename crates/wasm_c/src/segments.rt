// Constant expressions, element segments and data segments.
ghost use Rattle.wasm_c_items.specs.Cursors.{StoresItems, next_by};
ghost use Rattle.std.specs.Prelude.{◌≡◌};
ghost use Rattle.wasm_c_items.specs.Readable.{item_over};
ghost use Rattle.wasm_c_items.specs.Segments.{plain_data, plain_element, plain_expression};
ghost use Rattle.wasm_items.specs.Data.{data_at};
ghost use Rattle.wasm_items.specs.Elements.{element_at};
ghost use Rattle.wasm_items.specs.Init.{expression_at};

use wasm_c_items::{
    Counted, DataSegments, ElementSegments, Expressions, PlainData, PlainElement, PlainExpression,
    StoredItems, read_at, store_items,
};

/// Reads a constant expression, such as an element of a segment. `pulleynavy_read_instruction` reads each of its
/// instructions.
///
/// # Errors
///
/// Those of `pulleynavy_read_instruction`, for any of its instructions.
///
/// (Core specification, Binary format, Instructions, Expressions.)
#[unsafe(no_mangle)]
pub extern "C" fn pulleynavy_read_expression(
    bytes: &[u8],
    offset: u64,
    features: u32,
) -> PlainExpression
    ensures { result ≡ item_over plain_expression expression_at features offset bytes.now }
{
    read_at(Expressions, bytes, offset, features)
}

/// Stores the next constant expressions of a list in `out`, and returns their number. Each begins where the one before
/// it ends.
///
/// # Errors
///
/// An item has the faults of `pulleynavy_read_expression`; the last one `SIZE_MISMATCH` if bytes follow the list.
#[unsafe(no_mangle)]
pub extern "C" fn pulleynavy_next_expressions(
    items: &mut StoredItems,
    bytes: &[u8],
    out: &mut [PlainExpression],
) -> usize
    ensures { StoresItems (next_by plain_expression expression_at bytes.now)
        items.old out.old result items.new out.new }
{
    store_items(Counted(Expressions), items, bytes, out)
}

/// Reads an element segment. Walk its elements with `pulleynavy_next_numbers` or `pulleynavy_next_expressions`: they
/// were checked, and have no fault.
///
/// # Errors
///
/// * `ELEMENT_FLAGS` at the last byte of flags above 7.
/// * `ELEMENT_FUNCTION_ONLY` at an element kind other than that of functions.
/// * `LEADING_BYTE` with `PULLEYNAVY_LEAD_EXTERNAL` at a byte that is no kind of elements.
/// * The faults of `pulleynavy_read_number`, `pulleynavy_read_reference_type` and `pulleynavy_read_expression`.
///
/// ```c
/// // Active, in table 0 at index 0, with the functions 5 and 6.
/// const uint8_t bytes[] = {0, 0x41, 0, 0x0b, 2, 5, 6};
/// pulleynavy_element item = pulleynavy_read_element(bytes, sizeof bytes, 0, PULLEYNAVY_ALL_FEATURES);
/// assert(item.kind == PULLEYNAVY_ELEMENT_ACTIVE && !item.has_expressions && item.count == 2);
/// pulleynavy_items items = pulleynavy_list_init(item.items.at, item.count, PULLEYNAVY_ALL_FEATURES);
/// pulleynavy_number out[4];
/// assert(pulleynavy_next_numbers(&items, bytes + item.items.at, item.items.size, out, 4) == 2 && out[1].value == 6);
/// ```
///
/// (Core specification, Binary format, Modules, Element Section.)
#[unsafe(no_mangle)]
pub extern "C" fn pulleynavy_read_element(bytes: &[u8], offset: u64, features: u32) -> PlainElement
    ensures { result ≡ item_over plain_element element_at features offset bytes.now }
{
    read_at(ElementSegments, bytes, offset, features)
}

/// Stores the next element segments of a list in `out`, and returns their number.
///
/// # Errors
///
/// An item has the faults of `pulleynavy_read_element`; the last one `SIZE_MISMATCH` if bytes follow the list.
#[unsafe(no_mangle)]
pub extern "C" fn pulleynavy_next_elements(
    items: &mut StoredItems,
    bytes: &[u8],
    out: &mut [PlainElement],
) -> usize
    ensures { StoresItems (next_by plain_element element_at bytes.now)
        items.old out.old result items.new out.new }
{
    store_items(Counted(ElementSegments), items, bytes, out)
}

/// Reads a data segment.
///
/// # Errors
///
/// `DATA_FLAGS` at the start of the segment, if the flags are above 2; `UNEXPECTED_EOF` after the size if bytes are
/// missing; and the faults of `pulleynavy_read_number` and `pulleynavy_read_expression`.
///
/// (Core specification, Binary format, Modules, Data Section.)
#[unsafe(no_mangle)]
pub extern "C" fn pulleynavy_read_data(bytes: &[u8], offset: u64, features: u32) -> PlainData
    ensures { result ≡ item_over plain_data data_at features offset bytes.now }
{
    read_at(DataSegments, bytes, offset, features)
}

/// Stores the next data segments of a list in `out`, and returns their number.
///
/// # Errors
///
/// An item has the faults of `pulleynavy_read_data`; the last one `SIZE_MISMATCH` if bytes follow the list.
#[unsafe(no_mangle)]
pub extern "C" fn pulleynavy_next_data(
    items: &mut StoredItems,
    bytes: &[u8],
    out: &mut [PlainData],
) -> usize
    ensures { StoresItems (next_by plain_data data_at bytes.now)
        items.old out.old result items.new out.new }
{
    store_items(Counted(DataSegments), items, bytes, out)
}
