// Types of values and fields.
ghost use Rattle.std.specs.Prelude.{◌≡◌};
ghost use Rattle.wasm_c_items.specs.Cursors.{StoresItems, next_by};
ghost use Rattle.wasm_c_items.specs.Readable.{item_over};
ghost use Rattle.wasm_c_items.specs.Values.{plain_field, plain_heap_type, plain_reference_type, plain_value};
ghost use Rattle.wasm_items.specs.RecGroups.{field_type_at};
ghost use Rattle.wasm_items.specs.Values.{heap_type_at, ref_type_at, val_type_at};

use wasm_c_items::{
    Counted, FieldTypes, HeapTypes, PlainField, PlainValue, ReferenceTypes, StoredItems,
    ValueTypes, read_at, store_items,
};

/// Reads a value type: a parameter or a result of a function type.
///
/// # Errors
///
/// `LEADING_BYTE` with `PULLEYNAVY_LEAD_VALUE` at a first byte that begins no value type; and the faults of
/// `pulleynavy_read_heap_type`.
///
/// (Core specification, Binary format, Types, Value Types.)
#[unsafe(no_mangle)]
pub extern "C" fn pulleynavy_read_value_type(bytes: &[u8], offset: u64, features: u32) -> PlainValue
    ensures { result ≡ item_over plain_value val_type_at features offset bytes.now }
{
    read_at(ValueTypes, bytes, offset, features)
}

/// Stores the next value types of a list in `out`, and returns their number.
///
/// # Errors
///
/// An item has the faults of `pulleynavy_read_value_type`; the last one `SIZE_MISMATCH` if bytes follow the list.
#[unsafe(no_mangle)]
pub extern "C" fn pulleynavy_next_value_types(
    items: &mut StoredItems,
    bytes: &[u8],
    out: &mut [PlainValue],
) -> usize
    ensures { StoresItems (next_by plain_value val_type_at bytes.now)
        items.old out.old result items.new out.new }
{
    store_items(Counted(ValueTypes), items, bytes, out)
}

/// Reads a heap type, and returns the type of references to it that are not nullable.
///
/// # Errors
///
/// `LEADING_BYTE` with `PULLEYNAVY_LEAD_HEAP` at the first byte of a negative number; and the faults of
/// `pulleynavy_read_s33`.
///
/// (Core specification, Binary format, Types, Heap Types.)
#[unsafe(no_mangle)]
pub extern "C" fn pulleynavy_read_heap_type(bytes: &[u8], offset: u64, features: u32) -> PlainValue
    ensures { result ≡ item_over plain_heap_type heap_type_at features offset bytes.now }
{
    read_at(HeapTypes, bytes, offset, features)
}

/// Reads a reference type.
///
/// # Errors
///
/// `LEADING_BYTE` with `PULLEYNAVY_LEAD_REFERENCE` at a first byte that begins no reference type; and the faults of
/// `pulleynavy_read_heap_type`.
///
/// (Core specification, Binary format, Types, Reference Types.)
#[unsafe(no_mangle)]
pub extern "C" fn pulleynavy_read_reference_type(
    bytes: &[u8],
    offset: u64,
    features: u32,
) -> PlainValue
    ensures { result ≡ item_over plain_reference_type ref_type_at features offset bytes.now }
{
    read_at(ReferenceTypes, bytes, offset, features)
}

/// Reads a field of a structure, or the element of an array.
///
/// # Errors
///
/// `LEADING_BYTE` with `PULLEYNAVY_LEAD_MUTABILITY` at a byte after the type that is not 0 or 1; and the faults of
/// `pulleynavy_read_value_type`.
///
/// (Core specification, Binary format, Types, Composite Types.)
#[unsafe(no_mangle)]
pub extern "C" fn pulleynavy_read_field_type(bytes: &[u8], offset: u64, features: u32) -> PlainField
    ensures { result ≡ item_over plain_field field_type_at features offset bytes.now }
{
    read_at(FieldTypes, bytes, offset, features)
}

/// Stores the next fields of a list in `out`, and returns their number.
///
/// # Errors
///
/// An item has the faults of `pulleynavy_read_field_type`; the last one `SIZE_MISMATCH` if bytes follow the list.
#[unsafe(no_mangle)]
pub extern "C" fn pulleynavy_next_field_types(
    items: &mut StoredItems,
    bytes: &[u8],
    out: &mut [PlainField],
) -> usize
    ensures { StoresItems (next_by plain_field field_type_at bytes.now)
        items.old out.old result items.new out.new }
{
    store_items(Counted(FieldTypes), items, bytes, out)
}
