// Producers.
ghost use Rattle.wasm_c_items.specs.Cursors.{StoresItems, next_by};
ghost use Rattle.std.specs.Prelude.{◌≡◌};
ghost use Rattle.wasm_c_items.specs.Producers.{plain_producers_field, plain_producers_value};
ghost use Rattle.wasm_c_items.specs.Readable.{item_over};
ghost use Rattle.wasm_custom.specs.Producers.{field_at, field_value_at};

use wasm_c_items::{
    Counted, PlainProducersField, PlainProducersValue, ProducersFields, ProducersValues,
    StoredItems, read_at, store_items,
};

/// Reads a field of a producers section. Its values are skipped, without checking that they are UTF-8; walk them with
/// `pulleynavy_next_producers_values`.
///
/// # Errors
///
/// `PRODUCERS_FIELD` at the start of the field, if its name is another one than the three; the faults of
/// `pulleynavy_read_text` and `pulleynavy_read_number`; and `STRING_SIZE` and `UNEXPECTED_EOF` for the values.
///
/// ```c
/// const uint8_t bytes[] = {3, 's', 'd', 'k', 1, 1, 'X', 1, '2'};
/// pulleynavy_producers_field field = pulleynavy_read_producers_field(bytes, sizeof bytes, 0, PULLEYNAVY_ALL_FEATURES);
/// assert(field.name.size == 3 && field.count == 1);
/// pulleynavy_items values = pulleynavy_list_init(field.values.at, field.count, PULLEYNAVY_ALL_FEATURES);
/// pulleynavy_producers_value value;
/// const uint8_t *list = bytes + field.values.at;
/// assert(pulleynavy_next_producers_values(&values, list, field.values.size, &value, 1) == 1);
/// assert(list[value.name.at] == 'X' && list[value.version.at] == '2');
/// ```
///
/// (Tool conventions, Producers Section.)
#[unsafe(no_mangle)]
pub extern "C" fn pulleynavy_read_producers_field(
    bytes: &[u8],
    offset: u64,
    features: u32,
) -> PlainProducersField
    ensures { result ≡ item_over plain_producers_field field_at features offset bytes.now }
{
    read_at(ProducersFields, bytes, offset, features)
}

/// Stores the next fields of a producers section in `out`, and returns their number.
///
/// # Errors
///
/// An item has the faults of `pulleynavy_read_producers_field`; the last one `SIZE_MISMATCH` if bytes follow the list.
#[unsafe(no_mangle)]
pub extern "C" fn pulleynavy_next_producers_fields(
    items: &mut StoredItems,
    bytes: &[u8],
    out: &mut [PlainProducersField],
) -> usize
    ensures { StoresItems (next_by plain_producers_field field_at bytes.now)
        items.old out.old result items.new out.new }
{
    store_items(Counted(ProducersFields), items, bytes, out)
}

/// Reads a value of a field of a producers section: a name and a version.
///
/// # Errors
///
/// Those of `pulleynavy_read_text`.
///
/// (Tool conventions, Producers Section.)
#[unsafe(no_mangle)]
pub extern "C" fn pulleynavy_read_producers_value(
    bytes: &[u8],
    offset: u64,
    features: u32,
) -> PlainProducersValue
    ensures { result ≡ item_over plain_producers_value field_value_at features offset bytes.now }
{
    read_at(ProducersValues, bytes, offset, features)
}

/// Stores the next values of a field in `out`, and returns their number.
///
/// # Errors
///
/// An item has the faults of `pulleynavy_read_producers_value`; the last one `SIZE_MISMATCH` if bytes follow the list.
#[unsafe(no_mangle)]
pub extern "C" fn pulleynavy_next_producers_values(
    items: &mut StoredItems,
    bytes: &[u8],
    out: &mut [PlainProducersValue],
) -> usize
    ensures { StoresItems (next_by plain_producers_value field_value_at bytes.now)
        items.old out.old result items.new out.new }
{
    store_items(Counted(ProducersValues), items, bytes, out)
}
