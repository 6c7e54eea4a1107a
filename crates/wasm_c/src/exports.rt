// Exports.
ghost use Rattle.wasm_c_items.specs.Cursors.{StoresItems, next_by};
ghost use Rattle.std.specs.Prelude.{◌≡◌};
ghost use Rattle.wasm_c_items.specs.Exports.{plain_export};
ghost use Rattle.wasm_c_items.specs.Readable.{item_over};
ghost use Rattle.wasm_items.specs.Exports.{export_at};

use wasm_c_items::{Counted, Exports, PlainExport, StoredItems, read_at, store_items};

/// Reads an export.
///
/// # Errors
///
/// * `LEADING_BYTE` with `PULLEYNAVY_LEAD_EXTERNAL` at a byte that is no kind of exports.
/// * `EXACT_EXPORT` at the offset after the kind, if it is that of exact functions.
/// * The faults of `pulleynavy_read_name` and, for the index, of `pulleynavy_read_number`.
///
/// ```c
/// const uint8_t bytes[] = {3, 'a', 'd', 'd', 0, 5};
/// pulleynavy_export item = pulleynavy_read_export(bytes, sizeof bytes, 0, PULLEYNAVY_ALL_FEATURES);
/// assert(!item.fault.kind && item.consumed == 6);
/// assert(item.kind == PULLEYNAVY_EXTERNAL_FUNC && item.index == 5);
/// assert(item.name.size == 3 && !memcmp(bytes + item.name.at, "add", 3));
/// ```
///
/// (Core specification, Binary format, Modules, Export Section.)
#[unsafe(no_mangle)]
pub extern "C" fn pulleynavy_read_export(bytes: &[u8], offset: u64, features: u32) -> PlainExport
    // Proved: a `pulleynavy_read_` call returns what the definition of the item, or of its head
    //   before its lists, says at the place: value by value, with how many bytes it consumes and
    //   where its texts and lists are; or the definition's fault, and `OffsetRange` if the bytes
    //   pass the largest offset. After a fault all other values are 0 [the clause of each
    //   (`item_over plain_export export_at` and so on)]
    ensures { result ≡ item_over plain_export export_at features offset bytes.now }
{
    read_at(Exports, bytes, offset, features)
}

/// Stores the next exports of a list in `out`, and returns their number.
///
/// # Errors
///
/// An item has the faults of `pulleynavy_read_export`; the last one `SIZE_MISMATCH` if bytes follow the list.
#[unsafe(no_mangle)]
pub extern "C" fn pulleynavy_next_exports(
    items: &mut StoredItems,
    bytes: &[u8],
    out: &mut [PlainExport],
) -> usize
    // Proved: a `pulleynavy_next_` call with room for *n* items stores what *n* calls for one
    //   return, up to the end of the list, leaves the rest of the array as it was, returns how many
    //   it stored, and leaves the cursor where those calls do [the clause of each (`StoresItems`)]
    // Proved: one such call returns the next item and moves past it, or its fault, which ends the
    //   list; after the announced items it returns `SizeMismatch` if bytes remain, and nothing
    //   after that or after a fault. This holds for every bit pattern of a cursor [the same
    //   (`next_by`: `item_by`, `end_by`)]
    ensures { StoresItems (next_by plain_export export_at bytes.now)
        items.old out.old result items.new out.new }
{
    store_items(Counted(Exports), items, bytes, out)
}
