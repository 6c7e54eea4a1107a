// Cursors over lists.
ghost use Rattle.std.specs.Prelude.{◌≡◌, ◌-◌};
ghost use Rattle.wasm_c_items.specs.declared.cursors.StoredItems.{StoredItems};
ghost use Rattle.wasm_c_items.specs.Cursors.{starting};

use wasm_c_items::{PlainEvent, StoredItems, section_items, starting};

/// Returns a cursor at the first item of a section that begins with a count, or at the data of a custom section.
///
/// `event` is the event of the section. The bytes of the list are those of the section's content, from `start` to `end`
/// of the event.
///
/// ```c
/// // The export "f" of function 5.
/// const uint8_t bytes[] = {0, 'a', 's', 'm', 1, 0, 0, 0, 7, 5, 1, 1, 'f', 0, 5};
/// pulleynavy_parser parser = pulleynavy_parser_init(0, PULLEYNAVY_ALL_FEATURES);
/// size_t at = pulleynavy_parse(&parser, bytes, sizeof bytes, true).consumed;
/// pulleynavy_event event = pulleynavy_parse(&parser, bytes + at, sizeof bytes - at, true);
/// const uint8_t *section = bytes + at + event.at;
/// pulleynavy_items items = pulleynavy_items_init(&event, PULLEYNAVY_ALL_FEATURES);
/// pulleynavy_export out[4];
/// assert(pulleynavy_next_exports(&items, section, event.end - event.start, out, 4) == 1);
/// assert(out[0].index == 5 && out[0].name.size == 1 && section[out[0].name.at] == 'f');
/// assert(pulleynavy_next_exports(&items, section, event.end - event.start, out, 4) == 0);
/// ```
#[unsafe(no_mangle)]
pub extern "C" fn pulleynavy_items_init(event: &PlainEvent, features: u32) -> StoredItems
    // Proved: `pulleynavy_items_init` returns a cursor at the first item of a section, and
    //   `pulleynavy_list_init` one at an offset [their clauses (`starting`)]
    ensures { result ≡ starting event.now.data_offset
        (event.now.data_offset - event.now.start) event.now.count features }
{
    section_items(event, features)
}

/// Returns a cursor over a list of `count` items, of which the first is at `offset` of the stream.
///
/// Use it for a list inside an item or a subsection, with the count and the span that the item has. The bytes of the
/// list begin with the first item. A list of subsections has no count: pass 0.
///
/// ```c
/// const uint8_t bytes[] = {2, 5, 7};
/// pulleynavy_number count = pulleynavy_read_number(bytes, 3, 100, PULLEYNAVY_ALL_FEATURES), out[4];
/// pulleynavy_items items = pulleynavy_list_init(100 + count.consumed, count.value, PULLEYNAVY_ALL_FEATURES);
/// assert(pulleynavy_next_numbers(&items, bytes + count.consumed, 3 - count.consumed, out, 4) == 2);
/// assert(out[0].value == 5 && out[1].value == 7);
/// ```
#[unsafe(no_mangle)]
pub extern "C" fn pulleynavy_list_init(offset: u64, count: u32, features: u32) -> StoredItems
    ensures { result ≡ starting offset 0 count features }
{
    starting(offset, count, features)
}
