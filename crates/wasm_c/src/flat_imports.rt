// The imports of a section one by one.
ghost use Rattle.std.specs.Prelude.{◌≡◌};
ghost use Rattle.wasm_c_items.specs.Cursors.{StoresItems};
ghost use Rattle.wasm_c_items.specs.FlatImports.{imports_from, next_flat};

use wasm_c_items::{
    EveryImport, PlainEvent, PlainImport, StoredImports, section_imports, store_items,
};

/// Returns a cursor at the first import of an import section, whose event this is.
///
/// The bytes of the list are those of the section's content, from `start` to `end` of the event.
///
/// ```c
/// // A bundle of the module "m" with two functions of type 5, "f" and "g".
/// const uint8_t section[] = {1, 1, 'm', 0, 0x7e, 0, 5, 2, 1, 'f', 1, 'g'};
/// pulleynavy_event event = {.kind = PULLEYNAVY_EVENT_SECTION, .count = 1, .data_offset = 1, .end = sizeof section};
/// pulleynavy_imports imports = pulleynavy_imports_init(&event, PULLEYNAVY_ALL_FEATURES);
/// pulleynavy_import out[4];
/// assert(pulleynavy_next_flat_imports(&imports, section, sizeof section, out, 4) == 2);
/// assert(section[out[0].module_name.at] == 'm' && section[out[1].name.at] == 'g' && out[1].ty.index == 5);
/// ```
#[unsafe(no_mangle)]
pub extern "C" fn pulleynavy_imports_init(event: &PlainEvent, features: u32) -> StoredImports
    ensures { result ≡ imports_from event.now features }
{
    section_imports(event, features)
}

/// Stores the next imports of a section in `out`, including those of bundles one by one, and returns their number.
/// `kind` is 0 in each.
///
/// `bytes` are the content of the section, the same in each call.
///
/// # Errors
///
/// An item has the faults of `pulleynavy_read_import` or, in a bundle, of `pulleynavy_read_bundled_import`. After a
/// malformed import of a bundle, the list continues after the bundle. The last item is `SIZE_MISMATCH` if bytes follow
/// the list.
///
/// (The bundles are of the proposal for compact imports.)
#[unsafe(no_mangle)]
pub extern "C" fn pulleynavy_next_flat_imports(
    imports: &mut StoredImports,
    bytes: &[u8],
    out: &mut [PlainImport],
) -> usize
    // Proved: `pulleynavy_next_flat_imports` stores the imports of a section one by one, those of
    //   bundles too, as calls with room for one would; a malformed import of a bundle is its fault,
    //   and the list continues after the bundle. `pulleynavy_imports_init` begins at the first
    //   [their clauses (`StoresItems`, `next_flat`; `imports_from`)]
    ensures { StoresItems (next_flat bytes.now)
        imports.old out.old result imports.new out.new }
{
    store_items(EveryImport, imports, bytes, out)
}
