// Relocations.
ghost use Rattle.wasm_c_items.specs.Cursors.{StoresItems, next_by};
ghost use Rattle.std.specs.Prelude.{◌≡◌};
ghost use Rattle.wasm_c_items.specs.Readable.{item_over};
ghost use Rattle.wasm_c_items.specs.Relocations.{plain_relocation};
ghost use Rattle.wasm_custom.specs.Reloc.{relocation_at};

use wasm_c_items::{Counted, PlainRelocation, Relocations, StoredItems, read_at, store_items};

/// Reads a relocation.
///
/// The data of a section `reloc.*` is the index of the relocated section, the count of relocations, and the
/// relocations. `pulleynavy_read_number` reads the first two.
///
/// # Errors
///
/// `LEADING_BYTE` with `PULLEYNAVY_LEAD_RELOC` at a type above 26; `UNEXPECTED_EOF`; and the faults of
/// `pulleynavy_read_number`, `pulleynavy_read_s32` and `pulleynavy_read_s64`.
///
/// ```c
/// // The address of symbol 2 plus 8, at offset 6.
/// const uint8_t bytes[] = {3, 6, 2, 8};
/// pulleynavy_relocation item = pulleynavy_read_relocation(bytes, 4, 0, PULLEYNAVY_ALL_FEATURES);
/// assert(item.kind == PULLEYNAVY_RELOCATION_MEMORY_ADDR_LEB && item.offset == 6 && item.extent == 5 && item.addend == 8);
/// ```
///
/// (Tool conventions, Linking, Relocation Sections.)
#[unsafe(no_mangle)]
pub extern "C" fn pulleynavy_read_relocation(
    bytes: &[u8],
    offset: u64,
    features: u32,
) -> PlainRelocation
    ensures { result ≡ item_over plain_relocation relocation_at features offset bytes.now }
{
    read_at(Relocations, bytes, offset, features)
}

/// Stores the next relocations of a list in `out`, and returns their number.
///
/// # Errors
///
/// An item has the faults of `pulleynavy_read_relocation`; the last one `SIZE_MISMATCH` if bytes follow the list.
#[unsafe(no_mangle)]
pub extern "C" fn pulleynavy_next_relocations(
    items: &mut StoredItems,
    bytes: &[u8],
    out: &mut [PlainRelocation],
) -> usize
    ensures { StoresItems (next_by plain_relocation relocation_at bytes.now)
        items.old out.old result items.new out.new }
{
    store_items(Counted(Relocations), items, bytes, out)
}
