// Features that a module uses.
ghost use Rattle.std.specs.Prelude.{◌≡◌};
ghost use Rattle.wasm_custom.specs.TargetFeatures.{target_feature_at};
ghost use Rattle.wasm_c_items.specs.Cursors.{StoresItems, next_by};
ghost use Rattle.wasm_c_items.specs.Readable.{item_over};
ghost use Rattle.wasm_c_items.specs.TargetFeatures.{plain_target_feature};

use wasm_c_items::{
    Counted, PlainTargetFeature, StoredItems, TargetFeatures, read_at, store_items,
};

/// Reads a feature of a `target_features` section: a byte that says how the module uses it, and its name.
///
/// # Errors
///
/// `UNEXPECTED_EOF` if the byte is missing, and the faults of `pulleynavy_read_text`.
///
/// ```c
/// const uint8_t bytes[] = {'+', 8, 's', 'i', 'g', 'n', '-', 'e', 'x', 't'};
/// pulleynavy_target_feature feature = pulleynavy_read_target_feature(bytes, sizeof bytes, 0, PULLEYNAVY_ALL_FEATURES);
/// assert(feature.prefix == '+' && feature.name.at == 2 && feature.name.size == 8);
/// ```
///
/// (Tool conventions, Linking, Target Features Section.)
#[unsafe(no_mangle)]
pub extern "C" fn pulleynavy_read_target_feature(
    bytes: &[u8],
    offset: u64,
    features: u32,
) -> PlainTargetFeature
    ensures { result ≡ item_over plain_target_feature target_feature_at features offset bytes.now }
{
    read_at(TargetFeatures, bytes, offset, features)
}

/// Stores the next features of a `target_features` section in `out`, and returns their number. The data of the section
/// begins with their count: pass it to `pulleynavy_items_init`.
///
/// # Errors
///
/// An item has the faults of `pulleynavy_read_target_feature`; the last one `SIZE_MISMATCH` if bytes follow the list.
#[unsafe(no_mangle)]
pub extern "C" fn pulleynavy_next_target_features(
    items: &mut StoredItems,
    bytes: &[u8],
    out: &mut [PlainTargetFeature],
) -> usize
    ensures { StoresItems (next_by plain_target_feature target_feature_at bytes.now)
        items.old out.old result items.new out.new }
{
    store_items(Counted(TargetFeatures), items, bytes, out)
}
