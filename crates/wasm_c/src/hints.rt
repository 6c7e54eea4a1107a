// Branch hints.
ghost use Rattle.wasm_c_items.specs.Cursors.{StoresItems, next_by};
ghost use Rattle.std.specs.Prelude.{◌≡◌};
ghost use Rattle.wasm_c_items.specs.Hints.{plain_branch_hint, plain_hinted_function};
ghost use Rattle.wasm_c_items.specs.Readable.{item_over};
ghost use Rattle.wasm_custom.specs.BranchHinting.{branch_hint_at, function_hints_at};

use wasm_c_items::{
    BranchHints, Counted, HintedFunctions, PlainBranchHint, PlainHintedFunction, StoredItems,
    read_at, store_items,
};

/// Reads a function with branch hints. Walk the hints with `pulleynavy_next_branch_hints`: they were checked, and have
/// no fault.
///
/// # Errors
///
/// Those of `pulleynavy_read_number` and `pulleynavy_read_branch_hint`.
///
/// (Tool conventions, Code Metadata, Branch Hints.)
#[unsafe(no_mangle)]
pub extern "C" fn pulleynavy_read_hinted_function(
    bytes: &[u8],
    offset: u64,
    features: u32,
) -> PlainHintedFunction
    ensures { result ≡ item_over plain_hinted_function function_hints_at features offset bytes.now }
{
    read_at(HintedFunctions, bytes, offset, features)
}

/// Stores the next functions of a section `metadata.code.branch_hint` in `out`, and returns their number.
///
/// # Errors
///
/// An item has the faults of `pulleynavy_read_hinted_function`; the last one `SIZE_MISMATCH` if bytes follow the list.
#[unsafe(no_mangle)]
pub extern "C" fn pulleynavy_next_hinted_functions(
    items: &mut StoredItems,
    bytes: &[u8],
    out: &mut [PlainHintedFunction],
) -> usize
    ensures { StoresItems (next_by plain_hinted_function function_hints_at bytes.now)
        items.old out.old result items.new out.new }
{
    store_items(Counted(HintedFunctions), items, bytes, out)
}

/// Reads a branch hint.
///
/// # Errors
///
/// `LEADING_BYTE` with `PULLEYNAVY_LEAD_BRANCH_HINT` at a size of the value other than 1, or with
/// `PULLEYNAVY_LEAD_BRANCH_TAKEN` at a value other than 0 and 1; `UNEXPECTED_EOF`; and the faults of
/// `pulleynavy_read_number`.
///
/// (Tool conventions, Code Metadata, Branch Hints.)
#[unsafe(no_mangle)]
pub extern "C" fn pulleynavy_read_branch_hint(
    bytes: &[u8],
    offset: u64,
    features: u32,
) -> PlainBranchHint
    ensures { result ≡ item_over plain_branch_hint branch_hint_at features offset bytes.now }
{
    read_at(BranchHints, bytes, offset, features)
}

/// Stores the next branch hints of a function in `out`, and returns their number.
///
/// # Errors
///
/// An item has the faults of `pulleynavy_read_branch_hint`; the last one `SIZE_MISMATCH` if bytes follow the list.
#[unsafe(no_mangle)]
pub extern "C" fn pulleynavy_next_branch_hints(
    items: &mut StoredItems,
    bytes: &[u8],
    out: &mut [PlainBranchHint],
) -> usize
    ensures { StoresItems (next_by plain_branch_hint branch_hint_at bytes.now)
        items.old out.old result items.new out.new }
{
    store_items(Counted(BranchHints), items, bytes, out)
}
