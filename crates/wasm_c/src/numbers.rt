// Numbers.
ghost use Rattle.std.specs.Prelude.{◌≡◌};
ghost use Rattle.wasm_base.specs.Number.{unsigned_at};
ghost use Rattle.wasm_base.specs.Signed.{signed_at};
ghost use Rattle.wasm_base.specs.declared.fault.NumberKind.TheVariants.{VarI32, VarI64, VarS33, VarU32, VarU64};
ghost use Rattle.wasm_c_items.specs.Cursors.{StoresItems, next_by};
ghost use Rattle.wasm_c_items.specs.Readable.{item_over};
ghost use Rattle.wasm_c_items.specs.Numbers.{plain_number, plain_signed};

use wasm_c_items::{
    BlockTypes, Counted, LongNumbers, LongSignedNumbers, Numbers, PlainNumber, PlainSigned,
    SignedNumbers, StoredItems, read_at, store_items,
};

/// Reads a u32 in LEB128: the count of a list, the type index of a function, or the index of a function in an element
/// segment.
///
/// # Errors
///
/// `UNEXPECTED_EOF`, `NUMBER_TOO_LONG` or `NUMBER_TOO_LARGE`, the latter two with `PULLEYNAVY_NUMBER_VAR_U32`.
///
/// ```c
/// const uint8_t bytes[] = {0x80, 0x01};
/// pulleynavy_number number = pulleynavy_read_number(bytes, 2, 0, PULLEYNAVY_ALL_FEATURES);
/// assert(number.fault.kind == 0 && number.value == 128 && number.consumed == 2);
/// ```
///
/// (Core specification, Binary format, Values, Integers.)
#[unsafe(no_mangle)]
pub extern "C" fn pulleynavy_read_number(bytes: &[u8], offset: u64, features: u32) -> PlainNumber
    ensures { result ≡ item_over plain_number (unsigned_at VarU32) features offset bytes.now }
{
    read_at(Numbers, bytes, offset, features)
}

/// Stores the next numbers of a list in `out`, and returns their number.
///
/// # Errors
///
/// An item has the faults of `pulleynavy_read_number`; the last one `SIZE_MISMATCH` if bytes follow the list.
#[unsafe(no_mangle)]
pub extern "C" fn pulleynavy_next_numbers(
    items: &mut StoredItems,
    bytes: &[u8],
    out: &mut [PlainNumber],
) -> usize
    ensures { StoresItems (next_by plain_number (unsigned_at VarU32) bytes.now)
        items.old out.old result items.new out.new }
{
    store_items(Counted(Numbers), items, bytes, out)
}

/// Reads a u64 in LEB128.
///
/// # Errors
///
/// `UNEXPECTED_EOF`, `NUMBER_TOO_LONG` or `NUMBER_TOO_LARGE`, the latter two with `PULLEYNAVY_NUMBER_VAR_U64`.
///
/// (Core specification, Binary format, Values, Integers.)
#[unsafe(no_mangle)]
pub extern "C" fn pulleynavy_read_u64(bytes: &[u8], offset: u64, features: u32) -> PlainNumber
    ensures { result ≡ item_over plain_number (unsigned_at VarU64) features offset bytes.now }
{
    read_at(LongNumbers, bytes, offset, features)
}

/// Reads a signed 32-bit number in LEB128.
///
/// # Errors
///
/// `UNEXPECTED_EOF`, `NUMBER_TOO_LONG` or `NUMBER_TOO_LARGE`, the latter two with `PULLEYNAVY_NUMBER_VAR_I32`.
///
/// (Core specification, Binary format, Values, Integers.)
#[unsafe(no_mangle)]
pub extern "C" fn pulleynavy_read_s32(bytes: &[u8], offset: u64, features: u32) -> PlainSigned
    ensures { result ≡ item_over plain_signed (signed_at VarI32) features offset bytes.now }
{
    read_at(SignedNumbers, bytes, offset, features)
}

/// Reads a signed 33-bit number in LEB128, such as a block type.
///
/// # Errors
///
/// `UNEXPECTED_EOF`, `NUMBER_TOO_LONG` or `NUMBER_TOO_LARGE`, the latter two with `PULLEYNAVY_NUMBER_VAR_S33`.
///
/// (Core specification, Binary format, Values, Integers.)
#[unsafe(no_mangle)]
pub extern "C" fn pulleynavy_read_s33(bytes: &[u8], offset: u64, features: u32) -> PlainSigned
    ensures { result ≡ item_over plain_signed (signed_at VarS33) features offset bytes.now }
{
    read_at(BlockTypes, bytes, offset, features)
}

/// Reads a signed 64-bit number in LEB128.
///
/// # Errors
///
/// `UNEXPECTED_EOF`, `NUMBER_TOO_LONG` or `NUMBER_TOO_LARGE`, the latter two with `PULLEYNAVY_NUMBER_VAR_I64`.
///
/// (Core specification, Binary format, Values, Integers.)
#[unsafe(no_mangle)]
pub extern "C" fn pulleynavy_read_s64(bytes: &[u8], offset: u64, features: u32) -> PlainSigned
    ensures { result ≡ item_over plain_signed (signed_at VarI64) features offset bytes.now }
{
    read_at(LongSignedNumbers, bytes, offset, features)
}
