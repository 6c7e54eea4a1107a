// Types, without their lists.
ghost use Rattle.std.specs.Prelude.{◌≡◌};
ghost use Rattle.wasm_c_items.specs.Readable.{item_over};
ghost use Rattle.wasm_c_items.specs.TypeHeads.{plain_subtype, plain_type_group};
ghost use Rattle.wasm_items.specs.TypeHeads.{group_head_at, subtype_head_at};

use wasm_c_items::{PlainSubtype, PlainTypeGroup, Subtypes, TypeGroups, read_at};

/// Reads the head of a recursive group of types. As many subtypes as `count` says follow; `pulleynavy_read_subtype`
/// reads each.
///
/// # Errors
///
/// `UNEXPECTED_EOF` if there are no bytes; and for an explicit group the faults of `pulleynavy_read_number` for the
/// count.
///
/// ```c
/// // One function type: from an i32 to nothing.
/// const uint8_t bytes[] = {0x60, 1, 0x7f, 0};
/// pulleynavy_type_group group = pulleynavy_read_type_group(bytes, 4, 0, PULLEYNAVY_ALL_FEATURES);
/// assert(!group.fault.kind && group.count == 1);
/// size_t at = group.consumed;
/// pulleynavy_subtype type = pulleynavy_read_subtype(bytes + at, 4 - at, at, PULLEYNAVY_ALL_FEATURES);
/// assert(type.kind == PULLEYNAVY_COMPOSITE_FUNC && type.count == 1);
/// at += type.consumed;
/// pulleynavy_value parameter = pulleynavy_read_value_type(bytes + at, 4 - at, at, PULLEYNAVY_ALL_FEATURES);
/// assert(parameter.ty.kind == PULLEYNAVY_TYPE_I32);
/// at += parameter.consumed;
/// assert(pulleynavy_read_number(bytes + at, 4 - at, at, PULLEYNAVY_ALL_FEATURES).value == 0);
/// ```
///
/// (Core specification, Binary format, Types, Recursive Types; Modules, Type Section.)
#[unsafe(no_mangle)]
pub extern "C" fn pulleynavy_read_type_group(
    bytes: &[u8],
    offset: u64,
    features: u32,
) -> PlainTypeGroup
    ensures { result ≡ item_over plain_type_group group_head_at features offset bytes.now }
{
    read_at(TypeGroups, bytes, offset, features)
}

/// Reads the head of a subtype.
///
/// For functions `count` parameters follow, each read by `pulleynavy_read_value_type`, then a count of results, read by
/// `pulleynavy_read_number`, and that many results. For structures and arrays `count` fields follow, each read by
/// `pulleynavy_read_field_type`.
///
/// # Errors
///
/// * `SUPERTYPES` at the count of supertypes if it is above 1.
/// * `LEADING_BYTE` with `PULLEYNAVY_LEAD_COMPOSITE` at a byte that begins no composite type.
/// * `UNEXPECTED_EOF`, and the faults of `pulleynavy_read_number` for the counts and the supertype.
///
/// (Core specification, Binary format, Types, Recursive Types and Composite Types.)
#[unsafe(no_mangle)]
pub extern "C" fn pulleynavy_read_subtype(bytes: &[u8], offset: u64, features: u32) -> PlainSubtype
    ensures { result ≡ item_over plain_subtype subtype_head_at features offset bytes.now }
{
    read_at(Subtypes, bytes, offset, features)
}
