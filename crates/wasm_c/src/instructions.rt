// Instructions of constant expressions.
ghost use Rattle.std.specs.Prelude.{◌≡◌};
ghost use Rattle.wasm_c_items.specs.Instructions.{plain_instruction};
ghost use Rattle.wasm_c_items.specs.Readable.{item_over};
ghost use Rattle.wasm_items.specs.Instructions.{instruction_at};

use wasm_c_items::{Instructions, PlainInstruction, read_at};

/// Reads an instruction of a constant expression. The last one has the opcode `PULLEYNAVY_OP_END`.
///
/// # Errors
///
/// * `NOT_CONSTANT` at the opcode of an instruction that is not constant.
/// * `UNEXPECTED_EOF`, and the faults of operands: `pulleynavy_read_number`, `pulleynavy_read_s32`,
///   `pulleynavy_read_s64` and `pulleynavy_read_heap_type`.
///
/// ```c
/// const uint8_t bytes[] = {0x41, 5, 0x0b};
/// pulleynavy_instruction first = pulleynavy_read_instruction(bytes, 3, 0, PULLEYNAVY_ALL_FEATURES);
/// assert(first.opcode == PULLEYNAVY_OP_I32_CONST && first.integer == 5 && first.consumed == 2);
/// pulleynavy_instruction last = pulleynavy_read_instruction(bytes + 2, 1, 2, PULLEYNAVY_ALL_FEATURES);
/// assert(last.opcode == PULLEYNAVY_OP_END);
/// ```
///
/// (Core specification, Binary format, Instructions.)
#[unsafe(no_mangle)]
pub extern "C" fn pulleynavy_read_instruction(
    bytes: &[u8],
    offset: u64,
    features: u32,
) -> PlainInstruction
    ensures { result ≡ item_over plain_instruction instruction_at features offset bytes.now }
{
    read_at(Instructions, bytes, offset, features)
}
