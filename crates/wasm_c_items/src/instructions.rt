// Instructions of constant expressions.
ghost use Rattle.std.specs.Prelude.{◌≡◌};
ghost use Rattle.wasm_c_items.specs.Instructions.{indexed, instruction_from, opcode, plain_instruction, with_bits, array_of_count, with_heap, with_integer, with_vector};
ghost use Rattle.wasm_items.specs.Instructions.{instruction_at};
ghost use Rattle.wasm_items.specs.declared.instructions.ConstInstruction.{ConstInstruction};

use crate::faults::{NO_FAULT, PlainFault, plain_fault};
use crate::readable::Readable;
use crate::spans::{NO_SPAN, PlainSpan, distance, span_before};
use crate::values::heap_parts;
use wasm_items::read_instruction;
use wasm_parser::{BinaryReader, ConstOperator, Error, HeapType, Result};

/// An instruction of a constant expression, or a fault.
#[repr(C)]
#[derive(Clone, Copy)]
pub struct PlainInstruction {
    /// The fault of the item, of kind 0 if there is none.
    pub fault: PlainFault,
    /// The size of the item in bytes, 0 after a fault.
    pub consumed: usize,
    /// The opcode, a `pulleynavy_opcode`. An opcode of two parts is 256 times the first plus the second.
    pub opcode: u32,
    /// The index of a global, a function or a type, or 0.
    pub index: u32,
    /// The heap type of a null reference, a `pulleynavy_heap_kind`, or 0. The index is that of the type if it is 12.
    pub heap: u32,
    /// The number of elements of `array.new_fixed`, or 0.
    pub count: u32,
    /// The value of `i32.const` or `i64.const`, or 0.
    pub integer: i64,
    /// The bits of `f32.const` or `f64.const`, or 0.
    pub bits: u64,
    /// The 16 bytes of `v128.const`, in little-endian order.
    pub bytes: PlainSpan,
}

// An instruction without operands.
fn opcode(consumed: usize, code: u32) -> PlainInstruction
    ensures { result ≡ opcode consumed code }
{
    PlainInstruction {
        fault: NO_FAULT,
        consumed,
        opcode: code,
        index: 0,
        heap: 0,
        count: 0,
        integer: 0,
        bits: 0,
        bytes: NO_SPAN,
    }
}

// One whose operand is an index.
fn indexed(consumed: usize, code: u32, index: u32) -> PlainInstruction
    ensures { result ≡ indexed consumed code index }
{
    PlainInstruction {
        index,
        ..opcode(consumed, code)
    }
}

// A constant whose operand is an integer.
fn integer(consumed: usize, code: u32, integer: i64) -> PlainInstruction
    ensures { result ≡ with_integer consumed code integer }
{
    PlainInstruction {
        integer,
        ..opcode(consumed, code)
    }
}

// A constant whose operand is a float with these bits.
fn float(consumed: usize, code: u32, bits: u64) -> PlainInstruction
    ensures { result ≡ with_bits consumed code bits }
{
    PlainInstruction {
        bits,
        ..opcode(consumed, code)
    }
}

// A constant whose operand is a vector.
fn vector(consumed: usize, bytes: PlainSpan) -> PlainInstruction
    ensures { result ≡ with_vector consumed bytes }
{
    PlainInstruction {
        bytes,
        ..opcode(consumed, 0xfd0c)
    }
}

// A null reference.
fn null(consumed: usize, heap: HeapType) -> PlainInstruction
    ensures { result ≡ with_heap consumed heap }
{
    let (heap, index) = heap_parts(heap);
    PlainInstruction {
        heap,
        ..indexed(consumed, 0xd0, index)
    }
}

// An array of this many elements.
fn array(consumed: usize, index: u32, count: u32) -> PlainInstruction
    ensures { result ≡ array_of_count consumed index count }
{
    PlainInstruction {
        count,
        ..indexed(consumed, 0xfb08, index)
    }
}

// An instruction of this many bytes, of which these are the last 16.
fn whole_instruction(consumed: usize, last: PlainSpan, operator: ConstOperator) -> PlainInstruction
    ensures { result ≡ instruction_from consumed last operator }
{
    match operator {
        ConstOperator::End => opcode(consumed, 0x0b),
        ConstOperator::I32Add => opcode(consumed, 0x6a),
        ConstOperator::I32Sub => opcode(consumed, 0x6b),
        ConstOperator::I32Mul => opcode(consumed, 0x6c),
        ConstOperator::I64Add => opcode(consumed, 0x7c),
        ConstOperator::I64Sub => opcode(consumed, 0x7d),
        ConstOperator::I64Mul => opcode(consumed, 0x7e),
        ConstOperator::AnyConvertExtern => opcode(consumed, 0xfb1a),
        ConstOperator::ExternConvertAny => opcode(consumed, 0xfb1b),
        ConstOperator::RefI31 => opcode(consumed, 0xfb1c),
        ConstOperator::GlobalGet { global_index } => indexed(consumed, 0x23, global_index),
        ConstOperator::RefFunc { function_index } => indexed(consumed, 0xd2, function_index),
        ConstOperator::StructNew { struct_type_index } => indexed(
            consumed,
            0xfb00,
            struct_type_index,
        ),
        ConstOperator::StructNewDefault { struct_type_index } => indexed(
            consumed,
            0xfb01,
            struct_type_index,
        ),
        ConstOperator::ArrayNew { array_type_index } => indexed(consumed, 0xfb06, array_type_index),
        ConstOperator::ArrayNewDefault { array_type_index } => indexed(
            consumed,
            0xfb07,
            array_type_index,
        ),
        ConstOperator::I32Const { value } => integer(consumed, 0x41, i64::from(value)),
        ConstOperator::I64Const { value } => integer(consumed, 0x42, value),
        ConstOperator::F32Const { value } => float(consumed, 0x43, u64::from(value.bits())),
        ConstOperator::F64Const { value } => float(consumed, 0x44, value.bits()),
        ConstOperator::V128Const { .. } => vector(consumed, last),
        ConstOperator::RefNull { hty } => null(consumed, hty),
        ConstOperator::ArrayNewFixed {
            array_type_index,
            array_size,
        } => array(consumed, array_type_index, array_size),
    }
}

/// Instructions of a constant expression.
#[derive(Clone, Copy)]
pub struct Instructions;

impl Readable for Instructions {
    type Plain = PlainInstruction;

    ghost Item = { ConstInstruction };

    ghost reading = { λ _. instruction_at };

    ghost plain = { λ _. plain_instruction };

    fn read(self, reader: &mut BinaryReader<'_>, from: u64) -> Result<PlainInstruction> {
        let start = reader.original_position();
        let instruction = read_instruction(reader)?;
        let end = reader.original_position();
        let last = span_before(from, end, 16);
        Ok(whole_instruction(distance(start, end), last, instruction.operator))
    }

    fn refused(self, error: Error) -> PlainInstruction {
        PlainInstruction {
            fault: plain_fault(error),
            ..opcode(0, 0)
        }
    }
}
