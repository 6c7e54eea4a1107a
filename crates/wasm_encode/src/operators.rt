// Operators of constant expressions.
ghost use Rattle.std.specs.Prelude.{◌≡◌, ◌+◌, ◌≤◌, ◌++◌, ◌↔◌, IsTrue, drop, length, take};
ghost use Rattle.wasm_encode.specs.Numbers.{unsigned_bytes};
ghost use Rattle.wasm_encode.specs.Operators.{OperatorFits, opcode, opcode_number, operand_bytes};

use crate::bytes::{write_byte, write_bytes, write_maybe};
use crate::encode::Encode;
use crate::number::{signed_len, unsigned_len, write_signed, write_unsigned};
use wasm_items::ConstOperator;

// Returns the first byte of an operator.
fn opcode_of(operator: &ConstOperator) -> u8
    ensures { result ≡ opcode operator.now }
{
    match operator {
        ConstOperator::End => 0x0b,
        ConstOperator::GlobalGet { .. } => 0x23,
        ConstOperator::I32Const { .. } => 0x41,
        ConstOperator::I64Const { .. } => 0x42,
        ConstOperator::F32Const { .. } => 0x43,
        ConstOperator::F64Const { .. } => 0x44,
        ConstOperator::V128Const { .. } => 0xfd,
        ConstOperator::I32Add => 0x6a,
        ConstOperator::I32Sub => 0x6b,
        ConstOperator::I32Mul => 0x6c,
        ConstOperator::I64Add => 0x7c,
        ConstOperator::I64Sub => 0x7d,
        ConstOperator::I64Mul => 0x7e,
        ConstOperator::RefNull { .. } => 0xd0,
        ConstOperator::RefFunc { .. } => 0xd2,
        _ => 0xfb,
    }
}

// Returns the number after the opcode, if there is one.
fn number_of(operator: &ConstOperator) -> Option<u8>
    ensures { result ≡ opcode_number operator.now }
{
    match operator {
        ConstOperator::StructNew { .. } => Some(0),
        ConstOperator::StructNewDefault { .. } => Some(1),
        ConstOperator::ArrayNew { .. } => Some(6),
        ConstOperator::ArrayNewDefault { .. } => Some(7),
        ConstOperator::ArrayNewFixed { .. } => Some(8),
        ConstOperator::V128Const { .. } => Some(12),
        ConstOperator::AnyConvertExtern => Some(26),
        ConstOperator::ExternConvertAny => Some(27),
        ConstOperator::RefI31 => Some(28),
        _ => None,
    }
}

// Returns whether the operands are within their limits, as they always are.
fn operands_fit(operator: ConstOperator) -> bool
    ensures { IsTrue result ↔ OperatorFits operator }
{
    match operator {
        ConstOperator::RefNull { hty } => hty.fits(),
        ConstOperator::F32Const { value } => {
            let _bits = value.bits();
            true
        }
        ConstOperator::F64Const { value } => {
            let _bits = value.bits();
            true
        }
        ConstOperator::V128Const { value } => value.bytes().len() == 16,
        _ => true,
    }
}

// Returns how many bytes the operands have.
#[tactic(auto, using(crate::proofs::Numbers::septets_few, crate::proofs::Lengths::heap_few))]
fn operands_len(operator: &ConstOperator) -> usize
    requires { OperatorFits operator.now }
    ensures len { result ≡ length (operand_bytes operator.now) }
    ensures most { result ≤ 20 }
{
    match operator {
        ConstOperator::GlobalGet {
            global_index: index,
        }
        | ConstOperator::RefFunc {
            function_index: index,
        }
        | ConstOperator::StructNew {
            struct_type_index: index,
        }
        | ConstOperator::StructNewDefault {
            struct_type_index: index,
        }
        | ConstOperator::ArrayNew {
            array_type_index: index,
        }
        | ConstOperator::ArrayNewDefault {
            array_type_index: index,
        } => unsigned_len(u64::from(*index)),
        ConstOperator::I32Const { value } => signed_len(i64::from(*value)),
        ConstOperator::I64Const { value } => signed_len(*value),
        ConstOperator::F32Const { .. } => 4,
        ConstOperator::F64Const { .. } => 8,
        ConstOperator::V128Const { .. } => 16,
        ConstOperator::RefNull { hty } => hty.encoded_len(),
        ConstOperator::ArrayNewFixed {
            array_type_index,
            array_size,
        } => { unsigned_len(u64::from(*array_type_index)) + unsigned_len(u64::from(*array_size)) }
        _ => 0,
    }
}

// Writes an index and a number.
#[tactic(auto, using(crate::proofs::RestStays::stays_on))]
fn write_two(bytes: &mut [u8], at: usize, index: u32, size: u32) -> usize
    requires { at + length (unsigned_bytes index ++ unsigned_bytes size) ≤ length bytes.old }
    ensures end { result ≡ at + length (unsigned_bytes index ++ unsigned_bytes size) }
    ensures written { take result bytes.new ≡ take at bytes.old
        ++ (unsigned_bytes index ++ unsigned_bytes size) }
    ensures rest { drop result bytes.new ≡ drop result bytes.old }
    ensures len { length bytes.new ≡ length bytes.old }
{
    let after_index = write_unsigned(bytes, at, u64::from(index));
    write_unsigned(bytes, after_index, u64::from(size))
}

// Writes the operands.
fn write_operands(bytes: &mut [u8], at: usize, operator: &ConstOperator) -> usize
    requires fits { OperatorFits operator.now }
    requires room { at + length (operand_bytes operator.now) ≤ length bytes.old }
    ensures end { result ≡ at + length (operand_bytes operator.now) }
    ensures written { take result bytes.new ≡ take at bytes.old ++ operand_bytes operator.now }
    ensures rest { drop result bytes.new ≡ drop result bytes.old }
    ensures len { length bytes.new ≡ length bytes.old }
{
    match operator {
        ConstOperator::GlobalGet {
            global_index: index,
        }
        | ConstOperator::RefFunc {
            function_index: index,
        }
        | ConstOperator::StructNew {
            struct_type_index: index,
        }
        | ConstOperator::StructNewDefault {
            struct_type_index: index,
        }
        | ConstOperator::ArrayNew {
            array_type_index: index,
        }
        | ConstOperator::ArrayNewDefault {
            array_type_index: index,
        } => { write_unsigned(bytes, at, u64::from(*index)) }
        ConstOperator::I32Const { value } => write_signed(bytes, at, i64::from(*value)),
        ConstOperator::I64Const { value } => write_signed(bytes, at, *value),
        ConstOperator::F32Const { value } => write_bytes(bytes, at, &value.bits().to_le_bytes()),
        ConstOperator::F64Const { value } => write_bytes(bytes, at, &value.bits().to_le_bytes()),
        ConstOperator::V128Const { value } => write_bytes(bytes, at, value.bytes()),
        ConstOperator::RefNull { hty } => hty.encode_at(bytes, at),
        ConstOperator::ArrayNewFixed {
            array_type_index,
            array_size,
        } => { write_two(bytes, at, *array_type_index, *array_size) }
        _ => at,
    }
}

impl Encode for ConstOperator {
    ghost use Rattle.wasm_base.specs.Item.{ReadsAs};
    ghost use Rattle.wasm_encode.specs.Operators.{operator_bytes, operator_read_at};

    ghost meaning = { ReadsAs (λ operator. operator) operator_read_at };

    ghost encoded = { operator_bytes };

    ghost is_encodable = { OperatorFits };

    ghost is_allowed = { λ features operator. Unit {0} };

    ghost placed = { λ features offset operator. operator };

    fn fits(&self) -> bool {
        operands_fit(*self)
    }

    #[tactic(auto, unfolding(crate::specs::Operators::operator_bytes))]
    fn encoded_len(&self) -> usize {
        match number_of(self) {
            Some(_) => 2 + operands_len(self),
            None => 1 + operands_len(self),
        }
    }

    #[tactic(auto, unfolding(crate::specs::Operators::operator_bytes), using(crate::proofs::RestStays::stays_on))]
    fn encode_at(&self, bytes: &mut [u8], at: usize) -> usize {
        let after_opcode = write_byte(bytes, at, opcode_of(self));
        let after_number = write_maybe(bytes, after_opcode, number_of(self));
        write_operands(bytes, after_number, self)
    }

    fn reads_back(&self) {}
}
