// The instructions of constant expressions.
ghost use Rattle.std.specs.Iterator.{at_most};
ghost use Rattle.std.specs.Prelude.{◌≡◌, length};
ghost use Rattle.wasm_base.specs.Hints.{NotOutOfMemory};
ghost use Rattle.wasm_base.specs.Outcome.{GivesBy};
ghost use Rattle.wasm_base.specs.Window.{place, KeepsWindow};
ghost use Rattle.wasm_items.specs.Instructions.{NextInstruction, instruction_at, instructions_in, is_end, is_last, operator_at};
ghost use Rattle.wasm_items.specs.Windows.{expression_window};

use crate::init::{ConstExpr, ConstOperator, read_operands};
use std::marker::Model;
use wasm_base::{BinaryReader, Result};

/// An instruction of a constant expression.
///
/// ```rattle
/// let mut reader = BinaryReader::new(&[0x41, 5, 0x0b], 100);
/// let instruction = read_instruction(&mut reader)?;
/// assert_eq!(rt; instruction.offset, 100);
/// assert_eq!(rt; instruction.operator, ConstOperator::I32Const { value: 5 });
/// ```
///
/// (Core specification, Binary format, Instructions.)
#[derive(Clone, Copy, Debug, PartialEq, Eq)]
pub struct ConstInstruction {
    /// The offset of the opcode, in bytes from the start of the stream.
    pub offset: u64,
    /// The operator, with its operands.
    pub operator: ConstOperator,
}

/// An iterator over the instructions of a constant expression, up to and including `end`.
///
/// `ConstExpr::instructions` creates it. Bytes after `end` are ignored.
///
/// # Errors
///
/// The iterator yields the first error of `read_instruction` and then ends. If the expression was read with
/// `ConstExpr::from_reader`, it yields no error; only `ConstExpr::new` accepts unchecked bytes.
///
/// ```rattle
/// let mut reader = BinaryReader::new(&[0x41, 5, 0x0b], 0);
/// let mut operators = Vec::new(alloc);
/// for instruction in ConstExpr::from_reader(&mut reader)?.instructions() {
///     operators.push(instruction?.operator)?;
/// }
/// let wanted = [ConstOperator::I32Const { value: 5 }, ConstOperator::End];
/// assert_eq!(rt; operators.as_slice(), wanted.as_slice());
/// ```
#[derive(Drop)]
pub struct ConstInstructions<'a> {
    reader: BinaryReader<'a>,
    ended: bool,
}

impl<'a> Model for ConstInstructions<'a> {
    ghost use Rattle.std.specs.Prelude.{List, Result};
    ghost use Rattle.wasm_base.specs.FaultAt.{FaultAt};
    ghost use Rattle.wasm_base.specs.Window.{place};
    ghost use Rattle.wasm_items.specs.Instructions.{instructions_left};
    ghost use Rattle.wasm_items.specs.declared.instructions.ConstInstruction.{ConstInstruction};

    ghost Value = { List (Result ConstInstruction FaultAt) };

    ghost view = { λ s. instructions_left s.ended (place s.reader) };
}

impl<'a> ConstExpr<'a> {
    /// Returns an iterator over the instructions of the expression, in order.
    pub fn instructions(&self) -> ConstInstructions<'a>
        // Proved: `instructions` yields the instructions of its window, each with its offset and
        //   operands, up to the end or the first fault; no call of `next` returns `OutOfMemory`
        //   [the clause of `ConstExpr::instructions` (`instructions_in`), `next_gives` of
        //   `ConstInstructions` (`NextInstruction`)]
        ensures { result ≡ instructions_in (place (expression_window self.now)) }
    {
        ConstInstructions {
            reader: self.get_binary_reader(),
            ended: false,
        }
    }
}

// Whether an operator is `end`.
fn ends(operator: &ConstOperator) -> bool
    ensures { result ≡ is_end operator.now }
{
    match operator {
        ConstOperator::End => true,
        _ => false,
    }
}

// Whether the iterator ends after this result.
fn ends_with(read: &Result<ConstInstruction>) -> bool
    ensures { result ≡ is_last read.now }
{
    match read {
        Ok(instruction) => ends(&instruction.operator),
        Err(_) => true,
    }
}

// Reads the operator of an instruction that begins at this offset, after its opcode.
fn read_operator(start: u64, opcode: u8, reader: &mut BinaryReader<'_>) -> Result<ConstOperator>
    ensures gives { GivesBy (λ operator. operator) result reader.old reader.new
        (operator_at start opcode) }
    ensures keeps { KeepsWindow reader.old reader.new }
    ensures memory { NotOutOfMemory result }
{
    if opcode == 0x0b {
        return Ok(ConstOperator::End);
    }
    read_operands(start, opcode, reader)
}

/// Reads the next instruction of a constant expression, which may be `end`.
///
/// # Errors
///
/// * `NotConstant` at the opcode of an instruction that is not constant. For opcode 0xFB or 0xFD, the number after it
///   counts too.
/// * `UnexpectedEof` if no byte remains.
/// * The errors of the operands: those of `read_var_u32`, `read_var_i32`, `read_var_i64`, `HeapType`, and
///   `UnexpectedEof` where a float or vector should have started.
///
/// ```rattle
/// // `nop` is not a constant instruction.
/// let mut reader = BinaryReader::new(&[0x01], 8);
/// if let Err(error) = read_instruction(&mut reader) {
///     assert_eq!(rt; error.fault(), Fault::NotConstant);
///     assert_eq!(rt; error.offset(), 8);
/// }
/// ```
///
/// (Core specification, Binary format, Instructions.)
#[tactic(auto, unfolding(crate::specs::Instructions::instruction_at))]
pub fn read_instruction(reader: &mut BinaryReader<'_>) -> Result<ConstInstruction>
    ensures gives { GivesBy (λ instruction. instruction) result reader.old reader.new instruction_at }
    ensures memory { NotOutOfMemory result }
{
    let offset = reader.original_position();
    let opcode = reader.read_u8()?;
    let operator = read_operator(offset, opcode, reader)?;
    Ok(ConstInstruction { offset, operator })
}

impl<'a> Iterator for ConstInstructions<'a> {
    type Item = Result<ConstInstruction>;

    ghost next_gives = { NextInstruction };

    ghost remaining = { λ instructions. at_most (length instructions) };

    fn next(&mut self) -> Option<Result<ConstInstruction>> {
        if self.ended {
            return None;
        }
        let read = read_instruction(&mut self.reader);
        self.ended = ends_with(&read);
        Some(read)
    }
}
