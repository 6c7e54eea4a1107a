// Texts of constant expressions, by the names of the text format.
ghost use Rattle.std.specs.Fmt.{signed_decimal};
ghost use Rattle.std.specs.Prelude.{◌≡◌, ◌++◌, codes, decimal, false};
ghost use Rattle.wasm_show.specs.ExprText.{operands_text, operator_text, operator_word as word_of_operator};
ghost use Rattle.wasm_show.specs.ItemText.{expression_field};
ghost use Rattle.wasm_show.specs.TypeText.{after_blank};
ghost use Rattle.wasm_output.specs.Said.{Says, SaysSome, SaysWith};
ghost use Rattle.wasm_output.specs.Tree.{Adds, has_line_feed};

use crate::lists::write_word;
use crate::show::Show;
use wasm_base::Result;
use wasm_items::{ConstExpr, ConstInstruction, ConstOperator};
use wasm_output::Tree;

// Returns the name of an operator.
fn operator_word(operator: &ConstOperator) -> &'static str
    ensures word { result.now ≡ word_of_operator operator.now }
    ensures one_line { has_line_feed result.now ≡ false }
{
    match operator {
        ConstOperator::End => "end",
        ConstOperator::GlobalGet { .. } => "global.get",
        ConstOperator::I32Const { .. } => "i32.const",
        ConstOperator::I64Const { .. } => "i64.const",
        ConstOperator::F32Const { .. } => "f32.const",
        ConstOperator::F64Const { .. } => "f64.const",
        ConstOperator::V128Const { .. } => "v128.const",
        ConstOperator::I32Add => "i32.add",
        ConstOperator::I32Sub => "i32.sub",
        ConstOperator::I32Mul => "i32.mul",
        ConstOperator::I64Add => "i64.add",
        ConstOperator::I64Sub => "i64.sub",
        ConstOperator::I64Mul => "i64.mul",
        ConstOperator::RefNull { .. } => "ref.null",
        ConstOperator::RefFunc { .. } => "ref.func",
        ConstOperator::StructNew { .. } => "struct.new",
        ConstOperator::StructNewDefault { .. } => "struct.new_default",
        ConstOperator::ArrayNew { .. } => "array.new",
        ConstOperator::ArrayNewDefault { .. } => "array.new_default",
        ConstOperator::ArrayNewFixed { .. } => "array.new_fixed",
        ConstOperator::AnyConvertExtern => "any.convert_extern",
        ConstOperator::ExternConvertAny => "extern.convert_any",
        ConstOperator::RefI31 => "ref.i31",
    }
}

// Writes a blank and a number.
fn write_integer<O: Tree>(number: i64, out: &mut O)
    ensures adds { Adds (O.writing out.old) (O.writing out.new) }
    ensures says { Says (after_blank (signed_decimal number)) (O.writing out.old) (O.writing out.new) }
{
    out.text(" ");
    out.integer(number);
}

// Writes the bits of a float, as a number.
fn write_bits<O: Tree>(bits: u64, out: &mut O)
    ensures adds { Adds (O.writing out.old) (O.writing out.new) }
    ensures says { Says (codes " bits=" ++ decimal bits) (O.writing out.old) (O.writing out.new) }
{
    out.text(" bits=");
    out.digits(bits);
}

// Writes the operands of an operator, each after a blank.
fn write_operands<O: Tree>(operator: &ConstOperator, out: &mut O)
    ensures adds { Adds (O.writing out.old) (O.writing out.new) }
    ensures says { Says (operands_text operator.now) (O.writing out.old) (O.writing out.new) }
{
    match operator {
        ConstOperator::GlobalGet { global_index } => write_word(global_index, out),
        ConstOperator::I32Const { value } => write_integer(i64::from(*value), out),
        ConstOperator::I64Const { value } => write_integer(*value, out),
        ConstOperator::F32Const { value } => write_bits(u64::from(value.bits()), out),
        ConstOperator::F64Const { value } => write_bits(value.bits(), out),
        ConstOperator::V128Const { value } => {
            out.text(" ");
            out.hexadecimals(value.bytes());
        }
        ConstOperator::RefNull { hty } => write_word(hty, out),
        ConstOperator::RefFunc { function_index } => write_word(function_index, out),
        ConstOperator::StructNew { struct_type_index }
        | ConstOperator::StructNewDefault { struct_type_index } => {
            write_word(struct_type_index, out);
        }
        ConstOperator::ArrayNew { array_type_index }
        | ConstOperator::ArrayNewDefault { array_type_index } => {
            write_word(array_type_index, out);
        }
        ConstOperator::ArrayNewFixed {
            array_type_index,
            array_size,
        } => {
            write_word(array_type_index, out);
            write_word(array_size, out);
        }
        _ => {}
    }
}

// Writes an operator with its operands.
fn write_operator<O: Tree>(operator: &ConstOperator, out: &mut O)
    ensures adds { Adds (O.writing out.old) (O.writing out.new) }
    // Proved: the text of an instruction of a constant expression has its word and its numbers
    ensures says { Says (operator_text operator.now) (O.writing out.old) (O.writing out.new) }
    ensures some { SaysSome (O.writing out.old) (O.writing out.new) }
{
    out.text(operator_word(operator));
    write_operands(operator, out);
}

// Writes an instruction, or the fault in its place, in parentheses. A blank precedes all but the first.
fn write_instruction<O: Tree>(is_first: bool, read: &Result<ConstInstruction>, out: &mut O)
    ensures adds { Adds (O.writing out.old) (O.writing out.new) }
    ensures some { SaysSome (O.writing out.old) (O.writing out.new) }
{
    out.text(if is_first { "(" } else { " (" });
    match read {
        Ok(instruction) => write_operator(&instruction.operator, out),
        Err(error) => out.fault_text(error),
    }
    out.text(")");
}

// Returns whether this is the `end` of an expression.
fn is_end(read: &Result<ConstInstruction>) -> bool {
    match read {
        Ok(instruction) => matches!(&instruction.operator, ConstOperator::End),
        Err(_) => false,
    }
}

// Writes the instructions of an expression without `end`, each in parentheses, with a blank between two. An expression that is only
// `end` is written as `()`.
fn write_instructions<O: Tree>(expr: &ConstExpr<'_>, out: &mut O)
    ensures adds { Adds (O.writing out.old) (O.writing out.new) }
    ensures some { SaysSome (O.writing out.old) (O.writing out.new) }
{
    let mut instructions = expr.instructions();
    let mut is_first = true;
    for _ in 0..u64::MAX {
        let Some(read) = instructions.next() else {
            break;
        };
        if is_end(&read) {
            break;
        }
        write_instruction(is_first, &read, out);
        is_first = false;
    }
    if is_first {
        out.text("()");
    }
}

/// Writes an expression as a field.
pub(crate) fn show_expr<O: Tree>(name: &str, expr: &ConstExpr<'_>, out: &mut O)
    requires one_line { has_line_feed name.now ≡ false }
    ensures adds { Adds (O.writing out.old) (O.writing out.new) }
    ensures says { SaysWith (expression_field name.now) (O.writing out.old) (O.writing out.new) }
{
    out.begin_field(name);
    write_instructions(expr, out);
}

impl Show for ConstExpr<'_> {
    fn show<O: Tree>(&self, _level: usize, out: &mut O) {
        show_expr("expr", self, out);
    }
}
