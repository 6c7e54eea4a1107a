// Constant expressions.
ghost use Rattle.std.specs.Prelude.{◌≡◌, ℕ, ◌+◌, ◌≤◌, ◌++◌, ◌↔◌, All, IsTrue, false, drop, length, take};
ghost use Rattle.wasm_encode.specs.Expressions.{OperatorsBack, OperatorsFit, expression_bytes, operators_bytes};
ghost use Rattle.wasm_items.specs.Instructions.{is_end};

use crate::bytes::write_byte;
use crate::fitting::items_fit;
use crate::sections::{items_len, write_items};
use wasm_items::{ConstExpr, ConstOperator};

/// Returns the bytes of an expression.
pub(crate) fn bytes_of<'a>(expression: &ConstExpr<'a>) -> &'a [u8]
    ensures { result.now ≡ expression_bytes expression.now }
{
    expression.get_binary_reader().remaining_buffer()
}

// Returns whether an operator is `end`.
fn ends(operator: &ConstOperator) -> bool
    ensures { result ≡ is_end operator.now }
{
    match operator {
        ConstOperator::End => true,
        _ => false,
    }
}

// Returns whether no operator is `end`.
fn are_inner(operators: &[ConstOperator]) -> bool
    ensures { IsTrue result ↔ All (λ x. is_end x ≡ false) operators.now }
{
    'operators: for operator in operators {
        if ends(operator) {
            return false;
        }
    }
    true
}

/// Returns whether operators can be written as a constant expression: none is `end`, and the expression has fewer than
/// 2^32 bytes.
///
/// ```rattle
/// assert!(rt; expression_fits(&[ConstOperator::I32Const { value: 5 }]));
/// assert!(rt; !expression_fits(&[ConstOperator::End]));
/// ```
///
/// (Core specification, Binary format, Instructions, Expressions.)
#[tactic(auto, using(crate::proofs::ExpressionsBack::one_after))]
pub fn expression_fits(operators: &[ConstOperator]) -> bool
    // Proved: whether operators can be written as an expression: none is `end`, and all have fewer than 2^32 bytes with
    //   the `end` after them
    ensures { IsTrue result ↔ OperatorsFit operators.now }
{
    if !are_inner(operators) {
        return false;
    }
    items_fit(operators, 1, 1 << 32)
}

/// Returns how many bytes `write_expression` writes of these operators, with the `end` after them.
///
/// The operators must fit (`expression_fits`).
///
/// ```rattle
/// assert_eq!(rt; expression_len(&[ConstOperator::I32Const { value: 5 }]), 3);
/// ```
///
/// (Core specification, Binary format, Instructions, Expressions.)
#[tactic(auto, using(crate::proofs::ExpressionsBack::inner_few))]
pub fn expression_len(operators: &[ConstOperator]) -> usize
    requires { OperatorsFit operators.now }
    // Proved: `expression_len` is how many bytes `write_expression` writes
    ensures { result ≡ length (operators_bytes operators.now) }
{
    items_len(operators) + 1
}

/// Writes a constant expression: these operators, and `end`.
///
/// Writes at the index `at`, where there must be room for it, and returns the index after it. The operators must fit
/// (`expression_fits`).
///
/// ```rattle
/// let operators = [
///     ConstOperator::GlobalGet { global_index: 0 },
///     ConstOperator::I32Const { value: 8 },
///     ConstOperator::I32Add,
/// ];
/// let mut bytes = [0; 6];
/// write_expression(&mut bytes, 0, &operators);
/// assert_eq!(rt; &bytes, b"\x23\0\x41\x08\x6a\x0b");
/// ```
///
/// (Core specification, Binary format, Instructions, Expressions.)
#[tactic(auto, using(crate::proofs::RestStays::stays_on))]
pub fn write_expression(bytes: &mut [u8], at: usize, operators: &[ConstOperator]) -> usize
    requires fits { OperatorsFit operators.now }
    requires room { at + length (operators_bytes operators.now) ≤ length bytes.old }
    ensures end { result ≡ at + length (operators_bytes operators.now) }
    // Proved: an expression is written as its operators and `end`, and no byte before or after it changes [`written`,
    //   `rest` of `write_expression` (`operators_bytes`)]
    ensures written { take result bytes.new ≡ take at bytes.old ++ operators_bytes operators.now }
    ensures rest { drop result bytes.new ≡ drop result bytes.old }
    ensures len { length bytes.new ≡ length bytes.old }
{
    let after_operators = write_items(bytes, at, operators);
    write_byte(bytes, after_operators, 0x0b)
}

/// An expression that was written is one constant expression, wherever it is, and its instructions are exactly these
/// operators and `end`. Does nothing.
pub fn expression_reads_back(operators: &[ConstOperator])
    requires { OperatorsFit operators.now }
    // Proved: an expression that was written, at any offset, is read as one constant expression whose instructions are
    //   exactly the given operators and `end`
    ensures { (features offset : ℕ) → OperatorsBack features offset operators.now }
{
    let _operators = operators;
}
