// Globals.
ghost use Rattle.std.specs.Prelude.{◌≡◌, ◌+◌, ◌≤◌, ◌<◌, ◌^◌, ◌++◌, ◌↔◌, IsTrue, length, take};
ghost use Rattle.wasm_encode.specs.Globals.{IsExpression, init_bytes};
ghost use Rattle.wasm_items.specs.Windows.{expression_window};

use crate::bytes::write_bytes;
use crate::encode::Encode;
use wasm_base::SkipItem;
use wasm_items::{ConstExpr, Global};

// The most bytes of an expression and one more.
const EXPRESSION_BOUND: usize = 1 << 31;

// Returns the bytes of the expression of a global.
fn init_of<'a>(global: &Global<'a>) -> &'a [u8]
    ensures { result.now ≡ init_bytes global.now }
{
    global.init_expr.get_binary_reader().remaining_buffer()
}

// Returns whether a window is one constant expression.
#[tactic(auto, using(crate::proofs::GlobalsBack::expression_fault))]
pub(crate) fn is_expression(expression: &ConstExpr<'_>) -> bool
    ensures { IsTrue result ↔ IsExpression (expression_window expression.now) }
{
    let mut reader = expression.get_binary_reader();
    match ConstExpr::skip_item(&mut reader) {
        Ok(()) => reader.eof(),
        Err(_) => false,
    }
}

impl<'a> Encode for Global<'a> {
    ghost use Rattle.wasm_base.specs.Item.{ReadsAs};
    ghost use Rattle.wasm_encode.specs.Globals.{GlobalFits, global_bytes, global_placed};
    ghost use Rattle.wasm_items.specs.Globals.{global_at};

    ghost meaning = { ReadsAs (λ global. global) global_at };

    ghost encoded = { global_bytes };

    ghost is_encodable = { GlobalFits };

    ghost is_allowed = { λ features global. Unit {0} };

    ghost placed = { global_placed };

    fn fits(&self) -> bool {
        if !self.ty.fits() {
            return false;
        }
        if !is_expression(&self.init_expr) {
            return false;
        }
        init_of(self).len() < EXPRESSION_BOUND
    }

    #[tactic(auto, unfolding(crate::specs::Globals::global_bytes), using(crate::proofs::Lengths::global_few))]
    fn encoded_len(&self) -> usize {
        self.ty.encoded_len() + init_of(self).len()
    }

    #[tactic(auto, unfolding(crate::specs::Globals::global_bytes), using(crate::proofs::RestStays::stays_on))]
    fn encode_at(&self, bytes: &mut [u8], at: usize) -> usize {
        let after_type = self.ty.encode_at(bytes, at);
        write_bytes(bytes, after_type, init_of(self))
    }

    fn reads_back(&self) {}
}
