// Branch hints.
ghost use Rattle.std.specs.Prelude.{◌≡◌, ◌+◌, ◌≤◌, ◌<◌, ◌^◌, ◌++◌, ◌↔◌, IsTrue, length, take};
ghost use Rattle.wasm_encode.specs.BranchHints.{function_hints_bytes};

use crate::bytes::write_byte;
use crate::encode::Encode;
use crate::lists::{copied_len, is_list, write_copied};
use crate::number::{unsigned_len, write_unsigned};
use wasm_custom::{BranchHint, BranchHintFunction};

impl Encode for BranchHint {
    ghost use Rattle.wasm_base.specs.Item.{ReadsAs};
    ghost use Rattle.wasm_custom.specs.BranchHinting.{branch_hint_at};
    ghost use Rattle.wasm_encode.specs.BranchHints.{hint_bytes};

    ghost meaning = { ReadsAs (λ hint. hint) branch_hint_at };

    ghost encoded = { hint_bytes };

    ghost is_encodable = { λ hint. hint.func_offset < 2 ^ 32 };

    ghost is_allowed = { λ features hint. Unit {0} };

    ghost placed = { λ features offset hint. hint };

    fn fits(&self) -> bool {
        let _offset = self.func_offset;
        true
    }

    #[tactic(auto, unfolding(crate::specs::BranchHints::hint_bytes), using(crate::proofs::Numbers::septets_few))]
    fn encoded_len(&self) -> usize {
        unsigned_len(u64::from(self.func_offset)) + 2
    }

    #[tactic(auto, unfolding(crate::specs::BranchHints::hint_bytes), using(crate::proofs::RestStays::stays_on))]
    fn encode_at(&self, bytes: &mut [u8], at: usize) -> usize {
        let after_offset = write_unsigned(bytes, at, u64::from(self.func_offset));
        let after_size = write_byte(bytes, after_offset, 0x01);
        write_byte(bytes, after_size, u8::from(self.taken))
    }

    fn reads_back(&self) {}
}

// Returns how many bytes the hints of a function have, with its index.
#[tactic(auto, unfolding(crate::specs::BranchHints::function_hints_bytes), using(crate::proofs::Numbers::septets_few))]
fn function_hints_len(function: &BranchHintFunction<'_>) -> usize
    ensures { result ≡ length (function_hints_bytes function.now) }
{
    unsigned_len(u64::from(function.func)) + copied_len(&function.hints)
}

impl<'a> Encode for BranchHintFunction<'a> {
    ghost use Rattle.wasm_base.specs.Item.{ReadsAs};
    ghost use Rattle.wasm_custom.specs.BranchHinting.{function_hints_at};
    ghost use Rattle.wasm_encode.specs.BranchHints.{FunctionHintsFit, function_hints_placed};

    ghost meaning = { ReadsAs (λ function. function) function_hints_at };

    ghost encoded = { function_hints_bytes };

    ghost is_encodable = { FunctionHintsFit };

    ghost is_allowed = { λ features function. Unit {0} };

    ghost placed = { function_hints_placed };

    fn fits(&self) -> bool {
        let _func = self.func;
        if !is_list(&self.hints) {
            return false;
        }
        function_hints_len(self) <= u32::MAX as usize
    }

    fn encoded_len(&self) -> usize {
        function_hints_len(self)
    }

    #[tactic(auto, unfolding(crate::specs::BranchHints::function_hints_bytes), using(crate::proofs::RestStays::stays_on))]
    fn encode_at(&self, bytes: &mut [u8], at: usize) -> usize {
        let after_func = write_unsigned(bytes, at, u64::from(self.func));
        write_copied(bytes, after_func, &self.hints)
    }

    fn reads_back(&self) {}
}
