// Indices: the items of the function section.
ghost use Rattle.std.specs.Prelude.{◌≡◌, ◌+◌, ◌≤◌, ◌<◌, ◌^◌, ◌++◌, ◌↔◌, IsTrue, drop, length, take};

use crate::encode::Encode;
use crate::number::{unsigned_len, write_unsigned};

impl Encode for u32 {
    ghost use Rattle.wasm_base.specs.Item.{ReadsAs};
    ghost use Rattle.wasm_base.specs.Number.{unsigned_at};
    ghost use Rattle.wasm_base.specs.declared.fault.NumberKind.TheVariants.{VarU32};
    ghost use Rattle.wasm_encode.specs.Numbers.{unsigned_bytes};

    ghost meaning = { ReadsAs (λ n. n) (unsigned_at VarU32) };

    ghost encoded = { unsigned_bytes };

    ghost is_encodable = { λ n. n < 2 ^ 32 };

    ghost is_allowed = { λ features n. Unit {0} };

    ghost placed = { λ features offset n. n };

    fn fits(&self) -> bool {
        let _index = *self;
        true
    }

    #[tactic(auto, using(crate::proofs::Numbers::septets_few))]
    fn encoded_len(&self) -> usize {
        unsigned_len(u64::from(*self))
    }

    fn encode_at(&self, bytes: &mut [u8], at: usize) -> usize {
        write_unsigned(bytes, at, u64::from(*self))
    }

    fn reads_back(&self) {}
}
