// Value types, reference types and heap types.
ghost use Rattle.std.specs.Prelude.{◌≡◌, ◌+◌, ◌≤◌, ◌++◌, ◌↔◌, IsTrue, length, take};
ghost use Rattle.wasm_encode.specs.Types.{heap_byte, heap_index, ref_prefix};

use crate::bytes::{write_byte, write_maybe};
use crate::encode::Encode;
use crate::number::{signed_len, write_signed};
use wasm_items::{HeapType, RefType, ValType};

// Returns the byte of an abstract heap type.
#[inline(always)]
fn abstract_byte(heap: &HeapType) -> Option<u8>
    ensures { result ≡ heap_byte heap.now }
{
    match heap {
        HeapType::Func => Some(0x70),
        HeapType::Extern => Some(0x6f),
        HeapType::Any => Some(0x6e),
        HeapType::Eq => Some(0x6d),
        HeapType::I31 => Some(0x6c),
        HeapType::Struct => Some(0x6b),
        HeapType::Array => Some(0x6a),
        HeapType::Exn => Some(0x69),
        HeapType::None => Some(0x71),
        HeapType::NoExtern => Some(0x72),
        HeapType::NoFunc => Some(0x73),
        HeapType::NoExn => Some(0x74),
        HeapType::Concrete(_) => None,
    }
}

// Returns the index of a type.
#[inline(always)]
fn index_of(heap: &HeapType) -> u32
    ensures { result ≡ heap_index heap.now }
{
    match heap {
        HeapType::Concrete(index) => *index,
        _ => 0,
    }
}

// Returns the byte before the heap type of a reference, if it has one.
#[inline(always)]
fn prefix_of(nullable: bool, byte: Option<u8>) -> Option<u8>
    ensures { result ≡ ref_prefix nullable byte }
{
    match (nullable, byte) {
        (true, Some(_)) => None,
        (true, None) => Some(0x63),
        (false, _) => Some(0x64),
    }
}

impl Encode for HeapType {
    ghost use Rattle.wasm_base.specs.Item.{ReadsAs};
    ghost use Rattle.wasm_encode.specs.Types.{HeapFits, heap_bytes};
    ghost use Rattle.wasm_items.specs.Values.{heap_type_at};

    ghost meaning = { ReadsAs (λ heap. heap) heap_type_at };

    ghost encoded = { heap_bytes };

    ghost is_encodable = { HeapFits };

    ghost is_allowed = { λ features heap. Unit {0} };

    ghost placed = { λ features offset heap. heap };

    fn fits(&self) -> bool {
        let _index = index_of(self);
        true
    }

    #[tactic(auto, unfolding(crate::specs::Types::heap_bytes), using(crate::proofs::Numbers::septets_few))]
    fn encoded_len(&self) -> usize {
        match abstract_byte(self) {
            Some(_) => 1,
            None => signed_len(i64::from(index_of(self))),
        }
    }

    #[tactic(auto, unfolding(crate::specs::Types::heap_bytes))]
    fn encode_at(&self, bytes: &mut [u8], at: usize) -> usize {
        match abstract_byte(self) {
            Some(byte) => write_byte(bytes, at, byte),
            None => write_signed(bytes, at, i64::from(index_of(self))),
        }
    }

    fn reads_back(&self) {}
}

impl Encode for RefType {
    ghost use Rattle.wasm_base.specs.Item.{ReadsAs};
    ghost use Rattle.wasm_encode.specs.Types.{HeapFits, ref_bytes};
    ghost use Rattle.wasm_items.specs.Values.{ref_type_at};

    ghost meaning = { ReadsAs (λ ty. ty) ref_type_at };

    ghost encoded = { ref_bytes };

    ghost is_encodable = { λ ty. HeapFits ty.heap };

    ghost is_allowed = { λ features ty. Unit {0} };

    ghost placed = { λ features offset ty. ty };

    fn fits(&self) -> bool {
        self.heap.fits()
    }

    #[tactic(auto, unfolding(crate::specs::Types::ref_bytes), using(crate::proofs::Lengths::heap_few))]
    fn encoded_len(&self) -> usize {
        match prefix_of(self.nullable, abstract_byte(&self.heap)) {
            Some(_) => 1 + self.heap.encoded_len(),
            None => self.heap.encoded_len(),
        }
    }

    #[tactic(auto, unfolding(crate::specs::Types::ref_bytes), using(crate::proofs::RestStays::stays_on))]
    fn encode_at(&self, bytes: &mut [u8], at: usize) -> usize {
        let prefix = prefix_of(self.nullable, abstract_byte(&self.heap));
        let before_heap = write_maybe(bytes, at, prefix);
        self.heap.encode_at(bytes, before_heap)
    }

    fn reads_back(&self) {}
}

impl Encode for ValType {
    ghost use Rattle.wasm_base.specs.Item.{ReadsAs};
    ghost use Rattle.wasm_encode.specs.Types.{ValFits, val_bytes};
    ghost use Rattle.wasm_items.specs.Values.{val_type_at};

    ghost meaning = { ReadsAs (λ ty. ty) val_type_at };

    ghost encoded = { val_bytes };

    ghost is_encodable = { ValFits };

    ghost is_allowed = { λ features ty. Unit {0} };

    ghost placed = { λ features offset ty. ty };

    fn fits(&self) -> bool {
        match self {
            ValType::Ref(ty) => ty.fits(),
            _ => true,
        }
    }

    #[tactic(auto, unfolding(crate::specs::Types::val_bytes), using(crate::proofs::Lengths::ref_few))]
    fn encoded_len(&self) -> usize {
        match self {
            ValType::Ref(ty) => ty.encoded_len(),
            ValType::I32 | ValType::I64 | ValType::F32 | ValType::F64 | ValType::V128 => 1,
        }
    }

    #[inline(always)]
    #[tactic(auto, unfolding(crate::specs::Types::val_bytes))]
    fn encode_at(&self, bytes: &mut [u8], at: usize) -> usize {
        match self {
            ValType::I32 => write_byte(bytes, at, 0x7f),
            ValType::I64 => write_byte(bytes, at, 0x7e),
            ValType::F32 => write_byte(bytes, at, 0x7d),
            ValType::F64 => write_byte(bytes, at, 0x7c),
            ValType::V128 => write_byte(bytes, at, 0x7b),
            ValType::Ref(ty) => ty.encode_at(bytes, at),
        }
    }

    fn reads_back(&self) {}
}
