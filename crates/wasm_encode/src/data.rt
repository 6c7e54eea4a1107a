// Data segments.
ghost use Rattle.std.specs.Prelude.{◌≡◌, ◌+◌, ◌≤◌, ◌<◌, ◌^◌, ◌++◌, ◌↔◌, IsTrue, drop, length, take};
ghost use Rattle.wasm_encode.specs.Data.{DataKindFits, data_bytes, data_kind_bytes, memory_bytes};

use crate::bytes::{write_byte, write_bytes};
use crate::encode::Encode;
use crate::expressions::bytes_of;
use crate::globals::is_expression;
use crate::number::{unsigned_len, write_unsigned};
use wasm_items::{Data, DataKind};

// Returns how many bytes the flags of an active segment have, with the index of its memory.
#[tactic(auto, using(crate::proofs::Numbers::septets_few))]
fn memory_len(memory_index: u32) -> usize
    ensures len { result ≡ length (memory_bytes memory_index) }
    ensures most { result ≤ 11 }
{
    if memory_index == 0 {
        1
    } else {
        1 + unsigned_len(u64::from(memory_index))
    }
}

// Writes the flags of an active segment, and the index of its memory if that isn't 0.
#[tactic(auto, using(crate::proofs::RestStays::stays_on))]
fn write_memory(bytes: &mut [u8], at: usize, memory_index: u32) -> usize
    requires { at + length (memory_bytes memory_index) ≤ length bytes.old }
    ensures end { result ≡ at + length (memory_bytes memory_index) }
    ensures written { take result bytes.new ≡ take at bytes.old ++ memory_bytes memory_index }
    ensures rest { drop result bytes.new ≡ drop result bytes.old }
    ensures len { length bytes.new ≡ length bytes.old }
{
    if memory_index == 0 {
        write_byte(bytes, at, 0x00)
    } else {
        let after_flags = write_byte(bytes, at, 0x02);
        write_unsigned(bytes, after_flags, u64::from(memory_index))
    }
}

// Returns whether the kind of a segment can be written.
fn kind_fits(kind: &DataKind<'_>) -> bool
    ensures { IsTrue result ↔ DataKindFits kind.now }
{
    match kind {
        DataKind::Passive => true,
        DataKind::Active {
            memory_index,
            offset_expr,
        } => {
            let _index = *memory_index;
            is_expression(offset_expr)
        }
    }
}

// Returns how many bytes the kind of a segment has, with its flags.
fn kind_len(kind: &DataKind<'_>) -> usize
    ensures len { result ≡ length (data_kind_bytes kind.now) }
    ensures most { result < 2 ^ 63 + 11 }
{
    match kind {
        DataKind::Passive => 1,
        DataKind::Active {
            memory_index,
            offset_expr,
        } => memory_len(*memory_index) + bytes_of(offset_expr).len(),
    }
}

// Writes the flags and the kind of a segment.
#[tactic(auto, using(crate::proofs::RestStays::stays_on))]
fn write_kind(bytes: &mut [u8], at: usize, kind: &DataKind<'_>) -> usize
    requires { at + length (data_kind_bytes kind.now) ≤ length bytes.old }
    ensures end { result ≡ at + length (data_kind_bytes kind.now) }
    ensures written { take result bytes.new ≡ take at bytes.old ++ data_kind_bytes kind.now }
    ensures rest { drop result bytes.new ≡ drop result bytes.old }
    ensures len { length bytes.new ≡ length bytes.old }
{
    match kind {
        DataKind::Passive => write_byte(bytes, at, 0x01),
        DataKind::Active {
            memory_index,
            offset_expr,
        } => {
            let after_memory = write_memory(bytes, at, *memory_index);
            write_bytes(bytes, after_memory, bytes_of(offset_expr))
        }
    }
}

// Returns how many bytes a segment has.
#[tactic(auto, unfolding(crate::specs::Data::data_bytes), using(crate::proofs::Numbers::septets_few))]
fn data_len(segment: &Data<'_>) -> usize
    requires { length segment.now.bytes.now < 2 ^ 32 }
    ensures { result ≡ length (data_bytes segment.now) }
{
    let bytes = segment.bytes;
    kind_len(&segment.kind) + unsigned_len(bytes.len() as u64) + bytes.len()
}

impl<'a> Encode for Data<'a> {
    ghost use Rattle.wasm_base.specs.Item.{ReadsAs};
    ghost use Rattle.wasm_encode.specs.Data.{DataFits, data_placed};
    ghost use Rattle.wasm_items.specs.Data.{data_at, data_parts};

    ghost meaning = { ReadsAs data_parts data_at };

    ghost encoded = { data_bytes };

    ghost is_encodable = { DataFits };

    ghost is_allowed = { λ features segment. Unit {0} };

    ghost placed = { data_placed };

    #[tactic(auto, using(crate::proofs::DataBack::bytes_few))]
    fn fits(&self) -> bool {
        if !kind_fits(&self.kind) {
            return false;
        }
        let bytes = self.bytes;
        if bytes.len() > u32::MAX as usize {
            return false;
        }
        data_len(self) <= u32::MAX as usize
    }

    #[tactic(auto, using(crate::proofs::DataBack::bytes_few))]
    fn encoded_len(&self) -> usize {
        data_len(self)
    }

    #[tactic(auto, unfolding(crate::specs::Data::data_bytes), using(crate::proofs::RestStays::stays_on))]
    fn encode_at(&self, bytes: &mut [u8], at: usize) -> usize {
        let after_kind = write_kind(bytes, at, &self.kind);
        let after_size = write_unsigned(bytes, after_kind, self.bytes.len() as u64);
        write_bytes(bytes, after_size, self.bytes)
    }

    fn reads_back(&self) {}
}
