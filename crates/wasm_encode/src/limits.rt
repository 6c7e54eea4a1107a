// The types of tables, memories, globals and tags.
ghost use Rattle.std.specs.Prelude.{◌≡◌, ◌+◌, ◌≤◌, ◌<◌, ◌++◌, ◌↔◌, IsTrue, drop, length, take};
ghost use Rattle.wasm_encode.specs.Limits.{LimitsFit, flag, limits_bytes, maybe_number, memory_flags, table_flags, global_flags};

use crate::bytes::write_byte;
use crate::encode::Encode;
use crate::number::{unsigned_len, write_unsigned};
use wasm_items::{GlobalType, MemoryType, TableType, TagType};

// Returns a flag, if it is set.
#[inline(always)]
fn flag_of(is_set: bool, weight: u8) -> u8
    ensures value { result ≡ flag is_set weight }
    ensures most { result ≤ weight }
{
    if is_set { weight } else { 0 }
}

/// Returns how many bytes a number has, if there is one.
#[tactic(auto, using(crate::proofs::Numbers::septets_few))]
#[inline(always)]
pub(crate) fn maybe_len(number: Option<u64>) -> usize
    ensures len { result ≡ length (maybe_number number) }
    ensures most { result ≤ 10 }
{
    match number {
        Some(number) => unsigned_len(number),
        None => 0,
    }
}

/// Writes a number, if there is one.
#[inline(always)]
pub(crate) fn write_maybe_number(bytes: &mut [u8], at: usize, number: Option<u64>) -> usize
    requires { at + length (maybe_number number) ≤ length bytes.old }
    ensures end { result ≡ at + length (maybe_number number) }
    ensures written { take result bytes.new ≡ take at bytes.old ++ maybe_number number }
    ensures rest { drop result bytes.new ≡ drop result bytes.old }
    ensures len { length bytes.new ≡ length bytes.old }
{
    match number {
        Some(number) => write_unsigned(bytes, at, number),
        None => at,
    }
}

// Returns how many bytes limits have.
#[tactic(auto, unfolding(crate::specs::Limits::limits_bytes), using(crate::proofs::Numbers::septets_few))]
fn limits_len(initial: u64, maximum: Option<u64>) -> usize
    ensures len { result ≡ length (limits_bytes initial maximum) }
    ensures most { result ≤ 20 }
{
    unsigned_len(initial) + maybe_len(maximum)
}

// Writes a minimum, and a maximum if there is one.
#[tactic(auto, unfolding(crate::specs::Limits::limits_bytes), using(crate::proofs::RestStays::stays_on))]
fn write_limits(bytes: &mut [u8], at: usize, initial: u64, maximum: Option<u64>) -> usize
    requires { at + length (limits_bytes initial maximum) ≤ length bytes.old }
    ensures end { result ≡ at + length (limits_bytes initial maximum) }
    ensures written { take result bytes.new ≡ take at bytes.old ++ limits_bytes initial maximum }
    ensures rest { drop result bytes.new ≡ drop result bytes.old }
    ensures len { length bytes.new ≡ length bytes.old }
{
    let after_minimum = write_unsigned(bytes, at, initial);
    write_maybe_number(bytes, after_minimum, maximum)
}

// Returns the flags of a table.
fn flags_of_table(ty: &TableType) -> u8
    ensures { result ≡ table_flags ty.now }
{
    flag_of(ty.maximum.is_some(), 1) + flag_of(ty.shared, 2) + flag_of(ty.table64, 4)
}

// Returns the flags of a memory.
fn flags_of_memory(ty: &MemoryType) -> u8
    ensures { result ≡ memory_flags ty.now }
{
    flag_of(ty.maximum.is_some(), 1)
        + flag_of(ty.shared, 2)
        + flag_of(ty.memory64, 4)
        + flag_of(ty.page_size_log2.is_some(), 8)
}

// Returns the flags of a global.
fn flags_of_global(ty: &GlobalType) -> u8
    ensures { result ≡ global_flags ty.now }
{
    flag_of(ty.mutable, 1) + flag_of(ty.shared, 2)
}

// Returns the size of a page as a number of 64 bits.
fn page_of(ty: &MemoryType) -> Option<u64>
    ensures { result ≡ ty.now.page_size_log2 }
{
    match ty.page_size_log2 {
        Some(size) => Some(u64::from(size)),
        None => None,
    }
}

// Returns whether limits are numbers of 64 bits, as they always are.
fn limits_fit(initial: u64, maximum: Option<u64>) -> bool
    ensures { IsTrue result ↔ LimitsFit initial maximum }
{
    let _initial = initial;
    match maximum {
        Some(_maximum) => true,
        None => true,
    }
}

impl Encode for TableType {
    ghost use Rattle.wasm_base.specs.Item.{ReadsAs};
    ghost use Rattle.wasm_encode.specs.Limits.{LimitsAllowed, TableFits, table_type_bytes};
    ghost use Rattle.wasm_items.specs.Tables.{table_type_at};

    ghost meaning = { ReadsAs (λ ty. ty) table_type_at };

    ghost encoded = { table_type_bytes };

    ghost is_encodable = { TableFits };

    ghost is_allowed = { λ features ty. LimitsAllowed features ty.initial ty.maximum };

    ghost placed = { λ features offset ty. ty };

    fn fits(&self) -> bool {
        if !limits_fit(self.initial, self.maximum) {
            return false;
        }
        self.element_type.fits()
    }

    #[tactic(auto, unfolding(crate::specs::Limits::table_type_bytes), using(crate::proofs::Lengths::ref_few, crate::proofs::Lengths::limits_few, crate::proofs::Lengths::table_few))]
    fn encoded_len(&self) -> usize {
        self.element_type.encoded_len() + 1 + limits_len(self.initial, self.maximum)
    }

    #[tactic(auto, unfolding(crate::specs::Limits::table_type_bytes), using(crate::proofs::RestStays::stays_on))]
    fn encode_at(&self, bytes: &mut [u8], at: usize) -> usize {
        let after_element = self.element_type.encode_at(bytes, at);
        let after_flags = write_byte(bytes, after_element, flags_of_table(self));
        write_limits(bytes, after_flags, self.initial, self.maximum)
    }

    fn reads_back(&self) {}
}

impl Encode for MemoryType {
    ghost use Rattle.wasm_base.specs.Item.{ReadsAs};
    ghost use Rattle.wasm_encode.specs.Limits.{LimitsAllowed, MemoryFits, memory_type_bytes};
    ghost use Rattle.wasm_items.specs.Memories.{memory_type_at};

    ghost meaning = { ReadsAs (λ ty. ty) memory_type_at };

    ghost encoded = { memory_type_bytes };

    ghost is_encodable = { MemoryFits };

    ghost is_allowed = { λ features ty. LimitsAllowed features ty.initial ty.maximum };

    ghost placed = { λ features offset ty. ty };

    fn fits(&self) -> bool {
        if !limits_fit(self.initial, self.maximum) {
            return false;
        }
        match self.page_size_log2 {
            Some(size) => size < 64,
            None => true,
        }
    }

    #[tactic(auto, unfolding(crate::specs::Limits::memory_type_bytes), using(crate::proofs::Lengths::limits_few, crate::proofs::Lengths::memory_few))]
    fn encoded_len(&self) -> usize {
        1 + limits_len(self.initial, self.maximum) + maybe_len(page_of(self))
    }

    #[tactic(auto, unfolding(crate::specs::Limits::memory_type_bytes), using(crate::proofs::RestStays::stays_on))]
    fn encode_at(&self, bytes: &mut [u8], at: usize) -> usize {
        let after_flags = write_byte(bytes, at, flags_of_memory(self));
        let after_limits = write_limits(bytes, after_flags, self.initial, self.maximum);
        write_maybe_number(bytes, after_limits, page_of(self))
    }

    fn reads_back(&self) {}
}

impl Encode for GlobalType {
    ghost use Rattle.wasm_base.specs.Item.{ReadsAs};
    ghost use Rattle.wasm_encode.specs.Limits.{global_type_bytes};
    ghost use Rattle.wasm_encode.specs.Types.{ValFits};
    ghost use Rattle.wasm_items.specs.Globals.{global_type_at};

    ghost meaning = { ReadsAs (λ ty. ty) global_type_at };

    ghost encoded = { global_type_bytes };

    ghost is_encodable = { λ ty. ValFits ty.content_type };

    ghost is_allowed = { λ features ty. Unit {0} };

    ghost placed = { λ features offset ty. ty };

    fn fits(&self) -> bool {
        self.content_type.fits()
    }

    #[tactic(auto, unfolding(crate::specs::Limits::global_type_bytes), using(crate::proofs::Lengths::val_few, crate::proofs::Lengths::global_few))]
    fn encoded_len(&self) -> usize {
        self.content_type.encoded_len() + 1
    }

    #[tactic(auto, unfolding(crate::specs::Limits::global_type_bytes), using(crate::proofs::RestStays::stays_on))]
    fn encode_at(&self, bytes: &mut [u8], at: usize) -> usize {
        let after_content = self.content_type.encode_at(bytes, at);
        write_byte(bytes, after_content, flags_of_global(self))
    }

    fn reads_back(&self) {}
}

impl Encode for TagType {
    ghost use Rattle.std.specs.Prelude.{◌^◌};
    ghost use Rattle.wasm_base.specs.Item.{ReadsAs};
    ghost use Rattle.wasm_encode.specs.Limits.{tag_type_bytes};
    ghost use Rattle.wasm_items.specs.Tags.{tag_type_at};

    ghost meaning = { ReadsAs (λ ty. ty) tag_type_at };

    ghost encoded = { tag_type_bytes };

    ghost is_encodable = { λ ty. ty.func_type_idx < 2 ^ 32 };

    ghost is_allowed = { λ features ty. Unit {0} };

    ghost placed = { λ features offset ty. ty };

    fn fits(&self) -> bool {
        let _index = self.func_type_idx;
        true
    }

    #[tactic(auto, unfolding(crate::specs::Limits::tag_type_bytes), using(crate::proofs::Lengths::tag_few))]
    fn encoded_len(&self) -> usize {
        1 + unsigned_len(u64::from(self.func_type_idx))
    }

    #[tactic(auto, unfolding(crate::specs::Limits::tag_type_bytes), using(crate::proofs::RestStays::stays_on))]
    fn encode_at(&self, bytes: &mut [u8], at: usize) -> usize {
        let after_attribute = write_byte(bytes, at, 0x00);
        write_unsigned(bytes, after_attribute, u64::from(self.func_type_idx))
    }

    fn reads_back(&self) {}
}
