// What a linker reads of segments, functions that are called at startup, and comdats.
ghost use Rattle.std.specs.Prelude.{◌≡◌, ℕ, ◌+◌, ◌≤◌, ◌<◌, ◌^◌, ◌++◌, ◌↔◌, IsTrue, length, take};
ghost use Rattle.wasm_custom.specs.Linking.{comdat_parts, segment_parts};
ghost use Rattle.wasm_encode.specs.Linking.{ArchBack, LinkingReadsBack, comdat_bytes, comdat_kind_byte, segment_bytes};
ghost use Rattle.wasm_encode.specs.Names.{NameFits};
ghost use Rattle.wasm_encode.specs.Sections.{SectionFits};

use crate::bytes::write_byte;
use crate::encode::Encode;
use crate::lists::{copied_len, is_list, write_copied};
use crate::names::write_name;
use crate::number::{unsigned_len, write_unsigned};
use crate::subsections::list_subsection_reads_back;
use crate::texts::{text_fits, text_len};
use bitflags::Flags;
use wasm_custom::{Comdat, ComdatSymbol, ComdatSymbolKind, InitFunc, Segment};

// Returns how many bytes a segment has.
#[tactic(auto, unfolding(crate::specs::Linking::segment_bytes), using(crate::proofs::Numbers::septets_few))]
fn segment_len(segment: &Segment<'_>) -> usize
    requires { length segment.now.name.now < 2 ^ 32 }
    ensures { result ≡ length (segment_bytes (segment_parts segment.now)) }
{
    text_len(segment.name)
        + unsigned_len(u64::from(segment.alignment))
        + unsigned_len(u64::from(segment.flags.bits()))
}

impl<'a> Encode for Segment<'a> {
    ghost use Rattle.wasm_base.specs.Item.{ReadsAs};
    ghost use Rattle.wasm_custom.specs.Linking.{segment_at};
    ghost use Rattle.wasm_encode.specs.Linking.{SegmentFits};

    ghost meaning = { ReadsAs segment_parts segment_at };

    ghost encoded = { λ segment. segment_bytes (segment_parts segment) };

    ghost is_encodable = { λ segment. SegmentFits (segment_parts segment) };

    ghost is_allowed = { λ features segment. Unit {0} };

    ghost placed = { λ features offset segment. segment };

    fn fits(&self) -> bool {
        let _alignment = self.alignment;
        let _flags = self.flags.bits();
        if !text_fits(self.name) {
            return false;
        }
        segment_len(self) <= u32::MAX as usize
    }

    fn encoded_len(&self) -> usize {
        segment_len(self)
    }

    #[tactic(auto, unfolding(crate::specs::Linking::segment_bytes), using(crate::proofs::RestStays::stays_on))]
    fn encode_at(&self, bytes: &mut [u8], at: usize) -> usize {
        let after_name = write_name(bytes, at, self.name);
        let after_alignment = write_unsigned(bytes, after_name, u64::from(self.alignment));
        write_unsigned(bytes, after_alignment, u64::from(self.flags.bits()))
    }

    fn reads_back(&self) {}
}

impl Encode for InitFunc {
    ghost use Rattle.wasm_base.specs.Item.{ReadsAs};
    ghost use Rattle.wasm_custom.specs.Linking.{init_function_at};
    ghost use Rattle.wasm_encode.specs.Linking.{InitFunctionFits, init_function_bytes};

    ghost meaning = { ReadsAs (λ function. function) init_function_at };

    ghost encoded = { init_function_bytes };

    ghost is_encodable = { InitFunctionFits };

    ghost is_allowed = { λ features function. Unit {0} };

    ghost placed = { λ features offset function. function };

    fn fits(&self) -> bool {
        let _priority = self.priority;
        let _index = self.symbol_index;
        true
    }

    #[tactic(auto, unfolding(crate::specs::Linking::init_function_bytes), using(crate::proofs::Numbers::septets_few))]
    fn encoded_len(&self) -> usize {
        unsigned_len(u64::from(self.priority)) + unsigned_len(u64::from(self.symbol_index))
    }

    #[tactic(auto, unfolding(crate::specs::Linking::init_function_bytes), using(crate::proofs::RestStays::stays_on))]
    fn encode_at(&self, bytes: &mut [u8], at: usize) -> usize {
        let after_priority = write_unsigned(bytes, at, u64::from(self.priority));
        write_unsigned(bytes, after_priority, u64::from(self.symbol_index))
    }

    fn reads_back(&self) {}
}

// Returns the byte of the kind of a comdat's symbol.
fn byte_of(kind: ComdatSymbolKind) -> u8
    ensures { result ≡ comdat_kind_byte kind }
{
    match kind {
        ComdatSymbolKind::Data => 0x00,
        ComdatSymbolKind::Func => 0x01,
        ComdatSymbolKind::Global => 0x02,
        ComdatSymbolKind::Event => 0x03,
        ComdatSymbolKind::Table => 0x04,
        ComdatSymbolKind::Section => 0x05,
    }
}

impl Encode for ComdatSymbol {
    ghost use Rattle.wasm_base.specs.Item.{ReadsAs};
    ghost use Rattle.wasm_custom.specs.Linking.{comdat_symbol_at};
    ghost use Rattle.wasm_encode.specs.Linking.{comdat_symbol_bytes};

    ghost meaning = { ReadsAs (λ symbol. symbol) comdat_symbol_at };

    ghost encoded = { comdat_symbol_bytes };

    ghost is_encodable = { λ symbol. symbol.index < 2 ^ 32 };

    ghost is_allowed = { λ features symbol. Unit {0} };

    ghost placed = { λ features offset symbol. symbol };

    fn fits(&self) -> bool {
        let _index = self.index;
        true
    }

    #[tactic(auto, unfolding(crate::specs::Linking::comdat_symbol_bytes), using(crate::proofs::Numbers::septets_few))]
    fn encoded_len(&self) -> usize {
        1 + unsigned_len(u64::from(self.index))
    }

    #[tactic(auto, unfolding(crate::specs::Linking::comdat_symbol_bytes), using(crate::proofs::RestStays::stays_on))]
    fn encode_at(&self, bytes: &mut [u8], at: usize) -> usize {
        let after_kind = write_byte(bytes, at, byte_of(self.kind));
        write_unsigned(bytes, after_kind, u64::from(self.index))
    }

    fn reads_back(&self) {}
}

// Returns how many bytes a comdat has.
#[tactic(auto, unfolding(crate::specs::Linking::comdat_bytes), using(crate::proofs::Numbers::septets_few))]
fn comdat_len(comdat: &Comdat<'_>) -> usize
    requires { length comdat.now.name.now < 2 ^ 32 }
    ensures { result ≡ length (comdat_bytes (comdat_parts comdat.now)) }
{
    text_len(comdat.name) + unsigned_len(u64::from(comdat.flags)) + copied_len(&comdat.symbols)
}

impl<'a> Encode for Comdat<'a> {
    ghost use Rattle.wasm_base.specs.Item.{ReadsAs};
    ghost use Rattle.wasm_custom.specs.Linking.{comdat_at};
    ghost use Rattle.wasm_encode.specs.Linking.{ComdatFits, comdat_placed};

    ghost meaning = { ReadsAs comdat_parts comdat_at };

    ghost encoded = { λ comdat. comdat_bytes (comdat_parts comdat) };

    ghost is_encodable = { λ comdat. ComdatFits (comdat_parts comdat) };

    ghost is_allowed = { λ features comdat. Unit {0} };

    ghost placed = { comdat_placed };

    fn fits(&self) -> bool {
        let _flags = self.flags;
        if !text_fits(self.name) {
            return false;
        }
        if !is_list(&self.symbols) {
            return false;
        }
        comdat_len(self) <= u32::MAX as usize
    }

    fn encoded_len(&self) -> usize {
        comdat_len(self)
    }

    #[tactic(auto, unfolding(crate::specs::Linking::comdat_bytes), using(crate::proofs::RestStays::stays_on))]
    fn encode_at(&self, bytes: &mut [u8], at: usize) -> usize {
        let after_name = write_name(bytes, at, self.name);
        let after_flags = write_unsigned(bytes, after_name, u64::from(self.flags));
        write_copied(bytes, after_flags, &self.symbols)
    }

    fn reads_back(&self) {}
}

/// A subsection of segments, startup functions, comdats or symbols, which `write_section` writes with the ids 5 to 8,
/// is read as exactly these items. Does nothing.
pub fn linking_reads_back<T: Encode>(items: &[T])
    requires { SectionFits T.encoded T.is_encodable items.now }
    // Proved: each subsection of `linking` that was written is read as its id and exactly what was written, as
    //   `Linking` reads it [the clauses of `linking_reads_back`, `linking_arch_reads_back`]
    ensures { LinkingReadsBack T.meaning T.is_allowed T.encoded T.placed items.now }
{
    list_subsection_reads_back(items)
}

/// The subsection of the architecture that a module is for, which `write_subsection` writes with the id 9, is read as
/// exactly this name. Does nothing.
pub fn linking_arch_reads_back(name: &str)
    requires { NameFits name.now }
    ensures { (features offset : ℕ) → ArchBack features offset name.now }
{
    let _name = name;
}
