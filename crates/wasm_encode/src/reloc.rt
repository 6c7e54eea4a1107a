// Relocations.
ghost use Rattle.std.specs.Prelude.{◌≡◌, ℕ, ◌+◌, ◌<◌, ◌^◌, ◌≤◌, ◌++◌, ◌↔◌, IsTrue, drop, length, take};
ghost use Rattle.wasm_custom.specs.Reloc.{addend_of, number_of};
ghost use Rattle.wasm_encode.specs.Reloc.{AddendFits, RelocationsBack, RelocFits, addend_bytes, reloc_bytes};

use crate::bytes::write_byte;
use crate::encode::Encode;
use crate::lists::{list_len, write_list};
use crate::number::{signed_len, unsigned_len, write_signed, write_unsigned};
use crate::sections::section_reads_back;
use wasm_custom::{RelocAddendKind, RelocationEntry, RelocationType};

// Returns the number of a type.
fn number_of(ty: RelocationType) -> u8
    ensures { result ≡ number_of ty }
{
    ty as u8
}

// Returns whether a type has this addend.
fn addend_fits(ty: RelocationType, addend: i64) -> bool
    ensures { IsTrue result ↔ AddendFits (addend_of ty) addend }
{
    match ty.addend_kind() {
        RelocAddendKind::None => addend == 0,
        RelocAddendKind::Addend32 => {
            if addend < -0x8000_0000 {
                return false;
            }
            addend < 0x8000_0000
        }
        RelocAddendKind::Addend64 => true,
    }
}

// Returns how many bytes the addend of a type has.
#[tactic(auto, using(crate::proofs::Numbers::septets_few))]
fn addend_len(ty: RelocationType, addend: i64) -> usize
    ensures len { result ≡ length (addend_bytes (addend_of ty) addend) }
    ensures most { result ≤ 10 }
{
    match ty.addend_kind() {
        RelocAddendKind::None => 0,
        _ => signed_len(addend),
    }
}

// Writes the addend of a relocation, if its type has one.
fn write_addend(bytes: &mut [u8], at: usize, entry: &RelocationEntry) -> usize
    requires fits { AddendFits (addend_of entry.now.ty) entry.now.addend }
    requires room { at + length (addend_bytes (addend_of entry.now.ty) entry.now.addend) ≤ length bytes.old }
    ensures end { result ≡ at + length (addend_bytes (addend_of entry.now.ty) entry.now.addend) }
    ensures written { take result bytes.new ≡ take at bytes.old
        ++ addend_bytes (addend_of entry.now.ty) entry.now.addend }
    ensures rest { drop result bytes.new ≡ drop result bytes.old }
    ensures len { length bytes.new ≡ length bytes.old }
{
    match entry.ty.addend_kind() {
        RelocAddendKind::None => at,
        RelocAddendKind::Addend32 => write_signed(bytes, at, entry.addend),
        RelocAddendKind::Addend64 => write_signed(bytes, at, entry.addend),
    }
}

impl Encode for RelocationEntry {
    ghost use Rattle.wasm_base.specs.Item.{ReadsAs};
    ghost use Rattle.wasm_custom.specs.Reloc.{relocation_at};
    ghost use Rattle.wasm_encode.specs.Reloc.{RelocationFits, relocation_bytes};

    ghost meaning = { ReadsAs (λ entry. entry) relocation_at };

    ghost encoded = { relocation_bytes };

    ghost is_encodable = { RelocationFits };

    ghost is_allowed = { λ features entry. Unit {0} };

    ghost placed = { λ features offset entry. entry };

    fn fits(&self) -> bool {
        let _offset = self.offset;
        let _index = self.index;
        addend_fits(self.ty, self.addend)
    }

    #[tactic(auto, unfolding(crate::specs::Reloc::relocation_bytes), using(crate::proofs::Numbers::septets_few))]
    fn encoded_len(&self) -> usize {
        1 + unsigned_len(u64::from(self.offset))
            + unsigned_len(u64::from(self.index))
            + addend_len(self.ty, self.addend)
    }

    #[tactic(auto, unfolding(crate::specs::Reloc::relocation_bytes), using(crate::proofs::RestStays::stays_on))]
    fn encode_at(&self, bytes: &mut [u8], at: usize) -> usize {
        let after_type = write_byte(bytes, at, number_of(self.ty));
        let after_offset = write_unsigned(bytes, after_type, u64::from(self.offset));
        let after_index = write_unsigned(bytes, after_offset, u64::from(self.index));
        write_addend(bytes, after_index, self)
    }

    fn reads_back(&self) {}
}

/// Returns how many bytes `write_reloc` writes of the relocations of a section.
///
/// The relocations must fit (`section_fits`).
///
/// ```rattle
/// let entry = RelocationEntry { ty: RelocationType::MemoryAddrLeb, offset: 6, index: 2, addend: 8 };
/// assert!(rt; section_fits(&[entry]));
/// assert_eq!(rt; reloc_len(3, &[entry]), 6);
/// ```
///
/// (Tool conventions, Linking, Relocation Sections.)
#[tactic(auto, using(crate::proofs::Numbers::septets_few))]
pub fn reloc_len(section: u32, entries: &[RelocationEntry]) -> usize
    requires { RelocFits entries.now }
    // Proved: `reloc_len` is how many bytes `write_reloc` writes
    ensures { result ≡ length (reloc_bytes section entries.now) }
{
    unsigned_len(u64::from(section)) + list_len(entries)
}

/// Writes the relocations of a section: its index among all sections, how many relocations there are, and the
/// relocations. It is the data of a custom section whose name begins with `reloc.`.
///
/// Writes at the index `at`, where there must be room for it, and returns the index after it. The relocations must fit
/// (`section_fits`).
///
/// ```rattle
/// let entry = RelocationEntry { ty: RelocationType::MemoryAddrLeb, offset: 6, index: 2, addend: 8 };
/// assert!(rt; section_fits(&[entry]));
/// let mut bytes = [0; 6];
/// write_reloc(&mut bytes, 0, 3, &[entry]);
/// assert_eq!(rt; &bytes, b"\x03\x01\x03\x06\x02\x08");
/// ```
///
/// (Tool conventions, Linking, Relocation Sections.)
#[tactic(auto, using(crate::proofs::RestStays::stays_on))]
pub fn write_reloc(bytes: &mut [u8], at: usize, section: u32, entries: &[RelocationEntry]) -> usize
    requires fits { RelocFits entries.now }
    requires room { at + length (reloc_bytes section entries.now) ≤ length bytes.old }
    ensures end { result ≡ at + length (reloc_bytes section entries.now) }
    // Proved: the relocations of a section are written as its index, their count and each of them, and no byte before
    //   or after them changes [`written`, `rest` of `write_reloc` (`reloc_bytes`)]
    ensures written { take result bytes.new ≡ take at bytes.old ++ reloc_bytes section entries.now }
    ensures rest { drop result bytes.new ≡ drop result bytes.old }
    ensures len { length bytes.new ≡ length bytes.old }
{
    let after_section = write_unsigned(bytes, at, u64::from(section));
    write_list(bytes, after_section, entries)
}

/// The data of a section of relocations, which `write_reloc` writes, is read as the index of the section and exactly
/// these relocations. Does nothing.
pub fn reloc_reads_back(section: u32, entries: &[RelocationEntry])
    requires { RelocFits entries.now }
    // Proved: the relocations of a section that were written are read as its index and exactly the given relocations,
    //   as `RelocSectionReader` reads them
    ensures { (features offset : ℕ) → RelocationsBack features offset section entries.now }
{
    let _section = section;
    section_reads_back(entries)
}
