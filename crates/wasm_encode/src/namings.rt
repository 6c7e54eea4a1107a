// Names of the section `name`: entries of name maps, and what its subsections are read as.
ghost use Rattle.std.specs.Prelude.{◌≡◌, ℕ, ◌+◌, ◌≤◌, ◌<◌, ◌^◌, ◌++◌, ◌↔◌, IsTrue, length, take};
ghost use Rattle.wasm_base.specs.Ascending.{is_above};
ghost use Rattle.wasm_custom.specs.Names.{naming_parts};
ghost use Rattle.wasm_encode.specs.Names.{NameFits};
ghost use Rattle.wasm_encode.specs.Namings.{HasNotBegun, IsAscending, MapBack, MapFits, ModuleNameBack, indirect_bytes, names_of, naming_bytes};

use crate::encode::Encode;
use crate::lists::{copied_len, is_list, write_copied};
use crate::names::write_name;
use crate::number::{unsigned_len, write_unsigned};
use crate::subsections::list_subsection_reads_back;
use crate::texts::{text_fits, text_len};
use wasm_base::SectionLimited;
use wasm_custom::{IndirectNaming, NameMap, Naming};

// Returns how many bytes an index and its name have.
#[tactic(auto, unfolding(crate::specs::Namings::naming_bytes), using(crate::proofs::Numbers::septets_few))]
fn naming_len(naming: &Naming<'_>) -> usize
    requires { length naming.now.name.now < 2 ^ 32 }
    ensures { result ≡ length (naming_bytes (naming_parts naming.now)) }
{
    unsigned_len(u64::from(naming.index)) + text_len(naming.name)
}

impl<'a> Encode for Naming<'a> {
    ghost use Rattle.wasm_base.specs.Item.{ReadsAs};
    ghost use Rattle.wasm_custom.specs.Names.{naming_at};
    ghost use Rattle.wasm_encode.specs.Namings.{NamingFits};

    ghost meaning = { ReadsAs naming_parts naming_at };

    ghost encoded = { λ naming. naming_bytes (naming_parts naming) };

    ghost is_encodable = { λ naming. NamingFits (naming_parts naming) };

    ghost is_allowed = { λ features naming. Unit {0} };

    ghost placed = { λ features offset naming. naming };

    fn fits(&self) -> bool {
        let _index = self.index;
        if !text_fits(self.name) {
            return false;
        }
        naming_len(self) <= u32::MAX as usize
    }

    fn encoded_len(&self) -> usize {
        naming_len(self)
    }

    #[tactic(auto, unfolding(crate::specs::Namings::naming_bytes), using(crate::proofs::RestStays::stays_on))]
    fn encode_at(&self, bytes: &mut [u8], at: usize) -> usize {
        let after_index = write_unsigned(bytes, at, u64::from(self.index));
        write_name(bytes, after_index, self.name)
    }

    fn reads_back(&self) {}
}

// Returns the names of an entry of an indirect name map as a list.
fn names_of<'a>(naming: &IndirectNaming<'a>) -> SectionLimited<'a, Naming<'a>>
    ensures { result ≡ names_of naming.now }
{
    SectionLimited::from(naming.names.names.clone().unwrap())
}

// Returns whether the iterator over the names of an entry has not begun.
fn has_not_begun(naming: &IndirectNaming<'_>) -> bool
    ensures { IsTrue result ↔ HasNotBegun naming.now }
{
    match naming.names.names.size_hint().1 {
        Some(most) => most == names_of(naming).count() as usize + 1,
        None => false,
    }
}

// Returns how many bytes an entry of an indirect name map has.
#[tactic(auto, unfolding(crate::specs::Namings::indirect_bytes), using(crate::proofs::Numbers::septets_few))]
fn indirect_len(naming: &IndirectNaming<'_>) -> usize
    ensures { result ≡ length (indirect_bytes naming.now) }
{
    unsigned_len(u64::from(naming.index)) + copied_len(&names_of(naming))
}

impl<'a> Encode for IndirectNaming<'a> {
    ghost use Rattle.wasm_base.specs.Item.{ReadsAs};
    ghost use Rattle.wasm_custom.specs.Names.{indirect_naming_at};
    ghost use Rattle.wasm_encode.specs.Namings.{IndirectFits, indirect_placed};

    ghost meaning = { ReadsAs (λ naming. naming) indirect_naming_at };

    ghost encoded = { indirect_bytes };

    ghost is_encodable = { IndirectFits };

    ghost is_allowed = { λ features naming. Unit {0} };

    ghost placed = { indirect_placed };

    fn fits(&self) -> bool {
        let _index = self.index;
        if !has_not_begun(self) {
            return false;
        }
        if !is_list(&names_of(self)) {
            return false;
        }
        indirect_len(self) <= u32::MAX as usize
    }

    fn encoded_len(&self) -> usize {
        indirect_len(self)
    }

    #[tactic(auto, unfolding(crate::specs::Namings::indirect_bytes), using(crate::proofs::RestStays::stays_on))]
    fn encode_at(&self, bytes: &mut [u8], at: usize) -> usize {
        let after_index = write_unsigned(bytes, at, u64::from(self.index));
        write_copied(bytes, after_index, &names_of(self))
    }

    fn reads_back(&self) {}
}

/// The subsection of a module's name, which `write_subsection` writes with the id 0, is read as that name, wherever it
/// is and whatever comes after it. Does nothing.
pub fn module_name_reads_back(name: &str)
    requires { NameFits name.now }
    // Proved: the name of a module that was written is read as that name, as `Name` reads it
    ensures { (features offset : ℕ) → ModuleNameBack features offset name.now }
{
    let _name = name;
}

/// A subsection that is a name map, which `write_section` writes, is read as exactly these entries, wherever it is and
/// whatever comes after it. Iterating over it returns them if their indices ascend. Does nothing.
pub fn name_map_reads_back<'a>(namings: &[Naming<'a>])
    requires { MapFits namings.now }
    // Proved: a name map that was written is read as its id and exactly the given entries, as `Name` reads it, and
    //   iterating over it returns them if their indices ascend
    ensures { (features offset : ℕ) → MapBack ⟦<NameMap<'a> as Iterator>⟧.next_gives
        features offset namings.now }
{
    list_subsection_reads_back(namings)
}

// Returns whether an index is above the last one, if there is one.
fn is_above(last: Option<u32>, index: u32) -> bool
    ensures { result ≡ is_above last index }
{
    match last {
        Some(last) => index > last,
        None => true,
    }
}

/// Returns whether the indices of entries ascend strictly, as those of a name map must.
///
/// A map with other entries can be written, but iterating over it returns an error for each entry whose index is not
/// above all earlier ones.
///
/// ```rattle
/// let names = [Naming { index: 3, name: "a" }, Naming { index: 5, name: "b" }];
/// assert!(rt; names_ascend(&names));
/// ```
///
/// (Core specification, Appendix, Custom Sections, Name Section, Name Maps.)
pub fn names_ascend(namings: &[Naming<'_>]) -> bool
    // Proved: whether the indices of entries ascend, as those of a name map must
    ensures { IsTrue result ↔ IsAscending namings.now }
{
    let mut last = None;
    'namings: for naming in namings {
        if !is_above(last, naming.index) {
            return false;
        }
        last = Some(naming.index);
    }
    true
}
