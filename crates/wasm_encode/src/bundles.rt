// Bundles of imports.
ghost use Rattle.std.specs.Prelude.{◌≡◌, ℕ, ◌+◌, ◌≤◌, ◌<◌, ◌^◌, ◌++◌, ◌↔◌, [], All, IsTrue, drop, length, take};
ghost use Rattle.wasm_encode.specs.Bundles.{BundleFits, PartsFit, ReadsAsSingles, bundle_bytes, names_bytes};
ghost use Rattle.wasm_encode.specs.Imports.{ImportFits, TypeRefAllowed};
ghost use Rattle.wasm_encode.specs.Names.{NameFits, name_bytes};
ghost use Rattle.wasm_items.specs.Imports.{bundle_parts, import_parts};

use crate::bytes::write_byte;
use crate::encode::Encode;
use crate::lists::{copied_len, is_list, write_copied};
use crate::names::{name_fits, name_len, write_name};
use wasm_items::{Import, Imports};

// Returns how many bytes the names of a bundle have, and the byte that says of which kind it is.
#[tactic(auto, using(crate::proofs::BundlesBack::empty_fits))]
fn names_len(from: &str) -> usize
    requires { NameFits from.now }
    ensures len { result ≡ length (name_bytes from.now) + length (name_bytes []) + 1 }
    ensures most { result ≤ 200021 }
{
    name_len(from) + name_len("") + 1
}

// Writes the names of a bundle, and the byte that says of which kind it is.
#[tactic(auto, using(crate::proofs::RestStays::stays_on))]
fn write_names(bytes: &mut [u8], at: usize, from: &str, kind: u8) -> usize
    requires { at + length (names_bytes from.now kind) ≤ length bytes.old }
    ensures end { result ≡ at + length (names_bytes from.now kind) }
    ensures written { take result bytes.new ≡ take at bytes.old ++ names_bytes from.now kind }
    ensures rest { drop result bytes.new ≡ drop result bytes.old }
    ensures len { length bytes.new ≡ length bytes.old }
{
    let after_module = write_name(bytes, at, from);
    let after_name = write_name(bytes, after_module, "");
    write_byte(bytes, after_name, kind)
}

// Returns whether an item can be written, apart from its number of bytes.
fn parts_fit(item: &Imports<'_>) -> bool
    ensures { IsTrue result ↔ PartsFit (bundle_parts item.now) }
{
    match item {
        Imports::Single(_, import) => import.fits(),
        Imports::Compact1 { module, items } => {
            if !name_fits(module) {
                return false;
            }
            is_list(items)
        }
        Imports::Compact2 { module, ty, names } => {
            if !name_fits(module) {
                return false;
            }
            if !ty.fits() {
                return false;
            }
            is_list(names)
        }
    }
}

// Returns how many bytes an item has.
#[tactic(auto, unfolding(crate::specs::Bundles::bundle_bytes), using(crate::proofs::Lengths::type_ref_few))]
fn bundle_len(item: &Imports<'_>) -> usize
    requires { PartsFit (bundle_parts item.now) }
    ensures { result ≡ length (bundle_bytes (bundle_parts item.now)) }
{
    match item {
        Imports::Single(_, import) => import.encoded_len(),
        Imports::Compact1 { module, items } => names_len(module) + copied_len(items),
        Imports::Compact2 { module, ty, names } => {
            names_len(module) + ty.encoded_len() + copied_len(names)
        }
    }
}

/// Writes a single import, or a bundle, whose list is copied.
///
/// A bundle fits if its list has as many imports as it announces and nothing after them. Only readers with the feature
/// `COMPACT_IMPORTS` read bundles.
///
/// ```rattle
/// let names = SectionLimited::after_count(BinaryReader::new(b"\x01f\x01g", 0), 2);
/// let bundle = Imports::Compact2 {
///     module: "m",
///     ty: TypeRef::Func(5),
///     names,
/// };
/// let mut bytes = [0; 11];
/// assert!(rt; bundle.fits());
/// bundle.encode_at(&mut bytes, 0);
/// assert_eq!(rt; &bytes, b"\x01m\0\x7e\0\x05\x02\x01f\x01g");
/// ```
///
/// (Core specification, Binary format, Modules, Import Section; the proposal for compact imports.)
impl<'a> Encode for Imports<'a> {
    ghost use Rattle.wasm_base.specs.Item.{ReadsAs};
    ghost use Rattle.wasm_encode.specs.Bundles.{BundleAllowed, bundle_placed};
    ghost use Rattle.wasm_items.specs.Imports.{bundle_at};

    ghost meaning = { ReadsAs bundle_parts bundle_at };

    ghost encoded = { λ item. bundle_bytes (bundle_parts item) };

    ghost is_encodable = { λ item. BundleFits (bundle_parts item) };

    ghost is_allowed = { λ features item. BundleAllowed features (bundle_parts item) };

    ghost placed = { bundle_placed };

    fn fits(&self) -> bool {
        if !parts_fit(self) {
            return false;
        }
        bundle_len(self) <= u32::MAX as usize
    }

    fn encoded_len(&self) -> usize {
        bundle_len(self)
    }

    #[tactic(auto, unfolding(crate::specs::Bundles::bundle_bytes), using(crate::proofs::RestStays::stays_on))]
    fn encode_at(&self, bytes: &mut [u8], at: usize) -> usize {
        match self {
            Imports::Single(_, import) => import.encode_at(bytes, at),
            Imports::Compact1 { module, items } => {
                let after_names = write_names(bytes, at, module, 0x7f);
                write_copied(bytes, after_names, items)
            }
            Imports::Compact2 { module, ty, names } => {
                let after_names = write_names(bytes, at, module, 0x7e);
                let after_type = ty.encode_at(bytes, after_names);
                write_copied(bytes, after_type, names)
            }
        }
    }

    fn reads_back(&self) {}
}

/// The content of an import section, at any offset, is read as its count and exactly these imports, each at its offset,
/// also by readers of bundles, as `ImportSectionReader` is one. Does nothing.
pub fn import_sections_read_as_bundles(imports: &[Import<'_>])
    requires fits { All (λ i. ImportFits (import_parts i)) imports.now }
    requires few { length imports.now < 2 ^ 32 }
    // Proved: an import section that was written without bundles is read as exactly the given imports, each at its
    //   offset, also by readers that know bundles [the clause of `import_sections_read_as_bundles`
    //   (`ReadsAsSingles`)]
    ensures { (features offset : ℕ) → All (λ i. TypeRefAllowed features i.ty) imports.now
        → ReadsAsSingles features offset imports.now }
{
    let _imports = imports;
}
