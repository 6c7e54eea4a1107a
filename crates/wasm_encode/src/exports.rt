// Exports.
ghost use Rattle.std.specs.Prelude.{◌≡◌, ◌+◌, ◌≤◌, ◌++◌, ◌↔◌, IsTrue, length, take};
ghost use Rattle.wasm_encode.specs.Imports.{is_exported, kind_byte};
ghost use Rattle.wasm_items.specs.Exports.{export_parts};

use crate::bytes::write_byte;
use crate::encode::Encode;
use crate::names::{name_fits, name_len, write_name};
use crate::number::{unsigned_len, write_unsigned};
use wasm_items::{Export, ExternalKind};

// Returns the byte of an external kind.
fn byte_of(kind: ExternalKind) -> u8
    ensures { result ≡ kind_byte kind }
{
    match kind {
        ExternalKind::Func => 0x00,
        ExternalKind::Table => 0x01,
        ExternalKind::Memory => 0x02,
        ExternalKind::Global => 0x03,
        ExternalKind::Tag => 0x04,
        ExternalKind::FuncExact => 0x20,
    }
}

// Returns whether things of a kind are exported by it.
fn exports(kind: ExternalKind) -> bool
    ensures { result ≡ is_exported kind }
{
    match kind {
        ExternalKind::FuncExact => false,
        _ => true,
    }
}

impl<'a> Encode for Export<'a> {
    ghost use Rattle.wasm_base.specs.Item.{ReadsAs};
    ghost use Rattle.wasm_encode.specs.Imports.{ExportFits, export_bytes};
    ghost use Rattle.wasm_items.specs.Exports.{export_at};

    ghost meaning = { ReadsAs export_parts export_at };

    ghost encoded = { λ x. export_bytes (export_parts x) };

    ghost is_encodable = { λ x. ExportFits (export_parts x) };

    ghost is_allowed = { λ features x. Unit {0} };

    ghost placed = { λ features offset x. x };

    fn fits(&self) -> bool {
        let _index = self.index;
        if !name_fits(self.name) {
            return false;
        }
        exports(self.kind)
    }

    #[tactic(auto, unfolding(crate::specs::Imports::export_bytes), using(crate::proofs::Numbers::septets_few))]
    fn encoded_len(&self) -> usize {
        name_len(self.name) + 1 + unsigned_len(u64::from(self.index))
    }

    #[tactic(auto, unfolding(crate::specs::Imports::export_bytes), using(crate::proofs::RestStays::stays_on))]
    fn encode_at(&self, bytes: &mut [u8], at: usize) -> usize {
        let after_name = write_name(bytes, at, self.name);
        let after_kind = write_byte(bytes, after_name, byte_of(self.kind));
        write_unsigned(bytes, after_kind, u64::from(self.index))
    }

    fn reads_back(&self) {}
}
