// Imports.
ghost use Rattle.std.specs.Prelude.{◌≡◌, ◌+◌, ◌≤◌, ◌++◌, ◌↔◌, IsTrue, length, take};
ghost use Rattle.wasm_encode.specs.Imports.{type_ref_bytes};
ghost use Rattle.wasm_items.specs.Imports.{import_parts};

use crate::bytes::write_byte;
use crate::encode::Encode;
use crate::names::{name_fits, name_len, write_name};
use crate::number::{unsigned_len, write_unsigned};
use wasm_items::{Import, TypeRef};

impl Encode for TypeRef {
    ghost use Rattle.wasm_base.specs.Item.{ReadsAs};
    ghost use Rattle.wasm_encode.specs.Imports.{TypeRefAllowed, TypeRefFits};
    ghost use Rattle.wasm_items.specs.Imports.{type_ref_at};

    ghost meaning = { ReadsAs (λ ty. ty) type_ref_at };

    ghost encoded = { type_ref_bytes };

    ghost is_encodable = { TypeRefFits };

    ghost is_allowed = { TypeRefAllowed };

    ghost placed = { λ features offset ty. ty };

    fn fits(&self) -> bool {
        match self {
            TypeRef::Func(index) | TypeRef::FuncExact(index) => {
                let _index = *index;
                true
            }
            TypeRef::Table(ty) => ty.fits(),
            TypeRef::Memory(ty) => ty.fits(),
            TypeRef::Global(ty) => ty.fits(),
            TypeRef::Tag(ty) => ty.fits(),
        }
    }

    #[tactic(auto, unfolding(crate::specs::Imports::type_ref_bytes), using(crate::proofs::Lengths::table_few, crate::proofs::Lengths::memory_few, crate::proofs::Lengths::global_few, crate::proofs::Lengths::tag_few, crate::proofs::Numbers::septets_few))]
    fn encoded_len(&self) -> usize {
        match self {
            TypeRef::Func(index) | TypeRef::FuncExact(index) => 1 + unsigned_len(u64::from(*index)),
            TypeRef::Table(ty) => 1 + ty.encoded_len(),
            TypeRef::Memory(ty) => 1 + ty.encoded_len(),
            TypeRef::Global(ty) => 1 + ty.encoded_len(),
            TypeRef::Tag(ty) => 1 + ty.encoded_len(),
        }
    }

    #[tactic(auto, unfolding(crate::specs::Imports::type_ref_bytes), using(crate::proofs::RestStays::stays_on))]
    fn encode_at(&self, bytes: &mut [u8], at: usize) -> usize {
        match self {
            TypeRef::Func(index) => {
                let after_kind = write_byte(bytes, at, 0x00);
                write_unsigned(bytes, after_kind, u64::from(*index))
            }
            TypeRef::Table(ty) => {
                let after_kind = write_byte(bytes, at, 0x01);
                ty.encode_at(bytes, after_kind)
            }
            TypeRef::Memory(ty) => {
                let after_kind = write_byte(bytes, at, 0x02);
                ty.encode_at(bytes, after_kind)
            }
            TypeRef::Global(ty) => {
                let after_kind = write_byte(bytes, at, 0x03);
                ty.encode_at(bytes, after_kind)
            }
            TypeRef::Tag(ty) => {
                let after_kind = write_byte(bytes, at, 0x04);
                ty.encode_at(bytes, after_kind)
            }
            TypeRef::FuncExact(index) => {
                let after_kind = write_byte(bytes, at, 0x20);
                write_unsigned(bytes, after_kind, u64::from(*index))
            }
        }
    }

    fn reads_back(&self) {}
}

impl<'a> Encode for Import<'a> {
    ghost use Rattle.wasm_base.specs.Item.{ReadsAs};
    ghost use Rattle.wasm_encode.specs.Imports.{ImportFits, TypeRefAllowed, import_bytes};
    ghost use Rattle.wasm_items.specs.Imports.{import_at};

    ghost meaning = { ReadsAs import_parts import_at };

    ghost encoded = { λ i. import_bytes (import_parts i) };

    ghost is_encodable = { λ i. ImportFits (import_parts i) };

    ghost is_allowed = { λ features i. TypeRefAllowed features i.ty };

    ghost placed = { λ features offset i. i };

    fn fits(&self) -> bool {
        if !name_fits(self.module) {
            return false;
        }
        if !name_fits(self.name) {
            return false;
        }
        self.ty.fits()
    }

    #[tactic(auto, unfolding(crate::specs::Imports::import_bytes), using(crate::proofs::Lengths::type_ref_few))]
    fn encoded_len(&self) -> usize {
        name_len(self.module) + name_len(self.name) + self.ty.encoded_len()
    }

    #[tactic(auto, unfolding(crate::specs::Imports::import_bytes), using(crate::proofs::RestStays::stays_on))]
    fn encode_at(&self, bytes: &mut [u8], at: usize) -> usize {
        let after_module = write_name(bytes, at, self.module);
        let after_name = write_name(bytes, after_module, self.name);
        self.ty.encode_at(bytes, after_name)
    }

    fn reads_back(&self) {}
}
