// Groups of types: the items of the type section.
ghost use Rattle.std.specs.Prelude.{◌≡◌, ◌+◌, ◌≤◌, ◌^◌, ◌++◌, ◌↔◌, IsTrue, drop, length, take};
ghost use Rattle.wasm_encode.specs.Limits.{IsBelow, flag};
ghost use Rattle.wasm_encode.specs.RecGroups.{extending_byte, subtype_head};

use crate::bytes::write_byte;
use crate::encode::Encode;
use crate::number::{unsigned_len, write_unsigned};
use crate::sections::{content_len, items_len, list_fits, write_content, write_items};
use wasm_items::{CompositeType, FieldType, FuncType, RecGroup, StorageType, SubType};

// The most bytes of a list in a type, and one more.
const LIST_BOUND: usize = 1 << 30;

// The most bytes of the list of a group, and one more: with its first byte, a group has fewer than 2^32.
const GROUP_BOUND: usize = (1 << 32) - 1;

impl Encode for StorageType {
    ghost use Rattle.wasm_base.specs.Item.{ReadsAs};
    ghost use Rattle.wasm_encode.specs.RecGroups.{StorageFits, storage_bytes};
    ghost use Rattle.wasm_items.specs.RecGroups.{storage_type_at};

    ghost meaning = { ReadsAs (λ storage. storage) storage_type_at };

    ghost encoded = { storage_bytes };

    ghost is_encodable = { StorageFits };

    ghost is_allowed = { λ features storage. Unit {0} };

    ghost placed = { λ features offset storage. storage };

    fn fits(&self) -> bool {
        match self {
            StorageType::Val(ty) => ty.fits(),
            StorageType::I8 | StorageType::I16 => true,
        }
    }

    #[tactic(auto, unfolding(crate::specs::RecGroups::storage_bytes))]
    fn encoded_len(&self) -> usize {
        match self {
            StorageType::Val(ty) => ty.encoded_len(),
            StorageType::I8 | StorageType::I16 => 1,
        }
    }

    #[tactic(auto, unfolding(crate::specs::RecGroups::storage_bytes))]
    fn encode_at(&self, bytes: &mut [u8], at: usize) -> usize {
        match self {
            StorageType::I8 => write_byte(bytes, at, 0x78),
            StorageType::I16 => write_byte(bytes, at, 0x77),
            StorageType::Val(ty) => ty.encode_at(bytes, at),
        }
    }

    fn reads_back(&self) {}
}

// Returns the byte of the mutability of a field.
fn byte_of_mutability(mutable: bool) -> u8
    ensures { result ≡ flag mutable 1 }
{
    if mutable { 1 } else { 0 }
}

impl Encode for FieldType {
    ghost use Rattle.wasm_base.specs.Item.{ReadsAs};
    ghost use Rattle.wasm_encode.specs.RecGroups.{StorageFits, field_bytes};
    ghost use Rattle.wasm_items.specs.RecGroups.{field_type_at};

    ghost meaning = { ReadsAs (λ field. field) field_type_at };

    ghost encoded = { field_bytes };

    ghost is_encodable = { λ field. StorageFits field.storage };

    ghost is_allowed = { λ features field. Unit {0} };

    ghost placed = { λ features offset field. field };

    fn fits(&self) -> bool {
        self.storage.fits()
    }

    #[tactic(auto, unfolding(crate::specs::RecGroups::field_bytes), using(crate::proofs::Lengths::storage_few))]
    fn encoded_len(&self) -> usize {
        self.storage.encoded_len() + 1
    }

    #[tactic(auto, unfolding(crate::specs::RecGroups::field_bytes), using(crate::proofs::RestStays::stays_on))]
    fn encode_at(&self, bytes: &mut [u8], at: usize) -> usize {
        let after_storage = self.storage.encode_at(bytes, at);
        write_byte(bytes, after_storage, byte_of_mutability(self.mutable))
    }

    fn reads_back(&self) {}
}

impl Encode for FuncType {
    ghost use Rattle.wasm_base.specs.Item.{ReadsAs};
    ghost use Rattle.wasm_encode.specs.RecGroups.{FuncFits, func_bytes};
    ghost use Rattle.wasm_items.specs.RecGroups.{func_type_at, function_parts};

    ghost meaning = { ReadsAs function_parts func_type_at };

    ghost encoded = { func_bytes };

    ghost is_encodable = { FuncFits };

    ghost is_allowed = { λ features ty. Unit {0} };

    ghost placed = { λ features offset ty. ty };

    fn fits(&self) -> bool {
        if !list_fits(LIST_BOUND, self.params.as_slice()) {
            return false;
        }
        list_fits(LIST_BOUND, self.results.as_slice())
    }

    #[tactic(auto, unfolding(crate::specs::RecGroups::func_bytes))]
    fn encoded_len(&self) -> usize {
        content_len(self.params.as_slice()) + content_len(self.results.as_slice())
    }

    #[tactic(auto, unfolding(crate::specs::RecGroups::func_bytes), using(crate::proofs::RestStays::stays_on))]
    fn encode_at(&self, bytes: &mut [u8], at: usize) -> usize {
        let after_params = write_content(bytes, at, self.params.as_slice());
        write_content(bytes, after_params, self.results.as_slice())
    }

    fn reads_back(&self) {}
}

impl Encode for CompositeType {
    ghost use Rattle.wasm_base.specs.Item.{ReadsAs};
    ghost use Rattle.wasm_encode.specs.RecGroups.{CompositeFits, composite_bytes};
    ghost use Rattle.wasm_items.specs.RecGroups.{composite_parts, composite_type_at};

    ghost meaning = { ReadsAs composite_parts composite_type_at };

    ghost encoded = { composite_bytes };

    ghost is_encodable = { CompositeFits };

    ghost is_allowed = { λ features ty. Unit {0} };

    ghost placed = { λ features offset ty. ty };

    fn fits(&self) -> bool {
        match self {
            CompositeType::Func(function) => function.fits(),
            CompositeType::Array(element) => element.fits(),
            CompositeType::Struct(fields) => list_fits(LIST_BOUND, fields.as_slice()),
        }
    }

    #[inline(always)]
    #[tactic(auto, unfolding(crate::specs::RecGroups::composite_bytes), using(crate::proofs::Lengths::func_few, crate::proofs::Lengths::field_few))]
    fn encoded_len(&self) -> usize {
        match self {
            CompositeType::Func(function) => 1 + function.encoded_len(),
            CompositeType::Array(element) => 1 + element.encoded_len(),
            CompositeType::Struct(fields) => 1 + content_len(fields.as_slice()),
        }
    }

    #[tactic(auto, unfolding(crate::specs::RecGroups::composite_bytes), using(crate::proofs::RestStays::stays_on))]
    fn encode_at(&self, bytes: &mut [u8], at: usize) -> usize {
        match self {
            CompositeType::Func(function) => {
                let after_kind = write_byte(bytes, at, 0x60);
                function.encode_at(bytes, after_kind)
            }
            CompositeType::Array(element) => {
                let after_kind = write_byte(bytes, at, 0x5e);
                element.encode_at(bytes, after_kind)
            }
            CompositeType::Struct(fields) => {
                let after_kind = write_byte(bytes, at, 0x5f);
                write_content(bytes, after_kind, fields.as_slice())
            }
        }
    }

    fn reads_back(&self) {}
}

// Returns how many bytes a subtype has before its composite type.
#[tactic(auto, using(crate::proofs::Numbers::septets_few))]
fn head_len(is_final: bool, supertype: Option<u32>) -> usize
    ensures len { result ≡ length (subtype_head is_final supertype) }
    ensures most { result ≤ 12 }
{
    match supertype {
        Some(index) => 2 + unsigned_len(u64::from(index)),
        None => { if is_final { 0 } else { 2 } }
    }
}

// Returns the first byte of a subtype that isn't its composite type alone.
fn byte_of_extending(is_final: bool) -> u8
    ensures { result ≡ extending_byte is_final }
{
    if is_final { 0x4f } else { 0x50 }
}

// Writes what a subtype has before its composite type: nothing if it is final and extends nothing.
#[tactic(auto, using(crate::proofs::RestStays::stays_on))]
fn write_head(bytes: &mut [u8], at: usize, is_final: bool, supertype: Option<u32>) -> usize
    requires { at + length (subtype_head is_final supertype) ≤ length bytes.old }
    ensures end { result ≡ at + length (subtype_head is_final supertype) }
    ensures written { take result bytes.new ≡ take at bytes.old ++ subtype_head is_final supertype }
    ensures rest { drop result bytes.new ≡ drop result bytes.old }
    ensures len { length bytes.new ≡ length bytes.old }
{
    match supertype {
        Some(index) => {
            let after_final = write_byte(bytes, at, byte_of_extending(is_final));
            let after_count = write_byte(bytes, after_final, 1);
            write_unsigned(bytes, after_count, u64::from(index))
        }
        None => {
            if is_final {
                return at;
            }
            let after_final = write_byte(bytes, at, byte_of_extending(is_final));
            write_byte(bytes, after_final, 0)
        }
    }
}

// Returns whether an index is a u32, as it always is.
fn index_fits(index: Option<u32>) -> bool
    ensures { IsTrue result ↔ IsBelow (2 ^ 32) index }
{
    match index {
        Some(_index) => true,
        None => true,
    }
}

impl Encode for SubType {
    ghost use Rattle.wasm_base.specs.Item.{ReadsAs};
    ghost use Rattle.wasm_encode.specs.RecGroups.{SubtypeFits, subtype_bytes};
    ghost use Rattle.wasm_items.specs.RecGroups.{subtype_at, subtype_parts};

    ghost meaning = { ReadsAs subtype_parts subtype_at };

    ghost encoded = { subtype_bytes };

    ghost is_encodable = { SubtypeFits };

    ghost is_allowed = { λ features ty. Unit {0} };

    ghost placed = { λ features offset ty. ty };

    fn fits(&self) -> bool {
        if !index_fits(self.supertype) {
            return false;
        }
        self.composite.fits()
    }

    #[tactic(auto, unfolding(crate::specs::RecGroups::subtype_bytes), using(crate::proofs::Lengths::composite_few))]
    fn encoded_len(&self) -> usize {
        head_len(self.is_final, self.supertype) + self.composite.encoded_len()
    }

    #[tactic(auto, unfolding(crate::specs::RecGroups::subtype_bytes), using(crate::proofs::RestStays::stays_on))]
    fn encode_at(&self, bytes: &mut [u8], at: usize) -> usize {
        let after_head = write_head(bytes, at, self.is_final, self.supertype);
        self.composite.encode_at(bytes, after_head)
    }

    fn reads_back(&self) {}
}

impl Encode for RecGroup {
    ghost use Rattle.wasm_base.specs.Item.{ReadsAs};
    ghost use Rattle.wasm_encode.specs.RecGroups.{GroupFits, group_bytes};
    ghost use Rattle.wasm_items.specs.RecGroups.{rec_group_at, rec_group_parts};

    ghost meaning = { ReadsAs rec_group_parts rec_group_at };

    ghost encoded = { group_bytes };

    ghost is_encodable = { GroupFits };

    ghost is_allowed = { λ features group. Unit {0} };

    ghost placed = { λ features offset group. group };

    fn fits(&self) -> bool {
        if self.explicit {
            return list_fits(GROUP_BOUND, self.types.as_slice());
        }
        // Its length need not be checked: the lists in one type are too short.
        match self.types.as_slice() {
            [ty] => ty.fits(),
            _ => false,
        }
    }

    #[tactic(auto, unfolding(crate::specs::RecGroups::group_bytes))]
    fn encoded_len(&self) -> usize {
        if self.explicit {
            1 + content_len(self.types.as_slice())
        } else {
            items_len(self.types.as_slice())
        }
    }

    #[tactic(auto, unfolding(crate::specs::RecGroups::group_bytes), using(crate::proofs::RestStays::stays_on))]
    fn encode_at(&self, bytes: &mut [u8], at: usize) -> usize {
        if self.explicit {
            let after_first = write_byte(bytes, at, 0x4e);
            write_content(bytes, after_first, self.types.as_slice())
        } else {
            write_items(bytes, at, self.types.as_slice())
        }
    }

    fn reads_back(&self) {}
}
