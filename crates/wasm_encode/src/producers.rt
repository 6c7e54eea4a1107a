// Producers: the languages and tools that a module was produced with.
ghost use Rattle.std.specs.Prelude.{◌≡◌, ◌+◌, ◌≤◌, ◌<◌, ◌^◌, ◌++◌, ◌↔◌, IsTrue, length, take};
ghost use Rattle.wasm_custom.specs.Producers.{field_parts, is_field_name, value_parts};
ghost use Rattle.wasm_encode.specs.Producers.{field_bytes, value_bytes};

use crate::encode::Encode;
use crate::lists::{copied_len, is_list, write_copied};
use crate::names::write_name;
use crate::texts::{text_fits, text_len};
use wasm_custom::{ProducersField, ProducersFieldValue};

// Returns how many bytes a value has.
#[tactic(auto, unfolding(crate::specs::Producers::value_bytes))]
fn value_len(value: &ProducersFieldValue<'_>) -> usize
    requires name { length value.now.name.now < 2 ^ 32 }
    requires version { length value.now.version.now < 2 ^ 32 }
    ensures { result ≡ length (value_bytes (value_parts value.now)) }
{
    text_len(value.name) + text_len(value.version)
}

impl<'a> Encode for ProducersFieldValue<'a> {
    ghost use Rattle.wasm_base.specs.Item.{ReadsAs};
    ghost use Rattle.wasm_custom.specs.Producers.{field_value_at};
    ghost use Rattle.wasm_encode.specs.Producers.{ValueFits};

    ghost meaning = { ReadsAs value_parts field_value_at };

    ghost encoded = { λ value. value_bytes (value_parts value) };

    ghost is_encodable = { λ value. ValueFits (value_parts value) };

    ghost is_allowed = { λ features value. Unit {0} };

    ghost placed = { λ features offset value. value };

    fn fits(&self) -> bool {
        if !text_fits(self.name) {
            return false;
        }
        if !text_fits(self.version) {
            return false;
        }
        value_len(self) <= u32::MAX as usize
    }

    fn encoded_len(&self) -> usize {
        value_len(self)
    }

    #[tactic(auto, unfolding(crate::specs::Producers::value_bytes), using(crate::proofs::RestStays::stays_on))]
    fn encode_at(&self, bytes: &mut [u8], at: usize) -> usize {
        let after_name = write_name(bytes, at, self.name);
        write_name(bytes, after_name, self.version)
    }

    fn reads_back(&self) {}
}

// Returns whether a field may have this name.
fn is_field_name(name: &str) -> bool
    ensures { result ≡ is_field_name name.now }
{
    name == "language" || name == "sdk" || name == "processed-by"
}

// Returns how many bytes a field has.
#[tactic(auto, unfolding(crate::specs::Producers::field_bytes))]
fn field_len(field: &ProducersField<'_>) -> usize
    requires { length field.now.name.now < 2 ^ 32 }
    ensures { result ≡ length (field_bytes (field_parts field.now)) }
{
    text_len(field.name) + copied_len(&field.values)
}

impl<'a> Encode for ProducersField<'a> {
    ghost use Rattle.wasm_base.specs.Item.{ReadsAs};
    ghost use Rattle.wasm_custom.specs.Producers.{field_at};
    ghost use Rattle.wasm_encode.specs.Producers.{FieldFits, field_placed};

    ghost meaning = { ReadsAs field_parts field_at };

    ghost encoded = { λ field. field_bytes (field_parts field) };

    ghost is_encodable = { λ field. FieldFits (field_parts field) };

    ghost is_allowed = { λ features field. Unit {0} };

    ghost placed = { field_placed };

    fn fits(&self) -> bool {
        if !text_fits(self.name) {
            return false;
        }
        if !is_field_name(self.name) {
            return false;
        }
        if !is_list(&self.values) {
            return false;
        }
        field_len(self) <= u32::MAX as usize
    }

    fn encoded_len(&self) -> usize {
        field_len(self)
    }

    #[tactic(auto, unfolding(crate::specs::Producers::field_bytes), using(crate::proofs::RestStays::stays_on))]
    fn encode_at(&self, bytes: &mut [u8], at: usize) -> usize {
        let after_name = write_name(bytes, at, self.name);
        write_copied(bytes, after_name, &self.values)
    }

    fn reads_back(&self) {}
}
