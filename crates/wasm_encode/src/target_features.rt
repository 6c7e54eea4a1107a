// Target features.
ghost use Rattle.std.specs.Prelude.{◌≡◌, ◌+◌, ◌≤◌, ◌<◌, ◌^◌, ◌++◌, ◌↔◌, IsTrue, length, take};
ghost use Rattle.wasm_custom.specs.TargetFeatures.{feature_parts};
ghost use Rattle.wasm_encode.specs.TargetFeatures.{feature_bytes};

use crate::bytes::write_byte;
use crate::encode::Encode;
use crate::names::write_name;
use crate::texts::{text_fits, text_len};
use wasm_custom::TargetFeature;

// Returns how many bytes a feature has.
#[tactic(auto, unfolding(crate::specs::TargetFeatures::feature_bytes))]
fn feature_len(feature: &TargetFeature<'_>) -> usize
    requires { length feature.now.name.now < 2 ^ 32 }
    ensures { result ≡ length (feature_bytes (feature_parts feature.now)) }
{
    1 + text_len(feature.name)
}

impl<'a> Encode for TargetFeature<'a> {
    ghost use Rattle.wasm_base.specs.Item.{ReadsAs};
    ghost use Rattle.wasm_custom.specs.TargetFeatures.{target_feature_at};
    ghost use Rattle.wasm_encode.specs.TargetFeatures.{FeatureFits};

    ghost meaning = { ReadsAs feature_parts target_feature_at };

    ghost encoded = { λ feature. feature_bytes (feature_parts feature) };

    ghost is_encodable = { λ feature. FeatureFits (feature_parts feature) };

    ghost is_allowed = { λ features feature. Unit {0} };

    ghost placed = { λ features offset feature. feature };

    fn fits(&self) -> bool {
        if !text_fits(self.name) {
            return false;
        }
        feature_len(self) <= u32::MAX as usize
    }

    fn encoded_len(&self) -> usize {
        feature_len(self)
    }

    #[tactic(auto, unfolding(crate::specs::TargetFeatures::feature_bytes), using(crate::proofs::RestStays::stays_on))]
    fn encode_at(&self, bytes: &mut [u8], at: usize) -> usize {
        let after_prefix = write_byte(bytes, at, self.prefix);
        write_name(bytes, after_prefix, self.name)
    }

    fn reads_back(&self) {}
}
