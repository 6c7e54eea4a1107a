// Texts: names without the limit of names, and names as items.
ghost use Rattle.std.specs.Prelude.{◌≡◌, ◌+◌, ◌<◌, ◌^◌, ◌↔◌, IsTrue, length};
ghost use Rattle.wasm_encode.specs.Names.{name_bytes};
ghost use Rattle.wasm_encode.specs.Texts.{TextFits};

use crate::encode::Encode;
use crate::names::{name_fits, name_len, write_name};
use crate::number::unsigned_len;

/// Returns whether the size of a text is a `u32`.
pub(crate) fn text_fits(text: &str) -> bool
    ensures { IsTrue result ↔ TextFits text.now }
{
    text.len() <= u32::MAX as usize
}

/// Returns how many bytes a text has with its size, which must be a `u32`.
#[tactic(auto, using(crate::proofs::Numbers::septets_few))]
pub(crate) fn text_len(text: &str) -> usize
    requires { length text.now < 2 ^ 32 }
    ensures len { result ≡ length (name_bytes text.now) }
    ensures most { result < 2 ^ 32 + 10 }
{
    unsigned_len(text.len() as u64) + text.len()
}

/// A name, of at most 100,000 bytes.
impl<'a> Encode for &'a str {
    ghost use Rattle.wasm_base.specs.Item.{ReadsName};
    ghost use Rattle.wasm_encode.specs.Names.{NameFits};

    ghost meaning = { ReadsName (λ name. name.now) };

    ghost encoded = { λ name. name_bytes name.now };

    ghost is_encodable = { λ name. NameFits name.now };

    ghost is_allowed = { λ features name. Unit {0} };

    ghost placed = { λ features offset name. name };

    fn fits(&self) -> bool {
        name_fits(*self)
    }

    fn encoded_len(&self) -> usize {
        name_len(*self)
    }

    fn encode_at(&self, bytes: &mut [u8], at: usize) -> usize {
        write_name(bytes, at, *self)
    }

    fn reads_back(&self) {}
}
