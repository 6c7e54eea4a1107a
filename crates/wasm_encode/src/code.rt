// Bodies of functions.
ghost use Rattle.std.specs.Prelude.{◌≡◌, ◌+◌, ◌≤◌, ◌<◌, ◌^◌, ◌++◌, ◌↔◌, IsTrue, length, take};
ghost use Rattle.wasm_encode.specs.Code.{CodeSectionsAreFrames, body_content};

use crate::bytes::write_bytes;
use crate::encode::Encode;
use crate::number::{unsigned_len, write_unsigned};
use wasm_items::FunctionBody;

// Returns the bytes of a body, without its size.
fn content_of<'a>(body: &FunctionBody<'a>) -> &'a [u8]
    ensures { result.now ≡ body_content body.now }
{
    body.get_binary_reader().remaining_buffer()
}

impl<'a> Encode for FunctionBody<'a> {
    ghost use Rattle.wasm_base.specs.Item.{ReadsAs};
    ghost use Rattle.wasm_base.specs.Name.{window_at};
    ghost use Rattle.wasm_encode.specs.Code.{BodyFits, body_bytes, body_placed};
    ghost use Rattle.wasm_items.specs.Windows.{body_window};

    ghost meaning = { ReadsAs body_window window_at };

    ghost encoded = { body_bytes };

    ghost is_encodable = { BodyFits };

    ghost is_allowed = { λ features body. Unit {0} };

    ghost placed = { body_placed };

    #[tactic(auto, unfolding(crate::specs::Code::body_bytes), using(crate::proofs::Numbers::septets_few))]
    fn fits(&self) -> bool {
        let content = content_of(self);
        unsigned_len(content.len() as u64) + content.len() <= u32::MAX as usize
    }

    #[tactic(auto, unfolding(crate::specs::Code::body_bytes), using(crate::proofs::Numbers::septets_few))]
    fn encoded_len(&self) -> usize {
        let content = content_of(self);
        unsigned_len(content.len() as u64) + content.len()
    }

    #[tactic(auto, unfolding(crate::specs::Code::body_bytes), using(crate::proofs::RestStays::stays_on))]
    fn encode_at(&self, bytes: &mut [u8], at: usize) -> usize {
        let content = content_of(self);
        let after_size = write_unsigned(bytes, at, content.len() as u64);
        write_bytes(bytes, after_size, content)
    }

    fn reads_back(&self) {}
}

/// A section of bodies that fit, with id 10, is a well-formed code section of a module. Does nothing.
///
/// (Core specification, Binary format, Modules, Code Section.)
pub fn code_sections_are_frames()
    // Proved: a section of function bodies that was written is a well-formed code section of a module
    ensures { CodeSectionsAreFrames }
{}
