// Passes the parts of chunked input to a visitor.
ghost use Rattle.std.specs.Prelude.{◌≡◌, ◌<◌, ◌^◌, length, OnOk, IfErr};
ghost use Rattle.wasm_base.specs.FaultAt.{fault_at};
ghost use Rattle.wasm_base.specs.Features.{feature_bits};
ghost use Rattle.wasm_base.specs.Owned.{out_of_memory};
ghost use Rattle.wasm_feed.specs.Pieces.{joined};
ghost use Rattle.wasm_grammar.specs.Reading.{Event};
ghost use Rattle.wasm_examples.specs.Visits.{part, VisitsNext, VisitsStream};

use std::alloc::Global;
use wasm_base::{Result, WasmFeatures};
use wasm_feed::{Feeder, Step};
use wasm_parser::Payload;

/// A visitor, which receives the parts of a stream in order.
pub trait Visitor {
    // This is a relation, because a visitor in memory can't have a field for proofs alone that records its parts.
    /// How a part changes the visitor.
    ghost takes: { Self → Event → Self → Type 0 };

    /// Receives a part of the stream other than the end, and its bytes. The only error is `OutOfMemory`.
    fn visit(&mut self, bytes: &[u8], payload: Payload<'_>) -> Result<()>
        ensures visits { OnOk result
            (takes self.old (part bytes.now payload.entry) self.new) }
        ensures memory { IfErr result (λ e. fault_at e ≡ out_of_memory) };
}

// What a step did.
#[derive(Clone, Copy)]
enum Done {
    // It passed a part to the visitor.
    Visited,
    // It asked for more input.
    Asked,
    // It was the end of the stream.
    Ended,
}

// Performs one step and passes its part to the visitor, unless it is the end.
fn visit_next<V: Visitor>(feeder: &mut Feeder, visitor: &mut V) -> Result<Done>
    ensures { VisitsNext V.takes feeder.old visitor.old result feeder.new visitor.new }
{
    match feeder.open().step()? {
        Step::NeedMoreData(_) => Ok(Done::Asked),
        Step::Parsed { bytes, payload } => match payload {
            Payload::End(_) => Ok(Done::Ended),
            payload => {
                visitor.visit(bytes, payload)?;
                Ok(Done::Visited)
            }
        },
    }
}

/// Passes the parts of a stream in these chunks, which begins at offset 0, to a visitor, in order. Returns the largest number of
/// bytes that were buffered at once. `fits_pieces` tests whether the chunks may be read.
///
/// # Errors
///
/// The fault of the stream, once the parts before it are visited, or `OutOfMemory`, at offset 0.
pub fn visit_pieces<V: Visitor>(
    alloc: Global,
    features: WasmFeatures,
    pieces: &[&[u8]],
    visitor: &mut V,
) -> Result<usize>
    requires { length (joined pieces.now) < 2 ^ 64 }
    // Proved: `visit_pieces` passes the parts of the reading of chunked input to a visitor, in
    //   order and wherever it is cut, up to the end or the fault; if an allocation failed, nothing
    //   is stated
    // Proved: for a stream without a fault, the number that `visit_pieces` and `compile_pieces`
    //   return is 0, or less than the bound of an undecided part and some bytes that come next
    //   together. That these bytes are one chunk, and that the number is the most that was stored,
    //   is not stated [`StoresLittle`]
    ensures { VisitsStream V.takes pieces.now (feature_bits features)
        visitor.old result visitor.new }
{
    let mut feeder = Feeder::new(alloc, 0, features);
    let mut chunks = pieces.iter();
    let mut most = 0;
    'steps: loop {
        match visit_next(&mut feeder, visitor)? {
            Done::Visited => {}
            Done::Asked => match chunks.next() {
                Some(chunk) => {
                    feeder.push(chunk)?;
                    most = feeder.stored().max(most);
                }
                None => feeder.finish(),
            },
            Done::Ended => return Ok(most),
        }
    }
}
