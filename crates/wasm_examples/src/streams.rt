// Walks over the parts of a stream.
ghost use Rattle.std.specs.Prelude.{◌≡◌, Ok};
ghost use Rattle.wasm_parser.specs.ParseAnswer.{report_of};
ghost use Rattle.wasm_examples.specs.Streams.{IsEndOf, IsStartOf, started};

use wasm_base::Result;
use wasm_parser::{Chunk, Parser, Payload};

/// Returns the offset of the end of a stream, or its fault.
pub fn end_of(bytes: &[u8]) -> Result<u64>
    // Proved: `end_of`, by `parse`, returns how the stream's reading ends; `start_of`, by
    //   `parse_all`, which function it names as the start, or the fault at which it stops
    //   [`IsEndOf`, `IsStartOf`]
    ensures { IsEndOf bytes.now result }
{
    let mut parser = Parser::new(0);
    let mut rest = bytes;
    'parts: loop {
        match parser.parse(rest, true) {
            Ok(Chunk::Parsed { consumed, payload }) => {
                if let Payload::End(offset) = payload {
                    return Ok(offset);
                }
                drop(payload);
                rest = rest.split_at(consumed).1;
            }
            Ok(Chunk::NeedMoreData(_)) => unreachable!(),
            Err(error) => return Err(error),
        }
    }
}

/// Returns the index in the start section of a module, if there is one, or the fault of the stream.
#[tactic(auto, using(crate::proofs::Folding::begun))]
pub fn start_of(bytes: &[u8]) -> Result<Option<u32>>
    ensures { IsStartOf bytes.now result }
{
    let mut start = None;
    for payload in Parser::new(0).parse_all(bytes) {
        start = start_after(start, payload?);
    }
    Ok(start)
}

// Returns the start function after a part of a module, by what is known before it.
fn start_after(known: Option<u32>, payload: Payload<'_>) -> Option<u32>
    ensures { started known (report_of payload.entry) ≡ Ok result }
{
    match payload {
        Payload::StartSection { func, .. } => Some(func),
        _ => known,
    }
}
