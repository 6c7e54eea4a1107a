// A compiler that receives the function bodies of chunked input.
ghost use Rattle.std.specs.Prelude.{◌≡◌, List, [], ◌∷◌, ◌<◌, ◌^◌, length, MatchOption};
ghost use Rattle.wasm_base.specs.Features.{feature_bits};
ghost use Rattle.wasm_base.specs.Window.{Window};
ghost use Rattle.wasm_feed.specs.Pieces.{joined};
ghost use Rattle.wasm_items.specs.Windows.{body_window};
ghost use Rattle.wasm_parser.specs.ParseAnswer.{report_of};
ghost use Rattle.wasm_examples.specs.Compiling.{body_in, bodies_of, CompilesStream};
ghost use Rattle.wasm_examples.specs.Visits.{Visits};

use crate::visits::{Visitor, visit_pieces};
use std::alloc::Global;
use wasm_base::{Result, WasmFeatures};
use wasm_items::FunctionBody;
use wasm_parser::Payload;

/// A compiler that receives function bodies one by one.
pub trait Compiler {
    /// How a body changes the compiler.
    ghost compiles: { Self → Window → Self → Type 0 } = { λ before body after. Unit {0} };

    /// Compiles the body of the next function.
    fn compile(&mut self, body: FunctionBody<'_>)
        ensures { compiles self.old (body_window body.entry) self.new };
}

/// A compiler as a visitor of a stream.
pub struct Compiling<C>(pub C);

impl<C: Compiler> Visitor for Compiling<C> {
    ghost takes = { λ v e w. Visits C.compiles v.0 (bodies_of e) w.0 };

    fn visit(&mut self, _bytes: &[u8], payload: Payload<'_>) -> Result<()> {
        if let Some(body) = body_of(payload) {
            self.0.compile(body);
        }
        Ok(())
    }
}

// Returns the body of a payload, if it is one.
fn body_of(payload: Payload<'_>) -> Option<FunctionBody<'_>>
    ensures { MatchOption result
        (body_in (report_of payload.entry) ≡ [])
        (λ b. body_in (report_of payload.entry) ≡ body_window b ∷ []) }
{
    match payload {
        Payload::CodeSectionEntry(body) => Some(body),
        _other => None,
    }
}

/// Passes the function bodies of a stream in these chunks to a compiler, in order. Returns the largest number of bytes that were
/// buffered at once.
///
/// # Errors
///
/// The fault of the stream, once the bodies before it are compiled, or `OutOfMemory`.
pub fn compile_pieces<C: Compiler>(
    alloc: Global,
    features: WasmFeatures,
    pieces: &[&[u8]],
    compiler: &mut Compiling<C>,
) -> Result<usize>
    requires { length (joined pieces.now) < 2 ^ 64 }
    // Proved: a streaming compiler, `compile_pieces`, receives the bodies of the reading, in order,
    //   up to the end or the fault, and nothing else; if an allocation failed, nothing is stated
    ensures { CompilesStream C.compiles pieces.now (feature_bits features)
        compiler.old.0 result compiler.new.0 }
{
    visit_pieces(alloc, features, pieces, compiler)
}
