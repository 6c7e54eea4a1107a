// The end of data.
ghost use Rattle.std.specs.Prelude.{◌≡◌, false};
ghost use Rattle.wasm_base.specs.Ending.{end_at};
ghost use Rattle.wasm_base.specs.Hints.{NotOutOfMemory, is_out_of_memory};
ghost use Rattle.wasm_base.specs.Outcome.{GivesResult};
ghost use Rattle.wasm_base.specs.Window.{place};

use crate::error::{Error, Result};
use crate::fault::Fault;
use crate::reader::BinaryReader;

/// Returns an error if bytes remain in the window.
///
/// # Errors
///
/// `fault` at the first remaining byte.
#[tactic(auto, unfolding(crate::specs::Ending::end_at))]
#[inline(always)]
pub fn expect_end(fault: Fault, reader: &BinaryReader<'_>) -> Result<()>
    requires { is_out_of_memory fault ≡ false }
    // Proved: `expect_end` returns an error exactly if bytes remain: the caller's fault, at the
    //   first of them [`gives` (`end_at`), `memory`]
    ensures gives { GivesResult (λ nothing. nothing) result (end_at fault (place reader.now)) }
    ensures memory { NotOutOfMemory result }
{
    if !reader.eof() {
        return Err(Error::new(fault, reader.original_position()));
    }
    Ok(())
}
