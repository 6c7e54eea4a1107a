// Entries whose indices ascend.
ghost use Rattle.std.specs.Prelude.{◌≡◌, false};
ghost use Rattle.wasm_base.specs.Ascending.{InOrder, is_above};
ghost use Rattle.wasm_base.specs.Hints.{NotOutOfMemory, is_out_of_memory};

use crate::error::{Error, Result};
use crate::fault::Fault;

// Whether an index is above the last one returned, if any.
#[inline(always)]
fn is_above(last: Option<u32>, index: u32) -> bool
    ensures { result ≡ is_above last index }
{
    match last {
        Some(last) => last < index,
        None => true,
    }
}

/// Returns an entry that was read if its index is above the last one returned, and records the index.
///
/// # Errors
///
/// `fault` at `start`, the offset of the entry, if its index is not above the last one, which then stays.
#[inline(always)]
pub fn in_order<T: Drop>(
    last: &mut Option<u32>,
    index: u32,
    entry: T,
    fault: Fault,
    start: u64,
) -> Result<T>
    requires { is_out_of_memory fault ≡ false }
    // Proved: `in_order` returns an entry exactly if its index is above the last one, which it
    //   replaces; otherwise the caller's fault at the start of the entry, and the last one stays
    //   [`order` (`InOrder`), `memory`]
    ensures order { InOrder last.old index fault start entry result last.new }
    ensures memory { NotOutOfMemory result }
{
    // The last index stands for all returned before, because these ascend.
    if is_above(*last, index) {
        *last = Some(index);
        Ok(entry)
    } else {
        Err(Error::new(fault, start))
    }
}
