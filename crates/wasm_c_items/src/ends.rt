// The ends of custom sections.
ghost use Rattle.std.specs.Prelude.{◌≡◌};
ghost use Rattle.wasm_c_items.specs.Faults.{end_fault};

use crate::faults::{NO_FAULT, PlainFault, plain_fault};
use wasm_parser::{Error, Fault};

/// Returns the fault of bytes that remain at this offset, or none.
pub fn end_fault(fault: Fault, left: &[u8], offset: u64) -> PlainFault
    ensures { result ≡ end_fault fault left.now offset }
{
    if left.is_empty() {
        return NO_FAULT;
    }
    plain_fault(Error::new(fault, offset))
}
