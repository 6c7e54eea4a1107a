// Streams without their custom sections.
ghost use Rattle.wasm_c_items.specs.Strips.{StripsPlain};

use crate::faults::{NO_FAULT, PlainFault, plain_fault};
use wasm_edits::{Keep, strip_to_front};

/// The result of stripping a stream: its size, or a fault.
#[repr(C)]
#[derive(Clone, Copy)]
pub struct PlainStripped {
    /// The fault at which the stream stops, of kind 0 if there is none.
    pub fault: PlainFault,
    /// The size of the stripped stream in bytes, 0 after a fault.
    pub size: usize,
}

/// Removes the custom sections of a stream in place. With `keep_names` those named `name` stay.
///
/// `pulleynavy_strip` of the C library is this call, and describes its errors.
#[inline(always)]
pub fn strip_bytes(bytes: &mut [u8], keep_names: bool) -> PlainStripped
    ensures { StripsPlain keep_names bytes.old result bytes.new }
{
    match strip_to_front(bytes, Keep::names(keep_names)) {
        Ok(size) => PlainStripped {
            fault: NO_FAULT,
            size,
        },
        Err(error) => PlainStripped {
            fault: plain_fault(error),
            size: 0,
        },
    }
}
