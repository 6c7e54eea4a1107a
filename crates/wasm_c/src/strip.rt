// Streams without their custom sections.
ghost use Rattle.wasm_c_items.specs.Strips.{StripsPlain};

use wasm_c_items::{PlainStripped, strip_bytes};

/// Removes the custom sections from a whole stream, in place. With `keep_names` the sections named `name` stay.
///
/// The first `size` bytes are then the stripped stream, and the bytes after them are unspecified. The stream begins at
/// offset 0.
///
/// # Errors
///
/// The fault at which the stream stops, as `pulleynavy_parse` returns it. The size is then 0, and the bytes are
/// unchanged.
///
/// ```c
/// uint8_t bytes[] = {0, 'a', 's', 'm', 1, 0, 0, 0, 0, 2, 1, 'a', 1, 1, 0};
/// pulleynavy_stripped stripped = pulleynavy_strip(bytes, sizeof bytes, false);
/// assert(stripped.fault.kind == 0 && stripped.size == 11 && bytes[8] == PULLEYNAVY_SECTION_TYPE);
/// ```
///
/// (Core specification, Binary format, Modules, Custom Section.)
#[unsafe(no_mangle)]
pub extern "C" fn pulleynavy_strip(bytes: &mut [u8], keep_names: bool) -> PlainStripped
    // Proved: `pulleynavy_strip` leaves the header and the remaining sections at the front of the
    //   caller's bytes, and returns how many bytes these are; for a stream that isn't accepted it
    //   returns the fault and leaves the bytes unchanged [the clause of `pulleynavy_strip`
    //   (`StripsPlain`, `StripsToFront`)]
    ensures { StripsPlain keep_names bytes.old result bytes.new }
{
    strip_bytes(bytes, keep_names)
}
