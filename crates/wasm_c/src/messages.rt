// Texts of faults by their numbers.
ghost use Rattle.wasm_c_items.specs.Texts.{SaysMessage};

use wasm_c_items::write_message_of;

/// Writes the text of the fault with this code, and returns the length of the whole text in bytes, at most 80.
///
/// The text is ASCII, without a zero byte at the end. If `out` is shorter, it gets the first `out_size` bytes. The text
/// has neither the number nor the offset of the fault.
///
/// # Errors
///
/// It returns 0, and writes nothing, if no fault has this code.
///
/// ```c
/// uint8_t text[80];
/// size_t size = pulleynavy_format_message(PULLEYNAVY_FAULT_UNEXPECTED_EOF, text, sizeof text);
/// assert(size == 22 && !memcmp(text, "unexpected end-of-file", size));
/// ```
#[unsafe(no_mangle)]
pub extern "C" fn pulleynavy_format_message(kind: u32, out: &mut [u8]) -> usize
    // By the faults, not by the list: a fault missing from the list would have no message, and no clause would notice.
    // Proved: `pulleynavy_format_message` writes the text of the fault with a given number, or
    //   nothing if no fault has it
    ensures { SaysMessage kind out.old result out.new }
{
    write_message_of(kind, out)
}
