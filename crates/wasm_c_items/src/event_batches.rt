// Many events by one call.
ghost use Rattle.wasm_c_items.specs.EventBatches.{StoresEvents};
ghost use Rattle.wasm_frames.specs.Stored.{parser_of};

use crate::events::PlainEvent;
use crate::parsing::next_event;
use crate::spans::after;
use wasm_parser::StoredParser;

/// Stores the next events in `out`, as calls of `parse` return them, and returns their number.
///
/// `pulleynavy_next_events` of the C library is this call, and describes its errors.
#[inline(always)]
pub fn next_events(
    parser: &mut StoredParser,
    bytes: &[u8],
    is_all: bool,
    out: &mut [PlainEvent],
) -> usize
    ensures { StoresEvents is_all (parser_of parser.old) bytes.now out.old result
        (parser_of parser.new) out.new }
{
    let mut rest = bytes;
    let mut at = 0;
    let mut count = 0;
    while count < out.len() {
        let event = next_event(parser, rest, is_all, at);
        let consumed = event.consumed;
        out[count] = event;
        count += 1;
        if consumed == 0 {
            return count;
        }
        rest = after(rest, consumed);
        at = usize::saturating_add(at, consumed);
    }
    count
}
