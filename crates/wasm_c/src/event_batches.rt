// Many events by one call.
ghost use Rattle.wasm_c_items.specs.EventBatches.{StoresEvents};
ghost use Rattle.wasm_frames.specs.Stored.{parser_of};

use wasm_c_items::{PlainEvent, next_events};
use wasm_parser::StoredParser;

/// Stores the next events of a stream in `out`, as calls of `pulleynavy_parse` return them one by one, and returns
/// their number.
///
/// It stores `out_count` events, or stops after a request for more input, a fault or the end, which is stored too. The
/// position `at` of each event counts from the first of `bytes`. Pass the bytes after all consumed ones in the next
/// call.
///
/// # Errors
///
/// A fault is the last stored event, as `pulleynavy_parse` returns it.
///
/// ```c
/// const uint8_t bytes[] = {0, 'a', 's', 'm', 1, 0, 0, 0, 0, 2, 1, 'a'};
/// pulleynavy_parser parser = pulleynavy_parser_init(0, PULLEYNAVY_ALL_FEATURES);
/// pulleynavy_event events[8];
/// size_t count = pulleynavy_next_events(&parser, bytes, sizeof bytes, true, events, 8);
/// assert(count == 3 && events[1].kind == PULLEYNAVY_EVENT_CUSTOM && events[2].kind == PULLEYNAVY_EVENT_END);
/// ```
#[unsafe(no_mangle)]
pub extern "C" fn pulleynavy_next_events(
    parser: &mut StoredParser,
    bytes: &[u8],
    is_all: bool,
    out: &mut [PlainEvent],
) -> usize
    // Proved: `pulleynavy_next_events` stores as many events as there is room for, or up to a
    //   request, a fault or the end: each is what `pulleynavy_parse` returns on the bytes after
    //   those before it, and the parser is where it then is [the clause of `pulleynavy_next_events`
    //   (`StoresEvents`: `events`, `others`; `ParsesEach`)]
    ensures { StoresEvents is_all (parser_of parser.old) bytes.now out.old result
        (parser_of parser.new) out.new }
{
    next_events(parser, bytes, is_all, out)
}
