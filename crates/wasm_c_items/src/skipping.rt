// Skipping a section or body by its first fields.
ghost use Rattle.std.specs.Prelude.{◌≡◌, length};
ghost use Rattle.wasm_frames.specs.SkipNext.{skip_is};
ghost use Rattle.wasm_frames.specs.Stored.{parser_of};
ghost use Rattle.wasm_c_items.specs.Skips.{SkipsPlain, skip_event};

use crate::events::{Origin, PlainEvent, event_between, request_event};
use std::ops::Range;
use wasm_grammar::{CODE_SECTION, CUSTOM_SECTION};
use wasm_parser::{PartHead, SkippedPart, StoredParser};

/// Skips the next section or body if its first fields are in `bytes`, but not all of it.
///
/// `pulleynavy_skip` of the C library is this call, and describes what it returns.
pub fn skip(parser: &mut StoredParser, bytes: &[u8]) -> PlainEvent
    ensures { SkipsPlain (parser_of parser.old) bytes.now result (parser_of parser.new) }
{
    let offset = parser.offset;
    match parser.skip_next(bytes) {
        Some(part) => skipped_event(offset, bytes.len(), &part),
        None => request_event(0, 0),
    }
}

// A part that was skipped at this offset, of which this many bytes are held.
fn skipped_event(offset: u64, consumed: usize, part: &SkippedPart) -> PlainEvent
    ensures { result ≡ skip_event offset consumed (Some (skip_is part.now)) }
{
    let origin = Origin {
        offset,
        base: 0,
        consumed,
    };
    let Range { start, end } = part.range;
    match &part.head {
        PartHead::Custom { name, data_offset } => PlainEvent {
            data_offset: *data_offset,
            name_size: name.len(),
            ..event_between(origin, 7, u32::from(CUSTOM_SECTION), start, end)
        },
        PartHead::Items { id, count } => PlainEvent {
            count: *count,
            ..event_between(origin, 2, u32::from(*id), start, end)
        },
        PartHead::Unknown { id } => event_between(origin, 8, u32::from(*id), start, end),
        PartHead::Body => event_between(origin, 6, u32::from(CODE_SECTION), start, end),
    }
}
