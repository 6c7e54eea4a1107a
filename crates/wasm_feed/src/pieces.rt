// The reading of a stream that arrives in chunks.
ghost use Rattle.std.specs.Prelude.{◌≡◌, ◌+◌, ◌<◌, ◌^◌, ◌↔◌, IsTrue, length};
ghost use Rattle.wasm_streams.specs.Cursors.{feed_of};
ghost use Rattle.wasm_feed.specs.Pieces.{joined, ReadsHeld, ReadsUnlessMemory};
ghost use Rattle.wasm_base.specs.Features.{all_features};

use crate::events::{Event, event_of};
use crate::feeder::{add_chunk, parse_next};
use std::alloc::{Allocator, Global};
use wasm_frames::StoredParser;
use wasm_parser::{Result, fits};
use wasm_streams::Cursor;

/// Returns whether a stream of these chunks, which begins at this offset, ends at most at the offset 2^64 - 1.
///
/// `read_pieces` requires it.
///
/// ```rattle
/// let chunks = [b"\0asm".as_slice(), b"\x01\0\0\0".as_slice()];
/// assert!(rt; fits_pieces(0, &chunks));
/// assert!(rt; !fits_pieces(18446744073709551610, &chunks));
/// ```
pub fn fits_pieces(offset: u64, pieces: &[&[u8]]) -> bool
    // Proved: `fits_pieces` says exactly whether chunks may be read at an offset
    ensures { IsTrue result ↔ (offset + length (joined pieces.now) < 2 ^ 64) }
{
    let mut end = offset;
    'pieces: for piece in pieces {
        if !fits(end, piece.len()) {
            return false;
        }
        end += piece.len() as u64;
    }
    true
}

// Reads what is held, up to a request or to the last event, and adds its events. Returns whether the last is among them.
fn read_held<A: Allocator + Copy>(
    alloc: A,
    cursor: &mut Cursor,
    bytes: &[u8],
    events: &mut Vec<Event<A>, A>,
) -> Result<bool>
    ensures reads { ReadsHeld (feed_of bytes.now cursor.old) events.old.items result
        (feed_of bytes.now cursor.new) events.new.items }
    ensures finished { cursor.new.is_finished ≡ cursor.old.is_finished }
{
    'steps: loop {
        match event_of(alloc, parse_next(cursor, bytes))? {
            None => return Ok(false),
            Some(event) => {
                let is_last = event.kind.is_last();
                events.push(event)?;
                if is_last {
                    return Ok(true);
                }
            }
        }
    }
}

/// Returns the events of a stream like `read_pieces`, with any allocator.
///
/// # Errors
///
/// Those of `read_pieces`.
pub fn read_pieces_in<A: Allocator + Copy>(
    alloc: A,
    offset: u64,
    pieces: &[&[u8]],
) -> Result<Vec<Event<A>, A>>
    requires { offset + length (joined pieces.now) < 2 ^ 64 }
    ensures { ReadsUnlessMemory (joined pieces.now) offset all_features result }
{
    let mut cursor = Cursor::new(StoredParser::new(offset));
    let mut bytes = Vec::new(alloc);
    let mut events = Vec::new(alloc);
    'pieces: for piece in pieces {
        add_chunk(&mut cursor, &mut bytes, piece)?;
        // A fault: no later byte changes the reading, so the later chunks are not looked at.
        if read_held(alloc, &mut cursor, &bytes, &mut events)? {
            return Ok(events);
        }
    }
    cursor.finish();
    read_held(alloc, &mut cursor, &bytes, &mut events)?;
    Ok(events)
}

/// Returns the events of a stream that arrives in these chunks and begins at this offset.
///
/// The events do not depend on how the stream is chunked. The last one is `End` or `Fault`. The stream is read with all
/// features. Each event owns a copy of its bytes. Call it only if `fits_pieces` returns true.
///
/// # Errors
///
/// `OutOfMemory`, at offset 0, when an allocation fails. There is no other error: a fault of the stream is an event.
///
/// ```rattle
/// let chunks = [b"\0asm\x01\0".as_slice(), b"\0\0\0\x02\x01a".as_slice()];
/// let events = read_pieces(alloc, 0, &chunks)?;
/// assert_eq!(rt; events.len(), 3);
/// assert_eq!(rt; events[1].kind, EventKind::Custom { data_offset: 12 });
/// assert_eq!(rt; events[2].kind, EventKind::End);
/// ```
pub fn read_pieces(alloc: Global, offset: u64, pieces: &[&[u8]]) -> Result<Vec<Event>>
    requires { offset + length (joined pieces.now) < 2 ^ 64 }
    // Proved: `read_pieces` returns the reading of the joined chunks, wherever they are cut, unless
    //   an allocation fails
    // Proved: each event of `read_pieces` has its kind and numbers, its offsets and a copy of the
    //   bytes that it consumed [the clause of `read_pieces` (`IsEvent`)]
    // Proved: the end or the first fault is the last event of `read_pieces` [the clause of
    //   `read_pieces` (`IsReading`)]
    // Proved: the only error of `read_pieces` is out of memory
    ensures { ReadsUnlessMemory (joined pieces.now) offset all_features result }
{
    read_pieces_in(alloc, offset, pieces)
}
