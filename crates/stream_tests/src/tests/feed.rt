// Worked examples, devices that fail or go short, and memory that runs out.
mod cursors;
mod devices;
mod digits;
mod editing;
mod equal_events;
mod feeding;
mod frames;
mod lending;
mod listings;
mod passing;
mod pieces;
mod reads;
mod refusals;
mod steps;
mod stripping;

use std::alloc::Global;
use std::process::Abort;
use wasm_feed::{
    Ended, Event, ListError, Sink, SliceSource, Source, fits_pieces, list, read_pieces,
};

/// A module with parts of 20 bytes and more, one of each kind whose end need not be here for its line: a custom section, a section
/// with a count, an unknown section, a body, and a data section.
const PARTS: &[u8] =
    b"\0asm\x01\0\0\0\0\x16\x01aABCDEFGHIJKLMNOPQRST\x01\x15\x09ABCDEFGHIJKLMNOPQRST\x0e\x14ABCDEFGHIJKLMNOPQRST\x03\x02\x01\0\x0a\x16\x01\x14ABCDEFGHIJKLMNOPQRST\x0b\x15\x05ABCDEFGHIJKLMNOPQRST";

/// Its listing.
const PARTS_LISTING: &[u8] =
    b"version 0 8 1 module\ncustom 10 32 12\nsection 1 34 55 9\nunknown 14 57 77\nsection 3 79 81 1\ncode 83 105 1 21\nbody 85 105\nsection 11 107 128 5\nend 128\n";

// How the listing of what this source returns ends.
fn ends<R: Source, W: Sink>(
    alloc: Global,
    input: &mut R,
    output: &mut W,
    piece: usize,
) -> Result<Ended, ListError> {
    list(alloc, input, output, piece.max(1))
}

// How the listing of this stream ends.
fn lists<W: Sink>(
    alloc: Global,
    stream: &[u8],
    output: &mut W,
    piece: usize,
) -> Result<Ended, ListError> {
    ends(alloc, &mut SliceSource::new(stream), output, piece)
}

// The events of a stream in these chunks, which has to stay within the offsets.
fn events(rt: &impl Abort, alloc: Global, offset: u64, pieces: &[&[u8]]) -> Vec<Event> {
    assert!(rt; fits_pieces(offset, pieces));
    read_pieces(alloc, offset, pieces).expect(rt, "out of memory")
}
