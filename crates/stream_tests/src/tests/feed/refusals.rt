// Listings and sinks whose memory runs out at a chosen growth.
use super::{PARTS, PARTS_LISTING, lists};
use crate::tests::{same, same_at};
use std::alloc::Global;
use std::process::Abort;
use test_devices::Sparing;
use wasm_feed::{BoundedSink, Ended, ListError, Sink, SliceSource, Source, list_in};

/// A stream, and its listing.
const LISTINGS: [(&[u8], &[u8]); 6] = [
    (PARTS, PARTS_LISTING),
    (
        b"\0asm\x01\0\0\0\x03\x02\x01\0\x0a\x04\x01\x02\0\x0b",
        b"version 0 8 1 module\nsection 3 10 12 1\ncode 14 18 1 3\nbody 16 18\nend 18\n",
    ),
    (
        b"\0asm\x01\0\0\0\0\x02\x01a\x0e\x01\xff\x03\x01\0\x08\x01\0",
        b"version 0 8 1 module\ncustom 10 12 12\nunknown 14 14 15\nsection 3 17 18 0\nstart 20 21 0\nend 21\n",
    ),
    (
        b"\0asm\x01\0\0\0\0\x02\x01a\x80",
        b"version 0 8 1 module\ncustom 10 12 12\nfault 12 malformed section id\n",
    ),
    (
        b"\0asm\x01\x01\x01\x01",
        b"fault 4 unknown binary version: 16843009\n",
    ),
    (b"", b"fault 0 unexpected end-of-file\n"),
];

/// More blocks than any of the listings takes.
const AMPLE: u64 = 200;

// How a listing ends whose memory comes from this allocator.
fn ends_in<R: Source, W: Sink>(
    heap: &Sparing<Global>,
    input: &mut R,
    output: &mut W,
    piece: usize,
) -> Result<Ended, ListError> {
    list_in(heap, input, output, piece.max(1))
}

// Whether this many blocks suffice to list a stream. If not, the lines that were written are the first ones.
fn suffices(
    rt: &impl Abort,
    alloc: Global,
    blocks: u64,
    stream: &[u8],
    lines: &[u8],
    piece: usize,
) -> bool {
    let heap = Sparing::new(alloc, blocks);
    let mut input = SliceSource::new(stream);
    let mut output = BoundedSink::new(alloc, 200).expect(rt, "out of memory");
    let answer = ends_in(&heap, &mut input, &mut output, piece);
    let place = (stream, blocks);
    same_at(
        rt,
        (input.failed(), output.failed()),
        (false, false),
        &place,
    );
    if answer == Err(ListError::Memory) {
        assert!(rt; lines.starts_with(output.written()), "{place:?}");
        return false;
    }
    same_at(
        rt,
        (answer.is_ok(), output.written()),
        (true, lines),
        &place,
    );
    true
}

// Each growth of a listing is refused in turn, and the first run in which none is lists all. As many runs are refused as there
// are counts of blocks below the first that suffices.
fn runs_out(rt: &impl Abort, alloc: Global, stream: &[u8], lines: &[u8], piece: usize) {
    let mut refused = 0;
    for blocks in 0..AMPLE {
        if suffices(rt, alloc, blocks, stream, lines, piece) {
            refused = blocks;
            break;
        }
    }
    assert!(rt; refused >= 2, "{stream:?} {refused}");
}

// A stream has this listing.
fn is_listed(rt: &impl Abort, alloc: Global, stream: &[u8], lines: &[u8], piece: usize) {
    let mut output = BoundedSink::new(alloc, 200).expect(rt, "out of memory");
    let ended = lists(alloc, stream, &mut output, piece);
    same_at(
        rt,
        (ended.is_ok(), output.written()),
        (true, lines),
        &stream,
    );
}

#[test]
fn a_listing_whose_memory_runs_out(rt: HostRuntime) {
    for (stream, lines) in &LISTINGS {
        for piece in [3, 10, 18] {
            is_listed(&rt, rt.alloc(), stream, lines, piece);
            runs_out(&rt, rt.alloc(), stream, lines, piece);
        }
    }
}

// Whether a sink is made with memory from this allocator.
fn makes_sink(heap: &Sparing<Global>) -> bool {
    BoundedSink::new_in(heap, 64).is_ok()
}

#[test]
fn a_sink_whose_memory_is_refused(rt: HostRuntime) {
    assert!(rt; !makes_sink(&Sparing::new(rt.alloc(), 0)));
    let one = Sparing::new(rt.alloc(), 1);
    same(&rt, (makes_sink(&one), makes_sink(&one)), (true, false));
}
