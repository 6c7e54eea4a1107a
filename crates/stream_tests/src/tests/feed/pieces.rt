// Streams that are cut into chunks.
use super::events;
use super::feeding::push;
use crate::tests::{SMALL, same};
use bitflags::Flags;
use std::alloc::{AllocError, Global};
use std::ops::Range;
use std::process::Abort;
use test_devices::Sparing;
use wasm_feed::{Event, EventKind, Feeder, fits_pieces, read_pieces_in};
use wasm_parser::{Encoding, Error, Fault, WasmFeatures};

// A custom section and an unknown one, whose lengths have two and three bytes, and then no section's id.
const CUSTOM: &[u8] = b"\0asm\x01\0\0\0\0\x84\0\x01abc\x0e\x82\x80\0\x07\x08\x80";

// The index of a function and the count of data segments, and no data section.
const NUMBERS: &[u8] = b"\0asm\x01\0\0\0\x08\x83\0\x85\x80\0\x0c\x01\x02";

// More blocks than any of these streams takes.
const AMPLE: u64 = 60;

// An event: what it is, its offsets, and the bytes that it consumed.
type Wanted<'a> = (EventKind, Range<u64>, &'a [u8]);

// The bytes in chunks of this size, with empty ones between them or without.
fn cut(alloc: Global, bytes: &[u8], size: usize, spaced: bool) -> Result<Vec<&[u8]>, AllocError> {
    let mut pieces = Vec::new(alloc);
    let mut rest = bytes;
    for _ in 0..100 {
        if rest.is_empty() {
            break;
        }
        let (piece, later) = rest.split_at(rest.len().min(size));
        pieces.push(piece)?;
        if spaced {
            pieces.push(b"".as_slice())?;
        }
        rest = later;
    }
    Ok(pieces)
}

// That an event is this one.
fn is(rt: &impl Abort, event: &Event, wanted: &Wanted<'_>) {
    let (kind, range, bytes) = wanted;
    same(
        rt,
        (&event.kind, &event.range, event.bytes.as_slice()),
        (kind, range, *bytes),
    );
}

// The events of these chunks are these.
fn are(rt: &impl Abort, alloc: Global, start: u64, pieces: &[&[u8]], wanted: &[Wanted<'_>]) {
    let events = events(rt, alloc, start, pieces);
    same(rt, events.len(), wanted.len());
    for (event, wanted) in events.iter().zip(wanted) {
        is(rt, event, wanted);
    }
}

// The stream's events are these, wherever it is cut.
fn gives(rt: &impl Abort, alloc: Global, start: u64, stream: &[u8], wanted: &[Wanted<'_>]) {
    for (size, spaced) in [(1, false), (5, false), (30, false), (1, true), (7, true)] {
        let pieces = cut(alloc, stream, size, spaced).expect(rt, "out of memory");
        are(rt, alloc, start, &pieces, wanted);
    }
}

#[test]
fn readings_with_ample_memory(rt: HostRuntime) {
    let (num, encoding) = (1, Encoding::Module);
    let wanted: [Wanted<'_>; 5] = [
        (
            EventKind::Version { num, encoding },
            0..8,
            b"\0asm\x01\0\0\0",
        ),
        (
            EventKind::Section { id: 3, count: 1 },
            10..12,
            b"\x03\x02\x01\0",
        ),
        (
            EventKind::Code { count: 1, size: 3 },
            14..18,
            b"\x0a\x04\x01",
        ),
        (EventKind::Body, 16..18, b"\x02\0\x0b"),
        (EventKind::End, 18..18, b""),
    ];
    gives(&rt, rt.alloc(), 0, SMALL, &wanted);
}

#[test]
fn a_push_with_ample_memory(rt: HostRuntime) {
    let mut feeder = Feeder::new(rt.alloc(), 0, WasmFeatures::all());
    same(&rt, push(&mut feeder, SMALL), Ok(()));
    same(&rt, feeder.held(), 18);
}

#[test]
fn near_the_top(rt: HostRuntime) {
    let (start, top) = (18446744073709551607, 18446744073709551615);
    let (num, encoding) = (13, Encoding::Component);
    let wanted: [Wanted<'_>; 2] = [
        (
            EventKind::Version { num, encoding },
            start..top,
            b"\0asm\x0d\0\x01\0",
        ),
        (EventKind::End, top..top, b""),
    ];
    gives(&rt, rt.alloc(), start, b"\0asm\x0d\0\x01\0", &wanted);
}

#[test]
fn pieces_that_fit_below_the_top(rt: HostRuntime) {
    let (start, top) = (18446744073709551607, 18446744073709551615);
    let rows: [(u64, &[&[u8]], bool); 6] = [
        (start, &[b"\0asm", b"", b"\x01\0\0\0"], true),
        (start, &[b"\0asm\x01\0\0\0", b"", b"\0"], false),
        (start, &[b"\0asm\x01\0\0\0\0"], false),
        (top, &[b"", b""], true),
        (top, &[b"", b"\0", b""], false),
        (0, &[], true),
    ];
    for (offset, pieces, fits) in rows {
        same(&rt, fits_pieces(offset, pieces), fits);
    }
}

// How many events these chunks have, read with memory from this allocator.
fn count_in(heap: &Sparing<Global>, pieces: &[&[u8]]) -> Result<usize, Error> {
    if !fits_pieces(40, pieces) {
        return Ok(0);
    }
    Ok(read_pieces_in(heap, 40, pieces)?.len())
}

// Whether this many blocks suffice for a reading of these chunks. If not, the error is `OutOfMemory`.
fn suffices(rt: &impl Abort, alloc: Global, blocks: u64, pieces: &[&[u8]], whole: usize) -> bool {
    match count_in(&Sparing::new(alloc, blocks), pieces) {
        Ok(count) => {
            same(rt, count, whole);
            true
        }
        Err(e) => {
            same(rt, e, Error::new(Fault::OutOfMemory, 0));
            false
        }
    }
}

// Each growth of a reading is refused in turn.
fn runs_out(rt: &impl Abort, alloc: Global, stream: &[u8], least: u64) {
    let pieces = cut(alloc, stream, 5, true).expect(rt, "out of memory");
    let whole = events(rt, alloc, 40, &pieces).len();
    let mut refused = 0;
    for blocks in 0..AMPLE {
        if suffices(rt, alloc, blocks, &pieces, whole) {
            refused = blocks;
            break;
        }
    }
    assert!(rt; refused >= least, "{refused}");
}

#[test]
fn readings_whose_memory_runs_out(rt: HostRuntime) {
    runs_out(&rt, rt.alloc(), SMALL, 6);
    runs_out(&rt, rt.alloc(), CUSTOM, 5);
    runs_out(&rt, rt.alloc(), NUMBERS, 5);
}
