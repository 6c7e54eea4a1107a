// Chunks that a feeder borrows.
ghost use Rattle.wasm_streams.specs.Beside.{MayCome};

use super::feeding::{Reported, push, say};
use crate::tests::{SMALL, same};
use bitflags::Flags;
use std::alloc::{AllocError, Allocator, Global};
use std::process::Abort;
use test_devices::Sparing;
use wasm_feed::Feeder;
use wasm_parser::{Error, Fault, Result, WasmFeatures};

// The bytes that the feeder may borrow: none after the end of input.
fn lendable<'a, A: Allocator>(feeder: &Feeder<A>, piece: &'a [u8]) -> &'a [u8]
    ensures { MayCome feeder.now result.now }
{
    if feeder.is_finished() { b"" } else { piece }
}

// One step over a chunk: what it reports, and the remaining bytes of the chunk.
fn over<'a, A: Allocator>(feeder: &mut Feeder<A>, piece: &'a [u8]) -> Result<(Reported, &'a [u8])> {
    let chunk = lendable(feeder, piece);
    let (taken, said) = feeder.step_over(chunk, say)?;
    Ok((said, chunk.split_at(taken).1))
}

// What a step over a chunk reports, if memory suffices.
fn reported_over<A: Allocator>(rt: &impl Abort, feeder: &mut Feeder<A>, piece: &[u8]) -> Reported {
    let (said, _) = over(feeder, piece).expect(rt, "out of memory");
    said
}

// Each call that makes a step reports this, also over more bytes, and nothing more is held or stored.
fn stays(rt: &impl Abort, feeder: &mut Feeder, said: Reported) {
    let before = (feeder.held(), feeder.stored());
    for _ in 0..2 {
        let steps = [
            say(feeder.step()),
            say(feeder.open().step()),
            reported_over(rt, feeder, b"\x01\x01\0"),
            reported_over(rt, feeder, b""),
        ];
        same(rt, steps, [said; 4]);
        assert!(rt; !feeder.wants_more());
        same(rt, (feeder.held(), feeder.stored()), before);
    }
}

// The steps over a chunk are these, after each of which this many bytes are held and stored.
fn says_which<A: Allocator>(
    rt: &impl Abort,
    feeder: &mut Feeder<A>,
    piece: &[u8],
    rows: &[(Reported, usize, usize)],
) {
    let mut rest = piece;
    for row in rows {
        let (now, left) = over(feeder, rest).expect(rt, "out of memory");
        rest = left;
        same(rt, (now, feeder.held(), feeder.stored()), *row);
    }
    assert!(rt; rest.is_empty());
}

#[test]
fn parts_complete_in_a_piece_are_not_stored(rt: HostRuntime) {
    let (asks, shows, ends) = (Reported::Asks, Reported::Shows, Reported::Ends);
    let mut feeder = Feeder::new(rt.alloc(), 0, WasmFeatures::all());
    let (first, second) = SMALL.split_at(14);
    let rows = [(shows(8), 0, 0), (shows(4), 0, 0), (asks(1), 2, 2)];
    says_which(&rt, &mut feeder, first, &rows);
    assert!(rt; feeder.wants_more());
    let rows = [(shows(3), 3, 6), (shows(3), 0, 6), (asks(1), 0, 6)];
    says_which(&rt, &mut feeder, second, &rows);
    feeder.finish();
    let rows = [(ends(18), 0, 6), (ends(18), 0, 6)];
    says_which(&rt, &mut feeder, b"", &rows);
}

// A custom section of 605 bytes, and a function section.
fn custom_of_605(alloc: Global) -> std::result::Result<Vec<u8>, AllocError> {
    let mut stream = Vec::new(alloc);
    stream.extend_from_slice(b"\0asm\x01\0\0\0\0\xda\x04\x01x")?;
    stream.extend_from_slice(&[0; 600])?;
    stream.extend_from_slice(b"\x03\x02\x01\0")?;
    Ok(stream)
}

// Of the second chunk only what the first one misses is stored.
#[test]
fn only_what_a_part_misses_is_stored(rt: HostRuntime) {
    let (asks, shows) = (Reported::Asks, Reported::Shows);
    let mut feeder = Feeder::new(rt.alloc(), 0, WasmFeatures::all());
    let stream = custom_of_605(rt.alloc()).expect(&rt, "out of memory");
    let (first, second) = stream.as_slice().split_at(stream.len().min(20));
    let rows = [(shows(8), 0, 0), (asks(593), 12, 12)];
    says_which(&rt, &mut feeder, first, &rows);
    let rows = [(shows(605), 0, 605), (shows(4), 0, 0), (asks(1), 0, 0)];
    says_which(&rt, &mut feeder, second, &rows);
}

// Pushes and steps over chunks take turns.
#[test]
fn a_piece_comes_after_what_was_pushed(rt: HostRuntime) {
    let (asks, shows) = (Reported::Asks, Reported::Shows);
    let mut feeder = Feeder::new(rt.alloc(), 0, WasmFeatures::all());
    let (first, second) = SMALL.split_at(13);
    same(&rt, push(&mut feeder, first), Ok(()));
    let rows = [(shows(8), 5, 13), (shows(4), 1, 13), (asks(1), 1, 13)];
    says_which(&rt, &mut feeder, b"", &rows);
    let rows = [(shows(3), 3, 6), (shows(3), 0, 6)];
    says_which(&rt, &mut feeder, second, &rows);
}

// If the growth for a chunk is refused, nothing is reported, and the same chunk can be given again.
#[test]
fn a_refused_piece_is_pushed_again(rt: HostRuntime) {
    let heap = Sparing::new(rt.alloc(), 0);
    let mut feeder = Feeder::new_in(&heap, 0, WasmFeatures::all());
    let refused = over(&mut feeder, SMALL).err();
    same(&rt, refused, Some(Error::new(Fault::OutOfMemory, 0)));
    assert!(rt; feeder.wants_more());
    heap.give(20);
    let said = over(&mut feeder, SMALL);
    same(&rt, said, Ok((Reported::Shows(8), &SMALL[8..])));
}

#[test]
fn the_end_stays(rt: HostRuntime) {
    let mut feeder = Feeder::new(rt.alloc(), 0, WasmFeatures::all());
    same(&rt, push(&mut feeder, b"\0asm\x01\0\0\0"), Ok(()));
    assert!(rt; !feeder.is_finished());
    feeder.finish();
    feeder.finish();
    assert!(rt; feeder.is_finished());
    same(&rt, say(feeder.step()), Reported::Shows(8));
    stays(&rt, &mut feeder, Reported::Ends(8));
    feeder.finish();
    stays(&rt, &mut feeder, Reported::Ends(8));
}

// After the end of input: a section that is cut short.
#[test]
fn the_fault_of_a_cut_stays(rt: HostRuntime) {
    let mut feeder = Feeder::new(rt.alloc(), 0, WasmFeatures::all());
    same(&rt, push(&mut feeder, b"\0asm\x01\0\0\0\x01"), Ok(()));
    feeder.finish();
    same(
        &rt,
        reported_over(&rt, &mut feeder, b""),
        Reported::Shows(8),
    );
    let cut = Error::new(Fault::UnexpectedEof, 9);
    stays(&rt, &mut feeder, Reported::Refuses(cut));
}

// A fault in borrowed bytes is held, so other bytes after it change nothing.
#[test]
fn a_fault_stays(rt: HostRuntime) {
    let mut feeder = Feeder::new(rt.alloc(), 0, WasmFeatures::all());
    let malformed = Reported::Refuses(Error::new(Fault::MalformedSectionId, 8));
    let rows = [(Reported::Shows(8), 0, 0), (malformed, 2, 2)];
    says_which(&rt, &mut feeder, b"\0asm\x01\0\0\0\x80\0", &rows);
    stays(&rt, &mut feeder, malformed);
    feeder.finish();
    stays(&rt, &mut feeder, malformed);
}

// A header that ends at the top of the offsets, and a byte after it.
#[test]
fn a_byte_past_the_top_of_the_offsets(rt: HostRuntime) {
    let mut feeder = Feeder::new(rt.alloc(), u64::MAX - 8, WasmFeatures::all());
    let header = reported_over(&rt, &mut feeder, b"\0asm\x01\0\0\0");
    same(&rt, header, Reported::Shows(8));
    let past = Reported::Refuses(Error::new(Fault::OffsetRange, u64::MAX));
    for _ in 0..2 {
        same(&rt, reported_over(&rt, &mut feeder, b"\0"), past);
    }
    same(&rt, say(feeder.step()), past);
}

#[test]
fn a_piece_past_the_top_of_the_offsets(rt: HostRuntime) {
    let start = u64::MAX - 8;
    let mut feeder = Feeder::new(rt.alloc(), start, WasmFeatures::all());
    let past = Reported::Refuses(Error::new(Fault::OffsetRange, start));
    let said = reported_over(&rt, &mut feeder, b"\0asm\x01\0\0\0\0");
    same(&rt, said, past);
    feeder.finish();
    same(&rt, reported_over(&rt, &mut feeder, b""), past);
}
