// Steps of a cursor over frames, and its calls in other orders: again after a fault, at the largest offset, and without memory.
use super::PARTS;
use super::devices::Failing;
use crate::tests::{same, same_at};
use std::alloc::Global;
use std::process::Abort;
use std::test::Fail;
use test_devices::Sparing;
use wasm_base::Fault;
use wasm_frames::{FrameKind, NextFrame, StoredParser};
use wasm_io::{ListError, SliceSource};
use wasm_streams::{Cursor, FrameStep, next_frame, next_frame_for, read_more, refill};

// What a step said: a frame of this kind and this many bytes, a request, or a fault.
#[derive(Clone, Copy, Debug, PartialEq, Eq, Drop)]
enum Said {
    Frame(FrameKind, usize),
    More(usize),
    Fault(Fault, u64),
}

fn told(step: FrameStep<'_>) -> Said {
    match step {
        FrameStep::Parsed { frame, bytes } => Said::Frame(frame.kind(), bytes.len()),
        FrameStep::NeedMoreData(hint) => Said::More(hint),
        FrameStep::Fault(error) => Said::Fault(error.fault(), error.offset()),
    }
}

// A step says this, and leaves the cursor at this offset and mark, and wanting more or not.
fn steps(
    rt: &impl Abort,
    cursor: &mut Cursor,
    bytes: &[u8],
    wanted: Said,
    place: (u64, usize, bool),
) {
    same(rt, told(next_frame(cursor, bytes)), wanted);
    same(
        rt,
        (cursor.offset(), cursor.mark(), cursor.wants_more()),
        place,
    );
}

#[test]
fn frames_of_a_stream_in_a_buffer(rt: HostRuntime) {
    let mut cursor = Cursor::new(StoredParser::new(0));
    assert!(rt; cursor.wants_more());
    assert!(rt; !cursor.is_finished());
    steps(&rt, &mut cursor, &PARTS[..4], Said::More(4), (0, 0, true));
    let parts = [
        (FrameKind::Header, 8, 8),
        (FrameKind::Custom, 24, 32),
        (FrameKind::Items, 23, 55),
        (FrameKind::Unknown, 22, 77),
        (FrameKind::Items, 4, 81),
        (FrameKind::CodeStart, 3, 84),
        (FrameKind::Body, 21, 105),
        (FrameKind::Items, 23, 128),
    ];
    for (kind, size, end) in parts {
        let place = (end as u64, end, false);
        steps(&rt, &mut cursor, PARTS, Said::Frame(kind, size), place);
    }
    // At the end a section could follow, until the end of input is marked.
    steps(&rt, &mut cursor, PARTS, Said::More(1), (128, 128, true));
    cursor.finish();
    cursor.finish();
    assert!(rt; cursor.is_finished());
    assert!(rt; !cursor.wants_more());
    for _again in 0..2 {
        let ended = Said::Frame(FrameKind::End, 0);
        steps(&rt, &mut cursor, PARTS, ended, (128, 128, false));
    }
}

// A step that is made for a caller says the same as another, and leaves the cursor at the same place.
fn step_both(rt: &impl Abort, one: &mut Cursor, other: &mut Cursor, bytes: &[u8]) {
    let said = told(next_frame_for::<Said, true>(other, bytes));
    let place = (other.offset(), other.mark(), other.wants_more());
    steps(rt, one, bytes, said, place);
    same(rt, one.is_finished(), other.is_finished());
}

#[test]
fn steps_for_a_caller(rt: HostRuntime) {
    for (stream, start) in [
        (PARTS, 0),
        (PARTS, u64::MAX - 90),
        (b"\0asm\x01\0\0\0\0\x01\x07".as_slice(), 5),
    ] {
        let mut one = Cursor::new(StoredParser::new(start));
        let mut other = Cursor::new(StoredParser::new(start));
        for end in 0..=stream.len() {
            for _again in 0..3 {
                step_both(&rt, &mut one, &mut other, &stream[..end]);
            }
        }
        one.finish();
        other.finish();
        for _again in 0..3 {
            step_both(&rt, &mut one, &mut other, stream);
        }
    }
}

// A cursor that met a part whose end was missing says the same of any bytes as one that did not.
fn meets(rt: &impl Abort, parser: StoredParser, cut: &[u8], hint: usize, bytes: &[u8]) {
    let mut one = Cursor::new(parser);
    let mut other = Cursor::new(parser);
    for _again in 0..2 {
        steps(rt, &mut one, cut, Said::More(hint), (8, 0, true));
    }
    for _again in 0..2 {
        step_both(rt, &mut one, &mut other, bytes);
        one.rewind();
        other.rewind();
    }
    step_both(rt, &mut one, &mut other, cut);
    one.rewind();
    other.rewind();
    one.finish();
    other.finish();
    step_both(rt, &mut one, &mut other, bytes);
}

#[test]
fn a_part_whose_end_is_missing(rt: HostRuntime) {
    let mut parser = StoredParser::new(0);
    let header = given(parser.next(&PARTS[..8], false));
    same(&rt, header, Said::Frame(FrameKind::Header, 8));
    let cut = b"\0\x7f\x03key1234567890".as_slice();
    for bytes in [
        // As many bytes, more, fewer, and too few to know the part by.
        cut,
        b"\0\x7f\x03key1234567890 and more".as_slice(),
        b"\0\x7f\x03key12".as_slice(),
        b"\0\x7f\x03ke".as_slice(),
        b"".as_slice(),
        // Other bytes after the same first ones, and other first ones: of another size, a whole part, a fault, a magic.
        b"\0\x7f\x03key12, and others".as_slice(),
        b"\0\x7e\x03key1234567890".as_slice(),
        b"\0\x0d\x03key1234567890".as_slice(),
        b"\x80\x7f\x03key1234567890".as_slice(),
        b"\0asm\x01\0\0\0\0\x7f\x03key1".as_slice(),
        b"\0as".as_slice(),
    ] {
        meets(&rt, parser, cut, 113, bytes);
    }
    // A count that is not whole may end with the next byte, or one byte earlier if that is another.
    let begun = b"\x0a\x8a\x80\x80\x80\0\x81\x80\x80\x80".as_slice();
    let whole = b"\x0a\x8a\x80\x80\x80\0\x81\x80\x80\0".as_slice();
    meets(&rt, parser, begun, 1, whole);
}

// What a parser returned, and the number of bytes that it consumed.
fn given(answer: NextFrame<'_>) -> Said {
    match answer {
        NextFrame::Parsed { frame, consumed } => Said::Frame(frame.kind(), consumed),
        NextFrame::NeedMoreData(hint) => Said::More(hint),
        NextFrame::Fault(error) => Said::Fault(error.fault(), error.offset()),
    }
}

#[test]
fn frames_for_a_caller(rt: HostRuntime) {
    for start in [0, u64::MAX - 127, u64::MAX - 90] {
        let mut one = StoredParser::new(start);
        let mut other = StoredParser::new(start);
        let mut mark = 0;
        for end in 0..=PARTS.len() {
            for eof in [false, end == PARTS.len(), end == PARTS.len()] {
                assert!(rt; mark <= end);
                let rest = &PARTS[mark..end];
                let said = given(one.next(rest, eof));
                same_at(
                    &rt,
                    given(other.next_for::<Said, true>(rest, eof)),
                    said,
                    &end,
                );
                same_at(&rt, other.offset, one.offset, &end);
                mark = one.offset.saturating_sub(start) as usize;
            }
        }
    }
}

#[test]
fn a_fault_is_reported_again(rt: HostRuntime) {
    let mut cursor = Cursor::new(StoredParser::new(0));
    let fault = Said::Fault(Fault::BadMagic, 0);
    for _again in 0..2 {
        steps(&rt, &mut cursor, b"\x01\x02\x03\x04", fault, (0, 0, false));
    }
    cursor.finish();
    steps(&rt, &mut cursor, b"\x01\x02\x03\x04", fault, (0, 0, false));
    // Bytes before the mark are not looked at, and those after the last one are none.
    let mut cursor = Cursor::over_all(StoredParser::new(0));
    let header = Said::Frame(FrameKind::Header, 8);
    steps(&rt, &mut cursor, &PARTS[..8], header, (8, 8, false));
    let ended = Said::Frame(FrameKind::End, 0);
    steps(&rt, &mut cursor, b"", ended, (8, 8, false));
}

// The last offset is 2^64 - 1, at which a stream may end.
#[test]
fn frames_at_the_largest_offset(rt: HostRuntime) {
    let header = &PARTS[..8];
    let mut cursor = Cursor::over_all(StoredParser::new(u64::MAX - 8));
    let whole = Said::Frame(FrameKind::Header, 8);
    steps(&rt, &mut cursor, header, whole, (u64::MAX, 8, false));
    let ended = Said::Frame(FrameKind::End, 0);
    steps(&rt, &mut cursor, header, ended, (u64::MAX, 8, false));
    let mut cursor = Cursor::over_all(StoredParser::new(u64::MAX - 7));
    let past = Said::Fault(Fault::OffsetRange, u64::MAX - 7);
    for _again in 0..2 {
        steps(&rt, &mut cursor, header, past, (u64::MAX - 7, 0, false));
    }
}

// Any numbers are a parser: here the code section ends past the largest offset, so its remaining bytes are limited.
#[test]
fn a_cursor_of_any_numbers(rt: HostRuntime) {
    let mut parser = StoredParser::new(u64::MAX - 4);
    parser.is_begun = 1;
    parser.bodies = 1;
    parser.code_bytes = 9;
    let mut cursor = Cursor::new(parser);
    let overrun = Said::Fault(Fault::UnexpectedEof, u64::MAX - 4);
    steps(&rt, &mut cursor, b"\x05", overrun, (u64::MAX - 4, 0, false));
}

#[test]
fn a_chunk_that_finds_no_memory(rt: HostRuntime) -> Result<(), Fail> {
    for blocks in 0..2 {
        let heap = Sparing::new(rt.alloc(), blocks);
        let mut stored = Vec::new(&heap);
        let mut cursor = Cursor::new(StoredParser::new(0));
        let added = refill(&mut cursor, &mut stored, PARTS).is_ok();
        same_at(&rt, added, blocks > 0, &blocks);
        same_at(&rt, cursor.wants_more(), blocks == 0, &blocks);
        same_at(
            &rt,
            stored.len(),
            if added { PARTS.len() } else { 0 },
            &blocks,
        );
    }
    Ok(())
}

#[test]
fn reads_that_fail_or_end(rt: HostRuntime) -> Result<(), Fail> {
    let mut buffer = [0; 5];
    let mut cursor = Cursor::new(StoredParser::new(0));
    let mut stored: Vec<u8, Global> = Vec::new(rt.alloc());
    let mut failing = Failing::after(PARTS, 5, 1);
    read_more(&mut cursor, &mut stored, &mut failing, &mut buffer)?;
    same(&rt, stored.as_slice(), &PARTS[..5]);
    assert!(rt; !cursor.wants_more());
    let failed = read_more(&mut cursor, &mut stored, &mut failing, &mut buffer);
    same(&rt, failed, Err(ListError::Input));
    same(&rt, stored.len(), 5);
    assert!(rt; !cursor.is_finished());
    let mut rest = SliceSource::new(&PARTS[5..8]);
    read_more(&mut cursor, &mut stored, &mut rest, &mut buffer)?;
    read_more(&mut cursor, &mut stored, &mut rest, &mut buffer)?;
    same(&rt, stored.as_slice(), &PARTS[..8]);
    assert!(rt; cursor.is_finished());
    let header = Said::Frame(FrameKind::Header, 8);
    same(&rt, told(next_frame(&mut cursor, &stored)), header);
    Ok(())
}
