// A cursor and a chunk by their own calls, what becomes of the parts of a stripped stream, and the lines of events.
use super::PARTS;
use crate::tests::same;
use std::alloc::Allocator;
use std::process::Abort;
use std::test::Fail;
use wasm_edits::stays;
use wasm_feed::{Ahead, Cursor, Failed, Keep, SliceSource, Step, parse_next};
use wasm_frames::{NextFrame, StoredParser};
use wasm_io::{Base, ShortText, TEXT_BYTES};
use wasm_lines::{FaultLine, FrameLine, SkippedLine};
use wasm_parser::{Error, Fault, Parser, Payload};

#[test]
fn a_cursor_over_all_of_a_stream(rt: HostRuntime) -> Result<(), Fail> {
    let mut cursor = Cursor::over_all(StoredParser::new(0));
    same(&rt, (cursor.offset(), cursor.mark()), (0, 0));
    drop(parse_next(&mut cursor, PARTS)?);
    same(&rt, (cursor.offset(), cursor.mark()), (8, 8));
    same(&rt, cursor.remaining(PARTS), &PARTS[8..]);
    same(&rt, cursor.remaining(&PARTS[..8]), b"".as_slice());
    same(&rt, cursor.remaining(&PARTS[..3]), b"".as_slice());
    // Bytes that are cut are at the end of the stream.
    match parse_next(&mut cursor, &PARTS[..20]) {
        Ok(_) => assert!(rt; false, "no fault"),
        Err(error) => same(&rt, error.fault(), Fault::UnexpectedEof),
    }
    same(&rt, (cursor.offset(), cursor.mark()), (8, 8));
    cursor.rewind();
    cursor.rewind();
    same(&rt, (cursor.offset(), cursor.mark()), (8, 0));
    drop(parse_next(&mut cursor, &PARTS[8..])?);
    same(&rt, (cursor.offset(), cursor.mark()), (32, 24));
    Ok(())
}

// The last offsets of a stream: a header that ends there, and one that would end past them.
#[test]
fn a_cursor_at_the_largest_offset(rt: HostRuntime) -> Result<(), Fail> {
    let header = &PARTS[..8];
    let mut cursor = Cursor::over_all(StoredParser::new(u64::MAX - 8));
    drop(parse_next(&mut cursor, header)?);
    same(&rt, (cursor.offset(), cursor.mark()), (u64::MAX, 8));
    assert!(rt; cursor.skip_next(header).is_none());
    let end = parse_next(&mut cursor, header)?;
    assert!(rt;
        matches!(
            end,
            Step::Parsed {
                payload: Payload::End(u64::MAX),
                ..
            }
        )
    );
    drop(end);
    let mut cursor = Cursor::over_all(StoredParser::new(u64::MAX - 7));
    assert!(rt; cursor.skip_next(header).is_none());
    for _ in 0..2 {
        match parse_next(&mut cursor, header) {
            Ok(_) => assert!(rt; false, "no fault"),
            Err(error) => same(&rt, error, Error::new(Fault::OffsetRange, u64::MAX - 7)),
        }
        same(&rt, (cursor.offset(), cursor.mark()), (u64::MAX - 7, 0));
    }
    Ok(())
}

#[test]
fn a_part_that_a_cursor_skips(rt: HostRuntime) -> Result<(), Fail> {
    let mut cursor = Cursor::new(StoredParser::new(0));
    assert!(rt; cursor.skip_next(&PARTS[..12]).is_none());
    drop(parse_next(&mut cursor, PARTS)?);
    // All of the section is here, or its first fields are not.
    assert!(rt; cursor.skip_next(PARTS).is_none());
    assert!(rt; cursor.skip_next(&PARTS[..10]).is_none());
    same(&rt, cursor.offset(), 8);
    let copy = cursor.clone()?;
    let part = cursor.skip_next(&PARTS[..20]).ok_or("not skipped")?;
    same(&rt, (part.range.start, part.range.end), (10, 32));
    same(&rt, (cursor.offset(), cursor.mark()), (32, 8));
    same(&rt, (copy.offset(), copy.mark()), (8, 8));
    Ok(())
}

// Consumes two bytes of a chunk, if there are as many.
fn pass_two<A: Allocator>(ahead: &mut Ahead<A>) {
    let count = ahead.bytes().len().min(2);
    ahead.pass(count);
}

#[test]
fn a_chunk_by_its_calls(rt: HostRuntime) -> Result<(), Fail> {
    let mut input = SliceSource::new(b"abcde");
    let mut ahead = Ahead::new(vec![in rt.alloc(); 0_u8; 3]?);
    same(&rt, ahead.bytes(), b"".as_slice());
    ahead.pass(0);
    same(&rt, ahead.fetch(&mut input), Ok(()));
    same(&rt, ahead.bytes(), b"abc".as_slice());
    pass_two(&mut ahead);
    same(&rt, ahead.bytes(), b"c".as_slice());
    // The next chunk replaces the remaining bytes.
    same(&rt, ahead.fetch(&mut input), Ok(()));
    same(&rt, ahead.bytes(), b"de".as_slice());
    pass_two(&mut ahead);
    for _ in 0..2 {
        same(&rt, ahead.fetch(&mut input), Ok(()));
        same(&rt, ahead.bytes(), b"".as_slice());
    }
    Ok(())
}

#[test]
fn names_that_stay(rt: HostRuntime) -> Result<(), Fail> {
    let keep_a = Keep {
        names: false,
        kept: &["a"],
        removed: &[],
    };
    let all_but_a = Keep {
        names: false,
        kept: &[],
        removed: &["a"],
    };
    for (name, of_names, of_a, of_others) in [
        ("name", true, false, true),
        ("a", false, true, false),
        ("", false, false, true),
    ] {
        same(&rt, stays(name, Keep::names(true)), of_names);
        same(&rt, stays(name, Keep::names(false)), false);
        same(&rt, stays(name, keep_a), of_a);
        same(&rt, stays(name, all_but_a), of_others);
    }
    Ok(())
}

// A line is written over what is there, from a place on.
fn is_line<T: ShortText>(rt: &impl Abort, line: &T, text: &[u8]) {
    let mut room = [b'-'; TEXT_BYTES + 2];
    let end = line.write_at(&mut room, 2);
    same(rt, room.get(2..end), Some(text));
    same(rt, &room[..2], b"--".as_slice());
}

#[test]
fn lines_in_both_bases(rt: HostRuntime) -> Result<(), Fail> {
    let (decimal, hexadecimal) = (Base::Decimal, Base::Hexadecimal);
    let mut frames = StoredParser::new(12);
    drop(frames.next(&PARTS[..8], true));
    let NextFrame::Parsed { frame, .. } = frames.next(b"", true) else {
        return Err("no end".into());
    };
    let frame = &frame;
    is_line(
        &rt,
        &FrameLine {
            base: decimal,
            frame,
        },
        b"end 20",
    );
    is_line(
        &rt,
        &FrameLine {
            base: hexadecimal,
            frame,
        },
        b"end 0x14",
    );
    let error = &Error::new(Fault::UnknownVersion, 20).with_number(3);
    is_line(
        &rt,
        &FaultLine {
            base: decimal,
            error,
        },
        b"fault 20 unknown binary version: 3",
    );
    is_line(
        &rt,
        &FaultLine {
            base: hexadecimal,
            error,
        },
        b"fault 0x14 unknown binary version: 3",
    );
    let mut parser = Parser::new(0);
    drop(parser.parse(PARTS, false)?);
    let part = &parser.skip_next(&PARTS[8..20]).ok_or("no custom section")?;
    is_line(
        &rt,
        &SkippedLine {
            base: decimal,
            part,
        },
        b"custom 10 32 12",
    );
    is_line(
        &rt,
        &SkippedLine {
            base: hexadecimal,
            part,
        },
        b"custom 0xa 0x20 0xc",
    );
    Ok(())
}
