// Frames by their fields, and the parser of frames called again: after a fault, after the end, and at the largest offsets.
use crate::tests::{is_printed, same};
use std::ops::Range;
use wasm_base::Fault;
use wasm_frames::{Frame, FrameKind, NextFrame, StoredParser};
use wasm_grammar::Encoding;

// A module with each kind of frame: a custom section, a type, a function, the start, a data count, a body, data, and a
// section with the unknown id 32.
const MODULE: &[u8] =
    b"\0asm\x01\0\0\0\0\x03\x01ax\x01\x04\x01\x60\0\0\x03\x02\x01\0\x08\x01\x07\x0c\x01\x09\x0a\x04\x01\x02\0\x0b\x0b\x02\x09\x05\x20\x01\xff";

/// The kind, id, count and size of a frame, the offsets of its content, and how many bytes it and its reader have.
type Row = (FrameKind, u8, u32, u32, Range<u64>, (usize, usize));

const ROWS: [Row; 11] = [
    (FrameKind::Header, 0, 0, 0, 0..8, (8, 0)),
    (FrameKind::Custom, 0, 0, 0, 10..13, (5, 1)),
    (FrameKind::Items, 1, 1, 0, 15..19, (6, 3)),
    (FrameKind::Items, 3, 1, 0, 21..23, (4, 1)),
    (FrameKind::Start, 8, 7, 0, 25..26, (3, 0)),
    (FrameKind::DataCount, 12, 9, 0, 28..29, (3, 0)),
    (FrameKind::CodeStart, 10, 1, 3, 31..35, (3, 0)),
    (FrameKind::Body, 10, 0, 0, 33..35, (3, 2)),
    (FrameKind::Items, 11, 9, 0, 37..39, (4, 1)),
    (FrameKind::Unknown, 32, 0, 0, 41..42, (3, 1)),
    (FrameKind::End, 0, 0, 0, 42..42, (0, 0)),
];

// The next frame, and how many bytes it consumed; none for a request or a fault.
fn parsed(next: NextFrame<'_>) -> Option<(Frame<'_>, usize)> {
    match next {
        NextFrame::Parsed { frame, consumed } => Some((frame, consumed)),
        NextFrame::NeedMoreData(_) | NextFrame::Fault(_) => None,
    }
}

// The fault that comes next, if one does.
fn fault(next: NextFrame<'_>) -> Option<(Fault, u64)> {
    match next {
        NextFrame::Fault(error) => Some((error.fault(), error.offset())),
        NextFrame::Parsed { .. } | NextFrame::NeedMoreData(_) => None,
    }
}

fn row_of(frame: Frame<'_>, consumed: usize) -> Row {
    let (kind, id, count, size) = (frame.kind(), frame.id(), frame.count(), frame.size());
    let range = frame.range();
    let remaining = frame.into_reader().bytes_remaining();
    (kind, id, count, size, range, (consumed, remaining))
}

#[test]
fn each_kind_of_frame(rt: HostRuntime) {
    let mut parser = StoredParser::new(0);
    let mut rest = MODULE;
    for wanted in ROWS {
        let (frame, consumed) = parsed(parser.next(rest, true)).expect(&rt, "no frame");
        same(&rt, row_of(frame, consumed), wanted);
        rest = rest.get(consumed..).unwrap_or(b"");
        same(&rt, parser.offset.checked_add(rest.len() as u64), Some(42));
    }
}

// A name, a version and an encoding, and where data and items begin.
#[test]
fn fields_of_one_kind(rt: HostRuntime) {
    let mut parser = StoredParser::new(100);
    let (header, _) = parsed(parser.next(MODULE, true)).expect(&rt, "no header");
    same(
        &rt,
        (header.version(), header.encoding()),
        (1, Encoding::Module),
    );
    let (custom, _) = parsed(parser.next(&MODULE[8..], true)).expect(&rt, "no section");
    same(
        &rt,
        (custom.name(), custom.version(), custom.data_offset()),
        ("a", 0, 112),
    );
    let (types, _) = parsed(parser.next(&MODULE[13..], true)).expect(&rt, "no section");
    same(&rt, (types.name(), types.data_offset()), ("", 116));
    let mut parser = StoredParser::new(0);
    let component = b"\0asm\x0d\0\x01\0";
    let (header, _) = parsed(parser.next(component, true)).expect(&rt, "no header");
    same(
        &rt,
        (header.version(), header.encoding()),
        (13, Encoding::Component),
    );
}

// The name of the section after a header, or the fault: read as text, or not.
fn names(section: &[u8]) -> [Result<(&str, &[u8]), (Fault, u64)>; 2] {
    let mut parser = StoredParser::new(0);
    drop(parser.next(b"\0asm\x01\0\0\0", true));
    let mut other = parser;
    [
        name_in(parser.next_for::<Row, true>(section, true)),
        name_in(other.next_for::<Row, false>(section, true)),
    ]
}

fn name_in(next: NextFrame<'_>) -> Result<(&str, &[u8]), (Fault, u64)> {
    match next {
        NextFrame::Parsed { frame, .. } => Ok((frame.name(), frame.name_bytes())),
        NextFrame::NeedMoreData(_) => Ok(("", b"")),
        NextFrame::Fault(error) => Err((error.fault(), error.offset())),
    }
}

// A name is the same whether the parser reads it as text, and so is the fault of one that is not UTF-8.
#[test]
fn names_as_text_or_not(rt: HostRuntime) {
    let (plain, wide) = (b"\0\x06\x04name!", b"\0\x05\x04a\xe2\x82\xac");
    for name in names(plain) {
        same(&rt, name, Ok(("name", b"name".as_slice())));
    }
    for name in names(wide) {
        same(&rt, name, Ok(("a\u{20ac}", b"a\xe2\x82\xac".as_slice())));
    }
    for name in names(b"\0\x05\x04\xc3\x28ab") {
        same(&rt, name, Err((Fault::MalformedUtf8, 14)));
    }
    for name in names(b"\x01\x01\0") {
        same(&rt, name, Ok(("", b"".as_slice())));
    }
}

// The name is printed as text.
#[test]
fn a_frame_as_text(rt: HostRuntime) {
    let mut parser = StoredParser::new(0);
    drop(parser.next(MODULE, true));
    let (custom, _) = parsed(parser.next(&MODULE[8..], true)).expect(&rt, "no section");
    is_printed(
        &rt,
        rt.alloc(),
        &custom,
        "Frame { kind: Custom, start: 10, end: 13, reader: BinaryReader { bytes: [1, 97, 120], start: 10, position: 2, features: WasmFeatures(3) }, name: \"a\", id: 0, encoding: Module, version: 0, count: 0, size: 0 }",
    );
}

// A request, a fault and the end change nothing: the next call returns the same.
#[test]
fn calls_again(rt: HostRuntime) {
    let mut parser = StoredParser::new(0);
    for _ in 0..2 {
        same(
            &rt,
            matches!(parser.next(&MODULE[..7], false), NextFrame::NeedMoreData(1)),
            true,
        );
        same(
            &rt,
            fault(parser.next(b"\0asx", false)),
            Some((Fault::BadMagic, 0)),
        );
        same(&rt, parser.offset, 0);
    }
    drop(parser.next(MODULE, true));
    for _ in 0..2 {
        same(
            &rt,
            fault(parser.next(b"\0\x03\x05", true)),
            Some((Fault::UnexpectedEof, 10)),
        );
        let (end, consumed) = parsed(parser.next(b"", true)).expect(&rt, "no end");
        same(
            &rt,
            row_of(end, consumed),
            (FrameKind::End, 0, 0, 0, 8..8, (0, 0)),
        );
    }
    let (custom, _) = parsed(parser.next(&MODULE[8..13], false)).expect(&rt, "no section");
    same(&rt, custom.range(), 10..13);
}

// A section may end at the largest offset, and no later.
#[test]
fn near_the_largest_offset(rt: HostRuntime) {
    let mut parser = StoredParser::new(u64::MAX - 11);
    drop(parser.next(&MODULE[..8], true));
    let (section, _) = parsed(parser.next(b"\x20\x01\xff", true)).expect(&rt, "no section");
    same(&rt, section.range(), u64::MAX - 1..u64::MAX);
    let mut parser = StoredParser::new(u64::MAX - 10);
    drop(parser.next(&MODULE[..8], true));
    let past = fault(parser.next(b"\x20\x01", false));
    same(&rt, past, Some((Fault::SectionTooLarge, u64::MAX - 1)));
}
