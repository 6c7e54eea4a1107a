// Calls of the parser one after the other: what they consume, ask for and leave unchanged.
use super::{after_header, end, pass, refusal};
use crate::tests::same;
use wasm_parser::{Chunk, Error, Fault, Parser, PartHead, StoredParser};

// What is returned: how many bytes a payload consumed, or how many more are asked for.
#[derive(Clone, Copy, Debug, PartialEq, Eq)]
enum Answer {
    Consumes(usize),
    Asks(usize),
    Refuses(Error),
}

fn first_of(parser: &mut Parser, bytes: &[u8], eof: bool) -> Answer {
    match parser.parse(bytes, eof) {
        Ok(chunk) => answer_of(&chunk),
        Err(error) => Answer::Refuses(error),
    }
}

fn answer_of(chunk: &Chunk<'_>) -> Answer {
    match chunk {
        Chunk::Parsed { consumed, .. } => Answer::Consumes(*consumed),
        Chunk::NeedMoreData(hint) => Answer::Asks(*hint),
    }
}

#[test]
fn a_header(rt: HostRuntime) {
    let mut parser = Parser::new(0);
    let missing = Error::new(Fault::UnexpectedEof, 0);
    same(&rt, refusal(&mut parser, b""), Some(missing));
    same(&rt, parser.offset(), 0);
    same(&rt, first_of(&mut parser, b"\0", false), Answer::Asks(3));
    let unknown = Error::new(Fault::UnknownVersion, 4).with_number(16843009);
    same(
        &rt,
        refusal(&mut parser, b"\0asm\x01\x01\x01\x01"),
        Some(unknown),
    );
    same(
        &rt,
        first_of(&mut parser, b"\0asm\x01\0\0\0\0", true),
        Answer::Consumes(8),
    );
    same(&rt, parser.offset(), 8);
}

#[test]
fn the_end_again_and_again(rt: HostRuntime) {
    let mut parser = after_header(&rt, 0);
    for _ in 0..3 {
        same(&rt, first_of(&mut parser, b"", true), Answer::Consumes(0));
        same(&rt, end(&mut parser), Some(8));
    }
}

/// Sections that are begun, and how many bytes are asked for.
const BEGUN: [(&[u8], usize); 10] = [
    (b"", 1),
    (b"\0", 3),
    (b"\0a", 2),
    (b"\0as", 1),
    (b"\0\x05", 5),
    (b"\0\x05\x01a", 3),
    (b"\x03\x80", 1),
    (b"\x01\x85\0\0\0", 3),
    (b"\x08\x02", 2),
    (b"\x0a\0", 1),
];

#[test]
fn requests_change_nothing(rt: HostRuntime) {
    let mut parser = after_header(&rt, 0);
    for (bytes, hint) in &BEGUN {
        same(
            &rt,
            first_of(&mut parser, bytes, false),
            Answer::Asks(*hint),
        );
        same(&rt, parser.offset(), 8);
    }
}

/// Whole sections that their first fields overrun, and the offset of the fault. No bytes after them change it.
const OVERRUN: [(&[u8], u64); 5] = [
    (b"\0\0", 10),
    (b"\0\x01\x01", 11),
    (b"\x01\x01\x80", 11),
    (b"\x08\0", 10),
    (b"\x0c\x01\x80", 11),
];

#[test]
fn nothing_is_asked_for_inside_a_section(rt: HostRuntime) {
    let mut parser = after_header(&rt, 0);
    for (bytes, offset) in &OVERRUN {
        let wanted = Answer::Refuses(Error::new(Fault::UnexpectedEof, *offset));
        same(&rt, first_of(&mut parser, bytes, false), wanted);
        same(&rt, first_of(&mut parser, bytes, true), wanted);
        same(&rt, parser.offset(), 8);
    }
}

/// Sections that are refused after a header, their faults and the offsets of these.
const REFUSED: [(&[u8], Fault, u64); 6] = [
    (b"\0\x01\x01", Fault::UnexpectedEof, 11),
    (b"\0asm", Fault::MagicAtSection, 8),
    (b"\x80", Fault::MalformedSectionId, 8),
    (b"\x08\0", Fault::UnexpectedEof, 10),
    (b"\x0c\x02\0\0", Fault::DataCountContent, 11),
    (b"\x03\x02\0", Fault::UnexpectedEof, 10),
];

#[test]
fn faults_change_nothing(rt: HostRuntime) {
    let mut parser = after_header(&rt, 0);
    for (bytes, fault, offset) in &REFUSED {
        let wanted = Some(Error::new(*fault, *offset));
        same(&rt, refusal(&mut parser, bytes), wanted);
        same(&rt, parser.offset(), 8);
    }
    // No rank and no count was kept of those that were refused.
    pass(&rt, &mut parser, b"\x03\x01\0");
    same(&rt, parser.offset(), 11);
    same(&rt, end(&mut parser), Some(11));
}

#[test]
fn faults_of_bodies_change_nothing(rt: HostRuntime) {
    let mut parser = after_header(&rt, 0);
    pass(&rt, &mut parser, b"\x03\x02\x02\0");
    pass(&rt, &mut parser, b"\x0a\x02\x02\0\0");
    pass(&rt, &mut parser, b"\0\0");
    same(&rt, parser.offset(), 16);
    let rows: [(&[u8], u64); 3] = [(b"\0", 16), (b"", 16), (b"\x80", 17)];
    for (rest, offset) in rows {
        let wanted = Some(Error::new(Fault::UnexpectedEof, offset));
        same(&rt, refusal(&mut parser, rest), wanted);
        same(&rt, parser.offset(), 16);
    }
}

#[test]
fn a_fault_and_then_the_end_is_refused(rt: HostRuntime) {
    let mut parser = after_header(&rt, 0);
    pass(&rt, &mut parser, b"\x03\x03\x02\0\x07");
    let order = Error::new(Fault::OutOfOrder, 15);
    same(&rt, refusal(&mut parser, b"\x03\x01\0"), Some(order));
    let absent = Error::new(Fault::FunctionWithoutCode, 13);
    same(&rt, refusal(&mut parser, b""), Some(absent));
}

#[test]
fn near_the_top_of_the_offsets(rt: HostRuntime) {
    let mut parser = after_header(&rt, 18446744073709551607);
    let range = Error::new(Fault::OffsetRange, 18446744073709551615);
    same(&rt, refusal(&mut parser, b"\0"), Some(range));
    same(&rt, end(&mut parser), Some(18446744073709551615));
}

#[test]
fn a_code_section_that_is_skipped(rt: HostRuntime) {
    let mut parser = after_header(&rt, 0);
    pass(&rt, &mut parser, b"\x03\x02\x01\0");
    same(&rt, parser.skippable(), None);
    same(
        &rt,
        first_of(&mut parser, b"\x0a\x04\x01", false),
        Answer::Consumes(3),
    );
    same(&rt, (parser.offset(), parser.skippable()), (15, Some(3)));
    same(&rt, first_of(&mut parser, b"\x02", false), Answer::Asks(2));
    if parser.skippable().is_some() {
        parser.skip_section();
    }
    same(&rt, (parser.offset(), parser.skippable()), (18, Some(0)));
    same(&rt, end(&mut parser), Some(18));
    same(&rt, parser.skippable(), None);
}

#[test]
fn nothing_is_left_to_skip(rt: HostRuntime) {
    let mut parser = after_header(&rt, 0);
    pass(&rt, &mut parser, b"\x03\x02\x01\0");
    pass(&rt, &mut parser, b"\x0a\x04\x01\x02\0\x0b");
    pass(&rt, &mut parser, b"\x02\0\x0b");
    same(&rt, parser.skippable(), Some(0));
    same(&rt, first_of(&mut parser, b"", false), Answer::Asks(1));
    same(&rt, parser.skippable(), Some(0));
    same(
        &rt,
        first_of(&mut parser, b"\0\x01\0", false),
        Answer::Consumes(3),
    );
    same(&rt, parser.skippable(), None);
}

// The content and the first fields of a part that is skipped, and where the parser is then.
fn skipped(parser: &mut Parser, bytes: &[u8]) -> Option<(u64, u64, Fields, u64)> {
    let part = parser.skip_next(bytes)?;
    let fields = fields_of(&part.head);
    Some((part.range.start, part.range.end, fields, parser.offset()))
}

// The first fields, without a borrow.
#[derive(Clone, Copy, Debug, PartialEq, Eq)]
enum Fields {
    Custom(bool, u64),
    Items(u8, u32),
    Unknown(u8),
    Body,
}

fn fields_of(head: &PartHead<'_>) -> Fields {
    match head {
        PartHead::Custom { name, data_offset } => Fields::Custom(*name == "name", *data_offset),
        PartHead::Items { id, count } => Fields::Items(*id, *count),
        PartHead::Unknown { id } => Fields::Unknown(*id),
        PartHead::Body => Fields::Body,
    }
}

#[test]
fn parts_that_are_skipped(rt: HostRuntime) {
    let mut parser = after_header(&rt, 100);
    let custom = Some((110, 119, Fields::Custom(true, 115), 119));
    same(&rt, skipped(&mut parser, b"\0\x09\x04name\xff"), custom);
    let unknown = Some((122, 322, Fields::Unknown(0x7f), 322));
    same(&rt, skipped(&mut parser, b"\x7f\xc8\x01"), unknown);
    let functions = Some((324, 326, Fields::Items(3, 1), 326));
    same(&rt, skipped(&mut parser, b"\x03\x02\x01"), functions);
    pass(&rt, &mut parser, b"\x0a\x04\x01");
    let body = Some((330, 332, Fields::Body, 332));
    same(&rt, skipped(&mut parser, b"\x02"), body);
    same(
        &rt,
        (parser.skippable(), end(&mut parser)),
        (Some(0), Some(332)),
    );
}

// What is not skipped, after a header at the offset 0, and leaves the parser there.
const KEPT: [&[u8]; 15] = [
    b"",
    // All of a section; its first fields aren't here; they are wrong.
    b"\0\x02\x01a",
    b"\0",
    b"\0\x02",
    b"\0\x05\x02a",
    b"\0\x09\x02\xff\xff",
    b"\x01\x09",
    b"\x01\x09\x80",
    b"\x01\x09\xff\xff\xff\xff\x7f",
    b"\x80\x09\x01",
    // A header that is begun; a start, a data count and a code section.
    b"\0as",
    b"\0asm",
    b"\x08\x09\x01",
    b"\x0c\x09\x01",
    b"\x0a\x09\x01",
];

// The rows by a function, since a proof over them knows nothing of their bytes.
fn kept() -> &'static [&'static [u8]] {
    &KEPT
}

#[test]
fn parts_that_are_not_skipped(rt: HostRuntime) {
    for bytes in kept() {
        let mut parser = after_header(&rt, 0);
        same(
            &rt,
            (skipped(&mut parser, bytes), parser.offset()),
            (None, 8),
        );
    }
    same(&rt, skipped(&mut Parser::new(0), b"\0asm\x01\0"), None);
}

#[test]
fn sections_out_of_order_are_not_skipped(rt: HostRuntime) {
    let mut parser = after_header(&rt, 0);
    let exports = Some((10, 20, Fields::Items(7, 1), 20));
    same(&rt, skipped(&mut parser, b"\x07\x0a\x01"), exports);
    same(&rt, skipped(&mut parser, b"\x06\x0a\x01"), None);
    pass(&rt, &mut parser, b"\x0c\x01\x02");
    same(&rt, skipped(&mut parser, b"\x0b\x0a\x01"), None);
    let segments = Some((25, 35, Fields::Items(11, 2), 35));
    same(&rt, skipped(&mut parser, b"\x0b\x0a\x02"), segments);
}

#[test]
fn bodies_that_are_not_skipped(rt: HostRuntime) {
    let mut parser = after_header(&rt, 0);
    pass(&rt, &mut parser, b"\x03\x02\x01\0");
    pass(&rt, &mut parser, b"\x0a\x04\x01");
    same(&rt, skipped(&mut parser, b"\x03"), None);
    same(&rt, skipped(&mut parser, b"\x02\0\x0b"), None);
    same(&rt, skipped(&mut parser, b""), None);
    same(&rt, (parser.offset(), parser.skippable()), (15, Some(3)));
}

// The content of a part that a stored parser skips, and where the parser is then.
fn range_skipped(parser: &mut StoredParser, bytes: &[u8]) -> Option<(u64, u64, u64)> {
    let part = parser.skip_next(bytes)?;
    Some((part.range.start, part.range.end, parser.offset))
}

#[test]
fn a_stored_parser_skips(rt: HostRuntime) {
    let mut parser = after_header(&rt, 100).stored();
    same(&rt, range_skipped(&mut parser, b"\x7f\xc8"), None);
    let unknown = Some((111, 311, 311));
    same(&rt, range_skipped(&mut parser, b"\x7f\xc8\x01"), unknown);
    // The rest of this code section would pass the largest offset, and is limited to it.
    parser.offset = u64::MAX - 3;
    parser.bodies = 1;
    parser.code_bytes = 9;
    parser.in_code = 1;
    same(&rt, range_skipped(&mut parser, b"\x03"), None);
    same(&rt, parser.code_bytes, 3);
    let body = Some((u64::MAX - 2, u64::MAX, u64::MAX));
    same(&rt, range_skipped(&mut parser, b"\x02"), body);
}

#[test]
fn skipping_near_the_top_of_the_offsets(rt: HostRuntime) {
    let mut parser = after_header(&rt, 18446744073709551600);
    same(&rt, skipped(&mut parser, b"\x7f\x06"), None);
    let last = Some((
        18446744073709551610,
        18446744073709551615,
        Fields::Unknown(0x7f),
        18446744073709551615,
    ));
    same(&rt, skipped(&mut parser, b"\x7f\x05"), last);
    same(&rt, skipped(&mut parser, b"\x7f"), None);
}
