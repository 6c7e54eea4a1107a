// A small module, call by call and chunk by chunk, and what a code section announces beyond its bytes.
use super::debug::is_parsed;
use super::{after_header, end, next, pass, section_of};
use crate::tests::{SMALL, same};
use wasm_parser::{Chunk, Parser};

#[test]
fn sections_of_a_small_module(rt: HostRuntime) {
    let wanted = [None, Some((3, 10..12)), Some((10, 14..18)), None, None];
    let mut walk = Parser::new(0).parse_all(SMALL);
    for wanted in &wanted {
        same(&rt, &section_of(next(&rt, &mut walk)), wanted);
    }
    assert!(rt; walk.next().is_none());
}

#[test]
fn a_small_module_call_by_call(rt: HostRuntime) {
    let mut parser = Parser::new(0);
    let rows: [(&[u8], u64, Option<u32>); 4] = [
        (&SMALL[..8], 8, None),
        (&SMALL[8..12], 12, None),
        (&SMALL[12..15], 15, Some(3)),
        (&SMALL[15..], 18, Some(0)),
    ];
    for (part, offset, skippable) in rows {
        pass(&rt, &mut parser, part);
        same(
            &rt,
            (parser.offset(), parser.skippable()),
            (offset, skippable),
        );
    }
    same(
        &rt,
        (end(&mut parser), parser.skippable()),
        (Some(18), None),
    );
}

// How many bytes are asked for after this many of the module, by a parser that is passed those it has not consumed.
fn asked(parser: &mut Parser, given: &[u8]) -> Option<usize> {
    for _ in 0..2 {
        let offset = usize::try_from(parser.offset()).ok()?;
        if let Chunk::NeedMoreData(hint) = parser.parse(given.get(offset..)?, false).ok()? {
            return Some(hint);
        }
    }
    None
}

#[test]
fn hints_while_bytes_come_one_by_one(rt: HostRuntime) {
    let mut parser = Parser::new(0);
    let mut count = 0_usize;
    for hint in [4, 3, 2, 1, 4, 3, 2, 1, 1, 1, 2, 1] {
        let given = &SMALL[..count.min(SMALL.len())];
        same(&rt, asked(&mut parser, given), Some(hint));
        count = count.wrapping_add(1);
    }
}

#[test]
fn hints_behind_the_start_of_a_code_section(rt: HostRuntime) {
    let mut parser = Parser::new(0);
    for part in [&SMALL[..8], &SMALL[8..12], &SMALL[12..15]] {
        pass(&rt, &mut parser, part);
    }
    for (given, hint) in [(15, 1), (16, 2), (17, 1)] {
        same(&rt, asked(&mut parser, &SMALL[..given]), Some(hint));
    }
}

// The size of a code section is known before its bytes are.
#[test]
fn a_code_section_of_four_gigabytes(rt: HostRuntime) {
    let mut parser = after_header(&rt, 0);
    pass(&rt, &mut parser, b"\x03\x02\x01\0");
    let chunk = parser.parse(b"\x0a\xff\xff\xff\xff\x0f\x01", false);
    let text =
        "7, payload: CodeSectionStart { count: 1, unchecked_range: 18..4294967313, size: 4294967294 } }";
    is_parsed(&rt, rt.alloc(), chunk, text);
}
