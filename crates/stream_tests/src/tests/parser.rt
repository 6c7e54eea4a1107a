// The parser by its calls, and payloads by their fields. Tables of rows are in `test_rows`.
mod calls;
mod debug;
mod frames;
mod imports;
mod payloads;
mod surface;
mod walking;
mod worked;

use crate::tests::same;
use std::ops::Range;
use std::process::Abort;
use wasm_parser::{Chunk, Error, ParseAll, Parser, Payload};

const HEADER: &[u8] = b"\0asm\x01\0\0\0";

// Passes the part that comes next.
fn pass(rt: &impl Abort, parser: &mut Parser, bytes: &[u8]) {
    same(rt, refusal(parser, bytes), None);
}

// A parser that is after a module's header.
fn after_header(rt: &impl Abort, offset: u64) -> Parser {
    let mut parser = Parser::new(offset);
    pass(rt, &mut parser, HEADER);
    parser
}

fn refusal(parser: &mut Parser, bytes: &[u8]) -> Option<Error> {
    parser.parse(bytes, true).err()
}

fn end_of(chunk: &Chunk<'_>) -> Option<u64> {
    match chunk {
        Chunk::Parsed {
            payload: Payload::End(at),
            ..
        } => Some(*at),
        _other => None,
    }
}

// Where the stream ends, if it does so here.
fn end(parser: &mut Parser) -> Option<u64> {
    end_of(&parser.parse(b"", true).ok()?)
}

// The id of a section and the range of its content.
fn section_of(payload: Payload<'_>) -> Option<(u8, Range<u64>)> {
    payload.as_section()
}

// The next payload of a walk.
fn next<'a>(rt: &impl Abort, walk: &mut ParseAll<'a>) -> Payload<'a> {
    walk.next().expect(rt, "no payload").expect(rt, "a fault")
}
