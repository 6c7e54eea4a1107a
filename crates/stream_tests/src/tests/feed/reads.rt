// Loops over a source by a feeder.
use super::feeding::{Reported, say};
use crate::tests::{SMALL, same};
use bitflags::Flags;
use std::alloc::Global;
use std::process::Abort;
use wasm_feed::{Ahead, Cursor, Failed, Feeder, ListError, SliceSource, Source, parse_next, seen};
use wasm_frames::StoredParser;
use wasm_parser::{Error, Fault, WasmFeatures};

// Reads into this buffer, where the feeder wants more. Returns whether it did.
fn read_more(
    rt: &impl Abort,
    feeder: &mut Feeder,
    source: &mut SliceSource<'_>,
    buffer: &mut [u8],
) -> bool {
    if !feeder.wants_more() || buffer.is_empty() {
        return false;
    }
    same(rt, feeder.read_from(source, buffer), Ok(()));
    true
}

// How many reads, and how many steps without a request, it takes to read these bytes into room for `size` bytes, and how many bytes
// were stored at most. Bytes are asked for where a step asks, and nowhere else.
fn read_by(rt: &impl Abort, alloc: Global, bytes: &[u8], size: usize) -> (u32, u32, usize) {
    let mut buffer = vec![in alloc; 0u8; size.max(1)].expect(rt, "out of memory");
    let mut source = SliceSource::new(bytes);
    let mut feeder = Feeder::new(alloc, 0, WasmFeatures::all());
    let mut reads = 0u32;
    let mut steps = 0u32;
    let mut most = 0;
    for _turn in 0..200 {
        match say(feeder.open().step()) {
            Reported::Asks(_) => {}
            Reported::Shows(_) => steps = steps.wrapping_add(1),
            Reported::Ends(_) => return (reads, steps.wrapping_add(1), most),
            Reported::Refuses(error) => panic!(rt; "{error:?}"),
        }
        if read_more(rt, &mut feeder, &mut source, buffer.as_mut_slice()) {
            reads = reads.wrapping_add(1);
            most = feeder.stored().max(most);
        }
    }
    (reads, steps, most)
}

#[test]
fn a_source_is_read_where_more_is_asked_for(rt: HostRuntime) {
    let alloc = rt.alloc();
    same(&rt, read_by(&rt, alloc, SMALL, 18), (2, 5, 18));
    same(&rt, read_by(&rt, alloc, SMALL, 10), (3, 5, 10));
    same(&rt, read_by(&rt, alloc, SMALL, 3), (7, 5, 9));
    same(&rt, read_by(&rt, alloc, SMALL, 1), (19, 5, 8));
}

#[test]
fn a_source_with_nothing_is_at_its_end(rt: HostRuntime) {
    let mut source = SliceSource::new(b"");
    let mut feeder = Feeder::new(rt.alloc(), 0, WasmFeatures::all());
    assert!(rt; read_more(&rt, &mut feeder, &mut source, &mut [0; 4]));
    same(
        &rt,
        (feeder.held(), feeder.stored(), feeder.wants_more()),
        (0, 0, false),
    );
    let missing = Error::new(Fault::UnexpectedEof, 0);
    same(&rt, say(feeder.step()), Reported::Refuses(missing));
    assert!(rt; !feeder.wants_more());
}

// The next step beside the chunk that was read last.
fn next_said(
    rt: &impl Abort,
    ahead: &mut Ahead<Global>,
    cursor: &mut Cursor,
    stored: &mut Vec<u8>,
) -> Reported {
    same(rt, ahead.make_ready(cursor, stored), Ok(()));
    say(parse_next(cursor, seen(stored, ahead.bytes())))
}

// Each later step says the same.
fn stays(
    rt: &impl Abort,
    ahead: &mut Ahead<Global>,
    cursor: &mut Cursor,
    stored: &mut Vec<u8>,
    said: Reported,
) {
    for _ in 0..3 {
        ahead.pass_borrowed(cursor, stored);
        same(rt, next_said(rt, ahead, cursor, stored), said);
    }
}

/// A source whose reads fail.
#[derive(Drop)]
struct Broken;

impl Source for Broken {
    ghost use Rattle.std.specs.Prelude.{true};

    ghost has_failed = { λ _. true };

    fn read(&mut self, _buf: &mut [u8]) -> Result<usize, Failed> {
        Err(Failed)
    }

    fn failed(&self) -> bool {
        true
    }
}

// Reads a chunk from this source.
fn read_chunk<R: Source>(
    ahead: &mut Ahead<Global>,
    cursor: &mut Cursor,
    stored: &mut Vec<u8>,
    source: &mut R,
) -> Result<(), ListError> {
    if ahead.make_ready(cursor, stored).is_err() {
        return Err(ListError::Memory);
    }
    ahead.refill(cursor, stored, source)
}

// A read that fails changes nothing: the next step asks as before. Then the source is read.
fn refill(
    rt: &impl Abort,
    ahead: &mut Ahead<Global>,
    cursor: &mut Cursor,
    stored: &mut Vec<u8>,
    source: &mut SliceSource<'_>,
) {
    let failed = read_chunk(ahead, cursor, stored, &mut Broken);
    same(rt, failed, Err(ListError::Input));
    let Reported::Asks(_) = next_said(rt, ahead, cursor, stored) else {
        panic!(rt; "no request");
    };
    let read = read_chunk(ahead, cursor, stored, source);
    same(rt, read, Ok(()));
}

// How many reads and how many steps without a request it takes to read these bytes by chunks of this size, parsed in place, and what
// the last step says.
fn read_borrowed(
    rt: &impl Abort,
    alloc: Global,
    bytes: &[u8],
    size: usize,
) -> (u32, u32, Reported) {
    let room = vec![in alloc; 0u8; size.max(1)].expect(rt, "out of memory");
    let mut source = SliceSource::new(bytes);
    let mut ahead = Ahead::new(room);
    let mut stored = Vec::new(alloc);
    let mut cursor = Cursor::new(StoredParser::new(0));
    let mut reads = 0u32;
    let mut steps = 0u32;
    for _turn in 0..200 {
        match next_said(rt, &mut ahead, &mut cursor, &mut stored) {
            Reported::Asks(_) => {
                refill(rt, &mut ahead, &mut cursor, &mut stored, &mut source);
                reads = reads.wrapping_add(1);
            }
            Reported::Shows(_) => {
                ahead.pass_borrowed(&mut cursor, &stored);
                steps = steps.wrapping_add(1);
            }
            last => {
                stays(rt, &mut ahead, &mut cursor, &mut stored, last);
                return (reads, steps, last);
            }
        }
    }
    panic!(rt; "no last step")
}

#[test]
fn chunks_are_parsed_where_they_are(rt: HostRuntime) {
    let heap = rt.alloc();
    let end = Reported::Ends(18);
    same(&rt, read_borrowed(&rt, heap, SMALL, 18), (2, 4, end));
    same(&rt, read_borrowed(&rt, heap, SMALL, 3), (7, 4, end));
    same(&rt, read_borrowed(&rt, heap, SMALL, 1), (19, 4, end));
}

#[test]
fn a_fault_in_a_chunk_stays(rt: HostRuntime) {
    let heap = rt.alloc();
    let fault = Reported::Refuses(Error::new(Fault::MalformedSectionId, 8));
    let stream = b"\0asm\x01\0\0\0\x80\x01\x01\0";
    same(&rt, read_borrowed(&rt, heap, stream, 100), (1, 1, fault));
    same(&rt, read_borrowed(&rt, heap, stream, 9), (1, 1, fault));
    same(&rt, read_borrowed(&rt, heap, stream, 1), (9, 1, fault));
    let none = Reported::Refuses(Error::new(Fault::UnexpectedEof, 0));
    same(&rt, read_borrowed(&rt, heap, b"", 4), (1, 0, none));
}
