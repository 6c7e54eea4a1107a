// Bytes that go on a page or past it, and parts that are forwarded or dropped.
ghost use Rattle.std.specs.Prelude.{◌≡◌, ◌+◌, ◌≤◌, true, length, vec_len, vec_capacity};

use super::PARTS;
use super::devices::Failing;
use crate::tests::{same, same_at};
use std::alloc::{Allocator, Global};
use std::test::Fail;
use test_devices::Sparing;
use wasm_feed::{
    Ahead, BoundedSink, Cursor, ListError, SliceSource, Source, Step, parse_next, seen,
};
use wasm_frames::StoredParser;
use wasm_io::Page;
use wasm_parser::{Error, Fault};
use wasm_streams::{Passing, pass_part, put_all};

// A sink is full at this size after these bytes were put where 3 waited. Returns how many bytes then waited and were written.
fn put(
    alloc: Global,
    count: usize,
    room: usize,
) -> Result<(Result<(), ListError>, usize, usize), Fail> {
    let mut output = BoundedSink::new(alloc, room)?;
    let mut page = Page::new(alloc);
    put_all(&mut page, b"abc", &mut output)?;
    let bytes = vec![in alloc; 0x2a_u8; count]?;
    let result = put_all(&mut page, &bytes, &mut output);
    Ok((result, page.len(), output.written().len()))
}

#[test]
fn bytes_on_a_page_or_past_it(rt: HostRuntime) -> Result<(), Fail> {
    let alloc = rt.alloc();
    same(&rt, put(alloc, 0, 0)?, (Ok(()), 3, 0));
    same(&rt, put(alloc, 16_384, 0)?, (Ok(()), 16_387, 0));
    same(&rt, put(alloc, 16_385, 20_000)?, (Ok(()), 0, 16_388));
    same(&rt, put(alloc, 200_000, 200_003)?, (Ok(()), 0, 200_003));
    for room in [0, 2, 3, 200_002] {
        let failed = (Err(ListError::Output), 0, room);
        same_at(&rt, put(alloc, 200_000, room)?, failed, &room);
    }
    Ok(())
}

#[test]
fn a_page_without_memory(rt: HostRuntime) -> Result<(), Fail> {
    let none = Sparing::new(rt.alloc(), 0);
    let mut output = BoundedSink::new(rt.alloc(), 10)?;
    let mut page = Page::new(&none);
    for _ in 0..2 {
        same(
            &rt,
            put_all(&mut page, b"abc", &mut output),
            Err(ListError::Memory),
        );
        same(&rt, output.written(), b"".as_slice());
        same(&rt, page.len(), 0);
    }
    Ok(())
}

#[test]
fn a_page_whose_sink_is_full(rt: HostRuntime) -> Result<(), Fail> {
    let mut output = BoundedSink::new(rt.alloc(), 1)?;
    let mut page = Page::new(rt.alloc());
    page.put(b"abc", &mut output)?;
    for _ in 0..2 {
        let failed = Err(ListError::Output);
        same(&rt, page.write_out(&mut output), failed);
        same(&rt, page.put(&[0; 65_534], &mut output), failed);
        same(&rt, page.len(), 3);
        same(&rt, output.written(), b"a".as_slice());
    }
    page.clear();
    page.clear();
    same(&rt, page.len(), 0);
    same(&rt, page.write_out(&mut output), Ok(()));
    Ok(())
}

const PIECES: [usize; 5] = [1, 3, 5, 14, 30];

// Returns whether the chunk fits behind the bytes that are stored.
fn has_room<A: Allocator>(stored: &Vec<u8, A>, ahead: &Ahead<A>) -> bool
    ensures { result ≡ true → vec_len stored.now + length ahead.now ≤ vec_capacity stored.now }
{
    match stored.capacity().checked_sub(stored.len()) {
        Some(room) => ahead.bytes().len() <= room,
        None => false,
    }
}

// What the calls for one stream share.
#[derive(Drop)]
struct Stream<R: Drop, A: Allocator + Copy> {
    input: R,
    ahead: Ahead<A>,
    cursor: Cursor,
    stored: Vec<u8, A>,
}

impl<R: Source + Drop, A: Allocator + Copy> Stream<R, A> {
    fn new(alloc: A, input: R, piece: usize) -> Result<Self, Fail> {
        Ok(Stream {
            input,
            ahead: Ahead::new(vec![in alloc; 0_u8; piece.max(1)]?),
            cursor: Cursor::new(StoredParser::new(0)),
            stored: Vec::new(alloc),
        })
    }

    // Makes one step. Returns how many bytes it provided, if it didn't ask for more.
    fn step(&mut self) -> Result<Option<usize>, Fail> {
        self.ahead.make_ready(&mut self.cursor, &mut self.stored)?;
        let size = match parse_next(&mut self.cursor, seen(&self.stored, self.ahead.bytes()))? {
            Step::Parsed { bytes, .. } => bytes.len(),
            Step::NeedMoreData(_) => return Ok(None),
        };
        self.ahead.pass_borrowed(&mut self.cursor, &self.stored);
        Ok(Some(size))
    }

    // Reads on until the cursor has skipped the custom section of `PARTS`.
    fn skip_section(&mut self) -> Result<(), Fail> {
        for _turn in 0..100 {
            if self.step()?.is_some() {
                continue;
            }
            let bytes = seen(&self.stored, self.ahead.bytes());
            if self.cursor.skip_next(bytes).is_some() {
                return Ok(());
            }
            self.refill()?;
        }
        Err("nothing was skipped".into())
    }

    // Reads more, for which `make_ready` has made room.
    fn refill(&mut self) -> Result<(), ListError> {
        if !has_room(&self.stored, &self.ahead) {
            return Err(ListError::Memory);
        }
        self.ahead
            .refill(&mut self.cursor, &mut self.stored, &mut self.input)
    }

    // Forwards or drops a part.
    fn pass_on(
        &mut self,
        part: Passing,
        page: &mut Page<A>,
        output: &mut BoundedSink,
    ) -> Result<Option<Error>, ListError> {
        let bytes = seen(&self.stored, self.ahead.bytes());
        let held = self.cursor.remaining(bytes).len();
        if held as u64 >= part.size {
            return Err(ListError::Memory);
        }
        pass_part(
            part,
            &mut self.cursor,
            &mut self.stored,
            &mut self.ahead,
            page,
            &mut self.input,
            output,
        )
    }

    // Forwards or drops the custom section. Its bytes are written out to `output`.
    fn pass(
        &mut self,
        alloc: A,
        stays: bool,
        output: &mut BoundedSink,
    ) -> Result<Option<Error>, ListError> {
        let mut page = Page::new(alloc);
        let fault = self.pass_on(section(stays), &mut page, output)?;
        page.write_out(output)?;
        Ok(fault)
    }

    // Returns how many bytes are stored, the cursor's mark, and how many bytes of the chunk remain.
    fn held(&self) -> (usize, usize, usize) {
        (
            self.stored.len(),
            self.cursor.mark(),
            self.ahead.bytes().len(),
        )
    }
}

// The custom section of `PARTS`.
fn section(stays: bool) -> Passing {
    Passing {
        from: 10,
        size: 24,
        stays,
    }
}

#[test]
fn a_part_is_forwarded_or_dropped(rt: HostRuntime) -> Result<(), Fail> {
    let alloc = rt.alloc();
    for piece in PIECES {
        for stays in [false, true] {
            let mut output = BoundedSink::new(alloc, 100)?;
            let mut stream = Stream::new(alloc, SliceSource::new(PARTS), piece)?;
            stream.skip_section()?;
            same_at(
                &rt,
                stream.pass(alloc, stays, &mut output),
                Ok(None),
                &piece,
            );
            let wanted = if stays { &PARTS[8..32] } else { &[] };
            same_at(&rt, output.written(), wanted, &piece);
            same_at(&rt, stream.stored.len(), 0, &piece);
            let at = (stream.cursor.offset(), stream.cursor.mark());
            same_at(&rt, at, (32, 0), &piece);
            // The type section is next.
            let mut next = None;
            for _turn in 0..100 {
                next = stream.step()?;
                if next.is_some() {
                    break;
                }
                stream.refill()?;
            }
            same_at(&rt, next, Some(23), &piece);
        }
    }
    Ok(())
}

#[test]
fn a_part_that_is_cut(rt: HostRuntime) -> Result<(), Fail> {
    let alloc = rt.alloc();
    let fault = Ok(Some(Error::new(Fault::UnexpectedEof, 10)));
    for piece in PIECES {
        for end in 12..32 {
            let mut output = BoundedSink::new(alloc, 100)?;
            let mut stream = Stream::new(alloc, SliceSource::new(&PARTS[..end]), piece)?;
            stream.skip_section()?;
            same_at(
                &rt,
                stream.pass(alloc, true, &mut output),
                fault,
                &(piece, end),
            );
            same_at(&rt, output.written(), &PARTS[8..end], &(piece, end));
            // The same again: nothing remains.
            same_at(
                &rt,
                stream.pass(alloc, true, &mut output),
                fault,
                &(piece, end),
            );
            same_at(&rt, output.written(), &PARTS[8..end], &(piece, end));
        }
    }
    Ok(())
}

// The source fails after 20 bytes, of which 12 are the section's: they wait on the page, or are dropped.
#[test]
fn the_source_fails_in_a_part(rt: HostRuntime) -> Result<(), Fail> {
    let alloc = rt.alloc();
    for (stays, waiting) in [(false, 0), (true, 12)] {
        let mut output = BoundedSink::new(alloc, 100)?;
        let mut page = Page::new(alloc);
        let mut stream = Stream::new(alloc, Failing::after(PARTS, 5, 4), 5)?;
        stream.skip_section()?;
        for _ in 0..2 {
            let result = stream.pass_on(section(stays), &mut page, &mut output);
            same_at(&rt, result, Err(ListError::Input), &stays);
            same_at(&rt, stream.held(), (0, 0, 0), &stays);
            same_at(&rt, page.len(), waiting, &stays);
        }
        page.write_out(&mut output)?;
        same_at(&rt, output.written(), &PARTS[8..8 + waiting], &stays);
    }
    Ok(())
}

#[test]
fn the_sink_is_full_after_a_part(rt: HostRuntime) -> Result<(), Fail> {
    let alloc = rt.alloc();
    let mut output = BoundedSink::new(alloc, 5)?;
    let mut stream = Stream::new(alloc, SliceSource::new(PARTS), 14)?;
    stream.skip_section()?;
    let result = stream.pass(alloc, true, &mut output);
    same(&rt, result, Err(ListError::Output));
    same(&rt, output.written(), &PARTS[8..13]);
    Ok(())
}

// Bytes that are too many for the page are written at once, after those that waited.
#[test]
fn the_sink_is_full_in_a_part(rt: HostRuntime) -> Result<(), Fail> {
    let alloc = rt.alloc();
    let bytes = vec![in alloc; 7_u8; 60_000]?;
    let part = Passing {
        from: 0,
        size: 40_000,
        stays: true,
    };
    for (room, rest) in [(2, 40_000), (20_003, 20_000)] {
        let mut output = BoundedSink::new(alloc, room)?;
        let mut page = Page::new(alloc);
        page.put(b"abc", &mut output)?;
        let mut stream = Stream::new(alloc, SliceSource::new(&bytes), 20_000)?;
        let result = stream.pass_on(part, &mut page, &mut output);
        same_at(&rt, result, Err(ListError::Output), &room);
        same_at(&rt, stream.held(), (0, 0, 0), &room);
        same_at(&rt, (page.len(), output.written().len()), (0, room), &room);
        let mut piece = [0; 60_000];
        same_at(&rt, stream.input.read(&mut piece)?, rest, &room);
    }
    Ok(())
}

// No more memory: a part that is dropped needs none.
#[test]
fn a_part_without_memory(rt: HostRuntime) -> Result<(), Fail> {
    let heap = Sparing::new(rt.alloc(), 100);
    for (stays, wanted) in [(true, Err(ListError::Memory)), (false, Ok(None))] {
        heap.give(100);
        let mut output = BoundedSink::new(rt.alloc(), 100)?;
        let mut stream = Stream::new(&heap, SliceSource::new(PARTS), 5)?;
        stream.skip_section()?;
        heap.give(0);
        same_at(&rt, stream.pass(&heap, stays, &mut output), wanted, &stays);
        same_at(&rt, output.written(), b"".as_slice(), &stays);
        same_at(&rt, (stream.held().0, stream.held().1), (0, 0), &stays);
    }
    Ok(())
}

// A part at the largest offset: its fault is there.
#[test]
fn a_part_at_the_largest_offset(rt: HostRuntime) -> Result<(), Fail> {
    let alloc = rt.alloc();
    let part = Passing {
        from: u64::MAX,
        size: u64::MAX,
        stays: true,
    };
    let mut stream = Stream::new(alloc, SliceSource::new(b"abc"), 2)?;
    let mut output = BoundedSink::new(alloc, 3)?;
    let mut page = Page::new(alloc);
    let fault = stream.pass_on(part, &mut page, &mut output)?;
    same(&rt, fault, Some(Error::new(Fault::UnexpectedEof, u64::MAX)));
    same(&rt, page.len(), 3);
    Ok(())
}
