// Listings: how they end, and one that is longer than what waits. Tables of rows are in `test_rows`.
use super::{PARTS, PARTS_LISTING, lists};
use crate::tests::{same, same_at};
use std::alloc::{AllocError, Global};
use std::process::Abort;
use std::test::Fail;
use wasm_feed::{BoundedSink, Ended, ListError, Sink};
use wasm_parser::{Error, Fault};

// The listing of a stream ends so, with these lines.
fn is_listed(
    rt: &impl Abort,
    alloc: Global,
    stream: &[u8],
    piece: usize,
    wanted: Result<Ended, ListError>,
    lines: &[u8],
) {
    let mut output = BoundedSink::new(alloc, 200).expect(rt, "out of memory");
    let ended = lists(alloc, stream, &mut output, piece);
    same_at(
        rt,
        (ended, output.written(), output.failed()),
        (wanted, lines, false),
        &(stream, piece),
    );
}

#[test]
fn says_how_a_stream_ends(rt: HostRuntime) {
    let cut = Error::new(Fault::UnexpectedEof, 10);
    let unknown = Error::new(Fault::UnknownVersion, 4).with_number(16843009);
    let streams: [(&[u8], Ended, &[u8]); 3] = [
        (
            b"\0asm\x0d\0\x01\0\x01\x01\0",
            Ended::End,
            b"version 0 8 13 component\nunknown 1 10 11\nend 11\n",
        ),
        (
            b"\0asm\x01\0\0\0\x01\x80",
            Ended::Fault(cut),
            b"version 0 8 1 module\nfault 10 unexpected end-of-file\n",
        ),
        (
            b"\0asm\x01\x01\x01\x01",
            Ended::Fault(unknown),
            b"fault 4 unknown binary version: 16843009\n",
        ),
    ];
    for (stream, ended, lines) in streams {
        is_listed(&rt, rt.alloc(), stream, 1, Ok(ended), lines);
        is_listed(&rt, rt.alloc(), stream, 3, Ok(ended), lines);
    }
}

/// A prefix of `PARTS` that ends within a part, how many bytes of lines there are before it, and the offset of its content.
const CUTS: [(usize, usize, u64); 5] = [
    (20, 21, 10),
    (54, 37, 34),
    (60, 55, 57),
    (100, 107, 85),
    (127, 119, 107),
];

// Such a prefix is listed, and its fault.
fn is_cut(
    rt: &impl Abort,
    alloc: Global,
    size: usize,
    before: usize,
    offset: u64,
    piece: usize,
) -> Result<(), Fail> {
    let mut lines = PARTS_LISTING[..before.min(PARTS_LISTING.len())].to_vec(alloc)?;
    let fault = format!(in alloc; "fault {offset} unexpected end-of-file\n")?;
    lines.extend_from_slice(fault.as_bytes())?;
    let ended = Ok(Ended::Fault(Error::new(Fault::UnexpectedEof, offset)));
    let stream = &PARTS[..size.min(PARTS.len())];
    is_listed(rt, alloc, stream, piece, ended, &lines);
    Ok(())
}

#[test]
fn lists_parts_that_are_larger_than_a_chunk(rt: HostRuntime) -> Result<(), Fail> {
    for piece in [1, 3, 16, 65_536] {
        is_listed(&rt, rt.alloc(), PARTS, piece, Ok(Ended::End), PARTS_LISTING);
        for (size, before, offset) in CUTS {
            is_cut(&rt, rt.alloc(), size, before, offset, piece)?;
        }
    }
    Ok(())
}

/// How many empty sections of an unknown id the long listing has.
const MANY: u64 = 50_000;

// The long stream.
fn long_stream(alloc: Global) -> Result<Vec<u8>, AllocError> {
    let mut stream = b"\0asm\x01\0\0\0".to_vec(alloc)?;
    for _ in 0..MANY {
        stream.extend_from_slice(b"\x0e\0")?;
    }
    Ok(stream)
}

// Its listing.
fn long_listing(alloc: Global) -> Result<String, Fail> {
    let mut listing = String::from_str(alloc, "version 0 8 1 module\n")?;
    for index in 0..MANY {
        let at = 10 + 2 * index;
        listing.push_str(format!(in alloc; "unknown 14 {at} {at}\n")?.as_str())?;
    }
    listing.push_str("end 100008\n")?;
    Ok(listing)
}

#[test]
fn lists_more_than_a_mebibyte(rt: HostRuntime) -> Result<(), Fail> {
    let stream = long_stream(rt.alloc())?;
    let listing = long_listing(rt.alloc())?;
    same(&rt, listing.len(), 1_138_972);
    let mut output = BoundedSink::new(rt.alloc(), 1_138_972)?;
    let ended = lists(rt.alloc(), &stream, &mut output, 65_536);
    same(&rt, ended, Ok(Ended::End));
    assert!(rt; output.written() == listing.as_bytes());
    Ok(())
}
