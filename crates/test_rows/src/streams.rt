// The events of a whole stream, and those of a prefix.
use crate::readings::{
    Gathered, Next, Stream, add_next, feed, list_chunked, read_bytewise, walked,
};
use crate::rows::Failed;
use std::alloc::Global;
use wasm_parser::Parser;

/// The sizes of the chunks in which a stream is read.
const SIZES: [usize; 5] = [1, 2, 3, 7, 65_536];

/// Returns the lines of the events of a whole stream. They are read in several ways: from the whole input, from the parser one byte at a
/// time, from a feeder in chunks, and as the listing in chunks. Where one of them differs, its lines follow under a heading.
pub(crate) fn lines_of_stream(alloc: Global, stream: &Stream<'_>) -> Result<Vec<u8>, Failed> {
    let whole = walked(alloc, stream, true)?;
    let mut lines = Gathered::new(alloc);
    lines.add(&whole);
    let other = read_bytewise(alloc, stream)?;
    add_other("the parser, one byte at a time", &whole, &other, &mut lines);
    let plain = walked(alloc, stream, false)?;
    for size in &SIZES {
        add_chunked(alloc, stream, *size, &plain, &mut lines)?;
    }
    lines.finish()
}

// Adds the results of a feeder and of the listing for chunks of this size, if they differ from these lines.
fn add_chunked(
    alloc: Global,
    stream: &Stream<'_>,
    size: usize,
    plain: &[u8],
    lines: &mut Gathered,
) -> Result<(), Failed> {
    add_other(
        "a feeder, in chunks",
        plain,
        &feed(alloc, stream, size)?,
        lines,
    );
    // The listing begins at offset 0.
    if stream.offset == 0 {
        add_other(
            "the listing, in chunks",
            plain,
            &list_chunked(alloc, stream, size)?,
            lines,
        );
    }
    Ok(())
}

// Adds lines under a heading if they differ from the expected ones.
fn add_other(heading: &str, wanted: &[u8], other: &[u8], lines: &mut Gathered) {
    if wanted != other {
        lines.add(b"  differs: ");
        lines.add(heading.as_bytes());
        lines.add(b"\n");
        lines.add(other);
    }
}

/// Returns the lines of the events that are complete in a prefix of a stream, each with how many bytes it consumes. Then how many bytes
/// the parser asks for, or its fault, and its offset, which these leave unchanged.
pub(crate) fn lines_of_prefix(alloc: Global, stream: &Stream<'_>) -> Result<Vec<u8>, Failed> {
    let mut parser = stream.parser();
    let mut lines = Gathered::new(alloc);
    add_prefix(&mut parser, stream.bytes, &mut lines);
    lines.add_number(" offset=", parser.offset());
    lines.add(b"\n");
    lines.finish()
}

fn add_prefix(parser: &mut Parser, prefix: &[u8], lines: &mut Gathered) {
    let mut rest = prefix;
    for _ in 0..=prefix.len() {
        match add_next(parser, rest, false, lines) {
            Next::Event(consumed) => {
                lines.add_number(" used=", consumed as u64);
                lines.add(b"\n");
                rest = rest.split_at(consumed.min(rest.len())).1;
            }
            Next::Last => break,
            Next::More(count) => {
                lines.add_number("  need ", count as u64);
                break;
            }
        }
    }
}
