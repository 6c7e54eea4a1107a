// Streams without their custom sections.
use super::devices::Failing;
use crate::tests::same_at;
use std::alloc::Global;
use std::process::Abort;
use std::test::Fail;
use test_devices::Sparing;
use wasm_feed::{
    BoundedSink, Edit, Ended, Keep, ListError, Sink, SliceSource, edit, stays, strip,
    strip_in_place, strip_stream, strip_to_front,
};
use wasm_parser::{Error, Fault, Result};

/// A stream, the stripped stream with the names kept, and the one without.
type Row = (&'static [u8], &'static [u8], &'static [u8]);

const STRIPPED: [Row; 9] = [
    (
        b"\0asm\x01\0\0\0\0\x01\0\x01\x01\0\0\x02\x01a",
        b"\0asm\x01\0\0\0\x01\x01\0",
        b"\0asm\x01\0\0\0\x01\x01\0",
    ),
    (
        b"\0asm\x01\0\0\0\0\x05\x04name\0\x02\x01a",
        b"\0asm\x01\0\0\0\0\x05\x04name",
        b"\0asm\x01\0\0\0",
    ),
    (
        b"\0asm\x01\0\0\0\0\x85\x80\0\x04name",
        b"\0asm\x01\0\0\0\0\x85\x80\0\x04name",
        b"\0asm\x01\0\0\0",
    ),
    (
        b"\0asm\x0d\0\x01\0\x01\x01\0\0\x01\0",
        b"\0asm\x0d\0\x01\0\x01\x01\0",
        b"\0asm\x0d\0\x01\0\x01\x01\0",
    ),
    (
        b"\0asm\x01\0\0\0\x03\x02\x01\0\x0a\x04\x01\x02\0\x0b",
        b"\0asm\x01\0\0\0\x03\x02\x01\0\x0a\x04\x01\x02\0\x0b",
        b"\0asm\x01\0\0\0\x03\x02\x01\0\x0a\x04\x01\x02\0\x0b",
    ),
    // Names with data, after a code section; a name that only begins so; a name of three bytes; an unknown id.
    (
        b"\0asm\x01\0\0\0\0\x06\x05names\x03\x02\x01\0\0\x08\x04name\xff\0\0\x0a\x04\x01\x02\0\x0b\0\x05\x03nam\0\x7f\x81\0\x07\0\x06\x04name\0",
        b"\0asm\x01\0\0\0\x03\x02\x01\0\0\x08\x04name\xff\0\0\x0a\x04\x01\x02\0\x0b\x7f\x81\0\x07\0\x06\x04name\0",
        b"\0asm\x01\0\0\0\x03\x02\x01\0\x0a\x04\x01\x02\0\x0b\x7f\x81\0\x07",
    ),
    // A name whose size has two bytes.
    (
        b"\0asm\x0d\0\x01\0\0\x06\x84\0name\0\x01\0",
        b"\0asm\x0d\0\x01\0\0\x06\x84\0name",
        b"\0asm\x0d\0\x01\0",
    ),
    (b"\0asm\x01\0\0\0", b"\0asm\x01\0\0\0", b"\0asm\x01\0\0\0"),
    (
        b"\0asm\x01\0\0\0\0\x04\x03\xce\xb1x\x0c\x01\x01\0\x02\x01\0\x0b\x02\x01\0",
        b"\0asm\x01\0\0\0\x0c\x01\x01\x0b\x02\x01\0",
        b"\0asm\x01\0\0\0\x0c\x01\x01\x0b\x02\x01\0",
    ),
];

/// A stream that isn't accepted, the fault, and its offset.
type Refused = (&'static [u8], Fault, u64);

const FAULTS: [Refused; 8] = [
    // A section that stays is after one that is dropped, and before the fault.
    (
        b"\0asm\x01\0\0\0\0\x02\x01a\x01\x01\0\x80",
        Fault::MalformedSectionId,
        15,
    ),
    (
        b"\0asm\x01\0\0\0\0\x01\0\x03\x02\x01\0",
        Fault::FunctionWithoutCode,
        15,
    ),
    (
        b"\0asm\x01\0\0\0\x03\x02\x01\0",
        Fault::FunctionWithoutCode,
        12,
    ),
    (b"", Fault::UnexpectedEof, 0),
    (
        b"\0asm\x01\0\0\0\0\x01\0\x80",
        Fault::MalformedSectionId,
        11,
    ),
    (
        b"\0asm\x01\0\0\0\0\x04\x03\xff\xff\xff",
        Fault::MalformedUtf8,
        13,
    ),
    (
        b"\0asm\x01\0\0\0\x0c\x01\x01\0\x01\0\x0b\x02\x02\0",
        Fault::DataCountDiffer,
        18,
    ),
    (
        b"\0asm\x01\0\0\0\x0a\x01\0\0\x02\x01a\x03\x01\0",
        Fault::OutOfOrder,
        17,
    ),
];

// The rows by a function, since a proof over them knows nothing of their bytes.
fn rows() -> &'static [Row] {
    &STRIPPED
}

fn faults() -> &'static [Refused] {
    &FAULTS
}

// The stripped stream.
fn left_of(alloc: Global, stream: &[u8], keep_names: bool) -> Result<Vec<u8>> {
    strip(alloc, stream, keep_names)
}

// Like `left_of`, in the stream's own memory.
fn take_out(stream: &mut Vec<u8>, keep_names: bool) -> Result<()> {
    strip_in_place(stream, Keep::names(keep_names))
}

// Like `left_of`, at the front of the stream's own bytes.
fn take_to_front(stream: &mut [u8], keep_names: bool) -> Result<usize> {
    strip_to_front(stream, Keep::names(keep_names))
}

// The stripped stream, with memory from this allocator.
fn left_in<'a>(
    heap: &'a Sparing<Global>,
    stream: &[u8],
    keep_names: bool,
) -> Result<Vec<u8, &'a Sparing<Global>>> {
    edit(heap, stream, &[Edit::Keep(Keep::names(keep_names))])
}

// The stripped stream is this.
fn leaves(rt: &impl Abort, alloc: Global, stream: &[u8], keep_names: bool, wanted: &[u8]) {
    let left = left_of(alloc, stream, keep_names).expect(rt, "a fault");
    same_at(rt, left.as_slice(), wanted, &(stream, keep_names));
}

#[test]
fn strips_modules(rt: HostRuntime) {
    for (stream, with_names, without) in rows() {
        leaves(&rt, rt.alloc(), stream, true, with_names);
        leaves(&rt, rt.alloc(), stream, false, without);
    }
}

// How many bytes a stripped stream has room for.
fn room_of(alloc: Global, stream: &[u8]) -> Result<usize> {
    Ok(strip(alloc, stream, false)?.capacity())
}

#[test]
fn a_stripped_stream_has_no_room_for_what_went(rt: HostRuntime) {
    for (stream, _, kept) in rows() {
        same_at(&rt, room_of(rt.alloc(), stream), Ok(kept.len()), stream);
    }
}

#[test]
fn stripping_again_changes_nothing(rt: HostRuntime) {
    for (_, with_names, without) in rows() {
        leaves(&rt, rt.alloc(), with_names, true, with_names);
        leaves(&rt, rt.alloc(), without, false, without);
    }
}

// Like `leaves`, in place.
fn leaves_in_place(rt: &impl Abort, alloc: Global, stream: &[u8], keep_names: bool, wanted: &[u8]) {
    let mut bytes = stream.to_vec(alloc).expect(rt, "out of memory");
    let answer = take_out(&mut bytes, keep_names);
    same_at(
        rt,
        (answer, bytes.as_slice()),
        (Ok(()), wanted),
        &(stream, keep_names),
    );
}

#[test]
fn strips_modules_in_place(rt: HostRuntime) {
    for (stream, with_names, without) in rows() {
        leaves_in_place(&rt, rt.alloc(), stream, true, with_names);
        leaves_in_place(&rt, rt.alloc(), stream, false, without);
    }
}

// Like `leaves`, at the front of the bytes.
fn leaves_at_front(rt: &impl Abort, alloc: Global, stream: &[u8], keep_names: bool, wanted: &[u8]) {
    let mut bytes = stream.to_vec(alloc).expect(rt, "out of memory");
    let size = take_to_front(bytes.as_mut_slice(), keep_names).expect(rt, "a fault");
    same_at(rt, bytes.get(..size), Some(wanted), &(stream, keep_names));
}

#[test]
fn strips_modules_to_the_front(rt: HostRuntime) {
    for (stream, with_names, without) in rows() {
        leaves_at_front(&rt, rt.alloc(), stream, true, with_names);
        leaves_at_front(&rt, rt.alloc(), stream, false, without);
    }
}

// A stream with this fault stays as it is, in place and at the front.
fn is_left(rt: &impl Abort, alloc: Global, stream: &[u8], fault: Error) {
    let mut bytes = stream.to_vec(alloc).expect(rt, "out of memory");
    let answer = take_to_front(bytes.as_mut_slice(), true);
    same_at(
        rt,
        (answer, bytes.as_slice()),
        (Err(fault), stream),
        &stream,
    );
    let answer = take_out(&mut bytes, false);
    same_at(
        rt,
        (answer, bytes.as_slice()),
        (Err(fault), stream),
        &stream,
    );
}

#[test]
fn leaves_other_streams_as_they_are(rt: HostRuntime) {
    for (stream, fault, offset) in faults() {
        is_left(&rt, rt.alloc(), stream, Error::new(*fault, *offset));
    }
}

// The fault of a stream, where there is no memory.
fn fault_of(alloc: Global, stream: &[u8], keep_names: bool) -> Option<Error> {
    let none = Sparing::new(alloc, 0);
    left_in(&none, stream, keep_names).err()
}

// The fault of a stream is reported whatever memory there is.
#[test]
fn strips_only_accepted_streams(rt: HostRuntime) {
    for (stream, fault, offset) in faults() {
        let wanted = Some(Error::new(*fault, *offset));
        same_at(&rt, fault_of(rt.alloc(), stream, true), wanted, stream);
        same_at(&rt, fault_of(rt.alloc(), stream, false), wanted, stream);
    }
}

#[test]
fn stripping_without_memory(rt: HostRuntime) {
    let wanted = Some(Error::new(Fault::OutOfMemory, 0));
    for (stream, _, _) in rows() {
        same_at(&rt, fault_of(rt.alloc(), stream, true), wanted, stream);
        same_at(&rt, fault_of(rt.alloc(), stream, false), wanted, stream);
    }
}

// Like `leaves`, with one growth.
fn leaves_in(rt: &impl Abort, alloc: Global, stream: &[u8], keep_names: bool, wanted: &[u8]) {
    let one = Sparing::new(alloc, 1);
    let left = left_in(&one, stream, keep_names).expect(rt, "a fault");
    same_at(rt, left.as_slice(), wanted, &(stream, keep_names));
}

#[test]
fn stripping_with_one_growth(rt: HostRuntime) {
    for (stream, with_names, without) in rows() {
        leaves_in(&rt, rt.alloc(), stream, true, with_names);
        leaves_in(&rt, rt.alloc(), stream, false, without);
    }
}

// A stream with the custom sections a, name and b.
const CUSTOM: &[u8] = b"\0asm\x01\0\0\0\0\x02\x01a\0\x05\x04name\0\x02\x01b";

// What is kept of it: the sections named name, those that match the first list, and if there is a second list, those that do not match it.
const CHOICES: [(bool, &[&str], &[&str], &[u8]); 10] = [
    (false, &["b"], &[], b"\0asm\x01\0\0\0\0\x02\x01b"),
    (
        true,
        &["c", "a"],
        &[],
        b"\0asm\x01\0\0\0\0\x02\x01a\0\x05\x04name",
    ),
    (
        false,
        &[],
        &["b"],
        b"\0asm\x01\0\0\0\0\x02\x01a\0\x05\x04name",
    ),
    (
        false,
        &["b"],
        &["a", "b"],
        b"\0asm\x01\0\0\0\0\x05\x04name\0\x02\x01b",
    ),
    (
        true,
        &[],
        &["name", "a"],
        b"\0asm\x01\0\0\0\0\x05\x04name\0\x02\x01b",
    ),
    (false, &[], &["nam", "names"], CUSTOM),
    (false, &["na*"], &[], b"\0asm\x01\0\0\0\0\x05\x04name"),
    (
        false,
        &[],
        &["c", "n*"],
        b"\0asm\x01\0\0\0\0\x02\x01a\0\x02\x01b",
    ),
    (false, &["b*"], &["*"], b"\0asm\x01\0\0\0\0\x02\x01b"),
    (false, &["*"], &[], CUSTOM),
];

// The choices by a function, since a proof over them knows nothing of their names.
fn choices() -> &'static [(
    bool,
    &'static [&'static str],
    &'static [&'static str],
    &'static [u8],
)] {
    &CHOICES
}

#[test]
fn keeps_what_is_chosen(rt: HostRuntime) {
    for (names, kept, removed, wanted) in choices() {
        let keep = Keep {
            names: *names,
            kept,
            removed,
        };
        let left = edit(rt.alloc(), CUSTOM, &[Edit::Keep(keep)]).expect(&rt, "a fault");
        same_at(&rt, left.as_slice(), *wanted, wanted);
    }
}

// A pattern, a name, and whether the name matches it.
const PATTERNS: [(&str, &str, bool); 21] = [
    (".debug_*", ".debug_line", true),
    (".debug_*", ".debug_", true),
    (".debug_*", ".debug", false),
    (".debug_*", "x.debug_line", false),
    (".debug_*", ".Debug_line", false),
    (".debug_*", "", false),
    ("*", "", true),
    ("*", "*", true),
    ("*", "name", true),
    ("a*", "a*", true),
    ("a*", "ab", true),
    ("a**", "a*", true),
    ("a**", "a*b", true),
    ("a**", "ab", false),
    ("a*b", "a*b", true),
    ("a*b", "acb", false),
    ("*a", "a", false),
    ("*a", "*a", true),
    ("a", "ab", false),
    ("", "", true),
    ("\u{3b1}*", "\u{3b1}x", true),
];

// The patterns by a function, since a proof over them knows nothing of their bytes.
fn patterns() -> &'static [(&'static str, &'static str, bool)] {
    &PATTERNS
}

#[test]
fn names_that_match_patterns(rt: HostRuntime) {
    for (pattern, name, is_match) in patterns() {
        let kept = Keep {
            names: false,
            kept: &[*pattern],
            removed: &[],
        };
        let removed = Keep {
            names: false,
            kept: &[],
            removed: &[*pattern],
        };
        let place = (*pattern, *name);
        same_at(&rt, stays(name, kept), *is_match, &place);
        same_at(&rt, stays(name, removed), !*is_match, &place);
    }
}

// How a stream ends that is stripped while it is read by these pieces, with memory from this allocator.
fn stream_in<W: Sink>(
    heap: &Sparing<Global>,
    stream: &[u8],
    output: &mut W,
    keep_names: bool,
    piece: usize,
) -> std::result::Result<Ended, ListError> {
    let keep = Keep::names(keep_names);
    strip_stream(
        heap,
        &mut SliceSource::new(stream),
        output,
        keep,
        piece.max(1),
    )
}

// How it ends, and what is written.
fn streams(
    rt: &impl Abort,
    alloc: Global,
    stream: &[u8],
    keep_names: bool,
    piece: usize,
    wanted: (Ended, &[u8]),
) {
    let ample = Sparing::new(alloc, 100);
    let mut output = BoundedSink::new(alloc, 200).expect(rt, "out of memory");
    let how = stream_in(&ample, stream, &mut output, keep_names, piece);
    let place = (stream, keep_names, piece);
    same_at(
        rt,
        (how, output.written()),
        (Ok(wanted.0), wanted.1),
        &place,
    );
}

#[test]
fn strips_streams_in_pieces_of_any_size(rt: HostRuntime) {
    for (stream, with_names, without) in rows() {
        for piece in 1..30 {
            streams(
                &rt,
                rt.alloc(),
                stream,
                true,
                piece,
                (Ended::End, with_names),
            );
            streams(&rt, rt.alloc(), stream, false, piece, (Ended::End, without));
        }
    }
}

// A stream with a fault, and what is written before the fault is known.
type Cut = (&'static [u8], Error, &'static [u8]);

// Each stream ends within a part that was skipped, but for the last, whose part is wrong.
fn cut_streams() -> [Cut; 5] {
    [
        (
            b"\0asm\x01\0\0\0\0\x64\x01abc",
            Error::new(Fault::UnexpectedEof, 10),
            b"\0asm\x01\0\0\0",
        ),
        (
            b"\0asm\x01\0\0\0\0\x64\x04nameb",
            Error::new(Fault::UnexpectedEof, 10),
            b"\0asm\x01\0\0\0\0\x64\x04nameb",
        ),
        (
            b"\0asm\x01\0\0\0\x01\x05\x01\x60",
            Error::new(Fault::UnexpectedEof, 10),
            b"\0asm\x01\0\0\0\x01\x05\x01\x60",
        ),
        (
            b"\0asm\x01\0\0\0\x03\x02\x01\0\x0a\x08\x01\x06\0\x01",
            Error::new(Fault::UnexpectedEof, 16),
            b"\0asm\x01\0\0\0\x03\x02\x01\0\x0a\x08\x01\x06\0\x01",
        ),
        (
            b"\0asm\x01\0\0\0\x08\x03\0\0\0",
            Error::new(Fault::StartContent, 11),
            b"\0asm\x01\0\0\0",
        ),
    ]
}

#[test]
fn streams_that_end_within_a_part(rt: HostRuntime) {
    for (stream, fault, written) in cut_streams() {
        let wanted = (Ended::Fault(fault), written);
        streams(&rt, rt.alloc(), stream, true, 1, wanted);
        streams(&rt, rt.alloc(), stream, true, 100, wanted);
    }
}

// Whether this many blocks suffice. If not, what was written are the first bytes.
fn suffices(rt: &impl Abort, alloc: Global, blocks: u64, stream: &[u8], wanted: &[u8]) -> bool {
    let heap = Sparing::new(alloc, blocks);
    let mut output = BoundedSink::new(alloc, 200).expect(rt, "out of memory");
    let how = stream_in(&heap, stream, &mut output, false, 3);
    if how == Err(ListError::Memory) {
        assert!(rt; wanted.starts_with(output.written()));
        return false;
    }
    same_at(
        rt,
        (how, output.written()),
        (Ok(Ended::End), wanted),
        &blocks,
    );
    true
}

// Each growth is refused in turn, and the first run in which none is strips the stream.
#[test]
fn streams_whose_memory_runs_out(rt: HostRuntime) {
    for (stream, _, without) in rows() {
        let refused = (0..20).filter(|blocks| !suffices(&rt, rt.alloc(), *blocks, stream, without));
        same_at(&rt, refused.count() >= 2, true, stream);
    }
}

// What was written is a prefix of the stripped stream, whichever read fails.
#[test]
fn streams_whose_source_fails(rt: HostRuntime) -> std::result::Result<(), Fail> {
    for (stream, _, without) in rows() {
        for (step, reads) in [
            (1, stream.len()),
            (3, stream.len() / 3),
            (7, stream.len() / 7),
        ] {
            for calls in 0..reads {
                let mut input = Failing::after(stream, step, calls);
                let mut output = BoundedSink::new(rt.alloc(), 200)?;
                let keep = Keep::names(false);
                let how = strip_stream(rt.alloc(), &mut input, &mut output, keep, 5);
                same_at(&rt, how, Err(ListError::Input), &(stream, step, calls));
                assert!(rt; without.starts_with(output.written()));
            }
        }
    }
    Ok(())
}

// What was written is all that there was room for, and a prefix of the stripped stream.
#[test]
fn streams_whose_output_is_full(rt: HostRuntime) -> std::result::Result<(), Fail> {
    for (stream, with_names, _) in rows() {
        for room in 0..with_names.len() {
            for piece in [1, 5, 40] {
                let ample = Sparing::new(rt.alloc(), 100);
                let mut output = BoundedSink::new(rt.alloc(), room)?;
                let how = stream_in(&ample, stream, &mut output, true, piece);
                let failed = (Err(ListError::Output), &with_names[..room]);
                same_at(&rt, (how, output.written()), failed, &(stream, room, piece));
            }
        }
    }
    Ok(())
}
