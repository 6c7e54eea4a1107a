// Streams with other custom sections.
use crate::tests::same_at;
use std::alloc::{Allocator, Global};
use std::process::Abort;
use std::test::Fail;
use test_devices::{Measuring, Sparing};
use wasm_feed::{
    BoundedSink, Edit, Ended, Keep, NewSection, all_fit, edit, edit_stream, edit_to, edited_len,
    encode,
};
use wasm_parser::{Error, Fault, Result};

/// The custom sections "a" and "b", and a type section between them.
const STREAM: &[u8] = b"\0asm\x01\0\0\0\0\x02\x01a\x01\x01\0\0\x03\x01bB";

const C: NewSection<'static> = NewSection {
    name: "c",
    data: b"xyz",
};

const EMPTY: NewSection<'static> = NewSection {
    name: "",
    data: b"",
};

// More blocks than an edit takes.
const AMPLE: u64 = 100;

// The edited stream, if all new sections can be written.
fn edited<A: Allocator>(alloc: A, stream: &[u8], edits: &[Edit<'_>]) -> Option<Result<Vec<u8, A>>> {
    if !all_fit(edits) {
        return None;
    }
    Some(edit(alloc, stream, edits))
}

// Whether these bytes are as they were.
fn are_ones(bytes: &[u8]) -> bool {
    for byte in bytes {
        if *byte != 1 {
            return false;
        }
    }
    true
}

// The stream after the edits is this, in memory of its own, in other memory, and while it is read.
fn makes(rt: &impl Abort, alloc: Global, edits: &[Edit<'_>], wanted: &[u8]) {
    let bytes = edited(alloc, STREAM, edits).expect(rt, "too large");
    same_at(
        rt,
        bytes.expect(rt, "a fault").as_slice(),
        wanted,
        &edits.len(),
    );
    if all_fit(edits) {
        same_at(
            rt,
            edited_len(STREAM, edits),
            Ok(wanted.len()),
            &edits.len(),
        );
        let mut out = [1; 60];
        same_at(
            rt,
            edit_to(STREAM, edits, &mut out),
            Ok(wanted.len()),
            &edits.len(),
        );
        same_at(rt, out.get(..wanted.len()), Some(wanted), &edits.len());
        // No byte after the result changes.
        let rest = out.get(wanted.len()..).expect(rt, "too long");
        same_at(rt, are_ones(rest), true, &edits.len());
        for piece in [1, 2, 7, 100] {
            let mut input = Measuring::new(STREAM);
            let mut output = BoundedSink::new(alloc, 100).expect(rt, "out of memory");
            let how = edit_stream(alloc, edits, &mut input, &mut output, piece);
            same_at(rt, how, Ok(Ended::End), &piece);
            same_at(rt, output.written(), wanted, &piece);
            same_at(rt, input.measured(), (piece, piece), &piece);
        }
    }
}

#[test]
fn appends_and_removes(rt: HostRuntime) {
    let kept = b"\0asm\x01\0\0\0\0\x02\x01a\x01\x01\0\0\x03\x01bB\0\x05\x01cxyz\0\x01\0";
    makes(
        &rt,
        rt.alloc(),
        &[Edit::Append(C), Edit::Append(EMPTY)],
        kept,
    );
    let removed = b"\0asm\x01\0\0\0\x01\x01\0\0\x03\x01bB\0\x05\x01cxyz";
    makes(
        &rt,
        rt.alloc(),
        &[Edit::Remove("a"), Edit::Append(C)],
        removed,
    );
    let stripped = b"\0asm\x01\0\0\0\x01\x01\0";
    makes(&rt, rt.alloc(), &[Edit::Keep(Keep::names(false))], stripped);
    makes(&rt, rt.alloc(), &[], STREAM);
}

const B: NewSection<'static> = NewSection {
    name: "b",
    data: b"",
};

#[test]
fn replaces_in_place(rt: HostRuntime) {
    let a = NewSection {
        name: "a",
        data: b"123",
    };
    let replaced = b"\0asm\x01\0\0\0\0\x05\x01a123\x01\x01\0\0\x02\x01b";
    makes(
        &rt,
        rt.alloc(),
        &[Edit::Replace(a), Edit::Replace(B), Edit::Replace(C)],
        replaced,
    );
}

// A later edit changes what an earlier one added.
#[test]
fn edits_in_turn(rt: HostRuntime) {
    let longer = NewSection {
        name: "c",
        data: b"later",
    };
    makes(
        &rt,
        rt.alloc(),
        &[
            Edit::Append(C),
            Edit::Append(EMPTY),
            Edit::Replace(longer),
            Edit::Remove(""),
        ],
        b"\0asm\x01\0\0\0\0\x02\x01a\x01\x01\0\0\x03\x01bB\0\x07\x01clater",
    );
    makes(
        &rt,
        rt.alloc(),
        &[
            Edit::Replace(B),
            Edit::Append(C),
            Edit::Keep(Keep::names(false)),
            Edit::Append(B),
        ],
        b"\0asm\x01\0\0\0\x01\x01\0\0\x02\x01b",
    );
}

// There may be any number of edits.
#[test]
fn makes_many_edits(rt: HostRuntime) {
    let mut many = [Edit::Remove("none"); 12];
    many[3] = Edit::Append(C);
    many[11] = Edit::Remove("a");
    let edited = b"\0asm\x01\0\0\0\x01\x01\0\0\x03\x01bB\0\x05\x01cxyz";
    makes(&rt, rt.alloc(), &many, edited);
}

// The section is a prefix of these bytes, followed by its data.
fn begins(rt: &impl Abort, alloc: Global, size: usize, prefix: &[u8]) -> Result<(), Fail> {
    let data = vec![in alloc; 7u8; size]?;
    let section = NewSection {
        name: "d",
        data: data.as_slice(),
    };
    assert!(rt; section.fits());
    let bytes = encode(alloc, section).expect(rt, "out of memory");
    assert!(rt; bytes.as_slice().starts_with(prefix), "{size}");
    assert_eq!(rt; bytes.len(), prefix.len() + size);
    Ok(())
}

// Lengths have as few bytes as possible: 127 is one, 128 and 16,383 are two, 16,384 is three.
#[test]
fn lengths_are_short(rt: HostRuntime) -> Result<(), Fail> {
    begins(&rt, rt.alloc(), 0, b"\0\x02\x01d")?;
    begins(&rt, rt.alloc(), 125, b"\0\x7f\x01d")?;
    begins(&rt, rt.alloc(), 126, b"\0\x80\x01\x01d")?;
    begins(&rt, rt.alloc(), 16_381, b"\0\xff\x7f\x01d")?;
    begins(&rt, rt.alloc(), 16_382, b"\0\x80\x80\x01\x01d")
}

// A name may have 100,000 bytes.
#[test]
fn names_have_a_limit(rt: HostRuntime) -> Result<(), Fail> {
    let mut name = String::new(rt.alloc());
    for _ in 0..100_000 {
        name.push('n')?;
    }
    let fits = NewSection {
        name: name.as_str(),
        data: b"",
    };
    assert!(rt; fits.fits());
    name.push('n')?;
    let long = NewSection {
        name: name.as_str(),
        data: b"",
    };
    assert!(rt; !long.fits());
    assert!(rt; !all_fit(&[Edit::Append(C), Edit::Replace(long)]));
    Ok(())
}

#[test]
fn refuses_what_is_not_accepted(rt: HostRuntime) {
    let cut = STREAM.get(..19).unwrap_or(STREAM);
    let how = edited(rt.alloc(), cut, &[Edit::Append(C)]).expect(&rt, "too large");
    let fault = how.err().expect(&rt, "no fault");
    same_at(
        &rt,
        (fault.fault(), fault.offset()),
        (Fault::UnexpectedEof, 17),
        &0,
    );
}

// The edit succeeds with enough allocations. With fewer it is out of memory, at offset 0.
#[test]
fn memory_runs_out(rt: HostRuntime) {
    let mut needed = None;
    for blocks in 0..AMPLE {
        let heap = Sparing::new(rt.alloc(), blocks);
        match edited(&heap, STREAM, &[Edit::Append(C), Edit::Append(EMPTY)]).expect(
            &rt,
            "too large",
        ) {
            Ok(bytes) => {
                assert_eq!(rt; bytes.len(), STREAM.len() + 10);
                needed = Some(blocks);
                break;
            }
            Err(error) => same_at(&rt, error, Error::new(Fault::OutOfMemory, 0), &blocks),
        }
    }
    assert!(rt; matches!(needed, Some(1..)), "{needed:?}");
}
