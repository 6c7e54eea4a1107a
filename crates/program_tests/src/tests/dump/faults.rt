// Walks over streams that keep faults alone.
use super::dumps::Cut;
use std::alloc::Global;
use std::process::Abort;
use std::test::Fail;
use wasm_commands::check_as;
use wasm_dumper::{Counts, walk, walk_payload};
use wasm_io::{BoundedSink, ListError, SliceSource, WriteSink};
use wasm_parser::{Error, Fault, Parser, Payload};
use wasm_show::{Faults, Offsets, Walker, Within};
use wasm_streams::Ended;

// What is asked for: the beginning of each line, and whether nothing is written.
#[derive(Clone, Copy)]
struct Asked<'a> {
    prefix: &'a str,
    is_quiet: bool,
}

const ALL: Asked<'static> = Asked {
    prefix: "",
    is_quiet: false,
};

// How the walk over this stream ends, whether there was a fault, and the sink.
fn checked(
    alloc: Global,
    asked: Asked<'_>,
    stream: &[u8],
    room: usize,
    piece: usize,
) -> Result<(Result<Ended, ListError>, bool, BoundedSink), Fail> {
    let prefix = String::from_str(alloc, asked.prefix)?;
    let sink = BoundedSink::new(alloc, room)?;
    let mut faults = Faults::new(alloc, sink, prefix, asked.is_quiet);
    let mut input = SliceSource::new(stream);
    let ended = walk(alloc, &mut input, &mut faults, piece.max(1));
    faults.write_out();
    let ended = match faults.why_stopped() {
        Some(why) => Err(why),
        None => ended,
    };
    let found = faults.has_faults();
    Ok((ended, found, faults.into_output()))
}

// The check of this stream ends so, and these faults are its own.
fn checks(
    rt: &impl Abort,
    alloc: Global,
    asked: Asked<'_>,
    stream: &[u8],
    how: Ended,
    wanted: (bool, &[u8]),
) -> Result<(), Fail> {
    let (has_faults, text) = wanted;
    for piece in [1, 7, 65_536] {
        let (ended, found, output) = checked(alloc, asked, stream, 200_000, piece)?;
        assert!(rt; ended == Ok(how), "{piece}");
        assert!(rt; found == has_faults, "{piece}");
        assert!(rt; output.written() == text, "{piece}");
    }
    Ok(())
}

/// A stream that the parser reads to its end, and the lines of its faults.
type Row = (&'static [u8], &'static [u8]);

fn all_checked(rt: &impl Abort, alloc: Global, rows: &[Row]) -> Result<(), Fail> {
    for (stream, text) in rows {
        let wanted = (!text.is_empty(), *text);
        checks(rt, alloc, ALL, stream, Ended::End, wanted)?;
    }
    Ok(())
}

/// A module with an item in each of its sections, and its name.
const SOUND: &[u8] =
    b"\0asm\x01\0\0\0\x01\x05\x01\x60\x01\x7f\0\x02\x0a\x01\x03env\x01m\x02\0\x01\x03\x02\x01\0\
\x07\x05\x01\x01f\0\0\x09\x05\x01\x01\0\x01\0\x0a\x04\x01\x02\0\x0b\x0b\x06\x01\x01\x03a\x22\xff\
\0\x0b\x04name\0\x04\x03app";

// The name of an import is not UTF-8; an element has no kind; a global's type is cut short; a type has another kind.
const SECTIONS: [Row; 6] = [
    (SOUND, b""),
    (
        b"\0asm\x01\0\0\0\x02\x07\x01\x01m\x01\xff\0\0",
        b"0xe: malformed UTF-8 encoding, in section import\n",
    ),
    (
        b"\0asm\x01\0\0\0\x07\x05\x01\x01f\x09\0",
        b"0xd: invalid leading byte for external kind: 9, in section export\n",
    ),
    (
        b"\0asm\x01\0\0\0\x06\x02\x01\x7f",
        b"0xc: unexpected end-of-file, in section global\n",
    ),
    (
        b"\0asm\x01\0\0\0\x01\x03\x01\x40\0",
        b"0xb: invalid leading byte for composite type: 64, in section type\n",
    ),
    // A byte after the last item.
    (
        b"\0asm\x01\0\0\0\x05\x04\x01\0\x01\0",
        b"0xd: section size mismatch: unexpected data at the end of the section, in section memory\n",
    ),
];

#[test]
fn finds_faults_in_sections(rt: HostRuntime) -> Result<(), Fail> {
    all_checked(&rt, rt.alloc(), &SECTIONS)
}

// A walker may walk again: what it sees is added to what it has seen.
#[test]
fn walks_again(rt: HostRuntime) -> Result<(), Fail> {
    let stream = b"\0asm\x01\0\0\0\x07\x05\x01\x01f\0\x05";
    let mut offsets = Offsets::new(rt.alloc());
    for piece in [1, 7] {
        let mut input = SliceSource::new(stream);
        let ended = walk(rt.alloc(), &mut input, &mut offsets, piece);
        assert!(rt; ended == Ok(Ended::End));
    }
    let noted = offsets.into_noted().ok_or("out of memory")?;
    assert_eq!(rt; noted.as_slice(), [11, 11].as_slice());
    Ok(())
}

// A walker that has stopped ends each later walk, and writes nothing more.
#[test]
fn a_stopped_walker_stays_so(rt: HostRuntime) -> Result<(), Fail> {
    let (stream, _) = SECTIONS[1];
    let sink = BoundedSink::new(rt.alloc(), 3)?;
    let mut faults = Faults::new(rt.alloc(), sink, String::new(rt.alloc()), false);
    let ended = walk(rt.alloc(), &mut SliceSource::new(stream), &mut faults, 7);
    assert!(rt; ended == Ok(Ended::End));
    faults.write_out();
    assert!(rt; faults.why_stopped() == Some(ListError::Output));
    let ended = walk(rt.alloc(), &mut SliceSource::new(stream), &mut faults, 7);
    assert!(rt; ended == Err(ListError::Output));
    faults.write_out();
    assert_eq!(rt; faults.into_output().written(), b"0xe".as_slice());
    Ok(())
}

/// A section of names: two in each subsection that lists them, in the wrong order.
const UNORDERED: &[u8] = b"\0asm\x01\0\0\0\0\x84\x01\x04name\
\x01\x07\x02\x01\x01f\0\x01g\
\x02\x09\x01\0\x02\x01\x01f\0\x01g\
\x03\x09\x01\0\x02\x01\x01f\0\x01g\
\x04\x07\x02\x01\x01f\0\x01g\
\x05\x07\x02\x01\x01f\0\x01g\
\x06\x07\x02\x01\x01f\0\x01g\
\x07\x07\x02\x01\x01f\0\x01g\
\x08\x07\x02\x01\x01f\0\x01g\
\x09\x07\x02\x01\x01f\0\x01g\
\x0a\x09\x01\0\x02\x01\x01f\0\x01g\
\x0b\x07\x02\x01\x01f\0\x01g\
\x0c\x09\x01\0\x02\x01\x01f\0\x01g\
\x0d\x09\x01\0\x02\x01\x01f\0\x01g";

const UNORDERED_FAULTS: &[u8] = b"0x16: names out of order, in custom section \"name\"
0x21: names out of order, in custom section \"name\"
0x2c: names out of order, in custom section \"name\"
0x35: names out of order, in custom section \"name\"
0x3e: names out of order, in custom section \"name\"
0x47: names out of order, in custom section \"name\"
0x50: names out of order, in custom section \"name\"
0x59: names out of order, in custom section \"name\"
0x62: names out of order, in custom section \"name\"
0x6d: names out of order, in custom section \"name\"
0x76: names out of order, in custom section \"name\"
0x81: names out of order, in custom section \"name\"
0x8c: names out of order, in custom section \"name\"
";

// The version of a tool is not UTF-8; a local's index is not above the one before; a symbol has another kind; a feature's name
// is not UTF-8; features without a count; a relocation is missing, in a section whose name has a quote.
const CUSTOMS: [Row; 18] = [
    (
        b"\0asm\x01\0\0\0\0\x14\x09producers\x01\x03sdk\x01\x01a\x01\xff",
        b"0x1d: malformed UTF-8 encoding, in custom section \"producers\"\n",
    ),
    (
        b"\0asm\x01\0\0\0\0\x10\x04name\x02\x09\x01\0\x02\x01\x01a\0\x01b",
        b"0x17: names out of order, in custom section \"name\"\n",
    ),
    (
        b"\0asm\x01\0\0\0\0\x0e\x07linking\x02\x08\x03\x01\x06\0",
        b"0x16: invalid leading byte for symbol kind: 6, in custom section \"linking\"\n",
    ),
    (
        b"\0asm\x01\0\0\0\0\x14\x0ftarget_features\x01+\x01\xff",
        b"0x1d: malformed UTF-8 encoding, in custom section \"target_features\"\n",
    ),
    (
        b"\0asm\x01\0\0\0\0\x10\x0ftarget_features",
        b"0x1a: unexpected end-of-file, in custom section \"target_features\"\n",
    ),
    (
        b"\0asm\x01\0\0\0\0\x0a\x07reloc.\"\0\x01",
        b"0x14: unexpected end-of-file, in custom section \"reloc.\\22\"\n",
    ),
    (UNORDERED, UNORDERED_FAULTS),
    // The reader for the name refuses the data. A section `core` has to begin with the byte 0.
    (
        b"\0asm\x01\0\0\0\0\x06\x04core\x01",
        b"0xf: invalid start byte for core dump name, in custom section \"core\"\n",
    ),
    (
        b"\0asm\x01\0\0\0\0\x05\x04core",
        b"0xf: unexpected end-of-file, in custom section \"core\"\n",
    ),
    (
        b"\0asm\x01\0\0\0\0\x0d\x0bcoremodules\x80",
        b"0x17: unexpected end-of-file, in custom section \"coremodules\"\n",
    ),
    (
        b"\0asm\x01\0\0\0\0\x10\x0dcoreinstances\x01\x01",
        b"0x19: invalid start byte for core dump instance, in custom section \"coreinstances\"\n",
    ),
    (
        b"\0asm\x01\0\0\0\0\x0b\x09corestack\x01",
        b"0x14: invalid start byte for core dump stack name, in custom section \"corestack\"\n",
    ),
    (
        b"\0asm\x01\0\0\0\0\x09\x07linking\x03",
        b"0x12: unsupported linking section version: 3, in custom section \"linking\"\n",
    ),
    (
        b"\0asm\x01\0\0\0\0\x0a\x09producers",
        b"0x14: unexpected end-of-file, in custom section \"producers\"\n",
    ),
    (
        b"\0asm\x01\0\0\0\0\x08\x07reloc.x",
        b"0x12: unexpected end-of-file, in custom section \"reloc.x\"\n",
    ),
    (
        b"\0asm\x01\0\0\0\0\x1b\x19metadata.code.branch_hint\x80",
        b"0x25: unexpected end-of-file, in custom section \"metadata.code.branch_hint\"\n",
    ),
    // A name that no reader has.
    (b"\0asm\x01\0\0\0\0\x06\x05cores", b""),
    // Two imports whose names are not UTF-8: the first ends the section.
    (
        b"\0asm\x01\0\0\0\x02\x0b\x02\x01m\x01\xff\0\0\x01m\x01\xff",
        b"0xe: malformed UTF-8 encoding, in section import\n",
    ),
];

// A section with an unknown id is no fault.
#[test]
fn warns_of_unknown_sections(rt: HostRuntime) -> Result<(), Fail> {
    let stream = b"\0asm\x01\0\0\0\x0e\x02\0\0\x7f\0";
    let text = b"0xa: warning: unknown section id: 14\n0xe: warning: unknown section id: 127\n";
    let alloc = rt.alloc();
    checks(&rt, alloc, ALL, stream, Ended::End, (false, text))?;
    let quiet = Asked {
        is_quiet: true,
        ..ALL
    };
    checks(&rt, alloc, quiet, stream, Ended::End, (false, b""))
}

#[test]
fn finds_faults_in_custom_sections(rt: HostRuntime) -> Result<(), Fail> {
    all_checked(&rt, rt.alloc(), &CUSTOMS)
}

/// Two names of functions that don't ascend, and a subsection after them whose id doesn't; then a function whose body is missing.
const SEVERAL: &[u8] =
    b"\0asm\x01\0\0\0\0\x12\x04name\x01\x07\x02\x01\x01f\0\x01g\x01\x02\0\0\x03\x03\x02\x85\x80";

const FAULTS: &[u8] = b"a.wasm: 0x15: names out of order, in custom section \"name\"
a.wasm: 0x18: name subsection out of order, in custom section \"name\"
a.wasm: 0x21: unexpected end-of-file, in section function
a.wasm: 0x21: function section has non-zero count but code section is absent
";

#[test]
fn finds_each_fault(rt: HostRuntime) -> Result<(), Fail> {
    let how = Ended::Fault(Error::new(Fault::FunctionWithoutCode, 33));
    let asked = Asked {
        prefix: "a.wasm: ",
        ..ALL
    };
    checks(&rt, rt.alloc(), asked, SEVERAL, how, (true, FAULTS))?;
    let quiet = Asked {
        is_quiet: true,
        ..ALL
    };
    checks(&rt, rt.alloc(), quiet, SEVERAL, how, (true, b""))
}

// Only the section `name` is looked at.
#[test]
fn finds_faults_in_chosen_sections(rt: HostRuntime) -> Result<(), Fail> {
    let alloc = rt.alloc();
    let sink = BoundedSink::new(alloc, 1_000)?;
    let mut faults = Faults::new(alloc, sink, String::new(alloc), false);
    for answer in Parser::new(0).parse_all(SEVERAL) {
        if let Ok(payload) = answer {
            if matches!(&payload, Payload::CustomSection(_)) {
                walk_payload(alloc, &Counts::new(), &payload, &mut faults);
            }
        }
    }
    faults.write_out();
    let text =
        b"0x15: names out of order, in custom section \"name\"\n0x18: name subsection out of order, in custom section \"name\"\n";
    assert_eq!(rt; faults.into_output().written(), text.as_slice());
    Ok(())
}

#[test]
fn stops_where_the_sink_is_full(rt: HostRuntime) -> Result<(), Fail> {
    let asked = Asked {
        prefix: "a.wasm: ",
        ..ALL
    };
    for room in [0, 1, 60, 200] {
        let (ended, found, output) = checked(rt.alloc(), asked, SEVERAL, room, 100)?;
        assert!(rt; ended == Err(ListError::Output), "{room}");
        assert!(rt; found);
        assert!(rt; output.written() == &FAULTS[..room], "{room}");
    }
    Ok(())
}

// The check ends so and has these faults, or an allocation failed after a prefix of them.
fn is_as_ever(
    rt: &impl Abort,
    alloc: Global,
    stream: &[u8],
    how: Ended,
    text: &[u8],
) -> Result<(), Fail> {
    for piece in [1, 7, 65_536] {
        let (ended, found, output) = checked(alloc, ALL, stream, 1_000, piece)?;
        if ended == Err(ListError::Memory) {
            assert!(rt; text.starts_with(output.written()), "{piece}");
        } else {
            assert!(rt; ended == Ok(how), "{piece}");
            assert!(rt; found == !text.is_empty(), "{piece}");
            assert!(rt; output.written() == text, "{piece}");
        }
    }
    Ok(())
}

// In a run in which an allocation fails, no assertion here fails either.
#[test]
fn reports_out_of_memory_or_all_faults(rt: HostRuntime) -> Result<(), Fail> {
    let end = Ended::End;
    is_as_ever(&rt, rt.alloc(), SOUND, end, b"")?;
    let (stream, text) = CUSTOMS[0];
    is_as_ever(&rt, rt.alloc(), stream, end, text)
}

// The prefix and the name of the section are longer than what is buffered.
#[test]
fn writes_long_lines(rt: HostRuntime) -> Result<(), Fail> {
    let alloc = rt.alloc();
    let mut prefix = String::new(alloc);
    for _ in 0..70_000 {
        prefix.push('p')?;
    }
    let mut wanted = prefix.clone()?;
    wanted.push_str("0x1: unexpected end-of-file, in custom section \"")?;
    wanted.push_str(prefix.as_str())?;
    wanted.push_str("\"\n")?;
    let sink = BoundedSink::new(alloc, 300_000)?;
    let mut out = Faults::new(alloc, sink, prefix.clone()?, false);
    out.enter(Within::Custom(prefix.as_str()));
    out.take_fault(1, &Error::new(Fault::UnexpectedEof, 1));
    out.write_out();
    let found = out.has_faults();
    let output = out.into_output();
    assert!(rt; found);
    assert!(rt; output.written() == wanted.as_bytes());
    Ok(())
}

// What was found before the source failed is written, and so is a warning.
#[test]
fn writes_what_it_found_before_the_source_failed(rt: HostRuntime) -> Result<(), Fail> {
    let alloc = rt.alloc();
    // A name that is not UTF-8, a section with an unknown id, and the beginning of another section.
    let stream = b"\0asm\x01\0\0\0\x07\x05\x01\x01\x80\0\0\x0e\x01\0\x0a\x7f";
    let mut text = Vec::new(alloc);
    let prefix = String::from_str(alloc, "a: ")?;
    let output = WriteSink::new(&mut text);
    let (found, _output) = check_as(alloc, prefix, false, &mut Cut::new(stream), output);
    assert!(rt; found == Err(ListError::Input));
    let wanted =
        b"a: 0xc: malformed UTF-8 encoding, in section export\na: 0x11: warning: unknown section id: 14\n";
    assert_eq!(rt; text.as_slice(), wanted.as_slice());
    Ok(())
}
