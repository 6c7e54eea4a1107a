// Custom sections of which a dump shows only the first fields, in chunks that cut them.
use super::dumps::dumps;
use super::names::names_in;
use std::alloc::Global;
use std::cell::Cell;
use std::process::Abort;
use std::test::Fail;
use wasm_dumper::{Only, Shown, dump, walk};
use wasm_io::{Base, BoundedSink, Failed, ListError, SliceSource, Source};
use wasm_output::{ItemNames, Objects, Space, TextLines};
use wasm_parser::{Error, Fault};
use wasm_show::Faults;
use wasm_streams::Ended;

/// An imported function, two custom sections in turn, a function with its body, and a custom section whose name is a quote.
const STREAM: &[u8] =
    b"\0asm\x01\0\0\0\x02\x07\x01\x01m\x01f\0\0\0\x14\x01a123456789012345678\0\x0c\x06.debug12345\x03\x02\x01\0\x0a\x04\x01\x02\0\x0b\0\x06\x01\"wxyz";

const LINES: &[u8] = b"version 0 8 1 module
section 2 10 17 1 import size=7
  11 func[0] module=\"m\" name=\"f\" ty=func index=0
custom 19 39 21 size=20 \"a\"
  section name=\"a\" unknown
custom 41 53 48 size=12 \".debug\"
  section name=\".debug\" unknown
section 3 55 57 1 function size=2
  56 func[1] index=0
code 59 63 1 3 size=4
body 61 63 size=2 func[1]
custom 65 71 67 size=6 \"\\22\"
  section name=\"\\22\" unknown
end 71
";

const PARTS: &[u8] = b"version 0 8 1 module
section 2 10 17 1 import size=7
custom 19 39 21 size=20 \"a\"
custom 41 53 48 size=12 \".debug\"
section 3 55 57 1 function size=2
code 59 63 1 3 size=4
body 61 63 size=2 func[1]
custom 65 71 67 size=6 \"\\22\"
end 71
";

/// Each choice, and the dump of the stream.
type Row = (&'static [Only<'static>], &'static [u8]);

const CHOSEN: [Row; 6] = [
    (&[Only::All], LINES),
    (&[Only::Parts], PARTS),
    (&[Only::All, Only::Parts], PARTS),
    (
        &[Only::Id(0)],
        b"custom 19 39 21 size=20 \"a\"\n  section name=\"a\" unknown\ncustom 41 53 48 size=12 \".debug\"\n  section name=\".debug\" unknown\ncustom 65 71 67 size=6 \"\\22\"\n  section name=\"\\22\" unknown\nend 71\n",
    ),
    (
        &[Only::Name(".debug"), Only::Id(10)],
        b"custom 41 53 48 size=12 \".debug\"\n  section name=\".debug\" unknown\ncode 59 63 1 3 size=4\nbody 61 63 size=2 func[1]\nend 71\n",
    ),
    (
        &[Only::Name("a"), Only::Name("\"")],
        b"custom 19 39 21 size=20 \"a\"\n  section name=\"a\" unknown\ncustom 65 71 67 size=6 \"\\22\"\n  section name=\"\\22\" unknown\nend 71\n",
    ),
];

#[test]
fn shows_their_first_fields(rt: HostRuntime) -> Result<(), Fail> {
    for (only, text) in &CHOSEN {
        dumps(&rt, rt.alloc(), only, STREAM, Ok(Ended::End), text)?;
    }
    Ok(())
}

// The stream ends within the name, right after it, and in the data.
#[test]
fn the_stream_ends_within_one(rt: HostRuntime) -> Result<(), Fail> {
    let first = 102;
    let second = 157;
    assert!(rt; LINES[..first].ends_with(b"index=0\n"));
    assert!(rt; LINES[..second].ends_with(b"\"a\" unknown\n"));
    for (from, to, lines) in [(19, 39, first), (41, 53, second)] {
        let mut text = Vec::<u8>::new(rt.alloc());
        text.extend_from_slice(&LINES[..lines])?;
        let fault = if from == 19 {
            b"fault 19 unexpected end-of-file\n".as_slice()
        } else {
            b"fault 41 unexpected end-of-file\n".as_slice()
        };
        text.extend_from_slice(fault)?;
        let how = Ok(Ended::Fault(Error::new(Fault::UnexpectedEof, from as u64)));
        for end in from..to {
            let stream = &STREAM[..end];
            dumps(&rt, rt.alloc(), &[Only::All], stream, how, text.as_slice())?;
        }
    }
    Ok(())
}

// All of a section with a known name is read: only its line is shown if items are not.
#[test]
fn sections_with_known_names(rt: HostRuntime) -> Result<(), Fail> {
    let stream =
        b"\0asm\x01\0\0\0\0\x0b\x04name\x01\x04\x01\0\x01f\0\x14\x0ftarget_features\x01+\x01a\0\x10\x0areloc.CODE\x03\x01\0\x04\0";
    let text = b"version 0 8 1 module
custom 10 21 15 size=11 \"name\"
  section name=\"name\"
    15 function
      18 index=0 name=\"f\"
custom 23 43 39 size=20 \"target_features\"
  section name=\"target_features\" features=39..43 count=1
    40 + name=\"a\"
custom 45 61 56 size=16 \"reloc.CODE\"
  section name=\"reloc.CODE\" section=3 range=56..61 entries=57..61 count=1
    58 type=R_WASM_FUNCTION_INDEX_LEB offset=4 index=0 addend=0
end 61
"
        .as_slice();
    dumps(&rt, rt.alloc(), &[Only::All], stream, Ok(Ended::End), text)?;
    let text =
        b"version 0 8 1 module\ncustom 10 21 15 size=11 \"name\"\ncustom 23 43 39 size=20 \"target_features\"\ncustom 45 61 56 size=16 \"reloc.CODE\"\nend 61\n";
    dumps(
        &rt,
        rt.alloc(),
        &[Only::Parts],
        stream,
        Ok(Ended::End),
        text,
    )
}

// The symbol of a section has the name of that section, of which only the first fields were read.
#[test]
fn symbols_have_their_names(rt: HostRuntime) -> Result<(), Fail> {
    let stream =
        b"\0asm\x01\0\0\0\0\x04\x01a12\0\x0c\x06.debug12345\0\x0f\x07linking\x02\x08\x04\x01\x03\x02\x01\0\x11\x0areloc.CODE\x03\x01\x09\0\0\0";
    let text = b"version 0 8 1 module
custom 10 14 12 size=4 \"a\"
  section name=\"a\" unknown
custom 16 28 23 size=12 \".debug\"
  section name=\".debug\" unknown
custom 30 45 38 size=15 \"linking\"
  section name=\"linking\" version=2 range=38..45 subsections=39
    39 symbol_table=41..45 count=1
      42 symbol[0] \".debug\" section flags=BINDING_LOCAL section=1
custom 47 64 58 size=17 \"reloc.CODE\"
  section name=\"reloc.CODE\" section=3 range=58..64 entries=59..64 count=1
    60 type=R_WASM_SECTION_OFFSET_I32 offset=0 index=0 addend=0 \".debug\"
end 64
"
        .as_slice();
    dumps(&rt, rt.alloc(), &[Only::All], stream, Ok(Ended::End), text)
}

// What is shown of a stream: these choices, with flags.
fn all_of<'n>(found: &'n [Cell<bool>]) -> Shown<'n> {
    Shown {
        only: &[Only::Name("a"), Only::Name("b"), Only::All],
        has_bytes: false,
        found,
    }
}

#[test]
fn says_which_choices_were_found(rt: HostRuntime) -> Result<(), Fail> {
    for piece in [1, 7, 65_536] {
        let found = [Cell::new(false), Cell::new(false), Cell::new(false)];
        let mut tree = TextLines::new(rt.alloc(), BoundedSink::new(rt.alloc(), 1_000)?);
        let mut input = SliceSource::new(&STREAM[..39]);
        let ended = dump(rt.alloc(), all_of(&found), &mut input, &mut tree, piece);
        assert!(rt; ended == Ok(Ended::End), "{piece}");
        assert!(rt; found[0].get(), "{piece}");
        assert!(rt; !found[1].get(), "{piece}");
        assert!(rt; found[2].get(), "{piece}");
        assert!(rt;
            tree.into_output().written().starts_with(&LINES[..95]),
            "{piece}"
        );
    }
    Ok(())
}

// Lines with the names of functions and hexadecimal offsets.
#[test]
fn shows_them_between_names(rt: HostRuntime) -> Result<(), Fail> {
    let text = b"version 0x0 0x8 1 module
section 2 0xa 0x11 1 import size=7
  0xb func[0] \"f\" module=\"m\" name=\"f\" ty=func index=0
custom 0x13 0x27 0x15 size=20 \"a\"
  section name=\"a\" unknown
custom 0x29 0x35 0x30 size=12 \".debug\"
  section name=\".debug\" unknown
section 3 0x37 0x39 1 function size=2
  0x38 func[1] \"g\" index=0
code 0x3b 0x3f 1 3 size=4
body 0x3d 0x3f size=2 func[1] \"g\"
custom 0x41 0x47 0x43 size=6 \"\\22\"
  section name=\"\\22\" unknown
end 0x47
"
        .as_slice();
    for piece in [1, 7, 65_536] {
        let mut names = ItemNames::new(rt.alloc());
        assert!(rt; names.add(rt.alloc(), Space::Functions, 0, "f").is_ok());
        assert!(rt; names.add(rt.alloc(), Space::Functions, 1, "g").is_ok());
        let sink = BoundedSink::new(rt.alloc(), 2_000)?;
        let mut tree = TextLines::with_names(rt.alloc(), sink, Base::Hexadecimal, Some(names));
        let mut input = SliceSource::new(STREAM);
        let ended = dump(rt.alloc(), all_of(&[]), &mut input, &mut tree, piece);
        assert!(rt; ended == Ok(Ended::End), "{piece}");
        assert_eq!(rt; tree.into_output().written(), text, "{piece}");
    }
    Ok(())
}

#[test]
fn shows_them_as_objects(rt: HostRuntime) -> Result<(), Fail> {
    let text = b"{\"event\":\"version\",\"range\":[0,8],\"num\":1,\"encoding\":\"module\"}
{\"event\":\"section\",\"range\":[10,17],\"id\":2,\"name\":\"import\",\"count\":1}
{\"level\":1,\"at\":11,\"space\":\"func\",\"number\":0,\"module\":\"m\",\"name\":\"f\",\"ty\":\"func\",\"index\":0}
{\"event\":\"section\",\"range\":[19,39],\"id\":0,\"name\":\"custom\",\"custom_name\":\"a\",\"data_offset\":21}
{\"level\":1,\"line\":\"section\",\"name\":\"a\",\"known\":\"unknown\"}
{\"event\":\"section\",\"range\":[41,53],\"id\":0,\"name\":\"custom\",\"custom_name\":\".debug\",\"data_offset\":48}
{\"level\":1,\"line\":\"section\",\"name\":\".debug\",\"known\":\"unknown\"}
{\"event\":\"section\",\"range\":[55,57],\"id\":3,\"name\":\"function\",\"count\":1}
{\"level\":1,\"at\":56,\"space\":\"func\",\"number\":1,\"index\":0}
{\"event\":\"section\",\"range\":[59,63],\"id\":10,\"name\":\"code\",\"count\":1,\"size\":3}
{\"event\":\"body\",\"range\":[61,63],\"space\":\"func\",\"number\":1}
{\"event\":\"section\",\"range\":[65,71],\"id\":0,\"name\":\"custom\",\"custom_name\":\"\\\"\",\"data_offset\":67}
{\"level\":1,\"line\":\"section\",\"name\":\"\\\"\",\"known\":\"unknown\"}
{\"event\":\"end\",\"offset\":71}
"
        .as_slice();
    for piece in [1, 7, 65_536] {
        let mut tree = Objects::new(rt.alloc(), BoundedSink::new(rt.alloc(), 3_000)?);
        let mut input = SliceSource::new(STREAM);
        let ended = dump(rt.alloc(), all_of(&[]), &mut input, &mut tree, piece);
        assert!(rt; ended == Ok(Ended::End), "{piece}");
        assert_eq!(rt; tree.into_output().written(), text, "{piece}");
    }
    Ok(())
}

// How the check of this stream ends, and its lines.
fn checks(
    rt: &impl Abort,
    alloc: Global,
    stream: &[u8],
    how: Ended,
    text: &[u8],
) -> Result<(), Fail> {
    for piece in [1, 7, 65_536] {
        let sink = BoundedSink::new(alloc, 1_000)?;
        let mut faults = Faults::new(alloc, sink, String::new(alloc), false);
        let mut input = SliceSource::new(stream);
        let ended = walk(alloc, &mut input, &mut faults, piece);
        faults.write_out();
        assert!(rt; ended == Ok(how), "{piece}");
        assert!(rt; faults.has_faults() == !text.is_empty(), "{piece}");
        assert_eq!(rt; faults.into_output().written(), text, "{piece}");
    }
    Ok(())
}

// A custom section with an unknown name has no malformed items, and one that is cut is a fault of the stream.
#[test]
fn checks_them(rt: HostRuntime) -> Result<(), Fail> {
    checks(&rt, rt.alloc(), STREAM, Ended::End, b"")?;
    let how = Ended::Fault(Error::new(Fault::UnexpectedEof, 41));
    for end in 41..53 {
        checks(
            &rt,
            rt.alloc(),
            &STREAM[..end],
            how,
            b"0x29: unexpected end-of-file\n",
        )?;
    }
    Ok(())
}

/// A source that returns these bytes, and then a number of zeros.
#[derive(Drop)]
struct Zeros<'a> {
    bytes: SliceSource<'a>,
    left: usize,
}

impl Source for Zeros<'_> {
    ghost use Rattle.std.specs.Prelude.{false};

    ghost has_failed = { λ _. false };

    fn read(&mut self, buf: &mut [u8]) -> Result<usize, Failed> {
        match self.bytes.read(buf) {
            Ok(0) => {
                let count = self.left.min(buf.len());
                self.left -= count;
                for byte in buf[..count].iter_mut() {
                    *byte = 0;
                }
                Ok(count)
            }
            other => other,
        }
    }

    fn failed(&self) -> bool {
        false
    }
}

// A section of 1 MiB: 5 bytes of its name, and zeros. The source has this many of them.
fn dumps_zeros(
    rt: &impl Abort,
    alloc: Global,
    left: usize,
    how: Ended,
    text: &[u8],
) -> Result<(), Fail> {
    let mut tree = TextLines::new(alloc, BoundedSink::new(alloc, 1_000)?);
    let mut input = Zeros {
        bytes: SliceSource::new(b"\0asm\x01\0\0\0\0\x80\x80\x40\x04long"),
        left,
    };
    let ended = dump(alloc, all_of(&[]), &mut input, &mut tree, 4_096);
    assert!(rt; ended == Ok(how), "{left}");
    assert_eq!(rt; tree.into_output().written(), text, "{left}");
    Ok(())
}

#[test]
fn shows_a_large_one(rt: HostRuntime) -> Result<(), Fail> {
    let text =
        b"version 0 8 1 module\ncustom 12 1048588 17 size=1048576 \"long\"\n  section name=\"long\" unknown\nend 1048588\n";
    dumps_zeros(&rt, rt.alloc(), 1_048_571, Ended::End, text)?;
    let text = b"version 0 8 1 module\nfault 12 unexpected end-of-file\n";
    let how = Ended::Fault(Error::new(Fault::UnexpectedEof, 12));
    dumps_zeros(&rt, rt.alloc(), 1_048_570, how, text)
}

// A stream with a custom section and a data section, each larger than what is read at once, before these sections.
fn after_large(alloc: Global, sections: &[u8]) -> Result<Vec<u8>, Fail> {
    let mut stream = Vec::<u8>::new(alloc);
    stream.extend_from_slice(b"\0asm\x01\0\0\0\0\xf7\xa2\x04\x06.debug")?;
    for _ in 0..70_000 {
        stream.push(0)?;
    }
    stream.extend_from_slice(b"\x0b\xf1\xa2\x04\x01")?;
    for _ in 0..70_000 {
        stream.push(1)?;
    }
    stream.extend_from_slice(sections)?;
    Ok(stream)
}

// Names come after such sections, and a symbol has the name of one.
#[test]
fn names_come_after_large_sections(rt: HostRuntime) -> Result<(), Fail> {
    let stream = after_large(rt.alloc(), b"\0\x0b\x04name\x01\x04\x01\0\x01f")?;
    let found = names_in(rt.alloc(), stream.as_slice())?;
    assert_eq!(rt; found.of(Space::Functions, 0), Some("f"));
    let linking = b"\0\x13\x07linking\x02\x08\x08\x02\x03\x02\0\0\x10\x05\0";
    let stream = after_large(rt.alloc(), linking)?;
    let found = names_in(rt.alloc(), stream.as_slice())?;
    assert_eq!(rt; found.of(Space::Symbols, 0), Some(".debug"));
    assert_eq!(rt; found.of(Space::Symbols, 1), None);
    Ok(())
}

// The sink is full in the line of the second section, or in the line below.
#[test]
fn stops_where_the_sink_is_full(rt: HostRuntime) -> Result<(), Fail> {
    for room in [125, 130, 145, 170] {
        for piece in [1, 7, 65_536] {
            let mut tree = TextLines::new(rt.alloc(), BoundedSink::new(rt.alloc(), room)?);
            let mut input = SliceSource::new(STREAM);
            let ended = dump(rt.alloc(), all_of(&[]), &mut input, &mut tree, piece);
            assert!(rt; ended == Err(ListError::Output), "{room} {piece}");
            assert!(rt;
                tree.into_output().written() == &LINES[..room],
                "{room} {piece}"
            );
        }
    }
    Ok(())
}
