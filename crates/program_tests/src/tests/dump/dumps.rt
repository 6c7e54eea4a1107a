// Dumps of worked streams.
mod objects;
mod worked;

use std::alloc::Global;
use std::process::Abort;
use std::test::Fail;
use test_devices::Measuring;
use wasm_dumper::{Only, Shown, dump};
use wasm_io::{BoundedSink, Failed, ListError, SliceSource, Source};
use wasm_output::TextLines;
use wasm_parser::{Error, Fault};
use wasm_streams::Ended;

/// A module with an item in each of its sections, and names that don't ascend.
const MODULE: &[u8] =
    b"\0asm\x01\0\0\0\x01\x05\x01\x60\x01\x7f\0\x02\x0a\x01\x03env\x01m\x02\0\x01\x03\x02\x01\0\
\x07\x05\x01\x01f\0\0\x09\x05\x01\x01\0\x01\0\x0a\x04\x01\x02\0\x0b\x0b\x06\x01\x01\x03a\x22\xff\
\0\x0e\x04name\x01\x07\x02\0\x01f\0\x01g";

/// Its dump.
const DUMP: &[u8] = b"version 0 8 1 module
section 1 10 15 1 type size=5
  11 type[0] type=(func (param i32))
section 2 17 27 1 import size=10
  18 memory[0] module=\"env\" name=\"m\" ty=memory initial=1
section 3 29 31 1 function size=2
  30 func[0] index=0
section 7 33 38 1 export size=5
  34 name=\"f\" kind=func index=0
section 9 40 45 1 element size=5
  41 elem[0] kind=passive functions=43..45 count=1 range=41..45
    44 index=0
code 47 51 1 3 size=4
body 49 51 size=2 func[0]
section 11 53 59 1 data size=6
  54 data[0] kind=passive data=3:6122ff range=54..59
custom 61 75 66 size=14 \"name\"
  section name=\"name\"
    66 function
      69 index=0 name=\"f\"
      fault 72 names out of order
end 75
";

// How the dump of this source ends, and the sink.
fn dumped<R: Source>(
    alloc: Global,
    only: &[Only<'_>],
    input: &mut R,
    output: BoundedSink,
    piece: usize,
) -> (Result<Ended, ListError>, BoundedSink) {
    let mut tree = TextLines::new(alloc, output);
    let shown = Shown {
        only,
        has_bytes: false,
        found: &[],
    };
    let ended = dump(alloc, shown, input, &mut tree, piece.max(1));
    (ended, tree.into_output())
}

// The dump of this stream ends so, and is this text.
pub(super) fn dumps(
    rt: &impl Abort,
    alloc: Global,
    only: &[Only<'_>],
    stream: &[u8],
    how: Result<Ended, ListError>,
    text: &[u8],
) -> Result<(), Fail> {
    for piece in [1, 7, 65_536] {
        let sink = BoundedSink::new(alloc, 6_000)?;
        let mut input = Measuring::new(stream);
        let (ended, output) = dumped(alloc, only, &mut input, sink, piece);
        assert!(rt; ended == how, "{piece}");
        assert_eq!(rt; output.written(), text, "{piece}");
        assert_eq!(rt; input.measured(), (piece, piece));
    }
    Ok(())
}

/// Sections that are chosen, and the dump of the module.
type Row = (&'static [Only<'static>], &'static [u8]);

const CHOSEN: [Row; 11] = [
    (&[Only::All], DUMP),
    (&[], b"end 75\n"),
    (
        &[Only::Id(3)],
        b"section 3 29 31 1 function size=2\n  30 func[0] index=0\nend 75\n",
    ),
    (
        &[Only::Id(10)],
        b"code 47 51 1 3 size=4\nbody 49 51 size=2 func[0]\nend 75\n",
    ),
    (&[Only::Id(13)], b"end 75\n"),
    (
        &[Only::Name("name")],
        b"custom 61 75 66 size=14 \"name\"\n  section name=\"name\"\n    66 function\n      69 index=0 name=\"f\"\n      fault 72 names out of order\nend 75\n",
    ),
    (&[Only::Name("names")], b"end 75\n"),
    (
        &[Only::Id(10), Only::Id(3)],
        b"section 3 29 31 1 function size=2\n  30 func[0] index=0\ncode 47 51 1 3 size=4\nbody 49 51 size=2 func[0]\nend 75\n",
    ),
    (
        &[Only::Id(3), Only::Id(3)],
        b"section 3 29 31 1 function size=2\n  30 func[0] index=0\nend 75\n",
    ),
    (
        &[Only::Id(13), Only::Name("name"), Only::Id(10)],
        b"code 47 51 1 3 size=4\nbody 49 51 size=2 func[0]\ncustom 61 75 66 size=14 \"name\"\n  section name=\"name\"\n    66 function\n      69 index=0 name=\"f\"\n      fault 72 names out of order\nend 75\n",
    ),
    (&[Only::Id(3), Only::All], DUMP),
];

fn all_dumped(rt: &impl Abort, alloc: Global, rows: &[Row]) -> Result<(), Fail> {
    for (only, text) in rows {
        dumps(rt, alloc, only, MODULE, Ok(Ended::End), text)?;
    }
    Ok(())
}

#[test]
fn shows_chosen_sections(rt: HostRuntime) -> Result<(), Fail> {
    all_dumped(&rt, rt.alloc(), &CHOSEN)
}

#[test]
fn shows_faults_at_their_place(rt: HostRuntime) -> Result<(), Fail> {
    // The second index can't be read, and the body is missing.
    let stream = b"\0asm\x01\0\0\0\x03\x03\x02\x85\x80";
    let how = Ok(Ended::Fault(Error::new(Fault::FunctionWithoutCode, 13)));
    let text =
        b"version 0 8 1 module\nsection 3 10 13 2 function size=3\n  fault 13 unexpected end-of-file\nfault 13 function section has non-zero count but code section is absent\n";
    dumps(&rt, rt.alloc(), &[Only::All], stream, how, text)
}

#[test]
fn writes_texts_in_quotes(rt: HostRuntime) -> Result<(), Fail> {
    // The name is `a"\` and a letter of two bytes, and then a line feed.
    let stream = b"\0asm\x01\0\0\0\x07\x0a\x01\x06a\"\\\xc3\xa9\n\x03\x07";
    let text =
        b"version 0 8 1 module\nsection 7 10 20 1 export size=10\n  11 name=\"a\\22\\5c\\c3\\a9\\0a\" kind=global index=7\nend 20\n";
    dumps(&rt, rt.alloc(), &[Only::All], stream, Ok(Ended::End), text)
}

#[test]
fn stops_where_the_sink_is_full(rt: HostRuntime) -> Result<(), Fail> {
    for size in [0, 1, 30, 100] {
        let sink = BoundedSink::new(rt.alloc(), size)?;
        let input = &mut SliceSource::new(MODULE);
        let (ended, output) = dumped(rt.alloc(), &[Only::All], input, sink, 100);
        assert!(rt; ended == Err(ListError::Output), "{size}");
        assert_eq!(rt; output.written(), &DUMP[..size]);
    }
    Ok(())
}

/// A source that returns these bytes, and then fails.
#[derive(Drop)]
pub(super) struct Cut<'a> {
    bytes: SliceSource<'a>,
    failed: bool,
}

impl<'a> Cut<'a> {
    pub(super) fn new(bytes: &'a [u8]) -> Cut<'a> {
        Cut {
            bytes: SliceSource::new(bytes),
            failed: false,
        }
    }
}

impl Source for Cut<'_> {
    ghost has_failed = { λ s. s.failed };

    fn read(&mut self, buf: &mut [u8]) -> Result<usize, Failed> {
        match self.bytes.read(buf) {
            Ok(0) => {
                self.failed = true;
                Err(Failed)
            }
            other => other,
        }
    }

    fn failed(&self) -> bool {
        self.failed
    }
}

#[test]
fn shows_what_came_before_the_source_failed(rt: HostRuntime) -> Result<(), Fail> {
    // The last two read all bytes at once: only a request for more may cause the read that fails.
    for piece in [1, 4, 30, 65_536] {
        let sink = BoundedSink::new(rt.alloc(), 2_000)?;
        let mut input = Cut::new(&MODULE[..30]);
        let (ended, output) = dumped(rt.alloc(), &[Only::All], &mut input, sink, piece);
        assert!(rt; ended == Err(ListError::Input), "{piece}");
        assert!(rt; input.failed());
        let text =
            b"version 0 8 1 module\nsection 1 10 15 1 type size=5\n  11 type[0] type=(func (param i32))\nsection 2 17 27 1 import size=10\n  18 memory[0] module=\"env\" name=\"m\" ty=memory initial=1\n";
        assert_eq!(rt; output.written(), text.as_slice(), "{piece}");
    }
    Ok(())
}

/// An imported function, a custom section of 20 bytes at 19, and a function with its body.
const HIDING: &[u8] =
    b"\0asm\x01\0\0\0\x02\x07\x01\x01m\x01f\0\0\0\x14\x01a123456789012345678\x03\x02\x01\0\x0a\x04\x01\x02\0\x0b";

#[test]
fn skips_what_it_does_not_show(rt: HostRuntime) -> Result<(), Fail> {
    let rows: [Row; 4] = [
        (
            &[Only::Id(10)],
            b"code 45 49 1 3 size=4\nbody 47 49 size=2 func[1]\nend 49\n",
        ),
        (&[Only::Id(11)], b"end 49\n"),
        (&[Only::Name("b")], b"end 49\n"),
        (
            &[Only::Name("a")],
            b"custom 19 39 21 size=20 \"a\"\n  section name=\"a\" unknown\nend 49\n",
        ),
    ];
    for (only, text) in &rows {
        dumps(&rt, rt.alloc(), only, HIDING, Ok(Ended::End), text)?;
    }
    Ok(())
}

#[test]
fn rows_after_what_it_does_not_show(rt: HostRuntime) -> Result<(), Fail> {
    let text =
        b"43 | 0a 04 01\ncode 45 49 1 3 size=4\n46 | 02 00 0b\nbody 47 49 size=2 func[1]\nend 49\n";
    for piece in [1, 7, 65_536] {
        let mut tree = TextLines::new(rt.alloc(), BoundedSink::new(rt.alloc(), 1_000)?);
        let shown = Shown {
            only: &[Only::Id(10)],
            has_bytes: true,
            found: &[],
        };
        let ended = dump(
            rt.alloc(),
            shown,
            &mut SliceSource::new(HIDING),
            &mut tree,
            piece,
        );
        assert!(rt; ended == Ok(Ended::End), "{piece}");
        assert_eq!(rt; tree.into_output().written(), text.as_slice(), "{piece}");
    }
    Ok(())
}

#[test]
fn a_part_that_is_not_shown_is_cut(rt: HostRuntime) -> Result<(), Fail> {
    let how = Ok(Ended::Fault(Error::new(Fault::UnexpectedEof, 19)));
    for end in 19..39 {
        dumps(
            &rt,
            rt.alloc(),
            &[Only::Id(10)],
            &HIDING[..end],
            how,
            b"fault 19 unexpected end-of-file\n",
        )?;
    }
    Ok(())
}

#[test]
fn the_source_fails_in_a_part_that_is_not_shown(rt: HostRuntime) -> Result<(), Fail> {
    for piece in [1, 4, 30, 65_536] {
        let sink = BoundedSink::new(rt.alloc(), 2_000)?;
        let mut input = Cut::new(&HIDING[..30]);
        let (ended, output) = dumped(rt.alloc(), &[Only::Id(2)], &mut input, sink, piece);
        assert!(rt; ended == Err(ListError::Input), "{piece}");
        let text =
            b"section 2 10 17 1 import size=7\n  11 func[0] module=\"m\" name=\"f\" ty=func index=0\n";
        assert_eq!(rt; output.written(), text.as_slice(), "{piece}");
    }
    Ok(())
}

// An output that is full where the fault of such a part would go.
#[test]
fn the_sink_is_full_after_a_part_that_is_not_shown(rt: HostRuntime) -> Result<(), Fail> {
    for piece in [1, 4, 65_536] {
        let sink = BoundedSink::new(rt.alloc(), 5)?;
        let input = &mut SliceSource::new(&HIDING[..30]);
        let (ended, output) = dumped(rt.alloc(), &[Only::Id(10)], input, sink, piece);
        assert!(rt; ended == Err(ListError::Output), "{piece}");
        assert_eq!(rt; output.written(), b"fault".as_slice(), "{piece}");
    }
    Ok(())
}
