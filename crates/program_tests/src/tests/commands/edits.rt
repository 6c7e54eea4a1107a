// The commands `add` and `extract`.
use super::system::{Change, Files, Named, created};
use super::{CODELESS, answers, changes, run_over, words_of};
use std::alloc::Global;
use std::io::{self, ErrorKind, Write};
use std::test::Fail;

// A module with two custom sections, a type section between them.
const STREAM: &[u8] = b"\0asm\x01\0\0\0\0\x02\x01a\x01\x01\0\0\x03\x01bB";

// A module that was produced with a language.
const PRODUCED: &[u8] =
    b"\0asm\x01\0\0\0\0\x1f\x09producers\x01\x08language\x01\x04Rust\x041.85\x01\x01\0";

// The same with another version, and with another language and a tool.
const NEWER: &[u8] =
    b"\0asm\x01\0\0\0\0\x1f\x09producers\x01\x08language\x01\x04Rust\x041.90\x01\x01\0";

const MORE: &[u8] =
    b"\0asm\x01\0\0\0\0\x2b\x09producers\x02\x08language\x02\x04Rust\x041.85\x01C\0\x03sdk\x01\x01x\x011\x01\x01\0";

// A module without the section, and with a new one.
const FIRST: &[u8] =
    b"\0asm\x01\0\0\0\0\x02\x01a\x01\x01\0\0\x03\x01bB\0\x1d\x09producers\x01\x0cprocessed-by\x01\x02cc\0";

// A module with two such sections, and the same after the version in the first one was set.
const BOTH: &[u8] =
    b"\0asm\x01\0\0\0\0\x1f\x09producers\x01\x08language\x01\x04Rust\x041.85\x01\x01\0\0\x13\x09producers\x01\x03sdk\x01\x01x\0";

const FIRST_NEWER: &[u8] =
    b"\0asm\x01\0\0\0\0\x1f\x09producers\x01\x08language\x01\x04Rust\x041.90\x01\x01\0\0\x13\x09producers\x01\x03sdk\x01\x01x\0";

// `PRODUCED` with a length in more bytes than it takes.
const LONGER: &[u8] =
    b"\0asm\x01\0\0\0\0\x9f\x80\0\x09producers\x01\x08language\x01\x04Rust\x041.85\x01\x01\0";

// A fault after the section.
const CUT: &[u8] =
    b"\0asm\x01\0\0\0\0\x1f\x09producers\x01\x08language\x01\x04Rust\x041.85\x01\x01\0\xff";

// A section whose field is none of those that there are.
const STRANGE: &[u8] = b"\0asm\x01\0\0\0\0\x0f\x09producers\x01\x02no\0";

const NAMED: [Named<'static>; 11] = [
    Named {
        name: "both",
        bytes: BOTH,
        is_regular: true,
    },
    Named {
        name: "longer",
        bytes: LONGER,
        is_regular: false,
    },
    Named {
        name: "cut",
        bytes: CUT,
        is_regular: true,
    },
    Named {
        name: "more",
        bytes: MORE,
        is_regular: true,
    },
    Named {
        name: "later",
        bytes: LATER,
        is_regular: true,
    },
    Named {
        name: "produced",
        bytes: PRODUCED,
        is_regular: true,
    },
    Named {
        name: "strange",
        bytes: STRANGE,
        is_regular: true,
    },
    Named {
        name: "file",
        bytes: STREAM,
        is_regular: true,
    },
    Named {
        name: "pipe",
        bytes: STREAM,
        is_regular: false,
    },
    Named {
        name: "data",
        bytes: b"xyz",
        is_regular: true,
    },
    Named {
        name: "bad",
        bytes: CODELESS,
        is_regular: true,
    },
];

// `MORE` with another tool in a field that has one, whose name has more bytes than characters.
const WIDER: &[u8] =
    b"\0asm\x01\0\0\0\0\x36\x09producers\x02\x08language\x02\x04Rust\x041.85\x01C\0\x03sdk\x02\x01x\x011\x08\xc3\x9cnicode\x011\x01\x01\0";

// A version begins after the first colon, and a name after the first equals sign.
const COLONS: &[u8] =
    b"\0asm\x01\0\0\0\0\x02\x01a\x01\x01\0\0\x03\x01bB\0\x23\x09producers\x01\x0cprocessed-by\x02\x01a\x03b:c\x01d\x01=";

// A header with the version 2.
const LATER: &[u8] = b"\0asm\x02\0\0\0";

/// Arguments, and what a run returns, writes and says.
type Row = (&'static [&'static str], u8, &'static [u8], &'static [u8]);

const ADDED: &[u8] = b"\0asm\x01\0\0\0\0\x02\x01a\x01\x01\0\0\x03\x01bB\0\x05\x01cxyz";

const REPLACED: &[u8] = b"\0asm\x01\0\0\0\0\x05\x01axyz\x01\x01\0\0\x03\x01bB\0\x05\x01cxyz";

const FAULT: &[u8] =
    b"pulleynavy: bad: 0xc: function section has non-zero count but code section is absent\n";

const ROWS: [Row; 12] = [
    (&["add", "c=data", "file"], 0, ADDED, b""),
    (&["add", "c=data", "pipe"], 0, ADDED, b""),
    (&["add", "c=data", "-"], 0, ADDED, b""),
    (
        &["add", "--replace", "c=data", "a=data", "file"],
        0,
        REPLACED,
        b"",
    ),
    (
        &["add", "c=data", "a=data", "pipe", "--replace"],
        0,
        REPLACED,
        b"",
    ),
    (&["add", "c=data", "bad"], 1, b"", FAULT),
    (&["add", "--replace", "c=data", "bad"], 1, b"", FAULT),
    (
        &["add", "c=none", "file"],
        3,
        b"",
        b"pulleynavy: none: No such file or directory\n",
    ),
    (
        &["add", "--replace", "c=data", "broken"],
        3,
        b"",
        b"pulleynavy: broken: Is a directory\n",
    ),
    (&["extract", "b", "file"], 0, b"B", b""),
    (&["extract", "a"], 0, b"", b""),
    (
        &["extract", "c", "pipe"],
        1,
        b"",
        b"pulleynavy extract: pipe: no section 'c'\n",
    ),
];

// Standard input can be read only once.
const TWICE: &[u8] = b"pulleynavy add: '-' can be read only once\nTry 'pulleynavy add --help'.\n";

#[test]
fn reads_standard_input_once(rt: HostRuntime) -> Result<(), Fail> {
    let files = Files::new(b"xyz", &NAMED);
    let alloc = rt.alloc();
    for words in [
        ["add", "c=-", "d=-", "file"].as_slice(),
        &["add", "c=-", "-"],
        &["add", "--replace", "c=data", "d=-", "-"],
    ] {
        answers(&rt, alloc, words, &files, (2, b"", TWICE))?;
    }
    answers(&rt, alloc, &["add", "c=-", "file"], &files, (0, ADDED, b""))
}

const PRODUCERS: [Row; 14] = [
    (
        &["producers", "--set", "language="],
        2,
        b"",
        b"pulleynavy producers: wrong value 'language=' of option '--set': it takes FIELD=NAME[:VERSION], and FIELD is language, processed-by or sdk\n",
    ),
    (
        &["producers", "--set=sdk=:1"],
        2,
        b"",
        b"pulleynavy producers: wrong value 'sdk=:1' of option '--set': it takes FIELD=NAME[:VERSION], and FIELD is language, processed-by or sdk\n",
    ),
    (
        &["producers", "--set", "language=Rust:1.90", "produced"],
        0,
        NEWER,
        b"",
    ),
    (
        &[
            "producers",
            "produced",
            "--set=language=C",
            "--set",
            "sdk=x:1",
        ],
        0,
        MORE,
        b"",
    ),
    (
        &["producers", "--set", "processed-by=cc", "file"],
        0,
        FIRST,
        b"",
    ),
    (&["producers", "--set", "processed-by=cc"], 0, FIRST, b""),
    (
        &["producers", "pipe"],
        1,
        b"end 20\n",
        b"pulleynavy producers: pipe: no section 'producers'\n",
    ),
    (&["producers", "--set", "sdk=x", "bad"], 1, b"", FAULT),
    (
        &["producers", "--set", "sdk=x", "later"],
        1,
        b"",
        b"pulleynavy: later: 0x4: unknown binary version: 2\n",
    ),
    (
        &["producers", "--set", "sdk=Ünicode:1", "more"],
        0,
        WIDER,
        b"",
    ),
    (
        &[
            "producers",
            "--set",
            "processed-by=a:b:c",
            "--set",
            "processed-by=d:=",
        ],
        0,
        COLONS,
        b"",
    ),
    (
        &["producers", "--set", "sdk=x", "strange"],
        1,
        b"",
        b"pulleynavy: strange: 0x15: invalid producers field name\n",
    ),
    (
        &["producers", "--set", "tool=x:1"],
        2,
        b"",
        b"pulleynavy producers: wrong value 'tool=x:1' of option '--set': it takes FIELD=NAME[:VERSION], and FIELD is language, processed-by or sdk\n",
    ),
    (
        &["producers", "-o", "new", "file"],
        2,
        b"",
        b"pulleynavy producers: needs --set with --output\nTry 'pulleynavy producers --help'.\n",
    ),
];

#[test]
fn sets_producers(rt: HostRuntime) -> Result<(), Fail> {
    let files = Files::new(STREAM, &NAMED);
    for (words, status, written, said) in PRODUCERS {
        answers(&rt, rt.alloc(), words, &files, (status, written, said))?;
    }
    Ok(())
}

const FIRST_ROWS: [Row; 3] = [
    (
        &["producers", "--set", "language=Rust:1.90", "both"],
        0,
        FIRST_NEWER,
        b"",
    ),
    (
        &["producers", "--set", "language=Rust:1.90", "longer"],
        0,
        NEWER,
        b"",
    ),
    (
        &["producers", "--set", "language=Rust:1.90", "cut"],
        1,
        b"",
        b"pulleynavy: cut: 0x2c: malformed section id\n",
    ),
];

#[test]
fn sets_the_first_section_alone(rt: HostRuntime) -> Result<(), Fail> {
    let files = Files::new(STREAM, &NAMED);
    for (words, status, written, said) in FIRST_ROWS {
        answers(&rt, rt.alloc(), words, &files, (status, written, said))?;
    }
    let words = ["producers", "--set", "language=Rust:1.90", "both", "-oout"];
    let trace = [created("out"), Change::Replaced(FIRST_NEWER.len())];
    changes(&rt, rt.alloc(), &words, &files, (0, b"", b""), &trace)
}

#[test]
fn shows_producers(rt: HostRuntime) -> Result<(), Fail> {
    let files = Files::new(STREAM, &NAMED);
    let words = ["dump", "--section", "producers", "produced"];
    let shown = output_of(rt.alloc(), &words, &files)?;
    answers(
        &rt,
        rt.alloc(),
        &["producers", "produced"],
        &files,
        (0, &shown, b""),
    )?;
    let line = b"custom 10 41 20 size=31 \"producers\"\n".as_slice();
    assert_eq!(rt; &shown[..line.len().min(shown.len())], line);
    Ok(())
}

#[test]
fn adds_and_extracts(rt: HostRuntime) -> Result<(), Fail> {
    let files = Files::new(STREAM, &NAMED);
    for (words, status, written, said) in ROWS {
        answers(&rt, rt.alloc(), words, &files, (status, written, said))?;
    }
    Ok(())
}

// What a run writes.
fn output_of(alloc: Global, words: &[&str], files: &Files<'_>) -> Result<Vec<u8>, Fail> {
    let words = words_of(alloc, words)?;
    let mut written = Vec::new(alloc);
    drop(run_over(alloc, &words, files, &mut written, 300)?);
    Ok(written)
}

/// A device that takes all bytes, and fails at the end.
#[derive(Drop)]
struct Unflushed;

impl Write for Unflushed {
    fn write(&mut self, buf: &[u8]) -> io::Result<usize> {
        Ok(buf.len())
    }

    fn flush(&mut self) -> io::Result<()> {
        Err(io::Error::from(ErrorKind::StorageFull))
    }
}

#[test]
fn an_output_that_fails_at_the_end(rt: HostRuntime) -> Result<(), Fail> {
    let alloc = rt.alloc();
    let files = Files::new(STREAM, &NAMED);
    for words in [
        ["extract", "b"].as_slice(),
        &["add", "c=data", "file"],
        &["strip", "file"],
        &["dump", "file"],
        &["list"],
        &["check", "file"],
        &["--version"],
    ] {
        let words = words_of(alloc, words)?;
        let ran = run_over(alloc, &words, &files, Unflushed, 300)?;
        assert_eq!(rt; ran.status, 3);
        let said = b"pulleynavy: standard output: No space left on device\n";
        assert_eq!(rt; ran.said.written(), said.as_slice());
    }
    Ok(())
}
