// The command `dump`.
use super::system::{Files, Named};
use super::{MODULE, answers, run_over, runs, words_of};
use std::alloc::Global;
use std::io::{self, Write};
use std::process::Abort;
use std::test::Fail;

const DUMP: &[u8] = b"version 0 8 1 module
section 3 10 12 1 function size=2
  11 func[0] index=5
code 14 18 1 3 size=4
body 16 18 size=2 func[0]
custom 20 26 25 size=6 \"type\"
  section name=\"type\" unknown
end 26
";

/// Arguments, and what a run with them writes.
type Row = (&'static [&'static str], &'static [u8]);

// Runs over this stream write what their rows say.
fn all_write(rt: &impl Abort, alloc: Global, stream: &[u8], rows: &[Row]) -> Result<(), Fail> {
    for (words, text) in rows {
        runs(rt, alloc, words, stream, (0, text, b""))?;
    }
    Ok(())
}

const THIRD: &[u8] = b"section 3 10 12 1 function size=2\n  11 func[0] index=5\nend 26\n";

const CODE: &[u8] = b"code 14 18 1 3 size=4\nbody 16 18 size=2 func[0]\nend 26\n";

const CUSTOM: &[u8] = b"custom 20 26 25 size=6 \"type\"\n  section name=\"type\" unknown\nend 26\n";

const BOTH: &[u8] =
    b"section 3 10 12 1 function size=2\n  11 func[0] index=5\ncode 14 18 1 3 size=4\nbody 16 18 size=2 func[0]\nend 26\n";

const CHOSEN: [Row; 13] = [
    // The standard's names come before those of custom sections, and ids before both.
    (&["dump"], DUMP),
    (&["dump", "--section", "3"], THIRD),
    (&["dump", "--section", "function"], THIRD),
    (&["dump", "--section", "+03"], THIRD),
    (&["dump", "--section", "code"], CODE),
    (&["dump", "--section", "custom"], CUSTOM),
    (&["dump", "--section", "0"], CUSTOM),
    // A section is shown if any word chooses it.
    (&["dump", "--section", "3", "--section", "code"], BOTH),
    (&["dump", "--section", "code", "--section", "3"], BOTH),
    (&["dump", "--section", "3", "--section", "function"], THIRD),
    (&["dump", "--section", "3", "--section", "3"], THIRD),
    (&["dump", "--section", "3", "--"], THIRD),
    (&["dump", "--section=10", "--section", "3"], BOTH),
];

#[test]
fn shows_what_is_asked_for(rt: HostRuntime) -> Result<(), Fail> {
    all_write(&rt, rt.alloc(), MODULE, &CHOSEN)
}

const COLORED: &[u8] = b"\x1b[0;1mversion\x1b[0m 0 8 1 module
\x1b[0;1msection\x1b[0m 3 10 12 1 function size=2
  \x1b[0;2m11\x1b[0m func[0] index=5
\x1b[0;1mcode\x1b[0m 14 18 1 3 size=4
\x1b[0;1mbody\x1b[0m 16 18 size=2 func[0]
\x1b[0;1mcustom\x1b[0m 20 26 25 size=6 \x1b[0;32m\"type\"\x1b[0m
  \x1b[0;1msection\x1b[0m name=\x1b[0;32m\"type\"\x1b[0m unknown
\x1b[0;1mend\x1b[0m 26
";

const COLORED_THIRD: &[u8] =
    b"\x1b[0;1msection\x1b[0m 3 10 12 1 function size=2\n  \x1b[0;2m11\x1b[0m func[0] index=5
\x1b[0;1mend\x1b[0m 26\n";

// Options come in any order.
const IN_COLORS: [Row; 5] = [
    (&["dump", "--color"], COLORED),
    (&["dump", "--color", "--color"], COLORED),
    (&["dump", "--color", "--section", "3"], COLORED_THIRD),
    (&["dump", "--section", "3", "--color"], COLORED_THIRD),
    (&["dump", "-", "--color", "--section", "3"], COLORED_THIRD),
];

#[test]
fn shows_with_colors(rt: HostRuntime) -> Result<(), Fail> {
    all_write(&rt, rt.alloc(), MODULE, &IN_COLORS)
}

// A custom section with this name, as a word chooses it.
const NAMED: [Row; 2] = [
    (
        &["dump", "--section", "a"],
        b"custom 10 12 12 size=2 \"a\"\n  section name=\"a\" unknown\nend 19\n",
    ),
    (
        &["dump", "--section", "a.bc"],
        b"custom 14 19 19 size=5 \"a.bc\"\n  section name=\"a.bc\" unknown\nend 19\n",
    ),
];

#[test]
fn shows_custom_sections_by_their_names(rt: HostRuntime) -> Result<(), Fail> {
    let stream = b"\0asm\x01\0\0\0\0\x02\x01a\0\x05\x04a.bc";
    all_write(&rt, rt.alloc(), stream, &NAMED)
}

// The id of each of the standard's names.
const STANDARD: [Row; 13] = [
    (
        &["dump", "--section", "type"],
        b"section 1 10 11 0 type size=1\nend 47\n",
    ),
    (
        &["dump", "--section", "import"],
        b"section 2 13 14 0 import size=1\nend 47\n",
    ),
    (
        &["dump", "--section", "function"],
        b"section 3 16 17 0 function size=1\nend 47\n",
    ),
    (
        &["dump", "--section", "table"],
        b"section 4 19 20 0 table size=1\nend 47\n",
    ),
    (
        &["dump", "--section", "memory"],
        b"section 5 22 23 0 memory size=1\nend 47\n",
    ),
    (
        &["dump", "--section", "tag"],
        b"section 13 25 26 0 tag size=1\nend 47\n",
    ),
    (
        &["dump", "--section", "global"],
        b"section 6 28 29 0 global size=1\nend 47\n",
    ),
    (
        &["dump", "--section", "export"],
        b"section 7 31 32 0 export size=1\nend 47\n",
    ),
    (
        &["dump", "--section", "start"],
        b"start 34 35 0 size=1\nend 47\n",
    ),
    (
        &["dump", "--section", "element"],
        b"section 9 37 38 0 element size=1\nend 47\n",
    ),
    (
        &["dump", "--section", "datacount"],
        b"datacount 40 41 0 size=1\nend 47\n",
    ),
    (
        &["dump", "--section", "code"],
        b"code 43 44 0 0 size=1\nend 47\n",
    ),
    (
        &["dump", "--section", "data"],
        b"section 11 46 47 0 data size=1\nend 47\n",
    ),
];

#[test]
fn knows_the_names_of_the_standard(rt: HostRuntime) -> Result<(), Fail> {
    let stream =
        b"\0asm\x01\0\0\0\x01\x01\0\x02\x01\0\x03\x01\0\x04\x01\0\x05\x01\0\x0d\x01\0\x06\x01\0\x07\x01\0\x08\x01\0\x09\x01\0\x0c\x01\0\x0a\x01\0\x0b\x01\0";
    all_write(&rt, rt.alloc(), stream, &STANDARD)
}

#[test]
fn answers_a_fault_of_the_stream(rt: HostRuntime) -> Result<(), Fail> {
    let text = b"version 0 8 1 module\nfault 8 malformed section id\n";
    let stream = b"\0asm\x01\0\0\0\x80";
    runs(&rt, rt.alloc(), &["dump"], stream, (1, text, b""))
}

// A choice that chooses nothing is named.
const MISSING: [(&[&str], &[u8], &[u8]); 5] = [
    (
        &["dump", "--section", "type"],
        b"end 26\n",
        b"pulleynavy dump: standard input: no section 'type'\n",
    ),
    (
        &["dump", "--section", "256"],
        b"end 26\n",
        b"pulleynavy dump: standard input: no section '256'\n",
    ),
    (
        &["dump", "--section=13", "--section", "3"],
        THIRD,
        b"pulleynavy dump: standard input: no section '13'\n",
    ),
    (
        &["dump", "--section", "3", "--section", "--section"],
        THIRD,
        b"pulleynavy dump: standard input: no section '--section'; the standard's are custom, type, import, function, table, memory, tag, global, export, start, element, datacount, code and data\n",
    ),
    (
        &["dump", "--section", "--", "--section", "3"],
        THIRD,
        b"pulleynavy dump: standard input: no section '--'; the standard's are custom, type, import, function, table, memory, tag, global, export, start, element, datacount, code and data\n",
    ),
];

#[test]
fn warns_of_sections_that_are_not_there(rt: HostRuntime) -> Result<(), Fail> {
    for (words, text, said) in MISSING {
        runs(&rt, rt.alloc(), words, MODULE, (1, text, said))?;
    }
    Ok(())
}

const ONE: [Named<'static>; 1] = [Named {
    name: "one",
    bytes: MODULE,
    is_regular: true,
}];

const SEVERAL: &[u8] = b"one:
section 3 10 12 1 function size=2
  11 func[0] index=5
end 26
none:
-:
end 8
";

#[test]
fn dumps_several_files(rt: HostRuntime) -> Result<(), Fail> {
    let files = Files::new(&MODULE[..8], &ONE);
    let said =
        b"pulleynavy: none: No such file or directory\npulleynavy dump: standard input: no section '3'\n";
    let words = ["dump", "one", "--section", "3", "none", "-"];
    answers(&rt, rt.alloc(), &words, &files, (3, SEVERAL, said))?;
    let said = b"pulleynavy: --help: No such file or directory\n";
    answers(
        &rt,
        rt.alloc(),
        &["dump", "--", "--help"],
        &files,
        (3, b"", said),
    )?;
    let said = b"pulleynavy: broken: Is a directory\n";
    answers(
        &rt,
        rt.alloc(),
        &["dump", "--names", "broken"],
        &files,
        (3, b"", said),
    )
}

/// A writer that takes all bytes, and cannot hand them on.
#[derive(Drop)]
struct Stuck;

impl Write for Stuck {
    fn write(&mut self, buf: &[u8]) -> io::Result<usize> {
        Ok(buf.len())
    }

    fn flush(&mut self) -> io::Result<()> {
        Err(io::Error::from(io::ErrorKind::WriteZero))
    }
}

#[test]
fn says_that_the_output_failed(rt: HostRuntime) -> Result<(), Fail> {
    let asked: [&[&str]; 7] = [
        &["dump"],
        &["dump", "--section", "3"],
        &["dump", "--color"],
        &["dump", "--json"],
        &["list"],
        &["strip"],
        &["--help"],
    ];
    for words in asked {
        let words = words_of(rt.alloc(), words)?;
        let ran = run_over(rt.alloc(), &words, &Files::of_input(MODULE), Stuck, 100)?;
        assert_eq!(rt; ran.status, 3);
        let said = b"pulleynavy: standard output: No space left on device\n".as_slice();
        assert_eq!(rt; ran.said.written(), said);
    }
    Ok(())
}
