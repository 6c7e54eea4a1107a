// The command `strip`.
use super::system::{Change, Files, Named, created};
use super::{CODELESS, answers, changes, runs};
use std::alloc::Global;
use std::process::Abort;
use std::test::Fail;

// A module with the custom sections a, name and b, and what of it stays.
const CUSTOM: &[u8] = b"\0asm\x01\0\0\0\0\x02\x01a\0\x05\x04name\0\x02\x01b";

const NAME: &[u8] = b"\0asm\x01\0\0\0\0\x05\x04name";

const NAME_AND_B: &[u8] = b"\0asm\x01\0\0\0\0\x05\x04name\0\x02\x01b";

/// Arguments, and what stays of the module.
type Row = (&'static [&'static str], &'static [u8]);

const A_AND_B: &[u8] = b"\0asm\x01\0\0\0\0\x02\x01a\0\x02\x01b";

const ROWS: [Row; 12] = [
    (&["strip"], b"\0asm\x01\0\0\0"),
    (&["strip", "--keep-names"], NAME),
    (&["strip", "--keep", "name"], NAME),
    (&["strip", "--only=a"], NAME_AND_B),
    (&["strip", "--keep", "b", "-", "--keep-names"], NAME_AND_B),
    (
        &["strip", "--only", "a", "--only", "b", "--keep=b"],
        NAME_AND_B,
    ),
    // The values of options are no options.
    (
        &["strip", "--only", "--keep-names", "--keep", "--only"],
        CUSTOM,
    ),
    (&["strip", "-o", "-", "--only", "a"], NAME_AND_B),
    // A star at the end stands for any bytes.
    (&["strip", "--only", "n*"], A_AND_B),
    (&["strip", "--only=*", "--keep", "na*"], NAME),
    (&["strip", "--keep=*"], CUSTOM),
    (&["strip", "--debug"], CUSTOM),
];

#[test]
fn strips_as_options_say(rt: HostRuntime) -> Result<(), Fail> {
    for (words, kept) in ROWS {
        runs(&rt, rt.alloc(), words, CUSTOM, (0, kept, b""))?;
    }
    Ok(())
}

// A module with the custom sections .debug_line, a, .debug_str and debug, and what of it stays.
const DEBUGGED: &[u8] =
    b"\0asm\x01\0\0\0\0\x0c\x0b.debug_line\0\x02\x01a\0\x0b\x0a.debug_str\0\x06\x05debug";

const UNDEBUGGED: &[u8] = b"\0asm\x01\0\0\0\0\x02\x01a\0\x06\x05debug";

const DEBUG_ROWS: [Row; 6] = [
    (&["strip", "--debug"], UNDEBUGGED),
    (&["strip", "--only", ".debug_*"], UNDEBUGGED),
    (&["strip", "--debug", "--only=.debug_*"], UNDEBUGGED),
    (
        &["strip", "--only", "a", "--debug"],
        b"\0asm\x01\0\0\0\0\x06\x05debug",
    ),
    (
        &["strip", "--debug", "--only=d*", "--keep=.debug_s*"],
        b"\0asm\x01\0\0\0\0\x02\x01a\0\x0b\x0a.debug_str",
    ),
    (
        &["strip", "--debug", "--keep", ".debug_line"],
        b"\0asm\x01\0\0\0\0\x0c\x0b.debug_line\0\x02\x01a\0\x06\x05debug",
    ),
];

#[test]
fn strips_debug_sections(rt: HostRuntime) -> Result<(), Fail> {
    for (words, kept) in DEBUG_ROWS {
        runs(&rt, rt.alloc(), words, DEBUGGED, (0, kept, b""))?;
    }
    Ok(())
}

const FAULT: &[u8] =
    b"pulleynavy: bad: 0xc: function section has non-zero count but code section is absent\n";

const NAMED: [Named<'static>; 3] = [
    Named {
        name: "a",
        bytes: CUSTOM,
        is_regular: true,
    },
    Named {
        name: "pipe",
        bytes: CUSTOM,
        is_regular: false,
    },
    Named {
        name: "bad",
        bytes: CODELESS,
        is_regular: true,
    },
];

#[test]
fn strips_files(rt: HostRuntime) -> Result<(), Fail> {
    let alloc = rt.alloc();
    let files = Files::new(CUSTOM, &NAMED);
    answers(
        &rt,
        alloc,
        &["strip", "a", "--keep-names"],
        &files,
        (0, NAME, b""),
    )?;
    answers(
        &rt,
        alloc,
        &["strip", "pipe", "--keep-names"],
        &files,
        (0, NAME, b""),
    )?;
    answers(&rt, alloc, &["strip", "bad"], &files, (1, b"", FAULT))?;
    let said = b"pulleynavy: none: No such file or directory\n";
    answers(&rt, alloc, &["strip", "none"], &files, (3, b"", said))?;
    let said = b"pulleynavy: broken: Is a directory\n";
    answers(&rt, alloc, &["strip", "broken"], &files, (3, b"", said))
}

// A run with a file to write returns and says this, and does this to files.
fn writes(
    rt: &impl Abort,
    alloc: Global,
    words: &[&str],
    wanted: (u8, &[u8]),
    trace: &[Change],
) -> Result<(), Fail> {
    let files = Files::new(CUSTOM, &NAMED);
    changes(rt, alloc, words, &files, (wanted.0, b"", wanted.1), trace)
}

#[test]
fn replaces_a_file_once_it_is_complete(rt: HostRuntime) -> Result<(), Fail> {
    let alloc = rt.alloc();
    for (words, target) in [
        (["strip", "a", "-oout"], "out"),
        (["strip", "-oout", "a"], "out"),
        (["strip", "-o=x", "a"], "=x"),
        (["strip", "--output=a", "a"], "a"),
    ] {
        let trace = [created(target), Change::Replaced(8)];
        writes(&rt, alloc, &words, (0, b""), &trace)?;
    }
    let words = ["strip", "a", "-o", "out"];
    let trace = [created("out"), Change::Replaced(8)];
    writes(&rt, alloc, &words, (0, b""), &trace)?;
    let trace = [created("out"), Change::Discarded];
    writes(&rt, alloc, &["strip", "bad", "-oout"], (1, FAULT), &trace)?;
    let said = b"pulleynavy: none: No such file or directory\n";
    writes(&rt, alloc, &["strip", "none", "-oout"], (3, said), &[])?;
    let said = b"pulleynavy: denied: Permission denied\n";
    writes(&rt, alloc, &["strip", "a", "-odenied"], (3, said), &[])?;
    let said = b"pulleynavy: full: No space left on device\n";
    let words = ["strip", "a", "--keep-names", "-o", "full"];
    let trace = [created("full"), Change::Discarded];
    writes(&rt, alloc, &words, (3, said), &trace)
}

const TERMINAL: &[u8] =
    b"pulleynavy strip: the output is a terminal: name a file with -o OUT, or redirect the output\n";

// Arguments that would write a module to a terminal. The files aren't looked at.
const TO_TERMINAL: [&[&str]; 6] = [
    &["strip"],
    &["strip", "a"],
    &["strip", "a", "-o", "-"],
    &["strip", "--debug", "pipe"],
    &["strip", "bad"],
    &["strip", "none"],
];

#[test]
fn writes_no_module_to_a_terminal(rt: HostRuntime) -> Result<(), Fail> {
    let alloc = rt.alloc();
    let files = Files::new(CUSTOM, &NAMED).at_terminal();
    for words in TO_TERMINAL {
        answers(&rt, alloc, words, &files, (2, b"", TERMINAL))?;
    }
    let said = b"pulleynavy strip: unexpected argument 'b'\nTry 'pulleynavy strip --help'.\n";
    answers(&rt, alloc, &["strip", "a", "b"], &files, (2, b"", said))?;
    let trace = [created("out"), Change::Replaced(8)];
    let words = ["strip", "a", "-oout"];
    changes(&rt, alloc, &words, &files, (0, b"", b""), &trace)
}
