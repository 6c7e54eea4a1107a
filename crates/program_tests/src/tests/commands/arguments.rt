// Arguments that are refused.
use super::system::Files;
use super::{MODULE, all_refused};
use std::alloc::Global;
use std::env::Args;
use std::io;
use std::process::{Abort, ExitCode};
use std::test::Fail;
use wasm_commands::{Runner, run_program};
use wasm_io::{BoundedSink, WriteSink};

#[test]
fn refuses_other_commands(rt: HostRuntime) -> Result<(), Fail> {
    let alloc = rt.alloc();
    let said = b"usage: pulleynavy COMMAND [OPTION]... [FILE]...\nTry 'pulleynavy --help'.\n";
    all_refused(&rt, alloc, &[&[]], said)?;
    let said = b"pulleynavy: unknown command 'a.wasm'\nTry 'pulleynavy --help'.\n";
    all_refused(&rt, alloc, &[&["a.wasm"], &["help", "a.wasm"]], said)?;
    let said = b"pulleynavy: unknown option '--json'\nTry 'pulleynavy --help'.\n";
    all_refused(&rt, alloc, &[&["--json", "list"]], said)?;
    let said = b"pulleynavy: unknown command ''\nTry 'pulleynavy --help'.\n";
    all_refused(&rt, alloc, &[&[""]], said)
}

const UNKNOWN: [&[&str]; 5] = [
    &["dump", "--sections"],
    &["dump", "--sections", "3"],
    &["dump", "--section", "3", "--sections", "4"],
    &["dump", "a.wasm", "--sections"],
    &["dump", "--names", "--sections", "--help"],
];

const NO_VALUE: [&[&str]; 3] = [
    &["dump", "--section"],
    &["dump", "--section", "3", "--section"],
    &["dump", "a.wasm", "--section"],
];

const UNWANTED: [&[&str]; 2] = [&["list", "--json=yes"], &["list", "a", "--json="]];

#[test]
fn names_the_option_that_is_wrong(rt: HostRuntime) -> Result<(), Fail> {
    let alloc = rt.alloc();
    let said = b"pulleynavy dump: unknown option '--sections'\nTry 'pulleynavy dump --help'.\n";
    all_refused(&rt, alloc, &UNKNOWN, said)?;
    let said = b"pulleynavy strip: unknown option '-x'\nTry 'pulleynavy strip --help'.\n";
    all_refused(&rt, alloc, &[&["strip", "-x"]], said)?;
    // Options of other commands, and what is attached to short ones that take no value.
    let said = b"pulleynavy check: unknown option '--json'\nTry 'pulleynavy check --help'.\n";
    all_refused(&rt, alloc, &[&["check", "--json"]], said)?;
    let said = b"pulleynavy list: unknown option '-oa'\nTry 'pulleynavy list --help'.\n";
    all_refused(&rt, alloc, &[&["list", "-oa"]], said)?;
    let said = b"pulleynavy check: unknown option '-qa'\nTry 'pulleynavy check --help'.\n";
    all_refused(
        &rt,
        alloc,
        &[&["check", "-qa"], &["check", "a", "-qa"]],
        said,
    )?;
    let said =
        b"pulleynavy dump: option '--section' needs a value: an id, a name of the standard, as import, or the name of a custom section\nTry 'pulleynavy dump --help'.\n";
    all_refused(&rt, alloc, &NO_VALUE, said)?;
    let said =
        b"pulleynavy strip: option '-o' needs a value: the name of a file\nTry 'pulleynavy strip --help'.\n";
    all_refused(&rt, alloc, &[&["strip", "-o"]], said)?;
    let said = b"pulleynavy list: option '--json' takes no value\nTry 'pulleynavy list --help'.\n";
    all_refused(&rt, alloc, &UNWANTED, said)
}

#[test]
fn refuses_what_excludes_each_other(rt: HostRuntime) -> Result<(), Fail> {
    let alloc = rt.alloc();
    let said = b"pulleynavy dump: options '--json' and '--color' exclude each other\n";
    let rows: [&[&str]; 2] = [
        &["dump", "--json", "--color"],
        &["dump", "--color=always", "--json"],
    ];
    all_refused(&rt, alloc, &rows, said)?;
    let said = b"pulleynavy dump: options '--json' and '--bytes' exclude each other\n";
    all_refused(&rt, alloc, &[&["dump", "--bytes", "--json"]], said)?;
    let said = b"pulleynavy dump: options '--json' and '--hex' exclude each other\n";
    all_refused(&rt, alloc, &[&["dump", "--json", "--hex"]], said)?;
    let said =
        b"pulleynavy dump: wrong value 'red' of option '--color': it takes always, never or auto\n";
    all_refused(&rt, alloc, &[&["dump", "--color=red"]], said)?;
    let said = b"pulleynavy strip: unexpected argument 'b'\nTry 'pulleynavy strip --help'.\n";
    all_refused(
        &rt,
        alloc,
        &[&["strip", "a", "b"], &["strip", "a", "--", "b", "c"]],
        said,
    )?;
    let said =
        b"pulleynavy dump: --names reads each file twice, and standard input can't be: name regular files\n";
    let rows: [&[&str]; 3] = [
        &["dump", "--names"],
        &["dump", "--names", "-"],
        &["dump", "--names", "--"],
    ];
    all_refused(&rt, alloc, &rows, said)
}

// A run whose arguments can't be fetched for this reason returns and says this.
fn cannot_begin(
    rt: &impl Abort,
    alloc: Global,
    kind: io::ErrorKind,
    wanted: (u8, &[u8]),
) -> Result<(), Fail> {
    let mut written = Vec::<u8>::new(alloc);
    let errors = BoundedSink::new(alloc, 100)?;
    let arguments: io::Result<Args> = Err(io::Error::from(kind));
    let output = WriteSink::new(&mut written);
    let runner = Runner::new(Files::of_input(MODULE), output, errors);
    let (status, runner) = run_program(alloc, arguments, runner);
    let (files, output, said) = runner.into_parts();
    drop(output);
    assert!(rt; status == ExitCode::from(wanted.0));
    assert_eq!(rt; said.written(), wanted.1);
    assert!(rt; files.changes().is_empty());
    assert!(rt; written.is_empty());
    Ok(())
}

#[test]
fn refuses_arguments_that_cannot_be_read(rt: HostRuntime) -> Result<(), Fail> {
    let said = b"pulleynavy: an argument is not valid UTF-8\n".as_slice();
    cannot_begin(&rt, rt.alloc(), io::ErrorKind::InvalidData, (2, said))?;
    let said = b"pulleynavy: out of memory\n".as_slice();
    cannot_begin(&rt, rt.alloc(), io::ErrorKind::OutOfMemory, (3, said))
}
