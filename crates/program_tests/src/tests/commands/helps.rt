// Help texts and the version.
use super::system::Files;
use super::{MODULE, run_over, runs, words_of};
use std::alloc::Global;
use std::process::Abort;
use std::test::Fail;

const VERSION: &[u8] = b"pulleynavy 0.16.0 (follows wasmparser 0.263.0)\n";

#[test]
fn prints_its_version(rt: HostRuntime) -> Result<(), Fail> {
    let rows: [&[&str]; 4] = [
        &["--version"],
        &["-V"],
        &["list", "--version"],
        &["strip", "a", "-V"],
    ];
    for words in rows {
        runs(&rt, rt.alloc(), words, MODULE, (0, VERSION, b""))?;
    }
    Ok(())
}

// A run with these arguments prints a text that begins so.
fn begins(rt: &impl Abort, alloc: Global, words: &[&str], start: &[u8]) -> Result<(), Fail> {
    let words = words_of(alloc, words)?;
    let mut written = Vec::<u8>::new(alloc);
    let files = Files::of_input(MODULE);
    let ran = run_over(alloc, &words, &files, &mut written, 10)?;
    assert_eq!(rt; ran.status, 0);
    assert!(rt; written.as_slice().starts_with(start));
    assert!(rt; ran.said.written().is_empty());
    Ok(())
}

#[test]
fn prints_help(rt: HostRuntime) -> Result<(), Fail> {
    let alloc = rt.alloc();
    let start = b"usage: pulleynavy COMMAND [OPTION]... [FILE]...\n";
    begins(&rt, alloc, &["--help"], start)?;
    begins(&rt, alloc, &["-h"], start)?;
    begins(&rt, alloc, &["help"], start)?;
    begins(
        &rt,
        alloc,
        &["help", "list"],
        b"usage: pulleynavy list [--json] ",
    )?;
    begins(
        &rt,
        alloc,
        &["dump", "-h"],
        b"usage: pulleynavy dump [--names] ",
    )?;
    begins(
        &rt,
        alloc,
        &["check", "a", "--help"],
        b"usage: pulleynavy check [--quiet] ",
    )?;
    begins(
        &rt,
        alloc,
        &["help", "strip"],
        b"usage: pulleynavy strip [--keep-names] ",
    )
}
