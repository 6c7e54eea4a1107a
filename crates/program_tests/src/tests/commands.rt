// Runs of the program over files in memory.
mod arguments;
mod checks;
mod dumps;
mod edits;
mod helps;
mod lists;
mod strips;
mod system;

use std::alloc::Global;
use std::io::Write;
use std::process::Abort;
use std::test::Fail;
use system::{Change, Files};
use wasm_commands::{Runner, run};
use wasm_io::{BoundedSink, WriteSink};

/// A module with one function of type 5, and a custom section called `type`.
pub(super) const MODULE: &[u8] =
    b"\0asm\x01\0\0\0\x03\x02\x01\x05\x0a\x04\x01\x02\0\x0b\0\x06\x04type\xff";

/// A module whose functions have no code.
const CODELESS: &[u8] = b"\0asm\x01\0\0\0\x03\x02\x01\0";

/// What a run returns, writes and says.
pub(super) type Wanted<'a> = (u8, &'a [u8], &'a [u8]);

// These arguments.
fn words_of(alloc: Global, words: &[&str]) -> Result<Vec<String>, Fail> {
    let mut arguments = Vec::new(alloc);
    for word in words {
        arguments.push(String::from_str(alloc, word)?)?;
    }
    Ok(arguments)
}

// What a run returns and says, and the files after it.
#[derive(Drop)]
struct Ran<'a> {
    status: u8,
    said: BoundedSink,
    files: Files<'a>,
}

// A run with these arguments over these files, whose messages have this room.
fn run_over<'a, W: Write + Drop>(
    alloc: Global,
    words: &[String],
    files: &Files<'a>,
    output: W,
    room: usize,
) -> Result<Ran<'a>, Fail> {
    let errors = BoundedSink::new(alloc, room)?;
    let runner = Runner::new(files.again(), WriteSink::new(output), errors);
    let (status, runner) = run(alloc, words, runner);
    let (files, output, said) = runner.into_parts();
    drop(output);
    Ok(Ran {
        status,
        said,
        files,
    })
}

// A run with these arguments over these files returns, writes and says this, and does this to files.
fn changes(
    rt: &impl Abort,
    alloc: Global,
    words: &[&str],
    files: &Files<'_>,
    wanted: Wanted<'_>,
    trace: &[Change],
) -> Result<(), Fail> {
    let arguments = words_of(alloc, words)?;
    let mut written = Vec::<u8>::new(alloc);
    let ran = run_over(alloc, &arguments, files, &mut written, 300)?;
    assert_eq!(rt; written.as_slice(), wanted.1);
    assert_eq!(rt; ran.said.written(), wanted.2);
    assert_eq!(rt; ran.status, wanted.0);
    assert!(rt; ran.files.changes() == trace);
    Ok(())
}

// The same, and leaves all files as they are.
fn answers(
    rt: &impl Abort,
    alloc: Global,
    words: &[&str],
    files: &Files<'_>,
    wanted: Wanted<'_>,
) -> Result<(), Fail> {
    changes(rt, alloc, words, files, wanted, &[])
}

/// A run with these arguments over this standard input returns, writes and says this.
pub(super) fn runs(
    rt: &impl Abort,
    alloc: Global,
    words: &[&str],
    stream: &[u8],
    wanted: Wanted<'_>,
) -> Result<(), Fail> {
    answers(rt, alloc, words, &Files::of_input(stream), wanted)
}

/// Runs with each of these arguments are refused, and say this.
pub(super) fn all_refused(
    rt: &impl Abort,
    alloc: Global,
    rows: &[&[&str]],
    said: &[u8],
) -> Result<(), Fail> {
    for words in rows {
        runs(rt, alloc, words, MODULE, (2, b"", said))?;
    }
    Ok(())
}
