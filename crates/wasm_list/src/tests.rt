// The statuses and messages of runs.
use crate::run::{run, run_program};
use std::alloc::Global;
use std::env::Args;
use std::io::{self, Read, Write};
use std::process::{Abort, ExitCode};
use std::test::Fail;
use test_devices::Measuring;
use wasm_console::finish;
use wasm_io::{BoundedSink, ReadSource, Sink, SliceSource, Source, WriteSink};

const MODULE: &[u8] = b"\0asm\x01\0\0\0\0\x02\x01a";

// These arguments.
fn words(alloc: Global, words: &[&str]) -> Result<Vec<String>, Fail> {
    let mut arguments = Vec::new(alloc);
    for word in words {
        arguments.push(String::from_str(alloc, word)?)?;
    }
    Ok(arguments)
}

fn run_over<R: Source>(
    alloc: Global,
    arguments: &[String],
    input: &mut R,
    output: &mut BoundedSink,
    errors: &mut BoundedSink,
) -> u8 {
    run(alloc, arguments, input, output, errors)
}

// A run with these arguments over this source, whose output has room for this many bytes, returns, writes and says this.
fn answers<R: Source>(
    rt: &impl Abort,
    alloc: Global,
    arguments: &[&str],
    input: &mut R,
    room: usize,
    wanted: (u8, &[u8], &[u8]),
) -> Result<(), Fail> {
    let arguments = words(alloc, arguments)?;
    let mut output = BoundedSink::new(alloc, room)?;
    let mut errors = BoundedSink::new(alloc, 200)?;
    let status = run_over(alloc, &arguments, input, &mut output, &mut errors);
    assert_eq!(rt; status, wanted.0);
    assert_eq!(rt; output.written(), wanted.1);
    assert_eq!(rt; errors.written(), wanted.2);
    // The output has failed if and only if it is full.
    assert!(rt; output.failed() == (wanted.2 == b"output failed\n".as_slice()));
    Ok(())
}

/// Arguments, a stream, an exit status, and what a run writes and says.
type Row = (
    &'static [&'static str],
    &'static [u8],
    u8,
    &'static [u8],
    &'static [u8],
);

const USAGE: &[u8] = b"usage: wasm_list [strip]\n";

// A module with the custom sections a, name and b.
const CUSTOM: &[u8] = b"\0asm\x01\0\0\0\0\x02\x01a\0\x05\x04name\0\x02\x01b";

const ROWS: [Row; 17] = [
    (&["strip"], CUSTOM, 0, b"\0asm\x01\0\0\0", b""),
    (&["strip", "--keep-names"], CUSTOM, 2, b"", USAGE),
    (&["strip", "a.wasm"], CUSTOM, 2, b"", USAGE),
    (&["--help"], MODULE, 2, b"", USAGE),
    (&["--version"], MODULE, 2, b"", USAGE),
    (
        &[],
        MODULE,
        0,
        b"version 0 8 1 module\ncustom 10 12 12\nend 12\n",
        b"",
    ),
    (
        &[],
        b"\0asm\x01\0\0\0\x80",
        1,
        b"version 0 8 1 module\nfault 8 malformed section id\n",
        b"",
    ),
    (
        &[],
        b"\0asm\x01\0\0\0\x03\x02\x01\0",
        1,
        b"version 0 8 1 module\nsection 3 10 12 1\nfault 12 function section has non-zero count but code section is absent\n",
        b"",
    ),
    (&["list"], MODULE, 2, b"", USAGE),
    (&["strip", "strip"], MODULE, 2, b"", USAGE),
    (&["Strip"], MODULE, 2, b"", USAGE),
    (&["", "strip"], MODULE, 2, b"", USAGE),
    (
        &["strip"],
        b"\0asm\x01\0\0\0\0\x01\0\x01\x01\0\0\x02\x01a",
        0,
        b"\0asm\x01\0\0\0\x01\x01\0",
        b"",
    ),
    (
        &["strip"],
        b"\0asm\x01\0\0\0\x03\x02\x01\0",
        1,
        b"",
        b"function section has non-zero count but code section is absent (at offset 0xc)\n",
    ),
    // Names go too.
    (
        &["strip"],
        b"\0asm\x01\0\0\0\0\x05\x04name",
        0,
        b"\0asm\x01\0\0\0",
        b"",
    ),
    (
        &["strip"],
        b"\0asm\x01\x01\x01\x01",
        1,
        b"",
        b"unknown binary version: 16843009 (at offset 0x4)\n",
    ),
    (
        &["strip"],
        b"",
        1,
        b"",
        b"unexpected end-of-file (at offset 0x0)\n",
    ),
];

fn all_answer(rt: &impl Abort, alloc: Global, rows: &[Row]) -> Result<(), Fail> {
    for (arguments, stream, status, written, said) in rows {
        let input = &mut SliceSource::new(stream);
        answers(rt, alloc, arguments, input, 2000, (*status, written, said))?;
    }
    Ok(())
}

#[test]
fn runs_over_slices(rt: HostRuntime) -> Result<(), Fail> {
    all_answer(&rt, rt.alloc(), &ROWS)
}

// Standard error has no room for the whole message.
#[test]
fn refuses_arguments_in_a_few_bytes(rt: HostRuntime) -> Result<(), Fail> {
    let arguments = words(rt.alloc(), &["strip", "it"])?;
    let mut deaf = BoundedSink::new(rt.alloc(), 3)?;
    let mut output = BoundedSink::new(rt.alloc(), 200)?;
    let input = &mut SliceSource::new(MODULE);
    let status = run_over(rt.alloc(), &arguments, input, &mut output, &mut deaf);
    assert_eq!(rt; status, 2);
    assert_eq!(rt; deaf.written(), b"usa".as_slice());
    Ok(())
}

/// A reader that fails.
#[derive(Drop)]
struct Broken;

impl Read for Broken {
    fn read(&mut self, _buf: &mut [u8]) -> io::Result<usize> {
        Err(io::Error::from(io::ErrorKind::BrokenPipe))
    }
}

// A run whose input fails returns 3, having written and said this.
fn input_fails(
    rt: &impl Abort,
    alloc: Global,
    arguments: &[&str],
    wanted: (u8, &[u8], &[u8]),
) -> Result<(), Fail> {
    let mut input = ReadSource::new(Broken);
    answers(rt, alloc, arguments, &mut input, 200, wanted)?;
    assert!(rt; input.failed());
    Ok(())
}

// A run whose output is full after this returns 3 and says so.
fn output_fails(
    rt: &impl Abort,
    alloc: Global,
    arguments: &[&str],
    written: &[u8],
) -> Result<(), Fail> {
    let mut input = SliceSource::new(MODULE);
    let wanted = (3, written, b"output failed\n".as_slice());
    answers(rt, alloc, arguments, &mut input, written.len(), wanted)?;
    assert!(rt; !input.failed());
    Ok(())
}

#[test]
fn says_which_device_failed(rt: HostRuntime) -> Result<(), Fail> {
    let wanted = (3, b"".as_slice(), b"input failed\n".as_slice());
    input_fails(&rt, rt.alloc(), &[], wanted)?;
    input_fails(&rt, rt.alloc(), &["strip"], wanted)?;
    output_fails(&rt, rt.alloc(), &[], b"version 0 8 1 module\ncus")?;
    output_fails(&rt, rt.alloc(), &["strip"], b"\0asm\x01")
}

// A run with these arguments reads in chunks of 65,536 bytes.
fn reads_in_pieces(rt: &impl Abort, alloc: Global, arguments: &[&str]) -> Result<(), Fail> {
    let arguments = words(alloc, arguments)?;
    let mut input = Measuring::new(MODULE);
    let mut output = BoundedSink::new(alloc, 200)?;
    let mut errors = BoundedSink::new(alloc, 200)?;
    let status = run_over(alloc, &arguments, &mut input, &mut output, &mut errors);
    assert_eq!(rt; status, 0);
    assert_eq!(rt; input.measured(), (65_536, 65_536));
    Ok(())
}

#[test]
fn reads_in_pieces_of_65536(rt: HostRuntime) -> Result<(), Fail> {
    reads_in_pieces(&rt, rt.alloc(), &[])?;
    reads_in_pieces(&rt, rt.alloc(), &["strip"])
}

fn finish_with<W: Write>(status: u8, output: &mut WriteSink<W>, errors: &mut BoundedSink) -> u8 {
    finish(status, output, errors)
}

#[test]
fn finishes_by_flushing(rt: HostRuntime) -> Result<(), Fail> {
    let mut output = WriteSink::new(Vec::<u8>::new(rt.alloc()));
    let mut errors = BoundedSink::new(rt.alloc(), 20)?;
    for status in 0..4 {
        let answer = finish_with(status, &mut output, &mut errors);
        assert_eq!(rt; answer, status);
    }
    assert!(rt; errors.written().is_empty());
    Ok(())
}

/// A writer that takes all bytes, and cannot hand them on.
#[derive(Drop)]
struct Stuck;

impl Write for Stuck {
    fn write(&mut self, buf: &[u8]) -> io::Result<usize> {
        Ok(buf.len())
    }

    fn flush(&mut self) -> io::Result<()> {
        Err(io::Error::from(io::ErrorKind::WriteZero))
    }
}

// A run with this status whose output cannot be flushed returns and says this.
fn flush_fails(
    rt: &impl Abort,
    alloc: Global,
    status: u8,
    answer: u8,
    said: &[u8],
) -> Result<(), Fail> {
    let mut output = WriteSink::new(Stuck);
    let mut errors = BoundedSink::new(alloc, 20)?;
    let given = finish_with(status, &mut output, &mut errors);
    assert_eq!(rt; given, answer);
    assert_eq!(rt; errors.written(), said);
    assert_eq!(rt; output.failed(), status < 2);
    Ok(())
}

#[test]
fn a_flush_that_fails(rt: HostRuntime) -> Result<(), Fail> {
    flush_fails(&rt, rt.alloc(), 0, 3, b"output failed\n")?;
    flush_fails(&rt, rt.alloc(), 1, 3, b"output failed\n")?;
    flush_fails(&rt, rt.alloc(), 2, 2, b"")?;
    flush_fails(&rt, rt.alloc(), 3, 3, b"")
}

// The program's own name, and this many arguments.
fn arguments(alloc: Global, count: usize) -> Result<Args, Fail> {
    let mut arguments = vec![in alloc; String::from_str(alloc, "wasm_list")?]?;
    for _ in 0..count {
        arguments.push(String::from_str(alloc, "strip")?)?;
    }
    Ok(arguments.into_iter())
}

fn program_over<W: Write>(
    alloc: Global,
    given: io::Result<Args>,
    input: &mut SliceSource<'_>,
    output: &mut WriteSink<W>,
    errors: &mut BoundedSink,
) -> ExitCode {
    run_program(alloc, given, input, output, errors)
}

// The whole program over this source returns, writes and says this.
fn program_answers(
    rt: &impl Abort,
    alloc: Global,
    given: io::Result<Args>,
    input: &mut SliceSource<'_>,
    wanted: (u8, &[u8], &[u8]),
) -> Result<(), Fail> {
    let mut written = Vec::<u8>::new(alloc);
    let mut output = WriteSink::new(&mut written);
    let mut errors = BoundedSink::new(alloc, 40)?;
    let status = program_over(alloc, given, input, &mut output, &mut errors);
    assert!(rt; status == ExitCode::from(wanted.0));
    assert_eq!(rt; errors.written(), wanted.2);
    assert_eq!(rt; written.as_slice(), wanted.1);
    Ok(())
}

/// How many arguments come, a stream, an exit status, and what the program writes and says.
type ProgramRow = (usize, &'static [u8], u8, &'static [u8], &'static [u8]);

const PROGRAM_ROWS: [ProgramRow; 5] = [
    (
        0,
        MODULE,
        0,
        b"version 0 8 1 module\ncustom 10 12 12\nend 12\n",
        b"",
    ),
    (
        0,
        b"\0asm\x01\0\0\0\x80",
        1,
        b"version 0 8 1 module\nfault 8 malformed section id\n",
        b"",
    ),
    (1, MODULE, 0, b"\0asm\x01\0\0\0", b""),
    (
        1,
        b"\0asm\x01\0\0\0\x80",
        1,
        b"",
        b"malformed section id (at offset 0x8)\n",
    ),
    (2, MODULE, 2, b"", USAGE),
];

fn all_programs_answer(rt: &impl Abort, alloc: Global, rows: &[ProgramRow]) -> Result<(), Fail> {
    for (count, stream, status, written, said) in rows {
        let given = Ok(arguments(alloc, *count)?);
        let input = &mut SliceSource::new(stream);
        program_answers(rt, alloc, given, input, (*status, written, said))?;
    }
    Ok(())
}

#[test]
fn the_whole_program(rt: HostRuntime) -> Result<(), Fail> {
    all_programs_answer(&rt, rt.alloc(), &PROGRAM_ROWS)
}

#[test]
fn a_program_that_cannot_begin(rt: HostRuntime) -> Result<(), Fail> {
    let mut input = SliceSource::new(MODULE);
    let given = Err(io::Error::from(io::ErrorKind::OutOfMemory));
    let wanted = (3, b"".as_slice(), b"out of memory\n".as_slice());
    program_answers(&rt, rt.alloc(), given, &mut input, wanted)?;
    // Nothing was read.
    let mut left = [0; 20];
    assert_eq!(rt; input.read(&mut left), Ok(MODULE.len()));
    Ok(())
}

#[test]
fn an_argument_that_is_not_utf8(rt: HostRuntime) -> Result<(), Fail> {
    let mut input = SliceSource::new(MODULE);
    let given = Err(io::Error::from(io::ErrorKind::InvalidData));
    program_answers(&rt, rt.alloc(), given, &mut input, (2, b"", USAGE))
}

// The program with this many arguments returns and says this if its output cannot be flushed.
fn program_fails(
    rt: &impl Abort,
    alloc: Global,
    count: usize,
    status: u8,
    said: &[u8],
) -> Result<(), Fail> {
    let mut input = SliceSource::new(MODULE);
    let mut output = WriteSink::new(Stuck);
    let mut errors = BoundedSink::new(alloc, 40)?;
    let given = Ok(arguments(alloc, count)?);
    let answer = program_over(alloc, given, &mut input, &mut output, &mut errors);
    assert!(rt; answer == ExitCode::from(status));
    assert_eq!(rt; errors.written(), said);
    Ok(())
}

#[test]
fn a_program_whose_output_fails_at_its_end(rt: HostRuntime) -> Result<(), Fail> {
    program_fails(&rt, rt.alloc(), 0, 3, b"output failed\n")?;
    program_fails(&rt, rt.alloc(), 1, 3, b"output failed\n")?;
    program_fails(&rt, rt.alloc(), 2, 2, USAGE)
}
