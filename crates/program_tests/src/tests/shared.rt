// Streams whose reader has gone.
use super::same;
use std::alloc::Global;
use std::cell::Cell;
use std::io::{self, ErrorKind, Write};
use std::process::Abort;
use std::test::Fail;
use wasm_commands::{Messages, Noting};
use wasm_io::{Sink, WriteSink, write_all};

// A writer that fails for a reason, or takes all bytes.
#[derive(Drop)]
struct Failing {
    kind: Option<ErrorKind>,
}

impl Write for Failing {
    fn write(&mut self, buf: &[u8]) -> io::Result<usize> {
        match self.kind {
            Some(kind) => Err(io::Error::from(kind)),
            None => Ok(buf.len()),
        }
    }

    fn flush(&mut self) -> io::Result<()> {
        match self.kind {
            Some(kind) => Err(io::Error::from(kind)),
            None => Ok(()),
        }
    }
}

// Writes twice to a writer that fails for this reason, or takes all. Then `wanted` is whether writing failed, and what a message writes.
fn message_after(
    rt: &impl Abort,
    alloc: Global,
    kind: Option<ErrorKind>,
    wanted: (bool, &[u8]),
) -> Result<(), Fail> {
    let failure = Cell::new(None);
    let mut text = Vec::new(alloc);
    let mut output = Noting::new(Failing { kind }, &failure);
    let failed = output.write(b"abc").is_err();
    same(rt, output.write(b"abc").is_err(), failed);
    same(rt, output.flush().is_err(), failed);
    let mut errors = Messages::new(WriteSink::new(&mut text), &failure);
    let written = write_all(&mut errors, b"output failed\n");
    same(rt, written.is_ok(), true);
    same(rt, errors.failed(), false);
    drop(errors);
    same(rt, (failed, text.as_slice()), wanted);
    Ok(())
}

#[test]
fn says_nothing_once_the_pipe_is_closed(rt: HostRuntime) -> Result<(), Fail> {
    let alloc = rt.alloc();
    message_after(&rt, alloc, None, (false, b"output failed\n"))?;
    message_after(
        &rt,
        alloc,
        Some(ErrorKind::WriteZero),
        (true, b"output failed\n"),
    )?;
    message_after(&rt, alloc, Some(ErrorKind::BrokenPipe), (true, b""))
}
