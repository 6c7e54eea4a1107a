// The size of a read, messages, and the end of a run.
ghost use Rattle.std.specs.Prelude.{◌≡◌, IfOk, OnOk, OnErr, ℕ, take, true, is_ok, if◌then◌else◌, vec_len};
ghost use Rattle.std.specs.Io.KnownBytes.{Appends};
ghost use Rattle.wasm_console.specs.Endings.{Finishes, status_for};
ghost use Rattle.wasm_console.specs.Messages.{joined};
ghost use Rattle.wasm_io.specs.Calls.{device_of, writer_device};
ghost use Rattle.wasm_io.specs.Messages.{Says};

use std::alloc::{AllocError, Global};
use std::io::Write;
use wasm_io::{Failed, ListError, Sink, WriteSink, give_up, write_all};
use wasm_streams::Ended;

/// The number of bytes of the input that are read at once, at most.
pub const PIECE: usize = 65_536;

/// Allocates a buffer of `PIECE` bytes to read into.
///
/// # Errors
///
/// `AllocError` when the allocation fails.
pub fn read_buffer(alloc: Global) -> Result<Vec<u8>, AllocError>
    // Proved: the buffer that stripping reads into has 65,536 bytes
    ensures { IfOk result (λ buffer. vec_len buffer ≡ 65536) }
{
    vec![in alloc; 0u8; PIECE]
}

/// Writes texts, one after the other.
///
/// # Errors
///
/// `Failed` if a write failed. A prefix of the texts, one after the other, is then written.
///
/// ```rattle
/// let mut output = BoundedSink::new(alloc, 20)?;
/// write_parts(&mut output, &[b"no option '".as_slice(), b"-x", b"'\n"])?;
/// assert_eq!(rt; output.written(), b"no option '-x'\n".as_slice());
/// assert_eq!(rt; write_parts(&mut output, &[b"a.wasm".as_slice(), b"\n"]), Err(Failed));
/// ```
pub fn write_parts<E: Sink>(output: &mut E, parts: &[&[u8]]) -> Result<(), Failed>
    // Proved: `write_parts` writes texts one after the other, or a prefix of them if the sink failed
    //   [its clauses (`joined`)]
    ensures ok { OnOk result (Appends (E.taken output.old) (E.taken output.new) (joined parts.now)) }
    ensures err { OnErr result ((n : ℕ)
        × Appends (E.taken output.old) (E.taken output.new) (take n (joined parts.now))) }
    ensures failed { E.has_failed output.new
        ≡ (if is_ok result then E.has_failed output.old else true) }
{
    let mut rest = parts;
    'parts: while let [part, later @ ..] = rest {
        write_all(output, part)?;
        rest = later;
    }
    Ok(())
}

/// Writes a message of several texts to `errors`, as far as the sink takes it. A sink that fails is ignored.
pub fn say<E: Sink>(errors: &mut E, parts: &[&[u8]])
    // Proved: `say` writes a message of several texts, or a prefix of it if the device failed
    ensures { Says (device_of E.taken E.has_failed errors.old errors.new) (joined parts.now) }
{
    let _ = write_parts(errors, parts);
}

/// Returns the exit status of a run over a stream: 0 at the end, 1 at a fault, and 3 if it failed.
pub fn status_of(how: &Result<Ended, ListError>) -> u8
    // Proved: the status of a run over a stream is 0 at its end, 1 at a fault, and 3 if it failed
    ensures { result ≡ status_for how.now }
{
    match how {
        Ok(Ended::End) => 0,
        Ok(Ended::Fault(_)) => 1,
        Err(_) => 3,
    }
}

/// Flushes the output after the status 0 or 1, and returns the exit status of the program.
///
/// # Errors
///
/// If flushing fails, it writes `output failed` to `errors` and returns 3. Other statuses are returned unchanged.
pub fn finish<W: Write, E: Sink>(status: u8, output: &mut WriteSink<W>, errors: &mut E) -> u8
    // Proved: after a status of 0 or 1 `finish` flushes the output. It returns that status and
    //   prints nothing, or returns 3 and says so if the output failed; after 2 or 3 it does nothing
    ensures { Finishes status output.new.forwarded
        (writer_device W.contents output.old output.new)
        (device_of E.taken E.has_failed errors.old errors.new) result }
{
    if status < 2 && output.flush().is_err() {
        return give_up(errors, ListError::Output);
    }
    status
}
