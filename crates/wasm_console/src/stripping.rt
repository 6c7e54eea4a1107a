// Strips an input that can be read only once.
ghost use Rattle.wasm_edits.specs.Fates.{stays_by};
ghost use Rattle.wasm_io.specs.Calls.{input_failed, output_failed, device_of};
ghost use Rattle.wasm_console.specs.Strips.{ReadsAll, ReadsPiece, Refuses, StripsInput, WritesStripped};
ghost use Rattle.std.specs.Prelude.{◌≡◌, ◌<◌, length};

use crate::common::read_buffer;
use std::alloc::Global;
use wasm_base::Error;
use wasm_edits::{Keep, strip_in_place};
use wasm_io::{ListError, Sink, Source, complain, give_up, write_all};
use wasm_streams::Ended;

// Performs one read and appends the result to `bytes`. Returns false at the end of input.
fn read_piece<R: Source>(
    input: &mut R,
    buffer: &mut [u8],
    bytes: &mut Vec<u8>,
) -> Result<bool, ListError>
    requires { length buffer.old ≡ 65536 }
    ensures reads { ReadsPiece (R.remaining input.old) (R.remaining input.new)
        bytes.old.items result bytes.new.items }
    ensures failed { R.has_failed input.new ≡ input_failed result (R.has_failed input.old) }
{
    match input.read(buffer) {
        Ok(0) => Ok(false),
        Ok(count) => {
            bytes.extend_from_slice(&buffer[..count])?;
            Ok(true)
        }
        Err(_) => Err(ListError::Input),
    }
}

/// Reads a source to its end, and returns its bytes.
///
/// # Errors
///
/// * `Input` if the source failed.
/// * `Memory` when an allocation fails.
pub fn read_all<R: Source>(alloc: Global, input: &mut R) -> Result<Vec<u8>, ListError>
    ensures reads { ReadsAll (R.remaining input.old) (R.remaining input.new) result }
    ensures failed { R.has_failed input.new ≡ input_failed result (R.has_failed input.old) }
{
    let mut buffer = read_buffer(alloc)?;
    let mut bytes = Vec::new(alloc);
    'pieces: loop {
        if !read_piece(input, buffer.as_mut_slice(), &mut bytes)? {
            return Ok(bytes);
        }
    }
}

// Strips the stream in place and writes it, unless it has a fault.
fn write_stripped<W: Sink>(
    mut bytes: Vec<u8>,
    keep: Keep<'_>,
    output: &mut W,
) -> Result<Ended, ListError>
    ensures writes { WritesStripped (stays_by keep.entry) bytes.items
        (W.taken output.old) (W.taken output.new) result }
    ensures failed { W.has_failed output.new ≡ output_failed result (W.has_failed output.old) }
{
    match strip_in_place(&mut bytes, keep) {
        Ok(()) => match write_all(output, &bytes) {
            Ok(()) => Ok(Ended::End),
            Err(_) => Err(ListError::Output),
        },
        Err(error) => Ok(Ended::Fault(error)),
    }
}

/// Reads all of an input, and writes it without its custom sections, except those that stay. Returns how the stream
/// ended.
///
/// At a fault of the stream nothing is written. To strip a stream that can be read twice, `wasm_edits::strip_stream` needs
/// less memory.
///
/// # Errors
///
/// * `Input` if the source failed, and nothing was written.
/// * `Output` if the sink failed. A prefix of the stripped stream is then written.
/// * `Memory` when an allocation fails, and nothing was written.
pub fn strip_input<R: Source, W: Sink>(
    alloc: Global,
    keep: Keep<'_>,
    input: &mut R,
    output: &mut W,
) -> Result<Ended, ListError>
    // Proved: `strip_input` reads all of the input, and writes the stripped stream and nothing else,
    //   or a prefix of that if the output failed; at a fault of the stream, and if the input or an
    //   allocation failed, it writes nothing
    ensures { StripsInput (stays_by keep.entry) (device_of R.remaining R.has_failed input.old input.new)
        (device_of W.taken W.has_failed output.old output.new) result }
{
    let bytes = read_all(alloc, input)?;
    write_stripped(bytes, keep, output)
}

/// Writes the fault of a stream to `errors`, as `Display` writes it. Returns the exit status 1, or 3 with the message
/// `out of memory` when an allocation fails.
pub fn report_fault<E: Sink>(alloc: Global, error: Error, errors: &mut E) -> u8
    // Proved: `report_fault` writes the fault's text and returns 1, or 3 if an allocation failed
    ensures { Refuses error (device_of E.taken E.has_failed errors.old errors.new) result }
{
    match format!(in alloc; "{error}\n") {
        Ok(text) => {
            complain(errors, text.as_bytes());
            1
        }
        Err(_) => give_up(errors, ListError::Memory),
    }
}
