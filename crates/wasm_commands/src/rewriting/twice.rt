// Edits a stream by reading it twice, in memory that does not depend on its size.
ghost use Rattle.std.specs.Prelude.{All};
ghost use Rattle.wasm_commands.specs.Rewrites.{EditsTwice, sink_device};
ghost use Rattle.wasm_edits.specs.Edits.{CanBeMade};

use std::alloc::Global;
use std::io;
use wasm_console::PIECE;
use wasm_edits::{Edit, edit_stream};
use wasm_io::{ListError, Sink, Source};
use wasm_streams::Ended;

/// A file that was opened twice: to be checked, and to be read again.
#[derive(Drop)]
pub(crate) struct Reopened<R> {
    pub(crate) first: R,
    pub(crate) second: R,
}

/// Reads a file to its end. If it has no fault, reads it again and writes it with the edits. Returns how the stream ended.
///
/// # Errors
///
/// Those of `edit_stream`. At a fault of the first reading nothing is written.
pub(crate) fn edit_twice<R: Source, W: Sink>(
    alloc: Global,
    edits: &[Edit<'_>],
    files: &mut Reopened<R>,
    output: &mut W,
) -> Result<Ended, ListError>
    requires { All CanBeMade edits.now }
    // Proved: of two sources of a file, the first is read to check it. Only if that reading ends
    //   without a fault, the second is read, and written with the edits
    ensures { EditsTwice R.Source edits.now files.old files.new
        (sink_device W.Sink output.old output.new) result }
{
    match edit_stream(alloc, &[], &mut files.first, &mut io::sink(), PIECE) {
        Ok(Ended::End) => edit_stream(alloc, edits, &mut files.second, output, PIECE),
        checked => checked,
    }
}
