// The messages of programs that fail.
ghost use Rattle.std.specs.Prelude.{◌≡◌};
ghost use Rattle.wasm_io.specs.Calls.{device_of};
ghost use Rattle.wasm_io.specs.Messages.{Says, complaint_of};

use crate::devices::{ListError, Sink, write_all};

/// Writes the reason of a failure to `errors`, and returns the exit status 3.
///
/// The messages are `input failed`, `output failed` and `out of memory`, each with a line feed.
///
/// ```rattle
/// let mut errors = BoundedSink::new(alloc, 100)?;
/// assert_eq!(rt; give_up(&mut errors, ListError::Input), 3);
/// assert_eq!(rt; errors.written(), b"input failed\n".as_slice());
/// ```
pub fn give_up<E: Sink>(errors: &mut E, why: ListError) -> u8
    ensures status { result ≡ 3 }
    ensures says { Says (device_of E.taken E.has_failed errors.old errors.new) (complaint_of why) }
{
    complain(errors, message(why));
    3
}

/// Writes a message to `errors`, as far as the sink takes it. A sink that fails is ignored.
pub fn complain<E: Sink>(errors: &mut E, message: &[u8])
    ensures { Says (device_of E.taken E.has_failed errors.old errors.new) message.now }
{
    let _ = write_all(errors, message);
}

// The message of a failure.
fn message(error: ListError) -> &'static [u8]
    ensures { result.now ≡ complaint_of error }
{
    match error {
        ListError::Input => b"input failed\n",
        ListError::Output => b"output failed\n",
        ListError::Memory => b"out of memory\n",
    }
}
