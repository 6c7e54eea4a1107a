// How a loop over a stream goes on, and how it ends.
ghost use Rattle.std.specs.Prelude.{◌≡◌};
ghost use Rattle.wasm_frames.specs.Answer.{is_end};

use wasm_base::Error;
use wasm_frames::{Frame, FrameKind};

/// The end of a stream that was listed or dumped: without a fault, or at the first fault.
///
/// ```rattle
/// use wasm_feed::list;
/// // The function section announces a function, but there is no code section.
/// let mut input = SliceSource::new(b"\0asm\x01\0\0\0\x03\x02\x01\0");
/// let mut output = BoundedSink::new(alloc, 1000)?;
/// match list(alloc, &mut input, &mut output, 4096)? {
///     Ended::Fault(error) => assert_eq!(rt; error.fault(), Fault::FunctionWithoutCode),
///     Ended::End => assert!(rt; false),
/// }
/// ```
#[derive(Clone, Copy, Debug, PartialEq, Eq)]
pub enum Ended {
    /// The stream ended without a fault.
    End,
    /// The stream stopped at this fault. The offset is in bytes from the start of the stream.
    Fault(Error),
}

/// What a loop over a stream does after a step.
#[derive(Clone, Copy)]
pub enum Turn {
    /// Perform another step over the bytes so far.
    Advance,
    /// Read more input.
    Read,
    /// Stop: the stream has ended.
    End(Ended),
}

/// Returns whether a frame is the end of the stream.
#[inline(always)]
pub(crate) fn is_end(frame: &Frame<'_>) -> bool
    ensures { result ≡ is_end frame.now }
{
    matches!(frame.kind(), FrameKind::End)
}
