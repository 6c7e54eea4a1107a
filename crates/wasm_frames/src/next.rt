// What a parser of frames returns.
ghost use Rattle.std.specs.Prelude.{◌≡◌};
ghost use Rattle.wasm_frames.specs.declared.next.NextFrame.{NextFrame as Next};

use crate::frame::Frame;
use std::marker::PhantomData;
use wasm_base::Error;

/// The result of `StoredParser::next`: a frame, a request for more bytes, or a fault.
// One enum and not a `Result`: so the words of an error lie over those of a frame.
#[derive(Debug, Drop)]
pub enum NextFrame<'a> {
    /// A part of the stream was consumed.
    Parsed {
        /// The part.
        frame: Frame<'a>,
        /// The number of bytes consumed: at least 1, and 0 only at the end of the stream.
        consumed: usize,
    },
    /// More bytes are needed to decide what comes next. The number is a hint of how many to read, at least 1. Nothing
    /// was consumed.
    NeedMoreData(usize),
    /// The stream has a fault. Nothing was consumed.
    Fault(Error),
}

/// What a caller makes of a result, where the parser has just read it.
///
/// `StoredParser::next_as` makes it once for each kind of part, so that the fields of a frame go straight to the caller's
/// memory.
pub trait Outcome<'a> {
    /// What is made.
    type Out;

    /// What is made of a result.
    ghost made: { Next → Self.Out };

    /// Makes it of a result.
    fn of(next: NextFrame<'a>) -> Self::Out
        ensures { result ≡ made next.entry };
}

/// The results themselves, for a caller that makes `For` of them.
pub struct Plain<For> {
    made: PhantomData<For>,
}

impl<'a, For> Outcome<'a> for Plain<For> {
    type Out = NextFrame<'a>;

    ghost made = { λ next. next };

    #[inline(always)]
    fn of(next: NextFrame<'a>) -> NextFrame<'a> {
        next
    }
}
