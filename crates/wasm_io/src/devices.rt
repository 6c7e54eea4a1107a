// What streams are read from and written to: sources, sinks, and the error of a call that uses them.
mod sink;
mod source;

pub use sink::{BoundedSink, Sink, WriteSink, list_of_capacity, write_all};
pub use source::{ReadSource, SliceSource, Source};
use std::alloc::AllocError;

/// The error of a source or a sink: a read or a write failed. The reason is not kept.
#[derive(Clone, Copy, Debug, PartialEq, Eq)]
pub struct Failed;

/// The error of a call that reads from a source, writes to a sink, and allocates.
#[derive(Clone, Copy, Debug, PartialEq, Eq)]
pub enum ListError {
    /// The source failed.
    Input,
    /// The sink failed.
    Output,
    /// An allocation failed.
    Memory,
}

impl From<AllocError> for ListError {
    ghost use Rattle.std.specs.Prelude.{◌≡◌};
    ghost use Rattle.wasm_io.specs.declared.devices.ListError.TheVariants.{Memory};

    ghost from_gives = { λ _ e. e ≡ Memory };

    fn from(_refused: AllocError) -> ListError {
        ListError::Memory
    }
}
