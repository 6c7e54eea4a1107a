//! Text output: digits, short texts, a buffer before a sink, and the devices that programs read and write.
//!
//! `Source` and `Sink` are the devices. A `Page` buffers lines before a sink. `ShortText` writes a line in place,
//! without allocating.
#![tactic(auto)]

mod devices;
mod digits;
mod messages;
mod page;
mod short_text;

pub use devices::{
    BoundedSink, Failed, ListError, ReadSource, Sink, SliceSource, Source, WriteSink,
    list_of_capacity, write_all,
};
pub use digits::{Base, write_number, write_offset};
pub use messages::{complain, give_up};
pub use page::Page;
pub use short_text::{ShortText, TEXT_BYTES, write_bytes, write_word};
