//! Chunked input with payloads: a feeder, and the events of a stream in chunks. Re-exports listings, edits and stripping.
//!
//! * `Feeder` buffers what a chunk boundary cuts, and returns the payloads of a stream that arrives in chunks.
//! * `read_pieces` returns the events of a chunked stream as values that own their bytes.
//! * `list` reads a stream from a `Source` and writes a line for each event to a `Sink`.
//! * `strip` copies a module without its custom sections.
//!
//! How the input is chunked never changes a result. Calls that allocate take an allocator and return `OutOfMemory`, at
//! offset 0, or `ListError::Memory` when an allocation fails.
//!
//! ```rattle
//! use bitflags::Flags;
//! let mut feeder = Feeder::new(alloc, 0, WasmFeatures::all());
//! let mut chunks = [b"\0asm\x01".as_slice(), b"\0\0\0\0\x02\x01a".as_slice()].into_iter();
//! let mut parts = 0;
//! loop {
//!     match feeder.open().step()? {
//!         Step::Parsed { payload: Payload::End(offset), .. } => {
//!             assert_eq!(rt; offset, 12);
//!             break;
//!         }
//!         Step::Parsed { .. } => parts += 1,
//!         Step::NeedMoreData(_) => {}
//!     }
//!     if feeder.wants_more() {
//!         match chunks.next() {
//!             Some(chunk) => feeder.push(chunk)?,
//!             None => feeder.finish(),
//!         }
//!     }
//! }
//! assert_eq!(rt; parts, 2);
//! ```
#![tactic(auto)]

mod events;
mod feeder;
pub mod laws;
mod pieces;

pub use events::{Event, EventKind};
pub use feeder::{Feeder, Opened, Step, parse_next};
pub use pieces::{fits_pieces, read_pieces, read_pieces_in};
pub use wasm_edits::{
    Edit, Keep, NewSection, all_fit, edit, edit_stream, edit_to, edited_len, encode, stays, strip,
    strip_in_place, strip_stream, strip_to_front,
};
pub use wasm_io::{
    BoundedSink, Failed, ListError, ReadSource, Sink, SliceSource, Source, WriteSink, write_all,
};
pub use wasm_lines::{list, list_in};
pub use wasm_streams::{Ahead, Cursor, Ended, seen};
