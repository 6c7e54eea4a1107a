//! A stream in chunks, as frames: what a chunk boundary cuts is stored, and no item of a section is read.
//!
//! * A `Cursor` is a position in a stream, and `next_frame` performs a step.
//! * `Ahead` with a `Cursor` reads from a source, and parses each chunk in place.
//! * `visit` reads a stream from a source, and passes each step over it to a `Visitor`.
//! * `pass_part` forwards or drops a part that is too large to store.
//!
//! How the input is chunked never changes a result. `wasm_feed` adds a feeder with payloads, which is what most programs
//! use.
//!
//! ```rattle
//! let mut cursor = Cursor::new(StoredParser::new(0));
//! let stream: &[u8] = b"\0asm\x01\0\0\0\0\x02\x01a";
//! let header = next_frame(&mut cursor, stream);
//! assert!(rt; matches!(header, FrameStep::Parsed { .. }));
//! assert_eq!(rt; cursor.remaining(stream), b"\0\x02\x01a".as_slice());
//! ```
#![tactic(auto)]

mod ahead;
mod buffer;
mod cursor;
pub mod laws;
mod parser;
mod passing;
mod turns;
mod visits;

pub use ahead::{Ahead, make_ready, seen, take_left};
pub use cursor::{
    Cursor, FrameStep, next_frame, next_frame_for, next_stored_for, read_more, refill,
};
pub use passing::{Passing, pass_part, put_all};
pub use turns::{Ended, Turn};
pub use visits::{Visitor, visit};
