//! The line of each event of a stream, as short texts, and the listing of a stream.
//!
//! ```rattle
//! let mut input = SliceSource::new(b"\0asm\x01\0\0\0\0\x02\x01a");
//! let mut output = BoundedSink::new(alloc, 1000)?;
//! assert_eq!(rt; list(alloc, &mut input, &mut output, 4096)?, Ended::End);
//! assert_eq!(rt; output.written(), b"version 0 8 1 module\ncustom 10 12 12\nend 12\n".as_slice());
//! ```
#![tactic(auto)]

mod lines;
mod listing;

pub use lines::{FaultLine, FrameLine, SkippedLine, encoding_name};
// For events that are not frames.
pub use lines::{
    write_body, write_code, write_counted, write_custom, write_data_count, write_end, write_start,
    write_unknown, write_version,
};
pub use listing::{list, list_in};
