//! Edits of the custom sections of a stream: sections that are removed, replaced or appended, and stripping.
//!
//! * `edit` returns an edited copy of a stream, and `edit_stream` writes one of a stream that need not fit in memory.
//! * `strip` and `strip_stream` do the same with the edit that keeps a choice of custom sections.
//!
//! No item of a section is read. Calls that allocate take an allocator and return `OutOfMemory`, at offset 0, or
//! `ListError::Memory` when an allocation fails.
//!
//! ```rattle
//! let stripped = strip(alloc, b"\0asm\x01\0\0\0\0\x02\x01a\x01\x01\0", false)?;
//! assert_eq!(rt; stripped.as_slice(), b"\0asm\x01\0\0\0\x01\x01\0".as_slice());
//! ```
#![tactic(auto)]

mod editing;
mod edits;
mod encoding;
mod fates;
pub mod laws;
mod streaming;
mod stripping;

pub use editing::{edit, edit_to, edited_len};
pub use edits::{Edit, all_fit};
pub use encoding::{NewSection, encode};
pub use fates::{Keep, stays};
pub use streaming::{edit_stream, strip_stream};
pub use stripping::{strip, strip_in_place, strip_to_front};
