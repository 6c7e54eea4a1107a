//! The frames of a stream: its header, its sections and bodies as windows, and its end. No item of a section is read.
//!
//! `StoredParser::next` returns the next frame. `wasm_parser` turns frames into payloads, which have readers of items.
//!
//! ```rattle
//! let mut parser = StoredParser::new(0);
//! let header = parser.next(b"\0asm\x01\0\0\0", false);
//! assert!(rt; matches!(header, NextFrame::Parsed { consumed: 8, .. }));
//! ```
#![tactic(auto)]

mod advance;
mod frame;
mod kind;
pub mod laws;
mod name;
mod next;
mod parser;
mod parts;
mod skipping;
mod stored;

pub use frame::Frame;
pub use kind::FrameKind;
pub use next::{NextFrame, Outcome, Plain};
pub use skipping::{PartHead, SkippedPart};
pub use stored::StoredParser;
