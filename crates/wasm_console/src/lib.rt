//! What the programs share: their arguments, messages, and the end of a run, and stripping an input that is read once.
#![tactic(auto)]

mod arguments;
mod common;
mod stripping;

pub use arguments::{Given, words_given};
pub use common::{PIECE, finish, read_buffer, say, status_of, write_parts};
pub use stripping::{read_all, report_fault, strip_input};
