//! Trees of lines: text in which lines are indented under others, or one JSON object on each line.
//!
//! `Tree` is the trait of what writes such a dump from fields. `TextLines` writes text and `Objects` writes JSON to a sink.
//! `Output` is a sink with the bytes that wait for it. `ItemNames` has the names of items.
//!
//! No call of a tree returns an error. A tree stops when its sink or an allocation fails, and `stopped` returns why.
#![tactic(auto)]

mod escapes;
mod gathered;
mod known_names;
mod lines;
mod members;
mod numbers;
mod objects;
mod output;
mod padded;
mod plain;
mod rows;
mod short;
mod tree;

pub use gathered::Gathered;
pub use known_names::ItemNames;
pub use lines::TextLines;
pub use numbers::{Space, write_item};
pub use objects::Objects;
pub use output::Output;
pub use tree::{Start, Style, Tree, Value};
