//! The items of a stream, as what walks over them sees them, and the fields of each.
//!
//! A `Walker` takes the items, one after the other; `walk_section` and `walk_custom` report those of a section to it.
//! Each tree of `wasm_output` is a walker: it shows items. `Faults` writes the malformed ones, and `Offsets`
//! records where items begin.
//!
//! `Show` writes the fields of an item on a tree: an item takes a line, and the items of its lists the lines under it. A
//! fault of an item is a line in its place. No call returns an error: a walker stops if an allocation or its sink fails.
#![tactic(auto)]

mod coredumps;
mod custom;
mod expressions;
mod faults;
mod flags;
mod items;
mod linking;
mod lists;
mod names;
mod offsets;
mod show;
mod symbols;
mod types;
mod walker;

pub use custom::{show_custom, walk_custom};
pub use faults::Faults;
pub use items::walk_elements;
pub use lists::{
    Found, Items, placed, show_fault, show_items, show_list, walk_items, walk_section,
};
pub use offsets::Offsets;
pub use show::{Show, Text};
pub use walker::{Walker, Within};
