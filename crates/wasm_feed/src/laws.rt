//! Laws of feeders, listings, edits and encodings.
pub use wasm_edits::laws::{
    editing_composes, names_are_shortest, names_read_back, numbers_are_shortest, numbers_read_back,
    sections_read_back, stripping_is_an_edit, stripping_twice_is_once,
};
pub use wasm_streams::laws::{
    copies_of_ends_are_the_same, equal_ends_are_the_same, feeders_go_along,
    feeders_wait_where_undecided,
};
