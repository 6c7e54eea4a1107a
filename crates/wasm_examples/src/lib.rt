//! Callers of the readers, as users write them, each proved.
#![tactic(auto)]

mod careless;
mod compiling;
mod customs;
mod imports;
mod linking;
mod outside;
mod printing;
mod streams;
mod visits;
mod walks;

pub use careless::{AnyByte, Nothing};
pub use compiling::{Compiler, Compiling, compile_pieces};
pub use customs::{CustomSize, custom_sizes};
pub use imports::imports_text;
pub use linking::{Fixup, Linked, linked_of};
pub use outside::{Misfit, Outside, Spans, outside_of};
pub use printing::function_names;
pub use streams::{end_of, start_of};
pub use visits::{Visitor, visit_pieces};
pub use walks::{check, check_in, imports_memory, total};
