//! The dump of a stream: a line for each event, and under it a line for each item, with its number. Each line can be a
//! JSON object. `Counts` numbers items in their index spaces.
#![tactic(auto)]

mod collected;
mod counts;
mod events;
mod hidden;
pub mod laws;
mod lines;
mod linked;
mod numbered;
mod stream;
mod walks;

pub use collected::collect_names;
pub use counts::{Counts, import_space};
pub use events::{Only, Shown};
pub use lines::write_payload;
pub use stream::{dump, show_payload, walk_payload};
pub use walks::walk;
