//! The commands of the program `pulleynavy`, over any files and devices: `list`, `dump`, `check`, `strip`, `extract`,
//! `add`, `producers` and `help`.
#![tactic(auto)]

mod add;
mod arguments;
mod around;
mod check;
mod commands;
mod dump;
mod extract;
mod files;
mod help;
mod host;
mod messages;
mod options;
mod producers;
mod reasons;
mod replacement;
mod rewriting;
mod runner;
mod streams;
mod strip;
mod system;

pub use check::check_as;
pub use commands::{run, run_host, run_program};
pub use dump::{Colored, Format, Titles, dump_as};
pub use messages::Causes;
pub use reasons::Cause;
pub use runner::Runner;
pub use streams::{Messages, Noting};
pub use system::System;
