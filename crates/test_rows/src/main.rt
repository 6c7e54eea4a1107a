//! Reads the rows of tables, each by the reader that it names, and writes the tables with the result of each row under it.
//!
//! A row has the name of a reader, features, an offset, and bytes in hexadecimal. Features are `all`, `none`, `memory64` and
//! `compact`, or two of these joined by `+`. The offset is that of the first byte, in decimal. Bytes are pairs of digits with blanks
//! between them, and `00*31` is a byte that comes 31 times. Empty lines and lines that begin with `#` are comments.
//!
//! The status is 0; 2 where a line is not a row, which a message on standard error names; and 3 where the input, the output or an
//! allocation of this program failed, which it says there too.
#![tactic(auto)]

mod customs;
mod pieces;
mod readers;
mod readings;
mod rows;
mod streams;
mod subsections;
mod values;

use readers::run;
use rows::Failed;
use std::process::ExitCode;
use wasm_feed::{ListError, WriteSink};
use wasm_io::{complain, give_up};

fn main(rt: HostRuntime) -> ExitCode {
    match run(&rt) {
        Ok(()) => ExitCode::SUCCESS,
        Err((line, Failed::Row(why))) => ExitCode::from(refuse(&rt, line, why)),
        Err((_, Failed::System(why))) => {
            ExitCode::from(give_up(&mut WriteSink::new(rt.stderr()), why))
        }
    }
}

// Prints which line is not a row and why, and returns exit status 2.
fn refuse(rt: &HostRuntime, line: u64, why: &str) -> u8 {
    let mut errors = WriteSink::new(rt.stderr());
    match format!(in rt.alloc(); "line {line}: {why}\n") {
        Ok(message) => {
            complain(&mut errors, message.as_bytes());
            2
        }
        Err(_) => give_up(&mut errors, ListError::Memory),
    }
}
