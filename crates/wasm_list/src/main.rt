//! Lists the parts of the WebAssembly stream on standard input, or strips it of its custom sections.
#![tactic(auto)]

mod command;
mod run;
#[cfg(test)]
mod tests;

pub use run::run;
use run::run_program;
use std::env;
use std::process::ExitCode;
use wasm_io::{ReadSource, WriteSink};

fn main(rt: HostRuntime) -> ExitCode {
    let mut input = ReadSource::new(rt.stdin());
    let mut output = WriteSink::new(rt.stdout());
    let mut errors = WriteSink::new(rt.stderr());
    run_program(
        rt.alloc(),
        env::args(&rt),
        &mut input,
        &mut output,
        &mut errors,
    )
}
