//! Lists, shows, checks and strips WebAssembly binaries.
#![tactic(auto)]

use std::process::ExitCode;
use wasm_commands::run_host;

fn main(rt: HostRuntime) -> ExitCode {
    run_host(rt)
}
