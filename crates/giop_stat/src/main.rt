//! Counts the calls in the lines of a dump. It reads lines, and writes tables or one JSON object to standard output.
#![tactic(auto)]

mod arguments;
mod console;

use std::process::ExitCode;

fn main(rt: HostRuntime) -> ExitCode {
    let status = console::program(&rt);
    ExitCode::from(status)
}
