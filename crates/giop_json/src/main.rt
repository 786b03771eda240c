//! Writes the lines of a dump as JSON, with an object in a line for each message. It reads lines, and writes objects to
//! standard output.
#![tactic(auto)]

mod arguments;
mod console;

use std::process::ExitCode;

fn main(rt: HostRuntime) -> ExitCode {
    let status = console::program(&rt);
    ExitCode::from(status)
}
