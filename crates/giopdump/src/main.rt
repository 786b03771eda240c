//! Dumps one direction of a GIOP connection: octets in, lines on standard output.
#![tactic(auto)]

use giop_program::program;
use std::process::ExitCode;

fn main(rt: HostRuntime) -> ExitCode {
    let status = program(&rt);
    ExitCode::from(status)
}
