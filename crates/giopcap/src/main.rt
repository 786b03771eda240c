//! Dumps the GIOP conversations of a capture: octets in, lines on standard output.
#![tactic(auto)]

use giop_capture::program;
use std::process::ExitCode;

fn main(rt: HostRuntime) -> ExitCode {
    let status = program(&rt);
    ExitCode::from(status)
}
