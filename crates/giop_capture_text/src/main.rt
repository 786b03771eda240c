//! Dumps a capture from standard input into memory, by the steps of `giopcap` without arguments, and prints what then
//! stands in memory. `perform_capture` says exactly what it has put only if it is known what its writer held before. Here
//! that is known. So `dump_in_memory` says that the text in memory is the text of the capture, and nothing else, and whether
//! the capture has a fault.
//!
//! If there is a text, the status is 0 or 1, as `giopcap` would have it.
#![tactic(auto)]

mod dumping;
mod memory;

use dumping::dump_in_memory;
use giop_capture::Ending;
use giop_run::{Inputs, read_to_one_over};
use std::process::ExitCode;

/// The greatest size of the capture, in octets.
const MOST: u64 = 16_777_216;

fn main(rt: HostRuntime) -> ExitCode {
    let Ok(capture) = read_to_one_over(rt.alloc(), &mut rt.standard_input(), MOST) else {
        return ExitCode::from(4);
    };
    let Some((ending, octets)) = dump_in_memory(rt.alloc(), &capture) else {
        return ExitCode::from(4);
    };
    let Ok(text) = str::from_utf8(&octets) else {
        return ExitCode::from(3);
    };
    match print!(rt; "{text}") {
        Ok(()) => ExitCode::from(u8::from(ending != Ending::Whole)),
        Err(_) => ExitCode::from(4),
    }
}
