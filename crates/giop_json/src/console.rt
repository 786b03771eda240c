//! The program: the words of its command line, its steps, and its status.

ghost use Rattle.std.specs.Prelude.{◌≤◌};

use crate::arguments::Arguments;
use giop_json_messages::{Calls, Messages};
use giop_run::{command_line_words, print_clap_error, print_fault};
use giop_views::run_view;

/// The program's name, with which each message on standard error begins.
const PROGRAM: &str = "giop-json";

/// Runs the program, and returns its status.
pub(crate) fn program(rt: &HostRuntime) -> u8
    ensures { result ≤ 5 }
{
    let words = match command_line_words(rt) {
        Ok(words) => words,
        Err(fault) => return print_fault(rt, PROGRAM, &fault),
    };
    match Arguments::read(rt.alloc(), words.as_slice()) {
        Err(error) => print_clap_error(rt, PROGRAM, &error),
        Ok(asked) => run_asked(rt, asked),
    }
}

/// Takes the steps after the words of the command line. Returns the program's status.
fn run_asked(rt: &HostRuntime, asked: Arguments<'_>) -> u8
    ensures { result ≤ 5 }
{
    if asked.are_calls {
        let calls = Calls::new(rt.alloc(), asked.settings);
        return run_view(rt, PROGRAM, asked.file, calls);
    }
    let messages = Messages::new(rt.alloc(), asked.settings);
    run_view(rt, PROGRAM, asked.file, messages)
}
