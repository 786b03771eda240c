//! The program: the words of its command line, its steps, and its status.

ghost use Rattle.std.specs.Prelude.{◌≤◌};

use crate::arguments::{ArgumentError, Arguments};
use giop_run::{ProgramError, ShownName, command_line_words, print_clap_error, print_fault};
use giop_stat_counts::Stat;
use giop_views::run_view;

/// The program's name, with which each message on standard error begins.
const PROGRAM: &str = "giop-stat";

/// The status if the arguments can't be read.
const USAGE: u8 = 2;

/// Runs the program, and returns its status.
pub(crate) fn program(rt: &HostRuntime) -> u8
    ensures { result ≤ 5 }
{
    let words = match command_line_words(rt) {
        Ok(words) => words,
        Err(fault) => return print_fault(rt, PROGRAM, &fault),
    };
    match Arguments::read(rt.alloc(), words.as_slice()) {
        Err(ArgumentError::Words(error)) => print_clap_error(rt, PROGRAM, &error),
        Err(ArgumentError::By(word)) => print_bad_grouping(rt, word),
        Err(ArgumentError::Time(word)) => print_bad_time(rt, word),
        Ok(asked) => run_asked(rt, asked),
    }
}

/// Prints that a word names nothing to count by. Returns the program's status.
fn print_bad_grouping(rt: &HostRuntime, word: &str) -> u8
    ensures { result ≤ 5 }
{
    let _ = eprintln!(rt;
        "{PROGRAM}: '{}' is no path as body.command, and none of client, server and object",
        ShownName(word)
    );
    USAGE
}

/// Prints that a word is no time. Returns the program's status.
fn print_bad_time(rt: &HostRuntime, word: &str) -> u8
    ensures { result ≤ 5 }
{
    let _ = eprintln!(rt;
        "{PROGRAM}: '{}' is no time as 2026-11-23T08:13:25.58 or 08:13:25",
        ShownName(word)
    );
    USAGE
}

/// Takes the steps after the words of the command line. Returns the program's status.
fn run_asked(rt: &HostRuntime, asked: Arguments<'_>) -> u8
    ensures { result ≤ 5 }
{
    let Ok(stat) = Stat::new(rt.alloc(), asked.settings) else {
        return print_fault(rt, PROGRAM, &ProgramError::OutOfMemory);
    };
    run_view(rt, PROGRAM, asked.file, stat)
}
