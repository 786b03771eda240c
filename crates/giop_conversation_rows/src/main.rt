//! Reads conversations: both directions of connections, in the order in which their octets came, with the calls that each
//! direction has outstanding. It names those whose lines aren't as they must be.
//!
//! `stdin` has sets of conversations, with a line `=` between two sets. Empty lines separate the parts of a set. The first
//! part of a set is the signature file of its conversations, and each other part is a conversation. A conversation has its
//! name; there may be a line `calls` with how many calls of each direction may be outstanding (128 without it); then come
//! the pieces, a line `end`, and the closing lines of the first direction and then of the second.
//!
//! A piece is a line `piece`, with `>` for the first direction or `<` for the second and with octets in hexadecimal text,
//! and then the lines that the octets complete. If a line `each I..J` stands before the pieces, the pieces up to a line
//! `then` come once for each number from I to J. The number stands in place of each `#`: in 8 hexadecimal digits in octets,
//! and in decimal digits in lines. So the replies after any number of calls are tried.
//!
//! Each conversation is read with its pieces as they are, and with its pieces cut into smaller ones. The lines that it must
//! have come from a reference that is independent of the dumper.
//!
//! The output has a line for each conversation, and at the end how many conversations there were and how many of them
//! differ. For one that differs it tells the piece, and the first line of the piece that differs. The status is 0 if there
//! are conversations and none of them differs.
#![tactic(auto)]

mod connection;
mod conversation;
mod reading;
mod side;
mod telling;

use giop_run::{Inputs, read_to_one_over};
use giop_testing::Tally;
use std::process::ExitCode;
use telling::tell;

/// The greatest number of octets of all conversations.
const MOST: u64 = 16_777_216;

fn main(rt: HostRuntime) -> ExitCode {
    let Ok(octets) = read_to_one_over(rt.alloc(), &mut rt.standard_input(), MOST) else {
        return ExitCode::from(4);
    };
    let Ok(text) = str::from_utf8(&octets) else {
        return ExitCode::from(3);
    };
    let mut tally = Tally::new();
    let told = tell(&rt, text, &mut tally);
    tally.status(told)
}
