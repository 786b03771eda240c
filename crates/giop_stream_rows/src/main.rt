//! Dumps streams whose lines are known, each in several ways, and loads checkpoints. It names those that give other lines
//! or another status.
//!
//! `stdin` has sets of rows, with a line `=` between two sets. Empty lines separate the parts of a set. The first part of a
//! set is the files of its rows: a signature file, or none, then a line `requests` and a request list. In the list `I..J
//! NAME` stands for a line for each id from I to J. Each other part is a row. A row has its name; `status` with 0 or 1; it
//! may have a line `open` with the number of messages that may be open (16 without it), a line `early`, and a line
//! `checkpoints`; then come the octets of its stream in hexadecimal text, in any number of lines, a line `lines`, and the
//! lines of its dump. The rows that are named `generated` are random, and their lines come from a reference that is
//! independent of the dumper. So do the lines after `early` and `checkpoints`, and the rows whose names end with how many
//! messages may be open: these are rows of 16 open messages that have other lines if 1, 2 or 4096 may be open.
//!
//! `early` gives what is written if the stream ends after 0, 1, 2, .. of its octets, in words `L:M.F`: the first L lines of
//! the dump, and a closing with M messages and F faults. What follows in a word means: `t` that there is a truncated line;
//! `u` and numbers with commas the messages that are unfinished; `@` and a number how many octets are counted, if the
//! stream has stopped before its end; and `*` and a number for how many ends, one octet after another, the word holds.
//!
//! `checkpoints` has the FNV-1a hash, of 32 bits, of the fixed parts of the checkpoints after 0, 1, 2, .. octets, and then
//! the number of octets of each checkpoint, with `*` and a number as above. Each checkpoint is loaded, and the loaded
//! engine reads on.
//!
//! A row of a checkpoint has these parts in place of a stream: there may be a line `front` with the octets that were read
//! before the checkpoint was saved; then comes a line `checkpoint` and its octets; and, if it isn't refused, there may be
//! lines `complement`, and there are a line `behind` and the octets that follow in the stream. The checkpoint is loaded,
//! and gives the lines of these octets and of the stream's end. If it is refused, the status is 3, and the lines are
//! `refused` and the word. With `front`, an engine that has read those octets saves the same checkpoint, for as many open
//! messages as `open` says, and so does the engine that is loaded.
//!
//! The lines `complement A..B` name all indices from 0 on, in order. The words after that say what the checkpoint leads to
//! if one octet, from index A to before index B, is complemented: `refused` and a word; or `lines` if an engine is loaded,
//! reads what follows and ends. There may be several, with ` or ` between two. The reference gives them too: it knows the
//! fixed part and the lengths of the records, and doesn't say which octets of a record are refused.
//!
//! The output has a line for each row, and at the end how many rows there were and how many of them differ. For a row that
//! differs it tells the way in which the row was dumped, and the first line that differs. The status is 0 if there are rows
//! and none of them differs.
#![tactic(auto)]

mod checkpoints;
mod difference;
mod early;
mod engine;
mod faulty;
mod kept;
mod loading;
mod resuming;
mod row;
mod saving;
mod tally;
mod telling;
mod trying;
mod way;

use giop_run::{Inputs, read_to_one_over};
use std::process::ExitCode;
use tally::Tally;
use telling::tell;

/// The greatest number of octets of all rows.
const MOST: u64 = 16_777_216;

fn main(rt: HostRuntime) -> ExitCode {
    let Ok(octets) = read_to_one_over(rt.alloc(), &mut rt.standard_input(), MOST) else {
        return ExitCode::from(4);
    };
    let Ok(text) = str::from_utf8(&octets) else {
        return ExitCode::from(3);
    };
    let mut tally = Tally::new();
    match tell(&rt, text, &mut tally) {
        Ok(()) if tally.is_clean() => ExitCode::from(0),
        Ok(()) => ExitCode::from(1),
        Err(_) => ExitCode::from(4),
    }
}
