//! Hands the segments of captures to connections, and names the captures of which a listener is told anything else than it has
//! to be.
//!
//! `stdin` has rows with empty lines between them. A row is its name, perhaps a line `setting`, the segments of a capture in
//! the order in which they came, a line `told`, and what happens by them, up to the end of the capture, a line each.
//!
//! `setting` has, with commas between them, `connections` and how many may be known at once (256 where it is missing), `blocks`
//! and how many blocks of 1,024 octets what waits may take (64), and `ports` and those where streams begin (all).
//!
//! A segment is who sends, `>` and to whom, and after that, with commas between them, `seq` and its number, `ack` and the number
//! that it acknowledges, `syn`, `fin` and `rst` for its flags, and `time` and that of its packet in nanoseconds, and `octets` and
//! its payload in hexadecimal text, where it has these.
//!
//! What happens to the flow of an id: `opens` and between whom it goes, `begins` and the number of a stream's first octet, with
//! `passed` and how many octets before it are in no stream, where there are any, and `found` where its place was looked for,
//! `delivers` and the next octets of the stream, `closes` and why. And `passes` and octets that were looked through, in which no
//! stream begins. The reader of a stream is at a fault at its 13th octet where what it is given begins with `ff`. A flow's id is
//! twice the slot of its connection, and 1 more where the greater endpoint sends; of the free slots the one that was given back
//! last is taken first, and the greatest where none was.
//!
//! Each row is told to a listener that goes on to the end, and to one that fails at the first thing that happens, at the second,
//! and so on: it is told what is in front of that, and nothing more. (Of octets in which no stream begins it can't say that it
//! fails: it says so of what happens next.) What has to happen is from a reference that is independent of
//! the code; the rows that are named `generated` are random.
//!
//! The output has a line for each row, and at the end how many rows and listeners there were, and how many rows differ. For one that
//! differs it has the listener, and the first line of it that differs. The status is 0 where there are rows and none differs.
#![tactic(auto)]

mod endpoint;
mod row;
mod running;
mod setting;
mod step;
mod teller;
mod telling;

use giop_testing::Tally;
use std::io;
use std::process::ExitCode;
use telling::tell;

fn main(rt: HostRuntime) -> ExitCode {
    let Ok(text) = io::read_to_string(rt.alloc(), rt.stdin()) else {
        return ExitCode::from(4);
    };
    let mut tally = Tally::new();
    let told = tell(&rt, &text, &mut tally);
    tally.status(told)
}
