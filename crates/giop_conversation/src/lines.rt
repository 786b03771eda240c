//! The lines of a capture in addition to those that giopdump writes of its streams, written to any `Out` (docs/FORMATS.md).
//! A function returns Ok if its whole line was written. Else a put has failed, and a front of the line was written. Times
//! are nanoseconds since 1970-01-01 UTC.

ghost use Rattle.std.specs.Prelude.{◌≡◌, ◌≤◌, ◌+◌, ◌++◌};
ghost use Rattle.giop_print.specs.Output.{Writes};
ghost use Rattle.giop_print.specs.Line.{line_text, line_room};
ghost use Rattle.giop_conversation.specs.Lines.{stream_line, found_text, passed_text, partner_text, time_line, answers_line, raises_line, cause_word, closed_line, capture_fault_line, capture_total_line};

use crate::kept_second::{KeptSecond, put_time};
use crate::times::put_span;
use giop_calls::Call;
use giop_print::{Line, Out, OutFault, numbered_line, put_parts};
use itoa::Buffer;
use tcp_flow::{CloseCause, Start};
use tcp_segment::{Flow, endpoint_text};
use tcp_waiting::Arrival;

/// The sums of a whole capture: its streams, their messages and faults, its packets, its octets up to its fault, and the
/// number of payloads that were looked through and in which no stream begins.
#[derive(Clone, Copy, Debug, PartialEq, Eq)]
pub struct CaptureTotals {
    pub streams: u64,
    pub messages: u64,
    pub faults: u64,
    pub packets: u64,
    pub octets: u64,
    pub others: u64,
}

/// What the line of a stream says in addition to who sends to whom: the time at which the stream begins, the number of the
/// stream of the opposite flow that lives then, and what comes before the stream in its own flow.
#[derive(Clone, Copy, Debug, PartialEq, Eq)]
pub struct Opening {
    pub time: Option<u128>,
    pub partner: Option<u64>,
    pub start: Start,
}

/// Writes the line with which a stream begins: who sends to whom, and what else is known of the beginning.
#[tactic(auto, unfolding(crate::specs::Lines::stream_line))]
pub fn stream_line<O: Out>(out: &mut O, flow: Flow, opening: Opening) -> Result<(), OutFault>
    ensures { Writes result (O.log out.old) (O.log out.new) (stream_line flow opening) }
{
    let mut line = Line::new();
    line.put(b'\n');
    put_found(&mut line, opening.start.is_found);
    put_passed(&mut line, opening.start.passed);
    put_partner(&mut line, opening.partner);
    put_time(&mut line, opening.time);
    line.put_octets(b" at ");
    line.put_octets(endpoint_text(flow.to).as_slice());
    line.put_octets(b" > ");
    line.put_octets(endpoint_text(flow.from).as_slice());
    line.put_octets(b"stream ");
    out.put_line(&mut line)
}

/// Puts ` found` before the text that the line has, if the place of the stream was looked for.
fn put_found(line: &mut Line, is_found: bool)
    requires room { 6 ≤ line_room line.old }
    ensures text { line_text line.new ≡ found_text is_found ++ line_text line.old }
    ensures room { line_room line.old ≤ line_room line.new + 6 }
{
    if is_found {
        line.put_octets(b" found");
    }
}

/// Puts `passed` before the text that the line has, if it isn't 0. It is the number of octets before a stream that are in
/// no stream.
fn put_passed(line: &mut Line, passed: u32)
    requires room { 28 ≤ line_room line.old }
    ensures text { line_text line.new ≡ passed_text passed ++ line_text line.old }
    ensures room { line_room line.old ≤ line_room line.new + 28 }
{
    if passed > 0 {
        line.put_number(u64::from(passed));
        line.put_octets(b" behind ");
    }
}

/// Puts the number of the stream of the opposite flow before the text that the line has, if one lives.
fn put_partner(line: &mut Line, partner: Option<u64>)
    requires room { 27 ≤ line_room line.old }
    ensures text { line_text line.new ≡ partner_text partner ++ line_text line.old }
    ensures room { line_room line.old ≤ line_room line.new + 27 }
{
    match partner {
        Some(stream) => {
            line.put_number(stream);
            line.put_octets(b" with s");
        }
        None => {}
    }
}

/// Writes the line that says when the header of a message was complete, and in which packet of the capture.
pub fn time_line<O: Out>(out: &mut O, message: u64, arrival: Arrival) -> Result<(), OutFault>
    ensures { Writes result (O.log out.old) (O.log out.new) (time_line message arrival) }
{
    let (mut second, mut line) = (KeptSecond::new(), Line::new());
    time_line_by_kept_second(&mut second, &mut line, out, message, &arrival)
}

/// Writes the same line as `time_line`. If the time is in the kept second, the text of that is used. Else the second of the
/// time is kept, unless there is no time, or it is from the year 10000 on.
#[tactic(auto, unfolding(crate::specs::Lines::time_line))]
#[inline(never)]
pub(crate) fn time_line_by_kept_second<O: Out>(
    second: &mut KeptSecond,
    line: &mut Line,
    out: &mut O,
    message: u64,
    arrival: &Arrival,
) -> Result<(), OutFault>
    ensures { Writes result (O.log out.old) (O.log out.new) (time_line message arrival.now) }
{
    line.clear();
    line.put(b'\n');
    line.put_number(arrival.packet);
    line.put_octets(b" packet ");
    second.put_time(line, arrival.time);
    line.put_octets(b" time ");
    numbered_line(out, message, line)
}

/// Writes the line of the call that a Reply answers, and of how long after the call the Reply's header was complete.
#[tactic(auto, unfolding(crate::specs::Lines::answers_line))]
pub fn answers_line<O: Out>(
    out: &mut O,
    message: u64,
    call: &Call,
    time: Option<u128>,
) -> Result<(), OutFault>
    ensures { Writes result (O.log out.old) (O.log out.new) (answers_line message call.now time) }
{
    let mut line = Line::new();
    line.put(b'\n');
    put_span(&mut line, call.time, time);
    line.put_octets(b" after ");
    line.put_octets(call.name.as_slice());
    line.put(b' ');
    line.put_number(call.message);
    line.put_octets(b" m");
    line.put_number(call.stream);
    line.put_octets(b" answers s");
    numbered_line(out, message, &mut line)
}

/// Writes the line of the exception that a Reply raises, by its repository id.
#[tactic(auto, unfolding(crate::specs::Lines::raises_line))]
pub fn raises_line<O: Out>(out: &mut O, message: u64, repository: &[u8]) -> Result<(), OutFault>
    ensures { Writes result (O.log out.old) (O.log out.new) (raises_line message repository.now) }
{
    if repository.len() > SHORT {
        return long_raises_line(out, message, repository);
    }
    let mut line = Line::new();
    line.put(b'\n');
    line.put_octets(repository);
    line.put_octets(b" raises ");
    numbered_line(out, message, &mut line)
}

/// The greatest length of a repository id that is put together with its line. Most are shorter.
const SHORT: usize = 128;

/// Writes the same line as `raises_line`, for a repository id of any length, in parts.
#[tactic(auto, unfolding(crate::specs::Lines::raises_line))]
#[inline(never)]
fn long_raises_line<O: Out>(out: &mut O, message: u64, repository: &[u8]) -> Result<(), OutFault>
    ensures { Writes result (O.log out.old) (O.log out.new) (raises_line message repository.now) }
{
    let mut digits = Buffer::new();
    put_parts(
        out,
        &[
            b"m",
            digits.format(message).as_bytes(),
            b" raises ",
            repository,
            b"\n",
        ],
    )
}

/// The word that says why a stream closes.
fn cause_word(cause: CloseCause) -> &'static [u8]
    ensures { result.now ≡ cause_word cause }
{
    match cause {
        CloseCause::Fin => b"fin",
        CloseCause::Reset => b"reset",
        CloseCause::Syn => b"syn",
        CloseCause::Fault => b"fault",
        CloseCause::Gap => b"gap",
        CloseCause::Room => b"room",
        CloseCause::End => b"end",
    }
}

/// Writes the line that says why a stream closes.
#[tactic(auto, unfolding(crate::specs::Lines::closed_line))]
pub fn closed_line<O: Out>(out: &mut O, cause: CloseCause) -> Result<(), OutFault>
    ensures { Writes result (O.log out.old) (O.log out.new) (closed_line cause) }
{
    let mut line = Line::new();
    line.put(b'\n');
    line.put_octets(cause_word(cause));
    line.put_octets(b"closed ");
    out.put_line(&mut line)
}

/// Writes the line of the fault of the capture itself, with the number of its octet, from 1.
#[tactic(auto, unfolding(crate::specs::Lines::capture_fault_line))]
pub fn capture_fault_line<O: Out>(out: &mut O, word: &str, at: u64) -> Result<(), OutFault>
    ensures { Writes result (O.log out.old) (O.log out.new) (capture_fault_line word.now at) }
{
    let mut digits = Buffer::new();
    put_parts(
        out,
        &[
            b"capture fault ",
            word.as_bytes(),
            b" at ",
            digits.format(at).as_bytes(),
            b"\n",
        ],
    )
}

/// Writes the last line of a capture.
#[tactic(auto, unfolding(crate::specs::Lines::capture_total_line))]
pub fn capture_total_line<O: Out>(out: &mut O, totals: CaptureTotals) -> Result<(), OutFault>
    ensures { Writes result (O.log out.old) (O.log out.new)
        (capture_total_line totals) }
{
    let mut streams = Buffer::new();
    let mut messages = Buffer::new();
    let mut faults = Buffer::new();
    let mut packets = Buffer::new();
    let mut octets = Buffer::new();
    let mut others = Buffer::new();
    put_parts(
        out,
        &[
            b"total streams ",
            streams.format(totals.streams).as_bytes(),
            b" messages ",
            messages.format(totals.messages).as_bytes(),
            b" faults ",
            faults.format(totals.faults).as_bytes(),
            b" packets ",
            packets.format(totals.packets).as_bytes(),
            b" octets ",
            octets.format(totals.octets).as_bytes(),
            b" other ",
            others.format(totals.others).as_bytes(),
            b"\n",
        ],
    )
}
