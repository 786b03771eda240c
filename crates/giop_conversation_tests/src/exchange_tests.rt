//! A call in one direction of a connection, and its reply in the other.

use crate::expecting::expect;
use crate::known::declared;
use giop_conversation::{Answering, Exchange, answers_are_known};
use giop_message::Correspondent;
use giop_sig::{Catalogue, OpId};
use std::process::Abort;
use tcp_waiting::Arrival;

const PING: &[u8] = b"ping";

/// What happens in a connection.
#[derive(Clone, Copy)]
enum Step {
    /// From now on a packet of this time is read, in nanoseconds since 1970-01-01 UTC, in the stream of this number.
    Packet(u64, u128),
    /// A Request for `ping`: its number in its stream, its id, and whether it expects a reply.
    Call(u64, u32, bool),
    /// A Reply: its number in its stream, and its id.
    Answer(u64, u32),
    /// From now on the other direction is read.
    Turn,
    /// The calls of the stream are forgotten.
    Forget,
    /// What the last Reply answers is forgotten.
    ForgetReply,
}

/// A step, and what is known after it: whether a Reply with the id 9 has the types of `ping`, the number of the last Reply,
/// and whether that answers the call 9. No Reply with the id 10 has a type.
type Row = (&'static str, Step, bool, u64, bool);

/// A Reply answers the call of the other direction.
static ANSWERED: [Row; 7] = [
    ("a stream is read", Step::Packet(7, 5), false, 0, false),
    ("call 9", Step::Call(3, 9, true), false, 0, false),
    (
        "call 10, without a reply",
        Step::Call(4, 10, false),
        false,
        0,
        false,
    ),
    ("the other direction", Step::Turn, true, 0, false),
    (
        "the other stream is read",
        Step::Packet(8, 6),
        true,
        0,
        false,
    ),
    ("a reply", Step::Answer(2, 9), false, 2, true),
    ("the reply is told", Step::ForgetReply, false, 2, false),
];

/// Calls that are forgotten have no answer.
static FORGOTTEN: [Row; 4] = [
    ("a call", Step::Call(3, 9, true), false, 0, false),
    ("it is forgotten", Step::Forget, false, 0, false),
    ("its other direction", Step::Turn, false, 0, false),
    ("a reply to no call", Step::Answer(2, 9), false, 2, false),
];

fn take(exchange: &mut Exchange<'_>, step: Step) {
    match step {
        Step::Packet(stream, time) => {
            let arrival = Arrival {
                time: Some(time),
                packet: 1,
            };
            exchange.note_packet(stream, arrival);
        }
        Step::Call(number, id, expects_reply) => {
            exchange.on_call(number, id, Some(PING), Some(OpId(0)), expects_reply);
        }
        Step::Answer(number, id) => exchange.on_answer(number, id),
        Step::Turn => exchange.swap_directions(),
        Step::Forget => exchange.forget_own_calls(),
        Step::ForgetReply => exchange.forget_reply(),
    }
}

/// Whether the second Reply answers the call 9: it is the third message of stream 7, and came at the time 5.
fn is_answer(answering: &Answering) -> bool {
    let call = &answering.call;
    answering.message == 2
        && call.name.as_slice() == PING
        && call.stream == 7
        && call.message == 3
        && call.time == Some(5)
}

/// Whether the last Reply answers what it should.
fn answers(exchange: &Exchange<'_>, is_answered: bool) -> bool {
    match exchange.answering() {
        Some(answering) => is_answered && is_answer(answering),
        None => !is_answered,
    }
}

/// Whether Replies with the ids 9 and 10 have the types that they should.
fn types(exchange: &Exchange<'_>, is_typed: bool) -> bool {
    let want = if is_typed { Some(OpId(0)) } else { None };
    exchange.operation(9) == want && exchange.operation(10).is_none()
}

fn knows(exchange: &Exchange<'_>, is_typed: bool, replied: u64, is_answered: bool) -> bool {
    types(exchange, is_typed)
        && exchange.replied() == replied
        && exchange.is_due() == is_answered
        && answers(exchange, is_answered)
}

fn expect_rows(rt: &impl Abort, exchange: &mut Exchange<'_>, rows: &[Row]) {
    for (name, step, is_typed, replied, is_answered) in rows {
        take(exchange, *step);
        let is_wanted = knows(exchange, *is_typed, *replied, *is_answered);
        expect(rt, is_wanted, name);
    }
}

fn expect_exchange(rt: &(impl Abort + AllocGlobal), catalogue: &Catalogue, rows: &[Row]) {
    match Exchange::new(rt.alloc(), catalogue, 2) {
        Ok(mut exchange) => expect_rows(rt, &mut exchange, rows),
        Err(_) => expect(rt, false, "the exchange"),
    }
}

#[test]
fn a_reply_answers_the_call_of_the_other_direction(rt: HostRuntime) {
    match declared(rt.alloc(), b"signatures 1; operation void ping();") {
        Some(catalogue) => {
            expect_exchange(&rt, &catalogue, &ANSWERED);
            expect_exchange(&rt, &catalogue, &FORGOTTEN);
        }
        None => expect(&rt, false, "the signature file"),
    }
}

#[test]
fn laws_can_be_called(_rt: HostRuntime) {
    answers_are_known();
}
