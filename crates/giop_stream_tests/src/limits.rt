//! How many messages may be open at once: from one to 4,096.

ghost use Rattle.giop_stream.specs.EngineHolds.{IsRequestTableOf};

use super::expecting::expect_none;
use super::known::{self, Asked, BUILT_IN, engine};
use giop_print::Sheet;
use giop_sig::{Catalogue, Requests};
use giop_stream::Engine;
use std::alloc::Global;

/// A 1.2 Request with this id, which fragments follow.
fn opener(id: u32) -> [u8; 16] {
    let mut octets = *b"GIOP\x01\x02\x02\x00\x00\x00\x00\x04\x00\x00\x00\x00";
    [octets[12], octets[13], octets[14], octets[15]] = id.to_be_bytes();
    octets
}

/// The lines of the last of 4,097 messages, if 4,096 may be open. The two texts below are the first
/// and the last lines at the end.
const LAST: &[u8] = b"m4097 start 1.2 big Request size 4 more\n\
m4097 header.request_id ulong 4097\n\
m4097 fault too-many-open at 65552\n";

const FIRST_UNFINISHED: &[u8] = b"m1 unfinished\nm2 unfinished\nm3 unfinished\n";

const LAST_UNFINISHED: &[u8] = b"m4095 unfinished\n\
m4096 unfinished\n\
total messages 4097 faults 1 octets 65552\n";

/// Feeds 4,096 openers, and returns whether each of them opens a message.
fn are_open(engine: &mut Engine<'_>) -> bool {
    for id in 1..4097 {
        let mut room = [0; 128];
        let mut sheet = Sheet::new(&mut room);
        if engine.feed(&opener(id), &mut sheet).is_err() {
            return false;
        }
    }
    engine.totals().faults == 0
}

/// Whether the lines of one more message are `LAST`.
fn is_next_faulted(engine: &mut Engine<'_>) -> bool {
    let mut room = [0; 128];
    let mut sheet = Sheet::new(&mut room);
    engine.feed(&opener(4097), &mut sheet).is_ok() && sheet.held() == LAST
}

/// Whether the closing lines begin and end with the two texts above.
fn are_unfinished(engine: Box<Engine<'_>>) -> bool {
    let mut room = [0; 70_000];
    let mut sheet = Sheet::new(&mut room);
    Box::into_inner(engine).finish(&mut sheet).is_ok()
        && sheet.held().len() == 68_567
        && sheet.held().starts_with(FIRST_UNFINISHED)
        && sheet.held().ends_with(LAST_UNFINISHED)
}

/// What differs if an engine in which one message may be open is made, and if 4,097 messages begin.
/// The text is empty if nothing differs.
pub fn differs(alloc: Global, catalogue: &Catalogue, requests: &Requests) -> &'static str
    requires { IsRequestTableOf catalogue.now requests.now }
{
    if !is_made(alloc, catalogue, requests) {
        return "the least engine";
    }
    match engine(alloc, catalogue, requests, 4096) {
        Some(mut engine) => {
            if !are_open(&mut engine) {
                return "the open ones";
            }
            if !is_next_faulted(&mut engine) {
                return "the next";
            }
            if are_unfinished(engine) {
                ""
            } else {
                "the closing lines"
            }
        }
        None => "the memory",
    }
}

/// Whether an engine in which one message may be open can be made, and has read nothing.
fn is_made(alloc: Global, catalogue: &Catalogue, requests: &Requests) -> bool
    requires of { IsRequestTableOf catalogue.now requests.now }
{
    match engine(alloc, catalogue, requests, 1) {
        Some(engine) => engine.totals().octets == 0 && !engine.is_failed(),
        None => false,
    }
}

#[test]
fn where_4096_are_open_the_next_is_faulted(rt: HostRuntime) {
    expect_none(&rt, known::differs(rt.alloc(), BUILT_IN, Asked::Limits));
}
