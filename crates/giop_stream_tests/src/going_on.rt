//! A stream that is read from its checkpoint to its end.

ghost use Rattle.giop_stream.specs.EngineHolds.{IsRequestTableOf};

use super::expecting::expect_none;
use super::known::{self, Asked, DECLARED, STREAM, engine};
use giop_print::Sheet;
use giop_sig::{Catalogue, Requests};
use giop_stream::{Engine, LoadFault, Totals, go_on, has_checkpoint};
use std::alloc::Global;

/// The Fragments that end the two Requests of the stream. The first Request has two, and the
/// Fragment of the second comes between them.
const REST: &[u8] = b"GIOP\x01\x02\x02\x07\x00\x00\x00\x06\x00\x00\x00\x05\x05\x06\
GIOP\x01\x02\x00\x07\x00\x00\x00\x04\x00\x00\x00\x06\
GIOP\x01\x02\x00\x07\x00\x00\x00\x06\x00\x00\x00\x05\x07\x08";

/// The lines that are written of these Fragments and of the end.
const LINES: &[u8] = b"m3 start 1.2 big Fragment size 6 more
m3 header.request_id ulong 5
m3 continues m1
m4 start 1.2 big Fragment size 4
m4 header.request_id ulong 6
m4 continues m2
m2 end
m5 start 1.2 big Fragment size 6
m5 header.request_id ulong 5
m5 continues m1
m1 body.n ulonglong 72623859790382856
m1 end
total messages 5 faults 0 octets 152
";

/// The totals at the end of the stream.
const TOTALS: Totals = Totals {
    messages: 5,
    faults: 0,
    octets: 152,
};

/// What differs if the stream is read on from its checkpoint. The text is empty if nothing
/// differs.
fn rest_differs(
    alloc: Global,
    catalogue: &Catalogue,
    requests: &Requests,
    checkpoint: &[u8],
) -> &'static str
    requires { IsRequestTableOf catalogue.now requests.now }
{
    let mut room = [0; 2048];
    let mut out = Sheet::new(&mut room);
    if go_on(alloc, catalogue, requests, checkpoint, REST, &mut out) != Ok(Ok(TOTALS)) {
        return "the totals";
    }
    if out.held() == LINES { "" } else { "the lines" }
}

/// What differs if the stream is read on from a checkpoint without its last octet.
fn short_differs(
    alloc: Global,
    catalogue: &Catalogue,
    requests: &Requests,
    checkpoint: &[u8],
) -> &'static str
    requires { IsRequestTableOf catalogue.now requests.now }
{
    let Some((_, short)) = checkpoint.split_last() else {
        return "the octets";
    };
    let mut room = [0; 2048];
    let mut out = Sheet::new(&mut room);
    if go_on(alloc, catalogue, requests, short, REST, &mut out) != Err(LoadFault::Length) {
        return "the refusal";
    }
    if out.held().is_empty() {
        ""
    } else {
        "the lines of a refusal"
    }
}

/// What differs if the stream is read, saved and read on. The text is empty if nothing differs.
pub fn differs(alloc: Global, catalogue: &Catalogue, requests: &Requests) -> &'static str
    requires { IsRequestTableOf catalogue.now requests.now }
{
    let Some(mut engine) = engine(alloc, catalogue, requests, 16) else {
        return "the memory";
    };
    let mut octets = [0; 2048];
    let mut saved = Sheet::new(&mut octets);
    if !is_saved(&mut engine, &mut saved) {
        return "the save";
    }
    let differs = rest_differs(alloc, catalogue, requests, saved.held());
    if differs.is_empty() {
        short_differs(alloc, catalogue, requests, saved.held())
    } else {
        differs
    }
}

/// Whether an engine reads the stream and is saved.
fn is_saved(engine: &mut Engine<'_>, saved: &mut Sheet) -> bool {
    let mut room = [0; 2048];
    let mut sheet = Sheet::new(&mut room);
    let is_fed = engine.feed(STREAM, &mut sheet).is_ok();
    has_checkpoint(engine);
    is_fed && engine.save(saved).is_ok()
}

#[test]
fn a_stream_is_read_on_from_its_checkpoint_to_its_end(rt: HostRuntime) {
    expect_none(&rt, known::differs(rt.alloc(), DECLARED, Asked::GoingOn));
}
