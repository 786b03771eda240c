//! Saves that fail: the save of an engine that has failed, and saves to an out that has less room
//! than the checkpoint needs.

ghost use Rattle.giop_stream.specs.EngineHolds.{IsRequestTableOf};

use super::expecting::expect_none;
use super::known::{self, Asked, DECLARED, STREAM, engine};
use giop_print::Sheet;
use giop_sig::{Catalogue, Requests};
use giop_stream::{Engine, Stop};
use std::alloc::Global;

/// How many octets the checkpoint of the stream has.
const LENGTH: usize = 656;

/// A header of CloseConnection in GIOP 1.0, big endian, without a payload. Its line has more than
/// 20 octets.
const CLOSED: &[u8] = b"GIOP\x01\x00\x00\x05\x00\x00\x00\x00";

/// What differs if an engine is saved after its out had no room. The text is empty if nothing
/// differs.
pub fn failed_differs(alloc: Global, catalogue: &Catalogue, requests: &Requests) -> &'static str
    requires { IsRequestTableOf catalogue.now requests.now }
{
    let Some(mut engine) = engine(alloc, catalogue, requests, 16) else {
        return "the memory";
    };
    let mut room = [0; 20];
    if is_fed(&mut engine, CLOSED, &mut room) {
        return "the feed";
    }
    if saves_nothing(&engine) {
        ""
    } else {
        "the save"
    }
}

/// Whether an engine reads octets and has room for their lines.
fn is_fed(engine: &mut Engine<'_>, octets: &[u8], room: &mut [u8]) -> bool {
    engine.feed(octets, &mut Sheet::new(room)).is_ok()
}

fn saves_nothing(engine: &Engine) -> bool {
    let mut octets = [0; 96];
    let mut out = Sheet::new(&mut octets);
    engine.save(&mut out) == Err(Stop::Failed) && out.held().is_empty()
}

#[test]
fn a_failed_engine_saves_nothing(rt: HostRuntime) {
    expect_none(&rt, known::differs(rt.alloc(), DECLARED, Asked::FailedSave));
}

/// What differs in a save to an out with only this much room, and in a save after it. The text is
/// empty if nothing differs.
fn stopped_differs(engine: &Engine, whole: &[u8], room: usize) -> &'static str {
    let mut octets = [0; 2048];
    let mut out = Sheet::new(&mut octets[..room.min(2048)]);
    if !matches!(engine.save(&mut out), Err(Stop::Out(_))) {
        return "the answer";
    }
    if out.held().len() != room || !whole.starts_with(out.held()) {
        return "the octets";
    }
    if is_as_before(engine, whole) {
        ""
    } else {
        "the engine"
    }
}

/// Whether an engine hasn't failed, and this is its checkpoint.
fn is_as_before(engine: &Engine, whole: &[u8]) -> bool {
    let mut octets = [0; 2048];
    let mut out = Sheet::new(&mut octets);
    !engine.is_failed() && engine.save(&mut out).is_ok() && out.held() == whole
}

/// What differs in saves to outs that each have less room than the checkpoint needs. The text is
/// empty if nothing differs.
fn stops_differ(engine: &Engine) -> &'static str {
    let mut octets = [0; 2048];
    let mut out = Sheet::new(&mut octets);
    if engine.save(&mut out) != Ok(LENGTH as u64) {
        return "the length";
    }
    for room in 0..LENGTH {
        let differs = stopped_differs(engine, out.held(), room);
        if !differs.is_empty() {
            return differs;
        }
    }
    ""
}

/// What differs in such saves of an engine that has read the stream. The text is empty if nothing
/// differs.
pub fn differs(alloc: Global, catalogue: &Catalogue, requests: &Requests) -> &'static str
    requires { IsRequestTableOf catalogue.now requests.now }
{
    let Some(mut engine) = engine(alloc, catalogue, requests, 16) else {
        return "the memory";
    };
    let mut room = [0; 2048];
    if !is_fed(&mut engine, STREAM, &mut room) {
        return "the feed";
    }
    stops_differ(&engine)
}

#[test]
fn a_put_that_fails_leaves_the_engine_and_a_front(rt: HostRuntime) {
    expect_none(&rt, known::differs(rt.alloc(), DECLARED, Asked::Saves));
}
