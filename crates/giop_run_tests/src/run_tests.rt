//! Runs whose reads are interrupted or fail, engines that failed, and outs with too little room.

ghost use Rattle.giop_stream.specs.EngineHolds.{IsRequestTableOf};

use super::close::{CLOSE, CLOSED, COMPLETED, built_in, engine};
use super::fakes::Reader;
use crate::expecting::expect_same_at;
use giop_print::Sheet;
use giop_run::{Ending, Reading, RunFault, run};
use giop_sig::{Catalogue, Requests};
use giop_stream::{Engine, Stop, Totals};
use giop_testing::front;
use std::cell::Cell;
use std::process::Abort;

/// A run of a CloseConnection: how many reads are interrupted, which one fails, how much room the lines have, and how it ends.
#[derive(Clone, Copy)]
struct Setup {
    interrupts: usize,
    fails_at: usize,
    room: usize,
    ending: Ending,
}

/// Why it fails, if it does, after how many reads, and how many octets of lines there are.
#[derive(Clone, Copy)]
struct Wanted {
    fault: Option<RunFault>,
    reads: usize,
    held: usize,
}

/// What differs of a run; empty if nothing does.
fn run_differs(engine: Option<Box<Engine<'_>>>, setup: Setup, wanted: Wanted) -> &'static str {
    let Some(engine) = engine else {
        return "the memory";
    };
    let mut octets = [0; 84];
    let mut sheet = Sheet::new(&mut octets[..setup.room.min(84)]);
    let reads = Cell::new(0);
    let mut source = Reading::new(Reader {
        left: CLOSE,
        reads: &reads,
        interrupts: setup.interrupts,
        fails_at: setup.fails_at,
    });
    let ran = run(
        &mut source,
        &mut sheet,
        Box::into_inner(engine),
        setup.ending,
    );
    if ran.err() != wanted.fault {
        return "the answer";
    }
    if reads.get() != wanted.reads {
        return "the reads";
    }
    if sheet.held() == front(CLOSED, wanted.held) {
        ""
    } else {
        "the lines"
    }
}

/// Interrupted reads are tried again: 65,536 of them are a failure.
fn each_interrupt(rt: &(impl Abort + AllocGlobal), catalogue: &Catalogue, requests: &Requests)
    requires of { IsRequestTableOf catalogue.now requests.now }
{
    for (interrupts, fault, reads, held) in [
        (0, None, 13, 83),
        (1, None, 14, 83),
        (2, None, 15, 83),
        (65_535, None, 65_548, 83),
        (65_536, Some(RunFault::Read), 65_536, 0),
    ] {
        let setup = Setup {
            interrupts,
            fails_at: 100_000,
            room: 84,
            ending: Ending::Finish,
        };
        let wanted = Wanted { fault, reads, held };
        let engine = engine(rt.alloc(), catalogue, requests);
        expect_same_at(rt, run_differs(engine, setup, wanted), interrupts);
    }
}

/// A read that fails leaves the lines of what was read, and no engine is kept.
fn each_read(rt: &(impl Abort + AllocGlobal), catalogue: &Catalogue, requests: &Requests)
    requires of { IsRequestTableOf catalogue.now requests.now }
{
    for fails_at in 0..13 {
        let setup = Setup {
            interrupts: 0,
            fails_at,
            room: 84,
            ending: Ending::Keep,
        };
        let wanted = Wanted {
            fault: Some(RunFault::Read),
            reads: fails_at.saturating_add(1),
            held: if fails_at == 12 { COMPLETED } else { 0 },
        };
        let engine = engine(rt.alloc(), catalogue, requests);
        expect_same_at(rt, run_differs(engine, setup, wanted), fails_at);
    }
}

/// A sheet keeps what fits, and no engine is kept where a line doesn't. The first two lines have 47 octets, all three 83.
fn each_room(
    rt: &(impl Abort + AllocGlobal),
    catalogue: &Catalogue,
    requests: &Requests,
    ending: Ending,
    size: usize,
)
    requires of { IsRequestTableOf catalogue.now requests.now }
{
    for room in 0..84 {
        let setup = Setup {
            interrupts: 0,
            fails_at: 100,
            room,
            ending,
        };
        let wanted = Wanted {
            fault: if room < size {
                Some(RunFault::Out)
            } else {
                None
            },
            reads: if room < COMPLETED { 12 } else { 13 },
            held: room.min(size),
        };
        let engine = engine(rt.alloc(), catalogue, requests);
        expect_same_at(rt, run_differs(engine, setup, wanted), room);
    }
}

const NO_TOTALS: Totals = Totals {
    messages: 0,
    faults: 0,
    octets: 0,
};

/// What differs where an engine with too little room for its lines is fed, and then fed and run again; empty if nothing does.
fn failed_differs(engine: Option<Box<Engine<'_>>>, room: usize) -> &'static str {
    let Some(mut engine) = engine else {
        return "the memory";
    };
    if !has_failed(&mut engine, room) {
        return "the engine";
    }
    let setup = Setup {
        interrupts: 0,
        fails_at: 100,
        room: 84,
        ending: Ending::Finish,
    };
    let wanted = Wanted {
        fault: Some(RunFault::Failed),
        reads: 0,
        held: 0,
    };
    run_differs(Some(engine), setup, wanted)
}

/// Whether an engine with too little room for its lines fails, and is then fed in vain.
fn has_failed(engine: &mut Engine<'_>, room: usize) -> bool {
    let mut octets = [0; COMPLETED];
    let mut sheet = Sheet::new(&mut octets[..room.min(COMPLETED)]);
    matches!(engine.feed(CLOSE, &mut sheet), Err(Stop::Out(_)))
        && engine.totals() == NO_TOTALS
        && engine.is_failed()
        && matches!(engine.feed(CLOSE, &mut sheet), Err(Stop::Failed))
}

fn each_failed(rt: &(impl Abort + AllocGlobal), catalogue: &Catalogue, requests: &Requests)
    requires of { IsRequestTableOf catalogue.now requests.now }
{
    for room in 0..COMPLETED {
        let engine = engine(rt.alloc(), catalogue, requests);
        expect_same_at(rt, failed_differs(engine, room), room);
    }
}

fn each(rt: &(impl Abort + AllocGlobal), catalogue: &Catalogue) {
    let Ok(requests) = Requests::parse(rt.alloc(), b"", catalogue) else {
        return expect_same_at(rt, "the requests", 0);
    };
    each_interrupt(rt, catalogue, &requests);
    each_read(rt, catalogue, &requests);
    each_room(rt, catalogue, &requests, Ending::Finish, 83);
    each_room(rt, catalogue, &requests, Ending::Keep, COMPLETED);
    each_failed(rt, catalogue, &requests);
}

#[test]
fn a_run_ends_by_its_reads_and_its_room(rt: HostRuntime) {
    match built_in(rt.alloc()) {
        Some(catalogue) => each(&rt, &catalogue),
        None => expect_same_at(&rt, "the types", 0),
    }
}
