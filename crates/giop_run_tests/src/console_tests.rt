//! Buffered lines: when they are flushed, and what is written where a flush or a read fails.

ghost use Rattle.giop_stream.specs.EngineHolds.{IsRequestTableOf};

use super::close::{CLOSE, CLOSED, COMPLETED, built_in, engine};
use super::fakes::{Reader, Writer};
use crate::expecting::expect_same_at;
use giop_print::Flush;
use giop_run::{Ending, Lines, Reading, RunFault, dump};
use giop_sig::{Catalogue, Requests};
use giop_stream::Engine;
use std::alloc::Global;
use std::cell::Cell;
use std::io;
use std::io::{ErrorKind, Read};
use std::process::Abort;

/// Dumps what a reader gives up to the stream's end; returns why it fails, if it does.
fn fault_of<R: Read + Drop, O: Flush>(
    reader: R,
    out: &mut O,
    engine: Box<Engine<'_>>,
) -> Option<RunFault> {
    let mut source = Reading::new(reader);
    dump(&mut source, out, Box::into_inner(engine), Ending::Finish).err()
}

/// A reader that gives a whole CloseConnection at its first read, and fails at its second unless so many octets of lines are
/// written by then.
#[derive(Drop)]
struct WatchingReader<'a> {
    reads: usize,
    held: &'a Cell<usize>,
}

impl Read for WatchingReader<'_> {
    fn read(&mut self, into: &mut [u8]) -> io::Result<usize> {
        self.reads = self.reads.saturating_add(1);
        if self.reads == 1 {
            let mut stream = CLOSE;
            return stream.read(into);
        }
        if self.held.get() == COMPLETED {
            Ok(0)
        } else {
            Err(io::Error::from(ErrorKind::Other))
        }
    }
}

/// What differs where the lines are watched; empty if nothing does.
fn watched_differs(alloc: Global, catalogue: &Catalogue, requests: &Requests) -> &'static str
    requires of { IsRequestTableOf catalogue.now requests.now }
{
    let Some(engine) = engine(alloc, catalogue, requests) else {
        return "the memory";
    };
    let held = Cell::new(0);
    let writer = Writer {
        wanted: CLOSED,
        held: &held,
        writes: 0,
        fails_at: 100,
    };
    let Ok(mut lines) = Lines::new(alloc, writer) else {
        return "the memory";
    };
    let reader = WatchingReader {
        reads: 0,
        held: &held,
    };
    if fault_of(reader, &mut lines, engine).is_some() {
        return "the answer";
    }
    if held.get() == CLOSED.len() {
        ""
    } else {
        "the lines"
    }
}

/// Which read and which write fail of a dump by reads of an octet, and why it fails then, after how many reads, with how many
/// octets of lines. Three writes of at most 16 octets flush the first two lines, and three more the closing.
type Row = (usize, usize, Option<RunFault>, usize, usize);

static ROWS: [Row; 20] = [
    (100, 0, Some(RunFault::Out), 12, 0),
    (100, 1, Some(RunFault::Out), 12, 16),
    (100, 2, Some(RunFault::Out), 12, 32),
    (100, 3, Some(RunFault::Out), 13, 47),
    (100, 4, Some(RunFault::Out), 13, 63),
    (100, 5, Some(RunFault::Out), 13, 79),
    (100, 6, None, 13, 83),
    (0, 100, Some(RunFault::Read), 1, 0),
    (1, 100, Some(RunFault::Read), 2, 0),
    (2, 100, Some(RunFault::Read), 3, 0),
    (3, 100, Some(RunFault::Read), 4, 0),
    (4, 100, Some(RunFault::Read), 5, 0),
    (5, 100, Some(RunFault::Read), 6, 0),
    (6, 100, Some(RunFault::Read), 7, 0),
    (7, 100, Some(RunFault::Read), 8, 0),
    (8, 100, Some(RunFault::Read), 9, 0),
    (9, 100, Some(RunFault::Read), 10, 0),
    (10, 100, Some(RunFault::Read), 11, 0),
    (11, 100, Some(RunFault::Read), 12, 0),
    (12, 100, Some(RunFault::Read), 13, COMPLETED),
];

/// What differs where a read or a write fails; empty if nothing does.
fn row_differs(alloc: Global, catalogue: &Catalogue, requests: &Requests, row: &Row) -> &'static str
    requires of { IsRequestTableOf catalogue.now requests.now }
{
    let Some(engine) = engine(alloc, catalogue, requests) else {
        return "the memory";
    };
    let (reads, held) = (Cell::new(0), Cell::new(0));
    let reader = Reader {
        left: CLOSE,
        reads: &reads,
        interrupts: 0,
        fails_at: row.0,
    };
    let writer = Writer {
        wanted: CLOSED,
        held: &held,
        writes: 0,
        fails_at: row.1,
    };
    let Ok(mut lines) = Lines::new(alloc, writer) else {
        return "the memory";
    };
    if fault_of(reader, &mut lines, engine) != row.2 {
        return "the answer";
    }
    if reads.get() != row.3 {
        return "the reads";
    }
    if held.get() == row.4 { "" } else { "the lines" }
}

fn each_row(rt: &(impl Abort + AllocGlobal), catalogue: &Catalogue) {
    let Ok(requests) = Requests::parse(rt.alloc(), b"", catalogue) else {
        return expect_same_at(rt, "the requests", 0);
    };
    let differs = watched_differs(rt.alloc(), catalogue, &requests);
    expect_same_at(rt, differs, 0);
    for row in &ROWS {
        let differs = row_differs(rt.alloc(), catalogue, &requests, row);
        expect_same_at(
            rt,
            differs,
            row.0.saturating_mul(1000).saturating_add(row.1),
        );
    }
}

#[test]
fn lines_are_flushed_before_the_next_read_and_where_one_fails(rt: HostRuntime) {
    match built_in(rt.alloc()) {
        Some(catalogue) => each_row(&rt, &catalogue),
        None => expect_same_at(&rt, "the types", 0),
    }
}
