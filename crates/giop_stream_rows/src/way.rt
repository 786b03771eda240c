//! The ways in which a stream is dumped.

use super::faulty::Octets;
use giop_print::Out;
use giop_run::{Ending, Piecewise, Reading, RunFault, Source, run};
use giop_stream::{Engine, Stop, Totals};
use std::fmt;

/// A way of dumping a stream.
#[derive(Clone, Copy)]
pub enum Way {
    /// A single read gives all octets.
    Whole,
    /// The first octets, this number of them, are fed, and the others are read by a run.
    Cut(usize),
    /// Each read gives this number of octets.
    Pieces(usize),
    /// The out takes one octet at each put.
    Narrow,
    /// The stream ends after this number of octets.
    Early(usize),
    /// A read fails after this number of octets.
    Broken(usize),
    /// A put fails after this number of puts.
    Failing(usize),
}

impl Way {
    /// The ways that depend on a number of octets, for this number.
    pub fn at(at: usize) -> [Way; 2] {
        [Way::Cut(at), Way::Pieces(at.saturating_add(1))]
    }

    /// The greatest number of octets that the out takes at each put, and the number of puts before it fails.
    pub fn puts(self) -> (usize, usize) {
        match self {
            Way::Narrow => (1, usize::MAX),
            Way::Failing(puts) => (usize::MAX, puts),
            _ => (usize::MAX, usize::MAX),
        }
    }

    /// Dumps a stream.
    pub fn dump<O: Out>(
        self,
        engine: Box<Engine>,
        stream: &[u8],
        out: &mut O,
    ) -> Result<Totals, RunFault> {
        match self {
            Way::Whole | Way::Narrow => read(engine, Octets::whole(stream), out),
            Way::Cut(at) => cut(engine, stream, at, out),
            Way::Pieces(step) => pieces(engine, stream, step, out),
            Way::Early(at) => read(engine, Octets::whole(front(stream, at)), out),
            Way::Broken(at) => read(engine, Octets::broken(front(stream, at)), out),
            Way::Failing(_) => failing(engine, stream, out),
        }
    }
}

impl fmt::Display for Way {
    fn fmt<W: fmt::Write>(&self, f: &mut fmt::Formatter<W>) -> fmt::Result {
        match self {
            Way::Whole => write!(f, "whole"),
            Way::Cut(at) => write!(f, "cut at {at}"),
            Way::Pieces(step) => write!(f, "in pieces of {step}"),
            Way::Narrow => write!(f, "an octet at each put"),
            Way::Early(at) => write!(f, "ended at {at}"),
            Way::Broken(at) => write!(f, "a read failed at {at}"),
            Way::Failing(puts) => write!(f, "a put failed behind {puts}"),
        }
    }
}

/// The first octets of a stream, at most `at` of them.
fn front(stream: &[u8], at: usize) -> &[u8] {
    stream.split_at(at.min(stream.len())).0
}

/// Runs a source to the stream's end. Returns the totals.
fn finished<S: Source, O: Out>(
    source: &mut S,
    out: &mut O,
    engine: Box<Engine>,
) -> Result<Totals, RunFault> {
    match run(source, out, Box::into_inner(engine), Ending::Finish) {
        Ok(report) => Ok(report.totals),
        Err(fault) => Err(fault),
    }
}

fn read<O: Out>(engine: Box<Engine>, octets: Octets, out: &mut O) -> Result<Totals, RunFault> {
    finished(&mut Reading::new(octets), out, engine)
}

fn cut<O: Out>(
    engine: Box<Engine>,
    stream: &[u8],
    at: usize,
    out: &mut O,
) -> Result<Totals, RunFault> {
    let mut engine = engine;
    let (front, rest) = stream.split_at(at.min(stream.len()));
    match engine.feed(front, out) {
        Ok(_) => {}
        Err(Stop::Out(_)) => return Err(RunFault::Out),
        Err(Stop::Failed) => return Err(RunFault::Failed),
    }
    let mut source = Piecewise::new(rest, 4096);
    finished(&mut source, out, engine)
}

fn pieces<O: Out>(
    engine: Box<Engine>,
    stream: &[u8],
    step: usize,
    out: &mut O,
) -> Result<Totals, RunFault> {
    let mut source = Piecewise::new(stream, step.max(1));
    finished(&mut source, out, engine)
}

/// Feeds a stream. If a put fails, the engine has failed; then it is fed once more and finished, and both must fail.
fn failing<O: Out>(engine: Box<Engine>, stream: &[u8], out: &mut O) -> Result<Totals, RunFault> {
    let mut engine = engine;
    match engine.feed(stream, out) {
        Ok(_) => {}
        Err(_) => match engine.feed(stream, out) {
            Err(Stop::Failed) => {}
            Err(Stop::Out(_)) => return Err(RunFault::Out),
            Ok(_) => return Err(RunFault::Read),
        },
    }
    let mut nothing = Piecewise::new(&[], 1);
    finished(&mut nothing, out, engine)
}
