//! How a row is dumped with a save and a load after each of its octets, and how its checkpoints are compared.

ghost use Rattle.giop_stream.specs.EngineHolds.{IsRequestTableOf};

use super::checkpoints::{Checkpoints, NO_OCTETS, hashed};
use super::difference::Difference;
use super::engine::{engine_for, loaded};
use super::row::Row;
use super::trying::{differs, is_as_told, malformed};
use giop_print::Sheet;
use giop_sig::{Catalogue, Requests};
use giop_stream::Engine;
use std::alloc::Global;
use std::io;

/// The name of this way of dumping.
const WAY: &str = "saved and loaded behind each octet";

/// How many octets a checkpoint's fixed part has.
const FIXED: usize = 96;

/// If a row gives its checkpoints: saves it after each of its octets, and loads what was saved.
pub fn is_saved(
    rt: &HostRuntime,
    catalogue: &Catalogue,
    requests: &Requests,
    row: &Row,
    stream: &[u8],
) -> io::Result<bool>
    requires of { IsRequestTableOf catalogue.now requests.now }
{
    if row.checkpoints.is_empty() {
        return Ok(true);
    }
    match Checkpoints::read(rt.alloc(), row.checkpoints) {
        Some(told) if told.lengths.len() == stream.len() + 1 => {
            is_saved_as_told(rt, catalogue, requests, row, stream, &told)
        }
        _ => malformed(rt, row.name, row.checkpoints),
    }
}

/// Saves and loads a row after each of its octets, up to the first checkpoint that differs. The difference is printed.
fn is_saved_as_told(
    rt: &HostRuntime,
    catalogue: &Catalogue,
    requests: &Requests,
    row: &Row,
    stream: &[u8],
    told: &Checkpoints,
) -> io::Result<bool>
    requires of { IsRequestTableOf catalogue.now requests.now }
{
    let mut room = [0; 16_384];
    let mut sheet = Sheet::new(&mut room);
    let engine = engine_for(rt.alloc(), catalogue, requests, row.most)?;
    let most = most(row.most, catalogue.depth());
    match saved(
        rt.alloc(),
        engine,
        most,
        catalogue,
        requests,
        stream,
        told,
        &mut sheet,
    ) {
        Ok(engine) => {
            let status = ended(engine, &mut sheet);
            is_as_told(rt, row, &WAY, sheet.held(), status)
        }
        Err(found) => differs(rt, row.name, &WAY, &found),
    }
}

/// Feeds a stream octet by octet to a new engine. The engine is saved and loaded before each octet and at the end. Returns
/// the last engine; or the first checkpoint that has another length, has more than `most` octets, or is refused; or that
/// the hash of the fixed parts differs.
fn saved<'a>(
    alloc: Global,
    engine: Box<Engine<'a>>,
    most: usize,
    catalogue: &'a Catalogue,
    requests: &'a Requests,
    stream: &[u8],
    told: &Checkpoints,
    sheet: &mut Sheet,
) -> Result<Box<Engine<'a>>, Difference<'static, 'static>>
    requires of { IsRequestTableOf catalogue.now requests.now }
{
    let mut octets = [0; 14_240];
    let mut engine = engine;
    let mut hash = NO_OCTETS;
    for (at, wanted) in told.lengths.iter().enumerate() {
        let wanted = *wanted;
        let mut saved = Sheet::new(&mut octets);
        let _saved = engine.save(&mut saved);
        let got = saved.held().len();
        if got != wanted || got > most {
            return Err(Difference::Length { at, wanted, got });
        }
        hash = hashed(hash, front(saved.held(), FIXED));
        engine = match loaded(alloc, catalogue, requests, saved.held()) {
            Ok(engine) => engine,
            Err(why) => return Err(Difference::Refused { at, why }),
        };
        let _fed = engine.feed(octet(stream, at), sheet);
    }
    if hash == told.hash {
        return Ok(engine);
    }
    Err(Difference::FixedParts {
        wanted: told.hash,
        got: hash,
    })
}

/// The greatest length of a checkpoint with types of this depth, if this number of messages may be open.
fn most(open: u32, depth: u8) -> usize {
    let records = (open as usize).min(4096) + 1;
    FIXED + records * (256 + 24 * usize::from(depth))
}

/// The first octets, at most `length` of them.
fn front(octets: &[u8], length: usize) -> &[u8] {
    octets.split_at(length.min(octets.len())).0
}

/// The single octet after this number of others. It is empty at the end of the stream.
fn octet(stream: &[u8], at: usize) -> &[u8] {
    let (_, left) = stream.split_at(at.min(stream.len()));
    left.split_at(left.len().min(1)).0
}

/// Finishes an engine. Returns the status of the program.
pub fn ended(engine: Box<Engine>, sheet: &mut Sheet) -> u8 {
    match Box::into_inner(engine).finish(sheet) {
        Ok(totals) if totals.faults == 0 => 0,
        Ok(_) => 1,
        Err(_) => 4,
    }
}
