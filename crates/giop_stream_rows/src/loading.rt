//! How a row is dumped with a single save and load, after each of its octets in turn.

ghost use Rattle.giop_stream.specs.EngineHolds.{IsRequestTableOf};

use super::engine::{engine_for, loaded};
use super::resuming::REFUSED;
use super::row::Row;
use super::saving::ended;
use super::trying::is_as_told;
use giop_print::Sheet;
use giop_sig::{Catalogue, Requests};
use giop_stream::Engine;
use std::alloc::Global;
use std::{fmt, io};

/// The name of the way in which a row is saved and loaded after this number of octets.
#[derive(Clone, Copy)]
struct Loaded(usize);

impl fmt::Display for Loaded {
    fn fmt<W: fmt::Write>(&self, f: &mut fmt::Formatter<W>) -> fmt::Result {
        write!(f, "saved and loaded at {}", self.0)
    }
}

/// Cuts a row in two after each of its octets, and saves and loads it there.
pub fn is_loaded(
    rt: &HostRuntime,
    catalogue: &Catalogue,
    requests: &Requests,
    row: &Row,
    stream: &[u8],
) -> io::Result<bool>
    requires of { IsRequestTableOf catalogue.now requests.now }
{
    for at in 0..stream.len() + 1 {
        if !is_loaded_at(rt, catalogue, requests, row, stream, at)? {
            return Ok(false);
        }
    }
    Ok(true)
}

fn is_loaded_at(
    rt: &HostRuntime,
    catalogue: &Catalogue,
    requests: &Requests,
    row: &Row,
    stream: &[u8],
    at: usize,
) -> io::Result<bool>
    requires of { IsRequestTableOf catalogue.now requests.now }
{
    let mut room = [0; 16_384];
    let mut sheet = Sheet::new(&mut room);
    let engine = engine_for(rt.alloc(), catalogue, requests, row.most)?;
    let status = resumed(
        rt.alloc(),
        engine,
        catalogue,
        requests,
        stream,
        at,
        &mut sheet,
    );
    is_as_told(rt, row, &Loaded(at), sheet.held(), status)
}

/// Feeds this number of octets to a new engine, and the other octets to one that is loaded from its checkpoint. Returns the
/// status.
fn resumed(
    alloc: Global,
    engine: Box<Engine>,
    catalogue: &Catalogue,
    requests: &Requests,
    stream: &[u8],
    at: usize,
    sheet: &mut Sheet,
) -> u8
    requires of { IsRequestTableOf catalogue.now requests.now }
{
    let (first, rest) = stream.split_at(at.min(stream.len()));
    let mut engine = engine;
    let _fed = engine.feed(first, sheet);
    let mut octets = [0; 14_240];
    let mut saved = Sheet::new(&mut octets);
    let _saved = engine.save(&mut saved);
    let Ok(mut engine) = loaded(alloc, catalogue, requests, saved.held()) else {
        return REFUSED;
    };
    let _fed = engine.feed(rest, sheet);
    ended(engine, sheet)
}
