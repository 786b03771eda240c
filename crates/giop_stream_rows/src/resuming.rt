//! How the checkpoint of a row is loaded and read on from, saved again, and loaded with each of its octets complemented.

ghost use Rattle.giop_stream.specs.EngineHolds.{IsRequestTableOf};

use super::difference::Difference;
use super::engine::{engine_for, loaded};
use super::kept::{Kept, complement};
use super::row::{Row, octets};
use super::saving::ended;
use super::trying::{differs, is_as_told, malformed};
use giop_print::Sheet;
use giop_sig::{Catalogue, Requests};
use giop_stream::{Engine, LoadFault};
use std::alloc::Global;
use std::io;

/// The status of the program if a checkpoint is refused.
pub const REFUSED: u8 = 3;

/// The names of the ways in which a checkpoint is tried.
const LOADED: &str = "loaded";

const SAVED: &str = "saved";

const SAVED_AGAIN: &str = "loaded and saved";

const DAMAGED: &str = "damaged";

/// Tries a checkpoint in each way, up to the first way in which it differs. The difference is printed.
pub fn is_resumed(
    rt: &HostRuntime,
    catalogue: &Catalogue,
    requests: &Requests,
    row: &Row,
    kept: &Kept,
) -> io::Result<bool>
    requires of { IsRequestTableOf catalogue.now requests.now }
{
    match octets(rt.alloc(), kept.behind) {
        Some(behind) => is_followed(rt, catalogue, requests, row, kept, &behind),
        None => malformed(rt, row.name, kept.behind),
    }
}

/// Tries a checkpoint, with these octets after it.
fn is_followed(
    rt: &HostRuntime,
    catalogue: &Catalogue,
    requests: &Requests,
    row: &Row,
    kept: &Kept,
    behind: &[u8],
) -> io::Result<bool>
    requires of { IsRequestTableOf catalogue.now requests.now }
{
    let Some(mut checkpoint) = octets(rt.alloc(), kept.checkpoint) else {
        return malformed(rt, row.name, kept.checkpoint);
    };
    Ok(
        is_loaded(rt, catalogue, requests, row, &checkpoint, behind)?
            && is_saved_of(rt, catalogue, requests, row, kept.front, &checkpoint)?
            && is_damaged(
                rt,
                catalogue,
                requests,
                row,
                kept.damaged,
                &mut checkpoint,
                behind,
            )?,
    )
}

/// Loads the checkpoint and reads on. Compares the lines and the status, or the refusal.
fn is_loaded(
    rt: &HostRuntime,
    catalogue: &Catalogue,
    requests: &Requests,
    row: &Row,
    checkpoint: &[u8],
    behind: &[u8],
) -> io::Result<bool>
    requires of { IsRequestTableOf catalogue.now requests.now }
{
    let mut room = [0; 16_384];
    let mut sheet = Sheet::new(&mut room);
    match resumed(
        rt.alloc(),
        catalogue,
        requests,
        checkpoint,
        behind,
        &mut sheet,
    ) {
        Ok(status) => is_as_told(rt, row, &LOADED, sheet.held(), status),
        Err(why) => is_as_told(rt, row, &LOADED, refusal(why).as_bytes(), REFUSED),
    }
}

/// Loads a checkpoint, and reads these octets and the stream's end. Returns the status.
fn resumed(
    alloc: Global,
    catalogue: &Catalogue,
    requests: &Requests,
    checkpoint: &[u8],
    behind: &[u8],
    sheet: &mut Sheet,
) -> Result<u8, LoadFault>
    requires of { IsRequestTableOf catalogue.now requests.now }
{
    let mut engine = loaded(alloc, catalogue, requests, checkpoint)?;
    let _fed = engine.feed(behind, sheet);
    Ok(ended(engine, sheet))
}

/// The line for a checkpoint that is refused.
fn refusal(why: LoadFault) -> &'static str {
    match why {
        LoadFault::Magic => "refused magic\n",
        LoadFault::Version => "refused version\n",
        LoadFault::Catalogue => "refused catalogue\n",
        LoadFault::Length => "refused length\n",
        LoadFault::State => "refused state\n",
        LoadFault::OutOfMemory => "refused out-of-memory\n",
    }
}

/// If the row says what was read before: saves an engine that has read these octets, and the engine that is loaded.
fn is_saved_of(
    rt: &HostRuntime,
    catalogue: &Catalogue,
    requests: &Requests,
    row: &Row,
    front: &str,
    checkpoint: &[u8],
) -> io::Result<bool>
    requires of { IsRequestTableOf catalogue.now requests.now }
{
    if front.is_empty() {
        return Ok(true);
    }
    let first = match octets(rt.alloc(), front) {
        Some(front) => {
            let engine = engine_for(rt.alloc(), catalogue, requests, row.most)?;
            is_saved_behind(rt, row, engine, &front, checkpoint)?
        }
        None => return malformed(rt, row.name, front),
    };
    if !first {
        return Ok(false);
    }
    match loaded(rt.alloc(), catalogue, requests, checkpoint) {
        Ok(engine) => is_saved(rt, row, SAVED_AGAIN, &engine, checkpoint),
        Err(why) => is_as_told(rt, row, &SAVED_AGAIN, refusal(why).as_bytes(), REFUSED),
    }
}

/// Feeds an engine and saves it.
fn is_saved_behind(
    rt: &HostRuntime,
    row: &Row,
    engine: Box<Engine>,
    front: &[u8],
    checkpoint: &[u8],
) -> io::Result<bool> {
    let mut engine = engine;
    let mut room = [0; 16_384];
    let _fed = engine.feed(front, &mut Sheet::new(&mut room));
    is_saved(rt, row, SAVED, &engine, checkpoint)
}

/// Saves an engine, and compares what it saves with the checkpoint.
fn is_saved(
    rt: &HostRuntime,
    row: &Row,
    way: &str,
    engine: &Engine,
    checkpoint: &[u8],
) -> io::Result<bool> {
    let mut room = [0; 14_240];
    let mut sheet = Sheet::new(&mut room);
    let _saved = engine.save(&mut sheet);
    match first_other(checkpoint, sheet.held()) {
        None => Ok(true),
        Some(at) => differs(rt, row.name, &way, &Difference::Saved { at }),
    }
}

/// The first index at which two texts differ, or at which one of them ends.
fn first_other(wanted: &[u8], got: &[u8]) -> Option<usize> {
    match wanted
        .iter()
        .zip(got)
        .position(|(wanted, got)| wanted != got)
    {
        Some(at) => Some(at),
        None if wanted.len() == got.len() => None,
        None => Some(wanted.len().min(got.len())),
    }
}

/// Complements octets of the checkpoint, as the row says.
fn is_damaged(
    rt: &HostRuntime,
    catalogue: &Catalogue,
    requests: &Requests,
    row: &Row,
    damaged: &str,
    checkpoint: &mut [u8],
    behind: &[u8],
) -> io::Result<bool>
    requires of { IsRequestTableOf catalogue.now requests.now }
{
    if damaged.is_empty() {
        return Ok(true);
    }
    let mut next = 0usize;
    for text in damaged.split("\ncomplement ") {
        let Some((first, last, wanted)) = complement(text) else {
            return malformed(rt, row.name, text);
        };
        if first != next || last > checkpoint.len() {
            return malformed(rt, row.name, text);
        }
        if !is_damaged_at(
            rt, catalogue, requests, row, first, last, wanted, checkpoint, behind,
        )? {
            return Ok(false);
        }
        next = last;
    }
    if next != checkpoint.len() {
        return malformed(rt, row.name, damaged);
    }
    Ok(true)
}

/// Complements the octets at these indices, one after another. Each may lead to the same.
fn is_damaged_at(
    rt: &HostRuntime,
    catalogue: &Catalogue,
    requests: &Requests,
    row: &Row,
    first: usize,
    last: usize,
    wanted: &str,
    checkpoint: &mut [u8],
    behind: &[u8],
) -> io::Result<bool>
    requires of { IsRequestTableOf catalogue.now requests.now }
{
    for at in first..last.min(checkpoint.len()) {
        checkpoint[at] = !checkpoint[at];
        let got = outcome(rt.alloc(), catalogue, requests, checkpoint, behind);
        checkpoint[at] = !checkpoint[at];
        if !wanted.split(" or ").any(|wanted| wanted == got) {
            return differs(
                rt,
                row.name,
                &DAMAGED,
                &Difference::Outcome { at, wanted, got },
            );
        }
    }
    Ok(true)
}

/// What a checkpoint leads to: its refusal, or `lines` if an engine reads on to the end, or `failed` if it doesn't.
fn outcome(
    alloc: Global,
    catalogue: &Catalogue,
    requests: &Requests,
    checkpoint: &[u8],
    behind: &[u8],
) -> &'static str
    requires of { IsRequestTableOf catalogue.now requests.now }
{
    let mut room = [0; 16_384];
    let mut sheet = Sheet::new(&mut room);
    match resumed(alloc, catalogue, requests, checkpoint, behind, &mut sheet) {
        Ok(4) => "failed",
        Ok(_) => "lines",
        Err(why) => refusal(why).trim_end(),
    }
}
