//! How the engine of a row is made, or loaded. It is in a box: a function that holds an engine itself takes seconds to prove.

ghost use Rattle.giop_stream.specs.EngineHolds.{IsRequestTableOf};

use giop_sig::{Catalogue, Requests};
use giop_stream::{Engine, LoadFault, MOST_OPEN};
use std::alloc::Global;
use std::io;

/// Makes a new engine for this number of open messages, 1 to 4,096.
pub fn engine_for<'a>(
    alloc: Global,
    catalogue: &'a Catalogue,
    requests: &'a Requests,
    most: u32,
) -> io::Result<Box<Engine<'a>>>
    requires of { IsRequestTableOf catalogue.now requests.now }
{
    let most = most.max(1).min(MOST_OPEN);
    let made = match Engine::new(alloc, catalogue, requests, most) {
        Ok(engine) => Box::new(alloc, engine).ok(),
        Err(_) => None,
    };
    match made {
        Some(engine) => Ok(engine),
        None => Err(io::Error::from(io::ErrorKind::OutOfMemory)),
    }
}

/// Loads an engine.
pub fn loaded<'a>(
    alloc: Global,
    catalogue: &'a Catalogue,
    requests: &'a Requests,
    checkpoint: &[u8],
) -> Result<Box<Engine<'a>>, LoadFault>
    requires of { IsRequestTableOf catalogue.now requests.now }
{
    match Engine::load(alloc, catalogue, requests, checkpoint) {
        Ok(engine) => match Box::new(alloc, engine) {
            Ok(engine) => Ok(engine),
            Err(_) => Err(LoadFault::OutOfMemory),
        },
        Err(why) => Err(why),
    }
}
