//! What the tests have in common: the types by which streams are read, and a CloseConnection with its lines.

ghost use Rattle.giop_stream.specs.EngineHolds.{IsRequestTableOf};

use giop_sig::{Catalogue, Requests};
use giop_stream::Engine;
use std::alloc::Global;

/// The built-in types. A function that holds a catalogue or an engine itself, and not in a box, takes seconds to prove.
pub fn built_in(alloc: Global) -> Option<Box<Catalogue>> {
    match Catalogue::builtin(alloc) {
        Ok(catalogue) => Box::new(alloc, catalogue).ok(),
        Err(_) => None,
    }
}

/// A new engine, for at most 16 open messages.
pub fn engine<'a>(
    alloc: Global,
    catalogue: &'a Catalogue,
    requests: &'a Requests,
) -> Option<Box<Engine<'a>>>
    requires { IsRequestTableOf catalogue.now requests.now }
{
    match Engine::new(alloc, catalogue, requests, 16) {
        Ok(engine) => Box::new(alloc, engine).ok(),
        Err(_) => None,
    }
}

/// A CloseConnection alone.
pub const CLOSE: &[u8] = b"GIOP\x01\x00\x00\x05\x00\x00\x00\x00";

/// Its lines.
pub const CLOSED: &[u8] = b"m1 start 1.0 big CloseConnection size 0\n\
m1 end\n\
total messages 1 faults 0 octets 12\n";

/// How many octets its lines before the closing have.
pub const COMPLETED: usize = 47;
