//! The types with which the tests read streams, the front of a stream, and the engines that read.

ghost use Rattle.std.specs.Prelude.{◌≤◌};
ghost use Rattle.giop_stream.specs.Rules.{most_open};
ghost use Rattle.giop_stream.specs.EngineHolds.{IsRequestTableOf};

use super::{due, going_on, limits, own_out, saved};
use giop_sig::{Catalogue, Requests};
use giop_stream::Engine;
use std::alloc::Global;

/// The operations of the stream.
pub const DECLARED: &[u8] =
    b"signatures 1;\noperation void big(in ulonglong n);\noperation void nop();\n";

/// Two Requests that Fragments follow: 5 for `big`, with the first half of its number, and 6 for
/// `nop`.
pub const STREAM: &[u8] =
    b"GIOP\x01\x02\x02\x00\x00\x00\x00\x28\x00\x00\x00\x05\x03\x00\x00\x00\x00\x00\x00\x00\
\x00\x00\x00\x01A\x00\x00\x00\x00\x00\x00\x04big\x00\x00\x00\x00\x00\x00\x00\x00\x00\x01\x02\x03\x04\
GIOP\x01\x02\x02\x00\x00\x00\x00\x24\x00\x00\x00\x06\x03\x00\x00\x00\x00\x00\x00\x00\
\x00\x00\x00\x01A\x00\x00\x00\x00\x00\x00\x04nop\x00\x00\x00\x00\x00\x00\x00\x00\x00";

/// A signature file that declares nothing.
pub const BUILT_IN: &[u8] = b"signatures 1;\n";

/// What a test asks.
#[derive(Clone, Copy)]
pub enum Asked {
    Stops,
    GoingOn,
    Limits,
    OwnOut,
    FailedSave,
    Saves,
}

/// What differs in a test that reads streams with these types and no requests, or nothing. A function that holds a catalogue
/// or an engine itself, and not in a box, takes seconds to prove.
pub fn differs(alloc: Global, types: &[u8], asked: Asked) -> &'static str {
    match Catalogue::parse(alloc, types) {
        Ok(catalogue) => match Box::new(alloc, catalogue) {
            Ok(catalogue) => known_differs(alloc, &catalogue, asked),
            Err(_) => "the memory",
        },
        Err(_) => "the types",
    }
}

fn known_differs(alloc: Global, catalogue: &Catalogue, asked: Asked) -> &'static str {
    let Ok(requests) = Requests::parse(alloc, b"", catalogue) else {
        return "the requests";
    };
    match asked {
        Asked::Stops => due::differs(alloc, catalogue, &requests),
        Asked::GoingOn => going_on::differs(alloc, catalogue, &requests),
        Asked::Limits => limits::differs(alloc, catalogue, &requests),
        Asked::OwnOut => own_out::differs(alloc, catalogue, &requests),
        Asked::FailedSave => saved::failed_differs(alloc, catalogue, &requests),
        Asked::Saves => saved::differs(alloc, catalogue, &requests),
    }
}

/// An engine in which this many messages may be open.
pub fn engine<'a>(
    alloc: Global,
    catalogue: &'a Catalogue,
    requests: &'a Requests,
    most: u32,
) -> Option<Box<Engine<'a>>>
    requires of { IsRequestTableOf catalogue.now requests.now }
    requires range { (1 ≤ most) × (most ≤ most_open) }
{
    match Engine::new(alloc, catalogue, requests, most) {
        Ok(engine) => Box::new(alloc, engine).ok(),
        Err(_) => None,
    }
}
