//! A user's own `Out` for the engine, which counts lines. docs/LIBRARY.md shows it.

ghost use Rattle.giop_stream.specs.EngineHolds.{IsRequestTableOf};

use super::expecting::expect_none;
use super::known::{self, Asked, BUILT_IN, engine};
use giop_print::{Out, OutFault};
use giop_sig::{Catalogue, Requests};
use giop_stream::{Engine, Stop};
use std::alloc::Global;

/// Counts the lines that are put to it, and keeps no text of them.
#[derive(Drop)]
struct LineCount {
    lines: u64,
    puts: u64,
}

impl Out for LineCount {
    ghost use Rattle.std.specs.Prelude.{None};

    ghost log = { λ c. record { written = None; puts = c.puts; failures = 0 } };

    #[tactic(auto, unfolding(giop_print::specs::Output::saturating_next))]
    fn put(&mut self, octets: &[u8]) -> Result<usize, OutFault> {
        self.puts = self.puts.saturating_add(1);
        self.lines = self.lines.saturating_add(line_feeds(octets));
        Ok(octets.len())
    }
}

/// How many lines end in these octets.
fn line_feeds(octets: &[u8]) -> u64 {
    octets.iter().filter(|octet| **octet == b'\n').count() as u64
}

/// How many lines an engine writes for the end of a stream, and for the stream, which is fed in
/// pieces of 1,024 octets.
fn lines_of(engine: Engine<'_>, stream: &[u8]) -> Result<u64, Stop> {
    let mut out = LineCount { lines: 0, puts: 0 };
    let mut engine = engine;
    for piece in stream.chunks(1024) {
        engine.feed(piece, &mut out)?;
    }
    engine.finish(&mut out)?;
    Ok(out.lines)
}

/// A header of CloseConnection in GIOP 1.0, big endian, without a payload; and the front of another
/// header.
const CLOSED: &[u8] = b"GIOP\x01\x00\x00\x05\x00\x00\x00\x00GIOP";

/// What differs in the number of lines. The text is empty if nothing differs.
pub fn differs(alloc: Global, catalogue: &Catalogue, requests: &Requests) -> &'static str
    requires { IsRequestTableOf catalogue.now requests.now }
{
    match engine(alloc, catalogue, requests, 16) {
        Some(engine) => {
            if lines_of(Box::into_inner(engine), CLOSED) == Ok(4) {
                ""
            } else {
                "the lines"
            }
        }
        None => "the memory",
    }
}

#[test]
fn lines_are_counted(rt: HostRuntime) {
    expect_none(&rt, known::differs(rt.alloc(), BUILT_IN, Asked::OwnOut));
}
