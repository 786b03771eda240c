//! The text of a capture, made in memory by the steps of `giopcap`.

ghost use Rattle.std.specs.Prelude.{IfSome};
ghost use Rattle.giop_capture_text.specs.Dumps.{IsDumpOf};

use crate::memory::{Memory, Nobody};
use arrayvec::ArrayVec;
use giop_capture::{Arguments, Beginning, Ending, perform_capture};
use giop_run::Lines;
use std::alloc::Global;

/// A dump with the built-in types and without arguments begins when nothing was written before.
pub struct Empty;

impl Beginning for Empty {
    ghost use Rattle.std.specs.Prelude.{◌≡◌, []};
    ghost use Rattle.giop_capture_text.specs.Dumps.{plain_setup};

    ghost begins = { λ S written. (S ≡ plain_setup) × (written ≡ []) };
}

/// How the dump of a capture ended, and its text. If anything fails, there is none.
pub fn dump_in_memory(alloc: Global, capture: &[u8]) -> Option<(Ending, Vec<u8>)>
    ensures { IfSome result (λ dump. IsDumpOf capture.now dump.0 dump.1.items) }
{
    let asked = Arguments {
        ports: ArrayVec::new(),
        signatures: ArrayVec::new(),
        connections: 1_024,
        messages: 16,
        calls: 128,
        pool: 16_384,
        first_stream: 1,
        capture: None,
    };
    let memory = Memory {
        alloc,
        octets: capture,
    };
    let Ok(out) = Lines::new(alloc, Vec::new(alloc)) else {
        return None;
    };
    let Ok((ending, lines)) = perform_capture::<_, _, _, Empty>(&memory, asked, out, Nobody) else {
        return None;
    };
    match Vec::from_slice(alloc, lines.writer().as_slice()) {
        Ok(text) => Some((ending, text)),
        Err(_) => None,
    }
}
