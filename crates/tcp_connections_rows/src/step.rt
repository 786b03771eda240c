//! The segments of a row.

ghost use Rattle.std.specs.Prelude.{◌≤◌, length, IfSome};

use crate::endpoint::endpoint_of;
use std::alloc::Global;
use tcp_segment::{Flow, Segment};

/// A segment, with its payload in memory of its own.
#[derive(Drop)]
pub struct Step {
    flow: Flow,
    sequence: u32,
    acknowledgement: Option<u32>,
    syn: bool,
    fin: bool,
    reset: bool,
    payload: Vec<u8>,
    /// The time of its packet in nanoseconds, if it has one.
    pub time: Option<u128>,
}

impl Step {
    /// Parses a segment. `None` for another text, and without memory.
    pub fn read(alloc: Global, line: &str) -> Option<Step> {
        let (flow, parts) = line.split_once(", ")?;
        let mut step = Step {
            flow: flow_of(flow)?,
            sequence: 0,
            acknowledgement: None,
            syn: false,
            fin: false,
            reset: false,
            payload: Vec::new(alloc),
            time: None,
        };
        for part in parts.split(", ") {
            step.set(alloc, part)?;
        }
        Some(step)
    }

    /// Parses a part of it.
    fn set(&mut self, alloc: Global, part: &str) -> Option<()> {
        let (name, value) = part.split_once(' ').unwrap_or((part, ""));
        match name {
            "seq" => self.sequence = value.parse().ok()?,
            "ack" => self.acknowledgement = Some(value.parse().ok()?),
            "syn" => self.syn = true,
            "fin" => self.fin = true,
            "rst" => self.reset = true,
            "time" => self.time = Some(value.parse().ok()?),
            "octets" => self.payload = hex::decode(alloc, value).ok()?,
            _ => return None,
        }
        Some(())
    }

    /// The segment. `None` where its payload is longer than a packet may be.
    pub fn segment(&self) -> Option<Segment<'_>>
        ensures { IfSome result (λ s. length s.payload.now ≤ 262_144) }
    {
        if self.payload.len() > 262_144 {
            return None;
        }
        Some(Segment {
            flow: self.flow,
            sequence: self.sequence,
            acknowledgement: self.acknowledgement,
            syn: self.syn,
            fin: self.fin,
            reset: self.reset,
            payload: self.payload.as_slice(),
        })
    }
}

/// Parses who sends, and to whom.
fn flow_of(text: &str) -> Option<Flow> {
    let (from, to) = text.split_once(" > ")?;
    Some(Flow {
        from: endpoint_of(from)?,
        to: endpoint_of(to)?,
    })
}
