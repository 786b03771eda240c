//! At which place the stream of each flow stands, in memory that is allocated once.

ghost use Rattle.std.specs.Prelude.{◌≡◌, IfOk, get_or, set, replicate};

use std::alloc::{AllocError, Global};

/// The stamp of each flow whose last stream lives, or was closed by a gap or by the end of the
/// capture: one more than the index of its place. Other flows have the stamp 0.
#[derive(Drop)]
pub(crate) struct Stamps {
    flows: Vec<u32>,
}

impl Stamps {
    /// The stamps of the flows with ids below `flows`, all 0. No other call allocates.
    pub(crate) fn new(alloc: Global, flows: usize) -> Result<Stamps, AllocError>
        ensures { IfOk result (λ s. s.flows.items ≡ replicate flows 0) }
    {
        let flows = vec![in alloc; 0; flows]?;
        Ok(Stamps { flows })
    }

    /// The stamp of a flow. If there is no memory for its stamp, this is 1.
    pub(crate) fn of(&self, flow: u32) -> u32
        ensures { result ≡ get_or self.now.flows.items flow 1 }
    {
        self.flows.get(flow as usize).copied().unwrap_or(1)
    }

    /// Notes the stamp of a flow, if there is memory for it.
    pub(crate) fn note(&mut self, flow: u32, stamp: u32)
        ensures { self.new.flows.items ≡ set self.old.flows.items flow stamp }
    {
        if let Some(noted) = self.flows.get_mut(flow as usize) {
            *noted = stamp;
        }
    }
}
