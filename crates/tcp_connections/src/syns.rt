//! The SYN that each connection keeps until it is answered, in memory that is allocated once.

ghost use Rattle.std.specs.Prelude.{◌≡◌, IfOk, get_or, set, replicate, None};

use std::alloc::{AllocError, Global};

/// A SYN without ACK that may begin its connection anew.
#[derive(Clone, Copy, Debug, PartialEq, Eq)]
pub struct KeptSyn {
    /// The id of its flow.
    pub(crate) flow: u32,
    /// The sequence number after the SYN, which an answer acknowledges (RFC 9293, Three-Way
    /// Handshake).
    pub(crate) number: u32,
}

/// The SYN that the connection of each slot keeps.
#[derive(Drop)]
pub struct KeptSyns {
    kept: Vec<Option<KeptSyn>>,
}

impl KeptSyns {
    /// Slots without SYNs. No other call allocates.
    pub fn new(alloc: Global, slots: usize) -> Result<KeptSyns, AllocError>
        ensures { IfOk result (λ s. s.kept.items ≡ replicate slots None) }
    {
        let kept = vec![in alloc; None; slots]?;
        Ok(KeptSyns { kept })
    }

    /// Sets the SYN that a slot keeps, or none, in place of an older one.
    pub fn set(&mut self, slot: u32, syn: Option<KeptSyn>)
        ensures { self.new.kept.items ≡ set self.old.kept.items slot syn }
    {
        if (slot as usize) < self.kept.len() {
            self.kept[slot as usize] = syn;
        }
    }

    /// The SYN that a slot keeps.
    pub fn at(&self, slot: u32) -> Option<KeptSyn>
        ensures { result ≡ get_or self.now.kept.items slot None }
    {
        if (slot as usize) < self.kept.len() {
            return self.kept[slot as usize];
        }
        None
    }
}
