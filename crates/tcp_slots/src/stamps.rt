//! When each slot was last used, in memory that is allocated once.

ghost use Rattle.std.specs.Prelude.{◌≡◌, ◌<◌, IfOk, get_or, set, replicate};
ghost use Rattle.std.specs.Vec.{vec_len, vec_capacity};

use std::alloc::{AllocError, Global};

/// The stamp of each slot: a number that grows with each use of any slot.
#[derive(Drop)]
pub struct Stamps {
    last: Vec<u64>,
}

impl Stamps {
    /// Stamps of `slots` slots, all 0. No other call allocates.
    pub fn new(alloc: Global, slots: usize) -> Result<Stamps, AllocError>
        ensures { IfOk result (λ s. s.last.items ≡ replicate slots 0) }
    {
        let last = vec![in alloc; 0; slots]?;
        Ok(Stamps { last })
    }

    /// Notes the use of a slot.
    pub fn note(&mut self, slot: u32, stamp: u64)
        requires { slot < vec_len self.old.last }
        ensures last { self.new.last.items ≡ set self.old.last.items slot stamp }
        ensures slots { vec_len self.new.last ≡ vec_len self.old.last }
        ensures memory { vec_capacity self.new.last ≡ vec_capacity self.old.last }
    {
        self.last[slot as usize] = stamp;
    }

    /// The stamp of the last use of a slot.
    pub fn last(&self, slot: u32) -> u64
        requires { slot < vec_len self.now.last }
        ensures { result ≡ get_or self.now.last.items slot 0 }
    {
        let index = slot as usize;
        self.last[index]
    }
}
