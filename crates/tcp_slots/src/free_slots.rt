//! The slots that are free, in memory that is allocated once.

ghost use Rattle.std.specs.Prelude.{◌≡◌, ◌≤◌, ◌<◌, ◌++◌, ◌∷◌, [], IfOk, Some, None, ℕ};
ghost use Rattle.std.specs.Vec.{vec_len, vec_capacity};
ghost use Rattle.tcp_slots.specs.Slots.{slots_below};

use std::alloc::{AllocError, Global};

/// The slots that are free. The slot that became free last is taken first.
#[derive(Drop)]
pub struct FreeSlots {
    free: Vec<u32>,
    most: u32,
    ghost fit: { most ≤ vec_capacity free },
}

impl FreeSlots {
    /// All slots below `most` are free. No other call allocates.
    #[tactic(auto, unfolding(crate::specs::Slots::slots_below))]
    pub fn new(alloc: Global, most: u32) -> Result<FreeSlots, AllocError>
        ensures free { IfOk result (λ f. f.free.items ≡ slots_below most) }
        ensures most { IfOk result (λ f. f.most ≡ most) }
    {
        let mut free = Vec::with_capacity(alloc, most as usize)?;
        let mut slot = 0;
        while slot < most {
            free.push(slot)?;
            slot += 1;
        }
        Ok(FreeSlots { free, most })
    }

    /// Takes a free slot. None if no slot is free.
    pub fn take(&mut self) -> Option<u32>
        ensures none { (result ≡ None) → self.old.free.items ≡ [] }
        ensures some { (slot : ℕ) → (result ≡ Some slot)
            → self.old.free.items ≡ self.new.free.items ++ slot ∷ [] }
        ensures most { self.new.most ≡ self.old.most }
        ensures memory { vec_capacity self.new.free ≡ vec_capacity self.old.free }
    {
        self.free.pop()
    }

    /// Makes a slot free.
    pub fn give_back(&mut self, slot: u32)
        requires { vec_len self.old.free < self.old.most }
        ensures free { self.new.free.items ≡ self.old.free.items ++ slot ∷ [] }
        ensures most { self.new.most ≡ self.old.most }
        ensures memory { vec_capacity self.new.free ≡ vec_capacity self.old.free }
    {
        self.free.push_reserved(slot);
    }
}
