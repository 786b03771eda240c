//! The flows of which segments came since their connections became known, in memory that is
//! allocated once.

ghost use Rattle.std.specs.Prelude.{◌≡◌, IfOk, false, get_or, set, replicate};

use std::alloc::{AllocError, Global};

/// Whether a segment of the flow of each id came, apart from the one that made its connection
/// known.
#[derive(Drop)]
pub struct Came {
    ids: Vec<bool>,
}

impl Came {
    /// No segment has come of the flows below `ids`. No other call allocates.
    pub fn new(alloc: Global, ids: usize) -> Result<Came, AllocError>
        ensures { IfOk result (λ c. c.ids.items ≡ replicate ids false) }
    {
        let ids = vec![in alloc; false; ids]?;
        Ok(Came { ids })
    }

    /// Sets whether a segment of a flow has come.
    pub fn set(&mut self, id: u32, came: bool)
        ensures { self.new.ids.items ≡ set self.old.ids.items id came }
    {
        if (id as usize) < self.ids.len() {
            self.ids[id as usize] = came;
        }
    }

    /// Whether a segment of a flow has come.
    pub fn at(&self, id: u32) -> bool
        ensures { result ≡ get_or self.now.ids.items id false }
    {
        (id as usize) < self.ids.len() && self.ids[id as usize]
    }
}
