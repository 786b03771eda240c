//! The calls of both directions of a connection. A turn from one direction to the other moves no call.

ghost use Rattle.std.specs.Prelude.{◌≡◌, ◌==◌, ◌++◌, ◌∷◌, [], option_copied, IfOk};
ghost use Rattle.std.specs.List.{find};
ghost use Rattle.std.specs.Option.{option_map};
ghost use Rattle.giop_calls.specs.Outstanding.{without, newest};
ghost use Rattle.giop_conversation.specs.Exchanges.{with_entries};

use giop_calls::{Call, Calls};
use std::alloc::{AllocError, Global};
use std::marker::Model;

/// The calls of the direction that is read, and those of the opposite one.
#[derive(Drop)]
pub(crate) struct BothCalls {
    first: Calls,
    second: Calls,
    // Whether the calls of the direction that is read are the second ones.
    is_turned: bool,
}

impl Model for BothCalls {
    ghost use Rattle.std.specs.Prelude.{cond};
    ghost use Rattle.giop_conversation.specs.Exchanges.{CallPair};

    ghost Value = { CallPair };

    ghost view = { λ b. record {
      own = cond b.is_turned b.second b.first;
      opposite = cond b.is_turned b.first b.second;
    } };
}

impl BothCalls {
    /// Makes two tables without calls, each with memory for this number of them.
    pub fn new(alloc: Global, most: u32) -> Result<BothCalls, AllocError>
        ensures { IfOk result (λ b. b ≡ record {
          own = record { most = most; entries = [] };
          opposite = record { most = most; entries = [] };
        }) }
    {
        Ok(BothCalls {
            first: Calls::new(alloc, most)?,
            second: Calls::new(alloc, most)?,
            is_turned: false,
        })
    }

    /// Turns to the other direction: its calls are the own ones from now on.
    pub fn swap_directions(&mut self)
        ensures { self.new ≡ record { own = self.old.opposite; opposite = self.old.own } }
    {
        self.is_turned = !self.is_turned;
    }

    /// The opposite call that a Reply with this request id answers.
    pub fn find_opposite(&self, id: u32) -> Option<&Call>
        ensures { option_copied result ≡ option_map (λ e. e.value)
            (find (λ e. e.key == id) self.now.opposite.entries) }
    {
        if self.is_turned {
            self.first.find(id)
        } else {
            self.second.find(id)
        }
    }

    /// Takes the opposite call that a Reply with this request id answers.
    #[inline]
    pub fn take_opposite(&mut self, id: u32) -> Option<Call>
        ensures value { result ≡ option_map (λ e. e.value)
            (find (λ e. e.key == id) self.old.opposite.entries) }
        ensures calls { self.new ≡ record self.old {
          opposite = with_entries self.old.opposite (without id self.old.opposite.entries);
        } }
    {
        if self.is_turned {
            self.first.take(id)
        } else {
            self.second.take(id)
        }
    }

    /// Adds an own call as the newest one, as `Calls::add` does.
    #[inline]
    pub fn add_own(&mut self, id: u32, call: Call)
        ensures { self.new ≡ record self.old {
          own = with_entries self.old.own (newest self.old.own.most
              (without id self.old.own.entries ++ record { key = id; value = call } ∷ []));
        } }
    {
        if self.is_turned {
            self.second.add(id, call);
        } else {
            self.first.add(id, call);
        }
    }

    /// Forgets the own call with this request id.
    pub fn forget_own(&mut self, id: u32)
        ensures { self.new ≡ record self.old {
          own = with_entries self.old.own (without id self.old.own.entries);
        } }
    {
        if self.is_turned {
            self.second.forget(id);
        } else {
            self.first.forget(id);
        }
    }

    /// Forgets all own calls. The memory is kept.
    pub fn forget_all_own(&mut self)
        ensures { self.new ≡ record self.old { own = with_entries self.old.own [] } }
    {
        if self.is_turned {
            self.second.clear();
        } else {
            self.first.clear();
        }
    }
}
