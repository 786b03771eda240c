//! The outstanding calls of one direction, by their request ids.

ghost use Rattle.std.specs.Prelude.{◌≡◌, ◌==◌, ◌-◌, [], ◌∷◌, ◌++◌, option_copied, IfOk};
ghost use Rattle.std.specs.List.{find};
ghost use Rattle.std.specs.Option.{option_map};
ghost use Rattle.giop_calls.specs.Outstanding.{without, newest};

use arrayvec::ArrayVec;
use giop_entry_table::EntryTable;
use std::alloc::{AllocError, Global};
use std::marker::Model;

/// The greatest number of octets that are kept of an operation's name.
pub const NAME_ROOM: usize = 128;

/// A Request whose reply is outstanding (ISO/IEC 19500-2, 9.4.2 and 9.4.3).
#[derive(Drop)]
pub struct Call {
    /// The octets of the operation's name.
    pub name: ArrayVec<u8, 128>,
    /// The number of the operation, if the signature file has the operation. Two operations of one name may belong to
    /// different interfaces.
    pub operation: Option<u32>,
    /// The number of the stream that the Request came in, from 1.
    pub stream: u64,
    /// The number of the Request in its stream, from 1.
    pub message: u64,
    /// When the Request's header was complete, in nanoseconds since 1970-01-01 UTC; none if its packet has no time.
    pub time: Option<u128>,
}

/// The outstanding calls of one direction, the oldest first, each with an id of its own. If as many are outstanding as may
/// be, the oldest one is forgotten for a new one.
#[derive(Drop)]
pub struct Calls {
    table: EntryTable<Call>,
}

impl Model for Calls {
    ghost use Rattle.std.specs.Prelude.{◌≤◌, length};
    ghost use Rattle.giop_calls.specs.declared.calls.Call.{Call};
    ghost use Rattle.giop_calls.specs.Outstanding.{HaveDistinctIds};
    ghost use Rattle.giop_entry_table.specs.EntryTable.{Entries};

    ghost Value = { Entries Call };

    ghost view = { λ c. c.table };

    ghost invariant = { λ c. HaveDistinctIds c.table.entries ×
        (length c.table.entries ≤ c.table.most) };
}

impl Calls {
    /// Makes a table without calls, with memory for this number of them.
    pub fn new(alloc: Global, most: u32) -> Result<Calls, AllocError>
        ensures none { IfOk result (λ c. c.entries ≡ []) }
        ensures most { IfOk result (λ c. c.most ≡ most) }
    {
        Ok(Calls {
            table: EntryTable::new(alloc, most as usize)?,
        })
    }

    /// The call that a Reply with this request id answers.
    pub fn find(&self, id: u32) -> Option<&Call>
        ensures { option_copied result
            ≡ option_map (λ e. e.value) (find (λ e. e.key == id) self.now.entries) }
    {
        match self.table.find(id) {
            Some(index) => self.table.get(index),
            None => None,
        }
    }

    /// Adds a call as the newest one. An older call of its id is no longer outstanding. If as many are outstanding as may
    /// be, the oldest one is forgotten.
    // As a function of its own it would copy the call once more, and so would `take`.
    #[inline(always)]
    pub fn add(&mut self, id: u32, call: Call)
        ensures entries { self.new.entries ≡ newest self.old.most
            (without id self.old.entries ++ record { key = id; value = call } ∷ []) }
        ensures most { self.new.most ≡ self.old.most }
    {
        self.forget(id);
        self.make_room();
        if !self.table.is_full() {
            self.table.add(id, call);
        }
    }

    /// Forgets the oldest call if as many are outstanding as may be.
    fn make_room(&mut self)
        ensures entries { self.new.entries ≡ newest (self.old.most - 1) self.old.entries }
        ensures most { self.new.most ≡ self.old.most }
    {
        if self.table.is_full() {
            self.table.take(0);
        }
    }

    /// Takes the call that a Reply with this request id answers. It is no longer outstanding.
    #[inline(always)]
    pub fn take(&mut self, id: u32) -> Option<Call>
        ensures value { result
            ≡ option_map (λ e. e.value) (find (λ e. e.key == id) self.old.entries) }
        ensures entries { self.new.entries ≡ without id self.old.entries }
        ensures most { self.new.most ≡ self.old.most }
    {
        match self.table.find(id) {
            Some(index) => Some(self.table.remove(index)),
            None => None,
        }
    }

    /// Forgets the call with this request id: it is no longer outstanding.
    pub fn forget(&mut self, id: u32)
        ensures entries { self.new.entries ≡ without id self.old.entries }
        ensures most { self.new.most ≡ self.old.most }
    {
        match self.table.find(id) {
            Some(index) => {
                self.table.remove(index);
            }
            None => {}
        }
    }

    /// Forgets all calls. The memory is kept.
    pub fn clear(&mut self)
        ensures entries { self.new.entries ≡ [] }
        ensures most { self.new.most ≡ self.old.most }
    {
        self.table.clear();
    }
}
