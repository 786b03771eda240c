//! The flows of streams in an order. An id can be taken away from its place, and the ids after it
//! aren't moved.

ghost use Rattle.std.specs.Prelude.{◌≡◌, ◌≤◌, ◌<◌, ◌^◌, [], length, get_or, IfOk, IfSome, None};
ghost use Rattle.std.specs.List.{last_or};
ghost use Rattle.tcp_streams.specs.Lives.{without, with_begun, elder_side};

use crate::pair::Side;
use crate::places::{
    Front, MOST_IDS, PLACES, first_side, id_at_rank, last_id, make_free_place, pack, place_of,
    push, take_away,
};
use crate::sides::flow_id;
use crate::stamps::Stamps;
use std::alloc::{AllocError, Global};
use std::marker::Model;

/// The ids of flows in an order; no id comes twice. All memory is allocated when the queue is made.
#[derive(Drop)]
pub(crate) struct Queue {
    ids: Vec<u32>,
    stamps: Stamps,
    front: Front,
}

impl Model for Queue {
    ghost use Rattle.tcp_streams.specs.Queue.{QueueView, queue_of, IsSoundQueue};

    ghost Value = { QueueView };

    ghost view = { queue_of };

    ghost invariant = { IsSoundQueue };
}

impl Queue {
    /// A queue without ids. There is room for each id. The ids below `flows` are found at once, and
    /// any other by a walk.
    pub(crate) fn new(alloc: Global, flows: usize) -> Result<Queue, AllocError>
        ensures { IfOk result (λ q. q.items ≡ []) }
    {
        let ids = Vec::with_capacity(alloc, PLACES)?;
        let stamps = Stamps::new(alloc, flows)?;
        Ok(Queue {
            ids,
            stamps,
            front: Front {
                places: 0,
                count: 0,
            },
        })
    }

    /// How many ids there are.
    pub(crate) fn len(&self) -> usize
        ensures live { result ≡ length self.now.items }
        ensures few { result ≤ 262144 }
    {
        self.front.count + (self.ids.len() - self.front.places)
    }

    /// The id at a rank.
    pub(crate) fn at(&self, rank: usize) -> Option<u32>
        ensures none { (result ≡ None) → length self.now.items ≤ rank }
        ensures some { IfSome result (λ id. (rank < length self.now.items)
            × (id ≡ get_or self.now.items rank 0)) }
        ensures few { IfSome result (λ id. rank < 262144) }
    {
        if rank < self.front.count {
            return id_at_rank(&self.ids, rank);
        }
        let after = rank - self.front.count;
        if after >= self.ids.len() - self.front.places {
            return None;
        }
        Some(self.ids[self.front.places + after])
    }

    /// The id that comes last. Gives up the places after it.
    pub(crate) fn last(&mut self) -> Option<u32>
        ensures last { result ≡ last_or None self.old.items }
        ensures items { self.new.items ≡ self.old.items }
    {
        last_id(&mut self.ids, &mut self.front)
    }

    /// Which of the two flows of a slot stands first.
    pub(crate) fn elder_side(&self, slot: u32) -> Side
        requires { slot < 2 ^ 31 }
        ensures { result ≡ elder_side slot self.now.items }
    {
        let lesser = flow_id(slot, Side::FromLesser);
        let greater = flow_id(slot, Side::FromGreater);
        first_side(
            place_of(&self.ids, &self.stamps, &self.front, lesser),
            place_of(&self.ids, &self.stamps, &self.front, greater),
        )
    }

    /// Takes an id away, if it is there.
    pub(crate) fn take_away(&mut self, flow: u32)
        ensures { self.new.items ≡ without flow self.old.items }
    {
        take_away(&mut self.ids, &mut self.stamps, &mut self.front, flow);
    }

    /// Puts an id at the end, and takes it away from where it was. A number that is no id changes
    /// nothing.
    pub(crate) fn begin(&mut self, flow: u32)
        ensures { self.new.items ≡ with_begun flow self.old.items }
    {
        if flow < MOST_IDS {
            take_away(&mut self.ids, &mut self.stamps, &mut self.front, flow);
            make_free_place(&mut self.ids, &mut self.stamps, &mut self.front);
            push(&mut self.ids, &mut self.stamps, &self.front, flow);
        }
    }

    /// Gives up the places without an id, so that the id at each rank is found at once.
    pub(crate) fn pack(&mut self)
        ensures { self.new.items ≡ self.old.items }
    {
        pack(&mut self.ids, &mut self.stamps, &mut self.front);
    }
}
