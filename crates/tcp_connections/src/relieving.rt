//! If the pool is short, the flow that holds the most blocks gives up; of several, the one whose
//! last stream began first.

ghost use Rattle.std.specs.Prelude.{◌≡◌, get_or, OnErr, None};

use crate::connections::Connections;
use tcp_flow::{Listener, ListenerError};
use tcp_streams::Streams;

impl Connections {
    ghost use Rattle.std.specs.Prelude.{cond, nat_lt};
    ghost use Rattle.tcp_waiting.specs.Payload.{load_of};
    ghost use Rattle.tcp_connections.specs.Connections.{State, heaviest_from, heavier, within_pool};
    ghost use Rattle.tcp_connections.specs.State.{HasStateOver, MakesOver};

    /// While the pool has too few blocks for all that is held, makes a gap in the flow that holds
    /// the most.
    pub(crate) fn relieve<L: Listener + Drop>(
        &mut self,
        to: &mut Streams<L>,
    ) -> Result<(), ListenerError>
        requires state { HasStateOver 256 (L.observed to.old.listener) to.old.live.items self.old }
        ensures does { MakesOver 256 0 result (λ w. within_pool L.reader w)
            (L.observed to.old.listener) to.old.live.items self.old
            (L.observed to.new.listener) to.new.live.items self.new }
        ensures cause { OnErr result (L.failed to.new.listener) }
    {
        let mut left = self.pool.len();
        while left > 0 {
            if self.pool.blocks_in_use() <= self.pool.blocks() {
                return Ok(());
            }
            let id = self.find_heaviest(to);
            self.make_gap(id, to)?;
            left -= 1;
        }
        Ok(())
    }

    /// The flow that holds the most blocks. If several hold as many, it is the one whose last
    /// stream began first. It is found by the ranks, or by looking at each flow if two have the
    /// least rank.
    fn find_heaviest<L: Listener + Drop>(&self, to: &mut Streams<L>) -> u32
        requires state { HasStateOver 256 (L.observed to.old.listener) to.old.live.items self.now }
        ensures is { result ≡ heaviest_from self.now.pool.held (get_or to.old.live.items 0 0)
            to.old.live.items }
        ensures live { to.new.live ≡ to.old.live }
        ensures listener { to.new.listener ≡ to.old.listener }
    {
        if let Some(id) = self.givers.unique_least()
            && self.pool.load(id) > 0
        {
            return id;
        }
        self.heaviest_by_walk(to)
    }

    /// The same flow, found by looking at each flow whose stream is live or was closed by a gap.
    fn heaviest_by_walk<L: Listener + Drop>(&self, to: &mut Streams<L>) -> u32
        ensures is { result ≡ heaviest_from self.now.pool.held (get_or to.old.live.items 0 0)
            to.old.live.items }
        ensures live { to.new.live ≡ to.old.live }
        ensures listener { to.new.listener ≡ to.old.listener }
    {
        to.pack();
        let mut best = to.live(0).unwrap_or(0);
        let mut rank = 0;
        while let Some(id) = to.live(rank) {
            best = self.heavier(best, id);
            rank += 1;
        }
        best
    }

    /// The one of two flows that holds more blocks; the first if both hold as many.
    fn heavier(&self, first: u32, other: u32) -> u32
        ensures { result ≡ heavier self.now.pool.held first other }
    {
        if self.pool.load(first) < self.pool.load(other) {
            other
        } else {
            first
        }
    }
}
