//! The rank of each flow, by what it holds and by its last stream, in memory that is allocated
//! once.

ghost use Rattle.std.specs.Prelude.{◌≡◌, ◌≤◌, ◌<◌, ◌^◌, ℕ, IfOk, IfSome, Some, None, cond, nat_eq};
ghost use Rattle.std.specs.List.{last_or};
ghost use Rattle.tcp_slots.specs.Ranks.{IsUniqueLeast};
ghost use Rattle.tcp_waiting.specs.Payload.{load_of};
ghost use Rattle.tcp_connections.specs.Givers.{IsRankSet, noted_rank, recency_of, rank_of as spec_rank_of};

use crate::givers::GapRanks;
use std::alloc::{AllocError, Global};
use tcp_flow::Listener;
use tcp_slots::Ranks;
use tcp_streams::Streams;
use tcp_waiting::Pool;

impl GapRanks {
    /// The ranks of this many flows, none of which holds anything or has a stream. No other call
    /// allocates.
    pub fn new(alloc: Global, flows: usize) -> Result<GapRanks, AllocError>
        requires { (1 ≤ flows) × (flows ≤ 131072) }
        ensures flows { IfOk result (λ g. g.ranks.slots ≡ flows) }
        ensures ranks { IfOk result (λ g. (id : ℕ) → id < flows
            → noted_rank g id ≡ spec_rank_of 0 (recency_of g id)) }
        ensures numbers { IfOk result (λ g. (id : ℕ) → recency_of g id ≡ 0) }
    {
        let ranks = Ranks::new(alloc, flows, rank_of(0, 0))?;
        let numbers = vec![in alloc; 0; flows]?;
        Ok(GapRanks {
            ranks,
            numbers,
            greatest: 1,
        })
    }

    /// Sets the rank of a flow, by what it holds and by its last stream.
    #[inline]
    pub fn note<L: Listener + Drop>(&mut self, id: u32, pool: &Pool, to: &mut Streams<L>)
        ensures noted { IsRankSet self.old self.new id (load_of id pool.now.held)
            (last_or None to.old.live.items) }
        ensures live { to.new.live ≡ to.old.live }
        ensures listener { to.new.listener ≡ to.old.listener }
    {
        self.raise_number(id, to);
        self.set(id, rank_of(pool.load(id), self.number(id)));
    }

    /// Gives a flow the greatest number, if its last stream is the last of all.
    fn raise_number<L: Listener + Drop>(&mut self, id: u32, to: &mut Streams<L>)
        ensures beside { (other : ℕ) → (other ≡ id → ⊥)
            → recency_of self.new other ≡ recency_of self.old other }
        ensures same { (last_or None to.old.live.items ≡ Some id → ⊥)
            → recency_of self.new id ≡ recency_of self.old id }
        ensures greatest { last_or None to.old.live.items ≡ Some id → id < self.old.ranks.slots
            → (other : ℕ) → recency_of self.new other ≤ recency_of self.new id }
        ensures ranks { self.new.ranks ≡ self.old.ranks }
        ensures live { to.new.live ≡ to.old.live }
        ensures listener { to.new.listener ≡ to.old.listener }
    {
        if self.number(id) == self.greatest {
            return;
        }
        if to.last() == Some(id) && (id as usize) < self.numbers.len() {
            self.greatest = self.greatest.saturating_add(1);
            self.numbers[id as usize] = self.greatest;
        }
    }

    /// Sets the rank of a flow. There is no effect if there is no such flow.
    fn set(&mut self, id: u32, rank: u128)
        ensures ranks { (other : ℕ) → other < self.old.ranks.slots → noted_rank self.new other
            ≡ cond (nat_eq other id) rank (noted_rank self.old other) }
        ensures flows { self.new.ranks.slots ≡ self.old.ranks.slots }
        ensures numbers { self.new.numbers ≡ self.old.numbers }
    {
        if (id as usize) < self.numbers.len() && self.ranks.rank(id) != rank {
            self.ranks.set(id, rank);
        }
    }

    /// The number of a flow, or 0 if there is no such flow.
    fn number(&self, id: u32) -> u64
        ensures { result ≡ recency_of self.now id }
    {
        self.numbers.get(id as usize).copied().unwrap_or(0)
    }

    /// The flow whose rank is less than that of each other, if there is one.
    pub fn unique_least(&self) -> Option<u32>
        ensures first { IfSome result (λ id.
            IsUniqueLeast self.now.ranks.slots self.now.ranks.nodes.items id) }
        ensures small { (id : ℕ) → recency_of self.now id < 2 ^ 64 }
    {
        // Reading it tells the prover that a number is less than 2^64.
        let _greatest = self.greatest;
        self.ranks.unique_least()
    }
}

/// The rank of a flow that holds `load` blocks and has this number.
fn rank_of(load: usize, number: u64) -> u128
    ensures { result ≡ spec_rank_of load number }
{
    u128::from(u64::MAX - load as u64) * (1 << 64) + u128::from(number)
}
