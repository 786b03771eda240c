//! Ids in the order in which they were added. The search for an id begins at an index that is kept for the id's remainder.

ghost use Rattle.std.specs.Prelude.{◌≡◌, ◌+◌, ◌%◌, ◌<◌, ◌≤◌, ◌==◌, [], ◌∷◌, ◌++◌, ℕ, false, get_or, length, IfSome, IfOk};
ghost use Rattle.std.specs.VecDeque.{deque_capacity};
ghost use Rattle.std.specs.List.{remove, position_from};
ghost use Rattle.giop_entry_table.specs.Ids.{AreIndexedByRemainder, IsLowerBound};

use crate::search::first_index_from;
use std::alloc::{AllocError, Global};
use std::collections::VecDeque;

/// If there are at most this number of ids, they are looked through one after another, and no remainders are kept.
const FEW: usize = 128;

/// Ids in the order in which they were added. All of its memory is allocated when it is made.
#[derive(Drop)]
pub(crate) struct Ids {
    pub(crate) keys: VecDeque<u32>,
    // How many ids have each remainder. It is empty if no remainders are kept.
    counts: Vec<usize>,
    // A number for each remainder. Minus the removals, it is at most the index of each id that has the remainder.
    firsts: Vec<usize>,
    // How many ids were removed, apart from those that were the last one then.
    removals: usize,
    ghost indexed: { AreIndexedByRemainder (length counts.items) keys.items counts.items
        firsts.items removals },
}

/// The divisor whose remainders tell ids apart; 0 if no remainders are kept. It is odd, so that ids that differ by a
/// power of two have different remainders.
fn divisor(most: usize) -> usize {
    if most <= FEW {
        return 0;
    }
    most.saturating_mul(2).saturating_add(1)
}

impl Ids {
    /// Makes a list without ids, with memory for this number of them.
    pub(crate) fn with_capacity(alloc: Global, most: usize) -> Result<Ids, AllocError>
        ensures items { IfOk result (λ r. r.keys.items ≡ []) }
        ensures capacity { IfOk result (λ r. most ≤ deque_capacity r.keys) }
    {
        let divisor = divisor(most);
        Ok(Ids {
            keys: VecDeque::with_capacity(alloc, most)?,
            counts: vec![in alloc; 0; divisor]?,
            firsts: vec![in alloc; 0; divisor]?,
            removals: 0,
        })
    }

    /// The remainder of an id.
    fn remainder(&self, key: u32) -> usize
        requires { 0 < length self.now.counts.items }
        ensures value { result ≡ key % length self.now.counts.items }
        ensures within { result < length self.now.counts.items }
    {
        key as usize % self.counts.len()
    }

    /// A number for this remainder. Minus the removals, it is at most the index of each id that has the remainder, and at
    /// most the number of ids.
    fn bound_for_remainder(&self, remainder: usize) -> usize
        requires { remainder < length self.now.counts.items }
        ensures before { IsLowerBound self.now.keys.items (length self.now.counts.items)
            self.now.removals remainder result }
        ensures within { result ≤ length self.now.keys.items + self.now.removals }
    {
        let behind = self.keys.len().saturating_add(self.removals);
        if self.counts[remainder] == 0 {
            behind
        } else {
            self.firsts[remainder].min(behind)
        }
    }

    /// An index before which an id isn't.
    fn search_start(&self, key: u32) -> usize
        ensures before { (i : ℕ) → i < result → (get_or self.now.keys.items i 0 == key) ≡ false }
        ensures within { result ≤ length self.now.keys.items }
    {
        if self.counts.is_empty() {
            return 0;
        }
        let first = self.bound_for_remainder(self.remainder(key));
        first.saturating_sub(self.removals)
    }

    /// The first index of an id.
    pub(crate) fn find(&self, key: u32) -> Option<usize>
        ensures value { result ≡ position_from (λ k. k == key) 0 self.now.keys.items }
        ensures within { IfSome result (λ index. index < length self.now.keys.items) }
    {
        first_index_from(&self.keys, self.search_start(key), key)
    }

    /// Adds an id after the other ids. There must be room for it.
    pub(crate) fn push_reserved(&mut self, key: u32)
        requires { length self.old.keys.items < deque_capacity self.old.keys }
        ensures items { self.new.keys.items ≡ self.old.keys.items ++ key ∷ [] }
        ensures capacity { deque_capacity self.new.keys ≡ deque_capacity self.old.keys }
    {
        if self.counts.is_empty() {
            self.keys.push_back_reserved(key);
            return;
        }
        let remainder = self.remainder(key);
        self.firsts[remainder] = self.bound_for_remainder(remainder);
        self.counts[remainder] += 1;
        self.keys.push_back_reserved(key);
    }

    /// Removes the id at this index. There must be such an id. The ids after it move up.
    pub(crate) fn remove(&mut self, index: usize)
        requires { index < length self.old.keys.items }
        ensures items { self.new.keys.items ≡ remove self.old.keys.items index }
        ensures capacity { deque_capacity self.new.keys ≡ deque_capacity self.old.keys }
    {
        if self.counts.is_empty() {
            self.keys.remove(index);
            return;
        }
        let remainder = self.remainder(self.keys[index]);
        self.counts[remainder] -= 1;
        let moves = (self.keys.len() - index - 1).min(1);
        self.removals = self.removals.saturating_add(moves);
        self.keys.remove(index);
    }

    /// Drops all ids, and keeps the memory.
    pub(crate) fn clear(&mut self)
        ensures items { self.new.keys.items ≡ [] }
        ensures capacity { deque_capacity self.new.keys ≡ deque_capacity self.old.keys }
    {
        self.keys.clear();
        self.counts.fill(0);
        self.firsts.fill(0);
        self.removals = 0;
    }
}
