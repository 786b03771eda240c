//! Which slot has the least rank, in memory that is allocated once: a tree in which each node has
//! the lesser rank of its two children.

ghost use Rattle.std.specs.Prelude.{◌≡◌, ◌≤◌, ◌<◌, ◌*◌, ℕ, length, set, cond, nat_eq, get_or, IfOk, IfSome, None};
ghost use Rattle.std.proofs.Props.{props};
ghost use Rattle.tcp_slots.specs.Ranks.{IsTree, IsUniqueLeast, HaveSameLeaves, rank_at};

use std::alloc::{AllocError, Global};

/// The ranks of slots. To change one, or to find the slot of the least, takes as many steps as the
/// tree is high.
#[derive(Drop)]
pub struct Ranks {
    /// The root is at index 1. The children of the node at index i are at 2i and 2i + 1. The ranks
    /// of the slots come last.
    nodes: Vec<u128>,
    slots: usize,
    ghost some: { 1 ≤ slots },
    ghost most: { slots ≤ 131072 },
    ghost tree: { IsTree slots nodes.items } by { Prim.hlevel props },
}

impl Ranks {
    /// Makes this many slots, each with this rank. No other call allocates.
    pub fn new(alloc: Global, slots: usize, rank: u128) -> Result<Ranks, AllocError>
        requires { (1 ≤ slots) × (slots ≤ 131072) }
        ensures slots { IfOk result (λ r. r.slots ≡ slots) }
        ensures ranks { IfOk result (λ r. (slot : ℕ) → slot < slots
            → rank_at r.slots r.nodes.items slot ≡ rank) }
    {
        let nodes = vec![in alloc; rank; 2 * slots]?;
        Ok(Ranks { nodes, slots })
    }

    /// Sets the rank of a slot. There is no effect if there is no such slot.
    pub fn set(&mut self, slot: u32, rank: u128)
        ensures slots { self.new.slots ≡ self.old.slots }
        ensures ranks { (other : ℕ) → other < self.old.slots
            → rank_at self.new.slots self.new.nodes.items other ≡ cond (nat_eq other slot) rank
            (rank_at self.old.slots self.old.nodes.items other) }
    {
        if (slot as usize) < self.slots {
            let leaf = self.slots + slot as usize;
            if rank < self.nodes[leaf] {
                lower_leaf(&mut self.nodes, self.slots, leaf, rank);
            } else {
                set_leaf(&mut self.nodes, self.slots, leaf, rank);
            }
        }
    }

    /// The rank of a slot.
    pub fn rank(&self, slot: u32) -> u128
        requires { slot < self.now.slots }
        ensures { result ≡ rank_at self.now.slots self.now.nodes.items slot }
    {
        self.nodes[self.slots + slot as usize]
    }

    /// The slot whose rank is less than that of each other slot. None if there is no such slot.
    pub fn unique_least(&self) -> Option<u32>
        ensures some { IfSome result (λ slot.
            IsUniqueLeast self.now.slots self.now.nodes.items slot) }
        ensures none { (result ≡ None) → (slot : ℕ)
            → IsUniqueLeast self.now.slots self.now.nodes.items slot → ⊥ }
    {
        let mut node = 1;
        while node < self.slots {
            let left = self.nodes[2 * node];
            let right = self.nodes[2 * node + 1];
            if left == right {
                return None;
            }
            node = if left < right { 2 * node } else { 2 * node + 1 };
        }
        Some((node - self.slots) as u32)
    }
}

/// Sets the rank of a leaf. Each node above it gets the lesser rank of its two children.
fn set_leaf(nodes: &mut [u128], slots: usize, leaf: usize, rank: u128)
    requires tree { IsTree slots nodes.old }
    requires leaf { (slots ≤ leaf) × (leaf < 2 * slots) }
    requires most { slots ≤ 131072 }
    ensures tree { IsTree slots nodes.new }
    ensures leaves { HaveSameLeaves slots nodes.new (set nodes.old leaf rank) }
{
    nodes[leaf] = rank;
    let mut node = leaf;
    while node > 1 {
        node /= 2;
        let left = nodes[2 * node];
        let right = nodes[2 * node + 1];
        let least = if left < right { left } else { right };
        if nodes[node] == least {
            return;
        }
        nodes[node] = least;
    }
}

/// Gives a leaf a lesser rank. Each node above it that has a greater one gets it too.
fn lower_leaf(nodes: &mut [u128], slots: usize, leaf: usize, rank: u128)
    requires tree { IsTree slots nodes.old }
    requires leaf { (slots ≤ leaf) × (leaf < 2 * slots) }
    requires most { slots ≤ 131072 }
    requires less { rank ≤ get_or nodes.old leaf 0 }
    ensures tree { IsTree slots nodes.new }
    ensures leaves { HaveSameLeaves slots nodes.new (set nodes.old leaf rank) }
{
    nodes[leaf] = rank;
    let mut node = leaf / 2;
    while node > 0 && rank < nodes[node] {
        nodes[node] = rank;
        node /= 2;
    }
}
