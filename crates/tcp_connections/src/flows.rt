//! The flows of all connections by their ids, and which connection makes room first, in memory that
//! is allocated once.

ghost use Rattle.std.specs.Prelude.{◌≡◌, ◌≤◌, ◌<◌, ◌*◌, ◌/◌, ◌+◌, ◌^◌, ℕ, IfOk, IfSome, None, false, true, cond, nat_eq, get_or, set, replicate};
ghost use Rattle.std.specs.Vec.{vec_len};
ghost use Rattle.std.proofs.Props.{props};
ghost use Rattle.tcp_slots.specs.Ranks.{rank_at};
ghost use Rattle.tcp_connections.specs.Connections.{has_live as spec_has_live};
ghost use Rattle.tcp_connections.specs.Ranks.{AreAtMost, IsBeforeAll, is_before, rank_among, room_class_among, is_live_among, both_have_come_among, has_come_among};

use crate::came::Came;
use std::alloc::{AllocError, Global};
use tcp_flow::FlowState;
use tcp_slots::{Ranks, Stamps};

/// The distance between the ranks of two classes. It is greater than any stamp.
const CLASS: u128 = 1 << 64;

/// For each id the flow, from its first stream on, and whether segments of it came. For each slot
/// when its connection was last seen, and a rank that is at most the true one: if the true one
/// rises, this is noted only when the slot is looked for.
#[derive(Drop)]
pub struct Flows {
    states: Vec<Option<FlowState>>,
    came: Came,
    stamps: Stamps,
    ranks: Ranks,
    ghost pairs: { vec_len states ≡ 2 * ranks.slots },
    ghost as_many: { vec_len stamps.last ≡ ranks.slots },
    ghost small: { (slot : ℕ) → get_or stamps.last.items slot 0 < 2 ^ 64 } by { Prim.hlevel props },
    ghost at_most: { AreAtMost ranks.slots ranks.nodes.items states.items came.ids.items
        stamps.last.items } by { Prim.hlevel props },
}

impl Flows {
    /// No flow of these slots has begun. No other call allocates.
    pub fn new(alloc: Global, slots: u32) -> Result<Flows, AllocError>
        requires { (1 ≤ slots) × (slots ≤ 65536) }
        ensures states { IfOk result (λ f. f.states.items ≡ replicate (2 * slots) None) }
        ensures came { IfOk result (λ f. f.came.ids.items ≡ replicate (2 * slots) false) }
        ensures lasts { IfOk result (λ f. f.stamps.last.items ≡ replicate slots 0) }
    {
        let states = vec![in alloc; None; 2 * slots as usize]?;
        let came = Came::new(alloc, 2 * slots as usize)?;
        let stamps = Stamps::new(alloc, slots as usize)?;
        let ranks = Ranks::new(alloc, slots as usize, 0)?;
        Ok(Flows {
            states,
            came,
            stamps,
            ranks,
        })
    }

    /// A flow from its first stream on, by its id.
    pub fn at(&self, id: u32) -> Option<FlowState>
        ensures { result ≡ get_or self.now.states.items id None }
    {
        flow_at(&self.states, id)
    }

    /// Sets a flow, or forgets it. If it has a live stream, the true rank of its slot can only
    /// rise, and isn't noted.
    pub fn set(&mut self, id: u32, flow: Option<FlowState>)
        ensures states { self.new.states.items ≡ set self.old.states.items id flow }
        ensures came { self.new.came ≡ self.old.came }
        ensures stamps { self.new.stamps ≡ self.old.stamps }
    {
        if (id as usize) < self.states.len() {
            self.states[id as usize] = flow;
            if !lives(flow) {
                note_true_rank(
                    &self.states,
                    &self.came,
                    &self.stamps,
                    &mut self.ranks,
                    id / 2,
                );
            }
        }
    }

    /// Notes a segment of a flow, with its stamp.
    pub fn note(&mut self, id: u32, stamp: u64)
        requires { id / 2 < vec_len self.old.stamps.last }
        ensures states { self.new.states.items ≡ self.old.states.items }
        ensures came { self.new.came.ids.items ≡ set self.old.came.ids.items id true }
        ensures lasts { self.new.stamps.last.items ≡ set self.old.stamps.last.items (id / 2) stamp }
    {
        let before = self.stamps.last(id / 2);
        self.stamps.note(id / 2, stamp);
        self.came.set(id, true);
        if stamp < before {
            note_true_rank(
                &self.states,
                &self.came,
                &self.stamps,
                &mut self.ranks,
                id / 2,
            );
        }
    }

    /// Notes that the connection of a slot became known by a segment with this stamp. No other
    /// segment of its flows has come.
    pub fn open(&mut self, slot: u32, stamp: u64)
        requires { slot < vec_len self.old.stamps.last }
        ensures states { self.new.states.items ≡ self.old.states.items }
        ensures came { self.new.came.ids.items
            ≡ set (set self.old.came.ids.items (2 * slot) false) (2 * slot + 1) false }
        ensures lasts { self.new.stamps.last.items ≡ set self.old.stamps.last.items slot stamp }
    {
        self.stamps.note(slot, stamp);
        self.came.set(2 * slot, false);
        self.came.set(2 * slot + 1, false);
        note_true_rank(
            &self.states,
            &self.came,
            &self.stamps,
            &mut self.ranks,
            slot,
        );
    }

    /// The slot whose connection makes room before all others. None if the ranks don't tell it.
    pub fn slot_that_makes_room(&mut self) -> Option<u32>
        ensures some { IfSome result (λ slot. IsBeforeAll self.old.states.items
            self.old.came.ids.items self.old.stamps.last.items slot) }
        ensures states { self.new.states.items ≡ self.old.states.items }
        ensures came { self.new.came ≡ self.old.came }
        ensures stamps { self.new.stamps ≡ self.old.stamps }
    {
        slot_of_least_true_rank(&self.states, &self.came, &self.stamps, &mut self.ranks)
    }

    /// Whether the connection of one slot makes room before that of another.
    pub fn makes_room_before(&self, slot: u32, other: u32) -> bool
        requires slot { slot < vec_len self.now.stamps.last }
        requires other { other < vec_len self.now.stamps.last }
        ensures { result ≡ is_before self.now.states.items self.now.came.ids.items
            self.now.stamps.last.items slot other }
    {
        rank_of(&self.states, &self.came, &self.stamps, slot)
            < rank_of(&self.states, &self.came, &self.stamps, other)
    }
}

/// The slot of the least rank, if that is its true rank. If not, the true one is noted, and the
/// next slot is looked at. Each slot is noted once at most. A rank rises only with a segment, so
/// there are fewer ranks to note than segments.
fn slot_of_least_true_rank(
    states: &[Option<FlowState>],
    came: &Came,
    stamps: &Stamps,
    ranks: &mut Ranks,
) -> Option<u32>
    requires within { vec_len stamps.now.last ≡ ranks.old.slots }
    requires small { (slot : ℕ) → get_or stamps.now.last.items slot 0 < 2 ^ 64 }
    requires at_most { AreAtMost ranks.old.slots ranks.old.nodes.items states.now
        came.now.ids.items stamps.now.last.items }
    ensures slots { ranks.new.slots ≡ ranks.old.slots }
    ensures at_most { AreAtMost ranks.new.slots ranks.new.nodes.items states.now
        came.now.ids.items stamps.now.last.items }
    ensures some { IfSome result (λ slot. IsBeforeAll states.now came.now.ids.items
        stamps.now.last.items slot) }
{
    let mut left = states.len();
    while left > 0 {
        let Some(slot) = ranks.unique_least() else {
            return None;
        };
        if ranks.rank(slot) == rank_of(states, came, stamps, slot) {
            return Some(slot);
        }
        note_true_rank(states, came, stamps, ranks, slot);
        left -= 1;
    }
    None
}

/// Notes the true rank of a slot.
#[inline(never)]
fn note_true_rank(
    states: &[Option<FlowState>],
    came: &Came,
    stamps: &Stamps,
    ranks: &mut Ranks,
    slot: u32,
)
    requires within { slot < vec_len stamps.now.last }
    requires small { slot < 2 ^ 31 }
    ensures slots { ranks.new.slots ≡ ranks.old.slots }
    ensures ranks { (other : ℕ) → other < ranks.old.slots
        → rank_at ranks.new.slots ranks.new.nodes.items other ≡ cond (nat_eq other slot)
        (rank_among states.now came.now.ids.items stamps.now.last.items slot)
        (rank_at ranks.old.slots ranks.old.nodes.items other) }
{
    ranks.set(slot, rank_of(states, came, stamps, slot));
}

/// The true rank of a slot, from its flows.
fn rank_of(states: &[Option<FlowState>], came: &Came, stamps: &Stamps, slot: u32) -> u128
    requires within { slot < vec_len stamps.now.last }
    requires small { slot < 2 ^ 31 }
    ensures { result ≡ rank_among states.now came.now.ids.items stamps.now.last.items slot }
{
    u128::from(room_class_of(states, came, slot)) * CLASS + u128::from(stamps.last(slot))
}

/// Whether a flow has a live stream.
#[tactic(auto, unfolding(crate::specs::Connections::has_live))]
fn lives(flow: Option<FlowState>) -> bool
    ensures { result ≡ spec_has_live flow }
{
    match flow {
        Some(flow) => flow.is_live(),
        None => false,
    }
}

/// How late the connection of a slot makes room: 0 without a live stream, 1 if segments of one flow
/// alone came, and 2 for any other.
fn room_class_of(states: &[Option<FlowState>], came: &Came, slot: u32) -> u32
    requires { slot < 2 ^ 31 }
    ensures class { result ≡ room_class_among states.now came.now.ids.items slot }
    ensures bound { result ≤ 2 }
{
    if !is_live(states, slot) {
        return 0;
    }
    if both_have_come(states, came, slot) {
        2
    } else {
        1
    }
}

/// Whether the connection of a slot has a live stream.
fn is_live(states: &[Option<FlowState>], slot: u32) -> bool
    requires { slot < 2 ^ 31 }
    ensures { result ≡ is_live_among states.now slot }
{
    has_live(states, 2 * slot) || has_live(states, 2 * slot + 1)
}

/// Whether segments of both flows of a slot's connection came since it became known.
fn both_have_come(states: &[Option<FlowState>], came: &Came, slot: u32) -> bool
    requires { slot < 2 ^ 31 }
    ensures { result ≡ both_have_come_among states.now came.now.ids.items slot }
{
    has_come(states, came, 2 * slot) && has_come(states, came, 2 * slot + 1)
}

/// Whether a stream of a flow is live.
fn has_live(states: &[Option<FlowState>], id: u32) -> bool
    ensures { result ≡ spec_has_live (get_or states.now id None) }
{
    lives(flow_at(states, id))
}

/// A flow from its first stream on.
fn flow_at(states: &[Option<FlowState>], id: u32) -> Option<FlowState>
    ensures { result ≡ get_or states.now id None }
{
    if (id as usize) < states.len() {
        return states[id as usize];
    }
    None
}

/// Whether segments of a flow came since its connection became known.
fn has_come(states: &[Option<FlowState>], came: &Came, id: u32) -> bool
    ensures { result ≡ has_come_among states.now came.now.ids.items id }
{
    flow_at(states, id).is_some() || came.at(id)
}
