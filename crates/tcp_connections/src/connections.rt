//! The connections that are known, in memory that is allocated once, and what a segment does to
//! them.

ghost use Rattle.std.specs.Prelude.{◌≡◌, ◌≤◌, ◌<◌, ◌+◌, ◌/◌, ◌^◌, [], List, length, get_or, IfOk};
ghost use Rattle.std.specs.Prelude.{IfSome, IsTrue, OnOk, OnErr, Some, None, is_some, ◌||◌, ◌*◌, ℕ};
ghost use Rattle.std.specs.Vec.{vec_len};
ghost use Rattle.tcp_segment.specs.Segments.{segment_view};
ghost use Rattle.tcp_streams.specs.Pairs.{pair_of as spec_pair_of};
ghost use Rattle.tcp_connections.specs.Connections.{is_syn_to_keep as spec_is_syn_to_keep, is_expected_number as spec_is_expected_number};
ghost use Rattle.tcp_connections.specs.Connections.{is_near_due as spec_is_near_due};
ghost use Rattle.tcp_connections.specs.Connections.{begins_anew as spec_begins_anew};
ghost use Rattle.tcp_connections.specs.Connections.{answers_syn as spec_answers_syn};
ghost use Rattle.tcp_connections.specs.Connections.{follows_syn as spec_follows_syn};

use crate::flows::Flows;
use crate::givers::GapRanks;
use crate::guesses::Guesses;
use crate::syns::{KeptSyn, KeptSyns};
use arrayvec::ArrayVec;
use std::alloc::{AllocError, Global};
use tcp_flow::{CloseCause, FlowState, Listener, ListenerError};
use tcp_segment::Segment;
use tcp_slots::{FreeSlots, SlotTable};
use tcp_streams::{EndpointPair, Side, Streams, flow_from, flow_id, opposite_side, pair_of};
use tcp_waiting::{Arrival, Pool, onward};

/// The connections of a capture. The ids of a connection's flows depend on the slot that it has
/// while it is known.
#[derive(Drop)]
pub struct Connections {
    pub(crate) ports: ArrayVec<u16, 64>,
    pub(crate) table: SlotTable<EndpointPair>,
    pub(crate) free: FreeSlots,
    pub(crate) syns: KeptSyns,
    pub(crate) flows: Flows,
    pub(crate) pool: Pool,
    pub(crate) givers: GapRanks,
    segments: u64,
    /// The packet that is read.
    pub(crate) arrival: Arrival,
    /// Which slot the connection of a segment may have.
    guesses: Guesses,
}

/// How many buckets there are for each connection that may be known. The more buckets, the fewer are
/// shared.
const BUCKETS: usize = 8;

impl Connections {
    ghost use Rattle.tcp_flow.specs.Flow.{Event};
    ghost use Rattle.tcp_connections.specs.Connections.{none_known, stream_start_of, made_known, index_of};
    ghost use Rattle.tcp_connections.specs.Connections.{insertion_index, next_slot, unknown_taken};
    ghost use Rattle.tcp_connections.specs.Connections.{known_taken, step, syn_kept, with_packet, with_segment};
    ghost use Rattle.tcp_connections.specs.Known.{IsKnown};
    ghost use Rattle.tcp_connections.specs.State.{AreRanked, IsSound, HasState, Makes, state_of};

    /// No connection is known. At most `most` of them will be known at once, from 1 to 65,536.
    /// Payloads that wait take at most `blocks` blocks of 1,024 octets, up to 1,048,576 blocks. A
    /// stream begins only in a flow with one of the ports, or in any flow if there are no ports. No
    /// other call allocates.
    pub fn new(
        alloc: Global,
        most: u32,
        blocks: usize,
        ports: ArrayVec<u16, 64>,
    ) -> Result<Connections, AllocError>
        requires some { (1 ≤ most) × (most ≤ 65_536) }
        requires blocks { blocks ≤ 1_048_576 }
        ensures start { (events : List Event) → IfOk result (λ c.
            state_of c events ≡ none_known ports.items blocks most events) }
        ensures sound { IfOk result (λ c. IsSound (state_of c [])) }
        ensures free { IfOk result (λ c. c.free.most ≡ most) }
        ensures room { IfOk result (λ c. c.table.most ≡ most) }
        ensures ranked { (live : List ℕ) → IfOk result
            (λ c. AreRanked c.givers (2 * most) [] live) }
    {
        let table = SlotTable::new(alloc, most as usize)?;
        let free = FreeSlots::new(alloc, most)?;
        let syns = KeptSyns::new(alloc, most as usize)?;
        let flows = Flows::new(alloc, most)?;
        let pool = Pool::new(alloc, blocks, 2 * most as usize)?;
        let givers = GapRanks::new(alloc, 2 * most as usize)?;
        let guesses = Guesses::new(alloc, BUCKETS * most as usize)?;
        Ok(Connections {
            ports,
            table,
            free,
            syns,
            flows,
            pool,
            givers,
            segments: 0,
            arrival: Arrival {
                time: None,
                packet: 0,
            },
            guesses,
        })
    }

    /// Begins a packet, which came at a time in nanoseconds since 1970-01-01 UTC, if it has a time.
    /// The payloads that come next are of this packet.
    pub fn begin_packet(&mut self, time: Option<u128>)
        ensures does { (events : List Event) → state_of self.new events
            ≡ with_packet (state_of self.old events) time }
        ensures free { self.new.free.most ≡ self.old.free.most }
        ensures room { self.new.table.most ≡ self.old.table.most }
        ensures givers { self.new.givers ≡ self.old.givers }
    {
        self.arrival = Arrival {
            time,
            packet: self.arrival.packet.saturating_add(1),
        };
    }

    /// Takes a segment.
    pub fn take<L: Listener + Drop>(
        &mut self,
        segment: Segment<'_>,
        to: &mut Streams<L>,
    ) -> Result<(), ListenerError>
        requires state { HasState (L.observed to.old.listener) to.old.live.items self.old }
        requires whole { length segment.payload.now ≤ 262_144 }
        requires count { self.old.segments < 2 ^ 63 }
        ensures does { Makes result (λ w. step L.reader w (segment_view segment.entry))
            (L.observed to.old.listener) to.old.live.items self.old
            (L.observed to.new.listener) to.new.live.items self.new }
        ensures count { OnOk result (self.new.segments ≡ self.old.segments + 1) }
        ensures cause { OnErr result (L.failed to.new.listener) }
    {
        self.segments += 1;
        let (pair, side) = pair_of(segment.flow);
        let bucket = self.guesses.bucket(&pair);
        let Some(slot) = self.slot_of(&pair, bucket) else {
            return self.take_unknown(pair, side, segment, to);
        };
        self.guesses.note(bucket, slot);
        let id = flow_id(slot, side);
        if self.is_syn_to_keep(id, segment) {
            self.keep_syn(slot, id, segment);
            return Ok(());
        }
        if self.begins_anew(slot, id, segment) {
            self.end_connection(self.index_of(&pair), side, CloseCause::Syn, to)?;
            return self.take_unknown(pair, side, segment, to);
        }
        self.take_known(pair, slot, side, segment, to)
    }

    /// Takes a segment of the connection of a pair, which has this slot.
    fn take_known<L: Listener + Drop>(
        &mut self,
        pair: EndpointPair,
        slot: u32,
        side: Side,
        segment: Segment<'_>,
        to: &mut Streams<L>,
    ) -> Result<(), ListenerError>
        requires state { HasState (L.observed to.old.listener) to.old.live.items self.old }
        requires whole { length segment.payload.now ≤ 262_144 }
        requires flow { (spec_pair_of segment.flow).1 ≡ side }
        requires known { (index : ℕ)
            × IsKnown self.old.table.keys self.old.table.slots pair slot index }
        ensures does { (index : ℕ)
            → IsKnown self.old.table.keys self.old.table.slots pair slot index → Makes result
            (λ w. known_taken L.reader w index (segment_view segment.entry))
            (L.observed to.old.listener) to.old.live.items self.old
            (L.observed to.new.listener) to.new.live.items self.new }
        ensures cause { OnErr result (L.failed to.new.listener) }
    {
        let id = flow_id(slot, side);
        self.note(slot, id);
        self.tell_acknowledgement(flow_id(slot, opposite_side(side)), segment, to)?;
        self.take_payload(id, segment, to)?;
        self.take_fin(id, segment, to)?;
        self.take_reset(pair, slot, side, segment, to)?;
        self.hear(id, None, false, to)
    }

    /// Takes a segment of a connection that isn't known. It becomes known if a stream may begin in
    /// the segment.
    fn take_unknown<L: Listener + Drop>(
        &mut self,
        pair: EndpointPair,
        side: Side,
        segment: Segment<'_>,
        to: &mut Streams<L>,
    ) -> Result<(), ListenerError>
        requires state { HasState (L.observed to.old.listener) to.old.live.items self.old }
        requires whole { length segment.payload.now ≤ 262_144 }
        requires flow { spec_pair_of segment.flow ≡ (pair, side) }
        requires new { index_of pair self.old.table.keys ≡ None }
        ensures does { Makes result (λ w. unknown_taken L.reader w (segment_view segment.entry))
            (L.observed to.old.listener) to.old.live.items self.old
            (L.observed to.new.listener) to.new.live.items self.new }
        ensures cause { OnErr result (L.failed to.new.listener) }
    {
        if !self.is_first_payload(segment) {
            self.tell_looked_through(segment, to);
            return Ok(());
        }
        self.make_room(to)?;
        let slot = self.make_known(pair, to)?;
        let id = flow_id(slot, side);
        self.begin_flow(id, segment, to)?;
        self.take_fin(id, segment, to)
    }

    /// Makes a connection known. Answers its slot.
    fn make_known<L: Listener + Drop>(
        &mut self,
        pair: EndpointPair,
        to: &mut Streams<L>,
    ) -> Result<u32, ListenerError>
        requires state { HasState (L.observed to.old.listener) to.old.live.items self.old }
        requires new { index_of pair self.old.table.keys ≡ None }
        requires room { length self.old.table.keys < self.old.table.most }
        ensures does { Makes result (λ w. made_known w pair)
            (L.observed to.old.listener) to.old.live.items self.old
            (L.observed to.new.listener) to.new.live.items self.new }
        ensures slot { IfOk result (λ slot. slot ≡ next_slot self.old.free.free.items) }
        ensures cause { OnErr result (L.failed to.new.listener) }
    {
        let index = self.index_for(&pair);
        // There are as many free slots as connections that may still become known.
        let Some(slot) = self.free.take() else {
            return Err(ListenerError);
        };
        self.table.add(index, pair, slot);
        self.guesses.note(self.guesses.bucket(&pair), slot);
        self.flows.open(slot, self.segments);
        self.syns.set(slot, None);
        let lesser = flow_id(slot, Side::FromLesser);
        let greater = flow_id(slot, Side::FromGreater);
        to.on_new_flow(lesser, flow_from(pair, Side::FromLesser))?;
        to.on_new_flow(greater, flow_from(pair, Side::FromGreater))?;
        Ok(slot)
    }

    /// The slot of the connection of a pair, if it is known. The slot that is guessed for its bucket
    /// is looked at first.
    fn slot_of(&self, pair: &EndpointPair, bucket: usize) -> Option<u32>
        requires sound { IsSound (state_of self.now []) }
        ensures none { (result ≡ None) → index_of pair.now self.now.table.keys ≡ None }
        ensures some { IfSome result (λ slot. (index : ℕ)
            × IsKnown self.now.table.keys self.now.table.slots pair.now slot index) }
    {
        let guess = self.guesses.at(bucket);
        if self.is_slot_of(guess, pair) {
            return Some(guess);
        }
        match self.table.index(pair) {
            Ok(index) => Some(self.table.slot(index)),
            Err(_) => None,
        }
    }

    /// Whether a slot is surely that of the connection of a pair: this pair had it last, and it
    /// isn't free, since one of its flows has begun.
    #[inline]
    fn is_slot_of(&self, slot: u32, pair: &EndpointPair) -> bool
        requires sound { IsSound (state_of self.now []) }
        requires small { slot < 2 ^ 16 }
        ensures { IsTrue result → (index : ℕ)
            × IsKnown self.now.table.keys self.now.table.slots pair.now slot index }
    {
        match self.table.last_key(slot) {
            Some(key) => *key == *pair && self.has_begun(slot),
            None => false,
        }
    }

    /// Whether one of the flows of a slot has begun.
    #[inline]
    fn has_begun(&self, slot: u32) -> bool
        requires small { slot < 2 ^ 31 }
        ensures { result ≡ (is_some (get_or self.now.flows.states.items (2 * slot) None)
            || is_some (get_or self.now.flows.states.items (2 * slot + 1) None)) }
    {
        self.flow(flow_id(slot, Side::FromLesser)).is_some()
            || self.flow(flow_id(slot, Side::FromGreater)).is_some()
    }

    /// The index of a pair that is known.
    pub(crate) fn index_of(&self, pair: &EndpointPair) -> usize
        requires sound { IsSound (state_of self.now []) }
        requires known { (index : ℕ) × (index_of pair.now self.now.table.keys ≡ Some index) }
        ensures index { index_of pair.now self.now.table.keys ≡ Some result }
        ensures within { result < length self.now.table.keys }
    {
        match self.table.index(pair) {
            Ok(index) => index,
            Err(index) => index,
        }
    }

    /// The index at which a pair that isn't known would be inserted.
    fn index_for(&self, pair: &EndpointPair) -> usize
        requires sound { IsSound (state_of self.now []) }
        requires new { index_of pair.now self.now.table.keys ≡ None }
        ensures index { result ≡ insertion_index pair.now self.now.table.keys }
        ensures within { result ≤ length self.now.table.keys }
    {
        match self.table.index(pair) {
            Ok(index) => index,
            Err(index) => index,
        }
    }

    /// A flow from its first stream on, by its id.
    pub(crate) fn flow(&self, id: u32) -> Option<FlowState>
        ensures { result ≡ get_or self.now.flows.states.items id None }
    {
        self.flows.at(id)
    }

    /// Notes a segment of a flow of the connection of a slot.
    fn note(&mut self, slot: u32, id: u32)
        requires slot { slot < vec_len self.old.flows.stamps.last }
        requires own { id / 2 ≡ slot }
        ensures noted { (events : List Event) → state_of self.new events
            ≡ with_segment (state_of self.old events) slot id }
        ensures free { self.new.free.most ≡ self.old.free.most }
        ensures room { self.new.table.most ≡ self.old.table.most }
        ensures givers { self.new.givers ≡ self.old.givers }
    {
        self.flows.note(id, self.segments);
    }

    /// Keeps a SYN for the connection of a slot, in place of an older one.
    fn keep_syn(&mut self, slot: u32, flow: u32, segment: Segment<'_>)
        requires slot { slot < vec_len self.old.flows.stamps.last }
        requires own { flow / 2 ≡ slot }
        ensures kept { (events : List Event) → state_of self.new events
            ≡ syn_kept (state_of self.old events) slot flow (segment_view segment.entry) }
        ensures free { self.new.free.most ≡ self.old.free.most }
        ensures room { self.new.table.most ≡ self.old.table.most }
        ensures givers { self.new.givers ≡ self.old.givers }
    {
        self.note(slot, flow);
        let number = onward(segment.sequence, 1);
        self.syns.set(slot, Some(KeptSyn { flow, number }));
    }

    /// The number that the stream of a flow begins with, if it is live or waited for.
    pub(crate) fn stream_start_at(&self, id: u32) -> Option<u32>
        ensures { result ≡ stream_start_of (get_or self.now.flows.states.items id None) }
    {
        match self.flow(id) {
            Some(flow) => flow.stream_start(),
            None => None,
        }
    }

    /// Whether a segment is a SYN that is kept: it has no ACK, and the number after it isn't the
    /// flow's own.
    #[inline]
    fn is_syn_to_keep(&self, id: u32, segment: Segment<'_>) -> bool
        ensures { result ≡ spec_is_syn_to_keep (get_or self.now.flows.states.items id None)
            (segment_view segment.entry) }
    {
        segment.syn
            && segment.acknowledgement.is_none()
            && !self.is_expected_number(id, onward(segment.sequence, 1))
    }

    /// Whether a number is a flow's own: it is near the one that is due, or the stream begins with
    /// it that is live or waited for.
    fn is_expected_number(&self, id: u32, number: u32) -> bool
        ensures { result
            ≡ spec_is_expected_number (get_or self.now.flows.states.items id None) number }
    {
        self.is_near_due(id, number) || self.stream_start_at(id) == Some(number)
    }

    /// Whether a number is near the one that is due in a flow that has begun.
    pub(crate) fn is_near_due(&self, id: u32, number: u32) -> bool
        ensures { result ≡ spec_is_near_due (get_or self.now.flows.states.items id None) number }
    {
        match self.flow(id) {
            Some(flow) => flow.is_near(number),
            None => false,
        }
    }

    /// Whether a segment begins the connection of a slot anew: it answers the SYN that is kept, or
    /// follows it.
    #[inline]
    fn begins_anew(&self, slot: u32, id: u32, segment: Segment<'_>) -> bool
        ensures { result ≡ spec_begins_anew (get_or self.now.syns.kept.items slot None) id
            (segment_view segment.entry) }
    {
        match self.syns.at(slot) {
            Some(syn) => answers_syn(syn, id, segment) || follows_syn(syn, id, segment),
            None => false,
        }
    }
}

/// Whether a segment of the opposite flow has SYN and ACK, and acknowledges a SYN.
fn answers_syn(syn: KeptSyn, id: u32, segment: Segment<'_>) -> bool
    ensures { result ≡ spec_answers_syn syn id (segment_view segment.entry) }
{
    syn.flow != id && segment.syn && segment.acknowledgement == Some(syn.number)
}

/// Whether a segment has the payload that follows a SYN of its flow.
fn follows_syn(syn: KeptSyn, id: u32, segment: Segment<'_>) -> bool
    ensures { result ≡ spec_follows_syn syn id (segment_view segment.entry) }
{
    syn.flow == id
        && segment.sequence == syn.number
        && !segment.payload.is_empty()
        && !segment.syn
        && !segment.reset
}
