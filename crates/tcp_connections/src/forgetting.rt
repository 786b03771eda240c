//! Forgets connections, for a RST or a SYN, or to make room for another: first those without a live
//! stream, then those of which segments of one flow alone came. What they hold is shown before.

ghost use Rattle.std.specs.Prelude.{◌≡◌, ◌<◌, ◌^◌, ℕ, [], List, length, cond, OnOk, OnErr};
ghost use Rattle.tcp_segment.specs.Segments.{segment_view};
ghost use Rattle.tcp_waiting.specs.Payload.{count_of};

use crate::connections::Connections;
use tcp_flow::{CloseCause, Listener, ListenerError};
use tcp_segment::Segment;
use tcp_streams::{EndpointPair, Side, Streams, flow_id, opposite_side};

impl Connections {
    ghost use Rattle.tcp_flow.specs.Flow.{Event};
    ghost use Rattle.tcp_connections.specs.Connections.{makes_room_before, eldest, reset_taken};
    ghost use Rattle.tcp_connections.specs.Connections.{flow_forgotten, forgotten, with_room};
    ghost use Rattle.tcp_connections.specs.Connections.{cleared, emptied, ended_by, shown};
    ghost use Rattle.tcp_connections.specs.Known.{IsKnown};
    ghost use Rattle.tcp_connections.specs.State.{IsSound, HasState, Makes, state_of};

    /// Takes the RST of a segment, if it has one. If the RST counts, the connection is forgotten.
    pub(crate) fn take_reset<L: Listener + Drop>(
        &mut self,
        pair: EndpointPair,
        slot: u32,
        side: Side,
        segment: Segment<'_>,
        to: &mut Streams<L>,
    ) -> Result<(), ListenerError>
        requires state { HasState (L.observed to.old.listener) to.old.live.items self.old }
        requires known { (index : ℕ)
            × IsKnown self.old.table.keys self.old.table.slots pair slot index }
        ensures does { (index : ℕ)
            → IsKnown self.old.table.keys self.old.table.slots pair slot index → Makes result
            (λ w. reset_taken L.reader w index side (segment_view segment.entry))
            (L.observed to.old.listener) to.old.live.items self.old
            (L.observed to.new.listener) to.new.live.items self.new }
        ensures cause { OnErr result (L.failed to.new.listener) }
    {
        if !segment.reset {
            return Ok(());
        }
        if !self.is_near_due(flow_id(slot, side), segment.sequence) {
            return Ok(());
        }
        self.end_connection(self.index_of(&pair), side, CloseCause::Reset, to)
    }

    /// Shows what a connection holds and forgets it, because of a segment of one side.
    pub(crate) fn end_connection<L: Listener + Drop>(
        &mut self,
        index: usize,
        side: Side,
        cause: CloseCause,
        to: &mut Streams<L>,
    ) -> Result<(), ListenerError>
        requires state { HasState (L.observed to.old.listener) to.old.live.items self.old }
        requires index { index < length self.old.table.keys }
        ensures does { Makes result (λ w. ended_by L.reader w index side cause)
            (L.observed to.old.listener) to.old.live.items self.old
            (L.observed to.new.listener) to.new.live.items self.new }
        ensures cause { OnErr result (L.failed to.new.listener) }
    {
        let slot = self.table.slot(index);
        self.show_held(slot, side, to)?;
        self.forget_connection(index, side, cause, to)
    }

    /// Shows what the flows of a slot hold, before its connection is forgotten. The flow of this
    /// side is the first.
    fn show_held<L: Listener + Drop>(
        &mut self,
        slot: u32,
        side: Side,
        to: &mut Streams<L>,
    ) -> Result<(), ListenerError>
        requires state { HasState (L.observed to.old.listener) to.old.live.items self.old }
        requires slot { slot < 2 ^ 31 }
        ensures does { Makes result (λ w. shown L.reader w slot side)
            (L.observed to.old.listener) to.old.live.items self.old
            (L.observed to.new.listener) to.new.live.items self.new }
        ensures cause { OnErr result (L.failed to.new.listener) }
    {
        self.empty_flow(flow_id(slot, side), to)?;
        self.empty_flow(flow_id(slot, opposite_side(side)), to)
    }

    /// Makes gaps in a flow until it holds nothing.
    fn empty_flow<L: Listener + Drop>(
        &mut self,
        id: u32,
        to: &mut Streams<L>,
    ) -> Result<(), ListenerError>
        requires state { HasState (L.observed to.old.listener) to.old.live.items self.old }
        ensures does { Makes result (λ w. emptied L.reader w id)
            (L.observed to.old.listener) to.old.live.items self.old
            (L.observed to.new.listener) to.new.live.items self.new }
        ensures none { OnOk result (count_of id self.new.pool.held ≡ 0) }
        ensures cause { OnErr result (L.failed to.new.listener) }
    {
        let mut left = self.pool.len();
        while left > 0 {
            if !self.is_holding(id) {
                return Ok(());
            }
            self.make_gap(id, to)?;
            left -= 1;
        }
        Ok(())
    }

    /// Forgets a connection: first the flow of this side, then the other.
    pub(crate) fn forget_connection<L: Listener + Drop>(
        &mut self,
        index: usize,
        side: Side,
        cause: CloseCause,
        to: &mut Streams<L>,
    ) -> Result<(), ListenerError>
        requires state { HasState (L.observed to.old.listener) to.old.live.items self.old }
        requires index { index < length self.old.table.keys }
        ensures does { Makes result (λ w. forgotten w index side cause)
            (L.observed to.old.listener) to.old.live.items self.old
            (L.observed to.new.listener) to.new.live.items self.new }
        ensures cause { OnErr result (L.failed to.new.listener) }
    {
        let slot = self.table.slot(index);
        self.forget_flow(flow_id(slot, side), cause, to)?;
        self.forget_flow(flow_id(slot, opposite_side(side)), cause, to)?;
        self.table.forget(index);
        self.free.give_back(slot);
        Ok(())
    }

    /// Forgets a flow: its live stream closes, and what it holds is removed.
    fn forget_flow<L: Listener + Drop>(
        &mut self,
        id: u32,
        cause: CloseCause,
        to: &mut Streams<L>,
    ) -> Result<(), ListenerError>
        requires state { HasState (L.observed to.old.listener) to.old.live.items self.old }
        ensures does { Makes result (λ w. flow_forgotten w id cause)
            (L.observed to.old.listener) to.old.live.items self.old
            (L.observed to.new.listener) to.new.live.items self.new }
        ensures cause { OnErr result (L.failed to.new.listener) }
    {
        let Some(mut flow) = self.flow(id) else {
            return Ok(());
        };
        flow.close(cause, to)?;
        flow.remove_held(&mut self.pool);
        self.flows.set(id, None);
        self.givers.note(id, &self.pool, to);
        Ok(())
    }

    /// Makes room for a connection if no more may be known.
    pub(crate) fn make_room<L: Listener + Drop>(
        &mut self,
        to: &mut Streams<L>,
    ) -> Result<(), ListenerError>
        requires state { HasState (L.observed to.old.listener) to.old.live.items self.old }
        ensures does { Makes result (λ w. with_room L.reader w)
            (L.observed to.old.listener) to.old.live.items self.old
            (L.observed to.new.listener) to.new.live.items self.new }
        ensures cause { OnErr result (L.failed to.new.listener) }
    {
        if !self.table.is_full() {
            return Ok(());
        }
        let index = self.find_eldest();
        self.clear_connection(index, to)
    }

    /// Shows what the connection at an index holds and forgets it. Of its flows, the one whose
    /// stream began first comes first.
    fn clear_connection<L: Listener + Drop>(
        &mut self,
        index: usize,
        to: &mut Streams<L>,
    ) -> Result<(), ListenerError>
        requires state { HasState (L.observed to.old.listener) to.old.live.items self.old }
        requires index { index < length self.old.table.keys }
        ensures does { Makes result (λ w. cleared L.reader w index)
            (L.observed to.old.listener) to.old.live.items self.old
            (L.observed to.new.listener) to.new.live.items self.new }
        ensures cause { OnErr result (L.failed to.new.listener) }
    {
        let slot = self.table.slot(index);
        self.show_held(slot, to.elder_side(slot), to)?;
        self.forget_connection(index, to.elder_side(slot), CloseCause::Room, to)
    }

    /// The index of the connection that makes room: found by the ranks, or by looking at all if two
    /// slots have the least rank.
    fn find_eldest(&mut self) -> usize
        requires sound { IsSound (state_of self.old []) }
        requires some { 0 < length self.old.table.keys }
        ensures index { result ≡ eldest (state_of self.old []) (length self.old.table.keys) }
        ensures within { result < length self.new.table.keys }
        ensures same { (events : List Event) → state_of self.new events
            ≡ state_of self.old events }
        ensures free { self.new.free.most ≡ self.old.free.most }
        ensures room { self.new.table.most ≡ self.old.table.most }
        ensures givers { self.new.givers ≡ self.old.givers }
    {
        if let Some(slot) = self.flows.slot_that_makes_room()
            && let Some(index) = self.table.index_of_slot(slot)
        {
            return index;
        }
        self.eldest_by_walk()
    }

    /// The index of the connection that makes room, found by looking at all.
    fn eldest_by_walk(&self) -> usize
        requires sound { IsSound (state_of self.now []) }
        requires some { 0 < length self.now.table.keys }
        ensures index { result ≡ eldest (state_of self.now []) (length self.now.table.keys) }
        ensures within { result < length self.now.table.keys }
    {
        let mut best = 0;
        let mut index = 0;
        while index < self.table.len() {
            best = self.elder(index, best);
            index += 1;
        }
        best
    }

    /// The one of two indices whose connection makes room before that of the other.
    fn elder(&self, index: usize, best: usize) -> usize
        requires sound { IsSound (state_of self.now []) }
        requires index { index < length self.now.table.keys }
        requires within { best < length self.now.table.keys }
        ensures index { result
            ≡ cond (makes_room_before (state_of self.now []) index best) index best }
        ensures within { result < length self.now.table.keys }
    {
        if self.makes_room_before(index, best) {
            index
        } else {
            best
        }
    }

    /// Whether the connection at one index makes room before that at another.
    fn makes_room_before(&self, index: usize, other: usize) -> bool
        requires sound { IsSound (state_of self.now []) }
        requires index { index < length self.now.table.keys }
        requires other { other < length self.now.table.keys }
        ensures { result ≡ makes_room_before (state_of self.now []) index other }
    {
        self.flows
            .makes_room_before(self.table.slot(index), self.table.slot(other))
    }
}
