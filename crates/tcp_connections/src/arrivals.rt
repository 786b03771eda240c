//! What a segment brings the flows of its connection: what it says of octets that are missing, a
//! payload, with which a flow may begin, and a FIN.

ghost use Rattle.std.specs.Prelude.{◌≡◌, ◌≤◌, ◌<◌, ◌/◌, length, get_or, OnErr, None, Some};
ghost use Rattle.std.specs.Vec.{vec_len};
ghost use Rattle.tcp_segment.specs.Segments.{segment_view};
ghost use Rattle.tcp_connections.specs.Connections.{first_number as spec_first_number};
ghost use Rattle.tcp_connections.specs.Connections.{number_behind as spec_number_behind};

use crate::connections::Connections;
use tcp_flow::{FlowState, Heard, Listener, ListenerError, is_header_beginning, stream_begin_in};
use tcp_segment::{Flow, Segment};
use tcp_streams::Streams;
use tcp_waiting::onward;

impl Connections {
    ghost use Rattle.tcp_connections.specs.Connections.{is_first_payload, has_chosen_port, acknowledgement_heard, heard};
    ghost use Rattle.tcp_connections.specs.Connections.{payload_taken, began, arrived, fin_taken};
    ghost use Rattle.tcp_connections.specs.Connections.{State, looked_through, is_looked_through};
    ghost use Rattle.tcp_flow.specs.Flow.{End, Octets};
    ghost use Rattle.tcp_connections.specs.State.{IsState, HasState, Makes, MakesOver, times};

    /// Tells the opposite flow what a segment acknowledges of it, and whether the segment has
    /// octets.
    pub(crate) fn tell_acknowledgement<L: Listener + Drop>(
        &mut self,
        id: u32,
        segment: Segment<'_>,
        to: &mut Streams<L>,
    ) -> Result<(), ListenerError>
        requires state { HasState (L.observed to.old.listener) to.old.live.items self.old }
        ensures does { Makes result
            (λ w. acknowledgement_heard L.reader w id (segment_view segment.entry))
            (L.observed to.old.listener) to.old.live.items self.old
            (L.observed to.new.listener) to.new.live.items self.new }
        ensures cause { OnErr result (L.failed to.new.listener) }
    {
        let answers = !segment.payload.is_empty();
        self.hear(id, segment.acknowledgement, answers, to)
    }

    /// Tells a flow what the packet acknowledges of it, and whether it has octets of the opposite
    /// flow.
    #[inline]
    pub(crate) fn hear<L: Listener + Drop>(
        &mut self,
        id: u32,
        acknowledged: Option<u32>,
        answers: bool,
        to: &mut Streams<L>,
    ) -> Result<(), ListenerError>
        requires state { HasState (L.observed to.old.listener) to.old.live.items self.old }
        ensures does { Makes result (λ w. heard L.reader w id acknowledged answers)
            (L.observed to.old.listener) to.old.live.items self.old
            (L.observed to.new.listener) to.new.live.items self.new }
        ensures cause { OnErr result (L.failed to.new.listener) }
    {
        // If no payload waits, nothing is missing before one.
        if self.pool.len() == 0 {
            return Ok(());
        }
        self.hear_while_waiting(id, acknowledged, answers, to)
    }

    /// Does what `hear` does if a payload waits.
    #[inline(never)]
    fn hear_while_waiting<L: Listener + Drop>(
        &mut self,
        id: u32,
        acknowledged: Option<u32>,
        answers: bool,
        to: &mut Streams<L>,
    ) -> Result<(), ListenerError>
        requires state { HasState (L.observed to.old.listener) to.old.live.items self.old }
        ensures does { Makes result (λ w. heard L.reader w id acknowledged answers)
            (L.observed to.old.listener) to.old.live.items self.old
            (L.observed to.new.listener) to.new.live.items self.new }
        ensures cause { OnErr result (L.failed to.new.listener) }
    {
        let Some(mut flow) = self.flow(id) else {
            return Ok(());
        };
        let packet = Heard {
            acknowledged,
            answers,
            arrival: self.arrival,
        };
        if !flow.is_lost(packet, &self.pool) {
            return Ok(());
        }
        flow.hear(packet, &mut self.pool, to)?;
        self.flows.set(id, Some(flow));
        self.givers.note(id, &self.pool, to);
        Ok(())
    }

    /// Takes a payload: the first of its flow, or a later one.
    pub(crate) fn take_payload<L: Listener + Drop>(
        &mut self,
        id: u32,
        segment: Segment<'_>,
        to: &mut Streams<L>,
    ) -> Result<(), ListenerError>
        requires state { HasState (L.observed to.old.listener) to.old.live.items self.old }
        requires within { id < vec_len self.old.flows.states }
        requires whole { length segment.payload.now ≤ 262_144 }
        requires taken { 0 < times (id / 2) self.old.table.slots }
        ensures does { Makes result (λ w. payload_taken L.reader w id (segment_view segment.entry))
            (L.observed to.old.listener) to.old.live.items self.old
            (L.observed to.new.listener) to.new.live.items self.new }
        ensures cause { OnErr result (L.failed to.new.listener) }
    {
        let Some(flow) = self.flow(id) else {
            return self.take_first_payload(id, segment, to);
        };
        if segment.reset {
            return Ok(());
        }
        self.take_later_payload(id, flow, segment, to)?;
        self.relieve(to)
    }

    /// Takes a payload of a flow that has begun. Afterwards what is held may take more blocks than
    /// there are.
    #[inline]
    fn take_later_payload<L: Listener + Drop>(
        &mut self,
        id: u32,
        mut flow: FlowState,
        segment: Segment<'_>,
        to: &mut Streams<L>,
    ) -> Result<(), ListenerError>
        requires state { HasState (L.observed to.old.listener) to.old.live.items self.old }
        requires whole { length segment.payload.now ≤ 262_144 }
        requires flow { get_or self.old.flows.states.items id None ≡ Some flow }
        ensures does { MakesOver 0 256 result (λ w. arrived L.reader w id
            (Octets (spec_first_number (segment_view segment.entry))
            (segment_view segment.entry).payload w.arrival))
            (L.observed to.old.listener) to.old.live.items self.old
            (L.observed to.new.listener) to.new.live.items self.new }
        ensures cause { OnErr result (L.failed to.new.listener) }
    {
        flow.payload_came(
            first_number(segment),
            segment.payload,
            self.arrival,
            &mut self.pool,
            to,
        )?;
        self.flows.set(id, Some(flow));
        self.givers.note(id, &self.pool, to);
        Ok(())
    }

    /// Takes a payload of a flow for which nothing has come.
    fn take_first_payload<L: Listener + Drop>(
        &mut self,
        id: u32,
        segment: Segment<'_>,
        to: &mut Streams<L>,
    ) -> Result<(), ListenerError>
        requires state { HasState (L.observed to.old.listener) to.old.live.items self.old }
        requires within { id < vec_len self.old.flows.states }
        requires whole { length segment.payload.now ≤ 262_144 }
        requires taken { 0 < times (id / 2) self.old.table.slots }
        requires vacant { get_or self.old.flows.states.items id None ≡ None }
        ensures does { Makes result (λ w. payload_taken L.reader w id (segment_view segment.entry))
            (L.observed to.old.listener) to.old.live.items self.old
            (L.observed to.new.listener) to.new.live.items self.new }
        ensures cause { OnErr result (L.failed to.new.listener) }
    {
        if !self.is_first_payload(segment) {
            self.tell_looked_through(segment, to);
            return Ok(());
        }
        self.begin_flow(id, segment, to)
    }

    /// Tells that the payload of a segment was looked through and no stream begins in it, if it was
    /// looked through.
    pub(crate) fn tell_looked_through<L: Listener + Drop>(
        &self,
        segment: Segment<'_>,
        to: &mut Streams<L>,
    )
        ensures { (w : State) → IsState (L.observed to.old.listener) to.old.live.items self.now w
            → IsState (L.observed to.new.listener) to.new.live.items self.now
            (looked_through w (segment_view segment.entry)) }
    {
        if self.is_looked_through(segment) {
            to.on_looked_through(segment.payload);
        }
    }

    /// Whether a segment's payload is looked through if nothing has come for its flow.
    fn is_looked_through(&self, segment: Segment<'_>) -> bool
        ensures { result ≡ is_looked_through self.now.ports.items (segment_view segment.entry) }
    {
        !segment.reset && self.has_chosen_port(segment.flow) && !segment.payload.is_empty()
    }

    /// Begins a flow with its first payload.
    pub(crate) fn begin_flow<L: Listener + Drop>(
        &mut self,
        id: u32,
        segment: Segment<'_>,
        to: &mut Streams<L>,
    ) -> Result<(), ListenerError>
        requires state { HasState (L.observed to.old.listener) to.old.live.items self.old }
        requires within { id < vec_len self.old.flows.states }
        requires whole { length segment.payload.now ≤ 262_144 }
        requires taken { 0 < times (id / 2) self.old.table.slots }
        requires vacant { get_or self.old.flows.states.items id None ≡ None }
        ensures does { Makes result (λ w. began L.reader w id
            (spec_first_number (segment_view segment.entry)) (segment_view segment.entry).payload)
            (L.observed to.old.listener) to.old.live.items self.old
            (L.observed to.new.listener) to.new.live.items self.new }
        ensures cause { OnErr result (L.failed to.new.listener) }
    {
        let number = first_number(segment);
        let flow = FlowState::begin(
            id,
            number,
            segment.payload,
            self.arrival,
            &mut self.pool,
            to,
        )?;
        self.flows.set(id, Some(flow));
        self.givers.note(id, &self.pool, to);
        Ok(())
    }

    /// Whether a segment's payload is the first of its flow, for which nothing has come. The
    /// segment has no RST, one of its ports is chosen, and a stream begins in the payload or it is
    /// a beginning of a header.
    pub(crate) fn is_first_payload(&self, segment: Segment<'_>) -> bool
        ensures { result ≡ is_first_payload self.now.ports.items (segment_view segment.entry) }
    {
        !segment.reset
            && self.has_chosen_port(segment.flow)
            && (stream_begin_in(segment.payload).is_some() || is_header_beginning(segment.payload))
    }

    /// Whether one of a flow's ports is chosen. If no ports are named, all are.
    fn has_chosen_port(&self, flow: Flow) -> bool
        ensures { result ≡ has_chosen_port self.now.ports.items flow }
    {
        self.ports.is_empty()
            || self.ports.contains(&flow.from.port)
            || self.ports.contains(&flow.to.port)
    }

    /// Takes the FIN of a segment, if it has one.
    #[inline]
    pub(crate) fn take_fin<L: Listener + Drop>(
        &mut self,
        id: u32,
        segment: Segment<'_>,
        to: &mut Streams<L>,
    ) -> Result<(), ListenerError>
        requires state { HasState (L.observed to.old.listener) to.old.live.items self.old }
        ensures does { Makes result (λ w. fin_taken L.reader w id (segment_view segment.entry))
            (L.observed to.old.listener) to.old.live.items self.old
            (L.observed to.new.listener) to.new.live.items self.new }
        ensures cause { OnErr result (L.failed to.new.listener) }
    {
        if !segment.fin {
            return Ok(());
        }
        self.take_fin_of_flow(id, number_behind(segment), to)
    }

    /// Takes a FIN of a flow. Its number is that after the payload. There is no effect before the
    /// flow's first payload.
    #[inline(never)]
    fn take_fin_of_flow<L: Listener + Drop>(
        &mut self,
        id: u32,
        number: u32,
        to: &mut Streams<L>,
    ) -> Result<(), ListenerError>
        requires state { HasState (L.observed to.old.listener) to.old.live.items self.old }
        ensures does { Makes result (λ w. arrived L.reader w id (End number))
            (L.observed to.old.listener) to.old.live.items self.old
            (L.observed to.new.listener) to.new.live.items self.new }
        ensures cause { OnErr result (L.failed to.new.listener) }
    {
        let Some(mut flow) = self.flow(id) else {
            return Ok(());
        };
        flow.fin_came(number, &mut self.pool, to)?;
        self.flows.set(id, Some(flow));
        self.givers.note(id, &self.pool, to);
        Ok(())
    }
}

/// The number of a segment's first octet. A SYN has a number of its own.
fn first_number(segment: Segment<'_>) -> u32
    ensures { result ≡ spec_first_number (segment_view segment.entry) }
{
    onward(segment.sequence, usize::from(segment.syn))
}

/// The number after a segment's payload.
fn number_behind(segment: Segment<'_>) -> u32
    ensures { result ≡ spec_number_behind (segment_view segment.entry) }
{
    onward(first_number(segment), segment.payload.len())
}
