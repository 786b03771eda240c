//! The streams that live, or were closed by a gap or by the end of the capture, in the order in
//! which they began; and the listener to which they are told.

ghost use Rattle.std.specs.Prelude.{◌≡◌, ◌≤◌, ◌<◌, ◌^◌, [], length, get_or, IfOk, IfSome, None};
ghost use Rattle.std.specs.List.{last_or};
ghost use Rattle.tcp_streams.specs.Lives.{lives, with_closed, elder_side};

use crate::pair::Side;
use crate::queue::Queue;
use std::alloc::{AllocError, Global};
use tcp_flow::{CloseCause, Listener, ListenerError, Start};
use tcp_segment::Flow;
use tcp_waiting::Arrival;

/// A listener, and the flows whose last streams live, or were closed by a gap or by the end of the
/// capture, in the order in which these streams began. There is room for one stream of each flow.
#[derive(Drop)]
pub struct Streams<L: Listener + Drop> {
    /// The listener is told what happens.
    pub listener: L,
    live: Queue,
}

impl<L: Listener + Drop> Streams<L> {
    /// No stream lives at first. There is memory for one stream of each flow; no other call
    /// allocates. A flow of the first `connections` slots is found at once, and any other by a
    /// walk.
    pub fn new(alloc: Global, connections: u32, listener: L) -> Result<Streams<L>, AllocError>
        ensures is { IfOk result (λ s. s.listener ≡ listener) }
        ensures empty { IfOk result (λ s. s.live.items ≡ []) }
    {
        let live = Queue::new(alloc, 2 * connections as usize)?;
        Ok(Streams { listener, live })
    }

    /// The flow of the stream at this rank, counted from 0, among those that live or were closed by
    /// a gap or by the end of the capture.
    pub fn live(&self, rank: usize) -> Option<u32>
        ensures none { (result ≡ None) → length self.now.live.items ≤ rank }
        ensures some { IfSome result (λ id. (rank < length self.now.live.items)
            × (id ≡ get_or self.now.live.items rank 0)) }
        ensures few { IfSome result (λ id. rank < 262144) }
    {
        self.live.at(rank)
    }

    /// The flow of the stream that began last, among those that live or were closed by a gap or by
    /// the end of the capture.
    pub fn last(&mut self) -> Option<u32>
        ensures last { result ≡ last_or None self.old.live.items }
        ensures live { self.new.live ≡ self.old.live }
        ensures listener { self.new.listener ≡ self.old.listener }
    {
        self.live.last()
    }

    /// The side of the stream of a slot that began first.
    pub fn elder_side(&self, slot: u32) -> Side
        requires { slot < 2 ^ 31 }
        ensures { result ≡ elder_side slot self.now.live.items }
    {
        self.live.elder_side(slot)
    }

    /// How many streams live, or were closed by a gap or by the end of the capture.
    pub fn len(&self) -> usize
        ensures live { result ≡ length self.now.live.items }
        ensures few { result ≤ 262144 }
    {
        self.live.len()
    }

    /// Gives up the places of the streams that were taken away. After this, the stream at each rank
    /// is found at once, until a stream after it is taken away.
    pub fn pack(&mut self)
        ensures live { self.new.live ≡ self.old.live }
        ensures listener { self.new.listener ≡ self.old.listener }
    {
        self.live.pack();
    }
}

/// Closes the stream of a flow: the flow is taken away. If a gap closes the stream, the flow stays,
/// since it may wait for its next stream. If the end of the capture closes it, the flow stays too,
/// so that a caller can go through all streams in their order.
fn end(live: &mut Queue, flow: u32, cause: CloseCause)
    ensures { live.new.items ≡ with_closed flow cause live.old.items }
{
    match cause {
        CloseCause::Gap | CloseCause::End => {}
        CloseCause::Fin
        | CloseCause::Reset
        | CloseCause::Syn
        | CloseCause::Fault
        | CloseCause::Room => live.take_away(flow),
    }
}

impl<L: Listener + Drop> Listener for Streams<L> {
    ghost observed = { λ s events. L.observed s.listener events × (s.live.items ≡ lives events) };

    ghost failed = { λ s. L.failed s.listener };

    ghost reader = { L.reader };

    fn on_new_flow(&mut self, flow: u32, endpoints: Flow) -> Result<(), ListenerError> {
        self.listener.on_new_flow(flow, endpoints)
    }

    fn on_arrival(&mut self, arrival: Arrival) {
        self.listener.on_arrival(arrival);
    }

    fn on_looked_through(&mut self, octets: &[u8]) {
        self.listener.on_looked_through(octets);
    }

    fn on_begin(&mut self, flow: u32, start: Start) -> Result<(), ListenerError> {
        self.live.begin(flow);
        self.listener.on_begin(flow, start)
    }

    fn on_octets(&mut self, flow: u32, octets: &[u8]) -> Result<Option<u64>, ListenerError> {
        self.listener.on_octets(flow, octets)
    }

    fn message_lacks(&mut self, flow: u32) -> Result<Option<u32>, ListenerError> {
        self.listener.message_lacks(flow)
    }

    fn on_close(&mut self, flow: u32, cause: CloseCause) -> Result<(), ListenerError> {
        end(&mut self.live, flow, cause);
        self.listener.on_close(flow, cause)
    }
}
