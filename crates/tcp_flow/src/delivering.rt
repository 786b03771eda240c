//! Delivers payloads that are due to the live stream of a flow, or to one that begins in them.

ghost use Rattle.std.specs.Prelude.{◌≡◌, ◌≤◌, [], List, OnOk, OnErr, is_some, length, true};

use crate::flow::{CloseCause, FlowState, Listener, ListenerError, Start};
use crate::looking::{is_header_beginning, stream_begin_in};
use crate::tail::{FIRST_FIVE, Tail};
use tcp_waiting::{Arrival, Pool, WINDOW, age, ahead, is_to_come, onward};

impl FlowState {
    ghost use Rattle.tcp_waiting.specs.Payload.{Payload, payload};
    ghost use Rattle.tcp_flow.specs.Flow.{Flow, without_old_octets, delivered, taken, drained_due};
    ghost use Rattle.tcp_flow.specs.Flow.{all_delivered, cut_up, is_continued_by, looked_through, joined_to_tail, begun_if_awaited, started};
    ghost use Rattle.tcp_flow.specs.Flow.{start_at as spec_start_at, tail_continued_by};
    ghost use Rattle.tcp_flow.specs.Flow.{Event, number_after_octet as spec_number_after_octet};
    ghost use Rattle.tcp_flow.specs.State.{state, IsState};

    /// What is left of a payload without the octets before the number that is due. If the flow
    /// isn't in step and the payload begins more than `WINDOW` before that number, all of it is
    /// left.
    pub(crate) fn without_old_octets<'a>(&self, number: u32, octets: &'a [u8]) -> (u32, &'a [u8])
        ensures shorter { length result.1.now ≤ length octets.now }
        ensures left { (arrival : Arrival) → payload self.now.id result.0 result.1.now arrival
            ≡ without_old_octets self.now.next (is_some self.now.live)
            (payload self.now.id number octets.now arrival) }
    {
        let age = age(self.next, number);
        if age as usize > WINDOW && !self.is_in_step() {
            return (number, octets);
        }
        let old = (age as usize).min(octets.len());
        (onward(number, age as usize), &octets[old..])
    }

    /// Delivers octets to the live stream, and closes it if its reader is then at a fault.
    #[inline]
    fn deliver<T: Listener>(
        &mut self,
        number: u32,
        octets: &[u8],
        to: &mut T,
    ) -> Result<(), ListenerError>
        ensures id { self.new.id ≡ self.old.id }
        ensures does { (held : List Payload) (f : Flow) (arrival : Arrival)
            → IsState (T.observed to.old) self.old held f → OnOk result
            (IsState (T.observed to.new) self.new held
            (delivered T.reader f (payload self.old.id number octets.now arrival))) }
        ensures cause { OnErr result (T.failed to.new) }
    {
        self.next = onward(number, octets.len());
        if let Some(at) = to.on_octets(self.id, octets)? {
            self.since = self.number_after_octet(at);
            self.live = None;
            self.waits = false;
            to.on_close(self.id, CloseCause::Fault)?;
        }
        Ok(())
    }

    /// The number after an octet of the live stream. The octet is counted from 1.
    fn number_after_octet(&self, at: u64) -> u32
        ensures { result ≡ spec_number_after_octet (state self.now [] []) at }
    {
        onward(self.live.unwrap_or(self.next), at as usize)
    }

    /// What a stream begins with that begins at this number.
    fn start_at(&self, number: u32) -> Start
        ensures { result ≡ spec_start_at (state self.now [] []) number }
    {
        let passed = ahead(self.since, number);
        Start {
            number,
            passed,
            is_found: self.is_found || (!self.waits && (self.has_begun || 0 < passed)),
        }
    }

    /// Begins a stream at a number. This number is then due.
    fn begin_stream<T: Listener>(&mut self, number: u32, to: &mut T) -> Result<(), ListenerError>
        ensures id { self.new.id ≡ self.old.id }
        ensures does { (held : List Payload) (f : Flow)
            → IsState (T.observed to.old) self.old held f → OnOk result
            (IsState (T.observed to.new) self.new held (started f number)) }
        ensures cause { OnErr result (T.failed to.new) }
    {
        let start = self.start_at(number);
        to.on_begin(self.id, start)?;
        self.next = number;
        self.live = Some(number);
        self.waits = false;
        self.has_begun = true;
        self.is_found = start.is_found;
        self.tail = None;
        Ok(())
    }

    /// Begins the stream that the flow waits for, if it waits for one, at the number that is due.
    fn begin_if_awaited<T: Listener>(&mut self, to: &mut T) -> Result<(), ListenerError>
        ensures id { self.new.id ≡ self.old.id }
        ensures does { (held : List Payload) (f : Flow)
            → IsState (T.observed to.old) self.old held f → OnOk result
            (IsState (T.observed to.new) self.new held (begun_if_awaited f)) }
        ensures cause { OnErr result (T.failed to.new) }
    {
        if self.waits {
            return self.begin_stream(self.next, to);
        }
        Ok(())
    }

    /// Delivers octets in parts of these lengths, while the stream is live.
    fn deliver_parts<T: Listener>(
        &mut self,
        octets: &[u8],
        parts: &[u8],
        to: &mut T,
    ) -> Result<(), ListenerError>
        ensures id { self.new.id ≡ self.old.id }
        ensures does { (held : List Payload) (f : Flow) (arrival : Arrival)
            → IsState (T.observed to.old) self.old held f → OnOk result
            (IsState (T.observed to.new) self.new held
            (all_delivered T.reader f arrival (cut_up octets.now parts.now))) }
        ensures cause { OnErr result (T.failed to.new) }
    {
        if parts.is_empty() || !self.is_live() {
            return Ok(());
        }
        let end = (parts[0] as usize).min(octets.len());
        self.deliver(self.next, &octets[..end], to)?;
        self.deliver_parts(&octets[end..], &parts[1..], to)
    }

    /// The tail, if octets at this number go on from it.
    fn tail_continued_by(&self, number: u32, octets: &[u8]) -> Option<Tail>
        ensures { result ≡ tail_continued_by self.now.tail number octets.now }
    {
        let tail = self.tail?;
        if tail.is_continued_by(number, octets) {
            return Some(tail);
        }
        None
    }

    /// Takes a payload that goes on from the tail. If both together have fewer than six octets,
    /// they are the new tail. If not, a stream begins where the tail does.
    fn join_to_tail<T: Listener>(
        &mut self,
        number: u32,
        octets: &[u8],
        tail: Tail,
        to: &mut T,
    ) -> Result<(), ListenerError>
        requires { is_continued_by tail number octets.now ≡ true }
        ensures id { self.new.id ≡ self.old.id }
        ensures does { (held : List Payload) (f : Flow) (arrival : Arrival)
            → IsState (T.observed to.old) self.old held f → OnOk result
            (IsState (T.observed to.new) self.new held
            (joined_to_tail T.reader f (payload self.old.id number octets.now arrival) tail)) }
        ensures cause { OnErr result (T.failed to.new) }
    {
        let count = tail.octets as usize + octets.len();
        if count < 6 {
            to.on_looked_through(&FIRST_FIVE[..count]);
            self.tail = Some(tail.lengthened(octets.len() as u8));
            return Ok(());
        }
        self.begin_stream(tail.number, to)?;
        self.deliver_parts(&FIRST_FIVE, tail.parts(), to)?;
        if self.is_live() {
            return self.deliver(self.next, octets, to);
        }
        Ok(())
    }

    /// Looks through a payload, after the tail if it goes on from that. A stream begins in it, or
    /// it may be the new tail.
    fn look_through<T: Listener>(
        &mut self,
        number: u32,
        octets: &[u8],
        to: &mut T,
    ) -> Result<(), ListenerError>
        ensures id { self.new.id ≡ self.old.id }
        ensures does { (held : List Payload) (f : Flow) (arrival : Arrival)
            → IsState (T.observed to.old) self.old held f → OnOk result
            (IsState (T.observed to.new) self.new held
            (looked_through T.reader f (payload self.old.id number octets.now arrival)
            (tail_continued_by f.tail number octets.now))) }
        ensures cause { OnErr result (T.failed to.new) }
    {
        if let Some(tail) = self.tail_continued_by(number, octets) {
            return self.join_to_tail(number, octets, tail, to);
        }
        if let Some(at) = stream_begin_in(octets) {
            let number = onward(number, at);
            self.begin_stream(number, to)?;
            return self.deliver(number, &octets[at..], to);
        }
        to.on_looked_through(octets);
        if is_header_beginning(octets) {
            self.tail = Some(Tail::new(number, octets.len() as u8));
        }
        Ok(())
    }

    /// Takes a payload: delivers it to the stream that is live or waited for, or looks for the
    /// beginning of a stream in it.
    #[inline(always)]
    pub(crate) fn take<T: Listener>(
        &mut self,
        number: u32,
        octets: &[u8],
        arrival: Arrival,
        to: &mut T,
    ) -> Result<(), ListenerError>
        ensures id { self.new.id ≡ self.old.id }
        ensures does { (held : List Payload) (f : Flow)
            → IsState (T.observed to.old) self.old held f → OnOk result
            (IsState (T.observed to.new) self.new held
            (taken T.reader f (payload self.old.id number octets.now arrival))) }
        ensures cause { OnErr result (T.failed to.new) }
    {
        let (number, octets) = self.without_old_octets(number, octets);
        if octets.is_empty() {
            return Ok(());
        }
        to.on_arrival(arrival);
        if self.is_in_step() {
            self.begin_if_awaited(to)?;
            return self.deliver(number, octets, to);
        }
        self.look_through(number, octets, to)
    }

    /// Takes the first held payload while it is due.
    pub(crate) fn drain_due<T: Listener>(
        &mut self,
        pool: &mut Pool,
        to: &mut T,
    ) -> Result<(), ListenerError>
        ensures does { (f : Flow) → IsState (T.observed to.old) self.old pool.old.held f
            → OnOk result (IsState (T.observed to.new) self.new pool.new.held
            (drained_due T.reader f)) }
        ensures id { self.new.id ≡ self.old.id }
        ensures blocks { pool.new.blocks ≡ pool.old.blocks }
        ensures cause { OnErr result (T.failed to.new) }
    {
        let mut first = pool.oldest_index(self.id, self.next);
        while let Some(index) = first {
            let number = pool.number(index);
            if self.is_in_step() && is_to_come(self.next, number) {
                return Ok(());
            }
            self.take(number, pool.octets(index), pool.arrival(index), to)?;
            pool.remove(index);
            first = pool.oldest_index(self.id, self.next);
        }
        Ok(())
    }
}
