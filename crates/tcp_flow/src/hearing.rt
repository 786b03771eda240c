//! What a packet of a flow's connection says of octets that are missing in the flow: that they were
//! received, or that they are too late.

ghost use Rattle.std.specs.Prelude.{◌≡◌, ◌≤◌, [], List, OnOk, OnErr, length, true, false};
ghost use Rattle.tcp_flow.specs.Flow.{acknowledges, gives_up, nanoseconds_since};
ghost use Rattle.std.specs.List.{AllByRecursion};

use crate::flow::{FlowState, Listener, ListenerError};
use tcp_waiting::{Arrival, Pool, is_to_come};

/// A second, in nanoseconds.
const SECOND: u128 = 1_000_000_000;

/// What a packet of a flow's connection says of octets that are missing in the flow.
#[derive(Clone, Copy, Drop)]
pub struct Heard {
    /// The number up to which the other side has received the flow's octets, if the packet says so.
    pub acknowledged: Option<u32>,
    /// Whether the packet has octets of the other side, which may answer what the flow holds.
    pub answers: bool,
    /// The packet.
    pub arrival: Arrival,
}

impl Heard {
    /// Whether the packet acknowledges octets after the number that is due.
    fn acknowledges(&self, next: u32) -> bool
        ensures { result ≡ acknowledges self.now next }
    {
        match self.acknowledged {
            Some(number) => is_to_come(next, number),
            None => false,
        }
    }

    /// How many nanoseconds after another packet this one came. None if one of the two has no time.
    fn nanoseconds_since(&self, since: Arrival) -> Option<u128>
        ensures { result ≡ nanoseconds_since since self.now.arrival }
    {
        match (since.time, self.arrival.time) {
            (Some(before), Some(time)) => Some(time.saturating_sub(before)),
            _ => None,
        }
    }

    /// Whether it is known that the packet gives up nothing: it acknowledges no octets after the
    /// number that is due, and all that waits came less than 30 seconds before it.
    fn surely_gives_up_nothing(&self, next: u32, pool: &Pool) -> bool
        ensures { result ≡ true → AllByRecursion
            (λ p. gives_up self.now next p.arrival ≡ false) pool.now.held }
    {
        if self.acknowledges(next) {
            return false;
        }
        match self.arrival.time {
            Some(time) => pool.surely_younger(30 * SECOND, time),
            None => true,
        }
    }

    /// Whether the octets are given up that are missing before a payload that came in packet
    /// `since`. If they are acknowledged, they were received: they are given up when the other side
    /// sends octets, or after a second. All others are given up after 30 seconds. If a time isn't
    /// known, it is as if a second had passed.
    fn gives_up(&self, next: u32, since: Arrival) -> bool
        ensures { result ≡ gives_up self.now next since }
    {
        let received = self.acknowledges(next);
        match self.nanoseconds_since(since) {
            None => received,
            Some(time) => (received && (self.answers || SECOND <= time)) || 30 * SECOND <= time,
        }
    }
}

impl FlowState {
    ghost use Rattle.std.specs.Prelude.{false};
    ghost use Rattle.tcp_waiting.specs.Payload.{Payload, blocks_of};
    ghost use Rattle.tcp_flow.specs.Flow.{Flow, Event, Hears, heard, held_by_others, step};
    ghost use Rattle.tcp_flow.specs.Flow.{is_lost as spec_is_lost};
    ghost use Rattle.tcp_flow.specs.Laws.{IsGapless, HoldsOnlyToCome};
    ghost use Rattle.tcp_flow.specs.State.{state, IsState};

    /// Hears a packet of the flow's connection, and gives up what is missing if the packet says so.
    pub fn hear<T: Listener>(
        &mut self,
        packet: Heard,
        pool: &mut Pool,
        to: &mut T,
    ) -> Result<(), ListenerError>
        ensures does { (f : Flow) → IsState (T.observed to.old) self.old pool.old.held f
            → OnOk result (IsState (T.observed to.new) self.new pool.new.held
            (step T.reader f (Hears packet))) }
        ensures gapless { (payloads : List Payload) (f : Flow)
            → IsState (T.observed to.old) self.old pool.old.held f → IsGapless payloads f
            → OnOk result (IsGapless payloads
            (step T.reader f (Hears packet))) }
        ensures beside { (f : Flow) → IsState (T.observed to.old) self.old pool.old.held f
            → OnOk result (held_by_others self.old.id pool.new.held
            ≡ held_by_others self.old.id pool.old.held) }
        ensures room { (f : Flow) → IsState (T.observed to.old) self.old pool.old.held f
            → OnOk result (blocks_of pool.new.held ≤ blocks_of pool.old.held) }
        ensures settled { (f : Flow) → IsState (T.observed to.old) self.old pool.old.held f
            → HoldsOnlyToCome (state self.old pool.old.held [])
            → OnOk result (HoldsOnlyToCome (state self.new pool.new.held [])) }
        ensures over { (f : Flow) → IsState (T.observed to.old) self.old pool.old.held f
            → OnOk result (spec_is_lost packet (state self.new pool.new.held f.events) ≡ false) }
        ensures id { self.new.id ≡ self.old.id }
        ensures blocks { pool.new.blocks ≡ pool.old.blocks }
        ensures cause { OnErr result (T.failed to.new) }
    {
        self.give_up(packet, pool, to)?;
        // It is read so that the prover knows its range.
        let _next = self.next;
        Ok(())
    }

    /// Makes gaps while the packet says that what is missing is given up.
    fn give_up<T: Listener>(
        &mut self,
        packet: Heard,
        pool: &mut Pool,
        to: &mut T,
    ) -> Result<(), ListenerError>
        ensures does { (f : Flow) → IsState (T.observed to.old) self.old pool.old.held f
            → OnOk result (IsState (T.observed to.new) self.new pool.new.held
            (heard T.reader (length pool.old.held) packet f)) }
        ensures id { self.new.id ≡ self.old.id }
        ensures blocks { pool.new.blocks ≡ pool.old.blocks }
        ensures cause { OnErr result (T.failed to.new) }
    {
        let mut left = pool.len();
        while left > 0 {
            if !self.is_lost(packet, pool) {
                return Ok(());
            }
            self.make_gap(pool, to)?;
            left -= 1;
        }
        Ok(())
    }

    /// Whether what is missing before the first payload that the flow holds is given up.
    pub fn is_lost(&self, packet: Heard, pool: &Pool) -> bool
        ensures { (events : List Event) → result
            ≡ spec_is_lost packet (state self.now pool.now.held events) }
    {
        if packet.surely_gives_up_nothing(self.next, pool) {
            return false;
        }
        match pool.oldest_index(self.id, self.next) {
            Some(first) => packet.gives_up(self.next, pool.arrival(first)),
            None => false,
        }
    }
}
