//! What comes for a flow: its first payload, later ones, and its FIN.

ghost use Rattle.std.specs.Prelude.{◌≡◌, ◌≤◌, ◌∷◌, ◌++◌, ◌+◌, [], List, IfOk, OnOk, OnErr, length};

use crate::flow::{FlowState, Listener, ListenerError};
use tcp_waiting::{Arrival, Pool, age, is_to_come};

impl FlowState {
    ghost use Rattle.std.specs.Prelude.{◌&&◌, is_some, not, false};
    ghost use Rattle.tcp_waiting.specs.Numbers.{is_to_come as spec_is_to_come};
    ghost use Rattle.tcp_waiting.specs.Payload.{Payload, payload, blocks_of, oldest_index};
    ghost use Rattle.tcp_flow.specs.Flow.{Flow, Event, End, Octets};
    ghost use Rattle.tcp_flow.specs.Flow.{fin_came, payload_came};
    ghost use Rattle.tcp_flow.specs.Flow.{first_payload, fresh, held_by_others, step};
    ghost use Rattle.tcp_flow.specs.Laws.{IsGapless, HoldsOnlyToCome};
    ghost use Rattle.tcp_flow.specs.State.{state, IsState};

    /// Begins a flow with its first payload, whose number is due.
    pub fn begin<T: Listener>(
        id: u32,
        number: u32,
        octets: &[u8],
        arrival: Arrival,
        pool: &mut Pool,
        to: &mut T,
    ) -> Result<FlowState, ListenerError>
        requires whole { length octets.now ≤ 262_144 }
        requires room { blocks_of pool.old.held ≤ pool.old.blocks }
        requires none { is_some (oldest_index id number pool.old.held) ≡ false }
        ensures does { (events : List Event) → T.observed to.old events → IfOk result (λ flow.
            IsState (T.observed to.new) flow pool.new.held
            (first_payload T.reader id number octets.now arrival
            pool.old.held events)) }
        ensures gapless { (payloads : List Payload) (events : List Event)
            → T.observed to.old events → IsGapless payloads (fresh id number pool.old.held events)
            → OnOk result (IsGapless (payloads ++ payload id number octets.now arrival ∷ [])
            (first_payload T.reader id number octets.now arrival
            pool.old.held events)) }
        ensures beside { (events : List Event) → T.observed to.old events
            → OnOk result (held_by_others id pool.new.held ≡ held_by_others id pool.old.held) }
        ensures room { (events : List Event) → T.observed to.old events
            → OnOk result (blocks_of pool.new.held ≤ pool.new.blocks) }
        ensures settled { (events : List Event) → T.observed to.old events
            → IfOk result (λ flow. HoldsOnlyToCome (state flow pool.new.held [])) }
        ensures id { IfOk result (λ flow. flow.id ≡ id) }
        ensures blocks { pool.new.blocks ≡ pool.old.blocks }
        ensures cause { OnErr result (T.failed to.new) }
    {
        let mut flow = FlowState::new(id, number);
        flow.payload_came(number, octets, arrival, pool, to)?;
        Ok(flow)
    }

    /// Takes a payload of the flow.
    #[inline(always)]
    pub fn payload_came<T: Listener>(
        &mut self,
        number: u32,
        octets: &[u8],
        arrival: Arrival,
        pool: &mut Pool,
        to: &mut T,
    ) -> Result<(), ListenerError>
        requires whole { length octets.now ≤ 262_144 }
        requires room { blocks_of pool.old.held ≤ pool.old.blocks }
        requires settled { HoldsOnlyToCome (state self.old pool.old.held []) }
        ensures does { (f : Flow) → IsState (T.observed to.old) self.old pool.old.held f
            → OnOk result (IsState (T.observed to.new) self.new pool.new.held
            (step T.reader f (Octets number octets.now arrival))) }
        ensures gapless { (payloads : List Payload) (f : Flow)
            → IsState (T.observed to.old) self.old pool.old.held f → IsGapless payloads f
            → OnOk result (IsGapless
            (payloads ++ payload self.old.id number octets.now arrival ∷ [])
            (step T.reader f (Octets number octets.now arrival))) }
        ensures beside { (f : Flow) → IsState (T.observed to.old) self.old pool.old.held f
            → OnOk result (held_by_others self.old.id pool.new.held
            ≡ held_by_others self.old.id pool.old.held) }
        ensures room { (f : Flow) → IsState (T.observed to.old) self.old pool.old.held f
            → OnOk result (blocks_of pool.new.held ≤ pool.new.blocks + 256) }
        ensures settled { (f : Flow) → IsState (T.observed to.old) self.old pool.old.held f
            → OnOk result (HoldsOnlyToCome (state self.new pool.new.held [])) }
        ensures id { self.new.id ≡ self.old.id }
        ensures blocks { pool.new.blocks ≡ pool.old.blocks }
        ensures cause { OnErr result (T.failed to.new) }
    {
        self.take_payload(number, octets, arrival, pool, to)?;
        // It is read so that the prover knows its range.
        let _next = self.next;
        Ok(())
    }

    /// Takes a FIN of the flow. Its number is that after the payload of its segment.
    pub fn fin_came<T: Listener>(
        &mut self,
        number: u32,
        pool: &mut Pool,
        to: &mut T,
    ) -> Result<(), ListenerError>
        ensures does { (f : Flow) → IsState (T.observed to.old) self.old pool.old.held f
            → OnOk result (IsState (T.observed to.new) self.new pool.new.held
            (step T.reader f (End number))) }
        ensures gapless { (payloads : List Payload) (f : Flow)
            → IsState (T.observed to.old) self.old pool.old.held f → IsGapless payloads f
            → OnOk result (IsGapless payloads
            (step T.reader f (End number))) }
        ensures beside { (f : Flow) → IsState (T.observed to.old) self.old pool.old.held f
            → OnOk result (held_by_others self.old.id pool.new.held
            ≡ held_by_others self.old.id pool.old.held) }
        ensures room { (f : Flow) → IsState (T.observed to.old) self.old pool.old.held f
            → OnOk result (blocks_of pool.new.held ≤ blocks_of pool.old.held) }
        ensures settled { (f : Flow) → IsState (T.observed to.old) self.old pool.old.held f
            → HoldsOnlyToCome (state self.old pool.old.held [])
            → OnOk result (HoldsOnlyToCome (state self.new pool.new.held [])) }
        ensures id { self.new.id ≡ self.old.id }
        ensures blocks { pool.new.blocks ≡ pool.old.blocks }
        ensures cause { OnErr result (T.failed to.new) }
    {
        self.take_fin(number, pool, to)?;
        // It is read so that the prover knows its range.
        let _next = self.next;
        Ok(())
    }

    /// Takes a payload, and closes gaps afterwards if the flow holds too much.
    #[inline(always)]
    fn take_payload<T: Listener>(
        &mut self,
        number: u32,
        octets: &[u8],
        arrival: Arrival,
        pool: &mut Pool,
        to: &mut T,
    ) -> Result<(), ListenerError>
        requires whole { length octets.now ≤ 262_144 }
        requires room { blocks_of pool.old.held ≤ pool.old.blocks }
        requires settled { HoldsOnlyToCome (state self.old pool.old.held []) }
        ensures does { (f : Flow) → IsState (T.observed to.old) self.old pool.old.held f
            → OnOk result (IsState (T.observed to.new) self.new pool.new.held
            (payload_came T.reader f (payload self.old.id number octets.now arrival))) }
        ensures id { self.new.id ≡ self.old.id }
        ensures blocks { pool.new.blocks ≡ pool.old.blocks }
        ensures cause { OnErr result (T.failed to.new) }
    {
        let (number, octets) = self.without_old_octets(number, octets);
        if octets.is_empty() {
            return Ok(());
        }
        if self.is_due(number) {
            let count = pool.len() + 1;
            self.take(number, octets, arrival, to)?;
            if self.keeps_nothing(pool) {
                return Ok(());
            }
            self.go_on_with_held(pool, to)?;
            return self.keep_within_window(count, pool, to);
        }
        if pool.holds_as_long(self.id, number, octets.len()) {
            return Ok(());
        }
        let count = pool.len() + 1;
        pool.hold(self.id, self.next, number, octets, arrival);
        // All held payloads are to come, so nothing is looked for.
        self.go_on_with_none_due(pool, to)?;
        self.keep_within_window(count, pool, to)
    }

    /// Whether a payload at this number is taken at once.
    fn is_due(&self, number: u32) -> bool
        ensures { result ≡ not (is_some self.now.live && spec_is_to_come self.now.next number) }
    {
        !(self.is_in_step() && is_to_come(self.next, number))
    }

    /// Whether the flow keeps neither a payload nor a FIN for later, and so has nothing to go on
    /// with.
    #[inline]
    fn keeps_nothing(&self, pool: &Pool) -> bool
        ensures { result ≡ (not (is_some (oldest_index self.now.id self.now.next pool.now.held))
            && not (is_some self.now.fin)) }
    {
        !self.holds_payload(pool) && !self.has_fin()
    }

    /// Takes a FIN. Its number is that after the payload of its segment.
    fn take_fin<T: Listener>(
        &mut self,
        number: u32,
        pool: &mut Pool,
        to: &mut T,
    ) -> Result<(), ListenerError>
        ensures does { (f : Flow) → IsState (T.observed to.old) self.old pool.old.held f
            → OnOk result (IsState (T.observed to.new) self.new pool.new.held
            (fin_came T.reader f number)) }
        ensures id { self.new.id ≡ self.old.id }
        ensures blocks { pool.new.blocks ≡ pool.old.blocks }
        ensures cause { OnErr result (T.failed to.new) }
    {
        if self.is_in_step() && age(self.next, number) == 0 {
            self.fin = Some(number);
            return self.go_on_with_held(pool, to);
        }
        Ok(())
    }
}
