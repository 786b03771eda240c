//! What a flow gives up: octets that are missing, which is a gap, and again while what it holds
//! ends too far; and all that it holds when it is forgotten.

ghost use Rattle.std.specs.Prelude.{◌≡◌, ◌<◌, ◌≤◌, [], List, IfOk, OnOk, OnErr, is_some, length, true};
ghost use Rattle.tcp_flow.specs.Flow.{passable_octets as spec_passable_octets};

use crate::flow::{CloseCause, FlowState, Listener, ListenerError};
use tcp_waiting::{Pool, is_to_come, onward};

/// How many octets a gap passes over: all that the message lacks, if they are fewer than 2^31 and
/// the first held payload, at `number`, begins no further on than they end.
#[tactic(auto, unfolding(crate::specs::Flow::passable_octets))]
fn passable_octets(next: u32, number: u32, lacking: Option<u32>) -> Option<u32>
    ensures { result ≡ spec_passable_octets next number lacking }
{
    match lacking {
        Some(count) if count < 0x8000_0000 && !is_to_come(onward(next, count as usize), number) => {
            Some(count)
        }
        _ => None,
    }
}

impl FlowState {
    ghost use Rattle.tcp_waiting.specs.Payload.{Payload, blocks_of, oldest_index};
    ghost use Rattle.tcp_flow.specs.Flow.{Flow, Event, without_held, with_gap as spec_with_gap};
    ghost use Rattle.tcp_flow.specs.Flow.{held_by_others, within_window};
    ghost use Rattle.tcp_flow.specs.Flow.{closed_for_gap, octets_passed_over as spec_octets_passed_over};
    ghost use Rattle.tcp_flow.specs.Laws.{IsGapless, HoldsOnlyToCome};
    ghost use Rattle.tcp_flow.specs.State.{state, IsState};

    /// Closes the live stream for a gap and goes on. If it is known how the message ends that the
    /// stream is in, the flow goes on after it. If the flow held payloads, it holds fewer
    /// afterwards.
    pub fn make_gap<T: Listener>(
        &mut self,
        pool: &mut Pool,
        to: &mut T,
    ) -> Result<(), ListenerError>
        ensures does { (f : Flow) → IsState (T.observed to.old) self.old pool.old.held f
            → OnOk result (IsState (T.observed to.new) self.new pool.new.held
            (spec_with_gap T.reader f)) }
        ensures gapless { (payloads : List Payload) (f : Flow)
            → IsState (T.observed to.old) self.old pool.old.held f → IsGapless payloads f
            → OnOk result (IsGapless payloads (spec_with_gap T.reader f)) }
        ensures beside { (f : Flow) → IsState (T.observed to.old) self.old pool.old.held f
            → OnOk result (held_by_others self.old.id pool.new.held
            ≡ held_by_others self.old.id pool.old.held) }
        ensures room { (f : Flow) → IsState (T.observed to.old) self.old pool.old.held f
            → OnOk result (blocks_of pool.new.held ≤ blocks_of pool.old.held) }
        ensures shorter { (f : Flow) → IsState (T.observed to.old) self.old pool.old.held f
            → is_some (oldest_index self.old.id self.old.next pool.old.held) ≡ true
            → OnOk result (length pool.new.held < length pool.old.held) }
        ensures settled { (f : Flow) → IsState (T.observed to.old) self.old pool.old.held f
            → OnOk result (HoldsOnlyToCome (state self.new pool.new.held [])) }
        ensures id { self.new.id ≡ self.old.id }
        ensures blocks { pool.new.blocks ≡ pool.old.blocks }
        ensures cause { OnErr result (T.failed to.new) }
    {
        let passed = self.octets_passed_over(pool, to)?;
        self.close_for_gap(passed, to)?;
        self.go_on_with_held(pool, to)?;
        // It is read so that the prover knows its range.
        let _next = self.next;
        Ok(())
    }

    /// How many octets a gap passes over. None if the flow won't wait for its next stream.
    fn octets_passed_over<T: Listener>(
        &self,
        pool: &Pool,
        to: &mut T,
    ) -> Result<Option<u32>, ListenerError>
        ensures does { (f : Flow) → IsState (T.observed to.old) self.now pool.now.held f
            → IfOk result (λ passed. IsState (T.observed to.new) self.now pool.now.held f
            × (passed ≡ spec_octets_passed_over T.reader f)) }
        ensures cause { OnErr result (T.failed to.new) }
    {
        if !self.is_live() {
            return Ok(None);
        }
        let Some(first) = pool.oldest_index(self.id, self.next) else {
            return Ok(None);
        };
        let lacking = to.message_lacks(self.id)?;
        Ok(passable_octets(self.next, pool.number(first), lacking))
    }

    /// Closes the live stream. The flow then waits for the next one `passed` octets on, or it is no
    /// longer in step.
    fn close_for_gap<T: Listener>(
        &mut self,
        passed: Option<u32>,
        to: &mut T,
    ) -> Result<(), ListenerError>
        ensures does { (held : List Payload) (f : Flow)
            → IsState (T.observed to.old) self.old held f → OnOk result
            (IsState (T.observed to.new) self.new held (closed_for_gap f passed)) }
        ensures id { self.new.id ≡ self.old.id }
        ensures cause { OnErr result (T.failed to.new) }
    {
        self.close(CloseCause::Gap, to)?;
        if let Some(count) = passed {
            self.next = onward(self.next, count as usize);
            self.live = Some(self.next);
            self.waits = true;
        }
        Ok(())
    }

    /// Makes gaps while a held payload ends too far after the number that is due, at most `count`.
    pub(crate) fn keep_within_window<T: Listener>(
        &mut self,
        count: usize,
        pool: &mut Pool,
        to: &mut T,
    ) -> Result<(), ListenerError>
        ensures does { (f : Flow) → IsState (T.observed to.old) self.old pool.old.held f
            → OnOk result (IsState (T.observed to.new) self.new pool.new.held
            (within_window T.reader count f)) }
        ensures id { self.new.id ≡ self.old.id }
        ensures blocks { pool.new.blocks ≡ pool.old.blocks }
        ensures cause { OnErr result (T.failed to.new) }
    {
        let mut left = count;
        while left > 0 {
            if !pool.holds_beyond_window(self.id, self.next) {
                return Ok(());
            }
            self.make_gap(pool, to)?;
            left -= 1;
        }
        Ok(())
    }

    /// Removes all payloads that the flow holds.
    pub fn remove_held(&self, pool: &mut Pool)
        ensures does { (events : List Event) → state self.now pool.new.held events
            ≡ without_held (state self.now pool.old.held events) }
        ensures held { pool.new.held ≡ held_by_others self.now.id pool.old.held }
        ensures room { blocks_of pool.new.held ≤ blocks_of pool.old.held }
        ensures blocks { pool.new.blocks ≡ pool.old.blocks }
    {
        let mut first = pool.oldest_index(self.id, self.next);
        while let Some(own) = first {
            pool.remove(own);
            first = pool.oldest_index(self.id, self.next);
        }
    }
}
