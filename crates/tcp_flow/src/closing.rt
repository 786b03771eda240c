//! How the live stream of a flow closes, at its FIN or for another cause, and how the flow goes on.

ghost use Rattle.std.specs.Prelude.{◌≡◌, List, OnOk, OnErr, is_some};

use crate::flow::{CloseCause, FlowState, Listener, ListenerError};
use tcp_waiting::{Pool, is_to_come};

impl FlowState {
    ghost use Rattle.tcp_waiting.specs.Payload.{Payload};
    ghost use Rattle.tcp_flow.specs.Flow.{Flow, Event, closed, closed_at_fin, gone_on_with_held};
    ghost use Rattle.tcp_flow.specs.Flow.{fin_is_reached as spec_fin_is_reached};
    ghost use Rattle.tcp_flow.specs.Flow.{without_stale_fin as spec_without_stale_fin};
    ghost use Rattle.tcp_flow.specs.Laws.{IsGapless};
    ghost use Rattle.tcp_flow.specs.State.{state, IsState};

    /// Closes the live stream, if there is one. The flow is no longer in step.
    pub fn close<T: Listener>(&mut self, cause: CloseCause, to: &mut T) -> Result<(), ListenerError>
        ensures does { (held : List Payload) (f : Flow)
            → IsState (T.observed to.old) self.old held f → OnOk result
            (IsState (T.observed to.new) self.new held (closed f cause)) }
        ensures gapless { (payloads : List Payload) (held : List Payload) (f : Flow)
            → IsState (T.observed to.old) self.old held f → IsGapless payloads f
            → OnOk result (IsGapless payloads (closed f cause)) }
        ensures id { self.new.id ≡ self.old.id }
        ensures cause { OnErr result (T.failed to.new) }
    {
        let is_live = self.is_live();
        self.live = None;
        self.waits = false;
        if is_live {
            self.since = self.next;
            to.on_close(self.id, cause)?;
        }
        Ok(())
    }

    /// Goes on: takes the held payloads that are due, and closes the stream if its FIN is reached.
    pub(crate) fn go_on_with_held<T: Listener>(
        &mut self,
        pool: &mut Pool,
        to: &mut T,
    ) -> Result<(), ListenerError>
        ensures does { (f : Flow) → IsState (T.observed to.old) self.old pool.old.held f
            → OnOk result (IsState (T.observed to.new) self.new pool.new.held
            (gone_on_with_held T.reader f)) }
        ensures id { self.new.id ≡ self.old.id }
        ensures blocks { pool.new.blocks ≡ pool.old.blocks }
        ensures cause { OnErr result (T.failed to.new) }
    {
        self.drain_due(pool, to)?;
        self.go_on_with_none_due(pool, to)
    }

    /// Goes on if no held payload is due: closes the stream if its FIN is reached.
    pub(crate) fn go_on_with_none_due<T: Listener>(
        &mut self,
        pool: &mut Pool,
        to: &mut T,
    ) -> Result<(), ListenerError>
        ensures does { (f : Flow) → IsState (T.observed to.old) self.old pool.old.held f
            → OnOk result (IsState (T.observed to.new) self.new pool.new.held
            (spec_without_stale_fin (closed_at_fin T.reader f))) }
        ensures id { self.new.id ≡ self.old.id }
        ensures blocks { pool.new.blocks ≡ pool.old.blocks }
        ensures cause { OnErr result (T.failed to.new) }
    {
        self.close_at_fin(pool, to)?;
        self.drop_stale_fin();
        Ok(())
    }

    /// If the FIN is reached, closes the stream or no longer waits for it, and takes the held
    /// payloads that are due.
    fn close_at_fin<T: Listener>(
        &mut self,
        pool: &mut Pool,
        to: &mut T,
    ) -> Result<(), ListenerError>
        ensures does { (f : Flow) → IsState (T.observed to.old) self.old pool.old.held f
            → OnOk result (IsState (T.observed to.new) self.new pool.new.held
            (closed_at_fin T.reader f)) }
        ensures id { self.new.id ≡ self.old.id }
        ensures blocks { pool.new.blocks ≡ pool.old.blocks }
        ensures cause { OnErr result (T.failed to.new) }
    {
        if self.fin_is_reached() {
            self.close(CloseCause::Fin, to)?;
            self.fin = None;
            return self.drain_due(pool, to);
        }
        Ok(())
    }

    /// Whether the FIN that is kept is reached.
    fn fin_is_reached(&self) -> bool
        ensures { result ≡ spec_fin_is_reached self.now.next (is_some self.now.live) self.now.fin }
    {
        match self.fin {
            Some(fin) => self.is_in_step() && !is_to_come(self.next, fin),
            None => false,
        }
    }

    /// Forgets the FIN if the flow isn't in step.
    fn drop_stale_fin(&mut self)
        ensures does { (held : List Payload) (events : List Event) → state self.new held events
            ≡ spec_without_stale_fin (state self.old held events) }
        ensures id { self.new.id ≡ self.old.id }
    {
        if !self.is_in_step() {
            self.fin = None;
        }
    }
}
