//! The end of a capture: gaps while flows hold something, and then the live streams close.

ghost use Rattle.std.specs.Prelude.{◌≡◌, ◌+◌, ℕ, [], length, get_or, OnOk, OnErr, None};

use crate::connections::Connections;
use tcp_flow::{CloseCause, Listener, ListenerError};
use tcp_streams::Streams;

impl Connections {
    ghost use Rattle.tcp_streams.specs.Lives.{lives};
    ghost use Rattle.tcp_connections.specs.Connections.{State, is_holding, end_cause, gapped};
    ghost use Rattle.tcp_connections.specs.Connections.{closed_at, gaps_from, all_closed, ended, stream_start_of};
    ghost use Rattle.tcp_connections.specs.State.{IsState, IsAt, HasState, Makes, MakesOver, Ends};

    /// Ends the capture. While flows hold something, the one of them whose last stream began first
    /// has a gap. Then the live streams close in their order. Afterwards no flow has a live stream
    /// or waits for one.
    pub fn end<L: Listener + Drop>(&mut self, to: &mut Streams<L>) -> Result<(), ListenerError>
        requires state { HasState (L.observed to.old.listener) to.old.live.items self.old }
        ensures does { (w : State)
            → IsState (L.observed to.old.listener) to.old.live.items self.old w
            → OnOk result (IsAt (L.observed to.new.listener) to.new.live.items self.new
            (ended L.reader w)) }
        ensures held { OnOk result (self.new.pool.held ≡ []) }
        ensures none { OnOk result ((id : ℕ) →
            stream_start_of (get_or self.new.flows.states.items id None) ≡ None) }
        ensures cause { OnErr result (L.failed to.new.listener) }
    {
        to.pack();
        self.make_end_gaps(to)?;
        self.close_all(to)
    }

    /// While flows hold something, makes a gap in the one of them whose last stream began first.
    fn make_end_gaps<L: Listener + Drop>(
        &mut self,
        to: &mut Streams<L>,
    ) -> Result<(), ListenerError>
        requires state { HasState (L.observed to.old.listener) to.old.live.items self.old }
        ensures does { Makes result
            (λ w. gaps_from L.reader (length w.held + length (lives w.events)) 0 w)
            (L.observed to.old.listener) to.old.live.items self.old
            (L.observed to.new.listener) to.new.live.items self.new }
        ensures held { OnOk result (self.new.pool.held ≡ []) }
        ensures cause { OnErr result (L.failed to.new.listener) }
    {
        let mut left = self.pool.len() + to.len();
        let mut rank = 0;
        while left > 0 {
            let Some(id) = to.live(rank) else {
                return Ok(());
            };
            left -= 1;
            if !self.is_holding(id) {
                rank += 1;
                continue;
            }
            self.make_gap(id, to)?;
        }
        Ok(())
    }

    /// Whether a flow holds a payload.
    pub(crate) fn is_holding(&self, id: u32) -> bool
        ensures { result
            ≡ is_holding self.now.pool.held (get_or self.now.flows.states.items id None) }
    {
        match self.flow(id) {
            Some(flow) => flow.holds_payload(&self.pool),
            None => false,
        }
    }

    /// Makes a gap in a flow.
    pub(crate) fn make_gap<L: Listener + Drop>(
        &mut self,
        id: u32,
        to: &mut Streams<L>,
    ) -> Result<(), ListenerError>
        ensures does { (over : ℕ) → MakesOver over over result (λ w. gapped L.reader w id)
            (L.observed to.old.listener) to.old.live.items self.old
            (L.observed to.new.listener) to.new.live.items self.new }
        ensures cause { OnErr result (L.failed to.new.listener) }
    {
        let Some(mut flow) = self.flow(id) else {
            return Ok(());
        };
        flow.make_gap(&mut self.pool, to)?;
        self.flows.set(id, Some(flow));
        self.givers.note(id, &self.pool, to);
        Ok(())
    }

    /// Closes the live streams in their order.
    fn close_all<L: Listener + Drop>(&mut self, to: &mut Streams<L>) -> Result<(), ListenerError>
        ensures does { Ends result (λ w. all_closed (lives w.events) w)
            (L.observed to.old.listener) to.old.live.items self.old
            (L.observed to.new.listener) to.new.live.items self.new }
        ensures held { self.new.pool.held ≡ self.old.pool.held }
        ensures cause { OnErr result (L.failed to.new.listener) }
    {
        let count = to.len();
        let mut rank = 0;
        while rank < count {
            let Some(id) = to.live(rank) else {
                return Ok(());
            };
            self.close(id, self.end_cause(id), to)?;
            rank += 1;
        }
        Ok(())
    }

    /// Closes a flow's live stream.
    fn close<L: Listener + Drop>(
        &mut self,
        id: u32,
        cause: CloseCause,
        to: &mut Streams<L>,
    ) -> Result<(), ListenerError>
        ensures does { Ends result (λ w. closed_at w id cause)
            (L.observed to.old.listener) to.old.live.items self.old
            (L.observed to.new.listener) to.new.live.items self.new }
        ensures held { self.new.pool.held ≡ self.old.pool.held }
        ensures cause { OnErr result (L.failed to.new.listener) }
    {
        let Some(mut flow) = self.flow(id) else {
            return Ok(());
        };
        flow.close(cause, to)?;
        self.flows.set(id, Some(flow));
        Ok(())
    }

    /// How a flow's live stream closes at the end. If a FIN is kept, octets before it weren't
    /// captured.
    fn end_cause(&self, id: u32) -> CloseCause
        ensures { result ≡ end_cause (get_or self.now.flows.states.items id None) }
    {
        match self.flow(id) {
            Some(flow) if flow.has_fin() => CloseCause::Gap,
            _ => CloseCause::End,
        }
    }
}
