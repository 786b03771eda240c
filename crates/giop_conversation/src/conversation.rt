//! A connection: its two directions, and the calls of both.

ghost use Rattle.std.specs.Prelude.{◌≡◌, ◌≤◌, ◌++◌, ℕ, List, [], IfOk, OnOk};
ghost use Rattle.giop_stream.specs.Rules.{most_open};
ghost use Rattle.giop_stream.specs.Framing.{cut, lacking};
ghost use Rattle.giop_stream.specs.EngineHolds.{IsRequestTableOf};
ghost use Rattle.giop_conversation.specs.Failing.{FailsByPut};
ghost use Rattle.giop_conversation.specs.Directions.{HasRead, fault_place};
ghost use Rattle.giop_conversation.specs.Followed.{direction, other, side_of as spec_side_of};
ghost use Rattle.giop_stream.specs.Stream.{final};
ghost use Rattle.giop_conversation.specs.Tags.{stream_tag};
ghost use Rattle.giop_conversation.specs.TaggedState.{IsReady};
ghost use Rattle.giop_conversation.specs.Stamped.{begin_lines};
ghost use Rattle.giop_conversation.specs.StreamReads.{WritesTagged};
ghost use Rattle.giop_conversation.specs.Captured.{Setup, Connection, setup, half, new_connection, flow_opened, stream_begun, stream_ended, closed_lines, rules_in, opening, live_stream};
ghost use Rattle.giop_conversation.specs.DumpHeld.{HasCalls, HoldsConnection, HasReadFlow};

use crate::direction::Direction;
use crate::exchange::Exchange;
use crate::limits::{Limits, MemoryError};
use crate::lines::Opening;
use crate::tagged::Tagged;
use giop_print::{Out, OutFault};
use giop_sig::{Catalogue, Requests};
use giop_stream::{Totals, answers_agree, answers_go_on};
use std::alloc::Global;
use tcp_flow::{CloseCause, Start};
use tcp_segment::Flow;
use tcp_waiting::Arrival;

/// One of the two flows of a connection: the one with the even id, or the one with the odd id.
#[derive(Clone, Copy, Debug, PartialEq, Eq)]
pub enum Side {
    Even,
    Odd,
}

/// Whether a flow is the even or the odd one of its connection, by its id.
pub fn side_of(flow: u32) -> Side
    ensures { result ≡ spec_side_of flow }
{
    if flow % 2 == 0 { Side::Even } else { Side::Odd }
}

/// The other flow of a connection.
fn opposite(side: Side) -> Side
    ensures { result ≡ other side }
{
    match side {
        Side::Even => Side::Odd,
        Side::Odd => Side::Even,
    }
}

/// A connection: the directions of its two flows, and the calls of both.
#[derive(Drop)]
pub struct Conversation<'a> {
    // The flow that was read last. In `exchange`, the calls of the own stream are those of this flow.
    side: Side,
    exchange: Exchange<'a>,
    even: Direction<'a>,
    odd: Direction<'a>,
}

impl<'a> Conversation<'a> {
    /// Makes a connection without streams and calls. All memory is taken here.
    pub fn new(
        alloc: Global,
        catalogue: &'a Catalogue,
        requests: &'a Requests,
        limits: Limits,
    ) -> Result<Conversation<'a>, MemoryError>
        requires of { IsRequestTableOf catalogue.now requests.now }
        requires range { (1 ≤ limits.messages) × (limits.messages ≤ most_open) }
        ensures even { IfOk result (λ c. HasRead c.even.engine []) }
        ensures odd { IfOk result (λ c. HasRead c.odd.engine []) }
        ensures held { IfOk result (λ c.
            (let S = setup catalogue.now limits.messages limits.calls limits.connections
            limits.first_stream in HoldsConnection S c (new_connection S))) }
    {
        Ok(Conversation {
            side: Side::Even,
            exchange: Exchange::new(alloc, catalogue, limits.calls)?,
            even: Direction::new(alloc, catalogue, requests, limits.messages)?,
            odd: Direction::new(alloc, catalogue, requests, limits.messages)?,
        })
    }

    /// Makes a flow the one that is read. If the other flow was read before, the calls of the exchange change sides.
    fn turn_to(&mut self, side: Side)
        ensures even { self.new.even ≡ self.old.even }
        ensures odd { self.new.odd ≡ self.old.odd }
        ensures value { self.new.side ≡ side }
        // No call of the connection is lost: after this the exchange has the calls of this flow as its own.
        ensures kept { (c : Connection) → HasCalls self.old.side self.old.exchange c →
            HasCalls side self.new.exchange c }
    {
        if self.side != side {
            self.exchange.swap_directions();
        }
        self.side = side;
    }

    /// Notes who sends to whom in a flow, and forgets the calls of that flow.
    pub fn open(&mut self, side: Side, flow: Flow)
        ensures even { self.new.even.engine ≡ self.old.even.engine }
        ensures odd { self.new.odd.engine ≡ self.old.odd.engine }
        ensures held { (S : Setup) (c : Connection) → HoldsConnection S self.old c →
            HoldsConnection S self.new (flow_opened side flow c) }
    {
        self.turn_to(side);
        self.exchange.forget_own_calls();
        match side {
            Side::Even => self.even.set_flow(flow),
            Side::Odd => self.odd.set_flow(flow),
        }
    }

    /// The number of a flow's stream, if it lives.
    fn live_stream(&self, side: Side) -> Option<u64>
        ensures { (S : Setup) (c : Connection) → HoldsConnection S self.now c →
            result ≡ live_stream (half side c) }
    {
        match side {
            Side::Even => self.even.live_stream(),
            Side::Odd => self.odd.live_stream(),
        }
    }

    /// A stream of a flow begins, at a time in nanoseconds since 1970-01-01 UTC.
    pub fn begin<O: Out>(
        &mut self,
        side: Side,
        stream: u64,
        time: Option<u128>,
        start: Start,
        out: &mut Tagged<O>,
    ) -> Result<(), OutFault>
        ensures read { HasRead (direction side self.new).engine [] }
        ensures other { direction (other side) self.new ≡ direction (other side) self.old }
        ensures fails { FailsByPut result out.old out.new }
        ensures held { (S : Setup) (c : Connection) → HoldsConnection S self.old c →
            HoldsConnection S self.new (stream_begun side stream c) }
        // After this the text below ends in the stream's first line, with the tag of the stream. After a failure it ends in
        // a front of that line.
        ensures text { (S : Setup) (c : Connection) (w : List ℕ) → HoldsConnection S self.old c →
            IsReady out.old w → WritesTagged result out.new w (stream_tag stream)
            (begin_lines (half side c).flow (opening side time start c)) }
    {
        let opening = Opening {
            time,
            partner: self.live_stream(opposite(side)),
            start,
        };
        match side {
            Side::Even => self.even.begin(stream, opening, out),
            Side::Odd => self.odd.begin(stream, opening, out),
        }
    }

    /// Reads octets of a flow's stream. If the stream has a stream fault, returns the number of the octet at which it has
    /// it, from 1.
    pub fn read<O: Out>(
        &mut self,
        side: Side,
        octets: &[u8],
        arrival: &Arrival,
        out: &mut Tagged<O>,
    ) -> Result<Option<u64>, OutFault>
        ensures read { (p : List ℕ) → HasRead (direction side self.old).engine p →
            OnOk result (HasRead (direction side self.new).engine (p ++ octets.now)) }
        ensures fault { (p : List ℕ) → HasRead (direction side self.old).engine p →
            IfOk result (λ at. at ≡ fault_place (cut (p ++ octets.now)).stop) }
        ensures other { direction (other side) self.new ≡ direction (other side) self.old }
        ensures fails { FailsByPut result out.old out.new }
        // There are answers that are those of the calls. By these, the text below ends in the lines of the octets, each
        // with the tag of the stream, and the connection is the one after the octets. After a failure the text ends in a
        // front of those lines.
        ensures text { (S : Setup) (c : Connection) (w : List ℕ) → HoldsConnection S self.old c →
            IsReady out.old w →
            HasReadFlow S c side octets.now arrival.now w result self.new out.new }
    {
        answers_agree();
        answers_go_on::<Exchange<'a>>();
        self.turn_to(side);
        match side {
            Side::Even => self.even.read(&mut self.exchange, octets, arrival, out),
            Side::Odd => self.odd.read(&mut self.exchange, octets, arrival, out),
        }
    }

    /// How many octets are missing until the end of the message that a flow's stream is in, if the message's header is
    /// complete. It is 0 between two messages.
    pub fn lacking(&self, side: Side) -> Option<u32>
        ensures { (p : List ℕ) → HasRead (direction side self.now).engine p →
            result ≡ lacking (cut p) }
    {
        match side {
            Side::Even => self.even.lacking(),
            Side::Odd => self.odd.lacking(),
        }
    }

    /// Closes the stream of a flow. Returns the totals of the stream.
    pub fn close<O: Out>(
        &mut self,
        side: Side,
        cause: CloseCause,
        out: &mut Tagged<O>,
    ) -> Result<Totals, OutFault>
        ensures even { self.new.even.engine ≡ self.old.even.engine }
        ensures odd { self.new.odd.engine ≡ self.old.odd.engine }
        ensures held { (S : Setup) (c : Connection) → HoldsConnection S self.old c →
            HoldsConnection S self.new (stream_ended side c) }
        ensures fails { FailsByPut result out.old out.new }
        // After this the text below ends in the line that says why the stream closes, and then the closing, each line with
        // the tag of the stream. After a failure it ends in a front of these lines.
        ensures text { (S : Setup) (c : Connection) (w : List ℕ) → HoldsConnection S self.old c →
            IsReady out.old w → WritesTagged result out.new w (stream_tag (half side c).stream)
            (closed_lines S side cause c) }
        ensures totals { (S : Setup) (c : Connection) → HoldsConnection S self.old c →
            IfOk result (λ t.
            t ≡ final (rules_in S (half side c).answers) (half side c).octets) }
    {
        match side {
            Side::Even => {
                self.even.mark_ended();
                self.even.write_close(cause, out)
            }
            Side::Odd => {
                self.odd.mark_ended();
                self.odd.write_close(cause, out)
            }
        }
    }
}
