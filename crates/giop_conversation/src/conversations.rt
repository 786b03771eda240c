//! All connections of a capture: how their streams begin, go on and close, and the lines that are written of them.

ghost use Rattle.std.specs.Prelude.{◌≡◌, ◌⊎◌, ◌≤◌, ◌<◌, ◌+◌, ◌*◌, ◌/◌, ◌++◌, ◌∷◌, ◌||◌, ℕ, List, [], true, length, nat_lt, IfOk, OnOk, OnErr, Err, Some, MatchResult};
ghost use Rattle.std.specs.Io.KnownBytes.{Keeps};
ghost use Rattle.std.specs.Vec.{vec_len};
ghost use Rattle.tcp_flow.specs.Flow.{Event, Opens, Begins, Delivers, Closes, OfCapture, ComesFrom, Passes, HasFault};
ghost use Rattle.giop_stream.specs.Rules.{most_open};
ghost use Rattle.giop_stream.specs.EngineHolds.{IsRequestTableOf};
ghost use Rattle.giop_conversation.specs.Failing.{FailsIfPutFailed};
ghost use Rattle.giop_conversation.specs.Seen.{IsSeen};
ghost use Rattle.giop_conversation.specs.Follows.{Follows};
ghost use Rattle.giop_conversation.specs.Captured.{Setup, setup, cuts_stream, saturating_sum as spec_saturating_sum};
ghost use Rattle.giop_conversation.specs.DumpHeld.{HasWrittenFront, HasFinished, HasFinishedFront};
ghost use Rattle.giop_conversation.specs.DumpWritten.{IsWritten};
ghost use Rattle.giop_conversation.specs.Followed.{reader_faulted, reader_lacking};

use crate::conversation::{Conversation, side_of};
use crate::limits::{Limits, MemoryError};
use crate::lines::{CaptureTotals, capture_fault_line, capture_total_line};
use crate::tag::no_tag;
use crate::tagged::Tagged;
use giop_print::{Flush, Out, OutFault};
use giop_sig::{Catalogue, Requests};
use std::alloc::Global;
use tcp_flow::{CloseCause, Start};
use tcp_segment::Flow;
use tcp_waiting::Arrival;

/// The sum of two numbers, or the greatest number of 64 bits if the sum is greater.
fn saturating_sum(a: u64, b: u64) -> u64
    ensures { result ≡ spec_saturating_sum a b }
{
    a.saturating_add(b)
}

/// Whether a capture is cut after a stream closes: it was cut before, or the stream closes because octets are missing or
/// because there was no room to wait for them.
fn is_cut_after(before: bool, cause: CloseCause) -> bool
    ensures { result ≡ (before || cuts_stream cause) }
{
    match cause {
        CloseCause::Gap | CloseCause::Room => true,
        CloseCause::Fin
        | CloseCause::Reset
        | CloseCause::Syn
        | CloseCause::Fault
        | CloseCause::End => before,
    }
}

/// Whether a capture ends with something wrong: it was cut, or a fault was counted.
fn is_faulted(cut: bool, faults: u64) -> bool
    ensures { result ≡ (cut || nat_lt 0 faults) }
{
    cut || faults > 0
}

/// All connections of a capture, with an `Out` for their lines. A flow is named by its id: half of the id is the index of
/// the connection's slot, and its last bit tells which of the two flows it is. A flow whose connection has no slot is
/// ignored. After a failed put nothing more is written, and each call that writes fails.
#[derive(Drop)]
pub struct Conversations<'a, O: Out + Drop> {
    slots: Vec<Conversation<'a>>,
    out: Tagged<O>,
    arrival: Arrival,
    // The number of the first stream.
    first: u64,
    totals: CaptureTotals,
    cut: bool,
}

impl<'a, O: Out + Drop> Conversations<'a, O> {
    /// Makes connections in which no stream has begun. All memory is taken here.
    pub fn new(
        alloc: Global,
        catalogue: &'a Catalogue,
        requests: &'a Requests,
        limits: Limits,
        out: O,
    ) -> Result<Conversations<'a, O>, MemoryError>
        requires of { IsRequestTableOf catalogue.now requests.now }
        requires range { (1 ≤ limits.messages) × (limits.messages ≤ most_open) }
        ensures follows { IfOk result (λ c. Follows c []) }
        ensures slots { IfOk result (λ c. vec_len c.slots ≡ limits.connections) }
        ensures fails { IfOk result (λ c. c.out.failures ≡ 0) }
        ensures told { (written : List ℕ) → (O.log out).written ≡ Some written → IfOk result (λ c.
            IsWritten (setup catalogue.now limits.messages limits.calls limits.connections
            limits.first_stream) written [] c) }
    {
        let mut slots = Vec::with_capacity(alloc, limits.connections as usize)?;
        for _slot in 0..limits.connections {
            let conversation = Conversation::new(alloc, catalogue, requests, limits)?;
            let Ok(()) = slots.push(conversation) else {
                return Err(MemoryError);
            };
        }
        let totals = CaptureTotals {
            streams: 0,
            messages: 0,
            faults: 0,
            packets: 0,
            octets: 0,
            others: 0,
        };
        Ok(Conversations {
            slots,
            out: Tagged::new(out),
            arrival: Arrival {
                time: None,
                packet: 0,
            },
            first: limits.first_stream,
            totals,
            cut: false,
        })
    }

    /// Notes the packet: what begins or is delivered next came in it.
    pub fn on_arrival(&mut self, arrival: Arrival)
        ensures value { self.new ≡ record self.old { arrival = arrival } }
        ensures told { (S : Setup) (written : List ℕ) (events : List Event) →
            IsWritten S written events self.old →
            IsWritten S written (events ++ OfCapture (ComesFrom arrival) ∷ []) self.new }
    {
        self.arrival = arrival;
    }

    /// Gives an id to a flow. Nothing of the flow has come yet. Calls that were kept of the flow that had the id before are
    /// forgotten.
    pub fn on_new_flow(&mut self, flow: u32, endpoints: Flow)
        ensures follows { (events : List Event) → Follows self.old events →
            Follows self.new (events ++ Opens flow endpoints ∷ []) }
        ensures kept { self.new.out ≡ self.old.out }
        ensures told { (S : Setup) (written : List ℕ) (events : List Event) →
            IsWritten S written events self.old →
            IsWritten S written (events ++ Opens flow endpoints ∷ []) self.new }
    {
        match self.slots.get_mut(flow as usize / 2) {
            Some(slot) => slot.open(side_of(flow), endpoints),
            None => {}
        }
    }

    /// The number that the next stream gets.
    fn next_number(&self) -> u64
        ensures { result ≡ spec_saturating_sum self.now.first self.now.totals.streams }
    {
        saturating_sum(self.first, self.totals.streams)
    }

    /// Begins a stream of a flow. Its number is one more than the number of the stream that began before it.
    pub fn on_begin(&mut self, flow: u32, start: Start) -> Result<(), OutFault>
        ensures follows { (events : List Event) → Follows self.old events →
            OnOk result (Follows self.new (events ++ Begins flow start ∷ [])) }
        // After this the text below is the text of all events; after a failure, a front of it.
        ensures told { (S : Setup) (written : List ℕ) (events : List Event) →
            IsWritten S written events self.old →
            MatchResult result (λ _. IsWritten S written (events ++ Begins flow start ∷ [])
            self.new)
            (λ _. HasWrittenFront S written (events ++ Begins flow start ∷ []) self.new.out) }
        ensures fails { FailsIfPutFailed result self.new.out }
        // If a put has failed before, nothing is written.
        ensures still { 0 < self.old.out.failures → self.new.out ≡ self.old.out }
    {
        if self.out.has_failed() {
            return Err(OutFault);
        }
        let number = self.next_number();
        self.totals.streams = saturating_sum(self.totals.streams, 1);
        match self.slots.get_mut(flow as usize / 2) {
            Some(slot) => {
                let time = self.arrival.time;
                slot.begin(side_of(flow), number, time, start, &mut self.out)
            }
            None => Ok(()),
        }
    }

    /// Reads the next octets of a flow's stream. If the stream has a stream fault, returns the number of the octet at which
    /// it has it, from 1.
    pub fn on_octets(&mut self, flow: u32, octets: &[u8]) -> Result<Option<u64>, OutFault>
        ensures follows { (events : List Event) → Follows self.old events → IfOk result (λ at.
            Follows self.new (events ++ Delivers flow octets.now ∷ [])
            × (at ≡ reader_faulted (events ++ Delivers flow octets.now ∷ []))) }
        // After this the text below is the text of all events; after a failure, a front of it.
        ensures told { (S : Setup) (written : List ℕ) (events : List Event) →
            IsWritten S written events self.old →
            MatchResult result (λ _. IsWritten S written (events ++ Delivers flow octets.now ∷ [])
            self.new)
            (λ _. HasWrittenFront S written (events ++ Delivers flow octets.now ∷ [])
            self.new.out) }
        ensures fails { FailsIfPutFailed result self.new.out }
        // If a put has failed before, nothing is written.
        ensures still { 0 < self.old.out.failures → self.new.out ≡ self.old.out }
    {
        if self.out.has_failed() {
            return Err(OutFault);
        }
        match self.slots.get_mut(flow as usize / 2) {
            Some(slot) => slot.read(side_of(flow), octets, &self.arrival, &mut self.out),
            // The flow has no slot, so nothing is known of its stream.
            None => Err(self.out.refuse()),
        }
    }

    /// How many octets are missing until the end of the message that a flow's stream is in, if the message's header is
    /// complete. It is 0 between two messages.
    pub fn message_lacks(&mut self, flow: u32) -> Result<Option<u32>, OutFault>
        ensures value { (events : List Event) → Follows self.old events →
            IfOk result (λ count. count ≡ reader_lacking events flow) }
        ensures kept { OnOk result (self.new ≡ self.old) }
        ensures fails { FailsIfPutFailed result self.new.out }
        // If a put has failed before, nothing is written.
        ensures still { 0 < self.old.out.failures → self.new.out ≡ self.old.out }
    {
        if self.out.has_failed() {
            return Err(OutFault);
        }
        match self.slots.get(flow as usize / 2) {
            Some(slot) => Ok(slot.lacking(side_of(flow))),
            // The flow has no slot, so nothing is known of its stream.
            None => Err(self.out.refuse()),
        }
    }

    /// Closes the stream of a flow.
    pub fn on_close(&mut self, flow: u32, cause: CloseCause) -> Result<(), OutFault>
        ensures follows { (events : List Event) → Follows self.old events →
            OnOk result (Follows self.new (events ++ Closes flow cause ∷ [])) }
        // After this the text below is the text of all events; after a failure, a front of it.
        ensures told { (S : Setup) (written : List ℕ) (events : List Event) →
            IsWritten S written events self.old →
            MatchResult result (λ _. IsWritten S written (events ++ Closes flow cause ∷ [])
            self.new)
            (λ _. HasWrittenFront S written (events ++ Closes flow cause ∷ []) self.new.out) }
        ensures fails { FailsIfPutFailed result self.new.out }
        // If a put has failed before, nothing is written.
        ensures still { 0 < self.old.out.failures → self.new.out ≡ self.old.out }
    {
        if self.out.has_failed() {
            return Err(OutFault);
        }
        match self.slots.get_mut(flow as usize / 2) {
            Some(slot) => match slot.close(side_of(flow), cause, &mut self.out) {
                Ok(totals) => {
                    self.totals.messages = saturating_sum(self.totals.messages, totals.messages);
                    self.totals.faults = saturating_sum(self.totals.faults, totals.faults);
                    self.cut = is_cut_after(self.cut, cause);
                    Ok(())
                }
                Err(fault) => Err(fault),
            },
            None => Ok(()),
        }
    }

    /// Counts a payload that was looked through, and in which no stream begins.
    pub fn on_looked_through(&mut self)
        ensures follows { (events : List Event) (octets : List ℕ) → Follows self.old events →
            Follows self.new (events ++ OfCapture (Passes octets) ∷ []) }
        ensures kept { self.new.out ≡ self.old.out }
        ensures told { (S : Setup) (written : List ℕ) (events : List Event) (octets : List ℕ) →
            IsWritten S written events self.old →
            IsWritten S written (events ++ OfCapture (Passes octets) ∷ []) self.new }
    {
        self.totals.others = saturating_sum(self.totals.others, 1);
    }

    /// Writes that the capture itself has a fault, at its octet of this number, from 1. The capture ends there.
    pub fn write_capture_fault(&mut self, word: &str, at: u64) -> Result<(), OutFault>
        ensures follows { (events : List Event) → Follows self.old events →
            OnOk result (Follows self.new events) }
        // After this the text below is the text of all events; after a failure, a front of it.
        ensures told { (S : Setup) (written : List ℕ) (events : List Event) →
            IsWritten S written events self.old →
            MatchResult result (λ _. IsWritten S written
            (events ++ OfCapture (HasFault word.now at) ∷ []) self.new)
            (λ _. HasWrittenFront S written (events ++ OfCapture (HasFault word.now at) ∷ [])
            self.new.out) }
        ensures fails { FailsIfPutFailed result self.new.out }
        // If a put has failed before, nothing is written.
        ensures still { 0 < self.old.out.failures → self.new.out ≡ self.old.out }
    {
        if self.out.has_failed() {
            return Err(OutFault);
        }
        self.cut = true;
        self.out.set_tag(no_tag());
        capture_fault_line(&mut self.out, word, at)
    }

    /// Writes the last line, with the number of packets and octets of the capture. Returns whether a fault was counted, or
    /// a stream was cut by a gap or for lack of room, or the capture has a fault.
    pub fn finish(&mut self, packets: u64, octets: u64) -> Result<bool, OutFault>
        ensures fails { FailsIfPutFailed result self.new.out }
        // If a put has failed before, nothing is written.
        ensures still { 0 < self.old.out.failures → self.new.out ≡ self.old.out }
        ensures value { IfOk result (λ is_faulted.
            is_faulted ≡ (self.old.cut || nat_lt 0 self.old.totals.faults)) }
        // After this the text below is the text of all events, and then the last line; after a failure, a front of them.
        ensures told { (S : Setup) (written : List ℕ) (events : List Event) →
            IsWritten S written events self.old →
            MatchResult result
            (λ is_faulted. HasFinished S written events packets octets self.new.out is_faulted)
            (λ _. HasFinishedFront S written events packets octets self.new.out) }
    {
        if self.out.has_failed() {
            return Err(OutFault);
        }
        self.totals.packets = packets;
        self.totals.octets = octets;
        self.out.set_tag(no_tag());
        capture_total_line(&mut self.out, self.totals)?;
        Ok(is_faulted(self.cut, self.totals.faults))
    }

    /// Whether a call has failed without a put: octets came in a flow without a slot, or more octets would have been
    /// written than can be counted.
    pub fn has_refused(&self) -> bool
        ensures { result ≡ self.now.out.refused }
    {
        self.out.has_refused()
    }

    /// Gives the out below back.
    pub fn into_out(self) -> O
        ensures written { (O.log result).written ≡ self.entry.out.whole }
        // If a put or a flush has failed here, one has failed in the out below, unless this has refused.
        ensures cause { 0 < self.entry.out.failures →
            (0 < (O.log result).failures) ⊎ (self.entry.out.refused ≡ true) }
    {
        self.out.into_out()
    }
}

impl<'a, O: Flush + Drop> Conversations<'a, O> {
    /// Makes sure that all that was written can be seen.
    pub fn flush(&mut self) -> Result<(), OutFault>
        ensures same { self.new ≡ record self.old {
          out = record self.old.out {
            whole = self.new.out.whole;
            below = self.new.out.below;
            failures = self.new.out.failures;
          };
        } }
        ensures put { Keeps self.old.out.whole self.new.out.whole }
        ensures seen { OnOk result (IsSeen O.log O.kept self.new.out.whole) }
        ensures none { OnOk result (self.new.out.failures ≡ self.old.out.failures) }
        ensures cause { OnErr result (0 < self.new.out.failures) }
    {
        self.out.flush()
    }
}
