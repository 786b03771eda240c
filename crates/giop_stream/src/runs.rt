//! Takes a piece of a stream in runs of octets. A run only adds to a header, or only to the contents of a message.

ghost use Rattle.std.specs.Prelude.{◌≡◌, ◌+◌, ◌*◌, ◌++◌, ◌^◌, ◌≤◌, ◌<◌, ℕ, List, length, take, [], true, false, None, OnOk, IfOk, IfSome, nat_lt, ◌&&◌, ◌||◌, if◌then◌else◌};

use crate::fragment::Continuation;
use crate::framing::{Framing, LIMIT};
use crate::header::{has_no_wrong_octet, last_octet_fault, size_of};
use arrayvec::ArrayVec;
use giop_message::Correspondent;
use giop_print::{Out, OutFault};
use giop_sig::Catalogue;

impl Framing {
    ghost use Rattle.giop_print.specs.Output.{Writes};
    ghost use Rattle.giop_sig.specs.Table.{Table};
    ghost use Rattle.giop_message.specs.Signatures.{Answers};
    ghost use Rattle.giop_stream.specs.Rules.{rules_by};
    ghost use Rattle.giop_message.specs.Headers.{size};
    ghost use Rattle.giop_stream.specs.HeaderOctets.{last_octet_fault};
    ghost use Rattle.giop_stream.specs.SlotsRepresent.{AreReady};
    ghost use Rattle.giop_stream.specs.EngineState.{State};
    ghost use Rattle.giop_stream.specs.EngineStep as one;
    ghost use Rattle.giop_stream.specs.FramingView.{framing_view};
    ghost use Rattle.giop_stream.specs.Framing.{cut};
    ghost use Rattle.giop_stream.specs.HeaderEndsOfStream.{current_header_ends, header_ends_from};
    ghost use Rattle.giop_message.specs.HeaderEnds.{AgreesAtEnds, after_ends};
    ghost use Rattle.giop_message.specs.DueOctets.{TakesFront, StaysUndue};
    ghost use Rattle.giop_stream.specs.DueOctets.{begins_in, is_due_after};
    ghost use Rattle.giop_stream.specs.Continuation.{IsContinuation};
    ghost use Rattle.giop_stream.specs.ViewOfState.{Shows, IsReached, Does};
    ghost use Rattle.giop_message.specs.MessageState.{AreKnown};

    /// How many of the next octets are of the payload, up to its fourth one, where a request id may end, or to its last
    /// one.
    fn payload_run(&self, room: usize) -> usize
        ensures within { result ≤ room }
        ensures full { 0 < result → length self.now.header.items ≡ 12 }
        ensures running { 0 < result → self.now.stopped ≡ None }
        ensures apart { 0 < result → self.now.payload_count < 4 →
            self.now.payload_count + result ≤ 4 }
        ensures few { 0 < result → self.now.payload_count + result ≤ size self.now.header.items }
        ensures limit { 0 < result → self.now.totals.octets + result ≤ 2 ^ 48 }
    {
        if self.stopped.is_some() || self.header.len() < 12 {
            return 0;
        }
        let left = size_of(self.header.as_slice()).saturating_sub(self.payload_count);
        let unread = LIMIT.saturating_sub(self.totals.octets);
        up_to_id(self.payload_count, room)
            .min(left as usize)
            .min(unread as usize)
    }

    /// How many of these octets only add to a header: they are right, and none of them is the header's last one.
    fn header_run(&self, octets: &[u8]) -> usize
        ensures within { result ≤ length octets.now }
        ensures before_last { 0 < result → length self.now.header.items + result < 12 }
        ensures running { 0 < result → self.now.stopped ≡ None }
        ensures limit { 0 < result → self.now.totals.octets + result ≤ 2 ^ 48 }
        ensures right { (k : ℕ) → k < result →
            last_octet_fault (self.now.header.items ++ take (k + 1) octets.now) ≡ None }
    {
        if self.stopped.is_some() || 11 <= self.header.len() {
            return 0;
        }
        let unread = LIMIT.saturating_sub(self.totals.octets);
        let room = (11 - self.header.len())
            .min(octets.len())
            .min(unread as usize);
        if room == 11 && has_no_wrong_octet(octets) {
            return 11;
        }
        let mut front: ArrayVec<u8, 12> = ArrayVec::new();
        front.try_extend_from_slice(self.header.as_slice()).unwrap();
        let mut header_run = 0;
        while header_run < room {
            front.push(octets[header_run]);
            if last_octet_fault(front.as_slice()).is_some() {
                return header_run;
            }
            header_run += 1;
        }
        header_run
    }

    /// Takes octets that only add to a header.
    fn take_header_octets(&mut self, octets: &[u8])
        requires before_last { length self.old.header.items + length octets.now < 12 }
        requires running { self.old.stopped ≡ None }
        requires limit { self.old.totals.octets + length octets.now ≤ 2 ^ 48 }
        requires right { (k : ℕ) → k < length octets.now →
            last_octet_fault (self.old.header.items ++ take (k + 1) octets.now) ≡ None }
        ensures shows { (C : Table) (l : Answers) (s : State) →
            Shows C l (framing_view self.old) s →
            Shows C l (framing_view self.new)
            (one.run_state (rules_by C l self.old.slots.slots.most) s octets.now) }
        ensures lines { (C : Table) (l : Answers) (s : State) →
            Shows C l (framing_view self.old) s →
            one.lines_of_run (rules_by C l self.old.slots.slots.most) s octets.now ≡ [] }
        ensures same { self.new.totals.messages ≡ self.old.totals.messages }
        ensures ready { (C : Table) → AreReady C (self.old.totals.octets + 1) self.old.slots →
            AreReady C (self.new.totals.octets + 1) self.new.slots }
        ensures most { self.new.slots.slots.most ≡ self.old.slots.slots.most }
    {
        self.totals.octets += octets.len() as u64;
        self.header.try_extend_from_slice(octets).unwrap();
    }

    /// The open message that these octets continue. There is none if the correspondent awaits messages, since the reading
    /// must stop then at the start of the Fragment.
    fn continuation_for<Q: Correspondent>(
        &self,
        correspondent: &Q,
        octets: &[u8],
    ) -> Option<Continuation>
        ensures quick { IfSome result (λ found. Q.awaits_messages ≡ false) }
        ensures within { IfSome result (λ found. 5 ≤ length octets.now) }
        ensures running { IfSome result (λ found. self.now.stopped ≡ None) }
        ensures limit { IfSome result (λ found. self.now.totals.octets + 5 ≤ 2 ^ 48) }
        ensures is { IfSome result (λ found.
            IsContinuation self.now.header.items (take 5 octets.now) self.now.slots found) }
    {
        if correspondent.awaits_messages() {
            return None;
        }
        self.continuation(octets)
    }

    /// Takes the first of the next octets. There is at least one. It takes those that only add to a header; or the end of a
    /// Fragment's header with its request id; or those of one message's payload, up to the first one after which the
    /// correspondent is due; or a single octet. Returns how many it took.
    #[inline]
    fn take_some<O: Out, Q: Correspondent>(
        &mut self,
        catalogue: &Catalogue,
        correspondent: &mut Q,
        octets: &[u8],
        out: &mut O,
    ) -> Result<usize, OutFault>
        requires some { 0 < length octets.now }
        requires known { AreKnown catalogue.now (Q.answer (Q.state correspondent.old)) }
        requires ready { AreReady catalogue.now (self.old.totals.octets + 1) self.old.slots }
        ensures known { AreKnown catalogue.now (Q.answer (Q.state correspondent.new)) }
        ensures does { (a : Answers) (s : State)
            (r : IsReached catalogue.now a self.old.slots.slots.most s) →
            Shows catalogue.now a (framing_view self.old) s →
            AgreesAtEnds Q.answer Q.notified catalogue.now (Q.state correspondent.old) a
            (header_ends_from (rules_by catalogue.now a self.old.slots.slots.most)
            r.stream octets.now) →
            TakesFront (λ n. n) (λ xs. StaysUndue Q.due Q.notified catalogue.now
            (Q.state correspondent.old) (header_ends_from
            (rules_by catalogue.now a self.old.slots.slots.most) r.stream) xs
            × (Q.awaits_messages ≡ true → begins_in r.stream xs ≡ false))
            (λ xs. Does catalogue.now a result (O.log out.old) (O.log out.new)
            (framing_view self.new)
            (one.run_step (rules_by catalogue.now a self.old.slots.slots.most) s xs))
            result octets.now }
        ensures told { IfOk result (λ n. (a : Answers) (s : State)
            (r : IsReached catalogue.now a self.old.slots.slots.most s) →
            Shows catalogue.now a (framing_view self.old) s →
            AgreesAtEnds Q.answer Q.notified catalogue.now (Q.state correspondent.old) a
            (header_ends_from (rules_by catalogue.now a self.old.slots.slots.most)
            r.stream octets.now) →
            Q.state correspondent.new ≡ after_ends Q.notified catalogue.now
            (Q.state correspondent.old) (header_ends_from
            (rules_by catalogue.now a self.old.slots.slots.most)
            r.stream (take n octets.now))) }
        ensures some { IfOk result (λ n. 0 < n) }
        ensures within { IfOk result (λ n. n ≤ length octets.now) }
        ensures ready { OnOk result
            (AreReady catalogue.now (self.new.totals.octets + 1) self.new.slots) }
        ensures most { self.new.slots.slots.most ≡ self.old.slots.slots.most }
    {
        let header_run = self.header_run(octets);
        if 0 < header_run {
            self.take_header_octets(&octets[..header_run]);
            return Ok(header_run);
        }
        let payload_run = self.payload_run(octets.len());
        if 0 < payload_run {
            return self.payload_octets(catalogue, correspondent, &octets[..payload_run], out);
        }
        if let Some(found) = self.continuation_for(correspondent, octets) {
            self.take_continuation(catalogue, found, &octets[..5], out)?;
            return Ok(5);
        }
        self.step(catalogue, correspondent, octets[0], out)?;
        Ok(1)
    }

    /// Whether the correspondent is due, either by itself or because more than `begun` messages have begun.
    #[inline]
    fn is_due<Q: Correspondent>(&self, correspondent: &Q, begun: u64) -> bool
        ensures { result ≡ (Q.due (Q.state correspondent.now)
            || (Q.awaits_messages && nat_lt begun self.now.totals.messages)) }
    {
        correspondent.is_due() || (correspondent.awaits_messages() && begun < self.totals.messages)
    }

    /// Takes the octets of a piece, in runs if that is possible, up to the first one after which the correspondent is due.
    /// Returns how many it took.
    pub fn take_piece<O: Out, Q: Correspondent>(
        &mut self,
        catalogue: &Catalogue,
        correspondent: &mut Q,
        piece: &[u8],
        out: &mut O,
    ) -> Result<usize, OutFault>
        requires known { AreKnown catalogue.now (Q.answer (Q.state correspondent.old)) }
        requires ready { AreReady catalogue.now (self.old.totals.octets + 1) self.old.slots }
        ensures known { AreKnown catalogue.now (Q.answer (Q.state correspondent.new)) }
        ensures does { (a : Answers) (s : State)
            (r : IsReached catalogue.now a self.old.slots.slots.most s) →
            Shows catalogue.now a (framing_view self.old) s →
            AgreesAtEnds Q.answer Q.notified catalogue.now (Q.state correspondent.old) a
            (header_ends_from (rules_by catalogue.now a self.old.slots.slots.most)
            r.stream piece.now) →
            TakesFront (λ n. n) (λ xs. Q.due (Q.state correspondent.old) ≡ false →
            is_due_after Q.due Q.notified Q.awaits_messages catalogue.now
            (Q.state correspondent.old) (rules_by catalogue.now a self.old.slots.slots.most)
            r.stream xs ≡ false)
            (λ xs. Does catalogue.now a result (O.log out.old) (O.log out.new)
            (framing_view self.new)
            (one.run_step (rules_by catalogue.now a self.old.slots.slots.most) s xs))
            result piece.now }
        ensures told { IfOk result (λ n. (a : Answers) (s : State)
            (r : IsReached catalogue.now a self.old.slots.slots.most s) →
            Shows catalogue.now a (framing_view self.old) s →
            AgreesAtEnds Q.answer Q.notified catalogue.now (Q.state correspondent.old) a
            (header_ends_from (rules_by catalogue.now a self.old.slots.slots.most)
            r.stream piece.now) →
            Q.state correspondent.new ≡ after_ends Q.notified catalogue.now
            (Q.state correspondent.old) (header_ends_from
            (rules_by catalogue.now a self.old.slots.slots.most)
            r.stream (take n piece.now))) }
        ensures last { IfOk result (λ n. (a : Answers) (s : State)
            (r : IsReached catalogue.now a self.old.slots.slots.most s) →
            Shows catalogue.now a (framing_view self.old) s →
            AgreesAtEnds Q.answer Q.notified catalogue.now (Q.state correspondent.old) a
            (header_ends_from (rules_by catalogue.now a self.old.slots.slots.most)
            r.stream piece.now) → n < length piece.now →
            is_due_after Q.due Q.notified Q.awaits_messages catalogue.now
            (Q.state correspondent.old) (rules_by catalogue.now a self.old.slots.slots.most)
            r.stream (take n piece.now) ≡ true) }
        ensures some { 0 < length piece.now → IfOk result (λ n. 0 < n) }
        ensures within { IfOk result (λ n. n ≤ length piece.now) }
        ensures ready { OnOk result
            (AreReady catalogue.now (self.new.totals.octets + 1) self.new.slots) }
        ensures most { self.new.slots.slots.most ≡ self.old.slots.slots.most }
    {
        let begun = self.totals.messages;
        let mut taken = 0;
        while taken < piece.len() {
            let count = self.take_some(catalogue, correspondent, &piece[taken..], out)?;
            taken += count;
            if self.is_due(correspondent, begun) {
                break;
            }
        }
        Ok(taken)
    }
}

/// How many of the next octets of a payload come up to the last one of its request id, after `payload_count` octets of it.
/// If the request id is complete, it is all of them.
fn up_to_id(payload_count: u32, room: usize) -> usize
    ensures within { result ≤ room }
    ensures apart { payload_count < 4 → payload_count + result ≤ 4 }
{
    if payload_count < 4 {
        room.min((4 - payload_count) as usize)
    } else {
        room
    }
}
