//! The state that is kept of a stream, and what an octet does to it, for headers, payloads and stream faults.

ghost use Rattle.std.specs.Prelude.{◌≡◌, ◌+◌, ◌*◌, ◌++◌, ◌∷◌, ◌^◌, ◌≤◌, ◌<◌, ℕ, List, [], length, take, true, not, None, IfOk, OnOk, if◌then◌else◌};
ghost use Rattle.arrayvec.specs.ArrayVec.{array_vec_len};
ghost use Rattle.giop_stream.specs.Rules.{joins_by, most_open};

use crate::current::Current;
use crate::dispatch;
use crate::fault::StreamFault;
use crate::header::{last_octet_fault, size_of};
use crate::lines::stream_fault_line;
use crate::slots::Slots;
use crate::status::Totals;
use arrayvec::ArrayVec;
use giop_message::Correspondent;
use giop_print::{Out, OutFault};
use giop_sig::Catalogue;
use std::alloc::{AllocError, Global};

/// The greatest number of octets that are read of a stream.
pub const LIMIT: u64 = 281_474_976_710_656;

/// Whether Fragments of GIOP 1.1 are joined. It depends on the version of the signature file.
pub fn joins_1_1(catalogue: &Catalogue) -> bool
    ensures { result ≡ joins_by catalogue.now }
{
    catalogue.version() >= 3
}

/// The totals before the first octet.
const NOTHING_READ: Totals = Totals {
    messages: 0,
    faults: 0,
    octets: 0,
};

/// The state that is kept of a stream.
#[derive(Drop)]
pub struct Framing {
    pub totals: Totals,
    pub stopped: Option<StreamFault>,
    /// The octets of a header that were read until now; all 12 within a payload.
    pub header: ArrayVec<u8, 12>,
    /// How many octets of the payload were read.
    pub payload_count: u32,
    pub slots: Slots,
    ghost read: { totals.octets ≤ 2 ^ 48 + 1 },
    ghost running: { stopped ≡ None → totals.octets ≤ 2 ^ 48 },
    ghost few_messages: { totals.messages ≤ totals.octets },
    ghost few_faults: { totals.faults ≤ 3 * totals.octets },
    ghost held: { array_vec_len header ≤ totals.octets },
    ghost room: { slots.slots.most ≤ most_open },
    ghost some: { 1 ≤ slots.slots.most },
}

impl Framing {
    ghost use Rattle.giop_print.specs.Output.{Writes};
    ghost use Rattle.giop_sig.specs.Table.{Table};
    ghost use Rattle.giop_message.specs.Signatures.{Answers};
    ghost use Rattle.giop_stream.specs.Rules.{rules_by};
    ghost use Rattle.giop_message.specs.Headers.{size};
    ghost use Rattle.giop_stream.specs.HeaderOctets.{last_octet_fault};
    ghost use Rattle.giop_stream.specs.Text.{stop_text};
    ghost use Rattle.giop_stream.specs.SlotsRepresent.{AreReady, IsBare};
    ghost use Rattle.giop_stream.specs.EngineView.{FramingView};
    ghost use Rattle.giop_stream.specs.EngineState.{State};
    ghost use Rattle.giop_stream.specs.EngineStep as one;
    ghost use Rattle.giop_stream.specs.FramingView.{framing_view};
    ghost use Rattle.giop_stream.specs.ViewOfState.{Shows, IsReached, Does};
    ghost use Rattle.giop_message.specs.MessageState.{AreKnown};
    ghost use Rattle.giop_stream.specs.FramingSteps.{with_header_octet, stopped_with, cleared_if_complete};
    ghost use Rattle.giop_stream.specs.Framing.{cut, lacking};
    ghost use Rattle.giop_stream.specs.HeaderEndsOfStream.{current_header_ends, header_ends_at};
    ghost use Rattle.giop_message.specs.HeaderEnds.{AgreesAtEnds, after_ends};
    ghost use Rattle.giop_message.specs.DueOctets.{TakesFront, StaysUndue};

    /// Makes the state before the first octet, for this number of open messages. Fragments of GIOP 1.1 are joined or refused.
    pub fn new(alloc: Global, most: usize, joins: bool) -> Result<Framing, AllocError>
        requires room { most ≤ most_open }
        requires some { 1 ≤ most }
        ensures most { IfOk result (λ f. f.slots.slots.most ≡ most) }
        ensures shows { IfOk result (λ f. (C : Table) (l : Answers) (n : ℕ) →
            joins ≡ joins_by C → Shows C l (framing_view f) (one.fresh_state (rules_by C l n))) }
        ensures ready { IfOk result (λ f. (C : Table) →
            AreReady C (f.totals.octets + 1) f.slots) }
    {
        Ok(Framing {
            totals: NOTHING_READ,
            stopped: None,
            header: ArrayVec::new(),
            payload_count: 0,
            slots: Slots::new(alloc, most, joins)?,
        })
    }

    /// Goes back to the state before the first octet, and keeps the memory.
    pub fn restart(&mut self, joins: bool)
        ensures shows { (C : Table) (l : Answers) (n : ℕ) → joins ≡ joins_by C →
            Shows C l (framing_view self.new) (one.fresh_state (rules_by C l n)) }
        ensures ready { (C : Table) → AreReady C (self.new.totals.octets + 1) self.new.slots }
        ensures most { self.new.slots.slots.most ≡ self.old.slots.slots.most }
    {
        self.clear(NOTHING_READ, None, joins);
    }

    /// Drops all messages and the octets of a header. Only these totals and this stream fault are kept.
    pub fn clear(&mut self, totals: Totals, stopped: Option<StreamFault>, joins: bool)
        requires read { totals.octets ≤ 2 ^ 48 + 1 }
        requires running { stopped ≡ None → totals.octets ≤ 2 ^ 48 }
        requires few_messages { totals.messages ≤ totals.octets }
        requires few_faults { totals.faults ≤ 3 * totals.octets }
        ensures totals { self.new.totals ≡ totals }
        ensures stopped { self.new.stopped ≡ stopped }
        ensures header { self.new.header.items ≡ [] }
        ensures payload_count { self.new.payload_count ≡ 0 }
        ensures bare { IsBare self.new.slots }
        ensures mixed { self.new.slots.is_mixed ≡ not joins }
        ensures most { self.new.slots.slots.most ≡ self.old.slots.slots.most }
        ensures ready { (C : Table) → AreReady C (self.new.totals.octets + 1) self.new.slots }
    {
        self.totals = totals;
        self.stopped = stopped;
        self.header.clear();
        self.payload_count = 0;
        self.slots.clear(joins);
    }

    /// Ends the reading with a stream fault at the octet of this place. No header and no payload is held after that.
    #[tactic(auto, unfolding(crate::specs::FramingSteps::stopped_with))]
    fn stop_at_fault<O: Out>(
        &mut self,
        fault: StreamFault,
        place: u64,
        out: &mut O,
    ) -> Result<(), OutFault>
        requires place { self.old.totals.octets ≤ place }
        requires limit { place ≤ 2 ^ 48 + 1 }
        requires faults { self.old.totals.faults < 3 * place }
        ensures state { OnOk result (framing_view self.new
            ≡ stopped_with (framing_view self.old) fault place) }
        ensures text { Writes result (O.log out.old) (O.log out.new) (stop_text fault place) }
        ensures most { self.new.slots.slots.most ≡ self.old.slots.slots.most }
    {
        self.totals.octets = place;
        self.totals.faults += 1;
        self.stopped = Some(fault);
        self.header.clear();
        self.payload_count = 0;
        stream_fault_line(out, fault, place)
    }

    /// Ends a message after its last octet, if this was its last: the next octet is then the first one of a header.
    #[tactic(auto, unfolding(crate::specs::FramingSteps::cleared_if_complete))]
    pub fn clear_if_complete(&mut self, size: u32)
        ensures state { framing_view self.new ≡ cleared_if_complete (framing_view self.old) size }
        ensures most { self.new.slots.slots.most ≡ self.old.slots.slots.most }
    {
        if self.payload_count == size {
            // To clear it, the program would look at its length.
            self.header = ArrayVec::new();
            self.payload_count = 0;
        }
    }

    /// The current message, at the octet that was read last.
    pub fn current(&self) -> Current
        requires { length self.now.header.items ≡ 12 }
        ensures number { result.number ≡ self.now.totals.messages }
        ensures header { result.header ≡ self.now.header.items }
        ensures place { result.place ≡ self.now.totals.octets }
        ensures payload_count { result.payload_count ≡ self.now.payload_count }
    {
        let mut header = [0; 12];
        // Its length is written here, so that the program copies 12 octets without a look at how many it has.
        header.copy_from_slice(&self.header.as_slice()[..12]);
        Current {
            number: self.totals.messages,
            header,
            place: self.totals.octets,
            payload_count: self.payload_count,
        }
    }

    /// How many octets are missing until the end of the message that the stream is in, if the message's header is complete.
    /// It is 0 between two messages.
    pub fn lacking(&self) -> Option<u32>
        ensures { (C : Table) (l : Answers) (most : ℕ) (s : State) (r : IsReached C l most s) →
            Shows C l (framing_view self.now) s → result ≡ lacking (cut r.stream) }
    {
        if self.stopped.is_some() {
            return None;
        }
        if self.header.is_empty() {
            return Some(0);
        }
        if self.header.len() < 12 {
            return None;
        }
        let now = self.current();
        Some(size_of(&now.header).saturating_sub(now.payload_count))
    }

    /// Begins a message at the last octet of its header.
    fn begin_at_header_end<O: Out>(
        &mut self,
        catalogue: &Catalogue,
        out: &mut O,
    ) -> Result<(), OutFault>
        requires full { length self.old.header.items ≡ 12 }
        requires right { last_octet_fault self.old.header.items ≡ None }
        requires running { self.old.stopped ≡ None }
        requires messages { self.old.totals.messages < self.old.totals.octets }
        requires faults { self.old.totals.faults + 3 ≤ 3 * self.old.totals.octets }
        requires ready { AreReady catalogue.now self.old.totals.octets self.old.slots }
        // It does the step of the octet that was added to the header last.
        ensures does { (l : Answers) (s : State) (m : FramingView) (x : ℕ) →
            IsReached catalogue.now l self.old.slots.slots.most s →
            Shows catalogue.now l m s → framing_view self.old ≡ with_header_octet m x →
            Does catalogue.now l result (O.log out.old) (O.log out.new) (framing_view self.new)
            (one.step (rules_by catalogue.now l self.old.slots.slots.most) s x) }
        ensures ready { OnOk result
            (AreReady catalogue.now (self.new.totals.octets + 1) self.new.slots) }
        ensures most { self.new.slots.slots.most ≡ self.old.slots.slots.most }
    {
        self.totals.messages += 1;
        let now = self.current();
        let faults = dispatch::take_header_end(&mut self.slots, catalogue, now, out)?;
        self.totals.faults += u64::from(faults);
        self.clear_if_complete(size_of(&now.header));
        Ok(())
    }

    /// Takes an octet of a header.
    fn header_octet<O: Out>(
        &mut self,
        catalogue: &Catalogue,
        octet: u8,
        out: &mut O,
    ) -> Result<(), OutFault>
        requires held { length self.old.header.items < 12 }
        requires running { self.old.stopped ≡ None }
        requires limit { self.old.totals.octets < 2 ^ 48 }
        requires ready { AreReady catalogue.now (self.old.totals.octets + 1) self.old.slots }
        ensures does { (l : Answers) (s : State) →
            IsReached catalogue.now l self.old.slots.slots.most s →
            Shows catalogue.now l (framing_view self.old) s →
            Does catalogue.now l result (O.log out.old) (O.log out.new) (framing_view self.new)
            (one.step (rules_by catalogue.now l self.old.slots.slots.most) s octet) }
        ensures ready { OnOk result
            (AreReady catalogue.now (self.new.totals.octets + 1) self.new.slots) }
        ensures most { self.new.slots.slots.most ≡ self.old.slots.slots.most }
    {
        self.totals.octets += 1;
        self.header.push(octet);
        if let Some(fault) = last_octet_fault(self.header.as_slice()) {
            return self.stop_at_fault(fault, self.totals.octets, out);
        }
        if self.header.len() == 12 {
            return self.begin_at_header_end(catalogue, out);
        }
        Ok(())
    }

    /// Takes octets of a payload, up to the first one after which the correspondent is due. At most the last of them ends a
    /// request id or the message. Returns how many it took.
    pub fn payload_octets<O: Out, Q: Correspondent>(
        &mut self,
        catalogue: &Catalogue,
        correspondent: &mut Q,
        octets: &[u8],
        out: &mut O,
    ) -> Result<usize, OutFault>
        requires full { length self.old.header.items ≡ 12 }
        requires running { self.old.stopped ≡ None }
        requires some { 0 < length octets.now }
        requires apart { self.old.payload_count < 4 →
            self.old.payload_count + length octets.now ≤ 4 }
        requires few { 1 < length octets.now →
            self.old.payload_count + length octets.now ≤ size self.old.header.items }
        requires limit { self.old.totals.octets + length octets.now ≤ 2 ^ 48 }
        requires known { AreKnown catalogue.now (Q.answer (Q.state correspondent.old)) }
        requires ready { AreReady catalogue.now (self.old.totals.octets + 1) self.old.slots }
        ensures known { AreKnown catalogue.now (Q.answer (Q.state correspondent.new)) }
        ensures does { (a : Answers) (s : State)
            (r : IsReached catalogue.now a self.old.slots.slots.most s) →
            Shows catalogue.now a (framing_view self.old) s →
            AgreesAtEnds Q.answer Q.notified catalogue.now (Q.state correspondent.old) a
            (current_header_ends (rules_by catalogue.now a self.old.slots.slots.most)
            r.stream (cut r.stream).current octets.now) →
            TakesFront (λ n. n) (StaysUndue Q.due Q.notified catalogue.now
            (Q.state correspondent.old) (current_header_ends
            (rules_by catalogue.now a self.old.slots.slots.most) r.stream (cut r.stream).current))
            (λ xs. Does catalogue.now a result (O.log out.old) (O.log out.new)
            (framing_view self.new)
            (one.run_step (rules_by catalogue.now a self.old.slots.slots.most) s xs))
            result octets.now }
        ensures told { IfOk result (λ n. (a : Answers) (s : State)
            (r : IsReached catalogue.now a self.old.slots.slots.most s) →
            Shows catalogue.now a (framing_view self.old) s →
            AgreesAtEnds Q.answer Q.notified catalogue.now (Q.state correspondent.old) a
            (current_header_ends (rules_by catalogue.now a self.old.slots.slots.most)
            r.stream (cut r.stream).current octets.now) →
            Q.state correspondent.new ≡ after_ends Q.notified catalogue.now
            (Q.state correspondent.old) (current_header_ends
            (rules_by catalogue.now a self.old.slots.slots.most)
            r.stream (cut r.stream).current (take n octets.now))) }
        ensures due { IfOk result (λ n. n < length octets.now →
            Q.due (Q.state correspondent.new) ≡ true) }
        ensures some { IfOk result (λ n. 0 < n) }
        ensures within { IfOk result (λ n. n ≤ length octets.now) }
        ensures ready { OnOk result
            (AreReady catalogue.now (self.new.totals.octets + 1) self.new.slots) }
        ensures most { self.new.slots.slots.most ≡ self.old.slots.slots.most }
    {
        let before = self.current();
        let (count, faults) = dispatch::take_payload(
            &mut self.slots,
            catalogue,
            correspondent,
            octets,
            before,
            out,
        )?;
        let now = before.after_octets(count);
        self.totals.octets = now.place;
        self.payload_count = now.payload_count;
        self.totals.faults += u64::from(faults);
        self.clear_if_complete(size_of(&now.header));
        Ok(count)
    }

    /// Takes an octet of the stream.
    pub fn step<O: Out, Q: Correspondent>(
        &mut self,
        catalogue: &Catalogue,
        correspondent: &mut Q,
        octet: u8,
        out: &mut O,
    ) -> Result<(), OutFault>
        requires known { AreKnown catalogue.now (Q.answer (Q.state correspondent.old)) }
        requires ready { AreReady catalogue.now (self.old.totals.octets + 1) self.old.slots }
        ensures known { AreKnown catalogue.now (Q.answer (Q.state correspondent.new)) }
        ensures does { (a : Answers) (s : State)
            (r : IsReached catalogue.now a self.old.slots.slots.most s) →
            Shows catalogue.now a (framing_view self.old) s →
            AgreesAtEnds Q.answer Q.notified catalogue.now (Q.state correspondent.old) a
            (header_ends_at (rules_by catalogue.now a self.old.slots.slots.most)
            r.stream octet) →
            Does catalogue.now a result (O.log out.old) (O.log out.new) (framing_view self.new)
            (one.step (rules_by catalogue.now a self.old.slots.slots.most) s octet) }
        ensures told { IfOk result (λ _. (a : Answers) (s : State)
            (r : IsReached catalogue.now a self.old.slots.slots.most s) →
            Shows catalogue.now a (framing_view self.old) s →
            AgreesAtEnds Q.answer Q.notified catalogue.now (Q.state correspondent.old) a
            (header_ends_at (rules_by catalogue.now a self.old.slots.slots.most)
            r.stream octet) →
            Q.state correspondent.new ≡ after_ends Q.notified catalogue.now
            (Q.state correspondent.old) (header_ends_at
            (rules_by catalogue.now a self.old.slots.slots.most)
            r.stream octet)) }
        ensures ready { OnOk result
            (AreReady catalogue.now (self.new.totals.octets + 1) self.new.slots) }
        ensures most { self.new.slots.slots.most ≡ self.old.slots.slots.most }
    {
        if self.stopped.is_some() {
            return Ok(());
        }
        if LIMIT <= self.totals.octets {
            return self.stop_at_fault(StreamFault::StreamLimit, self.totals.octets + 1, out);
        }
        if self.header.len() < 12 {
            self.header_octet(catalogue, octet, out)
        } else {
            self.payload_octets(catalogue, correspondent, &[octet], out)?;
            Ok(())
        }
    }
}
