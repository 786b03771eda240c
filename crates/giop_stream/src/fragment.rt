//! A Fragment of an open message, if the last octet of its header and its request id come together. Then no message of its
//! own is begun.

ghost use Rattle.std.specs.Prelude.{◌≡◌, ◌+◌, ◌≤◌, ◌<◌, ◌^◌, ℕ, List, [], ◌∷◌, length, take, None, Some, IfSome, IfOk, OnOk};
ghost use Rattle.giop_cdr.specs.Numbers.{num};
ghost use Rattle.giop_sig.specs.Table.{Table};
ghost use Rattle.giop_message.specs.Signatures.{Answers};
ghost use Rattle.giop_stream.specs.Framing.{CutMessage};
ghost use Rattle.giop_stream.specs.Effects.{with_octet};
ghost use Rattle.giop_stream.specs.OpenSlots.{Tracked};
ghost use Rattle.giop_stream.specs.SlotsRepresent.{AreReady};
ghost use Rattle.giop_stream.specs.DoesEffect.{DoesEffect, count_all};
ghost use Rattle.giop_stream.specs.PayloadOwner.{before_with, owner_after};
ghost use Rattle.giop_stream.specs.Continuation.{IsOpenAt, IsContinuation, IsBeforeContinuation, continuation_effect};

use crate::current::Current;
use crate::dispatch::{at_last_octet, continue_message, count_faults};
use crate::framing::{Framing, LIMIT};
use crate::header::{number_of, size_of};
use crate::kinds::is_fragment_1_2;
use crate::lines::start_line;
use crate::slots::Slots;
use arrayvec::ArrayVec;
use giop_message::{order_of, request_id_line};
use giop_print::{Out, OutFault};
use giop_sig::Catalogue;

/// The open message that a Fragment continues: its request id, and its index.
#[derive(Clone, Copy, Debug)]
pub struct Continuation {
    pub id: u32,
    pub index: usize,
}

/// Starts a Fragment that has the same request id as an open message. Returns how many messages are faulted.
fn join_fragment<O: Out>(
    slots: &mut Slots,
    catalogue: &Catalogue,
    found: Continuation,
    now: Current,
    out: &mut O,
) -> Result<u8, OutFault>
    requires within { found.index < length slots.old.slots.entries }
    requires ready { AreReady catalogue.now (now.place + 1) slots.old }
    ensures does { (l : Answers) (c : Tracked) (m : CutMessage) (x : ℕ) →
        IsBeforeContinuation catalogue.now l slots.old c m now x found →
        (let effect = continuation_effect catalogue.now l slots.old.slots.most c m x in
        DoesEffect catalogue.now l count_all result (O.log out.old) (O.log out.new) slots.new
        effect (owner_after (before_with catalogue.now l effect.tracked) (with_octet m x))) }
    ensures few { IfOk result (λ faults. faults ≤ 3) }
    ensures ready { OnOk result (AreReady catalogue.now (now.place + 1) slots.new) }
    ensures most { slots.new.slots.most ≡ slots.old.slots.most }
{
    start_line(out, now.number, &now.header)?;
    request_id_line(out, now.number, found.id)?;
    let faulted = continue_message(slots, found.index, now, out)?;
    let ended = at_last_octet(slots, catalogue, now, out)?;
    Ok(count_faults(false, faulted, ended))
}

impl Framing {
    ghost use Rattle.giop_stream.specs.Rules.{rules_by};
    ghost use Rattle.giop_stream.specs.EngineState.{State};
    ghost use Rattle.giop_stream.specs.EngineStep as one;
    ghost use Rattle.giop_stream.specs.FramingView.{framing_view};
    ghost use Rattle.giop_stream.specs.ViewOfState.{Shows, IsReached, Does};

    /// The open message that these octets continue, if they begin with the last one of a Fragment's header and the request
    /// id of that message.
    pub fn continuation(&self, octets: &[u8]) -> Option<Continuation>
        ensures within { IfSome result (λ found. 5 ≤ length octets.now) }
        ensures running { IfSome result (λ found. self.now.stopped ≡ None) }
        ensures limit { IfSome result (λ found. self.now.totals.octets + 5 ≤ 2 ^ 48) }
        ensures is { IfSome result (λ found.
            IsContinuation self.now.header.items (take 5 octets.now) self.now.slots found) }
    {
        if self.header.len() != 11 || self.header.as_slice()[7] != 7 || self.stopped.is_some() {
            return None;
        }
        if LIMIT.saturating_sub(self.totals.octets) < 5 {
            return None;
        }
        let [last, a, b, c, d, ..] = octets else {
            return None;
        };
        let mut header: ArrayVec<u8, 12> = ArrayVec::new();
        header
            .try_extend_from_slice(self.header.as_slice())
            .unwrap();
        header.push(*last);
        if !is_fragment_1_2(header.as_slice()) || size_of(header.as_slice()) < 4 {
            return None;
        }
        let id = number_of(order_of(header.as_slice()), *a, *b, *c, *d);
        match self.slots.find(id) {
            Some(index) => Some(Continuation { id, index }),
            None => None,
        }
    }

    /// Takes the last octet of a Fragment's header and its request id, which is the id of this open message.
    pub fn take_continuation<O: Out>(
        &mut self,
        catalogue: &Catalogue,
        found: Continuation,
        octets: &[u8],
        out: &mut O,
    ) -> Result<(), OutFault>
        requires is { IsContinuation self.old.header.items octets.now self.old.slots found }
        requires running { self.old.stopped ≡ None }
        requires limit { self.old.totals.octets + 5 ≤ 2 ^ 48 }
        requires ready { AreReady catalogue.now (self.old.totals.octets + 1) self.old.slots }
        ensures does { (a : Answers) (s : State) →
            IsReached catalogue.now a self.old.slots.slots.most s →
            Shows catalogue.now a (framing_view self.old) s →
            Does catalogue.now a result (O.log out.old) (O.log out.new) (framing_view self.new)
            (one.run_step (rules_by catalogue.now a self.old.slots.slots.most) s octets.now) }
        ensures ready { OnOk result
            (AreReady catalogue.now (self.new.totals.octets + 1) self.new.slots) }
        ensures most { self.new.slots.slots.most ≡ self.old.slots.slots.most }
    {
        self.totals.octets += 5;
        self.totals.messages += 1;
        self.header.push(octets[0]);
        self.payload_count = 4;
        let now = self.current();
        let faults = join_fragment(&mut self.slots, catalogue, found, now, out)?;
        self.totals.faults += u64::from(faults);
        self.clear_if_complete(size_of(&now.header));
        Ok(())
    }
}
