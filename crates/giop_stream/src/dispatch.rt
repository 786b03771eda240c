//! What an octet of a message does: it adds to a message, or opens, continues, cancels, faults or closes one.

ghost use Rattle.std.specs.Prelude.{Option, List, [], ◌∷◌, ◌++◌, ◌≡◌, ◌==◌, ◌&&◌, not, ◌+◌, ◌-◌, ◌<◌, ◌≤◌, ◌^◌, ℕ, suc, length, take, true, false, Some, None, is_none, IfNone, OnOk, IfOk, if◌then◌else◌, slice_get};
ghost use Rattle.giop_sig.specs.Table.{Table};
ghost use Rattle.giop_message.specs.Signatures.{Answers};
ghost use Rattle.giop_message.specs.ReaderOfTable.{message_reader};
ghost use Rattle.giop_message.specs.MessageState.{AreKnown};
ghost use Rattle.giop_message.specs.Headers.{size, is_cancel_request};
ghost use Rattle.giop_stream.specs.Kinds.{is_fragment_1_1, is_fragmented_1_1, has_fragments, is_any_fragment};
ghost use Rattle.giop_stream.specs.declared.fault.FramingFault.TheVariants.{OldFragment, NoOpen};
ghost use Rattle.giop_stream.specs.Rules.{most_open};
ghost use Rattle.giop_stream.specs.Framing.{CutMessage, with_payload};
ghost use Rattle.giop_stream.specs.Events.{MessageKey, Open, Opens, Seams, NumbersRise, events_at_header, events_at_name, events_at_end, message_key, last_octet_of, already_open_fault, opening_fault, cancel_event, open_under, opener_of};
ghost use Rattle.giop_stream.specs.Effects.{effects, effect_to, with_octet};
ghost use Rattle.giop_stream.specs.OpenSlots.{Tracked, IsNotOpen};
ghost use Rattle.giop_stream.specs.SlotsRepresent.{SlotsRepresent, index_under, AreReady, KeepsRoom};
ghost use Rattle.giop_stream.specs.DoesEffect.{DoesEffect, count_one_if, count_none, count_all};
ghost use Rattle.giop_stream.specs.HeaderEndsOfStream.{owner_header_ends};
ghost use Rattle.giop_message.specs.HeaderEnds.{AgreesAtEnds, after_ends};
ghost use Rattle.giop_message.specs.DueOctets.{TakesFront, StaysUndue};
ghost use Rattle.giop_stream.specs.PayloadOwner.{IsAtName, IsBeforeMessage, IsAtHeader, IsBeforeOctets, IsAfterTake, IsAtOctet, before_with, owner_after_name, owner_after, events_if_at_name, events_if_at_end, octet_effect, octets_effect};
ghost use Rattle.giop_stream.specs.EngineState.{opener_key, owner_of_next};
ghost use Rattle.giop_stream.specs.Continuation.{IsContinuing};
ghost use Rattle.giop_stream.specs.Further.{current_after};

use crate::current::Current;
use crate::fault::FramingFault;
use crate::header::size_of;
use crate::kinds::{
    header_fault, is_cancel_request, is_continued, is_fragment_1_1, is_fragment_1_2,
    is_fragmented_1_1, is_opener_1_1, is_opener_1_2, is_too_short_for_id, may_be_cancelled,
    same_order,
};
use crate::lines::start_line;
use crate::slots::Slots;
use giop_message::{Correspondent, order_of};
use giop_print::{Out, OutFault, continues_line};
use giop_sig::Catalogue;

/// Whether nobody can tell to which message the Fragments of this one would belong.
fn is_owner_unknown(slots: &Slots, id: Option<u32>) -> bool
    ensures { result ≡ (is_none id && slots.now.is_mixed) }
{
    id.is_none() && slots.is_mixed
}

/// The fault of a message with fragments if another one is open under its request id, or, as it, without one.
fn already_open_fault(id: Option<u32>) -> FramingFault
    ensures { result ≡ already_open_fault id }
{
    match id {
        Some(_) => FramingFault::IdOpen,
        None => FramingFault::OldFragment,
    }
}

/// Why a message with fragments can't be opened under this request id, or without one.
fn opening_fault(slots: &Slots, id: Option<u32>) -> Option<FramingFault>
    ensures value { (C : Table) (l : Answers) (c : Tracked) (owner : Option MessageKey) →
        SlotsRepresent C l slots.now c owner →
        result ≡ opening_fault slots.now.slots.most (before_with C l c) id
        (open_under (before_with C l c) id) }
    ensures room { IfNone result (length slots.now.slots.entries < slots.now.slots.most) }
    ensures only { IfNone result (index_under slots.now id ≡ None) }
    ensures joined { IfNone result ((is_none id && slots.now.is_mixed) ≡ false) }
{
    if is_owner_unknown(slots, id) {
        return Some(FramingFault::OldFragment);
    }
    if slots.find_under(id).is_some() {
        return Some(already_open_fault(id));
    }
    if slots.is_full() {
        return Some(FramingFault::TooManyOpen);
    }
    None
}

/// Faults a message with fragments that can't be opened. If its Fragments have no id, none is joined from now on.
fn refuse_opening<O: Out>(
    slots: &mut Slots,
    now: Current,
    id: Option<u32>,
    fault: FramingFault,
    out: &mut O,
) -> Result<bool, OutFault>
    ensures does { (C : Table) (l : Answers) (c : Tracked) (m : CutMessage) →
        IsAtName C l slots.old c m now id → has_fragments m.header ≡ true →
        Some fault ≡ opening_fault slots.old.slots.most (before_with C l c) id
        (open_under (before_with C l c) id) →
        DoesEffect C l count_one_if result (O.log out.old) (O.log out.new) slots.new
        (effects (message_reader C l) c (events_at_name slots.old.slots.most (before_with C l c) m))
        (Some (message_key m)) }
    ensures room { KeepsRoom slots.old slots.new }
{
    match id {
        Some(_) => slots.fault_message(now.number, fault, now.place, out),
        None => {
            slots.stop_joining_1_1();
            slots.fault_message(now.number, fault, now.place, out)
        }
    }
}

/// Opens a message with fragments under its request id, or without one.
#[inline(always)]
fn open_current(slots: &mut Slots, now: Current, id: Option<u32>)
    requires room { length slots.old.slots.entries < slots.old.slots.most }
    requires only { index_under slots.old id ≡ None }
    requires joined { (is_none id && slots.old.is_mixed) ≡ false }
    ensures kept { (C : Table) (l : Answers) (c : Tracked) (w : MessageKey) (place : ℕ) →
        SlotsRepresent C l slots.old c (Some w) → IsNotOpen w.number c.still_open →
        w.number ≡ now.number → w.header ≡ now.header →
        SlotsRepresent C l slots.new (effect_to C l place c (Some w) (Opens id)).tracked (Some w) }
    ensures room { KeepsRoom slots.old slots.new }
{
    match id {
        Some(id) => slots.open(now.number, now.header, id),
        None => slots.open_without_id(now.number, now.header),
    }
}

/// Opens a message with fragments, at its request id, or at its header if its Fragments have none; or faults it.
fn open_or_fault<O: Out>(
    slots: &mut Slots,
    now: Current,
    id: Option<u32>,
    out: &mut O,
) -> Result<bool, OutFault>
    ensures does { (C : Table) (l : Answers) (c : Tracked) (m : CutMessage) →
        IsAtName C l slots.old c m now id → has_fragments m.header ≡ true →
        DoesEffect C l count_one_if result (O.log out.old) (O.log out.new) slots.new
        (effects (message_reader C l) c (events_at_name slots.old.slots.most (before_with C l c) m))
        (Some (message_key m)) }
    ensures room { KeepsRoom slots.old slots.new }
{
    match opening_fault(slots, id) {
        Some(fault) => refuse_opening(slots, now, id, fault, out),
        None => {
            open_current(slots, now, id);
            Ok(false)
        }
    }
}

/// Closes the open message at this index, at the request id of a CancelRequest, if it is one that may be cancelled.
fn cancel_at<O: Out>(
    slots: &mut Slots,
    index: usize,
    now: Current,
    out: &mut O,
) -> Result<(), OutFault>
    requires { index < length slots.old.slots.entries }
    ensures does { (C : Table) (l : Answers) (c : Tracked) (m : CutMessage) (i : Option ℕ)
        (o : Open) →
        IsAtName C l slots.old c m now i → is_cancel_request m.header ≡ true →
        slice_get c.still_open index ≡ Some o →
        DoesEffect C l count_none result (O.log out.old) (O.log out.new) slots.new
        (effects (message_reader C l) c (cancel_event (last_octet_of m) (Some o))) (Some
        (message_key m)) }
    ensures room { KeepsRoom slots.old slots.new }
{
    if may_be_cancelled(&slots.open_at(index).header) {
        return slots.cancel(index, now.number, now.place, out);
    }
    Ok(())
}

/// Closes the message that Fragments of GIOP 1.1 continue, at the request id of a CancelRequest, if this is its id.
fn cancel_pending<O: Out>(
    slots: &mut Slots,
    now: Current,
    id: u32,
    out: &mut O,
) -> Result<(), OutFault>
    ensures does { (C : Table) (l : Answers) (c : Tracked) (m : CutMessage) →
        IsAtName C l slots.old c m now (Some id) →
        is_any_fragment m.header ≡ false → has_fragments m.header ≡ false →
        is_cancel_request m.header ≡ true → opener_of (before_with C l c) m ≡ None →
        DoesEffect C l count_none result (O.log out.old) (O.log out.new) slots.new
        (effects (message_reader C l) c (events_at_name slots.old.slots.most (before_with C l c) m))
        (Some (message_key m)) }
    ensures room { KeepsRoom slots.old slots.new }
{
    let Some(k) = slots.find_1_1() else {
        return Ok(());
    };
    if slots.has_given_id(k, id) {
        return cancel_at(slots, k, now, out);
    }
    Ok(())
}

/// Closes the open message with this request id, at the request id of a CancelRequest.
fn cancel_message<O: Out>(
    slots: &mut Slots,
    now: Current,
    id: u32,
    out: &mut O,
) -> Result<(), OutFault>
    ensures does { (C : Table) (l : Answers) (c : Tracked) (m : CutMessage) →
        IsAtName C l slots.old c m now (Some id) →
        is_any_fragment m.header ≡ false → has_fragments m.header ≡ false →
        is_cancel_request m.header ≡ true →
        DoesEffect C l count_none result (O.log out.old) (O.log out.new) slots.new
        (effects (message_reader C l) c (events_at_name slots.old.slots.most (before_with C l c) m))
        (Some (message_key m)) }
    ensures room { KeepsRoom slots.old slots.new }
{
    match slots.find(id) {
        Some(k) => cancel_at(slots, k, now, out),
        None => cancel_pending(slots, now, id, out),
    }
}

/// The fault of a Fragment that continues no open message.
fn no_open_fault(slots: &Slots, now: Current) -> FramingFault
    ensures { result ≡ (if is_fragment_1_1 now.header && slots.now.is_mixed then OldFragment
        else NoOpen) }
{
    if is_fragment_1_1(&now.header) && slots.is_mixed {
        FramingFault::OldFragment
    } else {
        FramingFault::NoOpen
    }
}

/// Faults a Fragment that continues no open message. The rest of its payload belongs to no message.
fn fault_unmatched_fragment<O: Out>(
    slots: &mut Slots,
    now: Current,
    out: &mut O,
) -> Result<bool, OutFault>
    ensures does { (C : Table) (l : Answers) (c : Tracked) (m : CutMessage) (id : Option ℕ) →
        IsAtName C l slots.old c m now id →
        is_any_fragment m.header ≡ true → opener_of (before_with C l c) m ≡ None →
        DoesEffect C l count_one_if result (O.log out.old) (O.log out.new) slots.new
        (effects (message_reader C l) c (events_at_name slots.old.slots.most (before_with C l c) m))
        None }
    ensures room { KeepsRoom slots.old slots.new }
{
    let fault = no_open_fault(slots, now);
    let faulted = slots.fault_message(now.number, fault, now.place, out);
    slots.set_no_owner();
    faulted
}

/// Notes that the payload of a Fragment of GIOP 1.1 begins at the next octet of its owner. Padding in a Fragment of GIOP
/// 1.2 is counted on.
fn note_seam(slots: &mut Slots, now: Current)
    ensures kept { (C : Table) (l : Answers) (c : Tracked) (k : ℕ) (o : Open) →
        SlotsRepresent C l slots.old c (Some o.opener) → slice_get c.still_open k ≡ Some o →
        NumbersRise c.still_open →
        SlotsRepresent C l slots.new (if is_fragmented_1_1 now.header
        then (effect_to C l now.place c (Some o.opener) Seams).tracked else c) (Some o.opener) }
    ensures room { KeepsRoom slots.old slots.new }
{
    if is_fragmented_1_1(&now.header) {
        slots.note_seam();
    }
}

/// Makes a Fragment continue the open message at this index.
#[tactic(auto, using(giop_print::proofs::Writing::writes_then, giop_print::proofs::Writing::writes_err))]
pub fn continue_message<O: Out>(
    slots: &mut Slots,
    index: usize,
    now: Current,
    out: &mut O,
) -> Result<bool, OutFault>
    requires { index < length slots.old.slots.entries }
    ensures does { (C : Table) (l : Answers) (c : Tracked) (owner : Option MessageKey) (m :
        CutMessage)
        (o : Open) →
        IsContinuing C l slots.old c owner m now →
        is_any_fragment m.header ≡ true → opener_of (before_with C l c) m ≡ Some o →
        slice_get c.still_open index ≡ Some o →
        DoesEffect C l count_one_if result (O.log out.old) (O.log out.new) slots.new
        (effects (message_reader C l) c (events_at_name slots.old.slots.most (before_with C l c) m))
        (Some o.opener) }
    ensures room { KeepsRoom slots.old slots.new }
{
    let opener = slots.open_at(index);
    let (number, order) = (opener.number, order_of(&opener.header));
    slots.set_open_owner(index);
    continues_line(out, now.number, number)?;
    note_seam(slots, now);
    if same_order(order_of(&now.header), order) {
        return Ok(false);
    }
    slots.fault_message(number, FramingFault::FragmentOrder, now.place, out)
}

/// Takes the request id of a Fragment, or the header of one that has none: the rest of its payload belongs to the open
/// message with this id.
fn join_fragment<O: Out>(
    slots: &mut Slots,
    now: Current,
    id: Option<u32>,
    out: &mut O,
) -> Result<bool, OutFault>
    ensures does { (C : Table) (l : Answers) (c : Tracked) (m : CutMessage) →
        IsAtName C l slots.old c m now id → is_any_fragment m.header ≡ true →
        DoesEffect C l count_one_if result (O.log out.old) (O.log out.new) slots.new
        (effects (message_reader C l) c (events_at_name slots.old.slots.most (before_with C l c) m))
        (opener_key (opener_of (before_with C l c) m)) }
    ensures room { KeepsRoom slots.old slots.new }
{
    match slots.find_under(id) {
        Some(k) => continue_message(slots, k, now, out),
        None => fault_unmatched_fragment(slots, now, out),
    }
}

/// Does what the last octet of a message's request id does. Returns whether a message is faulted.
pub fn at_request_id<O: Out>(
    slots: &mut Slots,
    now: Current,
    id: u32,
    out: &mut O,
) -> Result<bool, OutFault>
    ensures does { (C : Table) (l : Answers) (c : Tracked) (m : CutMessage) →
        IsAtName C l slots.old c m now (Some id) →
        DoesEffect C l count_one_if result (O.log out.old) (O.log out.new) slots.new
        (effects (message_reader C l) c (events_at_name slots.old.slots.most (before_with C l c) m))
        (owner_after_name (before_with C l c) m) }
    ensures room { KeepsRoom slots.old slots.new }
{
    if is_fragment_1_2(&now.header) {
        return join_fragment(slots, now, Some(id), out);
    }
    if is_opener_1_2(&now.header) {
        return open_or_fault(slots, now, Some(id), out);
    }
    if !is_cancel_request(&now.header) {
        return Ok(false);
    }
    cancel_message(slots, now, id, out)?;
    Ok(false)
}

/// Does what the last octet of a message does. A joined message is complete with the last octet of its last Fragment, any
/// other message with this octet. Returns whether a message is faulted.
pub fn at_message_end<O: Out>(
    slots: &mut Slots,
    catalogue: &Catalogue,
    now: Current,
    out: &mut O,
) -> Result<bool, OutFault>
    requires ready { AreReady catalogue.now (now.place + 1) slots.old }
    ensures does { (l : Answers) (c : Tracked) (m : CutMessage) →
        IsAtOctet catalogue.now l slots.old c m now → length m.payload ≡ size m.header →
        DoesEffect catalogue.now l count_one_if result (O.log out.old) (O.log out.new) slots.new
        (effects (message_reader catalogue.now l) c
        (events_at_end (before_with catalogue.now l c) m)) None }
    ensures room { KeepsRoom slots.old slots.new }
{
    if is_too_short_for_id(&now.header) {
        let faulted = slots.fault_message(now.number, FramingFault::Short, now.place, out);
        slots.set_no_owner();
        return faulted;
    }
    if is_continued(&now.header) {
        slots.set_no_owner();
        return Ok(false);
    }
    slots.close(catalogue, now.place, out)
}

/// Whether an octet is the last one of a request id. A fragmented message of GIOP 1.1 has none there.
fn ends_request_id(now: Current) -> bool
    ensures { result ≡ ((now.payload_count == 4) && not (is_fragmented_1_1 now.header)) }
{
    now.payload_count == 4 && !is_fragmented_1_1(&now.header)
}

/// Does what an octet does if it is the last one of a request id. Returns whether a message is faulted.
fn at_fourth_octet<O: Out>(slots: &mut Slots, now: Current, out: &mut O) -> Result<bool, OutFault>
    ensures does { (C : Table) (l : Answers) (c : Tracked) (m : CutMessage) →
        IsAfterTake C l slots.old c m now → 0 < length m.payload →
        DoesEffect C l count_one_if result (O.log out.old) (O.log out.new) slots.new
        (effects (message_reader C l) c (events_if_at_name slots.old.slots.most
        (before_with C l c) m))
        (owner_of_next (before_with C l c) m) }
    ensures room { KeepsRoom slots.old slots.new }
{
    if ends_request_id(now) {
        let id = slots.request_id();
        return at_request_id(slots, now, id, out);
    }
    Ok(false)
}

/// Does what an octet does if it is the last one of its message. Returns whether a message is faulted.
#[inline(always)]
pub fn at_last_octet<O: Out>(
    slots: &mut Slots,
    catalogue: &Catalogue,
    now: Current,
    out: &mut O,
) -> Result<bool, OutFault>
    requires ready { AreReady catalogue.now (now.place + 1) slots.old }
    ensures does { (l : Answers) (c : Tracked) (m : CutMessage) →
        IsAtOctet catalogue.now l slots.old c m now → length m.payload ≡ now.payload_count →
        DoesEffect catalogue.now l count_one_if result (O.log out.old) (O.log out.new) slots.new
        (effects (message_reader catalogue.now l) c
        (events_if_at_end (before_with catalogue.now l c) m))
        (owner_after (before_with catalogue.now l c) m) }
    ensures ready { AreReady catalogue.now (now.place + 1) slots.new }
    ensures most { slots.new.slots.most ≡ slots.old.slots.most }
{
    if now.payload_count == size_of(&now.header) {
        return at_message_end(slots, catalogue, now, out);
    }
    Ok(false)
}

/// How many messages an octet faults, by the three parts of what it does.
pub fn count_faults(at_take: bool, at_id: bool, at_end: bool) -> u8
    ensures value { result ≡ (if at_take then 1 else 0)
        + ((if at_id then 1 else 0) + (if at_end then 1 else 0)) }
    ensures few { result ≤ 3 }
{
    u8::from(at_take) + (u8::from(at_id) + u8::from(at_end))
}

/// Takes octets of a message's payload, up to the first one after which the correspondent is due. Those before the last
/// only add to the message's contents. Returns how many it took, and how many messages they fault.
pub fn take_payload<O: Out, Q: Correspondent>(
    slots: &mut Slots,
    catalogue: &Catalogue,
    correspondent: &mut Q,
    octets: &[u8],
    before: Current,
    out: &mut O,
) -> Result<(usize, u8), OutFault>
    requires some { 0 < length octets.now }
    requires ready { AreReady catalogue.now (before.place + 1) slots.old }
    requires known { AreKnown catalogue.now (Q.answer (Q.state correspondent.old)) }
    requires limit { before.place + length octets.now ≤ 2 ^ 48 }
    ensures known { AreKnown catalogue.now (Q.answer (Q.state correspondent.new)) }
    ensures does { (a : Answers) (c : Tracked) (m : CutMessage) →
        SlotsRepresent catalogue.now a slots.old c
        (owner_of_next (before_with catalogue.now a c) m) →
        NumbersRise c.still_open →
        AgreesAtEnds Q.answer Q.notified catalogue.now (Q.state correspondent.old) a
        (owner_header_ends c (owner_of_next (before_with catalogue.now a c) m) octets.now) →
        TakesFront (λ r. r.0) (StaysUndue Q.due Q.notified catalogue.now
        (Q.state correspondent.old)
        (owner_header_ends c (owner_of_next (before_with catalogue.now a c) m)))
        (λ xs. (q : List ℕ) (x : ℕ) → xs ≡ q ++ x ∷ [] →
        (let now = current_after before (suc (length q)) in
        IsBeforeOctets catalogue.now a slots.old c m now q x →
        (let effect = octets_effect catalogue.now a slots.old.slots.most c m now q x in
        DoesEffect catalogue.now a (λ r. r.1) result (O.log out.old) (O.log out.new) slots.new
        effect (owner_after (before_with catalogue.now a effect.tracked)
        (with_octet (with_payload m (m.payload ++ q)) x))))) result octets.now }
    ensures told { IfOk result (λ r. (a : Answers) (c : Tracked) (m : CutMessage) →
        SlotsRepresent catalogue.now a slots.old c
        (owner_of_next (before_with catalogue.now a c) m) →
        AgreesAtEnds Q.answer Q.notified catalogue.now (Q.state correspondent.old) a
        (owner_header_ends c (owner_of_next (before_with catalogue.now a c) m) octets.now) →
        Q.state correspondent.new ≡ after_ends Q.notified catalogue.now
        (Q.state correspondent.old)
        (owner_header_ends c (owner_of_next (before_with catalogue.now a c) m)
        (take r.0 octets.now))) }
    ensures due { IfOk result (λ r. r.0 < length octets.now →
        Q.due (Q.state correspondent.new) ≡ true) }
    ensures some { IfOk result (λ r. 0 < r.0) }
    ensures within { IfOk result (λ r. r.0 ≤ length octets.now) }
    ensures few { IfOk result (λ r. r.1 ≤ 3) }
    ensures ready { IfOk result (λ r. AreReady catalogue.now (before.place + r.0 + 1) slots.new) }
    ensures most { slots.new.slots.most ≡ slots.old.slots.most }
{
    let (count, taken) = slots.take(catalogue, correspondent, octets, before.place, out)?;
    let now = before.after_octets(count);
    let named = at_fourth_octet(slots, now, out)?;
    let ended = at_last_octet(slots, catalogue, now, out)?;
    Ok((count, count_faults(taken, named, ended)))
}

/// Begins a message, and faults it if its header alone is refused. Returns whether it is faulted.
#[tactic(auto, using(giop_print::proofs::Writing::writes_then, giop_print::proofs::Writing::writes_err))]
fn begin_message<O: Out>(
    slots: &mut Slots,
    catalogue: &Catalogue,
    now: Current,
    out: &mut O,
) -> Result<bool, OutFault>
    requires ready { AreReady catalogue.now now.place slots.old }
    ensures does { (l : Answers) (c : Tracked) (who : Option MessageKey) (m : CutMessage) →
        IsBeforeMessage catalogue.now l slots.old c who m now →
        DoesEffect catalogue.now l count_one_if result (O.log out.old) (O.log out.new) slots.new
        (effects (message_reader catalogue.now l) c (events_at_header m)) (Some (message_key m)) }
    ensures ready { OnOk result (AreReady catalogue.now (now.place + 1) slots.new) }
    ensures most { slots.new.slots.most ≡ slots.old.slots.most }
{
    start_line(out, now.number, &now.header)?;
    slots.begin(catalogue, now.number, now.header);
    match header_fault(&now.header) {
        Some(fault) => slots.fault_message(now.number, fault, now.place, out),
        None => Ok(false),
    }
}

/// Does what the last octet of a header does to the open messages. Only messages of GIOP 1.1 with fragments, and their
/// Fragments, have their place among them from there on. Returns whether a message is faulted.
fn at_header_1_1<O: Out>(slots: &mut Slots, now: Current, out: &mut O) -> Result<bool, OutFault>
    ensures does { (C : Table) (l : Answers) (c : Tracked) (m : CutMessage) →
        IsAtHeader C l slots.old c m now →
        DoesEffect C l count_one_if result (O.log out.old) (O.log out.new) slots.new
        (effects (message_reader C l) c (events_if_at_name slots.old.slots.most
        (before_with C l c) m))
        (owner_of_next (before_with C l c) m) }
    ensures room { KeepsRoom slots.old slots.new }
{
    if is_opener_1_1(&now.header) {
        return open_or_fault(slots, now, None, out);
    }
    if is_fragment_1_1(&now.header) {
        return join_fragment(slots, now, None, out);
    }
    Ok(false)
}

/// Takes the last octet of a header. Returns how many messages it faults.
pub fn take_header_end<O: Out>(
    slots: &mut Slots,
    catalogue: &Catalogue,
    now: Current,
    out: &mut O,
) -> Result<u8, OutFault>
    requires ready { AreReady catalogue.now now.place slots.old }
    ensures does { (l : Answers) (c : Tracked) (who : Option MessageKey) (m : CutMessage) →
        IsBeforeMessage catalogue.now l slots.old c who m now →
        (let effect = octet_effect catalogue.now l slots.old.slots.most c m in
        DoesEffect catalogue.now l count_all result (O.log out.old) (O.log out.new) slots.new
        effect (owner_after (before_with catalogue.now l effect.tracked) m)) }
    ensures few { IfOk result (λ faults. faults ≤ 3) }
    ensures ready { OnOk result (AreReady catalogue.now (now.place + 1) slots.new) }
    ensures most { slots.new.slots.most ≡ slots.old.slots.most }
{
    let refused = begin_message(slots, catalogue, now, out)?;
    let named = at_header_1_1(slots, now, out)?;
    let ended = at_last_octet(slots, catalogue, now, out)?;
    Ok(count_faults(refused, named, ended))
}
