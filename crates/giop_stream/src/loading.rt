//! Reads the checkpoint of an engine: its fixed part and its records. Each of them is checked (docs/FORMATS.md,
//! Checkpoints).

ghost use Rattle.std.specs.Prelude.{◌≡◌, ℕ, List, ◌+◌, ◌<◌, ◌≤◌, ◌^◌, ◌*◌, length, drop, true, false, Option, Some, None, IfOk, IfErr, IfSome, IsSome, IsSomeAnd, [], ◌∷◌, ◌++◌, flat_map, replicate};
ghost use Rattle.giop_sig.specs.Table.{Table};
ghost use Rattle.giop_message.specs.Phases.{Phase};
ghost use Rattle.giop_message.specs.MessageState.{Follows};
ghost use Rattle.giop_message.specs.Signatures.{RequestTable, Answers, by_list};
ghost use Rattle.giop_message.specs.Stored.{Stored};
ghost use Rattle.giop_message.specs.declared.message.Message.{Message as CodeMessage};
ghost use Rattle.giop_checkpoint.specs.Records.{AreRecords, stored_record_octets, first_record_length};
ghost use Rattle.giop_checkpoint.specs.Refusals.{PassesUpToCounts};
ghost use Rattle.giop_checkpoint.specs.declared.record.RecordKind.TheVariants as record_kinds;
ghost use Rattle.giop_stream.specs.Rules.{rules, most_open};
ghost use Rattle.giop_stream.specs.Lines.{Kept};
ghost use Rattle.giop_stream.specs.OpenSlots.{Slot as Held};
ghost use Rattle.giop_stream.specs.SlotsRepresent.{AreReady, KeepsRoom, IsBare, IsReady, current_of};
ghost use Rattle.giop_stream.specs.declared.slots.PayloadOwner.TheVariants.{Open};
ghost use Rattle.giop_stream.specs.FramingView.{framing_view};
ghost use Rattle.giop_stream.specs.Events.{MessageKey};
ghost use Rattle.giop_stream.specs.EngineState.{state_of};
ghost use Rattle.giop_stream.specs.ViewOfState.{Shows};
ghost use Rattle.giop_stream.specs.Checkpoint.{counts_of, fixed_of, open_kind, over_kind, Allows, IsRefused, OrNoMemory, Spells};
ghost use Rattle.giop_stream.specs.Reloading.{stop_in, header_in, payload_count_in, owner_by, lacks_key, without_key, HasRoomFor, MayHaveSeams, open_entry_of_record, IsOpenEntry, IsCurrentOwner, IsCurrentEntry, HasAdded, HasAddedFirst, AreRecordsLeft};

use crate::framing::{Framing, joins_1_1};
use crate::header::size_of;
use crate::saving::counts_of;
use crate::slots::{PayloadOwner, Slot, Slots};
use crate::status::Totals;
use arrayvec::ArrayVec;
use giop_checkpoint::{
    FirstRecord, Fixed, LoadFault, NextOctet, RecordKind, StreamFault, first_record, fixed_part,
};
use giop_message::Message;
use giop_sig::{Catalogue, Requests};
use std::alloc::Global;

/// The state of a stream, read from its checkpoint.
pub fn read_checkpoint(
    alloc: Global,
    catalogue: &Catalogue,
    requests: &Requests,
    octets: &[u8],
) -> Result<Framing, LoadFault>
    ensures ready { IfOk result (λ f. AreReady catalogue.now (f.totals.octets + 1) f.slots) }
    ensures refused { IfErr result (λ why.
        IsRefused (counts_of catalogue.now requests.now) octets.now why) }
    ensures most { IfOk result (λ f.
        Allows (counts_of catalogue.now requests.now) octets.now f.slots.slots.most) }
    ensures ours { IfOk result (λ f. PassesUpToCounts
        (counts_of catalogue.now requests.now) octets.now) }
    ensures again { (n : ℕ) (p : List ℕ) →
        Spells octets.now catalogue.now requests.now n p →
        OrNoMemory result (λ f. (f.slots.slots.most ≡ n)
        × Shows catalogue.now (by_list requests.now) (framing_view f)
        (state_of (rules catalogue.now requests.now n) p)) }
{
    let (fixed, records) = match fixed_part(octets, counts_of(catalogue, requests)) {
        Ok(parts) => parts,
        Err(why) => return Err(why),
    };
    let Ok(slots) = Slots::new(alloc, fixed.most_open as usize, joins_1_1(catalogue)) else {
        return Err(LoadFault::OutOfMemory);
    };
    match framing_of(catalogue, fixed, records, slots) {
        Some(framing) => Ok(framing),
        None => Err(LoadFault::State),
    }
}

/// The state that these fields and records give, if a stream can have it.
fn framing_of(catalogue: &Catalogue, fixed: Fixed, records: &[u8], slots: Slots) -> Option<Framing>
    requires octets { fixed.octets ≤ 2 ^ 48 + 1 }
    requires open { (1 ≤ fixed.most_open) × (fixed.most_open ≤ most_open) }
    requires bare { IsBare slots }
    requires most { slots.slots.most ≡ fixed.most_open }
    requires lengths { AreRecords fixed.records records.now }
    ensures ready { IfSome result (λ f. AreReady catalogue.now (f.totals.octets + 1) f.slots) }
    ensures most { IfSome result (λ f. f.slots.slots.most ≡ fixed.most_open) }
    ensures again { (l : RequestTable) (n : ℕ) (octets p : List ℕ)
        (s : Spells octets catalogue.now l n p) →
        fixed ≡ fixed_of catalogue.now l s.memory →
        records.now ≡ flat_map stored_record_octets s.entries →
        IsSomeAnd result (λ f. Shows catalogue.now (by_list l) (framing_view f)
        (state_of (rules catalogue.now l n) p)) }
{
    let mut slots = slots;
    if !load_records(&mut slots, catalogue, fixed.octets, fixed.records, records) {
        return None;
    }
    set_owner(&mut slots, fixed.owner);
    slots.is_mixed = fixed.is_mixed || !joins_1_1(catalogue);
    let totals = Totals {
        messages: fixed.messages,
        faults: fixed.faults,
        octets: fixed.octets,
    };
    let stopped = stream_fault_of(&fixed.place);
    let (header, payload_count) = held_header_of(fixed.place);
    if !are_possible_totals(totals, stopped, header.len()) {
        return None;
    }
    Some(Framing {
        totals,
        stopped,
        header,
        payload_count,
        slots,
    })
}

/// Whether a stream can have these totals, with this stream fault and this number of header octets held.
fn are_possible_totals(totals: Totals, stopped: Option<StreamFault>, held: usize) -> bool
    requires { totals.octets ≤ 2 ^ 48 + 1 }
    ensures running { result ≡ true → stopped ≡ None → totals.octets ≤ 2 ^ 48 }
    ensures messages { result ≡ true → totals.messages ≤ totals.octets }
    ensures faults { result ≡ true → totals.faults ≤ 3 * totals.octets }
    ensures held { result ≡ true → held ≤ totals.octets }
    ensures again { (stopped ≡ None → totals.octets ≤ 2 ^ 48) → totals.messages ≤ totals.octets →
        totals.faults ≤ 3 * totals.octets → held ≤ totals.octets → result ≡ true }
{
    totals.messages <= totals.octets
        && totals.faults <= 3 * totals.octets
        && held as u64 <= totals.octets
        && (stopped.is_some() || totals.octets <= 1 << 48)
}

/// The stream fault, if the stream has stopped.
fn stream_fault_of(place: &NextOctet) -> Option<StreamFault>
    ensures { result ≡ stop_in place.now }
{
    match place {
        NextOctet::Stopped(fault) => Some(*fault),
        _ => None,
    }
}

/// The octets of a header that were read until now, and how many octets of the payload were read.
fn held_header_of(place: NextOctet) -> (ArrayVec<u8, 12>, u32)
    ensures header { result.0.items ≡ header_in place }
    ensures payload_count { result.1 ≡ payload_count_in place }
{
    match place {
        NextOctet::Header(held) => (header_octets(held.as_slice()), 0),
        NextOctet::Payload { header, left } => {
            let payload_count = size_of(&header).saturating_sub(left);
            (header_octets(&header), payload_count)
        }
        NextOctet::Stopped(_) => (ArrayVec::new(), 0),
    }
}

/// These octets of a header, as the framing holds them.
fn header_octets(octets: &[u8]) -> ArrayVec<u8, 12>
    requires { length octets.now ≤ 12 }
    ensures { result.items ≡ octets.now }
{
    let mut held = ArrayVec::new();
    for octet in octets {
        held.push(*octet);
    }
    held
}

/// Makes the message of this record the owner of the payload, if it is an open one. Else the current message stays the
/// owner, if there is one.
fn set_owner(slots: &mut Slots, owner: Option<u32>)
    ensures owner { slots.new.owner ≡ owner_by owner (length slots.old.slots.entries)
        slots.old.owner }
    ensures same { slots.new.slots ≡ slots.old.slots }
    ensures ready { (C : Table) (n : ℕ) → AreReady C n slots.old → AreReady C n slots.new }
{
    if let Some(k) = owner {
        if (k as usize) < slots.slots.len() {
            slots.owner = PayloadOwner::Open(Some(k as usize));
        }
    }
}

/// Adds the messages of this number of records. Returns whether each of them is in its range.
fn load_records(
    slots: &mut Slots,
    catalogue: &Catalogue,
    octets: u64,
    count: u32,
    records: &[u8],
) -> bool
    requires range { octets ≤ 2 ^ 48 + 1 }
    requires lengths { AreRecords count records.now }
    requires ready { AreReady catalogue.now (octets + 1) slots.old }
    ensures ready { result ≡ true → AreReady catalogue.now (octets + 1) slots.new }
    ensures again { (l : Answers) (held : List Held) (w : MessageKey) (xs : Option Kept) →
        AreRecordsLeft catalogue.now l (octets + 1) count records.now held w xs →
        HasRoomFor slots.old held →
        slots.old.owner ≡ Open None →
        (result ≡ true) × HasAdded catalogue.now l slots.old slots.new held
        × IsCurrentOwner catalogue.now l slots.new.owner w xs }
    ensures most { slots.new.slots.most ≡ slots.old.slots.most }
{
    let mut rest = records;
    for _ in 0..count {
        let Some(after_record) = load_first(slots, catalogue, octets, rest) else {
            return false;
        };
        rest = after_record;
    }
    true
}

/// Adds the message of the first of these records, if it is in its range, and returns the records after it. After the
/// record of the current message none is added.
fn load_first<'a>(
    slots: &mut Slots,
    catalogue: &Catalogue,
    octets: u64,
    records: &'a [u8],
) -> Option<&'a [u8]>
    requires range { octets ≤ 2 ^ 48 + 1 }
    requires whole { first_record_length records.now ≤ length records.now }
    requires ready { AreReady catalogue.now (octets + 1) slots.old }
    ensures ready { IfSome result (λ rest. AreReady catalogue.now (octets + 1) slots.new) }
    ensures rest { IfSome result (λ rest. rest.now ≡ drop
        (first_record_length records.now) records.now) }
    ensures again { (l : Answers) (count : ℕ) (held : List Held) (w : MessageKey)
        (xs : Option Kept) → (count ≡ 0 → ⊥) →
        AreRecordsLeft catalogue.now l (octets + 1) count records.now held w xs →
        HasRoomFor slots.old held →
        slots.old.owner ≡ Open None →
        IsSomeAnd result (λ rest. HasAddedFirst catalogue.now l (octets + 1) count
        slots.old slots.new rest.now held w xs) }
    ensures last { IsSome (current_of slots.old.owner) → result ≡ None }
    ensures most { slots.new.slots.most ≡ slots.old.slots.most }
{
    if slots.current().is_some() {
        return None;
    }
    let Some(first) = first_record(records) else {
        return None;
    };
    if !load_record(slots, catalogue, octets, &first) {
        return None;
    }
    Some(first.rest)
}

/// Adds the message of a record. Returns whether it is in its range.
fn load_record(
    slots: &mut Slots,
    catalogue: &Catalogue,
    octets: u64,
    first: &FirstRecord<'_>,
) -> bool
    requires range { octets ≤ 2 ^ 48 + 1 }
    requires ready { AreReady catalogue.now (octets + 1) slots.old }
    ensures ready { result ≡ true → AreReady catalogue.now (octets + 1) slots.new }
    ensures one_open { (l : Answers) (held : Held) →
        IsOpenEntry catalogue.now l (octets + 1) first.now held →
        HasRoomFor slots.old (held ∷ []) →
        (result ≡ true) × HasAdded catalogue.now l slots.old slots.new (held ∷ [])
        × (slots.new.owner ≡ slots.old.owner) }
    ensures one_current { (l : Answers) (w : MessageKey) (xs : Option Kept) →
        IsCurrentEntry catalogue.now l (octets + 1) first.now w xs →
        (result ≡ true) × (slots.new.slots ≡ slots.old.slots)
        × IsCurrentOwner catalogue.now l slots.new.owner w xs }
    ensures most { slots.new.slots.most ≡ slots.old.slots.most }
{
    match first.record.record_kind {
        RecordKind::Current => load_current(slots, catalogue, octets, first),
        RecordKind::Open(id) => load_open(slots, catalogue, octets, first, Some(id)),
        RecordKind::Over(id) => load_over(slots, first, Some(id)),
        RecordKind::OpenWithoutId => {
            joins_1_1(catalogue) && load_open(slots, catalogue, octets, first, None)
        }
        RecordKind::OverWithoutId => joins_1_1(catalogue) && load_over(slots, first, None),
    }
}

/// Adds the current message.
fn load_current(
    slots: &mut Slots,
    catalogue: &Catalogue,
    octets: u64,
    first: &FirstRecord<'_>,
) -> bool
    requires range { octets ≤ 2 ^ 48 + 1 }
    requires ready { AreReady catalogue.now (octets + 1) slots.old }
    ensures ready { result ≡ true → AreReady catalogue.now (octets + 1) slots.new }
    ensures same { slots.new.slots ≡ slots.old.slots }
    ensures again { (l : Answers) (w : MessageKey) (xs : Option Kept) →
        IsCurrentEntry catalogue.now l (octets + 1) first.now w xs →
        (result ≡ true) × IsCurrentOwner catalogue.now l slots.new.owner w xs }
    ensures most { slots.new.slots.most ≡ slots.old.slots.most }
{
    let message = restored_message(catalogue, octets, first);
    let in_range = message.is_some();
    slots.owner = PayloadOwner::Current(message, false);
    in_range
}

/// Adds an open message that isn't over.
fn load_open(
    slots: &mut Slots,
    catalogue: &Catalogue,
    octets: u64,
    first: &FirstRecord<'_>,
    id: Option<u32>,
) -> bool
    requires range { octets ≤ 2 ^ 48 + 1 }
    requires ready { AreReady catalogue.now (octets + 1) slots.old }
    ensures ready { result ≡ true → AreReady catalogue.now (octets + 1) slots.new }
    ensures owner { slots.new.owner ≡ slots.old.owner }
    ensures again { (l : Answers) (held : Held) →
        IsOpenEntry catalogue.now l (octets + 1) first.now held →
        first.now.record.record_kind ≡ open_kind id → HasRoomFor slots.old (held ∷ []) →
        (result ≡ true) × HasAdded catalogue.now l slots.old slots.new (held ∷ []) }
    ensures most { slots.new.slots.most ≡ slots.old.slots.most }
{
    let message = restored_message(catalogue, octets, first);
    message.is_some() && push_open(slots, first, id, message)
}

/// Adds an open message that is over.
fn load_over(slots: &mut Slots, first: &FirstRecord<'_>, id: Option<u32>) -> bool
    ensures room { KeepsRoom slots.old slots.new }
    ensures owner { slots.new.owner ≡ slots.old.owner }
    ensures again { (C : Table) (l : Answers) (n : ℕ) (held : Held) →
        IsOpenEntry C l n first.now held →
        first.now.record.record_kind ≡ over_kind id → HasRoomFor slots.old (held ∷ []) →
        (result ≡ true) × HasAdded C l slots.old slots.new (held ∷ []) }
{
    stores_nothing(first) && push_open(slots, first, id, None)
}

/// Adds an open message, if there is room for it; one without an id, if there is no other. Returns whether it was added.
fn push_open(
    slots: &mut Slots,
    first: &FirstRecord<'_>,
    id: Option<u32>,
    message: Option<Message>,
) -> bool
    ensures ready { (C : Table) (n : ℕ) → AreReady C n slots.old → IsReady C n message →
        AreReady C n slots.new }
    ensures owner { slots.new.owner ≡ slots.old.owner }
    ensures added { length slots.old.slots.entries < slots.old.slots.most →
        without_key (λ slot. slot.key) slots.old.slots.entries + lacks_key id ≤ 1 →
        (result ≡ true)
        × (slots.new.slots.entries ≡ slots.old.slots.entries
        ++ open_entry_of_record first.now id message ∷ []) }
    ensures most { slots.new.slots.most ≡ slots.old.slots.most }
{
    if slots.slots.is_full() {
        return false;
    }
    let slot = Slot {
        number: first.record.number,
        header: first.record.header,
        message,
    };
    match id {
        Some(id) => slots.slots.add(id, slot),
        None => {
            if slots.slots.without_id().is_some() {
                return false;
            }
            slots.slots.add_without_id(slot);
        }
    }
    true
}

/// The message that a record stores, if its fields are valid and it has no more octets than the stream.
fn restored_message(catalogue: &Catalogue, octets: u64, first: &FirstRecord<'_>) -> Option<Message>
    ensures ready { IsReady catalogue.now (octets + 1) result }
    ensures again { (m : CodeMessage) (l : Answers) (phase : Phase) (n : ℕ) (h xs : List ℕ) →
        IsReady catalogue.now (octets + 1) (Some m) →
        m.number ≡ first.now.record.number → m.header ≡ first.now.record.header →
        Stored m first.now.message first.now.frames.now → MayHaveSeams first.now phase →
        Follows catalogue.now l phase n h m xs →
        IsSomeAnd result (λ e. Follows catalogue.now l phase n h e xs) }
{
    let Some(message) = Message::restore(
        catalogue,
        first.record.number,
        first.record.header,
        &first.message,
        first.frames,
    ) else {
        return None;
    };
    if !is_joined_without_id(first) {
        if !message.is_unbroken() {
            return None;
        }
    }
    if message.octets_taken() <= octets {
        Some(message)
    } else {
        None
    }
}

/// Whether a record is that of a message which Fragments of GIOP 1.1 continue.
fn is_joined_without_id(first: &FirstRecord<'_>) -> bool
    ensures { first.now.record.record_kind ≡ record_kinds.OpenWithoutId → result ≡ true }
{
    matches!(first.record.record_kind, RecordKind::OpenWithoutId)
}

/// Whether a record stores nothing of its message: it has no frames, and only zeros.
fn stores_nothing(first: &FirstRecord<'_>) -> bool
    ensures { first.now.frames.now ≡ [] → first.now.message ≡ replicate 224 0 → result ≡ true }
{
    first.frames.is_empty() && first.message == [0; 224]
}
