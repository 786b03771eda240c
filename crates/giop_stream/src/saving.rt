//! Writes the checkpoint of an engine: the fixed part, a record for each open message, and a record for the current message
//! (docs/FORMATS.md, Checkpoints).

ghost use Rattle.std.specs.Prelude.{◌≡◌, ℕ, List, ◌+◌, ◌*◌, ◌^◌, ◌<◌, ◌≤◌, ◌++◌, length, IfOk};
ghost use Rattle.std.specs.List.{AllByRecursion as Each};
ghost use Rattle.arrayvec.specs.ArrayVec.{array_vec_len};
ghost use Rattle.giop_print.specs.Output.{OutLog};
ghost use Rattle.giop_sig.specs.Table.{Table};
ghost use Rattle.giop_checkpoint.specs.Layouts.{OpenHasRange, layout_of};
ghost use Rattle.giop_checkpoint.specs.Fixed.{fixed_octets};
ghost use Rattle.giop_message.specs.MessageState.{Fits};
ghost use Rattle.giop_stream.specs.Rules.{most_open};
ghost use Rattle.giop_stream.specs.SlotsRepresent.{AreReady, IsReady, index_of, current_of};
ghost use Rattle.giop_stream.specs.FramingView.{framing_view};
ghost use Rattle.giop_stream.specs.Checkpoint.{counts_of, place_of, owner_record_index, count_current, fixed_of, open_kind, over_kind, IsOpen, IsMessageRecord, IsPutOne, AreOpen, IsPut, IsPutWhole, Puts, PutsSuch};

use crate::framing::{Framing, joins_1_1};
use crate::header::size_of;
use crate::slots::{PayloadOwner, Slot, Slots};
use arrayvec::ArrayVec;
use giop_checkpoint::{Counts, FRAME_SIZE, Fixed, MESSAGE_SIZE, NextOctet, Record, RecordKind};
use giop_message::Message;
use giop_octets::{put_octets, put_zeros};
use giop_print::{Out, OutFault, put_all};
use giop_sig::{Catalogue, Requests};

/// Writes the checkpoint of a stream that was read by this catalogue and this list. Returns how many octets it has.
#[tactic(auto, using(crate::proofs::Restored::Saved::written_fixed))]
pub fn write_checkpoint<O: Out>(
    framing: &Framing,
    catalogue: &Catalogue,
    requests: &Requests,
    out: &mut O,
) -> Result<u64, OutFault>
    requires ready { AreReady catalogue.now (framing.now.totals.octets + 1) framing.now.slots }
    ensures whole { PutsSuch result (O.log out.old) (O.log out.new)
        (IsPutWhole (layout_of catalogue.now.version) catalogue.now requests.now
        (framing_view framing.now)) }
    ensures long { let f = fixed_of catalogue.now requests.now (framing_view framing.now) in
        length (fixed_octets (layout_of catalogue.now.version) f) ≡ 96 }
    ensures allows { OpenHasRange (layout_of catalogue.now.version) framing.now.slots.slots.most }
{
    let mut fixed: ArrayVec<u8, 96> = ArrayVec::new();
    fixed_part(framing, catalogue, requests).write(&mut fixed);
    let begun = put_after(Ok(0), fixed.as_slice(), out);
    let written = write_open_records(&framing.slots, begun, out);
    let Some(message) = framing.slots.current() else {
        return written;
    };
    let (number, header) = (message.number(), message.header());
    let mut record: ArrayVec<u8, 832> = ArrayVec::new();
    write_message_record(RecordKind::Current, number, header, message, &mut record);
    put_after(written, record.as_slice(), out)
}

/// Puts octets after those that were written, unless a put has failed. Returns how many octets were written then.
fn put_after<O: Out>(
    written: Result<u64, OutFault>,
    octets: &[u8],
    out: &mut O,
) -> Result<u64, OutFault>
    requires room { IfOk written (λ n. n + length octets.now < 2 ^ 64) }
    ensures put { (before : OutLog) (front : List ℕ) →
        Puts written before (O.log out.old) front →
        Puts result before (O.log out.new) (front ++ octets.now) }
    ensures size { (m : ℕ) → IfOk written (λ n. n ≤ m) →
        IfOk result (λ n. n ≤ m + length octets.now) }
{
    let count = written?;
    put_all(out, octets)?;
    Ok(count + octets.len() as u64)
}

/// The fixed part of a checkpoint.
#[tactic(auto, unfolding(crate::specs::Checkpoint::fixed_of))]
fn fixed_part(framing: &Framing, catalogue: &Catalogue, requests: &Requests) -> Fixed
    ensures { result ≡ fixed_of catalogue.now requests.now (framing_view framing.now) }
{
    Fixed {
        counts: counts_of(catalogue, requests),
        most_open: framing.slots.slots.most() as u32,
        records: record_count(&framing.slots),
        octets: framing.totals.octets,
        messages: framing.totals.messages,
        faults: framing.totals.faults,
        place: place_of(framing),
        owner: owner_record_index(&framing.slots),
        is_mixed: framing.slots.is_mixed && joins_1_1(catalogue),
    }
}

/// The version of the catalogue, and the numbers of types, operations, exceptions and request ids of the catalogue and the
/// list.
#[tactic(auto, unfolding(crate::specs::Checkpoint::counts_of))]
pub fn counts_of(catalogue: &Catalogue, requests: &Requests) -> Counts
    ensures { result ≡ counts_of catalogue.now requests.now }
{
    let counts = catalogue.counts();
    Counts {
        version: catalogue.version(),
        types: counts.types,
        operations: counts.operations,
        exceptions: counts.exceptions,
        ids: requests.count(),
    }
}

/// The number of records.
fn record_count(slots: &Slots) -> u32
    requires { slots.now.slots.most ≤ most_open }
    ensures { result ≡ length slots.now.slots.entries + count_current (current_of slots.now.owner) }
{
    slots.slots.len() as u32 + u32::from(slots.current().is_some())
}

/// The place of the next octet: in a header, in a payload, or after a stream fault.
fn place_of(framing: &Framing) -> NextOctet
    ensures { result ≡ place_of framing.now.stopped framing.now.header.items
        framing.now.payload_count }
{
    if let Some(fault) = framing.stopped {
        return NextOctet::Stopped(fault);
    }
    if framing.header.len() < 12 {
        return NextOctet::Header(held_header(framing.header.as_slice()));
    }
    let mut header = [0; 12];
    header.copy_from_slice(framing.header.as_slice());
    NextOctet::Payload {
        header,
        left: size_of(&header).saturating_sub(framing.payload_count),
    }
}

/// The octets of a header that are held.
fn held_header(octets: &[u8]) -> ArrayVec<u8, 11>
    requires { length octets.now < 12 }
    ensures { result.items ≡ octets.now }
{
    let mut held = ArrayVec::new();
    for octet in octets {
        held.push(*octet);
    }
    held
}

/// The index of the record of the message that the payload belongs to.
fn owner_record_index(slots: &Slots) -> Option<u32>
    requires { slots.now.slots.most ≤ most_open }
    ensures { result ≡ owner_record_index (index_of slots.now.owner) (current_of slots.now.owner)
        (length slots.now.slots.entries) }
{
    match &slots.owner {
        PayloadOwner::Current(Some(_), false) => Some(slots.slots.len() as u32),
        PayloadOwner::Current(_, _) => None,
        PayloadOwner::Open(Some(place)) if *place < slots.slots.len() => Some(*place as u32),
        PayloadOwner::Open(_) => None,
    }
}

/// Writes the records of the open messages after what was written. Each record is composed, even after a failed put.
fn write_open_records<O: Out>(
    slots: &Slots,
    begun: Result<u64, OutFault>,
    out: &mut O,
) -> Result<u64, OutFault>
    requires few { slots.now.slots.most ≤ most_open }
    requires room { IfOk begun (λ n. n ≤ 96) }
    ensures put { (C : Table) (at : ℕ) (before : OutLog) (front : List ℕ) →
        Each (λ slot. IsReady C at slot.value.message) slots.now.slots.entries →
        Puts begun before (O.log out.old) front → PutsSuch result before (O.log out.new)
        (λ octets. IsPut front octets (AreOpen slots.now.slots.entries)) }
    ensures size { IfOk result (λ n. n ≤ 96 + 832 * slots.now.slots.most) }
{
    let mut written = begun;
    for k in 0..slots.slots.len() {
        let mut record: ArrayVec<u8, 832> = ArrayVec::new();
        write_open_record(slots.request_id_at(k), slots.open_at(k), &mut record);
        written = put_after(written, record.as_slice(), out);
    }
    written
}

/// Writes the record of an open message.
fn write_open_record(id: Option<u32>, slot: &Slot, out: &mut ArrayVec<u8, 832>)
    requires room { array_vec_len out.old + 832 ≤ 832 }
    ensures put { (C : Table) (at : ℕ) → IsReady C at slot.now.message →
        IsPutOne out.old.items out.new.items (IsOpen (record { key = id; value = slot.now })) }
    ensures len { array_vec_len out.new ≤ array_vec_len out.old + 832 }
{
    match &slot.message {
        Some(message) => {
            write_message_record(open_kind(id), slot.number, slot.header, message, out);
        }
        None => {
            let record = Record {
                frames: 0,
                record_kind: over_kind(id),
                number: slot.number,
                header: slot.header,
            };
            record.write(out);
            put_zeros(out, MESSAGE_SIZE);
        }
    }
}

/// The kind of the record of an open message with this request id.
fn open_kind(id: Option<u32>) -> RecordKind
    ensures { result ≡ open_kind id }
{
    match id {
        Some(id) => RecordKind::Open(id),
        None => RecordKind::OpenWithoutId,
    }
}

/// The kind of the record of an open message with this request id that is over.
fn over_kind(id: Option<u32>) -> RecordKind
    ensures { result ≡ over_kind id }
{
    match id {
        Some(id) => RecordKind::Over(id),
        None => RecordKind::OverWithoutId,
    }
}

/// Writes the record of a message that isn't over.
fn write_message_record(
    record_kind: RecordKind,
    number: u64,
    header: [u8; 12],
    message: &Message,
    out: &mut ArrayVec<u8, 832>,
)
    requires room { array_vec_len out.old + 832 ≤ 832 }
    ensures put { (C : Table) → Fits C message.now →
        IsPutOne out.old.items out.new.items
        (IsMessageRecord record_kind number header message.now) }
    ensures len { array_vec_len out.new ≤ array_vec_len out.old + 832 }
{
    let (mut fixed, mut frames) = ([0; 224], [0; 576]);
    let count = message.store(&mut fixed, &mut frames);
    let record = Record {
        frames: count,
        record_kind,
        number,
        header,
    };
    record.write(out);
    put_octets(out, &fixed);
    put_octets(out, &frames[..FRAME_SIZE * count as usize]);
}
