//! The records of a checkpoint: what it stores of each message that has begun and not ended.

ghost use Rattle.std.specs.Prelude.{◌≡◌, ◌↔◌, ℕ, List, ◌+◌, ◌*◌, ◌≤◌, ◌++◌, length, take, drop, Option, Some, IfSome, IsSomeAnd, IsTrue};
ghost use Rattle.arrayvec.specs.ArrayVec.{array_vec_len};
ghost use Rattle.giop_checkpoint.specs.Records.{StoredRecord, StoredRecordHasRange, HasTypeRanges, RecordHasRange, RecordKindHasRange, AreRecords, first_record_length, kind_octets, own_octets, stored_record_octets, record_kind_octet, request_id_or_0};
ghost use Rattle.giop_checkpoint.specs.declared.record.Record.{Record as RecordOf};
ghost use Rattle.giop_checkpoint.specs.declared.record.RecordKind.{RecordKind as StandingOf};

use crate::sizes::{FRAME_SIZE, MESSAGE_SIZE, MOST_FRAMES, RECORD_SIZE};
use crate::state::same;
use arrayvec::ArrayVec;
use giop_octets::{
    eight_at, four_at, octet_at, octets_at, put_eight, put_four, put_octets, put_zeros,
};

/// Which message of the stream a record is of.
#[derive(Clone, Copy, Debug)]
pub enum RecordKind {
    /// The current message, which is neither open nor over.
    Current,
    /// The message is open under this request id.
    Open(u32),
    /// The message is open under this request id, and over.
    Over(u32),
    /// The message is of GIOP 1.1 and open, without a request id.
    OpenWithoutId,
    /// The message is of GIOP 1.1 and open, without a request id, and over.
    OverWithoutId,
}

/// A record's own octets.
#[derive(Clone, Copy, Debug)]
pub struct Record {
    /// How many frames the record has, at most 24.
    pub frames: u8,
    pub record_kind: RecordKind,
    /// The message's number in its stream, from 1.
    pub number: u64,
    pub header: [u8; 12],
}

impl RecordKind {
    /// The octet of this kind.
    fn octet(self) -> u8
        ensures { result ≡ record_kind_octet self }
    {
        match self {
            RecordKind::Current => 0,
            RecordKind::Open(_) => 1,
            RecordKind::Over(_) => 2,
            RecordKind::OpenWithoutId => 3,
            RecordKind::OverWithoutId => 4,
        }
    }

    /// The request id, or 0 if the message isn't open under one.
    fn id(self) -> u32
        ensures { result ≡ request_id_or_0 self }
    {
        match self {
            RecordKind::Current | RecordKind::OpenWithoutId | RecordKind::OverWithoutId => 0,
            RecordKind::Open(id) => id,
            RecordKind::Over(id) => id,
        }
    }
}

impl Record {
    /// Writes how many frames the record has, and its kind.
    #[tactic(auto, unfolding(crate::specs::Records::kind_octets))]
    fn write_kind<const N: usize>(&self, out: &mut ArrayVec<u8, N>)
        requires room { array_vec_len out.old + 2 ≤ N }
        ensures put { out.new.items ≡ out.old.items ++ kind_octets self.now }
        ensures len { array_vec_len out.new ≡ array_vec_len out.old + 2 }
    {
        put_octets(out, &[self.frames, self.record_kind.octet()]);
    }

    /// Writes the record's own octets.
    pub fn write<const N: usize>(&self, out: &mut ArrayVec<u8, N>)
        requires room { array_vec_len out.old + 32 ≤ N }
        ensures put { out.new.items ≡ out.old.items ++ own_octets self.now }
        ensures typed { HasTypeRanges self.now }
        ensures len { array_vec_len out.new ≡ array_vec_len out.old + 32 }
    {
        self.write_kind(out);
        put_eight(out, self.number);
        put_octets(out, &self.header);
        put_four(out, self.record_kind.id());
        put_zeros(out, 6);
    }
}

/// The first of a checkpoint's records, and what follows it.
#[derive(Clone, Copy, Debug)]
pub struct FirstRecord<'a> {
    pub record: Record,
    /// What is stored of the message, without the frames.
    pub message: [u8; 224],
    pub frames: &'a [u8],
    /// The octets of the records after the first.
    pub rest: &'a [u8],
}

/// The first of these records, if each field is in its range, and unused octets are zero.
pub fn first_record<'a>(octets: &'a [u8]) -> Option<FirstRecord<'a>>
    requires whole { first_record_length octets.now ≤ length octets.now }
    ensures own { IfSome result (λ first. take 32 octets.now ≡ own_octets first.record) }
    ensures range { IfSome result (λ first. RecordHasRange first.record) }
    ensures message { IfSome result (λ first. first.message ≡ take 224 (drop 32 octets.now)) }
    ensures len { IfSome result (λ first.
        length first.frames.now ≡ FRAME_SIZE * first.record.frames) }
    ensures rest { IfSome result (λ first. first.rest.now ≡ drop
        (first_record_length octets.now) octets.now) }
    // If a record was written, it is read.
    ensures again { (e : StoredRecord) (rest : List ℕ) → StoredRecordHasRange e →
        octets.now ≡ stored_record_octets e ++ rest →
        IsSomeAnd result (λ first. (first.record ≡ e.record_is) × (first.message ≡ e.message)
        × (first.frames.now ≡ e.frames) × (first.rest.now ≡ rest)) }
{
    let (own, behind) = octets.split_at(32);
    let Some(record) = record_at(own) else {
        return None;
    };
    let (message, behind) = behind.split_at(MESSAGE_SIZE);
    let (frames, rest) = behind.split_at(FRAME_SIZE * record.frames as usize);
    Some(FirstRecord {
        record,
        message: message_array(message),
        frames,
        rest,
    })
}

/// The octets of a message, as an array.
fn message_array(octets: &[u8]) -> [u8; 224]
    requires { length octets.now ≡ 224 }
    ensures { result ≡ octets.now }
{
    let mut message = [0; 224];
    message.copy_from_slice(octets);
    message
}

/// The record whose own octets these are, if each field is in its range, and unused octets are
/// zero.
fn record_at(octets: &[u8]) -> Option<Record>
    requires long { length octets.now ≡ 32 }
    ensures own { IfSome result (λ r. octets.now ≡ own_octets r) }
    ensures range { IfSome result (λ r. RecordHasRange r) }
    ensures again { (r : RecordOf) → RecordHasRange r → octets.now ≡ own_octets r →
        result ≡ Some r }
{
    let Some(record) = unchecked_record(octets) else {
        return None;
    };
    if record.frames > MOST_FRAMES {
        return None;
    }
    let mut again: ArrayVec<u8, 32> = ArrayVec::new();
    record.write(&mut again);
    if !same(again.as_slice(), octets) {
        return None;
    }
    Some(record)
}

/// The record that octets give. Unused octets aren't checked.
fn unchecked_record(octets: &[u8]) -> Option<Record>
    requires long { length octets.now ≡ 32 }
    ensures range { IfSome result (λ r. RecordKindHasRange r.record_kind) }
    ensures again { (r : RecordOf) → RecordHasRange r → octets.now ≡ own_octets r →
        result ≡ Some r }
{
    let Some(record_kind) = record_kind_of(octet_at(octets, 1), four_at(octets, 22)) else {
        return None;
    };
    Some(Record {
        frames: octet_at(octets, 0),
        record_kind,
        number: eight_at(octets, 2),
        header: octets_at(octets, 10),
    })
}

/// The kind of a record, from its octet and its request id.
fn record_kind_of(octet: u8, id: u32) -> Option<RecordKind>
    ensures range { IfSome result (λ s. RecordKindHasRange s) }
    ensures again { (s : StandingOf) → octet ≡ record_kind_octet s → id ≡ request_id_or_0 s →
        result ≡ Some s }
{
    match octet {
        0 => Some(RecordKind::Current),
        1 => Some(RecordKind::Open(id)),
        2 => Some(RecordKind::Over(id)),
        3 => Some(RecordKind::OpenWithoutId),
        4 => Some(RecordKind::OverWithoutId),
        _ => None,
    }
}

/// Whether octets are this many records, each as long as its first octet says.
pub fn are_records(records: u32, octets: &[u8]) -> bool
    ensures { IsTrue result ↔ AreRecords records octets.now }
{
    if records == 0 {
        return octets.is_empty();
    }
    if octets.is_empty() {
        return false;
    }
    let first_record_length = RECORD_SIZE + FRAME_SIZE * octets[0] as usize;
    if octets.len() < first_record_length {
        return false;
    }
    let (_, rest) = octets.split_at(first_record_length);
    are_records(records - 1, rest)
}
