//! The messages that have begun and not ended: the open ones in their slots, and the current one, which is being read.

ghost use Rattle.std.specs.Prelude.{◌≡◌, ◌+◌, ◌<◌, ◌≤◌, ◌^◌, ℕ, List, [], length, take, true, false, not, Bool, Option, Some, None, OnOk, IfOk, if◌then◌else◌};
ghost use Rattle.giop_print.specs.Output.{Writes};
ghost use Rattle.giop_sig.specs.Table.{Table};
ghost use Rattle.giop_message.specs.Signatures.{Answers};
ghost use Rattle.giop_message.specs.MessageState.{AreKnown};
ghost use Rattle.giop_stream.specs.Events.{MessageKey, Faults, Closes, ends_joining, is_same_id};
ghost use Rattle.giop_stream.specs.Rules.{most_open, asks_by};
ghost use Rattle.giop_stream.specs.Lines.{Kept, nothing_kept};
ghost use Rattle.giop_stream.specs.OpenSlots.{Tracked, IsNotOpen, given_id};
ghost use Rattle.giop_stream.specs.SlotsRepresent.{RepresentsMessage, current_of};

use crate::fault::FramingFault;
use crate::open_message::{close_message, fault_message, seam_message, take_octets};
use giop_entry_table::OptionalIdTable;
use giop_message::{Correspondent, Message};
use giop_print::{Out, OutFault, cancelled_line, unfinished_line};
use giop_sig::Catalogue;
use std::alloc::{AllocError, Global};

/// The greatest number of messages that may be open at once.
pub const MOST_OPEN: u32 = 4_096;

/// An open message, kept under its request id. A message of GIOP 1.1 has none.
#[derive(Drop)]
pub struct Slot {
    pub number: u64,
    pub header: [u8; 12],
    /// The state of its reading, unless the message is over.
    pub message: Option<Message>,
}

/// The message that the payload's octets belong to.
#[derive(Drop)]
pub enum PayloadOwner {
    /// The current message itself, which isn't open, or None after it was faulted. The second field tells whether it is
    /// over; then the next message begins in its place.
    Current(Option<Message>, bool),
    /// The open message at this index, or None if the octets belong to no message.
    Open(Option<usize>),
}

impl PayloadOwner {
    /// Takes the current message away, unless it is open or over.
    fn take_current(&mut self) -> Option<Message>
        ensures { result ≡ current_of self.old }
    {
        match self {
            PayloadOwner::Current(message, false) => message.take(),
            PayloadOwner::Current(_, true) => None,
            PayloadOwner::Open(_) => None,
        }
    }
}

/// Whether a message has given this request id.
fn has_id(message: &Message, id: u32) -> bool
    ensures { (C : Table) (l : Answers) (w : MessageKey) (kept : Kept) →
        RepresentsMessage C l (Some message.now) w (Some kept) →
        result ≡ is_same_id (Some id) (given_id (asks_by C l) w (Some kept)) }
{
    match message.request_id() {
        Some(other) => id == other,
        None => false,
    }
}

/// The open messages, and the message that the payload's octets belong to.
#[derive(Drop)]
pub struct Slots {
    pub slots: OptionalIdTable<Slot>,
    pub owner: PayloadOwner,
    /// Whether no Fragment of GIOP 1.1 is joined any more, since nobody can tell to which message it belongs.
    pub is_mixed: bool,
}

impl Slots {
    ghost use Rattle.std.specs.Prelude.{◌<◌, ◌==◌, IfSome, flat_map, nat_le, is_some, is_none, ◌||◌, option_copied, option_map, slice_get};
    ghost use Rattle.std.specs.List.{position_from};
    ghost use Rattle.giop_print.specs.Lines.{unfinished_line};
    ghost use Rattle.giop_stream.specs.Events.{Open, Opens, Seams, Cancelled, NumbersRise};
    ghost use Rattle.giop_message.specs.Signatures.{signatures_of};
    ghost use Rattle.giop_message.specs.Messages.{read_message, message_lines};
    ghost use Rattle.giop_message.specs.ReaderOfTable.{first_request_id};
    ghost use Rattle.giop_stream.specs.SlotsRepresent.{AreSlots, SlotsRepresent, index_under, AreReady, KeepsRoom, IsBare};
    ghost use Rattle.giop_stream.specs.Effects.{event, effect_to};
    ghost use Rattle.giop_stream.specs.DoesEffect.{DoesEffect, count_one_if, count_none};
    ghost use Rattle.giop_stream.specs.OpenSlots.{Slot as Held, unfinished_number};
    ghost use Rattle.giop_stream.specs.PayloadRuns.{run_effect};
    ghost use Rattle.giop_stream.specs.HeaderEndsOfStream.{owner_header_ends};
    ghost use Rattle.giop_message.specs.HeaderEnds.{AgreesAtEnds, after_ends};
    ghost use Rattle.giop_message.specs.DueOctets.{TakesFront, StaysUndue};

    /// Makes slots without a message, for this number of open messages. Fragments of GIOP 1.1 are joined or refused.
    pub fn new(alloc: Global, most: usize, joins: bool) -> Result<Slots, AllocError>
        requires { most ≤ most_open }
        ensures most { IfOk result (λ slots. slots.slots.most ≡ most) }
        ensures bare { IfOk result (λ slots. IsBare slots) }
        ensures mixed { IfOk result (λ slots. slots.is_mixed ≡ not joins) }
        ensures ready { IfOk result (λ slots. (C : Table) (n : ℕ) → AreReady C n slots) }
    {
        Ok(Slots {
            slots: OptionalIdTable::new(alloc, most)?,
            owner: PayloadOwner::Open(None),
            is_mixed: !joins,
        })
    }

    /// Drops all messages.
    pub fn clear(&mut self, joins: bool)
        ensures most { self.new.slots.most ≡ self.old.slots.most }
        ensures bare { IsBare self.new }
        ensures mixed { self.new.is_mixed ≡ not joins }
        ensures ready { (C : Table) (n : ℕ) → AreReady C n self.new }
    {
        self.slots.clear();
        self.owner = PayloadOwner::Open(None);
        self.is_mixed = !joins;
    }

    /// The open message at this index.
    pub fn open_at(&self, index: usize) -> &Slot
        requires { index < length self.now.slots.entries }
        ensures { option_map (λ e. e.value) (slice_get self.now.slots.entries index)
            ≡ Some result.now }
    {
        match self.slots.get(index) {
            Some(slot) => slot,
            None => unreachable!(),
        }
    }

    /// The request id of the open message at this index, unless it is of GIOP 1.1.
    pub fn request_id_at(&self, index: usize) -> Option<u32>
        requires { index < length self.now.slots.entries }
        ensures { option_map (λ e. e.key) (slice_get self.now.slots.entries index) ≡ Some result }
    {
        match self.slots.key(index) {
            Some(id) => id,
            None => unreachable!(),
        }
    }

    /// The current message, unless it is open or over.
    pub fn current(&self) -> Option<&Message>
        ensures value { option_copied result ≡ current_of self.now.owner }
        ensures variant { is_some result ≡ is_some (current_of self.now.owner) }
    {
        match &self.owner {
            PayloadOwner::Current(message, false) => message.as_ref(),
            PayloadOwner::Current(_, true) => None,
            PayloadOwner::Open(_) => None,
        }
    }

    /// Writes the lines of the open messages that have neither ended nor been faulted, in the order of their numbers.
    pub fn write_unfinished<O: Out>(&self, out: &mut O) -> Result<(), OutFault>
        ensures { (C : Table) (l : Answers) (slots : List Held) →
            AreSlots C l self.now.slots.entries slots →
            Writes result (O.log out.old) (O.log out.new)
            (flat_map unfinished_line (flat_map unfinished_number slots)) }
    {
        for k in 0..self.slots.len() {
            let slot = self.open_at(k);
            if slot.message.is_some() {
                unfinished_line(out, slot.number)?;
            }
        }
        Ok(())
    }

    /// Feeds octets of the payload to their owner, after `before` octets of the stream, up to the first one after which the
    /// correspondent is due. Returns how many it took, and whether one of them faults the owner.
    pub fn take<O: Out, Q: Correspondent>(
        &mut self,
        catalogue: &Catalogue,
        correspondent: &mut Q,
        octets: &[u8],
        before: u64,
        out: &mut O,
    ) -> Result<(usize, bool), OutFault>
        requires ready { AreReady catalogue.now (before + 1) self.old }
        requires known { AreKnown catalogue.now (Q.answer (Q.state correspondent.old)) }
        requires limit { before + length octets.now ≤ 2 ^ 48 }
        ensures known { AreKnown catalogue.now (Q.answer (Q.state correspondent.new)) }
        ensures does { (a : Answers) (c : Tracked) (owner_of_next : Option MessageKey) →
            SlotsRepresent catalogue.now a self.old c owner_of_next → NumbersRise c.still_open →
            AgreesAtEnds Q.answer Q.notified catalogue.now (Q.state correspondent.old) a
            (owner_header_ends c owner_of_next octets.now) →
            TakesFront (λ r. r.0) (StaysUndue Q.due Q.notified catalogue.now
            (Q.state correspondent.old) (owner_header_ends c owner_of_next))
            (λ xs. DoesEffect catalogue.now a (λ r. count_one_if r.1) result
            (O.log out.old) (O.log out.new) self.new
            (run_effect catalogue.now a before c owner_of_next xs) owner_of_next)
            result octets.now }
        ensures told { IfOk result (λ r. (a : Answers) (c : Tracked)
            (owner_of_next : Option MessageKey) →
            SlotsRepresent catalogue.now a self.old c owner_of_next →
            AgreesAtEnds Q.answer Q.notified catalogue.now (Q.state correspondent.old) a
            (owner_header_ends c owner_of_next octets.now) →
            Q.state correspondent.new ≡ after_ends Q.notified catalogue.now
            (Q.state correspondent.old)
            (owner_header_ends c owner_of_next (take r.0 octets.now))) }
        ensures due { IfOk result (λ r. r.0 < length octets.now →
            Q.due (Q.state correspondent.new) ≡ true) }
        ensures some { 0 < length octets.now → IfOk result (λ r. 0 < r.0) }
        ensures within { IfOk result (λ r. r.0 ≤ length octets.now) }
        ensures ready { IfOk result (λ r. AreReady catalogue.now (before + r.0 + 1) self.new) }
        ensures most { self.new.slots.most ≡ self.old.slots.most }
    {
        match &mut self.owner {
            PayloadOwner::Current(message, is_over) => {
                if *is_over {
                    return Ok((octets.len(), false));
                }
                take_octets(message, catalogue, correspondent, octets, before, out)
            }
            PayloadOwner::Open(None) => Ok((octets.len(), false)),
            PayloadOwner::Open(Some(k)) => match self.slots.get_mut(*k) {
                Some(slot) => {
                    take_octets(
                        &mut slot.message,
                        catalogue,
                        correspondent,
                        octets,
                        before,
                        out,
                    )
                }
                None => Ok((octets.len(), false)),
            },
        }
    }

    /// Faults the owner of the payload, unless it is over. Returns whether it does.
    #[inline(never)]
    pub fn fault_message<O: Out>(
        &mut self,
        number: u64,
        fault: FramingFault,
        place: u64,
        out: &mut O,
    ) -> Result<bool, OutFault>
        ensures does { (C : Table) (l : Answers) (c : Tracked) (w : MessageKey) →
            SlotsRepresent C l self.old c (Some w) → w.number ≡ number → NumbersRise c.still_open →
            (c.mixed || ends_joining (event place w (Faults fault))) ≡ c.mixed →
            DoesEffect C l count_one_if result (O.log out.old) (O.log out.new) self.new
            (effect_to C l place c (Some w) (Faults fault)) (Some w) }
        ensures room { KeepsRoom self.old self.new }
    {
        match &mut self.owner {
            PayloadOwner::Current(message, is_over) => {
                if *is_over {
                    return Ok(false);
                }
                fault_message(message, number, fault, place, out)
            }
            PayloadOwner::Open(None) => Ok(false),
            PayloadOwner::Open(Some(k)) => match self.slots.get_mut(*k) {
                Some(slot) => fault_message(&mut slot.message, slot.number, fault, place, out),
                None => Ok(false),
            },
        }
    }

    /// Closes the owner of the payload, unless it is over. Returns whether that faults it.
    pub fn close<O: Out>(
        &mut self,
        catalogue: &Catalogue,
        place: u64,
        out: &mut O,
    ) -> Result<bool, OutFault>
        requires ready { AreReady catalogue.now (place + 1) self.old }
        ensures does { (l : Answers) (c : Tracked) (owner_of_next : Option MessageKey) →
            SlotsRepresent catalogue.now l self.old c owner_of_next → NumbersRise c.still_open →
            DoesEffect catalogue.now l count_one_if result (O.log out.old) (O.log out.new) self.new
            (effect_to catalogue.now l place c owner_of_next Closes) None }
        ensures room { KeepsRoom self.old self.new }
    {
        match &mut self.owner {
            PayloadOwner::Current(message, is_over) => {
                if *is_over {
                    return Ok(false);
                }
                *is_over = true;
                close_message(message, catalogue, place, out)
            }
            PayloadOwner::Open(_) => self.close_open_owner(catalogue, place, out),
        }
    }

    /// Closes the owner of the payload if it isn't the current message. This is a function of its own, so that the code
    /// that runs at the end of every message needs no stack for an open one.
    #[inline(never)]
    fn close_open_owner<O: Out>(
        &mut self,
        catalogue: &Catalogue,
        place: u64,
        out: &mut O,
    ) -> Result<bool, OutFault>
        requires ready { AreReady catalogue.now (place + 1) self.old }
        requires open { (message : Option Message) (is_over : Bool) →
            self.old.owner ≡ PayloadOwner.Current message is_over → ⊥ }
        ensures does { (l : Answers) (c : Tracked) (owner_of_next : Option MessageKey) →
            SlotsRepresent catalogue.now l self.old c owner_of_next → NumbersRise c.still_open →
            DoesEffect catalogue.now l count_one_if result (O.log out.old) (O.log out.new) self.new
            (effect_to catalogue.now l place c owner_of_next Closes) None }
        ensures room { KeepsRoom self.old self.new }
    {
        let PayloadOwner::Open(owner) = &mut self.owner else {
            unreachable!();
        };
        match owner.take() {
            Some(k) => match self.slots.get(k) {
                Some(slot) => {
                    let closed = close_message(&slot.message, catalogue, place, out);
                    self.slots.remove(k);
                    closed
                }
                None => Ok(false),
            },
            None => Ok(false),
        }
    }

    /// Whether as many messages are open as may be.
    pub fn is_full(&self) -> bool
        ensures { result ≡ nat_le self.now.slots.most (length self.now.slots.entries) }
    {
        self.slots.is_full()
    }

    /// Makes the current message an open one, under this request id.
    #[inline(always)]
    pub fn open(&mut self, number: u64, header: [u8; 12], id: u32)
        requires { length self.old.slots.entries < self.old.slots.most }
        ensures kept { (C : Table) (l : Answers) (c : Tracked) (w : MessageKey) (place : ℕ) →
            SlotsRepresent C l self.old c (Some w) → IsNotOpen w.number c.still_open →
            w.number ≡ number → w.header ≡ header →
            SlotsRepresent C l self.new (effect_to C l place c (Some w) (Opens (Some id))).tracked
            (Some w) }
        ensures room { KeepsRoom self.old self.new }
    {
        let message = self.owner.take_current();
        self.owner = PayloadOwner::Open(Some(self.slots.len()));
        let slot = Slot {
            number,
            header,
            message,
        };
        self.slots.add(id, slot);
    }

    /// Makes the current message an open one that Fragments of GIOP 1.1 continue.
    #[inline(never)]
    pub fn open_without_id(&mut self, number: u64, header: [u8; 12])
        requires room { length self.old.slots.entries < self.old.slots.most }
        requires only { position_from (λ slot. is_none slot.key) 0 self.old.slots.entries ≡ None }
        ensures kept { (C : Table) (l : Answers) (c : Tracked) (w : MessageKey) (place : ℕ) →
            SlotsRepresent C l self.old c (Some w) → IsNotOpen w.number c.still_open →
            w.number ≡ number → w.header ≡ header →
            SlotsRepresent C l self.new (effect_to C l place c (Some w) (Opens None)).tracked
            (Some w) }
        ensures room { KeepsRoom self.old self.new }
    {
        let message = self.owner.take_current();
        self.owner = PayloadOwner::Open(Some(self.slots.len()));
        let slot = Slot {
            number,
            header,
            message,
        };
        self.slots.add_without_id(slot);
    }

    /// Makes the open message at this index the owner of the payload.
    pub fn set_open_owner(&mut self, index: usize)
        ensures kept { (C : Table) (l : Answers) (c : Tracked) (owner_of_next : Option MessageKey)
            (o : Open) →
            SlotsRepresent C l self.old c owner_of_next → slice_get c.still_open index ≡ Some o →
            SlotsRepresent C l self.new c (Some o.opener) }
        ensures room { KeepsRoom self.old self.new }
    {
        self.owner = PayloadOwner::Open(Some(index));
    }

    /// Notes that the payload belongs to no message from now on.
    pub fn set_no_owner(&mut self)
        ensures kept { (C : Table) (l : Answers) (c : Tracked) (owner_of_next : Option MessageKey) →
            SlotsRepresent C l self.old c owner_of_next → SlotsRepresent C l self.new c None }
        ensures room { KeepsRoom self.old self.new }
    {
        match &mut self.owner {
            PayloadOwner::Current(_, is_over) => *is_over = true,
            PayloadOwner::Open(owner) => *owner = None,
        }
    }

    /// Begins a message. It is the current one, and isn't open.
    pub fn begin(&mut self, catalogue: &Catalogue, number: u64, header: [u8; 12])
        ensures kept { (l : Answers) (c : Tracked) (owner_of_next : Option MessageKey)
            (w : MessageKey) →
            SlotsRepresent catalogue.now l self.old c owner_of_next → w.number ≡ number →
            w.header ≡ header →
            c.known w.number ≡ Some nothing_kept → IsNotOpen w.number c.still_open →
            SlotsRepresent catalogue.now l self.new c (Some w) }
        ensures ready { (n : ℕ) → AreReady catalogue.now n self.old → 12 < n →
            AreReady catalogue.now n self.new }
        ensures most { self.new.slots.most ≡ self.old.slots.most }
    {
        match &mut self.owner {
            PayloadOwner::Current(room, is_over) => {
                *is_over = false;
                match room {
                    Some(message) => message.restart(catalogue, number, header),
                    None => *room = Some(Message::start(catalogue, number, header)),
                }
            }
            PayloadOwner::Open(_) => {
                let message = Message::start(catalogue, number, header);
                self.owner = PayloadOwner::Current(Some(message), false);
            }
        }
    }

    /// The request id of the current message, after the message's own octets have completed it.
    pub fn request_id(&self) -> u32
        ensures { (C : Table) (l : Answers) (w : MessageKey) (kept : Kept) (i : ℕ) →
            RepresentsMessage C l (current_of self.now.owner) w (Some kept) →
            first_request_id (message_lines (read_message (signatures_of C (l w.number) kept.phase)
            w.header kept.octets))
            ≡ Some i → result ≡ i }
    {
        match self.current() {
            Some(message) => message.request_id().unwrap_or(0),
            None => 0,
        }
    }

    /// The index of the open message with this request id.
    #[inline(always)]
    pub fn find(&self, id: u32) -> Option<usize>
        ensures value { result ≡ index_under self.now (Some id) }
        ensures within { IfSome result (λ k. k < length self.now.slots.entries) }
    {
        self.slots.find(id)
    }

    /// The index of the message that Fragments of GIOP 1.1 continue.
    pub fn find_1_1(&self) -> Option<usize>
        ensures value { result ≡ index_under self.now None }
        ensures within { IfSome result (λ k. k < length self.now.slots.entries) }
    {
        if self.is_mixed {
            return None;
        }
        self.slots.without_id()
    }

    /// The index of the open message with this request id; or of the one without an id, if Fragments of GIOP 1.1 have none.
    pub fn find_under(&self, id: Option<u32>) -> Option<usize>
        ensures value { result ≡ index_under self.now id }
        ensures within { IfSome result (λ k. k < length self.now.slots.entries) }
    {
        match id {
            Some(id) => self.find(id),
            None => self.find_1_1(),
        }
    }

    /// Whether the open message at this index isn't over, and its own octets have given this request id.
    pub fn has_given_id(&self, index: usize, id: u32) -> bool
        requires { index < length self.now.slots.entries }
        ensures { (C : Table) (l : Answers) (c : Tracked) (owner_of_next : Option MessageKey)
            (o : Open) →
            SlotsRepresent C l self.now c owner_of_next → slice_get c.still_open index ≡ Some o →
            result ≡ is_same_id (Some id)
            (given_id (asks_by C l) o.opener (c.known o.opener.number)) }
    {
        match &self.open_at(index).message {
            Some(message) => has_id(message, id),
            None => false,
        }
    }

    /// Notes that the payload of a Fragment of GIOP 1.1 begins at the next octet of its owner.
    #[inline(never)]
    pub fn note_seam(&mut self)
        ensures kept { (C : Table) (l : Answers) (c : Tracked) (k : ℕ) (o : Open) (place : ℕ) →
            SlotsRepresent C l self.old c (Some o.opener) → slice_get c.still_open k ≡ Some o →
            NumbersRise c.still_open →
            SlotsRepresent C l self.new (effect_to C l place c (Some o.opener) Seams).tracked
            (Some o.opener) }
        ensures room { KeepsRoom self.old self.new }
    {
        match &mut self.owner {
            PayloadOwner::Current(_, _) => {}
            PayloadOwner::Open(None) => {}
            PayloadOwner::Open(Some(k)) => match self.slots.get_mut(*k) {
                Some(slot) => seam_message(&mut slot.message),
                None => {}
            },
        }
    }

    /// Notes that nobody can tell to which message a Fragment of GIOP 1.1 belongs, from now on.
    pub fn stop_joining_1_1(&mut self)
        ensures kept { (C : Table) (l : Answers) (c : Tracked) (owner_of_next : Option MessageKey) →
            SlotsRepresent C l self.old c owner_of_next →
            SlotsRepresent C l self.new (record c { mixed = true }) owner_of_next }
        ensures room { KeepsRoom self.old self.new }
    {
        self.is_mixed = true;
    }

    /// Closes the open message at this index. The message with the number `by` cancels it.
    pub fn cancel<O: Out>(
        &mut self,
        index: usize,
        by: u64,
        place: u64,
        out: &mut O,
    ) -> Result<(), OutFault>
        ensures does { (C : Table) (l : Answers) (c : Tracked) (w : MessageKey) (o : Open) →
            SlotsRepresent C l self.old c (Some w) → IsNotOpen w.number c.still_open →
            slice_get c.still_open index ≡ Some o → NumbersRise c.still_open →
            DoesEffect C l count_none result (O.log out.old) (O.log out.new) self.new
            (effect_to C l place c (Some o.opener) (Cancelled by)) (Some w) }
        ensures room { KeepsRoom self.old self.new }
    {
        match self.slots.take(index) {
            Some(entry) => {
                if entry.value.message.is_none() {
                    return Ok(());
                }
                cancelled_line(out, entry.value.number, by)
            }
            None => Ok(()),
        }
    }
}
