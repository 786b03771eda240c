//! The engine: it reads one direction of a connection, and writes its lines.

ghost use Rattle.std.specs.Prelude.{◌≡◌, ◌<◌, ◌≤◌, ◌++◌, ◌+◌, Err, ℕ, List, [], true, false, length, take, drop, IfOk, IfErr, OnOk, OnErr};
ghost use Rattle.std.specs.List.{concat};
ghost use Rattle.giop_print.specs.Output.{saturating_next};
ghost use Rattle.giop_sig.specs.HeaderTypes.{IsTable};
ghost use Rattle.giop_sig.specs.Table.{Table};
ghost use Rattle.giop_sig.specs.Trees.{catalogue_depth};
ghost use Rattle.giop_checkpoint.specs.Refusals.{PassesUpToCounts};
ghost use Rattle.giop_message.specs.Signatures.{RequestTable, Answers};
ghost use Rattle.giop_message.specs.HeaderEnds.{after_ends};
ghost use Rattle.giop_stream.specs.HeaderEndsOfStream.{header_ends_from};
ghost use Rattle.giop_message.specs.MessageState.{AreKnown};
ghost use Rattle.giop_stream.specs.Rules.{rules, most_open};
ghost use Rattle.giop_stream.specs.Framing.{cut, fault_of, lacking, messages};
ghost use Rattle.giop_stream.specs.AnswersAgree.{AgreesOver};
ghost use Rattle.giop_message.specs.DueOctets.{TakesFront};
ghost use Rattle.giop_stream.specs.DueOctets.{is_due_after, begun_in};
ghost use Rattle.giop_stream.specs.Stream.{text, closing, final};
ghost use Rattle.giop_stream.specs.EngineHolds.{IsRequestTableOf, Holds, HoldsBy, StopWrites, Leaves, added, rules_of, rules_with, status_of};
ghost use Rattle.giop_stream.specs.Pieces.{fed, remaining, whole_text};
ghost use Rattle.giop_stream.specs.Checkpoint.{counts_of, checkpoint_limit, Allows, IsRefused, OrNoMemory, Saves, Spells};

use crate::fault::{LoadFault, NewError, Stop};
use crate::framing::{Framing, joins_1_1};
use crate::status::{Fed, Status, Totals};
use crate::{loading, saving};
use giop_message::Correspondent;
use giop_print::Out;
use giop_sig::{Catalogue, Requests};
use std::alloc::Global;
use std::marker::Model;

/// Reads one direction of a connection in pieces of any size, and writes its lines. Each line is written at the octet that
/// completes it. The engine reads by the types of a catalogue, and by what is known of the requests that its replies
/// answer. After it is made or loaded it allocates nothing.
#[derive(Drop)]
pub struct Engine<'a> {
    catalogue: &'a Catalogue,
    requests: &'a Requests,
    framing: Framing,
    failed: bool,
}

impl<'a> Model for Engine<'a> {
    ghost use Rattle.giop_stream.specs.EngineView.{EngineView};

    ghost Value = { EngineView };

    ghost use Rattle.giop_stream.specs.FramingView.{framing_view};

    ghost view = { λ e. record {
      failed = e.failed;
      table = e.catalogue.now;
      request_table = e.requests.now;
      most = e.framing.slots.slots.most;
      stream = framing_view e.framing;
    } };

    ghost use Rattle.std.specs.Prelude.{◌+◌};
    ghost use Rattle.giop_stream.specs.SlotsRepresent.{AreReady};
    ghost use Rattle.giop_stream.specs.EngineHolds.{IsRequestTableOf};

    ghost invariant = { λ e. IsRequestTableOf e.catalogue.now e.requests.now
        × AreReady e.catalogue.now (e.framing.totals.octets + 1) e.framing.slots };
}

impl<'a> Engine<'a> {
    /// Makes an engine that has read nothing, with these types and the operations of these requests. Room for this number
    /// of open messages is made here. It is refused only if there isn't enough memory.
    pub fn new(
        alloc: Global,
        catalogue: &'a Catalogue,
        requests: &'a Requests,
        most: u32,
    ) -> Result<Engine<'a>, NewError>
        requires of { IsRequestTableOf catalogue.now requests.now }
        requires range { (1 ≤ most) × (most ≤ most_open) }
        ensures holds { IfOk result (λ e. Holds e []) }
        ensures table { IfOk result (λ e. e.table ≡ catalogue.now) }
        ensures request_table { IfOk result (λ e. e.request_table ≡ requests.now) }
        ensures most { IfOk result (λ e. e.most ≡ most) }
    {
        let Ok(framing) = Framing::new(alloc, most as usize, joins_1_1(catalogue)) else {
            return Err(NewError::OutOfMemory);
        };
        Ok(Engine {
            catalogue,
            requests,
            framing,
            failed: false,
        })
    }

    /// Loads the engine from its checkpoint, with the same types and the same list. It reads on from there. From other
    /// octets that pass the checks comes an engine that is safe to use (docs/FORMATS.md, Checkpoints). Room for as many
    /// open messages as it allows is made here, after its length was checked.
    pub fn load(
        alloc: Global,
        catalogue: &'a Catalogue,
        requests: &'a Requests,
        octets: &[u8],
    ) -> Result<Engine<'a>, LoadFault>
        requires of { IsRequestTableOf catalogue.now requests.now }
        // It holds the stream that the octets are the checkpoint of, with the same number of open messages allowed.
        ensures again { (n : ℕ) (p : List ℕ) → Spells octets.now catalogue.now requests.now n p →
            OrNoMemory result (λ e. (e.most ≡ n) × Holds e p) }
        // That number is the one that the octets give.
        ensures most { IfOk result (λ e.
            Allows (counts_of catalogue.now requests.now) octets.now e.most) }
        // The octets are refused by the first check that fails, or because there isn't enough memory.
        ensures refused { IfErr result (λ why.
            IsRefused (counts_of catalogue.now requests.now) octets.now why) }
        ensures ours { IfOk result (λ e. PassesUpToCounts
            (counts_of catalogue.now requests.now) octets.now) }
        ensures sound { IfOk result (λ e. e.failed ≡ false) }
        ensures table { IfOk result (λ e. e.table ≡ catalogue.now) }
        ensures request_table { IfOk result (λ e. e.request_table ≡ requests.now) }
    {
        match loading::read_checkpoint(alloc, catalogue, requests, octets) {
            Ok(framing) => Ok(Engine {
                catalogue,
                requests,
                framing,
                failed: false,
            }),
            Err(why) => Err(why),
        }
    }

    /// Reads a piece of the stream up to the first octet after which the correspondent is due, and writes the lines that it
    /// completes. The results of a reply have the type of the operation that the correspondent answers. After a stream
    /// fault nothing is read.
    pub fn feed_by<O: Out, Q: Correspondent>(
        &mut self,
        correspondent: &mut Q,
        piece: &[u8],
        out: &mut O,
    ) -> Result<Fed, Stop>
        // Each operation that the correspondent answers is in the table of the types.
        requires known { AreKnown self.old.table (Q.answer (Q.state correspondent.old)) }
        ensures known { AreKnown self.old.table (Q.answer (Q.state correspondent.new)) }
        // Let `a` give the operations that the ids of each message answer. Let it agree with the correspondent at each
        // header that ends in the piece, in the state in which the correspondent is after it was told of the headers
        // before. Then the engine holds the stream that it held, with the octets that it took added.
        ensures held { (a : Answers) (p : List ℕ) → HoldsBy self.old a p →
            AgreesOver Q.answer Q.notified (Q.state correspondent.old) self.old a p piece.now →
            IfOk result (λ fed. HoldsBy self.new a (p ++ take fed.count piece.now)) }
        // What these octets add to the text is written, or, after a failed put, a front of that. If the correspondent
        // wasn't due, it is due at most after the last of them.
        ensures text { (a : Answers) (p : List ℕ) → HoldsBy self.old a p →
            AgreesOver Q.answer Q.notified (Q.state correspondent.old) self.old a p piece.now →
            TakesFront (λ fed. fed.count) (λ octets. Q.due (Q.state correspondent.old) ≡ false →
            is_due_after Q.due Q.notified Q.awaits_messages self.old.table
            (Q.state correspondent.old) (rules_with self.old a) p octets ≡ false)
            (λ octets. StopWrites result (O.log out.old) (O.log out.new)
            (added (rules_with self.old a) p octets)) result piece.now }
        // It is due after the last of them, if octets of the piece are left.
        ensures last { (a : Answers) (p : List ℕ) → HoldsBy self.old a p →
            AgreesOver Q.answer Q.notified (Q.state correspondent.old) self.old a p piece.now →
            IfOk result (λ fed. fed.count < length piece.now →
            is_due_after Q.due Q.notified Q.awaits_messages self.old.table
            (Q.state correspondent.old) (rules_with self.old a) p
            (take fed.count piece.now) ≡ true) }
        // The correspondent was told of the headers that end in these octets, in their order.
        ensures told { (a : Answers) (p : List ℕ) → HoldsBy self.old a p →
            AgreesOver Q.answer Q.notified (Q.state correspondent.old) self.old a p piece.now →
            IfOk result (λ fed. Q.state correspondent.new ≡ after_ends Q.notified self.old.table
            (Q.state correspondent.old)
            (header_ends_from (rules_with self.old a) p (take fed.count piece.now))) }
        // At least one octet was taken, if the piece has one.
        ensures some { 0 < length piece.now → IfOk result (λ fed. 0 < fed.count) }
        ensures within { IfOk result (λ fed. fed.count ≤ length piece.now) }
        // The result gives the last message that begins in the octets, and whether the stream has a fault.
        ensures begun { (a : Answers) (p : List ℕ) → HoldsBy self.old a p →
            AgreesOver Q.answer Q.notified (Q.state correspondent.old) self.old a p piece.now →
            IfOk result (λ fed. fed.begun ≡ begun_in p (take fed.count piece.now)) }
        ensures status { (a : Answers) (p : List ℕ) → HoldsBy self.old a p →
            AgreesOver Q.answer Q.notified (Q.state correspondent.old) self.old a p piece.now →
            IfOk result (λ fed. fed.status
            ≡ status_of (fault_of (cut (p ++ take fed.count piece.now)).stop)) }
        // After a failed put the engine has failed, and has the totals from before the call.
        ensures leaves { Leaves result self.old self.new }
        // An engine that has failed writes nothing.
        ensures failed { self.old.failed ≡ true → O.log out.new ≡ O.log out.old }
        // If the engine holds a stream by any answers, the call fails only if a put fails. If it doesn't fail, no put has
        // failed.
        ensures cause { (a : Answers) (p : List ℕ) → HoldsBy self.old a p →
            OnErr result ((O.log out.new).failures ≡ saturating_next (O.log out.old).failures)
            × OnOk result ((O.log out.new).failures ≡ (O.log out.old).failures) }
        // The types, the requests and the limit of open messages stay the same.
        ensures same { (self.new.table ≡ self.old.table)
            × (self.new.request_table ≡ self.old.request_table) }
        ensures most { self.new.most ≡ self.old.most }
    {
        if self.failed {
            return Err(Stop::Failed);
        }
        let (totals, stopped) = (self.framing.totals, self.framing.stopped);
        match self
            .framing
            .take_piece(self.catalogue, correspondent, piece, out)
        {
            Ok(count) => Ok(Fed {
                count,
                begun: self.framing.begun_since(totals.messages),
                status: self.framing.status(),
            }),
            Err(fault) => {
                self.failed = true;
                self.framing
                    .clear(totals, stopped, joins_1_1(self.catalogue));
                Err(Stop::Out(fault))
            }
        }
    }

    /// Reads a piece of the stream, and writes the lines that it completes. After a stream fault nothing is read.
    #[tactic(auto, unfolding(crate::specs::EngineHolds::added))]
    pub fn feed<O: Out>(&mut self, piece: &[u8], out: &mut O) -> Result<Status, Stop>
        // Then the engine holds the stream that it held, with the piece added.
        ensures held { (p : List ℕ) → Holds self.old p →
            OnOk result (Holds self.new (p ++ piece.now)) }
        // What the piece adds to the text is written.
        ensures text { (p : List ℕ) → Holds self.old p
            → StopWrites result (O.log out.old) (O.log out.new)
            (drop (length (text (rules_of self.old) p))
            (text (rules_of self.old) (p ++ piece.now))) }
        // The status tells whether the stream has a fault.
        ensures status { (p : List ℕ) → Holds self.old p
            → IfOk result (λ s. s ≡ status_of (fault_of (cut (p ++ piece.now)).stop)) }
        // After a failed put the engine has failed, and has the totals from before the call.
        ensures leaves { Leaves result self.old self.new }
        // An engine that has failed writes nothing.
        ensures failed { self.old.failed ≡ true → O.log out.new ≡ O.log out.old }
        // The types, the requests and the limit of open messages stay the same.
        ensures same { (self.new.table ≡ self.old.table)
            × (self.new.request_table ≡ self.old.request_table) }
        ensures most { self.new.most ≡ self.old.most }
    {
        let mut requests = self.requests;
        match self.feed_by(&mut requests, piece, out) {
            Ok(fed) => Ok(fed.status),
            Err(stop) => Err(stop),
        }
    }

    /// Forgets the stream, and that a put failed. Then the engine holds the empty stream by any answers, as when it was
    /// made. The room for open messages stays, so nothing is allocated.
    pub fn restart(&mut self)
        ensures holds { (a : Answers) → HoldsBy self.new a [] }
        // The types, the requests and the limit of open messages stay the same.
        ensures same { (self.new.table ≡ self.old.table)
            × (self.new.request_table ≡ self.old.request_table) }
        ensures most { self.new.most ≡ self.old.most }
    {
        self.framing.restart(joins_1_1(self.catalogue));
        self.failed = false;
    }

    /// Writes the closing of the stream, and returns its totals. A truncated end counts as a fault in them. The engine
    /// stays as it is; `restart` makes it ready for another stream.
    pub fn close<O: Out>(&self, out: &mut O) -> Result<Totals, Stop>
        // The closing of the stream that the engine holds is written. By which answers it holds the stream makes no
        // difference.
        ensures text { (a : Answers) (p : List ℕ) → HoldsBy self.now a p
            → StopWrites result (O.log out.old) (O.log out.new)
            (closing (rules_with self.now a) p) }
        ensures totals { (a : Answers) (p : List ℕ) → HoldsBy self.now a p →
            IfOk result (λ t. t ≡ final (rules_with self.now a) p) }
        // An engine that has failed writes nothing and returns `Failed`. No other engine returns it.
        ensures failed { self.now.failed ≡ true →
            (result ≡ Err Stop.Failed) × (O.log out.new ≡ O.log out.old) }
        ensures sound { result ≡ Err Stop.Failed → self.now.failed ≡ true }
    {
        if self.failed {
            return Err(Stop::Failed);
        }
        match self.framing.finish(out) {
            Ok(()) => Ok(self.framing.final_totals()),
            Err(fault) => Err(Stop::Out(fault)),
        }
    }

    /// Ends the stream: writes its closing, and returns its totals. A truncated end counts as a fault in them.
    pub fn finish<O: Out>(self, out: &mut O) -> Result<Totals, Stop>
        // The closing of the stream that it holds is written.
        ensures text { (p : List ℕ) → Holds self.entry p
            → StopWrites result (O.log out.old) (O.log out.new) (closing (rules_of self.entry) p) }
        ensures totals { (p : List ℕ) → Holds self.entry p →
            IfOk result (λ t. t ≡ final (rules_of self.entry) p) }
        // The same, if the engine holds the stream by any answers.
        ensures text_by { (a : Answers) (p : List ℕ) → HoldsBy self.entry a p
            → StopWrites result (O.log out.old) (O.log out.new)
            (closing (rules_with self.entry a) p) }
        ensures totals_by { (a : Answers) (p : List ℕ) → HoldsBy self.entry a p →
            IfOk result (λ t. t ≡ final (rules_with self.entry a) p) }
        // An engine that has failed writes nothing and returns `Failed`. No other engine returns it.
        ensures failed { self.entry.failed ≡ true →
            (result ≡ Err Stop.Failed) × (O.log out.new ≡ O.log out.old) }
        ensures sound { result ≡ Err Stop.Failed → self.entry.failed ≡ true }
    {
        self.close(out)
    }

    /// Writes the checkpoint of what was read, and returns how many octets it has (docs/FORMATS.md, Checkpoints). If a put
    /// fails, the engine stays as it was.
    pub fn save<O: Out>(&self, out: &mut O) -> Result<u64, Stop>
        // What is written is a checkpoint of each stream that the engine holds. If a put fails, a front of it was written.
        ensures saves { (p : List ℕ) → Holds self.now p →
            Saves result (O.log out.old) (O.log out.new)
            self.now.table self.now.request_table self.now.most p }
        // If the engine has failed, nothing is written and `Failed` is returned. No other engine returns it.
        ensures failed { self.now.failed ≡ true →
            (result ≡ Err Stop.Failed) × (O.log out.new ≡ O.log out.old) }
        ensures sound { result ≡ Err Stop.Failed → self.now.failed ≡ true }
        // If the engine hasn't failed, the call fails only if a put fails.
        ensures cause { self.now.failed ≡ false →
            OnErr result ((O.log out.new).failures ≡ saturating_next (O.log out.old).failures) }
    {
        if self.failed {
            return Err(Stop::Failed);
        }
        self.catalogue.laws();
        match saving::write_checkpoint(&self.framing, self.catalogue, self.requests, out) {
            Ok(count) => Ok(count),
            Err(fault) => Err(Stop::Out(fault)),
        }
    }

    /// The totals of what was read. After a failed put they are those from before that call.
    pub fn totals(&self) -> Totals
        ensures value { result ≡ self.now.stream.totals }
        // The messages are those with a complete header of 12 octets.
        ensures messages { (a : Answers) (p : List ℕ) → HoldsBy self.now a p →
            result.messages ≡ length (messages (cut p)) }
    {
        self.framing.totals
    }

    /// How many octets are missing until the end of the message that the stream is in, if the message's header is complete.
    /// It is 0 between two messages.
    pub fn lacking(&self) -> Option<u32>
        ensures { (a : Answers) (p : List ℕ) → HoldsBy self.now a p → result ≡ lacking (cut p) }
    {
        self.framing.lacking()
    }

    /// Whether a put has failed.
    pub fn is_failed(&self) -> bool
        ensures { result ≡ self.now.failed }
    {
        self.failed
    }
}

/// The text of a stream is a front of the text of each longer stream. So it makes no difference how a stream is cut into
/// pieces.
pub fn text_begins()
    ensures { (C : Table) (l : RequestTable) (n : ℕ) (p q : List ℕ) → (more : List ℕ)
        × (text (rules C l n) (p ++ q) ≡ text (rules C l n) p ++ more) }
{}

/// However a stream is cut into pieces, the same text is written of it.
pub fn any_pieces()
    // What is written of pieces, one after another, is what all their octets add together.
    ensures whole { (C : Table) (l : RequestTable) (n : ℕ) (p : List ℕ) (pieces : List (List ℕ)) →
        fed (rules C l n) p pieces ≡ added (rules C l n) p (concat pieces) }
    // So two ways to cut the same octets write the same.
    ensures same { (C : Table) (l : RequestTable) (n : ℕ) (p : List ℕ)
        (pieces others : List (List ℕ)) →
        concat pieces ≡ concat others →
        fed (rules C l n) p pieces ≡ fed (rules C l n) p others }
{}

/// If a stream is read on from a checkpoint of its front, it is as if the reading had never stopped; and each checkpoint is
/// small.
pub fn remaining()
    // The text of the front, and then what is written of the octets after it and at their end, are together all that is
    // written of the whole.
    ensures text { (C : Table) (l : RequestTable) (n : ℕ) (octets p q : List ℕ) →
        Spells octets C l n p →
        text (rules C l n) p ++ remaining (rules C l n) p q
        ≡ whole_text (rules C l n) (p ++ q) }
    // However long the front is, its checkpoint by the table of a catalogue has at most this number of octets.
    ensures within { (C : Table) (l : RequestTable) (n : ℕ) (octets p : List ℕ) →
        IsTable C → Spells octets C l n p →
        length octets ≤ checkpoint_limit n (catalogue_depth C) }
{}
