//! One joined message: what it has begun and not ended, and the calls that take its octets and
//! close it.

ghost use Rattle.std.specs.Prelude.{◌≡◌, ◌↔◌, IsTrue, ℕ, ◌+◌, ◌%◌, ◌^◌, ◌<◌, ◌≤◌, true, false, List, [], length, take, IfOk, None};
ghost use Rattle.giop_print.specs.Output.{Writes};

use crate::begin::{idle_decoder, request_id_after_section};
use crate::body_type::body_may_be_missing;
use crate::correspondent::Correspondent;
use crate::header::minor_of;
use crate::part::{Part, Rest};
use giop_decode::Decoder;
use giop_print::{Out, OutFault, end_line, fault_line};
use giop_sig::Catalogue;

/// One joined message that isn't faulted.
#[derive(Drop)]
pub struct Message {
    pub(crate) number: u64,
    pub(crate) header: [u8; 12],
    // The request id, after the header that has it has ended.
    pub(crate) id: Option<u32>,
    // What the offset of the next octet lacks of what padding is counted by, modulo 8.
    pub(crate) lacks: u8,
    // The offset of the next octet.
    pub(crate) at: u64,
    pub(crate) part: Part,
    // The decoder of the section in which the message is. If it is in another part, this may be any
    // decoder.
    pub(crate) decoder: Decoder,
    ghost begun: { 12 ≤ at },
    ghost few: { lacks < 8 },
}

impl Message {
    ghost use Rattle.giop_message.specs.Signatures.{Answers, signatures_of};
    ghost use Rattle.giop_sig.specs.Table.{Table};
    ghost use Rattle.giop_message.specs.Phases.{Phase, IsShiftedFrom, seamed};
    ghost use Rattle.giop_message.specs.Messages.{read_message, message_lines, stage_of, lines_of_close};
    ghost use Rattle.giop_message.specs.MessageSteps.{last_rest_text, TookSome};
    ghost use Rattle.giop_message.specs.ReaderOfTable.{first_request_id};
    ghost use Rattle.giop_message.specs.HeaderEnds.{AgreesAtEnds, header_ends, after_ends};
    ghost use Rattle.giop_message.specs.DueOctets.{TakesFront, StaysUndue};
    ghost use Rattle.giop_message.specs.MessageState.{AreKnown, Fits, Follows, more_lines_text, octets_taken, closing_text, is_short_close};

    /// A message with this number, whose header has come.
    pub fn start(catalogue: &Catalogue, number: u64, header: [u8; 12]) -> Message
        ensures follows { (answers : Answers) (phase : Phase) → IsShiftedFrom phase 0 12 →
            Follows catalogue.now answers phase number header result [] }
        ensures fits { Fits catalogue.now result }
        ensures reach { octets_taken result ≡ 12 }
    {
        let mut message = Message {
            number,
            header,
            id: None,
            at: 12,
            lacks: 0,
            part: Part::Rest(Rest::new()),
            decoder: idle_decoder(catalogue),
        };
        message.restart(catalogue, number, header);
        message
    }

    /// Takes octets, after `place` octets of the stream, up to the first one after which the
    /// correspondent is due. Returns how many it took, and whether the last of them is faulted. If
    /// it is, the fault is written, and the message takes no more octets.
    pub fn take<O: Out, Q: Correspondent>(
        &mut self,
        catalogue: &Catalogue,
        correspondent: &mut Q,
        octets: &[u8],
        place: u64,
        out: &mut O,
    ) -> Result<(usize, bool), OutFault>
        requires fits { Fits catalogue.now self.old }
        requires known { AreKnown catalogue.now (Q.answer (Q.state correspondent.old)) }
        requires before { octets_taken self.old ≤ place }
        requires limit { place + length octets.now ≤ 2 ^ 48 }
        ensures known { AreKnown catalogue.now (Q.answer (Q.state correspondent.new)) }
        // Let `answers` give the operations that the ids of each message answer, and let it agree
        // with the correspondent if the header ends in these octets. The lines of the octets that
        // the call takes are written, or a front of these lines;
        ensures writes { (answers : Answers) (phase : Phase) (number : ℕ) (header s : List ℕ) →
            Follows catalogue.now answers phase number header self.old s →
            AgreesAtEnds Q.answer Q.notified catalogue.now (Q.state correspondent.old) answers
            (header_ends phase number header s octets.now) →
            TakesFront (λ went. went.0) (StaysUndue Q.due Q.notified catalogue.now
            (Q.state correspondent.old) (header_ends phase number header s))
            (λ xs. Writes result (O.log out.old) (O.log out.new) (more_lines_text
            (signatures_of catalogue.now (answers number) phase) number place header s xs))
            result octets.now }
        // the message follows its old octets and these;
        ensures took { IfOk result (λ went. (answers : Answers) (phase : Phase)
            (number : ℕ) (header s : List ℕ) →
            Follows catalogue.now answers phase number header self.old s →
            AgreesAtEnds Q.answer Q.notified catalogue.now (Q.state correspondent.old) answers
            (header_ends phase number header s octets.now) →
            TookSome catalogue.now answers phase number header self.new s octets.now went.0
            went.1) }
        // and the correspondent was told of the header, and of the exception that a Reply raises.
        ensures told { IfOk result (λ went. (answers : Answers) (phase : Phase)
            (number : ℕ) (header s : List ℕ) →
            Follows catalogue.now answers phase number header self.old s →
            AgreesAtEnds Q.answer Q.notified catalogue.now (Q.state correspondent.old) answers
            (header_ends phase number header s octets.now) →
            Q.state correspondent.new ≡ after_ends Q.notified catalogue.now
            (Q.state correspondent.old) (header_ends phase number header s
            (take went.0 octets.now))) }
        // If octets are left, the correspondent is due. After a fault it isn't due, unless it was
        // due before the call.
        ensures due { IfOk result (λ went. went.1 ≡ false → went.0 < length octets.now →
            Q.due (Q.state correspondent.new) ≡ true) }
        ensures over { IfOk result (λ went. Q.due (Q.state correspondent.old) ≡ false →
            went.1 ≡ true → Q.due (Q.state correspondent.new) ≡ false) }
        ensures some { 0 < length octets.now → IfOk result (λ went. 0 < went.0) }
        ensures within { IfOk result (λ went. went.0 ≤ length octets.now) }
        ensures fits { IfOk result (λ went. went.1 ≡ false → Fits catalogue.now self.new) }
        ensures reach { IfOk result (λ went. octets_taken self.new
            ≡ octets_taken self.old + went.0) }
    {
        let mut taken: usize = 0;
        while taken < octets.len() {
            let before = place + taken as u64;
            let (count, is_over) = self.take_some(
                catalogue,
                correspondent,
                &octets[taken..],
                before,
                out,
            )?;
            taken += count;
            if is_over {
                return Ok((taken, true));
            }
            if correspondent.is_due() {
                break;
            }
        }
        Ok((taken, false))
    }

    /// The payload of a Fragment of 1.1 begins at the next octet: from there on padding, except that
    /// in encapsulations, is counted from the Fragment's own first octet (GIOP Message Formats,
    /// Fragment Message).
    pub fn seam(&mut self)
        ensures follows { (C : Table) (answers : Answers) (phase : Phase) (number : ℕ)
            (header s : List ℕ) → Follows C answers phase number header self.old s →
            Follows C answers (seamed phase (12 + length s)) number header self.new s }
        ensures fits { (C : Table) → Fits C self.old → Fits C self.new }
        ensures reach { octets_taken self.new ≡ octets_taken self.old }
    {
        self.lacks = ((12 - self.at % 8) % 8) as u8;
        self.decoder.seam();
    }

    /// Whether padding after the octets that the message has taken is counted by the offset, as in a
    /// message in one piece.
    pub fn is_unbroken(&self) -> bool
        ensures { (C : Table) (answers : Answers) (phase : Phase) (number : ℕ)
            (header s : List ℕ) → Follows C answers phase number header self.now s →
            IsTrue result ↔ (phase (12 + length s) % 8 ≡ (12 + length s) % 8) }
    {
        self.lacks == 0
    }

    /// Closes the message at a place of the stream: writes what is left of its rest, and its end;
    /// or that the message is short. Returns whether it was short.
    pub fn close<O: Out>(
        &self,
        catalogue: &Catalogue,
        place: u64,
        out: &mut O,
    ) -> Result<bool, OutFault>
        requires fits { Fits catalogue.now self.now }
        ensures writes { (answers : Answers) (phase : Phase) (number : ℕ) (header s : List ℕ) →
            Follows catalogue.now answers phase number header self.now s →
            Writes result (O.log out.old) (O.log out.new) (closing_text number place (lines_of_close
            (stage_of (read_message (signatures_of catalogue.now
            (answers number) phase) header s)))) }
        ensures short { IfOk result (λ short. (answers : Answers) (phase : Phase)
            (number : ℕ) (header s : List ℕ) →
            Follows catalogue.now answers phase number header self.now s →
            short ≡ is_short_close (lines_of_close (stage_of (read_message
            (signatures_of catalogue.now (answers number) phase) header s)))) }
    {
        if self.is_short(catalogue) {
            fault_line(out, self.number, "short", place)?;
            return Ok(true);
        }
        self.write_last_rest(out)?;
        end_line(out, self.number)?;
        Ok(false)
    }

    /// Whether a close would come inside the header, a repository id or the body, or would leave
    /// out a body that is needed.
    fn is_short(&self, catalogue: &Catalogue) -> bool
        requires { Fits catalogue.now self.now }
        ensures { (answers : Answers) (phase : Phase) (number : ℕ) (header s : List ℕ) →
            Follows catalogue.now answers phase number header self.now s →
            result ≡ is_short_close (lines_of_close (stage_of (read_message
            (signatures_of catalogue.now (answers number) phase) header s))) }
    {
        match &self.part {
            Part::Typed(_) => true,
            Part::Padding(body_type_id) => {
                !body_may_be_missing(&catalogue.in_version(minor_of(&self.header)), *body_type_id)
            }
            Part::Rest(_) => false,
        }
    }

    /// Writes the last part of the rest, if it has octets.
    fn write_last_rest<O: Out>(&self, out: &mut O) -> Result<(), OutFault>
        ensures { Writes result (O.log out.old) (O.log out.new)
            (last_rest_text self.now.number self.now.part) }
    {
        match &self.part {
            Part::Typed(_) => Ok(()),
            Part::Padding(_) => Ok(()),
            Part::Rest(rest) => rest.write_held(self.number, out),
        }
    }

    /// The message's number.
    pub fn number(&self) -> u64
        ensures { result ≡ self.now.number }
    {
        self.number
    }

    /// The octets of the header.
    pub fn header(&self) -> [u8; 12]
        ensures { result ≡ self.now.header }
    {
        self.header
    }

    /// The request id of the header, if it has come.
    pub fn request_id(&self) -> Option<u32>
        ensures { (C : Table) (answers : Answers) (phase : Phase) (number : ℕ) (header s : List ℕ) →
            Follows C answers phase number header self.now s
            → result ≡ first_request_id (message_lines
            (read_message (signatures_of C (answers number) phase) header s)) }
    {
        match &self.part {
            Part::Typed(section) => request_id_after_section(*section, &self.decoder, self.id),
            Part::Padding(_) => self.id,
            Part::Rest(_) => self.id,
        }
    }
}
