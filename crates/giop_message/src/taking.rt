//! Takes octets of a message, depending on the part to which they belong.

ghost use Rattle.std.specs.Prelude.{◌≡◌, ℕ, ◌+◌, ◌^◌, ◌<◌, ◌≤◌, true, false, List, [], ◌∷◌, ◌++◌, length, IfOk};
ghost use Rattle.giop_print.specs.Output.{Writes};
ghost use Rattle.giop_decode.specs.ReadResult.{Read as MessageReader};
ghost use Rattle.giop_decode.specs.Noted.{noted_of};
ghost use Rattle.giop_decode.specs.DecoderState.{KeepsNoted};
ghost use Rattle.giop_message.specs.MessageSteps.{call_line_of_request};
ghost use Rattle.giop_message.specs.Signatures.{Answer, signatures_of};
ghost use Rattle.giop_message.specs.Phases.{Phase};

use crate::body_type::BodyTypeId;
use crate::correspondent::Correspondent;
use crate::header::kind_of;
use crate::message::Message;
use crate::part::Part;
use crate::word::{fault_word, is_graphic_name};
use giop_cdr::pad;
use giop_decode::{Decoder, Progress};
use giop_print::{Out, OutFault, Root, call_line, fault_line, interface_call_line};
use giop_sig::Catalogue;

/// Writes the call line of a Request whose operation has just ended in its header.
#[tactic(auto, unfolding(crate::specs::MessageSteps::call_line_of_request, crate::specs::MessageSteps::call_line_if_shown, crate::specs::Signatures::signatures_of))]
fn write_call_line<O: Out>(
    catalogue: &Catalogue,
    decoder: &Decoder,
    number: u64,
    header: &[u8],
    out: &mut O,
) -> Result<(), OutFault>
    requires { length header.now ≡ 12 }
    ensures { (answer : Answer) (phase : Phase) (r : MessageReader) →
        KeepsNoted catalogue.now Root.Header decoder.now r →
        Writes result (O.log out.old) (O.log out.new) (call_line_of_request
        (signatures_of catalogue.now answer phase) number header.now (noted_of true r)) }
{
    if kind_of(header) != 0 {
        return Ok(());
    }
    let Some(id) = decoder.request_id() else {
        return Ok(());
    };
    let Some(operation) = decoder.name() else {
        return Ok(());
    };
    if !is_graphic_name(operation) {
        return Ok(());
    }
    match decoder.interface(catalogue) {
        None => call_line(out, number, id, operation),
        Some(interface) => {
            interface_call_line(
                out,
                number,
                id,
                operation,
                catalogue.interface_name(interface),
            )
        }
    }
}

impl Message {
    ghost use Rattle.giop_message.specs.Signatures.{Answers, signatures_of};
    ghost use Rattle.giop_message.specs.MessageState.{AreKnown, IsKnown, Fits, Follows, more_lines, more_lines_text};
    ghost use Rattle.std.specs.Prelude.{take};
    ghost use Rattle.giop_message.specs.HeaderEnds.{AgreesAtEnds, header_ends, after_ends};
    ghost use Rattle.giop_message.specs.MessageSteps.{TookSome};
    ghost use Rattle.giop_message.specs.DueOctets.{TakesFront};

    /// Takes an octet of the padding before a body of this type.
    fn take_padding(&mut self, catalogue: &Catalogue, body_type_id: BodyTypeId)
        requires is { self.old.part ≡ Part.Padding body_type_id }
        requires known { IsKnown catalogue.now body_type_id }
        requires limit { self.old.at ≤ 2 ^ 48 }
        ensures told { (answers : Answers) (phase : Phase)
            (number : ℕ) (header s : List ℕ) (octet : ℕ) →
            Follows catalogue.now answers phase number header self.old s →
            more_lines (signatures_of catalogue.now (answers number) phase) header s (octet ∷ [])
            ≡ [] }
        ensures follows { (answers : Answers) (phase : Phase)
            (number : ℕ) (header s : List ℕ) (octet : ℕ) →
            Follows catalogue.now answers phase number header self.old s →
            Follows catalogue.now answers phase number header self.new (s ++ octet ∷ []) }
        ensures fits { Fits catalogue.now self.new }
        ensures at { self.new.at ≡ self.old.at + 1 }
    {
        let is_last = pad(self.at, 8) <= 1;
        self.at += 1;
        if is_last {
            self.begin_body(catalogue, body_type_id);
        }
    }

    /// Takes some of the octets, after `place` octets of the stream; there must be at least one. In
    /// a section it takes all, or those up to one that ends an operation or the section, or breaks
    /// a rule; in padding it takes one; in the rest it takes those of one part. Returns how many it
    /// took, and whether the last of them is faulted.
    #[inline]
    pub(crate) fn take_some<O: Out, Q: Correspondent>(
        &mut self,
        catalogue: &Catalogue,
        correspondent: &mut Q,
        octets: &[u8],
        place: u64,
        out: &mut O,
    ) -> Result<(usize, bool), OutFault>
        requires fits { Fits catalogue.now self.old }
        requires known { AreKnown catalogue.now (Q.answer (Q.state correspondent.old)) }
        requires some { 0 < length octets.now }
        requires before { self.old.at ≤ place }
        requires limit { place + length octets.now ≤ 2 ^ 48 }
        ensures known { AreKnown catalogue.now (Q.answer (Q.state correspondent.new)) }
        ensures writes { (answers : Answers) (phase : Phase) (number : ℕ) (header s : List ℕ) →
            Follows catalogue.now answers phase number header self.old s →
            TakesFront (λ went. went.0) (λ xs. header_ends phase number header s xs ≡ [])
            (λ xs. Writes result (O.log out.old) (O.log out.new) (more_lines_text
            (signatures_of catalogue.now (answers number) phase) number place header s xs))
            result octets.now }
        ensures took { IfOk result (λ went. (answers : Answers) (phase : Phase)
            (number : ℕ) (header s : List ℕ) →
            Follows catalogue.now answers phase number header self.old s →
            AgreesAtEnds Q.answer Q.notified catalogue.now (Q.state correspondent.old) answers
            (header_ends phase number header s octets.now) →
            TookSome catalogue.now answers phase number header self.new s octets.now went.0
            went.1) }
        ensures told { IfOk result (λ went. (answers : Answers) (phase : Phase)
            (number : ℕ) (header s : List ℕ) →
            Follows catalogue.now answers phase number header self.old s →
            Q.state correspondent.new ≡ after_ends Q.notified catalogue.now
            (Q.state correspondent.old) (header_ends phase number header s
            (take went.0 octets.now))) }
        ensures same { IfOk result (λ went. went.1 ≡ true →
            Q.state correspondent.new ≡ Q.state correspondent.old) }
        ensures some { IfOk result (λ went. 0 < went.0) }
        ensures within { IfOk result (λ went. went.0 ≤ length octets.now) }
        ensures fits { IfOk result (λ went. went.1 ≡ false → Fits catalogue.now self.new) }
        ensures at { IfOk result (λ went. self.new.at ≡ self.old.at + went.0) }
    {
        match &mut self.part {
            Part::Typed(_) => {
                let decoder = &mut self.decoder;
                let (taken, progress) = decoder.take_run(catalogue, octets, out)?;
                self.at += taken as u64;
                match progress {
                    Progress::More => Ok((taken, false)),
                    Progress::Named => {
                        write_call_line(catalogue, decoder, self.number, &self.header, out)?;
                        Ok((taken, false))
                    }
                    Progress::Done => {
                        self.end_section(catalogue, correspondent);
                        Ok((taken, false))
                    }
                    Progress::Fault(kind) => {
                        fault_line(out, self.number, fault_word(kind), place + taken as u64)?;
                        Ok((taken, true))
                    }
                }
            }
            Part::Padding(body_type_id) => {
                let body_type_id = *body_type_id;
                self.take_padding(catalogue, body_type_id);
                Ok((1, false))
            }
            Part::Rest(rest) => {
                let taken = rest.room().min(octets.len());
                rest.take(self.number, &octets[..taken], out)?;
                self.at += taken as u64;
                Ok((taken, false))
            }
        }
    }
}
