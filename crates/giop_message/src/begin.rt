//! What begins: a message in the place of another, and what comes after a part of a message that
//! has ended.

ghost use Rattle.std.specs.Prelude.{◌≡◌, ℕ, ◌+◌, ◌%◌, ◌<◌, List, [], length, true, false, cond, nat_lt};
ghost use Rattle.giop_sig.specs.Trees.{tree};
ghost use Rattle.giop_sig.specs.HeaderTypes.{fixed_type};
ghost use Rattle.giop_sig.specs.Fits.{IsEmptyStruct};
ghost use Rattle.giop_decode.specs.ReadResult.{Read as MessageReader};
ghost use Rattle.giop_decode.specs.Noted.{noted_of, is_header_root};
ghost use Rattle.giop_decode.specs.DecoderState.{KeepsNoted};
ghost use Rattle.giop_message.specs.Headers.{minor, kind};
ghost use Rattle.giop_message.specs.Phases.{Phase, IsShiftedFrom};
ghost use Rattle.giop_message.specs.Messages.{root_of, has_aligned_body};
ghost use Rattle.giop_message.specs.MessageState.{is_header};
ghost use Rattle.giop_message.specs.declared.part.Part.TheVariants as parts;
ghost use Rattle.giop_sig.specs.Table.{Table, in_version};

use crate::body_type::{BodyTypeId, body_type_after, is_empty_struct};
use crate::correspondent::Correspondent;
use crate::header::{kind_of, minor_of, order_of};
use crate::message::Message;
use crate::notifying::{notify_of_section, operation_of};
use crate::part::{Part, Rest, Section};
use giop_cdr::{Order, pad};
use giop_decode::Decoder;
use giop_print::Root;
use giop_sig::{Catalogue, Fixed, TypeId};

/// The request id after a section has ended: the one of the header if the section is the header,
/// else the one from before.
pub(crate) fn request_id_after_section(
    section: Section,
    decoder: &Decoder,
    before: Option<u32>,
) -> Option<u32>
    ensures { (C : Table) (r : MessageReader) → KeepsNoted C (root_of section) decoder.now r →
        result ≡ cond (is_header section) (noted_of true r).request_id before }
{
    match section {
        Section::Header => decoder.request_id(),
        Section::Exception => before,
        Section::SystemException => before,
        Section::Body => before,
    }
}

/// Whether a header is the header of a Request or a Reply.
fn is_request_or_reply(header: &[u8]) -> bool
    requires { length header.now ≡ 12 }
    ensures { result ≡ nat_lt (kind header.now) 2 }
{
    kind_of(header) < 2
}

/// Whether the body after a header begins at the next multiple of 8.
#[tactic(auto, unfolding(crate::specs::Messages::has_aligned_body))]
fn has_aligned_body(header: &[u8]) -> bool
    requires { length header.now ≡ 12 }
    ensures { result ≡ has_aligned_body header.now }
{
    is_request_or_reply(header) && minor_of(header) == 2
}

/// A decoder for a message that isn't in a section.
pub(crate) fn idle_decoder(catalogue: &Catalogue) -> Decoder {
    let of = catalogue.fixed(Fixed::ExceptionId);
    Decoder::start(catalogue, of, Order::Big, 12, 0, Root::Exception, 2)
}

impl Message {
    ghost use Rattle.giop_message.specs.declared.part.Section.{Section as Within};
    ghost use Rattle.giop_message.specs.Signatures.{Answers, signatures_of};
    ghost use Rattle.giop_message.specs.Messages.{read_body, read_rest, read_typed, read_after_section, coding_of};
    ghost use Rattle.giop_message.specs.MessageState.{AreKnown, IsKnown, Fits, Follows, in_header, body_type, octets_taken};
    ghost use Rattle.giop_message.specs.HeaderEnds.{after_event, operation_of};
    ghost use Rattle.giop_message.specs.MessageSteps.{has_padding_after, NewPartReads, NewSectionReads, IsInSection, HasEndedSection, section_event};

    /// Begins a message with this number and this header in the place of another.
    pub fn restart(&mut self, catalogue: &Catalogue, number: u64, header: [u8; 12])
        ensures follows { (answers : Answers) (phase : Phase) → IsShiftedFrom phase 0 12 →
            Follows catalogue.now answers phase number header self.new [] }
        ensures fits { Fits catalogue.now self.new }
        ensures reach { octets_taken self.new ≡ 12 }
    {
        self.number = number;
        self.header = header;
        self.id = None;
        self.at = 12;
        self.lacks = 0;
        let minor = minor_of(&header);
        match catalogue.in_version(minor).header(minor, kind_of(&header)) {
            Some(of) => self.begin_section(catalogue, Section::Header, of),
            None => self.begin_rest(),
        }
    }

    /// The phase of the next octet, modulo 8.
    fn next_phase(&self) -> u64
        ensures { result % 8 ≡ (self.now.at + self.now.lacks) % 8 }
    {
        self.at % 8 + u64::from(self.lacks)
    }

    /// Begins the rest.
    fn begin_rest(&mut self)
        ensures number { self.new.number ≡ self.old.number }
        ensures header { self.new.header ≡ self.old.header }
        ensures id { self.new.id ≡ self.old.id }
        ensures at { self.new.at ≡ self.old.at }
        ensures lacks { self.new.lacks ≡ self.old.lacks }
        ensures past { in_header self.new.part ≡ false }
        ensures fits { (C : Table) → Fits C self.new }
        ensures arrives { (C : Table) (answers : Answers) (phase : Phase)
            (number : ℕ) (header s : List ℕ) →
            NewPartReads C answers phase number header self.old self.new s (read_rest
            (12 + length s) []) }
    {
        self.part = Part::Rest(Rest::new());
    }

    /// Begins a section of this type, which takes octets.
    fn begin_section(&mut self, catalogue: &Catalogue, section: Section, of: TypeId)
        requires known { of.0 < length catalogue.now.types }
        requires some { IsEmptyStruct
            (tree (in_version (minor self.old.header) catalogue.now) of.0) → ⊥ }
        ensures number { self.new.number ≡ self.old.number }
        ensures header { self.new.header ≡ self.old.header }
        ensures id { self.new.id ≡ self.old.id }
        ensures at { self.new.at ≡ self.old.at }
        ensures lacks { self.new.lacks ≡ self.old.lacks }
        ensures within { in_header self.new.part ≡ is_header section }
        ensures fits { Fits catalogue.now self.new }
        ensures enters { (answers : Answers) (phase : Phase) (number : ℕ) (header s : List ℕ) →
            NewSectionReads catalogue.now answers phase number header self.old self.new s section
            (tree (in_version (minor header) catalogue.now) of.0) }
    {
        let order = order_of(&self.header);
        let root = section.root();
        let minor = minor_of(&self.header);
        let phase = self.next_phase();
        self.decoder
            .restart(catalogue, of, order, phase, self.number, root, minor);
        self.part = Part::Typed(section);
    }

    /// Begins a section of a type that no signature file declares.
    fn begin_fixed(&mut self, catalogue: &Catalogue, section: Section, fixed: Fixed)
        ensures number { self.new.number ≡ self.old.number }
        ensures header { self.new.header ≡ self.old.header }
        ensures id { self.new.id ≡ self.old.id }
        ensures at { self.new.at ≡ self.old.at }
        ensures lacks { self.new.lacks ≡ self.old.lacks }
        ensures within { in_header self.new.part ≡ is_header section }
        ensures fits { Fits catalogue.now self.new }
        ensures enters { (answers : Answers) (phase : Phase) (number : ℕ) (header s : List ℕ) →
            NewSectionReads catalogue.now answers phase number header self.old self.new s section
            (fixed_type catalogue.now.version fixed) }
    {
        let of = catalogue.in_version(minor_of(&self.header)).fixed(fixed);
        self.begin_section(catalogue, section, of);
    }

    /// Begins a body of this type.
    fn begin_typed_body(&mut self, catalogue: &Catalogue, of: TypeId)
        requires { of.0 < length catalogue.now.types }
        ensures number { self.new.number ≡ self.old.number }
        ensures header { self.new.header ≡ self.old.header }
        ensures id { self.new.id ≡ self.old.id }
        ensures at { self.new.at ≡ self.old.at }
        ensures lacks { self.new.lacks ≡ self.old.lacks }
        ensures past { in_header self.new.part ≡ false }
        ensures fits { Fits catalogue.now self.new }
        ensures arrives { (answers : Answers) (phase : Phase) (number : ℕ) (header s : List ℕ) →
            NewPartReads catalogue.now answers phase number header self.old self.new s (read_typed
            (coding_of (signatures_of catalogue.now (answers number) phase) header)
            (tree (in_version (minor header) catalogue.now) of.0) (12 + length s) []) }
    {
        if is_empty_struct(&catalogue.in_version(minor_of(&self.header)), of) {
            self.begin_rest();
        } else {
            self.begin_section(catalogue, Section::Body, of);
        }
    }

    /// Begins a body.
    pub(crate) fn begin_body(&mut self, catalogue: &Catalogue, body_type_id: BodyTypeId)
        requires { IsKnown catalogue.now body_type_id }
        ensures number { self.new.number ≡ self.old.number }
        ensures header { self.new.header ≡ self.old.header }
        ensures id { self.new.id ≡ self.old.id }
        ensures at { self.new.at ≡ self.old.at }
        ensures lacks { self.new.lacks ≡ self.old.lacks }
        ensures past { in_header self.new.part ≡ false }
        ensures fits { Fits catalogue.now self.new }
        ensures arrives { (answers : Answers) (phase : Phase) (number : ℕ) (header s : List ℕ) →
            NewPartReads catalogue.now answers phase number header self.old self.new s (read_body
            (signatures_of catalogue.now (answers number) phase) header
            (body_type (in_version (minor header) catalogue.now) body_type_id)
            (12 + length s) []) }
    {
        match body_type_id {
            BodyTypeId::Nothing => self.begin_rest(),
            BodyTypeId::Type(of) => self.begin_typed_body(catalogue, of),
            BodyTypeId::Exception => {
                self.begin_fixed(catalogue, Section::Exception, Fixed::ExceptionId)
            }
            BodyTypeId::SystemException => {
                self.begin_fixed(catalogue, Section::SystemException, Fixed::SystemException)
            }
        }
    }

    /// Goes on after the section, which has ended.
    #[inline(never)]
    pub(crate) fn end_section<Q: Correspondent>(
        &mut self,
        catalogue: &Catalogue,
        correspondent: &mut Q,
    )
        requires typed { IsInSection self.old.part }
        requires known { AreKnown catalogue.now (Q.answer (Q.state correspondent.old)) }
        ensures known { AreKnown catalogue.now (Q.answer (Q.state correspondent.new)) }
        ensures number { self.new.number ≡ self.old.number }
        ensures header { self.new.header ≡ self.old.header }
        ensures at { self.new.at ≡ self.old.at }
        ensures lacks { self.new.lacks ≡ self.old.lacks }
        ensures past { in_header self.new.part ≡ false }
        ensures fits { Fits catalogue.now self.new }
        ensures id { (section : Within) (r : MessageReader) →
            HasEndedSection catalogue.now self.old.decoder self.old.part section r →
            self.new.id ≡ cond (is_header section) (noted_of true r).request_id self.old.id }
        ensures told { (section : Within) (r : MessageReader) →
            HasEndedSection catalogue.now self.old.decoder self.old.part section r →
            Q.state correspondent.new ≡ after_event Q.notified (Q.state correspondent.old)
            (section_event section self.old.number self.old.header r
            (operation_of catalogue.now self.old.header (noted_of true r))) }
        ensures arrives { (answers : Answers) (phase : Phase)
            (number : ℕ) (header s : List ℕ) (section : Within)
            (r : MessageReader) →
            HasEndedSection catalogue.now self.old.decoder self.old.part section r →
            (is_header section ≡ true → answers number ≡ Q.answer (Q.state correspondent.old)) →
            NewPartReads catalogue.now answers phase number header self.old self.new s
            (read_after_section
            (signatures_of catalogue.now (answers number) phase) header section
            (noted_of (is_header_root (root_of section)) r) (12 + length s) []) }
    {
        let Part::Typed(section) = self.part else {
            unreachable!();
        };
        let decoder = &self.decoder;
        let operation = operation_of(catalogue, &self.header, section, decoder);
        let body_type_id = body_type_after(
            catalogue,
            correspondent,
            &self.header,
            section,
            decoder,
            operation,
        );
        notify_of_section(
            correspondent,
            self.number,
            &self.header,
            section,
            decoder,
            operation,
        );
        self.id = request_id_after_section(section, decoder, self.id);
        if self.has_padding_after(section) {
            self.begin_padding(body_type_id);
        } else {
            self.begin_body(catalogue, body_type_id);
        }
    }

    /// Goes to the padding before the body.
    #[inline(never)]
    fn begin_padding(&mut self, body_type_id: BodyTypeId)
        ensures { self.new ≡ record self.old { part = parts.Padding body_type_id } }
    {
        self.part = Part::Padding(body_type_id);
    }

    /// Whether there is padding before what follows a section.
    fn has_padding_after(&self, section: Section) -> bool
        ensures { result ≡ has_padding_after self.now.header section self.now.at }
    {
        match section {
            Section::Header => has_aligned_body(&self.header) && pad(self.at, 8) > 0,
            Section::Exception => false,
            Section::SystemException => false,
            Section::Body => false,
        }
    }
}
