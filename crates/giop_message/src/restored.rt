//! A message from the octets that were stored of one. They are read without a check of each octet;
//! then the message is stored again, and the octets are compared.

ghost use Rattle.std.specs.Prelude.{◌≡◌, ℕ, ◌+◌, ◌<◌, ◌≤◌, ◌↔◌, List, length, IfSome, IsSome, IsTrue, Some};
ghost use Rattle.std.specs.Option.{IsSomeAnd};
ghost use Rattle.giop_sig.specs.Table.{Table};

use crate::begin::idle_decoder;
use crate::body_type::BodyTypeId;
use crate::header::minor_of;
use crate::message::Message;
use crate::part::{Part, Rest, Section};
use arrayvec::ArrayVec;
use giop_decode::Decoder;
use giop_octets::{eight_at, four_at, held_at, octet_at, octets_at, optional_at};
use giop_sig::{Catalogue, TypeId};

/// Whether the octets and the others are the same.
fn same(octets: &[u8], others: &[u8]) -> bool
    ensures { IsTrue result ↔ (octets.now ≡ others.now) }
{
    octets == others
}

/// Whether this is an offset after a message's header.
fn is_after_header(offset: u64) -> bool
    ensures { IsTrue result ↔ (12 ≤ offset) }
{
    offset >= 12
}

/// Whether an offset can lack this of what padding is counted by, modulo 8.
fn is_possible_lack(lacks: u8) -> bool
    ensures { IsTrue result ↔ (lacks < 8) }
{
    lacks < 8
}

/// Whether a message that has taken `at` octets can have a rest with this many octets before its
/// last part, and this many in it.
fn can_have_rest(offset: u64, held: usize, octets_taken: u64) -> bool
    ensures { IsTrue result ↔ (held < 32) × (offset + held ≤ octets_taken) }
{
    held < 32 && offset <= octets_taken && held as u64 <= octets_taken - offset
}

impl BodyTypeId {
    ghost use Rattle.giop_message.specs.declared.body_type.BodyTypeId.{BodyTypeId as BodyType};
    ghost use Rattle.giop_message.specs.MessageState.{IsKnown};
    ghost use Rattle.giop_message.specs.Stored.{IsPaddingOf};

    /// The type of the body after the padding that was stored in these octets. It is None if these
    /// octets store no padding before a body of the catalogue.
    fn restore(catalogue: &Catalogue, octets: &[u8; 208]) -> Option<BodyTypeId>
        ensures known { IfSome result (λ w. IsKnown catalogue.now w) }
        ensures stored { IfSome result (λ w. IsPaddingOf octets.now w) }
        ensures again { (w : BodyType) → IsKnown catalogue.now w → IsPaddingOf octets.now w →
            result ≡ Some w }
    {
        let body_type_id = BodyTypeId::from_octets_unchecked(octets);
        if !body_type_id.is_known(catalogue) {
            return None;
        }
        if !same(&body_type_id.octets(), octets) {
            return None;
        }
        Some(body_type_id)
    }

    /// The type of a body that these octets stand for. The octets aren't checked.
    fn from_octets_unchecked(octets: &[u8; 208]) -> BodyTypeId
        ensures { (w : BodyType) → IsPaddingOf octets.now w → result ≡ w }
    {
        match octets[0] {
            0 => BodyTypeId::Nothing,
            1 => BodyTypeId::Type(TypeId(four_at(octets, 1))),
            2 => BodyTypeId::Exception,
            _ => BodyTypeId::SystemException,
        }
    }

    /// Whether the body's type is one of the catalogue.
    fn is_known(self, catalogue: &Catalogue) -> bool
        ensures { IsTrue result ↔ IsKnown catalogue.now self }
    {
        match self {
            BodyTypeId::Nothing => true,
            BodyTypeId::Type(of) => catalogue.has(of),
            BodyTypeId::Exception => true,
            BodyTypeId::SystemException => true,
        }
    }
}

impl Rest {
    ghost use Rattle.giop_message.specs.declared.part.Rest.{Rest as StoredRest};
    ghost use Rattle.giop_message.specs.Stored.{IsRestOf, IsSameRest};

    /// The rest that was stored in these octets, if the message has taken `at` octets. It is None
    /// if these octets store no rest of such a message.
    fn restore(octets: &[u8; 208], at: u64) -> Option<Rest>
        ensures within { IfSome result (λ r. r.offset + length r.held.items ≤ at) }
        ensures stored { IfSome result (λ r. IsRestOf octets.now r) }
        ensures again { (r : StoredRest) → r.offset + length r.held.items ≤ at →
            IsRestOf octets.now r → IsSomeAnd result (λ other. IsSameRest other r) }
    {
        let offset = eight_at(octets, 0);
        let held: ArrayVec<u8, 32> = held_at(octets, 8);
        if !can_have_rest(offset, held.len(), at) {
            return None;
        }
        let rest = Rest { offset, held };
        if !same(&rest.octets(), octets) {
            return None;
        }
        Some(rest)
    }
}

impl Part {
    ghost use Rattle.giop_message.specs.declared.part.Part.{Part as StoredPart};
    ghost use Rattle.giop_decode.specs.declared.decoder.Decoder.{Decoder as StoredDecoder};
    ghost use Rattle.giop_message.specs.MessageState.{FitsPart};
    ghost use Rattle.giop_message.specs.Stored.{section_octet, part_octet, PartStored, PartGoesOn};

    /// The part that was stored in these octets and frames, if the message has taken `at` octets
    /// and this octet stands for the part. It is None if these octets store no part of such a
    /// message.
    fn restore(
        catalogue: &Catalogue,
        octet: u8,
        at: u64,
        octets: &[u8; 208],
        frames: &[u8],
        minor: u8,
    ) -> Option<(Part, Decoder)>
        ensures fits { IfSome result (λ p. FitsPart catalogue.now minor at p.1 p.0) }
        ensures stored { IfSome result (λ p. PartStored p.1 p.0 octets.now frames.now) }
        ensures octet { IfSome result (λ p. part_octet p.0 ≡ octet) }
        ensures again { (d : StoredDecoder) (p : StoredPart) →
            FitsPart catalogue.now minor at d p → part_octet p ≡ octet →
            PartStored d p octets.now frames.now →
            IsSomeAnd result (λ other. PartGoesOn catalogue.now d p other.1 other.0) }
    {
        match octet {
            0 => Part::restore_typed(catalogue, Section::Header, octets, frames, minor),
            1 => Part::restore_typed(catalogue, Section::Exception, octets, frames, minor),
            2 => Part::restore_typed(catalogue, Section::Body, octets, frames, minor),
            3 => Part::restore_padding(catalogue, octets, frames),
            4 => Part::restore_rest(catalogue, at, octets, frames),
            5 => Part::restore_typed(catalogue, Section::SystemException, octets, frames, minor),
            _ => None,
        }
    }

    /// The section whose decoder was stored in these octets and frames, with its decoder.
    fn restore_typed(
        catalogue: &Catalogue,
        section: Section,
        octets: &[u8; 208],
        frames: &[u8],
        minor: u8,
    ) -> Option<(Part, Decoder)>
        ensures fits { (at : ℕ) → IfSome result (λ p. FitsPart catalogue.now minor at p.1 p.0) }
        ensures stored { IfSome result (λ p. PartStored p.1 p.0 octets.now frames.now) }
        ensures octet { IfSome result (λ p. part_octet p.0 ≡ section_octet section) }
        ensures again { (at : ℕ) (d : StoredDecoder) (p : StoredPart) →
            FitsPart catalogue.now minor at d p → part_octet p ≡ section_octet section →
            PartStored d p octets.now frames.now →
            IsSomeAnd result (λ other. PartGoesOn catalogue.now d p other.1 other.0) }
    {
        let Some(decoder) = Decoder::restore(catalogue, octets, frames, minor) else {
            return None;
        };
        Some((Part::Typed(section), decoder))
    }

    /// The padding that was stored in these octets. It has no frames.
    fn restore_padding(
        catalogue: &Catalogue,
        octets: &[u8; 208],
        frames: &[u8],
    ) -> Option<(Part, Decoder)>
        ensures fits { (version at : ℕ) →
            IfSome result (λ p. FitsPart catalogue.now version at p.1 p.0) }
        ensures stored { IfSome result (λ p. PartStored p.1 p.0 octets.now frames.now) }
        ensures octet { IfSome result (λ p. part_octet p.0 ≡ 3) }
        ensures again { (version at : ℕ) (d : StoredDecoder) (p : StoredPart) →
            FitsPart catalogue.now version at d p → part_octet p ≡ 3 →
            PartStored d p octets.now frames.now →
            IsSomeAnd result (λ other. PartGoesOn catalogue.now d p other.1 other.0) }
    {
        let Some(body_type_id) = BodyTypeId::restore(catalogue, octets) else {
            return None;
        };
        if !frames.is_empty() {
            return None;
        }
        Some((Part::Padding(body_type_id), idle_decoder(catalogue)))
    }

    /// The rest that was stored in these octets. It has no frames.
    fn restore_rest(
        catalogue: &Catalogue,
        at: u64,
        octets: &[u8; 208],
        frames: &[u8],
    ) -> Option<(Part, Decoder)>
        ensures fits { (C : Table) (version : ℕ) →
            IfSome result (λ p. FitsPart C version at p.1 p.0) }
        ensures stored { IfSome result (λ p. PartStored p.1 p.0 octets.now frames.now) }
        ensures octet { IfSome result (λ p. part_octet p.0 ≡ 4) }
        ensures again { (C : Table) (version : ℕ) (d : StoredDecoder) (p : StoredPart) →
            FitsPart C version at d p → part_octet p ≡ 4 → PartStored d p octets.now frames.now →
            IsSomeAnd result (λ other. PartGoesOn C d p other.1 other.0) }
    {
        let Some(rest) = Rest::restore(octets, at) else {
            return None;
        };
        if !frames.is_empty() {
            return None;
        }
        Some((Part::Rest(rest), idle_decoder(catalogue)))
    }
}

impl Message {
    ghost use Rattle.giop_message.specs.declared.message.Message.{Message as StoredMessage};
    ghost use Rattle.giop_message.specs.Signatures.{Answers};
    ghost use Rattle.giop_message.specs.Phases.{Phase};
    ghost use Rattle.giop_message.specs.MessageState.{Fits, Follows};
    ghost use Rattle.giop_message.specs.Stored.{Stored};

    /// The message with this number and header that was stored in these octets and frames. It is
    /// None if these store no message that fits the catalogue.
    pub fn restore(
        catalogue: &Catalogue,
        number: u64,
        header: [u8; 12],
        fixed: &[u8; 224],
        frames: &[u8],
    ) -> Option<Message>
        ensures number { IfSome result (λ m. m.number ≡ number) }
        ensures header { IfSome result (λ m. m.header ≡ header) }
        ensures fits { IfSome result (λ m. Fits catalogue.now m) }
        ensures stored { IfSome result (λ m. Stored m fixed.now frames.now) }
        ensures again { (m : StoredMessage) → Fits catalogue.now m → m.header ≡ header →
            Stored m fixed.now frames.now → IsSome result }
        // The message follows each list of octets that the stored one follows.
        ensures follows { IfSome result (λ e. (m : StoredMessage) → Fits catalogue.now m →
            m.number ≡ number → m.header ≡ header → Stored m fixed.now frames.now →
            (answers : Answers) (phase : Phase)
            (n : ℕ) (h s : List ℕ) → Follows catalogue.now answers phase n h m s →
            Follows catalogue.now answers phase n h e s) }
    {
        let at = eight_at(fixed, 1);
        if !is_after_header(at) {
            return None;
        }
        let lacks = octet_at(fixed, 14);
        if !is_possible_lack(lacks) {
            return None;
        }
        let octets: [u8; 208] = octets_at(fixed, 16);
        let Some((part, decoder)) = Part::restore(
            catalogue,
            octet_at(fixed, 0),
            at,
            &octets,
            frames,
            minor_of(&header),
        ) else {
            return None;
        };
        let message = Message {
            number,
            header,
            id: optional_at(fixed, 9),
            at,
            lacks,
            part,
            decoder,
        };
        let own: [u8; 16] = octets_at(fixed, 0);
        if !same(&message.own_octets(), &own) {
            return None;
        }
        Some(message)
    }
}
