//! What a checkpoint keeps of a message, written as octets (docs/FORMATS.md): 16 octets of the
//! message itself, and 208 of the part in which it is.

ghost use Rattle.std.specs.Prelude.{◌≡◌, ℕ, ◌*◌, ◌≤◌, take, drop};
ghost use Rattle.giop_sig.specs.HeaderTypes.{IsTable};
ghost use Rattle.giop_sig.specs.Table.{Table};
ghost use Rattle.giop_sig.specs.Trees.{catalogue_depth};
ghost use Rattle.giop_decode.specs.Stored.{frame_size};

use crate::body_type::BodyTypeId;
use crate::message::Message;
use crate::part::{Part, Rest, Section};
use arrayvec::ArrayVec;
use giop_decode::Decoder;
use giop_octets::{put_eight, put_four, put_held, put_octets, put_optional, put_zeros};

impl Section {
    ghost use Rattle.giop_message.specs.Stored.{section_octet};

    /// The octet of the section in a checkpoint.
    pub(crate) fn octet(self) -> u8
        ensures { result ≡ section_octet self }
    {
        match self {
            Section::Header => 0,
            Section::Exception => 1,
            Section::SystemException => 5,
            Section::Body => 2,
        }
    }
}

impl BodyTypeId {
    ghost use Rattle.giop_message.specs.Stored.{IsPaddingOf};

    /// The octets of the padding before such a body.
    #[tactic(auto, unfolding(crate::specs::Stored::padding_octets))]
    pub(crate) fn octets(self) -> [u8; 208]
        ensures { IsPaddingOf result self }
    {
        let (what, of) = match self {
            BodyTypeId::Nothing => (0, 0),
            BodyTypeId::Type(of) => (1, of.0),
            BodyTypeId::Exception => (2, 0),
            BodyTypeId::SystemException => (3, 0),
        };
        let mut out: ArrayVec<u8, 208> = ArrayVec::new();
        out.push(what);
        put_four(&mut out, of);
        put_zeros(&mut out, 203);
        let mut octets = [0; 208];
        octets.copy_from_slice(out.as_slice());
        octets
    }
}

impl Rest {
    ghost use Rattle.giop_message.specs.Stored.{IsRestOf};

    /// The octets of the rest.
    #[tactic(auto, unfolding(crate::specs::Stored::rest_octets))]
    pub(crate) fn octets(&self) -> [u8; 208]
        ensures { IsRestOf result self.now }
    {
        let mut out: ArrayVec<u8, 208> = ArrayVec::new();
        put_eight(&mut out, self.offset);
        put_held(&mut out, self.held.as_slice(), 32);
        put_zeros(&mut out, 167);
        let mut octets = [0; 208];
        octets.copy_from_slice(out.as_slice());
        octets
    }
}

impl Part {
    ghost use Rattle.giop_message.specs.MessageState.{FitsPart};
    ghost use Rattle.giop_message.specs.Stored.{part_octet, PartStored};

    /// The octet of the part in a checkpoint.
    fn octet(&self) -> u8
        ensures { result ≡ part_octet self.now }
    {
        match self {
            Part::Typed(section) => section.octet(),
            Part::Padding(_) => 3,
            Part::Rest(_) => 4,
        }
    }

    /// Writes what is kept of the part and of its decoder, and returns how many frames the decoder
    /// has: 0 if the part has no decoder.
    fn store(&self, decoder: &Decoder, octets: &mut [u8; 208], frames: &mut [u8; 576]) -> u8
        ensures few { result ≤ 24 }
        ensures depth { (C : Table) (minor at : ℕ) → IsTable C →
            FitsPart C minor at decoder.now self.now →
            result ≤ catalogue_depth C }
        ensures stored { (C : Table) (minor at : ℕ) → FitsPart C minor at decoder.now self.now →
            PartStored decoder.now self.now octets.new (take (frame_size * result) frames.new) }
        ensures behind { drop (frame_size * result) frames.new
            ≡ drop (frame_size * result) frames.old }
    {
        match self {
            Part::Typed(_) => decoder.store(octets, frames),
            Part::Padding(body_type_id) => {
                *octets = body_type_id.octets();
                0
            }
            Part::Rest(rest) => {
                *octets = rest.octets();
                0
            }
        }
    }
}

impl Message {
    ghost use Rattle.giop_message.specs.MessageState.{Fits, octets_taken};
    ghost use Rattle.giop_message.specs.Stored.{stored_id, AreOwnOctets, Stored};

    /// How many of its octets the message has taken, with the 12 of its header.
    pub fn octets_taken(&self) -> u64
        ensures { result ≡ octets_taken self.now }
    {
        self.at
    }

    /// Writes what is kept of the message, except its number and its header: its octets, and the
    /// frames of its decoder. Returns how many frames there are.
    pub fn store(&self, fixed: &mut [u8; 224], frames: &mut [u8; 576]) -> u8
        ensures few { result ≤ 24 }
        ensures depth { (C : Table) → IsTable C → Fits C self.now → result ≤ catalogue_depth C }
        ensures stored { (C : Table) → Fits C self.now →
            Stored self.now fixed.new (take (frame_size * result) frames.new) }
        // The octets after these frames are unchanged.
        ensures behind { drop (frame_size * result) frames.new
            ≡ drop (frame_size * result) frames.old }
    {
        let mut part = [0; 208];
        let count = self.part.store(&self.decoder, &mut part, frames);
        let own = self.own_octets();
        let mut out: ArrayVec<u8, 224> = ArrayVec::new();
        put_octets(&mut out, &own);
        put_octets(&mut out, &part);
        fixed.copy_from_slice(out.as_slice());
        count
    }

    /// The 16 octets of the message itself.
    #[tactic(auto, unfolding(crate::specs::Stored::own_octets))]
    pub(crate) fn own_octets(&self) -> [u8; 16]
        ensures { AreOwnOctets result self.now }
    {
        let mut out: ArrayVec<u8, 16> = ArrayVec::new();
        out.push(self.part.octet());
        put_eight(&mut out, self.at);
        put_optional(&mut out, self.stored_id());
        out.push(self.lacks);
        out.push(0);
        let mut octets = [0; 16];
        octets.copy_from_slice(out.as_slice());
        octets
    }

    /// The request id, unless the header's decoder still has it.
    fn stored_id(&self) -> Option<u32>
        ensures { result ≡ stored_id self.now.part self.now.id }
    {
        match self.part {
            Part::Typed(Section::Header) => None,
            _ => self.id,
        }
    }
}
