//! What comes after each part of a capture.

ghost use Rattle.std.specs.Prelude.{◌≡◌, ◌+◌, ◌-◌, ◌≤◌, length};
ghost use Rattle.capture_file.specs.Parts.{back};
ghost use Rattle.capture_file.specs.Format.{outcome_after, interfaces_behind};
ghost use Rattle.capture_file.specs.Fits.{Fits, interfaces_added};

use crate::part::{Interface, Outcome, Part};
use crate::{blocks, records};

/// What comes after a part that ends in these octets, in a section that has these interfaces.
#[tactic(auto, using(crate::proofs::Fitting::fits_more))]
pub fn outcome_after(part: &Part, interfaces: &[Interface], octets: &[u8]) -> Outcome
    requires back { length octets.now ≡ back part.now }
    requires room { length interfaces.now + interfaces_added part.now ≤ 256 }
    ensures value { result ≡ outcome_after part.now interfaces.now octets.now }
    ensures fits { Fits (256 - length (interfaces_behind part.now interfaces.now)) result }
{
    match *part {
        Part::Beginning => records::beginning(octets),
        Part::FileVersion(magic) => records::file_version(magic, octets),
        Part::FileRest(magic) => records::file_rest(magic, octets),
        Part::RecordHeader(file) => records::record_header(file, octets),
        Part::Record(file, info, _) => Outcome::EndsPacket(info, Part::RecordHeader(file)),
        Part::SectionLength => blocks::section_length(octets),
        Part::ByteOrderMagic(length) => blocks::byte_order_magic(length, octets),
        Part::SectionVersion(block) => blocks::section_version(block, octets),
        Part::BlockHeader(order) => blocks::block_header(order, interfaces.len(), octets),
        Part::InterfaceHeader(block) => blocks::interface_header(block, octets),
        Part::OptionHeader(block, interface, _) => blocks::option_header(block, interface, octets),
        Part::TimeUnit(block, interface) => blocks::time_unit(block, interface, octets),
        Part::EnhancedInterface(block) => blocks::enhanced_interface(block, interfaces, octets),
        Part::EnhancedHeader(block, interface) => blocks::enhanced_header(block, interface, octets),
        Part::SimpleHeader(block) => blocks::simple_header(block, interfaces, octets),
        Part::Packet(block, body) => {
            let header = Part::BlockHeader(block.order);
            blocks::block_end(block, octets, Outcome::EndsPacket(body.info, header))
        }
        Part::InterfaceEnd(block, _) | Part::BlockEnd(block) => {
            let header = Part::BlockHeader(block.order);
            blocks::block_end(block, octets, Outcome::Continues(header))
        }
    }
}
