//! What comes after each part of a pcap file.

ghost use Rattle.std.specs.Prelude.{◌≡◌, ◌+◌, ◌≤◌, length, take, IfSome};
ghost use Rattle.capture_file.specs.Records.{beginning, file_version, file_rest, record_time, record_header, record_info, IsWholeRecord};
ghost use Rattle.capture_file.specs.Fits.{Fits};

use crate::fault::FaultKind;
use crate::others::other_file;
use crate::part::{ByteOrder, FileHeader, Magic, Outcome, PacketInfo, Part};

/// The greatest number of octets of a packet.
pub const MOST_CAPTURED: u32 = 262_144;

const MICROSECONDS: u32 = 0xa1b2_c3d4;

const NANOSECONDS: u32 = 0xa1b2_3c4d;

/// The type of a section header block, with which a pcapng file begins.
pub const SECTION: u32 = 0x0a0d_0d0a;

/// After the first four octets of a capture.
#[tactic(auto, unfolding(crate::specs::Records::beginning))]
pub fn beginning(octets: &[u8]) -> Outcome
    requires { 4 ≤ length octets.now }
    ensures value { result ≡ beginning octets.now }
    ensures fits { Fits 0 result }
{
    let big = ByteOrder::Big.four_at(octets, 0);
    let little = ByteOrder::Little.four_at(octets, 0);
    let magic = |order: ByteOrder, unit: u32| Outcome::Continues(Part::FileVersion(Magic {
        order,
        unit,
    }));
    if big == MICROSECONDS {
        magic(ByteOrder::Big, 1000)
    } else if big == NANOSECONDS {
        magic(ByteOrder::Big, 1)
    } else if little == MICROSECONDS {
        magic(ByteOrder::Little, 1000)
    } else if little == NANOSECONDS {
        magic(ByteOrder::Little, 1)
    } else if big == SECTION {
        Outcome::Continues(Part::SectionLength)
    } else {
        Outcome::Fails(FaultKind::Magic(other_file(octets)))
    }
}

/// After the version of a pcap file.
#[tactic(auto, unfolding(crate::specs::Records::file_version))]
pub fn file_version(magic: Magic, octets: &[u8]) -> Outcome
    requires { 4 ≤ length octets.now }
    ensures value { result ≡ file_version magic octets.now }
    ensures fits { Fits 0 result }
{
    if magic.order.two_at(octets, 0) == 2 {
        Outcome::Continues(Part::FileRest(magic))
    } else {
        Outcome::Fails(FaultKind::Version)
    }
}

/// After the rest of a pcap file's header.
#[tactic(auto, unfolding(crate::specs::Records::file_rest))]
pub fn file_rest(magic: Magic, octets: &[u8]) -> Outcome
    requires { 16 ≤ length octets.now }
    ensures value { result ≡ file_rest magic octets.now }
    ensures fits { Fits 0 result }
{
    let link = (magic.order.four_at(octets, 12) % 0x1_0000) as u16;
    Outcome::Continues(Part::RecordHeader(FileHeader { magic, link }))
}

/// The time of a record, in nanoseconds since 1970.
#[tactic(auto, unfolding(crate::specs::Records::record_time))]
fn record_time(magic: Magic, octets: &[u8]) -> u128
    requires { 8 ≤ length octets.now }
    ensures { result ≡ record_time magic octets.now }
{
    let seconds = u128::from(magic.order.four_at(octets, 0));
    let fraction = u128::from(magic.order.four_at(octets, 4));
    seconds * 1_000_000_000 + fraction * u128::from(magic.unit)
}

/// What is known of a record's packet before its octets come.
#[inline]
fn record_info(file: FileHeader, octets: &[u8]) -> PacketInfo
    requires { 8 ≤ length octets.now }
    ensures { result ≡ record_info file octets.now }
{
    let time = Some(record_time(file.magic, octets));
    let link = file.link;
    PacketInfo { link, time }
}

/// After the header of a record, up to the captured length.
#[tactic(auto, unfolding(crate::specs::Records::record_header))]
pub fn record_header(file: FileHeader, octets: &[u8]) -> Outcome
    requires { 12 ≤ length octets.now }
    ensures value { result ≡ record_header file octets.now }
    ensures fits { Fits 0 result }
{
    let captured = file.magic.order.four_at(octets, 8);
    if captured > MOST_CAPTURED {
        return Outcome::Fails(FaultKind::Length);
    }
    Outcome::Continues(Part::Record(file, record_info(file, octets), captured))
}

/// If octets begin with a whole record: what is known of its packet, and how many octets that has.
#[inline]
#[tactic(auto, unfolding(crate::specs::Records::record_header))]
pub fn whole_record(file: FileHeader, octets: &[u8]) -> Option<(PacketInfo, usize)>
    ensures { IfSome result (λ r. IsWholeRecord file octets.now r.0 r.1) }
{
    if octets.len() < 16 {
        return None;
    }
    let header = &octets[..12];
    let captured = file.magic.order.four_at(header, 8);
    if MOST_CAPTURED < captured || octets.len() < 16 + captured as usize {
        return None;
    }
    Some((record_info(file, header), captured as usize))
}
