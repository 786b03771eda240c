//! The IP packet in a frame, and its version, by the link type of the capture.

ghost use Rattle.std.specs.Prelude.{◌≡◌, ◌≤◌, length, option_map};
ghost use Rattle.tcp_segment.specs.Frames.{is_tag, behind_tag, behind_tags, version_of_type, packet_of_type, ethernet, cooked, cooked_2, is_family, version_of_family, loopback, version_of_raw, raw, packet_of, packet_view};

use crate::octets::{four_at, octets_at, two_at};

/// The version of the internet protocol.
#[derive(Clone, Copy)]
pub enum Version {
    V4,
    V6,
}

/// An IP packet that a frame carries, with the version that the frame tells. What the frame has after the packet isn't cut
/// off yet.
#[derive(Clone, Copy)]
pub struct Packet<'a> {
    pub version: Version,
    pub octets: &'a [u8],
}

/// The greatest number of tags in a row that are read.
const TAGS: usize = 4;

/// Whether an Ethernet type is the type of a tag.
fn is_tag(kind: u16) -> bool
    ensures { result ≡ is_tag kind }
{
    kind == 0x8100 || kind == 0x88a8 || kind == 0x9100
}

/// The Ethernet type after a tag, and what follows it. A tag has two octets of its own, and then the next type.
#[tactic(auto, unfolding(crate::specs::Frames::behind_tag))]
fn behind_tag(octets: &[u8]) -> Option<(u16, &[u8])>
    ensures { option_map (λ x. (x.0, x.1.now)) result ≡ behind_tag octets.now }
{
    if octets.len() < 4 {
        return None;
    }
    Some((two_at(octets, 2), &octets[4..]))
}

/// The first Ethernet type that isn't a tag's, and what follows it, if the first type is this one.
fn behind_tags(kind: u16, octets: &[u8]) -> Option<(u16, &[u8])>
    ensures { option_map (λ x. (x.0, x.1.now)) result ≡ behind_tags 4 kind octets.now }
{
    let mut next = kind;
    let mut behind = octets;
    for _ in 0..TAGS {
        if !is_tag(next) {
            return Some((next, behind));
        }
        (next, behind) = behind_tag(behind)?;
    }
    Some((next, behind))
}

/// The version of the internet protocol that an Ethernet type names.
fn version_of_type(kind: u16) -> Option<Version>
    ensures { result ≡ version_of_type kind }
{
    match kind {
        0x0800 => Some(Version::V4),
        0x86dd => Some(Version::V6),
        _ => None,
    }
}

/// The packet after an Ethernet type and its tags.
#[tactic(auto, unfolding(crate::specs::Frames::packet_of_type))]
fn packet_of_type(kind: u16, octets: &[u8]) -> Option<Packet<'_>>
    ensures { option_map packet_view result ≡ packet_of_type kind octets.now }
{
    let (kind, octets) = behind_tags(kind, octets)?;
    let version = version_of_type(kind)?;
    Some(Packet { version, octets })
}

/// The packet in an Ethernet frame.
fn ethernet(octets: &[u8]) -> Option<Packet<'_>>
    ensures { option_map packet_view result ≡ ethernet octets.now }
{
    if octets.len() < 14 {
        return None;
    }
    packet_of_type(two_at(octets, 12), &octets[14..])
}

/// The packet in a frame of Linux's cooked capture.
fn cooked(octets: &[u8]) -> Option<Packet<'_>>
    ensures { option_map packet_view result ≡ cooked octets.now }
{
    if octets.len() < 16 {
        return None;
    }
    packet_of_type(two_at(octets, 14), &octets[16..])
}

/// The packet in a frame of Linux's cooked capture, version 2.
fn cooked_2(octets: &[u8]) -> Option<Packet<'_>>
    ensures { option_map packet_view result ≡ cooked_2 octets.now }
{
    if octets.len() < 20 {
        return None;
    }
    packet_of_type(two_at(octets, 0), &octets[20..])
}

/// Whether a loopback frame begins with this address family, in either byte order.
fn is_family(octets: &[u8], family: u32) -> bool
    requires { 4 ≤ length octets.now }
    ensures { result ≡ is_family family octets.now }
{
    four_at(octets, 0) == family || u32::from_le_bytes(octets_at(octets, 0)) == family
}

/// The version of the internet protocol that the address family of a loopback frame names.
fn version_of_family(octets: &[u8]) -> Option<Version>
    requires { 4 ≤ length octets.now }
    ensures { result ≡ version_of_family octets.now }
{
    if is_family(octets, 2) {
        return Some(Version::V4);
    }
    let is_v6 = is_family(octets, 10)
        || is_family(octets, 24)
        || is_family(octets, 28)
        || is_family(octets, 30);
    if is_v6 { Some(Version::V6) } else { None }
}

/// The packet in a frame of the loopback interface.
fn loopback(octets: &[u8]) -> Option<Packet<'_>>
    ensures { option_map packet_view result ≡ loopback octets.now }
{
    if octets.len() < 4 {
        return None;
    }
    let version = version_of_family(octets)?;
    Some(Packet {
        version,
        octets: &octets[4..],
    })
}

/// The packet, if it has no frame around it. Its first four bits are its version.
fn raw(octets: &[u8]) -> Option<Packet<'_>>
    ensures { option_map packet_view result ≡ raw octets.now }
{
    if octets.is_empty() {
        return None;
    }
    let version = match octets[0] / 16 {
        4 => Version::V4,
        6 => Version::V6,
        _ => return None,
    };
    Some(Packet { version, octets })
}

/// The packet in a frame of this link type.
#[tactic(auto, unfolding(crate::specs::Frames::packet_of))]
pub fn packet_of(link: u16, octets: &[u8]) -> Option<Packet<'_>>
    ensures { option_map packet_view result ≡ packet_of link octets.now }
{
    match link {
        1 => ethernet(octets),
        113 => cooked(octets),
        276 => cooked_2(octets),
        0 | 108 => loopback(octets),
        12 | 14 | 101 => raw(octets),
        228 => Some(Packet {
            version: Version::V4,
            octets,
        }),
        229 => Some(Packet {
            version: Version::V6,
            octets,
        }),
        _ => None,
    }
}
