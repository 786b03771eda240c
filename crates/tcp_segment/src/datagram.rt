//! What an IP packet carries for TCP (RFC 791, RFC 8200), with the addresses of its header.

ghost use Rattle.std.specs.Prelude.{◌≡◌, ◌≤◌, length, option_map, option_copied};
ghost use Rattle.tcp_segment.specs.Datagrams.{cut_to_length, is_fragment, carries_whole_tcp, ipv4, is_extension, extension_size, is_of_fragment, behind_extension, behind_extensions, ipv6_payload, tcp_behind_headers, ipv6, datagram_of, datagram_view};
ghost use Rattle.tcp_segment.specs.Frames.{packet_view};

use crate::endpoint::Address;
use crate::frame::{Packet, Version};
use crate::octets::{octets_at, two_at};

/// The TCP segment of an IP packet, and the addresses that it goes from and to.
#[derive(Clone, Copy)]
pub struct Datagram<'a> {
    pub source: Address,
    pub destination: Address,
    pub octets: &'a [u8],
}

/// The protocol number of TCP.
const TCP: u8 = 6;

/// The greatest number of extension headers in a row that are read.
const EXTENSIONS: usize = 8;

/// The first octets, as many as a length field says. 0 means all: if the sender's hardware will cut a segment later, the
/// length of its packet fits no field.
#[tactic(auto, unfolding(crate::specs::Datagrams::cut_to_length))]
fn cut_to_length(length: u16, octets: &[u8]) -> &[u8]
    ensures { result.now ≡ cut_to_length length octets.now }
{
    let length = usize::from(length);
    if length == 0 || octets.len() <= length {
        return octets;
    }
    &octets[..length]
}

/// Whether flags and fragment offset are those of a fragment: more fragments follow, or it isn't the first one.
fn is_fragment(flags_and_offset: u16) -> bool
    ensures { result ≡ is_fragment flags_and_offset }
{
    flags_and_offset / 0x2000 % 2 == 1 || flags_and_offset % 0x2000 != 0
}

/// Whether a header is the header of an IPv4 packet with a whole TCP segment: the packet is no fragment.
fn carries_whole_tcp(octets: &[u8]) -> bool
    requires { 20 ≤ length octets.now }
    ensures { result ≡ carries_whole_tcp octets.now }
{
    octets[0] / 16 == 4 && octets[9] == TCP && !is_fragment(two_at(octets, 6))
}

/// What an IPv4 packet carries for TCP, if it is no fragment.
#[tactic(auto, unfolding(crate::specs::Datagrams::ipv4))]
fn ipv4(octets: &[u8]) -> Option<Datagram<'_>>
    ensures { option_map datagram_view result ≡ ipv4 octets.now }
{
    if octets.len() < 20 || !carries_whole_tcp(octets) {
        return None;
    }
    let header = usize::from(octets[0] % 16) * 4;
    let packet = cut_to_length(two_at(octets, 2), octets);
    if header < 20 || packet.len() < header {
        return None;
    }
    Some(Datagram {
        source: Address::V4(octets_at(octets, 12)),
        destination: Address::V4(octets_at(octets, 16)),
        octets: &packet[header..],
    })
}

/// Whether the number of a next header is the number of an extension header: hop-by-hop options, routing, fragment,
/// authentication or destination options.
fn is_extension(header: u8) -> bool
    ensures { result ≡ is_extension header }
{
    matches!(header, 0 | 43 | 44 | 51 | 60)
}

/// How many octets an extension header has.
fn extension_size(header: u8, octets: &[u8]) -> usize
    requires { 2 ≤ length octets.now }
    ensures { result ≡ extension_size header octets.now }
{
    let length = usize::from(octets[1]);
    match header {
        44 => 8,
        51 => (length + 2) * 4,
        _ => (length + 1) * 8,
    }
}

/// Whether an extension header belongs to a fragment of a packet: its offset isn't 0, or more fragments follow.
fn is_of_fragment(header: u8, octets: &[u8]) -> bool
    requires { 4 ≤ length octets.now }
    ensures { result ≡ is_of_fragment header octets.now }
{
    let offset_and_more = two_at(octets, 2);
    header == 44 && (offset_and_more / 8 != 0 || offset_and_more % 2 == 1)
}

/// The number of the header after an extension header, and its octets.
#[tactic(auto, using(crate::proofs::Extensions::extensions_are_long), unfolding(crate::specs::Datagrams::behind_extension))]
fn behind_extension(header: u8, octets: &[u8]) -> Option<(u8, &[u8])>
    ensures { option_map (λ x. (x.0, x.1.now)) result ≡ behind_extension header octets.now }
{
    if octets.len() < 8 || is_of_fragment(header, octets) {
        return None;
    }
    let size = extension_size(header, octets);
    if octets.len() < size {
        return None;
    }
    Some((octets[0], &octets[size..]))
}

/// The number of the first header that isn't an extension header, and its octets, if the first header has this number.
fn behind_extensions(header: u8, octets: &[u8]) -> Option<(u8, &[u8])>
    ensures { option_map (λ x. (x.0, x.1.now)) result ≡ behind_extensions 8 header octets.now }
{
    let mut next = header;
    let mut behind = octets;
    for _ in 0..EXTENSIONS {
        if !is_extension(next) {
            return Some((next, behind));
        }
        (next, behind) = behind_extension(next, behind)?;
    }
    Some((next, behind))
}

/// What comes after the header of an IPv6 packet, as far as its payload length says.
#[tactic(auto, unfolding(crate::specs::Datagrams::ipv6_payload))]
fn ipv6_payload(octets: &[u8]) -> &[u8]
    requires { 40 ≤ length octets.now }
    ensures { result.now ≡ ipv6_payload octets.now }
{
    cut_to_length(two_at(octets, 4), &octets[40..])
}

/// What comes after the last header of an IPv6 packet, if that names TCP.
#[tactic(auto, unfolding(crate::specs::Datagrams::tcp_behind_headers))]
fn tcp_behind_headers(octets: &[u8]) -> Option<&[u8]>
    requires { 40 ≤ length octets.now }
    ensures { option_copied result ≡ tcp_behind_headers octets.now }
{
    let (protocol, upper) = behind_extensions(octets[6], ipv6_payload(octets))?;
    if protocol == TCP { Some(upper) } else { None }
}

/// What an IPv6 packet carries for TCP, if it is no fragment.
#[tactic(auto, unfolding(crate::specs::Datagrams::ipv6))]
fn ipv6(octets: &[u8]) -> Option<Datagram<'_>>
    ensures { option_map datagram_view result ≡ ipv6 octets.now }
{
    if octets.len() < 40 || octets[0] / 16 != 6 {
        return None;
    }
    let upper = tcp_behind_headers(octets)?;
    Some(Datagram {
        source: Address::V6(octets_at(octets, 8)),
        destination: Address::V6(octets_at(octets, 24)),
        octets: upper,
    })
}

/// What a packet carries for TCP.
pub fn datagram_of(packet: Packet<'_>) -> Option<Datagram<'_>>
    ensures { option_map datagram_view result ≡ datagram_of (packet_view packet.entry) }
{
    match packet.version {
        Version::V4 => ipv4(packet.octets),
        Version::V6 => ipv6(packet.octets),
    }
}
