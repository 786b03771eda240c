//! The TCP header (RFC 9293, Header Format).

ghost use Rattle.std.specs.Prelude.{◌≡◌, ◌≤◌, length, option_map};
ghost use Rattle.tcp_segment.specs.Datagrams.{datagram_view};
ghost use Rattle.tcp_segment.specs.Segments.{has_flag, header_size, flow_of, acknowledgement_of, segment_in, segment_view};

use crate::datagram::Datagram;
use crate::endpoint::{Endpoint, Flow};
use crate::octets::{four_at, two_at};

/// A TCP segment. Its payload is a slice of the octets of its packet. If the capture cut the packet, the payload is shorter
/// than it was.
#[derive(Clone, Copy, Debug)]
pub struct Segment<'a> {
    pub flow: Flow,
    /// The sequence number of the first octet, or of SYN.
    pub sequence: u32,
    /// The next sequence number that the sender expects, if the segment acknowledges one.
    pub acknowledgement: Option<u32>,
    pub syn: bool,
    pub fin: bool,
    pub reset: bool,
    pub payload: &'a [u8],
}

const FIN: u8 = 1;

const SYN: u8 = 2;

const RST: u8 = 4;

const ACK: u8 = 16;

/// Whether the control bits have this one.
fn has_flag(flags: u8, flag: u8) -> bool
    ensures { result ≡ has_flag flags flag }
{
    flags & flag != 0
}

/// How many octets the header has, if the segment holds all of them.
fn header_size(octets: &[u8]) -> Option<usize>
    ensures { result ≡ header_size octets.now }
{
    if octets.len() < 20 {
        return None;
    }
    let size = usize::from(octets[12] / 16) * 4;
    if size < 20 || octets.len() < size {
        return None;
    }
    Some(size)
}

/// Who sends the segment, and to whom.
fn flow_of(datagram: Datagram<'_>) -> Flow
    requires { 4 ≤ length datagram.octets.now }
    ensures { result ≡ flow_of (datagram_view datagram.entry) }
{
    Flow {
        from: Endpoint {
            address: datagram.source,
            port: two_at(datagram.octets, 0),
        },
        to: Endpoint {
            address: datagram.destination,
            port: two_at(datagram.octets, 2),
        },
    }
}

/// The acknowledged sequence number, if there is one.
fn acknowledgement_of(octets: &[u8]) -> Option<u32>
    requires { 20 ≤ length octets.now }
    ensures { result ≡ acknowledgement_of octets.now }
{
    if has_flag(octets[13], ACK) {
        return Some(four_at(octets, 8));
    }
    None
}

/// The segment that an IP packet carries.
#[tactic(auto, unfolding(crate::specs::Segments::segment_in))]
pub fn segment_in(datagram: Datagram<'_>) -> Option<Segment<'_>>
    ensures { option_map segment_view result ≡ segment_in (datagram_view datagram.entry) }
{
    let octets = datagram.octets;
    let header = header_size(octets)?;
    let flow = flow_of(datagram);
    if flow.from == flow.to {
        return None;
    }
    let flags = octets[13];
    Some(Segment {
        flow,
        sequence: four_at(octets, 4),
        acknowledgement: acknowledgement_of(octets),
        syn: has_flag(flags, SYN),
        fin: has_flag(flags, FIN),
        reset: has_flag(flags, RST),
        payload: &octets[header..],
    })
}
