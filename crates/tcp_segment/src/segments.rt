//! The segment in a packet of a capture.

ghost use Rattle.std.specs.Prelude.{◌≡◌, option_map};
ghost use Rattle.tcp_segment.specs.Segments.{segment, segment_view};

use crate::datagram::datagram_of;
use crate::frame::packet_of;
use crate::tcp::{Segment, segment_in};

/// The TCP segment in a packet of a capture, by the link type of its interface. There is none if the packet isn't TCP over
/// IP, is a fragment, ends inside a header, or goes from an endpoint to itself. Checksums aren't checked.
#[tactic(auto, unfolding(crate::specs::Segments::segment))]
pub fn segment(link: u16, octets: &[u8]) -> Option<Segment<'_>>
    ensures { option_map segment_view result ≡ segment link octets.now }
{
    let packet = packet_of(link, octets)?;
    let datagram = datagram_of(packet)?;
    segment_in(datagram)
}
