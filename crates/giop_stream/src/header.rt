//! The fields of a message header, and the octets that the header may have (GIOP Message Formats, GIOP Message Header).

ghost use Rattle.std.specs.Prelude.{◌≡◌, ◌≤◌, ◌<◌, ◌+◌, ℕ, List, [], ◌∷◌, length, take, None, IsTrue};
ghost use Rattle.giop_cdr.specs.Numbers.{little_endian_number, num};
ghost use Rattle.giop_message.specs.Headers.{has_more, size};
ghost use Rattle.giop_stream.specs.HeaderOctets.{last_octet_fault};

use crate::fault::StreamFault;
use giop_cdr::Order;
use giop_message::order_of;

/// The number that four octets are, the least significant octet first.
fn little_endian_number(a: u8, b: u8, c: u8, d: u8) -> u32
    ensures { result ≡ little_endian_number (a ∷ b ∷ c ∷ d ∷ []) }
{
    u32::from(a) + 256 * (u32::from(b) + 256 * (u32::from(c) + 256 * u32::from(d)))
}

/// The number that four octets are in this byte order.
#[tactic(auto, unfolding(giop_cdr::specs::Numbers::num))]
pub fn number_of(order: Order, a: u8, b: u8, c: u8, d: u8) -> u32
    ensures { result ≡ num order (a ∷ b ∷ c ∷ d ∷ []) }
{
    match order {
        Order::Big => little_endian_number(d, c, b, a),
        Order::Little => little_endian_number(a, b, c, d),
    }
}

/// Whether more fragments follow.
#[tactic(auto, unfolding(giop_message::specs::Headers::has_more, giop_message::specs::Headers::minor))]
pub fn has_more(header: &[u8]) -> bool
    requires { length header.now ≡ 12 }
    ensures { result ≡ has_more header.now }
{
    0 < header[5] && header[6] / 2 % 2 == 1
}

/// How many octets follow the header.
pub fn size_of(header: &[u8]) -> u32
    requires { length header.now ≡ 12 }
    ensures { result ≡ size header.now }
{
    number_of(
        order_of(header),
        header[8],
        header[9],
        header[10],
        header[11],
    )
}

/// The fault at the last octet of a header's front, if that octet is wrong.
#[tactic(auto, unfolding(crate::specs::HeaderOctets::last_octet_fault))]
pub fn last_octet_fault(front: &[u8]) -> Option<StreamFault>
    requires { length front.now ≤ 12 }
    ensures { result ≡ last_octet_fault front.now }
{
    let Some(octet) = front.last() else {
        return None;
    };
    let octet = *octet;
    let (is_right, fault) = match front.len() - 1 {
        0 => (octet == b'G', StreamFault::Magic),
        1 => (octet == b'I', StreamFault::Magic),
        2 => (octet == b'O', StreamFault::Magic),
        3 => (octet == b'P', StreamFault::Magic),
        4 => (octet == 1, StreamFault::Version),
        5 => (octet < 3, StreamFault::Version),
        6 => (octet < 2 || 0 < front[5], StreamFault::ByteOrder),
        _ => (true, StreamFault::Magic),
    };
    if is_right { None } else { Some(fault) }
}

/// Whether no octet of a header's front is wrong. The octets after the first seven may have any value.
#[tactic(auto, unfolding(crate::specs::HeaderOctets::last_octet_fault))]
pub fn has_no_wrong_octet(front: &[u8]) -> bool
    requires { 7 ≤ length front.now }
    ensures { IsTrue result → (k : ℕ) → k < length front.now →
        last_octet_fault (take (k + 1) front.now) ≡ None }
{
    front[0] == b'G'
        && front[1] == b'I'
        && front[2] == b'O'
        && front[3] == b'P'
        && front[4] == 1
        && front[5] < 3
        && (front[6] < 2 || 0 < front[5])
}
