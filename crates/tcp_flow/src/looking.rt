//! Finds the beginning of a stream in octets: at the front, or where messages begin that follow one
//! another up to the end.

ghost use Rattle.std.specs.Prelude.{◌≡◌, ◌≤◌, ◌<◌, ◌^◌, ◌++◌, length, get_or, IfSome};
ghost use Rattle.tcp_flow.specs.Flow.{big_endian_number as spec_big_endian_number, message_size_in as spec_message_size_in};
ghost use Rattle.tcp_flow.specs.Flow.{message_end as spec_message_end, may_be_header as spec_may_be_header};
ghost use Rattle.tcp_flow.specs.Flow.{is_chain as spec_is_chain, stream_begin_in as spec_stream_begin_in};
ghost use Rattle.tcp_flow.specs.Flow.{is_header_beginning as spec_is_header_beginning};

use crate::flow::index_of_header;

/// How many octets the header of a message has.
const HEADER: usize = 12;

/// Where a stream begins in these octets. Only the first place with `GIOP` 01 and 00, 01 or 02
/// counts. It must be the front, or messages must follow one another from it up to the end, at
/// least one of them whole.
pub fn stream_begin_in(octets: &[u8]) -> Option<usize>
    ensures at { result ≡ spec_stream_begin_in octets.now }
    ensures within { IfSome result (λ place. place < length octets.now) }
{
    let Some(place) = index_of_header(octets) else {
        return None;
    };
    if place == 0 {
        return Some(place);
    }
    if is_chain(&octets[place..]) {
        return Some(place);
    }
    None
}

/// Whether messages follow one another up to the end, at least one of them whole.
fn is_chain(octets: &[u8]) -> bool
    ensures { result ≡ spec_is_chain octets.now }
{
    let mut rest = octets;
    let mut whole = false;
    while !rest.is_empty() {
        if !may_be_header(rest) {
            return false;
        }
        let Some(end) = message_end(rest) else {
            return whole;
        };
        rest = &rest[end..];
        whole = true;
    }
    whole
}

/// Whether octets begin with `GIOP` 01 and 00, 01 or 02, as far as they go.
fn may_be_header(octets: &[u8]) -> bool
    ensures { result ≡ spec_may_be_header octets.now }
{
    octet_or(octets, 0, b'G') == b'G'
        && octet_or(octets, 1, b'I') == b'I'
        && octet_or(octets, 2, b'O') == b'O'
        && octet_or(octets, 3, b'P') == b'P'
        && octet_or(octets, 4, 1) == 1
        && octet_or(octets, 5, 0) <= 2
}

/// Whether octets are the first one to five of the six octets `GIOP` 01 and 00, 01 or 02.
pub fn is_header_beginning(octets: &[u8]) -> bool
    ensures { result ≡ spec_is_header_beginning octets.now }
{
    !octets.is_empty() && octets.len() < 6 && may_be_header(octets)
}

/// Whether `octets` after `before` begin with the six octets, as far as both go.
pub(crate) fn may_be_header_joined(before: &[u8], octets: &[u8]) -> bool
    ensures { result ≡ spec_may_be_header (before.now ++ octets.now) }
{
    joined_octet_or(before, octets, 0, b'G') == b'G'
        && joined_octet_or(before, octets, 1, b'I') == b'I'
        && joined_octet_or(before, octets, 2, b'O') == b'O'
        && joined_octet_or(before, octets, 3, b'P') == b'P'
        && joined_octet_or(before, octets, 4, 1) == 1
        && joined_octet_or(before, octets, 5, 0) <= 2
}

/// The octet at an index in `octets` after `before`, or `other` if both end before it.
fn joined_octet_or(before: &[u8], octets: &[u8], place: usize, other: u8) -> u8
    ensures { result ≡ get_or (before.now ++ octets.now) place other }
{
    if place < before.len() {
        before[place]
    } else {
        octet_or(octets, place - before.len(), other)
    }
}

/// The octet at an index, or `other` if the octets end before it.
fn octet_or(octets: &[u8], place: usize, other: u8) -> u8
    ensures { result ≡ get_or octets.now place other }
{
    if place < octets.len() {
        octets[place]
    } else {
        other
    }
}

/// Where the first message ends, if all of it is there.
fn message_end(octets: &[u8]) -> Option<usize>
    ensures end { result ≡ spec_message_end octets.now }
    ensures within { IfSome result (λ end. (0 < end) × (end ≤ length octets.now)) }
{
    if octets.len() < HEADER {
        return None;
    }
    let end = HEADER + message_size_in(octets);
    if octets.len() < end {
        return None;
    }
    Some(end)
}

/// The size that a header has, in its byte order, which bit 0 of its 7th octet tells (GIOP Message
/// Header).
fn message_size_in(octets: &[u8]) -> usize
    requires { 12 ≤ length octets.now }
    ensures is { result ≡ spec_message_size_in octets.now }
    ensures bound { result < 2 ^ 32 }
{
    if octets[6] % 2 == 1 {
        big_endian_number(octets[11], octets[10], octets[9], octets[8])
    } else {
        big_endian_number(octets[8], octets[9], octets[10], octets[11])
    }
}

/// Four octets as a number, the most significant first.
fn big_endian_number(a: u8, b: u8, c: u8, d: u8) -> usize
    ensures is { result ≡ spec_big_endian_number a b c d }
    ensures bound { result < 2 ^ 32 }
{
    ((a as usize * 256 + b as usize) * 256 + c as usize) * 256 + d as usize
}
