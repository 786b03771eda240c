//! The text of an endpoint, in a buffer of a fixed size.

ghost use Rattle.std.specs.Prelude.{◌≡◌, ◌+◌, ◌*◌, ◌<◌, ◌≤◌, ◌++◌, length, decimal};
ghost use Rattle.std.specs.Char.{digit_char};
ghost use Rattle.std.specs.Net.Addr.{segments_of};
ghost use Rattle.std.specs.Net.Text as net;
ghost use Rattle.arrayvec.specs.ArrayVec.{array_vec_len};
ghost use Rattle.tcp_segment.specs.EndpointText.{address_text, endpoint_text, IsLongestRun};

use crate::endpoint::{Address, Endpoint};
use arrayvec::ArrayVec;
use itoa::Buffer;
use std::net::Ipv6Addr;

/// How many octets an endpoint's text has room for: enough for the text of any endpoint.
pub const TEXT_ROOM: usize = 50;

/// The text of an endpoint.
pub type EndpointText = ArrayVec<u8, TEXT_ROOM>;

/// Adds octets to the text.
fn put(out: &mut EndpointText, text: &[u8])
    requires room { array_vec_len out.old + length text.now ≤ TEXT_ROOM }
    ensures put { out.new.items ≡ out.old.items ++ text.now }
    ensures len { array_vec_len out.new ≡ array_vec_len out.old + length text.now }
{
    for octet in text {
        out.push(*octet);
    }
}

/// Adds a decimal number to the text.
fn put_number(out: &mut EndpointText, n: u16)
    requires room { array_vec_len out.old + 5 ≤ TEXT_ROOM }
    ensures put { out.new.items ≡ out.old.items ++ decimal n }
    ensures len { array_vec_len out.new ≤ array_vec_len out.old + 5 }
{
    put(out, Buffer::new().format(n).as_bytes());
}

/// Adds four decimal numbers with dots between them to the text.
fn put_v4(out: &mut EndpointText, octets: [u8; 4])
    requires room { array_vec_len out.old + 23 ≤ TEXT_ROOM }
    ensures put { out.new.items ≡ out.old.items ++ net.ipv4_text octets }
    ensures len { array_vec_len out.new ≤ array_vec_len out.old + 23 }
{
    let [a, b, c, d] = octets;
    put_number(out, u16::from(a));
    out.push(b'.');
    put_number(out, u16::from(b));
    out.push(b'.');
    put_number(out, u16::from(c));
    out.push(b'.');
    put_number(out, u16::from(d));
}

/// The hexadecimal digit of a number.
fn hex_digit(digit: u16) -> u8
    requires { digit < 16 }
    ensures { result ≡ digit_char digit }
{
    if digit < 10 {
        b'0' + digit as u8
    } else {
        b'a' + (digit - 10) as u8
    }
}

/// How many of a group's four digits are leading zeros. The last digit never counts as one.
fn leading_zeros(group: u16) -> usize
    ensures value { result ≡ net.leading_zero_digits group }
    ensures within { result < 4 }
{
    match group {
        0x1000.. => 0,
        0x100.. => 1,
        0x10.. => 2,
        _ => 3,
    }
}

/// Adds a group in hexadecimal to the text, without leading zeros.
#[tactic(auto, unfolding(std::specs::Net::Text::hex))]
fn put_group(out: &mut EndpointText, group: u16)
    requires room { array_vec_len out.old + 4 ≤ TEXT_ROOM }
    ensures put { out.new.items ≡ out.old.items ++ net.hex group }
    ensures len { array_vec_len out.new ≤ array_vec_len out.old + 4 }
{
    let digits = [
        hex_digit(group / 0x1000),
        hex_digit(group / 0x100 % 16),
        hex_digit(group / 0x10 % 16),
        hex_digit(group % 16),
    ];
    put(out, &digits[leading_zeros(group)..]);
}

/// Adds groups with colons between them to the text.
fn put_groups(out: &mut EndpointText, groups: &[u16])
    requires room { array_vec_len out.old + 5 * length groups.now ≤ TEXT_ROOM }
    ensures put { out.new.items ≡ out.old.items ++ net.groups_text groups.now }
    ensures len { array_vec_len out.new ≤ array_vec_len out.old + 5 * length groups.now }
{
    if let [first, rest @ ..] = groups {
        put_group(out, *first);
        for group in rest {
            out.push(b':');
            put_group(out, *group);
        }
    }
}

/// The index at which the longest run of zero groups begins, and its length. If several are equally long, it is the first
/// of them.
#[tactic(auto, using(crate::proofs::ZeroRuns::is_longest))]
fn longest_zero_run(groups: &[u16]) -> (usize, usize)
    ensures value { result ≡ net.longest_zero_run groups.now }
    ensures is { IsLongestRun groups.now result.0 result.1 }
{
    let mut start = groups.len();
    let mut len = 0;
    let mut run = 0;
    for i in (0..groups.len()).rev() {
        run = if groups[i] == 0 { run + 1 } else { 0 };
        if run >= len {
            start = i;
            len = run;
        }
    }
    (start, len)
}

/// Adds the groups of an address to the text, with `::` for the longest run of two or more zero groups.
#[tactic(auto, unfolding(std::specs::Net::Text::hex_groups_text))]
fn put_compressed(out: &mut EndpointText, groups: &[u16])
    requires room { array_vec_len out.old + 5 * length groups.now + 2 ≤ TEXT_ROOM }
    ensures put { out.new.items ≡ out.old.items ++ net.hex_groups_text groups.now }
    ensures len { array_vec_len out.new ≤ array_vec_len out.old + 5 * length groups.now + 2 }
{
    let (start, len) = longest_zero_run(groups);
    if len < 2 {
        put_groups(out, groups);
        return;
    }
    put_groups(out, &groups[..start]);
    put(out, b"::");
    put_groups(out, &groups[start + len..]);
}

/// Adds an IPv6 address to the text. An IPv4-mapped one ends in its IPv4 address.
fn put_v6(out: &mut EndpointText, octets: [u8; 16])
    requires room { array_vec_len out.old + 42 ≤ TEXT_ROOM }
    ensures put { out.new.items ≡ out.old.items ++ net.ipv6_text (segments_of octets) }
    ensures len { array_vec_len out.new ≤ array_vec_len out.old + 42 }
{
    let address = Ipv6Addr::from_octets(octets);
    match address.to_ipv4_mapped() {
        Some(mapped) => {
            put(out, b"::ffff:");
            put_v4(out, mapped.octets());
        }
        None => put_compressed(out, &address.segments()),
    }
}

/// Adds an address to the text, an IPv6 address between brackets.
fn put_address(out: &mut EndpointText, address: Address)
    requires room { array_vec_len out.old + 44 ≤ TEXT_ROOM }
    ensures put { out.new.items ≡ out.old.items ++ address_text address }
    ensures len { array_vec_len out.new ≤ array_vec_len out.old + 44 }
{
    match address {
        Address::V4(octets) => put_v4(out, octets),
        Address::V6(octets) => {
            out.push(b'[');
            put_v6(out, octets);
            out.push(b']');
        }
    }
}

/// The text of an endpoint: `192.0.2.1:2809`, `[2001:db8::1]:2809`, `[::ffff:192.0.2.1]:2809`.
#[tactic(auto, unfolding(crate::specs::EndpointText::endpoint_text))]
pub fn endpoint_text(endpoint: Endpoint) -> EndpointText
    ensures { result.items ≡ endpoint_text endpoint }
{
    let mut out = ArrayVec::new();
    put_address(&mut out, endpoint.address);
    out.push(b':');
    put_number(&mut out, endpoint.port);
    out
}
