//! Segments and endpoints, compared with the rows of the tables.

use arrayvec::ArrayString;
use std::fmt::{self, Write};
use std::str;
use tcp_segment::{Address, Endpoint, Segment, endpoint_text, segment};

/// Room for the octets of a row.
const ROOM: usize = 512;

/// A text of at most 1,024 octets.
type Line = ArrayString<1024>;

/// The octets that words of hexadecimal digits spell, in this room. There are none if a word
/// doesn't spell octets, or if the octets don't fit.
pub fn octets_of<'a>(text: &str, room: &'a mut [u8; ROOM]) -> Option<&'a [u8]> {
    let mut len = 0;
    for word in text.split(' ') {
        let size = word.len() / 2;
        if ROOM - len < size {
            return None;
        }
        hex::decode_to_slice(word.as_bytes(), &mut room[len..len + size]).ok()?;
        len += size;
    }
    Some(&room[..len])
}

fn write_endpoint(line: &mut Line, endpoint: Endpoint) -> fmt::Result {
    let text = endpoint_text(endpoint);
    line.write_str(str::from_utf8(&text).map_err(|_| fmt::Error)?)
}

fn write_numbers(line: &mut Line, segment: &Segment<'_>) -> fmt::Result {
    let sequence = segment.sequence;
    match segment.acknowledgement {
        Some(acknowledgement) => write!(line, " {sequence} {acknowledgement} "),
        None => write!(line, " {sequence} - "),
    }
}

fn flags_of(segment: &Segment<'_>) -> &'static str {
    match (segment.syn, segment.fin, segment.reset) {
        (false, false, false) => ".",
        (true, false, false) => "S",
        (false, true, false) => "F",
        (false, false, true) => "R",
        (true, true, false) => "SF",
        (true, false, true) => "SR",
        (false, true, true) => "FR",
        (true, true, true) => "SFR",
    }
}

fn write_payload(line: &mut Line, payload: &[u8]) -> fmt::Result {
    if payload.is_empty() {
        return line.write_str(" .");
    }
    line.write_str(" ")?;
    for octet in payload {
        write!(line, "{octet:02x}")?;
    }
    Ok(())
}

/// Writes a segment as its row shows it.
fn write_segment(line: &mut Line, segment: &Segment<'_>) -> fmt::Result {
    write_endpoint(line, segment.flow.from)?;
    line.write_str(" > ")?;
    write_endpoint(line, segment.flow.to)?;
    write_numbers(line, segment)?;
    line.write_str(flags_of(segment))?;
    write_payload(line, segment.payload)
}

/// Whether a packet of this link type has the segment that is wanted.
fn has_segment(link: u16, octets: &[u8], wanted: &str) -> bool {
    match segment(link, octets) {
        None => wanted == "none",
        Some(segment) => {
            let mut line = Line::new();
            write_segment(&mut line, &segment).is_ok() && line.as_str() == wanted
        }
    }
}

/// Whether the packet of a row has the segment of the row.
pub fn is_segment_row(row: &str) -> Option<bool> {
    let mut parts = row.split('|');
    let _name = parts.next()?;
    let link = parts.next()?.parse().ok()?;
    let mut room = [0; ROOM];
    let octets = octets_of(parts.next()?, &mut room)?;
    Some(has_segment(link, octets, parts.next()?))
}

/// The address that octets spell.
fn address_of(octets: &[u8]) -> Option<Address> {
    if let Ok(octets) = <[u8; 4]>::try_from(octets) {
        return Some(Address::V4(octets));
    }
    Some(Address::V6(<[u8; 16]>::try_from(octets).ok()?))
}

/// The endpoint of a row, and the text in that row.
pub fn endpoint_row(row: &str) -> Option<(Endpoint, &str)> {
    let mut parts = row.split('|');
    let mut room = [0; ROOM];
    let address = address_of(octets_of(parts.next()?, &mut room)?)?;
    let port = parts.next()?.parse().ok()?;
    Some((Endpoint { address, port }, parts.next()?))
}
