//! Captures as their rows spell them, and their outcomes.

ghost use Rattle.std.specs.Prelude.{◌<◌};

use capture_file::{Capture, Packet, Progress};
use std::alloc::{AllocError, Global};
use std::fmt::{self, Write};
use std::test::Fail;

/// No capture of a row has more octets.
const MOST: u64 = 1_000_000;

/// Appends the octets that hexadecimal digits give.
fn put_digits(octets: &mut Vec<u8>, digits: &str) -> Result<(), AllocError> {
    let mut high = None;
    for digit in digits.chars() {
        let digit = digit.to_digit(16).unwrap_or(0);
        match high.take() {
            None => high = Some(digit),
            // A digit is below 16. The remainders show that to the checker.
            Some(first) => octets.push((first % 16 * 16 + digit % 16) as u8)?,
        }
    }
    Ok(())
}

/// The octets that words spell; `ff*8` stands for eight of the same.
pub fn octets_of(alloc: Global, text: &str) -> Result<Vec<u8>, Fail> {
    let mut octets = Vec::new(alloc);
    for word in text.split(' ') {
        match word.split_once('*') {
            None => put_digits(&mut octets, word)?,
            Some((octet, count)) => {
                let octet = u8::from_str_radix(octet, 16)?;
                let count: u32 = count.parse()?;
                for _ in 0..count {
                    octets.push(octet)?;
                }
            }
        }
    }
    Ok(octets)
}

/// Writes a packet as its row shows it, with the number of octets that the capture has up to the
/// packet's last.
fn write_packet(text: &mut String, place: u64, packet: Packet<'_>) -> fmt::Result {
    let link = packet.link;
    match packet.time {
        Some(time) => write!(text, "{place} {link} {time} ")?,
        None => write!(text, "{place} {link} - ")?,
    }
    for octet in packet.octets {
        write!(text, "{octet:02x}")?;
    }
    text.write_str("; ")
}

/// Takes a piece of a capture, and writes the packets that it completes.
fn take_piece(capture: &mut Capture, piece: &[u8], text: &mut String) -> fmt::Result {
    let mut rest = piece;
    while capture.octets() < MOST {
        match capture.take(rest) {
            (count, Progress::Packet) => {
                write_packet(text, capture.octets(), capture.packet(rest))?;
                rest = &rest[count..];
            }
            _ => return Ok(()),
        }
    }
    Err(fmt::Error)
}

/// The outcome of a capture that is taken in pieces of this size, as its row shows it.
pub fn outcome_of(alloc: Global, octets: &[u8], size: usize) -> Result<String, Fail>
    requires { 0 < size }
{
    let mut text = String::new(alloc);
    let mut capture = Capture::new(alloc)?;
    for piece in octets.chunks(size) {
        take_piece(&mut capture, piece, &mut text)?;
    }
    match capture.finish() {
        Some(fault) => write!(text, "{fault}")?,
        None => text.write_str("-")?,
    }
    Ok(text)
}

/// Whether the capture of a row has the outcome of the row, if it is taken in pieces of this size.
pub fn is_row(alloc: Global, row: &str, size: usize) -> Result<bool, Fail>
    requires { 0 < size }
{
    let mut parts = row.split('|');
    let (Some(_), Some(capture), Some(wanted)) = (parts.next(), parts.next(), parts.next()) else {
        return Ok(false);
    };
    let octets = octets_of(alloc, capture)?;
    let outcome = outcome_of(alloc, &octets, size)?;
    Ok(outcome.as_str() == wanted)
}
