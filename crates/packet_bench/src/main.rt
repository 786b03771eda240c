//! Counts what a capture on standard input has: packets, TCP segments, octets of their payloads,
//! and octets of the capture. Prints these with the fault that ends the reading. It measures how
//! long the reading of captures takes.
#![tactic(auto)]

ghost use Rattle.capture_file.specs.CaptureState.{PacketIsIn};

use capture_file::{Capture, Progress};
use std::io::{self, Read};
use tcp_segment::segment;

/// The greatest number of reads: 2^40.
const TURNS: u64 = 1 << 40;

/// The most octets that a read may give.
const ROOM: usize = 65_536;

/// At most this many octets of a capture are read: 2^63.
const MOST: u64 = 1 << 63;

/// How many TCP segments a capture has, and how many octets their payloads have.
#[derive(Clone, Copy)]
struct Counts {
    segments: u64,
    payload: u64,
}

/// Counts the TCP segment of the packet that the capture has just completed, if it has one, and the
/// octets of its payload. The packet stands in what was given to the capture last, or in what it holds.
fn count_segment(capture: &Capture, given: &[u8], counts: &mut Counts)
    requires { PacketIsIn capture.now given.now }
{
    let packet = capture.packet(given);
    if let Some(segment) = segment(packet.link, packet.octets) {
        counts.segments = counts.segments.wrapping_add(1);
        counts.payload = counts.payload.wrapping_add(segment.payload.len() as u64);
    }
}

/// Takes octets of a capture, and counts the packets that they complete. Returns whether the
/// reading goes on.
fn take_octets(capture: &mut Capture, octets: &[u8], counts: &mut Counts) -> bool {
    let mut rest = octets;
    while capture.octets() < MOST {
        match capture.take(rest) {
            (count, Progress::Packet) => {
                count_segment(capture, rest, counts);
                rest = &rest[count..];
            }
            (_, Progress::More) => return true,
            (_, Progress::Fault(_)) => return false,
        }
    }
    false
}

/// Reads a capture to its end, or to its fault.
fn read_capture<R: Read>(
    reader: &mut R,
    capture: &mut Capture,
    counts: &mut Counts,
) -> io::Result<()> {
    let mut buffer = [0; ROOM];
    for _turn in 0..TURNS {
        let count = reader.read(&mut buffer)?;
        if count == 0 || !take_octets(capture, &buffer[..count], counts) {
            return Ok(());
        }
    }
    Ok(())
}

fn main(rt: HostRuntime) -> io::Result<()> {
    let Ok(mut capture) = Capture::new(rt.alloc()) else {
        return Err(io::Error::from(io::ErrorKind::OutOfMemory));
    };
    let mut counts = Counts {
        segments: 0,
        payload: 0,
    };
    read_capture(&mut rt.stdin(), &mut capture, &mut counts)?;
    if let Some(fault) = capture.finish() {
        println!(rt; "capture fault {fault}")?;
    }
    let packets = capture.packets();
    let octets = capture.octets();
    let Counts { segments, payload } = counts;
    println!(rt; "packets {packets} segments {segments} payload {payload} octets {octets}")
}
