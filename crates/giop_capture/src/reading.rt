//! The packets of a capture, read from a source and given to a listener in their order.

ghost use Rattle.std.specs.Prelude.{◌≡◌, ◌≢◌, ◌⊎◌, ◌+◌, ◌<◌, ◌≤◌, ◌^◌, List, ℕ, [], ◌∷◌, ◌++◌, length, OnOk, OnErr, IfOk, IfErr, Err};
ghost use Rattle.capture_file.specs.CaptureState.{Reads, octets_of};
ghost use Rattle.giop_capture.specs.Packets.{PacketView, capture_packets, packet_view, HasTakenAllRead, HasGivenUpToFault, HasReadOnce, Ran};
ghost use Rattle.giop_print.specs.Output.{saturating_next};

use crate::listening::PacketListener;
use capture_file::{Capture, Progress};
use giop_print::OutFault;
use giop_run::{RunFault, Source};

/// The greatest number of reads: 2^40.
const TURNS: u64 = 1 << 40;

/// The greatest number of octets that a read may give.
const ROOM: usize = 16_384;

/// Gives the listener the packets that these octets complete. Returns whether the reading goes on. It doesn't after a fault
/// of the capture: no more octets of the capture are read then.
fn give_packets<L: PacketListener>(
    capture: &mut Capture,
    octets: &[u8],
    to: &mut L,
) -> Result<bool, OutFault>
    requires room { octets_of capture.old + length octets.now < 2 ^ 63 }
    requires taken { HasTakenAllRead L.taken to.old capture.old }
    ensures does { (start : L.Start) (p : List ℕ) → Reads capture.old p
        → L.taken to.old start (capture_packets p) → IfOk result (λ goes_on.
        HasGivenUpToFault goes_on (L.taken to.new start) capture.new p octets.now) }
    ensures count { OnOk result
        (octets_of capture.new ≤ octets_of capture.old + length octets.now) }
    ensures cause { OnErr result (L.failed to.new) }
{
    let mut rest = octets;
    loop {
        match capture.take(rest) {
            (count, Progress::Packet) => {
                to.on_packet(capture.packet(rest))?;
                rest = &rest[count..];
            }
            (_, Progress::More) => return Ok(true),
            (_, Progress::Fault(_)) => return Ok(false),
        }
    }
}

/// Reads once, and gives the listener the packets that the read completes. Returns whether the reading goes on.
fn read_once<S: Source, L: PacketListener>(
    source: &mut S,
    capture: &mut Capture,
    to: &mut L,
    buffer: &mut [u8; ROOM],
) -> Result<bool, RunFault>
    requires room { octets_of capture.old < 2 ^ 62 }
    requires taken { HasTakenAllRead L.taken to.old capture.old }
    ensures does { (start : L.Start) (p : List ℕ) → Reads capture.old p
        → L.taken to.old start (capture_packets p)
        → (s : List ℕ) × HasReadOnce result (L.taken to.new start) capture.new p s
        (S.log source.old) (S.log source.new) }
    ensures count { OnOk result (octets_of capture.new ≤ octets_of capture.old + 16_384) }
    ensures reads { (S.log source.new).reads ≡ saturating_next (S.log source.old).reads }
    ensures cause { result ≡ Err RunFault.Out → L.failed to.new }
    ensures kept { result ≡ Err RunFault.Read → to.new ≡ to.old }
    ensures ends { result ≢ Err RunFault.Turns }
{
    let Ok(given) = source.read(buffer) else {
        return Err(RunFault::Read);
    };
    if given == 0 {
        return Ok(false);
    }
    match give_packets(capture, &buffer[..given], to) {
        Ok(goes_on) => Ok(goes_on),
        Err(_) => Err(RunFault::Out),
    }
}

/// Flushes the listener.
fn flush<L: PacketListener>(to: &mut L) -> Result<(), RunFault>
    ensures flushed { (start : L.Start) (packets : List PacketView) → L.taken to.old start packets
        → OnOk result (L.taken to.new start packets) }
    ensures seen { OnOk result (L.flushed to.new) }
    ensures cause { IfErr result (λ fault. (fault ≡ RunFault.Out) × L.failed to.new) }
{
    match to.flush() {
        Ok(()) => Ok(()),
        Err(_) => Err(RunFault::Out),
    }
}

/// Reads a capture from a source, from the beginning, and gives its packets to the listener, up to the end of the source or
/// to a fault of the capture. The listener is flushed before each read.
pub fn read_packets<S: Source, L: PacketListener>(
    source: &mut S,
    capture: &mut Capture,
    to: &mut L,
) -> Result<(), RunFault>
    requires start { Reads capture.old [] }
    requires taken { (start : L.Start) × L.taken to.old start [] }
    ensures ran { (start : L.Start) → L.taken to.old start []
        → (s : List ℕ) × Ran result (L.taken to.new start) capture.new s
        (S.log source.old) (S.log source.new) }
    ensures cause { result ≡ Err RunFault.Out → L.failed to.new }
    ensures flushed { (result ≡ Err RunFault.Read) ⊎ (result ≡ Err RunFault.Turns) →
        L.flushed to.new }
    ensures reads { (S.log source.new).reads ≤ (S.log source.old).reads + 2 ^ 40 }
{
    let mut buffer = [0; ROOM];
    for _turn in 0..TURNS {
        flush(to)?;
        if !read_once(source, capture, to, &mut buffer)? {
            return Ok(());
        }
    }
    flush(to)?;
    Err(RunFault::Turns)
}
