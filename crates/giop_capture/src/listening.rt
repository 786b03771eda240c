//! The traits of whoever takes the packets of a capture, and of whoever is told what happens in it.

ghost use Rattle.std.specs.Prelude.{◌≡◌, ◌<◌, ◌≤◌, ◌^◌, List, ℕ, [], ◌∷◌, ◌++◌, length, Bool, IfOk, OnOk, OnErr};

use crate::notices::Seen;
use capture_file::{CaptureFault, Packet};
use giop_print::OutFault;
use tcp_flow::{Listener, ListenerError};

/// Something that takes the packets of a capture.
pub trait PacketListener {
    ghost use Rattle.giop_capture.specs.Packets.{PacketView, packet_view};

    /// What the listener began with.
    ghost Start: { Type 0 };

    /// From this start on, the listener has taken these packets, in this order. It is a relation, so that a listener may
    /// forget packets.
    ghost taken: { Self → Start → List PacketView → Type 0 };

    /// The listener has failed. From then on nothing is promised.
    ghost failed: { Self → Type 0 };

    /// All that the listener has written can be seen.
    ghost flushed: { Self → Type 0 };

    /// Takes the next packet. It has at most 262,144 octets, and fewer than 2^63 packets were taken before.
    fn on_packet(&mut self, packet: Packet<'_>) -> Result<(), OutFault>
        requires taken { (start : Start) × (packets : List PacketView)
            × taken self.old start packets × (length packets < 2 ^ 63) }
        requires whole { length packet.octets.now ≤ 262_144 }
        ensures does { (start : Start) (packets : List PacketView) → taken self.old start packets
            → OnOk result (taken self.new start (packets ++ packet_view packet.entry ∷ [])) }
        ensures cause { OnErr result (failed self.new) };

    /// Makes sure that what was written can be seen, because the program is about to wait for more octets of the capture.
    fn flush(&mut self) -> Result<(), OutFault>
        ensures does { (start : Start) (packets : List PacketView) → taken self.old start packets
            → OnOk result (taken self.new start packets) }
        ensures flushed { OnOk result (flushed self.new) }
        ensures cause { OnErr result (failed self.new) };
}

/// Something that is told of the packets of a capture and of its fault, in addition to what happens in its flows.
pub trait CaptureListener: Listener {
    ghost use Rattle.tcp_flow.specs.Flow.{Event, OfCapture, HasFault};
    ghost use Rattle.capture_file.specs.FaultWords.{fault_word};
    ghost use Rattle.giop_capture.specs.Notices.{seen};

    /// All that the listener has written can be seen.
    ghost flushed: { Self → Type 0 };

    /// Whether the listener was told of a fault, or of a stream that was cut.
    ghost faulty: { Self → Bool };

    /// The listener has observed these events, and then the capture has ended, with this number of packets and of octets.
    /// The Bool tells whether there was a fault, or a stream that was cut.
    ghost finished: { Self → List Event → ℕ → ℕ → Bool → Type 0 };

    /// What was seen until now that needs a notice.
    fn seen(&self) -> Seen
        ensures { (events : List Event) → Self.observed self.now events
            → result ≡ seen events };

    /// Takes note that the capture has a fault, and ends there.
    fn on_fault(&mut self, fault: CaptureFault) -> Result<(), ListenerError>
        ensures does { (events : List Event) → Self.observed self.old events
            → OnOk result (Self.observed self.new
            (events ++ OfCapture (HasFault (fault_word fault.kind) fault.place) ∷ [])) }
        ensures cause { OnErr result (Self.failed self.new) };

    /// Makes sure that what was written can be seen, because the program is about to wait for more octets of the capture.
    fn flush(&mut self) -> Result<(), ListenerError>
        ensures does { (events : List Event) → Self.observed self.old events
            → OnOk result (Self.observed self.new events) }
        ensures flushed { OnOk result (flushed self.new) }
        ensures cause { OnErr result (Self.failed self.new) };

    /// Ends the capture, which has this number of packets and of octets: writes what is still due, and makes sure that it
    /// can be seen. Returns whether the listener was told of a fault, or of a stream that was cut.
    fn finish(&mut self, packets: u64, octets: u64) -> Result<bool, ListenerError>
        ensures value { IfOk result (λ is_faulty. is_faulty ≡ faulty self.old) }
        ensures finished { (events : List Event) → Self.observed self.old events
            → IfOk result (finished self.new events packets octets) }
        ensures flushed { OnOk result (flushed self.new) }
        ensures cause { OnErr result (Self.failed self.new) };
}
