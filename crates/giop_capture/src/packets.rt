//! What the packets of a capture do to its flows.

ghost use Rattle.std.specs.Prelude.{◌≡◌, ◌<◌, ◌≤◌, ◌+◌, ◌^◌, List, ℕ, [], ◌∷◌, ◌++◌, length, IfOk, OnOk, OnErr};
ghost use Rattle.tcp_segment.specs.Segments.{segment_view};
ghost use Rattle.tcp_segment.specs.Links.{is_link_read as spec_is_link_read};
ghost use Rattle.capture_file.specs.FaultWords.{fault_word};
ghost use Rattle.tcp_flow.specs.Flow.{Event, HasFault};
ghost use Rattle.tcp_connections.specs.Connections.{State, with_capture_event, step, ended};
ghost use Rattle.tcp_connections.specs.State.{IsState, IsAt, HasState, Makes};
ghost use Rattle.giop_capture.specs.Packets.{PacketView};
ghost use Rattle.giop_capture.specs.Arrivals.{link_notices, links_noted};
ghost use Rattle.giop_capture.specs.declared.notices.Notice.{Notice};
ghost use Rattle.giop_capture.specs.PacketState.{HasRead};

use crate::links::UnreadLinks;
use crate::listening::{CaptureListener, PacketListener};
use crate::notices::{Notice, Notices, tell_new};
use capture_file::{CaptureFault, Packet};
use giop_print::OutFault;
use tcp_connections::Connections;
use tcp_flow::ListenerError;
use tcp_segment::{is_link_read, segment};
use tcp_streams::Streams;

/// Reads the packets of a capture. One listener is told of their times, and of what their segments do to the connections.
/// Another one is told what isn't read, and what there is no room for.
#[derive(Drop)]
pub struct PacketReader<L: CaptureListener + Drop, N: Notices + Drop> {
    connections: Connections,
    streams: Streams<L>,
    unread: UnreadLinks,
    notices: N,
}

/// The answer of a listener as the answer of an out: each has one way to fail.
fn as_out_result(answer: Result<(), ListenerError>) -> Result<(), OutFault>
    ensures { result ≡ elim answer [ Ok value ↦ Ok value | Err fault ↦ Err (record {}) ] }
{
    match answer {
        Ok(()) => Ok(()),
        Err(ListenerError) => Err(OutFault),
    }
}

/// Gives a notice of a link type that isn't read, when its first packet comes.
fn note_link<N: Notices>(unread: &mut UnreadLinks, notices: &mut N, link: u16)
    ensures items { unread.new.noted.items ≡ links_noted unread.old.noted.items link }
    ensures told { (told : List Notice) → N.told notices.old told
        → N.told notices.new (told ++ link_notices unread.old.noted.items link) }
{
    if !is_link_read(link) && unread.note_new(link) {
        notices.tell(Notice::UnreadLink(link));
    }
}

impl<L: CaptureListener + Drop, N: Notices + Drop> PacketReader<L, N> {
    /// Makes a reader that has read no packet and given no notice.
    pub fn new(connections: Connections, streams: Streams<L>, notices: N) -> PacketReader<L, N>
        ensures { (w : State) → IsState (L.observed streams.listener) streams.live.items connections
            w
            → w.segments ≡ 0 → N.told notices []
            → HasRead (L.observed result.streams.listener) (N.told result.notices) L.reader
            result.connections result.streams.live.items result.unread.noted.items w [] }
    {
        PacketReader {
            connections,
            streams,
            unread: UnreadLinks::new(),
            notices,
        }
    }

    /// Tells the listener that the capture has a fault, and ends there.
    pub fn on_fault(&mut self, fault: CaptureFault) -> Result<(), OutFault>
        ensures does { (w : State) → IsState (L.observed self.old.streams.listener)
            self.old.streams.live.items self.old.connections w
            → OnOk result (IsState (L.observed self.new.streams.listener)
            self.new.streams.live.items self.new.connections
            (with_capture_event w (HasFault (fault_word fault.kind) fault.place))) }
        ensures notices { self.new.notices ≡ self.old.notices }
        ensures cause { OnErr result (L.failed self.new.streams.listener) }
    {
        as_out_result(self.streams.listener.on_fault(fault))
    }

    /// Ends the capture: its streams close.
    pub fn end(&mut self) -> Result<(), OutFault>
        requires state { HasState (L.observed self.old.streams.listener)
            self.old.streams.live.items self.old.connections }
        ensures does { (w : State) → IsState (L.observed self.old.streams.listener)
            self.old.streams.live.items self.old.connections w
            → OnOk result (IsAt (L.observed self.new.streams.listener)
            self.new.streams.live.items self.new.connections (ended L.reader w)) }
        ensures notices { self.new.notices ≡ self.old.notices }
        ensures cause { OnErr result (L.failed self.new.streams.listener) }
    {
        as_out_result(self.connections.end(&mut self.streams))
    }

    /// Lets the listener write what is still due, with the number of packets and octets of the capture. Returns whether the
    /// listener was told of a fault, or of a stream that was cut.
    pub fn finish(&mut self, packets: u64, octets: u64) -> Result<bool, OutFault>
        ensures value { IfOk result
            (λ is_faulty. is_faulty ≡ L.faulty self.old.streams.listener) }
        ensures finished { (events : List Event) → L.observed self.old.streams.listener events
            → IfOk result (L.finished self.new.streams.listener events packets octets) }
        ensures flushed { OnOk result (L.flushed self.new.streams.listener) }
        ensures notices { self.new.notices ≡ self.old.notices }
        ensures cause { OnErr result (L.failed self.new.streams.listener) }
    {
        match self.streams.listener.finish(packets, octets) {
            Ok(is_faulty) => Ok(is_faulty),
            Err(ListenerError) => Err(OutFault),
        }
    }

    /// Gives the listener back.
    pub fn into_listener(self) -> L
        ensures { result ≡ self.streams.listener }
    {
        let streams = self.streams;
        streams.listener
    }
}

impl<L: CaptureListener + Drop, N: Notices + Drop> PacketListener for PacketReader<L, N> {
    ghost use Rattle.tcp_connections.specs.Connections.{State};
    ghost use Rattle.giop_capture.specs.PacketState.{HasRead};

    ghost Start = { State };

    ghost taken = { λ r start packets. HasRead (L.observed r.streams.listener) (N.told r.notices)
        L.reader r.connections r.streams.live.items r.unread.noted.items start packets };

    ghost failed = { λ r. L.failed r.streams.listener };

    ghost flushed = { λ r. L.flushed r.streams.listener };

    fn on_packet(&mut self, packet: Packet<'_>) -> Result<(), OutFault> {
        self.connections.begin_packet(packet.time);
        note_link(&mut self.unread, &mut self.notices, packet.link);
        let Some(segment) = segment(packet.link, packet.octets) else {
            return Ok(());
        };
        let before = self.streams.listener.seen();
        as_out_result(self.connections.take(segment, &mut self.streams))?;
        let after = self.streams.listener.seen();
        tell_new(before, after, &mut self.notices);
        Ok(())
    }

    fn flush(&mut self) -> Result<(), OutFault> {
        as_out_result(self.streams.listener.flush())
    }
}
