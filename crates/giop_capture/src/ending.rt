//! Reading a capture from its first packet to its end.

ghost use Rattle.std.specs.Prelude.{◌≡◌, ◌≢◌, ◌⊎◌, ◌≤◌, ◌+◌, ◌^◌, List, ℕ, [], length, Err, IfOk, IfErr, OnOk, OnErr};
ghost use Rattle.capture_file.specs.CaptureState.{Reads};
ghost use Rattle.capture_file.specs.Reading.{packets, final_fault};
ghost use Rattle.tcp_flow.specs.Flow.{Event};
ghost use Rattle.tcp_connections.specs.Connections.{State, ended};
ghost use Rattle.tcp_connections.specs.State.{HasState, IsState, IsAt};
ghost use Rattle.giop_capture.specs.Packets.{Ran};
ghost use Rattle.giop_capture.specs.Arrivals.{with_fault};
ghost use Rattle.giop_capture.specs.PacketState.{HasRead};
ghost use Rattle.giop_capture.specs.CaptureRun.{CaptureRan, DumpedWholeCapture, ending_of};

use crate::listening::CaptureListener;
use crate::notices::Notices;
use crate::packets::PacketReader;
use crate::reading::read_packets;
use capture_file::{Capture, CaptureFault, FaultKind, OtherFile};
use giop_print::OutFault;
use giop_run::{RunFault, Source};

/// Reads a capture from a source, from the beginning to the end: up to the end of the source, or up to the capture's fault,
/// after which nothing is read. If there is a fault, the listener is told of it before the streams close. Returns the
/// fault.
pub fn read_capture<S: Source, L: CaptureListener + Drop, N: Notices + Drop>(
    source: &mut S,
    capture: &mut Capture,
    reader: &mut PacketReader<L, N>,
) -> Result<Option<CaptureFault>, RunFault>
    requires start { Reads capture.old [] }
    requires reader { (w : State) × HasRead (L.observed reader.old.streams.listener)
        (N.told reader.old.notices) L.reader reader.old.connections
        reader.old.streams.live.items reader.old.unread.noted.items w [] }
    ensures ran { (w : State) → HasRead (L.observed reader.old.streams.listener)
        (N.told reader.old.notices) L.reader reader.old.connections
        reader.old.streams.live.items reader.old.unread.noted.items w []
        → (s : List ℕ) × CaptureRan result
        (HasRead (L.observed reader.new.streams.listener) (N.told reader.new.notices) L.reader
        reader.new.connections reader.new.streams.live.items reader.new.unread.noted.items w)
        (L.observed reader.new.streams.listener) (N.told reader.new.notices) L.reader
        reader.new.connections reader.new.streams.live.items capture.new w s
        (S.log source.old) (S.log source.new) }
    ensures cause { result ≡ Err RunFault.Out → L.failed reader.new.streams.listener }
    ensures flushed { (result ≡ Err RunFault.Read) ⊎ (result ≡ Err RunFault.Turns)
        → L.flushed reader.new.streams.listener }
    ensures reads { (S.log source.new).reads ≤ (S.log source.old).reads + 2 ^ 40 }
{
    read_packets(source, capture, reader)?;
    match end_capture(capture, reader) {
        Ok(fault) => Ok(fault),
        Err(_) => Err(RunFault::Out),
    }
}

/// How the dump of a capture ended, if the capture was read to its end.
#[derive(Clone, Copy, Debug, PartialEq, Eq)]
pub enum Ending {
    /// No fault was counted, and no stream was cut.
    Whole,
    /// A fault of a message, of a stream or of the capture was counted, or a stream was cut.
    Faulty,
    /// The source doesn't begin as a capture does, but as this other file does.
    NoCapture(OtherFile),
}

/// Reads a capture from a source, from the beginning to the end, and writes all that is due. Returns how the dump ended.
pub fn dump_capture<S: Source, L: CaptureListener + Drop, N: Notices + Drop>(
    source: &mut S,
    capture: &mut Capture,
    reader: &mut PacketReader<L, N>,
) -> Result<Ending, RunFault>
    requires start { Reads capture.old [] }
    requires reader { (w : State) × HasRead (L.observed reader.old.streams.listener)
        (N.told reader.old.notices) L.reader reader.old.connections
        reader.old.streams.live.items reader.old.unread.noted.items w [] }
    ensures dumped { (w : State) → HasRead (L.observed reader.old.streams.listener)
        (N.told reader.old.notices) L.reader reader.old.connections
        reader.old.streams.live.items reader.old.unread.noted.items w []
        → IfOk result (λ ending. DumpedWholeCapture ending L.observed L.finished L.faulty L.reader
        (N.told reader.new.notices) capture.new w (S.log source.old) (S.log source.new)
        reader.new.streams.listener) }
    // If a read failed, or the reads were used up, the listener has taken the packets that came until then, and the capture
    // hasn't ended.
    ensures stopped { (w : State) → HasRead (L.observed reader.old.streams.listener)
        (N.told reader.old.notices) L.reader reader.old.connections
        reader.old.streams.live.items reader.old.unread.noted.items w []
        → IfErr result (λ fault. (s : List ℕ) × Ran (Err fault)
        (HasRead (L.observed reader.new.streams.listener) (N.told reader.new.notices) L.reader
        reader.new.connections reader.new.streams.live.items reader.new.unread.noted.items w)
        capture.new s (S.log source.old) (S.log source.new)) }
    ensures flushed { OnOk result (L.flushed reader.new.streams.listener) }
    ensures seen { (result ≡ Err RunFault.Read) ⊎ (result ≡ Err RunFault.Turns)
        → L.flushed reader.new.streams.listener }
    ensures cause { result ≡ Err RunFault.Out → L.failed reader.new.streams.listener }
    ensures sound { result ≢ Err RunFault.Failed }
    ensures reads { (S.log source.new).reads ≤ (S.log source.old).reads + 2 ^ 40 }
{
    match read_capture(source, capture, reader) {
        Ok(fault) => finish_dump(fault, capture, reader),
        Err(why) => Err(why),
    }
}

/// Writes what is still due after a capture has ended, by its fault if it has one. Returns how the dump ended.
fn finish_dump<L: CaptureListener + Drop, N: Notices + Drop>(
    fault: Option<CaptureFault>,
    capture: &Capture,
    reader: &mut PacketReader<L, N>,
) -> Result<Ending, RunFault>
    ensures ends { IfOk result
        (λ ending. ending ≡ ending_of fault (L.faulty reader.old.streams.listener)) }
    ensures last { (p : List ℕ) (events : List Event) → Reads capture.now p
        → L.observed reader.old.streams.listener events
        → OnOk result (L.finished reader.new.streams.listener events (length (packets p)) (length p)
        (L.faulty reader.old.streams.listener)) }
    ensures notices { reader.new.notices ≡ reader.old.notices }
    ensures flushed { OnOk result (L.flushed reader.new.streams.listener) }
    ensures cause { IfErr result (λ why.
        (why ≡ RunFault.Out) × L.failed reader.new.streams.listener) }
{
    match reader.finish(capture.packets(), capture.octets()) {
        Ok(is_faulty) => Ok(ending_of(fault, is_faulty)),
        Err(_) => Err(RunFault::Out),
    }
}

/// How a dump ended, by the fault of the capture, and by whether the listener was told of any fault.
fn ending_of(fault: Option<CaptureFault>, is_faulty: bool) -> Ending
    ensures { result ≡ ending_of fault is_faulty }
{
    match fault {
        Some(
            CaptureFault {
                kind: FaultKind::Magic(file),
                ..
            },
        ) => Ending::NoCapture(file),
        _ if is_faulty => Ending::Faulty,
        _ => Ending::Whole,
    }
}

/// Ends a capture: tells the listener of its fault, if it has one, and then closes its streams. Returns the fault.
fn end_capture<L: CaptureListener + Drop, N: Notices + Drop>(
    capture: &Capture,
    reader: &mut PacketReader<L, N>,
) -> Result<Option<CaptureFault>, OutFault>
    requires state { HasState (L.observed reader.old.streams.listener)
        reader.old.streams.live.items reader.old.connections }
    ensures ended { (p : List ℕ) (w : State) → Reads capture.now p
        → IsState (L.observed reader.old.streams.listener) reader.old.streams.live.items
        reader.old.connections w → IfOk result (λ fault. (fault ≡ final_fault p)
        × IsAt (L.observed reader.new.streams.listener) reader.new.streams.live.items
        reader.new.connections (ended L.reader (with_fault w (final_fault p)))) }
    ensures notices { reader.new.notices ≡ reader.old.notices }
    ensures cause { OnErr result (L.failed reader.new.streams.listener) }
{
    let fault = capture.finish();
    tell_fault(fault, reader)?;
    reader.end()?;
    Ok(fault)
}

/// Tells the listener of the fault of the capture, if it has one.
fn tell_fault<L: CaptureListener + Drop, N: Notices + Drop>(
    fault: Option<CaptureFault>,
    reader: &mut PacketReader<L, N>,
) -> Result<(), OutFault>
    ensures does { (w : State) → IsState (L.observed reader.old.streams.listener)
        reader.old.streams.live.items reader.old.connections w
        → OnOk result (IsState (L.observed reader.new.streams.listener)
        reader.new.streams.live.items reader.new.connections (with_fault w fault)) }
    ensures notices { reader.new.notices ≡ reader.old.notices }
    ensures cause { OnErr result (L.failed reader.new.streams.listener) }
{
    match fault {
        Some(fault) => reader.on_fault(fault),
        None => Ok(()),
    }
}
