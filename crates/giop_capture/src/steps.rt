//! The program's steps after the words of its command line: it reads the signatures, opens the capture, takes memory, and
//! reads. The first step that fails decides the status.

ghost use Rattle.std.specs.Prelude.{◌≡◌, ◌<◌, ◌⊎◌, List, ℕ, [], Some, IfOk, IfErr};
ghost use Rattle.std.specs.Io.KnownBytes.{Keeps};
ghost use Rattle.giop_stream.specs.EngineHolds.{IsRequestTableOf};
ghost use Rattle.tcp_connections.specs.Connections.{none_known};
ghost use Rattle.giop_sig.specs.Table.{Table};
ghost use Rattle.giop_conversation.specs.Captured.{Setup};
ghost use Rattle.giop_conversation.specs.DumpWritten.{IsWritten};
ghost use Rattle.giop_conversation.specs.Follows.{Follows};
ghost use Rattle.giop_conversation.specs.Followed.{stream_reader};
ghost use Rattle.giop_run.specs.Files.{NoStream, stream_octets};
ghost use Rattle.giop_run.specs.Joint.{CataloguesOf};
ghost use Rattle.giop_capture.specs.Notices.{seen};
ghost use Rattle.giop_capture.specs.PacketState.{HasRead};
ghost use Rattle.giop_capture.specs.Failures.{fault_of, log_of};
ghost use Rattle.giop_capture.specs.Seen.{SeenWhereReadingFailed};
ghost use Rattle.giop_capture.specs.Steps.{BeginsAs, CaptureDumped, NotDumped, RunFailed, capture_of, signatures_of};

use crate::failure::DumpError;
use crate::laws::each_stream_of_a_capture_is_dumped;
use crate::teller::{Beginning, Teller};
use crate::{Arguments, Ending, Notices, PacketReader, dump_capture, packet_reader};
use capture_file::Capture;
use giop_conversation::{Conversations, Limits};
use giop_print::Flush;
use giop_run::{Inputs, ProgramError, RunFault, Source, joint_catalogue, open_file, requests};
use giop_sig::{Catalogue, Requests};
use std::alloc::{AllocError, Global};

/// Takes the steps after the words of the command line. Returns how the dump ended, and the out that it was put to.
pub fn perform_capture<
    'a,
    R: Inputs + AllocGlobal,
    O: Flush + Drop,
    N: Notices + Drop,
    B: Beginning,
>(rt: &R, asked: Arguments<'a>, out: O, notices: N) -> Result<(Ending, O), DumpError<'a, O>>
    requires told { N.told notices [] }
    requires begins { (C : Table) → CataloguesOf (R.held rt.now) (signatures_of asked) C
        → BeginsAs B.begins asked C (O.log out).written }
    ensures dumped { IfOk result (λ ended. CaptureDumped ended.0 B.begins asked.entry
        (stream_octets (R.held rt.now) (R.given rt.now) (capture_of asked.entry))
        (O.log ended.1).written) }
    ensures flushed { IfOk result (λ ended. O.kept ended.1 ≡ []) }
    ensures refused { IfErr result (λ failure. NotDumped (R.held rt.now) (R.refuses rt.now)
        (stream_octets (R.held rt.now) (R.given rt.now) (capture_of asked.entry))
        B.begins asked.entry (fault_of failure) (log_of O.log failure)) }
    ensures seen { IfErr result (SeenWhereReadingFailed O.log O.kept) }
{
    let catalogue = joint_catalogue(rt, asked.signatures.as_slice())?;
    open_and_dump::<R, O, N, B>(rt, asked, &catalogue, out, notices)
}

/// Takes the steps after the signatures.
fn open_and_dump<'a, R: Inputs + AllocGlobal, O: Flush + Drop, N: Notices + Drop, B: Beginning>(
    rt: &R,
    asked: Arguments<'a>,
    catalogue: &Catalogue,
    out: O,
    notices: N,
) -> Result<(Ending, O), DumpError<'a, O>>
    requires told { N.told notices [] }
    requires begins { BeginsAs B.begins asked catalogue.now (O.log out).written }
    ensures dumped { IfOk result (λ ended. CaptureDumped ended.0 B.begins asked.entry
        (stream_octets (R.held rt.now) (R.given rt.now) (capture_of asked.entry))
        (O.log ended.1).written) }
    ensures flushed { IfOk result (λ ended. O.kept ended.1 ≡ []) }
    ensures refused { IfErr result (λ failure.
        NoStream (R.refuses rt.now) (capture_of asked.entry) (fault_of failure)
        ⊎ RunFailed B.begins asked.entry
        (stream_octets (R.held rt.now) (R.given rt.now) (capture_of asked.entry))
        (fault_of failure) (log_of O.log failure)) }
    ensures seen { IfErr result (SeenWhereReadingFailed O.log O.kept) }
{
    let Some(name) = asked.capture else {
        return dump_from::<_, _, _, _, B>(rt, rt.standard_input(), asked, catalogue, out, notices);
    };
    match open_file(rt, name) {
        Ok(file) => dump_from::<_, _, _, _, B>(rt, file, asked, catalogue, out, notices),
        Err(fault) => Err(DumpError::Step(fault)),
    }
}

/// Takes the steps after the capture was opened.
fn dump_from<
    'a,
    R: Inputs + AllocGlobal,
    S: Source + Drop,
    O: Flush + Drop,
    N: Notices + Drop,
    B: Beginning,
>(
    rt: &R,
    source: S,
    asked: Arguments<'a>,
    catalogue: &Catalogue,
    out: O,
    notices: N,
) -> Result<(Ending, O), DumpError<'a, O>>
    requires told { N.told notices [] }
    requires begins { BeginsAs B.begins asked catalogue.now (O.log out).written }
    ensures dumped { IfOk result (λ ended. CaptureDumped ended.0 B.begins asked.entry
        (S.log source).left (O.log ended.1).written) }
    ensures flushed { IfOk result (λ ended. O.kept ended.1 ≡ []) }
    ensures refused { IfErr result (λ failure.
        NoStream (R.refuses rt.now) (capture_of asked.entry) (fault_of failure)
        ⊎ RunFailed B.begins asked.entry (S.log source).left
        (fault_of failure) (log_of O.log failure)) }
    ensures seen { IfErr result (SeenWhereReadingFailed O.log O.kept) }
{
    each_stream_of_a_capture_is_dumped();
    let mut source = source;
    let requests = requests(rt, None, catalogue)?;
    let Ok(mut capture) = Capture::new(rt.alloc()) else {
        return Err(DumpError::Step(ProgramError::OutOfMemory));
    };
    let Ok(mut reader) = new_dump_reader::<O, N, B>(
        rt.alloc(),
        asked,
        catalogue,
        &requests,
        out,
        notices,
    ) else {
        return Err(DumpError::Step(ProgramError::OutOfMemory));
    };
    let ended = dump_capture(&mut source, &mut capture, &mut reader);
    let teller = reader.into_listener();
    let has_refused = teller.has_refused();
    let out = teller.into_out();
    match ended {
        Ok(ending) => Ok((ending, flush_out(out)?)),
        Err(_) if has_refused => Err(DumpError::Step(ProgramError::OutOfMemory)),
        Err(fault) => Err(DumpError::Run(fault, out)),
    }
}

/// Flushes an out. It has nothing left to write then, or it has failed.
fn flush_out<'a, O: Flush + Drop>(mut out: O) -> Result<O, DumpError<'a, O>>
    ensures put { IfOk result (λ after. Keeps (O.log out).written (O.log after).written) }
    ensures none { IfOk result (λ after. O.kept after ≡ []) }
    ensures refused { IfErr result (λ failure. (after : O)
        × (failure ≡ DumpError.Run RunFault.Out after) × (0 < (O.log after).failures)) }
{
    match out.flush() {
        Ok(()) => Ok(out),
        Err(_) => Err(DumpError::Run(RunFault::Out, out)),
    }
}

/// Takes all memory for the connections and conversations of a capture.
fn new_dump_reader<'c, O: Flush + Drop, N: Notices + Drop, B: Beginning>(
    alloc: Global,
    asked: Arguments<'_>,
    catalogue: &'c Catalogue,
    requests: &'c Requests,
    out: O,
    notices: N,
) -> Result<PacketReader<Teller<'c, O, B>, N>, AllocError>
    requires of { IsRequestTableOf catalogue.now requests.now }
    requires told { N.told notices [] }
    requires begins { BeginsAs B.begins asked catalogue.now (O.log out).written }
    ensures { IfOk result (λ r. HasRead (λ events. Follows r.streams.listener.conversations events
        × ((S : Setup) (written : List ℕ) → B.begins S written
        → IsWritten S written events r.streams.listener.conversations)
        × (r.streams.listener.seen ≡ seen events)) (N.told r.notices)
        stream_reader r.connections r.streams.live.items r.unread.noted.items
        (none_known asked.entry.ports.items asked.entry.pool asked.entry.connections []) []) }
{
    let limits = Limits {
        connections: asked.connections,
        messages: asked.messages,
        calls: asked.calls,
        first_stream: asked.first_stream,
    };
    let Ok(conversations) = Conversations::new(alloc, catalogue, requests, limits, out) else {
        return Err(AllocError);
    };
    packet_reader(alloc, asked, Teller::new(conversations), notices)
}
