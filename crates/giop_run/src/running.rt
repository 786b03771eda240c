//! A run: octets from a source go through an engine to an out, up to the stream's end.

ghost use Rattle.std.specs.Prelude.{◌≡◌, ◌≢◌, ◌⊎◌, ◌+◌, ◌^◌, ◌≤◌, Err, true, false, List, [], ℕ, MatchResult, IfOk, OnOk, IfErr};
ghost use Rattle.giop_print.specs.Output.{saturating_next};
ghost use Rattle.giop_cdr.specs.Numbers.{AreOctets};
ghost use Rattle.giop_stream.specs.EngineHolds.{Holds, rules_of};
ghost use Rattle.giop_run.specs.SourceLog.{ReadGave, ReadFailed};
ghost use Rattle.giop_print.specs.Flushing.{Flushes};
ghost use Rattle.giop_run.specs.Running.{DidNothing, HasKept, Ran, setup_of};
ghost use Rattle.giop_run.specs.RunSteps.{HasFedPiece, HasFedSource, HasReadAndFed, IsOfWriting, FinishedStream, HasEndedRun};

use super::fault::{RunFault, SourceFault};
use super::flush::{BetweenReads, FlushesNothing};
use super::source::Source;
use giop_print::Out;
use giop_stream::{Engine, Status, Stop, Totals};

/// The greatest number of reads: 2^40.
const TURNS: u64 = 1 << 40;

/// The greatest number of octets that a read may give.
const ROOM: usize = 4096;

/// What a run does at its end.
#[derive(Clone, Copy, Debug, PartialEq, Eq)]
pub enum Ending {
    /// The run writes the closing lines.
    Finish,
    /// The run writes no closing lines, and returns its engine. The stream is read on with the engine, or with a checkpoint
    /// that it saves.
    Keep,
}

/// What a run returns.
#[derive(Drop)]
pub struct Report<'a> {
    /// The totals of the stream. With `Ending::Keep` they are the totals of what was read until now.
    pub totals: Totals,
    /// The engine, which holds all that was read, with `Ending::Keep`; none with `Ending::Finish`.
    pub kept: Option<Engine<'a>>,
}

/// Reads the source up to its end or to a stream fault, and writes the lines of what it gave. Then ends the stream, or
/// keeps its engine.
///
/// If the stream has a stream fault already, it is ended without a read. If the run fails, what was written stays: the
/// lines of all that was read, or, after a failed put, a front of them.
pub fn run<'a, S: Source, O: Out>(
    source: &mut S,
    out: &mut O,
    engine: Engine<'a>,
    ending: Ending,
) -> Result<Report<'a>, RunFault>
    ensures ran { (p : List ℕ) → Holds engine.entry p → (s : List ℕ)
        × Ran (setup_of engine.entry ending) result p s
        (S.log source.old) (S.log source.new) (O.log out.old) (O.log out.new) }
    ensures failed { engine.entry.failed ≡ true
        → DidNothing result (S.log source.old) (S.log source.new) (O.log out.old) (O.log out.new) }
    // This holds for every engine, also for one that holds no stream.
    ensures sound { result ≡ Err RunFault.Failed → engine.entry.failed ≡ true }
    ensures reads { (S.log source.new).reads ≤ (S.log source.old).reads + 2 ^ 40 }
    ensures kept { IfOk result (λ report. HasKept ending report.kept) }
{
    run_with_flushes::<S, O, FlushesNothing>(source, out, engine, ending)
}

/// Runs an engine, and lets `F` flush the out before each read and at the end, so that the lines of a live stream can be
/// seen at once. If a flush fails, the run fails as after a failed put.
pub(crate) fn run_with_flushes<'a, S: Source, O: Out, F: BetweenReads<O>>(
    source: &mut S,
    out: &mut O,
    engine: Engine<'a>,
    ending: Ending,
) -> Result<Report<'a>, RunFault>
    ensures ran { (p : List ℕ) → Holds engine.entry p → (s : List ℕ)
        × Ran (setup_of engine.entry ending) result p s
        (S.log source.old) (S.log source.new) (O.log out.old) (O.log out.new) }
    ensures failed { engine.entry.failed ≡ true
        → DidNothing result (S.log source.old) (S.log source.new) (O.log out.old) (O.log out.new) }
    // This holds for every engine, also for one that holds no stream.
    ensures sound { result ≡ Err RunFault.Failed → engine.entry.failed ≡ true }
    ensures reads { (S.log source.new).reads ≤ (S.log source.old).reads + 2 ^ 40 }
    ensures kept { IfOk result (λ report. HasKept ending report.kept) }
    ensures flushed { OnOk result (F.kept_back out.new ≡ []) }
    // If a read failed, or there were too many reads, the out keeps nothing back.
    ensures seen { (result ≡ Err RunFault.Read) ⊎ (result ≡ Err RunFault.Turns) →
        F.kept_back out.new ≡ [] }
{
    let mut engine = engine;
    feed_whole_source::<S, O, F>(source, out, &mut engine)?;
    end_run::<O, F>(engine, out, ending)
}

/// Feeds all that the source gives, up to its end or to a stream fault. If the stream has a fault already, feeds nothing.
fn feed_whole_source<S: Source, O: Out, F: BetweenReads<O>>(
    source: &mut S,
    out: &mut O,
    engine: &mut Engine,
) -> Result<(), RunFault>
    ensures fed { (p : List ℕ) → Holds engine.old p → (s : List ℕ)
        × HasFedSource (rules_of engine.old) result p s engine.new
        (S.log source.old) (S.log source.new) (O.log out.old) (O.log out.new) }
    ensures failed { engine.old.failed ≡ true → (result ≡ Err RunFault.Failed)
        × (S.log source.new ≡ S.log source.old) × (O.log out.new ≡ O.log out.old) }
    ensures leaves { OnOk result (engine.new.failed ≡ false) }
    ensures same { (engine.new.table ≡ engine.old.table)
        × (engine.new.request_table ≡ engine.old.request_table)
        × (engine.new.most ≡ engine.old.most) }
    ensures sound { result ≡ Err RunFault.Failed → engine.old.failed ≡ true }
    ensures reads { (S.log source.new).reads ≤ (S.log source.old).reads + 2 ^ 40 }
    ensures seen { (result ≡ Err RunFault.Read) ⊎ (result ≡ Err RunFault.Turns) →
        F.kept_back out.new ≡ [] }
{
    if !feed(engine, &[], out)? {
        return Ok(());
    }
    let mut buffer = [0; ROOM];
    for _turn in 0..TURNS {
        flush::<O, F>(out)?;
        if !read_and_feed(source, out, engine, &mut buffer)? {
            return Ok(());
        }
    }
    flush::<O, F>(out)?;
    Err(RunFault::Turns)
}

/// Flushes the out.
fn flush<O: Out, F: BetweenReads<O>>(out: &mut O) -> Result<(), RunFault>
    ensures flushed { Flushes result (O.log out.old) (O.log out.new) (F.kept_back out.new) }
    ensures cause { IfErr result (λ fault. fault ≡ RunFault.Out) }
{
    match F::flush(out) {
        Ok(()) => Ok(()),
        Err(_) => Err(RunFault::Out),
    }
}

/// Reads once, and feeds what the read gave. Returns whether the stream goes on.
fn read_and_feed<S: Source, O: Out>(
    source: &mut S,
    out: &mut O,
    engine: &mut Engine,
    buffer: &mut [u8; ROOM],
) -> Result<bool, RunFault>
    ensures fed { (p : List ℕ) → Holds engine.old p → (s : List ℕ)
        × HasReadAndFed (rules_of engine.old) result p s engine.new (S.log source.old)
        (S.log source.new) (O.log out.old) (O.log out.new) }
    ensures leaves { engine.old.failed ≡ false → OnOk result (engine.new.failed ≡ false) }
    ensures same { (engine.new.table ≡ engine.old.table)
        × (engine.new.request_table ≡ engine.old.request_table)
        × (engine.new.most ≡ engine.old.most) }
    ensures sound { result ≡ Err RunFault.Failed → engine.old.failed ≡ true }
    ensures reads { (S.log source.new).reads ≡ saturating_next (S.log source.old).reads }
    ensures unread { result ≡ Err RunFault.Read → out.new ≡ out.old }
    ensures ends { result ≢ Err RunFault.Turns }
{
    let Ok(given) = read(source, buffer) else {
        return Err(RunFault::Read);
    };
    let ended = given == 0;
    if ended {
        return Ok(false);
    }
    feed(engine, &buffer[..given], out)
}

/// Reads once. Its contract says that the buffer has octets, which follows from the buffer's type.
fn read<S: Source>(source: &mut S, buffer: &mut [u8]) -> Result<usize, SourceFault>
    ensures read { MatchResult result
        (λ given. ReadGave (S.log source.old) (S.log source.new) buffer.new given)
        (λ _. ReadFailed (S.log source.old) (S.log source.new)) }
    ensures octets { AreOctets buffer.new }
{
    source.read(buffer)
}

/// Feeds a piece. Returns whether the stream goes on.
fn feed<O: Out>(engine: &mut Engine, piece: &[u8], out: &mut O) -> Result<bool, RunFault>
    ensures fed { (p : List ℕ) → Holds engine.old p
        → HasFedPiece (rules_of engine.old) result p piece.now engine.new (O.log out.old)
        (O.log out.new) }
    ensures failed { engine.old.failed ≡ true
        → (result ≡ Err RunFault.Failed) × (O.log out.new ≡ O.log out.old) }
    ensures leaves { OnOk result (engine.new.failed ≡ false) }
    ensures same { (engine.new.table ≡ engine.old.table)
        × (engine.new.request_table ≡ engine.old.request_table)
        × (engine.new.most ≡ engine.old.most) }
    ensures sound { result ≡ Err RunFault.Failed → engine.old.failed ≡ true }
    ensures causes { IfErr result IsOfWriting }
{
    match engine.feed(piece, out) {
        Ok(Status::Running) => Ok(true),
        Ok(Status::Stopped(_)) => Ok(false),
        Err(Stop::Out(_)) => Err(RunFault::Out),
        Err(Stop::Failed) => Err(RunFault::Failed),
    }
}

/// Ends a run as its `Ending` says.
fn end_run<'a, O: Out, F: BetweenReads<O>>(
    engine: Engine<'a>,
    out: &mut O,
    ending: Ending,
) -> Result<Report<'a>, RunFault>
    ensures closed { (p : List ℕ) → Holds engine.entry p
        → HasEndedRun (setup_of engine.entry ending) result p (O.log out.old) (O.log out.new) }
    ensures sound { result ≡ Err RunFault.Failed → engine.entry.failed ≡ true }
    ensures kept { IfOk result (λ report. HasKept ending report.kept) }
    ensures flushed { OnOk result (F.kept_back out.new ≡ []) }
    ensures causes { IfErr result IsOfWriting }
{
    match ending {
        Ending::Finish => finish_and_flush::<O, F>(engine, out),
        Ending::Keep => flush_and_keep_engine::<O, F>(engine, out),
    }
}

/// Ends the stream, flushes the out, and returns the totals.
fn finish_and_flush<'a, O: Out, F: BetweenReads<O>>(
    engine: Engine<'a>,
    out: &mut O,
) -> Result<Report<'a>, RunFault>
    ensures closed { (p : List ℕ) → Holds engine.entry p
        → HasEndedRun (setup_of engine.entry Ending.Finish) result p (O.log out.old)
        (O.log out.new) }
    ensures sound { result ≡ Err RunFault.Failed → engine.entry.failed ≡ true }
    ensures kept { IfOk result (λ report. HasKept Ending.Finish report.kept) }
    ensures flushed { OnOk result (F.kept_back out.new ≡ []) }
    ensures causes { IfErr result IsOfWriting }
{
    let totals = finish_stream(engine, out)?;
    flush::<O, F>(out)?;
    Ok(Report { totals, kept: None })
}

/// Flushes the out, and returns the engine.
fn flush_and_keep_engine<'a, O: Out, F: BetweenReads<O>>(
    engine: Engine<'a>,
    out: &mut O,
) -> Result<Report<'a>, RunFault>
    ensures closed { (p : List ℕ) → Holds engine.entry p
        → HasEndedRun (setup_of engine.entry Ending.Keep) result p (O.log out.old) (O.log out.new) }
    ensures sound { result ≡ Err RunFault.Failed → engine.entry.failed ≡ true }
    ensures kept { IfOk result (λ report. HasKept Ending.Keep report.kept) }
    ensures flushed { OnOk result (F.kept_back out.new ≡ []) }
    ensures causes { IfErr result IsOfWriting }
{
    flush::<O, F>(out)?;
    let totals = engine.totals();
    Ok(Report {
        totals,
        kept: Some(engine),
    })
}

/// Ends the stream.
fn finish_stream<O: Out>(engine: Engine, out: &mut O) -> Result<Totals, RunFault>
    ensures finished { (p : List ℕ) → Holds engine.entry p
        → FinishedStream (rules_of engine.entry) result p (O.log out.old) (O.log out.new) }
    ensures failed { engine.entry.failed ≡ true
        → (result ≡ Err RunFault.Failed) × (O.log out.new ≡ O.log out.old) }
    ensures sound { result ≡ Err RunFault.Failed → engine.entry.failed ≡ true }
    ensures causes { IfErr result IsOfWriting }
{
    match engine.finish(out) {
        Ok(totals) => Ok(totals),
        Err(Stop::Out(_)) => Err(RunFault::Out),
        Err(Stop::Failed) => Err(RunFault::Failed),
    }
}
