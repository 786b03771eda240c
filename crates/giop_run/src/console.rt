//! Runs an engine from a source to an out that is flushed, and gives the program's status.

ghost use Rattle.std.specs.Prelude.{◌≡◌, ◌⊎◌, ◌+◌, ◌^◌, ◌≤◌, List, ℕ, [], true, Err, OnOk, IfOk};
ghost use Rattle.giop_stream.specs.EngineHolds.{Holds};
ghost use Rattle.giop_run.specs.Running.{DidNothing, HasKept, Ran, setup_of};
ghost use Rattle.giop_run.specs.Console.{exit_status};

use super::fault::{ProgramError, RunFault};
use super::flush::FlushesOut;
use super::running::{Ending, Report, run_with_flushes};
use super::source::Source;
use giop_print::Flush;
use giop_stream::{Engine, Totals};

/// Runs an engine as `run` does, and flushes the lines before each read and at the end. If a flush fails, the run fails as
/// after a failed put.
pub fn dump<'a, S: Source, O: Flush>(
    source: &mut S,
    out: &mut O,
    engine: Engine<'a>,
    ending: Ending,
) -> Result<Report<'a>, RunFault>
    ensures ran { (p : List ℕ) → Holds engine.entry p → (s : List ℕ)
        × Ran (setup_of engine.entry ending) result p s
        (S.log source.old) (S.log source.new) (O.log out.old) (O.log out.new) }
    ensures failed { engine.entry.failed ≡ true
        → DidNothing result (S.log source.old) (S.log source.new) (O.log out.old) (O.log out.new) }
    // This holds for every engine, also for one that holds no stream.
    ensures sound { result ≡ Err RunFault.Failed → engine.entry.failed ≡ true }
    ensures reads { (S.log source.new).reads ≤ (S.log source.old).reads + 2 ^ 40 }
    ensures kept { IfOk result (λ report. HasKept ending report.kept) }
    ensures flushed { OnOk result (O.kept out.new ≡ []) }
    // If a read failed, or there were too many reads, all that was put can be seen.
    ensures seen { (result ≡ Err RunFault.Read) ⊎ (result ≡ Err RunFault.Turns) →
        O.kept out.new ≡ [] }
{
    run_with_flushes::<S, O, FlushesOut>(source, out, engine, ending)
}

/// The status that the program ends with: 0, or 1 if a fault was counted, or the status of the failure.
pub fn status(ended: &Result<Totals, ProgramError>) -> u8
    ensures { result ≡ exit_status ended.now }
{
    match ended {
        Ok(totals) if totals.faults == 0 => 0,
        Ok(_) => 1,
        Err(fault) => fault.status(),
    }
}
