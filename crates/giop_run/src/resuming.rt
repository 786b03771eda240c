//! The engine that a run begins with: a new engine, or one that is loaded from a checkpoint file.

ghost use Rattle.std.specs.Prelude.{◌≡◌, ◌≢◌, ◌≤◌, List, ℕ, [], false, None, IfOk, IfErr, IfSome, option_map};
ghost use Rattle.giop_checkpoint.specs.Refusals.{PassesUpToCounts};
ghost use Rattle.giop_stream.specs.Rules.{most_open};
ghost use Rattle.giop_stream.specs.Checkpoint.{counts_of, IsRefused, Spells};
ghost use Rattle.giop_stream.specs.EngineHolds.{IsRequestTableOf, Holds};
ghost use Rattle.giop_run.specs.Console.{run_fault};
ghost use Rattle.giop_run.specs.Files.{NoCheckpoint, HoldsOfResumed, checkpoint_most, IsReadToOneOver};

use super::fault::ProgramError;
use super::files::read_file_to_one_over;
use super::inputs::Inputs;
use giop_checkpoint::LoadFault;
use giop_sig::{Catalogue, Requests};
use giop_stream::{Engine, NewError};
use std::alloc::Global;

/// The greatest size of a checkpoint, in octets. A longer one is refused when it is loaded.
const CHECKPOINT_MOST: u64 = 3_408_800;

/// Loads an engine from the octets of a checkpoint.
fn load_checkpoint<'a, 'c>(
    alloc: Global,
    name: &'a str,
    octets: &[u8],
    catalogue: &'c Catalogue,
    requests: &'c Requests,
) -> Result<Engine<'c>, ProgramError<'a>>
    requires of { IsRequestTableOf catalogue.now requests.now }
    ensures again { IfOk result (λ e. (n : ℕ) (p : List ℕ)
        → Spells octets.now catalogue.now requests.now n p → (e.most ≡ n) × Holds e p) }
    ensures ours { IfOk result (λ e. PassesUpToCounts
        (counts_of catalogue.now requests.now) octets.now) }
    ensures err { IfErr result (λ fault. (why : LoadFault)
        × (why ≡ LoadFault.OutOfMemory → fault ≡ ProgramError.OutOfMemory)
        × (why ≢ LoadFault.OutOfMemory → fault ≡ ProgramError.Checkpoint name.entry why)
        × IsRefused (counts_of catalogue.now requests.now) octets.now why) }
    ensures sound { IfOk result (λ e. e.failed ≡ false) }
    ensures table { IfOk result (λ e. e.table ≡ catalogue.now) }
    ensures request_table { IfOk result (λ e. e.request_table ≡ requests.now) }
{
    match Engine::load(alloc, catalogue, requests, octets) {
        Ok(engine) => Ok(engine),
        Err(fault) => Err(ProgramError::of_checkpoint(name, fault)),
    }
}

/// Loads the engine from a checkpoint file. If there is no file, makes a new engine for `most` open messages.
pub fn resume<'a, 'c, R: Inputs + AllocGlobal>(
    rt: &R,
    name: Option<&'a str>,
    most: u32,
    catalogue: &'c Catalogue,
    requests: &'c Requests,
) -> Result<Engine<'c>, ProgramError<'a>>
    requires of { IsRequestTableOf catalogue.now requests.now }
    requires range { (1 ≤ most) × (most ≤ most_open) }
    ensures ok { let asked = option_map (λ n. n.now) name.entry in
        IfOk result (λ e. HoldsOfResumed (R.held rt.now) asked most catalogue.now requests.now
        (λ n p. (e.most ≡ n) × Holds e p)) }
    ensures err { let asked = option_map (λ n. n.now) name.entry in IfErr result
        (NoCheckpoint (R.held rt.now) (R.refuses rt.now) asked
        (counts_of catalogue.now requests.now)) }
    ensures file { IfErr result (λ fault. run_fault fault ≡ None) }
    ensures sound { IfOk result (λ e. e.failed ≡ false) }
    ensures table { IfOk result (λ e. e.table ≡ catalogue.now) }
    ensures request_table { IfOk result (λ e. e.request_table ≡ requests.now) }
{
    let Some(name) = name else {
        return match Engine::new(rt.alloc(), catalogue, requests, most) {
            Ok(engine) => Ok(engine),
            Err(NewError::OutOfMemory) => Err(ProgramError::OutOfMemory),
        };
    };
    let octets = read_file_to_one_over(rt, name, CHECKPOINT_MOST)?;
    load_checkpoint(rt.alloc(), name, &octets, catalogue, requests)
}
