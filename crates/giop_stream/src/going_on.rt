//! How a stream is read on from a checkpoint to its end. Each stream that an engine holds has a checkpoint.

ghost use Rattle.std.specs.Prelude.{◌≡◌, ◌≢◌, ◌≤◌, ◌++◌, false, ℕ, List, length, IfOk, IfErr};
ghost use Rattle.giop_sig.specs.Trees.{catalogue_depth};
ghost use Rattle.giop_stream.specs.Rules.{rules};
ghost use Rattle.giop_stream.specs.Stream.{final};
ghost use Rattle.giop_stream.specs.EngineHolds.{IsRequestTableOf, Holds, StopWrites, rules_of};
ghost use Rattle.giop_stream.specs.Pieces.{remaining};
ghost use Rattle.giop_stream.specs.Checkpoint.{counts_of, checkpoint_limit, IsRefused, OrNoMemory, Spells};

use crate::engine::Engine;
use crate::fault::{LoadFault, Stop};
use crate::status::Totals;
use giop_print::{Out, Sheet};
use giop_sig::{Catalogue, Requests};
use std::alloc::Global;

/// Reads a stream on from a checkpoint of its front, with the same types and the same list: the octets that follow, and
/// their end. Returns the totals of the stream, or that a put failed; or why the checkpoint is refused.
pub fn go_on<O: Out>(
    alloc: Global,
    catalogue: &Catalogue,
    requests: &Requests,
    octets: &[u8],
    rest: &[u8],
    out: &mut O,
) -> Result<Result<Totals, Stop>, LoadFault>
    requires of { IsRequestTableOf catalogue.now requests.now }
    // What is written is what remains of the stream's text, after the front that the octets are the checkpoint of, and the
    // closing.
    ensures text { (n : ℕ) (p : List ℕ) → Spells octets.now catalogue.now requests.now n p →
        OrNoMemory result (λ ended. StopWrites ended (O.log out.old) (O.log out.new)
        (remaining (rules catalogue.now requests.now n) p rest.now)) }
    ensures totals { (n : ℕ) (p : List ℕ) → Spells octets.now catalogue.now requests.now n p →
        OrNoMemory result (λ ended. IfOk ended (λ t.
        t ≡ final (rules catalogue.now requests.now n) (p ++ rest.now))) }
    // The engine that is loaded hasn't failed.
    ensures sound { IfOk result (λ ended. IfErr ended (λ stop. stop ≢ Stop.Failed)) }
    // If the octets are refused, nothing is written.
    ensures refused { IfErr result (λ why. (O.log out.new ≡ O.log out.old)
        × IsRefused (counts_of catalogue.now requests.now) octets.now why) }
{
    match Engine::load(alloc, catalogue, requests, octets) {
        Ok(engine) => Ok(feed_to_end(engine, rest, out)),
        Err(why) => Err(why),
    }
}

/// Feeds the octets that follow what an engine has read, and ends the stream.
fn feed_to_end<O: Out>(engine: Engine, rest: &[u8], out: &mut O) -> Result<Totals, Stop>
    requires sound { engine.failed ≡ false }
    ensures text { (p : List ℕ) → Holds engine.entry p →
        StopWrites result (O.log out.old) (O.log out.new)
        (remaining (rules_of engine.entry) p rest.now) }
    ensures totals { (p : List ℕ) → Holds engine.entry p →
        IfOk result (λ t. t ≡ final (rules_of engine.entry) (p ++ rest.now)) }
    ensures sound { IfErr result (λ stop. stop ≢ Stop.Failed) }
{
    let mut engine = engine;
    match engine.feed(rest, out) {
        Ok(_) => engine.finish(out),
        Err(stop) => Err(stop),
    }
}

/// Each stream that an engine holds has a checkpoint, and the checkpoint has at most this number of octets.
pub fn has_checkpoint(engine: &Engine)
    ensures { (p : List ℕ) → Holds engine.now p → (octets : List ℕ)
        × Spells octets engine.now.table engine.now.request_table engine.now.most p
        × (length octets ≤ checkpoint_limit engine.now.most (catalogue_depth engine.now.table)) }
{
    let _ = engine.save(&mut Sheet::new(&mut []));
}
