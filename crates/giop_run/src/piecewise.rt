//! Octets in memory as a source that gives a few of them at each read.

ghost use Rattle.std.specs.Prelude.{◌≡◌, ◌≤◌, MatchResult, IfErr, Ok, Some, length, min, take};
ghost use Rattle.giop_run.specs.SourceLog.{ReadGave, ReadFailed};

use super::fault::SourceFault;
use super::source::{Source, saturating_add_one};

/// A slice that is read from its start, at most `step` octets at each read.
#[derive(Drop)]
pub struct Piecewise<'a> {
    left: &'a [u8],
    step: usize,
    reads: u64,
    ends: u64,
    ghost some: { 1 ≤ step },
}

impl<'a> Piecewise<'a> {
    ghost use Rattle.giop_run.specs.Piecewise.{piecewise_log, piecewise_step};

    /// Makes a source of these octets. Nothing of it has been read.
    pub fn new(octets: &'a [u8], step: usize) -> Piecewise<'a>
        requires { 1 ≤ step }
        ensures log { piecewise_log result
            ≡ record { left = Some octets.now; reads = 0; failures = 0; ends = 0 } }
        ensures step { piecewise_step result ≡ step }
    {
        Piecewise {
            left: octets,
            step,
            reads: 0,
            ends: 0,
        }
    }
}

impl<'a> Source for Piecewise<'a> {
    ghost use Rattle.giop_run.specs.Piecewise.{piecewise_log, piecewise_left, piecewise_step};

    ghost log = { piecewise_log };

    ghost fails = { λ _ _. ⊥ };

    fn read(&mut self, into: &mut [u8]) -> Result<usize, SourceFault>
        ensures read { MatchResult result
            (λ given. ReadGave (piecewise_log self.old) (piecewise_log self.new) into.new given)
            (λ _. ReadFailed (piecewise_log self.old) (piecewise_log self.new)) }
        ensures fault { IfErr result (λ _. ⊥) }
        // The read never fails. It gives as many octets as the rest, the step and the length of `into` allow.
        ensures value { result ≡ Ok (min
            (min (length (piecewise_left self.old)) (piecewise_step self.old))
            (length into.old)) }
        ensures kept { piecewise_step self.new ≡ piecewise_step self.old }
    {
        self.reads = saturating_add_one(self.reads);
        let given = self.left.len().min(self.step).min(into.len());
        let (octets, left) = self.left.split_at(given);
        copy_to_start(into, octets);
        self.left = left;
        if given == 0 && !into.is_empty() {
            self.ends = saturating_add_one(self.ends);
        }
        Ok(given)
    }
}

/// Copies the octets to the start of a slice.
fn copy_to_start(into: &mut [u8], octets: &[u8])
    requires { length octets.now ≤ length into.old }
    ensures { take (length octets.now) into.new ≡ octets.now }
{
    into[..octets.len()].copy_from_slice(octets);
}
