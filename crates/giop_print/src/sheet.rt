//! An `Out` in memory.

ghost use Rattle.std.specs.Prelude.{◌≡◌, ◌≤◌, ◌<◌, ◌+◌, ◌-◌, ◌++◌, [], Some, MatchResult, IfOk, OnErr, length, min, take};
ghost use Rattle.giop_print.specs.Output.{Took, Failed};

use crate::sink::{Out, OutFault, one_more};

/// Octets in memory. A put takes as many octets as fit; it fails only if the memory is full and
/// there are octets to put.
#[derive(Drop)]
pub struct Sheet<'a> {
    into: &'a mut [u8],
    used: usize,
    puts: u64,
    failures: u64,
    ghost within: { used ≤ length into.now },
}

impl<'a> Sheet<'a> {
    ghost use Rattle.giop_print.specs.Sheet.{sheet_log, sheet_room};

    /// A sheet on which nothing is written.
    pub fn new(into: &'a mut [u8]) -> Sheet<'a>
        ensures log { sheet_log result ≡ record { written = Some []; puts = 0; failures = 0 } }
        ensures room { sheet_room result ≡ length into.old }
    {
        Sheet {
            into,
            used: 0,
            puts: 0,
            failures: 0,
        }
    }

    /// The octets that were written.
    pub fn held(&self) -> &[u8]
        ensures { (sheet_log self.now).written ≡ Some result.now }
    {
        &self.into[..self.used]
    }
}

impl<'a> Out for Sheet<'a> {
    ghost use Rattle.giop_print.specs.Sheet.{sheet_log, sheet_room};

    ghost log = { sheet_log };

    fn put(&mut self, octets: &[u8]) -> Result<usize, OutFault>
        ensures put { MatchResult result
            (λ n. Took (sheet_log self.old) (sheet_log self.new) octets.now n)
            (λ _. Failed (sheet_log self.old) (sheet_log self.new)) }
        // It takes as many octets as fit.
        ensures fits { IfOk result (λ n. n ≡ min (length octets.now) (sheet_room self.old)) }
        // It fails only if the memory is full and there are octets to put.
        ensures full { OnErr result ((sheet_room self.old ≡ 0) × (0 < length octets.now)) }
    {
        self.puts = one_more(self.puts);
        let taken = copy_in(self.into, self.used, octets);
        if taken == 0 && !octets.is_empty() {
            self.failures = one_more(self.failures);
            return Err(OutFault);
        }
        self.used += taken;
        Ok(taken)
    }
}

/// Copies as many octets as fit to the place after the first `used` octets, and returns how many.
fn copy_in(into: &mut [u8], used: usize, octets: &[u8]) -> usize
    requires { used ≤ length into.old }
    ensures count { result ≡ min (length octets.now) (length into.old - used) }
    ensures octets { take (used + result) into.new ≡ take used into.old ++ take result octets.now }
{
    let taken = octets.len().min(into.len() - used);
    into[used..used + taken].copy_from_slice(&octets[..taken]);
    taken
}
