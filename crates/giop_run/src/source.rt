//! Where a run reads its octets from: a source, which gives some octets at each read, and counts its reads.

ghost use Rattle.std.specs.Prelude.{◌≡◌, MatchResult, IfErr};
ghost use Rattle.std.specs.declared.io.ErrorKind.{ErrorKind};
ghost use Rattle.giop_print.specs.Output.{saturating_next};
ghost use Rattle.giop_run.specs.SourceLog.{SourceLog, ReadGave, ReadFailed};

use super::fault::SourceFault;

/// Something that gives octets, some of them at each read.
pub trait Source {
    /// The octets that are left, if the contracts know them, and how many reads, failures and ends there were.
    ghost log: { Self → SourceLog };

    /// The kinds of error that a read may fail with. No read adds a kind.
    ghost fails: { Self → ErrorKind → Type 0 };

    /// Puts the next octets at the start of `into`, and returns how many. If it returns 0 and `into` isn't empty, the
    /// source is at its end.
    fn read(&mut self, into: &mut [u8]) -> Result<usize, SourceFault>
        ensures read { MatchResult result
            (λ given. ReadGave (log self.old) (log self.new) into.new given)
            (λ _. ReadFailed (log self.old) (log self.new)) }
        ensures fault { IfErr result (λ fault. fails self.old fault.kind) }
        ensures fewer { (kind : ErrorKind) → fails self.new kind → fails self.old kind };
}

/// One more than a count, or the greatest number of 64 bits if the count is that.
#[tactic(auto, unfolding(giop_print::specs::Output::saturating_next))]
pub(crate) fn saturating_add_one(count: u64) -> u64
    ensures { result ≡ saturating_next count }
{
    count.saturating_add(1)
}
