//! Whether a run flushes its out.

ghost use Rattle.std.specs.Prelude.{ℕ, List, []};
ghost use Rattle.giop_print.specs.Flushing.{Flushes};

use giop_print::{Flush, Out, OutFault};

/// What a run does to its out before each read and at the end.
pub(crate) trait BetweenReads<O: Out> {
    /// The octets that the out keeps back.
    ghost kept_back: { O → List ℕ };

    /// Writes the octets that the out keeps back, if there are any.
    fn flush(out: &mut O) -> Result<(), OutFault>
        ensures { Flushes result (O.log out.old) (O.log out.new) (kept_back out.new) };
}

/// Does nothing: the out keeps nothing back.
pub(crate) struct FlushesNothing;

impl<O: Out> BetweenReads<O> for FlushesNothing {
    ghost kept_back = { λ _. [] };

    fn flush(_out: &mut O) -> Result<(), OutFault> {
        Ok(())
    }
}

/// Flushes the out.
pub(crate) struct FlushesOut;

impl<O: Flush> BetweenReads<O> for FlushesOut {
    ghost kept_back = { O.kept };

    fn flush(out: &mut O) -> Result<(), OutFault> {
        out.flush()
    }
}
