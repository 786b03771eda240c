//! A sink that may keep octets back.

ghost use Rattle.std.specs.Prelude.{ℕ, List};
ghost use Rattle.giop_print.specs.Flushing.{Flushes};

use crate::sink::{Out, OutFault};

/// An out that may keep octets back until it is flushed.
pub trait Flush: Out {
    /// The octets that it keeps back.
    ghost kept: { Self → List ℕ };

    /// Writes the octets that it keeps back.
    fn flush(&mut self) -> Result<(), OutFault>
        ensures { Flushes result (Self.log self.old) (Self.log self.new) (kept self.new) };
}
