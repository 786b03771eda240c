//! A trait for where a value stands: in which message, and at which path or at which parts of a
//! path.

ghost use Rattle.std.specs.Prelude.{◌≡◌, List, [], ℕ};
ghost use Rattle.giop_print.specs.Line.{Spells, headed};

use crate::line::Line;
use crate::path::Path;

/// Where a value stands: its message and its path. The lines of the value begin with these.
pub trait Position {
    /// The number of the message.
    ghost message: { Self → ℕ };

    /// The path's text.
    ghost spelled: { Self → List ℕ };

    /// Spells what a line at this position begins with, before what was already spelled of it: `m`,
    /// the message's number, a space and the path. Returns whether the line had room for all of it.
    /// If it hadn't, an end of it may stand there.
    fn spell(&self, line: &mut Line) -> bool
        ensures { Spells result line.old line.new
            (headed (message self.now) (spelled self.now) []) };

    /// The number of the message, if the line has no room.
    fn message(&self) -> u64
        ensures { result ≡ message self.now };

    /// The path, if the line has no room for it.
    fn path(&self) -> Path
        ensures { result.text ≡ spelled self.now };
}
