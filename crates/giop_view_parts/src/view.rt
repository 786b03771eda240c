//! Something that takes the lines of a dump, and writes what it makes of them.

use crate::fault::ViewError;
use giop_lines::{DumpLine, Statement};
use giop_print::Out;

/// What is printed once at the end about the things that there was no room for.
#[derive(Clone, Copy, Debug, Drop)]
pub struct Notice {
    /// How many of these things there are.
    pub count: u64,
    /// What they are: `message` or `call`.
    pub noun: &'static str,
    /// What became of them.
    pub fate: &'static str,
    /// Whether something that was due is missing.
    pub is_loss: bool,
}

/// Something that takes the lines of a dump, and writes what it makes of them.
pub trait View {
    /// Takes a line, and writes what is due after it.
    fn take_line<O: Out>(&mut self, out: &mut O, line: DumpLine<'_>) -> Result<(), ViewError>;

    /// Writes all that is left, because no more lines come.
    fn finish<O: Out>(&mut self, out: &mut O) -> Result<(), ViewError>;

    /// What there was no room for, if there is anything that may have no room.
    fn notice(&self) -> Option<Notice>;
}

/// Whether a line ends its message.
pub(crate) fn ends_message(said: Statement<'_>) -> bool {
    matches!(
        said,
        Statement::End
            | Statement::Fault(_)
            | Statement::Cancelled(_)
            | Statement::Continues(_)
            | Statement::Unfinished
    )
}

/// Whether a line may tell about a message that has ended.
pub(crate) fn may_follow_end(said: Statement<'_>) -> bool {
    matches!(
        said,
        Statement::Time(_) | Statement::Answers(_) | Statement::Raises(_)
    )
}
