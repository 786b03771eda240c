//! Why a request list is refused (docs/FORMATS.md). `giop_tokens` says why a signature file is.

use std::alloc::AllocFailed;
use thiserror::Error;

/// The rule that a request list breaks. `Display` is the word that the program prints.
#[derive(Clone, Copy, Debug, Drop, PartialEq, Eq, Error)]
pub enum ListFaultKind {
    /// The line isn't an entry: an id, a name, and perhaps an interface, with a space between them.
    #[error("syntax")]
    Syntax = 1,
    /// The text has more octets, or more entries, than a list may have.
    #[error("limit")]
    Limit = 2,
    /// No memory was left for the list.
    #[error("out-of-memory")]
    OutOfMemory = 3,
}

/// The first refusal of a request list, read from the front. Nothing is kept after it.
#[derive(Clone, Copy, Debug, Drop, PartialEq, Eq, Error)]
#[error("{kind}")]
pub struct ListFault {
    /// The line that is refused, from 1. It is 1 for a text that is too long, and 0 if memory was
    /// refused.
    pub line: u32,
    /// The rule that the line breaks.
    pub kind: ListFaultKind,
}

impl<T: Drop> From<AllocFailed<T>> for ListFault {
    ghost use Rattle.std.specs.Prelude.{◌≡◌};
    ghost use Rattle.giop_sig.specs.declared.fault.ListFaultKind.TheVariants.{OutOfMemory};

    ghost from_gives = { λ _ e. e ≡ record { line = 0; kind = OutOfMemory } };

    fn from(_e: AllocFailed<T>) -> ListFault {
        ListFault {
            line: 0,
            kind: ListFaultKind::OutOfMemory,
        }
    }
}
