//! Why a signature file is refused, and in which line (docs/FORMATS.md).

use std::alloc::{AllocError, AllocFailed};
use thiserror::Error;

/// The rule that a signature file breaks. `Display` is the word that the program prints
/// (docs/FORMATS.md).
#[derive(Clone, Copy, Debug, PartialEq, Eq, Drop, Error)]
pub enum SigFaultKind {
    /// Octets that are no token.
    #[error("token")]
    Token = 1,
    /// A token that can't stand here.
    #[error("syntax")]
    Syntax = 2,
    /// A type that isn't declared before its use.
    #[error("unknown-type")]
    UnknownType = 3,
    /// A name or a label that is used twice.
    #[error("duplicate")]
    Duplicate = 4,
    /// Too many of something, or too long a name or text.
    #[error("limit")]
    Limit = 5,
    /// A type with more than 24 levels.
    #[error("depth")]
    Depth = 6,
    /// A label that is no value of its union's discriminator.
    #[error("label")]
    Label = 7,
    /// An empty enum, struct or union, or a length or bound of 0.
    #[error("empty")]
    Empty = 8,
    /// Memory was refused.
    #[error("out-of-memory")]
    OutOfMemory = 9,
}

/// A refusal of a signature file.
#[derive(Clone, Copy, Debug, PartialEq, Eq, Drop, Error)]
#[error("{kind}")]
pub struct SigFault {
    /// The line of the token that breaks the rule, from 1; 0 if memory was refused.
    pub line: u32,
    /// The rule that is broken.
    pub kind: SigFaultKind,
}

impl From<AllocError> for SigFault {
    ghost use Rattle.std.specs.Prelude.{◌≡◌};
    ghost use Rattle.giop_tokens.specs.Faults.{no_memory};

    ghost from_gives = { λ _ fault. fault ≡ no_memory };

    fn from(_refused: AllocError) -> SigFault {
        SigFault {
            line: 0,
            kind: SigFaultKind::OutOfMemory,
        }
    }
}

impl<T: Drop> From<AllocFailed<T>> for SigFault {
    ghost use Rattle.std.specs.Prelude.{◌≡◌};
    ghost use Rattle.giop_tokens.specs.Faults.{no_memory};

    ghost from_gives = { λ _ fault. fault ≡ no_memory };

    fn from(_refused: AllocFailed<T>) -> SigFault {
        SigFault {
            line: 0,
            kind: SigFaultKind::OutOfMemory,
        }
    }
}

/// A refusal of a text that is read from its front.
#[derive(Clone, Copy, Debug, PartialEq, Eq, Drop)]
pub struct TokenError {
    /// The rule that is broken.
    pub kind: SigFaultKind,
    /// How many octets of the text are left, counted from the first octet of the token that breaks the rule. It is 0 at the
    /// end of the text, and if memory was refused.
    pub left: usize,
}

impl From<AllocError> for TokenError {
    ghost use Rattle.std.specs.Prelude.{◌≡◌};
    ghost use Rattle.giop_tokens.specs.Faults.{out_of_memory};

    ghost from_gives = { λ _ refusal. refusal ≡ out_of_memory };

    fn from(_refused: AllocError) -> TokenError {
        TokenError {
            kind: SigFaultKind::OutOfMemory,
            left: 0,
        }
    }
}

impl<T: Drop> From<AllocFailed<T>> for TokenError {
    ghost use Rattle.std.specs.Prelude.{◌≡◌};
    ghost use Rattle.giop_tokens.specs.Faults.{out_of_memory};

    ghost from_gives = { λ _ refusal. refusal ≡ out_of_memory };

    fn from(_refused: AllocFailed<T>) -> TokenError {
        TokenError {
            kind: SigFaultKind::OutOfMemory,
            left: 0,
        }
    }
}
