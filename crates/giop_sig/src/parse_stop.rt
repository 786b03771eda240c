//! Why the reading of a signature file stops.

use giop_tokens::TokenError;
use std::alloc::{AllocError, AllocFailed};

/// Memory was refused, or the text is.
#[derive(Clone, Copy, Drop)]
pub(crate) enum ParseError {
    Memory,
    Refused(TokenError),
}

impl From<TokenError> for ParseError {
    ghost use Rattle.std.specs.Prelude.{◌≡◌};
    ghost use Rattle.giop_sig.specs.declared.parse_stop.ParseError.TheVariants.{Refused};

    ghost from_gives = { λ r stop. stop ≡ Refused r };

    fn from(refusal: TokenError) -> ParseError {
        ParseError::Refused(refusal)
    }
}

impl From<AllocError> for ParseError {
    ghost use Rattle.std.specs.Prelude.{◌≡◌};
    ghost use Rattle.giop_sig.specs.declared.parse_stop.ParseError.TheVariants.{Memory};

    ghost from_gives = { λ _ stop. stop ≡ Memory };

    fn from(_refused: AllocError) -> ParseError {
        ParseError::Memory
    }
}

impl<T: Drop> From<AllocFailed<T>> for ParseError {
    ghost use Rattle.std.specs.Prelude.{◌≡◌};
    ghost use Rattle.giop_sig.specs.declared.parse_stop.ParseError.TheVariants.{Memory};

    ghost from_gives = { λ _ stop. stop ≡ Memory };

    fn from(_refused: AllocFailed<T>) -> ParseError {
        ParseError::Memory
    }
}
