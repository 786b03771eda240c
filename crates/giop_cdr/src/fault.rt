//! The refusal of a number.

use thiserror::Error;

/// Why octets are no value of a primitive.
#[derive(Clone, Copy, Debug, PartialEq, Eq, Error)]
pub enum CdrFault {
    /// A boolean whose octet is above 1 (CDR Transfer Syntax, Boolean).
    #[error("boolean")]
    Boolean = 1,
}
