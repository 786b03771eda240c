//! The byte order: the two orders of a number's octets.

/// The byte order of a number (CDR Transfer Syntax, Primitive Types).
#[derive(Clone, Copy, Debug, PartialEq, Eq, Hash)]
pub enum Order {
    /// Big-endian: the most significant octet first.
    Big,
    /// Little-endian: the least significant octet first.
    Little,
}
