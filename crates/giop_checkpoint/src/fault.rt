//! The faults that end the reading of a stream, and why a checkpoint is refused.

use thiserror::Error;

/// Why the reading of a stream ends at an octet. `Display` is the word of its line.
#[derive(Clone, Copy, Debug, PartialEq, Eq, Error)]
pub enum StreamFault {
    /// One of the first four octets of a header isn't the octet of `GIOP` at its place.
    #[error("magic")]
    Magic = 1,
    /// The major version isn't 1, or the minor version is above 2.
    #[error("version")]
    Version = 2,
    /// The byte order in a header of 1.0 is above 1.
    #[error("byte-order")]
    ByteOrder = 3,
    /// There is an octet after the first 2^48.
    #[error("stream-limit")]
    StreamLimit = 5,
}

/// The first check that a checkpoint fails (docs/FORMATS.md, Checkpoints). `Display` is the word that the program prints.
#[derive(Clone, Copy, Debug, PartialEq, Eq, Error)]
pub enum LoadFault {
    /// It doesn't begin with the text `GIOPDUMP`.
    #[error("magic")]
    Magic = 1,
    /// It has the version of a layout that isn't read.
    #[error("version")]
    Version = 2,
    /// It was saved with another catalogue or another request list: the counts differ.
    #[error("catalogue")]
    Catalogue = 3,
    /// It has fewer octets than the fixed part, or the octets after it aren't those of the records.
    #[error("length")]
    Length = 4,
    /// A field is out of its range.
    #[error("state")]
    State = 5,
    /// There is no memory for as many open messages as the checkpoint allows. No check of its
    /// octets returns this.
    #[error("out-of-memory")]
    OutOfMemory = 6,
}
