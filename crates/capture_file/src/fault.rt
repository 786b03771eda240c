//! Why a capture isn't read to its end.

ghost use Rattle.std.specs.Prelude.{◌≡◌};
ghost use Rattle.capture_file.specs.FaultWords.{fault_word};

use crate::others::OtherFile;
use std::fmt::{self, Display, Formatter, Write};
use thiserror::Error;

/// The rule that a capture breaks.
#[derive(Clone, Copy, Debug, PartialEq, Eq)]
pub enum FaultKind {
    /// The capture begins neither as pcap nor as pcapng, but as this other file.
    Magic(OtherFile),
    /// The byte-order magic is of neither order, the unit of times is out of range, or the two lengths of a block differ.
    Format,
    /// A block can't have its length; or a packet has more octets than are read, or than its block has room for.
    Length,
    /// The major version isn't 2 (pcap) or 1 (pcapng).
    Version,
    /// A packet has an interface that its section doesn't have; or a section has one interface too many.
    Interface,
    /// The capture is empty, or ends within a header, a record or a block.
    Truncated,
}

impl FaultKind {
    /// The word for the rule (docs/FORMATS.md, Capture files).
    pub fn word(self) -> &'static str
        ensures { result.now ≡ fault_word self }
    {
        match self {
            FaultKind::Magic(_) => "magic",
            FaultKind::Format => "format",
            FaultKind::Length => "length",
            FaultKind::Version => "version",
            FaultKind::Interface => "interface",
            FaultKind::Truncated => "truncated",
        }
    }
}

impl Display for FaultKind {
    fn fmt<W: Write>(&self, f: &mut Formatter<W>) -> fmt::Result {
        f.write_str(self.word())
    }
}

/// A fault of a capture, which ends its reading. `Display` is `WORD at PLACE`.
#[derive(Clone, Copy, Debug, PartialEq, Eq, Error)]
#[error("{kind} at {place}")]
pub struct CaptureFault {
    pub kind: FaultKind,
    /// The number of the octet that shows it, from 1; for `Truncated` the number of all octets.
    pub place: u64,
}
