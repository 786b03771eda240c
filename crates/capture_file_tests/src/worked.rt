//! Captures worked by hand: what is read of them holds by computation.

ghost use Rattle.capture_file_tests.specs.Worked.{OfRecords, OfBlocks, OfLengths, OfEnd};

/// The packets and the faults of these captures, by the definition. The function has no body; it is
/// called for its contract.
pub fn worked_captures()
    ensures packets { OfRecords }
    ensures blocks { OfBlocks }
    ensures lengths { OfLengths }
    ensures short { OfEnd }
{}
