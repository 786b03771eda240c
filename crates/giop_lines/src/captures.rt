//! Lines about a capture.

ghost use Rattle.std.specs.Prelude.{◌≡◌, IfSome};
ghost use Rattle.giop_lines.specs.Lines.{statement_text, IsStatement};

use crate::line::{CaptureTotal, Statement};
use crate::messages::fault_of_text;
use crate::numbers::number;
use crate::words::{after, split_at_space, split_at_space_if_any};

/// Reads a line about a capture, if it is a known one.
pub fn capture_line(text: &[u8]) -> Option<Statement<'_>>
    ensures spelled { IfSome result (λ s. text.now ≡ statement_text s) }
    ensures fields { IfSome result IsStatement }
{
    if let Some(behind) = after(text, b"capture fault ") {
        return Some(Statement::CaptureFault(fault_of_text(behind)?));
    }
    let (streams, rest) = split_at_space(after(text, b"total streams ")?)?;
    let (messages, rest) = split_at_space(after(rest, b"messages ")?)?;
    let (faults, rest) = split_at_space(after(rest, b"faults ")?)?;
    let (packets, rest) = split_at_space(after(rest, b"packets ")?)?;
    let (octets, rest) = split_at_space_if_any(after(rest, b"octets ")?);
    let other = match rest {
        None => None,
        Some(rest) => Some(number(after(rest, b"other ")?)?),
    };
    Some(Statement::CaptureTotal(CaptureTotal {
        streams: number(streams)?,
        messages: number(messages)?,
        faults: number(faults)?,
        packets: number(packets)?,
        octets: number(octets)?,
        other,
    }))
}
