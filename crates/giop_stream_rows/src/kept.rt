//! What a row of a checkpoint has in place of a stream, parsed.

use super::row::named;

/// The parts of a row of a checkpoint. Octets are in hexadecimal text.
#[derive(Clone, Copy)]
pub struct Kept<'a> {
    /// The octets that were read before the checkpoint was saved. It is empty if it isn't saved again.
    pub front: &'a str,
    /// The octets of the checkpoint.
    pub checkpoint: &'a str,
    /// What the checkpoint leads to if one of its octets is complemented. It may be empty.
    pub damaged: &'a str,
    /// The octets that follow in the stream. It is empty if the checkpoint is refused.
    pub behind: &'a str,
}

impl<'a> Kept<'a> {
    /// Parses the text. Returns `None` if the text is the text of a stream.
    pub fn read(text: &'a str) -> Option<Kept<'a>> {
        let (front, text) = named(text, "front ");
        let text = text.strip_prefix("checkpoint\n")?;
        let (text, behind) = text.split_once("\nbehind\n").unwrap_or((text, ""));
        let (checkpoint, damaged) = text.split_once("\ncomplement ").unwrap_or((text, ""));
        Some(Kept {
            front,
            checkpoint,
            damaged,
            behind,
        })
    }
}

/// The first index at which the octet is complemented, the index after the last one, and what that may lead to, with ` or `
/// between two.
pub fn complement(text: &str) -> Option<(usize, usize, &str)> {
    let (first, rest) = text.split_once("..")?;
    let (last, wanted) = rest.split_once(' ')?;
    Some((first.parse().ok()?, last.parse().ok()?, wanted))
}
