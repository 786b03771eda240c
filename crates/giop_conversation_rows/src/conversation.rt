//! The text of a conversation, parsed.

use super::connection::Direction;
use std::alloc::{AllocError, Global};

/// A conversation: its name, how many calls of each direction may be outstanding, the pieces that come once for each of a
/// range of numbers, the pieces after them, and the closing lines without the last line feed.
#[derive(Clone, Copy)]
pub struct Conversation<'a> {
    pub name: &'a str,
    pub calls: u32,
    pub numbers: (u32, u32),
    pub repeated: &'a str,
    pub pieces: &'a str,
    pub closing: &'a str,
}

impl<'a> Conversation<'a> {
    /// Parses a conversation.
    pub fn read(text: &'a str) -> Option<Conversation<'a>> {
        let (body, closing) = text.split_once("\nend\n")?;
        let (head, pieces) = body.split_once("\npiece ")?;
        let (name, head) = head.split_once('\n').unwrap_or((head, ""));
        let (calls, numbers) = head.split_once("each ").unwrap_or((head, ""));
        let (repeated, pieces) = split(pieces, numbers)?;
        Some(Conversation {
            name,
            calls: calls_of(calls)?,
            numbers: numbers_of(numbers)?,
            repeated,
            pieces,
            closing,
        })
    }
}

/// The pieces that come once for each number, and the pieces after them. If there is no range of numbers, all pieces are of
/// the second kind.
fn split<'a>(pieces: &'a str, numbers: &str) -> Option<(&'a str, &'a str)> {
    if numbers.is_empty() {
        return Some(("", pieces));
    }
    pieces.split_once("\nthen\npiece ")
}

/// How many calls may be outstanding, by this line; 128 if there is none.
fn calls_of(line: &str) -> Option<u32> {
    if line.is_empty() {
        return Some(128);
    }
    line.trim().strip_prefix("calls ")?.parse().ok()
}

/// The first and the last number of the range. If the text is empty, the range is empty.
fn numbers_of(text: &str) -> Option<(u32, u32)> {
    if text.is_empty() {
        return Some((1, 0));
    }
    let (first, last) = text.split_once("..")?;
    Some((first.parse().ok()?, last.parse().ok()?))
}

/// A piece: its direction, its octets in hexadecimal text, and the lines that they complete, without the last line feed.
#[derive(Clone, Copy)]
pub struct Piece<'a> {
    pub direction: Direction,
    pub digits: &'a str,
    pub lines: &'a str,
}

impl<'a> Piece<'a> {
    /// Parses a piece.
    pub fn read(text: &'a str) -> Option<Piece<'a>> {
        let (head, lines) = text.split_once('\n').unwrap_or((text, ""));
        let (direction, digits) = head.split_once(' ')?;
        Some(Piece {
            direction: direction_of(direction)?,
            digits,
            lines,
        })
    }

    /// The octets of the piece. `None` if the digits aren't hexadecimal, or if there isn't enough memory.
    pub fn octets(&self, alloc: Global) -> Option<Vec<u8>> {
        hex::decode(alloc, self.digits).ok()
    }

    /// The digits and the lines of the piece, with this number in place of each `#`.
    pub fn numbered(&self, alloc: Global, number: u32) -> Result<(String, String), AllocError> {
        let in_octets = format!(in alloc; "{number:08x}")?;
        let in_lines = format!(in alloc; "{number}")?;
        Ok((
            self.digits.replace(alloc, "#", &in_octets)?,
            self.lines.replace(alloc, "#", &in_lines)?,
        ))
    }
}

fn direction_of(word: &str) -> Option<Direction> {
    match word {
        ">" => Some(Direction::Forth),
        "<" => Some(Direction::Back),
        _ => None,
    }
}
