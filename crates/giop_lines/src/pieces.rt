//! Pieces of a content: their offset, their octets, and whether more of the content follows.

ghost use Rattle.std.specs.Prelude.{◌≡◌, ◌++◌, codes, decimal, true, IfSome};
ghost use Rattle.std.specs.List.{list_all};
ghost use Rattle.giop_lines.specs.Numbers.{is_hex_digit};
ghost use Rattle.giop_lines.specs.Texts.{AreHexOctets};
ghost use Rattle.giop_lines.specs.Values.{value_text, IsValue, content_word, spaced_digits, IsHexContent, AreHexOctetsOrNone};
ghost use Rattle.giop_lines.specs.Lines.{statement_text, IsStatement};

use crate::line::{Content, Piece, Statement, Value};
use crate::numbers::{is_hex_digit, number, ulong};
use crate::texts::is_escaped_text;
use crate::words::{after, before, split_at_space, without_more};

/// The greatest number of octets in a piece.
const PIECE_MAX: u32 = 32;

/// Whether these are the digits of 1 to 32 octets.
fn are_hex_octets(digits: &[u8]) -> bool
    ensures { result ≡ true → AreHexOctets digits.now }
{
    !digits.is_empty()
        && digits.len() % 2 == 0
        && digits.len() as u64 / 2 <= u64::from(PIECE_MAX)
        && are_hex_digits(digits)
}

/// Whether each octet is a lower-case hexadecimal digit.
fn are_hex_digits(digits: &[u8]) -> bool
    ensures { result ≡ list_all is_hex_digit digits.now }
{
    let mut are = true;
    for octet in digits {
        are &= is_hex_digit(*octet);
    }
    are
}

/// Reads a piece of a string, after the word of its kind.
pub fn text_piece(text: &[u8]) -> Option<Value<'_>>
    ensures spelled { IfSome result (λ v. codes "string " ++ text.now ≡ value_text v) }
    ensures fields { IfSome result IsValue }
{
    let (offset, rest) = split_at_space(after(text, b"@")?)?;
    let (quoted, more) = without_more(rest);
    let octets = before(after(quoted, b"\"")?, b"\"")?;
    if !is_escaped_text(octets, PIECE_MAX) {
        return None;
    }
    Some(Value::Piece(Piece {
        content: Content::Text,
        offset: ulong(offset)?,
        octets,
        more,
    }))
}

/// Reads a piece of octets, after the word of its kind.
pub fn octets_piece(content: Content, text: &[u8]) -> Option<Value<'_>>
    requires { IsHexContent content }
    ensures spelled { IfSome result (λ v. content_word content ++ text.now ≡ value_text v) }
    ensures fields { IfSome result IsValue }
{
    let (front, more) = without_more(after(text, b"@")?);
    let (offset, octets) = offset_and_octets(front)?;
    Some(Value::Piece(Piece {
        content,
        offset,
        octets,
        more,
    }))
}

/// The offset of a piece, and the digits of at most 32 octets.
fn offset_and_octets(text: &[u8]) -> Option<(u32, &[u8])>
    ensures spelled { IfSome result (λ p. text.now ≡ decimal p.0 ++ spaced_digits p.1.now) }
    ensures fields { IfSome result (λ p. AreHexOctetsOrNone p.1.now) }
{
    match split_at_space(text) {
        None => Some((ulong(text)?, b"".as_slice())),
        Some((offset, digits)) if are_hex_octets(digits) => Some((ulong(offset)?, digits)),
        Some(_) => None,
    }
}

/// Reads a part of what an encapsulation has after its value, after the word of its kind.
pub fn rest_piece(text: &[u8]) -> Option<Value<'_>>
    ensures spelled { IfSome result (λ v. codes "rest " ++ text.now ≡ value_text v) }
    ensures fields { IfSome result IsValue }
{
    let (offset, octets) = split_at_space(after(text, b"@")?)?;
    if !are_hex_octets(octets) {
        return None;
    }
    Some(Value::Piece(Piece {
        content: Content::Rest,
        offset: ulong(offset)?,
        octets,
        more: false,
    }))
}

/// Reads a part of what a message has after its body.
pub fn rest_line(text: &[u8]) -> Option<Statement<'_>>
    ensures spelled { IfSome result (λ s. text.now ≡ statement_text s) }
    ensures fields { IfSome result IsStatement }
{
    let (offset, octets) = split_at_space(after(text, b"rest @")?)?;
    if !are_hex_octets(octets) {
        return None;
    }
    Some(Statement::Rest(number(offset)?, octets))
}
