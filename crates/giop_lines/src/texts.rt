//! The octets of a string as a line has them: octets that stand for themselves, and escapes.

ghost use Rattle.std.specs.Prelude.{◌≡◌, true};
ghost use Rattle.std.specs.List.{list_all};
ghost use Rattle.giop_print.specs.Text.{is_plain};
ghost use Rattle.giop_lines.specs.Texts.{IsFirstOctet, IsEscapeDigits, IsHexPair, IsEscapedText};

use crate::numbers::hex_digit_value;
use crate::words::after;

/// Whether an octet stands for itself: it is from 20 to 7e, but neither the quote nor the backslash.
fn is_plain(octet: u8) -> bool
    ensures { result ≡ is_plain octet }
{
    octet >= 0x20 && octet <= 0x7e && octet != b'"' && octet != b'\\'
}

/// Whether each octet stands for itself.
fn are_plain(text: &[u8]) -> bool
    ensures { result ≡ list_all is_plain text.now }
{
    let mut are = true;
    for octet in text {
        are &= is_plain(*octet);
    }
    are
}

/// The first octet of a text, and what follows it. An escape `\xHH` is one octet, and is used only for an octet that
/// doesn't stand for itself.
pub fn first_octet(text: &[u8]) -> Option<(u8, &[u8])>
    ensures { IsFirstOctet text.now result }
{
    let (octet, rest) = text.split_first()?;
    if is_plain(*octet) {
        return Some((*octet, rest));
    }
    octet_of_escape(after(text, b"\\x")?)
}

/// The octet whose two digits are at the front of a text, if it doesn't stand for itself, and what follows them.
fn octet_of_escape(digits: &[u8]) -> Option<(u8, &[u8])>
    ensures { IsEscapeDigits digits.now result }
{
    let (octet, rest) = hex_pair(digits)?;
    if is_plain(octet) {
        None
    } else {
        Some((octet, rest))
    }
}

/// The octet whose two hexadecimal digits are at the front of a text, and what follows them.
pub fn hex_pair(digits: &[u8]) -> Option<(u8, &[u8])>
    ensures { IsHexPair digits.now result }
{
    if digits.len() < 2 {
        return None;
    }
    let octet = hex_digit_value(digits[0])? * 16 + hex_digit_value(digits[1])?;
    Some((octet, &digits[2..]))
}

/// Whether this is the text of at most `most` octets.
pub fn is_escaped_text(text: &[u8], most: u32) -> bool
    ensures { result ≡ true → IsEscapedText most text.now }
{
    if are_plain(text) {
        return text.len() as u64 <= u64::from(most);
    }
    let mut rest = text;
    for _octet in 0..most {
        match first_octet(rest) {
            Some((_, next)) => rest = next,
            None => return rest.is_empty(),
        }
    }
    rest.is_empty()
}
