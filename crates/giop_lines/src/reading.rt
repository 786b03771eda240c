//! A line, read back.

ghost use Rattle.std.specs.Prelude.{◌≡◌, ◌<◌, ◌++◌, codes, decimal, true, IfSome};
ghost use Rattle.giop_lines.specs.Lines.{line_text, statement_text, prefixed_by_number, IsStatement};

use crate::captures::capture_line;
use crate::line::{DumpLine, Statement};
use crate::messages::message_line;
use crate::names::is_printable_text;
use crate::numbers::ordinal;
use crate::paths::path_before_space;
use crate::streams::{stream_fault_or_total_line, stream_line};
use crate::words::{after, split_at_space, split_at_space_if_any};

/// The greatest length of a line without its LF, in octets.
pub const LINE_MAX: usize = 8192;

/// What a line was made of. There is nothing if no dump can have the line.
pub fn read(line: &[u8]) -> Option<DumpLine<'_>>
    ensures spelled { IfSome result (λ l. line.now ≡ line_text l) }
    ensures fields { IfSome result (λ l. IsStatement l.said) }
{
    if line.len() > LINE_MAX {
        return None;
    }
    let (stream, rest) = number_after_letter_or_zero(line, b"s");
    let (message, text) = number_after_letter_or_zero(rest, b"m");
    let known = if message > 0 {
        message_line(text, stream > 0)
    } else if stream > 0 {
        stream_line(text)
    } else {
        match stream_fault_or_total_line(text) {
            Some(said) => Some(said),
            None => capture_line(text),
        }
    };
    let said = match known {
        Some(said) => said,
        None => later_version_line(text, stream, message)?,
    };
    Some(DumpLine {
        stream,
        message,
        said,
    })
}

/// The number that follows this letter at the front of a line, and what follows it; or 0 and the whole line if there is no
/// such number.
fn number_after_letter_or_zero<'a>(line: &'a [u8], letter: &[u8]) -> (u64, &'a [u8])
    ensures { line.now ≡ prefixed_by_number letter.now result.0 result.1.now }
{
    match number_after_letter(line, letter) {
        Some(found) => found,
        None => (0, line),
    }
}

fn number_after_letter<'a>(line: &'a [u8], letter: &[u8]) -> Option<(u64, &'a [u8])>
    ensures { IfSome result (λ r. line.now ≡ prefixed_by_number letter.now r.0 r.1.now) }
{
    let (digits, rest) = split_at_space(after(line, letter)?)?;
    Some((ordinal(digits)?, rest))
}

/// Reads a line about a stream or a message that isn't known, or a value of a kind that isn't known: a later version may
/// have them.
fn later_version_line(text: &[u8], stream: u64, message: u64) -> Option<Statement<'_>>
    ensures spelled { IfSome result (λ s. text.now ≡ statement_text s) }
    ensures fields { IfSome result IsStatement }
{
    if !is_printable_text(text) {
        return None;
    }
    let (front, behind) = split_at_space_if_any(text);
    if (stream > 0 || message > 0)
        && is_unknown_word(front, 2, &WORDS)
        && has_letters_after_hyphens(front)
        && is_none_or_filled(behind)
    {
        return Some(Statement::Later(text));
    }
    if message == 0 {
        return None;
    }
    let (_, behind) = path_before_space(text)?;
    let (kind, value) = split_at_space(behind)?;
    if is_unknown_word(kind, 1, &KINDS) && !value.is_empty() {
        Some(Statement::Later(text))
    } else {
        None
    }
}

/// Whether something follows the space, if there is one.
fn is_none_or_filled(behind: Option<&[u8]>) -> bool {
    match behind {
        Some(rest) => !rest.is_empty(),
        None => true,
    }
}

/// The words that lines about streams and messages begin with.
const WORDS: [&[u8]; 18] = [
    b"end",
    b"start",
    b"call",
    b"time",
    b"answers",
    b"rest",
    b"continues",
    b"cancelled",
    b"raises",
    b"fault",
    b"unfinished",
    b"header",
    b"exception",
    b"body",
    b"stream",
    b"closed",
    b"total",
    b"capture",
];

/// The kinds of values.
const KINDS: [&[u8]; 20] = [
    b"octet",
    b"ulong",
    b"long",
    b"boolean",
    b"enum",
    b"count",
    b"short",
    b"ushort",
    b"longlong",
    b"ulonglong",
    b"float",
    b"double",
    b"char",
    b"encapsulation",
    b"order",
    b"string",
    b"octets",
    b"wstring",
    b"wchar",
    b"rest",
];

/// Whether a word isn't a known one: it is of small letters and hyphens, and the letters before its first hyphen are at
/// least `least` and no known word.
fn is_unknown_word(word: &[u8], least: usize, known: &[&[u8]]) -> bool {
    let mut first = word.len();
    for (i, b) in word.iter().enumerate() {
        if *b == b'-' {
            first = first.min(i);
        } else if !b.is_ascii_lowercase() {
            return false;
        }
    }
    first >= least && !is_one_of(&word[..first], known)
}

/// Whether a word is one of these.
fn is_one_of(word: &[u8], others: &[&[u8]]) -> bool {
    others.iter().any(|other| word == *other)
}

/// Whether a small letter follows each hyphen of a word.
fn has_letters_after_hyphens(word: &[u8]) -> bool {
    for i in 0..word.len() {
        if word[i] == b'-' && (i + 1 == word.len() || word[i + 1] == b'-') {
            return false;
        }
    }
    true
}
