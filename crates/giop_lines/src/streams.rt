//! Lines about a stream, after its number.

ghost use Rattle.std.specs.Prelude.{◌≡◌, ◌++◌, codes, IfSome};
ghost use Rattle.giop_lines.specs.Lines.{statement_text, word_with_number, spaced_name, found_word, AreNonzero, IsStatement};

use crate::line::{Statement, StreamStart, Total};
use crate::messages::fault_of_text;
use crate::names::{is_endpoint, is_fault_or_closing_word, is_time};
use crate::numbers::{number, ordinal};
use crate::words::{after, before, split_at_space, split_at_space_if_any};

/// Reads a line about a stream, if it is a known one.
pub fn stream_line(text: &[u8]) -> Option<Statement<'_>>
    ensures spelled { IfSome result (λ s. text.now ≡ statement_text s) }
    ensures fields { IfSome result IsStatement }
{
    if let Some(closing) = after(text, b"closed ") {
        return if is_fault_or_closing_word(closing) {
            Some(Statement::Closed(closing))
        } else {
            None
        };
    }
    match stream_start_line(text) {
        Some(said) => Some(said),
        None => stream_fault_or_total_line(text),
    }
}

/// Reads a line about a stream that a dump of a single stream has too.
pub fn stream_fault_or_total_line(text: &[u8]) -> Option<Statement<'_>>
    ensures spelled { IfSome result (λ s. text.now ≡ statement_text s) }
    ensures fields { IfSome result IsStatement }
{
    if let Some(behind) = after(text, b"stream fault ") {
        return Some(Statement::StreamFault(fault_of_text(behind)?));
    }
    let (messages, rest) = split_at_space(after(text, b"total messages ")?)?;
    let (faults, rest) = split_at_space(after(rest, b"faults ")?)?;
    let octets = after(rest, b"octets ")?;
    Some(Statement::Total(Total {
        messages: number(messages)?,
        faults: number(faults)?,
        octets: number(octets)?,
    }))
}

fn stream_start_line(text: &[u8]) -> Option<Statement<'_>>
    ensures spelled { IfSome result (λ s. text.now ≡ statement_text s) }
    ensures fields { IfSome result IsStatement }
{
    let (source, target, rest) = endpoints_and_rest(text)?;
    let (time, (with, behind), found) = time_with_behind_found(rest)?;
    Some(Statement::Stream(StreamStart {
        source,
        target,
        time,
        with,
        behind,
        found,
    }))
}

/// The two endpoints of a stream, and what follows them.
fn endpoints_and_rest(text: &[u8]) -> Option<(&[u8], &[u8], &[u8])>
    ensures { IfSome result (λ e. text.now ≡ codes "stream " ++ (e.0.now ++ (codes " > "
        ++ (e.1.now ++ (codes " at " ++ e.2.now))))) }
{
    let (source, rest) = split_at_space(after(text, b"stream ")?)?;
    let (target, rest) = split_at_space(after(rest, b"> ")?)?;
    let rest = after(rest, b"at ")?;
    if is_endpoint(source) && is_endpoint(target) {
        Some((source, target, rest))
    } else {
        None
    }
}

/// The time at which a stream begins, the stream that lives with it, the octets before it, and whether it was found.
fn time_with_behind_found(text: &[u8]) -> Option<(&[u8], (Option<u64>, Option<u64>), bool)>
    ensures spelled { IfSome result (λ s. text.now ≡ s.0.now
        ++ (word_with_number (codes " with s") s.1.0
        ++ (word_with_number (codes " behind ") s.1.1 ++ found_word s.2))) }
    ensures fields { IfSome result (λ s. AreNonzero s.1) }
{
    let (rest, found) = without_found(text);
    let (time, tail) = split_at_space_if_any(rest);
    let places = with_and_behind(tail)?;
    if is_time(time) {
        Some((time, places, found))
    } else {
        None
    }
}

/// A text without the ` found` that it may end with, and whether it does.
fn without_found(text: &[u8]) -> (&[u8], bool)
    ensures { text.now ≡ result.0.now ++ found_word result.1 }
{
    match before(text, b" found") {
        Some(rest) => (rest, true),
        None => (text, false),
    }
}

/// The number of the stream that lives with a stream, and how many octets of its flow come before it.
fn with_and_behind(text: Option<&[u8]>) -> Option<(Option<u64>, Option<u64>)>
    ensures spelled { IfSome result (λ p. spaced_name text.entry
        ≡ word_with_number (codes " with s") p.0 ++ word_with_number (codes " behind ") p.1) }
    ensures fields { IfSome result AreNonzero }
{
    match text {
        None => Some((None, None)),
        Some(text) => given_with_and_behind(text),
    }
}

fn given_with_and_behind(text: &[u8]) -> Option<(Option<u64>, Option<u64>)>
    ensures spelled { IfSome result (λ p. codes " " ++ text.now
        ≡ word_with_number (codes " with s") p.0 ++ word_with_number (codes " behind ") p.1) }
    ensures fields { IfSome result AreNonzero }
{
    if let Some(behind) = after(text, b"behind ") {
        return Some((None, Some(ordinal(behind)?)));
    }
    let (with, rest) = split_at_space_if_any(after(text, b"with s")?);
    let with = Some(ordinal(with)?);
    match rest {
        None => Some((with, None)),
        Some(rest) => Some((with, Some(ordinal(after(rest, b"behind ")?)?))),
    }
}
