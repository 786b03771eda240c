//! Lines about a message, after its number.

ghost use Rattle.std.specs.Prelude.{◌≡◌, ◌++◌, codes, true, IfSome};
ghost use Rattle.giop_lines.specs.Names.{is_fault_or_closing_word};
ghost use Rattle.giop_lines.specs.Lines.{statement_text, fault_text, IsStatement};

use crate::line::{Answers, Call, Fault, Start, Statement, Time};
use crate::names::{
    are_seconds, is_fault_or_closing_word, is_graphic_name, is_message_type, is_time,
};
use crate::numbers::{number, ordinal, ulong};
use crate::paths::path_before_space;
use crate::pieces::rest_line;
use crate::values::{order_of_word, value};
use crate::words::{after, split_at_space, split_at_space_if_any, without_more};

/// Reads a line about a message, if it is a known one. `is_captured` tells whether it is in a dump of a capture.
pub fn message_line(text: &[u8], is_captured: bool) -> Option<Statement<'_>>
    ensures spelled { IfSome result (λ s. text.now ≡ statement_text s) }
    ensures fields { IfSome result IsStatement }
{
    if let Some((path, behind)) = path_before_space(text) {
        return Some(Statement::Value(path, value(behind)?));
    }
    match text {
        b"end" => return Some(Statement::End),
        b"unfinished" => return Some(Statement::Unfinished),
        [b's', ..] => return start_line(text),
        [b'f', ..] => return Some(Statement::Fault(fault_of_text(after(text, b"fault ")?)?)),
        [b'r', b'e', ..] => return rest_line(text),
        [b'c', ..] => return call_or_other_message_line(text),
        _ => {}
    }
    if is_captured {
        captured_message_line(text)
    } else {
        None
    }
}

/// Reads a line that names another message, or the call that the message is.
fn call_or_other_message_line(text: &[u8]) -> Option<Statement<'_>>
    ensures spelled { IfSome result (λ s. text.now ≡ statement_text s) }
    ensures fields { IfSome result IsStatement }
{
    if text.starts_with(b"call ") {
        return call_line(text);
    }
    if let Some(behind) = after(text, b"continues m") {
        return Some(Statement::Continues(ordinal(behind)?));
    }
    Some(Statement::Cancelled(ordinal(after(text, b"cancelled by m")?)?))
}

/// Reads a line about a message that only a dump of a capture has.
fn captured_message_line(text: &[u8]) -> Option<Statement<'_>>
    ensures spelled { IfSome result (λ s. text.now ≡ statement_text s) }
    ensures fields { IfSome result IsStatement }
{
    if text.starts_with(b"time ") {
        return time_line(text);
    }
    if text.starts_with(b"answers ") {
        return answers_line(text);
    }
    let id = after(text, b"raises ")?;
    if is_graphic_name(id) {
        Some(Statement::Raises(id))
    } else {
        None
    }
}

fn start_line(text: &[u8]) -> Option<Statement<'_>>
    ensures spelled { IfSome result (λ s. text.now ≡ statement_text s) }
    ensures fields { IfSome result IsStatement }
{
    let (minor, rest) = split_at_space(after(text, b"start 1.")?)?;
    let (order_word, rest) = split_at_space(rest)?;
    let (kind, rest) = split_at_space(rest)?;
    let (size, more) = without_more(after(rest, b"size ")?);
    let minor = u8::try_from(number(minor)?).ok()?;
    if minor > 2 || !is_message_type(kind) {
        return None;
    }
    Some(Statement::Start(Start {
        minor,
        order: order_of_word(order_word)?,
        kind,
        size: ulong(size)?,
        more,
    }))
}

fn call_line(text: &[u8]) -> Option<Statement<'_>>
    ensures spelled { IfSome result (λ s. text.now ≡ statement_text s) }
    ensures fields { IfSome result IsStatement }
{
    let (id, names) = split_at_space(after(text, b"call ")?)?;
    let (operation, interface) = split_at_space_if_any(names);
    let is_known = match interface {
        None => true,
        Some(name) => is_graphic_name(name),
    };
    if !is_graphic_name(operation) || !is_known {
        return None;
    }
    Some(Statement::Call(Call {
        id: ulong(id)?,
        operation,
        interface,
    }))
}

fn time_line(text: &[u8]) -> Option<Statement<'_>>
    ensures spelled { IfSome result (λ s. text.now ≡ statement_text s) }
    ensures fields { IfSome result IsStatement }
{
    let (time, behind) = split_at_space_if_any(after(text, b"time ")?);
    if !is_time(time) {
        return None;
    }
    let packet = match behind {
        None => None,
        Some(behind) => Some(ordinal(after(behind, b"packet ")?)?),
    };
    Some(Statement::Time(Time { time, packet }))
}

fn answers_line(text: &[u8]) -> Option<Statement<'_>>
    ensures spelled { IfSome result (λ s. text.now ≡ statement_text s) }
    ensures fields { IfSome result IsStatement }
{
    let (stream, rest) = split_at_space(after(text, b"answers s")?)?;
    let (message, rest) = split_at_space(after(rest, b"m")?)?;
    let (operation, rest) = split_at_space(rest)?;
    let seconds = after(rest, b"after ")?;
    if !is_graphic_name(operation) || !are_seconds(seconds) {
        return None;
    }
    Some(Statement::Answers(Answers {
        stream: ordinal(stream)?,
        message: ordinal(message)?,
        operation,
        seconds,
    }))
}

/// Reads the word and the place of a fault.
pub fn fault_of_text(text: &[u8]) -> Option<Fault<'_>>
    ensures spelled { IfSome result (λ f. text.now ≡ fault_text f) }
    ensures fields { IfSome result (λ f. is_fault_or_closing_word f.word.now ≡ true) }
{
    let (fault_word, rest) = split_at_space(text)?;
    let place = number(after(rest, b"at ")?)?;
    if is_fault_or_closing_word(fault_word) {
        Some(Fault {
            word: fault_word,
            place,
        })
    } else {
        None
    }
}
