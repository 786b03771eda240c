//! Each row is read as what it is. That a line that is read is spelled as its fields is proved, so these follow from
//! the form of the line.

use crate::line_rows::ROWS;
use giop_lines::{
    Content, DumpLine, LINE_MAX, PathPart, Statement, Value, first_octet, first_part, integer,
    number, ordinal, read,
};
use std::test::Fail;

/// Which line one is, in the words of the rows.
fn form(said: &Statement<'_>) -> &'static str {
    match said {
        Statement::Start(_) => "start",
        Statement::Value(_, value) => form_of_value(value),
        Statement::Rest(_, _) => "rest",
        Statement::Call(_) => "call",
        Statement::Time(_) => "time",
        Statement::Answers(_) => "answers",
        Statement::Raises(_) => "raises",
        Statement::Continues(_) => "continues",
        Statement::Cancelled(_) => "cancelled",
        Statement::Fault(_) => "fault",
        Statement::Unfinished => "unfinished",
        Statement::End => "end",
        Statement::Stream(_) => "stream",
        Statement::StreamFault(_) => "broken",
        Statement::Closed(_) => "closed",
        Statement::Total(_) => "total",
        Statement::CaptureFault(_) => "capture",
        Statement::CaptureTotal(_) => "totals",
        Statement::Later(_) => "later",
    }
}

fn form_of_value(value: &Value<'_>) -> &'static str {
    match value {
        Value::Named(_, _) => "named",
        Value::Piece(piece) => match piece.content {
            Content::Text => "text",
            Content::Rest => "left",
            _ => "octets",
        },
        _ => "value",
    }
}

/// Whether a line is what its row says.
fn is_wanted(line: Option<DumpLine<'_>>, wanted: &str) -> bool {
    match line {
        None => wanted == "none",
        Some(line) => {
            let mut words = wanted.split(' ');
            let stream = words.next().and_then(|word| number(word.as_bytes()));
            let message = words.next().and_then(|word| number(word.as_bytes()));
            stream == Some(line.stream)
                && message == Some(line.message)
                && words.next() == Some(form(&line.said))
        }
    }
}

#[test]
fn each_line_is_read_as_what_it_is(rt: HostRuntime) {
    for row in ROWS.split('\n') {
        match row.split_once(" | ") {
            Some((wanted, line)) => assert!(rt; is_wanted(read(line.as_bytes()), wanted), "{row}"),
            None => assert!(rt; false, "{row}"),
        }
    }
}

#[test]
fn a_line_has_at_most_8192_octets(rt: HostRuntime) -> Result<(), Fail> {
    let mut line = Vec::new(rt.alloc());
    line.extend_from_slice(b"m1 hello ")?;
    line.resize(LINE_MAX, b'a')?;
    assert!(rt; is_wanted(read(&line), "0 1 later"));
    line.push(b'a')?;
    assert!(rt; is_wanted(read(&line), "none"));
    Ok(())
}

#[test]
fn numbers_are_read(rt: HostRuntime) {
    assert!(rt; number(b"18446744073709551615") == Some(u64::MAX));
    assert!(rt; number(b"0") == Some(0) && ordinal(b"0") == None && ordinal(b"7") == Some(7));
    assert!(rt; integer(b"-7") == Some(-7) && integer(b"7") == Some(7) && integer(b"-0") == None);
}

#[test]
fn a_path_is_gone_through_by_parts(rt: HostRuntime) {
    let body = match first_part(b"body.n[7]") {
        Some((PathPart::Root(root), rest)) => root == b"body".as_slice()
            && rest == b".n[7]".as_slice(),
        _ => false,
    };
    let name = match first_part(b".n[7]") {
        Some((PathPart::Name(name), rest)) => name == b"n".as_slice() && rest == b"[7]".as_slice(),
        _ => false,
    };
    let index = match first_part(b"[7]") {
        Some((PathPart::Index(index), rest)) => index == 7 && rest.is_empty(),
        _ => false,
    };
    assert!(rt; body && name && index && first_part(b"").is_none());
}

#[test]
fn an_escape_is_one_octet(rt: HostRuntime) {
    let escape = match first_octet(b"\\xc3a") {
        Some((octet, rest)) => octet == 0xc3 && rest == b"a".as_slice(),
        None => false,
    };
    let plain = match first_octet(b"a") {
        Some((octet, rest)) => octet == b'a' && rest.is_empty(),
        None => false,
    };
    assert!(rt; escape && plain && first_octet(b"\\x41").is_none());
    assert!(rt; first_octet(b"\"").is_none());
}
