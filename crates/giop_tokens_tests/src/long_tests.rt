//! A text of a mebibyte with one thing in it is read quickly: no reader takes a number of steps that grows with the square
//! of the text.

use crate::spelled::{line_in, repeated};
use giop_tokens::{TokenError, identifier, is_at_end, next, number, repository_id, word};
use std::process::Abort;
use std::test::Fail;

const SIZE: usize = 1_048_576;

/// The function that reads a text.
#[derive(Clone, Copy)]
enum Reader {
    Word,
    Name,
    Number,
    Id,
    End,
    Lines,
    Tokens,
}

/// The front of a text, and the octet that it goes on with up to its full length; the function that reads it; and what that
/// returns: the number of a word's octets, the number of octets that are left when it refuses, or the number of lines or
/// tokens.
static TEXTS: [(&[u8], &[u8], Reader, usize); 11] = [
    (b"", b"w", Reader::Word, SIZE),
    (b"", b"w", Reader::Name, SIZE),
    (b"", b"1", Reader::Number, SIZE),
    (b"-", b"1", Reader::Number, SIZE + 1),
    (b"\"", b"r", Reader::Id, SIZE + 1),
    (b"//", b" ", Reader::End, 0),
    (b"//", b"/", Reader::End, 0),
    (b"//", b"\n", Reader::End, 0),
    (b"//", b"//\n", Reader::End, 0),
    (b"", b"\n", Reader::Lines, SIZE),
    (b"", b"a;", Reader::Tokens, SIZE),
];

#[test]
fn a_mebibyte_of_one_thing_is_read(rt: HostRuntime) -> Result<(), Fail> {
    for (front, part, reader, want) in &TEXTS {
        is_read(&rt, front, part, *reader, *want)?;
    }
    Ok(())
}

fn is_read(
    rt: &(impl Abort + AllocGlobal),
    front: &[u8],
    part: &[u8],
    reader: Reader,
    want: usize,
) -> Result<(), Fail> {
    let times = if part.len() == 2 { SIZE / 2 } else { SIZE };
    let text = repeated(rt.alloc(), front, part, times, b"")?;
    assert!(rt; answer_of(reader, &text) == Some(want));
    Ok(())
}

fn answer_of(reader: Reader, text: &[u8]) -> Option<usize> {
    match reader {
        Reader::Word => match word(text) {
            Ok((name, _)) => Some(name.len()),
            Err(_) => None,
        },
        Reader::Name => left_by(identifier(false, text).err()),
        Reader::Number => left_by(number(text).err()),
        Reader::Id => left_by(repository_id(text).err()),
        Reader::End => left_by(is_at_end(text).err()),
        Reader::Lines => line_in(text, 0).map(|line| line as usize),
        Reader::Tokens => count(text),
    }
}

/// How many octets are left when a reader refuses a text; 0 if it doesn't refuse.
fn left_by(refusal: Option<TokenError>) -> Option<usize> {
    match refusal {
        Some(refusal) => Some(refusal.left),
        None => Some(0),
    }
}

/// How many tokens a text has; None if one of them is refused.
fn count(text: &[u8]) -> Option<usize> {
    let mut rest = text;
    for number in 0..text.len() + 1 {
        match next(rest) {
            Ok((Some(_), after)) => rest = after,
            Ok((None, _)) => return Some(number),
            Err(_) => return None,
        }
    }
    None
}
