//! Tokens and refusals as text, and texts of many octets.

use giop_tokens::{Mark, SigFault, SigFaultKind, Token, TokenError, fault_in, line_of, next};
use std::alloc::Global;
use std::process::Abort;
use std::test::Fail;

/// Stops the test if something in this row isn't as expected.
pub fn expect(rt: &impl Abort, is_right: bool, row: &[u8]) {
    assert!(rt; is_right, "{row:?}");
}

fn word_of(mark: Mark) -> &'static [u8] {
    match mark {
        Mark::OpenBrace => b"{",
        Mark::CloseBrace => b"}",
        Mark::OpenParenthesis => b"(",
        Mark::CloseParenthesis => b")",
        Mark::OpenBracket => b"[",
        Mark::CloseBracket => b"]",
        Mark::OpenAngle => b"<",
        Mark::CloseAngle => b">",
        Mark::Comma => b",",
        Mark::Semicolon => b";",
        Mark::Colon => b":",
    }
}

fn add_number(alloc: Global, kind: &[u8], number: u64, told: &mut Vec<u8>) -> Result<(), Fail> {
    let digits = format!(in alloc; "{number}")?;
    told.extend_from_slice(kind)?;
    told.extend_from_slice(digits.as_bytes())?;
    Ok(())
}

fn add_octets(kind: &[u8], octets: &[u8], told: &mut Vec<u8>) -> Result<(), Fail> {
    told.extend_from_slice(kind)?;
    told.extend_from_slice(octets)?;
    Ok(())
}

/// Adds the text of a token: its kind and its content.
fn add_token(alloc: Global, token: Token, told: &mut Vec<u8>) -> Result<(), Fail> {
    if !told.is_empty() {
        told.push(b' ')?;
    }
    match token {
        Token::Word(word) => add_octets(b"word ", word, told),
        Token::Number(number) => add_number(alloc, b"number ", number, told),
        Token::Negative(number) => add_number(alloc, b"negative ", number, told),
        Token::Repository(id) => add_octets(b"id ", id, told),
        Token::Mark(mark) => add_octets(b"mark ", word_of(mark), told),
    }
}

/// Adds the texts of all tokens of a text. Returns the refusal, if there is one.
pub fn add_tokens(
    alloc: Global,
    text: &[u8],
    told: &mut Vec<u8>,
) -> Result<Option<TokenError>, Fail> {
    let mut rest = text;
    for _ in 0..text.len() + 1 {
        match next(rest) {
            Ok((Some(token), after)) => {
                add_token(alloc, token, told)?;
                rest = after;
            }
            Ok((None, _)) => return Ok(None),
            Err(refusal) => return Ok(Some(refusal)),
        }
    }
    Err(Fail::from("more tokens than octets"))
}

/// The line of a place in a text that is no longer than a signature file may be.
pub fn line_in(text: &[u8], left: usize) -> Option<u32> {
    if text.len() > 1_048_576 {
        return None;
    }
    Some(line_of(text, left))
}

/// The fault for a refusal of a text that is no longer than a signature file may be.
pub fn told_of(text: &[u8], kind: SigFaultKind, left: usize) -> Option<SigFault> {
    if text.len() > 1_048_576 {
        return None;
    }
    Some(fault_in(text, TokenError { kind, left }))
}

/// Makes a text: its front, then a part this many times, and then its end.
pub fn repeated(
    alloc: Global,
    front: &[u8],
    part: &[u8],
    times: usize,
    end: &[u8],
) -> Result<Vec<u8>, Fail> {
    let mut all = Vec::from_slice(alloc, front)?;
    for _ in 0..times {
        all.extend_from_slice(part)?;
    }
    all.extend_from_slice(end)?;
    Ok(all)
}
