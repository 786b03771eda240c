//! Texts and their tokens, and texts in which something is no token.

use crate::rows::{LINES, READ, REFUSED, number_of, row_of};
use crate::spelled::{add_tokens, expect, line_in, told_of};
use giop_tokens::{SigFault, SigFaultKind, TokenError};
use std::alloc::Global;
use std::process::Abort;
use std::test::Fail;

/// What the rows of a table expect.
#[derive(Clone, Copy)]
enum Rule {
    Tokens,
    TokenError,
    Line,
}

#[test]
fn each_text_is_told(rt: HostRuntime) -> Result<(), Fail> {
    each_is_told(&rt, READ, Rule::Tokens)?;
    each_is_told(&rt, REFUSED, Rule::TokenError)?;
    each_is_told(&rt, LINES, Rule::Line)?;
    let kind = SigFaultKind::OutOfMemory;
    assert!(rt; told_of(b"a", kind, 1) == Some(SigFault { line: 0, kind }));
    Ok(())
}

fn each_is_told(rt: &(impl Abort + AllocGlobal), rows: &[u8], rule: Rule) -> Result<(), Fail> {
    for row in rows.split(|octet| *octet == b'=') {
        let (want, text) = row_of(row);
        expect(rt, is_told(rt.alloc(), rule, want, text)?, row);
    }
    Ok(())
}

fn is_told(alloc: Global, rule: Rule, want: &[u8], text: &[u8]) -> Result<bool, Fail> {
    match rule {
        Rule::Tokens => is_read(alloc, want, text),
        Rule::TokenError => is_refused(alloc, want, text),
        Rule::Line => Ok(is_in_line(want, text)),
    }
}

fn is_read(alloc: Global, want: &[u8], text: &[u8]) -> Result<bool, Fail> {
    let mut told = Vec::new(alloc);
    let refusal = add_tokens(alloc, text, &mut told)?;
    Ok(refusal.is_none() && told.as_slice() == want)
}

fn is_refused(alloc: Global, want: &[u8], text: &[u8]) -> Result<bool, Fail> {
    let mut told = Vec::new(alloc);
    let refusal = add_tokens(alloc, text, &mut told)?;
    Ok(is_refused_as(text, refusal, want))
}

/// Whether the refusal of a text is Token, with the number of octets left and the line that a row expects.
fn is_refused_as(text: &[u8], refusal: Option<TokenError>, want: &[u8]) -> bool {
    let Some(TokenError { kind, left }) = refusal else {
        return false;
    };
    if kind != SigFaultKind::Token || left != number_of(want, 0) {
        return false;
    }
    match told_of(text, kind, left) {
        Some(fault) => fault.kind == kind && fault.line as usize == number_of(want, 1),
        None => false,
    }
}

fn is_in_line(want: &[u8], text: &[u8]) -> bool {
    match line_in(text, number_of(want, 0)) {
        Some(line) => line as usize == number_of(want, 1),
        None => false,
    }
}
