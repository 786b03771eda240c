//! Names and repository ids: the words that can't be names, and how long a name may be.

use crate::rows::{FREE, LATER_RESERVED, RESERVED};
use crate::spelled::{expect, repeated};
use giop_tokens::{
    SigFaultKind, TokenError, identifier, is_reserved, operation_name, repository_id,
};
use std::process::Abort;
use std::test::Fail;

#[test]
fn reserved_words_are_no_names(rt: HostRuntime) {
    each_is_told(&rt, RESERVED, [true, true, false, false, true]);
    each_is_told(&rt, LATER_RESERVED, [false, true, true, false, true]);
    each_is_told(&rt, FREE, [false, false, true, true, true]);
}

fn each_is_told(rt: &impl Abort, words: &str, want: [bool; 5]) {
    for word in words.split(' ') {
        expect(rt, told_of(word.as_bytes()) == want, word.as_bytes());
    }
}

/// Whether a word is reserved in an older file; whether it is in a file of version 3; whether it can be a name in either of
/// them; and whether it can be an operation's name.
fn told_of(word: &[u8]) -> [bool; 5] {
    [
        is_reserved(false, word),
        is_reserved(true, word),
        identifier(false, word).is_ok(),
        identifier(true, word).is_ok(),
        operation_name(word).is_ok(),
    ]
}

/// What a row of sizes is about.
#[derive(Clone, Copy)]
enum Sized {
    Name,
    Operation,
    Id,
}

/// The number of octets of a name, of an operation's name or of a repository id, and why it is refused, if it is.
static SIZES: [(Sized, usize, Option<SigFaultKind>); 10] = [
    (Sized::Name, 64, None),
    (Sized::Name, 65, Some(SigFaultKind::Limit)),
    (Sized::Name, 129, Some(SigFaultKind::Limit)),
    (Sized::Operation, 65, None),
    (Sized::Operation, 128, None),
    (Sized::Operation, 129, Some(SigFaultKind::Limit)),
    (Sized::Id, 0, Some(SigFaultKind::Token)),
    (Sized::Id, 1, None),
    (Sized::Id, 128, None),
    (Sized::Id, 129, Some(SigFaultKind::Token)),
];

#[test]
fn names_and_repository_ids_have_their_lengths(rt: HostRuntime) -> Result<(), Fail> {
    for (of, size, want) in &SIZES {
        is_limited(&rt, *of, *size, *want)?;
    }
    Ok(())
}

fn is_limited(
    rt: &(impl Abort + AllocGlobal),
    of: Sized,
    size: usize,
    want: Option<SigFaultKind>,
) -> Result<(), Fail> {
    let text = repeated(rt.alloc(), b"\"", b"n", size, b"\"")?;
    expect(rt, is_told(refusal_of(&text, of), want), &text);
    Ok(())
}

/// Why the text between the quotation marks is refused, if it is. A repository id is read with the marks.
fn refusal_of(text: &[u8], of: Sized) -> Option<TokenError> {
    let inner = match text {
        [_, inner @ ..] => inner,
        [] => text,
    };
    match of {
        Sized::Name => identifier(false, inner).err(),
        Sized::Operation => operation_name(inner).err(),
        Sized::Id => repository_id(text).err(),
    }
}

fn is_told(refusal: Option<TokenError>, want: Option<SigFaultKind>) -> bool {
    match (refusal, want) {
        (Some(refusal), Some(kind)) => refusal.kind == kind,
        (None, None) => true,
        _ => false,
    }
}
