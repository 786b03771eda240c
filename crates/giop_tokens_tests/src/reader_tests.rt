//! Readers: the token that they take, and the token that a text begins with.

use giop_tokens::{
    Mark, TokenError, identifier, is_at_end, keyword, mark, number, operation_name, repository_id,
    starts_with_keyword, starts_with_mark, word,
};

#[test]
fn readers_take_one_token(rt: HostRuntime) {
    let differs = taken_differs(b" x");
    assert!(rt; differs.is_empty(), "{differs}");
    let differs = mark_ahead_differs(b" x");
    assert!(rt; differs.is_empty(), "the mark of {differs}");
    let differs = keyword_ahead_differs(b" x");
    assert!(rt; differs.is_empty(), "the keyword of {differs}");
    assert!(rt; is_at_end(b" // x").is_ok_and(|is_end| is_end));
}

/// The reader that doesn't take its token, if one doesn't.
fn taken_differs(after: &[u8]) -> &'static str {
    if after_mark(mark(b" ; x", Mark::Semicolon)) != after {
        return "a mark";
    }
    if after_mark(keyword(b"\nenum x", b"enum")) != after {
        return "a keyword";
    }
    if !matches!(number(b"12 x"), Ok((12, _))) {
        return "a number";
    }
    if !takes(word(b"enum x"), b"enum", after) {
        return "a word";
    }
    if !takes(repository_id(b"\"IDL:a\" x"), b"IDL:a", after) {
        return "a repository id";
    }
    if !takes(identifier(false, b"A x"), b"A", after) {
        return "an identifier";
    }
    if takes(operation_name(b"void x"), b"void", after) {
        ""
    } else {
        "an operation's name"
    }
}

/// What follows after the mark or keyword that a reader took.
fn after_mark(taken: Result<&[u8], TokenError>) -> &[u8] {
    match taken {
        Ok(rest) => rest,
        Err(_) => b"refused",
    }
}

/// Whether a reader took this text, and left that one.
fn takes(taken: Result<(&[u8], &[u8]), TokenError>, told: &[u8], after: &[u8]) -> bool {
    match taken {
        Ok((name, rest)) => name == told && rest == after,
        Err(_) => false,
    }
}

const ANOTHER: &[u8] = b"another";

/// What follows after the mark or keyword that a text begins with.
fn after_first(found: Result<Option<&[u8]>, TokenError>) -> &[u8] {
    match found {
        Ok(Some(rest)) => rest,
        Ok(None) => ANOTHER,
        Err(_) => b"refused",
    }
}

/// The text for which it is told wrong whether it begins with a mark, if there is one.
fn mark_ahead_differs(after: &[u8]) -> &'static str {
    if after_first(starts_with_mark(b"[ x", Mark::OpenBracket)) != after {
        return "[ x";
    }
    if after_first(starts_with_mark(b"[ x", Mark::CloseBracket)) != ANOTHER {
        return "[ x, which is no ]";
    }
    if after_first(starts_with_mark(b"x", Mark::OpenBracket)) != ANOTHER {
        return "x";
    }
    if after_first(starts_with_mark(b" ", Mark::OpenBracket)) != ANOTHER {
        "no token"
    } else {
        ""
    }
}

/// The text for which it is told wrong whether it begins with the keyword `in`, if there is one.
fn keyword_ahead_differs(after: &[u8]) -> &'static str {
    if after_first(starts_with_keyword(b"in x", b"in")) != after {
        return "in x";
    }
    if after_first(starts_with_keyword(b"inout x", b"in")) != ANOTHER {
        return "inout x";
    }
    if after_first(starts_with_keyword(b"1", b"in")) != ANOTHER {
        return "1";
    }
    if after_first(starts_with_keyword(b"", b"in")) != ANOTHER {
        "no token"
    } else {
        ""
    }
}
