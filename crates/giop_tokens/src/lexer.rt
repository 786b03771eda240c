//! The first token of a text.
ghost use Rattle.std.specs.Prelude.{◌≡◌, ◌≤◌, false, length, drop, slice_index, option_map};
ghost use Rattle.std.specs.List.{prefix_len};
ghost use Rattle.giop_tokens.specs.Tokens.{after_gap, gap_step, first, is_white_octet, is_word_octet, is_id_octet, next, octets_left_at_token, token_view, word_token, negative_token, number_of, repository_token, token_or_refusal, mark};
ghost use Rattle.giop_tokens.specs.Marks.{mark_of};
ghost use Rattle.giop_tokens.specs.Reading.{Gives};

use crate::fault::{SigFaultKind, TokenError};
use crate::marks::{Mark, mark_of};
use crate::numbers::{is_digit, number_of};

/// The greatest length of a repository id, in octets.
const ID_MAX: usize = 128;

/// A token of a text.
#[derive(Clone, Copy, Debug, PartialEq, Eq, Drop)]
pub enum Token<'a> {
    /// A run of letters, digits and `_`, as long as it can be, that doesn't begin with a digit.
    Word(&'a [u8]),
    /// A decimal number.
    Number(u64),
    /// A number below zero, without its sign; at least 1.
    Negative(u64),
    /// A repository id, without its quotation marks.
    Repository(&'a [u8]),
    /// A mark.
    Mark(Mark),
}

/// Whether an octet is white space: a space, a tab, CR or LF.
fn is_white_octet(b: u8) -> bool
    ensures { result ≡ is_white_octet b }
{
    b == b' ' || b == b'\t' || b == b'\r' || b == b'\n'
}

/// Whether an octet may stand in a word: it is a letter, a digit or `_`.
fn is_word_octet(b: u8) -> bool
    ensures { result ≡ is_word_octet b }
{
    b.is_ascii_lowercase() || b.is_ascii_uppercase() || is_digit(b) || b == b'_'
}

/// Whether an octet may stand in a repository id: printed ASCII, but neither a space nor a quotation mark.
fn is_id_octet(b: u8) -> bool
    ensures { result ≡ is_id_octet b }
{
    b >= 0x21 && b <= 0x7e && b != b'"'
}

/// The octet at this index, or 0 after the end.
fn octet_at(text: &[u8], i: usize) -> u8
    ensures { result ≡ slice_index text.now i }
{
    if i < text.len() { text[i] } else { 0 }
}

/// Whether a comment goes on after an octet. There is no answer if a token begins at the octet.
fn gap_step(comment: bool, octet: u8, after: u8) -> Option<bool>
    ensures { result ≡ gap_step comment octet after }
{
    if comment {
        return Some(octet != b'\n');
    }
    if octet == b'/' && after == b'/' {
        return Some(true);
    }
    if is_white_octet(octet) {
        Some(false)
    } else {
        None
    }
}

/// What follows after white space and comments.
fn after_gap(text: &[u8]) -> &[u8]
    ensures { result.now ≡ after_gap false text.now }
{
    let mut comment = false;
    for i in 0..text.len() {
        match gap_step(comment, text[i], octet_at(text, i + 1)) {
            None => return &text[i..],
            Some(more) => comment = more,
        }
    }
    &text[text.len()..]
}

/// How many octets at the front belong to a word.
fn word_len(text: &[u8]) -> usize
    ensures len { result ≡ prefix_len is_word_octet text.now }
    ensures bound { result ≤ length text.now }
{
    for (i, b) in text.iter().enumerate() {
        if !is_word_octet(*b) {
            return i;
        }
    }
    text.len()
}

/// How many octets at the front belong to a repository id.
fn id_len(text: &[u8]) -> usize
    ensures len { result ≡ prefix_len is_id_octet text.now }
    ensures bound { result ≤ length text.now }
{
    for (i, b) in text.iter().enumerate() {
        if !is_id_octet(*b) {
            return i;
        }
    }
    text.len()
}

/// The token that a run of word octets is: a number if it begins with a digit, else a word.
fn word_token(word: &[u8]) -> Option<Token<'_>>
    ensures { option_map token_view result ≡ word_token word.now }
{
    if is_digit(octet_at(word, 0)) {
        return Some(Token::Number(number_of(word)?));
    }
    Some(Token::Word(word))
}

/// The number below zero that the word octets after a `-` are.
fn negative_token(word: &[u8]) -> Option<Token<'_>>
    ensures { option_map token_view result ≡ negative_token (number_of word.now) }
{
    match number_of(word)? {
        0 => None,
        n => Some(Token::Negative(n)),
    }
}

/// The repository id that ends before a quotation mark.
fn repository_token<'a>(id: &'a [u8], after: &[u8]) -> Option<Token<'a>>
    ensures { option_map token_view result ≡ repository_token id.now after.now }
{
    if id.len() >= 1 && id.len() <= ID_MAX && octet_at(after, 0) == b'"' {
        Some(Token::Repository(id))
    } else {
        None
    }
}

/// A token and what follows it, or the refusal at this place if there is no token.
fn token_or_refusal<'a>(
    text: &[u8],
    token: Option<Token<'a>>,
    rest: &'a [u8],
) -> Result<(Option<Token<'a>>, &'a [u8]), TokenError>
    ensures { Gives
        (λ x. (option_map token_view x.0, x.1.now))
        result
        (token_or_refusal text.now (option_map token_view token.entry) rest.now) }
{
    match token {
        None => Err(TokenError {
            kind: SigFaultKind::Token,
            left: text.len(),
        }),
        Some(token) => Ok((Some(token), rest)),
    }
}

/// The first token of a text that begins with neither white space nor a comment.
#[tactic(auto, unfolding(crate::specs::Tokens::first))]
fn first(text: &[u8]) -> Result<(Option<Token<'_>>, &[u8]), TokenError>
    ensures { Gives (λ x. (option_map token_view x.0, x.1.now)) result (first text.now) }
{
    match text {
        [] => Ok((None, text)),
        [octet, after @ ..] => {
            if is_word_octet(*octet) {
                let (word, rest) = text.split_at(word_len(text));
                return token_or_refusal(text, word_token(word), rest);
            }
            if *octet == b'-' {
                let (word, rest) = after.split_at(word_len(after));
                return token_or_refusal(text, negative_token(word), rest);
            }
            if *octet == b'"' {
                let (id, rest) = after.split_at(id_len(after));
                return token_or_refusal(text, repository_token(id, rest), after_first_octet(rest));
            }
            token_or_refusal(text, mark_token(*octet), after)
        }
    }
}

/// The mark that is written as this octet.
fn mark_token(octet: u8) -> Option<Token<'static>>
    ensures { option_map token_view result ≡ option_map mark (mark_of octet) }
{
    Some(Token::Mark(mark_of(octet)?))
}

/// What follows after the first octet.
fn after_first_octet(text: &[u8]) -> &[u8]
    ensures { result.now ≡ drop 1 text.now }
{
    match text {
        [] => text,
        [_, rest @ ..] => rest,
    }
}

/// The first token of a text, after white space and comments, and what follows it. At the end of the text there is none.
#[tactic(auto, unfolding(crate::specs::Tokens::next))]
pub fn next(text: &[u8]) -> Result<(Option<Token<'_>>, &[u8]), TokenError>
    ensures { Gives (λ x. (option_map token_view x.0, x.1.now)) result (next text.now) }
{
    first(after_gap(text))
}

/// The place of the first token of a text: how many octets are left from the token on. It is 0 at the end of the text.
pub fn octets_left_at_token(text: &[u8]) -> usize
    ensures { result ≡ octets_left_at_token text.now }
{
    after_gap(text).len()
}
