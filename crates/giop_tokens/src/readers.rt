//! Readers of one token. Each returns what follows the token. It refuses with Token if there is no token, and with Syntax,
//! at the token, if that is another one or the text ends.
ghost use Rattle.std.specs.Prelude.{◌≡◌, option_map};
ghost use Rattle.giop_tokens.specs.Reading.{Gives};
ghost use Rattle.giop_tokens.specs.Tokens.{token_view};
ghost use Rattle.giop_tokens.specs.Readers.{misplaced, token_passes, is_the_mark, is_the_word, mark_at, keyword_at, word_at, number_at, repository_at, mark_if, keyword_if, end_at};

use crate::fault::{SigFaultKind, TokenError};
use crate::lexer::{Token, next, octets_left_at_token};
use crate::marks::Mark;

/// The refusal of the first token of a text that can't stand there, or of the end of the text.
pub fn misplaced(text: &[u8]) -> TokenError
    ensures { result ≡ misplaced text.now }
{
    TokenError {
        kind: SigFaultKind::Syntax,
        left: octets_left_at_token(text),
    }
}

/// Whether a token is this mark.
fn is_the_mark(token: Option<Token<'_>>, wanted: Mark) -> bool
    ensures { result ≡ token_passes (is_the_mark wanted) (option_map token_view token.entry) }
{
    match token {
        Some(Token::Mark(found)) => found.octet() == wanted.octet(),
        _ => false,
    }
}

/// Whether a token is this word.
fn is_the_word(token: Option<Token<'_>>, wanted: &[u8]) -> bool
    ensures { result ≡ token_passes (is_the_word wanted.now) (option_map token_view token.entry) }
{
    match token {
        Some(Token::Word(found)) => found == wanted,
        _ => false,
    }
}

/// Reads this mark.
#[tactic(auto, unfolding(crate::specs::Readers::next_is))]
pub fn mark(text: &[u8], wanted: Mark) -> Result<&[u8], TokenError>
    ensures { Gives (λ x. x.now) result (mark_at wanted text.now) }
{
    let (token, rest) = next(text)?;
    if is_the_mark(token, wanted) {
        return Ok(rest);
    }
    Err(misplaced(text))
}

/// Reads this word, which the grammar quotes.
#[tactic(auto, unfolding(crate::specs::Readers::next_is))]
pub fn keyword<'a>(text: &'a [u8], wanted: &[u8]) -> Result<&'a [u8], TokenError>
    ensures { Gives (λ x. x.now) result (keyword_at wanted.now text.now) }
{
    let (token, rest) = next(text)?;
    if is_the_word(token, wanted) {
        return Ok(rest);
    }
    Err(misplaced(text))
}

/// Reads any word. It doesn't begin with a digit.
#[tactic(auto, unfolding(crate::specs::Readers::next_as))]
pub fn word(text: &[u8]) -> Result<(&[u8], &[u8]), TokenError>
    ensures { Gives (λ x. (x.0.now, x.1.now)) result (word_at text.now) }
{
    let (token, rest) = next(text)?;
    match token {
        Some(Token::Word(word)) => Ok((word, rest)),
        _ => Err(misplaced(text)),
    }
}

/// Reads a number.
#[tactic(auto, unfolding(crate::specs::Readers::next_as))]
pub fn number(text: &[u8]) -> Result<(u64, &[u8]), TokenError>
    ensures { Gives (λ x. (x.0, x.1.now)) result (number_at text.now) }
{
    let (token, rest) = next(text)?;
    match token {
        Some(Token::Number(n)) => Ok((n, rest)),
        _ => Err(misplaced(text)),
    }
}

/// Reads a repository id, and returns it without its quotation marks.
#[tactic(auto, unfolding(crate::specs::Readers::next_as))]
pub fn repository_id(text: &[u8]) -> Result<(&[u8], &[u8]), TokenError>
    ensures { Gives (λ x. (x.0.now, x.1.now)) result (repository_at text.now) }
{
    let (token, rest) = next(text)?;
    match token {
        Some(Token::Repository(id)) => Ok((id, rest)),
        _ => Err(misplaced(text)),
    }
}

/// What follows this mark, if the text begins with it. There is nothing if the text begins with another token, or ends.
#[tactic(auto, unfolding(crate::specs::Readers::next_if))]
pub fn starts_with_mark(text: &[u8], wanted: Mark) -> Result<Option<&[u8]>, TokenError>
    ensures { Gives (λ x. option_map (λ r. r.now) x) result (mark_if wanted text.now) }
{
    let (token, rest) = next(text)?;
    Ok(if is_the_mark(token, wanted) {
        Some(rest)
    } else {
        None
    })
}

/// What follows this word, if the text begins with it. There is nothing if the text begins with another token, or ends.
#[tactic(auto, unfolding(crate::specs::Readers::next_if))]
pub fn starts_with_keyword<'a>(
    text: &'a [u8],
    wanted: &[u8],
) -> Result<Option<&'a [u8]>, TokenError>
    ensures { Gives (λ x. option_map (λ r. r.now) x) result (keyword_if wanted.now text.now) }
{
    let (token, rest) = next(text)?;
    Ok(if is_the_word(token, wanted) {
        Some(rest)
    } else {
        None
    })
}

/// Whether the text ends: only white space and comments are left.
#[tactic(auto, unfolding(crate::specs::Readers::end_at))]
pub fn is_at_end(text: &[u8]) -> Result<bool, TokenError>
    ensures { Gives (λ x. x) result (end_at text.now) }
{
    let (token, _) = next(text)?;
    Ok(token.is_none())
}
