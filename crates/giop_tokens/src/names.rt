//! Names: words that aren't reserved and aren't too long.
ghost use Rattle.std.specs.Prelude.{◌≡◌, map, bytes_eq};
ghost use Rattle.std.specs.List.{list_any};
ghost use Rattle.giop_tokens.specs.Reading.{Gives};
ghost use Rattle.giop_tokens.specs.Names.{reserved_words, later_reserved_words, is_reserved, too_long, identifier_at, operation_name_at};

use crate::fault::{SigFaultKind, TokenError};
use crate::lexer::octets_left_at_token;
use crate::readers::{misplaced, word};

/// The greatest length of a name, in octets.
const NAME_MAX: usize = 64;
/// The greatest length of an operation's name, in octets.
const OPERATION_NAME_MAX: usize = 128;

/// Whether a word is among these words.
fn is_one_of(word: &[u8], others: &[&[u8]]) -> bool
    ensures { result ≡ list_any (bytes_eq word.now) (map (λ o. o.now) others.now) }
{
    others.iter().any(|other| word == *other)
}

/// Whether a word is reserved, so that it can't be a name. `version_3` tells whether the file has version 3.
#[tactic(auto, unfolding(crate::specs::Names::is_reserved))]
pub fn is_reserved(version_3: bool, word: &[u8]) -> bool
    ensures { result ≡ is_reserved version_3 word.now }
{
    is_always_reserved(word) || (version_3 && is_reserved_in_version_3(word))
}

/// Whether a word is reserved in every file.
fn is_always_reserved(word: &[u8]) -> bool
    ensures { result ≡ list_any (bytes_eq word.now) reserved_words }
{
    is_one_of(
        word,
        &[
            b"signatures",
            b"enum",
            b"struct",
            b"union",
            b"switch",
            b"case",
            b"default",
            b"exception",
            b"operation",
            b"void",
            b"in",
            b"out",
            b"inout",
            b"true",
            b"false",
            b"string",
            b"Object",
            b"sequence",
            b"octet",
            b"char",
            b"boolean",
            b"short",
            b"ushort",
            b"long",
            b"ulong",
            b"longlong",
            b"ulonglong",
            b"float",
            b"double",
            b"return",
            b"encapsulation",
        ],
    )
}

/// Whether a word is reserved only in files of version 3.
fn is_reserved_in_version_3(word: &[u8]) -> bool
    ensures { result ≡ list_any (bytes_eq word.now) later_reserved_words }
{
    is_one_of(
        word,
        &[
            b"any",
            b"TypeCode",
            b"wchar",
            b"wstring",
            b"fixed",
            b"longdouble",
        ],
    )
}

/// The refusal of the first token of a text, if that is a name that is too long.
fn too_long(text: &[u8]) -> TokenError
    ensures { result ≡ too_long text.now }
{
    TokenError {
        kind: SigFaultKind::Limit,
        left: octets_left_at_token(text),
    }
}

/// Reads a name: a word that isn't reserved, of at most 64 octets. `version_3` tells whether the file has version 3.
#[tactic(auto, unfolding(crate::specs::Names::identifier_at))]
pub fn identifier(version_3: bool, text: &[u8]) -> Result<(&[u8], &[u8]), TokenError>
    ensures { Gives (λ x. (x.0.now, x.1.now)) result (identifier_at version_3 text.now) }
{
    let (name, rest) = word(text)?;
    if is_reserved(version_3, name) {
        return Err(misplaced(text));
    }
    if name.len() > NAME_MAX {
        return Err(too_long(text));
    }
    Ok((name, rest))
}

/// Reads an operation's name: any word of at most 128 octets.
#[tactic(auto, unfolding(crate::specs::Names::operation_name_at))]
pub fn operation_name(text: &[u8]) -> Result<(&[u8], &[u8]), TokenError>
    ensures { Gives (λ x. (x.0.now, x.1.now)) result (operation_name_at text.now) }
{
    let (name, rest) = word(text)?;
    if name.len() > OPERATION_NAME_MAX {
        return Err(too_long(text));
    }
    Ok((name, rest))
}
