//! The labels of a union: their values, and the numbers of the discriminator's type that they name.
ghost use Rattle.std.specs.Prelude.{◌≡◌, ◌^◌, ◌<◌, ◌≤◌, pos, length, map, position};
ghost use Rattle.std.specs.Str.{bytes_eq};
ghost use Rattle.giop_sig.specs.Outcomes.{Gives};
ghost use Rattle.giop_sig.specs.Table.{prim as prim_node};
ghost use Rattle.giop_sig.specs.Scopes.{below, if_at_most, enumerator_number, label_number};
ghost use Rattle.giop_sig.specs.Grammar.{Plain, Below};
ghost use Rattle.giop_sig.specs.Views.{node_view, HasCountableParts};
ghost use Rattle.giop_sig.specs.Labels.{value_view};
ghost use Rattle.giop_sig.specs.UnionReading.{word_value, value_at};

use crate::entries::Entry;
use crate::parse_stop::ParseError;
use crate::read_types::refused;
use giop_cdr::{Number, Prim};
use giop_tokens::{SigFaultKind, Token, is_reserved, misplaced, next};

/// How many octets a name may have.
const NAME_MAX: usize = 64;

/// The value of a label.
#[derive(Clone, Copy, Drop)]
pub(crate) enum LabelValue<'a> {
    /// A number.
    Plain(u64),
    /// A negative number, without its sign.
    Below(u64),
    /// `true` or `false`.
    Truth(bool),
    /// The name of an enumerator.
    Enumerator(&'a [u8]),
}

/// The value of a word, which the text begins with. `version_3` says whether the file is of version 3.
fn word_value<'a>(
    version_3: bool,
    text: &[u8],
    name: &'a [u8],
    rest: &'a [u8],
) -> Result<(LabelValue<'a>, &'a [u8]), ParseError>
    ensures { Gives (λ x. (value_view x.0, x.1.now)) result
        (word_value version_3 text.now name.now rest.now) }
{
    if name == b"true".as_slice() {
        return Ok((LabelValue::Truth(true), rest));
    }
    if name == b"false".as_slice() {
        return Ok((LabelValue::Truth(false), rest));
    }
    if is_reserved(version_3, name) {
        return Err(ParseError::Refused(misplaced(text)));
    }
    if name.len() > NAME_MAX {
        return Err(ParseError::Refused(refused(SigFaultKind::Limit, text)));
    }
    Ok((LabelValue::Enumerator(name), rest))
}

/// The value of the label that the text begins with. `version_3` says whether the file is of version 3.
#[tactic(auto, unfolding(crate::specs::UnionReading::value_at))]
pub(crate) fn value_at(version_3: bool, text: &[u8]) -> Result<(LabelValue<'_>, &[u8]), ParseError>
    ensures { Gives (λ x. (value_view x.0, x.1.now)) result (value_at version_3 text.now) }
{
    let (token, rest) = next(text)?;
    match token {
        Some(Token::Word(name)) => word_value(version_3, text, name, rest),
        Some(Token::Number(n)) => Ok((LabelValue::Plain(n), rest)),
        Some(Token::Negative(n)) => Ok((LabelValue::Below(n), rest)),
        _ => Err(ParseError::Refused(misplaced(text))),
    }
}

/// A number of at most `most`, as a signed one.
fn signed(most: u64, n: u64) -> Option<Number>
    requires { most < 2 ^ 63 }
    ensures { result ≡ if_at_most most n (Number.Signed (pos n)) }
{
    if n <= most {
        Some(Number::Signed(n as i64))
    } else {
        None
    }
}

/// A number of at most `most`, as an unsigned one.
fn unsigned(most: u64, n: u64) -> Option<Number>
    ensures { result ≡ if_at_most most n (Number.Unsigned n) }
{
    if n <= most {
        Some(Number::Unsigned(n))
    } else {
        None
    }
}

/// A negative number, which without its sign is at most `most`.
fn signed_below(most: u64, n: u64) -> Option<Number>
    requires { most ≤ 2 ^ 63 }
    ensures { result ≡ if_at_most most n (Number.Signed (below n)) }
{
    if n > most {
        None
    } else if n == 9_223_372_036_854_775_808 {
        Some(Number::Signed(i64::MIN))
    } else {
        Some(Number::Signed(0 - (n as i64)))
    }
}

/// The value of a primitive type that a number names.
fn plain_label(prim: Prim, n: u64) -> Option<Number>
    ensures { result ≡ label_number (prim_node prim) (Plain n) }
{
    match prim {
        Prim::Char => {
            if n <= 255 {
                Some(Number::Char(n as u8))
            } else {
                None
            }
        }
        Prim::Short => signed(32_767, n),
        Prim::UShort => unsigned(65_535, n),
        Prim::Long => signed(2_147_483_647, n),
        Prim::ULong => unsigned(4_294_967_295, n),
        Prim::LongLong => signed(9_223_372_036_854_775_807, n),
        Prim::ULongLong => unsigned(18_446_744_073_709_551_615, n),
        _ => None,
    }
}

/// The value of a primitive type that a negative number names.
fn below_label(prim: Prim, n: u64) -> Option<Number>
    ensures { result ≡ label_number (prim_node prim) (Below n) }
{
    match prim {
        Prim::Short => signed_below(32_768, n),
        Prim::Long => signed_below(2_147_483_648, n),
        Prim::LongLong => signed_below(9_223_372_036_854_775_808, n),
        _ => None,
    }
}

/// The value of a primitive type that the value of a label names.
fn prim_label(prim: Prim, value: LabelValue<'_>) -> Option<Number>
    ensures { result ≡ label_number (prim_node prim) (value_view value.entry) }
{
    match value {
        LabelValue::Plain(n) => plain_label(prim, n),
        LabelValue::Below(n) => below_label(prim, n),
        LabelValue::Truth(truth) => match prim {
            Prim::Boolean => Some(Number::Truth(truth)),
            _ => None,
        },
        LabelValue::Enumerator(_) => None,
    }
}

/// The enumerator with this name.
fn enumerator(names: &[Vec<u8>], name: &[u8]) -> Option<Number>
    requires { length names.now ≤ 1024 }
    ensures { result ≡ enumerator_number (position (bytes_eq name.now)
        (map (λ n. n.items) names.now)) }
{
    let index = names.iter().position(|one| name == one.as_slice())?;
    Some(Number::Unsigned(index as u64))
}

/// The value of a discriminator's type that the value of a label names.
pub(crate) fn label_number(switch: &Entry, value: LabelValue<'_>) -> Option<Number>
    requires { HasCountableParts switch.now }
    ensures { result ≡ label_number (node_view switch.now) (value_view value.entry) }
{
    match switch {
        Entry::Prim(prim) => prim_label(*prim, value),
        Entry::Enumeration(names) => match value {
            LabelValue::Enumerator(name) => enumerator(names, name),
            _ => None,
        },
        _ => None,
    }
}
