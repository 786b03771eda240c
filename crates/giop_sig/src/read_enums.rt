//! Reads enums.
ghost use Rattle.std.specs.Prelude.{◌≡◌, map, []};
ghost use Rattle.giop_sig.specs.Outcomes.{Gives};
ghost use Rattle.giop_sig.specs.Repeats.{in_steps};
ghost use Rattle.giop_sig.specs.EnumReading.{names_step, too_many_names, names_at, enumeration_at};

use crate::builtin::copied_names;
use crate::draft::Draft;
use crate::entries::Entry;
use crate::parse_stop::ParseError;
use crate::read_items::{
    declared_name_at, identity_at, new_name_at, non_empty_list_at, type_end_at,
};
use crate::read_types::refused;
use giop_tokens::{Mark, SigFaultKind, mark, octets_left_at_token, starts_with_mark};
use std::alloc::Global;

/// How many names an enum may have.
const NAMES_MAX: usize = 1024;

/// An enumerator, and the mark after it. Answers the rest, and whether the mark was the closing
/// one.
#[tactic(auto, unfolding(crate::specs::EnumReading::names_step, crate::specs::EnumReading::enumerator_at))]
fn names_step<'a>(
    version_3: bool,
    names: &mut Vec<&'a [u8]>,
    text: &'a [u8],
) -> Result<(&'a [u8], bool), ParseError>
    ensures { Gives (λ x. (x.1, (map (λ n. n.now) names.new.items, x.0.now))) result
        (names_step version_3 (map (λ n. n.now) names.old.items, text.now)) }
{
    let (name, rest) = new_name_at(version_3, NAMES_MAX, names.as_slice(), text)?;
    names.push(name)?;
    match starts_with_mark(rest, Mark::Comma)? {
        Some(after) => Ok((after, false)),
        None => Ok((mark(rest, Mark::CloseBrace)?, true)),
    }
}

/// The enumerators of an enum that isn't empty.
fn names_until_close<'a>(
    alloc: Global,
    version_3: bool,
    text: &'a [u8],
) -> Result<(Vec<&'a [u8]>, &'a [u8]), ParseError>
    ensures { Gives (λ x. (map (λ n. n.now) x.0.items, x.1.now)) result
        (in_steps (names_step version_3) too_many_names 1025 ([], text.now)) }
{
    let mut names = Vec::new(alloc);
    let mut rest = text;
    for _ in 0..1025u32 {
        let (after, closed) = names_step(version_3, &mut names, rest)?;
        if closed {
            return Ok((names, after));
        }
        rest = after;
    }
    Err(ParseError::Refused(refused(SigFaultKind::Limit, rest)))
}

/// The enumerators of an enum, after its opening mark.
#[tactic(auto, unfolding(crate::specs::EnumReading::names_at))]
fn names_at<'a>(
    alloc: Global,
    version_3: bool,
    text: &'a [u8],
) -> Result<(Vec<&'a [u8]>, &'a [u8]), ParseError>
    ensures { Gives (λ x. (map (λ n. n.now) x.0.items, x.1.now)) result
        (names_at version_3 text.now) }
{
    names_until_close(alloc, version_3, non_empty_list_at(text)?)
}

/// An enum, after its first word. Answers the rest.
#[tactic(auto, unfolding(crate::specs::EnumReading::enumeration_at))]
pub(crate) fn enumeration<'a>(
    alloc: Global,
    draft: &mut Draft,
    text: &'a [u8],
) -> Result<&'a [u8], ParseError>
    ensures { Gives (λ x. (draft.new, x.now)) result (enumeration_at draft.old text.now) }
{
    draft.laws();
    let count = draft.types_declared();
    let (name, rest) = declared_name_at(draft, None, count, text)?;
    let (id, rest) = identity_at(draft, rest)?;
    let rest = mark(rest, Mark::OpenBrace)?;
    let (names, rest) = names_at(alloc, draft.is_version_3(), rest)?;
    let kept = copied_names(alloc, names.as_slice())?;
    type_end_at(
        draft,
        octets_left_at_token(text),
        name,
        id,
        Entry::Enumeration(kept),
        rest,
    )
}
