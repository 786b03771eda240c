//! Reads items, structs and exceptions.
ghost use Rattle.std.specs.Prelude.{◌≡◌, ◌<◌, ◌≤◌, ◌++◌, ◌∷◌, [], true, length, map, IfOk, Ok, None};
ghost use Rattle.std.specs.List.{All};
ghost use Rattle.std.specs.Map.{lookup};
ghost use Rattle.std.specs.Option.{option_map};
ghost use Rattle.std.specs.Str.{bytes_eq};
ghost use Rattle.giop_sig.specs.Outcomes.{Gives};
ghost use Rattle.giop_sig.specs.Scopes.{is_version_3, part, add_arrays};
ghost use Rattle.giop_sig.specs.ScopeViews.{IsKnown, IsNewIdentity};
ghost use Rattle.giop_sig.specs.Validity.{is_among};
ghost use Rattle.giop_sig.specs.UnionCases.{part_view};
ghost use Rattle.giop_sig.specs.Views.{node_view};
ghost use Rattle.giop_sig.specs.HeaderTypes.{IsAddable};
ghost use Rattle.giop_sig.specs.Table.{IsFormed, TakesOctet};
ghost use Rattle.giop_sig.specs.ItemReading.{new_name_at, declared_name_at, lengths_at, most_lengths, item_at, member_step, members_at, non_empty_list_at, identity_at, declaration_end_at, type_end_at, structure_at, new_repository_at, exception_at, announces_at, announcement_at, structure_after};

use crate::announced::TypeWord;
use crate::draft::Draft;
use crate::entries::{Entry, PartEntry};
use crate::parse_stop::ParseError;
use crate::part_name::PartName;
use crate::read_types::{enclosed_size_at, refused, type_at};
use crate::types::TypeId;
use giop_tokens::{
    Mark, SigFaultKind, Token, TokenError, identifier, mark, next, octets_left_at_token,
    repository_id, starts_with_mark,
};
use std::alloc::Global;

/// The greatest depth of a type.
const DEPTH_MAX: u32 = 24;
/// How many members a struct may have.
const MEMBERS_MAX: usize = 256;
/// How many types, exceptions or operations there may be.
pub(crate) const DECLARED_MAX: u32 = 4_096;

/// Whether a name is in a list.
pub(crate) fn is_among(seen: &[&[u8]], name: &[u8]) -> bool
    ensures { result ≡ is_among (map (λ n. n.now) seen.now) name.now }
{
    seen.iter().any(|other| *other == name)
}

/// A name that isn't in `seen`, which may have `most` names. `version_3` says whether the file is of
/// version 3.
#[tactic(auto, unfolding(crate::specs::ItemReading::new_name_at))]
pub(crate) fn new_name_at<'a>(
    version_3: bool,
    most: usize,
    seen: &[&[u8]],
    text: &'a [u8],
) -> Result<(&'a [u8], &'a [u8]), ParseError>
    ensures { Gives (λ x. (x.0.now, x.1.now)) result
        (new_name_at version_3 most (map (λ n. n.now) seen.now) text.now) }
{
    let (name, rest) = identifier(version_3, text)?;
    if is_among(seen, name) {
        return Err(ParseError::Refused(refused(SigFaultKind::Duplicate, text)));
    }
    if seen.len() >= most {
        return Err(ParseError::Refused(refused(SigFaultKind::Limit, text)));
    }
    Ok((name, rest))
}

/// The new name of an enum, struct, union or exception. `count` of these are declared. `word` is
/// the first word of a struct or union.
#[tactic(auto, unfolding(crate::specs::ItemReading::declared_name_at))]
pub(crate) fn declared_name_at<'a>(
    draft: &Draft,
    word: Option<TypeWord>,
    count: u32,
    text: &'a [u8],
) -> Result<(&'a [u8], &'a [u8]), ParseError>
    ensures { Gives (λ x. (x.0.now, x.1.now)) result
        (declared_name_at draft.now word count text.now) }
{
    let (name, rest) = identifier(draft.is_version_3(), text)?;
    if draft.is_name_taken(word, name) {
        return Err(ParseError::Refused(refused(SigFaultKind::Duplicate, text)));
    }
    if count >= DECLARED_MAX {
        return Err(ParseError::Refused(refused(SigFaultKind::Limit, text)));
    }
    Ok((name, rest))
}

/// How many lengths of arrays an item may have whose name ends before this text: in a file of
/// version 3 any number, and in an older one a single length.
fn most_lengths(version_3: bool, text: &[u8]) -> usize
    ensures { result ≡ most_lengths version_3 text.now }
{
    if version_3 { text.len() } else { 1 }
}

/// The lengths of arrays that come next, at most `most`, the outermost first; and the rest.
fn lengths_at<'a>(
    alloc: Global,
    most: usize,
    text: &'a [u8],
) -> Result<(Vec<u32>, &'a [u8]), ParseError>
    ensures gives { Gives (λ x. (x.0.items, x.1.now)) result (lengths_at most text.now) }
    ensures some { IfOk result (λ x. All (λ n. 0 < n) x.0.items) }
{
    let mut lengths = Vec::new(alloc);
    let mut rest = text;
    for _ in 0..most {
        let (length, after) = enclosed_size_at(Mark::OpenBracket, Mark::CloseBracket, rest)?;
        let Some(n) = length else {
            return Ok((lengths, after));
        };
        lengths.push(n)?;
        rest = after;
    }
    Ok((lengths, rest))
}

/// Adds arrays of these lengths in each other, the innermost first.
fn add_arrays(
    draft: &mut Draft,
    lengths: &mut Vec<u32>,
    element: TypeId,
) -> Result<TypeId, ParseError>
    requires known { IsKnown draft.old.table.types element.0 }
    requires some { All (λ n. 0 < n) lengths.old.items }
    ensures { Gives (λ t. (draft.new, t.0)) result
        (Ok (add_arrays lengths.old.items (draft.old, element.0))) }
{
    let mut t = element;
    while let Some(n) = lengths.pop() {
        t = draft.add(Entry::Array(n, t))?;
    }
    Ok(t)
}

/// An item: a type, a name that isn't in `seen`, and perhaps lengths of arrays.
#[tactic(auto, unfolding(crate::specs::ItemReading::item_at))]
pub(crate) fn item_at<'a>(
    alloc: Global,
    draft: &mut Draft,
    most: usize,
    seen: &[&[u8]],
    text: &'a [u8],
) -> Result<(&'a [u8], TypeId, &'a [u8]), ParseError>
    ensures { Gives (λ x. (draft.new, part x.0.now x.1.0, x.2.now)) result
        (item_at most (map (λ n. n.now) seen.now) draft.old text.now) }
{
    draft.laws();
    let version_3 = draft.is_version_3();
    let (element, rest) = type_at(alloc, draft, text)?;
    let (name, rest) = new_name_at(version_3, most, seen, rest)?;
    let (mut lengths, rest) = lengths_at(alloc, most_lengths(version_3, rest), rest)?;
    let t = add_arrays(draft, &mut lengths, element)?;
    Ok((name, t, rest))
}

/// A part with a name and a type.
pub(crate) fn part_of(alloc: Global, name: &[u8], type_id: TypeId) -> Result<PartEntry, ParseError>
    ensures { Gives part_view result (Ok (part name.now type_id.0)) }
{
    Ok(PartEntry {
        name: PartName::new(alloc, name)?,
        type_id,
    })
}

/// Adds a part after others.
pub(crate) fn add_part(
    alloc: Global,
    parts: &mut Vec<PartEntry>,
    name: &[u8],
    type_id: TypeId,
) -> Result<(), ParseError>
    ensures { Gives (λ x. map part_view parts.new.items) result
        (Ok (map part_view parts.old.items ++ part name.now type_id.0 ∷ [])) }
{
    parts.push(part_of(alloc, name, type_id)?)?;
    Ok(())
}

/// Reads the closing mark, or one more member. Answers whether it was the mark, and the rest.
#[tactic(auto, unfolding(crate::specs::ItemReading::member_step, crate::specs::ItemReading::member_at))]
fn member_step<'a>(
    alloc: Global,
    draft: &mut Draft,
    seen: &mut Vec<&'a [u8]>,
    parts: &mut Vec<PartEntry>,
    text: &'a [u8],
) -> Result<(bool, &'a [u8]), ParseError>
    ensures { Gives
        (λ x. (
          x.0,
          (
            draft.new,
            map (λ n. n.now) seen.new.items,
            map part_view parts.new.items,
            x.1.now,
          ),
        ))
        result
        (member_step (
          draft.old,
          map (λ n. n.now) seen.old.items,
          map part_view parts.old.items,
          text.now,
        )) }
{
    if let Some(rest) = starts_with_mark(text, Mark::CloseBrace)? {
        return Ok((true, rest));
    }
    let (name, t, rest) = item_at(alloc, draft, MEMBERS_MAX, seen.as_slice(), text)?;
    let rest = mark(rest, Mark::Semicolon)?;
    seen.push(name)?;
    add_part(alloc, parts, name, t)?;
    Ok((false, rest))
}

/// Members up to the closing mark.
fn members_at<'a>(
    alloc: Global,
    draft: &mut Draft,
    text: &'a [u8],
) -> Result<(Vec<PartEntry>, &'a [u8]), ParseError>
    ensures { Gives (λ x. (draft.new, map part_view x.0.items, x.1.now)) result
        (members_at draft.old text.now) }
{
    let mut seen = Vec::new(alloc);
    let mut parts = Vec::new(alloc);
    let mut rest = text;
    for _ in 0..257u32 {
        let (closed, after) = member_step(alloc, draft, &mut seen, &mut parts, rest)?;
        if closed {
            return Ok((parts, after));
        }
        rest = after;
    }
    Err(ParseError::Refused(refused(SigFaultKind::Limit, rest)))
}

/// A list that doesn't end at once.
#[tactic(auto, unfolding(crate::specs::ItemReading::non_empty_list_at))]
pub(crate) fn non_empty_list_at(text: &[u8]) -> Result<&[u8], ParseError>
    ensures { Gives (λ x. x.now) result (non_empty_list_at text.now) }
{
    match starts_with_mark(text, Mark::CloseBrace)? {
        None => Ok(text),
        Some(_) => Err(ParseError::Refused(refused(SigFaultKind::Empty, text))),
    }
}

/// The repository id of an enum, struct or union, if it has one. It may have one in a file of
/// version 3 only.
#[tactic(auto, unfolding(crate::specs::ItemReading::identity_at))]
pub(crate) fn identity_at<'a>(
    draft: &Draft,
    text: &'a [u8],
) -> Result<(Option<&'a [u8]>, &'a [u8]), ParseError>
    ensures { Gives (λ x. (option_map (λ id. id.now) x.0, x.1.now)) result
        (identity_at draft.now text.now) }
{
    if !draft.is_version_3() {
        return Ok((None, text));
    }
    let (token, rest) = next(text)?;
    let Some(Token::Repository(id)) = token else {
        return Ok((None, text));
    };
    if draft.has_identity(id) {
        return Err(ParseError::Refused(refused(SigFaultKind::Duplicate, text)));
    }
    Ok((Some(id), rest))
}

/// The end of a declaration from whose name on `at` octets are left: a semicolon. The declaration
/// is refused if it made a type that is too deep.
#[tactic(auto, unfolding(crate::specs::ItemReading::declaration_end_at))]
pub(crate) fn declaration_end_at<'a>(
    draft: &Draft,
    at: usize,
    text: &'a [u8],
) -> Result<&'a [u8], ParseError>
    ensures { Gives (λ x. (draft.now, x.now)) result (declaration_end_at at draft.now text.now) }
{
    let rest = mark(text, Mark::Semicolon)?;
    if draft.deepest() > DEPTH_MAX {
        return Err(ParseError::Refused(TokenError {
            kind: SigFaultKind::Depth,
            left: at,
        }));
    }
    Ok(rest)
}

/// The end of an enum, struct or union. Its type is added, with its name, and with its repository
/// id if it has one. Answers the rest.
pub(crate) fn type_end_at<'a>(
    draft: &mut Draft,
    at: usize,
    name: &[u8],
    id: Option<&[u8]>,
    entry: Entry,
    text: &'a [u8],
) -> Result<&'a [u8], ParseError>
    requires formed { IsFormed draft.old.table.types (length draft.old.table.types)
        (node_view entry) }
    requires addable { IsAddable draft.old.table.version (node_view entry) }
    requires some { TakesOctet (node_view entry) }
    requires short { length name.now ≤ 64 }
    requires new { lookup (bytes_eq name.now) draft.old.names.known ≡ None }
    requires few { draft.old.table.declared < 4096 }
    requires identity { IsNewIdentity draft.old.table (option_map (λ x. x.now) id) }
    ensures { Gives (λ x. (draft.new, x.now)) result
        (type_end_at at name.now (option_map (λ x. x.now) id.entry) draft.old (node_view entry)
        text.now) }
{
    let t = draft.add(entry)?;
    draft.declare_type(name, id, t)?;
    declaration_end_at(draft, at, text)
}

/// Whether a declaration ends after its name, and so announces it. It may do so in a file of
/// version 3 only.
#[tactic(auto, unfolding(crate::specs::ItemReading::announces_at))]
pub(crate) fn announces_at(draft: &Draft, text: &[u8]) -> Result<bool, ParseError>
    ensures { Gives (λ x. x) result (announces_at draft.now text.now) }
{
    Ok(draft.is_version_3() && starts_with_mark(text, Mark::Semicolon)?.is_some())
}

/// The end of an announcement. Its name is at the front of `text`, and must not be announced yet.
#[tactic(auto, unfolding(crate::specs::ItemReading::announcement_at))]
pub(crate) fn announcement_at<'a>(
    draft: &mut Draft,
    word: TypeWord,
    text: &[u8],
    name: &[u8],
    rest: &'a [u8],
) -> Result<&'a [u8], ParseError>
    requires short { length name.now ≤ 64 }
    requires third { is_version_3 draft.old.names ≡ true }
    ensures { Gives (λ x. (draft.new, x.now)) result
        (announcement_at draft.old word text.now name.now rest.now) }
{
    if draft.announced_as(name).is_some() {
        return Err(ParseError::Refused(refused(SigFaultKind::Duplicate, text)));
    }
    draft.announce(name, word)?;
    declaration_end_at(draft, octets_left_at_token(text), rest)
}

/// A struct, after its name, which is at the front of `text`.
#[tactic(auto, unfolding(crate::specs::ItemReading::structure_after))]
fn structure_after<'a>(
    alloc: Global,
    draft: &mut Draft,
    text: &[u8],
    name: &[u8],
    rest: &'a [u8],
) -> Result<&'a [u8], ParseError>
    requires short { length name.now ≤ 64 }
    requires new { lookup (bytes_eq name.now) draft.old.names.known ≡ None }
    requires few { draft.old.table.declared < 4096 }
    ensures { Gives (λ x. (draft.new, x.now)) result
        (structure_after draft.old text.now name.now rest.now) }
{
    draft.laws();
    let (id, rest) = identity_at(draft, rest)?;
    let rest = mark(rest, Mark::OpenBrace)?;
    let rest = non_empty_list_at(rest)?;
    let (parts, rest) = members_at(alloc, draft, rest)?;
    type_end_at(
        draft,
        octets_left_at_token(text),
        name,
        id,
        Entry::Members(parts),
        rest,
    )
}

/// A struct, or its announcement, after its first word.
#[tactic(auto, unfolding(crate::specs::ItemReading::structure_at))]
pub(crate) fn structure_at<'a>(
    alloc: Global,
    draft: &mut Draft,
    text: &'a [u8],
) -> Result<&'a [u8], ParseError>
    ensures { Gives (λ x. (draft.new, x.now)) result (structure_at draft.old text.now) }
{
    let count = draft.types_declared();
    let (name, rest) = declared_name_at(draft, Some(TypeWord::Struct), count, text)?;
    if announces_at(draft, rest)? {
        return announcement_at(draft, TypeWord::Struct, text, name, rest);
    }
    structure_after(alloc, draft, text, name, rest)
}

/// A new repository id of an exception.
#[tactic(auto, unfolding(crate::specs::ItemReading::new_repository_at))]
fn new_repository_at<'a>(draft: &Draft, text: &'a [u8]) -> Result<(&'a [u8], &'a [u8]), ParseError>
    ensures { Gives (λ x. (x.0.now, x.1.now)) result (new_repository_at draft.now text.now) }
{
    let (repository, rest) = repository_id(text)?;
    if draft.has_repository(repository) {
        return Err(ParseError::Refused(refused(SigFaultKind::Duplicate, text)));
    }
    Ok((repository, rest))
}

/// An exception, after its first word.
#[tactic(auto, unfolding(crate::specs::ItemReading::exception_at))]
pub(crate) fn exception_at<'a>(
    alloc: Global,
    draft: &mut Draft,
    text: &'a [u8],
) -> Result<&'a [u8], ParseError>
    ensures { Gives (λ x. (draft.new, x.now)) result (exception_at draft.old text.now) }
{
    let at = octets_left_at_token(text);
    draft.laws();
    let count = draft.exceptions_declared();
    let (name, rest) = declared_name_at(draft, None, count, text)?;
    let (repository, rest) = new_repository_at(draft, rest)?;
    let rest = mark(rest, Mark::OpenBrace)?;
    let (parts, rest) = members_at(alloc, draft, rest)?;
    let t = draft.add(Entry::Members(parts))?;
    draft.declare_exception(name, repository, t)?;
    declaration_end_at(draft, at, rest)
}
