//! Reads types.
ghost use Rattle.std.specs.Prelude.{◌≡◌, ◌<◌, [], length, Ok, IfOk, IfSome};
ghost use Rattle.std.specs.Option.{option_map};
ghost use Rattle.giop_sig.specs.Outcomes.{Gives, refused};
ghost use Rattle.giop_sig.specs.Scopes.{with_node, sequence_node};
ghost use Rattle.giop_sig.specs.ScopeViews.{CanBeInner, IsElement, IsKnown};
ghost use Rattle.giop_sig.specs.Repeats.{in_steps};
ghost use Rattle.giop_sig.specs.TypeReading.{size_at, enclosed_size_at, comma_size_at, primitive_of_word, text_at, wide_text_at, sequence_end, encapsulation_end, opener_closed, named_type, leaf_at, opener_at, openers_step, opens_element, element_after, too_many_openers, all_openers_closed, type_at};

use crate::draft::Draft;
use crate::entries::Entry;
use crate::numbers;
use crate::parse_stop::ParseError;
use crate::types::TypeId;
use giop_tokens::{
    Mark, SigFaultKind, TokenError, is_reserved, mark, misplaced, number, octets_left_at_token,
    starts_with_mark, word,
};
use std::alloc::Global;

/// How many octets a name may have.
const NAME_MAX: usize = 64;
/// The greatest length or bound.
const SIZE_MAX: u64 = 4_294_967_295;
/// The type of strings without a bound.
const STRING: TypeId = TypeId(numbers::STRING);
/// The type of wide strings, whatever their bounds.
const WIDE_STRING: TypeId = TypeId(numbers::WIDE_STRING);

/// A refusal at the first token of a text.
pub(crate) fn refused(kind: SigFaultKind, text: &[u8]) -> TokenError
    ensures { result ≡ refused kind text.now }
{
    TokenError {
        kind,
        left: octets_left_at_token(text),
    }
}

/// A length or bound: at least 1, and less than 2^32.
#[tactic(auto, unfolding(crate::specs::TypeReading::size_at))]
pub(crate) fn size_at(text: &[u8]) -> Result<(u32, &[u8]), ParseError>
    ensures gives { Gives (λ x. (x.0, x.1.now)) result (size_at text.now) }
    ensures some { IfOk result (λ x. 0 < x.0) }
{
    let (n, rest) = number(text)?;
    if n == 0 {
        return Err(ParseError::Refused(refused(SigFaultKind::Empty, text)));
    }
    if n > SIZE_MAX {
        return Err(ParseError::Refused(refused(SigFaultKind::Limit, text)));
    }
    Ok((n as u32, rest))
}

/// A size between two marks, if the first mark comes next.
#[tactic(auto, unfolding(crate::specs::TypeReading::enclosed_size_at))]
pub(crate) fn enclosed_size_at(
    before: Mark,
    close: Mark,
    text: &[u8],
) -> Result<(Option<u32>, &[u8]), ParseError>
    ensures gives { Gives (λ x. (x.0, x.1.now)) result (enclosed_size_at before close text.now) }
    ensures some { IfOk result (λ x. IfSome x.0 (λ n. 0 < n)) }
{
    match starts_with_mark(text, before)? {
        None => Ok((None, text)),
        Some(inner) => {
            let (n, rest) = size_at(inner)?;
            let rest = mark(rest, close)?;
            Ok((Some(n), rest))
        }
    }
}

/// A size after a comma, if a comma comes next.
#[tactic(auto, unfolding(crate::specs::TypeReading::comma_size_at))]
fn comma_size_at(text: &[u8]) -> Result<(Option<u32>, &[u8]), ParseError>
    ensures { Gives (λ x. (x.0, x.1.now)) result (comma_size_at text.now) }
{
    match starts_with_mark(text, Mark::Comma)? {
        None => Ok((None, text)),
        Some(inner) => {
            let (n, rest) = size_at(inner)?;
            Ok((Some(n), rest))
        }
    }
}

/// The primitive type of a word.
fn primitive_of_word(word: &[u8]) -> Option<TypeId>
    ensures { option_map (λ t. t.0) result ≡ primitive_of_word word.now }
{
    if word == b"octet".as_slice() {
        Some(TypeId(0))
    } else if word == b"char".as_slice() {
        Some(TypeId(1))
    } else if word == b"boolean".as_slice() {
        Some(TypeId(2))
    } else if word == b"short".as_slice() {
        Some(TypeId(3))
    } else if word == b"ushort".as_slice() {
        Some(TypeId(4))
    } else if word == b"long".as_slice() {
        Some(TypeId(5))
    } else if word == b"ulong".as_slice() {
        Some(TypeId(6))
    } else if word == b"longlong".as_slice() {
        Some(TypeId(7))
    } else if word == b"ulonglong".as_slice() {
        Some(TypeId(8))
    } else if word == b"float".as_slice() {
        Some(TypeId(9))
    } else if word == b"double".as_slice() {
        Some(TypeId(10))
    } else {
        None
    }
}

/// A string, after its word.
#[tactic(auto, unfolding(crate::specs::TypeReading::text_at))]
fn text_at<'a>(draft: &mut Draft, text: &'a [u8]) -> Result<(TypeId, &'a [u8]), ParseError>
    ensures { Gives (λ x. (draft.new, x.0.0, x.1.now)) result (text_at draft.old text.now) }
{
    let (bound, rest) = enclosed_size_at(Mark::OpenAngle, Mark::CloseAngle, text)?;
    match bound {
        None => Ok((STRING, rest)),
        Some(_) => Ok((draft.add(Entry::Text(bound))?, rest)),
    }
}

/// A wide string, after its word. Its bound counts characters, and the type doesn't have it.
#[tactic(auto, unfolding(crate::specs::TypeReading::wide_text_at))]
fn wide_text_at<'a>(draft: &Draft, text: &'a [u8]) -> Result<(TypeId, &'a [u8]), ParseError>
    ensures { Gives (λ x. (draft.now, x.0.0, x.1.now)) result (wide_text_at draft.now text.now) }
{
    let (_, rest) = enclosed_size_at(Mark::OpenAngle, Mark::CloseAngle, text)?;
    Ok((WIDE_STRING, rest))
}

/// The type of a name, which is the first word of `text`. `element` says whether it is that of a
/// sequence's elements.
#[tactic(auto, unfolding(crate::specs::TypeReading::named_type))]
fn named_type<'a>(
    draft: &Draft,
    element: bool,
    text: &[u8],
    name: &[u8],
    rest: &'a [u8],
) -> Result<(TypeId, &'a [u8]), ParseError>
    ensures { Gives (λ x. (draft.now, x.0.0, x.1.now)) result
        (named_type element draft.now text.now name.now rest.now) }
{
    if is_reserved(draft.is_version_3(), name) {
        return Err(ParseError::Refused(misplaced(text)));
    }
    if name.len() > NAME_MAX {
        return Err(ParseError::Refused(refused(SigFaultKind::Limit, text)));
    }
    match draft.type_named(element, name) {
        None => Err(ParseError::Refused(refused(SigFaultKind::UnknownType, text))),
        Some(t) => Ok((t, rest)),
    }
}

/// Adds a sequence of elements of a type. A sequence of octets has an entry of its own, and so has
/// one of a type that is announced.
fn add_sequence_type(
    draft: &mut Draft,
    bound: Option<u32>,
    element: TypeId,
) -> Result<TypeId, ParseError>
    requires { IsElement draft.old.table.version draft.old.table.types element.0 }
    ensures { Gives (λ t. (draft.new, t.0)) result
        (Ok (with_node draft.old (sequence_node draft.old.table.types bound element.0))) }
{
    if element.0 == 0 {
        return draft.add(Entry::Octets(bound));
    }
    match draft.announced_index(element) {
        None => draft.add(Entry::Sequence(bound, element)),
        Some(index) => draft.add(Entry::Recursive(bound, TypeId(index))),
    }
}

/// What comes after the element type of a sequence: perhaps a bound, and the closing mark.
fn sequence_end<'a>(
    draft: &mut Draft,
    element: TypeId,
    text: &'a [u8],
) -> Result<(TypeId, &'a [u8]), ParseError>
    requires { IsElement draft.old.table.version draft.old.table.types element.0 }
    ensures { Gives (λ x. (draft.new, x.0.0, x.1.now)) result
        (sequence_end (draft.old, element.0, text.now)) }
{
    let (bound, rest) = comma_size_at(text)?;
    let rest = mark(rest, Mark::CloseAngle)?;
    let t = add_sequence_type(draft, bound, element)?;
    Ok((t, rest))
}

/// What comes after the type in an encapsulation: the closing mark.
fn encapsulation_end<'a>(
    draft: &mut Draft,
    held: TypeId,
    text: &'a [u8],
) -> Result<(TypeId, &'a [u8]), ParseError>
    requires { IsKnown draft.old.table.types held.0 }
    ensures { Gives (λ x. (draft.new, x.0.0, x.1.now)) result
        (encapsulation_end (draft.old, held.0, text.now)) }
{
    let rest = mark(text, Mark::CloseAngle)?;
    let t = draft.add(Entry::Encapsulation(held))?;
    Ok((t, rest))
}

/// A type without another one in angle brackets. `element` says whether it is that of a sequence's
/// elements.
#[tactic(auto, unfolding(crate::specs::TypeReading::leaf_at))]
fn leaf_at<'a>(
    draft: &mut Draft,
    element: bool,
    text: &'a [u8],
) -> Result<(TypeId, &'a [u8]), ParseError>
    ensures { Gives (λ x. (draft.new, x.0.0, x.1.now)) result
        (leaf_at element draft.old text.now) }
{
    let (name, rest) = word(text)?;
    if let Some(base) = primitive_of_word(name) {
        return Ok((base, rest));
    }
    if name == b"string".as_slice() {
        return text_at(draft, rest);
    }
    if name == b"Object".as_slice() {
        return Ok((draft.reference_type(), rest));
    }
    if draft.is_version_3() && name == b"any".as_slice() {
        return Ok((TypeId(numbers::ANY), rest));
    }
    if draft.is_version_3() && name == b"TypeCode".as_slice() {
        return Ok((TypeId(numbers::TYPE_CODE), rest));
    }
    if draft.is_version_3() && name == b"wchar".as_slice() {
        return Ok((TypeId(numbers::WIDE_CHAR), rest));
    }
    if draft.is_version_3() && name == b"wstring".as_slice() {
        return wide_text_at(draft, rest);
    }
    named_type(draft, element, text, name, rest)
}

/// A word that begins a type with another one in it.
#[derive(Clone, Copy, Drop)]
pub(crate) enum Opener {
    Sequence,
    Encapsulation,
}

/// The first word of a text, if it begins a type with another one in it, and the rest after its
/// opening mark.
#[tactic(auto, unfolding(crate::specs::TypeReading::opener_at))]
fn opener_at<'a>(draft: &Draft, text: &'a [u8]) -> Result<Option<(Opener, &'a [u8])>, ParseError>
    ensures { Gives (λ o. option_map (λ x. (x.0, x.1.now)) o) result
        (opener_at draft.now text.now) }
{
    let (name, rest) = word(text)?;
    if name == b"sequence".as_slice() {
        return Ok(Some((Opener::Sequence, mark(rest, Mark::OpenAngle)?)));
    }
    if name == b"encapsulation".as_slice() {
        if !draft.has_encapsulations() {
            return Err(ParseError::Refused(misplaced(text)));
        }
        return Ok(Some((Opener::Encapsulation, mark(rest, Mark::OpenAngle)?)));
    }
    Ok(None)
}

/// One more opener, if one comes. Answers whether there was none, and the rest.
#[tactic(auto, unfolding(crate::specs::TypeReading::openers_step))]
fn openers_step<'a>(
    draft: &Draft,
    openers: &mut Vec<Opener>,
    text: &'a [u8],
) -> Result<(bool, &'a [u8]), ParseError>
    ensures { Gives (λ x. (x.0, (openers.new.items, x.1.now))) result
        (openers_step draft.now (openers.old.items, text.now)) }
{
    match opener_at(draft, text)? {
        None => Ok((true, text)),
        Some((opener, rest)) => {
            openers.push(opener)?;
            Ok((false, rest))
        }
    }
}

/// The words that begin a type, the outermost first, and the rest.
fn openers_at<'a>(
    alloc: Global,
    draft: &Draft,
    text: &'a [u8],
) -> Result<(Vec<Opener>, &'a [u8]), ParseError>
    ensures { Gives (λ x. (x.0.items, x.1.now)) result
        (in_steps (openers_step draft.now) too_many_openers (length text.now) ([], text.now)) }
{
    let mut openers = Vec::new(alloc);
    let mut rest = text;
    for _ in 0..text.len() {
        let (over, after) = openers_step(draft, &mut openers, rest)?;
        if over {
            return Ok((openers, after));
        }
        rest = after;
    }
    Err(ParseError::Refused(misplaced(rest)))
}

/// Whether the type after these openers is that of a sequence's elements.
fn element_after(openers: &[Opener]) -> bool
    ensures { result ≡ element_after openers.now }
{
    match openers.last() {
        Some(Opener::Sequence) => true,
        _ => false,
    }
}

/// What closes a type with another one in it, after that one.
#[tactic(auto, unfolding(crate::specs::TypeReading::opener_closed))]
fn opener_closed<'a>(
    draft: &mut Draft,
    opener: Opener,
    inner: TypeId,
    text: &'a [u8],
) -> Result<(TypeId, &'a [u8]), ParseError>
    requires { CanBeInner (opens_element opener) draft.old.table.version draft.old.table.types
        inner.0 }
    ensures { Gives (λ x. (draft.new, x.0.0, x.1.now)) result
        (opener_closed opener (draft.old, inner.0, text.now)) }
{
    match opener {
        Opener::Sequence => sequence_end(draft, inner, text),
        Opener::Encapsulation => encapsulation_end(draft, inner, text),
    }
}

/// What closes all types that were opened, after the innermost one.
fn all_openers_closed<'a>(
    draft: &mut Draft,
    openers: &mut Vec<Opener>,
    innermost: TypeId,
    text: &'a [u8],
) -> Result<(TypeId, &'a [u8]), ParseError>
    requires { CanBeInner (element_after openers.old.items) draft.old.table.version
        draft.old.table.types innermost.0 }
    ensures { Gives (λ x. (draft.new, x.0.0, x.1.now)) result
        (all_openers_closed openers.old.items (draft.old, innermost.0, text.now)) }
{
    let mut t = innermost;
    let mut rest = text;
    while let Some(opener) = openers.pop() {
        draft.laws();
        (t, rest) = opener_closed(draft, opener, t, rest)?;
    }
    Ok((t, rest))
}

/// A type.
pub(crate) fn type_at<'a>(
    alloc: Global,
    draft: &mut Draft,
    text: &'a [u8],
) -> Result<(TypeId, &'a [u8]), ParseError>
    ensures { Gives (λ x. (draft.new, x.0.0, x.1.now)) result (type_at draft.old text.now) }
{
    draft.laws();
    let (mut openers, rest) = openers_at(alloc, draft, text)?;
    let (innermost, rest) = leaf_at(draft, element_after(openers.as_slice()), rest)?;
    all_openers_closed(draft, &mut openers, innermost, rest)
}
