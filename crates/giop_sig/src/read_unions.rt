//! Reads unions.
ghost use Rattle.std.specs.Prelude.{◌≡◌, ◌+◌, ◌^◌, ◌<◌, ◌≤◌, false, [], length, OnOk, IfOk, IfErr, None};
ghost use Rattle.std.specs.List.{list_any};
ghost use Rattle.std.specs.Map.{lookup};
ghost use Rattle.std.specs.Str.{bytes_eq};
ghost use Rattle.giop_sig.specs.Outcomes.{Gives};
ghost use Rattle.giop_sig.specs.Table.{node_at, union as union_node};
ghost use Rattle.giop_sig.specs.Scopes.{is_version_3, label_number, part};
ghost use Rattle.giop_sig.specs.Views.{node_view};
ghost use Rattle.giop_sig.specs.Labels.{value_view, cases_view};
ghost use Rattle.giop_sig.specs.Repeats.{in_steps};
ghost use Rattle.giop_sig.specs.UnionReading.{same_mark, number_of_value, unseen_label, label_at, begins_label, labels_step, too_many_labels, labels_at, no_cases, first_default_case, with_case, case_at, cases_step, too_many_cases, cases_at, can_switch, switch_at, union_at, union_after};

use crate::announced::TypeWord;
use crate::cases::UnionCases;
use crate::draft::Draft;
use crate::entries::{CaseEntry, Entry};
use crate::labels::{LabelValue, label_number, value_at};
use crate::parse_stop::ParseError;
use crate::read_items::{
    announcement_at, announces_at, declared_name_at, identity_at, item_at, non_empty_list_at,
    part_of, type_end_at,
};
use crate::read_types::{refused, type_at};
use crate::types::{Selected, TypeId};
use giop_cdr::{Number, Prim};
use giop_tokens::{
    Mark, SigFaultKind, keyword, mark, misplaced, octets_left_at_token, starts_with_keyword,
    starts_with_mark,
};
use std::alloc::Global;

/// How many labels a union may have.
const LABELS_MAX: usize = 1024;
/// How many cases a union may have.
const CASES_MAX: usize = 256;

/// The cases of a union that is being read.
#[derive(Drop)]
struct Cases<'a> {
    /// The numbers of all labels. None stands for the default.
    labels: Vec<Option<Number>>,
    /// The names of the cases.
    names: Vec<&'a [u8]>,
    cases: Vec<CaseEntry>,
    /// The case with the default, or `Nothing`.
    otherwise: Selected,
}

/// The value of the discriminator's type that the value of a label names.
fn label_value_number(draft: &Draft, switch: TypeId, value: LabelValue<'_>) -> Option<Number>
    ensures { result ≡ label_number (node_at draft.now.table switch.0) (value_view value.entry) }
{
    match draft.entry(switch) {
        None => None,
        Some(entry) => label_number(entry, value),
    }
}

/// The value of the discriminator's type that the value at the front of the text names.
#[tactic(auto, unfolding(crate::specs::UnionReading::number_of_value))]
fn number_of_value<'a>(
    draft: &Draft,
    switch: TypeId,
    text: &'a [u8],
) -> Result<(Option<Number>, &'a [u8]), ParseError>
    ensures { Gives (λ x. (x.0, x.1.now)) result
        (number_of_value (is_version_3 draft.now.names) (node_at draft.now.table switch.0)
        text.now) }
{
    let (value, rest) = value_at(draft.is_version_3(), text)?;
    match label_value_number(draft, switch, value) {
        None => Err(ParseError::Refused(refused(SigFaultKind::Label, text))),
        Some(n) => Ok((Some(n), rest)),
    }
}

/// Whether a label is in a list.
fn is_seen(seen: &[Option<Number>], label: Option<Number>) -> bool
    ensures { result ≡ list_any (λ s. same_mark s label) seen.now }
{
    seen.contains(&label)
}

/// A label that isn't in `seen`. Its value or its word is at the front of `text`.
#[tactic(auto, unfolding(crate::specs::UnionReading::unseen_label))]
fn unseen_label(
    seen: &[Option<Number>],
    label: Option<Number>,
    text: &[u8],
) -> Result<Option<Number>, ParseError>
    ensures { Gives (λ x. x) result (unseen_label seen.now label text.now) }
{
    if is_seen(seen, label) {
        return Err(ParseError::Refused(refused(SigFaultKind::Duplicate, text)));
    }
    if seen.len() >= LABELS_MAX {
        return Err(ParseError::Refused(refused(SigFaultKind::Limit, text)));
    }
    Ok(label)
}

/// A label with its colon.
#[tactic(auto, unfolding(crate::specs::UnionReading::label_at))]
fn label_at<'a>(
    draft: &Draft,
    switch: TypeId,
    seen: &[Option<Number>],
    text: &'a [u8],
) -> Result<(Option<Number>, &'a [u8]), ParseError>
    ensures { Gives (λ x. (x.0, x.1.now)) result
        (label_at (is_version_3 draft.now.names)
        (node_at draft.now.table switch.0) seen.now text.now) }
{
    match starts_with_keyword(text, b"case")? {
        Some(inner) => {
            let (number, rest) = number_of_value(draft, switch, inner)?;
            let label = unseen_label(seen, number, inner)?;
            Ok((label, mark(rest, Mark::Colon)?))
        }
        None => {
            let rest = keyword(text, b"default")?;
            let label = unseen_label(seen, None, text)?;
            Ok((label, mark(rest, Mark::Colon)?))
        }
    }
}

/// Whether a label comes next.
#[tactic(auto, unfolding(crate::specs::UnionReading::begins_label))]
fn begins_label(text: &[u8]) -> Result<bool, ParseError>
    ensures { Gives (λ x. x) result (begins_label text.now) }
{
    let value = starts_with_keyword(text, b"case")?;
    let default = starts_with_keyword(text, b"default")?;
    Ok(value.is_some() || default.is_some())
}

/// One more label, if one comes. Answers whether there was none, whether the case has the default,
/// and the rest.
#[tactic(auto, unfolding(crate::specs::UnionReading::labels_step))]
fn labels_step<'a>(
    draft: &Draft,
    switch: TypeId,
    seen: &mut Vec<Option<Number>>,
    own: &mut Vec<Number>,
    default: bool,
    text: &'a [u8],
) -> Result<(bool, bool, &'a [u8]), ParseError>
    ensures { Gives (λ x. (x.0, (seen.new.items, own.new.items, x.1, x.2.now))) result
        (labels_step (is_version_3 draft.now.names) (node_at draft.now.table switch.0)
        (seen.old.items, own.old.items, default, text.now)) }
{
    if !begins_label(text)? {
        return Ok((true, default, text));
    }
    let (label, rest) = label_at(draft, switch, seen, text)?;
    seen.push(label)?;
    match label {
        None => Ok((false, true, rest)),
        Some(number) => {
            own.push(number)?;
            Ok((false, default, rest))
        }
    }
}

/// Labels, as long as they come. Answers their numbers, whether the default is among them, and the
/// rest.
fn labels_while_any<'a>(
    alloc: Global,
    draft: &Draft,
    switch: TypeId,
    seen: &mut Vec<Option<Number>>,
    text: &'a [u8],
) -> Result<(Vec<Number>, bool, &'a [u8]), ParseError>
    ensures { Gives (λ x. (seen.new.items, x.0.items, x.1, x.2.now)) result
        (in_steps
        (labels_step (is_version_3 draft.now.names) (node_at draft.now.table switch.0))
        too_many_labels 1025
        (seen.old.items, [], false, text.now)) }
{
    let mut own = Vec::new(alloc);
    let mut default = false;
    let mut rest = text;
    for _ in 0..1025u32 {
        let (closed, more, after) = labels_step(draft, switch, seen, &mut own, default, rest)?;
        if closed {
            return Ok((own, more, after));
        }
        default = more;
        rest = after;
    }
    Err(ParseError::Refused(refused(SigFaultKind::Limit, rest)))
}

/// The labels of a case, at least one.
#[tactic(auto, unfolding(crate::specs::UnionReading::labels_at))]
fn labels_at<'a>(
    alloc: Global,
    draft: &Draft,
    switch: TypeId,
    seen: &mut Vec<Option<Number>>,
    text: &'a [u8],
) -> Result<(Vec<Number>, bool, &'a [u8]), ParseError>
    ensures { Gives (λ x. (seen.new.items, x.0.items, x.1, x.2.now)) result
        (labels_at (is_version_3 draft.now.names) (node_at draft.now.table switch.0)
        seen.old.items text.now) }
{
    if !begins_label(text)? {
        return Err(ParseError::Refused(misplaced(text)));
    }
    labels_while_any(alloc, draft, switch, seen, text)
}

/// What is selected if no label is the number, after the case at an index: the first case with the
/// default.
fn first_default_case(otherwise: Selected, default: bool, index: usize) -> Selected
    requires { index < 2 ^ 32 }
    ensures { result ≡ first_default_case otherwise default index }
{
    match otherwise {
        Selected::Nothing if default => Selected::Case(index as u32),
        _ => otherwise,
    }
}

/// Whether a type can be that of a discriminator.
fn can_switch(draft: &Draft, t: TypeId) -> bool
    ensures { result ≡ can_switch (node_at draft.now.table t.0) }
{
    match draft.entry(t) {
        Some(Entry::Prim(prim)) => match prim {
            Prim::Octet | Prim::Float | Prim::Double => false,
            _ => true,
        },
        Some(Entry::Enumeration(_)) => true,
        _ => false,
    }
}

/// The type of a discriminator.
#[tactic(auto, unfolding(crate::specs::UnionReading::switch_at))]
fn switch_at<'a>(
    alloc: Global,
    draft: &mut Draft,
    text: &'a [u8],
) -> Result<(TypeId, &'a [u8]), ParseError>
    ensures { Gives (λ x. (draft.new, x.0.0, x.1.now)) result (switch_at draft.old text.now) }
{
    let (t, rest) = type_at(alloc, draft, text)?;
    if can_switch(draft, t) {
        Ok((t, rest))
    } else {
        Err(ParseError::Refused(refused(SigFaultKind::Label, text)))
    }
}

/// Adds a case. It has these labels and perhaps the default, a name and a type.
fn add_case<'a>(
    alloc: Global,
    cases: &mut Cases<'a>,
    labels: Vec<Number>,
    default: bool,
    name: &'a [u8],
    type_id: TypeId,
) -> Result<(), ParseError>
    requires { length cases.old.names.items ≤ 256 }
    ensures gives { Gives (λ x. cases_view cases.new) result (Ok (with_case (cases_view cases.old)
        (cases.old.labels.items, labels.items, default, []) (part name.now type_id.0))) }
    ensures room { OnOk result (length cases.new.names.items ≤ length cases.old.names.items + 1) }
{
    let part = part_of(alloc, name, type_id)?;
    cases.otherwise = first_default_case(cases.otherwise, default, cases.names.len());
    cases.names.push(name)?;
    cases.cases.push(CaseEntry { labels, part })?;
    Ok(())
}

/// One more case of a union. Answers the rest.
#[tactic(auto, unfolding(crate::specs::UnionReading::case_at))]
fn case_at<'a>(
    alloc: Global,
    draft: &mut Draft,
    switch: TypeId,
    cases: &mut Cases<'a>,
    text: &'a [u8],
) -> Result<&'a [u8], ParseError>
    requires { length cases.old.names.items ≤ 256 }
    ensures gives { Gives (λ x. (draft.new, cases_view cases.new, x.now)) result
        (case_at switch.0 (draft.old, cases_view cases.old, text.now)) }
    ensures room { OnOk result (length cases.new.names.items ≤ length cases.old.names.items + 1) }
{
    let (labels, default, rest) = labels_at(alloc, draft, switch, &mut cases.labels, text)?;
    let (name, type_id, rest) = item_at(alloc, draft, CASES_MAX, &cases.names, rest)?;
    let rest = mark(rest, Mark::Semicolon)?;
    add_case(alloc, cases, labels, default, name, type_id)?;
    Ok(rest)
}

/// The closing mark, or one more case. Answers whether it was the mark, and the rest.
#[tactic(auto, unfolding(crate::specs::UnionReading::cases_step))]
fn cases_step<'a>(
    alloc: Global,
    draft: &mut Draft,
    switch: TypeId,
    cases: &mut Cases<'a>,
    text: &'a [u8],
) -> Result<(bool, &'a [u8]), ParseError>
    requires { length cases.old.names.items ≤ 256 }
    ensures gives { Gives (λ x. (x.0, (draft.new, cases_view cases.new, x.1.now))) result
        (cases_step switch.0 (draft.old, cases_view cases.old, text.now)) }
    ensures room { OnOk result (length cases.new.names.items ≤ length cases.old.names.items + 1) }
{
    match starts_with_mark(text, Mark::CloseBrace)? {
        Some(rest) => Ok((true, rest)),
        None => Ok((false, case_at(alloc, draft, switch, cases, text)?)),
    }
}

/// Cases up to the closing mark.
fn cases_until_close<'a>(
    alloc: Global,
    draft: &mut Draft,
    switch: TypeId,
    text: &'a [u8],
) -> Result<(Cases<'a>, &'a [u8]), ParseError>
    ensures { Gives (λ x. (draft.new, cases_view x.0, x.1.now)) result
        (in_steps (cases_step switch.0) too_many_cases 257 (draft.old, no_cases, text.now)) }
{
    let mut cases = Cases {
        labels: Vec::new(alloc),
        names: Vec::new(alloc),
        cases: Vec::new(alloc),
        otherwise: Selected::Nothing,
    };
    let mut rest = text;
    for _ in 0..257u32 {
        let (closed, after) = cases_step(alloc, draft, switch, &mut cases, rest)?;
        if closed {
            return Ok((cases, after));
        }
        rest = after;
    }
    Err(ParseError::Refused(refused(SigFaultKind::Limit, rest)))
}

/// Cases up to the closing mark, at least one.
#[tactic(auto, unfolding(crate::specs::UnionReading::cases_at))]
fn cases_at<'a>(
    alloc: Global,
    draft: &mut Draft,
    switch: TypeId,
    text: &'a [u8],
) -> Result<(Cases<'a>, &'a [u8]), ParseError>
    ensures { Gives (λ x. (draft.new, cases_view x.0, x.1.now)) result
        (cases_at switch.0 draft.old text.now) }
{
    cases_until_close(alloc, draft, switch, non_empty_list_at(text)?)
}

/// The entry of a union with a discriminator of this type.
fn union_entry(alloc: Global, switch: TypeId, cases: Cases<'_>) -> Result<Entry, ParseError>
    ensures ok { IfOk result (λ entry. node_view entry
        ≡ union_node switch.0 (cases_view cases.entry).cases (cases_view cases.entry).otherwise) }
    ensures err { IfErr result (λ stop. stop ≡ ParseError.Memory) }
{
    let made = UnionCases::new(alloc, cases.cases)?;
    Ok(Entry::Union(switch, made, cases.otherwise))
}

/// A union, after its name, which is at the front of `text`.
#[tactic(auto, unfolding(crate::specs::UnionReading::union_after))]
fn union_after<'a>(
    alloc: Global,
    draft: &mut Draft,
    text: &[u8],
    name: &[u8],
    rest: &'a [u8],
) -> Result<&'a [u8], ParseError>
    requires short { length name.now ≤ 64 }
    requires new { lookup (bytes_eq name.now) draft.old.names.known ≡ None }
    requires few { draft.old.table.declared < 4096 }
    ensures { Gives (λ x. (draft.new, x.now)) result
        (union_after draft.old text.now name.now rest.now) }
{
    draft.laws();
    let (id, rest) = identity_at(draft, rest)?;
    let rest = keyword(rest, b"switch")?;
    let rest = mark(rest, Mark::OpenParenthesis)?;
    let (switch, rest) = switch_at(alloc, draft, rest)?;
    let rest = mark(rest, Mark::CloseParenthesis)?;
    let rest = mark(rest, Mark::OpenBrace)?;
    let (cases, rest) = cases_at(alloc, draft, switch, rest)?;
    let entry = union_entry(alloc, switch, cases)?;
    type_end_at(draft, octets_left_at_token(text), name, id, entry, rest)
}

/// A union, or its announcement, after its first word. Answers the rest.
#[tactic(auto, unfolding(crate::specs::UnionReading::union_at))]
pub(crate) fn union<'a>(
    alloc: Global,
    draft: &mut Draft,
    text: &'a [u8],
) -> Result<&'a [u8], ParseError>
    ensures { Gives (λ x. (draft.new, x.now)) result (union_at draft.old text.now) }
{
    let count = draft.types_declared();
    let (name, rest) = declared_name_at(draft, Some(TypeWord::Union), count, text)?;
    if announces_at(draft, rest)? {
        return announcement_at(draft, TypeWord::Union, text, name, rest);
    }
    union_after(alloc, draft, text, name, rest)
}
