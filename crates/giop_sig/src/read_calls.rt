//! Reads operations and KEYs.
ghost use Rattle.std.specs.Prelude.{◌≡◌, ◌+◌, ◌<◌, ◌≤◌, length, map, IfOk, OnOk};
ghost use Rattle.std.specs.Option.{option_map};
ghost use Rattle.giop_sig.specs.Interfaces.{number_of};
ghost use Rattle.giop_sig.specs.Outcomes.{Gives};
ghost use Rattle.giop_sig.specs.UnionCases.{part_view};
ghost use Rattle.giop_sig.specs.CallReading.{ParameterLists, return_at, new_operation_at, direction_of, direction_at, with_request_part, with_reply_part, with_param, param_step, params_run, params_at, OperationStructs, interface_at, operation_interface_at, after_comma, interface_step, too_many_interfaces, without_interfaces_at, optional_interfaces_at, new_key_at, key_at, operation_at, only_returned};
ghost use Rattle.giop_sig.specs.Scopes.{part};
ghost use Rattle.giop_sig.specs.ParameterViews.{parameter_lists_view, operation_structs_view, KeepsTypes};
ghost use Rattle.giop_sig.specs.Repeats.{in_steps};

use crate::catalogue::Signature;
use crate::draft::Draft;
use crate::entries::{Entry, PartEntry};
use crate::interfaces::is_key;
use crate::parse_stop::ParseError;
use crate::read_items::{DECLARED_MAX, add_part, declaration_end_at, item_at, part_of};
use crate::read_types::{refused, type_at};
use crate::types::TypeId;
use giop_tokens::{
    Mark, SigFaultKind, keyword, mark, misplaced, octets_left_at_token, operation_name,
    repository_id, starts_with_keyword, starts_with_mark, word,
};
use std::alloc::Global;

/// How many interfaces a file may have.
const INTERFACES_MAX: usize = 1_024;
/// How many KEYs a file may have.
const KEYS_MAX: usize = 16_384;
/// How many parameters an operation may have.
const PARAMS_MAX: usize = 255;

/// The direction of a parameter: in, out or inout.
#[derive(Clone, Copy, Drop)]
pub(crate) enum Direction {
    In,
    Out,
    Inout,
}

/// What an operation returns, as a member of its replies.
#[tactic(auto, unfolding(crate::specs::CallReading::return_at))]
fn return_at<'a>(
    alloc: Global,
    draft: &mut Draft,
    text: &'a [u8],
) -> Result<(Vec<PartEntry>, &'a [u8]), ParseError>
    ensures { Gives (λ x. (draft.new, map part_view x.0.items, x.1.now)) result
        (return_at draft.old text.now) }
{
    let mut returned = Vec::new(alloc);
    if let Some(rest) = starts_with_keyword(text, b"void")? {
        return Ok((returned, rest));
    }
    let (t, rest) = type_at(alloc, draft, text)?;
    returned.push(part_of(alloc, b"return", t)?)?;
    Ok((returned, rest))
}

/// The name of an operation. If the file can't have interfaces, the name must be new.
#[tactic(auto, unfolding(crate::specs::CallReading::new_operation_at))]
fn new_operation_at<'a>(draft: &Draft, text: &'a [u8]) -> Result<(&'a [u8], &'a [u8]), ParseError>
    ensures { Gives (λ x. (x.0.now, x.1.now)) result (new_operation_at draft.now text.now) }
{
    let (name, rest) = operation_name(text)?;
    if !draft.is_version_3() && draft.has_operation(0, name) {
        return Err(ParseError::Refused(refused(SigFaultKind::Duplicate, text)));
    }
    if draft.operations_declared() >= DECLARED_MAX {
        return Err(ParseError::Refused(refused(SigFaultKind::Limit, text)));
    }
    Ok((name, rest))
}

/// The direction that a word names.
fn direction_of(name: &[u8]) -> Option<Direction>
    ensures { result ≡ direction_of name.now }
{
    if name == b"in".as_slice() {
        Some(Direction::In)
    } else if name == b"out".as_slice() {
        Some(Direction::Out)
    } else if name == b"inout".as_slice() {
        Some(Direction::Inout)
    } else {
        None
    }
}

/// The direction of a parameter.
#[tactic(auto, unfolding(crate::specs::CallReading::direction_at))]
fn direction_at(text: &[u8]) -> Result<(Direction, &[u8]), ParseError>
    ensures { Gives (λ x. (x.0, x.1.now)) result (direction_at text.now) }
{
    let (name, rest) = word(text)?;
    match direction_of(name) {
        None => Err(ParseError::Refused(misplaced(text))),
        Some(direction) => Ok((direction, rest)),
    }
}

/// Adds a parameter to the members of requests, if it is `in` or `inout`.
fn add_to_request(
    alloc: Global,
    parts: &mut Vec<PartEntry>,
    direction: Direction,
    name: &[u8],
    t: TypeId,
) -> Result<(), ParseError>
    ensures { Gives (λ x. map part_view parts.new.items) result
        (Ok (with_request_part direction (part name.now t.0) (map part_view parts.old.items))) }
{
    match direction {
        Direction::Out => Ok(()),
        Direction::In | Direction::Inout => add_part(alloc, parts, name, t),
    }
}

/// Adds a parameter to the members of replies, if it is `out` or `inout`.
fn add_to_reply(
    alloc: Global,
    parts: &mut Vec<PartEntry>,
    direction: Direction,
    name: &[u8],
    t: TypeId,
) -> Result<(), ParseError>
    ensures { Gives (λ x. map part_view parts.new.items) result
        (Ok (with_reply_part direction (part name.now t.0) (map part_view parts.old.items))) }
{
    match direction {
        Direction::In => Ok(()),
        Direction::Out | Direction::Inout => add_part(alloc, parts, name, t),
    }
}

/// The parameters that were read: their names, and the members of requests and replies.
#[derive(Drop)]
struct Parameters<'a> {
    seen: Vec<&'a [u8]>,
    request: Vec<PartEntry>,
    reply: Vec<PartEntry>,
}

/// Adds a parameter.
fn add_param<'a>(
    alloc: Global,
    parameters: &mut Parameters<'a>,
    direction: Direction,
    name: &'a [u8],
    t: TypeId,
) -> Result<(), ParseError>
    ensures { Gives (λ x. parameter_lists_view parameters.new) result
        (Ok (with_param (parameter_lists_view parameters.old) direction (part name.now t.0))) }
{
    parameters.seen.push(name)?;
    add_to_request(alloc, &mut parameters.request, direction, name, t)?;
    add_to_reply(alloc, &mut parameters.reply, direction, name, t)
}

/// Reads a parameter and the mark after it. Answers whether that was the closing one, and the rest.
#[tactic(auto, unfolding(crate::specs::CallReading::param_step))]
fn param_step<'a>(
    alloc: Global,
    draft: &mut Draft,
    parameters: &mut Parameters<'a>,
    text: &'a [u8],
) -> Result<(bool, &'a [u8]), ParseError>
    ensures { Gives (λ x. (x.0, (draft.new, parameter_lists_view parameters.new, x.1.now))) result
        (param_step (draft.old, parameter_lists_view parameters.old, text.now)) }
{
    let (direction, rest) = direction_at(text)?;
    let (name, t, rest) = item_at(alloc, draft, PARAMS_MAX, parameters.seen.as_slice(), rest)?;
    add_param(alloc, parameters, direction, name, t)?;
    if let Some(rest) = starts_with_mark(rest, Mark::Comma)? {
        return Ok((false, rest));
    }
    let rest = mark(rest, Mark::CloseParenthesis)?;
    Ok((true, rest))
}

/// Parameters up to the closing mark. In the replies they come after what the operation returns.
#[tactic(auto, unfolding(crate::specs::CallReading::params_at))]
fn params_at<'a>(
    alloc: Global,
    draft: &mut Draft,
    returned: Vec<PartEntry>,
    text: &'a [u8],
) -> Result<(Vec<PartEntry>, Vec<PartEntry>, &'a [u8]), ParseError>
    ensures { Gives (λ x. (draft.new, map part_view x.0.items, map part_view x.1.items, x.2.now))
        result (params_at (map part_view returned.items) draft.old text.now) }
{
    if let Some(rest) = starts_with_mark(text, Mark::CloseParenthesis)? {
        return Ok((Vec::new(alloc), returned, rest));
    }
    params_run(alloc, draft, returned, text)
}

/// One or more parameters, and the closing mark.
fn params_run<'a>(
    alloc: Global,
    draft: &mut Draft,
    returned: Vec<PartEntry>,
    text: &'a [u8],
) -> Result<(Vec<PartEntry>, Vec<PartEntry>, &'a [u8]), ParseError>
    ensures { Gives (λ x. (draft.new, map part_view x.0.items, map part_view x.1.items, x.2.now))
        result (params_run 256
        (draft.old, only_returned (map part_view returned.items), text.now)) }
{
    let mut parameters = Parameters {
        seen: Vec::new(alloc),
        request: Vec::new(alloc),
        reply: returned,
    };
    let mut rest = text;
    for _ in 0..256u32 {
        let (closed, after) = param_step(alloc, draft, &mut parameters, rest)?;
        if closed {
            return Ok((parameters.request, parameters.reply, after));
        }
        rest = after;
    }
    Err(ParseError::Refused(refused(SigFaultKind::Limit, rest)))
}

/// An interface, which may be new.
#[tactic(auto, unfolding(crate::specs::CallReading::interface_at))]
fn interface_at<'a>(draft: &Draft, text: &'a [u8]) -> Result<(&'a [u8], &'a [u8]), ParseError>
    ensures { Gives (λ x. (x.0.now, x.1.now)) result
        (interface_at draft.now.table.interfaces text.now) }
{
    let (id, rest) = repository_id(text)?;
    if !draft.interfaces().has(id) && draft.interfaces().len() >= INTERFACES_MAX {
        return Err(ParseError::Refused(refused(SigFaultKind::Limit, text)));
    }
    Ok((id, rest))
}

/// The name and the structs of an operation.
#[derive(Clone, Copy, Drop)]
struct OperationStructs<'a> {
    name: &'a [u8],
    signature: Signature,
}

/// An interface in which an operation's name is new. Answers its number, from 1, its repository id,
/// and the rest.
#[tactic(auto, unfolding(crate::specs::CallReading::operation_interface_at))]
fn operation_interface_at<'a>(
    draft: &Draft,
    called: OperationStructs<'_>,
    text: &'a [u8],
) -> Result<(u32, &'a [u8], &'a [u8]), ParseError>
    requires short { length called.name.now ≤ 128 }
    ensures gives { Gives (λ x. (x.1.now, x.2.now)) result
        (operation_interface_at (operation_structs_view called.entry) draft.now.table text.now) }
    ensures number { IfOk result (λ x.
        x.0 ≡ number_of draft.now.table.interfaces x.1.now + 1) }
    ensures few { IfOk result (λ x. x.0 ≤ 1024) }
{
    draft.laws();
    let (id, rest) = interface_at(draft, text)?;
    let interface = draft.interfaces().number_of(id) + 1;
    if draft.has_operation(interface, called.name) {
        return Err(ParseError::Refused(refused(SigFaultKind::Duplicate, text)));
    }
    Ok((interface, id, rest))
}

/// Whether no comma comes, and the rest.
fn after_comma<'a>(rest: &'a [u8], comma: Option<&'a [u8]>) -> (bool, &'a [u8])
    ensures { (result.0, result.1.now)
        ≡ after_comma rest.now (option_map (λ x. x.now) comma.entry) }
{
    match comma {
        None => (true, rest),
        Some(after) => (false, after),
    }
}

/// An interface of an operation, and the comma after it. Answers whether there was none, and the
/// rest.
#[tactic(auto, unfolding(crate::specs::CallReading::interface_step))]
fn interface_step<'a>(
    draft: &mut Draft,
    called: OperationStructs<'_>,
    text: &'a [u8],
) -> Result<(bool, &'a [u8]), ParseError>
    requires short { length called.name.now ≤ 128 }
    requires request { called.signature.request.0 < length draft.old.table.types }
    requires reply { called.signature.reply.0 < length draft.old.table.types }
    ensures gives { Gives (λ x. (x.0, (draft.new, x.1.now))) result
        (interface_step (operation_structs_view called.entry) (draft.old, text.now)) }
    ensures keeps { OnOk result (KeepsTypes draft.old draft.new) }
{
    let (interface, id, rest) = operation_interface_at(draft, called, text)?;
    let comma = starts_with_mark(rest, Mark::Comma)?;
    draft.add_interface(id)?;
    draft.add_operation(interface, called.name, called.signature)?;
    Ok(after_comma(rest, comma))
}

/// The interfaces of an operation, at least one. Answers the rest.
fn interfaces_at<'a>(
    draft: &mut Draft,
    called: OperationStructs<'_>,
    text: &'a [u8],
) -> Result<&'a [u8], ParseError>
    requires short { length called.name.now ≤ 128 }
    requires request { called.signature.request.0 < length draft.old.table.types }
    requires reply { called.signature.reply.0 < length draft.old.table.types }
    ensures gives { Gives (λ x. (draft.new, x.now)) result
        (in_steps (interface_step (operation_structs_view called.entry)) too_many_interfaces
        (length text.now)
        (draft.old, text.now)) }
    ensures keeps { OnOk result (KeepsTypes draft.old draft.new) }
{
    let mut rest = text;
    for _ in 0..text.len() {
        let (over, after) = interface_step(draft, called, rest)?;
        if over {
            return Ok(after);
        }
        rest = after;
    }
    Err(ParseError::Refused(misplaced(rest)))
}

/// An operation without interfaces, whose name is at the front of `at`.
fn without_interfaces_at<'a>(
    draft: &mut Draft,
    at: &[u8],
    called: OperationStructs<'_>,
    text: &'a [u8],
) -> Result<&'a [u8], ParseError>
    requires short { length called.name.now ≤ 128 }
    requires request { called.signature.request.0 < length draft.old.table.types }
    requires reply { called.signature.reply.0 < length draft.old.table.types }
    ensures gives { Gives (λ x. (draft.new, x.now)) result
        (without_interfaces_at at.now (operation_structs_view called.entry) (draft.old, text.now)) }
    ensures keeps { OnOk result (KeepsTypes draft.old draft.new) }
{
    if draft.has_operation(0, called.name) {
        return Err(ParseError::Refused(refused(SigFaultKind::Duplicate, at)));
    }
    draft.add_operation(0, called.name, called.signature)?;
    Ok(text)
}

/// The interfaces of an operation, if it has some. Its name is at the front of `at`. Answers the
/// rest.
#[tactic(auto, unfolding(crate::specs::CallReading::optional_interfaces_at))]
fn optional_interfaces_at<'a>(
    draft: &mut Draft,
    at: &[u8],
    called: OperationStructs<'_>,
    text: &'a [u8],
) -> Result<&'a [u8], ParseError>
    requires short { length called.name.now ≤ 128 }
    requires request { called.signature.request.0 < length draft.old.table.types }
    requires reply { called.signature.reply.0 < length draft.old.table.types }
    ensures gives { Gives (λ x. (draft.new, x.now)) result
        (optional_interfaces_at at.now (operation_structs_view called.entry)
        (draft.old, text.now)) }
    ensures keeps { OnOk result (KeepsTypes draft.old draft.new) }
{
    if draft.is_version_3() {
        if let Some(rest) = starts_with_keyword(text, b"of")? {
            return interfaces_at(draft, called, rest);
        }
    }
    without_interfaces_at(draft, at, called, text)
}

/// A new KEY.
#[tactic(auto, unfolding(crate::specs::CallReading::new_key_at))]
fn new_key_at<'a>(draft: &Draft, text: &'a [u8]) -> Result<(&'a [u8], &'a [u8]), ParseError>
    ensures { Gives (λ x. (x.0.now, x.1.now)) result (new_key_at draft.now text.now) }
{
    let (key, rest) = repository_id(text)?;
    if !is_key(key) {
        return Err(ParseError::Refused(misplaced(text)));
    }
    if draft.interfaces().has_key(key) {
        return Err(ParseError::Refused(refused(SigFaultKind::Duplicate, text)));
    }
    if draft.interfaces().keys_len() >= KEYS_MAX {
        return Err(ParseError::Refused(refused(SigFaultKind::Limit, text)));
    }
    Ok((key, rest))
}

/// A KEY and its interface, after the first word. Answers the rest.
#[tactic(auto, unfolding(crate::specs::CallReading::key_at))]
pub(crate) fn key_at<'a>(draft: &mut Draft, text: &'a [u8]) -> Result<&'a [u8], ParseError>
    ensures { Gives (λ x. (draft.new, x.now)) result (key_at draft.old text.now) }
{
    let at = octets_left_at_token(text);
    let (key, rest) = new_key_at(draft, text)?;
    let rest = keyword(rest, b"of")?;
    let (id, rest) = interface_at(draft, rest)?;
    draft.add_key(key, id)?;
    declaration_end_at(draft, at, rest)
}

/// An operation, after its first word. Answers the rest.
#[tactic(auto, unfolding(crate::specs::CallReading::operation_at))]
pub(crate) fn operation_at<'a>(
    alloc: Global,
    draft: &mut Draft,
    text: &'a [u8],
) -> Result<&'a [u8], ParseError>
    ensures { Gives (λ x. (draft.new, x.now)) result (operation_at draft.old text.now) }
{
    draft.laws();
    let (returned, after) = return_at(alloc, draft, text)?;
    let at = octets_left_at_token(after);
    let (name, rest) = new_operation_at(draft, after)?;
    let rest = mark(rest, Mark::OpenParenthesis)?;
    let (request, reply, rest) = params_at(alloc, draft, returned, rest)?;
    let q = draft.add(Entry::Members(request))?;
    let r = draft.add(Entry::Members(reply))?;
    let signature = Signature {
        request: q,
        reply: r,
    };
    let rest = optional_interfaces_at(draft, after, OperationStructs { name, signature }, rest)?;
    draft.count_operation();
    declaration_end_at(draft, at, rest)
}
