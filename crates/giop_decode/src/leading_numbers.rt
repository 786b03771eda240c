//! The number that begins an innermost part, and what comes after it.

ghost use Rattle.std.specs.Prelude.{◌≡◌, ℕ, suc, ◌+◌, ◌<◌, ◌≤◌, ◌++◌, length, take, eqb, false};
ghost use Rattle.giop_cdr.specs.Alignment.{IsAlignment, padding};
ghost use Rattle.giop_cdr.specs.Numbers.{num};
ghost use Rattle.giop_decode.specs.Pieces.{bound_fault};
ghost use Rattle.giop_decode.specs.Reading.{number_fault};
ghost use Rattle.giop_decode.specs.Runs.{IsStep, IsStepOf};
ghost use Rattle.giop_decode.specs.ReadingSteps.{leading_width};
ghost use Rattle.giop_decode.specs.Fits.{HasLeadingNumber};
ghost use Rattle.giop_decode.specs.Transitions.{IsNumberOf, BelongToNumber, bound_fault_if, enum_fault_if};
ghost use Rattle.giop_sig.specs.declared.types.Shape.TheVariants as Shape;
ghost use Rattle.giop_sig.specs.Types.{HasShape, Marked, Ty, Text, Octets, OctetKind, bound_of, Sequence, switch_of, shape_in, IsUnion};
ghost use Rattle.giop_sig.specs.Fits.{IsFit};
ghost use Rattle.giop_sig.specs.Trees.{tree, tree_at};

use crate::encapsulation;
use crate::leaf::{Leaf, Output, Step, Transition, refused_step};
use crate::progress::ValueFault;
use giop_cdr::{Carry, Number, Order, Prim, number_of, pad, size};
use giop_sig::{SeenCatalogue, Selected, Shape, TypeId, is_kind, kind_word};

/// How many octets the number has that begins a type.
#[inline(always)]
pub(crate) fn leading_width(catalogue: &SeenCatalogue<'_>, t: TypeId) -> u8
    requires known { t.0 < length catalogue.now.types }
    ensures width { (n : ℕ) → HasLeadingNumber (tree_at catalogue.now (suc n) t.0) →
        result ≡ leading_width (tree_at catalogue.now (suc n) t.0) }
    ensures aligned { IsAlignment result }
{
    match catalogue.shape(t) {
        Shape::Prim(prim) => size(prim),
        Shape::Union(_) => switch_width(catalogue, t),
        Shape::Tagged => switch_width(catalogue, t),
        Shape::WideChar => 1,
        _ => 4,
    }
}

/// How many octets the number of a discriminator has.
#[inline(always)]
fn switch_width(catalogue: &SeenCatalogue<'_>, t: TypeId) -> u8
    requires known { t.0 < length catalogue.now.types }
    requires union { IsUnion (shape_in (tree catalogue.now t.0)) }
    ensures width { (n : ℕ) → HasLeadingNumber (tree_at catalogue.now (suc n) t.0) →
        result ≡ leading_width (tree_at catalogue.now (suc n) t.0) }
    ensures aligned { IsAlignment result }
{
    match catalogue.shape(catalogue.switch_type(t)) {
        Shape::Prim(prim) => size(prim),
        _ => 4,
    }
}

/// How many octets of padding come before a number of this width. Each width has an arm of its own,
/// so that none waits for a division.
#[inline(always)]
pub(crate) fn padding_at(at: u8, width: u8) -> u8
    requires { IsAlignment width }
    ensures { result ≡ padding at width }
{
    let at = u64::from(at);
    match width {
        1 => pad(at, 1),
        2 => pad(at, 2),
        4 => pad(at, 4),
        8 => pad(at, 8),
        _ => unreachable!(),
    }
}

/// Holds octets of a number up to its last, without those of the padding before it. Answers how
/// many octets these are, with the padding.
pub(crate) fn hold_number(carry: &mut Carry, at: u8, width: u8, octets: &[u8]) -> usize
    requires width { IsAlignment width }
    requires room { length carry.old < width }
    requires small { at < 8 }
    requires some { 0 < length octets.now }
    ensures size { length carry.new ≤ width }
    ensures stands { BelongToNumber width at carry.old octets.now result
        (eqb (length carry.new) width) carry.new }
{
    if !carry.is_empty() {
        return hold_octets(carry, width, octets);
    }
    let padding = usize::from(padding_at(at, width)).min(octets.len());
    padding + hold_octets(carry, width, &octets[padding..])
}

/// Holds octets of a number up to its last. Answers how many these are.
fn hold_octets(carry: &mut Carry, width: u8, octets: &[u8]) -> usize
    requires width { IsAlignment width }
    requires room { length carry.old < width }
    ensures within { result ≤ length octets.now }
    ensures held { carry.new ≡ carry.old ++ take result octets.now }
    ensures room { length carry.old + result ≤ width }
    ensures some { 0 < length octets.now → 0 < result }
{
    let room = usize::from(width) - carry.len();
    let count = room.min(octets.len());
    for octet in &octets[..count] {
        carry.push(*octet);
    }
    count
}

/// Goes on after the number that begins a type. It has these octets.
#[inline(always)]
pub(crate) fn value_step(
    catalogue: &SeenCatalogue<'_>,
    order: Order,
    of: TypeId,
    octets: &[u8],
) -> Step
    requires known { of.0 < length catalogue.now.types }
    requires head { HasLeadingNumber (tree catalogue.now of.0) }
    requires fit { (d room : ℕ) × IsFit d (tree_at catalogue.now room of.0) }
    requires whole { length octets.now ≡ leading_width (tree catalogue.now of.0) }
    ensures fits { IsStep catalogue.now of.0 result }
    ensures transitions { IsStepOf catalogue.now of.0 (num order octets.now) result }
{
    match catalogue.shape(of) {
        Shape::Prim(prim) => match number_of(order, prim, octets) {
            Ok(number) => Step {
                transition: Transition::Ended,
                output: Output::Number(number),
            },
            Err(_) => refused_step(ValueFault::Boolean),
        },
        Shape::Enumeration(count) => {
            let n = long_of(order, octets);
            if n >= count {
                return refused_step(ValueFault::Enum);
            }
            Step {
                transition: Transition::Ended,
                output: Output::Number(Number::Unsigned(u64::from(n))),
            }
        }
        Shape::Text(bound) => length_step(catalogue, of, bound, long_of(order, octets)),
        Shape::Octets(bound) => size_step(catalogue, of, bound, long_of(order, octets)),
        Shape::WideText => size_step(catalogue, of, None, long_of(order, octets)),
        Shape::WideChar => size_step(catalogue, of, None, octet_of(order, octets)),
        Shape::Sequence(bound) => count_step(catalogue, of, bound, long_of(order, octets)),
        Shape::Recursive(bound) => recursive_step(catalogue, of, bound, long_of(order, octets)),
        Shape::Union(_) => switch_step(catalogue, order, of, octets),
        Shape::Tagged => switch_step(catalogue, order, of, octets),
        Shape::Encapsulation => encapsulation::length_step(catalogue, of, long_of(order, octets)),
        Shape::Members(_) => unreachable!(),
        Shape::Array(_) => unreachable!(),
        Shape::Marked(mark) => {
            let n = long_of(order, octets);
            if is_unnamed(mark, n) {
                return refused_step(ValueFault::Enum);
            }
            Step {
                transition: Transition::Ended,
                output: Output::Number(Number::Unsigned(u64::from(n))),
            }
        }
        Shape::Led => unreachable!(),
    }
}

/// Whether a number with this mark is a kind without a word.
#[inline]
fn is_unnamed(mark: u32, n: u32) -> bool
    ensures { number_fault (Marked mark) n ≡ enum_fault_if result }
{
    is_kind(mark) && kind_word(mark, n).is_none()
}

/// Goes on after the number of a union's discriminator. It has these octets.
#[inline(always)]
fn switch_step(catalogue: &SeenCatalogue<'_>, order: Order, of: TypeId, octets: &[u8]) -> Step
    requires known { of.0 < length catalogue.now.types }
    requires union { IsUnion (shape_in (tree catalogue.now of.0)) }
    requires fit { (d room : ℕ) × IsFit d (tree_at catalogue.now room of.0) }
    requires whole { length octets.now ≡ leading_width (tree catalogue.now of.0) }
    ensures fits { IsStep catalogue.now of.0 result }
    ensures transitions { IsStepOf catalogue.now of.0 (num order octets.now) result }
{
    match catalogue.shape(catalogue.switch_type(of)) {
        Shape::Prim(prim) => match number_of(order, prim, octets) {
            Ok(number) => selected_step(catalogue, of, number),
            Err(_) => refused_step(ValueFault::Boolean),
        },
        Shape::Enumeration(count) => {
            let label = long_of(order, octets);
            if label >= count {
                return refused_step(ValueFault::Enum);
            }
            selected_step(catalogue, of, Number::Unsigned(u64::from(label)))
        }
        Shape::Marked(mark) => {
            let kind = long_of(order, octets);
            if is_unnamed(mark, kind) {
                return refused_step(ValueFault::Enum);
            }
            selected_step(catalogue, of, Number::Unsigned(u64::from(kind)))
        }
        _ => unreachable!(),
    }
}

/// Goes on after the number of a union's discriminator, with this value.
#[inline(always)]
fn selected_step(catalogue: &SeenCatalogue<'_>, of: TypeId, number: Number) -> Step
    requires known { of.0 < length catalogue.now.types }
    requires union { IsUnion (shape_in (tree catalogue.now of.0)) }
    requires fit { (d room : ℕ) × IsFit d (tree_at catalogue.now room of.0) }
    requires number { IsNumberOf (switch_of (tree catalogue.now of.0)) number }
    ensures fits { IsStep catalogue.now of.0 result }
    ensures transitions { (is : IsNumberOf (switch_of (tree catalogue.now of.0)) number) →
        IsStepOf catalogue.now of.0 is.n result }
{
    catalogue.laws();
    match catalogue.select(of, number) {
        Selected::Case(i) => Step {
            transition: Transition::Selected(i),
            output: Output::Switch(number),
        },
        Selected::Nothing => Step {
            transition: Transition::Ended,
            output: Output::Switch(number),
        },
        Selected::Refused => refused_step(ValueFault::Disposition),
    }
}

/// Goes on after the length of a string.
#[inline(always)]
pub(crate) fn length_step(
    catalogue: &SeenCatalogue<'_>,
    of: TypeId,
    bound: Option<u32>,
    n: u32,
) -> Step
    requires { tree catalogue.now of.0 ≡ Text bound }
    ensures fits { IsStep catalogue.now of.0 result }
    ensures transitions { IsStepOf catalogue.now of.0 n result }
{
    if n == 0 {
        return Step {
            transition: Transition::Ended,
            output: empty_piece(),
        };
    }
    if exceeds(bound, n - 1) {
        return Step {
            transition: Transition::Refused(ValueFault::Bound),
            output: Output::Length,
        };
    }
    Step {
        transition: Transition::More(Leaf::Content {
            of,
            total: n - 1,
            offset: 0,
        }),
        output: Output::Length,
    }
}

/// Goes on after the number of counted octets.
#[inline(always)]
pub(crate) fn size_step(
    catalogue: &SeenCatalogue<'_>,
    of: TypeId,
    bound: Option<u32>,
    n: u32,
) -> Step
    requires { (kind : OctetKind) × (tree catalogue.now of.0 ≡ Octets kind)
        × (bound_of kind ≡ bound) }
    ensures fits { IsStep catalogue.now of.0 result }
    ensures transitions { IsStepOf catalogue.now of.0 n result }
{
    if exceeds(bound, n) {
        return refused_step(ValueFault::Bound);
    }
    if n == 0 {
        return Step {
            transition: Transition::Ended,
            output: empty_piece(),
        };
    }
    Step {
        transition: Transition::More(Leaf::Content {
            of,
            total: n,
            offset: 0,
        }),
        output: Output::Nothing,
    }
}

/// Goes on after the count of a sequence's elements.
#[inline(always)]
pub(crate) fn count_step(
    catalogue: &SeenCatalogue<'_>,
    of: TypeId,
    bound: Option<u32>,
    n: u32,
) -> Step
    requires is { (E : Ty) × (tree catalogue.now of.0 ≡ Sequence bound E) }
    requires fit { (d room : ℕ) × IsFit d (tree_at catalogue.now room of.0) }
    ensures fits { IsStep catalogue.now of.0 result }
    ensures transitions { IsStepOf catalogue.now of.0 n result }
{
    catalogue.laws();
    if exceeds(bound, n) {
        return refused_step(ValueFault::Bound);
    }
    let output = Output::Count(n);
    if n == 0 {
        return Step {
            transition: Transition::Ended,
            output,
        };
    }
    Step {
        transition: Transition::Opened(n),
        output,
    }
}

/// Goes on after the count of a recursive sequence's elements. There may be at most `most`.
#[inline(never)]
fn recursive_step(catalogue: &SeenCatalogue<'_>, of: TypeId, most: Option<u32>, n: u32) -> Step
    requires is { HasShape (tree catalogue.now of.0) (Shape.Recursive most) }
    requires fit { (d room : ℕ) × IsFit d (tree_at catalogue.now room of.0) }
    ensures fits { IsStep catalogue.now of.0 result }
    ensures transitions { IsStepOf catalogue.now of.0 n result }
{
    catalogue.laws();
    if exceeds(most, n) {
        return refused_step(ValueFault::Bound);
    }
    let output = Output::Count(n);
    if n == 0 {
        return Step {
            transition: Transition::Ended,
            output,
        };
    }
    Step {
        transition: Transition::Recursed(n),
        output,
    }
}

/// Whether a count is above its bound.
fn exceeds(bound: Option<u32>, n: u32) -> bool
    ensures { bound_fault bound n ≡ bound_fault_if result }
{
    match bound {
        None => false,
        Some(bound) => bound < n,
    }
}

/// Four octets as a slice of constant length, so that they are read without a loop.
#[inline(always)]
fn just_four(octets: &[u8]) -> &[u8]
    requires { length octets.now ≡ 4 }
    ensures { result.now ≡ octets.now }
{
    &octets[..4]
}

/// The number that four octets spell.
#[inline(always)]
pub(crate) fn long_of(order: Order, octets: &[u8]) -> u32
    requires { length octets.now ≡ 4 }
    ensures { result ≡ num order octets.now }
{
    match number_of(order, Prim::ULong, just_four(octets)) {
        Ok(Number::Unsigned(n)) => n as u32,
        _ => unreachable!(),
    }
}

/// The number that one octet spells.
fn octet_of(order: Order, octets: &[u8]) -> u32
    requires { length octets.now ≡ 1 }
    ensures { result ≡ num order octets.now }
{
    match number_of(order, Prim::Octet, octets) {
        Ok(Number::Unsigned(n)) => n as u32,
        _ => unreachable!(),
    }
}

/// The only piece of an empty content.
#[inline(always)]
fn empty_piece() -> Output
    ensures { result ≡ Output.Piece 0 false }
{
    Output::Piece {
        offset: 0,
        more: false,
    }
}
