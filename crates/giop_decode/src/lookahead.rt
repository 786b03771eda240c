//! Octets ahead that are taken together: those of a whole number, or those of the rest of a piece.

ghost use Rattle.std.specs.Prelude.{◌≡◌, ℕ, ◌-◌, ◌<◌, ◌≤◌, [], true, length, Some, IfSome, IfNone};
ghost use Rattle.giop_cdr.specs.Alignment.{IsAlignment};
ghost use Rattle.giop_cdr.specs.Primitives.{size_of};
ghost use Rattle.giop_decode.specs.Pieces.{terminator_size};
ghost use Rattle.giop_decode.specs.Transitions.{IsWholeLong, IsWholeNumber, BelongToNumber};
ghost use Rattle.giop_sig.specs.Types.{Single, Plain};
ghost use Rattle.giop_sig.specs.Trees.{tree_at};

use crate::leading_numbers::{long_of, padding_at};
use crate::leaf::{Leaf, Output, Step, Transition};
use giop_cdr::{Number, Order, Prim, number_of, size};
use giop_sig::{SeenCatalogue, Shape, TypeId};

/// Octets ahead that an innermost part takes together.
#[derive(Clone, Copy, Debug)]
pub(crate) struct Lookahead<'a> {
    /// The type of the part.
    pub(crate) of: TypeId,
    /// How many octets are taken, at least one.
    pub(crate) count: usize,
    /// What the last of them does.
    pub(crate) step: Step,
    /// Those of the octets that belong to the piece that is written, after the octets that are
    /// held.
    pub(crate) rest: &'a [u8],
}

/// `count` octets of a part. The last of them makes this step, and `rest` are those that belong to
/// the piece that is written.
#[inline(always)]
pub(crate) fn lookahead_of(of: TypeId, count: usize, step: Step, rest: &[u8]) -> Lookahead<'_>
    ensures of { result.of ≡ of }
    ensures count { result.count ≡ count }
    ensures step { result.step ≡ step }
    ensures rest { result.rest.now ≡ rest.now }
{
    Lookahead {
        of,
        count,
        step,
        rest,
    }
}

/// How many octets come after a piece, if `left` octets of its content are left: a zero after the
/// last piece of a string.
#[inline(always)]
pub(crate) fn octets_after_piece(catalogue: &SeenCatalogue<'_>, of: TypeId, left: usize) -> usize
    requires known { of.0 < length catalogue.now.types }
    ensures full { 32 < left → result ≡ 0 }
    ensures last { (n : ℕ) → left ≤ 32 → result ≡ terminator_size (tree_at catalogue.now n of.0) }
{
    if left > 32 {
        return 0;
    }
    match catalogue.shape(of) {
        Shape::Text(_) => 1,
        _ => 0,
    }
}

/// Octets that are held of a part that goes on.
#[inline(always)]
pub(crate) fn held_ahead(of: TypeId, count: usize, leaf: Leaf) -> Lookahead<'static>
    ensures of { result.of ≡ of }
    ensures count { result.count ≡ count }
    ensures step { result.step
        ≡ record { transition = Transition.More leaf; output = Output.Nothing } }
    ensures rest { result.rest.now ≡ [] }
{
    Lookahead {
        of,
        count,
        step: Step {
            transition: Transition::More(leaf),
            output: Output::Nothing,
        },
        rest: &[],
    }
}

/// The number of a type, if it is a primitive and all its octets come at the front of these, and
/// how many octets it takes with its padding. The first octet has this phase modulo 8.
#[inline(always)]
pub(crate) fn whole_number(
    catalogue: &SeenCatalogue<'_>,
    order: Order,
    at: u8,
    of: TypeId,
    octets: &[u8],
) -> Option<(usize, Number)>
    requires known { of.0 < length catalogue.now.types }
    requires small { at < 8 }
    ensures { IfSome result (λ whole. (n : ℕ) →
        IsWholeNumber (tree_at catalogue.now n of.0) order at octets.now whole.0 whole.1) }
{
    match catalogue.shape(of) {
        Shape::Prim(prim) => match size(prim) {
            1 => number_of_width(order, prim, 1, at, octets),
            2 => number_of_width(order, prim, 2, at, octets),
            4 => number_of_width(order, prim, 4, at, octets),
            _ => number_of_width(order, prim, 8, at, octets),
        },
        _ => None,
    }
}

/// The number of a primitive of this width, if all its octets come at the front of these, and how
/// many octets it takes with its padding. The first octet has this phase modulo 8. Callers give the
/// width as a constant.
#[inline(always)]
fn number_of_width(
    order: Order,
    prim: Prim,
    width: u8,
    at: u8,
    octets: &[u8],
) -> Option<(usize, Number)>
    requires width { width ≡ size_of prim }
    requires aligned { IsAlignment width }
    requires small { at < 8 }
    ensures { IfSome result (λ whole.
        IsWholeNumber (Single (Plain prim)) order at octets.now whole.0 whole.1) }
{
    match whole_octets(width, at, octets) {
        Some((count, whole)) => match number_of(order, prim, whole) {
            Ok(number) => Some((count, number)),
            Err(_) => None,
        },
        None => None,
    }
}

/// The number of four octets, if all of them come at the front of these, and how many octets it
/// takes with its padding. The first octet has this phase modulo 8.
#[inline(always)]
pub(crate) fn whole_long(order: Order, at: u8, octets: &[u8]) -> Option<(usize, u32)>
    requires { at < 8 }
    ensures { IfSome result (λ whole. IsWholeLong order at octets.now whole.0 whole.1) }
{
    match whole_octets(4, at, octets) {
        Some((count, whole)) => Some((count, long_of(order, whole))),
        None => None,
    }
}

/// The octets of a number of this width, if all of them come at the front of these, and how many
/// they are with its padding. The first octet has this phase modulo 8.
#[inline(always)]
pub(crate) fn whole_octets(width: u8, at: u8, octets: &[u8]) -> Option<(usize, &[u8])>
    requires aligned { IsAlignment width }
    requires small { at < 8 }
    ensures stands { IfSome result (λ whole.
        BelongToNumber width at [] octets.now whole.0 true whole.1.now) }
    ensures width { IfSome result (λ whole. length whole.1.now ≡ width) }
{
    let padding = usize::from(padding_at(at, width));
    let count = padding + usize::from(width);
    if octets.len() < count {
        return None;
    }
    Some((count, &octets[padding..count]))
}
