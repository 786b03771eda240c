//! The parts that have begun and not ended, and have parts of their own.

ghost use Rattle.std.specs.Prelude.{◌≡◌, ℕ, ◌+◌, ◌-◌, ◌^◌, ◌<◌, ◌≤◌, List, [], ◌∷◌, ◌++◌, length, take, Bool, Some, ◌↔◌, IsTrue, IfSome, IfNone, false};
ghost use Rattle.arrayvec.specs.ArrayVec.{array_vec_len};
ghost use Rattle.giop_decode.specs.ReadResult.{Coding, PathSegment, LeadingNumber, Done, Fault};
ghost use Rattle.giop_decode.specs.declared.progress.ValueFault.TheVariants as kinds;
ghost use Rattle.giop_decode.specs.Reading.{none_left, done_if_untyped};
ghost use Rattle.giop_decode.specs.ReadingSteps.{resume_outer};
ghost use Rattle.giop_decode.specs.Fits.{HasLeadingNumber, OpenPartsFit};
ghost use Rattle.giop_decode.specs.Begins.{start_outer, start_leaf};
ghost use Rattle.giop_decode.specs.Transitions.{HasOctetsLeft, coding_in_frame, frame_after_octets, encapsulation_ended, open_parts, AreKnown, HasOutput, HaveOctetsLeft, IsAtMost, StandAt, HoldsOnlyItsOwn, is_some_stage, any_is_encapsulation, any_tells, within_by, within_after_encapsulation, within_after_frame, Link, StartsWithPart, innermost_coding, read_from_next_leaf, any_encapsulation_ended, within_of, leaf_type, frames_after_octets, tree_in};
ghost use Rattle.giop_sig.specs.Fits.{IsFit, IsEmptyStruct, IsRoot};
ghost use Rattle.giop_decode.specs.Heard.{FramesHear, SameComesNext, PartComesNext};
ghost use Rattle.giop_decode.specs.NotingSteps.{leaf_in_string};
ghost use Rattle.giop_decode.specs.NextParts.{frames_above, frame_at_next};
ghost use Rattle.giop_sig.specs.Table.{Table};
ghost use Rattle.giop_sig.specs.Trees.{tree, tree_at};
ghost use Rattle.giop_sig.specs.Types.{Ty};

use crate::hearing::{signal_by, tell_frames};
use crate::leaf::{Finished, Leaf};
use arrayvec::ArrayVec;
use giop_cdr::Order;
use giop_sig::{Following, SeenCatalogue, Shape, TypeId};

/// What parts around the innermost one ask of each octet.
#[derive(Clone, Copy, Debug, PartialEq, Eq)]
pub(crate) enum Within {
    /// Nothing.
    Nothing,
    /// It is counted: one of the parts is an encapsulation.
    Encapsulation,
    /// It is counted, and its line is heard: one of the parts tells what comes after it.
    Telling,
}

/// What a part has told so far about what comes after it, without a number.
#[derive(Clone, Copy, Debug, PartialEq, Eq)]
pub(crate) enum Stage {
    /// Nothing has been told.
    Untold,
    /// The repository id of a kind comes.
    Awaits,
    /// A type, if the count that comes next is that of its members.
    Offers,
    /// A type.
    Is,
    /// No octets come.
    Empty,
    /// Octets of no known type come.
    Unknown,
}

/// A part that has begun and not ended, and which of its own parts is being read.
#[derive(Clone, Copy, Debug, PartialEq, Eq)]
pub(crate) struct Frame {
    /// The type of the part.
    pub(crate) of: TypeId,
    /// The index of that part: of a member, an element or a case. For an encapsulation, how many of
    /// its octets were taken, from which its numbers are aligned. For a part that tells what comes
    /// after it, the number that belongs to what was told.
    pub(crate) index: u32,
    /// How many members or elements there are; 0 for a union. For an encapsulation, how many octets
    /// it has.
    pub(crate) count: u32,
    /// The byte order of an encapsulation. None for any other part.
    pub(crate) inside: Option<Order>,
    /// What was told so far, if the part that is read is the first and tells what comes after it.
    /// None for any other part.
    pub(crate) told: Option<Stage>,
}

impl Default for Frame {
    fn default() -> Frame {
        Frame {
            of: TypeId(0),
            index: 0,
            count: 0,
            inside: None,
            told: None,
        }
    }
}

/// What these parts ask of each octet. They ask `most` at most.
#[inline(always)]
pub(crate) fn within_of(most: Within, outer: &[Frame]) -> Within
    requires { IsAtMost (within_of outer.now) most }
    ensures { result ≡ within_of outer.now }
{
    match most {
        Within::Nothing => Within::Nothing,
        Within::Encapsulation => within_by(false, any_is_encapsulation(outer)),
        Within::Telling => within_by(any_tells(outer), any_is_encapsulation(outer)),
    }
}

/// What parts ask of each octet after one more, which may tell what comes after it.
#[inline(always)]
fn within_after_frame(told: Option<Stage>, within: Within) -> Within
    ensures { result ≡ within_after_frame (is_some_stage told) within }
{
    match told {
        Some(_) => Within::Telling,
        None => within,
    }
}

/// Whether one of the parts is an encapsulation.
#[inline(never)]
fn any_is_encapsulation(outer: &[Frame]) -> bool
    ensures { result ≡ any_is_encapsulation outer.now }
{
    outer.iter().any(|frame| frame.inside.is_some())
}

/// Whether one of the parts tells what comes after it.
#[inline(never)]
fn any_tells(outer: &[Frame]) -> bool
    ensures { result ≡ any_tells outer.now }
{
    outer.iter().any(|frame| frame.told.is_some())
}

/// What parts ask of each octet, if one of them tells what comes after it, or one is an
/// encapsulation.
#[inline(always)]
fn within_by(tells: bool, holds: bool) -> Within
    ensures { result ≡ within_by tells holds }
{
    if tells {
        Within::Telling
    } else if holds {
        Within::Encapsulation
    } else {
        Within::Nothing
    }
}

/// What parts ask of each octet after one more, which is an encapsulation.
pub(crate) fn within_after_encapsulation(within: Within) -> Within
    ensures { result ≡ within_after_encapsulation within }
{
    match within {
        Within::Telling => Within::Telling,
        _ => Within::Encapsulation,
    }
}

/// Counts octets in each encapsulation, if there is one, and tells the parts around what the last
/// of the octets finishes. Parts hear it whose first part is read and tells what comes after it.
#[inline(always)]
pub(crate) fn count_and_tell(
    catalogue: &SeenCatalogue<'_>,
    inside: Within,
    outer: &mut ArrayVec<Frame, 24>,
    octets: usize,
    finished: Finished<'_>,
)
    requires inside { inside ≡ within_of outer.old.items }
    requires ahead { HaveOctetsLeft (frames_after_octets (octets - 1) outer.old.items) }
    requires known { finished.of.0 < length catalogue.now.types }
    requires known_outer { AreKnown catalogue.now (frames_after_octets octets outer.old.items) }
    requires room { length outer.old.items < 24 }
    requires has_output { HasOutput
        (tree_in catalogue.now (frames_after_octets octets outer.old.items) finished.of.0)
        finished.output }
    ensures { FramesHear catalogue.now (frames_after_octets octets outer.old.items) outer.new.items
        finished.entry.of.0 finished.entry.output
        (finished.entry.held.now ++ finished.entry.rest.now) }
{
    match inside {
        Within::Nothing => {}
        Within::Encapsulation => count_in_frames(outer, octets),
        Within::Telling => {
            count_in_frames(outer, octets);
            tell_frames(catalogue, outer, finished);
        }
    }
}

/// Counts octets in each frame of an encapsulation.
fn count_in_frames(outer: &mut ArrayVec<Frame, 24>, octets: usize)
    requires ahead { HaveOctetsLeft (frames_after_octets (octets - 1) outer.old.items) }
    ensures ticked { outer.new.items ≡ frames_after_octets octets outer.old.items }
{
    for frame in outer.iter_mut() {
        *frame = frame_after_octets(*frame, octets);
    }
}

/// A frame after more octets, which are counted in an encapsulation.
fn frame_after_octets(frame: Frame, octets: usize) -> Frame
    requires ahead { HasOctetsLeft (frame_after_octets (octets - 1) frame) }
    ensures ticked { result ≡ frame_after_octets octets frame }
{
    match frame.inside {
        Some(_) => Frame {
            index: frame.index + octets as u32,
            ..frame
        },
        None => frame,
    }
}

/// How many of these octets come before the last octet of each encapsulation.
fn octets_before_ends(outer: &[Frame], octets: usize) -> usize
    requires ahead { HaveOctetsLeft outer.now }
    ensures within { result ≤ octets }
    ensures ahead { HaveOctetsLeft (frames_after_octets result outer.now) }
{
    let mut count = octets;
    for frame in outer {
        count = octets_before_end(*frame, count);
    }
    count
}

/// How many of these octets come before the last octet of an encapsulation, if the frame is one of
/// an encapsulation.
fn octets_before_end(frame: Frame, octets: usize) -> usize
    requires ahead { HasOctetsLeft frame }
    ensures within { result ≤ octets }
    ensures ahead { HasOctetsLeft (frame_after_octets result frame) }
{
    match frame.inside {
        Some(_) => octets.min((frame.count - frame.index - 1) as usize),
        None => octets,
    }
}

/// These octets up to the last one of each encapsulation; all of them if there is no encapsulation.
#[inline(always)]
pub(crate) fn octets_to_end<'a>(inside: Within, outer: &[Frame], octets: &'a [u8]) -> &'a [u8]
    requires inside { inside ≡ within_of outer.now }
    requires ahead { HaveOctetsLeft outer.now }
    ensures within { length result.now ≤ length octets.now }
    ensures some { 0 < length octets.now → 0 < length result.now }
    ensures head { result.now ≡ take (length result.now) octets.now }
    ensures ahead { HaveOctetsLeft (frames_after_octets (length result.now - 1) outer.now) }
{
    if let Within::Nothing = inside {
        return octets;
    }
    let before = octets_before_ends(outer, octets.len());
    let count = octets.len().min(before + 1);
    &octets[..count]
}

/// Whether an encapsulation has ended, if there is one.
pub(crate) fn any_encapsulation_ended(inside: Within, outer: &[Frame]) -> bool
    requires { inside ≡ within_of outer.now }
    ensures { result ≡ any_encapsulation_ended outer.now }
{
    match inside {
        Within::Nothing => false,
        _ => outer.iter().any(|frame| encapsulation_ended(*frame)),
    }
}

/// Whether all octets of an encapsulation were taken. False for any other part.
fn encapsulation_ended(frame: Frame) -> bool
    ensures { result ≡ encapsulation_ended frame.inside frame.index frame.count }
{
    match frame.inside {
        Some(_) => frame.index == frame.count,
        None => false,
    }
}

/// How the octets of the innermost part are taken: their byte order, and the phase modulo 8 by which
/// numbers are aligned.
pub(crate) fn coding(inside: Within, order: Order, at: u8, outer: &[Frame]) -> (Order, u8)
    requires { inside ≡ within_of outer.now }
    ensures { result ≡ innermost_coding order at outer.now }
{
    if let Within::Nothing = inside {
        return (order, at);
    }
    let mut left = outer.len();
    while left > 0 {
        left -= 1;
        if let Some(order) = outer[left].inside {
            return (order, (outer[left].index % 8) as u8);
        }
    }
    (order, at)
}

/// Whether a type is the struct without members, which takes no octet.
#[tactic(auto, using(crate::proofs::Shapes::empty_laws))]
pub(crate) fn is_empty_struct(catalogue: &SeenCatalogue<'_>, t: TypeId) -> bool
    requires { t.0 < length catalogue.now.types }
    ensures value { (n : ℕ) → IsTrue result ↔ IsEmptyStruct (tree_at catalogue.now n t.0) }
    ensures root { IsRoot (tree catalogue.now t.0) }
{
    match catalogue.shape(t) {
        Shape::Members(count) => count == 0,
        Shape::Array(_) => false,
        Shape::Prim(_) => false,
        Shape::Enumeration(_) => false,
        Shape::Text(_) => false,
        Shape::Octets(_) => false,
        Shape::WideText => false,
        Shape::WideChar => false,
        Shape::Marked(_) => false,
        Shape::Led => false,
        Shape::Union(_) => false,
        Shape::Sequence(_) => false,
        Shape::Recursive(_) => false,
        Shape::Encapsulation => false,
        Shape::Tagged => false,
    }
}

/// If a type begins with its first part: how many parts it has, and what the first one has told if
/// it tells what comes after it. None if it begins with a number.
#[tactic(auto, using(crate::proofs::Shapes::shape_laws))]
#[inline(always)]
pub(crate) fn starts_with_part(
    catalogue: &SeenCatalogue<'_>,
    t: TypeId,
) -> Option<(u32, Option<Stage>)>
    requires { t.0 < length catalogue.now.types }
    ensures whole { IfSome result (λ first.
        (n : ℕ) → StartsWithPart (tree_at catalogue.now n t.0) first.0 first.1) }
    ensures number { IfNone result ((n : ℕ) → HasLeadingNumber (tree_at catalogue.now n t.0)) }
{
    match catalogue.shape(t) {
        Shape::Members(count) => Some((count, None)),
        Shape::Array(count) => Some((count, None)),
        Shape::Led => Some((0, Some(Stage::Untold))),
        Shape::Prim(_) => None,
        Shape::Enumeration(_) => None,
        Shape::Text(_) => None,
        Shape::Octets(_) => None,
        Shape::WideText => None,
        Shape::WideChar => None,
        Shape::Marked(_) => None,
        Shape::Union(_) => None,
        Shape::Sequence(_) => None,
        Shape::Recursive(_) => None,
        Shape::Encapsulation => None,
        Shape::Tagged => None,
    }
}

/// Begins a type: adds the frames on the way to its first number, and answers the type that begins
/// with that number. `inside` is set if a frame that is added tells what comes after it.
#[inline(always)]
pub(crate) fn descend_to_number(
    catalogue: &SeenCatalogue<'_>,
    outer: &mut ArrayVec<Frame, 24>,
    inside: &mut Within,
    t: TypeId,
) -> TypeId
    requires known { t.0 < length catalogue.now.types }
    requires known_outer { AreKnown catalogue.now outer.old.items }
    requires fit { IsFit (24 - array_vec_len outer.old)
        (tree_in catalogue.now outer.old.items t.0) }
    ensures known { result.0 < length catalogue.now.types }
    ensures known_outer { AreKnown catalogue.now outer.new.items }
    ensures begun { (at : ℕ) → open_parts catalogue.now at outer.new.items
        ≡ open_parts catalogue.now at outer.old.items
        ++ start_outer (tree_in catalogue.now outer.old.items t.0) }
    ensures ended { any_encapsulation_ended outer.new.items
        ≡ any_encapsulation_ended outer.old.items }
    ensures inside { (tells : Bool) × (inside.new ≡ within_after_frame tells inside.old)
        × (within_of outer.new.items ≡ within_after_frame tells (within_of outer.old.items)) }
    ensures stand { (at : ℕ) → StandAt at outer.old.items → StandAt at outer.new.items }
    ensures leaf { start_leaf (tree_in catalogue.now outer.old.items t.0)
        ≡ LeadingNumber (tree_in catalogue.now outer.new.items result.0) [] }
    ensures linked { (root : ℕ) → Link catalogue.now root outer.old.items t.0 →
        Link catalogue.now root outer.new.items result.0 }
{
    let mut inner = t;
    while let Some((count, told)) = starts_with_part(catalogue, inner) {
        outer.push(Frame {
            of: inner,
            index: 0,
            count,
            inside: None,
            told,
        });
        *inside = within_after_frame(told, *inside);
        inner = catalogue.part(inner, 0);
    }
    inner
}

/// The innermost of these parts.
#[inline(always)]
fn innermost(outer: &ArrayVec<Frame, 24>) -> Option<Frame>
    ensures some { IfSome result (λ frame.
        outer.now.items ≡ frames_above outer.now.items ++ frame ∷ []) }
    ensures none { IfNone result (outer.now.items ≡ []) }
{
    let depth = outer.len();
    if depth == 0 {
        return None;
    }
    Some(outer[depth - 1])
}

/// Goes to the next part of the innermost of these parts.
#[inline(always)]
pub(crate) fn go_to_next(outer: &mut ArrayVec<Frame, 24>)
    requires { (frame : Frame) × (above : List Frame) ×
        (outer.old.items ≡ above ++ frame ∷ []) × (frame.index < 2 ^ 32 - 1) }
    ensures { (above : List Frame) (frame : Frame) → outer.old.items ≡ above ++ frame ∷ [] →
        outer.new.items ≡ above ++ frame_at_next frame ∷ [] }
{
    let last = outer.len() - 1;
    let next = outer[last].index + 1;
    outer[last].index = next;
}

/// Replaces the innermost frame.
fn replace_innermost(outer: &mut ArrayVec<Frame, 24>, frame: Frame)
    requires { (above : List Frame) × (f : Frame) × (outer.old.items ≡ above ++ f ∷ []) }
    ensures { (above : List Frame) (f : Frame) → outer.old.items ≡ above ++ f ∷ [] →
        outer.new.items ≡ above ++ frame ∷ [] }
{
    let last = outer.len() - 1;
    outer[last] = frame;
}

/// Ends each part up to an encapsulation, because octets of no known type come.
fn pop_to_encapsulation(outer: &mut ArrayVec<Frame, 24>)
    ensures known { (C : Table) → AreKnown C outer.old.items → AreKnown C outer.new.items }
    ensures are_open { (C : Table) (at : ℕ) → OpenPartsFit 24 (open_parts C at outer.old.items) →
        OpenPartsFit 24 (open_parts C at outer.new.items) }
    ensures fewer { array_vec_len outer.new ≤ array_vec_len outer.old }
    ensures most { (most : Within) → IsAtMost (within_of outer.old.items) most →
        IsAtMost (within_of outer.new.items) most }
    ensures stand { (at : ℕ) → StandAt at outer.old.items → StandAt at outer.new.items }
    ensures next { (C : Table) (coding : Coding) (path : List PathSegment) (at : ℕ) (T : Ty) →
        AreKnown C outer.old.items →
        done_if_untyped none_left (resume_outer coding path (open_parts C at outer.old.items)
        (Fault [] at kinds.Untyped T))
        ≡ done_if_untyped none_left (resume_outer coding path (open_parts C at outer.new.items)
        (Done [] at [])) }
    ensures linked { (C : Table) (root inner : ℕ) → Link C root outer.old.items inner →
        (now : ℕ) × Link C root outer.new.items now }
{
    while let Some(frame) = innermost(outer) {
        match frame.inside {
            Some(_) => return,
            None => {
                outer.pop();
            }
        }
    }
}

/// Goes on after a part that has ended. Answers the innermost part that comes next, which is the
/// rest of an encapsulation or the next number, or None if the whole value has ended. `inside` is
/// set if a frame that is added tells what comes after it.
#[inline(always)]
pub(crate) fn go_on_after_part(
    catalogue: &SeenCatalogue<'_>,
    outer: &mut ArrayVec<Frame, 24>,
    inside: &mut Within,
) -> Option<Leaf>
    requires known { AreKnown catalogue.now outer.old.items }
    requires open { (at : ℕ) × OpenPartsFit 24 (open_parts catalogue.now at outer.old.items) }
    ensures known { IfSome result (λ leaf. leaf_type leaf < length catalogue.now.types) }
    ensures clean { IfSome result (λ leaf. HoldsOnlyItsOwn leaf [] []) }
    ensures plain { IfSome result (λ leaf.
        leaf_in_string (tree_in catalogue.now outer.new.items (leaf_type leaf)) leaf ≡ false) }
    ensures known_outer { AreKnown catalogue.now outer.new.items }
    ensures most { IsAtMost (within_of outer.old.items) inside.old →
        IsAtMost (within_of outer.new.items) inside.new }
    ensures stand { (at : ℕ) → StandAt at outer.old.items → StandAt at outer.new.items }
    ensures next { (coding : Coding) (path : List PathSegment) (at : ℕ) →
        done_if_untyped none_left (resume_outer coding path
        (open_parts catalogue.now at outer.old.items)
        (Done [] at [])) ≡ read_from_next_leaf catalogue.now at outer.new.items result }
    ensures linked { IfSome result (λ leaf. (root inner : ℕ) →
        Link catalogue.now root outer.old.items inner →
        Link catalogue.now root outer.new.items (leaf_type leaf)) }
{
    while let Some(frame) = innermost(outer) {
        match frame.inside {
            Some(_) => {
                outer.pop();
                let left = frame.count - frame.index;
                if left > 0 {
                    return Some(Leaf::Content {
                        of: frame.of,
                        total: left,
                        offset: 0,
                    });
                }
            }
            None => {
                let last = frame.count.saturating_sub(1);
                if frame.index < last {
                    go_to_next(outer);
                    let part = catalogue.part(frame.of, frame.index + 1);
                    return Some(Leaf::Number(descend_to_number(catalogue, outer, inside, part)));
                }
                match frame.told {
                    None => {
                        outer.pop();
                    }
                    Some(told) => {
                        if let Some(part) = go_to_told_part(catalogue, outer, told) {
                            return Some(Leaf::Number(descend_to_number(
                                catalogue, outer, inside, part,
                            )));
                        }
                    }
                }
            }
        }
    }
    None
}

/// Goes on after a part before octets of no known type: the parts up to an encapsulation end with
/// it.
#[inline(never)]
pub(crate) fn go_on_at_untyped(
    catalogue: &SeenCatalogue<'_>,
    outer: &mut ArrayVec<Frame, 24>,
    inside: &mut Within,
) -> Option<Leaf>
    requires known { AreKnown catalogue.now outer.old.items }
    requires open { (at : ℕ) × OpenPartsFit 24 (open_parts catalogue.now at outer.old.items) }
    ensures known { IfSome result (λ leaf. leaf_type leaf < length catalogue.now.types) }
    ensures clean { IfSome result (λ leaf. HoldsOnlyItsOwn leaf [] []) }
    ensures plain { IfSome result (λ leaf.
        leaf_in_string (tree_in catalogue.now outer.new.items (leaf_type leaf)) leaf ≡ false) }
    ensures known_outer { AreKnown catalogue.now outer.new.items }
    ensures most { IsAtMost (within_of outer.old.items) inside.old →
        IsAtMost (within_of outer.new.items) inside.new }
    ensures stand { (at : ℕ) → StandAt at outer.old.items → StandAt at outer.new.items }
    ensures next { (coding : Coding) (path : List PathSegment) (at : ℕ) (T : Ty) →
        done_if_untyped none_left (resume_outer coding path
        (open_parts catalogue.now at outer.old.items)
        (Fault [] at kinds.Untyped T))
        ≡ read_from_next_leaf catalogue.now at outer.new.items result }
    ensures linked { IfSome result (λ leaf. (root inner : ℕ) →
        Link catalogue.now root outer.old.items inner →
        Link catalogue.now root outer.new.items (leaf_type leaf)) }
{
    pop_to_encapsulation(outer);
    go_on_after_part(catalogue, outer, inside)
}

/// Goes on after the first part of the innermost part has told what comes after it. Answers the
/// type of the part that comes, or ends the innermost part. If octets of no known type come, the
/// parts around it end too, up to an encapsulation.
#[inline(never)]
fn go_to_told_part(
    catalogue: &SeenCatalogue<'_>,
    outer: &mut ArrayVec<Frame, 24>,
    told: Stage,
) -> Option<TypeId>
    requires known { AreKnown catalogue.now outer.old.items }
    requires open { (at : ℕ) × OpenPartsFit 24 (open_parts catalogue.now at outer.old.items) }
    requires some { outer.old.items ≡ [] → ⊥ }
    requires told { (above : List Frame) (frame : Frame) → outer.old.items ≡ above ++ frame ∷ [] →
        frame.told ≡ Some told }
    ensures known { AreKnown catalogue.now outer.new.items }
    ensures most { (most : Within) → IsAtMost (within_of outer.old.items) most →
        IsAtMost (within_of outer.new.items) most }
    ensures stand { (at : ℕ) → StandAt at outer.old.items → StandAt at outer.new.items }
    ensures fewer { IfNone result (array_vec_len outer.new < array_vec_len outer.old) }
    ensures part { IfSome result (λ part. PartComesNext catalogue.now outer.old.items
        outer.new.items part.0) }
    ensures none { IfNone result (SameComesNext catalogue.now outer.old.items outer.new.items) }
{
    let Some(frame) = innermost(outer) else {
        unreachable!();
    };
    let room = 24 - outer.len() as u8;
    match catalogue.following(frame.of, signal_by(told, frame.index), room) {
        Following::Then(place) => {
            let next = Frame {
                index: place,
                told: None,
                ..frame
            };
            replace_innermost(outer, next);
            Some(catalogue.part(frame.of, place))
        }
        Following::Ends => {
            outer.pop();
            None
        }
        Following::Stops => {
            outer.pop();
            pop_to_encapsulation(outer);
            None
        }
    }
}
