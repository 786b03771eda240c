//! What a line tells the parts around it about what comes next in them.

ghost use Rattle.std.specs.Prelude.{◌≡◌, ℕ, suc, ◌<◌, ◌++◌, List, [], ◌∷◌, length};
ghost use Rattle.giop_decode.specs.ReadResult.{ValueAt, Number as NumberValue, PathSegment, line};
ghost use Rattle.giop_decode.specs.Heard.{FramesHear, IsSignOf};
ghost use Rattle.giop_decode.specs.Transitions.{AreKnown, HasOutput, IsNumberOf, IsOutput, frames_after_sign, frame_after_sign, number_of, signal_by, stage_of, tree_in};
ghost use Rattle.giop_sig.specs.Trees.{tree_at};

use crate::frame::{Frame, Stage};
use crate::leaf::{Finished, Output};
use arrayvec::ArrayVec;
use giop_cdr::Number;
use giop_sig::{SeenCatalogue, Shape, Sign, Signal, TypeId};

/// Tells the parts around what an octet finishes. Parts hear it whose first part is read and tells
/// what comes after it.
pub(crate) fn tell_frames(
    catalogue: &SeenCatalogue<'_>,
    outer: &mut ArrayVec<Frame, 24>,
    finished: Finished<'_>,
)
    requires known { finished.of.0 < length catalogue.now.types }
    requires known_outer { AreKnown catalogue.now outer.old.items }
    requires room { length outer.old.items < 24 }
    requires has_output { HasOutput (tree_in catalogue.now outer.old.items finished.of.0)
        finished.output }
    ensures { FramesHear catalogue.now outer.old.items outer.new.items finished.entry.of.0
        finished.entry.output (finished.entry.held.now ++ finished.entry.rest.now) }
{
    match sign_of_finished(catalogue, finished) {
        Some(sign) => tell_frames_sign(catalogue, outer, sign),
        None => {}
    }
}

/// What the line of what an octet finishes tells, if it tells something.
fn sign_of_finished<'a>(catalogue: &SeenCatalogue<'_>, finished: Finished<'a>) -> Option<Sign<'a>>
    requires known { finished.of.0 < length catalogue.now.types }
    requires has_output { (n : ℕ) × HasOutput (tree_at catalogue.now (suc n) finished.of.0)
        finished.output }
    ensures { (n at : ℕ) (path : List PathSegment) (lines : List ValueAt) →
        IsOutput (tree_at catalogue.now (suc n) finished.entry.of.0) path at finished.entry.output
        (finished.entry.held.now ++ finished.entry.rest.now) lines → IsSignOf result lines }
{
    match finished.output {
        Output::Number(number) => sign_of_number(catalogue, finished.of, number),
        Output::Switch(number) => {
            sign_of_number(catalogue, catalogue.switch_type(finished.of), number)
        }
        Output::Count(count) => Some(Sign::Counted(count)),
        Output::Piece { more, .. } => match catalogue.shape(finished.of) {
            Shape::Text(_) => Some(Sign::Spelt(finished.held, finished.rest, more)),
            _ => None,
        },
        Output::Nothing => None,
        Output::Length => None,
        Output::Size(_) => None,
        Output::Ordered(_) => None,
    }
}

/// What the number of a type tells, if it has a mark.
fn sign_of_number(
    catalogue: &SeenCatalogue<'_>,
    of: TypeId,
    number: Number,
) -> Option<Sign<'static>>
    requires known { of.0 < length catalogue.now.types }
    requires number { (n : ℕ) × IsNumberOf (tree_at catalogue.now n of.0) number }
    ensures { (n at : ℕ) (path : List PathSegment)
        (is : IsNumberOf (tree_at catalogue.now n of.0) number) →
        IsSignOf result (line at path (NumberValue is.scalar is.n) ∷ []) }
{
    match (catalogue.shape(of), number) {
        (Shape::Marked(mark), Number::Unsigned(n)) => Some(Sign::Marked(mark, n as u32)),
        _ => None,
    }
}

/// Tells each of these parts a sign.
fn tell_frames_sign(catalogue: &SeenCatalogue<'_>, outer: &mut ArrayVec<Frame, 24>, sign: Sign<'_>)
    requires { AreKnown catalogue.now outer.old.items }
    ensures { outer.new.items ≡ frames_after_sign catalogue.now sign.entry outer.old.items }
{
    for frame in outer.iter_mut() {
        *frame = frame_after_sign(catalogue, *frame, sign);
    }
}

/// A part after a sign.
fn frame_after_sign(catalogue: &SeenCatalogue<'_>, frame: Frame, sign: Sign<'_>) -> Frame
    requires { frame.of.0 < length catalogue.now.types }
    ensures { result ≡ frame_after_sign catalogue.now sign.entry frame }
{
    match frame.told {
        None => frame,
        Some(stage) => {
            let told = catalogue.hear(frame.of, signal_by(stage, frame.index), sign);
            Frame {
                index: number_of(told),
                told: Some(stage_of(told)),
                ..frame
            }
        }
    }
}

/// What was told, from its stage and its number.
pub(crate) fn signal_by(stage: Stage, number: u32) -> Signal
    ensures { result ≡ signal_by stage number }
{
    match stage {
        Stage::Untold => Signal::Untold,
        Stage::Awaits => Signal::Awaits(number),
        Stage::Offers => Signal::Offers(number),
        Stage::Is => Signal::Is(number),
        Stage::Empty => Signal::Empty,
        Stage::Unknown => Signal::Unknown,
    }
}

/// The stage of what was told.
fn stage_of(told: Signal) -> Stage
    ensures { result ≡ stage_of told }
{
    match told {
        Signal::Untold => Stage::Untold,
        Signal::Awaits(_) => Stage::Awaits,
        Signal::Offers(_) => Stage::Offers,
        Signal::Is(_) => Stage::Is,
        Signal::Empty => Stage::Empty,
        Signal::Unknown => Stage::Unknown,
    }
}

/// The number of what was told; 0 if it has none.
fn number_of(told: Signal) -> u32
    ensures { result ≡ number_of told }
{
    match told {
        Signal::Awaits(number) => number,
        Signal::Offers(number) => number,
        Signal::Is(number) => number,
        Signal::Untold => 0,
        Signal::Empty => 0,
        Signal::Unknown => 0,
    }
}
