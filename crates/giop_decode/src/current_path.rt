//! The path of the innermost part, which its lines show, spelled from the frames and the catalogue.

ghost use Rattle.std.specs.Prelude.{◌≡◌, ℕ, suc, ◌+◌, ◌<◌, ◌≤◌, [], ◌++◌, drop, length};
ghost use Rattle.giop_decode.specs.Spelling.{segment_text, path_text};
ghost use Rattle.giop_decode.specs.Reading.{led_name};
ghost use Rattle.giop_decode.specs.ReadingSteps.{segment_in, path_in};
ghost use Rattle.giop_decode.specs.Transitions.{open_part, open_parts, IsKnown, AreKnown, switch_segment};
ghost use Rattle.giop_decode.specs.Segments.{frame_text, frames_text, discriminator_text, led_part_index, IsUnionOrNone};
ghost use Rattle.giop_print.specs.Line.{line_text, line_room, Spells};
ghost use Rattle.giop_print.specs.Paths.{name_segment, index_segment};
ghost use Rattle.giop_sig.specs.Types.{shape_in, IsUnion};
ghost use Rattle.giop_sig.specs.Trees.{tree, tree_at};

use crate::frame::Frame;
use giop_print::{Head, Line, Path, Position, Root};
use giop_sig::{SeenCatalogue, Shape, TypeId};
use std::marker::Model;

/// The path of the innermost part, or of its discriminator.
#[derive(Drop)]
pub(crate) struct CurrentPath<'a> {
    pub(crate) catalogue: &'a SeenCatalogue<'a>,
    pub(crate) head: &'a Head,
    pub(crate) outer: &'a [Frame],
    /// The type of the innermost part, if it is a union whose discriminator is meant.
    pub(crate) switch: Option<TypeId>,
}

impl<'a> Model for CurrentPath<'a> {
    ghost use Rattle.std.specs.Prelude.{◌<◌, length};
    ghost use Rattle.giop_decode.specs.Segments.{PathView, IsUnionOrNone};
    ghost use Rattle.giop_decode.specs.Transitions.{AreKnown};

    ghost Value = { PathView };

    ghost view = { λ here. record {
      table = here.catalogue.now;
      head = here.head.now;
      frames = here.outer.now;
      union = here.switch;
    } };

    ghost invariant = { λ here. AreKnown here.catalogue.now here.outer.now
        × (length here.outer.now < 24) × IsUnionOrNone here.catalogue.now here.switch };
}

impl Position for CurrentPath<'_> {
    ghost use Rattle.giop_decode.specs.Segments.{current_path_text};

    ghost message = { λ here. here.head.message };

    ghost spelled = { current_path_text };

    fn spell(&self, line: &mut Line) -> bool {
        self.catalogue.laws();
        if line.room() < SEGMENT {
            return false;
        }
        spell_switch_if_any(self.catalogue, self.switch, line);
        if !spell_segments(self.catalogue, self.outer, line) {
            return false;
        }
        if line.room() < HEAD {
            return false;
        }
        self.head.put(line);
        true
    }

    fn message(&self) -> u64 {
        self.head.message()
    }

    fn path(&self) -> Path {
        let mut path = path_to_innermost(self.catalogue, self.head.root(), self.outer);
        let Some(of) = self.switch else {
            return path;
        };
        push_switch(self.catalogue, of, &mut path);
        path
    }
}

/// How many octets come before the dot of a name.
const BEFORE: usize = 15;

/// How many octets a block has.
const BLOCK: usize = 16;

/// How many octets a segment may have.
const SEGMENT: usize = 65;

/// How many octets a head may have.
pub(crate) const HEAD: usize = 32;

/// Spells the segments of the parts that have begun, the innermost first. Answers whether there was
/// room for them.
#[inline(always)]
pub(crate) fn spell_segments(
    catalogue: &SeenCatalogue<'_>,
    outer: &[Frame],
    line: &mut Line,
) -> bool
    requires { AreKnown catalogue.now outer.now }
    ensures { Spells result line.old line.new (frames_text catalogue.now outer.now) }
{
    let mut left = outer.len();
    while left > 0 {
        if line.room() < SEGMENT {
            return false;
        }
        left -= 1;
        spell_segment(catalogue, outer[left], line);
    }
    true
}

/// Spells the segment of a part.
#[tactic(auto, using(crate::proofs::Segments::segment_laws))]
#[inline(always)]
pub(crate) fn spell_segment(catalogue: &SeenCatalogue<'_>, frame: Frame, line: &mut Line)
    requires known { IsKnown catalogue.now frame }
    requires room { 65 ≤ line_room line.old }
    ensures text { line_text line.new
        ≡ frame_text catalogue.now frame ++ line_text line.old }
    ensures room { line_room line.new + length (frame_text catalogue.now frame)
        ≡ line_room line.old }
    ensures most { line_room line.old ≤ line_room line.new + 65 }
{
    if frame.inside.is_some() {
        return;
    }
    match catalogue.shape(frame.of) {
        Shape::Members(_) => spell_name(line, catalogue.dotted_name(frame.of, frame.index)),
        Shape::Union(_) => spell_name(line, catalogue.dotted_name(frame.of, frame.index)),
        Shape::Tagged => spell_name(line, catalogue.dotted_name(frame.of, frame.index)),
        Shape::Sequence(_) => spell_index(line, frame.index),
        Shape::Recursive(_) => spell_index(line, frame.index),
        Shape::Array(_) => spell_index(line, frame.index),
        Shape::Led => spell_short_name(line, led_name(frame)),
        _ => unreachable!(),
    }
}

/// Spells the segment of an any's type or value.
fn spell_short_name(line: &mut Line, name: &[u8])
    requires short { length name.now ≤ 5 }
    requires room { 65 ≤ line_room line.old }
    ensures text { line_text line.new ≡ name_segment name.now ++ line_text line.old }
    ensures room { line_room line.new + length (name_segment name.now) ≡ line_room line.old }
    ensures most { line_room line.old ≤ line_room line.new + 65 }
{
    line.put_octets(name);
    line.put(b'.');
}

/// The name of the part of an any that is being read: its type, as long as that tells what comes
/// after it, or its value.
pub(crate) fn led_name(frame: Frame) -> &'static [u8]
    ensures name { result.now ≡ led_name (led_part_index frame.told frame.index) }
    ensures short { length result.now ≤ 5 }
{
    match (frame.told, frame.index) {
        (Some(_), _) => b"type",
        (None, 0) => b"type",
        (None, _) => b"value",
    }
}

/// Spells the segment of a discriminator, if one is meant.
fn spell_switch_if_any(catalogue: &SeenCatalogue<'_>, switch: Option<TypeId>, line: &mut Line)
    requires union { IsUnionOrNone catalogue.now switch }
    requires room { 65 ≤ line_room line.old }
    ensures text { line_text line.new ≡ discriminator_text catalogue.now switch
        ++ line_text line.old }
    ensures room { line_room line.new + length (discriminator_text catalogue.now switch)
        ≡ line_room line.old }
{
    match switch {
        None => {}
        Some(of) => spell_switch(catalogue, of, line),
    }
}

/// Spells the segment of a discriminator: the tag's own name for a tag, `kind` for a number with a
/// mark, and `switch` for any other.
fn spell_switch(catalogue: &SeenCatalogue<'_>, of: TypeId, line: &mut Line)
    requires known { of.0 < length catalogue.now.types }
    requires union { IsUnion (shape_in (tree catalogue.now of.0)) }
    requires room { 65 ≤ line_room line.old }
    ensures text { (n : ℕ) → line_text line.new
        ≡ segment_text (switch_segment (tree_at catalogue.now (suc n) of.0))
        ++ line_text line.old }
    ensures room { (n : ℕ) → line_room line.new
        + length (segment_text (switch_segment (tree_at catalogue.now (suc n) of.0)))
        ≡ line_room line.old }
{
    match catalogue.shape(of) {
        Shape::Union(_) => match catalogue.shape(catalogue.switch_type(of)) {
            Shape::Marked(_) => line.put_octets(b".kind"),
            _ => line.put_octets(b".switch"),
        },
        Shape::Tagged => spell_name(line, catalogue.dotted_name(of, 0)),
        _ => unreachable!(),
    }
}

/// Spells the segment of a member, a case or a discriminator. It comes after 15 octets that mean
/// nothing; if it has at most 16 octets, it is the end of a block.
#[inline(always)]
fn spell_name(line: &mut Line, dotted: &[u8])
    requires size { 16 ≤ length dotted.now }
    requires short { length dotted.now ≤ 80 }
    requires room { 65 ≤ line_room line.old }
    ensures text { line_text line.new ≡ drop 15 dotted.now ++ line_text line.old }
    ensures room { line_room line.new + length (drop 15 dotted.now) ≡ line_room line.old }
    ensures most { line_room line.old ≤ line_room line.new + 65 }
{
    let size = dotted.len() - BEFORE;
    if size <= BLOCK {
        line.put_end(&dotted[size - 1..], size);
    } else {
        line.put_octets(&dotted[BEFORE..]);
    }
}

/// Spells the segment of an element.
#[inline]
fn spell_index(line: &mut Line, index: u32)
    requires { 22 ≤ line_room line.old }
    ensures text { line_text line.new ≡ index_segment index ++ line_text line.old }
    ensures room { line_room line.new + length (index_segment index) ≡ line_room line.old }
    ensures most { line_room line.old ≤ line_room line.new + 22 }
{
    line.put(b']');
    line.put_number(u64::from(index));
    line.put(b'[');
}

/// Adds the segment of the part that is being read.
#[tactic(auto, using(crate::proofs::Segments::segment_laws))]
fn push_segment(catalogue: &SeenCatalogue<'_>, frame: Frame, path: &mut Path)
    requires known { IsKnown catalogue.now frame }
    requires room { path.old.segments < 24 }
    ensures text { (room here : ℕ) →
        path.new.text ≡ path.old.text
        ++ segment_text (segment_in (open_part catalogue.now room here frame)) }
    ensures segments { path.new.segments ≤ path.old.segments + 1 }
{
    if frame.inside.is_some() {
        return;
    }
    match catalogue.shape(frame.of) {
        Shape::Members(_) => path.push_name(catalogue.part_name(frame.of, frame.index)),
        Shape::Union(_) => path.push_name(catalogue.part_name(frame.of, frame.index)),
        Shape::Tagged => path.push_name(catalogue.part_name(frame.of, frame.index)),
        Shape::Sequence(_) => path.push_index(frame.index),
        Shape::Recursive(_) => path.push_index(frame.index),
        Shape::Array(_) => path.push_index(frame.index),
        Shape::Led => path.push_name(led_name(frame)),
        _ => unreachable!(),
    }
}

/// Adds the segment of a discriminator: the tag's own name for a tag, `kind` for a number with a
/// mark, and `switch` for any other.
fn push_switch(catalogue: &SeenCatalogue<'_>, of: TypeId, path: &mut Path)
    requires known { of.0 < length catalogue.now.types }
    requires union { IsUnion (shape_in (tree catalogue.now of.0)) }
    requires room { path.old.segments < 24 }
    ensures text { (n : ℕ) → path.new.text
        ≡ path.old.text ++ segment_text (switch_segment (tree_at catalogue.now (suc n) of.0)) }
{
    match catalogue.shape(of) {
        Shape::Union(_) => match catalogue.shape(catalogue.switch_type(of)) {
            Shape::Marked(_) => path.push_name(b"kind"),
            _ => path.push_name(b"switch"),
        },
        Shape::Tagged => path.push_name(catalogue.part_name(of, 0)),
        _ => unreachable!(),
    }
}

/// The path of the innermost part.
fn path_to_innermost(catalogue: &SeenCatalogue<'_>, root: Root, outer: &[Frame]) -> Path
    requires known { AreKnown catalogue.now outer.now }
    requires room { length outer.now ≤ 24 }
    ensures text { (here : ℕ) →
        result.text ≡ path_text root (path_in [] (open_parts catalogue.now here outer.now)) }
    ensures segments { result.segments ≤ length outer.now }
{
    let mut path = Path::new(root);
    for frame in outer {
        push_segment(catalogue, *frame, &mut path);
    }
    path
}
