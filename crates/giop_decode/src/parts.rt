//! Takes numbers that are parts of the same part one after another. What their lines begin with is
//! spelled once.

ghost use Rattle.std.specs.Prelude.{◌≡◌, ℕ, ◌+◌, ◌-◌, ◌<◌, ◌≤◌, false, true, List, [], ◌++◌, length, IfOk, IfSome, OnOk, IsTrue};
ghost use Rattle.giop_cdr.specs.Primitives.{size_of};
ghost use Rattle.giop_decode.specs.SeenState.{Fits};
ghost use Rattle.giop_decode.specs.Noted.{is_header_root};
ghost use Rattle.giop_decode.specs.NextParts.{IsPartAhead, IsNextPrimitive, IsAtNextPart, front_text};
ghost use Rattle.giop_decode.specs.Runs.{TakesSome};
ghost use Rattle.giop_decode.specs.Segments.{frame_text, frames_text};
ghost use Rattle.giop_decode.specs.Transitions.{AreKnown, IsKnown};
ghost use Rattle.giop_print.specs.Line.{line_text, line_room, headed};
ghost use Rattle.giop_print.specs.Lines.{kind_line, kind_word, number_text, spaced};
ghost use Rattle.giop_print.specs.Output.{Writes};
ghost use Rattle.giop_print.specs.Paths.{root_word};

use crate::current_path::{HEAD, spell_segment, spell_segments};
use crate::decoder::Decoder;
use crate::frame::{Frame, Within, go_to_next};
use crate::leaf::{Leaf, Output, Step, Transition};
use crate::lookahead::{Lookahead, whole_number};
use crate::notes::is_header;
use crate::progress::Progress;
use crate::run::phase_after;
use giop_cdr::{Number, Prim};
use giop_print::{Head, Line, Out, OutFault, line_behind, put_number_end};
use giop_sig::{SeenCatalogue, Shape, TypeId};

/// The number of a primitive that comes next, if it is a part of a part that has begun.
#[derive(Clone, Copy, Debug)]
struct PartAhead<'a> {
    /// The octets that begin with those of the number.
    octets: &'a [u8],
    of: TypeId,
    /// The part that has the number.
    frame: Frame,
    prim: Prim,
    number: Number,
    /// How many octets the number takes with its padding.
    count: usize,
}

/// How many octets a line may have before the last segment of its path.
const FRONT: usize = 128;

/// How many octets there must be for a run of numbers to begin.
const RUN: usize = 16;

impl Decoder {
    /// Whether the number that comes next is a primitive and a part of a part of which three parts
    /// are to come, and there are octets for more than one. False in a header.
    #[inline(always)]
    pub(crate) fn has_number_run(
        &self,
        catalogue: &SeenCatalogue<'_>,
        of: TypeId,
        octets: &[u8],
    ) -> bool
        requires fits { Fits catalogue.now self.now }
        requires leaf { self.now.leaf ≡ Some (Leaf.Number of) }
        ensures some { IsTrue result → 0 < length self.now.outer.items }
        ensures body { IsTrue result → is_header_root self.now.head.root ≡ false }
    {
        let Shape::Prim(_) = catalogue.shape(of) else {
            return false;
        };
        if is_header(self.head.root()) || octets.len() < RUN {
            return false;
        }
        let depth = self.outer.len();
        if depth == 0 {
            return false;
        }
        let frame = self.outer[depth - 1];
        frame.index.saturating_add(2) < frame.count
    }

    /// Takes some of the octets, which are at least one: primitive numbers whose octets are all
    /// there, as long as each is a part and another part comes after it, and the number after them.
    /// Writes their lines.
    #[inline(never)]
    pub(crate) fn take_number_run<O: Out>(
        &mut self,
        catalogue: &SeenCatalogue<'_>,
        octets: &[u8],
        out: &mut O,
    ) -> Result<(usize, Progress), OutFault>
        requires fits { Fits catalogue.now self.old }
        requires octets { 0 < length octets.now }
        requires some { 0 < length self.old.outer.items }
        requires body { is_header_root self.old.head.root ≡ false }
        requires outside { self.old.inside ≡ Within.Nothing }
        ensures { TakesSome catalogue.now self.old self.new octets.now
            (O.log out.old) (O.log out.new) result }
    {
        let mut line = Line::new();
        if !self.put_front_of_parts(catalogue, &mut line) {
            return self.take_one_unit(catalogue, octets, out);
        }
        self.write_parts(catalogue, octets, &line, out)
    }

    /// The same, after what their lines begin with was spelled.
    #[inline(always)]
    fn write_parts<O: Out>(
        &mut self,
        catalogue: &SeenCatalogue<'_>,
        octets: &[u8],
        front: &Line,
        out: &mut O,
    ) -> Result<(usize, Progress), OutFault>
        requires fits { Fits catalogue.now self.old }
        requires octets { 0 < length octets.now }
        requires body { is_header_root self.old.head.root ≡ false }
        requires outside { self.old.inside ≡ Within.Nothing }
        requires front { line_text front.now ≡ front_text catalogue.now self.old }
        requires short { length (line_text front.now) ≤ 128 }
        ensures { TakesSome catalogue.now self.old self.new octets.now
            (O.log out.old) (O.log out.new) result }
    {
        let mut line = Line::new();
        let mut taken = 0;
        while let Some(part) = self.part_ahead(catalogue, &octets[taken..]) {
            let Some(next) = self.next_primitive(catalogue, part) else {
                let (last, progress) = self.write_last_part(
                    catalogue, part, front, &mut line, out,
                )?;
                return Ok((taken + last, progress));
            };
            let (count, _) = self.write_part(catalogue, part, next, front, &mut line, out)?;
            taken += count;
        }
        if taken == octets.len() {
            return Ok((taken, Progress::More));
        }
        let (rest, progress) = self.take_one_unit(catalogue, &octets[taken..], out)?;
        Ok((taken + rest, progress))
    }

    /// The number that comes next, if it is a primitive, all its octets come at the front of these,
    /// and it is a part of a part that has begun.
    #[inline(always)]
    fn part_ahead<'a>(
        &self,
        catalogue: &SeenCatalogue<'_>,
        octets: &'a [u8],
    ) -> Option<PartAhead<'a>>
        requires fits { Fits catalogue.now self.now }
        requires outside { self.now.inside ≡ Within.Nothing }
        ensures ahead { IfSome result (λ part. IsPartAhead catalogue.now self.now part) }
        ensures octets { IfSome result (λ part. part.octets.now ≡ octets.now) }
    {
        let depth = self.outer.len();
        if depth == 0 || !self.carry.is_empty() {
            return None;
        }
        let Some(Leaf::Number(of)) = self.leaf else {
            return None;
        };
        let Shape::Prim(prim) = catalogue.shape(of) else {
            return None;
        };
        match whole_number(catalogue, self.order, self.at, of, octets) {
            Some((count, number)) => Some(PartAhead {
                octets,
                of,
                frame: self.outer[depth - 1],
                prim,
                number,
                count,
            }),
            None => None,
        }
    }

    /// Takes the octets of that number, if another number comes after it, and writes its line. The
    /// front of the line is spelled.
    #[inline(always)]
    fn write_part<O: Out>(
        &mut self,
        catalogue: &SeenCatalogue<'_>,
        part: PartAhead<'_>,
        next: TypeId,
        front: &Line,
        line: &mut Line,
        out: &mut O,
    ) -> Result<(usize, Progress), OutFault>
        requires fits { Fits catalogue.now self.old }
        requires body { is_header_root self.old.head.root ≡ false }
        requires ahead { IsPartAhead catalogue.now self.old part }
        requires next { IsNextPrimitive catalogue.now part.frame next }
        requires front { line_text front.now ≡ front_text catalogue.now self.old }
        requires short { length (line_text front.now) ≤ 128 }
        ensures takes { TakesSome catalogue.now self.old self.new part.entry.octets.now
            (O.log out.old) (O.log out.new) result }
        ensures more { IfOk result (λ taken. taken.1 ≡ Progress.More) }
        ensures next { OnOk result (IsAtNextPart catalogue.now self.old self.new part.entry next) }
    {
        part_line(catalogue, part, front, line, out)?;
        self.at = phase_after(self.at, part.count);
        go_to_next(&mut self.outer);
        self.leaf = Some(Leaf::Number(next));
        Ok((part.count, Progress::More))
    }

    /// Takes the octets of that number, which may be the last part, and writes its line. The front
    /// of the line is spelled.
    #[inline(always)]
    fn write_last_part<O: Out>(
        &mut self,
        catalogue: &SeenCatalogue<'_>,
        part: PartAhead<'_>,
        front: &Line,
        line: &mut Line,
        out: &mut O,
    ) -> Result<(usize, Progress), OutFault>
        requires fits { Fits catalogue.now self.old }
        requires body { is_header_root self.old.head.root ≡ false }
        requires ahead { IsPartAhead catalogue.now self.old part }
        requires front { line_text front.now ≡ front_text catalogue.now self.old }
        requires short { length (line_text front.now) ≤ 128 }
        ensures { TakesSome catalogue.now self.old self.new part.entry.octets.now
            (O.log out.old) (O.log out.new) result }
    {
        part_line(catalogue, part, front, line, out)?;
        self.at = phase_after(self.at, part.count);
        let ahead = Lookahead {
            of: part.of,
            count: part.count,
            step: Step {
                transition: Transition::Ended,
                output: Output::Number(part.number),
            },
            rest: &[],
        };
        let progress = self.note_and_advance(catalogue, ahead);
        Ok((part.count, progress))
    }

    /// The type of the part after that number, if it is a primitive.
    #[inline(always)]
    fn next_primitive(&self, catalogue: &SeenCatalogue<'_>, part: PartAhead<'_>) -> Option<TypeId>
        requires fits { Fits catalogue.now self.now }
        requires ahead { IsPartAhead catalogue.now self.now part }
        ensures { IfSome result (λ next. IsNextPrimitive catalogue.now part.entry.frame next) }
    {
        let frame = part.frame;
        if frame.index >= frame.count.saturating_sub(1) {
            return None;
        }
        let next = catalogue.part(frame.of, frame.index + 1);
        match catalogue.shape(next) {
            Shape::Prim(_) => Some(next),
            _ => None,
        }
    }

    /// Puts on an empty line what the lines of the innermost part's parts begin with, up to their
    /// own segments. Answers whether it did so; it doesn't if that has too many octets.
    fn put_front_of_parts(&self, catalogue: &SeenCatalogue<'_>, line: &mut Line) -> bool
        requires known { AreKnown catalogue.now self.now.outer.items }
        requires some { 0 < length self.now.outer.items }
        requires empty { line_text line.old ≡ [] }
        requires room { line_room line.old ≡ 256 }
        ensures text { IsTrue result → line_text line.new ≡ front_text catalogue.now self.now }
        ensures short { IsTrue result → length (line_text line.new) ≤ 128 }
    {
        let depth = self.outer.len() - 1;
        put_front(catalogue, &self.head, &self.outer[..depth], line)
    }
}

/// The line of a number that is a part. The front of the line is spelled. The rest is spelled in
/// `line`, whatever that has.
#[inline(always)]
fn part_line<O: Out>(
    catalogue: &SeenCatalogue<'_>,
    part: PartAhead<'_>,
    front: &Line,
    line: &mut Line,
    out: &mut O,
) -> Result<(), OutFault>
    requires known { IsKnown catalogue.now part.frame }
    requires short { length (line_text front.now) ≤ 128 }
    ensures { (message : ℕ) (place : List ℕ) →
        line_text front.now ≡ headed message place [] →
        Writes result (O.log out.old) (O.log out.new) (kind_line message
        (place ++ frame_text catalogue.now part.entry.frame)
        (spaced (kind_word part.entry.prim))
        (number_text (size_of part.entry.prim) part.entry.number)) }
{
    line.clear();
    put_number_end(line, part.prim, part.number);
    spell_segment(catalogue, part.frame, line);
    line_behind(out, front, line)
}

/// Puts on an empty line what the lines of the parts within these begin with, up to their own
/// segments. Answers whether it did so: it does if the segments have at most 96 octets, and all of
/// it has at most 128 then.
#[inline(always)]
pub(crate) fn put_front(
    catalogue: &SeenCatalogue<'_>,
    head: &Head,
    outer: &[Frame],
    line: &mut Line,
) -> bool
    requires known { AreKnown catalogue.now outer.now }
    requires empty { line_text line.old ≡ [] }
    requires room { line_room line.old ≡ 256 }
    ensures text { IsTrue result → line_text line.new
        ≡ headed head.now.message
        (root_word head.now.root ++ frames_text catalogue.now outer.now) [] }
    ensures short { IsTrue result → length (line_text line.new) ≤ 128 }
{
    if !spell_segments(catalogue, outer, line) || line.room() < 256 - FRONT + HEAD {
        return false;
    }
    head.put(line);
    true
}
