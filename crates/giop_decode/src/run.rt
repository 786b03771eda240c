//! Takes a run of octets, up to one that ends an operation or the value, or breaks a rule.

ghost use Rattle.std.specs.Prelude.{◌≡◌, ℕ, ◌+◌, ◌-◌, ◌%◌, ◌^◌, ◌<◌, ◌≤◌, List, length, take, IfOk, Some};
ghost use Rattle.giop_decode.specs.declared.decoder.Decoder.{Decoder as Before};
ghost use Rattle.giop_decode.specs.DecoderState.{Fits, GoesOn, IsDone, KeepsVersion, Reads, TakesRun};
ghost use Rattle.giop_decode.specs.ReadResult.{Coding};
ghost use Rattle.giop_decode.specs.Runs.{IsContent, HasHeldTogether, LeavesPieceIncomplete, TakesSome, WritesRun, TakenTogether, TakesRun as TakesRunSeen};
ghost use Rattle.giop_decode.specs.SeenState.{Fits as FitsSeen, Reads as ReadsSeen};
ghost use Rattle.giop_decode.specs.Transitions.{HaveOctetsLeft, innermost_coding, frames_after_octets};
ghost use Rattle.giop_print.specs.declared.path.Root.{Root as PathRoot};
ghost use Rattle.giop_sig.specs.Types.{Ty};

use crate::decoder::Decoder;
use crate::encapsulation::order_step;
use crate::frame::{Within, coding, count_and_tell, octets_to_end};
use crate::leading_numbers::{
    count_step, hold_number, leading_width, length_step, size_step, value_step,
};
use crate::leaf::{Finished, Leaf, Output, Step, Transition, ended_step, refused_step};
use crate::lookahead::{
    Lookahead, held_ahead, lookahead_of, octets_after_piece, whole_long, whole_number, whole_octets,
};
use crate::progress::{Progress, ValueFault};
use giop_cdr::Order;
use giop_print::{Out, OutFault};
use giop_sig::{Catalogue, SeenCatalogue, Shape, TypeId};

impl Decoder {
    /// Takes octets of the value, and writes their lines: all of them, or those up to one that ends
    /// an operation or the value, or breaks a rule. Answers how many it took, and the answer to the
    /// last of them. No octets leave the value as it is. A decoder that is done or at a fault takes
    /// no more.
    #[inline(never)]
    pub fn take_run<O: Out>(
        &mut self,
        catalogue: &Catalogue,
        octets: &[u8],
        out: &mut O,
    ) -> Result<(usize, Progress), OutFault>
        requires { Fits catalogue.now self.old }
        ensures writes { (T : Ty) (coding : Coding) (at message : ℕ) (root : PathRoot)
            (s : List ℕ) →
            Reads catalogue.now T coding at message root self.old s →
            WritesRun result T coding at message root s octets.now (O.log out.old) (O.log out.new) }
        ensures takes { IfOk result (λ taken. (T : Ty) (coding : Coding) (at message : ℕ)
            (root : PathRoot) (s : List ℕ) →
            Reads catalogue.now T coding at message root self.old s →
            TakesRun catalogue.now T coding at message root self.new s
            (take taken.0 octets.now) taken.1) }
        ensures within { IfOk result (λ taken. taken.0 ≤ length octets.now) }
        ensures some { IfOk result (λ taken. 0 < length octets.now → 0 < taken.0) }
        ensures all { IfOk result (λ taken. taken.1 ≡ Progress.More → taken.0 ≡ length octets.now) }
        ensures fits { IfOk result (λ taken. GoesOn taken.1 → Fits catalogue.now self.new) }
        ensures version { IfOk result (λ taken. GoesOn taken.1 → KeepsVersion self.old self.new) }
        ensures done { IfOk result (λ taken. taken.1 ≡ Progress.Done → IsDone self.new) }
    {
        self.read_octets(&catalogue.seen(self.forbids_wide), octets, out)
    }

    /// The same, with the catalogue as messages of the value's version see it.
    #[inline(always)]
    fn read_octets<O: Out>(
        &mut self,
        catalogue: &SeenCatalogue<'_>,
        octets: &[u8],
        out: &mut O,
    ) -> Result<(usize, Progress), OutFault>
        requires { FitsSeen catalogue.now self.old }
        ensures writes { (T : Ty) (coding : Coding) (at message : ℕ) (root : PathRoot)
            (s : List ℕ) →
            ReadsSeen catalogue.now T coding at message root self.old s →
            WritesRun result T coding at message root s octets.now (O.log out.old) (O.log out.new) }
        ensures takes { IfOk result (λ taken. (T : Ty) (coding : Coding) (at message : ℕ)
            (root : PathRoot) (s : List ℕ) →
            ReadsSeen catalogue.now T coding at message root self.old s →
            TakesRunSeen catalogue.now T coding at message root self.new s
            (take taken.0 octets.now) taken.1) }
        ensures within { IfOk result (λ taken. taken.0 ≤ length octets.now) }
        ensures some { IfOk result (λ taken. 0 < length octets.now → 0 < taken.0) }
        ensures all { IfOk result (λ taken. taken.1 ≡ Progress.More → taken.0 ≡ length octets.now) }
        ensures fits { IfOk result (λ taken. GoesOn taken.1 → FitsSeen catalogue.now self.new) }
        ensures done { IfOk result (λ taken. taken.1 ≡ Progress.Done → IsDone self.new) }
    {
        let mut taken: usize = 0;
        while taken < octets.len() {
            let (count, progress) = self.take_some(catalogue, &octets[taken..], out)?;
            taken += count;
            match progress {
                Progress::More => {}
                _ => return Ok((taken, progress)),
            }
        }
        Ok((taken, Progress::More))
    }

    /// Takes some of the octets, which are at least one: a number or the rest of a piece, if all
    /// its octets are there, or those that are only added to what is held, and one more. Outside of
    /// encapsulations, numbers that are parts of the same part are taken together, and so are full
    /// pieces of an octet sequence.
    #[inline(always)]
    fn take_some<O: Out>(
        &mut self,
        catalogue: &SeenCatalogue<'_>,
        octets: &[u8],
        out: &mut O,
    ) -> Result<(usize, Progress), OutFault>
        requires fits { FitsSeen catalogue.now self.old }
        requires some { 0 < length octets.now }
        ensures { TakesSome catalogue.now self.old self.new octets.now
            (O.log out.old) (O.log out.new) result }
    {
        if self.inside != Within::Nothing {
            return self.take_one_unit(catalogue, octets, out);
        }
        let Some(leaf) = self.leaf else {
            unreachable!();
        };
        let coded = (self.order, self.at);
        match leaf {
            Leaf::Number(of) => {
                if self.has_number_run(catalogue, of, octets) {
                    return self.take_number_run(catalogue, octets, out);
                }
                self.take_number(catalogue, coded, of, octets, out)
            }
            Leaf::Opening { of, count } => self.read_order(catalogue, of, count, octets, out),
            Leaf::Content { .. } => {
                if self.has_piece_run(catalogue, octets) {
                    return self.take_piece_run(catalogue, octets, out);
                }
                self.take_content(catalogue, leaf, octets, out)
            }
        }
    }

    /// Takes the octet with the byte order of an encapsulation.
    #[inline(always)]
    fn read_order<O: Out>(
        &mut self,
        catalogue: &SeenCatalogue<'_>,
        of: TypeId,
        count: u32,
        octets: &[u8],
        out: &mut O,
    ) -> Result<(usize, Progress), OutFault>
        requires fits { FitsSeen catalogue.now self.old }
        requires leaf { self.old.leaf ≡ Some (Leaf.Opening of count) }
        requires ahead { HaveOctetsLeft (frames_after_octets (length octets.now - 1)
            self.old.outer.items) }
        requires some { 0 < length octets.now }
        ensures { TakesSome catalogue.now self.old self.new octets.now
            (O.log out.old) (O.log out.new) result }
    {
        let step = order_step(catalogue, of, count, octets[0]);
        self.complete_unit(catalogue, octets, lookahead_of(of, 1, step, &[]), out)
    }

    /// Does what `take_some` does, but takes numbers and full pieces one at a time. It also takes
    /// octets within encapsulations, up to the end of one.
    #[inline(never)]
    pub(crate) fn take_one_unit<O: Out>(
        &mut self,
        catalogue: &SeenCatalogue<'_>,
        octets: &[u8],
        out: &mut O,
    ) -> Result<(usize, Progress), OutFault>
        requires fits { FitsSeen catalogue.now self.old }
        requires some { 0 < length octets.now }
        ensures { TakesSome catalogue.now self.old self.new octets.now
            (O.log out.old) (O.log out.new) result }
    {
        let coded = coding(self.inside, self.order, self.at, self.outer.as_slice());
        let near = octets_to_end(self.inside, self.outer.as_slice(), octets);
        self.take_unit_coded(catalogue, coded, near, out)
    }

    /// The same for octets with this byte order and alignment. No encapsulation ends before the
    /// last of them.
    #[inline(always)]
    fn take_unit_coded<O: Out>(
        &mut self,
        catalogue: &SeenCatalogue<'_>,
        coded: (Order, u8),
        octets: &[u8],
        out: &mut O,
    ) -> Result<(usize, Progress), OutFault>
        requires fits { FitsSeen catalogue.now self.old }
        requires coded { innermost_coding self.old.order self.old.at self.old.outer.items ≡ coded }
        requires ahead { HaveOctetsLeft (frames_after_octets (length octets.now - 1)
            self.old.outer.items) }
        requires some { 0 < length octets.now }
        ensures { TakesSome catalogue.now self.old self.new octets.now
            (O.log out.old) (O.log out.new) result }
    {
        let Some(leaf) = self.leaf else {
            unreachable!();
        };
        match leaf {
            Leaf::Number(of) => self.take_number(catalogue, coded, of, octets, out),
            Leaf::Opening { of, count } => self.read_order(catalogue, of, count, octets, out),
            Leaf::Content { .. } => self.take_content(catalogue, leaf, octets, out),
        }
    }

    /// Takes the number that comes next, if all its octets come at the front of these and none of
    /// it is held. Each shape has an arm of its own, so that it is known there what its number
    /// does.
    #[inline(always)]
    fn take_number<O: Out>(
        &mut self,
        catalogue: &SeenCatalogue<'_>,
        coded: (Order, u8),
        of: TypeId,
        octets: &[u8],
        out: &mut O,
    ) -> Result<(usize, Progress), OutFault>
        requires fits { FitsSeen catalogue.now self.old }
        requires leaf { self.old.leaf ≡ Some (Leaf.Number of) }
        requires coded { innermost_coding self.old.order self.old.at self.old.outer.items ≡ coded }
        requires small { coded.1 < 8 }
        requires ahead { HaveOctetsLeft (frames_after_octets (length octets.now - 1)
            self.old.outer.items) }
        requires some { 0 < length octets.now }
        ensures { TakesSome catalogue.now self.old self.new octets.now
            (O.log out.old) (O.log out.new) result }
    {
        let (order, at) = coded;
        if self.carry.is_empty() {
            match catalogue.shape(of) {
                Shape::Prim(_) => {
                    if let Some((count, number)) = whole_number(catalogue, order, at, of, octets) {
                        let step = ended_step(Output::Number(number));
                        let ahead = lookahead_of(of, count, step, &[]);
                        return self.complete_unit(catalogue, octets, ahead, out);
                    }
                }
                Shape::Text(bound) => {
                    if let Some((count, n)) = whole_long(order, at, octets) {
                        let step = length_step(catalogue, of, bound, n);
                        let ahead = lookahead_of(of, count, step, &[]);
                        return self.complete_unit(catalogue, octets, ahead, out);
                    }
                }
                Shape::Octets(bound) => {
                    if let Some((count, n)) = whole_long(order, at, octets) {
                        let step = size_step(catalogue, of, bound, n);
                        let ahead = lookahead_of(of, count, step, &[]);
                        return self.complete_unit(catalogue, octets, ahead, out);
                    }
                }
                Shape::Sequence(bound) => {
                    if let Some((count, n)) = whole_long(order, at, octets) {
                        let step = count_step(catalogue, of, bound, n);
                        let ahead = lookahead_of(of, count, step, &[]);
                        return self.complete_unit(catalogue, octets, ahead, out);
                    }
                }
                _ => {
                    if let Some((count, whole)) = whole_octets(
                        leading_width(catalogue, of),
                        at,
                        octets,
                    ) {
                        let step = value_step(catalogue, order, of, whole);
                        let ahead = lookahead_of(of, count, step, &[]);
                        return self.complete_unit(catalogue, octets, ahead, out);
                    }
                }
            }
        }
        self.gather_number(catalogue, coded, of, octets, out)
    }

    /// Takes the rest of a piece, if all its octets are there, with the zero after the last piece
    /// of a string.
    #[inline(always)]
    fn take_content<O: Out>(
        &mut self,
        catalogue: &SeenCatalogue<'_>,
        leaf: Leaf,
        octets: &[u8],
        out: &mut O,
    ) -> Result<(usize, Progress), OutFault>
        requires fits { FitsSeen catalogue.now self.old }
        requires leaf { self.old.leaf ≡ Some leaf }
        requires content { IsContent leaf }
        requires ahead { HaveOctetsLeft (frames_after_octets (length octets.now - 1)
            self.old.outer.items) }
        requires some { 0 < length octets.now }
        ensures { TakesSome catalogue.now self.old self.new octets.now
            (O.log out.old) (O.log out.new) result }
    {
        let Leaf::Content { of, total, offset } = leaf else {
            unreachable!();
        };
        let left = total.saturating_sub(offset) as usize;
        let size = left.min(32).saturating_sub(self.piece.len());
        let behind = octets_after_piece(catalogue, of, left);
        if octets.len() < size + behind {
            return self.gather_piece(catalogue, leaf, octets, out);
        }
        let rest = &octets[..size];
        let count = size + behind;
        if left > 32 {
            let next = Leaf::Content {
                of,
                total,
                offset: offset + 32,
            };
            let step = Step {
                transition: Transition::More(next),
                output: Output::Piece { offset, more: true },
            };
            let ahead = lookahead_of(of, count, step, rest);
            return self.complete_unit(catalogue, octets, ahead, out);
        }
        if behind > 0 && octets[size] != 0 {
            let ahead = lookahead_of(of, count, refused_step(ValueFault::StringEnd), rest);
            return self.complete_unit(catalogue, octets, ahead, out);
        }
        let step = ended_step(Output::Piece {
            offset,
            more: false,
        });
        self.complete_unit(catalogue, octets, lookahead_of(of, count, step, rest), out)
    }

    /// Holds octets of the number that comes next. When the number is whole, it is taken from what
    /// is held.
    #[inline(always)]
    fn gather_number<O: Out>(
        &mut self,
        catalogue: &SeenCatalogue<'_>,
        coded: (Order, u8),
        of: TypeId,
        octets: &[u8],
        out: &mut O,
    ) -> Result<(usize, Progress), OutFault>
        requires fits { FitsSeen catalogue.now self.old }
        requires leaf { self.old.leaf ≡ Some (Leaf.Number of) }
        requires coded { innermost_coding self.old.order self.old.at self.old.outer.items ≡ coded }
        requires ahead { HaveOctetsLeft (frames_after_octets (length octets.now - 1)
            self.old.outer.items) }
        requires some { 0 < length octets.now }
        ensures { TakesSome catalogue.now self.old self.new octets.now
            (O.log out.old) (O.log out.new) result }
    {
        let (count, progress) = self.gather_number_apart(catalogue, coded, of, octets, out)?;
        Ok((count, progress))
    }

    /// The same, not inlined. Its answer is set to zeros before the call, so it is called where few
    /// numbers are.
    #[inline(never)]
    fn gather_number_apart<O: Out>(
        &mut self,
        catalogue: &SeenCatalogue<'_>,
        coded: (Order, u8),
        of: TypeId,
        octets: &[u8],
        out: &mut O,
    ) -> Result<(usize, Progress), OutFault>
        requires fits { FitsSeen catalogue.now self.old }
        requires leaf { self.old.leaf ≡ Some (Leaf.Number of) }
        requires coded { innermost_coding self.old.order self.old.at self.old.outer.items ≡ coded }
        requires ahead { HaveOctetsLeft (frames_after_octets (length octets.now - 1)
            self.old.outer.items) }
        requires some { 0 < length octets.now }
        ensures { TakesSome catalogue.now self.old self.new octets.now
            (O.log out.old) (O.log out.new) result }
    {
        let (order, at) = coded;
        let width = leading_width(catalogue, of);
        let count = hold_number(&mut self.carry, at, width, octets);
        if self.carry.len() < usize::from(width) {
            return self.complete_held_unit(
                catalogue,
                octets,
                held_ahead(of, count, Leaf::Number(of)),
                out,
            );
        }
        let step = value_step(catalogue, order, of, self.carry.as_slice());
        self.carry.clear();
        let ahead = Lookahead {
            of,
            count,
            step,
            rest: &[],
        };
        self.complete_held_unit(catalogue, octets, ahead, out)
    }

    /// Holds octets of a piece of a content that isn't whole with them.
    #[inline(always)]
    fn gather_piece<O: Out>(
        &mut self,
        catalogue: &SeenCatalogue<'_>,
        leaf: Leaf,
        octets: &[u8],
        out: &mut O,
    ) -> Result<(usize, Progress), OutFault>
        requires fits { FitsSeen catalogue.now self.old }
        requires leaf { self.old.leaf ≡ Some leaf }
        requires ahead { HaveOctetsLeft (frames_after_octets (length octets.now - 1)
            self.old.outer.items) }
        requires some { 0 < length octets.now }
        requires parted { LeavesPieceIncomplete catalogue.now self.old.outer.items leaf
            self.old.piece.items (length octets.now) }
        ensures { TakesSome catalogue.now self.old self.new octets.now
            (O.log out.old) (O.log out.new) result }
    {
        let (count, progress) = self.gather_piece_apart(catalogue, leaf, octets, out)?;
        Ok((count, progress))
    }

    /// The same, not inlined.
    #[inline(never)]
    fn gather_piece_apart<O: Out>(
        &mut self,
        catalogue: &SeenCatalogue<'_>,
        leaf: Leaf,
        octets: &[u8],
        out: &mut O,
    ) -> Result<(usize, Progress), OutFault>
        requires fits { FitsSeen catalogue.now self.old }
        requires leaf { self.old.leaf ≡ Some leaf }
        requires ahead { HaveOctetsLeft (frames_after_octets (length octets.now - 1)
            self.old.outer.items) }
        requires some { 0 < length octets.now }
        requires parted { LeavesPieceIncomplete catalogue.now self.old.outer.items leaf
            self.old.piece.items (length octets.now) }
        ensures { TakesSome catalogue.now self.old self.new octets.now
            (O.log out.old) (O.log out.new) result }
    {
        match self.piece.try_extend_from_slice(octets) {
            Ok(()) => self.complete_held_unit(
                catalogue,
                octets,
                held_ahead(leaf.of(), octets.len(), leaf),
                out,
            ),
            Err(_) => unreachable!(),
        }
    }

    /// Takes octets ahead that belong together, and writes their line.
    #[inline(always)]
    fn complete_unit<O: Out>(
        &mut self,
        catalogue: &SeenCatalogue<'_>,
        octets: &[u8],
        ahead: Lookahead<'_>,
        out: &mut O,
    ) -> Result<(usize, Progress), OutFault>
        requires fits { FitsSeen catalogue.now self.old }
        requires ahead { TakenTogether catalogue.now self.old octets.now ahead.of ahead.count
            ahead.step ahead.rest.now self.old.carry self.old.piece.items }
        ensures { TakesSome catalogue.now self.old self.new octets.now
            (O.log out.old) (O.log out.new) result }
    {
        self.complete_held_unit(catalogue, octets, ahead, out)
    }

    /// The same, after those that are to be held were held.
    #[inline(always)]
    fn complete_held_unit<O: Out>(
        &mut self,
        catalogue: &SeenCatalogue<'_>,
        octets: &[u8],
        ahead: Lookahead<'_>,
        out: &mut O,
    ) -> Result<(usize, Progress), OutFault>
        requires { (d : Before) × HasHeldTogether catalogue.now d self.old octets.now ahead.of
            ahead.count ahead.step ahead.rest.now }
        ensures { (d : Before) → HasHeldTogether catalogue.now d self.old octets.now ahead.entry.of
            ahead.entry.count ahead.entry.step ahead.entry.rest.now →
            TakesSome catalogue.now d self.new octets.now (O.log out.old) (O.log out.new) result }
    {
        self.at = phase_after(self.at, ahead.count);
        count_and_tell(
            catalogue,
            self.inside,
            &mut self.outer,
            ahead.count,
            Finished {
                of: ahead.of,
                output: ahead.step.output,
                held: &self.piece,
                rest: ahead.rest,
            },
        );
        let progress = self.write_and_advance(catalogue, ahead, out)?;
        Ok((ahead.count, progress))
    }
}

/// The phase after `count` more octets, modulo 8.
#[inline]
pub(crate) fn phase_after(at: u8, count: usize) -> u8
    requires { count < 2 ^ 63 }
    ensures { result ≡ (at + count) % 8 }
{
    ((usize::from(at) + count) % 8) as u8
}
