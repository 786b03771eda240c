//! A decoder of one value: the state after a list of octets was read.

ghost use Rattle.std.specs.Prelude.{◌≡◌, ℕ, ◌+◌, ◌-◌, ◌%◌, ◌<◌, ◌≤◌, List, [], length, ◌↔◌, IsTrue, IfOk, IfSome, OnOk, None, Some};
ghost use Rattle.std.specs.Option.{option_map};
ghost use Rattle.giop_decode.specs.declared.decoder.Decoder.{Decoder as Before};
ghost use Rattle.giop_decode.specs.declared.leaf.Leaf.{Leaf as Innermost};
ghost use Rattle.giop_decode.specs.ReadResult.{Coding, IsEvenFrom, PathSegment, ValueAt, Read, lines_of, fragment_aligned_from, with_front};
ghost use Rattle.giop_decode.specs.Spelling.{lines_text};
ghost use Rattle.giop_print.specs.Output.{Writes};
ghost use Rattle.giop_print.specs.declared.path.Root.{Root as PathRoot};
ghost use Rattle.giop_decode.specs.Reading.{none_left, done_if_untyped};
ghost use Rattle.giop_decode.specs.ReadingSteps.{resume_outer};
ghost use Rattle.giop_decode.specs.Fits.{OpenPartsFit};
ghost use Rattle.giop_decode.specs.Transitions.{open_parts, AreKnown, IsRecursionResolved, HoldsNothingAfter, Link, resolve_recursion, TransitionFits, HasOutput, after_transition, held_after_output, leaf_type, HoldsOnlyItsOwn, StandAt, within_of, tree_in};
ghost use Rattle.giop_decode.specs.Noted.{noted_of, ends_in_string, is_header_root};
ghost use Rattle.giop_decode.specs.NameBuffer.{string_offset};
ghost use Rattle.giop_decode.specs.NotingSteps.{transition_in_string, transition_offset};
ghost use Rattle.giop_decode.specs.DecoderState.{Fits, IsDone, IsOfVersion, KeepsVersion, Reads, Takes, KeepsNoted, GoesOn, added_lines, interface_of_key};
ghost use Rattle.giop_decode.specs.SeenState.{Fits as FitsSeen, Reads as ReadsSeen};
ghost use Rattle.giop_decode.specs.DecoderSteps.{transition_result, decoder_step, AgreesWithReading, IsNotRefused};
ghost use Rattle.giop_decode.specs.Passes.{AreStepLines, HasCountedOctet, NotesAndAdvances};
ghost use Rattle.giop_sig.specs.Types.{Ty, elements_fit};
ghost use Rattle.giop_sig.specs.Fits.{IsFit, IsEmptyStruct};
ghost use Rattle.giop_sig.specs.Table.{Table, in_version};
ghost use Rattle.giop_sig.specs.Trees.{tree};

use crate::contents::drop_written_piece;
use crate::frame::{
    Frame, Within, any_encapsulation_ended, descend_to_number, go_on_after_part, go_on_at_untyped,
    is_empty_struct, within_after_encapsulation, within_of,
};
use crate::leaf::{Finished, Leaf, Transition};
use crate::line::write_line;
use crate::lookahead::Lookahead;
use crate::notes::{Buffer, Last, Notes};
use crate::progress::{Progress, progress_of};
use arrayvec::ArrayVec;
use giop_cdr::{Carry, Order};
use giop_print::{Head, Out, OutFault, Root};
use giop_sig::{Catalogue, InterfaceId, SeenCatalogue, TypeId};

/// The parts of a value that have begun and not ended, and what was last noted of the value.
#[derive(Debug, Drop)]
pub struct Decoder {
    pub(crate) order: Order,
    // What the lines of the value begin with.
    pub(crate) head: Head,
    // The phase of the next octet, modulo 8.
    pub(crate) at: u8,
    // Whether anys and recursive sequences can't hold wide text.
    pub(crate) forbids_wide: bool,
    pub(crate) outer: ArrayVec<Frame, 24>,
    // What these parts ask of each octet.
    pub(crate) inside: Within,
    // None after the value has ended.
    pub(crate) leaf: Option<Leaf>,
    pub(crate) carry: Carry,
    pub(crate) piece: ArrayVec<u8, 32>,
    pub(crate) notes: Notes,
}

impl Decoder {
    /// Begins to read a value of a type, in a message of this minor version. For alignment its first
    /// octet is counted as the octet at this offset.
    pub fn start(
        catalogue: &Catalogue,
        of: TypeId,
        order: Order,
        offset: u64,
        message: u64,
        root: Root,
        minor: u8,
    ) -> Decoder
        requires { of.0 < length catalogue.now.types }
        ensures reads { (coding : Coding) (at : ℕ) → coding.order ≡ order →
            IsEvenFrom coding at → coding.phase at % 8 ≡ offset % 8 →
            Reads catalogue.now (tree (in_version minor catalogue.now) of.0)
            coding at message root result [] }
        ensures done { IsDone result ↔ IsEmptyStruct (tree (in_version minor catalogue.now) of.0) }
        ensures fits { (IsEmptyStruct (tree (in_version minor catalogue.now) of.0) → ⊥) →
            Fits catalogue.now result }
        ensures version { IsOfVersion minor catalogue.now result }
    {
        let forbids_wide = catalogue.is_narrow(minor);
        let mut decoder = Decoder {
            order,
            head: Head::new(message, root),
            at: 0,
            forbids_wide,
            outer: ArrayVec::new(),
            inside: Within::Nothing,
            leaf: None,
            carry: Carry::new(),
            piece: ArrayVec::new(),
            notes: Notes::new(),
        };
        decoder.begin_value(&catalogue.seen(forbids_wide), of, offset);
        decoder
    }

    /// Begins to read another value instead of the one that was read, as `start` does.
    #[inline]
    pub fn restart(
        &mut self,
        catalogue: &Catalogue,
        of: TypeId,
        order: Order,
        offset: u64,
        message: u64,
        root: Root,
        minor: u8,
    )
        requires { of.0 < length catalogue.now.types }
        ensures reads { (coding : Coding) (at : ℕ) → coding.order ≡ order →
            IsEvenFrom coding at → coding.phase at % 8 ≡ offset % 8 →
            Reads catalogue.now (tree (in_version minor catalogue.now) of.0)
            coding at message root self.new [] }
        ensures done { IsDone self.new
            ↔ IsEmptyStruct (tree (in_version minor catalogue.now) of.0) }
        ensures fits { (IsEmptyStruct (tree (in_version minor catalogue.now) of.0) → ⊥) →
            Fits catalogue.now self.new }
        ensures version { IsOfVersion minor catalogue.now self.new }
    {
        self.order = order;
        self.head = Head::new(message, root);
        self.forbids_wide = catalogue.is_narrow(minor);
        self.begin_value(&catalogue.seen(self.forbids_wide), of, offset);
    }

    /// Begins to read a value of a type. The byte order, the head and the version are set.
    fn begin_value(&mut self, catalogue: &SeenCatalogue<'_>, of: TypeId, offset: u64)
        requires known { of.0 < length catalogue.now.types }
        requires version { self.old.forbids_wide ≡ catalogue.now.forbids_wide }
        ensures reads { (coding : Coding) (at : ℕ) → coding.order ≡ self.old.order →
            IsEvenFrom coding at → coding.phase at % 8 ≡ offset % 8 →
            ReadsSeen catalogue.now (tree catalogue.now of.0) coding at
            self.old.head.message self.old.head.root self.new [] }
        ensures done { IsDone self.new ↔ IsEmptyStruct (tree catalogue.now of.0) }
        ensures fits { (IsEmptyStruct (tree catalogue.now of.0) → ⊥) →
            FitsSeen catalogue.now self.new }
        ensures version { self.new.forbids_wide ≡ self.old.forbids_wide }
    {
        self.at = (offset % 8) as u8;
        self.outer.clear();
        self.inside = Within::Nothing;
        self.leaf = None;
        self.carry = Carry::new();
        self.piece.clear();
        self.notes.clear();
        if is_empty_struct(catalogue, of) {
            return;
        }
        let first = descend_to_number(catalogue, &mut self.outer, &mut self.inside, of);
        self.leaf = Some(Leaf::Number(first));
    }

    /// Takes an octet of the value as a run of one, and writes the line that it completes, if it
    /// completes one. A decoder that is done or at a fault takes no more.
    pub fn take<O: Out>(
        &mut self,
        catalogue: &Catalogue,
        octet: u8,
        out: &mut O,
    ) -> Result<Progress, OutFault>
        requires { Fits catalogue.now self.old }
        ensures writes { (T : Ty) (coding : Coding) (at message : ℕ) (root : PathRoot)
            (s : List ℕ) →
            Reads catalogue.now T coding at message root self.old s →
            Writes result (O.log out.old) (O.log out.new)
            (lines_text message root (added_lines coding T at s octet)) }
        ensures takes { IfOk result (λ p. (T : Ty) (coding : Coding) (at message : ℕ)
            (root : PathRoot) (s : List ℕ) →
            Reads catalogue.now T coding at message root self.old s →
            Takes catalogue.now T coding at message root self.new s octet p) }
        ensures fits { IfOk result (λ p. GoesOn p → Fits catalogue.now self.new) }
        ensures version { IfOk result (λ p. GoesOn p → KeepsVersion self.old self.new) }
        ensures done { IfOk result (λ p. p ≡ Progress.Done → IsDone self.new) }
    {
        let (_, progress) = self.take_run(catalogue, &[octet], out)?;
        Ok(progress)
    }

    /// A Fragment of GIOP 1.1 begins at the next octet: outside encapsulations, alignment is counted from the Fragment's
    /// own first octet, so that its payload begins at 12.
    pub fn seam(&mut self)
        ensures reads { (C : Table) (T : Ty) (coding : Coding) (at message : ℕ) (root : PathRoot)
            (s : List ℕ) →
            Reads C T coding at message root self.old s →
            Reads C T (fragment_aligned_from coding (at + length s)) at message root self.new s }
        ensures notes { (C : Table) (root : PathRoot) (r : Read) → KeepsNoted C root self.old r →
            KeepsNoted C root self.new r }
        ensures fits { (C : Table) → Fits C self.old → Fits C self.new }
        ensures version { KeepsVersion self.old self.new }
        ensures done { IsDone self.new ↔ IsDone self.old }
    {
        self.at = 4;
    }

    /// Whether the value has ended.
    pub fn is_done(&self) -> bool
        ensures { IsTrue result ↔ IsDone self.now }
    {
        self.leaf.is_none()
    }

    /// The request id of a header, after it was read. No other value has one.
    pub fn request_id(&self) -> Option<u32>
        ensures { (C : Table) (root : PathRoot) (r : Read) → KeepsNoted C root self.now r →
            result ≡ (noted_of (is_header_root root) r).request_id }
    {
        self.notes.request_id
    }

    /// The number of the last enum. In the header of a reply this is the status.
    pub fn status(&self) -> Option<u32>
        ensures { (C : Table) (root : PathRoot) (r : Read) → KeepsNoted C root self.now r →
            result ≡ (noted_of (is_header_root root) r).status }
    {
        match self.notes.last {
            Last::Status(number) => Some(number),
            Last::Nothing => None,
            Last::Interface(_) => None,
        }
    }

    /// The interface of a header's object key, after it was read. It is that of the KEYs in the
    /// catalogue's signature file.
    pub fn interface(&self, catalogue: &Catalogue) -> Option<InterfaceId>
        ensures is { (root : PathRoot) (r : Read) → KeepsNoted catalogue.now root self.now r →
            result ≡ interface_of_key catalogue.now (noted_of (is_header_root root) r).key }
        ensures known { IfSome result (λ i. i.0 < length catalogue.now.interfaces.names) }
    {
        catalogue.interface_laws();
        let Last::Interface(interface) = self.notes.last else {
            return None;
        };
        if catalogue.has_interface(interface) {
            Some(interface)
        } else {
            None
        }
    }

    /// Whether a header expects a reply, after this was read. GIOP 1.0 and 1.1 say it with a
    /// boolean, 1.2 with bit 0 of an octet.
    pub fn expects_reply(&self) -> Option<bool>
        ensures { (C : Table) (root : PathRoot) (r : Read) → KeepsNoted C root self.now r →
            result ≡ (noted_of (is_header_root root) r).expects_reply }
    {
        self.notes.expects_reply
    }

    /// The last string, after it has ended, if it is a name: of at most 128 octets.
    pub fn name(&self) -> Option<&[u8]>
        ensures { (C : Table) (root : PathRoot) (r : Read) → KeepsNoted C root self.now r →
            option_map (λ octets. octets.now) result ≡ (noted_of (is_header_root root) r).name }
    {
        match self.notes.buffer {
            Buffer::Whole => Some(&self.notes.name),
            Buffer::Begun => None,
            Buffer::TooLong => None,
            Buffer::Key => None,
            Buffer::LongKey => None,
        }
    }

    /// Makes a transition of the innermost part, which has this type, and goes on in the parts
    /// around it. They have heard what the octet finishes.
    #[inline(always)]
    fn advance_frames(&mut self, catalogue: &SeenCatalogue<'_>, of: TypeId, transition: Transition)
        requires known { of.0 < length catalogue.now.types }
        requires known_outer { AreKnown catalogue.now self.old.outer.items }
        requires encloses { self.old.inside ≡ within_of self.old.outer.items }
        requires open { (at : ℕ) × OpenPartsFit 24
            (open_parts catalogue.now at self.old.outer.items) }
        requires fit { IsFit (24 - length self.old.outer.items)
            (tree_in catalogue.now self.old.outer.items of.0) }
        requires transition_fits { TransitionFits
            (tree_in catalogue.now self.old.outer.items of.0) of.0 transition
            self.old.carry self.old.piece.items }
        requires lets_go { HoldsNothingAfter transition self.old.carry self.old.piece.items }
        requires settled { IsRecursionResolved transition }
        ensures known_outer { AreKnown catalogue.now self.new.outer.items }
        ensures encloses { self.new.inside ≡ within_of self.new.outer.items }
        ensures known { (leaf : Innermost) → IsNotRefused transition → self.new.leaf ≡ Some leaf →
            leaf_type leaf < length catalogue.now.types }
        ensures clean { (leaf : Innermost) → IsNotRefused transition → self.new.leaf ≡ Some leaf →
            HoldsOnlyItsOwn leaf self.new.carry self.new.piece.items }
        ensures link { (root : ℕ) (leaf : Innermost) → IsNotRefused transition →
            Link catalogue.now root self.old.outer.items of.0 → self.new.leaf ≡ Some leaf →
            Link catalogue.now root self.new.outer.items (leaf_type leaf) }
        ensures offset { (leaf : Innermost) → IsNotRefused transition → self.new.leaf ≡ Some leaf →
            string_offset (tree_in catalogue.now self.new.outer.items (leaf_type leaf)) leaf
            ≡ transition_offset (tree_in catalogue.now self.old.outer.items of.0) transition }
        ensures order { self.new.order ≡ self.old.order }
        ensures head { self.new.head ≡ self.old.head }
        ensures notes { self.new.notes ≡ self.old.notes }
        ensures at { self.new.at ≡ self.old.at }
        ensures forbids_wide { self.new.forbids_wide ≡ self.old.forbids_wide }
        ensures inside { (at : ℕ) (lines : List ValueAt) →
            ends_in_string
            (transition_result catalogue.now (tree_in catalogue.now self.old.outer.items of.0)
            self.new transition lines at)
            ≡ transition_in_string (tree_in catalogue.now self.old.outer.items of.0) transition }
        ensures stand { (at : ℕ) → 0 < at → StandAt at self.old.outer.items →
            StandAt at self.new.outer.items }
        ensures advances { (coding : Coding) (path : List PathSegment) (at : ℕ) →
            done_if_untyped none_left (resume_outer coding path
            (open_parts catalogue.now at self.old.outer.items)
            (after_transition (tree_in catalogue.now self.old.outer.items of.0) transition
            self.old.carry self.old.piece.items [] at))
            ≡ transition_result catalogue.now (tree_in catalogue.now self.old.outer.items of.0)
            self.new transition [] at }
    {
        match transition {
            Transition::More(leaf) => self.leaf = Some(leaf),
            Transition::Refused(_) => {}
            Transition::Opened(count) => {
                self.outer.push(Frame {
                    of,
                    index: 0,
                    count,
                    inside: None,
                    told: None,
                });
                let part = catalogue.part(of, 0);
                self.leaf = Some(Leaf::Number(descend_to_number(
                    catalogue,
                    &mut self.outer,
                    &mut self.inside,
                    part,
                )));
            }
            Transition::Selected(index) => {
                self.outer.push(Frame {
                    of,
                    index,
                    count: 0,
                    inside: None,
                    told: None,
                });
                let room = 24 - self.outer.len() as u8;
                let part = catalogue.part_in(of, index, room);
                self.leaf = Some(Leaf::Number(descend_to_number(
                    catalogue,
                    &mut self.outer,
                    &mut self.inside,
                    part,
                )));
            }
            Transition::Entered(order, count) => {
                self.outer.push(Frame {
                    of,
                    index: 1,
                    count,
                    inside: Some(order),
                    told: None,
                });
                self.inside = within_after_encapsulation(self.inside);
                let part = catalogue.part(of, 0);
                self.leaf = Some(Leaf::Number(descend_to_number(
                    catalogue,
                    &mut self.outer,
                    &mut self.inside,
                    part,
                )));
            }
            Transition::Ended => {
                self.leaf = go_on_after_part(catalogue, &mut self.outer, &mut self.inside);
                self.inside = within_of(self.inside, self.outer.as_slice());
            }
            Transition::Recursed(_) => unreachable!(),
            Transition::Stopped => {
                self.leaf = go_on_at_untyped(catalogue, &mut self.outer, &mut self.inside);
                self.inside = within_of(self.inside, self.outer.as_slice());
            }
        }
    }

    /// What a transition of the innermost part, which has this type, does in the room that is left.
    /// The elements of a recursive sequence begin, or octets of no known type come.
    #[inline(always)]
    fn resolve_recursion(
        &self,
        catalogue: &SeenCatalogue<'_>,
        of: TypeId,
        transition: Transition,
    ) -> Transition
        requires known { of.0 < length catalogue.now.types }
        requires room { length self.now.outer.items < 24 }
        ensures { result ≡ resolve_recursion transition
            (elements_fit (tree_in catalogue.now self.now.outer.items of.0)) }
    {
        match transition {
            Transition::Recursed(count) => {
                let room = 23 - self.outer.len() as u8;
                if catalogue.elements_fit(of, room) {
                    Transition::Opened(count)
                } else {
                    Transition::Stopped
                }
            }
            _ => transition,
        }
    }

    /// Takes the last of the octets that the innermost part takes together, after all were counted.
    /// Writes and notes the output, and makes the transition. A piece that is written has the
    /// octets that are held, and then the rest.
    #[inline(always)]
    pub(crate) fn write_and_advance<O: Out>(
        &mut self,
        catalogue: &SeenCatalogue<'_>,
        ahead: Lookahead<'_>,
        out: &mut O,
    ) -> Result<Progress, OutFault>
        requires counted { (d : Before) × HasCountedOctet catalogue.now d self.old ahead.of.0
            ahead.step ahead.rest.now }
        requires transition_fits { TransitionFits
            (tree_in catalogue.now self.old.outer.items ahead.of.0) ahead.of.0
            ahead.step.transition self.old.carry
            (held_after_output ahead.step.output self.old.piece.items) }
        requires lets_go { HoldsNothingAfter ahead.step.transition self.old.carry
            (held_after_output ahead.step.output self.old.piece.items) }
        requires has_output { HasOutput
            (tree_in catalogue.now self.old.outer.items ahead.of.0) ahead.step.output }
        requires short { 0 < length ahead.rest.now →
            length self.old.piece.items + length ahead.rest.now ≤ 32 }
        ensures passes { IfOk result (λ p. (d : Before) →
            HasCountedOctet catalogue.now d self.old ahead.entry.of.0
            ahead.entry.step ahead.entry.rest.now → NotesAndAdvances catalogue.now d self.new
            ahead.entry.of.0 ahead.entry.step ahead.entry.rest.now p) }
        ensures writes { (d : Before) → HasCountedOctet catalogue.now d self.old ahead.entry.of.0
            ahead.entry.step ahead.entry.rest.now →
            (here at : ℕ) (lines : List ValueAt) →
            AreStepLines catalogue.now d ahead.entry.of.0 ahead.entry.step ahead.entry.rest.now
            here at lines →
            Writes result (O.log out.old) (O.log out.new)
            (lines_text self.old.head.message self.old.head.root lines) }
    {
        write_line(
            catalogue,
            &self.head,
            self.outer.as_slice(),
            Finished {
                of: ahead.of,
                output: ahead.step.output,
                held: &self.piece,
                rest: ahead.rest,
            },
            out,
        )?;
        Ok(self.note_and_advance(catalogue, ahead))
    }

    /// Does what `write_and_advance` does, but writes no line.
    #[inline(always)]
    pub(crate) fn note_and_advance(
        &mut self,
        catalogue: &SeenCatalogue<'_>,
        ahead: Lookahead<'_>,
    ) -> Progress
        requires counted { (d : Before) × HasCountedOctet catalogue.now d self.old ahead.of.0
            ahead.step ahead.rest.now }
        requires transition_fits { TransitionFits
            (tree_in catalogue.now self.old.outer.items ahead.of.0) ahead.of.0
            ahead.step.transition self.old.carry
            (held_after_output ahead.step.output self.old.piece.items) }
        requires lets_go { HoldsNothingAfter ahead.step.transition self.old.carry
            (held_after_output ahead.step.output self.old.piece.items) }
        requires has_output { HasOutput
            (tree_in catalogue.now self.old.outer.items ahead.of.0) ahead.step.output }
        ensures { (d : Before) → HasCountedOctet catalogue.now d self.old ahead.entry.of.0
            ahead.entry.step ahead.entry.rest.now →
            NotesAndAdvances catalogue.now d self.new
            ahead.entry.of.0 ahead.entry.step ahead.entry.rest.now result }
    {
        let named = self.notes.note(
            catalogue,
            self.head.root(),
            self.outer.as_slice(),
            Finished {
                of: ahead.of,
                output: ahead.step.output,
                held: &self.piece,
                rest: ahead.rest,
            },
        );
        drop_written_piece(ahead.step.output, &mut self.piece);
        let transition = self.resolve_recursion(catalogue, ahead.of, ahead.step.transition);
        self.advance_frames(catalogue, ahead.of, transition);
        let ended = any_encapsulation_ended(self.inside, self.outer.as_slice());
        progress_of(named, ended, ahead.step.transition, self.leaf)
    }
}
