//! What was last noted of a value: the request id of a header, whether it expects a reply, the
//! interface of its object key, the number of an enum, and the last string as a name.

ghost use Rattle.std.specs.Prelude.{◌≡◌, ℕ, ◌<◌, ◌≤◌, ◌&&◌, Bool, IsTrue, IfSome, true, false, codes, List, [], ◌++◌, length};
ghost use Rattle.giop_decode.specs.Noted.{Noted, nothing_noted, with_string_piece, with_string_ended, note_string_piece, is_name, is_member, is_key_path, is_header_root, without_name_if, note_value, note_lines, names_operation, expects_after, with_expects, may_have_key, with_key_piece, with_key_ended, note_key_piece};
ghost use Rattle.giop_decode.specs.SeenState.{NotesFitRoot, HoldsNoKey, HoldsNoted, interface_of};
ghost use Rattle.giop_decode.specs.NotingSteps.{MayNoteKey, clears_name, is_set};
ghost use Rattle.giop_decode.specs.ReadResult.{ValueAt};
ghost use Rattle.giop_decode.specs.ReadResult as results;
ghost use Rattle.giop_decode.specs.Passes.{AreFinishedLines};
ghost use Rattle.giop_decode.specs.ReadingSteps.{path_in, segment_in};
ghost use Rattle.giop_decode.specs.Transitions.{open_part, open_parts, tree_in, AreKnown, IsKnown, IsNumberOf, HasOutput};
ghost use Rattle.giop_print.specs.declared.path.Root.{Root as PathRoot};
ghost use Rattle.giop_sig.specs.Table.{Table, has_keys};
ghost use Rattle.giop_sig.specs.Trees.{tree_at};

use crate::current_path::led_name;
use crate::frame::Frame;
use crate::leaf::{Finished, Output};
use arrayvec::ArrayVec;
use giop_cdr::{Number, Prim};
use giop_print::Root;
use giop_sig::{InterfaceId, SeenCatalogue, Shape, TypeId};

/// What the name buffer has.
#[derive(Clone, Copy, Debug, PartialEq, Eq)]
pub(crate) enum Buffer {
    /// The octets of a string that hasn't ended; none if there was no string.
    Begun,
    /// The last string.
    Whole,
    /// Nothing: the string has more octets than a name may have.
    TooLong,
    /// The octets of an object key that hasn't ended.
    Key,
    /// Nothing: the object key has more octets than a name may have.
    LongKey,
}

/// The last that was noted apart from strings. The object key of a header is noted before all
/// enums, and an enum takes its place.
#[derive(Clone, Copy, Debug, PartialEq, Eq)]
pub(crate) enum Last {
    /// Neither an enum nor an object key that has an interface.
    Nothing,
    /// The number of the last enum.
    Status(u32),
    /// The interface of the object key.
    Interface(InterfaceId),
}

/// What was last noted.
#[derive(Debug, Drop)]
pub(crate) struct Notes {
    // The first request id that was read.
    pub(crate) request_id: Option<u32>,
    pub(crate) last: Last,
    pub(crate) expects_reply: Option<bool>,
    pub(crate) name: ArrayVec<u8, 128>,
    pub(crate) buffer: Buffer,
}

impl Notes {
    /// Notes with nothing noted.
    pub(crate) fn new() -> Notes
        ensures nothing { (C : Table) (asked : Bool) → HoldsNoted C asked result nothing_noted }
        ensures no_key { HoldsNoKey result.buffer }
    {
        Notes {
            request_id: None,
            last: Last::Nothing,
            expects_reply: None,
            name: ArrayVec::new(),
            buffer: Buffer::Begun,
        }
    }

    /// Forgets all that was noted.
    pub(crate) fn clear(&mut self)
        ensures nothing { (C : Table) (asked : Bool) →
            HoldsNoted C asked self.new nothing_noted }
        ensures no_key { HoldsNoKey self.new.buffer }
    {
        self.request_id = None;
        self.last = Last::Nothing;
        self.expects_reply = None;
        self.name.clear();
        self.buffer = Buffer::Begun;
    }

    /// Clears the last name, because the length of a string has come.
    #[inline(always)]
    fn forget_name(&mut self)
        ensures notes { (C : Table) (asked : Bool) (h : Noted) → HoldsNoted C asked self.old h →
            HoldsNoted C asked self.new (without_name_if true h) }
        ensures id { self.new.request_id ≡ self.old.request_id }
        ensures last { self.new.last ≡ self.old.last }
        ensures no_key { HoldsNoKey self.old.buffer → HoldsNoKey self.new.buffer }
        ensures begun { self.new.buffer ≡ Buffer.Whole → ⊥ }
    {
        match self.buffer {
            Buffer::Whole => {
                self.name.clear();
                self.buffer = Buffer::Begun;
            }
            Buffer::Begun => {}
            Buffer::TooLong => {}
            Buffer::Key => {}
            Buffer::LongKey => {}
        }
    }

    /// Notes octets of a string whose end is to come. The buffer has no whole name.
    #[inline(always)]
    fn extend_string(&mut self, octets: &[u8])
        requires { self.old.buffer ≡ Buffer.Whole → ⊥ }
        ensures notes { (C : Table) (asked : Bool) (h : Noted) → HoldsNoted C asked self.old h →
            HoldsNoted C asked self.new (with_string_piece h octets.now) }
        ensures id { self.new.request_id ≡ self.old.request_id }
        ensures last { self.new.last ≡ self.old.last }
        ensures begun { self.new.buffer ≡ Buffer.Whole → ⊥ }
        ensures no_key { HoldsNoKey self.new.buffer }
    {
        match self.buffer {
            Buffer::Begun => self.extend_begun_string(octets),
            _ => self.extend_unbegun_string(octets),
        }
    }

    /// The same, if the buffer has the octets of an object key, or is too short for its string.
    #[inline(never)]
    fn extend_unbegun_string(&mut self, octets: &[u8])
        requires whole { self.old.buffer ≡ Buffer.Whole → ⊥ }
        requires begun { self.old.buffer ≡ Buffer.Begun → ⊥ }
        ensures notes { (C : Table) (asked : Bool) (h : Noted) → HoldsNoted C asked self.old h →
            HoldsNoted C asked self.new (with_string_piece h octets.now) }
        ensures id { self.new.request_id ≡ self.old.request_id }
        ensures last { self.new.last ≡ self.old.last }
        ensures begun { self.new.buffer ≡ Buffer.Whole → ⊥ }
        ensures no_key { HoldsNoKey self.new.buffer }
    {
        match self.buffer {
            Buffer::Begun => {}
            Buffer::Whole => {}
            Buffer::TooLong => {}
            Buffer::Key => {
                self.begin_string();
                self.extend_begun_string(octets);
            }
            Buffer::LongKey => {
                self.begin_string();
                self.extend_begun_string(octets);
            }
        }
    }

    /// Begins to note a string instead of an object key.
    fn begin_string(&mut self)
        requires { HoldsNoKey self.old.buffer → ⊥ }
        ensures notes { (C : Table) (asked : Bool) (h : Noted) → HoldsNoted C asked self.old h →
            HoldsNoted C asked self.new (record h { key_so_far = [] }) }
        ensures id { self.new.request_id ≡ self.old.request_id }
        ensures last { self.new.last ≡ self.old.last }
        ensures begun { self.new.buffer ≡ Buffer.Begun }
    {
        self.name.clear();
        self.buffer = Buffer::Begun;
    }

    /// The same, if the buffer has the octets of a string that hasn't ended.
    #[inline(always)]
    fn extend_begun_string(&mut self, octets: &[u8])
        requires { self.old.buffer ≡ Buffer.Begun }
        ensures notes { (C : Table) (asked : Bool) (h : Noted) → HoldsNoted C asked self.old h →
            HoldsNoted C asked self.new (with_string_piece h octets.now) }
        ensures id { self.new.request_id ≡ self.old.request_id }
        ensures last { self.new.last ≡ self.old.last }
        ensures begun { self.new.buffer ≡ Buffer.Whole → ⊥ }
        ensures no_key { HoldsNoKey self.new.buffer }
    {
        if self.name.try_extend_from_slice(octets).is_err() {
            self.name.clear();
            self.buffer = Buffer::TooLong;
        }
    }

    /// Notes that a string has ended.
    #[inline(always)]
    fn end_string(&mut self)
        requires whole { self.old.buffer ≡ Buffer.Whole → ⊥ }
        requires no_key { HoldsNoKey self.old.buffer }
        ensures notes { (C : Table) (asked : Bool) (h : Noted) → HoldsNoted C asked self.old h →
            HoldsNoted C asked self.new (with_string_ended h) }
        ensures id { self.new.request_id ≡ self.old.request_id }
        ensures last { self.new.last ≡ self.old.last }
        ensures no_key { HoldsNoKey self.new.buffer }
    {
        match self.buffer {
            Buffer::Begun => self.buffer = Buffer::Whole,
            _ => self.buffer = Buffer::Begun,
        }
    }

    /// Notes a piece of a string: the octets that were held, which are mostly none, and the rest.
    /// `more` says whether more pieces come.
    #[inline(always)]
    fn note_piece(&mut self, held: &[u8], rest: &[u8], more: bool)
        ensures notes { (C : Table) (asked : Bool) (h : Noted) → HoldsNoted C asked self.old h →
            HoldsNoted C asked self.new (note_string_piece h (held.now ++ rest.now) more) }
        ensures id { self.new.request_id ≡ self.old.request_id }
        ensures last { self.new.last ≡ self.old.last }
        ensures no_key { HoldsNoKey self.new.buffer }
    {
        self.forget_name();
        if !held.is_empty() {
            self.extend_string(held);
        }
        self.extend_string(rest);
        if !more {
            self.end_string();
        }
    }

    /// Whether an object key may be noted: no string and no enum was noted before.
    fn may_have_key(&self) -> bool
        ensures is { (C : Table) (asked : Bool) (h : Noted) → HoldsNoted C asked self.now h →
            result ≡ may_have_key h }
        ensures key { IsTrue result → MayNoteKey self.now }
    {
        let no_string = match self.buffer {
            Buffer::Begun => self.name.is_empty(),
            Buffer::Key => true,
            Buffer::LongKey => true,
            Buffer::Whole => false,
            Buffer::TooLong => false,
        };
        match self.last {
            Last::Nothing => no_string,
            Last::Interface(_) => no_string,
            Last::Status(_) => false,
        }
    }

    /// Notes a piece of an object key: the octets that were held, which are mostly none, and the
    /// rest. `more` says whether more pieces come.
    #[inline(never)]
    fn note_key(&mut self, catalogue: &SeenCatalogue<'_>, held: &[u8], rest: &[u8], more: bool)
        requires { has_keys catalogue.now ≡ true }
        ensures notes { (asked : Bool) (h : Noted) → HoldsNoted catalogue.now asked self.old h →
            HoldsNoted catalogue.now asked self.new (note_key_piece h (held.now ++ rest.now) more) }
        ensures id { self.new.request_id ≡ self.old.request_id }
        ensures interface { IfSome (interface_of self.old.last)
            (λ i. i.0 < length catalogue.now.interfaces.names) →
            IfSome (interface_of self.new.last)
            (λ i. i.0 < length catalogue.now.interfaces.names) }
    {
        if !self.may_have_key() {
            return;
        }
        self.extend_key(held);
        self.extend_key(rest);
        if !more {
            self.end_key(catalogue);
        }
    }

    /// Notes octets of an object key whose end is to come.
    fn extend_key(&mut self, octets: &[u8])
        requires { MayNoteKey self.old }
        ensures notes { (C : Table) (asked : Bool) (h : Noted) → has_keys C ≡ true →
            HoldsNoted C asked self.old h →
            HoldsNoted C asked self.new (with_key_piece h octets.now) }
        ensures id { self.new.request_id ≡ self.old.request_id }
        ensures last { self.new.last ≡ Last.Nothing }
        ensures key { MayNoteKey self.new }
        ensures begun { self.new.buffer ≡ Buffer.Begun → ⊥ }
    {
        self.last = Last::Nothing;
        match self.buffer {
            Buffer::Begun => self.buffer = Buffer::Key,
            Buffer::Key => {}
            Buffer::LongKey => return,
            Buffer::Whole => return,
            Buffer::TooLong => return,
        }
        if self.name.try_extend_from_slice(octets).is_err() {
            self.name.clear();
            self.buffer = Buffer::LongKey;
        }
    }

    /// Notes that an object key has ended. The buffer becomes empty, and the interface of the key
    /// is noted if it has one.
    fn end_key(&mut self, catalogue: &SeenCatalogue<'_>)
        requires keys { has_keys catalogue.now ≡ true }
        requires key { MayNoteKey self.old }
        requires begun { self.old.buffer ≡ Buffer.Begun → ⊥ }
        requires last { self.old.last ≡ Last.Nothing }
        ensures notes { (asked : Bool) (h : Noted) → HoldsNoted catalogue.now asked self.old h →
            HoldsNoted catalogue.now asked self.new (with_key_ended h) }
        ensures id { self.new.request_id ≡ self.old.request_id }
        ensures interface { IfSome (interface_of self.new.last)
            (λ i. i.0 < length catalogue.now.interfaces.names) }
    {
        if self.buffer == Buffer::Key {
            if let Some(interface) = catalogue.interface(&self.name) {
                self.last = Last::Interface(interface);
            }
        }
        self.name.clear();
        self.buffer = Buffer::Begun;
    }

    /// Notes the number of a discriminator of this type, if it is an enum.
    #[inline(always)]
    fn note_switch(&mut self, catalogue: &SeenCatalogue<'_>, t: TypeId, number: Number)
        requires known { t.0 < length catalogue.now.types }
        requires number { (n : ℕ) × IsNumberOf (tree_at catalogue.now n t.0) number }
        ensures notes { (asked : Bool) (h : Noted) (n : ℕ)
            (is : IsNumberOf (tree_at catalogue.now n t.0) number) →
            HoldsNoted catalogue.now asked self.old h → HoldsNoted catalogue.now asked self.new
            (note_value false h (results.Number is.scalar is.n)) }
        ensures of_root { (root : PathRoot) → NotesFitRoot catalogue.now root self.old →
            NotesFitRoot catalogue.now root self.new }
    {
        let Number::Unsigned(n) = number else {
            return;
        };
        if let Shape::Enumeration(_) = catalogue.shape(t) {
            self.last = Last::Status(n as u32);
        }
    }

    /// Notes the number of an innermost part of this type, if it is an enum or one of the header's
    /// members that are noted.
    #[inline(always)]
    fn note_part(
        &mut self,
        catalogue: &SeenCatalogue<'_>,
        root: Root,
        outer: &[Frame],
        of: TypeId,
        number: Number,
    )
        requires known { of.0 < length catalogue.now.types }
        requires known_outer { AreKnown catalogue.now outer.now }
        requires number { (n : ℕ) × IsNumberOf (tree_at catalogue.now n of.0) number }
        ensures notes { (asked : Bool) (h : Noted) (here n : ℕ)
            (is : IsNumberOf (tree_at catalogue.now n of.0) number) →
            HoldsNoted catalogue.now asked self.old h →
            (let path = path_in [] (open_parts catalogue.now here outer.now) in
            HoldsNoted catalogue.now asked self.new (with_expects (note_value (is_header_root root
            && is_member (codes "request_id") path) h (results.Number is.scalar is.n))
            (expects_after (is_header_root root) path (results.Number is.scalar is.n)
            h.expects_reply))) }
        ensures of_root { NotesFitRoot catalogue.now root self.old →
            NotesFitRoot catalogue.now root self.new }
    {
        match catalogue.shape(of) {
            Shape::Prim(Prim::ULong) => {
                if let Number::Unsigned(n) = number {
                    if self.request_id.is_none()
                        && is_header_member(catalogue, root, outer, b"request_id")
                    {
                        self.request_id = Some(n as u32);
                    }
                }
            }
            Shape::Prim(Prim::Boolean) => {
                if is_header_member(catalogue, root, outer, b"response_expected") {
                    self.expects_reply = Some(is_set(number));
                }
            }
            Shape::Prim(Prim::Octet) => {
                if is_header_member(catalogue, root, outer, b"response_flags") {
                    self.expects_reply = Some(is_set(number));
                }
            }
            Shape::Enumeration(_) => {
                if let Number::Unsigned(n) = number {
                    self.last = Last::Status(n as u32);
                }
            }
            _ => {}
        }
    }

    /// Notes what an octet of an innermost part finishes. Answers whether that ends the operation
    /// of a Request's header.
    #[inline(always)]
    pub(crate) fn note(
        &mut self,
        catalogue: &SeenCatalogue<'_>,
        root: Root,
        outer: &[Frame],
        finished: Finished<'_>,
    ) -> bool
        requires known { finished.of.0 < length catalogue.now.types }
        requires known_outer { AreKnown catalogue.now outer.now }
        requires room { length outer.now < 24 }
        requires has_output { HasOutput (tree_in catalogue.now outer.now finished.of.0)
            finished.output }
        ensures of_root { NotesFitRoot catalogue.now root self.old →
            NotesFitRoot catalogue.now root self.new }
        ensures notes { (asked : Bool) (h : Noted) (here at : ℕ) (lines : List ValueAt) →
            HoldsNoted catalogue.now asked self.old h →
            AreFinishedLines catalogue.now outer.now finished.entry here at lines →
            HoldsNoted catalogue.now asked self.new
            (without_name_if (clears_name finished.entry.output)
            (note_lines (is_header_root root) h lines)) }
        ensures named { (here at : ℕ) (lines : List ValueAt) →
            AreFinishedLines catalogue.now outer.now finished.entry here at lines →
            result ≡ names_operation (is_header_root root) lines }
    {
        match finished.output {
            Output::Nothing => false,
            Output::Count(_) => false,
            Output::Size(_) => false,
            Output::Ordered(_) => false,
            Output::Length => {
                self.forget_name();
                false
            }
            Output::Number(number) => {
                self.note_part(catalogue, root, outer, finished.of, number);
                false
            }
            Output::Switch(number) => {
                self.note_switch(catalogue, catalogue.switch_type(finished.of), number);
                false
            }
            Output::Piece { more, .. } => match catalogue.shape(finished.of) {
                Shape::Text(_) => {
                    self.note_piece(finished.held, finished.rest, more);
                    !more && is_header_member(catalogue, root, outer, b"operation")
                }
                Shape::Octets(_) => {
                    if catalogue.has_keys() && is_object_key(catalogue, root, outer) {
                        self.note_key(catalogue, finished.held, finished.rest, more);
                    }
                    false
                }
                _ => false,
            },
        }
    }
}

/// Whether a boolean is true, or bit 0 of an octet is set.
#[inline(always)]
fn is_set(number: Number) -> bool
    ensures { result ≡ is_set number }
{
    match number {
        Number::Truth(truth) => truth,
        Number::Unsigned(n) => n % 2 == 1,
        Number::Signed(_) => false,
        Number::Bits(_) => false,
        Number::Char(_) => false,
    }
}

/// Whether this is the root of a header.
#[inline(always)]
pub(crate) fn is_header(root: Root) -> bool
    ensures { result ≡ is_header_root root }
{
    match root {
        Root::Header => true,
        Root::Exception => false,
        Root::Body => false,
    }
}

/// Whether the innermost part is the member of a header with this name.
#[inline(always)]
fn is_header_member(catalogue: &SeenCatalogue<'_>, root: Root, outer: &[Frame], name: &[u8]) -> bool
    requires { AreKnown catalogue.now outer.now }
    ensures { (here : ℕ) → result ≡ (is_header_root root
        && is_member name.now (path_in [] (open_parts catalogue.now here outer.now))) }
{
    is_header(root) && is_member(catalogue, outer, name)
}

/// Whether the innermost part is the root's member with this name.
fn is_member(catalogue: &SeenCatalogue<'_>, outer: &[Frame], name: &[u8]) -> bool
    requires { AreKnown catalogue.now outer.now }
    ensures { (here : ℕ) →
        result ≡ is_member name.now (path_in [] (open_parts catalogue.now here outer.now)) }
{
    match outer {
        [frame] => is_named(catalogue, *frame, name),
        _ => false,
    }
}

/// Whether the innermost part is the object key of a header.
fn is_object_key(catalogue: &SeenCatalogue<'_>, root: Root, outer: &[Frame]) -> bool
    requires { AreKnown catalogue.now outer.now }
    ensures is { (here : ℕ) → result ≡ (is_header_root root
        && is_key_path (path_in [] (open_parts catalogue.now here outer.now))) }
    ensures header { IsTrue result → is_header_root root ≡ true }
{
    if !is_header(root) {
        return false;
    }
    match outer {
        [frame] => is_named(catalogue, *frame, b"object_key"),
        [whole, target] => {
            is_named(catalogue, *whole, b"target") && is_named(catalogue, *target, b"object_key")
        }
        _ => false,
    }
}

/// Whether the part of this frame that is being read has this name.
fn is_named(catalogue: &SeenCatalogue<'_>, frame: Frame, name: &[u8]) -> bool
    requires { IsKnown catalogue.now frame }
    ensures { (room here : ℕ) →
        result ≡ is_name name.now (segment_in (open_part catalogue.now room here frame)) }
{
    match catalogue.shape(frame.of) {
        Shape::Members(_) => name == catalogue.part_name(frame.of, frame.index),
        Shape::Union(_) => name == catalogue.part_name(frame.of, frame.index),
        Shape::Tagged => name == catalogue.part_name(frame.of, frame.index),
        Shape::Led => name == led_name(frame),
        _ => false,
    }
}
