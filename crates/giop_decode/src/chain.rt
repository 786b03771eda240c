//! Whether the parts of a decoder that is restored from octets fit a catalogue.

ghost use Rattle.std.specs.Prelude.{◌≡◌, ◌↔◌, ℕ, suc, IsTrue, IfSome, None, ◌+◌, ◌-◌, ◌<◌, ◌≤◌, [], length};
ghost use Rattle.giop_decode.specs.SeenState.{NotesFitRoot, HoldsNoKey, interface_of};
ghost use Rattle.giop_decode.specs.FrameChain.{HasFrame, HasFrameAs, HasPart, LeafFits, FramesChain, FitsCatalogue, root_of};
ghost use Rattle.giop_decode.specs.Fits.{CanFollow, HasLeadingNumber, IsEncapsulation, IsLed};
ghost use Rattle.giop_decode.specs.NameBuffer.{NameBufferFits, IsNotedCount, string_offset};
ghost use Rattle.giop_decode.specs.Transitions.{within_of, leaf_type, part_index};
ghost use Rattle.giop_sig.specs.Hearings.{inference_in};
ghost use Rattle.giop_sig.specs.Trees.{tree_at};
ghost use Rattle.giop_sig.specs.Types.{shape_in};

use crate::decoder::Decoder;
use crate::frame::{Frame, Within, is_empty_struct, starts_with_part, within_of};
use crate::leading_numbers::leading_width;
use crate::leaf::Leaf;
use crate::notes::{Buffer, Last, Notes, is_header};
use giop_cdr::Carry;
use giop_print::Root;
use giop_sig::{SeenCatalogue, Shape, TypeId};

impl Decoder {
    /// Whether the decoder goes on, and fits a catalogue.
    pub(crate) fn fits_catalogue(&self, catalogue: &SeenCatalogue<'_>) -> bool
        ensures { IsTrue result ↔ FitsCatalogue catalogue.now self.now }
    {
        let Some(leaf) = self.leaf else {
            return false;
        };
        let root = root_of(self.outer.as_slice(), leaf);
        self.at < 8
            && notes_fit_root(catalogue, self.head.root(), &self.notes)
            && catalogue.has(leaf.of())
            && catalogue.has(root)
            && !is_empty_struct(catalogue, root)
            && self.within_is_right()
            && self.outer.len() < 24
            && self.parts_fit(catalogue, root, leaf)
            && name_buffer_fits(
                self.head.root(),
                string_offset(catalogue, leaf),
                &self.notes,
            )
    }

    /// Whether `inside` is what the parts ask of each octet.
    fn within_is_right(&self) -> bool
        ensures { IsTrue result ↔ self.now.inside ≡ within_of self.now.outer.items }
    {
        self.inside == within_of(Within::Telling, self.outer.as_slice())
    }

    /// Whether each part is the one that the part before it is at, from this type to the innermost
    /// part, and whether what is held fits the innermost part.
    fn parts_fit(&self, catalogue: &SeenCatalogue<'_>, root: TypeId, leaf: Leaf) -> bool
        requires root { root.0 < length catalogue.now.types }
        requires leaf { leaf_type leaf < length catalogue.now.types }
        requires few { length self.now.outer.items < 24 }
        ensures { IsTrue result ↔ FramesChain catalogue.now 24 root.0 self.now.outer.items leaf
            × LeafFits catalogue.now (24 - length self.now.outer.items) leaf self.now.carry
            self.now.piece.items }
    {
        frames_chain(catalogue, 24, root, self.outer.as_slice(), leaf)
            && leaf_fits(catalogue, leaf, &self.carry, self.piece.as_slice())
    }
}

/// The type of the outermost part.
fn root_of(frames: &[Frame], leaf: Leaf) -> TypeId
    ensures { result.0 ≡ root_of frames.now leaf }
{
    match frames {
        [] => leaf.of(),
        [frame, ..] => frame.of,
    }
}

/// Whether each frame is for the part that the one before it is at, from this type to the innermost
/// part. The type has this room.
fn frames_chain(
    catalogue: &SeenCatalogue<'_>,
    room: u8,
    of: TypeId,
    frames: &[Frame],
    leaf: Leaf,
) -> bool
    requires known { of.0 < length catalogue.now.types }
    requires room { length frames.now < room }
    ensures { IsTrue result ↔ FramesChain catalogue.now room of.0 frames.now leaf }
{
    match frames {
        [] => leaf.of() == of,
        [frame, rest @ ..] => {
            let parts_room = room - 1;
            is_frame_of(catalogue, parts_room, of, *frame)
                && frames_chain(
                    catalogue,
                    parts_room,
                    catalogue.part_in(of, part_index(*frame), parts_room),
                    rest,
                    leaf,
                )
        }
    }
}

/// Whether a frame is for this type and can be. `parts_room` is the room of the type's parts.
fn is_frame_of(catalogue: &SeenCatalogue<'_>, parts_room: u8, of: TypeId, frame: Frame) -> bool
    requires { of.0 < length catalogue.now.types }
    ensures { IsTrue result ↔ (frame.of.0 ≡ of.0)
        × HasFrameAs frame.told frame.inside (tree_at catalogue.now (suc parts_room) of.0)
        frame.index frame.count }
{
    frame.of == of && can_be_frame(catalogue, parts_room, of, frame)
}

/// Whether a frame can be for a type: for one of its parts, for an encapsulation some of whose
/// octets are to come, or for a first part that tells what comes after it. `parts_room` is the room
/// of the type's parts.
fn can_be_frame(catalogue: &SeenCatalogue<'_>, parts_room: u8, of: TypeId, frame: Frame) -> bool
    requires { of.0 < length catalogue.now.types }
    ensures { IsTrue result
        ↔ HasFrameAs frame.told frame.inside (tree_at catalogue.now (suc parts_room) of.0)
        frame.index frame.count }
{
    match frame.told {
        Some(_) => { is_led(catalogue, of) && frame.inside.is_none() && frame.count == 0 }
        None => can_be_untold_frame(catalogue, parts_room, of, frame),
    }
}

/// Whether a frame that has told nothing can be for a type: for one of its parts, or for an
/// encapsulation some of whose octets are to come. `parts_room` is the room of the type's parts.
fn can_be_untold_frame(
    catalogue: &SeenCatalogue<'_>,
    parts_room: u8,
    of: TypeId,
    frame: Frame,
) -> bool
    requires { of.0 < length catalogue.now.types }
    ensures { IsTrue result
        ↔ HasFrame frame.inside (tree_at catalogue.now (suc parts_room) of.0) frame.index
        frame.count }
{
    match frame.inside {
        Some(_) => {
            is_encapsulation(catalogue, of) && 0 < frame.index && frame.index < frame.count
        }
        None => has_part(catalogue, parts_room, of, frame.index, frame.count),
    }
}

/// Which part of a frame's type is being read. An encapsulation has one part, and a part that tells
/// what comes after it is the first.
fn part_index(frame: Frame) -> u32
    ensures { result ≡ part_index frame.told frame.inside frame.index }
{
    match (frame.told, frame.inside) {
        (None, None) => frame.index,
        _ => 0,
    }
}

/// Whether a type begins with a part that tells what comes after it.
fn is_led(catalogue: &SeenCatalogue<'_>, of: TypeId) -> bool
    requires { of.0 < length catalogue.now.types }
    ensures { (n : ℕ) → IsTrue result ↔ IsLed (tree_at catalogue.now n of.0) }
{
    match catalogue.shape(of) {
        Shape::Led => true,
        Shape::Encapsulation => false,
        Shape::Members(_) => false,
        Shape::Array(_) => false,
        Shape::Sequence(_) => false,
        Shape::Recursive(_) => false,
        Shape::Union(_) => false,
        Shape::Tagged => false,
        Shape::Prim(_) => false,
        Shape::Enumeration(_) => false,
        Shape::Text(_) => false,
        Shape::Octets(_) => false,
        Shape::WideText => false,
        Shape::WideChar => false,
        Shape::Marked(_) => false,
    }
}

/// Whether a type is an encapsulation.
fn is_encapsulation(catalogue: &SeenCatalogue<'_>, of: TypeId) -> bool
    requires { of.0 < length catalogue.now.types }
    ensures { (n : ℕ) → IsTrue result ↔ IsEncapsulation (tree_at catalogue.now n of.0) }
{
    match catalogue.shape(of) {
        Shape::Encapsulation => true,
        Shape::Members(_) => false,
        Shape::Array(_) => false,
        Shape::Sequence(_) => false,
        Shape::Recursive(_) => false,
        Shape::Union(_) => false,
        Shape::Tagged => false,
        Shape::Prim(_) => false,
        Shape::Enumeration(_) => false,
        Shape::Text(_) => false,
        Shape::Octets(_) => false,
        Shape::WideText => false,
        Shape::WideChar => false,
        Shape::Marked(_) => false,
        Shape::Led => false,
    }
}

/// Whether a type can come after the part that tells it, with this index, if it has room
/// `parts_room`. None can come with index 0, which is that of the part itself.
#[tactic(auto, using(crate::proofs::StoredChain::can_start, crate::proofs::StoredChain::can_follows, crate::proofs::StoredChain::follows_can))]
fn can_follow(catalogue: &SeenCatalogue<'_>, parts_room: u8, of: TypeId, index: u32) -> bool
    requires { shape_in (tree_at catalogue.now (suc parts_room) of.0) ≡ Shape.Led }
    ensures { IsTrue result
        ↔ CanFollow (inference_in (tree_at catalogue.now (suc parts_room) of.0)) index }
{
    0 < index && catalogue.can_be_value(TypeId(index - 1), parts_room)
}

/// Whether a type has this part, which has room `parts_room`, and this many parts.
#[tactic(auto, using(crate::proofs::StoredChain::part_led, crate::proofs::StoredChain::led_part, crate::proofs::StoredChain::part_recursive, crate::proofs::StoredChain::recursive_part))]
fn has_part(
    catalogue: &SeenCatalogue<'_>,
    parts_room: u8,
    of: TypeId,
    index: u32,
    count: u32,
) -> bool
    requires { of.0 < length catalogue.now.types }
    ensures { IsTrue result ↔ HasPart (tree_at catalogue.now (suc parts_room) of.0) index count }
{
    match catalogue.shape(of) {
        Shape::Members(members) => count == members && index < count,
        Shape::Array(elements) => count == elements && index < count,
        Shape::Sequence(_) => index < count,
        Shape::Recursive(_) => index < count && catalogue.elements_fit(of, parts_room),
        Shape::Union(cases) => index < cases && count == 0,
        Shape::Tagged => index < 3 && count == 0,
        Shape::Encapsulation => false,
        Shape::Prim(_) => false,
        Shape::Enumeration(_) => false,
        Shape::Text(_) => false,
        Shape::Octets(_) => false,
        Shape::WideText => false,
        Shape::WideChar => false,
        Shape::Marked(_) => false,
        Shape::Led => count == 0 && can_follow(catalogue, parts_room, of, index),
    }
}

/// Whether what is held of the innermost part fits its type.
fn leaf_fits(catalogue: &SeenCatalogue<'_>, leaf: Leaf, carry: &Carry, piece: &[u8]) -> bool
    requires { leaf_type leaf < length catalogue.now.types }
    ensures { (n : ℕ) →
        IsTrue result ↔ LeafFits catalogue.now (suc n) leaf carry.now piece.now }
{
    match leaf {
        Leaf::Number(of) => {
            piece.is_empty()
                && has_leading_number(catalogue, of)
                && carry.len() < usize::from(leading_width(catalogue, of))
        }
        Leaf::Opening { of, count } => {
            carry.is_empty() && piece.is_empty() && 0 < count && is_encapsulation(catalogue, of)
        }
        Leaf::Content { of, total, offset } => {
            carry.is_empty()
                && match catalogue.shape(of) {
                    Shape::Text(_) => content_fits(total, offset, piece.len(), 1),
                    Shape::Octets(_) => content_fits(total, offset, piece.len(), 0),
                    Shape::WideText => content_fits(total, offset, piece.len(), 0),
                    Shape::WideChar => content_fits(total, offset, piece.len(), 0),
                    Shape::Encapsulation => content_fits(total, offset, piece.len(), 0),
                    _ => false,
                }
        }
    }
}

/// Whether a type begins with a number.
fn has_leading_number(catalogue: &SeenCatalogue<'_>, of: TypeId) -> bool
    requires { of.0 < length catalogue.now.types }
    ensures { (n : ℕ) → IsTrue result ↔ HasLeadingNumber (tree_at catalogue.now n of.0) }
{
    starts_with_part(catalogue, of).is_none()
}

/// Whether this many octets can be held of a piece that begins at this offset of the content.
/// `tail` octets come after the content.
fn content_fits(total: u32, offset: u32, held: usize, tail: usize) -> bool
    requires { tail ≤ 1 }
    ensures { IsTrue result ↔ (offset ≤ total) × (32 < total - offset → held < 32)
        × (total - offset ≤ 32 → held < total - offset + tail) }
{
    if offset > total {
        return false;
    }
    let left = (total - offset) as usize;
    if left > 32 {
        held < 32
    } else {
        held < left + tail
    }
}

/// Whether notes can be those of a value with this root. Only a header has a request id and an
/// object key. The catalogue has the interface of the key, and a key is held only if the catalogue
/// has KEYs.
fn notes_fit_root(catalogue: &SeenCatalogue<'_>, root: Root, notes: &Notes) -> bool
    ensures { IsTrue result ↔ NotesFitRoot catalogue.now root notes.now }
{
    if !is_header(root) {
        return notes.request_id.is_none()
            && has_no_interface(notes.last)
            && holds_no_key(notes.buffer);
    }
    knows_interface(catalogue, notes.last) && (catalogue.has_keys() || holds_no_key(notes.buffer))
}

/// Whether the catalogue has the interface that was noted, if one was.
fn knows_interface(catalogue: &SeenCatalogue<'_>, last: Last) -> bool
    ensures { IsTrue result ↔ IfSome (interface_of last)
        (λ i. i.0 < length catalogue.now.interfaces.names) }
{
    match last {
        Last::Interface(interface) => catalogue.has_interface(interface),
        Last::Nothing => true,
        Last::Status(_) => true,
    }
}

/// Whether no interface was noted.
fn has_no_interface(last: Last) -> bool
    ensures { IsTrue result ↔ interface_of last ≡ None }
{
    match last {
        Last::Interface(_) => false,
        Last::Nothing => true,
        Last::Status(_) => true,
    }
}

/// Whether the buffer has no octets of an object key.
fn holds_no_key(buffer: Buffer) -> bool
    ensures { IsTrue result ↔ HoldsNoKey buffer }
{
    match buffer {
        Buffer::Key => false,
        Buffer::LongKey => false,
        Buffer::Begun => true,
        Buffer::Whole => true,
        Buffer::TooLong => true,
    }
}

/// Where in its string the unfinished piece begins, if the innermost part is in a string.
fn string_offset(catalogue: &SeenCatalogue<'_>, leaf: Leaf) -> Option<u32>
    requires { leaf_type leaf < length catalogue.now.types }
    ensures { (n : ℕ) →
        result ≡ string_offset (tree_at catalogue.now n (leaf_type leaf)) leaf }
{
    match leaf {
        Leaf::Content { of, offset, .. } => match catalogue.shape(of) {
            Shape::Text(_) => Some(offset),
            _ => None,
        },
        Leaf::Number(_) => None,
        Leaf::Opening { .. } => None,
    }
}

/// Whether the name buffer can be like this if the innermost part is in no string, or in one whose
/// unfinished piece begins at this offset.
fn name_buffer_fits(root: Root, offset: Option<u32>, notes: &Notes) -> bool
    ensures { IsTrue result ↔ NameBufferFits root offset notes.now.buffer notes.now.name.items }
{
    match (offset, notes.buffer) {
        (None, Buffer::Begun) => notes.name.is_empty(),
        (None, Buffer::Whole) => true,
        (None, Buffer::TooLong) => false,
        (Some(offset), Buffer::Begun) => is_noted_count(root, offset, notes.name.len()),
        (Some(_), Buffer::Whole) => false,
        (Some(offset), Buffer::TooLong) => 128 < offset && notes.name.is_empty(),
        (None, Buffer::Key) => notes.name.len() <= 128,
        (None, Buffer::LongKey) => notes.name.is_empty(),
        (Some(offset), Buffer::Key) => notes.name.len() <= 128 && is_noted_count(root, offset, 0),
        (Some(offset), Buffer::LongKey) => {
            notes.name.is_empty() && is_noted_count(root, offset, 0)
        }
    }
}

/// Whether this many octets can be noted of a string whose unfinished piece begins at this offset.
fn is_noted_count(root: Root, offset: u32, count: usize) -> bool
    ensures { IsTrue result ↔ IsNotedCount root offset count }
{
    match root {
        Root::Header => count == offset as usize,
        Root::Exception => count == offset as usize,
        Root::Body => count <= offset as usize,
    }
}
