//! A decoder from the octets that were stored of one. They are read without checks. After that the
//! decoder is stored again, and the octets are compared.

ghost use Rattle.std.specs.Prelude.{◌≡◌, ◌↔◌, IsTrue, Bool, ℕ, ◌+◌, ◌<◌, ◌≤◌, List, [], ◌∷◌, ◌++◌, length, drop, Option, Some, IfSome, IsSome};
ghost use Rattle.std.specs.List.{AllByRecursion};
ghost use Rattle.giop_cdr.specs.declared.order.Order.{Order as ByteOrder};
ghost use Rattle.giop_decode.specs.declared.decoder.Decoder.{Decoder as State};
ghost use Rattle.giop_decode.specs.declared.frame.Frame.{Frame as FrameState};
ghost use Rattle.giop_decode.specs.declared.frame.Stage.{Stage as StageState};
ghost use Rattle.giop_decode.specs.declared.leaf.Leaf.{Leaf as Innermost};
ghost use Rattle.giop_decode.specs.declared.notes.Buffer.{Buffer as BufferState};
ghost use Rattle.giop_decode.specs.declared.notes.Last.{Last as LastState};
ghost use Rattle.giop_decode.specs.declared.notes.Notes.{Notes as NotesState};
ghost use Rattle.giop_decode.specs.DecoderState.{Fits, IsOfVersion, Reads};
ghost use Rattle.giop_decode.specs.ReadResult.{Coding};
ghost use Rattle.giop_decode.specs.Stored.{saved_forbids_wide, saved_order, saved_root, saved_leaf, saved_buffer, saved_last, saved_expects_reply, saved_notes, saved_inside, saved_stage, saved_frame, saved_frames, frame_size, FrameHasRange, LeafHasRange, LastHasRange, NotesHaveRange, Stored, AreSavedNotes, IsRestored};
ghost use Rattle.giop_print.specs.declared.path.Root.{Root as PathRoot};
ghost use Rattle.giop_sig.specs.Table.{Table};
ghost use Rattle.giop_sig.specs.Types.{Ty};

use crate::decoder::Decoder;
use crate::frame::{Frame, Stage, Within, within_of};
use crate::leaf::Leaf;
use crate::notes::{Buffer, Last, Notes};
use crate::stored::FRAME_SIZE;
use arrayvec::ArrayVec;
use giop_cdr::{Carry, Order};
use giop_octets::{eight_at, four_at, held_at, octet_at, optional_at};
use giop_print::{Head, Root};
use giop_sig::{Catalogue, InterfaceId, TypeId};

impl Decoder {
    /// The decoder that was stored in these octets: its own, and those of its frames. None if no
    /// decoder that fits the catalogue and reads a message of this minor version is stored like
    /// this.
    pub fn restore(
        catalogue: &Catalogue,
        fixed: &[u8; 208],
        frames: &[u8],
        minor: u8,
    ) -> Option<Decoder>
        ensures fits { IfSome result (λ d. Fits catalogue.now d) }
        ensures version { IfSome result (λ d. IsOfVersion minor catalogue.now d) }
        ensures stored { IfSome result (λ d. Stored d fixed.now frames.now) }
        ensures again { (d : State) → Fits catalogue.now d → IsOfVersion minor catalogue.now d →
            Stored d fixed.now frames.now → IsSome result }
        // It reads any list that the stored one reads.
        ensures reads { IfSome result (λ e. (d : State) → Fits catalogue.now d →
            Stored d fixed.now frames.now →
            (T : Ty) (coding : Coding) (at message : ℕ) (root : PathRoot) (s : List ℕ) →
            Reads catalogue.now T coding at message root d s →
            Reads catalogue.now T coding at message root e s) }
    {
        let forbids_wide = catalogue.is_narrow(minor);
        let seen = catalogue.seen(forbids_wide);
        seen.laws();
        let decoder = unchecked_decoder(fixed, frames);
        if decoder.forbids_wide != forbids_wide {
            return None;
        }
        if !decoder.fits_catalogue(&seen) {
            return None;
        }
        if !decoder.is_stored_as(fixed, frames) {
            return None;
        }
        Some(decoder)
    }

    /// Whether these octets are what is stored of the decoder.
    fn is_stored_as(&self, fixed: &[u8; 208], frames: &[u8]) -> bool
        ensures stored { (C : Table) → Fits C self.now → IsTrue result →
            Stored self.now fixed.now frames.now }
        ensures again { (C : Table) (d : State) → Fits C self.now → Stored d fixed.now frames.now →
            IsRestored d self.now → IsTrue result }
    {
        let mut fixed_again = [0; 208];
        let mut frames_again = [0; 576];
        let count = usize::from(self.store(&mut fixed_again, &mut frames_again));
        if !same_octets(&fixed_again, fixed) {
            return false;
        }
        same_octets(&frames_again[..FRAME_SIZE * count], frames)
    }
}

/// Whether octets are the same.
fn same_octets(octets: &[u8], others: &[u8]) -> bool
    ensures { IsTrue result ↔ (octets.now ≡ others.now) }
{
    octets == others
}

/// The decoder that octets stand for, unchecked.
fn unchecked_decoder(fixed: &[u8; 208], frames: &[u8]) -> Decoder
    ensures { (d : State) → Stored d fixed.now frames.now → IsRestored d result }
{
    let root = root_at(fixed, 1);
    let carry: ArrayVec<u8, 8> = held_at(fixed, 24);
    let outer = outer_at(frames);
    let inside = within_of(Within::Telling, outer.as_slice());
    Decoder {
        order: order_at(fixed, 0),
        head: Head::new(eight_at(fixed, 2), root),
        at: octet_at(fixed, 10),
        forbids_wide: forbids_wide_at(fixed, 207),
        outer,
        inside,
        leaf: Some(leaf_at(fixed, 11)),
        carry: carry_of(carry.as_slice()),
        piece: held_at(fixed, 33),
        notes: notes_at(fixed, 66),
    }
}

/// The byte order that is stored at this index.
fn order_at(octets: &[u8], at: usize) -> Order
    requires room { at < length octets.now }
    ensures { (order : ByteOrder) (rest : List ℕ) → drop at octets.now ≡ saved_order order ∷ rest →
        result ≡ order }
{
    match octet_at(octets, at) {
        0 => Order::Big,
        _ => Order::Little,
    }
}

/// Whether anys and recursive sequences can't hold wide text, as stored at this index.
fn forbids_wide_at(octets: &[u8], at: usize) -> bool
    requires room { at < length octets.now }
    ensures { (forbids_wide : Bool) (rest : List ℕ) → drop at octets.now
        ≡ saved_forbids_wide forbids_wide ∷ rest → result ≡ forbids_wide }
{
    octet_at(octets, at) != 0
}

/// The root that is stored at this index.
fn root_at(octets: &[u8], at: usize) -> Root
    requires room { at < length octets.now }
    ensures { (root : PathRoot) (rest : List ℕ) → drop at octets.now ≡ saved_root root ∷ rest →
        result ≡ root }
{
    match octet_at(octets, at) {
        0 => Root::Header,
        1 => Root::Exception,
        _ => Root::Body,
    }
}

/// The innermost part that is stored at this index.
fn leaf_at(octets: &[u8], at: usize) -> Leaf
    requires room { at + 13 ≤ length octets.now }
    ensures { (leaf : Innermost) (rest : List ℕ) → LeafHasRange leaf →
        drop at octets.now ≡ saved_leaf leaf ++ rest → result ≡ leaf }
{
    let of = TypeId(four_at(octets, at + 1));
    let tag = octet_at(octets, at);
    if tag == 0 {
        return Leaf::Number(of);
    }
    let count = four_at(octets, at + 5);
    if tag == 2 {
        return Leaf::Opening { of, count };
    }
    Leaf::Content {
        of,
        total: count,
        offset: four_at(octets, at + 9),
    }
}

/// A carry with these octets.
fn carry_of(octets: &[u8]) -> Carry
    requires { length octets.now ≤ 8 }
    ensures { result ≡ octets.now }
{
    let mut carry = Carry::new();
    for octet in octets {
        carry.push(*octet);
    }
    carry
}

/// The notes that are stored at this index.
fn notes_at(octets: &[u8], at: usize) -> Notes
    requires room { at + 141 ≤ length octets.now }
    ensures { (notes : NotesState) (rest : List ℕ) → NotesHaveRange notes →
        drop at octets.now ≡ saved_notes notes ++ rest → AreSavedNotes notes result }
{
    Notes {
        request_id: optional_at(octets, at),
        last: last_at(octets, at + 5),
        expects_reply: expects_at(octets, at + 140),
        buffer: buffer_at(octets, at + 10),
        name: held_at(octets, at + 11),
    }
}

/// The number of the last enum, or of the interface of an object key, that is stored at this index.
fn last_at(octets: &[u8], at: usize) -> Last
    requires room { at + 5 ≤ length octets.now }
    ensures { (last : LastState) (rest : List ℕ) → LastHasRange last →
        drop at octets.now ≡ saved_last last ++ rest → result ≡ last }
{
    let tag = octet_at(octets, at);
    if tag == 0 {
        return Last::Nothing;
    }
    let number = four_at(octets, at + 1);
    if tag == 1 {
        return Last::Status(number);
    }
    Last::Interface(InterfaceId(number))
}

/// Whether a reply is expected, as stored at this index.
fn expects_at(octets: &[u8], at: usize) -> Option<bool>
    requires room { at < length octets.now }
    ensures { (expects_reply : Option Bool) (rest : List ℕ) →
        drop at octets.now ≡ saved_expects_reply expects_reply ∷ rest →
        result ≡ expects_reply }
{
    match octet_at(octets, at) {
        0 => None,
        1 => Some(false),
        _ => Some(true),
    }
}

/// The state of the name buffer that is stored at this index.
fn buffer_at(octets: &[u8], at: usize) -> Buffer
    requires room { at < length octets.now }
    ensures { (buffer : BufferState) (rest : List ℕ) →
        drop at octets.now ≡ saved_buffer buffer ∷ rest →
        result ≡ buffer }
{
    match octet_at(octets, at) {
        0 => Buffer::Begun,
        1 => Buffer::Whole,
        2 => Buffer::TooLong,
        3 => Buffer::Key,
        _ => Buffer::LongKey,
    }
}

/// The frames that are stored in octets, without the last, which is that of the innermost part.
fn outer_at(octets: &[u8]) -> ArrayVec<Frame, 24>
    ensures { (frames : List FrameState) (own : FrameState) → AllByRecursion FrameHasRange frames →
        length frames < 24 → octets.now ≡ saved_frames (frames ++ own ∷ []) →
        result.items ≡ frames }
{
    let mut outer = ArrayVec::new();
    let mut rest = octets;
    while rest.len() >= 2 * FRAME_SIZE && !outer.is_full() {
        outer.push(frame_at(rest));
        let (_, behind) = rest.split_at(FRAME_SIZE);
        rest = behind;
    }
    outer
}

/// The frame that is stored at the front of octets.
fn frame_at(octets: &[u8]) -> Frame
    requires { frame_size ≤ length octets.now }
    ensures { (frame : FrameState) (rest : List ℕ) → FrameHasRange frame →
        octets.now ≡ saved_frame frame ++ rest → result ≡ frame }
{
    Frame {
        of: TypeId(four_at(octets, 0)),
        index: four_at(octets, 4),
        count: four_at(octets, 8),
        inside: inside_at(octets, 12),
        told: stage_at(octets, 13),
    }
}

/// What was told in a frame, as stored at this index, if something was.
fn stage_at(octets: &[u8], at: usize) -> Option<Stage>
    requires room { at < length octets.now }
    ensures { (told : Option StageState) (rest : List ℕ) →
        drop at octets.now ≡ saved_stage told ∷ rest → result ≡ told }
{
    match octet_at(octets, at) {
        0 => None,
        1 => Some(Stage::Untold),
        2 => Some(Stage::Awaits),
        3 => Some(Stage::Offers),
        4 => Some(Stage::Is),
        5 => Some(Stage::Empty),
        _ => Some(Stage::Unknown),
    }
}

/// The byte order of an encapsulation that is stored at this index, if it is one.
fn inside_at(octets: &[u8], at: usize) -> Option<Order>
    requires room { at < length octets.now }
    ensures { (inside : Option ByteOrder) (rest : List ℕ) →
        drop at octets.now ≡ saved_inside inside ∷ rest →
        result ≡ inside }
{
    match octet_at(octets, at) {
        0 => None,
        1 => Some(Order::Big),
        _ => Some(Order::Little),
    }
}
