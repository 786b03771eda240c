//! What a checkpoint keeps of a decoder that goes on, written as octets.

ghost use Rattle.std.specs.Prelude.{◌≡◌, ◌+◌, ◌*◌, ◌<◌, ◌≤◌, [], ◌∷◌, ◌++◌, length, take, drop};
ghost use Rattle.std.specs.List.{AllByRecursion};
ghost use Rattle.arrayvec.specs.ArrayVec.{array_vec_len};
ghost use Rattle.giop_decode.specs.DecoderState.{Fits};
ghost use Rattle.giop_decode.specs.Stored.{saved_forbids_wide, saved_order, saved_root, saved_leaf, saved_buffer, saved_last, saved_expects_reply, saved_name, saved_notes, saved_fixed, frame_size, saved_inside, saved_stage, saved_frame, saved_frames, leaf_frame, FrameHasRange, LeafHasRange, LastHasRange, NotesHaveRange, HasRange, Stored};
ghost use Rattle.giop_sig.specs.Table.{Table};
ghost use Rattle.giop_sig.specs.Trees.{catalogue_depth};
ghost use Rattle.giop_sig.specs.HeaderTypes.{IsTable};

use crate::decoder::Decoder;
use crate::frame::{Frame, Stage};
use crate::leaf::Leaf;
use crate::notes::{Buffer, Last, Notes};
use arrayvec::ArrayVec;
use giop_cdr::Order;
use giop_octets::{put_eight, put_four, put_held, put_optional, put_zeros};
use giop_print::Root;

/// How many octets a frame has.
pub(crate) const FRAME_SIZE: usize = 24;

impl Decoder {
    /// Writes what is kept of a decoder that goes on: its own octets and those of its frames.
    /// Answers how many frames there are.
    pub fn store(&self, fixed: &mut [u8; 208], frames: &mut [u8; 576]) -> u8
        ensures few { result ≤ 24 }
        ensures depth { (C : Table) → IsTable C → Fits C self.now → result ≤ catalogue_depth C }
        ensures stored { (C : Table) → Fits C self.now →
            Stored self.now fixed.new (take (frame_size * result) frames.new) }
        // The octets after the frames are unchanged.
        ensures behind { drop (frame_size * result) frames.new
            ≡ drop (frame_size * result) frames.old }
    {
        let Some(leaf) = self.leaf else {
            return 0;
        };
        // A decoder that fits a catalogue has room for the frame of the innermost part.
        if self.outer.is_full() {
            return 0;
        }
        let mut own = ArrayVec::new();
        self.put_fixed(&mut own, leaf);
        fixed.copy_from_slice(own.as_slice());
        let mut all = ArrayVec::new();
        put_frames(&mut all, self.outer.as_slice(), leaf);
        let len = all.len();
        frames[..len].copy_from_slice(all.as_slice());
        self.outer.len() as u8 + 1
    }

    /// Writes the decoder's own octets.
    fn put_fixed(&self, out: &mut ArrayVec<u8, 208>, leaf: Leaf)
        requires { out.old.items ≡ [] }
        ensures put { out.new.items ≡ saved_fixed self.now leaf }
        ensures len { array_vec_len out.new ≡ 208 }
        ensures range { HasRange self.now }
        ensures leaf { LeafHasRange leaf }
    {
        out.push(saved_order(self.order));
        out.push(saved_root(self.head.root()));
        put_eight(out, self.head.message());
        out.push(self.at);
        put_leaf(out, leaf);
        put_held(out, self.carry.as_slice(), 8);
        put_held(out, self.piece.as_slice(), 32);
        put_notes(out, &self.notes);
        out.push(saved_forbids_wide(self.forbids_wide));
    }
}

/// The octet of a byte order.
fn saved_order(order: Order) -> u8
    ensures { result ≡ saved_order order }
{
    match order {
        Order::Big => 0,
        Order::Little => 1,
    }
}

/// The octet that says whether anys and recursive sequences can't hold wide text.
fn saved_forbids_wide(forbids_wide: bool) -> u8
    ensures { result ≡ saved_forbids_wide forbids_wide }
{
    if forbids_wide { 1 } else { 0 }
}

/// The octet of a root.
fn saved_root(root: Root) -> u8
    ensures { result ≡ saved_root root }
{
    match root {
        Root::Header => 0,
        Root::Exception => 1,
        Root::Body => 2,
    }
}

/// Writes the innermost part, in 13 octets.
fn put_leaf(out: &mut ArrayVec<u8, 208>, leaf: Leaf)
    requires room { array_vec_len out.old + 13 ≤ 208 }
    ensures put { out.new.items ≡ out.old.items ++ saved_leaf leaf }
    ensures len { array_vec_len out.new ≡ array_vec_len out.old + 13 }
    ensures range { LeafHasRange leaf }
{
    match leaf {
        Leaf::Number(of) => {
            out.push(0);
            put_four(out, of.0);
            put_four(out, 0);
            put_four(out, 0);
        }
        Leaf::Content { of, total, offset } => {
            out.push(1);
            put_four(out, of.0);
            put_four(out, total);
            put_four(out, offset);
        }
        Leaf::Opening { of, count } => {
            out.push(2);
            put_four(out, of.0);
            put_four(out, count);
            put_four(out, 0);
        }
    }
}

/// Writes what was last noted, in 141 octets.
fn put_notes(out: &mut ArrayVec<u8, 208>, notes: &Notes)
    requires room { array_vec_len out.old + 141 ≤ 208 }
    ensures put { out.new.items ≡ out.old.items ++ saved_notes notes.now }
    ensures len { array_vec_len out.new ≡ array_vec_len out.old + 141 }
    ensures range { NotesHaveRange notes.now }
{
    put_optional(out, notes.request_id);
    put_last(out, notes.last);
    out.push(saved_buffer(notes.buffer));
    put_held(out, saved_name(notes), 128);
    out.push(saved_expects_reply(notes.expects_reply));
}

/// Writes the number of the last enum, or of the interface of an object key, in 5 octets.
fn put_last(out: &mut ArrayVec<u8, 208>, last: Last)
    requires room { array_vec_len out.old + 5 ≤ 208 }
    ensures put { out.new.items ≡ out.old.items ++ saved_last last }
    ensures len { array_vec_len out.new ≡ array_vec_len out.old + 5 }
    ensures range { LastHasRange last }
{
    match last {
        Last::Nothing => {
            out.push(0);
            put_four(out, 0);
        }
        Last::Status(number) => {
            out.push(1);
            put_four(out, number);
        }
        Last::Interface(interface) => {
            out.push(2);
            put_four(out, interface.0);
        }
    }
}

/// The octet that says whether a reply is expected.
fn saved_expects_reply(expects_reply: Option<bool>) -> u8
    ensures { result ≡ saved_expects_reply expects_reply }
{
    match expects_reply {
        None => 0,
        Some(false) => 1,
        Some(true) => 2,
    }
}

/// The octet of a name buffer.
fn saved_buffer(buffer: Buffer) -> u8
    ensures { result ≡ saved_buffer buffer }
{
    match buffer {
        Buffer::Begun => 0,
        Buffer::Whole => 1,
        Buffer::TooLong => 2,
        Buffer::Key => 3,
        Buffer::LongKey => 4,
    }
}

/// The octets of the name that are stored: none if the buffer is too short.
fn saved_name(notes: &Notes) -> &[u8]
    ensures name { result.now ≡ saved_name notes.now.buffer notes.now.name.items }
    ensures short { length result.now ≤ 128 }
    ensures room { length notes.now.name.items ≤ 128 }
{
    let name = notes.name.as_slice();
    match notes.buffer {
        Buffer::Begun => name,
        Buffer::Whole => name,
        Buffer::TooLong => &[],
        Buffer::Key => name,
        Buffer::LongKey => &[],
    }
}

/// Writes the frames. The last is that of the innermost part.
fn put_frames(out: &mut ArrayVec<u8, 576>, outer: &[Frame], leaf: Leaf)
    requires empty { out.old.items ≡ [] }
    requires few { length outer.now < 24 }
    ensures put { out.new.items ≡ saved_frames (outer.now ++ leaf_frame leaf ∷ []) }
    ensures len { array_vec_len out.new ≡ frame_size * (length outer.now + 1) }
    ensures range { AllByRecursion FrameHasRange outer.now }
{
    for frame in outer {
        put_frame(out, *frame);
    }
    put_frame(
        out,
        Frame {
            of: leaf.of(),
            index: 0,
            count: 0,
            inside: None,
            told: None,
        },
    );
}

/// Writes a frame.
fn put_frame(out: &mut ArrayVec<u8, 576>, frame: Frame)
    requires room { array_vec_len out.old + frame_size ≤ 576 }
    ensures put { out.new.items ≡ out.old.items ++ saved_frame frame }
    ensures len { array_vec_len out.new ≡ array_vec_len out.old + frame_size }
    ensures range { FrameHasRange frame }
{
    put_four(out, frame.of.0);
    put_four(out, frame.index);
    put_four(out, frame.count);
    out.push(saved_inside(frame.inside));
    out.push(saved_stage(frame.told));
    put_zeros(out, 10);
}

/// The octet of an encapsulation's byte order, or of any other part.
fn saved_inside(inside: Option<Order>) -> u8
    ensures { result ≡ saved_inside inside }
{
    match inside {
        None => 0,
        Some(order) => 1 + saved_order(order),
    }
}

/// The octet of what was told in a frame, if something was.
fn saved_stage(told: Option<Stage>) -> u8
    ensures { result ≡ saved_stage told }
{
    match told {
        None => 0,
        Some(Stage::Untold) => 1,
        Some(Stage::Awaits) => 2,
        Some(Stage::Offers) => 3,
        Some(Stage::Is) => 4,
        Some(Stage::Empty) => 5,
        Some(Stage::Unknown) => 6,
    }
}
