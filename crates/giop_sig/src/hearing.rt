//! What the TypeCode of an any tells about the value of the any.

ghost use Rattle.std.specs.Prelude.{◌≡◌, ℕ, suc, ◌<◌, ◌≤◌, ◌++◌, length, position};
ghost use Rattle.std.specs.Str.{bytes_eq};
ghost use Rattle.giop_sig.specs.Heard.{inferred_after_bound, inferred_by_count, inferred_after_count, front_at, inferred_after, inferred_by_id_part, inferred_by_id, next_sequence, inferred_sequence, inferred_after_piece, inferred_unless_awaited};
ghost use Rattle.giop_sig.specs.Hearings.{HasPositiveIndex, inference_in, sequel_view, sign_view, signal_after, signal_of, inferred_of_signal};
ghost use Rattle.giop_sig.specs.Trees.{has_room, can_be_value, tree_at};
ghost use Rattle.giop_sig.specs.Types.{sequel};

use crate::catalogue::Catalogue;
use crate::fronts::{Front, longer_front};
use crate::numbers::{HEARD_BOUND_MARK, HEARD_KIND_MARK};
use crate::told_kinds::{built_in_sequence, signal_by_kind};
use crate::types::{Following, Shape, Sign, Signal, TypeId};

impl Catalogue {
    /// What has been told of a value after a sign in its first part. The value's type begins with a
    /// part that tells what comes after it.
    pub fn hear(&self, t: TypeId, told: Signal, sign: Sign<'_>) -> Signal
        requires { t.0 < length self.now.types }
        ensures is { result ≡ signal_after self.now t.0 told sign.entry }
        ensures heard { (n : ℕ) → inferred_of_signal result
            ≡ (inference_in (tree_at self.now n t.0)).inferred_after (inferred_of_signal told)
            (sign_view sign.entry) }
    {
        self.seen(false).hear(t, told, sign)
    }

    /// What the TypeCode of an any has told after a sign in it.
    pub(crate) fn any_signal_after(&self, told: Signal, sign: Sign<'_>) -> Signal
        ensures { result
            ≡ signal_of (inferred_after self.now (inferred_of_signal told) (sign_view sign.entry)) }
    {
        match sign {
            Sign::Marked(HEARD_KIND_MARK, kind) => signal_by_kind(kind),
            Sign::Marked(HEARD_BOUND_MARK, _) => self.signal_after_bound(told),
            Sign::Marked(_, _) => signal_unless_awaited(told),
            Sign::Counted(count) => self.signal_after_count(told, count),
            Sign::Spelt(held, rest, more) => self.signal_after_piece(told, held, rest, more),
        }
    }

    /// After the bound of a sequence: the type of the sequence, if that of its elements is known.
    fn signal_after_bound(&self, told: Signal) -> Signal
        ensures { result ≡ signal_of (inferred_after_bound self.now (inferred_of_signal told)) }
    {
        match told {
            Signal::Is(element) => self.signal_of_sequence(TypeId(element)),
            _ => Signal::Unknown,
        }
    }

    /// The sequence of a type, if there is one.
    fn signal_of_sequence(&self, t: TypeId) -> Signal
        ensures { result ≡ signal_of (inferred_sequence self.now t.0) }
    {
        match built_in_sequence(t) {
            Some(sequence) => Signal::Is(sequence.0),
            None => self.next_sequence(t),
        }
    }

    /// The type after a type, if it is the sequence of that.
    fn next_sequence(&self, t: TypeId) -> Signal
        ensures { result ≡ signal_of (next_sequence self.now t.0) }
    {
        self.laws();
        if t.0 == u32::MAX || !self.has(TypeId(t.0 + 1)) {
            return Signal::Unknown;
        }
        if self.entry(TypeId(t.0 + 1)).is_sequence_of(t) {
            Signal::Is(t.0 + 1)
        } else {
            Signal::Unknown
        }
    }

    /// After a count: the type that was offered, if it has this many members.
    fn signal_after_count(&self, told: Signal, count: u32) -> Signal
        ensures { result
            ≡ signal_of (inferred_after_count self.now (inferred_of_signal told) count) }
    {
        match told {
            Signal::Offers(t) => self.signal_if_count(TypeId(t), count),
            _ => signal_unless_awaited(told),
        }
    }

    /// A type, if it has this many members.
    fn signal_if_count(&self, t: TypeId, count: u32) -> Signal
        ensures { result ≡ signal_of (inferred_by_count self.now t.0 count) }
    {
        if self.has(t) && self.entry(t).has_count(count) {
            Signal::Is(t.0)
        } else {
            Signal::Unknown
        }
    }

    /// After a piece of a string, which comes in two parts.
    fn signal_after_piece(&self, told: Signal, held: &[u8], rest: &[u8], more: bool) -> Signal
        ensures { result ≡ signal_of
            (inferred_after_piece self.now (inferred_of_signal told) (held.now ++ rest.now) more) }
    {
        match told {
            Signal::Awaits(front) => self.signal_after_id_piece(front, held, rest, more),
            _ => told,
        }
    }

    /// After a piece of a repository id, in two parts. The id's octets before the piece are the
    /// front with this number.
    fn signal_after_id_piece(&self, front: u32, held: &[u8], rest: &[u8], more: bool) -> Signal
        ensures { result ≡ signal_of (inferred_by_id_part self.now
            (front_at self.now front ++ (held.now ++ rest.now)) more) }
    {
        self.laws();
        let Some(octets) = longer_front(self.front_octets(front), held, rest) else {
            return Signal::Unknown;
        };
        if !more {
            return self.signal_after_id(&octets);
        }
        match self.front_number(&octets) {
            Some(longer) => Signal::Awaits(longer),
            None => Signal::Unknown,
        }
    }

    /// The front with this number, or no octets if there is none.
    fn front_octets(&self, number: u32) -> &[u8]
        ensures { result.now ≡ front_at self.now number }
    {
        match self.fronts.get_index(number as usize) {
            Some(front) => front.as_slice(),
            None => b"",
        }
    }

    /// The number of a front.
    fn front_number(&self, front: &Front) -> Option<u32>
        ensures { result ≡ position (bytes_eq front.now.items) self.now.fronts }
    {
        let number = self.fronts.get_index_of(front)?;
        Some(number as u32)
    }

    /// After a whole repository id, which comes after the octet of its kind.
    fn signal_after_id(&self, octets: &[u8]) -> Signal
        ensures { result ≡ signal_of (inferred_by_id self.now octets.now) }
    {
        match octets {
            [] => Signal::Unknown,
            [kind, id @ ..] => match self.identified(id) {
                Some(t) => self.entry(t).inferred_by_id_kind(*kind, t),
                None => Signal::Unknown,
            },
        }
    }

    /// What comes next in a value of a type that begins with a part that tells it, if that has this
    /// room.
    pub fn following(&self, t: TypeId, told: Signal, room: u8) -> Following
        requires { t.0 < length self.now.types }
        ensures is { sequel (inference_in (tree_at self.now (suc room) t.0))
            (inferred_of_signal told)
            ≡ sequel_view result }
        ensures index { HasPositiveIndex result }
        ensures known { (index : ℕ) → result ≡ Following.Then index →
            index ≤ length self.now.types }
    {
        self.seen(false).following(t, told, room)
    }

    /// Whether a type can be that of the value in an any, if the value has this room.
    pub fn can_be_value(&self, t: TypeId, room: u8) -> bool
        ensures { result ≡ can_be_value self.now room t.0 }
    {
        self.seen(false).can_be_value(t, room)
    }

    /// The same for a type without wide text.
    pub(crate) fn has_room(&self, t: TypeId, room: u8) -> bool
        ensures { result ≡ has_room self.now room t.0 }
    {
        self.has(t) && self.entry(t).takes_octet() && self.depth_at(t) <= u32::from(room)
    }
}

/// After something that tells nothing.
fn signal_unless_awaited(told: Signal) -> Signal
    ensures { result ≡ signal_of (inferred_unless_awaited (inferred_of_signal told)) }
{
    match told {
        Signal::Awaits(_) => Signal::Unknown,
        _ => told,
    }
}
