//! Messages by their keys, by when they began, and by how much text they hold.

ghost use Rattle.std.specs.Prelude.{◌≡◌, Some, IfSome};

use crate::message::{Key, Message, ViewData};
use std::alloc::{AllocError, Global};
use std::collections::{BTreeMap, HashMap};
use std::marker::{Model, PhantomData};

/// How many octets a message counts as, in addition to its text.
pub(crate) const OF_A_MESSAGE: u64 = 1_024;

/// How much text a message holds, and when it began. Of two messages with equal texts the one that began first has the
/// greater rank.
pub type TextRank = (u64, u64);

/// The rank of a message.
pub(crate) fn text_rank<M: ViewData>(message: &Message<M>) -> TextRank {
    (message.own.text_octets(), u64::MAX - message.order)
}

/// The key under which a message waits.
pub trait WaitingKey {
    ghost use Rattle.std.specs.Prelude.{Option};
    ghost use Rattle.giop_view_parts.specs.declared.message.Key.{Key};

    /// The key for a message, by its own key and by the key of the call that it answers.
    ghost waiting_key: { Key → Option Key → Option Key };
}

/// Messages that wait, each under its key.
#[derive(Drop)]
pub struct Pool<M: ViewData, P: WaitingKey> {
    place: PhantomData<P>,
    messages: HashMap<Key, Box<Message<M>>>,
    by_order: BTreeMap<u64, Key>,
    // The messages that hold text.
    by_text: BTreeMap<TextRank, Key>,
    text: u64,
}

impl<M: ViewData, P: WaitingKey> Model for Pool<M, P> {
    ghost use Rattle.std.specs.Prelude.{◌≡◌, Some};
    ghost use Rattle.std.specs.HashMap.{get};
    ghost use Rattle.std.specs.Option.{ForSome};
    ghost use Rattle.giop_view_parts.specs.declared.message.Key.{Key};

    ghost Value = { Unit {0} };

    ghost view = { λ _. tt };

    ghost invariant = { λ p. (key : Key) → ForSome (get ⟦<Key as PartialEq>⟧.eq p.messages key)
        (λ m. P.waiting_key m.value.key m.value.facts.answers ≡ Some key) };
}

impl<M: ViewData, P: WaitingKey> Pool<M, P> {
    /// Makes a pool without messages.
    pub fn new(alloc: Global) -> Pool<M, P> {
        Pool {
            place: PhantomData,
            messages: HashMap::new(alloc),
            by_order: BTreeMap::new(alloc),
            by_text: BTreeMap::new(alloc),
            text: 0,
        }
    }

    /// How many messages wait.
    pub fn len(&self) -> usize {
        self.messages.len()
    }

    /// Whether a message waits under this key.
    pub fn contains(&self, key: Key) -> bool {
        self.messages.contains_key(&key)
    }

    /// How many octets are held.
    #[inline]
    pub fn held_octets(&self) -> u64 {
        (self.messages.len() as u64)
            .saturating_mul(OF_A_MESSAGE)
            .saturating_add(self.text)
    }

    /// Puts a message under a key.
    pub fn insert(&mut self, key: Key, message: Box<Message<M>>) -> Result<(), AllocError>
        requires { P.waiting_key message.value.key message.value.facts.answers ≡ Some key }
    {
        let (size, place) = text_rank(&message);
        self.by_order.insert(message.order, key)?;
        if size > 0 {
            self.by_text.insert((size, place), key)?;
        }
        self.messages.insert(key, message)?;
        self.text = self.text.saturating_add(size);
        Ok(())
    }

    /// Takes the message under a key.
    pub fn remove(&mut self, key: Key) -> Option<Box<Message<M>>>
        ensures { IfSome result (λ m. P.waiting_key m.value.key m.value.facts.answers ≡ Some key) }
    {
        let message = self.messages.remove(&key)?;
        let (size, place) = text_rank(&message);
        let _ = self.by_order.remove(&message.order);
        let _ = self.by_text.remove(&(size, place));
        self.text = self.text.saturating_sub(size);
        Some(message)
    }

    /// The key of the message that began first.
    pub fn first_begun(&self) -> Option<Key> {
        let (_, key) = self.by_order.first_key_value()?;
        Some(*key)
    }

    /// The message that holds the most text. If several hold the same, it is the one that began first. None if no message
    /// holds text.
    pub fn most_text(&self) -> Option<(TextRank, Key)> {
        let (rank, key) = self.by_text.last_key_value()?;
        Some((*rank, *key))
    }
}
