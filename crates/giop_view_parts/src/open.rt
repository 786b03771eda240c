//! The open messages, and the message of the last line.

ghost use Rattle.std.specs.Prelude.{◌≡◌, Some, IfSome, option_map};

use crate::message::{Key, Message, ViewData};
use crate::pool::{OF_A_MESSAGE, Pool, TextRank, WaitingKey, text_rank};
use std::alloc::{AllocError, Global};

/// The greatest number of open messages. If there is one more, the one that began first ends.
pub const OPEN_MAX: usize = 65_536;

/// The greatest number of messages that are over and are kept for the room of their texts.
const SPARE_MAX: usize = 16;

/// A message waits under its own key.
#[derive(Drop)]
pub struct OwnKey;

impl WaitingKey for OwnKey {
    ghost waiting_key = { λ own _. Some own };
}

/// The open messages. The message of the last line is kept apart, because most lines are of the same message as the line
/// before.
#[derive(Drop)]
pub struct Open<M: ViewData> {
    current: Option<Box<Message<M>>>,
    others: Pool<M, OwnKey>,
    begun: u64,
    spare: Vec<Box<Message<M>>>,
}

impl<M: ViewData> Open<M> {
    /// Makes a set in which none is open.
    pub(crate) fn new(alloc: Global) -> Open<M> {
        Open {
            current: None,
            others: Pool::new(alloc),
            begun: 0,
            spare: Vec::new(alloc),
        }
    }

    /// The message of the last line.
    #[inline]
    pub fn current(&mut self) -> Option<&mut Message<M>> {
        match &mut self.current {
            None => None,
            Some(message) => Some(message),
        }
    }

    /// The key of the message of the last line.
    #[inline]
    pub fn current_key(&self) -> Option<Key>
        ensures { result ≡ option_map (λ m. m.value.key) self.now.current }
    {
        match &self.current {
            None => None,
            Some(message) => Some(message.key),
        }
    }

    /// Whether the current message has ended, but one more line may tell about it.
    #[inline]
    pub(crate) fn is_waiting(&self) -> bool {
        match &self.current {
            None => false,
            Some(message) => message.is_waiting,
        }
    }

    /// Whether a message is open.
    pub fn contains(&self, key: Key) -> bool {
        self.current_key() == Some(key) || self.others.contains(key)
    }

    /// How many octets are held.
    #[inline]
    pub fn held_octets(&self) -> u64 {
        let current = match &self.current {
            None => 0,
            Some(message) => message.own.text_octets().saturating_add(OF_A_MESSAGE),
        };
        current.saturating_add(self.others.held_octets())
    }

    /// Takes a message out of the open ones.
    pub fn remove(&mut self, key: Key) -> Option<Box<Message<M>>>
        ensures { IfSome result (λ m. m.value.key ≡ key) }
    {
        if self.current_key() == Some(key) {
            return self.current.take();
        }
        self.others.remove(key)
    }

    /// Puts back a message whose text has become shorter.
    pub fn put_back(
        &mut self,
        message: Box<Message<M>>,
        is_current: bool,
    ) -> Result<(), AllocError> {
        if is_current {
            self.current = Some(message);
            return Ok(());
        }
        self.others.insert(message.key, message)
    }

    /// Makes a message the current one. Returns whether it is open; if it isn't, there is no current message.
    pub(crate) fn make_current(&mut self, key: Key) -> Result<bool, AllocError> {
        if self.current_key() == Some(key) {
            return Ok(true);
        }
        if let Some(message) = self.current.take() {
            self.others.insert(message.key, message)?;
        }
        if self.others.len() == 0 {
            return Ok(false);
        }
        self.current = self.others.remove(key);
        Ok(self.current.is_some())
    }

    /// The message that began first, if there is no room for one more.
    pub(crate) fn first_if_full(&self) -> Option<Key> {
        if self.others.len() < OPEN_MAX {
            return None;
        }
        self.others.first_begun()
    }

    /// Begins a message, and makes it the current one.
    pub(crate) fn begin_message(&mut self, alloc: Global, key: Key) -> Result<(), AllocError> {
        let mut message = match self.spare.pop() {
            Some(message) => message,
            None => Box::new(alloc, Message::new(alloc))?,
        };
        message.restart(key, self.begun);
        self.begun = self.begun.saturating_add(1);
        self.current = Some(message);
        Ok(())
    }

    /// Keeps the room of a message that is over.
    pub fn keep_spare(&mut self, message: Box<Message<M>>) -> Result<(), AllocError> {
        if self.spare.len() < SPARE_MAX {
            self.spare.push(message)?;
        }
        Ok(())
    }

    /// A message that is over, whose room is kept, if there is one.
    pub fn spare_message(&mut self) -> Option<&mut Message<M>> {
        match self.spare.last_mut() {
            None => None,
            Some(message) => Some(message),
        }
    }

    /// Counts the octets of the current message, a Fragment, for the message that it continues, if that is open.
    pub(crate) fn count_fragment(&mut self, number: u64) -> Result<(), AllocError> {
        let Some(fragment) = &mut self.current else {
            return Ok(());
        };
        let key = Key {
            stream: fragment.key.stream,
            number,
        };
        if let Some(mut initial) = self.others.remove(key) {
            initial.add_fragment(fragment.octets);
            fragment.octets = 0;
            self.others.insert(key, initial)?;
        }
        Ok(())
    }

    /// The message that holds the most text. If several hold the same, it is the one that began first. None if no message
    /// holds text.
    pub fn most_text(&self) -> Option<(TextRank, Key)> {
        let other = self.others.most_text();
        match &self.current {
            Some(message) if message.own.text_octets() > 0 => greater_rank(
                Some((text_rank(message), message.key)),
                other,
            ),
            _ => other,
        }
    }
}

/// The one of two messages that holds more text.
pub fn greater_rank(
    one: Option<(TextRank, Key)>,
    other: Option<(TextRank, Key)>,
) -> Option<(TextRank, Key)> {
    match (one, other) {
        (Some((rank, _)), Some((most, _))) if rank < most => other,
        (None, _) => other,
        _ => one,
    }
}
