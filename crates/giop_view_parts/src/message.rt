//! A message that isn't over.

ghost use Rattle.std.specs.Prelude.{◌≡◌};

use crate::facts::Facts;
use crate::view::ends_message;
use giop_lines::Statement;
use std::alloc::{AllocError, Global};

/// The octets of the header of a message (GIOP Message Header).
const HEADER: u64 = 12;

/// The numbers that name a message.
#[derive(Clone, Copy, Debug, Drop, PartialEq, Eq, PartialOrd, Ord, Hash)]
pub struct Key {
    /// The number of its stream; 0 in a dump of one stream.
    pub stream: u64,
    /// Its number, from 1.
    pub number: u64,
}

/// What a view keeps of a message in addition to its facts.
pub trait ViewData: Drop {
    /// Makes one for a message that nothing is known of.
    fn new(alloc: Global) -> Self;

    /// Forgets all, for the next message.
    fn clear(&mut self);

    /// How many octets of text are held.
    fn text_octets(&self) -> u64;
}

/// A message, as far as its lines have come.
#[derive(Drop)]
pub struct Message<M: ViewData> {
    /// The numbers that name it.
    pub key: Key,
    /// How many messages began before it.
    pub order: u64,
    /// Whether it has ended, but one more line may tell about it.
    pub is_waiting: bool,
    /// Whether the line that ends it came.
    pub has_ended: bool,
    /// The number of its octets, with its header and those of its Fragments. It is 0 if the octets were counted for the
    /// message that it continues.
    pub octets: u64,
    /// How many Fragments continue it.
    pub fragments: u64,
    /// What its lines tell in addition to its values.
    pub facts: Facts,
    /// What the view keeps of it.
    pub own: M,
}

impl<M: ViewData> Message<M> {
    pub(crate) fn new(alloc: Global) -> Message<M> {
        Message {
            key: Key {
                stream: 0,
                number: 0,
            },
            order: 0,
            is_waiting: false,
            has_ended: false,
            octets: 0,
            fragments: 0,
            facts: Facts::new(alloc),
            own: M::new(alloc),
        }
    }

    /// Becomes another message, that nothing is known of. `order` is the number of messages that began before it.
    pub(crate) fn restart(&mut self, key: Key, order: u64) {
        self.key = key;
        self.order = order;
        self.is_waiting = false;
        self.has_ended = false;
        self.octets = 0;
        self.fragments = 0;
        self.facts.clear();
        self.own.clear();
    }

    /// Takes a line that isn't a value.
    pub(crate) fn take_statement(&mut self, said: Statement<'_>) -> Result<(), AllocError> {
        if let Statement::Start(start) = said {
            self.octets = self
                .octets
                .saturating_add(HEADER)
                .saturating_add(u64::from(start.size));
        }
        self.has_ended |= ends_message(said);
        self.facts.take_statement(said)
    }

    /// Counts a Fragment with this number of octets that continues it.
    pub(crate) fn add_fragment(&mut self, octets: u64)
        ensures { self.new.key ≡ self.old.key }
    {
        self.fragments = self.fragments.saturating_add(1);
        self.octets = self.octets.saturating_add(octets);
    }
}
