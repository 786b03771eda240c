//! What a line shows: a message's header, a value, or a piece of a content.

use giop_cdr::{Number, Order, Prim};

/// What a value line has after its path.
#[derive(Clone, Copy, Debug, PartialEq, Eq)]
pub enum Value<'a> {
    /// The number of a primitive.
    Primitive(Prim, Number),
    /// The name of an enum's value.
    Enum(&'a [u8]),
    /// How many elements a sequence has.
    Count(u32),
    /// The number of an unsigned long that has a name: a word, and the code after it if there is
    /// one.
    Named {
        /// The number.
        number: u32,
        /// The word.
        word: &'a [u8],
        /// The code.
        code: Option<u16>,
    },
}

/// A piece of a content.
#[derive(Clone, Copy, Debug, PartialEq, Eq)]
pub enum Piece<'a> {
    /// A piece of a string.
    Text(&'a [u8]),
    /// A piece of an octet sequence.
    Octets(&'a [u8]),
    /// A piece of a wide string.
    WideText(&'a [u8]),
    /// A piece of a wide character.
    WideChar(&'a [u8]),
}

/// A piece of a content that came in two parts, and where it stands.
#[derive(Clone, Copy)]
pub struct SplitPiece<'a> {
    /// How many octets of the content stand before it.
    pub offset: u64,
    /// The octets that were held.
    pub held: Piece<'a>,
    /// The octets that follow them.
    pub rest: &'a [u8],
    /// Whether more of the content comes.
    pub more: bool,
}

/// What the line of a message's header shows (GIOP Message Header).
#[derive(Clone, Copy)]
pub struct MessageHeader {
    /// The minor version of GIOP 1.
    pub minor: u8,
    /// The byte order of the message.
    pub order: Order,
    /// The number of the message type.
    pub kind: u8,
    /// How many octets follow the header.
    pub size: u32,
    /// Whether fragments follow.
    pub more: bool,
}
