//! The tags of streams: the text that stands in front of each line of a stream.

ghost use Rattle.std.specs.Prelude.{◌≡◌, ◌≤◌, ◌-◌, [], length, drop};
ghost use Rattle.giop_conversation.specs.Tags.{stream_tag};

use itoa::write_digits;
use std::marker::Model;

/// How many octets the array of a tag has: enough for the tag of any stream.
const ROOM: usize = 32;

/// How many octets the block at the end of that array has. Most tags are shorter.
pub(crate) const BLOCK: usize = 16;

/// The text that stands in front of a line. It is the last `count` octets of an array; those before them are unused.
#[derive(Drop)]
pub struct Tag {
    octets: [u8; ROOM],
    count: usize,
    ghost within: { count ≤ 32 },
}

impl Model for Tag {
    ghost use Rattle.std.specs.Prelude.{◌-◌, List, ℕ, drop};

    ghost Value = { List ℕ };

    ghost view = { λ t. drop (32 - t.count) t.octets };
}

impl Tag {
    /// The octets of the tag.
    #[inline]
    pub(crate) fn as_slice(&self) -> &[u8]
        ensures { result.now ≡ self.now }
    {
        &self.octets[ROOM - self.count..]
    }

    /// How many octets the tag has.
    #[inline]
    pub(crate) fn len(&self) -> usize
        ensures { result ≡ length self.now }
    {
        self.count
    }

    /// A copy of the tag.
    #[inline]
    pub(crate) fn copied(&self) -> Tag
        ensures { result ≡ self.now }
    {
        Tag {
            octets: self.octets,
            count: self.count,
        }
    }

    /// The last octets of the array. If the tag isn't longer than them, they end in the tag.
    #[inline]
    pub(crate) fn last_16_octets(&self) -> &[u8]
        ensures size { length result.now ≡ 16 }
        ensures value { length self.now ≤ 16 → drop (16 - length self.now) result.now ≡ self.now }
    {
        &self.octets[ROOM - BLOCK..]
    }
}

/// The empty tag: lines stand as they are.
pub fn no_tag() -> Tag
    ensures { result ≡ [] }
{
    Tag {
        octets: [0; ROOM],
        count: 0,
    }
}

/// The tag of a stream, by its number: `s12 `.
pub fn stream_tag(number: u64) -> Tag
    ensures { result ≡ stream_tag number }
{
    let mut octets = [0; ROOM];
    octets[ROOM - 1] = b' ';
    let at = write_digits(number, &mut octets, ROOM - 1) - 1;
    octets[at] = b's';
    Tag {
        octets,
        count: ROOM - at,
    }
}
