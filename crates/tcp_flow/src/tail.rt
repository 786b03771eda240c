//! The tail of a flow: octets that were looked through and may begin a header whose rest is to
//! come.

ghost use Rattle.std.specs.Prelude.{◌≡◌, ◌<◌, ◌+◌, take};
ghost use Rattle.tcp_flow.specs.Flow.{first_five, octets_of, tail_of, lengthened, is_continued_by};

use crate::looking::may_be_header_joined;
use tcp_waiting::onward;

/// The first five of a header's six octets, which are the same in each version.
pub(crate) const FIRST_FIVE: [u8; 5] = *b"GIOP\x01";

/// The first octets of `GIOP` 01 and 00, 01 or 02, one to five of them, which came in payloads of
/// their own.
#[derive(Clone, Copy, Drop)]
pub struct Tail {
    /// The sequence number of its first octet.
    pub(crate) number: u32,
    /// How many octets the tail has.
    pub(crate) octets: u8,
    /// How many payloads the tail came in.
    pub(crate) count: u8,
    /// How many octets each of these payloads has.
    pub(crate) parts: [u8; 5],
}

impl Tail {
    /// The tail of one payload of `octets` octets.
    pub(crate) fn new(number: u32, octets: u8) -> Tail
        ensures { result ≡ tail_of number octets }
    {
        Tail {
            number,
            octets,
            count: 1,
            parts: [octets, 0, 0, 0, 0],
        }
    }

    /// The octets of the tail.
    pub(crate) fn octets(&self) -> &'static [u8]
        ensures { result.now ≡ octets_of self.now }
    {
        &FIRST_FIVE[..(self.octets as usize).min(5)]
    }

    /// Whether octets at a number go on from the tail: the tail ends there, and both together begin
    /// with the six octets or are a beginning of them.
    pub(crate) fn is_continued_by(&self, number: u32, octets: &[u8]) -> bool
        ensures { result ≡ is_continued_by self.now number octets.now }
    {
        onward(self.number, self.octets as usize) == number
            && may_be_header_joined(self.octets(), octets)
    }

    /// The tail with one more payload of `octets` octets.
    pub(crate) fn lengthened(&self, octets: u8) -> Tail
        requires { self.now.octets + octets < 256 }
        ensures { result ≡ lengthened self.now octets }
    {
        let mut tail = *self;
        if tail.count < 5 {
            tail.parts[tail.count as usize] = octets;
            tail.octets += octets;
            tail.count += 1;
        }
        tail
    }

    /// How many octets each payload of the tail has.
    pub(crate) fn parts(&self) -> &[u8]
        ensures { result.now ≡ take self.now.count self.now.parts }
    {
        &self.parts[..(self.count as usize).min(5)]
    }
}
