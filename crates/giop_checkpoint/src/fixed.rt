//! The fixed part of a checkpoint: what it stores of the stream as a whole.

ghost use Rattle.std.specs.Prelude.{◌≡◌, ℕ, List, ◌+◌, ◌≤◌, ◌∷◌, ◌++◌, length, Option, Some};
ghost use Rattle.arrayvec.specs.ArrayVec.{array_vec_len};
ghost use Rattle.giop_checkpoint.specs.Layouts.{OwnerFits, layout_of};
ghost use Rattle.giop_checkpoint.specs.Fixed.{magic, fault_octet, counts_octets, place_octets, state_octets, fixed_octets};

use crate::fault::StreamFault;
use crate::layout::Layout;
use arrayvec::ArrayVec;
use giop_octets::{eight_at, four_at, put_eight, put_four, put_octets, put_zeros};

/// What a checkpoint says of the catalogue and the request list by which a stream is read: the
/// version of the signature file, by the layout; how many types, operations and exceptions the file
/// declares; and how many different request ids the list has.
#[derive(Clone, Copy, Debug, PartialEq, Eq)]
pub struct Counts {
    pub version: u8,
    pub types: u32,
    pub operations: u32,
    pub exceptions: u32,
    pub ids: u32,
}

/// Where in the stream the next octet is.
#[derive(Drop)]
pub enum NextOctet {
    /// In a header, after these octets of it, or before a header if there are none.
    Header(ArrayVec<u8, 11>),
    /// In the payload of the message with this header. `left` octets of the payload are still to
    /// come.
    Payload { header: [u8; 12], left: u32 },
    /// After this stream fault.
    Stopped(StreamFault),
}

/// The fixed part.
#[derive(Drop)]
pub struct Fixed {
    pub counts: Counts,
    /// How many messages may be open at once: 1 to 4,096.
    pub most_open: u32,
    /// How many records there are: at most one more than messages that may be open.
    pub records: u32,
    /// How many octets were read, with the octet of a stream fault: at most 2^48 + 1.
    pub octets: u64,
    /// How many messages have begun, at most 2^45.
    pub messages: u64,
    /// How many faults there were, of messages and of the stream: at most 2^45 + 1.
    pub faults: u64,
    pub place: NextOctet,
    /// The record of the message to which the payload belongs, counted from 0.
    pub owner: Option<u32>,
    /// Whether messages of GIOP 1.1 are mixed; false with a signature file below version 3.
    pub is_mixed: bool,
}

impl Fixed {
    /// Writes the fixed part, in the layout of the signature file's version.
    pub fn write<const N: usize>(&self, out: &mut ArrayVec<u8, N>)
        requires room { array_vec_len out.old + 96 ≤ N }
        ensures put { out.new.items ≡ out.old.items ++ fixed_octets
            (layout_of self.now.counts.version) self.now }
        ensures len { array_vec_len out.new ≡ array_vec_len out.old + 96 }
    {
        let layout = Layout::written(self.counts.version);
        put_octets(out, &magic());
        put_octets(out, &layout.version());
        self.counts.write(out);
        self.write_state(layout, out);
    }

    /// Writes the fields after the counts.
    pub(crate) fn write_state<const N: usize>(&self, layout: Layout, out: &mut ArrayVec<u8, N>)
        requires room { array_vec_len out.old + 68 ≤ N }
        requires owner { OwnerFits layout self.now.owner }
        ensures put { out.new.items ≡ out.old.items ++ state_octets layout self.now }
        ensures len { array_vec_len out.new ≡ array_vec_len out.old + 68 }
    {
        put_four(out, self.records);
        put_eight(out, self.octets);
        put_eight(out, self.messages);
        put_eight(out, self.faults);
        self.place.write(layout.owner_octet(self.owner), out);
        layout.write_limits(self.most_open, self.owner, self.is_mixed, out);
    }
}

impl Counts {
    /// Writes the counts.
    pub fn write<const N: usize>(&self, out: &mut ArrayVec<u8, N>)
        requires room { array_vec_len out.old + 16 ≤ N }
        ensures put { out.new.items ≡ out.old.items ++ counts_octets self.now }
        ensures len { array_vec_len out.new ≡ array_vec_len out.old + 16 }
    {
        put_four(out, self.types);
        put_four(out, self.operations);
        put_four(out, self.exceptions);
        put_four(out, self.ids);
    }
}

impl NextOctet {
    /// Writes the place, with the octet that names the payload's record.
    fn write<const N: usize>(&self, owner: u8, out: &mut ArrayVec<u8, N>)
        requires room { array_vec_len out.old + 24 ≤ N }
        ensures put { out.new.items ≡ out.old.items ++ place_octets self.now owner }
        ensures len { array_vec_len out.new ≡ array_vec_len out.old + 24 }
    {
        match self {
            NextOctet::Header(held) => {
                put_octets(out, &[0, 0, held.len() as u8, owner]);
                put_octets(out, held.as_slice());
                put_zeros(out, 12 - held.len());
                put_eight(out, 0);
            }
            NextOctet::Payload { header, left } => {
                put_octets(out, &[1, 0, 0, owner]);
                put_octets(out, header);
                put_eight(out, u64::from(*left));
            }
            NextOctet::Stopped(fault) => {
                put_octets(out, &[2, fault_octet(*fault), 0, owner]);
                put_zeros(out, 12);
                put_eight(out, 0);
            }
        }
    }
}

/// The text that a checkpoint begins with.
#[tactic(auto, unfolding(crate::specs::Fixed::magic))]
pub fn magic() -> [u8; 8]
    ensures { result ≡ magic }
{
    *b"GIOPDUMP"
}

/// The octet of a stream fault: its number.
fn fault_octet(fault: StreamFault) -> u8
    ensures { result ≡ fault_octet fault }
{
    match fault {
        StreamFault::Magic => 1,
        StreamFault::Version => 2,
        StreamFault::ByteOrder => 3,
        StreamFault::StreamLimit => 5,
    }
}
