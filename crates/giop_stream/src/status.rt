//! What an engine reports about its stream: its status and its totals, and what it read of a piece.

use crate::fault::StreamFault;

/// Whether the stream goes on.
#[derive(Clone, Copy, Debug, PartialEq, Eq)]
pub enum Status {
    Running,
    /// The stream has a fault; no octet after it is read.
    Stopped(StreamFault),
}

/// What was read until now: the messages with a complete header, the faults of messages and of the stream, and the octets,
/// with the octet of a stream fault.
#[derive(Clone, Copy, Debug, PartialEq, Eq)]
pub struct Totals {
    pub messages: u64,
    pub faults: u64,
    pub octets: u64,
}

/// What was read of a piece.
#[derive(Clone, Copy, Debug, PartialEq, Eq)]
pub struct Fed {
    /// How many of its octets were read.
    pub count: usize,
    /// The number of the last message that begins in these octets, from 1: the message's header of 12 octets becomes
    /// complete in them.
    pub begun: Option<u64>,
    /// Whether the stream has a fault.
    pub status: Status,
}
