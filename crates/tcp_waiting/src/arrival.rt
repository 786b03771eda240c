//! The packet that octets came in.

/// A packet of a capture.
#[derive(Clone, Copy, Debug, PartialEq, Eq)]
pub struct Arrival {
    /// Its time in nanoseconds since 1970-01-01 UTC, if it has one.
    pub time: Option<u128>,
    /// Its number in the capture, from 1; 0 before the first packet.
    pub packet: u64,
}
