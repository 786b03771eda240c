//! What the octets that a capture takes complete or show; and a packet of a capture.

use crate::fault::CaptureFault;

/// What the octets that were taken complete or show.
#[derive(Clone, Copy, Debug, PartialEq, Eq)]
pub enum Progress {
    /// All octets were taken. They complete no packet and show no fault.
    More,
    /// The last octet that was taken completes a packet.
    Packet,
    /// The last octet that was taken shows a fault. No more octets are read.
    Fault(CaptureFault),
}

/// A packet of a capture.
#[derive(Clone, Copy, Debug, PartialEq, Eq)]
pub struct Packet<'a> {
    /// The link type of its file or its interface.
    pub link: u16,
    /// The time in nanoseconds since 1970-01-01 UTC, rounded down. From the year 10000 on there is none, and a simple
    /// packet has none.
    pub time: Option<u128>,
    /// The octets of the packet that were captured.
    pub octets: &'a [u8],
}
