//! The limits of what is kept of the connections of a capture, and the number of its first stream.

use giop_stream::NewError;
use std::alloc::AllocError;

/// How many connections are kept, how much is kept of each, and the number at which streams begin.
#[derive(Clone, Copy, Debug)]
pub struct Limits {
    /// The greatest number of connections that are known at once.
    pub connections: u32,
    /// The greatest number of messages of a stream that may be open at once; at least 1.
    pub messages: u32,
    /// The greatest number of calls of one direction that may be outstanding.
    pub calls: u32,
    /// The number of the capture's first stream.
    pub first_stream: u64,
}

/// There isn't enough memory for the limits.
#[derive(Clone, Copy, Debug, PartialEq, Eq)]
pub struct MemoryError;

impl From<AllocError> for MemoryError {
    fn from(_fault: AllocError) -> MemoryError {
        MemoryError
    }
}

impl From<NewError> for MemoryError {
    fn from(_fault: NewError) -> MemoryError {
        MemoryError
    }
}
