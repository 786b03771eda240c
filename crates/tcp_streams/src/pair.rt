//! The endpoints of a connection, whichever of them sends.

use tcp_segment::Endpoint;

/// The endpoints of a connection in their order: by address, and then by port.
#[derive(Clone, Copy, Debug, PartialEq, Eq, PartialOrd, Ord)]
pub struct EndpointPair {
    pub lesser: Endpoint,
    pub greater: Endpoint,
}

/// Which endpoint of a pair sends.
#[derive(Clone, Copy, Debug, PartialEq, Eq)]
pub enum Side {
    FromLesser,
    FromGreater,
}
