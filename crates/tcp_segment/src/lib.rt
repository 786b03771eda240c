//! TCP segments in the packets of a capture: who sends to whom, the sequence numbers and flags, and the payload as a slice
//! of the packet.
#![tactic(auto)]

mod datagram;
mod endpoint;
mod frame;
mod links;
mod octets;
mod segments;
mod tcp;
mod text;

pub use endpoint::{Address, Endpoint, Flow};
pub use links::is_link_read;
pub use segments::segment;
pub use tcp::Segment;
pub use text::{EndpointText, endpoint_text};
