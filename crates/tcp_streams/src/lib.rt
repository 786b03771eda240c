//! The two flows of a connection, and the live streams in the flows of all connections, in the
//! order in which they began.
#![tactic(auto)]

mod pair;
mod places;
mod queue;
mod sides;
mod stamps;
mod streams;

pub use pair::{EndpointPair, Side};
pub use sides::{flow_from, flow_id, opposite_side, pair_of};
pub use streams::Streams;
