//! Holds the payloads of TCP segments that came too early, of all flows, in memory that is
//! allocated once; and computes with sequence numbers, which wrap around.
#![tactic(auto)]

mod arrival;
mod numbers;
mod places;
mod pool;

pub use arrival::Arrival;
pub use numbers::{age, ahead, is_to_come, onward, rank};
pub use pool::{Pool, WINDOW};
