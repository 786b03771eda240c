//! Makes an object of each message, stream and capture of a dump after it is over, or of each call (docs/FORMATS.md, JSON).
#![tactic(auto)]

mod calls;
mod half;
mod message;
mod messages;
mod objects;
mod rows;

pub use calls::Calls;
pub use messages::Messages;
pub use objects::{HOLD_MAX, Settings};
