//! The calls of one direction of a connection that have no reply yet. All of their memory is allocated when the table is
//! made.
#![tactic(auto)]

mod calls;

pub use calls::{Call, Calls, NAME_ROOM};
