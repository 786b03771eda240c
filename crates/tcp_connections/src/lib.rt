//! The connections of a capture: which are known, what their streams deliver, and when they close
//! (RFC 9293). All memory is allocated when they are made.
#![tactic(auto)]

mod arrivals;
mod came;
mod capture_end;
mod connections;
mod flows;
mod forgetting;
mod givers;
mod giving;
mod guesses;
mod laws;
mod relieving;
mod syns;

pub use connections::Connections;
pub use laws::{
    capture_event_is_told, no_stream_has_a_gap, nothing_else_forgets, the_eldest_makes_room,
};
