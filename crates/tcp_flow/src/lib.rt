//! One flow of a TCP connection: which octets it delivers, in order and without a hole, and when
//! its streams begin and close.
#![tactic(auto)]

mod arrivals;
mod closing;
mod delivering;
mod flow;
mod gaps;
mod hearing;
mod laws;
mod looking;
mod tail;

pub use flow::{CloseCause, FlowState, Listener, ListenerError, Start};
pub use hearing::Heard;
pub use laws::order_makes_no_difference;
pub use looking::{is_header_beginning, stream_begin_in};
pub use tail::Tail;
