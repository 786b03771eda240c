//! Streams of GIOP messages, joined from their fragments: it reads octets, and writes lines.
#![tactic(auto)]

mod current;
mod dispatch;
mod engine;
mod fault;
mod finish;
mod fragment;
mod framing;
mod going_on;
mod header;
mod kinds;
mod laws;
mod lines;
mod loading;
mod open_message;
mod runs;
mod saving;
mod slots;
mod status;

pub use engine::{Engine, any_pieces, remaining, text_begins};
pub use fault::{FramingFault, LoadFault, NewError, Stop, StreamFault};
pub use going_on::{go_on, has_checkpoint};
pub use laws::{
    after_a_stop, answers_agree, answers_at_headers, answers_go_on, counts_are_bounded,
    each_joined, each_slot, each_step, fragment_padding, mixed_streams, one_of_each, open_messages,
};
pub use slots::MOST_OPEN;
pub use status::{Fed, Status, Totals};
