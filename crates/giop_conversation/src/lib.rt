//! All connections of a capture (`Conversations`): an engine for each direction, and the calls of both, which Replies
//! answer. It writes the lines of the streams and the other lines, with the times in these, and puts the tag of its stream
//! in front of each line.
#![tactic(auto)]

mod both_calls;
mod conversation;
mod conversations;
mod direction;
mod exchange;
mod kept_second;
mod laws;
mod limits;
mod lines;
mod tag;
mod tagged;
mod times;

pub use conversations::Conversations;
pub use exchange::{Answering, Exchange, Raising, answers_are_known};
pub use kept_second::put_time;
pub use laws::{
    each_stream_is_dumped, events_lead_to_one_text, lines_stand_below, lines_with_tags,
};
pub use limits::{Limits, MemoryError};
pub use lines::{
    CaptureTotals, Opening, answers_line, capture_fault_line, capture_total_line, closed_line,
    raises_line, stream_line, time_line,
};
pub use tag::{Tag, no_tag, stream_tag};
pub use tagged::Tagged;
pub use times::put_span;
