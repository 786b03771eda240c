//! The lines of a dump: their text, and the sinks to which they are written.
#![tactic(auto)]

mod digits;
mod encapsulation_lines;
mod flush;
mod head;
mod line;
mod lines;
mod path;
mod position;
mod sheet;
mod sink;
mod value;
mod words;
mod written;

pub use encapsulation_lines::{
    encapsulation_line, inner_rest_line, order_line, split_inner_rest_line,
};
pub use flush::Flush;
pub use head::Head;
pub use line::Line;
pub use lines::{
    call_line, cancelled_line, continues_line, end_line, fault_line, interface_call_line,
    line_behind, numbered_line, piece_line, put_number_end, put_piece_end, rest_line,
    split_piece_line, split_rest_line, start_line, stream_fault_line, total_line, unfinished_line,
    value_line,
};
pub use path::{Path, Root};
pub use position::Position;
pub use sheet::Sheet;
pub use sink::{Out, OutFault, put_all, put_parts};
pub use value::{MessageHeader, Piece, SplitPiece, Value};
pub use written::Written;
