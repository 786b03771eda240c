//! Reads a line of a dump back into what it was made of (docs/FORMATS.md, Lines).
#![tactic(auto)]

mod captures;
mod line;
mod messages;
mod names;
mod numbers;
mod paths;
mod pieces;
mod reading;
mod streams;
mod texts;
mod values;
mod words;

pub use line::{
    Answers, Call, CaptureTotal, Content, DumpLine, Fault, Piece, Start, Statement, StreamStart,
    Time, Total, Value,
};
pub use numbers::{integer, number, ordinal};
pub use paths::{PathPart, first_part};
pub use reading::{LINE_MAX, read};
pub use texts::first_octet;
