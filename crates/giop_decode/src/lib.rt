//! The resumable decoder of typed values: it reads octet by octet what recursion on the type reads
//! from a whole list.
#![tactic(auto)]

mod chain;
mod contents;
mod current_path;
mod decoder;
mod encapsulation;
mod frame;
mod hearing;
mod laws;
mod leading_numbers;
mod leaf;
mod line;
mod lookahead;
mod notes;
mod parts;
mod pieces;
mod progress;
mod restored;
mod run;
mod stored;

pub use decoder::Decoder;
pub use laws::{noting_laws, reading_laws, whole_laws};
pub use progress::{Progress, ValueFault};
