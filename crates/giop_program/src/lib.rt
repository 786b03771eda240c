//! The program `giopdump` without its `main`: its arguments, and the steps from them to a status.
#![tactic(auto)]

mod arguments;
mod steps;

pub use arguments::Arguments;
pub use steps::{perform_run, program};
