//! Tests of segments and of the texts of endpoints; some of both hold by computation.
#![tactic(auto)]

#[cfg(test)]
mod endpoint_rows;
#[cfg(test)]
mod segment_rows;
#[cfg(test)]
mod spelled;
#[cfg(test)]
mod tests;
mod worked;

pub use worked::{worked_segments, worked_texts};
