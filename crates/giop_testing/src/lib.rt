//! What the tests of several crates have in common: octets in hexadecimal digits, the first line
//! that differs, and counts of rows. It stands on nothing of GIOP.
#![tactic(auto)]

mod difference;
mod octets;
mod tally;

pub use difference::{LineDifference, compare, first_line};
pub use octets::{front, part, spelled};
pub use tally::Tally;
