//! The fields of a checkpoint as octets: writers that append fields, and readers that read, at an offset, what was written.
#![tactic(auto)]

mod reading;
mod writing;

pub use reading::{eight_at, four_at, held_at, octet_at, octets_at, optional_at};
pub use writing::{put_eight, put_four, put_held, put_octets, put_optional, put_zeros};
