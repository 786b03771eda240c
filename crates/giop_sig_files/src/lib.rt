//! Signature files that are read as one text: that text, the file and the line that a line of it comes from, and the
//! earlier line that declares the same name.
#![tactic(auto)]

mod block;
mod earlier;
mod joining;
mod places;

pub use earlier::declared_above;
pub use joining::joined;
pub use places::{SignatureText, place};
