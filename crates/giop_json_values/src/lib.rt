//! The values of a message as JSON (RFC 8259), by the paths of their lines.
#![tactic(auto)]

mod frames;
mod members;
mod options;
mod pieces;
mod shown;
mod text;
mod type_codes;
mod values;

pub use options::{Characters, Options};
pub use shown::put_line_text;
pub use text::{JsonText, utf8_or_empty};
pub use values::Values;
