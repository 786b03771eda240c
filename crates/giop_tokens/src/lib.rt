//! The tokens of a signature file, and why a file is refused (docs/FORMATS.md).
#![tactic(auto)]

mod fault;
mod laws;
mod lexer;
mod lines;
mod marks;
mod names;
mod numbers;
mod readers;

pub use fault::{SigFault, SigFaultKind, TokenError};
pub use laws::{first_token, laid_out, no_list, one_list};
pub use lexer::{Token, next, octets_left_at_token};
pub use lines::{fault_in, line_of};
pub use marks::Mark;
pub use names::{identifier, is_reserved, operation_name};
pub use readers::{
    is_at_end, keyword, mark, misplaced, number, repository_id, starts_with_keyword,
    starts_with_mark, word,
};
