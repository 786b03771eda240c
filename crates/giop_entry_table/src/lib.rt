//! A table of values under ids, in the order in which they were added. All of its memory is allocated when it is made.
#![tactic(auto)]

mod entry_table;
mod ids;
mod optional_ids;
mod search;

pub use entry_table::{Entry, EntryTable};
pub use optional_ids::{OptionalIdEntry, OptionalIdTable};
