//! Counts the calls in the lines of a dump, by operation, by client and server and by connection, with their times
//! (docs/FORMATS.md, Counts).
#![tactic(auto)]

mod buckets;
mod choice;
mod columns;
mod json_rows;
mod message;
mod row;
mod seconds;
mod sorted;
mod stat;
mod table;
mod tables;
mod talks;
mod text_rows;
mod times;
mod window;

pub use choice::{Grouping, Settings};
pub use stat::Stat;
pub use window::{Window, is_time};
