//! What the programs that read the lines of a dump have in common around their steps (docs/FORMATS.md, JSON and Counts).
#![tactic(auto)]

mod console;
mod input;
mod run;
mod watching;

pub use console::run_view;
