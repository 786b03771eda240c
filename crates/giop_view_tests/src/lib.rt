//! Tests of the lines of a dump, which are read back, and of what is made of a dump: values as JSON, objects of messages
//! and of calls, and counts, all written by hand.
#![tactic(auto)]

#[cfg(test)]
mod dump_tests;
#[cfg(test)]
mod line_rows;
#[cfg(test)]
mod line_tests;
#[cfg(test)]
mod value_tests;
