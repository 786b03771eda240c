//! Tests of how a capture is read from a source, and of the link types that a notice is given of.
#![tactic(auto)]

#[cfg(test)]
mod counter;
#[cfg(test)]
mod link_tests;
#[cfg(test)]
mod reading_tests;
