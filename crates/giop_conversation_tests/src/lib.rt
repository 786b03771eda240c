//! Tests of the lines of a capture, and of lines with tags.
#![tactic(auto)]

#[cfg(test)]
mod conversation_tests;
#[cfg(test)]
mod exchange_tests;
#[cfg(test)]
mod expecting;
#[cfg(test)]
mod known;
#[cfg(test)]
mod line_tests;
#[cfg(test)]
mod tag_tests;
#[cfg(test)]
mod time_tests;
