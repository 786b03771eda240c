//! Tests of the tokens of a text, of the readers, and of the lines of refusals.
#![tactic(auto)]

#[cfg(test)]
mod long_tests;
#[cfg(test)]
mod name_tests;
#[cfg(test)]
mod reader_tests;
#[cfg(test)]
mod rows;
#[cfg(test)]
mod spelled;
#[cfg(test)]
mod token_tests;
