//! Tests of lines: the lines of worked streams, the line of each kind of value, and outs that fail.
#![tactic(auto)]

#[cfg(test)]
mod line_tests;
#[cfg(test)]
mod out_tests;
#[cfg(test)]
mod place;
#[cfg(test)]
mod streams;
#[cfg(test)]
mod value_tests;
