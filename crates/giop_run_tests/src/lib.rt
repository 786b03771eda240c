//! Tests of runs, of the files that are read whole, and of what is told of the program's words and faults.
#![tactic(auto)]

#[cfg(test)]
mod close;
#[cfg(test)]
mod console_tests;
#[cfg(test)]
mod expecting;
#[cfg(test)]
mod fakes;
#[cfg(test)]
mod fault_tests;
#[cfg(test)]
mod files_tests;
#[cfg(test)]
mod reason_tests;
#[cfg(test)]
mod run_tests;
#[cfg(test)]
mod shown_tests;
