//! Tests of what all messages stand on: the numbers of CDR, the fields and the octets of a checkpoint, the tables of
//! entries, and outstanding calls.
#![tactic(auto)]

#[cfg(test)]
mod calls_tests;
#[cfg(test)]
mod cdr_tests;
#[cfg(test)]
mod entry_table_tests;
#[cfg(test)]
mod fixed_tests;
#[cfg(test)]
mod octets_tests;
#[cfg(test)]
mod optional_id_tests;
#[cfg(test)]
mod record_tests;
