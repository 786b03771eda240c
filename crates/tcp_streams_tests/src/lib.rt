//! Tests of the slots of connections, of the flows of a connection, and of the live streams.
#![tactic(auto)]

#[cfg(test)]
mod silent;
#[cfg(test)]
mod slots_tests;
#[cfg(test)]
mod tests;
