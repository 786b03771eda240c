//! Tests of messages: what is known of their headers, what is told of exceptions, after which
//! octets the reading stops, and messages that are stored and restored. `waiter` is a correspondent
//! that the tests of other crates use too.
#![tactic(auto)]

#[cfg(test)]
mod due;
#[cfg(test)]
mod expecting;
#[cfg(test)]
mod joined;
#[cfg(test)]
mod known;
#[cfg(test)]
mod raised;
#[cfg(test)]
mod rows;
#[cfg(test)]
mod stored;
#[cfg(test)]
mod tests;
pub mod waiter;
