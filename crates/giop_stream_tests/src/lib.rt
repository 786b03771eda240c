//! Tests of giop_stream from outside: they use it as a program does that depends on it. What an
//! engine writes of a stream, and what a checkpoint leads to, are rows of `giop_stream_rows`.
#![tactic(auto)]

#[cfg(test)]
mod due;
#[cfg(test)]
mod expecting;
#[cfg(test)]
mod going_on;
#[cfg(test)]
mod known;
#[cfg(test)]
mod limits;
#[cfg(test)]
mod own_out;
#[cfg(test)]
mod saved;
#[cfg(test)]
mod waiting;
