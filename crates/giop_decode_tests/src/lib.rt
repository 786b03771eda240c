//! Tests of the decoder: what its readers tell after each octet, and decoders that are stored and restored.
#![tactic(auto)]

#[cfg(test)]
mod expecting;
#[cfg(test)]
mod key_tests;
#[cfg(test)]
mod known;
#[cfg(test)]
mod named_tests;
#[cfg(test)]
mod recursive_tests;
#[cfg(test)]
mod rows;
#[cfg(test)]
mod seam_tests;
#[cfg(test)]
mod stored_tests;
#[cfg(test)]
mod tests;
#[cfg(test)]
mod tracing;
#[cfg(test)]
mod wide_tests;
