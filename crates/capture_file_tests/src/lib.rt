//! Tests of capture files: rows of worked captures, captures that tools wrote, and some captures
//! whose outcome holds by computation.
#![tactic(auto)]

#[cfg(test)]
mod capture_rows;
#[cfg(test)]
mod real_rows;
#[cfg(test)]
mod spelled;
#[cfg(test)]
mod tests;
mod worked;

pub use worked::worked_captures;
