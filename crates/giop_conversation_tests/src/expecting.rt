//! What stops a test, with the row that isn't as it should be. An assertion with a formatted text takes seconds to prove, so
//! each of these is proved once for all tests.

use std::process::Abort;

/// Stops the test if a row isn't as it should be.
pub fn expect(rt: &impl Abort, is_wanted: bool, row: &str) {
    assert!(rt; is_wanted, "{row}");
}

/// Stops the test if a row isn't as it should be, by its number.
pub fn expect_at(rt: &impl Abort, is_wanted: bool, number: usize) {
    assert!(rt; is_wanted, "{number}");
}
