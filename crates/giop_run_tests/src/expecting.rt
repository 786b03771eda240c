//! What stops a test, with the row that isn't as wanted. A formatted text in an assertion takes seconds to prove: here each
//! is proved once for all tests.

use std::process::Abort;

/// Stops where a row isn't as wanted.
pub fn expect(rt: &impl Abort, is_wanted: bool, row: &str) {
    assert!(rt; is_wanted, "{row}");
}

/// Stops where a row isn't as wanted, by its number.
pub fn expect_at(rt: &impl Abort, is_wanted: bool, number: usize) {
    assert!(rt; is_wanted, "{number}");
}

/// Stops where something differs in a row, by its number.
pub fn expect_same_at(rt: &impl Abort, differs: &str, number: usize) {
    assert!(rt; differs.is_empty(), "{number}: {differs}");
}
