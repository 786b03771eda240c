//! What stops a test, with the row that isn't as it should be. An assertion with a formatted text takes seconds to prove, so
//! each of these is proved once for all tests.

use std::process::Abort;

/// Stops the test if a row isn't as it should be.
pub fn expect(rt: &impl Abort, is_wanted: bool, row: &str) {
    assert!(rt; is_wanted, "{row}");
}

/// Stops the test if something differs in a row.
pub fn expect_same(rt: &impl Abort, differs: &str, row: &str) {
    assert!(rt; differs.is_empty(), "{row}: {differs}");
}
