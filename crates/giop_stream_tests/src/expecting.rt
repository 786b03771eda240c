//! What stops a test. An assertion with a formatted text takes seconds to prove, so it is proved once for all tests.

use std::process::Abort;

/// Stops the test if something differs.
pub fn expect_none(rt: &impl Abort, differs: &str) {
    assert!(rt; differs.is_empty(), "{differs}");
}
