//! What stops a test, with the row that isn't as wanted. A formatted text in an assertion takes seconds to prove: here each
//! is proved once for all tests. So does a `?` in a test: a test of a catalogue takes it in a box, by `accepted`.

use std::process::Abort;

/// Stops where a row isn't as wanted.
pub fn expect(rt: &impl Abort, is_wanted: bool, row: &str) {
    assert!(rt; is_wanted, "{row}");
}

/// Stops where what is wanted of octets isn't so.
pub fn expect_of(rt: &impl Abort, is_wanted: bool, octets: &[u8]) {
    assert!(rt; is_wanted, "{octets:?}");
}

/// Stops where something differs from what is wanted of a text.
pub fn expect_same(rt: &impl Abort, differs: &str, want: &str, text: &[u8]) {
    assert!(rt; differs.is_empty(), "{differs}, not {want}: {text:?}");
}
