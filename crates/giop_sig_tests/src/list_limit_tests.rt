//! Request lists of as much as they may have, and of more.

use crate::expecting::{expect, expect_same};
use crate::rows::{list_differs, parsed};
use giop_sig::{Catalogue, OpId, Requests};
use std::alloc::{AllocError, Global};
use std::fmt;
use std::fmt::Write;
use std::process::Abort;

/// A list's first octets, octets that stand in it so many times, its last octets, and what is told of it.
type Row = (
    &'static [u8],
    &'static [u8],
    usize,
    &'static [u8],
    &'static str,
);

/// 32 empty lines.
const NEWLINES: &[u8] = b"\n\n\n\n\n\n\n\n\n\n\n\n\n\n\n\n\n\n\n\n\n\n\n\n\n\n\n\n\n\n\n\n";

/// How much a list of the operation `op0` may have.
static LIMITS: [Row; 9] = [
    (b"", b"1 op0\n", 65_536, b"", "1"),
    (b"", b"1 op0\n", 65_536, b"1 op0", "65537 limit"),
    (b"", b"1 op0\n", 65_537, b"\n", "65537 limit"),
    (b"", b"1 op0\n", 65_536, b"1 op0 \n", "65537 syntax"),
    (b"", b"1 op0\n", 65_535, b"01 op0\n", "65536 syntax"),
    // A name of 128 octets, and one of 129.
    (b"1 ", b"n", 128, b"\n", "1"),
    (b"1 ", b"n", 129, b"\n", "1 syntax"),
    // 16,777,216 octets, 524,288 times 32, and one more.
    (b"", NEWLINES, 524_288, b"", "1 syntax"),
    (b"", NEWLINES, 524_288, b"\n", "1 limit"),
];

/// In version 3 an interface may have 128 octets, and not 129.
static INTERFACES: [Row; 2] = [
    (b"7 get ", b"n", 128, b"\n", "1"),
    (b"7 get ", b"n", 129, b"\n", "1 syntax"),
];

fn expect_told(rt: &(impl Abort + AllocGlobal), catalogue: &Catalogue, text: &[u8], want: &str) {
    let differs = list_differs(rt.alloc(), text, catalogue, want);
    expect_same(rt, differs, want, b"");
}

fn text_of(
    alloc: Global,
    first: &[u8],
    repeated: &[u8],
    times: usize,
    last: &[u8],
) -> Result<Vec<u8>, AllocError> {
    let mut text = Vec::from_slice(alloc, first)?;
    for _ in 0..times {
        text.extend_from_slice(repeated)?;
    }
    text.extend_from_slice(last)?;
    Ok(text)
}

fn expect_limits(rt: &(impl Abort + AllocGlobal), catalogue: &Catalogue, rows: &[Row]) {
    for (first, repeated, times, last, want) in rows {
        match text_of(rt.alloc(), first, repeated, *times, last) {
            Ok(text) => expect_told(rt, catalogue, &text, want),
            Err(_) => expect(rt, false, "the memory"),
        }
    }
}

/// Expects of a catalogue of version 3 how long an interface may be.
pub fn expect_interfaces(rt: &(impl Abort + AllocGlobal), catalogue: &Catalogue) {
    expect_limits(rt, catalogue, &INTERFACES);
}

#[test]
fn a_list_has_at_most_as_much_as_its_limits(rt: HostRuntime) {
    match parsed(rt.alloc(), false, b"signatures 1; operation void op0();") {
        Ok(catalogue) => {
            expect_limits(&rt, &catalogue, &LIMITS);
            expect_ids(&rt, &catalogue);
        }
        Err(_) => expect(&rt, false, "the file"),
    }
}

/// Adds entries of `op0` for so many ids, 0 the first.
fn add_ids(count: u32, text: &mut String) -> fmt::Result {
    for id in 0..count {
        writeln!(text, "{id} op0")?;
    }
    Ok(())
}

/// Expects all of 65,536 ids, and that one more is refused.
fn expect_ids(rt: &(impl Abort + AllocGlobal), catalogue: &Catalogue) {
    let mut text = String::new(rt.alloc());
    expect(rt, add_ids(65_536, &mut text).is_ok(), "the memory");
    expect(
        rt,
        all_are_read(rt.alloc(), catalogue, text.as_bytes()),
        "the ids",
    );
    expect(rt, text.push_str("65536 op0\n").is_ok(), "the memory");
    expect_told(rt, catalogue, text.as_bytes(), "65537 limit");
}

fn all_are_read(alloc: Global, catalogue: &Catalogue, text: &[u8]) -> bool {
    match Requests::parse(alloc, text, catalogue) {
        Ok(list) => has_all(&list),
        Err(_) => false,
    }
}

fn has_all(list: &Requests) -> bool {
    list.count() == 65_536
        && list.operation(0) == Some(OpId(0))
        && list.operation(65_535) == Some(OpId(0))
        && list.operation(65_536).is_none()
}
