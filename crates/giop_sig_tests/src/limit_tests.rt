//! Signature files of as much as they may have, and of one more.

use crate::expecting::{expect, expect_same};
use crate::rows::{file_differs, parsed};
use giop_sig::{Catalogue, OpId};
use std::alloc::{AllocError, Global};
use std::fmt;
use std::fmt::Write;
use std::process::Abort;

fn expect_told(rt: &(impl Abort + AllocGlobal), text: &[u8], want: &str) {
    let differs = file_differs(rt.alloc(), false, text, want);
    expect_same(rt, differs, want, b"");
}

/// A file of so many octets: 13, and spaces after them.
fn spaces(alloc: Global, size: usize) -> Result<Vec<u8>, AllocError> {
    let mut text = Vec::from_slice(alloc, b"signatures 1;")?;
    for _ in 13..size {
        text.push(b' ')?;
    }
    Ok(text)
}

/// How many octets there are, and what is told of the file.
static SIZES: [(usize, &str); 2] = [(1_048_576, "0 0 0 9"), (1_048_577, "1 limit")];

#[test]
fn a_file_has_at_most_1048576_octets(rt: HostRuntime) {
    for (size, want) in &SIZES {
        match spaces(rt.alloc(), *size) {
            Ok(text) => expect_told(&rt, &text, want),
            Err(_) => expect(&rt, false, "the memory"),
        }
    }
}

fn add_operations(count: u32, text: &mut String) -> fmt::Result {
    for number in 0..count {
        writeln!(text, "operation void op{number}();")?;
    }
    Ok(())
}

/// A file of so many operations, each in a line, `op0` the first.
fn operations(alloc: Global, count: u32) -> Option<String> {
    let mut text = String::from_str(alloc, "signatures 1;\n").ok()?;
    add_operations(count, &mut text).ok()?;
    Some(text)
}

/// How many operations there are, and what is told of the file.
static COUNTS: [(u32, &str); 2] = [(4096, "0 4096 0 9"), (4097, "4098 limit")];

#[test]
fn a_file_has_at_most_4096_operations(rt: HostRuntime) {
    for (count, want) in &COUNTS {
        match operations(rt.alloc(), *count) {
            Some(text) => expect_operations(&rt, text.as_bytes(), want),
            None => expect(&rt, false, "the memory"),
        }
    }
}

/// Expects what is told, and if the file is accepted, that `op4095` is the last operation.
fn expect_operations(rt: &(impl Abort + AllocGlobal), text: &[u8], want: &str) {
    expect_told(rt, text, want);
    if let Ok(catalogue) = parsed(rt.alloc(), false, text) {
        expect(rt, is_last(&catalogue), "the last operation");
    }
}

/// Whether `op4095` is the last operation.
fn is_last(catalogue: &Catalogue) -> bool {
    let is_found = catalogue.operation(b"op4095") == Some(OpId(4095));
    is_found && catalogue.operation(b"op4096").is_none()
}
