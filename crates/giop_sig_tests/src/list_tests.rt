//! Request lists: which texts are lists, what they say, and which line of the others is refused.

use crate::expecting::{expect, expect_same};
use crate::list_limit_tests::expect_interfaces;
use crate::list_rows::{READ, REFUSED, THIRD_READ, THIRD_REFUSED};
use crate::rows::{accepted, are_numbers, list_differs, row_of};
use giop_sig::{Catalogue, ListFaultKind, OpId, Requests, one_list};
use std::alloc::Global;
use std::process::Abort;

/// The operations `ask` and `nop`, in a version. What a function answers stands in no goal of its callers, as a static would.
fn ask_and_nop(version: u32) -> &'static [u8] {
    match version {
        1 => b"signatures 1; operation void ask(); operation void nop();",
        2 => b"signatures 2; operation void ask(); operation void nop();",
        _ => b"signatures 3; operation void ask(); operation void nop();",
    }
}

/// Operations of one name, of interfaces and of none.
fn gets() -> &'static [u8] {
    b"signatures 3;\n\
    operation void get(in ulonglong id) of \"IDL:A:1.0\";\n\
    operation void get(in string name) of \"IDL:B:1.0\", \"IDL:C:1.0\";\n\
    operation void get(); operation void put() of \"IDL:A:1.0\"; operation void nop();"
}

fn third_read() -> &'static [u8] {
    THIRD_READ
}

fn third_refused() -> &'static [u8] {
    THIRD_REFUSED
}

#[test]
fn a_list_says_the_operation_of_each_id_or_its_first_wrong_line(rt: HostRuntime) {
    for version in 1..4_u32 {
        match accepted(rt.alloc(), ask_and_nop(version)) {
            Some(catalogue) => are_told(&rt, &catalogue, version),
            None => expect(&rt, false, "the file"),
        }
    }
}

fn are_told(rt: &(impl Abort + AllocGlobal), catalogue: &Catalogue, version: u32) {
    are_read(rt, catalogue, READ);
    are_refused(rt, catalogue, REFUSED);
    if version < 3 {
        has_none(rt, catalogue);
    } else {
        expect_interfaces(rt, catalogue);
    }
}

#[test]
fn a_third_word_is_an_interface_in_version_3(rt: HostRuntime) {
    match accepted(rt.alloc(), gets()) {
        Some(catalogue) => {
            are_read(&rt, &catalogue, third_read());
            are_refused(&rt, &catalogue, third_refused());
        }
        None => expect(&rt, false, "the file"),
    }
}

/// Expects that no list has a third word.
pub fn has_none(rt: &(impl Abort + AllocGlobal), catalogue: &Catalogue) {
    for row in third_read().split(|octet| *octet == b'=') {
        let (_, text) = row_of(row);
        let differs = list_differs(rt.alloc(), text, catalogue, "1 syntax");
        expect_same(rt, differs, "1 syntax", text);
    }
}

fn are_read(rt: &(impl Abort + AllocGlobal), catalogue: &Catalogue, rows: &[u8]) {
    for row in rows.split(|octet| *octet == b'=') {
        let (want, text) = row_of(row);
        let differs = reading_differs(rt.alloc(), catalogue, text, want);
        expect_same(rt, differs, want, text);
    }
}

/// What differs in what a list says of an id.
fn reading_differs(alloc: Global, catalogue: &Catalogue, text: &[u8], want: &str) -> &'static str {
    match Requests::parse(alloc, text, catalogue) {
        Ok(list) => {
            if says(&list, want) {
                ""
            } else {
                "read as another"
            }
        }
        Err(_) => "refused",
    }
}

/// Whether a list says this of an id: the id, how many ids there are, and its operation.
fn says(list: &Requests, want: &str) -> bool {
    let Ok(id) = u32::from_str_radix(want.split_once(' ').unwrap_or(("", "")).0, 10) else {
        return false;
    };
    match list.operation(id) {
        Some(operation) => are_numbers(&[id, list.count(), operation.0], want),
        None => match want.strip_suffix(" none") {
            Some(numbers) => are_numbers(&[id, list.count()], numbers),
            None => false,
        },
    }
}

fn are_refused(rt: &(impl Abort + AllocGlobal), catalogue: &Catalogue, rows: &[u8]) {
    for row in rows.split(|octet| *octet == b'=') {
        let (want, text) = row_of(row);
        let differs = list_differs(rt.alloc(), text, catalogue, want);
        expect_same(rt, differs, want, text);
    }
}

/// Run with each allocation refused in turn, this finds an answer that is neither the usual nor the refusal.
#[test]
fn want_of_memory_is_refused_as_such(rt: HostRuntime) {
    if let Some(catalogue) = accepted(rt.alloc(), ask_and_nop(1)) {
        expect(&rt, is_read_or_refused(rt.alloc(), &catalogue), "the list");
    }
}

fn is_read_or_refused(alloc: Global, catalogue: &Catalogue) -> bool {
    let text = b"1 ask\n2 nop\n3 ask\n4 gone\n5 nop\n";
    match Requests::parse(alloc, text, catalogue) {
        Ok(list) => list.count() == 5 && list.operation(5) == Some(OpId(1)),
        Err(fault) => fault.line == 0 && fault.kind == ListFaultKind::OutOfMemory,
    }
}

#[test]
fn a_list_has_one_reading(_rt: HostRuntime) {
    one_list();
}
