//! Rows of a table of texts, and what differs from them in what is told of a signature file and of a request list.

use giop_sig::{Catalogue, ListFault, ListFaultKind, Requests, SigFault, SigFaultKind};
use std::alloc::Global;

/// The number and the word of each rule of a signature file.
pub static FILE_RULES: [(SigFaultKind, u32, &str); 9] = [
    (SigFaultKind::Token, 1, "token"),
    (SigFaultKind::Syntax, 2, "syntax"),
    (SigFaultKind::UnknownType, 3, "unknown-type"),
    (SigFaultKind::Duplicate, 4, "duplicate"),
    (SigFaultKind::Limit, 5, "limit"),
    (SigFaultKind::Depth, 6, "depth"),
    (SigFaultKind::Label, 7, "label"),
    (SigFaultKind::Empty, 8, "empty"),
    (SigFaultKind::OutOfMemory, 9, "out-of-memory"),
];

/// The number and the word of each rule of a request list.
pub static LIST_RULES: [(ListFaultKind, u8, &str); 3] = [
    (ListFaultKind::Syntax, 1, "syntax"),
    (ListFaultKind::Limit, 2, "limit"),
    (ListFaultKind::OutOfMemory, 3, "out-of-memory"),
];

/// What a row wants, and its text: `|` stands between. A row without it wants nothing that is told.
pub fn row_of(row: &[u8]) -> (&str, &[u8]) {
    match row.iter().position(|octet| *octet == b'|') {
        Some(end) => (str::from_utf8(&row[..end]).unwrap_or(""), &row[end + 1..]),
        None => ("", row),
    }
}

/// What differs in what is told of a signature file, which may have version 3 or may not: how many types, operations
/// and exceptions it has and its depth; or the line and the word of its refusal.
pub fn file_differs(alloc: Global, third: bool, text: &[u8], want: &str) -> &'static str {
    match parsed(alloc, third, text) {
        Ok(catalogue) => counts_differ(&catalogue, want),
        Err(fault) => file_refusal_differs(fault, want),
    }
}

/// The catalogue of a file, which may have version 3 or may not. It is in a box: a function that holds a catalogue itself
/// takes seconds to prove.
pub fn parsed(alloc: Global, third: bool, text: &[u8]) -> Result<Box<Catalogue>, SigFault> {
    let told = if third {
        Catalogue::parse_types(alloc, text)
    } else {
        Catalogue::parse(alloc, text)
    };
    match Box::new(alloc, told?) {
        Ok(catalogue) => Ok(catalogue),
        Err(_) => Err(SigFault {
            line: 0,
            kind: SigFaultKind::OutOfMemory,
        }),
    }
}

/// The catalogue of a file of any version, if it is accepted.
pub fn accepted(alloc: Global, text: &[u8]) -> Option<Box<Catalogue>> {
    parsed(alloc, true, text).ok()
}

fn counts_differ(catalogue: &Catalogue, want: &str) -> &'static str {
    let has = catalogue.counts();
    let depth = u32::from(catalogue.depth());
    if are_numbers(&[has.types, has.operations, has.exceptions, depth], want) {
        ""
    } else {
        "accepted, with other counts"
    }
}

fn file_refusal_differs(fault: SigFault, want: &str) -> &'static str {
    let (line, rule) = want.split_once(' ').unwrap_or(("", want));
    if !are_numbers(&[fault.line], line) {
        return "refused at another line";
    }
    for (kind, _, word) in &FILE_RULES {
        if fault.kind == *kind && *word == rule {
            return "";
        }
    }
    "refused by another rule"
}

/// What differs in what is told of a request list: how many ids it has; or the line and the word of its refusal.
pub fn list_differs(alloc: Global, text: &[u8], catalogue: &Catalogue, want: &str) -> &'static str {
    match Requests::parse(alloc, text, catalogue) {
        Ok(list) => ids_differ(&list, want),
        Err(fault) => list_refusal_differs(fault, want),
    }
}

fn ids_differ(list: &Requests, want: &str) -> &'static str {
    if are_numbers(&[list.count()], want) {
        ""
    } else {
        "read, with another count of ids"
    }
}

fn list_refusal_differs(fault: ListFault, want: &str) -> &'static str {
    let (line, rule) = want.split_once(' ').unwrap_or(("", want));
    if !are_numbers(&[fault.line], line) {
        return "refused at another line";
    }
    for (kind, _, word) in &LIST_RULES {
        if fault.kind == *kind && *word == rule {
            return "";
        }
    }
    "refused by another rule"
}

/// Whether these numbers are wanted, one space between two of them.
pub fn are_numbers(told: &[u32], want: &str) -> bool {
    let mut words = want.split(' ');
    for number in told {
        match u32::from_str_radix(words.next().unwrap_or(""), 10) {
            Ok(wanted) if wanted == *number => {}
            _ => return false,
        }
    }
    words.next().is_none()
}
