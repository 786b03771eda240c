//! How what stands on the command line is shown (docs/FORMATS.md, The program).

use crate::expecting::expect;
use giop_run::{ShownName, words_with_stand_ins};
use std::alloc::Global;
use std::fmt::Display;

/// Names and how they are shown.
static NAMES: [(&str, &str); 6] = [
    ("", ""),
    (" az~\\x1b", " az~\\x1b"),
    ("\u{1b}[2J\n", "\\x1b[2J\\x0a"),
    ("\u{1f}\u{7f}", "\\x1f\\x7f"),
    ("\u{e9}", "\\xc3\\xa9"),
    ("\u{1f980}", "\\xf0\\x9f\\xa6\\x80"),
];

/// Words without and with line feeds, and how they are marked.
static WORDS: [(&str, &str); 3] = [
    ("--open=1\n", "--open=1\0"),
    ("\n\u{e9}\r\n", "\0\u{e9}\r\0"),
    ("", ""),
];

/// Whether this is how something is shown.
pub fn shows<T: Display + Copy>(alloc: Global, shown: T, wanted: &str) -> bool {
    match format!(in alloc; "{shown}") {
        Ok(text) => text.as_str() == wanted,
        Err(_) => false,
    }
}

/// Whether this is how a word is marked.
fn is_marked(alloc: Global, word: &str, wanted: &str) -> bool {
    let Ok(word) = String::from_str(alloc, word) else {
        return false;
    };
    match words_with_stand_ins(alloc, &[word]) {
        Ok(found) => found.len() == 1 && found[0].as_str() == wanted,
        Err(_) => false,
    }
}

#[test]
fn octets_that_cannot_be_printed_are_escaped_and_line_feeds_marked(rt: HostRuntime) {
    for (name, wanted) in &NAMES {
        expect(&rt, shows(rt.alloc(), ShownName(name), wanted), wanted);
    }
    for (word, wanted) in &WORDS {
        expect(&rt, is_marked(rt.alloc(), word, wanted), wanted);
    }
}
