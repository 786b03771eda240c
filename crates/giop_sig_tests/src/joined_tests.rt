//! Files that are read as one text.

use crate::expecting::expect;
use giop_sig_files::{SignatureText, declared_above, joined, place};
use std::alloc::{AllocError, Global};
use std::process::Abort;

/// Files, and the text that they are read as.
static JOINED: [(&[&str], &str); 13] = [
    (&["signatures 1;"], "signatures 1;"),
    (&["signatures 1;\n"], "signatures 1;\n"),
    (&[""], ""),
    (&["", ""], "\n"),
    (
        &[
            "signatures 1;\noperation void f();\n",
            "signatures 1;\noperation void g();\n",
        ],
        "signatures 1;\noperation void f();\n\n\noperation void g();\n",
    ),
    (
        &[
            "signatures 1;\noperation void f();",
            "// Ours.\nsignatures 1;\noperation void f();\noperation void g();",
        ],
        "signatures 1;\noperation void f();\n// Ours.\n\n\noperation void g();",
    ),
    // Another version stays, and so does a name that is declared in another way.
    (
        &[
            "signatures 1;\noperation void f();\n",
            "signatures 2;\noperation long f();\n",
        ],
        "signatures 1;\noperation void f();\n\nsignatures 2;\noperation long f();\n",
    ),
    // A declaration of several lines is one block.
    (
        &[
            "signatures 1;\nstruct A {\n  long x;\n};\n",
            "signatures 1;\nstruct B {\n  long x;\n};\nstruct A {\n  long x;\n};\n",
        ],
        "signatures 1;\nstruct A {\n  long x;\n};\n\n\nstruct B {\n  long x;\n};\n\n\n\n",
    ),
    (
        &[
            "signatures 1;\nstruct A {\nlong x;\n};\n",
            "signatures 1;\nstruct A {\nlong x;\n};\nstruct A {\nlong y;\n};\n",
        ],
        "signatures 1;\nstruct A {\nlong x;\n};\n\n\n\n\n\nstruct A {\nlong y;\n};\n",
    ),
    (
        &[
            "operation void f(in long a,\n    in long b);\n",
            "operation void f(in long a,\n    in long b);\n",
        ],
        "operation void f(in long a,\n    in long b);\n\n\n\n",
    ),
    // So is a key of several lines.
    (
        &[
            "key \"61*\" of \"A\";\n",
            "key \"62\"\n    of \"B\";\nkey \"61*\" of \"A\";\n",
        ],
        "key \"61*\" of \"A\";\n\nkey \"62\"\n    of \"B\";\n\n",
    ),
    // What stands twice in one file stays twice.
    (
        &[
            "operation void f();\noperation void f();",
            "operation void g();\noperation void g();",
        ],
        "operation void f();\noperation void f();\noperation void g();\noperation void g();",
    ),
    // What is no declaration stays, and so does a declaration with spaces before it.
    (
        &[
            "  enum E { a };\nenum E { a };  \n};",
            "  enum E { a };\nenum E { a };\n};\noperation void f();\n",
        ],
        "  enum E { a };\nenum E { a };  \n};\n  enum E { a };\nenum E { a };\n};\noperation void f();\n",
    ),
];

/// Lines of a text, and the earlier lines that declare the same name.
static ABOVE: [(&str, u32, Option<u32>); 12] = [
    (
        "operation void f();\noperation long f(in long a);",
        2,
        Some(1),
    ),
    ("operation void f();\noperation long f(in long a);", 1, None),
    (
        "operation sequence<long, 3> f();\noperation void f(in A f);",
        2,
        Some(1),
    ),
    ("operation void f();\noperation long g();", 2, None),
    ("struct f { long x; };\noperation long f();", 2, None),
    ("struct A { long x; };\n\nenum A { x };", 3, Some(1)),
    ("key \"61\" of \"A\";\nkey \"61\" of \"B\";", 2, Some(1)),
    (
        "exception A \"IDL:A:1.0\" { };\nunion A switch(long) {\n};",
        2,
        Some(1),
    ),
    ("enum A {\n  x,\n  x\n};", 3, None),
    ("enum A { x };\nenum A { y };\nenum A { z };", 3, Some(1)),
    ("", 1, None),
    ("operation void f();", 9, None),
];

/// Files of these texts, each with its text as its name.
fn files_of<'a>(alloc: Global, texts: &[&'a str]) -> Result<Vec<SignatureText<'a>>, AllocError> {
    let mut files = Vec::new(alloc);
    for text in texts {
        files.push(SignatureText {
            name: text,
            text: Vec::from_slice(alloc, text.as_bytes())?,
        })?;
    }
    Ok(files)
}

fn are_read_as(alloc: Global, texts: &[&str], want: &str) -> bool {
    match files_of(alloc, texts) {
        Ok(files) => is_joined(alloc, &files, want),
        Err(_) => false,
    }
}

fn is_joined(alloc: Global, files: &[SignatureText<'_>], want: &str) -> bool {
    match joined(alloc, files) {
        Ok(text) => text.as_slice() == want.as_bytes(),
        Err(_) => false,
    }
}

#[test]
fn files_are_read_as_one(rt: HostRuntime) {
    for (texts, want) in &JOINED {
        expect(&rt, are_read_as(rt.alloc(), *texts, want), want);
    }
}

/// A line of the text that three files are read as, its file, and its line there.
static PLACES: [(u32, &str, u32); 6] = [
    (1, "signatures 1;\n\n", 1),
    (3, "signatures 1;\n\n", 3),
    (4, "signatures 1;", 1),
    (5, "x\ny\n", 1),
    (7, "x\ny\n", 3),
    (9, "x\ny\n", 5),
];

fn is_placed(files: &[SignatureText], line: u32, name: &str, want: u32) -> bool {
    match files.split_first() {
        Some((first, others)) => {
            let (file, found) = place(first, others, line);
            file.name == name && found == want
        }
        None => false,
    }
}

#[test]
fn a_line_is_found_in_its_file(rt: HostRuntime) {
    match files_of(
        rt.alloc(),
        &["signatures 1;\n\n", "signatures 1;", "x\ny\n"],
    ) {
        Ok(files) => are_placed(&rt, &files),
        Err(_) => expect(&rt, false, "the files"),
    }
}

fn are_placed(rt: &impl Abort, files: &[SignatureText<'_>]) {
    for (line, name, want) in &PLACES {
        expect(rt, is_placed(files, *line, name, *want), name);
    }
}

#[test]
fn a_name_is_found_above(rt: HostRuntime) {
    for (text, line, want) in &ABOVE {
        let is_found = declared_above(text.as_bytes(), *line) == *want;
        expect(&rt, is_found, text);
    }
}
