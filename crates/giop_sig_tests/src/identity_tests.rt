//! Repository ids of types: which type has an id.

use crate::expecting::{expect, expect_of};
use crate::rows::accepted;
use giop_sig::{Catalogue, Shape};
use std::process::Abort;

/// A type of each kind that can have a repository id, one that has none, and an exception.
static FILE: &[u8] = b"signatures 3;\n\
    enum Colour \"IDL:Colour:1.0\" { red, green };\n\
    struct Plain { long a; };\n\
    struct Pair \"IDL:Pair:1.0\" { Plain a; Colour b; };\n\
    union Choice \"IDL:Choice:1.0\" switch (Colour) { case red: Pair p; };\n\
    struct One \"IDL:One:1.1\" { long a; };\n\
    exception Lost \"IDL:Lost:1.0\" { };";

/// A repository id, and the outermost form of its type.
static IDS: [(&[u8], Option<Shape>); 9] = [
    (b"IDL:Colour:1.0", Some(Shape::Enumeration(2))),
    (b"IDL:Pair:1.0", Some(Shape::Members(2))),
    (b"IDL:Choice:1.0", Some(Shape::Union(1))),
    (b"IDL:One:1.1", Some(Shape::Members(1))),
    (b"IDL:One:1.0", None),
    (b"IDL:Lost:1.0", None),
    (b"IDL:Pair:1.", None),
    (b"IDL:Pair:1.00", None),
    (b"", None),
];

#[test]
fn a_repository_id_finds_its_type(rt: HostRuntime) {
    match accepted(rt.alloc(), FILE) {
        Some(catalogue) => types_are_found(&rt, &catalogue),
        None => expect(&rt, false, "the file"),
    }
}

fn types_are_found(rt: &impl Abort, catalogue: &Catalogue) {
    for (id, shape) in &IDS {
        expect_of(rt, is_found(catalogue, id, *shape), id);
    }
    expect(
        rt,
        catalogue.identified(&[b'I'; 129]).is_none(),
        "129 octets",
    );
}

fn is_found(catalogue: &Catalogue, id: &[u8], want: Option<Shape>) -> bool {
    match catalogue.identified(id) {
        None => want.is_none(),
        Some(t) => want == Some(catalogue.shape(t)),
    }
}
