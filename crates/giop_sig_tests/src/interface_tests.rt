//! Operations by interface: whose an object key is, and which operation has a name there.

use crate::expecting::{expect, expect_of};
use crate::rows::accepted;
use giop_sig::Catalogue;
use std::process::Abort;

/// Two interfaces with operations of one name, and one operation without an interface.
static FILE: &[u8] = b"signatures 3;\n\
    operation void get(in ulonglong id) of \"IDL:Orders:1.0\";\n\
    operation void get(in string article) of \"IDL:Stock:1.0\", \"IDL:Store:1.0\";\n\
    operation void get(); operation void nop();\n\
    key \"6f7264657273\" of \"IDL:Orders:1.0\"; key \"73*\" of \"IDL:Stock:1.0\";\n\
    key \"7374*\" of \"IDL:Store:1.0\"; key \"73\" of \"IDL:Orders:1.0\";";

/// An object key, and the repository id of its interface; none is empty.
static KEYS: [(&[u8], &[u8]); 9] = [
    (b"orders", b"IDL:Orders:1.0"),
    (b"order", b""),
    (b"orders2", b""),
    (b"s", b"IDL:Orders:1.0"),
    (b"sa", b"IDL:Stock:1.0"),
    (b"st", b"IDL:Store:1.0"),
    (b"stock", b"IDL:Store:1.0"),
    (b"", b""),
    (b"S", b""),
];

/// A name, an object key, and the number of the operation.
static OPERATIONS: [(&[u8], &[u8], Option<u32>); 8] = [
    (b"get", b"orders", Some(0)),
    (b"get", b"sa", Some(1)),
    (b"get", b"st", Some(2)),
    (b"get", b"order", Some(3)),
    (b"nop", b"sa", Some(4)),
    (b"nop", b"order", Some(4)),
    (b"no", b"orders", None),
    (b"\0\0get", b"order", None),
];

#[test]
fn a_key_an_id_and_a_name_find_their_interface_and_operation(rt: HostRuntime) {
    match accepted(rt.alloc(), FILE) {
        Some(catalogue) => all_are_found(&rt, &catalogue),
        None => expect(&rt, false, "the file"),
    }
}

fn all_are_found(rt: &impl Abort, catalogue: &Catalogue) {
    keys_are_found(rt, catalogue);
    operations_are_found(rt, catalogue);
    ids_are_found(rt, catalogue);
}

fn keys_are_found(rt: &impl Abort, catalogue: &Catalogue) {
    for (key, id) in &KEYS {
        expect_of(rt, is_of(catalogue, key, id), key);
    }
    expect(
        rt,
        is_of(catalogue, &[b's'; 128], b"IDL:Stock:1.0"),
        "128 octets",
    );
    expect(rt, is_of(catalogue, &[b's'; 129], b""), "129 octets");
}

/// Whether the interface of an object key has this repository id; none if that is empty.
fn is_of(catalogue: &Catalogue, key: &[u8], id: &[u8]) -> bool {
    match catalogue.interface(key) {
        None => id.is_empty(),
        Some(interface) => catalogue.interface_name(interface) == id,
    }
}

/// The repository id of an interface, and its number.
static INTERFACES: [(&[u8], Option<u32>); 4] = [
    (b"IDL:Orders:1.0", Some(0)),
    (b"IDL:Stock:1.0", Some(1)),
    (b"IDL:Store:1.0", Some(2)),
    (b"orders", None),
];

fn ids_are_found(rt: &impl Abort, catalogue: &Catalogue) {
    for (id, number) in &INTERFACES {
        expect_of(rt, is_interface(catalogue, id, *number), id);
    }
    expect(
        rt,
        is_interface(catalogue, &[b's'; 129], None),
        "an id of 129 octets",
    );
}

fn is_interface(catalogue: &Catalogue, id: &[u8], want: Option<u32>) -> bool {
    match catalogue.named_interface(id) {
        None => want.is_none(),
        Some(interface) => want == Some(interface.0),
    }
}

fn operations_are_found(rt: &impl Abort, catalogue: &Catalogue) {
    for (name, key, number) in &OPERATIONS {
        expect_of(rt, is_operation(catalogue, name, key, *number), key);
    }
}

fn is_operation(catalogue: &Catalogue, name: &[u8], key: &[u8], want: Option<u32>) -> bool {
    match catalogue.operation_for(name, catalogue.interface(key)) {
        None => want.is_none(),
        Some(operation) => want == Some(operation.0),
    }
}
