//! A struct with a sequence of itself: a decoder of an operation's parameters is stored and restored after each octet.

use crate::expecting::expect;
use crate::known::declared;
use crate::wide_tests::has_lines;
use giop_print::{OutFault, Sheet, put_all};
use giop_sig::Catalogue;
use std::process::Abort;

const SIGNATURES: &[u8] =
    br#"signatures 3; struct C; struct C { octet name; sequence<C, 2> children; }; operation void c(in C v); operation void e(in encapsulation<C> v, in octet o);"#;

/// An operation, the octets of its parameters from offset 48 on, and their lines.
static ROWS: [(&str, &str, &str); 2] = [
    (
        "c",
        "01 ee*3 00000002 02 ee*3 00000000 03 ee*3 00000001 04 ee*3 00000000",
        "m1 body.v.name octet 1\nm1 body.v.children count 2\nm1 body.v.children[0].name octet 2\nm1 body.v.children[0].children count 0\nm1 body.v.children[1].name octet 3\nm1 body.v.children[1].children count 1\nm1 body.v.children[1].children[0].name octet 4\nm1 body.v.children[1].children[0].children count 0\n",
    ),
    (
        "e",
        "0000000c 00 07 ee*2 00000000 aabbccdd 05",
        "m1 body.v encapsulation 12\nm1 body.v order big\nm1 body.v.name octet 7\nm1 body.v.children count 0\nm1 body.v rest @0 aabbccdd\nm1 body.o octet 5\n",
    ),
];

#[test]
fn a_struct_has_elements_that_are_such_structs(rt: HostRuntime) {
    match declared(rt.alloc(), SIGNATURES) {
        Some(catalogue) => each_has_its_lines(&rt, &catalogue),
        None => expect(&rt, false, "the signature file"),
    }
}

fn each_has_its_lines(rt: &impl Abort, catalogue: &Catalogue) {
    for (operation, octets, lines) in &ROWS {
        let is_wanted = has_lines(catalogue, operation, 2, octets, lines.as_bytes());
        expect(rt, is_wanted, octets);
    }
}

/// Puts the lines of some generations, of which the last has the line `last` of its children.
fn put_generations(sheet: &mut Sheet, generations: usize, last: &[u8]) -> Result<(), OutFault> {
    for generation in 0..generations {
        put_member(sheet, generation, b".name octet 9\n")?;
        if generation + 1 < generations {
            put_member(sheet, generation, b".children count 1\n")?;
        } else {
            put_member(sheet, generation, last)?;
        }
    }
    Ok(())
}

/// Puts the line of a member of the first child in a generation.
fn put_member(sheet: &mut Sheet, generation: usize, member: &[u8]) -> Result<(), OutFault> {
    put_all(sheet, b"m1 body.v")?;
    for _ in 0..generation {
        put_all(sheet, b".children[0]")?;
    }
    put_all(sheet, member)
}

/// Eleven generations, of which the last has no child, and of which it has one that has no room.
static GENERATIONS: [(&str, &[u8]); 2] = [
    (
        "09 ee*3 00000001 09 ee*3 00000001 09 ee*3 00000001 09 ee*3 00000001 09 ee*3 00000001 09 ee*3 00000001 09 ee*3 00000001 09 ee*3 00000001 09 ee*3 00000001 09 ee*3 00000001 09 ee*3 00000000",
        b".children count 0\n",
    ),
    (
        "09 ee*3 00000001 09 ee*3 00000001 09 ee*3 00000001 09 ee*3 00000001 09 ee*3 00000001 09 ee*3 00000001 09 ee*3 00000001 09 ee*3 00000001 09 ee*3 00000001 09 ee*3 00000001 09 ee*3 00000001",
        b".children count 1\n",
    ),
];

#[test]
fn eleven_generations_have_room(rt: HostRuntime) {
    match declared(rt.alloc(), SIGNATURES) {
        Some(catalogue) => each_is_over(&rt, &catalogue),
        None => expect(&rt, false, "the signature file"),
    }
}

fn each_is_over(rt: &impl Abort, catalogue: &Catalogue) {
    for (octets, last) in &GENERATIONS {
        expect(rt, has_generations(catalogue, octets, last), octets);
    }
}

/// Whether the octets have the lines of eleven generations, of which the last has this line.
fn has_generations(catalogue: &Catalogue, octets: &str, last: &[u8]) -> bool {
    let mut room = [0; 4096];
    let mut sample = Sheet::new(&mut room);
    put_generations(&mut sample, 11, last).is_ok()
        && has_lines(catalogue, "c", 2, octets, sample.held())
}
