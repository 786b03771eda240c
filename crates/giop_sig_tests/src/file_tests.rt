//! Signature files: those that are accepted, those that are refused, and what an accepted one declares.

use crate::expecting::{expect, expect_same};
use crate::rows::{accepted, file_differs, row_of};
use crate::types::expect_rows;
use crate::{file_rows, third_rows, version_rows};
use std::process::Abort;

#[test]
fn a_file_is_accepted_or_its_broken_rule_is_named_with_its_line(rt: HostRuntime) {
    are_told(&rt, false, file_rows::ACCEPTED);
    are_told(&rt, false, file_rows::REFUSED);
    are_told(&rt, false, version_rows::ACCEPTED);
    are_told(&rt, false, version_rows::REFUSED);
}

#[test]
fn a_file_may_have_version_3_where_that_is_asked_for(rt: HostRuntime) {
    are_told(&rt, true, third_rows::ACCEPTED);
    are_told(&rt, true, third_rows::REFUSED);
    are_told(&rt, true, file_rows::ACCEPTED);
    are_told(&rt, true, file_rows::REFUSED);
    are_told(&rt, true, version_rows::ACCEPTED);
}

/// Compares what is told of each file of a table, where files may have version 3 or may not.
fn are_told(rt: &(impl Abort + AllocGlobal), third: bool, rows: &[u8]) {
    for row in rows.split(|octet| *octet == b'=') {
        let (want, text) = row_of(row);
        let differs = file_differs(rt.alloc(), third, text, want);
        expect_same(rt, differs, want, text);
    }
}

// A union, an enum, a struct, an array and a sequence.
static MARK: &[u8] = b"signatures 1;\n\
    enum Hue { red, green }; struct Dot { Hue hue; short spot[2]; };\n\
    union Mark switch (Hue) { case red: Dot dot; default: octet code; };\n\
    operation void add(in Mark m, in sequence<ushort,3> s);";

/// Its version, and what its operation has.
static MARKED: &str = "\
version|1
request add|m union, s sequence of at most 3
reply add|
request add/0|dot struct, code octet
request add/0/switch|enum red green
unsigned 0 request add/0|case 0
unsigned 1 request add/0|case 1
request add/0/0|hue enum red green, spot array of 2";

// An exception and two operations.
static ASK: &[u8] = b"signatures 1;\n\
    exception Late \"IDL:Late:1.0\" { ushort by; };\n\
    operation long ask(in long a, out octet b); operation void nop();";

/// What they have, and which names, of up to 129 octets, are found.
static ASKED: &str = "\
request ask|a long
reply ask|return long, b octet
request nop|
reply nop|
operation ask|0
operation nop|1
operation as|none
operation aaaaaaaaaaaaaaaaaaaaaaaaaaaaaaaaaaaaaaaaaaaaaaaaaaaaaaaaaaaaaaaaaaaaaaaaaaaaaaaaaaaaaaaaaaaaaaaaaaaaaaaaaaaaaaaaaaaaaaaaaaaaaaaaa|none
exception IDL:Late:1.0|by ushort
exception IDL:Lost:1.0|none";

// Encapsulations of a struct and of an octet, and a sequence of such.
static HELD: &[u8] = b"signatures 2; struct P { octet a; ulonglong b; };\n\
    operation void enc(in encapsulation<P> e, in encapsulation<octet> o,\n\
      in sequence<encapsulation<octet>> s);";

/// The version, and what they hold.
static HOLDS: &str = "\
version|2
request enc|e encapsulation, o encapsulation, s sequence
request enc/0/0|a octet, b ulonglong
request enc/1/0|octet
request enc/2/0|encapsulation";

// A wide character, a wide string, a struct with one, an any and a number.
static WIDE: &[u8] = b"signatures 3; struct W { long a; wstring<2> b; };\n\
    operation wchar put(in wchar c, in wstring s, in sequence<W> w, in any a, in long l);";

/// The version, and what has wide text.
static WIDER: &str = "\
version|3
request put|c wide char, s wide string, w wide sequence, a led, l long
request put/2/0|a long, b wide string
reply put|return wide char
minor 1 request put/1|none
minor 2 request put/1|room
minor 1 request put/2|none
minor 1 request put/4|room";

// Arrays of arrays, as a member and as parameters.
static GRID: &[u8] = b"signatures 3; struct G { double m[2][3]; octet v; };\n\
    operation void put(in G g, inout string s[3][2], in short a[2]);";

/// What they are of, row by row.
static ROWS: &str = "\
request put|g struct, s array of 3, a array of 2
reply put|s array of 3
request put/0|m array of 2, v octet
request put/0/0/0|array of 3
request put/0/0/0/0|double
request put/1/0|array of 2
request put/1/0/0|string
request put/2/0|short";

// A struct of itself by a sequence, and a union that is announced and declared later.
static TREE: &[u8] = b"signatures 3; struct C; union U;\n\
    struct C { octet name; sequence<C> children; };\n\
    operation void put(in C c, in sequence<U,3> u, in sequence<C> s);\n\
    union U switch (long) { case 1: wstring a; };";

/// The elements of both sequences, and in how much room these are: as much as the elements are deep.
static GENERATIONS: &str = "\
request put|c struct, u recursive sequence of at most 3, s sequence
request put/0|name octet, children recursive sequence
request put/0/1/0|name octet, children recursive sequence
request put/0/1/0/1/0/0|octet
request put/1/0|a wide string
request put/2/0|name octet, children recursive sequence
left 2 request put/0/1|none
left 3 request put/0/1|room
left 1 request put/1|none
left 2 request put/1|room
left 0 request put/2|room";

#[test]
fn a_file_declares_its_types_and_operations(rt: HostRuntime) {
    declares(&rt, MARK, MARKED);
    declares(&rt, ASK, ASKED);
    declares(&rt, HELD, HOLDS);
    declares(&rt, WIDE, WIDER);
    declares(&rt, GRID, ROWS);
    declares(&rt, TREE, GENERATIONS);
}

/// Expects of the catalogue of a file what the rows say.
pub fn declares(rt: &(impl Abort + AllocGlobal), text: &[u8], rows: &str) {
    match accepted(rt.alloc(), text) {
        Some(catalogue) => expect_rows(rt, &catalogue, rows),
        None => expect(rt, false, rows),
    }
}
