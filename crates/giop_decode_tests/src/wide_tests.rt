//! Wide text in messages of 1.2, and anys of it in those of 1.0 and 1.1: a decoder of an operation's parameters is stored
//! and restored after each octet.
ghost use Rattle.std.specs.Prelude.{IfSome};
ghost use Rattle.giop_decode.specs.DecoderState.{Fits};

use crate::expecting::expect;
use crate::key_tests::again;
use crate::known::declared;
use crate::stored_tests::parameters_of;
use giop_cdr::Order;
use giop_decode::{Decoder, Progress};
use giop_print::{Root, Sheet};
use giop_sig::Catalogue;
use giop_testing::spelled;
use std::process::Abort;

const SIGNATURES: &[u8] =
    br#"signatures 3; struct W "W" { wstring x; }; operation void c(in wchar v); operation void s(in wstring v); operation void m(in octet o, in wchar v, in ushort u); operation void a(in any v);"#;

/// An operation, the minor version of its message, the octets of its parameters from offset 48 on up to the last that has
/// a type, and their lines.
static ROWS: [(&str, u8, &str, &str); 14] = [
    ("c", 2, "04 feff0047", "m1 body.v wchar @0 feff0047\n"),
    ("c", 2, "00", "m1 body.v wchar @0\n"),
    (
        "c",
        2,
        "21 11*33",
        "m1 body.v wchar @0 1111111111111111111111111111111111111111111111111111111111111111 more\nm1 body.v wchar @32 11\n",
    ),
    ("s", 2, "00000003 414243", "m1 body.v wstring @0 414243\n"),
    ("s", 2, "00000000", "m1 body.v wstring @0\n"),
    (
        "s",
        2,
        "00000021 00*33",
        "m1 body.v wstring @0 0000000000000000000000000000000000000000000000000000000000000000 more\nm1 body.v wstring @32 00\n",
    ),
    (
        "m",
        2,
        "01 01 47 ee 0007",
        "m1 body.o octet 1\nm1 body.v wchar @0 47\nm1 body.u ushort 7\n",
    ),
    (
        "a",
        2,
        "0000001a 02 0047",
        "m1 body.v.type.kind enum tk_wchar\nm1 body.v.value wchar @0 0047\n",
    ),
    (
        "a",
        2,
        "0000001b 00000002 00000004 00410042",
        "m1 body.v.type.kind enum tk_wstring\nm1 body.v.type.bound ulong 2\nm1 body.v.value wstring @0 00410042\n",
    ),
    // A struct, and a sequence.
    (
        "a",
        2,
        "0000000f 00000028 00 ee*3 00000002 5700 ee*2 00000002 5700 ee*2 00000001 00000002 7800 ee*2 0000001b 00000000 00000002 0047",
        "m1 body.v.type.kind enum tk_struct\nm1 body.v.type.parameters encapsulation 40\nm1 body.v.type.parameters order big\nm1 body.v.type.parameters.id string @0 \"W\"\nm1 body.v.type.parameters.name string @0 \"W\"\nm1 body.v.type.parameters.members count 1\nm1 body.v.type.parameters.members[0].name string @0 \"x\"\nm1 body.v.type.parameters.members[0].type.kind enum tk_wstring\nm1 body.v.type.parameters.members[0].type.bound ulong 0\nm1 body.v.value.x wstring @0 0047\n",
    ),
    // What has no room ends the value.
    ("a", 1, "0000001a", "m1 body.v.type.kind enum tk_wchar\n"),
    (
        "a",
        0,
        "0000001b 00000000",
        "m1 body.v.type.kind enum tk_wstring\nm1 body.v.type.bound ulong 0\n",
    ),
    (
        "a",
        1,
        "0000000f 00000028 00 ee*3 00000002 5700 ee*2 00000002 5700 ee*2 00000001 00000002 7800 ee*2 0000001b 00000000",
        "m1 body.v.type.kind enum tk_struct\nm1 body.v.type.parameters encapsulation 40\nm1 body.v.type.parameters order big\nm1 body.v.type.parameters.id string @0 \"W\"\nm1 body.v.type.parameters.name string @0 \"W\"\nm1 body.v.type.parameters.members count 1\nm1 body.v.type.parameters.members[0].name string @0 \"x\"\nm1 body.v.type.parameters.members[0].type.kind enum tk_wstring\nm1 body.v.type.parameters.members[0].type.bound ulong 0\n",
    ),
    (
        "a",
        1,
        "00000013 00000010 00 ee*3 0000001b 00000000 00000000",
        "m1 body.v.type.kind enum tk_sequence\nm1 body.v.type.parameters encapsulation 16\nm1 body.v.type.parameters order big\nm1 body.v.type.parameters.element.kind enum tk_wstring\nm1 body.v.type.parameters.element.bound ulong 0\nm1 body.v.type.parameters.bound ulong 0\n",
    ),
];

/// How many octets of an operation's parameters were taken when these were over.
fn taken_by_one(
    catalogue: &Catalogue,
    operation: &str,
    minor: u8,
    octets: &[u8],
    out: &mut Sheet,
) -> Option<usize> {
    let of = parameters_of(catalogue, operation)?;
    if !catalogue.has(of) {
        return None;
    }
    let mut decoder = Decoder::start(catalogue, of, Order::Big, 48, 1, Root::Body, minor);
    if decoder.is_done() {
        return None;
    }
    for taken in 0..octets.len() {
        match decoder.take(catalogue, octets[taken], out) {
            Ok(Progress::More) => decoder = again(catalogue, &decoder, minor)?,
            Ok(Progress::Done) => return Some(taken + 1),
            _ => return None,
        }
    }
    None
}

#[test]
fn wide_text_is_octets_in_messages_of_1_2_alone(rt: HostRuntime) {
    match declared(rt.alloc(), SIGNATURES) {
        Some(catalogue) => each_has_its_lines(&rt, &catalogue),
        None => expect(&rt, false, "the signature file"),
    }
}

fn each_has_its_lines(rt: &impl Abort, catalogue: &Catalogue) {
    for (operation, minor, octets, lines) in &ROWS {
        let is_wanted = has_lines(catalogue, operation, *minor, octets, lines.as_bytes());
        expect(rt, is_wanted, octets);
    }
}

/// Whether an operation's parameters are over at the last of these octets, and have these lines.
pub fn has_lines(
    catalogue: &Catalogue,
    operation: &str,
    minor: u8,
    octets: &str,
    lines: &[u8],
) -> bool {
    let mut room = [0; 256];
    let spelled = spelled(octets, &mut room);
    let mut room = [0; 4096];
    let mut sheet = Sheet::new(&mut room);
    let taken = taken_by_one(catalogue, operation, minor, spelled, &mut sheet);
    taken == Some(spelled.len()) && sheet.held() == lines
}
