//! Parameters of which a Fragment of GIOP 1.1 has the last octets: a decoder is stored and restored after each octet.
ghost use Rattle.giop_decode.specs.DecoderState.{Fits};

use crate::expecting::expect;
use crate::key_tests::again;
use crate::known::declared;
use crate::stored_tests::parameters_of;
use giop_cdr::Order;
use giop_decode::{Decoder, Progress};
use giop_print::{Root, Sheet};
use giop_sig::Catalogue;
use giop_testing::spelled;
use std::process::Abort;

const SIGNATURES: &[u8] =
    br#"signatures 3; operation void n(in ulonglong n); operation void un(in ulong u, in ulonglong n); operation void on(in octet o, in ulonglong n); operation void a(in any v);"#;

/// An operation, the offset of its parameters, how many of their octets stand in front of the Fragment, the octets, and
/// their lines.
static ROWS: [(&str, u64, usize, &str, &str); 4] = [
    // Octets that are held stay held.
    (
        "n",
        48,
        4,
        "01020304 05060708",
        "m1 body.n ulonglong 72623859790382856\n",
    ),
    // The Fragment's payload begins at 12, with 4 octets of padding.
    (
        "un",
        44,
        4,
        "00000007 ffffffff 0102030405060708",
        "m1 body.u ulong 7\nm1 body.n ulonglong 72623859790382856\n",
    ),
    // Padding goes on in the Fragment.
    (
        "on",
        44,
        2,
        "07 ee ffffffff 0102030405060708",
        "m1 body.o octet 7\nm1 body.n ulonglong 72623859790382856\n",
    ),
    // Inside an encapsulation it is counted from that, and after it from the Fragment.
    (
        "a",
        48,
        10,
        "00000013 0000000c 00 ee ee*2 00000005 00000000 ee*2 00000001 00000009",
        "m1 body.v.type.kind enum tk_sequence\nm1 body.v.type.parameters encapsulation 12\nm1 body.v.type.parameters order big\nm1 body.v.type.parameters.element.kind enum tk_ulong\nm1 body.v.type.parameters.bound ulong 0\nm1 body.v.value count 1\nm1 body.v.value[0] ulong 9\n",
    ),
];

/// How many octets of an operation's parameters were taken when these were over, if a Fragment begins after the first of
/// them.
fn taken_in_pieces(
    catalogue: &Catalogue,
    operation: &str,
    offset: u64,
    first: usize,
    octets: &[u8],
    out: &mut Sheet,
) -> Option<usize> {
    let of = parameters_of(catalogue, operation)?;
    if !catalogue.has(of) {
        return None;
    }
    let mut decoder = Decoder::start(catalogue, of, Order::Big, offset, 1, Root::Body, 1);
    if decoder.is_done() {
        return None;
    }
    for taken in 0..octets.len() {
        if taken == first {
            decoder.seam();
        }
        match decoder.take(catalogue, octets[taken], out) {
            Ok(Progress::More) => decoder = again(catalogue, &decoder, 1)?,
            Ok(Progress::Done) => return Some(taken + 1),
            _ => return None,
        }
    }
    None
}

#[test]
fn a_fragment_is_aligned_from_its_own_first_octet(rt: HostRuntime) {
    match declared(rt.alloc(), SIGNATURES) {
        Some(catalogue) => each_has_its_lines(&rt, &catalogue),
        None => expect(&rt, false, "the signature file"),
    }
}

fn each_has_its_lines(rt: &impl Abort, catalogue: &Catalogue) {
    for (operation, offset, first, octets, lines) in &ROWS {
        let is_wanted = has_lines(catalogue, operation, *offset, *first, octets, lines);
        expect(rt, is_wanted, octets);
    }
}

/// Whether an operation's parameters are over at the last of these octets, and have these lines.
fn has_lines(
    catalogue: &Catalogue,
    operation: &str,
    offset: u64,
    first: usize,
    octets: &str,
    lines: &str,
) -> bool {
    let mut room = [0; 64];
    let spelled = spelled(octets, &mut room);
    let mut room = [0; 1024];
    let mut sheet = Sheet::new(&mut room);
    let taken = taken_in_pieces(catalogue, operation, offset, first, spelled, &mut sheet);
    taken == Some(spelled.len()) && sheet.held() == lines.as_bytes()
}
