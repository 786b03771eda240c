//! Whose the object keys of Requests are, by the KEYs of a signature file: a decoder of the header is stored and restored
//! after each octet.
ghost use Rattle.std.specs.Prelude.{IfSome};
ghost use Rattle.giop_decode.specs.DecoderState.{Fits};

use crate::expecting::expect;
use crate::known::declared;
use giop_cdr::Order;
use giop_decode::{Decoder, Progress};
use giop_print::{Root, Sheet};
use giop_sig::Catalogue;
use giop_testing::spelled;
use std::process::Abort;

const SIGNATURES: &[u8] =
    br#"signatures 3; key "6f7264657273" of "IDL:Orders:1.0"; key "73*" of "IDL:Stock:1.0";"#;

/// The minor version, the header's octets from offset 12 on up to the object key, which may come in pieces, and the key's
/// interface.
static ROWS: [(u8, &str, &str); 8] = [
    (
        0,
        "00000000 00000007 01 ee*3 00000006 6f7264657273",
        "IDL:Orders:1.0",
    ),
    (
        1,
        "00000000 00000007 01 ee*3 00000005 73746f636b",
        "IDL:Stock:1.0",
    ),
    (
        2,
        "00000007 03 ee*3 0000 ee*2 00000006 6f7264657273",
        "IDL:Orders:1.0",
    ),
    // Its front is a KEY with * alone.
    (0, "00000000 00000007 01 ee*3 00000007 6f726465727332", "-"),
    // In four pieces, and one octet too long.
    (
        0,
        "00000000 00000007 01 ee*3 00000080 73*128",
        "IDL:Stock:1.0",
    ),
    (0, "00000000 00000007 01 ee*3 00000081 73*129", "-"),
    (2, "00000007 03 ee*3 0000 ee*2 00000000", "-"),
    // The key in a profile of the target.
    (
        2,
        "00000007 03 ee*3 0001 ee*2 00000000 0000001a 00 010200 ee*0 00000002 6100 0af9 00000006 6f7264657273",
        "-",
    ),
];

/// The decoder that is restored of what is stored of this one, of a message of this minor version; none of one with more
/// or less room for wide text is.
pub fn again(catalogue: &Catalogue, decoder: &Decoder, minor: u8) -> Option<Decoder>
    ensures { IfSome result (λ d. Fits catalogue.now d) }
{
    let mut fixed = [0; 208];
    let mut frames = [0; 576];
    let count = usize::from(decoder.store(&mut fixed, &mut frames));
    let frames = frames.get(..24 * count)?;
    let other = if minor < 2 { 2 } else { 1 };
    if Decoder::restore(catalogue, &fixed, frames, other).is_some() {
        return None;
    }
    Decoder::restore(catalogue, &fixed, frames, minor)
}

/// The interface of the object key in a Request's header of this minor version that begins with these octets.
fn interface_of<'a>(catalogue: &'a Catalogue, minor: u8, octets: &[u8]) -> Option<&'a [u8]> {
    let of = catalogue.header(minor, 0)?;
    let mut decoder = Decoder::start(catalogue, of, Order::Big, 12, 1, Root::Header, minor);
    decoder = again(catalogue, &decoder, minor)?;
    let mut room = [0; 1024];
    let mut sheet = Sheet::new(&mut room);
    for octet in octets {
        match decoder.take(catalogue, *octet, &mut sheet) {
            Ok(Progress::More) => decoder = again(catalogue, &decoder, minor)?,
            _ => return None,
        }
    }
    Some(catalogue.interface_name(decoder.interface(catalogue)?))
}

#[test]
fn an_object_key_has_the_interface_of_its_key(rt: HostRuntime) {
    match declared(rt.alloc(), SIGNATURES) {
        Some(catalogue) => each_has_its_interface(&rt, &catalogue),
        None => expect(&rt, false, "the signature file"),
    }
}

fn each_has_its_interface(rt: &impl Abort, catalogue: &Catalogue) {
    for (minor, octets, wanted) in &ROWS {
        expect(rt, has_interface(catalogue, *minor, octets, wanted), octets);
    }
}

/// Whether this is the interface of the object key in a header; none if it is `-`.
fn has_interface(catalogue: &Catalogue, minor: u8, octets: &str, wanted: &str) -> bool {
    let mut room = [0; 256];
    let interface = interface_of(catalogue, minor, spelled(octets, &mut room));
    interface.unwrap_or(b"-") == wanted.as_bytes()
}
