//! The tests of messages of the built-in types: what is known of a header, the request id, and the
//! rows of the other files.
ghost use Rattle.giop_message.specs.MessageState.{IsRequestTableOf};

use crate::due::each_row_stops;
use crate::expecting::{expect, expect_same};
use crate::joined::each_is_joined;
use crate::known::{built_in, third};
use crate::raised::each_reply_tells;
use crate::rows::named_rows;
use crate::stored::{each_is_stored, each_row_is_restored};
use giop_cdr::Order;
use giop_message::{Message, kind_of, message_laws, message_reader_laws, minor_of, order_of};
use giop_print::Sheet;
use giop_sig::{Catalogue, Requests};
use std::process::Abort;
use std::test::Fail;

/// A header of a Request of GIOP 1.0.
const REQUEST: &[u8; 12] = b"GIOP\x01\x00\x00\x00\x00\x00\x00\x00";

fn has_number_and_header(catalogue: &Catalogue) -> bool {
    let message = Message::start(catalogue, 7, *REQUEST);
    message.number() == 7 && message.header() == *REQUEST
}

/// What differs in the request id while its octets come. The text is empty if nothing differs.
fn id_differs(catalogue: &Catalogue, requests: &Requests) -> &'static str
    requires of { IsRequestTableOf catalogue.now requests.now }
{
    let mut requests = requests;
    let mut room = [0; 256];
    let mut sheet = Sheet::new(&mut room);
    // A little-endian Reply of GIOP 1.0, with one service context before its request id.
    let header = *b"GIOP\x01\x00\x01\x01\x14\x00\x00\x00";
    let front = b"\x01\x00\x00\x00\x09\x00\x00\x00\x00\x00\x00\x00\x05\x04\x03".as_slice();
    let mut message = Message::start(catalogue, 7, header);
    if message.request_id().is_some() {
        return "the id before any octet";
    }
    if message.take(catalogue, &mut requests, front, 12, &mut sheet) != Ok((15, false)) {
        return "the octets before the last";
    }
    if message.request_id().is_some() {
        return "the id before its last octet";
    }
    if message.take(catalogue, &mut requests, b"\x02", 27, &mut sheet) != Ok((1, false)) {
        return "the last octet";
    }
    if message.request_id() == Some(0x0203_0405) {
        ""
    } else {
        "the id"
    }
}

/// Whether a header has these fields.
fn has(header: &[u8; 12], minor: u8, order: Order, kind: u8) -> bool {
    minor_of(header) == minor && order_of(header) == order && kind_of(header) == kind
}

/// Checks all of this with the built-in types.
fn each(rt: &impl Abort, catalogue: &Catalogue, requests: &Requests)
    requires of { IsRequestTableOf catalogue.now requests.now }
{
    // Bit 1 of the flags is set if more fragments follow.
    let little = b"GIOP\x01\x02\x03\x01\x14\x00\x00\x00";
    expect(
        rt,
        has(little, 2, Order::Little, 1),
        "a little-endian header",
    );
    let big = b"GIOP\x01\x01\x02\x07\x00\x00\x00\x14";
    expect(rt, has(big, 1, Order::Big, 7), "a big-endian header");
    expect(
        rt,
        has_number_and_header(catalogue),
        "a message's number and header",
    );
    expect_same(rt, id_differs(catalogue, requests), "the request id");
    each_row_stops(rt, catalogue);
    each_reply_tells(rt, catalogue);
    each_is_stored(rt, catalogue, requests);
    each_is_joined(rt, catalogue, requests);
}

#[test]
fn messages_are_as_their_rows_say(rt: HostRuntime) -> Result<(), Fail> {
    message_laws();
    message_reader_laws();
    let known = built_in(rt.alloc())?;
    each(&rt, &known.0, &known.1);
    let known = third(rt.alloc())?;
    each_row_is_restored(&rt, &known.0, &known.1, named_rows());
    Ok(())
}
