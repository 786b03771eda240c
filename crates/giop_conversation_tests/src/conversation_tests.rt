//! All connections of a capture, and what happens in their flows.

ghost use Rattle.giop_stream.specs.EngineHolds.{IsRequestTableOf};

use crate::expecting::{expect, expect_at};
use crate::known::declared;
use giop_conversation::{Conversations, Limits, events_lead_to_one_text};
use giop_print::{OutFault, Sheet};
use giop_sig::{Catalogue, Requests};
use std::alloc::Global;
use std::process::Abort;
use tcp_flow::{CloseCause, Start};
use tcp_segment::{Address, Endpoint, Flow};
use tcp_waiting::Arrival;

/// The number of nanoseconds in a second.
const SECOND: u128 = 1_000_000_000;

const CLIENT: Endpoint = Endpoint {
    address: Address::V4([10, 0, 0, 1]),
    port: 1000,
};

const SERVER: Endpoint = Endpoint {
    address: Address::V4([10, 0, 0, 2]),
    port: 2809,
};

/// The flow from the client to the server.
const ASKING: Flow = Flow {
    from: CLIENT,
    to: SERVER,
};

/// The flow back.
const ANSWERING: Flow = Flow {
    from: SERVER,
    to: CLIENT,
};

/// A Request of GIOP 1.0 with the id 7, for the operation `one`.
const REQUEST: [u8; 44] = [
    0x47, 0x49, 0x4f, 0x50, 1, 0, 0, 0, 0, 0, 0, 32, 0, 0, 0, 0, 0, 0, 0, 7, 1, 0, 0, 0, 0, 0, 0,
    2, 0x6b, 0x31, 0, 0, 0, 0, 0, 4, 0x6f, 0x6e, 0x65, 0, 0, 0, 0, 0,
];

/// The Reply to it. It ends with its header.
const REPLY: [u8; 24] = [
    0x47, 0x49, 0x4f, 0x50, 1, 0, 0, 1, 0, 0, 0, 12, 0, 0, 0, 0, 0, 0, 0, 7, 0, 0, 0, 0,
];

fn signatures() -> &'static [u8] {
    b"signatures 1; operation long nop(); operation void one();"
}

const LIMITS: Limits = Limits {
    connections: 1,
    messages: 2,
    calls: 2,
    first_stream: 1,
};

static LINES: &[u8] = b"s1 stream 10.0.0.1:1000 > 10.0.0.2:2809 at 1970-01-01T00:00:01.000000000Z
s1 m1 start 1.0 big Request size 32
s1 m1 time 1970-01-01T00:00:01.000000000Z packet 1
s1 m1 header.service_contexts count 0
s1 m1 header.request_id ulong 7
s1 m1 header.response_expected boolean true
s1 m1 header.object_key octets @0 6b31
s1 m1 header.operation string @0 \"one\"
s1 m1 call 7 one
s1 m1 header.requesting_principal octets @0
s1 m1 end
s2 stream 10.0.0.2:2809 > 10.0.0.1:1000 at 1970-01-01T00:00:02.000000000Z with s1 behind 9 found
s2 m1 start 1.0 big Reply size 12
s2 m1 time 1970-01-01T00:00:02.000000000Z packet 2
s2 m1 header.service_contexts count 0
s2 m1 header.request_id ulong 7
s2 m1 header.reply_status enum NO_EXCEPTION
s2 m1 end
s2 m1 answers s1 m1 one after 1.000000000
s1 closed end
s1 total messages 1 faults 0 octets 44
s2 closed end
s2 total messages 1 faults 0 octets 24
total streams 2 messages 2 faults 0 packets 2 octets 204 other 1
";

/// What happens in a capture. The number is the id of a flow.
#[derive(Clone, Copy)]
enum Happening {
    Opens(u32, Flow),
    /// A packet comes so many seconds after 1970-01-01 UTC.
    Comes(u64),
    Begins(u32, Start),
    Delivers(u32, &'static [u8]),
    Passes,
    Closes(u32),
}

/// The start of a stream at the first octet of a flow.
const FIRST: Start = Start {
    number: 1,
    passed: 0,
    is_found: false,
};

/// The start of a stream after nine octets that are in no stream.
const FOUND: Start = Start {
    number: 10,
    passed: 9,
    is_found: true,
};

/// A call and its reply.
static HAPPENINGS: [Happening; 11] = [
    Happening::Opens(0, ASKING),
    Happening::Opens(1, ANSWERING),
    Happening::Comes(1),
    Happening::Begins(0, FIRST),
    Happening::Delivers(0, &REQUEST),
    Happening::Comes(2),
    Happening::Passes,
    Happening::Begins(1, FOUND),
    Happening::Delivers(1, &REPLY),
    Happening::Closes(0),
    Happening::Closes(1),
];

/// Delivers octets in pieces of this size.
fn deliver(
    conversations: &mut Conversations<Sheet>,
    flow: u32,
    octets: &[u8],
    size: usize,
) -> Result<(), OutFault> {
    for piece in octets.chunks(size.max(1)) {
        conversations.on_octets(flow, piece)?;
    }
    Ok(())
}

/// Tells what happens. Octets come in pieces of this size.
fn tell(
    conversations: &mut Conversations<Sheet>,
    happening: &Happening,
    size: usize,
) -> Result<(), OutFault> {
    match happening {
        Happening::Opens(flow, endpoints) => conversations.on_new_flow(*flow, *endpoints),
        Happening::Comes(seconds) => conversations.on_arrival(Arrival {
            time: Some(u128::from(*seconds) * SECOND),
            packet: *seconds,
        }),
        Happening::Begins(flow, start) => conversations.on_begin(*flow, *start)?,
        Happening::Delivers(flow, octets) => deliver(conversations, *flow, octets, size)?,
        Happening::Passes => conversations.on_looked_through(),
        Happening::Closes(flow) => conversations.on_close(*flow, CloseCause::End)?,
    }
    Ok(())
}

/// Tells all of it, and then the end of the capture. Returns whether no call failed, and nothing was wrong.
fn are_told(conversations: &mut Conversations<Sheet>, size: usize) -> bool {
    for happening in &HAPPENINGS {
        if tell(conversations, happening, size).is_err() {
            return false;
        }
    }
    matches!(conversations.finish(2, 204), Ok(false))
}

/// Whether the lines are written, if octets come in pieces of this size.
fn is_dumped(alloc: Global, catalogue: &Catalogue, requests: &Requests, size: usize) -> bool
    requires { IsRequestTableOf catalogue.now requests.now }
{
    let mut room = [0; 2048];
    let sheet = Sheet::new(&mut room);
    match Conversations::new(alloc, catalogue, requests, LIMITS, sheet) {
        Ok(mut conversations) => {
            let are_told = are_told(&mut conversations, size);
            conversations.into_out().held() == LINES && are_told
        }
        Err(_) => false,
    }
}

fn expect_dumps(rt: &(impl Abort + AllocGlobal), catalogue: &Catalogue) {
    match Requests::parse(rt.alloc(), b"", catalogue) {
        Ok(requests) => {
            for size in [1, 7, 24, 44] {
                expect_at(rt, is_dumped(rt.alloc(), catalogue, &requests, size), size);
            }
        }
        Err(_) => expect(rt, false, "the request list"),
    }
}

#[test]
fn a_call_and_its_reply(rt: HostRuntime) {
    match declared(rt.alloc(), signatures()) {
        Some(catalogue) => expect_dumps(&rt, &catalogue),
        None => expect(&rt, false, "the signature file"),
    }
}

#[test]
fn laws_can_be_called(_rt: HostRuntime) {
    events_lead_to_one_text();
}
