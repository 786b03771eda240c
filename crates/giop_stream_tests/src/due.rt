//! After which octets of a stream the reading stops for a correspondent, and which message has
//! begun in them.

ghost use Rattle.giop_stream.specs.EngineHolds.{IsRequestTableOf};

use super::expecting::expect_none;
use super::known::{self, Asked, BUILT_IN, engine};
use super::waiting::Timer;
use giop_message_tests::waiter::Waiter;
use giop_print::Sheet;
use giop_sig::{Catalogue, Requests};
use giop_stream::{Engine, Fed, Stop, answers_at_headers, answers_go_on};
use giop_testing::spelled;
use std::alloc::Global;

/// A stream; whether its correspondent awaits only messages, or only what it is told of a Reply;
/// and after how many octets the reading stops: at three places, each with the number of the
/// message that began last before it. The reading stops at the stream's end in any case.
#[derive(Clone, Copy)]
struct Row {
    name: &'static str,
    awaits_messages: bool,
    octets: &'static str,
    stops: [(usize, Option<u64>); 3],
}

static ROWS: [Row; 10] = [
    Row {
        name: "three headers of 12 octets, which begin messages",
        awaits_messages: true,
        octets: "47494f50 0100 00 05 00000000 47494f50 0100 00 05 00000000 47494f50 0100 00 05 00000000",
        stops: [(12, Some(1)), (24, Some(2)), (36, Some(3))],
    },
    Row {
        name: "three headers that nobody awaits",
        awaits_messages: false,
        octets: "47494f50 0100 00 05 00000000 47494f50 0100 00 05 00000000 47494f50 0100 00 05 00000000",
        stops: [(36, Some(3)), (36, None), (36, None)],
    },
    Row {
        name: "after a header of 12 octets that of a Reply, of 12 + 3 ulongs",
        awaits_messages: false,
        octets: "47494f50 0100 00 05 00000000 47494f50 0100 00 01 0000000c 00000000 00000007 00000000 47494f50 0100 00 05 00000000",
        stops: [(36, Some(2)), (48, Some(3)), (48, None)],
    },
    Row {
        name: "an exception's name, of a ulong and 10 octets after a header of 12 + 3 ulongs",
        awaits_messages: false,
        octets: "47494f50 0100 00 01 0000001c 00000000 00000001 00000001 0000000a 49444c3a593a312e3000 aabb",
        stops: [(24, Some(1)), (38, None), (40, None)],
    },
    Row {
        name: "the same Reply, of which only the 12 octets are awaited that begin it",
        awaits_messages: true,
        octets: "47494f50 0100 00 01 0000001c 00000000 00000001 00000001 0000000a 49444c3a593a312e3000 aabb",
        stops: [(12, Some(1)), (40, None), (40, None)],
    },
    Row {
        name: "a Reply of 20 octets, whose header ends 12 + 2 ulongs later in a Fragment",
        awaits_messages: false,
        octets: "47494f50 0102 02 01 00000008 00000007 00000000 47494f50 0102 00 07 00000008 00000007 00000000 47494f50 0100 00 05 00000000",
        stops: [(40, Some(2)), (52, Some(3)), (52, None)],
    },
    Row {
        name: "the same Reply, where the Fragment is a message too, which begins 12 octets after those 20",
        awaits_messages: true,
        octets: "47494f50 0102 02 01 00000008 00000007 00000000 47494f50 0102 00 07 00000008 00000007 00000000 47494f50 0100 00 05 00000000",
        stops: [(12, Some(1)), (32, Some(2)), (52, Some(3))],
    },
    Row {
        name: "no octet of a header in front of a fault begins a message",
        awaits_messages: true,
        octets: "47494f50 0100 00 05 00000000 47494f58 0100 00 05 00000000",
        stops: [(12, Some(1)), (24, None), (24, None)],
    },
    Row {
        name: "a Reply of 40 octets, faulted in its header at the 32nd, of which nothing is told; 12 octets after it",
        awaits_messages: false,
        octets: "47494f50 0100 00 01 0000001c 00000001 00000001 00000008 00 000000 00010001 00000007 00000000 47494f50 0100 00 05 00000000",
        stops: [(52, Some(2)), (52, None), (52, None)],
    },
    Row {
        name: "a stream without an octet",
        awaits_messages: true,
        octets: "00*0",
        stops: [(0, None), (0, None), (0, None)],
    },
];

/// Feeds octets for the correspondent of the row, which isn't due.
fn fed(engine: &mut Engine<'_>, row: &Row, octets: &[u8], out: &mut Sheet) -> Result<Fed, Stop> {
    if row.awaits_messages {
        engine.feed_by(&mut Timer, octets, out)
    } else {
        engine.feed_by(&mut Waiter { is_due: false }, octets, out)
    }
}

/// What differs in the octets that each call reads. A call is given all octets that are left, or
/// only those that it must read. The text is empty if nothing differs.
fn stops_differ(engine: &mut Engine<'_>, row: &Row, is_cut: bool) -> &'static str {
    let mut room = [0; 256];
    let mut left = &*spelled(row.octets, &mut room);
    let mut lines = [0; 2048];
    let mut sheet = Sheet::new(&mut lines);
    let mut place = 0usize;
    for (stop, begun) in row.stops {
        let count = stop.saturating_sub(place);
        let (front, rest) = left.split_at(count.min(left.len()));
        let given = if is_cut { front } else { left };
        let Ok(fed) = fed(engine, row, given, &mut sheet) else {
            return "the feed";
        };
        if fed.count != count {
            return "how many octets were read";
        }
        if fed.begun != begun {
            return "the message that began";
        }
        left = rest;
        place = stop;
    }
    if left.is_empty() {
        ""
    } else {
        "the octets that are left"
    }
}

/// The first row in which something differs, if the engine has read nothing before it. The text is
/// empty if nothing differs.
pub fn differs(alloc: Global, catalogue: &Catalogue, requests: &Requests) -> &'static str
    requires { IsRequestTableOf catalogue.now requests.now }
{
    for row in &ROWS {
        for is_cut in [false, true] {
            if row_differs(alloc, catalogue, requests, row, is_cut) {
                return row.name;
            }
        }
    }
    ""
}

fn row_differs(
    alloc: Global,
    catalogue: &Catalogue,
    requests: &Requests,
    row: &Row,
    is_cut: bool,
) -> bool
    requires { IsRequestTableOf catalogue.now requests.now }
{
    match engine(alloc, catalogue, requests, 16) {
        Some(mut engine) => !stops_differ(&mut engine, row, is_cut).is_empty(),
        None => true,
    }
}

#[test]
fn a_stream_stops_where_its_correspondent_is_due(rt: HostRuntime) {
    expect_none(&rt, known::differs(rt.alloc(), BUILT_IN, Asked::Stops));
}

#[test]
fn laws_can_be_called(_rt: HostRuntime) {
    answers_go_on::<Timer>();
    answers_at_headers::<Timer>();
}
