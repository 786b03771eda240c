//! Tests of the lines of a capture in addition to those that giopdump writes of its streams.

use crate::expecting::expect;
use arrayvec::ArrayVec;
use giop_calls::Call;
use giop_conversation::{
    CaptureTotals, Opening, answers_line, capture_fault_line, capture_total_line, closed_line,
    raises_line, stream_line, time_line,
};
use giop_print::{OutFault, Sheet};
use tcp_flow::{CloseCause, Start};
use tcp_segment::{Address, Endpoint, Flow};
use tcp_waiting::Arrival;

/// 2026-11-23 08:13:25.580228123 UTC.
const TIME: u128 = 1_795_421_605_580_228_123;

const TOTALS: CaptureTotals = CaptureTotals {
    streams: 8,
    messages: 29,
    faults: 1,
    packets: 54,
    octets: 8190,
    others: 3,
};

/// A line of a capture.
#[derive(Clone, Copy)]
enum Kind {
    /// What the first line of a stream says: whether it is of the opposite flow, its time, its partner, how many octets
    /// were passed, and whether it was found.
    Stream(bool, Option<u128>, Option<u64>, u32, bool),
    Time,
    /// What answers the call, and when.
    Answers(u64, Option<u128>),
    Raises,
    Fault,
    Total,
    Closed(CloseCause),
}

/// Lines, and how they read.
static LINES: [(Kind, &str); 17] = [
    (
        Kind::Stream(false, Some(TIME), None, 0, false),
        "stream 192.0.2.1:33490 > [2001:db8::1]:2809 at 2026-11-23T08:13:25.580228123Z\n",
    ),
    (
        Kind::Stream(true, None, Some(3), 12, true),
        "stream [2001:db8::1]:2809 > 192.0.2.1:33490 at - with s3 behind 12 found\n",
    ),
    (
        Kind::Stream(true, None, Some(u64::MAX), 0, true),
        "stream [2001:db8::1]:2809 > 192.0.2.1:33490 at - with s18446744073709551615 found\n",
    ),
    (
        Kind::Stream(true, None, None, u32::MAX, false),
        "stream [2001:db8::1]:2809 > 192.0.2.1:33490 at - behind 4294967295\n",
    ),
    (
        Kind::Time,
        "m6 time 2026-11-23T08:13:25.580228123Z packet 4711\n",
    ),
    (
        Kind::Answers(6, Some(TIME)),
        "m6 answers s3 m12 resolve after 0.000228123\n",
    ),
    (
        Kind::Answers(7, None),
        "m7 answers s3 m12 resolve after -\n",
    ),
    (
        Kind::Raises,
        "m6 raises IDL:omg.org/CosNaming/NamingContext/NotFound:1.0\n",
    ),
    (Kind::Fault, "capture fault truncated at 4711\n"),
    (
        Kind::Total,
        "total streams 8 messages 29 faults 1 packets 54 octets 8190 other 3\n",
    ),
    (Kind::Closed(CloseCause::Fin), "closed fin\n"),
    (Kind::Closed(CloseCause::Reset), "closed reset\n"),
    (Kind::Closed(CloseCause::Syn), "closed syn\n"),
    (Kind::Closed(CloseCause::Fault), "closed fault\n"),
    (Kind::Closed(CloseCause::Gap), "closed gap\n"),
    (Kind::Closed(CloseCause::Room), "closed room\n"),
    (Kind::Closed(CloseCause::End), "closed end\n"),
];

/// The flow from an IPv4 address to an IPv6 address, or the opposite one.
fn flow_of(is_opposite: bool) -> Flow {
    let flow = Flow {
        from: Endpoint {
            address: Address::V4([192, 0, 2, 1]),
            port: 33490,
        },
        to: Endpoint {
            address: Address::V6([0x20, 0x01, 0x0d, 0xb8, 0, 0, 0, 0, 0, 0, 0, 0, 0, 0, 0, 1]),
            port: 2809,
        },
    };
    if is_opposite { flow.opposite() } else { flow }
}

/// A call whose header came 228,123 nanoseconds before the time.
fn call() -> Call {
    let mut name = ArrayVec::new();
    let _ = name.try_extend_from_slice(b"resolve");
    Call {
        operation: None,
        name,
        stream: 3,
        message: 12,
        time: Some(TIME - 228_123),
    }
}

/// The time, in the packet of this number.
fn arrival() -> Arrival {
    Arrival {
        time: Some(TIME),
        packet: 4711,
    }
}

/// The repository id of an exception.
fn raised() -> &'static [u8] {
    b"IDL:omg.org/CosNaming/NamingContext/NotFound:1.0"
}

fn put(kind: Kind, sheet: &mut Sheet) -> Result<(), OutFault> {
    match kind {
        Kind::Stream(is_opposite, time, partner, passed, is_found) => {
            let start = Start {
                number: 7,
                passed,
                is_found,
            };
            let opening = Opening {
                time,
                partner,
                start,
            };
            stream_line(sheet, flow_of(is_opposite), opening)
        }
        Kind::Time => time_line(sheet, 6, arrival()),
        Kind::Answers(message, time) => answers_line(sheet, message, &call(), time),
        Kind::Raises => raises_line(sheet, 6, raised()),
        Kind::Fault => capture_fault_line(sheet, "truncated", 4711),
        Kind::Total => capture_total_line(sheet, TOTALS),
        Kind::Closed(cause) => closed_line(sheet, cause),
    }
}

/// Whether a line reads so.
fn reads(kind: Kind, want: &str) -> bool {
    let mut room = [0; 128];
    let mut sheet = Sheet::new(&mut room);
    put(kind, &mut sheet).is_ok() && sheet.held() == want.as_bytes()
}

#[test]
fn each_line_of_a_capture_reads_as_told(rt: HostRuntime) {
    for (kind, want) in &LINES {
        expect(&rt, reads(*kind, want), want);
    }
}
