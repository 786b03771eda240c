//! Times and spans as text.

use crate::expecting::expect;
use giop_conversation::{put_span, put_time};
use giop_print::Line;

/// Times in nanoseconds since 1970-01-01 UTC. Their texts come from another implementation of the calendar.
static TIMES: [(Option<u128>, &str); 8] = [
    (None, "-"),
    (Some(0), "1970-01-01T00:00:00.000000000Z"),
    (
        Some(951_782_399_999_999_999),
        "2000-02-28T23:59:59.999999999Z",
    ),
    (
        Some(951_782_400_000_000_001),
        "2000-02-29T00:00:00.000000001Z",
    ),
    (
        Some(4_107_542_400_000_000_000),
        "2100-03-01T00:00:00.000000000Z",
    ),
    (
        Some(1_795_421_605_580_228_123),
        "2026-11-23T08:13:25.580228123Z",
    ),
    (
        Some(253_402_300_799_999_999_999),
        "9999-12-31T23:59:59.999999999Z",
    ),
    (Some(253_402_300_800_000_000_000), "-"),
];

/// Whether a time reads so.
fn is_time(time: Option<u128>, want: &str) -> bool {
    let mut line = Line::new();
    put_time(&mut line, time);
    line.text() == want.as_bytes()
}

#[test]
fn a_time_is_a_date_of_the_calendar(rt: HostRuntime) {
    for (time, want) in &TIMES {
        expect(&rt, is_time(*time, want), want);
    }
}

/// Two times, and the span from the first to the second.
static SPANS: [(Option<u128>, Option<u128>, &str); 6] = [
    (Some(1_000_000_000), Some(1_000_228_123), "0.000228123"),
    (Some(7), Some(7), "0.000000000"),
    (Some(0), Some(61_000_000_000), "61.000000000"),
    (Some(2_500_000_000), Some(1_000_000_000), "-1.500000000"),
    (None, Some(1), "-"),
    (Some(1), None, "-"),
];

/// Whether the span between two times reads so.
fn is_span(from: Option<u128>, to: Option<u128>, want: &str) -> bool {
    let mut line = Line::new();
    put_span(&mut line, from, to);
    line.text() == want.as_bytes()
}

#[test]
fn a_span_is_in_seconds(rt: HostRuntime) {
    for (from, to, want) in &SPANS {
        expect(&rt, is_span(*from, *to, want), want);
    }
}
