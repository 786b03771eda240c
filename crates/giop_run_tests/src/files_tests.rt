//! What a file that is read whole has, and what an interrupted or failed read of it does.

use super::fakes::Reader;
use crate::expecting::expect_at;
use giop_run::{Reading, read_to_one_over};
use std::alloc::Global;
use std::cell::Cell;
use std::io::ErrorKind;

/// How many octets of a text of six are wanted, how many reads of an octet are interrupted, which one fails, and what is read
/// then, if it doesn't fail, after how many reads.
type Row = (u64, usize, usize, Option<&'static str>, usize);

static ROWS: [Row; 12] = [
    (0, 0, 100_000, Some("a"), 1),
    (3, 0, 100_000, Some("abcd"), 4),
    (5, 0, 100_000, Some("abcdef"), 6),
    (9, 0, 100_000, Some("abcdef"), 7),
    (9, 0, 0, None, 1),
    (9, 0, 3, None, 4),
    (9, 0, 6, None, 7),
    (9, 1, 100_000, Some("abcdef"), 8),
    (9, 2, 100_000, Some("abcdef"), 9),
    (9, 65_535, 100_000, Some("abcdef"), 65_542),
    (9, 65_536, 100_000, None, 65_536),
    (9, 2, 4, None, 5),
];

/// Whether this comes of a row.
fn is_row(alloc: Global, row: &Row) -> bool {
    let reads = Cell::new(0);
    let reader = Reader {
        left: b"abcdef",
        reads: &reads,
        interrupts: row.1,
        fails_at: row.2,
    };
    let is_read = match read_to_one_over(alloc, &mut Reading::new(reader), row.0) {
        Ok(octets) => Some(octets.as_slice()) == row.3.map(str::as_bytes),
        Err(error) => row.3.is_none() && (row.2 > 99) == (error.kind() != ErrorKind::Other),
    };
    is_read && reads.get() == row.4
}

#[test]
fn a_file_is_read_up_to_an_octet_past_the_limit_unless_a_read_fails(rt: HostRuntime) {
    for row in &ROWS {
        expect_at(&rt, is_row(rt.alloc(), row), row.4);
    }
}
