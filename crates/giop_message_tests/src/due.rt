//! After which octets of a message the reading stops, if the correspondent is due there.

use crate::expecting::expect_same_in;
use crate::waiter::Waiter;
use giop_message::Message;
use giop_print::Sheet;
use giop_sig::Catalogue;
use giop_testing::spelled;
use std::process::Abort;

/// A message; after how many of its octets the reading stops first; whether the correspondent is
/// due there; and after how many octets the reading stops then. It stops at the message's end in
/// any case.
#[derive(Clone, Copy)]
struct Row {
    name: &'static str,
    octets: &'static str,
    first: usize,
    is_due: bool,
    second: usize,
}

const ROWS: [Row; 5] = [
    Row {
        name: "1.0: a header of 12 + 3 ulongs, then a repository id of a ulong and 10 octets",
        octets: "47494f50 0100 00 01 0000001c 00000000 00000001 00000001 0000000a 49444c3a593a312e3000 aabb",
        first: 24,
        is_due: true,
        second: 38,
    },
    Row {
        name: "1.2: a header of 12 + 5 ulongs and an octet, then a system exception from 40 to 64",
        octets: "47494f50 0102 01 01 37000000 01000000 02000000 01000000 07000000 01000000 aa 99999999999999 \
            0a000000 49444c3a593a312e3000 eeee 2a000000 01000000 010203",
        first: 33,
        is_due: true,
        second: 64,
    },
    Row {
        name: "results after a header of 12 + 3 ulongs, which raise nothing",
        octets: "47494f50 0100 00 01 0000001a 00000000 00000001 00000000 0000000a 49444c3a593a312e3000",
        first: 24,
        is_due: true,
        second: 38,
    },
    Row {
        name: "a Reply that ends with its header",
        octets: "47494f50 0100 00 01 0000000c 00000000 00000007 00000000",
        first: 24,
        is_due: true,
        second: 24,
    },
    Row {
        name: "a Request, of whose header nothing is due",
        octets: "47494f50 0100 00 00 00000020 00000000 00000007 01 000000 00000002 6b31 0000 00000004 6f6e6500 00000000",
        first: 44,
        is_due: false,
        second: 44,
    },
];

/// The reading of each message stops at the octets at which it should.
pub fn each_row_stops(rt: &impl Abort, catalogue: &Catalogue) {
    for row in &ROWS {
        for is_cut in [false, true] {
            let differs = stops_differ(catalogue, row, is_cut);
            expect_same_in(rt, differs, row.name, usize::from(is_cut));
        }
    }
}

/// What differs in the octets that each call takes. A call is given all octets that are left, or
/// only those that it must take. The text is empty if nothing differs.
fn stops_differ(catalogue: &Catalogue, row: &Row, is_cut: bool) -> &'static str {
    let mut room = [0; 256];
    let octets = &*spelled(row.octets, &mut room);
    if row.first < 12 || row.second < row.first || octets.len() < row.second || octets.len() > 256 {
        return "the octets";
    }
    let (to_first, after_first) = octets.split_at(row.first);
    let (to_second, rest) = after_first.split_at(row.second - row.first);
    let (Some((header, all)), Some((_, front))) = (
        octets.split_first_chunk::<12>(),
        to_first.split_first_chunk::<12>(),
    ) else {
        return "the header";
    };
    let mut lines = [0; 1024];
    let mut sheet = Sheet::new(&mut lines);
    let mut message = Message::start(catalogue, 7, *header);
    let mut waiter = Waiter { is_due: false };
    let given = if is_cut { front } else { all };
    let wanted = Ok((front.len(), false));
    if message.take(catalogue, &mut waiter, given, 12, &mut sheet) != wanted {
        return "the first octets";
    }
    if waiter.is_due != row.is_due {
        return "what is due after them";
    }
    waiter.is_due = false;
    let given = if is_cut { to_second } else { after_first };
    let place = row.first as u64;
    let wanted = Ok((to_second.len(), false));
    if message.take(catalogue, &mut waiter, given, place, &mut sheet) != wanted {
        return "the next octets";
    }
    waiter.is_due = false;
    let place = row.second as u64;
    if message.take(catalogue, &mut waiter, rest, place, &mut sheet) != Ok((rest.len(), false)) {
        return "the octets after them";
    }
    if waiter.is_due {
        "what is due at the end"
    } else {
        ""
    }
}
