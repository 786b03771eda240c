//! What the readers of a decoder tell of a value, octet by octet; the numbers of faults; laws.

use crate::expecting::{expect, expect_same};
use crate::known::built_in;
use crate::rows::row_of;
use crate::tracing::differs;
use giop_decode::{ValueFault, reading_laws, whole_laws};
use giop_sig::Catalogue;
use std::process::Abort;

/// Values of the built-in types, one or two below each root.
static ROWS: &str = r#"Request 1.2, its target an object reference
33 big 12 header
00000002 03 000000 0002 ee*2 00000000 00000003 546e00 ee 00000000 00000003 616400 ee 00000000
4 more 2 - -
23 more 2 - Tn
32 more 2 - -
35 named 2 - ad
40 done 2 - ad
lines
m1 header.request_id ulong 2
m1 header.response_flags octet 3
m1 header.reserved[0] octet 0
m1 header.reserved[1] octet 0
m1 header.reserved[2] octet 0
m1 header.target.switch short 2
m1 header.target.ior.selected_profile_index ulong 0
m1 header.target.ior.ior.type_id string @0 "Tn"
m1 header.target.ior.ior.profiles count 0
m1 header.operation string @0 "ad"
m1 header.service_contexts count 0
=
Reply 1.2
35 little 12 header
2a000000 05000000 01000000 00000000 00000000
4 more 42 - -
8 more 42 5 -
20 done 42 5 -
lines
m1 header.request_id ulong 42
m1 header.reply_status enum NEEDS_ADDRESSING_MODE
m1 header.service_contexts count 1
m1 header.service_contexts[0].context_id ulong 0
m1 header.service_contexts[0].context_data octets @0
=
Request 1.2 in a body
33 big 12 body
00000001 03 000000 0000 ee*2 00000000 00000002 6100 ee*2 00000000
22 more - - a
28 done - - a
lines
m1 body.request_id ulong 1
m1 body.response_flags octet 3
m1 body.reserved[0] octet 0
m1 body.reserved[1] octet 0
m1 body.reserved[2] octet 0
m1 body.target.switch short 0
m1 body.target.object_key octets @0
m1 body.operation string @0 "a"
m1 body.service_contexts count 0
=
system exception
25 little 24 body
02000000 4500 ee*2 07000000 01000000
6 more - - E
16 done - 1 E
lines
m1 body.exception_id string @0 "E"
m1 body.minor ulong 7
m1 body.completed enum COMPLETED_NO
=
a string of 128 octets
11 big 48 exception
00000081 61*128 00
133 done - - aaaaaaaaaaaaaaaaaaaaaaaaaaaaaaaaaaaaaaaaaaaaaaaaaaaaaaaaaaaaaaaaaaaaaaaaaaaaaaaaaaaaaaaaaaaaaaaaaaaaaaaaaaaaaaaaaaaaaaaaaaaaaaaa
lines
m1 exception string @0 "aaaaaaaaaaaaaaaaaaaaaaaaaaaaaaaa" more
m1 exception string @32 "aaaaaaaaaaaaaaaaaaaaaaaaaaaaaaaa" more
m1 exception string @64 "aaaaaaaaaaaaaaaaaaaaaaaaaaaaaaaa" more
m1 exception string @96 "aaaaaaaaaaaaaaaaaaaaaaaaaaaaaaaa"
=
a string of 129 octets
11 big 48 exception
00000082 61*129 00
134 done - - -
lines
m1 exception string @0 "aaaaaaaaaaaaaaaaaaaaaaaaaaaaaaaa" more
m1 exception string @32 "aaaaaaaaaaaaaaaaaaaaaaaaaaaaaaaa" more
m1 exception string @64 "aaaaaaaaaaaaaaaaaaaaaaaaaaaaaaaa" more
m1 exception string @96 "aaaaaaaaaaaaaaaaaaaaaaaaaaaaaaaa" more
m1 exception string @128 "a"
"#;

#[test]
fn readers_tell_what_was_read(rt: HostRuntime) {
    match built_in(rt.alloc()) {
        Some(catalogue) => expect_told(&rt, &catalogue, ROWS),
        None => expect(&rt, false, "the built-in types"),
    }
}

/// Expects that each row of a table is told.
pub fn expect_told(rt: &impl Abort, catalogue: &Catalogue, rows: &str) {
    for text in rows.split("=\n") {
        let row = row_of(text);
        expect_same(rt, differs(catalogue, &row), row.name);
    }
}

static FAULTS: [(ValueFault, u32, &str); 7] = [
    (ValueFault::Boolean, 1, "Boolean"),
    (ValueFault::StringEnd, 2, "StringEnd"),
    (ValueFault::Enum, 3, "Enum"),
    (ValueFault::Bound, 4, "Bound"),
    (ValueFault::Disposition, 5, "Disposition"),
    (ValueFault::EncapShort, 6, "EncapShort"),
    (ValueFault::EncapOrder, 7, "EncapOrder"),
];

#[test]
fn the_numbers_of_faults_stay(rt: HostRuntime) {
    for (kind, number, name) in &FAULTS {
        expect(&rt, *kind as u32 == *number, name);
    }
}

#[test]
fn laws_can_be_called(_rt: HostRuntime) {
    reading_laws();
    whole_laws();
}
