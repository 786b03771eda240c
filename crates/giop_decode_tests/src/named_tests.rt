//! Numbers of the built-in types of version 3 that have names, octet by octet.

use crate::expecting::expect;
use crate::known::declared;
use crate::tests::expect_told;

/// Values of the built-in types, by their numbers in version 3.
static ROWS: &str = r#"Reply 1.2, of whose contexts one has a name
39 big 12 header
0000002a 00000000 00000002 00000001 0000000c 00 ee*3 00010001 00010109 00000012 00000000
4 more 42 - -
8 more 42 0 -
40 done 42 0 -
lines
m1 header.request_id ulong 42
m1 header.reply_status enum NO_EXCEPTION
m1 header.service_contexts count 2
m1 header.service_contexts[0].context_id ulong 1 CodeSets
m1 header.service_contexts[0].context_data encapsulation 12
m1 header.service_contexts[0].context_data order big
m1 header.service_contexts[0].context_data.char_data ulong 65537 ISO_8859_1
m1 header.service_contexts[0].context_data.wchar_data ulong 65801 UTF_16
m1 header.service_contexts[1].context_id ulong 18
m1 header.service_contexts[1].context_data octets @0
=
Request 1.2, of whose profiles one has a name
37 big 12 header
00000002 03 000000 0002 ee*2 00000000 00000003 546e00 ee 00000002 00000003 00000000 00000004 00000000 00000003 616400 ee 00000000
4 more 2 - -
23 more 2 - Tn
48 more 2 - -
51 named 2 - ad
56 done 2 - ad
lines
m1 header.request_id ulong 2
m1 header.response_flags octet 3
m1 header.reserved[0] octet 0
m1 header.reserved[1] octet 0
m1 header.reserved[2] octet 0
m1 header.target.switch short 2
m1 header.target.ior.selected_profile_index ulong 0
m1 header.target.ior.ior.type_id string @0 "Tn"
m1 header.target.ior.ior.profiles count 2
m1 header.target.ior.ior.profiles[0].tag ulong 3 TAG_UIPMC
m1 header.target.ior.ior.profiles[0].profile_data octets @0
m1 header.target.ior.ior.profiles[1].tag ulong 4
m1 header.target.ior.ior.profiles[1].profile_data octets @0
m1 header.operation string @0 "ad"
m1 header.service_contexts count 0
=
system exception of a vendor
29 little 24 body
02000000 4500 ee*2 01004d4f 01000000
6 more - - E
16 done - 1 E
lines
m1 body.exception_id string @0 "E"
m1 body.minor ulong 1330446337 OMG 1
m1 body.completed enum COMPLETED_NO
=
system exception of another
29 little 24 body
02000000 4500 ee*2 00104154 01000000
6 more - - E
16 done - 1 E
lines
m1 body.exception_id string @0 "E"
m1 body.minor ulong 1413550080
m1 body.completed enum COMPLETED_NO
"#;

#[test]
fn a_number_of_version_3_has_its_name(rt: HostRuntime) {
    match declared(rt.alloc(), b"signatures 3;") {
        Some(catalogue) => expect_told(&rt, &catalogue, ROWS),
        None => expect(&rt, false, "the signature file"),
    }
}
