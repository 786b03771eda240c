//! The built-in types against the tables of the format.

use crate::expecting::{expect, expect_same};
use crate::file_tests::declares;
use crate::list_tests::has_none;
use crate::rows::accepted;
use crate::types::expect_rows;
use giop_sig::{Catalogue, Counts, OpId, TypeId};
use std::alloc::Global;
use std::process::Abort;

/// The version; the headers, by minor version and message type; what they and the bodies of all interfaces are made of;
/// what their discriminators select; the names of an enum.
static BUILTIN: &str = "\
version|1
header 0 0|service_contexts sequence, request_id ulong, response_expected boolean, object_key octets, operation string, requesting_principal octets
header 1 0|service_contexts sequence, request_id ulong, response_expected boolean, reserved array of 3, object_key octets, operation string, requesting_principal octets
header 2 0|request_id ulong, response_flags octet, reserved array of 3, target union, operation string, service_contexts sequence
header 0 2|request_id ulong
header 1 2|request_id ulong
header 2 2|request_id ulong
header 0 3|request_id ulong, object_key octets
header 1 3|request_id ulong, object_key octets
header 2 3|request_id ulong, target union
header 2 7|request_id ulong
header 0 1|service_contexts sequence, request_id ulong, reply_status enum NO_EXCEPTION USER_EXCEPTION SYSTEM_EXCEPTION LOCATION_FORWARD
header 1 1|service_contexts sequence, request_id ulong, reply_status enum NO_EXCEPTION USER_EXCEPTION SYSTEM_EXCEPTION LOCATION_FORWARD
header 2 1|request_id ulong, reply_status enum NO_EXCEPTION USER_EXCEPTION SYSTEM_EXCEPTION LOCATION_FORWARD LOCATION_FORWARD_PERM NEEDS_ADDRESSING_MODE, service_contexts sequence
header 0 4|request_id ulong, locate_status enum UNKNOWN_OBJECT OBJECT_HERE OBJECT_FORWARD
header 1 4|request_id ulong, locate_status enum UNKNOWN_OBJECT OBJECT_HERE OBJECT_FORWARD
header 2 4|request_id ulong, locate_status enum UNKNOWN_OBJECT OBJECT_HERE OBJECT_FORWARD OBJECT_FORWARD_PERM LOC_SYSTEM_EXCEPTION LOC_NEEDS_ADDRESSING_MODE
header 0 5|none
header 1 5|none
header 2 5|none
header 0 6|none
header 1 6|none
header 2 6|none
header 0 7|none
header 1 7|none
header 2 8|none
header 0 255|none
header 3 0|none
header 255 7|none
header 2 0/5/0|context_id ulong, context_data encapsulation, context_data octets
header 2 0/5/0/switch|ulong
header 2 0/5/0/1/0|char_data ulong, wchar_data ulong
header 2 0/2/2|octet
header 2 0/3|object_key octets, profile tagged, ior struct
header 2 0/3/switch|short
header 2 0/3/1|tag ulong, profile_data encapsulation, profile_data octets
header 2 0/3/1/switch|ulong
header 2 0/3/1/1/0|major octet, minor octet, host string, port ushort, object_key octets
header 2 0/3/2|selected_profile_index ulong, ior struct
fixed exception-id|string
fixed system-exception|exception_id string, minor ulong, completed enum COMPLETED_YES COMPLETED_NO COMPLETED_MAYBE
fixed forward|type_id string, profiles sequence
fixed forward/1/0|tag ulong, profile_data encapsulation, profile_data octets
fixed forward/1/0/1/0|major octet, minor octet, host string, port ushort, object_key octets
fixed addressing|short
signed 0 header 2 0|nothing
signed 0 header 2 0/3|case 0
signed 1 header 2 0/3|case 1
signed 2 header 2 0/3|case 2
signed 3 header 2 0/3|refused
signed -1 header 2 0/3|refused
unsigned 0 header 2 0/5/0|case 2
unsigned 1 header 2 0/5/0|case 1
unsigned 2 header 2 0/5/0|case 2
unsigned 4294967295 header 2 0/5/0|case 2
unsigned 0 header 2 0/3/1|case 1
unsigned 1 header 2 0/3/1|case 2
unsigned 2 header 2 0/3/1|case 2
unsigned 4294967295 header 2 0/3/1|case 2
name 1 fixed system-exception/2|COMPLETED_NO
name 3 fixed system-exception/2|none
name 0 fixed system-exception|none";

// Members with the names of numbers that have names, and a reference.
static THIRD_FILE: &[u8] = b"signatures 3;\n\
    struct S { ulong context_id; ulong tag; ulong char_data; ulong minor; };\n\
    operation void put(in S s, in Object o);";

/// The same of this file: its headers and bodies have named numbers, and the members of its own types have
/// none, whatever they are called.
static THIRD: &str = "\
version|3
header 0 0|service_contexts sequence, request_id ulong, response_expected boolean, object_key octets, operation string, requesting_principal octets
header 1 0|service_contexts sequence, request_id ulong, response_expected boolean, reserved array of 3, object_key octets, operation string, requesting_principal octets
header 2 0|request_id ulong, response_flags octet, reserved array of 3, target union, operation string, service_contexts sequence
header 2 1|request_id ulong, reply_status enum NO_EXCEPTION USER_EXCEPTION SYSTEM_EXCEPTION LOCATION_FORWARD LOCATION_FORWARD_PERM NEEDS_ADDRESSING_MODE, service_contexts sequence
header 1 2|request_id ulong
header 2 3|request_id ulong, target union
header 2 4|request_id ulong, locate_status enum UNKNOWN_OBJECT OBJECT_HERE OBJECT_FORWARD OBJECT_FORWARD_PERM LOC_SYSTEM_EXCEPTION LOC_NEEDS_ADDRESSING_MODE
header 2 5|none
header 2 7|request_id ulong
header 3 0|none
header 0 0/0/0|context_id context-id, context_data encapsulation, context_data octets
header 2 0/5/0|context_id context-id, context_data encapsulation, context_data octets
header 2 0/5/0/switch|context-id
header 2 0/5/0/1/0|char_data code-set, wchar_data code-set
header 2 0/3|object_key octets, profile tagged, ior struct
header 2 0/3/1|tag profile-tag, profile_data encapsulation, profile_data octets
header 2 0/3/1/switch|profile-tag
header 2 0/3/1/1/0|major octet, minor octet, host string, port ushort, object_key octets
header 2 0/3/2|selected_profile_index ulong, ior struct
fixed exception-id|string
fixed system-exception|exception_id string, minor minor-code, completed enum COMPLETED_YES COMPLETED_NO COMPLETED_MAYBE
fixed forward|type_id string, profiles sequence
fixed forward/1/0|tag profile-tag, profile_data encapsulation, profile_data octets
fixed addressing|short
unsigned 0 header 2 0/5/0|case 2
unsigned 1 header 2 0/5/0|case 1
unsigned 0 header 2 0/3/1|case 1
unsigned 1 header 2 0/3/1|case 2
name 1 header 2 0/5/0/switch|none
request put|s struct, o struct
request put/0|context_id ulong, tag ulong, char_data ulong, minor ulong
request put/1/1/0|tag profile-tag, profile_data encapsulation, profile_data octets";

// A reference in version 2.
static SECOND_FILE: &[u8] = b"signatures 2; operation void put(in Object o);";

/// Its type, and those of a header and a body.
static SECOND: &str = "\
version|2
request put|o struct
request put/0/1/0|tag ulong, profile_data encapsulation, profile_data octets
header 2 0/5/0|context_id ulong, context_data encapsulation, context_data octets
fixed system-exception|exception_id string, minor ulong, completed enum COMPLETED_YES COMPLETED_NO COMPLETED_MAYBE";

#[test]
fn the_builtin_types_are_those_of_the_format(rt: HostRuntime) {
    match builtin(rt.alloc()) {
        Some(catalogue) => expect_builtin(&rt, &catalogue),
        None => expect(&rt, false, "the built-in types"),
    }
}

#[test]
fn the_builtin_types_are_those_of_the_files_version(rt: HostRuntime) {
    declares(&rt, THIRD_FILE, THIRD);
    declares(&rt, SECOND_FILE, SECOND);
}

#[test]
fn a_file_of_version_3_begins_with_96_types(rt: HostRuntime) {
    let is_wanted = match accepted(rt.alloc(), b"signatures 3;") {
        Some(catalogue) => catalogue.has(TypeId(95)) && !catalogue.has(TypeId(96)),
        None => false,
    };
    expect(&rt, is_wanted, "96 types");
}

fn builtin(alloc: Global) -> Option<Box<Catalogue>> {
    match Catalogue::builtin(alloc) {
        Ok(catalogue) => Box::new(alloc, catalogue).ok(),
        Err(_) => None,
    }
}

/// A request list has no third word, either.
fn expect_builtin(rt: &(impl Abort + AllocGlobal), catalogue: &Catalogue) {
    expect_same(rt, empty_differs(catalogue), "of no file", b"");
    expect_rows(rt, catalogue, BUILTIN);
    has_none(rt, catalogue);
}

/// What differs from a catalogue of the built-in types alone.
fn empty_differs(catalogue: &Catalogue) -> &'static str {
    let none = Counts {
        types: 0,
        operations: 0,
        exceptions: 0,
    };
    if catalogue.depth() != 9 {
        return "the depth";
    }
    if catalogue.counts() != none {
        return "the counts";
    }
    if !catalogue.has(TypeId(40)) || catalogue.has(TypeId(41)) {
        return "the types";
    }
    if catalogue.has_operation(OpId(0)) {
        "the operations"
    } else {
        ""
    }
}
