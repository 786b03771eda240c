//! Messages of the built-in types with their lines, one for each way to close; and messages with
//! numbers that have names in version 3 of signature files.

use std::str::Split;

/// How a message comes to its end.
#[derive(Clone, Copy, Debug, PartialEq, Eq)]
pub enum Closing {
    Ends,
    Short,
    /// The message ends with a fault, at the octet with this number, counted from 1.
    Fault(usize),
}

/// A message: its octets in hexadecimal digits, and its lines. In the digits, `xx*n` stands for n
/// times `xx`. The first 12 octets are the header.
#[derive(Clone, Copy)]
pub struct Row<'a> {
    pub name: &'a str,
    pub closing: Closing,
    pub octets: &'a str,
    pub lines: &'a str,
}

/// The row that a text spells: its name, its closing and its octets, each in a line of its own, and
/// then its lines.
pub fn row_of(text: &str) -> Row {
    let mut parts = text.splitn(4, '\n');
    Row {
        name: parts.next().unwrap_or(""),
        closing: closing_of(parts.next().unwrap_or("")),
        octets: parts.next().unwrap_or(""),
        lines: parts.next().unwrap_or(""),
    }
}

fn closing_of(text: &str) -> Closing {
    match text.split_once(' ') {
        Some((_, place)) => Closing::Fault(usize::from_str_radix(place, 10).unwrap_or(0)),
        None => if text == "short" {
            Closing::Short
        } else {
            Closing::Ends
        },
    }
}

/// The messages. No other function names the table.
pub fn rows() -> Split<'static, &'static str> {
    ROWS.split("=\n")
}

/// The messages whose numbers have names. No other function names the table.
pub fn named_rows() -> Split<'static, &'static str> {
    NAMED_ROWS.split("=\n")
}

static ROWS: &str = r#"a 1.2 body begins at the next multiple of 8
ends
47494f50 0102 01 01 37000000 01000000 02000000 01000000 07000000 01000000 aa 99999999999999 0a000000 49444c3a593a312e3000 eeee 2a000000 01000000 010203
m1 header.request_id ulong 1
m1 header.reply_status enum SYSTEM_EXCEPTION
m1 header.service_contexts count 1
m1 header.service_contexts[0].context_id ulong 7
m1 header.service_contexts[0].context_data octets @0 aa
m1 body.exception_id string @0 "IDL:Y:1.0"
m1 body.minor ulong 42
m1 body.completed enum COMPLETED_NO
m1 rest @0 010203
m1 end
=
a repository id that is short
short
47494f50 0100 00 01 00000012 00000000 00000001 00000001 0000000d 4944
m1 header.service_contexts count 0
m1 header.request_id ulong 1
m1 header.reply_status enum USER_EXCEPTION
m1 fault short at 30
=
code sets of 8 octets
fault 32
47494f50 0100 00 01 0000001c 00000001 00000001 00000008 00 000000 00010001 00000007 00000000
m1 header.service_contexts count 1
m1 header.service_contexts[0].context_id ulong 1
m1 header.service_contexts[0].context_data encapsulation 8
m1 header.service_contexts[0].context_data order big
m1 header.service_contexts[0].context_data.char_data ulong 65537
m1 fault encap-short at 32
"#;

static NAMED_ROWS: &str = r#"code sets of a service context
ends
47494f50 0100 00 01 00000020 00000001 00000001 0000000c 00 000000 00010001 00010109 00000007 00000000
m1 header.service_contexts count 1
m1 header.service_contexts[0].context_id ulong 1 CodeSets
m1 header.service_contexts[0].context_data encapsulation 12
m1 header.service_contexts[0].context_data order big
m1 header.service_contexts[0].context_data.char_data ulong 65537 ISO_8859_1
m1 header.service_contexts[0].context_data.wchar_data ulong 65801 UTF_16
m1 header.request_id ulong 7
m1 header.reply_status enum NO_EXCEPTION
m1 end
=
the minor code of a vendor
ends
47494f50 0100 00 01 0000001c 00000000 00000007 00000002 00000002 41000000 4f4d0002 00000000
m1 header.service_contexts count 0
m1 header.request_id ulong 7
m1 header.reply_status enum SYSTEM_EXCEPTION
m1 body.exception_id string @0 "A"
m1 body.minor ulong 1330446338 OMG 2
m1 body.completed enum COMPLETED_YES
m1 end
=
a profile that is short
short
47494f50 0100 00 01 00000020 00000000 00000007 00000003 00000001 00000000 00000001 00000000
m1 header.service_contexts count 0
m1 header.request_id ulong 7
m1 header.reply_status enum LOCATION_FORWARD
m1 body.type_id string @0 ""
m1 body.profiles count 1
m1 body.profiles[0].tag ulong 0 TAG_INTERNET_IOP
m1 fault short at 40
"#;
