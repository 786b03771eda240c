//! Objects and counts of small dumps.

use crate::value_tests::options;
use giop_json_messages::{Calls, Messages};
use giop_lines::read;
use giop_print::Written;
use giop_stat_counts::{Stat, Window};
use giop_view_parts::{Dump, Maker, View, ViewError};
use std::alloc::Global;
use std::process::Abort;

/// A Request.
const ASKED: &str = "\
m1 start 1.0 big Request size 4
m1 call 1 ask
m1 body.n[0].x long 5
m1 end
total messages 1 faults 0 octets 16
";

/// Its object, and that of the total.
const OBJECTS: &str = "\
{\"message\":1,\"version\":\"1.0\",\"order\":\"big\",\"type\":\"Request\",\"size\":4,\"call\":1,\
\"operation\":\"ask\",\"body\":{\"n\":[{\"x\":5}]}}
{\"messages\":1,\"faults\":0,\"octets\":16}
";

/// The object of its call.
const CALL: &str = "\
{\"request_time\":null,\"seconds\":null,\"client\":null,\"client_port\":null,\"server\":null,\
\"server_port\":null,\"object\":null,\"interface\":null,\"operation\":\"ask\",\"outcome\":null,\
\"exception\":null,\"arguments\":{\"n\":[{\"x\":5}]},\"result\":null,\"raised\":null,\"forward\":null,\
\"request_rest\":null,\"reply_rest\":null,\"request_fault\":null,\"reply_fault\":null,\
\"request_id\":1,\"version\":\"1.0\",\"connection\":null,\"request_stream\":null,\
\"request_message\":1,\"request_packet\":null,\"request_octets\":16,\"reply_stream\":null,\
\"reply_message\":null,\"reply_packet\":null,\"reply_octets\":null,\"reply_time\":null,\"cut\":false}
";

/// A call of a conversation.
const ANSWERED: &str = "\
s1 m1 start 1.2 big Request size 4
s1 m1 call 1 ask
s1 m1 end
s2 m1 start 1.2 big Reply size 4
s2 m1 header.reply_status enum NO_EXCEPTION
s2 m1 answers s1 m1 ask after 0.000100000
s2 m1 end
";

/// Its counts.
const COUNTS: &str = "\
operation  calls  replies       min    median       p95       p99       max     total  octets
ask            1        1  0.000100  0.000100  0.000100  0.000100  0.000100  0.000100      32

client  server  calls  replies       min    median       p95       p99       max     total  octets
-       -           1        1  0.000100  0.000100  0.000100  0.000100  0.000100  0.000100      32
";

/// What is made of the lines of a dump.
fn made_of<V: Maker + Drop>(alloc: Global, maker: V, lines: &str) -> Result<Vec<u8>, ViewError> {
    let mut dump = Dump::new(alloc, maker)?;
    let mut octets = Vec::new(alloc);
    let mut out = Written::new(&mut octets);
    for line in lines.as_bytes().split(|octet| *octet == b'\n') {
        if let Some(line) = read(line) {
            dump.take_line(&mut out, line)?;
        }
    }
    dump.finish(&mut out)?;
    Ok(octets)
}

/// Expects that a text was made.
fn expect(rt: &impl Abort, made: &[u8], text: &str) {
    assert!(rt; made == text.as_bytes(), "{text}");
}

/// How objects are written.
fn settings() -> giop_json_messages::Settings {
    giop_json_messages::Settings {
        options: options(false),
        hold: 64,
    }
}

#[test]
fn a_message_is_an_object(rt: HostRuntime) -> Result<(), ViewError> {
    let messages = Messages::new(rt.alloc(), settings());
    expect(&rt, &made_of(rt.alloc(), messages, ASKED)?, OBJECTS);
    Ok(())
}

#[test]
fn a_call_is_an_object(rt: HostRuntime) -> Result<(), ViewError> {
    let calls = Calls::new(rt.alloc(), settings());
    expect(&rt, &made_of(rt.alloc(), calls, ASKED)?, CALL);
    Ok(())
}

#[test]
fn a_call_is_counted(rt: HostRuntime) -> Result<(), ViewError> {
    let window = Window {
        first: None,
        last: None,
    };
    let settings = giop_stat_counts::Settings {
        by: None,
        window,
        is_json: false,
        has_connections: false,
    };
    let stat = Stat::new(rt.alloc(), settings)?;
    expect(&rt, &made_of(rt.alloc(), stat, ANSWERED)?, COUNTS);
    Ok(())
}
