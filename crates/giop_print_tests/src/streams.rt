//! The lines of two worked streams.

use crate::place::placed;
use giop_cdr::{Number, Order, Prim};
use giop_print::{
    MessageHeader, Out, OutFault, Path, Piece, Root, Value, call_line, cancelled_line,
    continues_line, end_line, fault_line, interface_call_line, piece_line, rest_line, start_line,
    stream_fault_line, total_line, unfinished_line, value_line,
};

/// A header of a message that no fragments follow.
pub fn header(minor: u8, order: Order, kind: u8, size: u32) -> MessageHeader {
    MessageHeader {
        minor,
        order,
        kind,
        size,
        more: false,
    }
}

/// The lines of a stream with one Request: its start, header, call, body and end, and the total.
pub fn request<O: Out>(out: &mut O) -> Result<(), OutFault> {
    let mut path = Path::new(Root::Header);
    start_line(out, 1, header(0, Order::Big, 0, 36))?;
    path.push_name(b"service_contexts");
    value_line(out, &placed(1, &path), Value::Count(0))?;
    path.restart(Root::Header);
    path.push_name(b"request_id");
    value_line(
        out,
        &placed(1, &path),
        Value::Primitive(Prim::ULong, Number::Unsigned(7)),
    )?;
    request_target(out, &mut path)?;
    call_line(out, 1, 7, b"set")?;
    request_body(out, &mut path)?;
    end_line(out, 1)?;
    total_line(out, 1, 0, 48)
}

fn request_target<O: Out>(out: &mut O, path: &mut Path) -> Result<(), OutFault> {
    path.restart(Root::Header);
    path.push_name(b"object_key");
    piece_line(out, &placed(1, path), Piece::Octets(b"k1"), 0, false)?;
    path.restart(Root::Header);
    path.push_name(b"operation");
    piece_line(out, &placed(1, path), Piece::Text(b"set"), 0, false)
}

fn request_body<O: Out>(out: &mut O, path: &mut Path) -> Result<(), OutFault> {
    path.restart(Root::Header);
    path.push_name(b"requesting_principal");
    piece_line(out, &placed(1, path), Piece::Octets(b""), 0, false)?;
    path.restart(Root::Body);
    path.push_name(b"v");
    let value = Value::Primitive(Prim::Long, Number::Signed(-5));
    value_line(out, &placed(1, path), value)
}

pub const REQUEST: &[u8] = b"m1 start 1.0 big Request size 36
m1 header.service_contexts count 0
m1 header.request_id ulong 7
m1 header.object_key octets @0 6b31
m1 header.operation string @0 \"set\"
m1 call 7 set
m1 header.requesting_principal octets @0
m1 body.v long -5
m1 end
total messages 1 faults 0 octets 48
";

/// Fragments, a cancel, faults and a stream that breaks off.
pub fn fragments<O: Out>(out: &mut O) -> Result<(), OutFault> {
    let mut first = header(2, Order::Little, 7, 6);
    first.more = true;
    start_line(out, 3, first)?;
    start_line(out, 4, header(2, Order::Big, 9, 0))?;
    continues_line(out, 3, 1)?;
    interface_call_line(out, 4, 7, b"get", b"IDL:Orders:1.0")?;
    cancelled_line(out, 1, 2)?;
    rest_line(out, 1, 32, b"\x00\x00\x00\x2a\x09")?;
    fault_line(out, 17, "too-many-open", 272)?;
    stream_fault_line(out, "stream-limit", 281_474_976_710_657)?;
    unfinished_line(out, 16)?;
    total_line(out, 0, 1, 281_474_976_710_657)
}

pub const FRAGMENTS: &[u8] = b"m3 start 1.2 little Fragment size 6 more
m4 start 1.2 big 9 size 0
m3 continues m1
m4 call 7 get IDL:Orders:1.0
m1 cancelled by m2
m1 rest @32 0000002a09
m17 fault too-many-open at 272
stream fault stream-limit at 281474976710657
m16 unfinished
total messages 0 faults 1 octets 281474976710657
";
