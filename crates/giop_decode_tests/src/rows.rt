//! A row of the table: a value's octets, and what is told of it.

use giop_cdr::Order;
use giop_print::Root;
use giop_sig::TypeId;

/// A value from its first octet to its last, at an offset of message 1.
#[derive(Clone, Copy)]
pub struct Row<'a> {
    pub name: &'a str,
    pub of: TypeId,
    pub order: Order,
    pub offset: u64,
    pub root: Root,
    /// In hexadecimal digits, where `xx*n` is n times.
    pub octets: &'a str,
    /// Lines, each with how many octets were taken, the answer at the last of these, and what the readers tell from then
    /// on: the request id, the status and the name, each `-` where there is none. The answer at any other octet is
    /// `more`.
    pub told: &'a str,
    pub lines: &'a str,
}

/// The row that a text spells: a line with its name, one with its type's number, its byte order, its offset and its
/// root, one with its octets, what is told, a line `lines`, and its lines.
pub fn row_of(text: &str) -> Row {
    let mut parts = text.splitn(4, '\n');
    let name = parts.next().unwrap_or("");
    let mut place = parts.next().unwrap_or("").split(' ');
    let of = TypeId(u32::from_str_radix(place.next().unwrap_or(""), 10).unwrap_or(0));
    let order = order_of(place.next().unwrap_or(""));
    let offset = u64::from_str_radix(place.next().unwrap_or(""), 10).unwrap_or(0);
    let root = root_of(place.next().unwrap_or(""));
    let octets = parts.next().unwrap_or("");
    let (told, lines) = parts
        .next()
        .unwrap_or("")
        .split_once("lines\n")
        .unwrap_or(("", ""));
    Row {
        name,
        of,
        order,
        offset,
        root,
        octets,
        told,
        lines,
    }
}

/// The byte order that a word names.
fn order_of(word: &str) -> Order {
    if word == "little" {
        Order::Little
    } else {
        Order::Big
    }
}

/// The root that a word names.
fn root_of(word: &str) -> Root {
    if word == "header" {
        Root::Header
    } else if word == "exception" {
        Root::Exception
    } else {
        Root::Body
    }
}
