//! The fixed words of the lines: orders, message types, kinds.

ghost use Rattle.std.specs.Prelude.{◌≡◌, ◌+◌, ◌≤◌, ◌++◌, length};
ghost use Rattle.giop_print.specs.Line.{line_text, line_room};
ghost use Rattle.giop_print.specs.Lines.{order_word, type_word, more_word, truth_word, kind_word, piece_word, spaced};

use crate::line::Line;
use crate::value::Piece;
use giop_cdr::{Order, Prim};

/// The word of an order.
pub fn order_word(order: Order) -> &'static [u8]
    ensures value { result.now ≡ order_word order }
    ensures short { length result.now ≤ 6 }
{
    match order {
        Order::Big => b"big",
        Order::Little => b"little",
    }
}

/// Puts the word of an order before what was spelled of a line.
#[inline(always)]
pub fn put_order(line: &mut Line, order: Order)
    requires { 6 ≤ line_room line.old }
    ensures text { line_text line.new ≡ order_word order ++ line_text line.old }
    ensures room { line_room line.old ≤ line_room line.new + 6 }
{
    match order {
        Order::Big => line.put_octets(b"big"),
        Order::Little => line.put_octets(b"little"),
    }
}

/// Puts the word of a message type before what was spelled of a line, or its number if the type is
/// above 7.
#[tactic(auto, unfolding(crate::specs::Lines::type_word))]
#[inline(always)]
pub fn put_type(line: &mut Line, kind: u8)
    requires { 20 ≤ line_room line.old }
    ensures text { line_text line.new ≡ type_word kind ++ line_text line.old }
    ensures room { line_room line.old ≤ line_room line.new + 20 }
{
    match kind {
        0 => line.put_octets(b"Request"),
        1 => line.put_octets(b"Reply"),
        2 => line.put_octets(b"CancelRequest"),
        3 => line.put_octets(b"LocateRequest"),
        4 => line.put_octets(b"LocateReply"),
        5 => line.put_octets(b"CloseConnection"),
        6 => line.put_octets(b"MessageError"),
        7 => line.put_octets(b"Fragment"),
        _ => line.put_number(u64::from(kind)),
    }
}

/// Puts ` more` before what was spelled of a line, if more comes.
#[inline(always)]
pub fn put_more(line: &mut Line, more: bool)
    requires { 5 ≤ line_room line.old }
    ensures text { line_text line.new ≡ more_word more ++ line_text line.old }
    ensures room { line_room line.old ≤ line_room line.new + 5 }
{
    if more {
        line.put_octets(b" more");
    }
}

/// The word of a boolean.
pub fn truth_word(truth: bool) -> &'static [u8]
    ensures value { result.now ≡ truth_word truth }
    ensures short { length result.now ≤ 5 }
{
    if truth { b"true" } else { b"false" }
}

/// Puts the word of a primitive's kind, between spaces, before what was spelled of a line. There is
/// a copy of the code for each word, so that the compiler knows the length of the word.
#[inline(always)]
pub fn put_kind(line: &mut Line, prim: Prim)
    requires { 11 ≤ line_room line.old }
    ensures text { line_text line.new ≡ spaced (kind_word prim) ++ line_text line.old }
    ensures room { line_room line.old ≤ line_room line.new + 11 }
{
    match prim {
        Prim::Octet => line.put_octets(b" octet "),
        Prim::Char => line.put_octets(b" char "),
        Prim::Boolean => line.put_octets(b" boolean "),
        Prim::Short => line.put_octets(b" short "),
        Prim::UShort => line.put_octets(b" ushort "),
        Prim::Long => line.put_octets(b" long "),
        Prim::ULong => line.put_octets(b" ulong "),
        Prim::LongLong => line.put_octets(b" longlong "),
        Prim::ULongLong => line.put_octets(b" ulonglong "),
        Prim::Float => line.put_octets(b" float "),
        Prim::Double => line.put_octets(b" double "),
    }
}

/// Puts the word of a piece's kind, up to its offset, before what was spelled of a line.
#[inline(always)]
pub fn put_piece_word(line: &mut Line, piece: Piece<'_>)
    requires { 10 ≤ line_room line.old }
    ensures text { line_text line.new ≡ piece_word piece.entry ++ line_text line.old }
    ensures room { line_room line.old ≤ line_room line.new + 10 }
{
    match piece {
        Piece::Text(_) => line.put_octets(b" string @"),
        Piece::Octets(_) => line.put_octets(b" octets @"),
        Piece::WideText(_) => line.put_octets(b" wstring @"),
        Piece::WideChar(_) => line.put_octets(b" wchar @"),
    }
}
