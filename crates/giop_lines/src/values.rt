//! Values after their paths: the word of a kind, and then the value.

ghost use Rattle.std.specs.Prelude.{◌≡◌, ◌++◌, codes, IfSome, Some};
ghost use Rattle.giop_print.specs.Lines.{order_word};
ghost use Rattle.giop_lines.specs.Values.{value_text, IsValue};

use crate::line::{Content, Value};
use crate::names::{is_member_name, is_number_name};
use crate::numbers::{integer, number, number_of_hex_digits, ulong};
use crate::pieces::{octets_piece, rest_piece, text_piece};
use crate::texts::is_escaped_text;
use crate::words::{after, before, split_at_space_if_any};
use giop_cdr::Order;

/// Reads a value of a known kind.
pub fn value(text: &[u8]) -> Option<Value<'_>>
    ensures spelled { IfSome result (λ v. text.now ≡ value_text v) }
    ensures fields { IfSome result IsValue }
{
    match text {
        [b's', ..] | [b'o', ..] => value_of_s_or_o(text),
        [b'u', ..] | [b'l', ..] => value_of_u_or_l(text),
        [b'b', ..] | [b'e', ..] | [b'c', ..] => value_of_b_e_or_c(text),
        _ => value_of_other_kind(text),
    }
}

/// Reads a value whose kind begins with `s` or `o`.
fn value_of_s_or_o(text: &[u8]) -> Option<Value<'_>>
    ensures spelled { IfSome result (λ v. text.now ≡ value_text v) }
    ensures fields { IfSome result IsValue }
{
    if let Some(rest) = after(text, b"string ") {
        return text_piece(rest);
    }
    if let Some(rest) = after(text, b"octets ") {
        return octets_piece(Content::Octets, rest);
    }
    if let Some(rest) = after(text, b"octet ") {
        return Some(Value::Octet(u8::try_from(number(rest)?).ok()?));
    }
    if let Some(rest) = after(text, b"short ") {
        return Some(Value::Short(i16::try_from(integer(rest)?).ok()?));
    }
    Some(Value::Order(order_of_word(after(text, b"order ")?)?))
}

/// Reads a value whose kind begins with `u` or `l`.
fn value_of_u_or_l(text: &[u8]) -> Option<Value<'_>>
    ensures spelled { IfSome result (λ v. text.now ≡ value_text v) }
    ensures fields { IfSome result IsValue }
{
    if let Some(rest) = after(text, b"ulong ") {
        return ulong_value(rest);
    }
    if let Some(rest) = after(text, b"long ") {
        return Some(Value::Long(i32::try_from(integer(rest)?).ok()?));
    }
    if let Some(rest) = after(text, b"ushort ") {
        return Some(Value::UShort(u16::try_from(number(rest)?).ok()?));
    }
    if let Some(rest) = after(text, b"ulonglong ") {
        return Some(Value::ULongLong(number(rest)?));
    }
    Some(Value::LongLong(integer(after(text, b"longlong ")?)?))
}

/// Reads a value whose kind begins with `b`, `e` or `c`.
fn value_of_b_e_or_c(text: &[u8]) -> Option<Value<'_>>
    ensures spelled { IfSome result (λ v. text.now ≡ value_text v) }
    ensures fields { IfSome result IsValue }
{
    if let Some(rest) = after(text, b"boolean ") {
        return boolean_value(rest);
    }
    if let Some(rest) = after(text, b"enum ") {
        return enum_value(rest);
    }
    if let Some(rest) = after(text, b"count ") {
        return Some(Value::Count(ulong(rest)?));
    }
    if let Some(rest) = after(text, b"char ") {
        return char_value(rest);
    }
    Some(Value::Encapsulation(ulong(after(text, b"encapsulation ")?)?))
}

/// Reads a value whose kind begins with another letter.
fn value_of_other_kind(text: &[u8]) -> Option<Value<'_>>
    ensures spelled { IfSome result (λ v. text.now ≡ value_text v) }
    ensures fields { IfSome result IsValue }
{
    if let Some(rest) = after(text, b"double ") {
        return double_value(rest);
    }
    if let Some(rest) = after(text, b"float ") {
        return float_value(rest);
    }
    if let Some(rest) = after(text, b"rest ") {
        return rest_piece(rest);
    }
    if let Some(rest) = after(text, b"wstring ") {
        return octets_piece(Content::WideString, rest);
    }
    octets_piece(Content::WideChar, after(text, b"wchar ")?)
}

/// Reads a `ulong`, after the word of its kind. The name of its number may follow it.
fn ulong_value(text: &[u8]) -> Option<Value<'_>>
    ensures spelled { IfSome result (λ v. codes "ulong " ++ text.now ≡ value_text v) }
    ensures fields { IfSome result IsValue }
{
    let (digits, name) = split_at_space_if_any(text);
    let n = ulong(digits)?;
    match name {
        None => Some(Value::ULong(n)),
        Some(name) if is_number_name(name) => Some(Value::Named(n, name)),
        Some(_) => None,
    }
}

fn enum_value(text: &[u8]) -> Option<Value<'_>>
    ensures spelled { IfSome result (λ v. codes "enum " ++ text.now ≡ value_text v) }
    ensures fields { IfSome result IsValue }
{
    if is_member_name(text) {
        Some(Value::Enum(text))
    } else {
        None
    }
}

fn boolean_value(text: &[u8]) -> Option<Value<'_>>
    ensures spelled { IfSome result (λ v. codes "boolean " ++ text.now ≡ value_text v) }
    ensures fields { IfSome result IsValue }
{
    match text {
        b"true" => Some(Value::Boolean(true)),
        b"false" => Some(Value::Boolean(false)),
        _ => None,
    }
}

fn char_value(text: &[u8]) -> Option<Value<'_>>
    ensures spelled { IfSome result (λ v. codes "char " ++ text.now ≡ value_text v) }
    ensures fields { IfSome result IsValue }
{
    let octet = before(after(text, b"\"")?, b"\"")?;
    if !octet.is_empty() && is_escaped_text(octet, 1) {
        Some(Value::Char(octet))
    } else {
        None
    }
}

fn float_value(text: &[u8]) -> Option<Value<'_>>
    ensures spelled { IfSome result (λ v. codes "float " ++ text.now ≡ value_text v) }
    ensures fields { IfSome result IsValue }
{
    if text.len() == 8 {
        Some(Value::Float(u32::try_from(number_of_hex_digits(text)?).ok()?))
    } else {
        None
    }
}

fn double_value(text: &[u8]) -> Option<Value<'_>>
    ensures spelled { IfSome result (λ v. codes "double " ++ text.now ≡ value_text v) }
    ensures fields { IfSome result IsValue }
{
    if text.len() == 16 {
        Some(Value::Double(number_of_hex_digits(text)?))
    } else {
        None
    }
}

/// The byte order that a word names.
pub fn order_of_word(word: &[u8]) -> Option<Order>
    ensures { IfSome result (λ o. word.now ≡ order_word o) }
{
    match word {
        b"big" => Some(Order::Big),
        b"little" => Some(Order::Little),
        _ => None,
    }
}
