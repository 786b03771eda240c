//! What is kept of a message in addition to its facts: the value that it is counted by.

use crate::choice::Grouping;
use giop_cdr::Order;
use giop_lines::{Content, Value};
use giop_view_parts::{ViewData, append_hex_as_text};
use std::alloc::{AllocError, Global};

/// The greatest length of a value that calls are counted by, in octets. A longer value is cut.
const VALUE_MAX: usize = 128;

/// The value that a message is counted by. It is empty if it isn't known.
#[derive(Drop)]
pub struct GroupingValue {
    pub(crate) value: Vec<u8>,
}

impl ViewData for GroupingValue {
    fn new(alloc: Global) -> GroupingValue {
        GroupingValue {
            value: Vec::new(alloc),
        }
    }

    fn clear(&mut self) {
        self.value.clear();
    }

    fn text_octets(&self) -> u64 {
        0
    }
}

impl GroupingValue {
    /// Takes a value, if the message is counted by it.
    pub(crate) fn take_value(
        &mut self,
        by: Grouping<'_>,
        path: &[u8],
        value: Value<'_>,
    ) -> Result<(), AllocError> {
        match by {
            Grouping::Path(wanted) if path == wanted.as_bytes() => put_value(
                &mut self.value,
                value,
            )?,
            Grouping::Object => {
                if let Value::Piece(piece) = value
                    && !matches!(piece.content, Content::Text | Content::Rest)
                    && matches!(path, b"header.object_key" | b"header.target.object_key")
                {
                    append_hex_as_text(&mut self.value, piece.octets)?;
                }
            }
            _ => {}
        }
        self.value.truncate(VALUE_MAX);
        Ok(())
    }
}

/// Appends a value in the form that its line has.
fn put_value(text: &mut Vec<u8>, value: Value<'_>) -> Result<(), AllocError> {
    match value {
        Value::Octet(number) => put_number(text, number),
        Value::Short(number) => put_number(text, number),
        Value::UShort(number) => put_number(text, number),
        Value::Long(number) => put_number(text, number),
        Value::LongLong(number) => put_number(text, number),
        Value::ULongLong(number) => put_number(text, number),
        Value::ULong(number)
        | Value::Named(number, _)
        | Value::Count(number)
        | Value::Encapsulation(number) => put_number(text, number),
        Value::Float(bits) => put_hex_digits(text, u64::from(bits), 8),
        Value::Double(bits) => put_hex_digits(text, bits, 16),
        Value::Boolean(true) => text.extend_from_slice(b"true"),
        Value::Boolean(false) => text.extend_from_slice(b"false"),
        Value::Order(Order::Big) => text.extend_from_slice(b"big"),
        Value::Order(Order::Little) => text.extend_from_slice(b"little"),
        Value::Char(octets) | Value::Enum(octets) => text.extend_from_slice(octets),
        Value::Piece(piece) => text.extend_from_slice(piece.octets),
    }
}

fn put_number<I: itoa::Integer>(text: &mut Vec<u8>, number: I) -> Result<(), AllocError> {
    text.extend_from_slice(itoa::Buffer::new().format(number).as_bytes())
}

/// Appends bits as this number of hexadecimal digits.
fn put_hex_digits(text: &mut Vec<u8>, bits: u64, count: u32) -> Result<(), AllocError> {
    let digits = b"0123456789abcdef";
    for index in 0..count.min(16) {
        let after = count.min(16) - 1 - index;
        text.push(digits[(bits >> (4 * after) & 15) as usize])?;
    }
    Ok(())
}
