//! What is kept of a message for its object.

use crate::objects::put_later_lines;
use giop_cdr::Order;
use giop_json_values::{JsonText, Options, Values};
use giop_lines::{Statement, Value};
use giop_view_parts::{Facts, Header, Key, Message, ViewData, replace_octets};
use std::alloc::{AllocError, Global};

/// The values of a message, and where the part that is held begins.
#[derive(Drop)]
pub struct MessageParts {
    pub(crate) values: Values,
    /// How many parts the message has, with the one that is held.
    pub(crate) parts: u64,
    // The path of the first value of the part that is held, and the offset, if that value is the middle of a content.
    at: Vec<u8>,
    offset: u64,
    // Lines of later versions, each with its LF.
    later: Vec<u8>,
    later_size: u64,
}

impl ViewData for MessageParts {
    fn new(alloc: Global) -> MessageParts {
        MessageParts {
            values: Values::new(alloc),
            parts: 1,
            at: Vec::new(alloc),
            offset: 0,
            later: Vec::new(alloc),
            later_size: 0,
        }
    }

    fn clear(&mut self) {
        self.values.forget_message();
        self.parts = 0;
        self.begin_next_part();
    }

    fn text_octets(&self) -> u64 {
        self.values.size().saturating_add(self.later_size)
    }
}

impl MessageParts {
    /// Takes a line of a value.
    #[inline]
    pub(crate) fn take_value(
        &mut self,
        options: Options,
        path: &[u8],
        value: Value<'_>,
    ) -> Result<(), AllocError> {
        // A part begins with the first value that isn't left out.
        if self.parts == 1 || !self.at.is_empty() || self.values.leaves_out(options, path, value) {
            return self.values.take_value(options, path, value);
        }
        let offset = match value {
            Value::Piece(piece) => u64::from(piece.offset),
            _ => 0,
        };
        self.note_part_start(path, offset)?;
        let lacks = self.values.lacks_lines();
        self.values.take_value(options, path, value)?;
        self.values.set_lacks_lines(lacks);
        Ok(())
    }

    /// Takes what the message has after its body, or a line of a later version.
    pub(crate) fn take_rest_or_later(
        &mut self,
        key: Key,
        said: Statement<'_>,
    ) -> Result<(), AllocError> {
        match said {
            Statement::Rest(offset, octets) => self.take_after_body(offset, octets),
            Statement::Later(text) => self.take_later_line(key, text),
            _ => Ok(()),
        }
    }

    fn take_after_body(&mut self, offset: u64, octets: &[u8]) -> Result<(), AllocError> {
        if self.parts == 1 || !self.at.is_empty() {
            return self.values.take_after_body(offset, octets);
        }
        self.note_part_start(b"rest", offset)?;
        let lacks = self.values.lacks_lines();
        self.values.take_after_body(offset, octets)?;
        self.values.set_lacks_lines(lacks);
        Ok(())
    }

    fn take_later_line(&mut self, key: Key, text: &[u8]) -> Result<(), AllocError> {
        let start = self.later.len();
        append_later_line(&mut self.later, key, text)?;
        let size = self.later.len().saturating_sub(start) as u64;
        self.later_size = self.later_size.saturating_add(size);
        self.later.push(b'\n')?;
        Ok(())
    }

    /// Notes where a part begins.
    fn note_part_start(&mut self, path: &[u8], offset: u64) -> Result<(), AllocError> {
        self.offset = offset;
        replace_octets(&mut self.at, path)
    }

    /// Begins the next part: nothing is held.
    pub(crate) fn begin_next_part(&mut self) {
        self.parts = self.parts.saturating_add(1);
        self.at.clear();
        self.offset = 0;
        self.later.clear();
        self.later_size = 0;
    }
}

/// Writes what comes before the values of a message.
pub(crate) fn put_members_before_values(
    text: &mut JsonText,
    message: &Message<MessageParts>,
    is_last: bool,
) -> Result<(), AllocError> {
    let own = &message.own;
    text.number_member("message", message.key.number)?;
    if own.parts > 1 || !is_last {
        text.number_member("part", own.parts)?;
    }
    if own.parts > 1 {
        if is_last {
            text.number_member("parts", own.parts)?;
        }
        text.text_member_if_known("at", &own.at)?;
        text.number_member_if_known("offset", own.offset)?;
    }
    put_facts(text, &message.facts)
}

/// Writes the members for what the lines of a message say in addition to its values.
fn put_facts(text: &mut JsonText, facts: &Facts) -> Result<(), AllocError> {
    if let Some(header) = facts.header {
        put_header(text, header, &facts.word)?;
    }
    text.text_member_if_known("time", &facts.time)?;
    text.number_member_if_known("packet", facts.packet)?;
    if let Some(call) = facts.call {
        text.number_member("call", u64::from(call))?;
    }
    text.text_member_if_known("operation", &facts.operation)?;
    text.text_member_if_known("interface", &facts.interface)?;
    if let Some(call) = facts.answers {
        text.key("answers")?;
        text.open(false)?;
        text.number_member("stream", call.stream)?;
        text.number_member("message", call.number)?;
        text.close(false)?;
    }
    if facts.seconds.is_empty() {
        return Ok(());
    }
    text.key("seconds")?;
    text.number(&facts.seconds)
}

fn put_header(text: &mut JsonText, header: Header, kind: &[u8]) -> Result<(), AllocError> {
    text.key("version")?;
    text.string(version_text(header))?;
    text.key("order")?;
    text.string(match header.order {
        Order::Big => "big",
        Order::Little => "little",
    })?;
    text.key("type")?;
    text.octets(kind)?;
    text.number_member("size", u64::from(header.size))?;
    text.true_member_if("more", header.more)
}

/// The version of a message's header.
pub(crate) fn version_text(header: Header) -> &'static str {
    match header.minor {
        0 => "1.0",
        1 => "1.1",
        _ => "1.2",
    }
}

/// Writes what comes after the values. If other parts follow, that is only the lines of later versions. Returns the text.
pub(crate) fn put_members_after_values(
    alloc: Global,
    message: &mut Message<MessageParts>,
    is_last: bool,
) -> Result<Vec<u8>, AllocError> {
    let own = &mut message.own;
    let facts = &message.facts;
    let is_cut = own.values.lacks_lines() || facts.header.is_none() || !message.has_ended;
    let text = own.values.close_values()?;
    if is_last {
        text.text_member_if_known("raises", &facts.raises)?;
        text.number_member_if_known("continues", facts.continues)?;
        text.number_member_if_known("cancelled_by", facts.cancelled_by)?;
        text.true_member_if("unfinished", facts.is_unfinished)?;
        facts.fault.put_member(text)?;
        if message.fragments > 0 {
            text.number_member("fragments", message.fragments)?;
            text.number_member("octets", message.octets)?;
        }
        text.true_member_if("cut", is_cut)?;
    }
    put_later_lines(text, &own.later)?;
    text.close(false)?;
    Ok(own.values.take_text(alloc))
}

/// Appends a line of a later version, without its LF.
pub(crate) fn append_later_line(
    lines: &mut Vec<u8>,
    key: Key,
    text: &[u8],
) -> Result<(), AllocError> {
    for (letter, number) in [(b's', key.stream), (b'm', key.number)] {
        if number > 0 {
            lines.push(letter)?;
            lines.extend_from_slice(itoa::Buffer::new().format(number).as_bytes())?;
            lines.push(b' ')?;
        }
    }
    lines.extend_from_slice(text)
}
