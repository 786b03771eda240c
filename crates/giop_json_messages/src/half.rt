//! What is kept of a Request or a Reply for the object of its call.

use giop_json_values::{Options, Values};
use giop_lines::{Content, Statement, Value};
use giop_view_parts::{ConnectionId, Message, Stream, ViewData, replace_octets};
use std::alloc::{AllocError, Global};
use std::mem;

/// The greatest length of an object key that is written, in octets.
const OBJECT_MAX: usize = 128;

/// The body and the rest of a message, and which stream and connection it is of.
#[derive(Drop)]
pub struct CallHalf {
    alloc: Global,
    values: Values,
    /// The value of the body, after the message is over. It is empty if there is none.
    pub(crate) body: Vec<u8>,
    /// What the message has after its body, in hexadecimal digits.
    pub(crate) rest: Vec<u8>,
    // The offset at which the rest goes on.
    rest_end: u64,
    // The object key in hexadecimal digits. If the key is too long, only enough digits are kept to tell this.
    object: Vec<u8>,
    lacks: bool,
    /// Whether its text was dropped because there was no room.
    pub(crate) is_dropped: bool,
    pub(crate) source: Vec<u8>,
    pub(crate) target: Vec<u8>,
    pub(crate) connection: Option<ConnectionId>,
}

impl ViewData for CallHalf {
    fn new(alloc: Global) -> CallHalf {
        CallHalf {
            alloc,
            values: Values::new(alloc),
            body: Vec::new(alloc),
            rest: Vec::new(alloc),
            rest_end: 0,
            object: Vec::new(alloc),
            lacks: false,
            is_dropped: false,
            source: Vec::new(alloc),
            target: Vec::new(alloc),
            connection: None,
        }
    }

    fn clear(&mut self) {
        self.values.forget_message();
        self.body = Vec::new(self.alloc);
        self.rest = Vec::new(self.alloc);
        self.rest_end = 0;
        self.object.clear();
        self.lacks = false;
        self.is_dropped = false;
        self.source.clear();
        self.target.clear();
        self.connection = None;
    }

    fn text_octets(&self) -> u64 {
        let texts = self.body.len().saturating_add(self.rest.len());
        self.values.size().saturating_add(texts as u64)
    }
}

impl CallHalf {
    /// Takes a value.
    #[inline]
    pub(crate) fn take_value(
        &mut self,
        options: Options,
        path: &[u8],
        value: Value<'_>,
    ) -> Result<(), AllocError> {
        if path.starts_with(b"body") {
            if self.is_dropped {
                return Ok(());
            }
            self.rest_end = 0;
            return self.values.take_value(options, path, value);
        }
        if let Value::Piece(piece) = value
            && !matches!(piece.content, Content::Text | Content::Rest)
            && matches!(path, b"header.object_key" | b"header.target.object_key")
            && self.object.len() <= 2 * OBJECT_MAX
        {
            self.object.extend_from_slice(piece.octets)?;
        }
        Ok(())
    }

    /// Takes a piece of what the message has after its body.
    pub(crate) fn take_after_body(&mut self, said: Statement<'_>) -> Result<(), AllocError> {
        let Statement::Rest(offset, octets) = said else {
            return Ok(());
        };
        if self.is_dropped {
            return Ok(());
        }
        if offset == 0 || offset != self.rest_end {
            self.lacks |= offset > 0;
            self.rest.clear();
        }
        self.rest_end = offset.saturating_add(octets.len() as u64 / 2);
        self.rest.extend_from_slice(octets)
    }

    /// Takes the end of the message, with its stream. The body is as complete as its lines came.
    pub(crate) fn finish_body(&mut self, stream: Option<&Stream>) -> Result<(), AllocError> {
        if let Some(stream) = stream {
            replace_octets(&mut self.source, &stream.source)?;
            replace_octets(&mut self.target, &stream.target)?;
            self.connection = stream.connection;
        }
        self.lacks |= self.values.lacks_lines();
        let _ = self.values.close_values()?;
        let text = self.values.take_text(self.alloc);
        self.body = Vec::from_slice(self.alloc, last_value(&text))?;
        self.values.reuse_buffer(text);
        Ok(())
    }

    /// Keeps only the room of what the message holds, because it waits. `other` may have the rest of the room.
    pub(crate) fn give_up_buffers(&mut self, other: Option<&mut Message<CallHalf>>) {
        let room = mem::replace(&mut self.values, Values::new(self.alloc));
        if let Some(message) = other {
            message.own.values = room;
        }
    }

    /// Drops the text.
    pub(crate) fn drop_text(&mut self) {
        self.is_dropped = true;
        self.values = Values::new(self.alloc);
        self.body = Vec::new(self.alloc);
        self.rest = Vec::new(self.alloc);
    }

    /// Whether values are missing.
    pub(crate) fn is_cut(&self) -> bool {
        self.is_dropped || self.lacks
    }

    /// The object key in hexadecimal digits. It is empty if no key came, or if the key is too long.
    pub(crate) fn object_key_digits(&self) -> &[u8] {
        if self.object.len() > 2 * OBJECT_MAX {
            return b"";
        }
        &self.object
    }
}

/// The value of the last one of these members. There are several if lines came twice.
fn last_value(members: &[u8]) -> &[u8] {
    let mut depth: u64 = 0;
    let mut is_text = false;
    let mut is_escaped = false;
    let mut start = members.len();
    for (place, octet) in members.iter().enumerate() {
        if is_text {
            is_text = is_escaped || *octet != b'"';
            is_escaped = !is_escaped && *octet == b'\\';
            continue;
        }
        match *octet {
            b'"' => is_text = true,
            b'{' | b'[' => depth = depth.saturating_add(1),
            b'}' | b']' => depth = depth.saturating_sub(1),
            b':' if depth == 0 => start = place.saturating_add(1),
            _ => {}
        }
    }
    members.get(start..).unwrap_or_default()
}
