//! An object for each message, stream and capture, after it is over.

ghost use Rattle.std.specs.Prelude.{◌≡◌, ◌++◌, [], codes, if◌then◌else◌, OnOk};
ghost use Rattle.giop_json_messages.specs.Members.{begins_member};

use crate::message::{
    MessageParts, append_later_line, put_members_after_values, put_members_before_values,
};
use crate::objects::{ReusedBuffer, Settings, put_json_in_ascii, put_later_lines};
use giop_json_values::JsonText;
use giop_lines::{Statement, Value};
use giop_print::Out;
use giop_view_parts::{
    Capture, ConnectionEnding, Key, Maker, Message, Notice, OPEN_MAX, Open, Stream, Streams,
    ViewError,
};
use std::alloc::{AllocError, Global};

/// Writes an object for each message, stream and capture.
#[derive(Drop)]
pub struct Messages {
    alloc: Global,
    settings: Settings,
    room: ReusedBuffer,
    capture: Capture,
    in_parts: u64,
}

impl Messages {
    /// Makes one that has written nothing.
    pub fn new(alloc: Global, settings: Settings) -> Messages {
        Messages {
            alloc,
            settings,
            room: ReusedBuffer::new(alloc),
            capture: Capture::new(alloc),
            in_parts: 0,
        }
    }

    /// Writes the object of a message, or of the part of it that is held.
    fn put_message<O: Out>(
        &mut self,
        out: &mut O,
        stream: Option<&Stream>,
        message: &mut Message<MessageParts>,
        is_last: bool,
    ) -> Result<(), ViewError> {
        let mut front = self.room.begin_text();
        front.open(false)?;
        if let Some(stream) = stream {
            put_stream_identity(&mut front, stream)?;
        }
        put_members_before_values(&mut front, message, is_last)?;
        let mut values = put_members_after_values(self.alloc, message, is_last)?;
        let mut front = front.into_octets();
        add_comma_before(&mut front, &values)?;
        values.push(b'\n')?;
        out.put_all(&front)?;
        put_json_in_ascii(out, &values)?;
        self.room.take_back(front);
        message.own.values.reuse_buffer(values);
        Ok(())
    }

    /// Writes a line of a stream that a later version has.
    fn put_later_object<O: Out>(
        &mut self,
        out: &mut O,
        stream: &Stream,
        later: &[u8],
    ) -> Result<(), ViewError> {
        let mut line = Vec::new(self.alloc);
        let key = Key {
            stream: stream.number,
            number: 0,
        };
        append_later_line(&mut line, key, later)?;
        let mut text = self.room.begin_text();
        text.open(false)?;
        put_stream_identity(&mut text, stream)?;
        put_later_lines(&mut text, &line)?;
        text.close(false)?;
        self.room.put_line(out, text)
    }

    /// Writes the object of a capture.
    fn put_capture<O: Out>(&mut self, out: &mut O) -> Result<(), ViewError> {
        let mut text = self.room.begin_text();
        self.capture.put_object(&mut text, true)?;
        self.capture = Capture::new(self.alloc);
        self.room.put_line(out, text)
    }

    /// Writes what is held of a message as a part of it. After that nothing of the message is held.
    fn put_part<O: Out>(
        &mut self,
        out: &mut O,
        streams: &Streams,
        open: &mut Open<MessageParts>,
        key: Key,
    ) -> Result<(), ViewError> {
        let is_current = open.current_key() == Some(key);
        let Some(mut message) = open.remove(key) else {
            return Ok(());
        };
        if message.own.parts == 1 {
            self.in_parts = self.in_parts.saturating_add(1);
        }
        self.put_message(out, streams.get(key.stream), &mut message, false)?;
        message.own.begin_next_part();
        open.put_back(message, is_current)?;
        Ok(())
    }
}

impl Maker for Messages {
    type ViewData = MessageParts;

    #[inline]
    fn take_value(
        &mut self,
        message: &mut Message<MessageParts>,
        path: &[u8],
        value: Value<'_>,
    ) -> Result<(), AllocError> {
        message.own.take_value(self.settings.options, path, value)
    }

    fn take_rest_or_later(
        &mut self,
        message: &mut Message<MessageParts>,
        said: Statement<'_>,
    ) -> Result<(), AllocError> {
        message.own.take_rest_or_later(message.key, said)
    }

    fn end_message<O: Out>(
        &mut self,
        out: &mut O,
        streams: &Streams,
        open: &mut Open<MessageParts>,
        message: Box<Message<MessageParts>>,
    ) -> Result<(), ViewError> {
        let mut message = message;
        let stream = streams.get(message.key.stream);
        self.put_message(out, stream, &mut message, true)?;
        open.keep_spare(message)?;
        Ok(())
    }

    fn take_stream_line<O: Out>(
        &mut self,
        out: &mut O,
        stream: &Stream,
        said: Statement<'_>,
    ) -> Result<(), ViewError> {
        self.capture.take_statement(said)?;
        match said {
            Statement::CaptureTotal(_) => self.put_capture(out),
            Statement::Later(later) => self.put_later_object(out, stream, later),
            _ => Ok(()),
        }
    }

    fn end_stream<O: Out>(
        &mut self,
        out: &mut O,
        stream: &Stream,
        _ending: ConnectionEnding,
        _open: &mut Open<MessageParts>,
    ) -> Result<(), ViewError> {
        if !stream.is_told {
            return Ok(());
        }
        let mut text = self.room.begin_text();
        put_stream(&mut text, stream)?;
        self.room.put_line(out, text)
    }

    fn finish<O: Out>(
        &mut self,
        out: &mut O,
        _open: &mut Open<MessageParts>,
    ) -> Result<(), ViewError> {
        if self.capture.is_empty() {
            return Ok(());
        }
        self.put_capture(out)
    }

    #[inline]
    fn holds_too_much(&self, open_octets: u64) -> bool {
        self.settings.is_over_hold(open_octets)
    }

    /// While more is held than may be, writes what is held of the message with the most text.
    fn reduce_held_text<O: Out>(
        &mut self,
        out: &mut O,
        streams: &Streams,
        open: &mut Open<MessageParts>,
    ) -> Result<(), ViewError> {
        for _ in 0..=OPEN_MAX {
            match open.most_text() {
                Some((_, key)) if self.holds_too_much(open.held_octets()) => {
                    self.put_part(out, streams, open, key)?
                }
                _ => break,
            }
        }
        Ok(())
    }

    fn notice(&self) -> Option<Notice> {
        Some(Notice {
            count: self.in_parts,
            noun: "message",
            fate: "in parts",
            is_loss: false,
        })
    }
}

/// Adds a comma to the first members of an object, if others follow.
fn add_comma_before(front: &mut Vec<u8>, others: &[u8]) -> Result<(), AllocError>
    ensures { OnOk result (front.new.items ≡ front.old.items
        ++ (if begins_member others.now then codes "," else [])) }
{
    if let [b'"', ..] = others {
        front.push(b',')?;
    }
    Ok(())
}

/// Writes the number of a stream, its connection and its endpoints.
fn put_stream_identity(text: &mut JsonText, stream: &Stream) -> Result<(), AllocError> {
    text.number_member_if_known("stream", stream.number)?;
    let Some(connection) = stream.connection else {
        return Ok(());
    };
    text.number_member("connection", connection.number)?;
    text.text_member_if_known("from", &stream.source)?;
    text.text_member_if_known("to", &stream.target)
}

/// Writes the object of a stream.
fn put_stream(text: &mut JsonText, stream: &Stream) -> Result<(), AllocError> {
    text.open(false)?;
    put_stream_identity(text, stream)?;
    text.text_member_if_known("time", &stream.time)?;
    text.text_member_if_known("last", &stream.last)?;
    text.number_member_if_known("with", stream.with)?;
    text.number_member_if_known("behind", stream.behind)?;
    text.true_member_if("found", stream.is_found)?;
    text.text_member_if_known("closed", &stream.closed)?;
    stream.fault.put_member(text)?;
    match stream.total {
        None => text.true_member_if("cut", true)?,
        Some(total) => {
            text.number_member("messages", total.messages)?;
            text.number_member("faults", total.faults)?;
            text.number_member("octets", total.octets)?;
        }
    }
    text.close(false)
}
