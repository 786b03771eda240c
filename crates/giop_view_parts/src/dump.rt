//! A dump: its lines by stream and message, and when a stream or message is over.

use crate::connections::ConnectionEnding;
use crate::fault::ViewError;
use crate::message::{Key, Message, ViewData};
use crate::open::Open;
use crate::streams::{Stream, Streams};
use crate::view::{Notice, View, ends_message, may_follow_end};
use giop_lines::{DumpLine, Start, Statement, Value};
use giop_print::Out;
use std::alloc::{AllocError, Global};

/// Something that makes an output of messages and streams.
pub trait Maker {
    /// What is kept of a message in addition to its facts.
    type ViewData: ViewData;

    /// Takes a value of a message.
    fn take_value(
        &mut self,
        message: &mut Message<Self::ViewData>,
        path: &[u8],
        value: Value<'_>,
    ) -> Result<(), AllocError>;

    /// Takes a line of a message that is neither a value nor a fact.
    fn take_rest_or_later(
        &mut self,
        _message: &mut Message<Self::ViewData>,
        _said: Statement<'_>,
    ) -> Result<(), AllocError> {
        Ok(())
    }

    /// Takes a message that is over. It was open until now.
    fn end_message<O: Out>(
        &mut self,
        out: &mut O,
        streams: &Streams,
        open: &mut Open<Self::ViewData>,
        message: Box<Message<Self::ViewData>>,
    ) -> Result<(), ViewError>;

    /// Takes a line of a stream or of a capture. The stream has noted it already.
    fn take_stream_line<O: Out>(
        &mut self,
        out: &mut O,
        stream: &Stream,
        said: Statement<'_>,
    ) -> Result<(), ViewError>;

    /// Takes a stream that is over, after its messages, and what is then known about its connection.
    fn end_stream<O: Out>(
        &mut self,
        out: &mut O,
        stream: &Stream,
        ending: ConnectionEnding,
        open: &mut Open<Self::ViewData>,
    ) -> Result<(), ViewError>;

    /// Writes all that is left, after the last stream.
    fn finish<O: Out>(
        &mut self,
        out: &mut O,
        open: &mut Open<Self::ViewData>,
    ) -> Result<(), ViewError>;

    /// Whether more is held than may be, together with what the open messages hold.
    #[inline]
    fn holds_too_much(&self, _open_octets: u64) -> bool {
        false
    }

    /// Makes room.
    fn reduce_held_text<O: Out>(
        &mut self,
        out: &mut O,
        streams: &Streams,
        open: &mut Open<Self::ViewData>,
    ) -> Result<(), ViewError>;

    /// What there was no room for, if there was anything.
    fn notice(&self) -> Option<Notice> {
        None
    }
}

/// A dump whose lines come one after another.
#[derive(Drop)]
pub struct Dump<V: Maker + Drop> {
    alloc: Global,
    streams: Streams,
    open: Open<V::ViewData>,
    maker: V,
}

impl<V: Maker + Drop> Dump<V> {
    /// Makes a dump before its first line.
    pub fn new(alloc: Global, maker: V) -> Result<Dump<V>, AllocError> {
        Ok(Dump {
            alloc,
            streams: Streams::new(alloc)?,
            open: Open::new(alloc),
            maker,
        })
    }

    /// Takes a line that isn't a value of the same message as the line before.
    fn take_other_line<O: Out>(
        &mut self,
        out: &mut O,
        key: Key,
        said: Statement<'_>,
    ) -> Result<(), ViewError> {
        if self.open.is_waiting() {
            if self.open.current_key() == Some(key) && may_follow_end(said) {
                return self.take_line_after_end(out, key, said);
            }
            self.end_current_message(out)?;
        }
        match self.open.current_key() {
            // The stream is known already.
            Some(current) if current.stream == key.stream => {}
            _ => self.enter_stream(out, key.stream)?,
        }
        if key.number == 0 {
            return self.take_stream_line(out, key.stream, said);
        }
        self.take_message_line(out, key, said)?;
        self.reduce_held_text(out)
    }

    /// Notes a stream. If there is no room for one more, the one that began first ends.
    fn enter_stream<O: Out>(&mut self, out: &mut O, stream: u64) -> Result<(), ViewError> {
        if let Some(first) = self.streams.first_if_full(stream) {
            self.end_stream(out, first)?;
        }
        self.streams.add_if_new(stream)?;
        Ok(())
    }

    /// Takes a line about a message that has ended.
    fn take_line_after_end<O: Out>(
        &mut self,
        out: &mut O,
        key: Key,
        said: Statement<'_>,
    ) -> Result<(), ViewError> {
        self.note_time(key, said)?;
        if let Some(message) = self.open.current() {
            message.take_statement(said)?;
            if message.facts.may_be_told_more() {
                return Ok(());
            }
        }
        self.end_current_message(out)
    }

    /// Ends the message of the last line.
    fn end_current_message<O: Out>(&mut self, out: &mut O) -> Result<(), ViewError> {
        match self.open.current_key() {
            None => Ok(()),
            Some(key) => self.end_message(out, key),
        }
    }

    /// Ends a message, if it is open.
    fn end_message<O: Out>(&mut self, out: &mut O, key: Key) -> Result<(), ViewError> {
        let Some(message) = self.open.remove(key) else {
            return Ok(());
        };
        if let Some(stream) = self.streams.get_mut(key.stream) {
            stream.note_sender(message.facts.kind());
        }
        self.maker
            .end_message(out, &self.streams, &mut self.open, message)
    }

    /// Ends an open message without the line that ends it.
    fn cut_message<O: Out>(&mut self, out: &mut O, key: Key) -> Result<(), ViewError> {
        if let Some(stream) = self.streams.get_mut(key.stream) {
            stream.forget_open(key.number);
        }
        self.end_message(out, key)
    }

    /// Takes a line of a message.
    fn take_message_line<O: Out>(
        &mut self,
        out: &mut O,
        key: Key,
        said: Statement<'_>,
    ) -> Result<(), ViewError> {
        if let Statement::Start(start) = said {
            self.take_start(out, key, start)?;
        }
        if !self.open.make_current(key)? {
            self.begin_message(out, key)?;
        }
        self.note_time(key, said)?;
        let Some(message) = self.open.current() else {
            return Ok(());
        };
        match said {
            Statement::Value(path, value) => {
                message.facts.note_value(path, value);
                self.maker.take_value(message, path, value)?;
            }
            Statement::Rest(_, _) | Statement::Later(_) => self
                .maker
                .take_rest_or_later(message, said)?,
            _ => message.take_statement(said)?,
        }
        if ends_message(said) {
            return self.take_ending_line(out, key, said);
        }
        Ok(())
    }

    /// Ends what the start of a message ends: an open message of the same number, and the last message that began, if that
    /// is in one piece.
    fn take_start<O: Out>(
        &mut self,
        out: &mut O,
        key: Key,
        start: Start<'_>,
    ) -> Result<(), ViewError> {
        let Some(stream) = self.streams.get_mut(key.stream) else {
            return Ok(());
        };
        let is_alone = !start.more || start.kind == b"Fragment".as_slice();
        let before = stream.swap_last_in_one_piece(if is_alone { key.number } else { 0 });
        for number in [before, key.number] {
            let other = Key {
                stream: key.stream,
                number,
            };
            if number > 0 && self.open.contains(other) {
                self.cut_message(out, other)?;
            }
        }
        Ok(())
    }

    /// Begins a message that isn't open. If there is no room for one more, the one that began first ends.
    fn begin_message<O: Out>(&mut self, out: &mut O, key: Key) -> Result<(), ViewError> {
        if let Some(first) = self.open.first_if_full() {
            self.cut_message(out, first)?;
        }
        if let Some(stream) = self.streams.get_mut(key.stream) {
            stream.note_open(key.number)?;
        }
        self.open.begin_message(self.alloc, key)?;
        Ok(())
    }

    /// Notes the time of a message as the last one of its stream.
    fn note_time(&mut self, key: Key, said: Statement<'_>) -> Result<(), AllocError> {
        if let Statement::Time(time) = said
            && let Some(stream) = self.streams.get_mut(key.stream)
        {
            stream.note_last_time(time.time)?;
        }
        Ok(())
    }

    /// Takes the line that ends the current message.
    fn take_ending_line<O: Out>(
        &mut self,
        out: &mut O,
        key: Key,
        said: Statement<'_>,
    ) -> Result<(), ViewError> {
        if let Some(stream) = self.streams.get_mut(key.stream) {
            stream.forget_open(key.number);
        }
        if let Statement::Continues(number) = said {
            self.open.count_fragment(number)?;
        }
        if let Some(message) = self.open.current()
            && key.stream > 0
            && message.facts.may_be_told_more()
        {
            message.is_waiting = true;
            return Ok(());
        }
        self.end_message(out, key)
    }

    /// Takes a line of a stream or a capture.
    fn take_stream_line<O: Out>(
        &mut self,
        out: &mut O,
        number: u64,
        said: Statement<'_>,
    ) -> Result<(), ViewError> {
        self.streams.take_statement(number, said)?;
        if let Some(stream) = self.streams.get(number) {
            self.maker.take_stream_line(out, stream, said)?;
        }
        if let Statement::Total(_) = said {
            return self.end_stream(out, number);
        }
        Ok(())
    }

    /// Ends a stream, after its open messages.
    fn end_stream<O: Out>(&mut self, out: &mut O, number: u64) -> Result<(), ViewError> {
        let Some(stream) = self.streams.get_mut(number) else {
            return Ok(());
        };
        for message in stream.take_open_messages(self.alloc) {
            let key = Key {
                stream: number,
                number: message,
            };
            self.end_message(out, key)?;
        }
        match self.streams.remove_stream(number) {
            None => Ok(()),
            Some((stream, ending)) => {
                self.maker.end_stream(out, &stream, ending, &mut self.open)
            }
        }
    }

    /// Makes room, if more is held than may be.
    #[inline]
    fn reduce_held_text<O: Out>(&mut self, out: &mut O) -> Result<(), ViewError> {
        if !self.maker.holds_too_much(self.open.held_octets()) {
            return Ok(());
        }
        self.maker
            .reduce_held_text(out, &self.streams, &mut self.open)
    }
}

impl<V: Maker + Drop> View for Dump<V> {
    #[inline]
    fn take_line<O: Out>(&mut self, out: &mut O, line: DumpLine<'_>) -> Result<(), ViewError> {
        let key = Key {
            stream: line.stream,
            number: line.message,
        };
        if let Statement::Value(path, value) = line.said
            && let Some(message) = self.open.current()
            && message.key == key
            && !message.is_waiting
        {
            message.facts.note_value(path, value);
            self.maker.take_value(message, path, value)?;
            return self.reduce_held_text(out);
        }
        self.take_other_line(out, key, line.said)
    }

    fn finish<O: Out>(&mut self, out: &mut O) -> Result<(), ViewError> {
        if self.open.is_waiting() {
            self.end_current_message(out)?;
        }
        for _ in 0..self.streams.len() {
            match self.streams.first_begun() {
                None => break,
                Some(number) => self.end_stream(out, number)?,
            }
        }
        self.maker.finish(out, &mut self.open)
    }

    fn notice(&self) -> Option<Notice> {
        self.maker.notice()
    }
}
