//! The calls of a dump, counted, and what is written at the dump's end.

use crate::choice::Settings;
use crate::json_rows::json_of_tables;
use crate::message::GroupingValue;
use crate::tables::Tables;
use crate::text_rows::text_of_tables;
use giop_lines::{Statement, Value};
use giop_print::Out;
use giop_view_parts::{
    Capture, ConnectionEnding, Key, Kind, Maker, Message, Open, Stream, Streams, ViewError,
};
use lru::LruCache;
use std::alloc::{AllocError, Global};

/// The greatest number of calls that wait for their replies. If there is one more, the one that began first is forgotten.
const WAITING_MAX: usize = 1_048_576;

/// Counts the calls of a dump.
#[derive(Drop)]
pub struct Stat<'a> {
    alloc: Global,
    settings: Settings<'a>,
    tables: Tables,
    capture: Capture,
    // The calls that wait for their replies, and the indices of their operations' rows.
    waiting: LruCache<Key, Option<usize>>,
}

impl<'a> Stat<'a> {
    /// Makes one that has counted nothing.
    pub fn new(alloc: Global, settings: Settings<'a>) -> Result<Stat<'a>, AllocError> {
        Ok(Stat {
            alloc,
            settings,
            tables: Tables::new(alloc)?,
            capture: Capture::new(alloc),
            waiting: LruCache::unbounded(alloc)?,
        })
    }

    /// Counts a message of a stream.
    fn count_message(
        &mut self,
        stream: &Stream,
        message: &Message<GroupingValue>,
    ) -> Result<(), AllocError> {
        let facts = &message.facts;
        let kind = facts.kind();
        self.tables.talks.note_message(stream, kind, &facts.time)?;
        if !self.settings.window.contains_time(&facts.time) {
            return Ok(());
        }
        let called = match (kind, facts.answers) {
            (Kind::Reply, Some(call)) => self.waiting.pop(&call),
            _ => None,
        };
        let index = match called {
            Some(index) => index,
            None => self
                .tables
                .operation_index(self.settings.by, stream, message)?,
        };
        self.tables.add_message(index, stream, message)?;
        self.await_reply(message, index)
    }

    /// Notes the row of a call that expects a reply.
    fn await_reply(
        &mut self,
        message: &Message<GroupingValue>,
        index: Option<usize>,
    ) -> Result<(), AllocError> {
        let facts = &message.facts;
        let is_call = facts.kind() == Kind::Request && !facts.operation.is_empty();
        if !is_call || facts.is_oneway || message.key.stream == 0 {
            return Ok(());
        }
        self.waiting.put(message.key, index)?;
        if self.waiting.len() > WAITING_MAX {
            let _ = self.waiting.pop_lru();
        }
        Ok(())
    }
}

impl Maker for Stat<'_> {
    type ViewData = GroupingValue;

    #[inline]
    fn take_value(
        &mut self,
        message: &mut Message<GroupingValue>,
        path: &[u8],
        value: Value<'_>,
    ) -> Result<(), AllocError> {
        match self.settings.by {
            None => Ok(()),
            Some(by) => message.own.take_value(by, path, value),
        }
    }

    fn end_message<O: Out>(
        &mut self,
        _out: &mut O,
        streams: &Streams,
        open: &mut Open<GroupingValue>,
        message: Box<Message<GroupingValue>>,
    ) -> Result<(), ViewError> {
        if let Some(stream) = streams.get(message.key.stream) {
            self.count_message(stream, &message)?;
        }
        open.keep_spare(message)?;
        Ok(())
    }

    fn take_stream_line<O: Out>(
        &mut self,
        _out: &mut O,
        stream: &Stream,
        said: Statement<'_>,
    ) -> Result<(), ViewError> {
        self.capture.take_statement(said)?;
        match said {
            Statement::Stream(_) => self.tables.talks.begin_stream(stream)?,
            Statement::StreamFault(_) => self.tables.add_loss(self.settings.by, stream, false)?,
            Statement::Closed(word) => {
                self.tables.talks.close_stream(stream, word)?;
                if word == b"gap".as_slice() {
                    self.tables.add_loss(self.settings.by, stream, true)?;
                }
            }
            _ => {}
        }
        Ok(())
    }

    fn end_stream<O: Out>(
        &mut self,
        _out: &mut O,
        stream: &Stream,
        ending: ConnectionEnding,
        _open: &mut Open<GroupingValue>,
    ) -> Result<(), ViewError> {
        if ending.is_over {
            self.tables.talks.note_end(stream.connection)?;
        }
        Ok(())
    }

    fn finish<O: Out>(
        &mut self,
        out: &mut O,
        _open: &mut Open<GroupingValue>,
    ) -> Result<(), ViewError> {
        let text = if self.settings.is_json {
            json_of_tables(self.alloc, self.settings.by, &self.tables, &self.capture)?
        } else {
            text_of_tables(self.alloc, self.settings, &self.tables, &self.capture)?
        };
        out.put_all(&text)?;
        Ok(())
    }

    fn reduce_held_text<O: Out>(
        &mut self,
        _out: &mut O,
        _streams: &Streams,
        _open: &mut Open<GroupingValue>,
    ) -> Result<(), ViewError> {
        Ok(())
    }
}
