//! The connections, each counted in a row.

ghost use Rattle.std.specs.Prelude.{◌<◌};

use crate::row::Row;
use crate::table::ROWS_MAX;
use giop_view_parts::{ConnectionId, Kind, Stream, replace_octets};
use lru::LruCache;
use std::alloc::{AllocError, Global};
use std::collections::VecDeque;

/// The row of a connection. What is empty isn't known.
#[derive(Drop)]
pub(crate) struct ConnectionRow {
    /// The number of its first stream.
    pub(crate) number: u64,
    // The sender and the receiver of its first stream, and the words with which the last stream of each closed.
    ends: [Vec<u8>; 2],
    closed: [Vec<u8>; 2],
    // Whether the receiver of its first stream is the client.
    is_turned: bool,
    /// When its first stream began.
    pub(crate) opened: Vec<u8>,
    /// The time of its last message.
    pub(crate) last: Vec<u8>,
    /// How many streams it has.
    pub(crate) streams: u64,
    is_ended: bool,
    pub(crate) row: Row,
}

impl ConnectionRow {
    fn new(alloc: Global, number: u64, stream: &Stream) -> Result<ConnectionRow, AllocError> {
        Ok(ConnectionRow {
            number,
            ends: [
                Vec::from_slice(alloc, &stream.source)?,
                Vec::from_slice(alloc, &stream.target)?,
            ],
            closed: [Vec::new(alloc), Vec::new(alloc)],
            is_turned: false,
            opened: Vec::from_slice(alloc, &stream.time)?,
            last: Vec::new(alloc),
            streams: 0,
            is_ended: false,
            row: Row::new(alloc, false),
        })
    }

    /// Which of its two endpoints sends a stream: 0 or 1.
    fn sender_index(&self, stream: &Stream) -> usize
        ensures { result < 2 }
    {
        let [first, _] = &self.ends;
        if first.as_slice() == stream.source.as_slice() {
            0
        } else {
            1
        }
    }

    /// The endpoint of the server or of the client.
    pub(crate) fn endpoint(&self, is_server: bool) -> &[u8] {
        let [first, second] = &self.ends;
        if self.is_turned == is_server {
            first
        } else {
            second
        }
    }

    /// The word with which the last stream of the server or of the client closed.
    pub(crate) fn closing_word(&self, is_server: bool) -> &[u8] {
        let [first, second] = &self.closed;
        if self.is_turned == is_server {
            first
        } else {
            second
        }
    }

    /// Notes the word with which a stream closed. A stream that begins has no word.
    fn note_closing_word(&mut self, stream: &Stream, word: &[u8]) -> Result<(), AllocError> {
        let side = self.sender_index(stream);
        replace_octets(&mut self.closed[side], word)
    }

    /// Notes whether a server sends the stream, if the message tells it, and the time of the message.
    fn note_message(&mut self, stream: &Stream, kind: Kind, time: &[u8]) -> Result<(), AllocError> {
        if kind.is_of_server().is_some() {
            let is_from_second = self.sender_index(stream) == 1;
            self.is_turned = is_from_second != stream.is_of_server;
        }
        if time > self.last.as_slice() {
            replace_octets(&mut self.last, time)?;
        }
        Ok(())
    }
}

/// The rows of connections, in the order in which they began.
#[derive(Drop)]
pub(crate) struct ConnectionRows {
    alloc: Global,
    rows: LruCache<u64, ConnectionRow>,
    // The connections that ended, in the order in which they did.
    ended: VecDeque<u64>,
    others: Option<Row>,
    begun: u64,
}

impl ConnectionRows {
    pub(crate) fn new(alloc: Global) -> Result<ConnectionRows, AllocError> {
        Ok(ConnectionRows {
            alloc,
            rows: LruCache::unbounded(alloc)?,
            ended: VecDeque::new(alloc),
            others: None,
            begun: 0,
        })
    }

    /// The rows, the last one first.
    pub(crate) fn rows(&self) -> &LruCache<u64, ConnectionRow> {
        &self.rows
    }

    /// The row of all others, if there are any.
    pub(crate) fn others(&self) -> Option<&Row> {
        match &self.others {
            None => None,
            Some(row) => Some(row),
        }
    }

    /// The row of a connection.
    pub(crate) fn row_of(&mut self, connection: Option<ConnectionId>) -> Option<&mut Row> {
        let connection = connection?;
        match self.rows.peek_mut(&connection.id) {
            Some(talk) => Some(&mut talk.row),
            None => match &mut self.others {
                None => None,
                Some(row) => Some(row),
            },
        }
    }

    /// Counts a stream that begins. If it is the first one of its connection, the connection gets a row.
    pub(crate) fn begin_stream(&mut self, stream: &Stream) -> Result<(), AllocError> {
        let Some(connection) = stream.connection else {
            return Ok(());
        };
        if connection.id > self.begun {
            self.begun = connection.id;
            if self.rows.len() >= ROWS_MAX {
                self.add_one_to_others()?;
            }
            let talk = ConnectionRow::new(self.alloc, connection.number, stream)?;
            self.rows.put(connection.id, talk)?;
        }
        if let Some(talk) = self.rows.peek_mut(&connection.id) {
            talk.streams = talk.streams.saturating_add(1);
            talk.note_closing_word(stream, b"")?;
        }
        Ok(())
    }

    /// Counts one row with the others: the one that ended first, or, if none ended, the first one.
    fn add_one_to_others(&mut self) -> Result<(), AllocError> {
        let mut gone = None;
        for _ in 0..self.ended.len() {
            let Some(id) = self.ended.pop_front() else {
                break;
            };
            gone = self.rows.pop(&id);
            if gone.is_some() {
                break;
            }
        }
        if gone.is_none() {
            gone = match self.rows.pop_lru() {
                None => None,
                Some((_, talk)) => Some(talk),
            };
        }
        let Some(talk) = gone else {
            return Ok(());
        };
        let mut others = match self.others.take() {
            Some(others) => others,
            None => Row::new(self.alloc, false),
        };
        let joined = others.add_all(&talk.row);
        self.others = Some(others);
        joined
    }

    /// Notes whether a server sends a stream, if the message tells it, and the time of the message.
    pub(crate) fn note_message(
        &mut self,
        stream: &Stream,
        kind: Kind,
        time: &[u8],
    ) -> Result<(), AllocError> {
        let Some(connection) = stream.connection else {
            return Ok(());
        };
        match self.rows.peek_mut(&connection.id) {
            None => Ok(()),
            Some(talk) => talk.note_message(stream, kind, time),
        }
    }

    /// Notes the word with which a stream closed.
    pub(crate) fn close_stream(&mut self, stream: &Stream, word: &[u8]) -> Result<(), AllocError> {
        let Some(connection) = stream.connection else {
            return Ok(());
        };
        match self.rows.peek_mut(&connection.id) {
            None => Ok(()),
            Some(talk) => talk.note_closing_word(stream, word),
        }
    }

    /// Notes that a connection has ended.
    pub(crate) fn note_end(&mut self, connection: Option<ConnectionId>) -> Result<(), AllocError> {
        let Some(connection) = connection else {
            return Ok(());
        };
        if let Some(talk) = self.rows.peek_mut(&connection.id)
            && !talk.is_ended
        {
            talk.is_ended = true;
            self.ended.push_back(connection.id)?;
        }
        Ok(())
    }
}
