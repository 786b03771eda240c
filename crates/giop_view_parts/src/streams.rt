//! The streams that aren't over.

use crate::connections::{ConnectionEnding, ConnectionId, Connections};
use crate::facts::{Kind, NotedFault, replace_if_known, replace_octets};
use giop_lines::{Statement, StreamStart, Total};
use lru::LruCache;
use std::alloc::{AllocError, Global};

/// The greatest number of streams that are known. If there is one more, the one that began first ends.
const STREAMS_MAX: usize = 131_072;

/// A stream, as far as its lines have come. What is empty, or 0, isn't known.
#[derive(Drop)]
pub struct Stream {
    /// Its number; 0 in a dump of one stream.
    pub number: u64,
    /// Its connection.
    pub connection: Option<ConnectionId>,
    /// The endpoint that sends it.
    pub source: Vec<u8>,
    /// The endpoint that receives it.
    pub target: Vec<u8>,
    /// When it began.
    pub time: Vec<u8>,
    /// The time of its last message.
    pub last: Vec<u8>,
    /// The stream of the opposite direction that lived when it began.
    pub with: u64,
    /// How many octets of its flow come before it.
    pub behind: u64,
    /// Whether its beginning was found in the middle of a flow.
    pub is_found: bool,
    /// The word with which it closed.
    pub closed: Vec<u8>,
    /// Why it isn't read to its end, if it isn't.
    pub fault: NotedFault,
    /// Its totals.
    pub total: Option<Total>,
    /// Whether a line told something about the stream itself.
    pub is_told: bool,
    /// Whether a server sends it, by the last message from which that can be told.
    pub is_of_server: bool,
    // The last message that began, if its first line has no `more` or it is a Fragment; else 0.
    alone: u64,
    // The open messages, in the order in which they began.
    open: Vec<u64>,
}

impl Stream {
    fn new(alloc: Global, number: u64) -> Stream {
        Stream {
            number,
            connection: None,
            source: Vec::new(alloc),
            target: Vec::new(alloc),
            time: Vec::new(alloc),
            last: Vec::new(alloc),
            with: 0,
            behind: 0,
            is_found: false,
            closed: Vec::new(alloc),
            fault: NotedFault::new(alloc),
            total: None,
            is_told: false,
            is_of_server: false,
            alone: 0,
            open: Vec::new(alloc),
        }
    }

    /// The endpoints of the client and of the server.
    pub fn client_and_server(&self) -> (&[u8], &[u8]) {
        if self.is_of_server {
            (&self.target, &self.source)
        } else {
            (&self.source, &self.target)
        }
    }

    /// Notes whether a server sends the stream, if a message of this kind tells it.
    pub(crate) fn note_sender(&mut self, kind: Kind) {
        if let Some(is_of_server) = kind.is_of_server() {
            self.is_of_server = is_of_server;
        }
    }

    /// Notes the time of a message.
    pub(crate) fn note_last_time(&mut self, time: &[u8]) -> Result<(), AllocError> {
        replace_if_known(&mut self.last, time)
    }

    /// Notes the last message that began, if it is in one piece, or 0. Returns the one before.
    pub(crate) fn swap_last_in_one_piece(&mut self, message: u64) -> u64 {
        let before = self.alone;
        self.alone = message;
        before
    }

    /// Notes an open message.
    pub(crate) fn note_open(&mut self, message: u64) -> Result<(), AllocError> {
        self.open.push(message)?;
        Ok(())
    }

    /// Forgets an open message.
    pub(crate) fn forget_open(&mut self, message: u64) {
        if let Some(place) = self.open.iter().position(|open| *open == message) {
            if place < self.open.len() {
                self.open.remove(place);
            }
        }
    }

    /// Takes the open messages away, and gives them.
    pub(crate) fn take_open_messages(&mut self, alloc: Global) -> Vec<u64> {
        std::mem::replace(&mut self.open, Vec::new(alloc))
    }

    fn take_start(&mut self, start: StreamStart<'_>) -> Result<(), AllocError> {
        self.is_told = true;
        if let Some(with) = start.with {
            self.with = with;
        }
        if let Some(behind) = start.behind {
            self.behind = behind;
        }
        self.is_found |= start.found;
        replace_octets(&mut self.source, start.source)?;
        replace_octets(&mut self.target, start.target)?;
        replace_if_known(&mut self.time, start.time)
    }
}

/// The streams that aren't over, and their connections.
#[derive(Drop)]
pub struct Streams {
    alloc: Global,
    streams: LruCache<u64, Stream>,
    connections: Connections,
}

impl Streams {
    pub(crate) fn new(alloc: Global) -> Result<Streams, AllocError> {
        Ok(Streams {
            alloc,
            streams: LruCache::unbounded(alloc)?,
            connections: Connections::new(alloc)?,
        })
    }

    /// The stream of this number.
    pub fn get(&self, number: u64) -> Option<&Stream> {
        self.streams.peek(&number)
    }

    /// The stream of this number, for writing.
    pub(crate) fn get_mut(&mut self, number: u64) -> Option<&mut Stream> {
        self.streams.peek_mut(&number)
    }

    /// The stream that began first, if there is no room for the stream of this number.
    pub(crate) fn first_if_full(&self, number: u64) -> Option<u64> {
        if self.streams.len() < STREAMS_MAX || self.streams.contains(&number) {
            return None;
        }
        self.first_begun()
    }

    /// The stream that began first.
    pub(crate) fn first_begun(&self) -> Option<u64> {
        let (number, _) = self.streams.peek_lru()?;
        Some(*number)
    }

    /// How many streams there are.
    pub(crate) fn len(&self) -> usize {
        self.streams.len()
    }

    /// Notes a stream.
    pub(crate) fn add_if_new(&mut self, number: u64) -> Result<(), AllocError> {
        if !self.streams.contains(&number) {
            self.streams.put(number, Stream::new(self.alloc, number))?;
        }
        Ok(())
    }

    /// Forgets a stream. Returns what is then known about its connection.
    pub(crate) fn remove_stream(&mut self, number: u64) -> Option<(Stream, ConnectionEnding)> {
        let stream = self.streams.pop(&number)?;
        let ending = match stream.connection {
            None => ConnectionEnding {
                is_over: false,
                is_last: true,
            },
            Some(of) => self.connections.end_stream(of),
        };
        Some((stream, ending))
    }

    /// Takes a line about a stream itself.
    pub(crate) fn take_statement(
        &mut self,
        number: u64,
        said: Statement<'_>,
    ) -> Result<(), AllocError> {
        match said {
            Statement::Stream(start) => self.begin_stream(number, start),
            Statement::Closed(word) => self.close_stream(number, word),
            Statement::StreamFault(fault) => match self.streams.peek_mut(&number) {
                None => Ok(()),
                Some(stream) => {
                    stream.is_told = true;
                    stream.fault.note_fault(fault)
                }
            },
            Statement::Total(total) => {
                if let Some(stream) = self.streams.peek_mut(&number) {
                    stream.is_told = true;
                    stream.total = Some(total);
                }
                Ok(())
            }
            _ => Ok(()),
        }
    }

    /// Takes the beginning of a stream.
    fn begin_stream(&mut self, number: u64, start: StreamStart<'_>) -> Result<(), AllocError> {
        let with = match start.with {
            None => None,
            Some(other) => match self.streams.peek(&other) {
                None => None,
                Some(other) => other.connection,
            },
        };
        let ends = (utf8_or_empty(start.source), utf8_or_empty(start.target));
        let of = self
            .connections
            .begin_stream(self.alloc, number, ends, with)?;
        let Some(stream) = self.streams.peek_mut(&number) else {
            return Ok(());
        };
        if let Some(before) = stream.connection {
            let _ = self.connections.end_stream(before);
        }
        stream.connection = Some(of);
        stream.take_start(start)
    }

    /// Notes the word with which a stream closed.
    fn close_stream(&mut self, number: u64, word: &[u8]) -> Result<(), AllocError> {
        let Some(stream) = self.streams.peek_mut(&number) else {
            return Ok(());
        };
        stream.is_told = true;
        replace_octets(&mut stream.closed, word)?;
        match stream.connection {
            None => Ok(()),
            Some(of) => {
                let ends = (utf8_or_empty(&stream.source), utf8_or_empty(&stream.target));
                self.connections.close_stream(self.alloc, of, ends, word)
            }
        }
    }
}

/// Octets of a line as text. If they aren't text, it is empty.
fn utf8_or_empty(octets: &[u8]) -> &str {
    str::from_utf8(octets).unwrap_or_default()
}
