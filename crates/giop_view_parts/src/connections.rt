//! The connections of streams, by their two endpoints.

ghost use Rattle.std.specs.Prelude.{◌≡◌, ◌<◌, ◌-◌, ◌↔◌, ◌&&◌, IsTrue};

use lru::LruCache;
use std::alloc::{AllocError, Global};
use std::collections::HashMap;

/// The greatest number of connections that are known. If there is one more, the one that began first is forgotten.
const CONNECTIONS_MAX: usize = 131_072;

/// What is known about one direction of a connection.
#[derive(Clone, Copy, Debug, Drop, PartialEq, Eq)]
enum Flow {
    Missing,
    Live,
    Finished,
    Closed,
}

/// A connection.
#[derive(Clone, Copy, Debug, Drop)]
struct Connection {
    // The number of the connection among all connections.
    id: u64,
    // The number of its first stream.
    number: u64,
    // The flow from the endpoint whose text comes first, and then the opposite flow.
    flows: [Flow; 2],
    is_over: bool,
}

/// The connection of a stream.
#[derive(Clone, Copy, Debug, Drop, PartialEq, Eq)]
pub struct ConnectionId {
    /// The number of the connection among all connections.
    pub id: u64,
    /// The number of its first stream.
    pub number: u64,
}

/// How many streams of a connection live, and whether it is over.
#[derive(Clone, Copy, Debug, Drop)]
struct ConnectionLife {
    streams: u64,
    is_over: bool,
}

impl ConnectionLife {
    /// Counts a stream of the connection as over.
    fn end_stream(&mut self) -> ConnectionEnding
        ensures streams { self.new.streams ≡ self.old.streams - 1 }
        ensures over { result.is_over ≡ self.old.is_over }
        ensures last { IsTrue result.is_last ↔ (self.new.streams ≡ 0) }
    {
        self.streams = self.streams.saturating_sub(1);
        ConnectionEnding {
            is_over: self.is_over,
            is_last: self.streams == 0,
        }
    }
}

/// What is known about the connection of a stream, after the stream's end.
#[derive(Clone, Copy, Debug, Drop, PartialEq, Eq)]
pub struct ConnectionEnding {
    /// Whether the connection is over. If it is, the next stream between its endpoints is of another connection.
    pub is_over: bool,
    /// Whether none of its streams lives any more.
    pub is_last: bool,
}

impl ConnectionEnding {
    /// Whether no more lines about the connection come.
    pub fn ends_connection(&self) -> bool
        ensures { result ≡ (self.now.is_over && self.now.is_last) }
    {
        self.is_over && self.is_last
    }
}

/// The connections that are known.
#[derive(Drop)]
pub(crate) struct Connections {
    // The connections by their two endpoints, the one between these that began last.
    known: LruCache<String, Connection>,
    // The connections with a stream that lives, by their numbers.
    lives: HashMap<u64, ConnectionLife>,
    begun: u64,
}

impl Connections {
    /// Makes a set without connections.
    pub(crate) fn new(alloc: Global) -> Result<Connections, AllocError> {
        Ok(Connections {
            known: LruCache::unbounded(alloc)?,
            lives: HashMap::new(alloc),
            begun: 0,
        })
    }

    /// The connection of a stream that begins. It is the connection of the stream that lives with it; or else the last one
    /// of its endpoints, if that isn't over; or else a new one.
    pub(crate) fn begin_stream(
        &mut self,
        alloc: Global,
        stream: u64,
        endpoints: (&str, &str),
        opposite: Option<ConnectionId>,
    ) -> Result<ConnectionId, AllocError> {
        let connection = self.find_or_begin(alloc, stream, endpoints, opposite)?;
        let streams = match self.lives.get(&connection.id) {
            None => 0,
            Some(life) => life.streams,
        };
        let life = ConnectionLife {
            streams: streams.saturating_add(1),
            is_over: false,
        };
        self.lives.insert(connection.id, life)?;
        Ok(connection)
    }

    /// Finds the connection of a stream that begins, or makes a new one.
    fn find_or_begin(
        &mut self,
        alloc: Global,
        stream: u64,
        endpoints: (&str, &str),
        opposite: Option<ConnectionId>,
    ) -> Result<ConnectionId, AllocError> {
        let key = key_of_endpoints(alloc, endpoints)?;
        let side = flow_index(endpoints);
        if let Some(known) = self.known.peek_mut(&key)
            && !known.is_over
            && opposite.is_none_or(|other| other.id == known.id)
        {
            known.flows[side] = Flow::Live;
            return Ok(ConnectionId {
                id: known.id,
                number: known.number,
            });
        }
        self.begun = self.begun.saturating_add(1);
        let mut flows = [Flow::Missing, Flow::Missing];
        flows[side] = Flow::Live;
        let begun = Connection {
            id: self.begun,
            number: stream,
            flows,
            is_over: false,
        };
        if self.known.len() >= CONNECTIONS_MAX {
            let _ = self.known.pop_lru();
        }
        self.known.put(key, begun)?;
        Ok(ConnectionId {
            id: begun.id,
            number: stream,
        })
    }

    /// Notes the word with which a stream of a connection closed.
    pub(crate) fn close_stream(
        &mut self,
        alloc: Global,
        connection: ConnectionId,
        endpoints: (&str, &str),
        word: &[u8],
    ) -> Result<(), AllocError> {
        let key = key_of_endpoints(alloc, endpoints)?;
        let mut is_over = matches!(word, b"reset" | b"syn" | b"room");
        if let Some(known) = self.known.peek_mut(&key)
            && known.id == connection.id
        {
            let is_finished = word == b"fin".as_slice();
            known.flows[flow_index(endpoints)] = if is_finished {
                Flow::Finished
            } else {
                Flow::Closed
            };
            known.is_over |= is_over || known.flows == [Flow::Finished, Flow::Finished];
            is_over = known.is_over;
        }
        if let Some(life) = self.lives.get_mut(&connection.id) {
            life.is_over |= is_over;
        }
        Ok(())
    }

    /// Counts a stream of a connection as over.
    pub(crate) fn end_stream(&mut self, connection: ConnectionId) -> ConnectionEnding {
        let Some(life) = self.lives.get_mut(&connection.id) else {
            return ConnectionEnding {
                is_over: false,
                is_last: true,
            };
        };
        let ending = life.end_stream();
        if ending.is_last {
            let _ = self.lives.remove(&connection.id);
        }
        ending
    }
}

/// Which of the two flows goes from the first endpoint to the second: 0 or 1.
fn flow_index(endpoints: (&str, &str)) -> usize
    ensures { result < 2 }
{
    if endpoints.0 <= endpoints.1 { 0 } else { 1 }
}

/// Both endpoints, with a space between them. The one whose text comes first stands first.
fn key_of_endpoints(alloc: Global, endpoints: (&str, &str)) -> Result<String, AllocError> {
    let (first, second) = if flow_index(endpoints) == 0 {
        endpoints
    } else {
        (endpoints.1, endpoints.0)
    };
    let mut key = String::from_str(alloc, first)?;
    key.push(' ')?;
    key.push_str(second)?;
    Ok(key)
}
