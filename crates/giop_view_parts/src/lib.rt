//! What the views of dumps have in common: the open messages and what their lines tell, their streams and connections, and
//! when each of these is over.
#![tactic(auto)]

mod capture;
mod connections;
mod dump;
mod ends;
mod facts;
mod fault;
mod message;
mod open;
mod pool;
mod streams;
mod view;

pub use capture::Capture;
pub use connections::{ConnectionEnding, ConnectionId};
pub use dump::{Dump, Maker};
pub use ends::{Endpoint, append_hex_as_text};
pub use facts::{Facts, Header, Kind, NotedFault, Status, replace_if_known, replace_octets};
pub use fault::ViewError;
pub use message::{Key, Message, ViewData};
pub use open::{OPEN_MAX, Open, OwnKey, greater_rank};
pub use pool::{Pool, TextRank, WaitingKey};
pub use streams::{Stream, Streams};
pub use view::{Notice, View};
