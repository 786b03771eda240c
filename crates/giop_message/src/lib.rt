//! One joined message: its header, its call line, its body by the types of a catalogue, and its
//! rest, octet by octet.
#![tactic(auto)]

mod begin;
mod body_type;
mod correspondent;
mod header;
mod laws;
mod message;
mod notifying;
mod part;
mod reader_laws;
mod request_id;
mod restored;
mod stored;
mod taking;
mod word;

pub use correspondent::Correspondent;
pub use header::{kind_of, minor_of, order_of};
pub use laws::{apart_laws, message_laws};
pub use message::Message;
pub use reader_laws::message_reader_laws;
pub use request_id::{request_id_laws, request_id_line};
