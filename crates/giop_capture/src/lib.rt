//! The program `giopcap` without its `main`: its arguments, how the packets of a capture are read up to its end, and the steps
//! from the arguments to a status.
#![tactic(auto)]

mod arguments;
mod console;
mod ending;
mod failure;
mod gap_laws;
mod hints;
mod laws;
mod links;
mod listening;
mod memory;
mod notices;
mod packets;
mod reading;
mod steps;
mod teller;

pub use arguments::{Arguments, PORTS_ROOM, SIGNATURES_ROOM};
pub use console::program;
pub use ending::{Ending, dump_capture};
pub use failure::DumpError;
pub use gap_laws::no_stream_of_a_capture_has_a_gap;
pub use hints::hint;
pub use laws::each_stream_of_a_capture_is_dumped;
pub use links::UnreadLinks;
pub use listening::{CaptureListener, PacketListener};
pub use memory::packet_reader;
pub use notices::{Notice, Notices, Seen, begins_as_tls, begins_as_ziop};
pub use packets::PacketReader;
pub use reading::read_packets;
pub use steps::perform_capture;
pub use teller::{Beginning, Teller, Unknown};
