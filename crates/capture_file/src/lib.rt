//! Capture files, pcap and pcapng, read in pieces of any size: octets in, packets out.
#![tactic(auto)]

mod blocks;
mod capture;
mod fault;
mod format;
mod laws;
mod numbers;
mod others;
mod part;
mod progress;
mod records;
mod window;

pub use capture::Capture;
pub use fault::{CaptureFault, FaultKind};
pub use laws::{a_file_has_its_records, a_pcapng_file_has_its_blocks, packets_begin};
pub use others::OtherFile;
pub use progress::{Packet, Progress};
