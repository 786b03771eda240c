//! The checkpoint of an engine, octet for octet: its fixed part, and its records (docs/FORMATS.md, Checkpoints).
#![tactic(auto)]

mod checks;
mod fault;
mod fixed;
mod layout;
mod record;
mod sizes;
mod state;

pub use checks::fixed_part;
pub use fault::{LoadFault, StreamFault};
pub use fixed::{Counts, Fixed, NextOctet};
pub use layout::Layout;
pub use record::{FirstRecord, Record, RecordKind, first_record};
pub use sizes::{
    FIXED_SIZE, FRAME_SIZE, LAYOUT_2_MOST_OPEN, MESSAGE_SIZE, MOST_FRAMES, MOST_OPEN, RECORD_SIZE,
};
