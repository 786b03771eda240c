//! Slots for what is known: which slot a key has, slots in an order, which are free, when each was
//! last used, and which has the least rank. All memory is allocated when they are made.
#![tactic(auto)]

mod free_slots;
mod order;
mod ranks;
mod slot_table;
mod stamps;

pub use free_slots::FreeSlots;
pub use order::Order;
pub use ranks::Ranks;
pub use slot_table::SlotTable;
pub use stamps::Stamps;
