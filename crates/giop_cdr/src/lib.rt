//! The numbers of CDR: primitives and their sizes, padding, and a carry that takes a number octet by octet.
#![tactic(auto)]

mod alignment;
mod carry;
mod fault;
mod number;
mod order;
mod prim;

pub use alignment::pad;
pub use carry::Carry;
pub use fault::CdrFault;
pub use number::{Number, number_of};
pub use order::Order;
pub use prim::{Prim, Primitive, size};
