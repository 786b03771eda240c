//! Signatures: the catalogue of the types of operations and exceptions, with the built-in types of
//! GIOP; and request lists.
#![tactic(auto)]

mod announced;
mod any_types;
mod builtin;
mod cases;
mod catalogue;
mod draft;
mod entries;
mod fault;
mod fronts;
mod hearing;
mod interfaces;
mod kinds;
mod labels;
mod names;
mod numbers;
mod parse;
mod parse_stop;
mod part_name;
mod read_calls;
mod read_enums;
mod read_items;
mod read_types;
mod read_unions;
mod requests;
mod seen;
mod told_kinds;
mod types;

pub use catalogue::Catalogue;
pub use fault::{ListFault, ListFaultKind};
pub use giop_tokens::{SigFault, SigFaultKind};
pub use kinds::{is_kind, kind_word};
pub use names::{NumberName, number_name};
pub use parse::one_table;
pub use requests::{Requests, one_list};
pub use seen::SeenCatalogue;
pub use types::{
    Counts, Fixed, Following, InterfaceId, OpId, Selected, Shape, Sign, Signal, TypeId,
};
