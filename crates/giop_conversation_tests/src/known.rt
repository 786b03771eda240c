//! The types with which tests read streams.

use giop_sig::Catalogue;
use std::alloc::Global;

/// The catalogue of a signature file. A function that holds a catalogue itself, and not in a box, takes seconds to prove.
pub fn declared(alloc: Global, text: &[u8]) -> Option<Box<Catalogue>> {
    match Catalogue::parse(alloc, text) {
        Ok(catalogue) => Box::new(alloc, catalogue).ok(),
        Err(_) => None,
    }
}
