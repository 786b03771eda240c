//! The types of the values. Each is a catalogue in a box: a function that holds a catalogue itself takes seconds to prove.

use giop_sig::Catalogue;
use std::alloc::Global;

/// The types of a signature file.
pub fn declared(alloc: Global, text: &[u8]) -> Option<Box<Catalogue>> {
    match Catalogue::parse_types(alloc, text) {
        Ok(catalogue) => Box::new(alloc, catalogue).ok(),
        Err(_) => None,
    }
}

/// The built-in types.
pub fn built_in(alloc: Global) -> Option<Box<Catalogue>> {
    match Catalogue::builtin(alloc) {
        Ok(catalogue) => Box::new(alloc, catalogue).ok(),
        Err(_) => None,
    }
}
