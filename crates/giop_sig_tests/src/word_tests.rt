//! The words of refusals, by number and in a text.

use crate::expecting::expect;
use crate::rows::{FILE_RULES, LIST_RULES};
use giop_sig::{ListFault, ListFaultKind, SigFault, SigFaultKind};
use std::alloc::Global;

#[test]
fn a_refusal_of_a_file_reads_as_its_word(rt: HostRuntime) {
    for (kind, number, word) in &FILE_RULES {
        let is_wanted = *kind as u32 == *number && reads_as(rt.alloc(), *kind, word);
        expect(&rt, is_wanted, word);
    }
}

fn reads_as(alloc: Global, kind: SigFaultKind, word: &str) -> bool {
    let fault = SigFault { line: 3, kind };
    match format!(in alloc; "{fault}") {
        Ok(text) => text.as_str() == word,
        Err(_) => false,
    }
}

#[test]
fn a_refusal_of_a_list_reads_as_its_word(rt: HostRuntime) {
    for (kind, number, word) in &LIST_RULES {
        let is_wanted = *kind as u8 == *number
            && kind_reads_as(rt.alloc(), *kind, word)
            && list_reads_as(rt.alloc(), *kind, word);
        expect(&rt, is_wanted, word);
    }
}

fn kind_reads_as(alloc: Global, kind: ListFaultKind, word: &str) -> bool {
    match format!(in alloc; "{kind}") {
        Ok(text) => text.as_str() == word,
        Err(_) => false,
    }
}

fn list_reads_as(alloc: Global, kind: ListFaultKind, word: &str) -> bool {
    let fault = ListFault { line: 7, kind };
    match format!(in alloc; "{fault}") {
        Ok(text) => text.as_str() == word,
        Err(_) => false,
    }
}
