//! The names of numbers with a mark.

use crate::expecting::expect;
use giop_sig::number_name;

/// A mark, a number, the word that is its name, and the vendor's code of a minor code.
static WORDS: [(u32, u32, &str, Option<u16>); 12] = [
    (3, 0, "TransactionService", None),
    (3, 1, "CodeSets", None),
    (3, 6, "SendingContextRunTime", None),
    (3, 17, "RMICustomMaxStreamFormat", None),
    (4, 0, "TAG_INTERNET_IOP", None),
    (4, 3, "TAG_UIPMC", None),
    (5, 65_537, "ISO_8859_1", None),
    (5, 65_801, "UTF_16", None),
    (5, 83_951_617, "UTF_8", None),
    (6, 1_330_446_337, "OMG", Some(1)),
    (6, 0x4154_0fff, "omniORB", Some(4095)),
    (6, 0x5441_0002, "TAO", Some(2)),
];

/// A mark and a number that has no name.
static UNNAMED: [(u32, u32, &str); 9] = [
    (3, 18, "a context after the last"),
    (4, 4, "a tag after the last"),
    (5, 1, "a code set"),
    (6, 0x5441_1000, "a minor code after a vendor's last"),
    (6, 1, "a minor code of no vendor"),
    (0, 1, "the mark 0"),
    (1, 1, "the mark 1"),
    (2, 1, "the mark 2"),
    (7, 1, "the mark 7"),
];

/// Whether a number has this name, and if it is a minor code, this code of its vendor.
fn is_named(mark: u32, number: u32, word: &str, code: Option<u16>) -> bool {
    match number_name(mark, number) {
        Some(name) => name.word == word.as_bytes() && name.code == code,
        None => false,
    }
}

#[test]
fn a_number_has_the_word_that_its_mark_gives(rt: HostRuntime) {
    for (mark, number, word, code) in &WORDS {
        expect(&rt, is_named(*mark, *number, word, *code), word);
    }
}

#[test]
fn another_number_has_no_name(rt: HostRuntime) {
    for (mark, number, name) in &UNNAMED {
        expect(&rt, number_name(*mark, *number).is_none(), name);
    }
}
