//! The words and the numbers of all refusals (docs/FORMATS.md, Refusals).

use super::shown_tests::shows;
use crate::expecting::expect;
use giop_cdr::CdrFault;
use giop_decode::ValueFault;
use giop_print::OutFault;
use giop_run::{RunFault, SourceFault};
use giop_sig::{ListFaultKind, SigFaultKind};
use giop_stream::{LoadFault, NewError, Stop, StreamFault};
use std::fmt::Display;
use std::io::ErrorKind;
use std::process::Abort;

/// A refusal, its number, the number that is wanted, and its word.
type Row<T> = (T, u8, u8, &'static str);

/// The rows of an enum of refusals, by the names, numbers and words that are wanted.
macro_rules! numbered {
    ($kind:ident: $($name:ident $number:literal $word:literal,)*) => {
        [$(($kind::$name, $kind::$name as u8, $number, $word)),*]
    };
}

const PRIMITIVE: [Row<CdrFault>; 1] = numbered! {
    CdrFault:
    Boolean 1 "boolean",
};

const SIGNATURES: [Row<SigFaultKind>; 9] = numbered! {
    SigFaultKind:
    Token 1 "token",
    Syntax 2 "syntax",
    UnknownType 3 "unknown-type",
    Duplicate 4 "duplicate",
    Limit 5 "limit",
    Depth 6 "depth",
    Label 7 "label",
    Empty 8 "empty",
    OutOfMemory 9 "out-of-memory",
};

const REQUESTS: [Row<ListFaultKind>; 3] = numbered! {
    ListFaultKind:
    Syntax 1 "syntax",
    Limit 2 "limit",
    OutOfMemory 3 "out-of-memory",
};

const VALUE: [Row<ValueFault>; 7] = numbered! {
    ValueFault:
    Boolean 1 "boolean",
    StringEnd 2 "string-end",
    Enum 3 "enum",
    Bound 4 "bound",
    Disposition 5 "disposition",
    EncapShort 6 "encap-short",
    EncapOrder 7 "encap-order",
};

const STREAM: [Row<StreamFault>; 4] = numbered! {
    StreamFault:
    Magic 1 "magic",
    Version 2 "version",
    ByteOrder 3 "byte-order",
    StreamLimit 5 "stream-limit",
};

const NEW: [Row<NewError>; 1] = numbered! {
    NewError:
    OutOfMemory 1 "out of memory",
};

const CHECKPOINT: [Row<LoadFault>; 6] = numbered! {
    LoadFault:
    Magic 1 "magic",
    Version 2 "version",
    Catalogue 3 "catalogue",
    Length 4 "length",
    State 5 "state",
    OutOfMemory 6 "out-of-memory",
};

const RUN: [Row<RunFault>; 4] = numbered! {
    RunFault:
    Read 1 "read failed",
    Turns 2 "too many reads",
    Out 3 "write failed",
    Failed 4 "engine failed",
};

/// Checks the words and the numbers of a table.
fn are_named<T: Display + Copy>(rt: &(impl Abort + AllocGlobal), rows: &[Row<T>]) {
    for (refusal, number, wanted, word) in rows {
        let is_wanted = shows(rt.alloc(), *refusal, word) && number == wanted;
        expect(rt, is_wanted, word);
    }
}

#[test]
fn each_refusal_has_its_word_and_its_number(rt: HostRuntime) {
    are_named(&rt, &PRIMITIVE);
    are_named(&rt, &SIGNATURES);
    are_named(&rt, &REQUESTS);
    are_named(&rt, &VALUE);
    are_named(&rt, &STREAM);
    are_named(&rt, &NEW);
    are_named(&rt, &CHECKPOINT);
    are_named(&rt, &RUN);
    are_named(&rt, &[(OutFault, 0, 0, "write failed")]);
}

#[test]
fn a_stop_has_its_word_and_its_number(rt: HostRuntime) {
    let (out, failed) = (Stop::Out(OutFault), Stop::Failed);
    are_named(&rt, &[(out, out.number(), 1, "write failed")]);
    are_named(
        &rt,
        &[(failed, failed.number(), 2, "the engine was failed")],
    );
    let kind = ErrorKind::Other;
    are_named(&rt, &[(SourceFault { kind }, 0, 0, "read failed")]);
}
