//! What is told of a fault, the status, what is said after it (docs/FORMATS.md, The program giopcap), and a writer whose reader
//! has gone.

use super::shown_tests::shows;
use crate::expecting::expect;
use giop_run::{Look, ProgramError, Reason, RunFault, Watched, status};
use giop_sig::{SigFault, SigFaultKind};
use giop_stream::Totals;
use std::io;
use std::io::{ErrorKind, Write};
use std::process::Abort;

/// Kinds of errors, and what is said after `cannot read`.
static REASONS: [(ErrorKind, &str); 5] = [
    (ErrorKind::NotFound, ": no such file"),
    (ErrorKind::PermissionDenied, ": no permission"),
    (ErrorKind::IsADirectory, ": a folder"),
    (ErrorKind::NotADirectory, ""),
    (ErrorKind::Other, ""),
];

/// Texts that are no signature files, and what is said after their refusal.
static LOOKS: [(&[u8], &str); 22] = [
    (b"", ""),
    (b"signatures 1;", ""),
    (b"struct Point { long x; };", ""),
    (b"GIOP\x01\x00", ""),
    (b"\xa1\xb2\xc3", ""),
    (b"\xa1\xb2\xc3\xd4", ": a capture"),
    (b"\xd4\xc3\xb2\xa1\x02\x00", ": a capture"),
    (b"\xa1\xb2\x3c\x4d\x00\x02", ": a capture"),
    (b"\x4d\x3c\xb2\xa1\x02\x00", ": a capture"),
    (b"\n\r\r\n\x1c\x00", ": a capture"),
    (b" \xa1\xb2\xc3\xd4", ""),
    (b"#include <CosNaming.idl>", IDL),
    (b"// Orders.\n\n#pragma prefix \"shop\"", IDL),
    (b" /* Orders. */", IDL),
    (b"// Orders.\nmodule Shop {", IDL),
    (b"interface Orders;", IDL),
    (b"typedef long Id;", IDL),
    (b"const long MOST = 3;", IDL),
    (b"abstract interface Orders;", IDL),
    (b"local interface Orders;", IDL),
    (b"valuetype Order;", IDL),
    (b"native Cookie;", IDL),
];

const IDL: &str = ": IDL: omniidl -bgiopdump_signatures";

/// Faults of a run, what is told of each, and the status.
static FAULTS: [(ProgramError<'static>, &str, u8); 4] = [
    (ProgramError::Run(RunFault::Read), "read failed", 4),
    (ProgramError::Run(RunFault::Turns), "too many reads", 4),
    (ProgramError::Run(RunFault::Out), "write failed", 4),
    (ProgramError::OutOfMemory, "out of memory", 5),
];

/// Checks the text of a fault, its words, and its status.
fn says(rt: &(impl Abort + AllocGlobal), fault: ProgramError, wanted: &str, words: &str, code: u8) {
    let is_said = shows(rt.alloc(), fault, wanted) && fault.explanation() == words;
    let has_status = fault.status() == code && status(&Err(fault)) == code;
    expect(rt, is_said && has_status, wanted);
}

#[test]
fn a_fault_and_a_file_that_cannot_be_read_are_told(rt: HostRuntime) {
    for faults in 0..2 {
        expect(&rt, has_status_of(faults), "a run that ends");
    }
    for (fault, wanted, code) in &FAULTS {
        says(&rt, *fault, wanted, "", *code);
    }
    for (kind, words) in &REASONS {
        let why = Reason::of(*kind);
        let fault = ProgramError::Unreadable { name: "a\n", why };
        says(&rt, fault, "a\\x0a: cannot read", words, 4);
    }
}

/// Whether the status of a run that ends is that of so many faults.
fn has_status_of(faults: u64) -> bool {
    let totals = Totals {
        messages: 1,
        faults,
        octets: 12,
    };
    u64::from(status(&Ok(totals))) == faults
}

#[test]
fn what_is_no_signature_file_is_named(rt: HostRuntime) {
    let fault = SigFault {
        line: 7,
        kind: SigFaultKind::Token,
    };
    for (text, words) in &LOOKS {
        let look = Look::of(text);
        let refused = ProgramError::Signatures {
            name: "a.idl",
            fault,
            look,
        };
        says(&rt, refused, "a.idl:7: token", words, 3);
    }
}

/// A writer whose writes fail in this way.
#[derive(Drop)]
struct Failing(ErrorKind);

impl Write for Failing {
    fn write(&mut self, _octets: &[u8]) -> io::Result<usize> {
        Err(io::Error::from(self.0))
    }

    fn flush(&mut self) -> io::Result<()> {
        Ok(())
    }
}

#[test]
fn a_reader_that_has_gone_is_noted(rt: HostRuntime) {
    for (kind, is_gone) in [
        (ErrorKind::BrokenPipe, true),
        (ErrorKind::StorageFull, false),
    ] {
        let mut writer = Watched::new(Failing(kind));
        assert!(rt; !writer.reader_is_gone);
        assert!(rt; writer.write(b"a line").is_err() && writer.reader_is_gone == is_gone);
    }
}
