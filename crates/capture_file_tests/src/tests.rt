//! The outcomes of captures, taken in pieces of some sizes and as a whole.

use crate::capture_rows::CAPTURES;
use crate::real_rows::REAL;
use crate::spelled::{is_row, octets_of, outcome_of};
use capture_file::{Capture, CaptureFault, FaultKind, OtherFile, Progress, packets_begin};
use std::test::Fail;

#[test]
fn a_capture_has_the_packets_and_the_fault_of_its_row(rt: HostRuntime) -> Result<(), Fail> {
    for row in CAPTURES.split('\n') {
        for size in [1_000_000, 7, 1] {
            assert!(rt;
                is_row(rt.alloc(), row, size)?,
                "in pieces of {size}: {row}"
            );
        }
    }
    Ok(())
}

#[test]
fn a_capture_that_a_tool_wrote_has_its_packets(rt: HostRuntime) -> Result<(), Fail> {
    for row in REAL.split('\n') {
        for size in [1_000_000, 1000, 64, 5, 1] {
            assert!(rt;
                is_row(rt.alloc(), row, size)?,
                "in pieces of {size}: {row}"
            );
        }
    }
    Ok(())
}

#[test]
fn pieces_of_every_size_give_the_same(rt: HostRuntime) -> Result<(), Fail> {
    for row in REAL
        .split('\n')
        .filter(|row| row.starts_with("tshark, pcapng|"))
    {
        let text = row.split('|').nth(1).unwrap_or("");
        let octets = octets_of(rt.alloc(), text)?;
        let whole = outcome_of(rt.alloc(), &octets, 1_000_000)?;
        for size in 1..1000 {
            let outcome = outcome_of(rt.alloc(), &octets, size)?;
            assert!(rt; outcome == whole, "in pieces of {size}: {row}");
        }
    }
    Ok(())
}

#[test]
fn a_fault_is_answered_again_and_nothing_is_taken(rt: HostRuntime) -> Result<(), Fail> {
    packets_begin();
    let mut capture = Capture::new(rt.alloc())?;
    let fault = CaptureFault {
        kind: FaultKind::Magic(OtherFile::Unknown),
        place: 4,
    };
    assert_eq!(rt; capture.take(b"GIOP\x01"), (4, Progress::Fault(fault)));
    assert_eq!(rt; capture.take(b"\x00"), (0, Progress::Fault(fault)));
    assert_eq!(rt; (capture.octets(), capture.packets()), (4, 0));
    assert_eq!(rt; capture.finish(), Some(fault));
    Ok(())
}

/// The first octets of files that are no captures, and which files they are.
const OTHERS: [(&[u8], OtherFile); 9] = [
    (b"\x1f\x8b\x08\x00", OtherFile::Gzip),
    (b"\x1f\x8c\x08\x00", OtherFile::Unknown),
    (b"\x28\xb5\x2f\xfd", OtherFile::Zstandard),
    (b"\xfd\x37\x7a\x58", OtherFile::Xz),
    (b"\xfd7zY", OtherFile::Unknown),
    (b"snoo", OtherFile::Snoop),
    (b"\xa1\xb2\xcd\x34", OtherFile::ModifiedPcap),
    (b"\x34\xcd\xb2\xa1", OtherFile::ModifiedPcap),
    (b"\xb2\xa1\x34\xcd", OtherFile::Unknown),
];

#[test]
fn what_a_file_is_that_is_no_capture(rt: HostRuntime) -> Result<(), Fail> {
    for (octets, file) in OTHERS {
        let mut capture = Capture::new(rt.alloc())?;
        let fault = CaptureFault {
            kind: FaultKind::Magic(file),
            place: 4,
        };
        let taken = capture.take(octets);
        assert!(rt; taken == (4, Progress::Fault(fault)), "{file:?}: {taken:?}");
    }
    Ok(())
}
