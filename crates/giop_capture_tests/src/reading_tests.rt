//! A capture of two packets, read in pieces of several sizes.

use super::counter::Counter;
use capture_file::{Capture, CaptureFault, FaultKind, OtherFile};
use giop_capture::read_packets;
use giop_run::{Piecewise, RunFault};
use std::test::Fail;

/// A little-endian pcap file with microseconds and link type 1. It has a packet of 3 octets, one second and two
/// microseconds after 1970 began, and a packet of 2 octets, two seconds after 1970 began.
const CAPTURE: &[u8] = b"\xd4\xc3\xb2\xa1\x02\0\x04\0\0\0\0\0\0\0\0\0\0\0\x04\0\x01\0\0\0\
\x01\0\0\0\x02\0\0\0\x03\0\0\0\x03\0\0\0abc\
\x02\0\0\0\0\0\0\0\x02\0\0\0\x02\0\0\0de";

const TWO: Counter = Counter {
    packets: 2,
    octets: 5,
    last_time: Some(2_000_000_000),
    flushes: 0,
    fails_at: 0,
};

#[test]
fn the_packets_of_a_capture_are_handed_on(rt: HostRuntime) -> Result<(), Fail> {
    for (step, flushes) in [(1, 62), (7, 10), (1000, 2)] {
        let mut capture = Capture::new(rt.alloc())?;
        let mut source = Piecewise::new(CAPTURE, step);
        let mut counter = Counter::new(0);
        let ran = read_packets(&mut source, &mut capture, &mut counter);
        assert!(rt; ran == Ok(()), "pieces of {step}");
        assert!(rt;
            counter == Counter { flushes, ..TWO },
            "pieces of {step}: {counter:?}"
        );
        assert!(rt; capture.finish().is_none(), "pieces of {step}");
    }
    Ok(())
}

#[test]
fn a_fault_ends_the_reading(rt: HostRuntime) -> Result<(), Fail> {
    let mut capture = Capture::new(rt.alloc())?;
    let mut source = Piecewise::new(b"GIOP and more", 1);
    let mut counter = Counter::new(0);
    let ran = read_packets(&mut source, &mut capture, &mut counter);
    assert!(rt; ran == Ok(()));
    assert!(rt;
        counter
            == Counter {
                flushes: 4,
                ..Counter::new(0)
            },
        "{counter:?}"
    );
    let magic = CaptureFault {
        kind: FaultKind::Magic(OtherFile::Unknown),
        place: 4,
    };
    assert!(rt; capture.finish() == Some(magic));
    Ok(())
}

#[test]
fn a_listener_that_fails_ends_the_reading(rt: HostRuntime) -> Result<(), Fail> {
    let mut capture = Capture::new(rt.alloc())?;
    let mut source = Piecewise::new(CAPTURE, 1000);
    let mut counter = Counter::new(2);
    let ran = read_packets(&mut source, &mut capture, &mut counter);
    assert!(rt; ran == Err(RunFault::Out));
    assert!(rt; counter.octets == 3, "{counter:?}");
    Ok(())
}
