//! The fixed part, written and read, and why octets are refused.

ghost use Rattle.std.specs.Prelude.{◌+◌, ◌≤◌};

use arrayvec::ArrayVec;
use giop_checkpoint::{Counts, Fixed, LoadFault, NextOctet, StreamFault, fixed_part};
use hex::FromHex;
use std::test::Fail;

/// The counts of the built-in catalogue, without requests.
const BUILT_IN: Counts = Counts {
    version: 1,
    types: 0,
    operations: 0,
    exceptions: 0,
    ids: 0,
};

/// The fixed part after 5 octets of a header, if 16 messages may be open.
const IN_HEADER: &str =
    "47494f5044554d5000000003000000000000000000000000000000000000000000000000000000050000000000000000\
00000000000000000000050047494f500100000000000000000000000000000000000010ffffffff0000000000000000";

/// The same, if 4,096 messages may be open.
const OF_MANY: &str =
    "47494f5044554d5000000003000000000000000000000000000000000000000000000000000000050000000000000000\
00000000000000000000050047494f500100000000000000000000000000000000001000ffffffff0000000000000000";

/// The fixed part after the wrong third octet of a stream.
const STOPPED: &str =
    "47494f5044554d5000000003000000000000000000000000000000000000000000000000000000030000000000000000\
000000000000000102010000000000000000000000000000000000000000000000000010ffffffff0000000000000000";

/// The fixed part after 10 of 16 payload octets of an open Request, whose record is the first.
const IN_PAYLOAD: &str =
    "47494f5044554d5000000003000000000000000000000000000000000000000100000000000000160000000000000001\
00000000000000000100000047494f500102020000000010000000000000000600000010000000000000000000000000";

/// The same fixed parts in layout 2.
const SECOND_IN_HEADER: &str =
    "47494f5044554d5000000002000000000000000000000000000000000000000000000000000000050000000000000000\
0000000000000000000005ff47494f500100000000000000000000000000000000000000000000000000000000000000";

const SECOND_STOPPED: &str =
    "47494f5044554d5000000002000000000000000000000000000000000000000000000000000000030000000000000000\
0000000000000001020100ff000000000000000000000000000000000000000000000000000000000000000000000000";

const SECOND_IN_PAYLOAD: &str =
    "47494f5044554d5000000002000000000000000000000000000000000000000100000000000000160000000000000001\
00000000000000000100000047494f500102020000000010000000000000000600000000000000000000000000000000";

fn octets_of(text: &str) -> Result<[u8; 96], Fail> {
    <[u8; 96] as FromHex>::from_hex(text).map_err(|_| Fail::from("96 octets in hexadecimal digits"))
}

fn header_of(octets: &[u8]) -> ArrayVec<u8, 11> {
    let mut held = ArrayVec::new();
    for octet in octets {
        let _ = held.try_push(*octet);
    }
    held
}

fn fixed_of(most_open: u32, octets: u64, faults: u64, place: NextOctet) -> Fixed {
    Fixed {
        counts: BUILT_IN,
        most_open,
        records: 0,
        octets,
        messages: 0,
        faults,
        place,
        owner: None,
        is_mixed: false,
    }
}

fn a_payload() -> NextOctet {
    let header = *b"GIOP\x01\x02\x02\x00\x00\x00\x00\x10";
    NextOctet::Payload { header, left: 6 }
}

#[test]
fn the_fixed_part_is_written_at_stated_octets(rt: HostRuntime) -> Result<(), Fail> {
    let in_header = || NextOctet::Header(header_of(b"GIOP\x01"));
    let in_payload = Fixed {
        records: 1,
        messages: 1,
        owner: Some(0),
        ..fixed_of(16, 22, 0, a_payload())
    };
    let rows = [
        (fixed_of(16, 5, 0, in_header()), IN_HEADER),
        (fixed_of(4096, 5, 0, in_header()), OF_MANY),
        (
            fixed_of(16, 3, 1, NextOctet::Stopped(StreamFault::Magic)),
            STOPPED,
        ),
        (in_payload, IN_PAYLOAD),
    ];
    for (fixed, want) in rows {
        let mut out: ArrayVec<u8, 96> = ArrayVec::new();
        fixed.write(&mut out);
        assert!(rt; out.as_slice() == octets_of(want)?.as_slice(), "{want}");
    }
    Ok(())
}

#[test]
fn a_checkpoint_of_layout_2_is_read_with_16_open(rt: HostRuntime) -> Result<(), Fail> {
    let rows = [
        (SECOND_IN_HEADER, IN_HEADER),
        (SECOND_STOPPED, STOPPED),
        (SECOND_IN_PAYLOAD, IN_PAYLOAD),
    ];
    for (second, third) in rows {
        let octets = octets_of(second)?;
        let mut whole = [0; 352];
        whole[..96].copy_from_slice(&octets);
        let size = if octets[31] == 1 { 352 } else { 96 };
        let Ok((fixed, _)) = fixed_part(&whole[..size], BUILT_IN) else {
            return Err(Fail::from("layout 2 is read"));
        };
        let mut out: ArrayVec<u8, 96> = ArrayVec::new();
        fixed.write(&mut out);
        assert!(rt; out.as_slice() == octets_of(third)?.as_slice(), "{third}");
    }
    Ok(())
}

#[test]
fn with_a_file_of_version_3_the_layout_is_the_latest(rt: HostRuntime) -> Result<(), Fail> {
    let counts = Counts {
        version: 3,
        ..BUILT_IN
    };
    for third in [IN_HEADER, STOPPED] {
        let octets = octets_of(third)?;
        assert!(rt; fixed_part(&octets, counts).is_err_and(|why| why == LoadFault::Version));
        let mut latest = octets;
        latest[11] = 8;
        assert!(rt; fixed_part(&latest, counts).is_err_and(|why| why == LoadFault::Version));
        latest[11] = 9;
        assert!(rt; fixed_part(&latest, BUILT_IN).is_err_and(|why| why == LoadFault::Version));
        let Ok((fixed, _)) = fixed_part(&latest, counts) else {
            return Err(Fail::from("layout 9 is read"));
        };
        let mut out: ArrayVec<u8, 96> = ArrayVec::new();
        fixed.write(&mut out);
        assert!(rt; out.as_slice() == latest.as_slice(), "{third}");
    }
    Ok(())
}

#[test]
fn a_mixed_stream_is_told_in_the_latest_layout(rt: HostRuntime) -> Result<(), Fail> {
    let counts = Counts {
        version: 3,
        ..BUILT_IN
    };
    let mixed = Fixed {
        counts,
        is_mixed: true,
        ..fixed_of(16, 5, 0, NextOctet::Header(header_of(b"GIOP\x01")))
    };
    let mut out: ArrayVec<u8, 96> = ArrayVec::new();
    mixed.write(&mut out);
    let mut octets = octets_of(IN_HEADER)?;
    octets[11] = 9;
    octets[88] = 1;
    assert!(rt; out.as_slice() == octets.as_slice());
    assert!(rt; fixed_part(&octets, counts).is_ok_and(|(fixed, _)| fixed.is_mixed));
    octets[88] = 0;
    assert!(rt; fixed_part(&octets, counts).is_ok_and(|(fixed, _)| !fixed.is_mixed));
    octets[88] = 2;
    assert!(rt; fixed_part(&octets, counts).is_err_and(|why| why == LoadFault::State));
    Ok(())
}

/// How many messages may be open, how many records there are, and what is returned.
const OPEN: [(u32, u32, Option<LoadFault>); 9] = [
    (0, 0, Some(LoadFault::State)),
    (1, 0, None),
    (1, 2, Some(LoadFault::Length)),
    (1, 3, Some(LoadFault::State)),
    (16, 0, None),
    (4096, 0, None),
    (4096, 4097, Some(LoadFault::Length)),
    (4096, 4098, Some(LoadFault::State)),
    (4097, 0, Some(LoadFault::State)),
];

fn limited_to(most: u32, records: u32) -> Result<[u8; 96], Fail> {
    let octets = octets_of(IN_HEADER)?;
    Ok(with_four(with_four(octets, 80, most), 28, records))
}

fn with_four(mut octets: [u8; 96], at: usize, n: u32) -> [u8; 96]
    requires { at + 4 ≤ 96 }
{
    octets[at..at + 4].copy_from_slice(&n.to_be_bytes());
    octets
}

#[test]
fn so_many_messages_may_be_open(rt: HostRuntime) -> Result<(), Fail> {
    for (most, records, want) in OPEN {
        let octets = limited_to(most, records)?;
        assert!(rt;
            refusal_of(&octets) == want,
            "{most} open, {records} records"
        );
    }
    Ok(())
}

/// The index of an octet, the value to which it is set, and what is returned then.
const REFUSED: [(usize, u8, LoadFault); 19] = [
    (0, 0x46, LoadFault::Magic),
    (7, 0x51, LoadFault::Magic),
    (11, 1, LoadFault::Version),
    (11, 4, LoadFault::Version),
    (11, 9, LoadFault::Version),
    (15, 1, LoadFault::Catalogue),
    (27, 1, LoadFault::Catalogue),
    (31, 18, LoadFault::State),
    (31, 1, LoadFault::Length),
    (33, 2, LoadFault::State),
    (40, 1, LoadFault::State),
    (48, 1, LoadFault::State),
    (56, 3, LoadFault::State),
    (57, 1, LoadFault::State),
    (59, 255, LoadFault::State),
    (84, 0, LoadFault::State),
    (87, 0, LoadFault::State),
    (88, 1, LoadFault::State),
    (95, 1, LoadFault::State),
];

#[test]
fn the_first_failing_check_refuses(rt: HostRuntime) -> Result<(), Fail> {
    for (at, octet, want) in REFUSED {
        let mut octets = octets_of(IN_HEADER)?;
        octets[at % 96] = octet;
        assert!(rt; refusal_of(&octets) == Some(want), "octet {at} is {octet}");
    }
    let octets = octets_of(IN_HEADER)?;
    assert!(rt; refusal_of(&octets) == None);
    assert!(rt; refusal_of(one_fewer(&octets)) == Some(LoadFault::Length));
    Ok(())
}

fn one_fewer(octets: &[u8; 96]) -> &[u8] {
    &octets[..95]
}

fn refusal_of(octets: &[u8]) -> Option<LoadFault> {
    fixed_part(octets, BUILT_IN).err()
}

/// How many octets were read, and whether a stream may have that many.
const READ: [(u64, bool); 3] = [
    (281_474_976_710_656, true),
    (281_474_976_710_657, true),
    (281_474_976_710_658, false),
];

#[test]
fn a_stream_has_an_octet_more_than_its_limit_at_most(rt: HostRuntime) {
    for (read, want) in READ {
        let mut out: ArrayVec<u8, 96> = ArrayVec::new();
        fixed_of(16, read, 0, NextOctet::Header(ArrayVec::new())).write(&mut out);
        let refusal = refusal_of(out.as_slice());
        assert!(rt; refusal.is_none() == want, "{read}");
    }
}
