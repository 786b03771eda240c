//! Records at stated octets.

use arrayvec::ArrayVec;
use giop_checkpoint::{Record, RecordKind, first_record};
use std::test::Fail;

const OVER: Record = Record {
    frames: 0,
    record_kind: RecordKind::Over(5),
    number: 258,
    header: *b"GIOP\x01\x02\x02\x00\x00\x00\x00\x28",
};

#[test]
fn a_record_is_written_and_read(rt: HostRuntime) -> Result<(), Fail> {
    let mut out: ArrayVec<u8, 256> = ArrayVec::new();
    OVER.write(&mut out);
    let own =
        b"\x00\x02\x00\x00\x00\x00\x00\x00\x01\x02GIOP\x01\x02\x02\x00\x00\x00\x00\x28\x00\x00\x00\x05\x00\x00\x00\x00\x00\x00";
    assert!(rt; out.as_slice() == own.as_slice());
    let mut octets = [0; 256];
    octets[..32].copy_from_slice(own);
    let first = first_record(&octets).ok_or("a record")?;
    assert!(rt; first.record.number == 258 && first.frames.is_empty() && first.rest.is_empty());
    assert!(rt; matches!(first.record.record_kind, RecordKind::Over(5)));
    octets[31] = 1;
    assert!(rt; first_record(&octets).is_none());
    Ok(())
}

#[test]
fn a_record_without_an_id_has_none(rt: HostRuntime) -> Result<(), Fail> {
    let kinds = [
        (RecordKind::OpenWithoutId, 3),
        (RecordKind::OverWithoutId, 4),
    ];
    for (record_kind, octet) in kinds {
        let record = Record {
            record_kind,
            ..OVER
        };
        let mut out: ArrayVec<u8, 256> = ArrayVec::new();
        record.write(&mut out);
        let mut octets = [0; 256];
        octets[..32].copy_from_slice(
            b"\x00\x00\x00\x00\x00\x00\x00\x00\x01\x02GIOP\x01\x02\x02\x00\x00\x00\x00\x28\x00\x00\x00\x00\x00\x00\x00\x00\x00\x00",
        );
        octets[1] = octet;
        assert!(rt; out.as_slice() == &octets[..32], "octet {octet}");
        let first = first_record(&octets).ok_or("a record")?;
        assert!(rt;
            octet_of(first.record.record_kind) == octet,
            "octet {octet}"
        );
        octets[25] = 5;
        assert!(rt; first_record(&octets).is_none(), "octet {octet} and an id");
    }
    Ok(())
}

/// The octet of a kind without an id, or 0.
fn octet_of(record_kind: RecordKind) -> u8 {
    match record_kind {
        RecordKind::OpenWithoutId => 3,
        RecordKind::OverWithoutId => 4,
        _ => 0,
    }
}

#[test]
fn there_is_no_fifth_kind_of_open_record(rt: HostRuntime) {
    let mut octets = [0; 256];
    octets[1] = 5;
    assert!(rt; first_record(&octets).is_none());
}
