//! Each kind of field, written to and read from given octets.

use arrayvec::ArrayVec;
use giop_octets::{
    eight_at, four_at, held_at, octet_at, octets_at, optional_at, put_eight, put_four, put_held,
    put_octets, put_optional, put_zeros,
};

/// One field of each kind, after three zeros.
const FIELDS: [u8; 33] = [
    0, 0, 0, 7, 8, 9, 1, 2, 3, 4, 255, 254, 253, 252, 251, 250, 249, 248, 1, 0, 0, 1, 0, 0, 0, 0,
    0, 0, 2, 65, 66, 0, 0,
];

#[test]
fn every_field_is_written(rt: HostRuntime) {
    let mut out: ArrayVec<u8, 33> = ArrayVec::new();
    put_zeros(&mut out, 3);
    put_octets(&mut out, &[7, 8, 9]);
    put_four(&mut out, 16_909_060);
    put_eight(&mut out, 18_446_460_386_757_245_432);
    put_optional(&mut out, Some(256));
    put_optional(&mut out, None);
    put_held(&mut out, b"AB", 4);
    assert_eq!(rt; out.as_slice(), &FIELDS[..]);
}

#[test]
fn every_field_is_read(rt: HostRuntime) {
    assert_eq!(rt; octet_at(&FIELDS, 3), 7);
    assert_eq!(rt; octets_at(&FIELDS, 3), [7, 8, 9]);
    assert_eq!(rt; four_at(&FIELDS, 6), 16_909_060);
    assert_eq!(rt; eight_at(&FIELDS, 10), 18_446_460_386_757_245_432);
    assert_eq!(rt; optional_at(&FIELDS, 18), Some(256));
    assert_eq!(rt; optional_at(&FIELDS, 23), None);
    let held: ArrayVec<u8, 4> = held_at(&FIELDS, 28);
    assert_eq!(rt; held.as_slice(), &b"AB"[..]);
}

#[test]
fn a_count_of_more_octets_than_there_is_room_for_reads_as_many_as_there_is(rt: HostRuntime) {
    let held: ArrayVec<u8, 2> = held_at(&[200, 65, 66], 0);
    assert_eq!(rt; held.as_slice(), &b"AB"[..]);
}
