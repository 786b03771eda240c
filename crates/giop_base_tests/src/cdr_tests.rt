//! The public calls on values worked by hand from the rules of CDR.

use giop_cdr::{Carry, CdrFault, Number, Order, Prim, number_of, pad, size};
use std::process::Abort;
use std::test::Fail;

/// A carry that holds the octets of a hexadecimal text.
fn carried(rt: &impl Abort, text: &str) -> Result<Carry, Fail> {
    let mut carry = Carry::new();
    for octet in text.split_whitespace() {
        assert!(rt; carry.len() < 8, "too many octets in {text}");
        carry.push(u8::from_str_radix(octet, 16)?);
    }
    Ok(carry)
}

/// A primitive, its octets in big-endian and in little-endian order, and the number.
static ENDS: [(Prim, &str, &str, Number); 29] = [
    (Prim::Octet, "00", "00", Number::Unsigned(0)),
    (Prim::Octet, "ff", "ff", Number::Unsigned(255)),
    (Prim::Char, "00", "00", Number::Char(0)),
    (Prim::Char, "ff", "ff", Number::Char(255)),
    (Prim::Boolean, "00", "00", Number::Truth(false)),
    (Prim::Boolean, "01", "01", Number::Truth(true)),
    (Prim::Short, "80 00", "00 80", Number::Signed(-32_768)),
    (Prim::Short, "ff fe", "fe ff", Number::Signed(-2)),
    (Prim::Short, "7f ff", "ff 7f", Number::Signed(32_767)),
    (Prim::UShort, "00 00", "00 00", Number::Unsigned(0)),
    (Prim::UShort, "01 02", "02 01", Number::Unsigned(258)),
    (Prim::UShort, "ff ff", "ff ff", Number::Unsigned(65_535)),
    (
        Prim::Long,
        "80 00 00 00",
        "00 00 00 80",
        Number::Signed(-2_147_483_648),
    ),
    (Prim::Long, "ff ff ff ff", "ff ff ff ff", Number::Signed(-1)),
    (
        Prim::Long,
        "7f ff ff ff",
        "ff ff ff 7f",
        Number::Signed(2_147_483_647),
    ),
    (
        Prim::ULong,
        "00 00 00 00",
        "00 00 00 00",
        Number::Unsigned(0),
    ),
    (
        Prim::ULong,
        "01 02 03 04",
        "04 03 02 01",
        Number::Unsigned(16_909_060),
    ),
    (
        Prim::ULong,
        "ff ff ff ff",
        "ff ff ff ff",
        Number::Unsigned(4_294_967_295),
    ),
    (
        Prim::LongLong,
        "80 00 00 00 00 00 00 00",
        "00 00 00 00 00 00 00 80",
        Number::Signed(-9_223_372_036_854_775_808),
    ),
    (
        Prim::LongLong,
        "ff ff ff ff ff ff ff ff",
        "ff ff ff ff ff ff ff ff",
        Number::Signed(-1),
    ),
    (
        Prim::LongLong,
        "7f ff ff ff ff ff ff ff",
        "ff ff ff ff ff ff ff 7f",
        Number::Signed(9_223_372_036_854_775_807),
    ),
    (
        Prim::ULongLong,
        "00 00 00 00 00 00 00 00",
        "00 00 00 00 00 00 00 00",
        Number::Unsigned(0),
    ),
    (
        Prim::ULongLong,
        "01 00 00 00 00 00 00 00",
        "00 00 00 00 00 00 00 01",
        Number::Unsigned(72_057_594_037_927_936),
    ),
    (
        Prim::ULongLong,
        "ff ff ff ff ff ff ff ff",
        "ff ff ff ff ff ff ff ff",
        Number::Unsigned(18_446_744_073_709_551_615),
    ),
    (Prim::Float, "00 00 00 00", "00 00 00 00", Number::Bits(0)),
    (
        Prim::Float,
        "bf 80 00 00",
        "00 00 80 bf",
        Number::Bits(3_212_836_864),
    ),
    (
        Prim::Float,
        "ff ff ff ff",
        "ff ff ff ff",
        Number::Bits(4_294_967_295),
    ),
    (
        Prim::Double,
        "bf f0 00 00 00 00 00 00",
        "00 00 00 00 00 00 f0 bf",
        Number::Bits(13_830_554_455_654_793_216),
    ),
    (
        Prim::Double,
        "ff ff ff ff ff ff ff ff",
        "ff ff ff ff ff ff ff ff",
        Number::Bits(18_446_744_073_709_551_615),
    ),
];

/// What the octets of a hexadecimal text are as a primitive, which takes as many, from a slice and from a carry.
fn read(
    rt: &impl Abort,
    order: Order,
    prim: Prim,
    text: &str,
) -> Result<Result<Number, CdrFault>, Fail> {
    let carry = carried(rt, text)?;
    assert_eq!(rt; carry.len(), usize::from(size(prim)), "{prim:?} at {text}");
    assert!(rt; carry.is_full_for(prim), "{prim:?} at {text}");
    let number = number_of(order, prim, carry.as_slice());
    assert!(rt; carry.value(order, prim) == number, "{prim:?} at {text}");
    Ok(number)
}

#[test]
fn every_primitive_is_read_in_both_orders(rt: HostRuntime) -> Result<(), Fail> {
    for (prim, big, little, want) in &ENDS {
        assert_eq!(rt;
            read(&rt, Order::Big, *prim, big)?,
            Ok(*want),
            "{prim:?} of {big}"
        );
        assert_eq!(rt;
            read(&rt, Order::Little, *prim, little)?,
            Ok(*want),
            "{prim:?} of {little}"
        );
    }
    Ok(())
}

#[test]
fn a_boolean_above_1_is_refused_and_stays_in_the_carry(rt: HostRuntime) -> Result<(), Fail> {
    for text in ["02", "ff"] {
        let carry = carried(&rt, text)?;
        assert!(rt; carry.is_full_for(Prim::Boolean), "{text}");
        assert_eq!(rt;
            carry.value(Order::Big, Prim::Boolean),
            Err(CdrFault::Boolean),
            "{text}"
        );
        assert!(rt; carry.is_full_for(Prim::Octet), "{text}");
        assert_eq!(rt; carry, carried(&rt, text)?, "{text}");
    }
    assert_eq!(rt; CdrFault::Boolean as u8, 1);
    Ok(())
}

#[test]
fn a_cleared_carry_begins_anew(rt: HostRuntime) -> Result<(), Fail> {
    let mut carry = carried(&rt, "12 34 56")?;
    assert_eq!(rt; carry.len(), 3);
    assert_eq!(rt; carry.as_slice(), &[18, 52, 86][..]);
    carry.clear();
    assert!(rt; carry.is_empty());
    assert_eq!(rt; carry, Carry::default());
    carry.push(7);
    assert_eq!(rt; carry, carried(&rt, "07")?);
    Ok(())
}

/// An offset, a size, and the padding in front of a value of that size.
const PADDING: [(u64, u8, u8); 12] = [
    (12, 8, 4),
    (13, 8, 3),
    (16, 8, 0),
    (44, 8, 4),
    (13, 4, 3),
    (14, 4, 2),
    (15, 2, 1),
    (13, 1, 0),
    (0, 8, 0),
    (18_446_744_073_709_551_615, 8, 1),
    (18_446_744_073_709_551_615, 1, 0),
    (18_446_744_073_709_551_609, 8, 7),
];

#[test]
fn padding_counts_from_the_start_of_the_message(rt: HostRuntime) {
    for (at, size, want) in PADDING {
        assert!(rt;
            size == 1 || size == 2 || size == 4 || size == 8,
            "size {size}"
        );
        assert_eq!(rt; pad(at, size), want, "at {at}, size {size}");
    }
}
