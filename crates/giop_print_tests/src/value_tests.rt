//! The line of each kind of value.

use crate::place::placed;
use giop_cdr::{Number, Prim};
use giop_print::{OutFault, Path, Root, Sheet, Value, put_all, value_line};
use std::process::Abort;
use std::test::Fail;

/// A value, and what its line has after `m9 body.m.switch`.
static VALUES: [(Value<'static>, &str); 20] = [
    (
        Value::Primitive(Prim::Octet, Number::Unsigned(255)),
        "octet 255",
    ),
    (Value::Primitive(Prim::Char, Number::Char(65)), "char \"A\""),
    (
        Value::Primitive(Prim::Char, Number::Char(34)),
        "char \"\\x22\"",
    ),
    (
        Value::Primitive(Prim::Boolean, Number::Truth(true)),
        "boolean true",
    ),
    (
        Value::Primitive(Prim::Boolean, Number::Truth(false)),
        "boolean false",
    ),
    (
        Value::Primitive(Prim::Short, Number::Signed(-32_768)),
        "short -32768",
    ),
    (
        Value::Primitive(Prim::UShort, Number::Unsigned(8)),
        "ushort 8",
    ),
    (Value::Primitive(Prim::Long, Number::Signed(42)), "long 42"),
    (
        Value::Primitive(Prim::ULong, Number::Unsigned(0)),
        "ulong 0",
    ),
    (
        Value::Primitive(Prim::LongLong, Number::Signed(-9_223_372_036_854_775_808)),
        "longlong -9223372036854775808",
    ),
    (
        Value::Primitive(
            Prim::ULongLong,
            Number::Unsigned(18_446_744_073_709_551_615),
        ),
        "ulonglong 18446744073709551615",
    ),
    (
        Value::Primitive(Prim::Float, Number::Bits(3_212_836_864)),
        "float bf800000",
    ),
    (
        Value::Primitive(Prim::Float, Number::Bits(1)),
        "float 00000001",
    ),
    (
        Value::Primitive(Prim::Double, Number::Bits(4_609_434_218_613_702_656)),
        "double 3ff8000000000000",
    ),
    (Value::Enum(b"red"), "enum red"),
    (Value::Enum(b"COMPLETED_NO"), "enum COMPLETED_NO"),
    (Value::Count(4_294_967_295), "count 4294967295"),
    (
        Value::Named {
            number: 1,
            word: b"CodeSets",
            code: None,
        },
        "ulong 1 CodeSets",
    ),
    (
        Value::Named {
            number: 1_330_446_337,
            word: b"OMG",
            code: Some(1),
        },
        "ulong 1330446337 OMG 1",
    ),
    (
        Value::Named {
            number: 4_294_967_295,
            word: b"TAO",
            code: Some(65_535),
        },
        "ulong 4294967295 TAO 65535",
    ),
];

#[test]
fn each_kind_of_value_has_its_line(rt: HostRuntime) -> Result<(), Fail> {
    let mut path = Path::new(Root::Body);
    path.push_name(b"m");
    path.push_name(b"switch");
    each_has_its_line(&rt, &path)
}

fn each_has_its_line(rt: &impl Abort, path: &Path) -> Result<(), Fail> {
    for (value, want) in &VALUES {
        assert!(rt; is_its_line(path, *value, want)?, "{want}");
    }
    Ok(())
}

/// Whether the line of a value ends in this text.
fn is_its_line(path: &Path, value: Value, want: &str) -> Result<bool, OutFault> {
    let mut room = [0; 128];
    let mut sheet = Sheet::new(&mut room);
    value_line(&mut sheet, &placed(9, path), value)?;
    let mut wanted = [0; 128];
    let mut sample = Sheet::new(&mut wanted);
    put_all(&mut sample, b"m9 body.m.switch ")?;
    put_all(&mut sample, want.as_bytes())?;
    put_all(&mut sample, b"\n")?;
    Ok(sheet.held() == sample.held())
}

/// A name of 64 octets, the most that a name can have.
const LONG_NAME: &[u8] = b"abcdefghijklmnopqrstuvwxyz0123456789_ABCDEFGHIJKLMNOPQRSTUVWXYZ0";

/// A path of five such names. A line that is spelled from its end has no room for it.
fn long_path() -> Path {
    let mut path = Path::new(Root::Body);
    path.push_name(LONG_NAME);
    path.push_name(LONG_NAME);
    path.push_name(LONG_NAME);
    path.push_name(LONG_NAME);
    path.push_name(LONG_NAME);
    path
}

#[test]
fn a_value_at_a_long_path_has_its_line(rt: HostRuntime) -> Result<(), Fail> {
    let mut room = [0; 512];
    let mut sheet = Sheet::new(&mut room);
    let value = Value::Primitive(Prim::ULong, Number::Unsigned(7));
    value_line(&mut sheet, &placed(9, &long_path()), value)?;
    let mut wanted = [0; 512];
    let mut sample = Sheet::new(&mut wanted);
    put_all(&mut sample, b"m9 body")?;
    for _ in 0..5 {
        put_all(&mut sample, b".")?;
        put_all(&mut sample, LONG_NAME)?;
    }
    put_all(&mut sample, b" ulong 7\n")?;
    assert!(&rt; sheet.held() == sample.held());
    Ok(())
}

#[test]
fn a_name_may_be_longer_than_the_line_that_is_spelled_with_it(rt: HostRuntime) -> Result<(), Fail> {
    let mut path = Path::new(Root::Body);
    path.push_name(b"m");
    let word = [b'n'; 129];
    let mut room = [0; 256];
    let mut sheet = Sheet::new(&mut room);
    let value = Value::Named {
        number: 70_000,
        word: &word,
        code: Some(12),
    };
    value_line(&mut sheet, &placed(9, &path), value)?;
    let mut wanted = [0; 256];
    let mut sample = Sheet::new(&mut wanted);
    put_all(&mut sample, b"m9 body.m ulong 70000 ")?;
    put_all(&mut sample, &word)?;
    put_all(&mut sample, b" 12\n")?;
    assert!(&rt; sheet.held() == sample.held());
    Ok(())
}
