//! The values of a message as JSON.

use giop_json_values::{Characters, Options, Values};
use giop_lines::{Statement, read};
use std::alloc::{AllocError, Global};

/// The characters of JSON are escaped; a type code has all of its parameters, or its id and its name alone.
pub const fn options(has_types: bool) -> Options {
    Options {
        characters: Characters::Escapes,
        are_strings: false,
        has_types,
    }
}

/// An element of a sequence, and a number.
const PLAIN: &str = "\
m1 body.n count 1
m1 body.n[0].x long -5
m1 body.w float 3dcccccd
";

/// An any with a struct of one short. The id of its type is in two lines.
const ANY: &str = "\
m1 body.v.type.kind enum tk_struct
m1 body.v.type.parameters encapsulation 68
m1 body.v.type.parameters order big
m1 body.v.type.parameters.id string @0 \"IDL:omg.org/CosNotification/One:\" more
m1 body.v.type.parameters.id string @32 \"1.0\"
m1 body.v.type.parameters.name string @0 \"One\"
m1 body.v.type.parameters.members count 1
m1 body.v.type.parameters.members[0].name string @0 \"x\"
m1 body.v.type.parameters.members[0].type.kind enum tk_short
m1 body.v.type.parameters rest @0 abcdef
m1 body.v.value.x short -2
m1 body.w long 1
";

/// The lines of a message, whether a type code has all of its parameters, and the members of the message's object.
const ROWS: [(&str, bool, &str); 3] = [
    (PLAIN, false, r#""body":{"n":[{"x":-5}],"w":0.1}"#),
    (
        ANY,
        false,
        "\"body\":{\"v\":{\"type\":{\"kind\":\"tk_struct\",\"parameters\":{\
         \"id\":\"IDL:omg.org/CosNotification/One:1.0\",\"name\":\"One\"}},\
         \"value\":{\"x\":-2}},\"w\":1}",
    ),
    (
        ANY,
        true,
        "\"body\":{\"v\":{\"type\":{\"kind\":\"tk_struct\",\"parameters\":{\
         \"id\":\"IDL:omg.org/CosNotification/One:1.0\",\"name\":\"One\",\
         \"members\":[{\"name\":\"x\",\"type\":{\"kind\":\"tk_short\"}}],\"@rest\":\"abcdef\"}},\
         \"value\":{\"x\":-2}},\"w\":1}",
    ),
];

/// The members that the lines of a message give.
fn members_of(alloc: Global, has_types: bool, lines: &str) -> Result<Vec<u8>, AllocError> {
    let mut values = Values::new(alloc);
    for line in lines.as_bytes().split(|octet| *octet == b'\n') {
        if let Some(line) = read(line)
            && let Statement::Value(path, value) = line.said
        {
            values.take_value(options(has_types), path, value)?;
        }
    }
    values.close_values()?;
    Ok(values.take_text(alloc))
}

#[test]
fn values_stand_at_their_paths(rt: HostRuntime) -> Result<(), AllocError> {
    for (lines, has_types, members) in ROWS {
        let told = members_of(rt.alloc(), has_types, lines)?;
        assert!(rt; told.as_slice() == members.as_bytes(), "{members}");
    }
    Ok(())
}
