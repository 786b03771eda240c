//! The types that each catalogue of a file of version 3 has, apart from the built-in ones: `any`,
//! `TypeCode`, their parts (CDR, TypeCode and any), and wide text.

ghost use Rattle.std.specs.Prelude.{◌≡◌, ◌-◌, ◌<◌, ◌≤◌};
ghost use Rattle.giop_sig.specs.AnyTypes.{any_types};
ghost use Rattle.giop_sig.specs.Literals.{literal_node};
ghost use Rattle.giop_sig.specs.Table.{node_in};

use crate::builtin::{Literal, Named, Parameters};
use crate::numbers::{
    ALIAS, ALIAS_DATA, ANY, ANYS, ARRAY, ARRAY_DATA, BUILTIN_LEN, ENUM, ENUM_DATA,
    FIXED_PARAMETERS, HEARD_ALIAS, HEARD_ALIAS_DATA, HEARD_BOUND, HEARD_BOUND_MARK, HEARD_KIND,
    HEARD_KIND_MARK, HEARD_SEQUENCE, HEARD_SEQUENCE_DATA, HEARD_TYPE_CODE, IOR, KIND, KIND_MARK,
    LONG, NAMED, NAMED_DATA, REFERENCES, SEQUENCE, SEQUENCE_DATA, SEQUENCES, SHORT, STRING, STRUCT,
    STRUCT_DATA, THIRD_LEN, TYPE_CODE, TYPE_CODES, TYPE_MEMBER, TYPE_MEMBERS, ULONG, UNION,
    UNION_DATA, USHORT, VALUE, VALUE_BOX, VALUE_BOX_DATA, VALUE_DATA, VALUE_MEMBER, VALUE_MEMBERS,
    WIDE_CHAR, WIDE_CHARS, WIDE_STRING, WIDE_STRINGS,
};

/// The name of what comes after most kinds.
const PARAMETERS: &[u8] = b"parameters";

/// The type of a number that a file of version 3 adds.
pub(crate) fn any_types_literal(number: u32) -> Literal
    requires low { BUILTIN_LEN ≤ number }
    requires high { number < THIRD_LEN }
    ensures { literal_node result ≡ node_in any_types (number - BUILTIN_LEN) }
{
    if number < NAMED {
        sequence_or_any_literal(number)
    } else if number < HEARD_SEQUENCE {
        named_parameters_literal(number)
    } else if number < WIDE_CHAR {
        holder_or_value_literal(number)
    } else {
        wide_text_literal(number)
    }
}

/// Numbers with marks, sequences, TypeCodes and anys.
#[tactic(auto, unfolding(crate::specs::AnyTypes::any_types))]
fn sequence_or_any_literal(number: u32) -> Literal
    requires low { BUILTIN_LEN ≤ number }
    requires high { number < NAMED }
    ensures { literal_node result ≡ node_in any_types (number - BUILTIN_LEN) }
{
    match number {
        HEARD_KIND => Literal::Marked(HEARD_KIND_MARK),
        KIND => Literal::Marked(KIND_MARK),
        HEARD_BOUND => Literal::Marked(HEARD_BOUND_MARK),
        REFERENCES => Literal::Sequence(IOR),
        FIXED_PARAMETERS => {
            Literal::Members(&[Named(b"digits", USHORT), Named(b"scale", SHORT)])
        }
        HEARD_TYPE_CODE => Literal::TypeCode(
            HEARD_KIND,
            &[
                Parameters(&[14, 31, 32, 33, 34, 35], PARAMETERS, NAMED_DATA),
                Parameters(&[15, 22], PARAMETERS, STRUCT_DATA),
                Parameters(&[16], PARAMETERS, UNION_DATA),
                Parameters(&[17], PARAMETERS, ENUM_DATA),
                Parameters(&[18, 27], b"bound", ULONG),
                Parameters(&[19], PARAMETERS, HEARD_SEQUENCE_DATA),
                Parameters(&[20], PARAMETERS, ARRAY_DATA),
                Parameters(&[21], PARAMETERS, HEARD_ALIAS_DATA),
                Parameters(&[28], PARAMETERS, FIXED_PARAMETERS),
                Parameters(&[29, 36], PARAMETERS, VALUE_DATA),
                Parameters(&[30], PARAMETERS, VALUE_BOX_DATA),
                Parameters(&[4_294_967_295], b"offset", LONG),
            ],
        ),
        TYPE_CODE => Literal::TypeCode(
            KIND,
            &[
                Parameters(&[14, 31, 32, 33, 34, 35], PARAMETERS, NAMED_DATA),
                Parameters(&[15, 22], PARAMETERS, STRUCT_DATA),
                Parameters(&[16], PARAMETERS, UNION_DATA),
                Parameters(&[17], PARAMETERS, ENUM_DATA),
                Parameters(&[18, 27], b"bound", ULONG),
                Parameters(&[19], PARAMETERS, SEQUENCE_DATA),
                Parameters(&[20], PARAMETERS, ARRAY_DATA),
                Parameters(&[21], PARAMETERS, ALIAS_DATA),
                Parameters(&[28], PARAMETERS, FIXED_PARAMETERS),
                Parameters(&[29, 36], PARAMETERS, VALUE_DATA),
                Parameters(&[30], PARAMETERS, VALUE_BOX_DATA),
                Parameters(&[4_294_967_295], b"offset", LONG),
            ],
        ),
        TYPE_CODES => Literal::Sequence(TYPE_CODE),
        ANY => Literal::Any(HEARD_TYPE_CODE),
        ANYS => Literal::Sequence(ANY),
        _ => Literal::Sequence(number - SEQUENCES),
    }
}

/// The parameters of kinds with an id, and of their members.
#[tactic(auto, unfolding(crate::specs::AnyTypes::any_types))]
fn named_parameters_literal(number: u32) -> Literal
    requires low { NAMED ≤ number }
    requires high { number < HEARD_SEQUENCE }
    ensures { literal_node result ≡ node_in any_types (number - BUILTIN_LEN) }
{
    match number {
        NAMED => Literal::Members(&[Named(b"id", STRING), Named(b"name", STRING)]),
        NAMED_DATA => Literal::Encapsulation(NAMED),
        TYPE_MEMBER => Literal::Members(&[Named(b"name", STRING), Named(b"type", TYPE_CODE)]),
        TYPE_MEMBERS => Literal::Sequence(TYPE_MEMBER),
        STRUCT => Literal::Members(&[
            Named(b"id", STRING),
            Named(b"name", STRING),
            Named(b"members", TYPE_MEMBERS),
        ]),
        STRUCT_DATA => Literal::Encapsulation(STRUCT),
        UNION => Literal::Members(&[
            Named(b"id", STRING),
            Named(b"name", STRING),
            Named(b"discriminator", TYPE_CODE),
            Named(b"default_used", LONG),
        ]),
        UNION_DATA => Literal::Encapsulation(UNION),
        ENUM => Literal::Members(&[
            Named(b"id", STRING),
            Named(b"name", STRING),
            Named(b"enumerators", SEQUENCES + STRING),
        ]),
        ENUM_DATA => Literal::Encapsulation(ENUM),
        _ => unreachable!(),
    }
}

/// The parameters of kinds that hold another type, and those of values.
#[tactic(auto, unfolding(crate::specs::AnyTypes::any_types))]
fn holder_or_value_literal(number: u32) -> Literal
    requires low { HEARD_SEQUENCE ≤ number }
    requires high { number < WIDE_CHAR }
    ensures { literal_node result ≡ node_in any_types (number - BUILTIN_LEN) }
{
    match number {
        HEARD_SEQUENCE => Literal::Members(&[
            Named(b"element", HEARD_TYPE_CODE),
            Named(b"bound", HEARD_BOUND),
        ]),
        HEARD_SEQUENCE_DATA => Literal::Encapsulation(HEARD_SEQUENCE),
        SEQUENCE => Literal::Members(&[Named(b"element", TYPE_CODE), Named(b"bound", ULONG)]),
        SEQUENCE_DATA => Literal::Encapsulation(SEQUENCE),
        ARRAY => Literal::Members(&[Named(b"element", TYPE_CODE), Named(b"length", ULONG)]),
        ARRAY_DATA => Literal::Encapsulation(ARRAY),
        HEARD_ALIAS => Literal::Members(&[
            Named(b"id", STRING),
            Named(b"name", STRING),
            Named(b"type", HEARD_TYPE_CODE),
        ]),
        HEARD_ALIAS_DATA => Literal::Encapsulation(HEARD_ALIAS),
        ALIAS => Literal::Members(&[
            Named(b"id", STRING),
            Named(b"name", STRING),
            Named(b"type", TYPE_CODE),
        ]),
        ALIAS_DATA => Literal::Encapsulation(ALIAS),
        VALUE_MEMBER => Literal::Members(&[
            Named(b"name", STRING),
            Named(b"type", TYPE_CODE),
            Named(b"visibility", SHORT),
        ]),
        VALUE_MEMBERS => Literal::Sequence(VALUE_MEMBER),
        VALUE => Literal::Members(&[
            Named(b"id", STRING),
            Named(b"name", STRING),
            Named(b"modifier", SHORT),
            Named(b"base", TYPE_CODE),
            Named(b"members", VALUE_MEMBERS),
        ]),
        VALUE_DATA => Literal::Encapsulation(VALUE),
        VALUE_BOX => Literal::Members(&[
            Named(b"id", STRING),
            Named(b"name", STRING),
            Named(b"boxed", TYPE_CODE),
        ]),
        VALUE_BOX_DATA => Literal::Encapsulation(VALUE_BOX),
        _ => unreachable!(),
    }
}

/// Wide text, and sequences of it.
#[tactic(auto, unfolding(crate::specs::AnyTypes::any_types))]
fn wide_text_literal(number: u32) -> Literal
    requires low { WIDE_CHAR ≤ number }
    requires high { number < THIRD_LEN }
    ensures { literal_node result ≡ node_in any_types (number - BUILTIN_LEN) }
{
    match number {
        WIDE_CHAR => Literal::WideChar,
        WIDE_CHARS => Literal::Sequence(WIDE_CHAR),
        WIDE_STRING => Literal::WideText,
        WIDE_STRINGS => Literal::Sequence(WIDE_STRING),
        _ => unreachable!(),
    }
}
