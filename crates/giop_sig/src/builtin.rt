//! The types that each catalogue begins with, written with the numbers of version 3.
ghost use Rattle.std.specs.Prelude.{◌≡◌, ◌<◌, ◌≤◌, ◌++◌, length, map, IfOk, IfErr};
ghost use Rattle.std.specs.Option.{option_map};
ghost use Rattle.giop_sig.specs.Table.{node_in};
ghost use Rattle.giop_sig.specs.Builtin.{builtin_types, number_in_version, older_number, renumbered, renumbered_part, renumbered_case};
ghost use Rattle.giop_sig.specs.HeaderTypes.{header_type_number, fixed_type_number};
ghost use Rattle.giop_sig.specs.Views.{node_view};
ghost use Rattle.giop_sig.specs.UnionCases.{part_view, case_view};
ghost use Rattle.giop_sig.specs.AnyTypes.{first_types, version_3_types};
ghost use Rattle.giop_sig.specs.Literals.{literal_node, literal_part, literal_parameters, literal_case};

use crate::any_types::any_types_literal;
use crate::cases::UnionCases;
use crate::draft::THIRD_VERSION;
use crate::entries::{CaseEntry, Entry, PartEntry, TagEntry, TypeCodeEntry, Types};
use crate::numbers::{
    BOOLEAN, BUILTIN_LEN, CHAR, CODE_SET, CODE_SET_MARK, CODE_SETS, CODE_SETS_DATA, COMPLETED,
    CONTEXT_ID, CONTEXT_ID_MARK, DOUBLE, FLOAT, ID_ALONE, IIOP, IIOP_DATA, IOR, IOR_ADDRESS,
    LOCATE_REPLY, LOCATE_REPLY_1_2, LOCATE_REQUEST, LOCATE_REQUEST_1_2, LOCATE_STATUS,
    LOCATE_STATUS_1_2, LONG, LONGLONG, MINOR, MINOR_MARK, NAMED, OCTET, OCTETS, PROFILE_TAG,
    PROFILE_TAG_MARK, REPLY, REPLY_1_2, REPLY_STATUS, REPLY_STATUS_1_2, REQUEST_1_0, REQUEST_1_1,
    REQUEST_1_2, RESERVED, SERVICE_CONTEXT, SERVICE_CONTEXTS, SHORT, STRING, SYSTEM_EXCEPTION,
    TAGGED_PROFILE, TAGGED_PROFILES, TARGET, THIRD_LEN, ULONG, ULONGLONG, USHORT,
};
use crate::part_name::PartName;
use crate::types::{Fixed, Selected, TypeId};
use giop_cdr::{Number, Prim};
use std::alloc::{AllocError, Global};

/// How many numbers have names and are types of their own in version 3.
const NAMED_NUMBERS: u32 = CODE_SETS - CONTEXT_ID;

/// A type of the built-in table, as a literal.
#[derive(Clone, Copy)]
pub(crate) enum Literal {
    Prim(Prim),
    Text,
    Octets,
    WideText,
    WideChar,
    Names(&'static [&'static [u8]]),
    Members(&'static [Named]),
    /// The type of the discriminator, and all cases.
    Target(u32, &'static [Labelled]),
    Sequence(u32),
    Array(u32, u32),
    Encapsulation(u32),
    /// The tag before an encapsulation; and the parts: the tag, the encapsulation, and the octets
    /// after any other tag.
    Tagged(u32, Named, Named, Named),
    Marked(u32),
    /// The TypeCode that tells the type of the value.
    Any(u32),
    /// The type of the kind, and what comes after each kind.
    TypeCode(u32, &'static [Parameters]),
}

/// What comes after some kinds of a TypeCode: the kinds, its name, and the number of its type.
#[derive(Clone, Copy)]
pub(crate) struct Parameters(
    pub(crate) &'static [u32],
    pub(crate) &'static [u8],
    pub(crate) u32,
);

/// A member, with the number of its type.
#[derive(Clone, Copy)]
pub(crate) struct Named(pub(crate) &'static [u8], pub(crate) u32);

/// A case with one label, and the number of its type.
#[derive(Clone, Copy)]
pub(crate) struct Labelled(pub(crate) i64, pub(crate) &'static [u8], pub(crate) u32);

/// The numbers of the header types for each message type, in 1.0, 1.1 and 1.2 (GIOP Message
/// Formats).
static HEADER_TYPES: [[Option<u32>; 3]; 8] = [
    // Request, Reply, CancelRequest, LocateRequest, LocateReply
    [Some(REQUEST_1_0), Some(REQUEST_1_1), Some(REQUEST_1_2)],
    [Some(REPLY), Some(REPLY), Some(REPLY_1_2)],
    [Some(ID_ALONE), Some(ID_ALONE), Some(ID_ALONE)],
    [
        Some(LOCATE_REQUEST),
        Some(LOCATE_REQUEST),
        Some(LOCATE_REQUEST_1_2),
    ],
    [
        Some(LOCATE_REPLY),
        Some(LOCATE_REPLY),
        Some(LOCATE_REPLY_1_2),
    ],
    // CloseConnection, MessageError
    [None, None, None],
    [None, None, None],
    // Fragment
    [None, None, Some(ID_ALONE)],
];

/// The number of a type in a version of signature files, from its number in version 3. Each version
/// other than 3 is like version 1.
pub(crate) fn number_in_version(file_version: u8, version_3_type: u32) -> u32
    ensures { result ≡ number_in_version file_version version_3_type }
{
    if file_version == THIRD_VERSION || version_3_type < CONTEXT_ID {
        version_3_type
    } else if version_3_type < CODE_SETS {
        ULONG
    } else {
        version_3_type - NAMED_NUMBERS
    }
}

/// The header type for a minor version of GIOP and a message type, in a version of signature files.
pub(crate) fn header_type_id(file_version: u8, giop_minor: u8, message_type: u8) -> Option<TypeId>
    ensures { option_map (λ t. t.0) result
        ≡ header_type_number file_version giop_minor message_type }
{
    let row = HEADER_TYPES.get(message_type as usize)?;
    match row.get(giop_minor as usize) {
        Some(Some(number)) => Some(TypeId(number_in_version(file_version, *number))),
        Some(None) => None,
        None => None,
    }
}

/// The type of a body that isn't declared, in a version of signature files.
pub(crate) fn fixed_type_id(file_version: u8, fixed: Fixed) -> TypeId
    ensures { result.0 ≡ fixed_type_number file_version fixed }
{
    let number = match fixed {
        Fixed::ExceptionId => STRING,
        Fixed::SystemException => SYSTEM_EXCEPTION,
        Fixed::Forward => IOR,
        Fixed::Addressing => SHORT,
    };
    TypeId(number_in_version(file_version, number))
}

/// The type of a number in a version. The numbers in it are those of version 3.
#[tactic(auto, using(crate::proofs::Builtins::in_third, crate::proofs::Builtins::in_older, crate::proofs::Builtins::known_older))]
fn literal_in_version(version: u8, number: u32) -> Literal
    requires { number < length (first_types version) }
    ensures { renumbered (number_in_version version) (literal_node result)
        ≡ node_in (first_types version) number }
{
    if version == THIRD_VERSION {
        version_3_literal(number)
    } else {
        version_3_literal(version_3_number(number))
    }
}

/// The number in version 3, from that in versions 1 and 2.
#[tactic(auto, using(crate::proofs::Builtins::leaf_older, crate::proofs::Builtins::later_older))]
fn version_3_number(number: u32) -> u32
    requires { number < length builtin_types }
    ensures known { result < THIRD_LEN }
    ensures is { renumbered older_number (node_in version_3_types result)
        ≡ node_in builtin_types number }
{
    if number < CONTEXT_ID {
        number
    } else {
        number + NAMED_NUMBERS
    }
}

/// The type of a number in version 3.
#[tactic(auto, using(crate::proofs::Builtins::third_node))]
fn version_3_literal(number: u32) -> Literal
    requires { number < THIRD_LEN }
    ensures { literal_node result ≡ node_in version_3_types number }
{
    if number < CODE_SETS {
        leaf_literal(number)
    } else if number < COMPLETED {
        reference_literal(number)
    } else if number < REQUEST_1_0 {
        status_literal(number)
    } else if number < BUILTIN_LEN {
        header_literal(number)
    } else {
        any_types_literal(number)
    }
}

/// The types without parts, apart from enums.
#[tactic(auto, unfolding(crate::specs::AnyTypes::version_3_types))]
fn leaf_literal(number: u32) -> Literal
    requires { number < CODE_SETS }
    ensures { literal_node result ≡ node_in version_3_types number }
{
    match number {
        OCTET => Literal::Prim(Prim::Octet),
        CHAR => Literal::Prim(Prim::Char),
        BOOLEAN => Literal::Prim(Prim::Boolean),
        SHORT => Literal::Prim(Prim::Short),
        USHORT => Literal::Prim(Prim::UShort),
        LONG => Literal::Prim(Prim::Long),
        ULONG => Literal::Prim(Prim::ULong),
        LONGLONG => Literal::Prim(Prim::LongLong),
        ULONGLONG => Literal::Prim(Prim::ULongLong),
        FLOAT => Literal::Prim(Prim::Float),
        DOUBLE => Literal::Prim(Prim::Double),
        STRING => Literal::Text,
        OCTETS => Literal::Octets,
        CONTEXT_ID => Literal::Marked(CONTEXT_ID_MARK),
        PROFILE_TAG => Literal::Marked(PROFILE_TAG_MARK),
        CODE_SET => Literal::Marked(CODE_SET_MARK),
        MINOR => Literal::Marked(MINOR_MARK),
        _ => unreachable!(),
    }
}

/// Contexts, profiles and references. Each member is a row of its name and the number of its type.
#[tactic(auto, unfolding(crate::specs::AnyTypes::version_3_types))]
fn reference_literal(number: u32) -> Literal
    requires low { CODE_SETS ≤ number }
    requires high { number < COMPLETED }
    ensures { literal_node result ≡ node_in version_3_types number }
{
    match number {
        CODE_SETS => Literal::Members(&[
            Named(b"char_data", CODE_SET),
            Named(b"wchar_data", CODE_SET),
        ]),
        CODE_SETS_DATA => Literal::Encapsulation(CODE_SETS),
        SERVICE_CONTEXT => Literal::Tagged(
            1,
            Named(b"context_id", CONTEXT_ID),
            Named(b"context_data", CODE_SETS_DATA),
            Named(b"context_data", OCTETS),
        ),
        SERVICE_CONTEXTS => Literal::Sequence(SERVICE_CONTEXT),
        IIOP => Literal::Members(&[
            Named(b"major", OCTET),
            Named(b"minor", OCTET),
            Named(b"host", STRING),
            Named(b"port", USHORT),
            Named(b"object_key", OCTETS),
        ]),
        IIOP_DATA => Literal::Encapsulation(IIOP),
        TAGGED_PROFILE => Literal::Tagged(
            0,
            Named(b"tag", PROFILE_TAG),
            Named(b"profile_data", IIOP_DATA),
            Named(b"profile_data", OCTETS),
        ),
        TAGGED_PROFILES => Literal::Sequence(TAGGED_PROFILE),
        IOR => Literal::Members(&[
            Named(b"type_id", STRING),
            Named(b"profiles", TAGGED_PROFILES),
        ]),
        IOR_ADDRESS => Literal::Members(&[
            Named(b"selected_profile_index", ULONG),
            Named(b"ior", IOR),
        ]),
        TARGET => Literal::Target(
            SHORT,
            &[
                Labelled(0, b"object_key", OCTETS),
                Labelled(1, b"profile", TAGGED_PROFILE),
                Labelled(2, b"ior", IOR_ADDRESS),
            ],
        ),
        _ => unreachable!(),
    }
}

/// How a request ended, and its reserved octets.
#[tactic(auto, unfolding(crate::specs::AnyTypes::version_3_types))]
fn status_literal(number: u32) -> Literal
    requires low { COMPLETED ≤ number }
    requires high { number < REQUEST_1_0 }
    ensures { literal_node result ≡ node_in version_3_types number }
{
    match number {
        COMPLETED => Literal::Names(&[b"COMPLETED_YES", b"COMPLETED_NO", b"COMPLETED_MAYBE"]),
        SYSTEM_EXCEPTION => Literal::Members(&[
            Named(b"exception_id", STRING),
            Named(b"minor", MINOR),
            Named(b"completed", COMPLETED),
        ]),
        RESERVED => Literal::Array(3, OCTET),
        REPLY_STATUS => Literal::Names(&[
            b"NO_EXCEPTION",
            b"USER_EXCEPTION",
            b"SYSTEM_EXCEPTION",
            b"LOCATION_FORWARD",
        ]),
        REPLY_STATUS_1_2 => Literal::Names(&[
            b"NO_EXCEPTION",
            b"USER_EXCEPTION",
            b"SYSTEM_EXCEPTION",
            b"LOCATION_FORWARD",
            b"LOCATION_FORWARD_PERM",
            b"NEEDS_ADDRESSING_MODE",
        ]),
        LOCATE_STATUS => Literal::Names(&[b"UNKNOWN_OBJECT", b"OBJECT_HERE", b"OBJECT_FORWARD"]),
        LOCATE_STATUS_1_2 => Literal::Names(&[
            b"UNKNOWN_OBJECT",
            b"OBJECT_HERE",
            b"OBJECT_FORWARD",
            b"OBJECT_FORWARD_PERM",
            b"LOC_SYSTEM_EXCEPTION",
            b"LOC_NEEDS_ADDRESSING_MODE",
        ]),
        _ => unreachable!(),
    }
}

/// The header types.
#[tactic(auto, unfolding(crate::specs::AnyTypes::version_3_types))]
fn header_literal(number: u32) -> Literal
    requires low { REQUEST_1_0 ≤ number }
    requires high { number < BUILTIN_LEN }
    ensures { literal_node result ≡ node_in version_3_types number }
{
    match number {
        REQUEST_1_0 => Literal::Members(&[
            Named(b"service_contexts", SERVICE_CONTEXTS),
            Named(b"request_id", ULONG),
            Named(b"response_expected", BOOLEAN),
            Named(b"object_key", OCTETS),
            Named(b"operation", STRING),
            Named(b"requesting_principal", OCTETS),
        ]),
        REQUEST_1_1 => Literal::Members(&[
            Named(b"service_contexts", SERVICE_CONTEXTS),
            Named(b"request_id", ULONG),
            Named(b"response_expected", BOOLEAN),
            Named(b"reserved", RESERVED),
            Named(b"object_key", OCTETS),
            Named(b"operation", STRING),
            Named(b"requesting_principal", OCTETS),
        ]),
        REQUEST_1_2 => Literal::Members(&[
            Named(b"request_id", ULONG),
            Named(b"response_flags", OCTET),
            Named(b"reserved", RESERVED),
            Named(b"target", TARGET),
            Named(b"operation", STRING),
            Named(b"service_contexts", SERVICE_CONTEXTS),
        ]),
        REPLY => Literal::Members(&[
            Named(b"service_contexts", SERVICE_CONTEXTS),
            Named(b"request_id", ULONG),
            Named(b"reply_status", REPLY_STATUS),
        ]),
        REPLY_1_2 => Literal::Members(&[
            Named(b"request_id", ULONG),
            Named(b"reply_status", REPLY_STATUS_1_2),
            Named(b"service_contexts", SERVICE_CONTEXTS),
        ]),
        ID_ALONE => Literal::Members(&[Named(b"request_id", ULONG)]),
        LOCATE_REQUEST => Literal::Members(&[
            Named(b"request_id", ULONG),
            Named(b"object_key", OCTETS),
        ]),
        LOCATE_REQUEST_1_2 => Literal::Members(&[
            Named(b"request_id", ULONG),
            Named(b"target", TARGET),
        ]),
        LOCATE_REPLY => Literal::Members(&[
            Named(b"request_id", ULONG),
            Named(b"locate_status", LOCATE_STATUS),
        ]),
        LOCATE_REPLY_1_2 => Literal::Members(&[
            Named(b"request_id", ULONG),
            Named(b"locate_status", LOCATE_STATUS_1_2),
        ]),
        _ => unreachable!(),
    }
}

/// The names of an enum.
pub(crate) fn copied_names(alloc: Global, names: &[&[u8]]) -> Result<Vec<Vec<u8>>, AllocError>
    ensures { IfOk result (λ v. map (λ n. n.items) v.items ≡ map (λ n. n.now) names.now) }
{
    let mut all = Vec::new(alloc);
    for name in names {
        all.push(Vec::from_slice(alloc, name)?)?;
    }
    Ok(all)
}

/// The members of a struct.
fn parts_in_version(
    alloc: Global,
    version: u8,
    parts: &[Named],
) -> Result<Vec<PartEntry>, AllocError>
    ensures { IfOk result (λ v. map part_view v.items
        ≡ map (renumbered_part (number_in_version version)) (map literal_part parts.now)) }
{
    let mut all = Vec::new(alloc);
    for part in parts {
        all.push(part_in_version(alloc, version, part.0, part.1)?)?;
    }
    Ok(all)
}

/// A case with one label.
fn case_in_version(alloc: Global, version: u8, case: &Labelled) -> Result<CaseEntry, AllocError>
    ensures { IfOk result (λ c. case_view c
        ≡ renumbered_case (number_in_version version) (literal_case case.now)) }
{
    let part = part_in_version(alloc, version, case.1, case.2)?;
    let labels = vec![in alloc; Number::Signed(case.0)]?;
    Ok(CaseEntry { labels, part })
}

/// The cases of a union.
fn cases_in_version(
    alloc: Global,
    version: u8,
    cases: &[Labelled],
) -> Result<Vec<CaseEntry>, AllocError>
    ensures { IfOk result (λ v. map case_view v.items
        ≡ map (renumbered_case (number_in_version version)) (map literal_case cases.now)) }
{
    let mut all = Vec::new(alloc);
    for case in cases {
        all.push(case_in_version(alloc, version, case)?)?;
    }
    Ok(all)
}

/// A member or a case. Its type is given by the number in version 3.
fn part_in_version(
    alloc: Global,
    file_version: u8,
    name: &[u8],
    version_3_type: u32,
) -> Result<PartEntry, AllocError>
    ensures { IfOk result (λ p. part_view p
        ≡ record { name = name.now; type = number_in_version file_version version_3_type }) }
{
    Ok(PartEntry {
        name: PartName::new(alloc, name)?,
        type_id: TypeId(number_in_version(file_version, version_3_type)),
    })
}

/// Kinds of a TypeCode as labels.
fn kind_labels(alloc: Global, kinds: &[u32]) -> Result<Vec<Number>, AllocError>
    ensures { IfOk result (λ v. v.items ≡ map Number.Unsigned kinds.now) }
{
    let mut labels = Vec::new(alloc);
    for kind in kinds {
        labels.push(Number::Unsigned(u64::from(*kind)))?;
    }
    Ok(labels)
}

/// A case of a TypeCode.
fn parameters_case(alloc: Global, parameters: &Parameters) -> Result<CaseEntry, AllocError>
    ensures { IfOk result (λ c. case_view c ≡ literal_parameters parameters.now) }
{
    let part = part_in_version(alloc, THIRD_VERSION, parameters.1, parameters.2)?;
    let labels = kind_labels(alloc, parameters.0)?;
    Ok(CaseEntry { labels, part })
}

/// The cases of a TypeCode.
fn parameters_cases(alloc: Global, all: &[Parameters]) -> Result<Vec<CaseEntry>, AllocError>
    ensures { IfOk result (λ v. map case_view v.items ≡ map literal_parameters all.now) }
{
    let mut cases = Vec::new(alloc);
    for parameters in all {
        cases.push(parameters_case(alloc, parameters)?)?;
    }
    Ok(cases)
}

/// The entry of a built-in type in a version.
fn literal_entry(alloc: Global, version: u8, literal: Literal) -> Result<Entry, AllocError>
    ensures { IfOk result (λ e. node_view e
        ≡ renumbered (number_in_version version) (literal_node literal)) }
{
    Ok(match literal {
        Literal::Prim(p) => Entry::Prim(p),
        Literal::Text => Entry::Text(None),
        Literal::Octets => Entry::Octets(None),
        Literal::WideText => Entry::WideText,
        Literal::WideChar => Entry::WideChar,
        Literal::Names(names) => Entry::Enumeration(copied_names(alloc, names)?),
        Literal::Members(parts) => Entry::Members(parts_in_version(alloc, version, parts)?),
        Literal::Target(switch, cases) => {
            let cases = UnionCases::new(alloc, cases_in_version(alloc, version, cases)?)?;
            Entry::Union(
                TypeId(number_in_version(version, switch)),
                cases,
                Selected::Refused,
            )
        }
        Literal::Sequence(element) => Entry::Sequence(
            None,
            TypeId(number_in_version(version, element)),
        ),
        Literal::Array(count, element) => {
            Entry::Array(count, TypeId(number_in_version(version, element)))
        }
        Literal::Encapsulation(held) => Entry::Encapsulation(TypeId(number_in_version(
            version, held,
        ))),
        Literal::Tagged(special, tag, inner, other) => Entry::Tagged(TagEntry {
            special,
            tag: part_in_version(alloc, version, tag.0, tag.1)?,
            inner: part_in_version(alloc, version, inner.0, inner.1)?,
            other: part_in_version(alloc, version, other.0, other.1)?,
        }),
        Literal::Marked(mark) => Entry::Marked(mark),
        Literal::Any(code) => Entry::Any(TypeId(code)),
        Literal::TypeCode(kind, parameters) => Entry::TypeCode(TypeCodeEntry {
            wide: TypeId(NAMED),
            kind: TypeId(kind),
            cases: UnionCases::new(alloc, parameters_cases(alloc, parameters)?)?,
        }),
    })
}

/// How many types a file of a version begins with.
#[tactic(auto, unfolding(crate::specs::AnyTypes::version_3_types, crate::specs::AnyTypes::any_types, crate::specs::Builtin::builtin_types))]
fn initial_type_count(version: u8) -> u32
    ensures { result ≡ length (first_types version) }
{
    if version == THIRD_VERSION {
        THIRD_LEN
    } else {
        BUILTIN_LEN - NAMED_NUMBERS
    }
}

/// The types that a file of a version begins with.
pub(crate) fn initial_types(alloc: Global, version: u8) -> Result<Types, AllocError>
    ensures { IfOk result (λ types. types ≡ first_types version) }
{
    let mut types = Types::new(alloc);
    for number in 0..initial_type_count(version) {
        let entry = literal_entry(alloc, version, literal_in_version(version, number))?;
        types.add(entry)?;
    }
    Ok(types)
}
