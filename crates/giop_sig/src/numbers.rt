//! The numbers of the built-in types in version 3 of signature files. A type has a greater number
//! than its parts.

/// An octet.
pub(crate) const OCTET: u32 = 0;
/// A char.
pub(crate) const CHAR: u32 = 1;
/// A boolean.
pub(crate) const BOOLEAN: u32 = 2;
/// A short. It is also the addressing mode that a reply asks for.
pub(crate) const SHORT: u32 = 3;
/// An unsigned short.
pub(crate) const USHORT: u32 = 4;
/// A long.
pub(crate) const LONG: u32 = 5;
/// An unsigned long.
pub(crate) const ULONG: u32 = 6;
/// A long long.
pub(crate) const LONGLONG: u32 = 7;
/// An unsigned long long.
pub(crate) const ULONGLONG: u32 = 8;
/// A float.
pub(crate) const FLOAT: u32 = 9;
/// A double.
pub(crate) const DOUBLE: u32 = 10;
/// A string without a bound. It is also the repository id of an exception.
pub(crate) const STRING: u32 = 11;
/// A sequence of octets without a bound.
pub(crate) const OCTETS: u32 = 12;

/// The id of a service context, which may have a name. In versions 1 and 2 this and the next three
/// are ULONG.
pub(crate) const CONTEXT_ID: u32 = 13;
/// The tag of a profile.
pub(crate) const PROFILE_TAG: u32 = 14;
/// A code set.
pub(crate) const CODE_SET: u32 = 15;
/// The minor code of a system exception.
pub(crate) const MINOR: u32 = 16;

/// The code sets of a connection.
pub(crate) const CODE_SETS: u32 = 17;
/// The encapsulation of the code sets.
pub(crate) const CODE_SETS_DATA: u32 = 18;
/// A service context.
pub(crate) const SERVICE_CONTEXT: u32 = 19;
/// The sequence of service contexts.
pub(crate) const SERVICE_CONTEXTS: u32 = 20;
/// The body of an internet profile.
pub(crate) const IIOP: u32 = 21;
/// The encapsulation of the body of an internet profile.
pub(crate) const IIOP_DATA: u32 = 22;
/// A tagged profile.
pub(crate) const TAGGED_PROFILE: u32 = 23;
/// The sequence of tagged profiles.
pub(crate) const TAGGED_PROFILES: u32 = 24;
/// An object reference.
pub(crate) const IOR: u32 = 25;
/// An object reference and the index of the profile that was chosen.
pub(crate) const IOR_ADDRESS: u32 = 26;
/// The target of a request.
pub(crate) const TARGET: u32 = 27;
/// Whether a request was completed.
pub(crate) const COMPLETED: u32 = 28;
/// A system exception.
pub(crate) const SYSTEM_EXCEPTION: u32 = 29;
/// The reserved octets of a request.
pub(crate) const RESERVED: u32 = 30;
/// The status of a reply in 1.0 and 1.1.
pub(crate) const REPLY_STATUS: u32 = 31;
/// The status of a reply in 1.2.
pub(crate) const REPLY_STATUS_1_2: u32 = 32;
/// The status of a locate reply in 1.0 and 1.1.
pub(crate) const LOCATE_STATUS: u32 = 33;
/// The status of a locate reply in 1.2.
pub(crate) const LOCATE_STATUS_1_2: u32 = 34;

/// The header of a request in 1.0.
pub(crate) const REQUEST_1_0: u32 = 35;
/// The header of a request in 1.1.
pub(crate) const REQUEST_1_1: u32 = 36;
/// The header of a request in 1.2.
pub(crate) const REQUEST_1_2: u32 = 37;
/// The header of a reply in 1.0 and 1.1.
pub(crate) const REPLY: u32 = 38;
/// The header of a reply in 1.2.
pub(crate) const REPLY_1_2: u32 = 39;
/// The header that is a request id alone: of a cancel request, and of a fragment in 1.2.
pub(crate) const ID_ALONE: u32 = 40;
/// The header of a locate request in 1.0 and 1.1.
pub(crate) const LOCATE_REQUEST: u32 = 41;
/// The header of a locate request in 1.2.
pub(crate) const LOCATE_REQUEST_1_2: u32 = 42;
/// The header of a locate reply in 1.0 and 1.1.
pub(crate) const LOCATE_REPLY: u32 = 43;
/// The header of a locate reply in 1.2.
pub(crate) const LOCATE_REPLY_1_2: u32 = 44;

/// How many built-in types there are in version 3, apart from those of any, TypeCode and wide text.
pub(crate) const BUILTIN_LEN: u32 = 45;

// The types that a file of version 3 adds.

/// The kind of a TypeCode that tells the type of a value.
pub(crate) const HEARD_KIND: u32 = 45;
/// The kind of any other TypeCode.
pub(crate) const KIND: u32 = 46;
/// The bound of a sequence in a TypeCode that tells the type of a value.
pub(crate) const HEARD_BOUND: u32 = 47;
/// The sequence of object references.
pub(crate) const REFERENCES: u32 = 48;
/// The number of the sequence of a type from CHAR to STRING is that of the type plus this: 49 to
/// 59.
pub(crate) const SEQUENCES: u32 = 48;
/// The parameters of the kind fixed.
pub(crate) const FIXED_PARAMETERS: u32 = 60;
/// The TypeCode that tells the type of a value.
pub(crate) const HEARD_TYPE_CODE: u32 = 61;
/// Any other TypeCode.
pub(crate) const TYPE_CODE: u32 = 62;
/// The sequence of TypeCodes.
pub(crate) const TYPE_CODES: u32 = 63;
/// An any.
pub(crate) const ANY: u32 = 64;
/// The sequence of anys.
pub(crate) const ANYS: u32 = 65;

/// The parameters that are an id and a name.
pub(crate) const NAMED: u32 = 66;
/// The encapsulation of NAMED.
pub(crate) const NAMED_DATA: u32 = 67;
/// The name and the type of a member.
pub(crate) const TYPE_MEMBER: u32 = 68;
/// The sequence of TYPE_MEMBER.
pub(crate) const TYPE_MEMBERS: u32 = 69;
/// The parameters of a struct or an exception.
pub(crate) const STRUCT: u32 = 70;
/// The encapsulation of STRUCT.
pub(crate) const STRUCT_DATA: u32 = 71;
/// The parameters of a union, apart from its members.
pub(crate) const UNION: u32 = 72;
/// The encapsulation of UNION.
pub(crate) const UNION_DATA: u32 = 73;
/// The parameters of an enum.
pub(crate) const ENUM: u32 = 74;
/// The encapsulation of ENUM.
pub(crate) const ENUM_DATA: u32 = 75;
/// The parameters of a sequence in a TypeCode that tells the type of a value.
pub(crate) const HEARD_SEQUENCE: u32 = 76;
/// The encapsulation of HEARD_SEQUENCE.
pub(crate) const HEARD_SEQUENCE_DATA: u32 = 77;
/// The parameters of any other sequence.
pub(crate) const SEQUENCE: u32 = 78;
/// The encapsulation of SEQUENCE.
pub(crate) const SEQUENCE_DATA: u32 = 79;
/// The parameters of an array.
pub(crate) const ARRAY: u32 = 80;
/// The encapsulation of ARRAY.
pub(crate) const ARRAY_DATA: u32 = 81;
/// The parameters of an alias in a TypeCode that tells the type of a value.
pub(crate) const HEARD_ALIAS: u32 = 82;
/// The encapsulation of HEARD_ALIAS.
pub(crate) const HEARD_ALIAS_DATA: u32 = 83;
/// The parameters of any other alias.
pub(crate) const ALIAS: u32 = 84;
/// The encapsulation of ALIAS.
pub(crate) const ALIAS_DATA: u32 = 85;
/// The name, the type and the visibility of a value's member.
pub(crate) const VALUE_MEMBER: u32 = 86;
/// The sequence of VALUE_MEMBER.
pub(crate) const VALUE_MEMBERS: u32 = 87;
/// The parameters of a value or an event.
pub(crate) const VALUE: u32 = 88;
/// The encapsulation of VALUE.
pub(crate) const VALUE_DATA: u32 = 89;
/// The parameters of a value box.
pub(crate) const VALUE_BOX: u32 = 90;
/// The encapsulation of VALUE_BOX.
pub(crate) const VALUE_BOX_DATA: u32 = 91;

/// A wide character.
pub(crate) const WIDE_CHAR: u32 = 92;
/// The sequence of wide characters.
pub(crate) const WIDE_CHARS: u32 = 93;
/// A wide string.
pub(crate) const WIDE_STRING: u32 = 94;
/// The sequence of wide strings.
pub(crate) const WIDE_STRINGS: u32 = 95;

/// How many types a file of version 3 begins with.
pub(crate) const THIRD_LEN: u32 = 96;

/// The mark of a kind that tells the type of a value.
pub(crate) const HEARD_KIND_MARK: u32 = 0;
/// The mark of the bound of a sequence that tells the type of a value.
pub(crate) const HEARD_BOUND_MARK: u32 = 1;
/// The mark of any other kind.
pub(crate) const KIND_MARK: u32 = 2;
/// The mark of a service context's id.
pub(crate) const CONTEXT_ID_MARK: u32 = 3;
/// The mark of a profile's tag.
pub(crate) const PROFILE_TAG_MARK: u32 = 4;
/// The mark of a code set.
pub(crate) const CODE_SET_MARK: u32 = 5;
/// The mark of a minor code.
pub(crate) const MINOR_MARK: u32 = 6;
