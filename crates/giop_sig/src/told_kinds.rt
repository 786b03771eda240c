//! What the kind of a TypeCode, and the type in it, tell about the value.

ghost use Rattle.std.specs.Prelude.{◌≡◌, IfSome, IfNone};
ghost use Rattle.giop_sig.specs.Types.{InferredType};
ghost use Rattle.giop_sig.specs.Table.{Table};
ghost use Rattle.giop_sig.specs.Heard.{next_sequence, inferred_sequence, inferred_by_kind};
ghost use Rattle.giop_sig.specs.Hearings.{signal_of};

use crate::numbers::{
    ANY, BOOLEAN, CHAR, DOUBLE, FLOAT, IOR, LONG, LONGLONG, OCTET, OCTETS, REFERENCES, SEQUENCES,
    SHORT, STRING, TYPE_CODE, ULONG, ULONGLONG, USHORT, WIDE_CHAR, WIDE_STRING,
};
use crate::types::{Signal, TypeId};

/// How many kinds, from 0 on, tell something.
const KINDS: u32 = 28;

/// What each kind tells, from 0 on. After kinds 15, 16 and 17 a repository id comes, whose front is
/// the first, second or third of all fronts.
static TOLD: [Signal; KINDS as usize] = [
    Signal::Empty,
    Signal::Empty,
    Signal::Is(SHORT),
    Signal::Is(LONG),
    Signal::Is(USHORT),
    Signal::Is(ULONG),
    Signal::Is(FLOAT),
    Signal::Is(DOUBLE),
    Signal::Is(BOOLEAN),
    Signal::Is(CHAR),
    Signal::Is(OCTET),
    Signal::Is(ANY),
    Signal::Is(TYPE_CODE),
    Signal::Is(OCTETS),
    Signal::Is(IOR),
    Signal::Awaits(0),
    Signal::Awaits(1),
    Signal::Awaits(2),
    Signal::Is(STRING),
    Signal::Unknown,
    Signal::Unknown,
    Signal::Unknown,
    Signal::Unknown,
    Signal::Is(LONGLONG),
    Signal::Is(ULONGLONG),
    Signal::Unknown,
    Signal::Is(WIDE_CHAR),
    Signal::Is(WIDE_STRING),
];

/// What a kind tells about the value.
pub(crate) fn signal_by_kind(kind: u32) -> Signal
    ensures { result ≡ signal_of (inferred_by_kind kind) }
{
    if kind < KINDS {
        TOLD[kind as usize]
    } else {
        Signal::Unknown
    }
}

/// The sequence of a type, if the two are among the first types and the sequence isn't the next
/// type. None for any other type.
pub(crate) fn built_in_sequence(t: TypeId) -> Option<TypeId>
    ensures some { IfSome result
        (λ s. (C : Table) → inferred_sequence C t.0 ≡ InferredType.Is s.0) }
    ensures none { IfNone result ((C : Table) → inferred_sequence C t.0 ≡ next_sequence C t.0) }
{
    if t.0 == OCTET {
        Some(TypeId(OCTETS))
    } else if t.0 <= STRING {
        Some(TypeId(SEQUENCES + t.0))
    } else if t.0 == IOR {
        Some(TypeId(REFERENCES))
    } else {
        None
    }
}
