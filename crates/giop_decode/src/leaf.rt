//! The innermost part that has begun and not ended, and the transition and output of one octet of
//! it.

ghost use Rattle.std.specs.Prelude.{◌≡◌};
ghost use Rattle.giop_decode.specs.Transitions.{leaf_type};

use crate::progress::ValueFault;
use giop_cdr::{Number, Order};
use giop_sig::TypeId;

/// The innermost part: the number that begins it, or its content, whose unfinished piece begins at
/// an offset.
#[derive(Clone, Copy, Debug, PartialEq, Eq)]
pub(crate) enum Leaf {
    /// The number that begins a value of this type.
    Number(TypeId),
    /// The octet with the byte order of an encapsulation.
    Opening {
        /// The type of the encapsulation.
        of: TypeId,
        /// How many octets the encapsulation has, with this one.
        count: u32,
    },
    /// The content of a string without its zero, or of an octet sequence, or the rest of an
    /// encapsulation.
    Content {
        /// The type that has the content.
        of: TypeId,
        /// How many octets the content has.
        total: u32,
        /// Where in the content the unfinished piece begins.
        offset: u32,
    },
}

impl Leaf {
    /// The type of the innermost part.
    pub(crate) fn of(self) -> TypeId
        ensures { result.0 ≡ leaf_type self }
    {
        match self {
            Leaf::Number(of) => of,
            Leaf::Opening { of, .. } => of,
            Leaf::Content { of, .. } => of,
        }
    }
}

/// What comes after an octet of the innermost part.
#[derive(Clone, Copy, Debug, PartialEq, Eq)]
pub(crate) enum Transition {
    /// It goes on.
    More(Leaf),
    /// It has ended.
    Ended,
    /// This many elements come, at least one.
    Opened(u32),
    /// This many elements of a recursive sequence come, at least one, if they have room. If not,
    /// octets of no known type come.
    Recursed(u32),
    /// Octets of no known type come.
    Stopped,
    /// The case with this number comes.
    Selected(u32),
    /// The value in an encapsulation comes. The encapsulation has this byte order and this many
    /// octets.
    Entered(Order, u32),
    /// The octet breaks a rule.
    Refused(ValueFault),
}

/// What an octet puts out: nothing, or something that has a line.
#[derive(Clone, Copy, Debug, PartialEq, Eq)]
pub(crate) enum Output {
    /// Nothing.
    Nothing,
    /// Nothing, but the last name is cleared: the length of a string has come, or it was too great.
    Length,
    /// The value of a type of one number.
    Number(Number),
    /// The value of a union's discriminator.
    Switch(Number),
    /// How many elements a sequence has.
    Count(u32),
    /// How many octets an encapsulation has.
    Size(u32),
    /// The byte order of an encapsulation.
    Ordered(Order),
    /// A piece of a content. It has the octets that are held until its line is written, and the
    /// octets ahead that end it.
    Piece {
        /// Where it begins in the content.
        offset: u32,
        /// Whether more pieces come.
        more: bool,
    },
}

/// What an octet does: its transition and its output.
#[derive(Clone, Copy, Debug)]
pub(crate) struct Step {
    pub(crate) transition: Transition,
    pub(crate) output: Output,
}

/// What an octet of an innermost part finishes. Its line is written, and it is noted.
#[derive(Clone, Copy, Debug)]
pub(crate) struct Finished<'a> {
    /// The type of the part.
    pub(crate) of: TypeId,
    pub(crate) output: Output,
    /// The octets of a piece that are held, and then those that come after them.
    pub(crate) held: &'a [u8],
    pub(crate) rest: &'a [u8],
}

/// The step of an octet that breaks a rule.
#[inline(always)]
pub(crate) fn refused_step(kind: ValueFault) -> Step
    ensures transition { result.transition ≡ Transition.Refused kind }
    ensures output { result.output ≡ Output.Nothing }
{
    Step {
        transition: Transition::Refused(kind),
        output: Output::Nothing,
    }
}

/// The step of an octet that ends its part.
#[inline(always)]
pub(crate) fn ended_step(output: Output) -> Step
    ensures { result ≡ record { transition = Transition.Ended; output = output } }
{
    Step {
        transition: Transition::Ended,
        output,
    }
}
