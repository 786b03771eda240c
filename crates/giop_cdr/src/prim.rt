//! The primitive types and their sizes.

ghost use Rattle.std.specs.Prelude.{◌≡◌};
ghost use Rattle.giop_cdr.specs.Primitives.{size_of};

/// The type of a single number (CDR Transfer Syntax, Primitive Types).
#[derive(Clone, Copy, Debug, PartialEq, Eq, Hash)]
pub enum Primitive {
    /// An octet that is never converted.
    Octet,
    /// A character of one octet.
    Char,
    /// A boolean: 1 or 0 in one octet.
    Boolean,
    /// A signed number of 16 bits.
    Short,
    /// An unsigned number of 16 bits.
    UShort,
    /// A signed number of 32 bits.
    Long,
    /// An unsigned number of 32 bits.
    ULong,
    /// A signed number of 64 bits.
    LongLong,
    /// An unsigned number of 64 bits.
    ULongLong,
    /// A floating-point number of single precision.
    Float,
    /// A floating-point number of double precision.
    Double,
}

/// The name that the functions use for it.
pub type Prim = Primitive;

/// How many octets a primitive has. It is aligned to this number too.
pub fn size(prim: Prim) -> u8
    ensures { result ≡ size_of prim }
{
    match prim {
        Prim::Octet | Prim::Char | Prim::Boolean => 1,
        Prim::Short | Prim::UShort => 2,
        Prim::Long | Prim::ULong | Prim::Float => 4,
        Prim::LongLong | Prim::ULongLong | Prim::Double => 8,
    }
}
