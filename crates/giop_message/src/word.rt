//! The words of faults, and the operations that a call line shows (docs/FORMATS.md).

ghost use Rattle.std.specs.Prelude.{◌≡◌};
ghost use Rattle.giop_message.specs.Text.{fault_word};
ghost use Rattle.giop_message.specs.Messages.{is_graphic_name};

use giop_decode::ValueFault;

/// The word of a value's fault.
pub fn fault_word(kind: ValueFault) -> &'static str
    ensures { result.now ≡ fault_word kind }
{
    match kind {
        ValueFault::Boolean => "boolean",
        ValueFault::StringEnd => "string-end",
        ValueFault::Enum => "enum",
        ValueFault::Bound => "bound",
        ValueFault::Disposition => "disposition",
        ValueFault::EncapShort => "encap-short",
        ValueFault::EncapOrder => "encap-order",
        ValueFault::Untyped => "untyped",
    }
}

/// Whether a call line can show an operation.
#[tactic(auto, unfolding(crate::specs::Messages::is_graphic_name))]
pub fn is_graphic_name(name: &[u8]) -> bool
    ensures { result ≡ is_graphic_name name.now }
{
    !name.is_empty() && name.iter().all(|octet| *octet >= 33 && *octet <= 126)
}
