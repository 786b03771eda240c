//! The padding before an aligned value.

ghost use Rattle.std.specs.Prelude.{◌≡◌};
ghost use Rattle.giop_cdr.specs.Alignment.{IsAlignment, IsPadding, padding};

/// How many octets of padding come before a value of this size. The offset counts from the first octet of the message; each
/// offset of 64 bits gives the exact result.
#[tactic(auto, using(crate::proofs::PaddingLaws::padding_counts))]
pub fn pad(offset: u64, size: u8) -> u8
    requires { IsAlignment size }
    ensures least { IsPadding offset size result }
    ensures value { result ≡ padding offset size }
{
    let over = (offset % u64::from(size)) as u8;
    if over == 0 { 0 } else { size - over }
}
