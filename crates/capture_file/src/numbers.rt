//! The numbers in octets at an offset, in either byte order.

ghost use Rattle.std.specs.Prelude.{◌≡◌, ◌+◌, ◌≤◌, length, take, drop};
ghost use Rattle.capture_file.specs.Numbers.{two_at, four_at};

use crate::part::ByteOrder;

impl ByteOrder {
    /// The number in the two octets at this offset.
    #[tactic(auto, unfolding(crate::specs::Numbers::two_at))]
    pub fn two_at(self, octets: &[u8], at: usize) -> u16
        requires { at + 2 ≤ length octets.now }
        ensures { result ≡ two_at self at octets.now }
    {
        match self {
            ByteOrder::Big => u16::from_be_bytes(octets_at(octets, at)),
            ByteOrder::Little => u16::from_le_bytes(octets_at(octets, at)),
        }
    }

    /// The number in the four octets at this offset.
    #[tactic(auto, unfolding(crate::specs::Numbers::four_at))]
    pub fn four_at(self, octets: &[u8], at: usize) -> u32
        requires { at + 4 ≤ length octets.now }
        ensures { result ≡ four_at self at octets.now }
    {
        match self {
            ByteOrder::Big => u32::from_be_bytes(octets_at(octets, at)),
            ByteOrder::Little => u32::from_le_bytes(octets_at(octets, at)),
        }
    }
}

/// The octets at this offset.
fn octets_at<const N: usize>(octets: &[u8], at: usize) -> [u8; N]
    requires { at + N ≤ length octets.now }
    ensures { result ≡ take N (drop at octets.now) }
{
    let mut inner = [0; N];
    inner.copy_from_slice(&octets[at..at + N]);
    inner
}
