//! Fields of a header: octets at an offset, and the numbers in them.

ghost use Rattle.std.specs.Prelude.{◌≡◌, ◌+◌, ◌≤◌, length};
ghost use Rattle.tcp_segment.specs.Octets.{octets_at, two_at, four_at};

/// The octets at this offset.
pub fn octets_at<const N: usize>(octets: &[u8], at: usize) -> [u8; N]
    requires { at + N ≤ length octets.now }
    ensures { result ≡ octets_at at N octets.now }
{
    let mut field = [0; N];
    field.copy_from_slice(&octets[at..at + N]);
    field
}

/// The number in two octets at this offset, the most significant octet first.
#[tactic(auto, unfolding(crate::specs::Octets::two_at))]
pub fn two_at(octets: &[u8], at: usize) -> u16
    requires { at + 2 ≤ length octets.now }
    ensures { result ≡ two_at at octets.now }
{
    u16::from_be_bytes(octets_at(octets, at))
}

/// The number in four octets at this offset, the most significant octet first.
#[tactic(auto, unfolding(crate::specs::Octets::four_at))]
pub fn four_at(octets: &[u8], at: usize) -> u32
    requires { at + 4 ≤ length octets.now }
    ensures { result ≡ four_at at octets.now }
{
    u32::from_be_bytes(octets_at(octets, at))
}
