//! Readers of fields at offsets. Each reads what its writer wrote there. If no writer wrote the octets, some value is read.
//! A caller that can't trust the octets writes again what was read, and compares.

ghost use Rattle.std.specs.Prelude.{◌≡◌, ℕ, ◌+◌, ◌^◌, ◌<◌, ◌≤◌, List, ◌∷◌, ◌++◌, length, drop, Option, IfSome};
ghost use Rattle.giop_octets.specs.Fields.{four, eight, optional, held};

use arrayvec::ArrayVec;

/// The octet at this offset.
pub fn octet_at(octets: &[u8], offset: usize) -> u8
    requires room { offset < length octets.now }
    ensures { (n : ℕ) (rest : List ℕ) → drop offset octets.now ≡ n ∷ rest → result ≡ n }
{
    octets[offset]
}

/// The octets at this offset.
pub fn octets_at<const N: usize>(octets: &[u8], offset: usize) -> [u8; N]
    requires room { offset + N ≤ length octets.now }
    ensures { (inner rest : List ℕ) → length inner ≡ N → drop offset octets.now ≡ inner ++ rest →
        result ≡ inner }
{
    let mut inner = [0; N];
    inner.copy_from_slice(&octets[offset..offset + N]);
    inner
}

/// The number in four octets at this offset.
#[tactic(auto, using(crate::proofs::FieldLaws::four_long, crate::proofs::FieldLaws::four_again))]
pub fn four_at(octets: &[u8], offset: usize) -> u32
    requires room { offset + 4 ≤ length octets.now }
    ensures { (n : ℕ) (rest : List ℕ) → n < 2 ^ 32 → drop offset octets.now ≡ four n ++ rest →
        result ≡ n }
{
    u32::from_be_bytes(octets_at(octets, offset))
}

/// The number in eight octets at this offset.
#[tactic(auto, using(crate::proofs::FieldLaws::eight_long, crate::proofs::FieldLaws::eight_again))]
pub fn eight_at(octets: &[u8], offset: usize) -> u64
    requires room { offset + 8 ≤ length octets.now }
    ensures { (n : ℕ) (rest : List ℕ) → n < 2 ^ 64 → drop offset octets.now ≡ eight n ++ rest →
        result ≡ n }
{
    u64::from_be_bytes(octets_at(octets, offset))
}

/// The number, which may be missing, in five octets at this offset.
pub fn optional_at(octets: &[u8], offset: usize) -> Option<u32>
    requires room { offset + 5 ≤ length octets.now }
    ensures { (n : Option ℕ) (rest : List ℕ) → IfSome n (λ m. m < 2 ^ 32) →
        drop offset octets.now ≡ optional n ++ rest → result ≡ n }
{
    if octets[offset] == 0 {
        return None;
    }
    Some(four_at(octets, offset + 1))
}

/// The few octets at this offset, of at most N. If the octet that counts them has a greater number, they are N.
pub fn held_at<const N: usize>(octets: &[u8], offset: usize) -> ArrayVec<u8, N>
    requires room { offset + 1 + N ≤ length octets.now }
    ensures { (inner rest : List ℕ) → length inner ≤ N → drop offset octets.now ≡ held N inner
        ++ rest →
        result.items ≡ inner }
{
    let len = usize::from(octets[offset]).min(N);
    let mut inner = ArrayVec::new();
    for octet in &octets[offset + 1..offset + 1 + len] {
        inner.push(*octet);
    }
    inner
}
