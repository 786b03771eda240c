//! Writers of fields. Each appends to what was written before.

ghost use Rattle.std.specs.Prelude.{◌≡◌, ◌+◌, ◌^◌, ◌<◌, ◌≤◌, ◌++◌, length, replicate, IfSome};
ghost use Rattle.arrayvec.specs.ArrayVec.{array_vec_len};
ghost use Rattle.giop_octets.specs.Fields.{four, eight, optional, held};

use arrayvec::ArrayVec;

/// Writes octets.
pub fn put_octets<const N: usize>(out: &mut ArrayVec<u8, N>, octets: &[u8])
    requires room { array_vec_len out.old + length octets.now ≤ N }
    ensures put { out.new.items ≡ out.old.items ++ octets.now }
    ensures len { array_vec_len out.new ≡ array_vec_len out.old + length octets.now }
{
    for octet in octets {
        out.push(*octet);
    }
}

/// Writes this number of zeros.
pub fn put_zeros<const N: usize>(out: &mut ArrayVec<u8, N>, count: usize)
    requires room { array_vec_len out.old + count ≤ N }
    ensures put { out.new.items ≡ out.old.items ++ replicate count 0 }
    ensures len { array_vec_len out.new ≡ array_vec_len out.old + count }
{
    for _ in 0..count {
        out.push(0);
    }
}

/// Writes a number in four octets.
#[tactic(auto, unfolding(crate::specs::Fields::four))]
pub fn put_four<const N: usize>(out: &mut ArrayVec<u8, N>, n: u32)
    requires room { array_vec_len out.old + 4 ≤ N }
    ensures put { out.new.items ≡ out.old.items ++ four n }
    ensures len { array_vec_len out.new ≡ array_vec_len out.old + 4 }
    ensures range { n < 2 ^ 32 }
{
    put_octets(out, &u32::to_be_bytes(n));
}

/// Writes a number in eight octets.
#[tactic(auto, unfolding(crate::specs::Fields::eight))]
pub fn put_eight<const N: usize>(out: &mut ArrayVec<u8, N>, n: u64)
    requires room { array_vec_len out.old + 8 ≤ N }
    ensures put { out.new.items ≡ out.old.items ++ eight n }
    ensures len { array_vec_len out.new ≡ array_vec_len out.old + 8 }
    ensures range { n < 2 ^ 64 }
{
    put_octets(out, &u64::to_be_bytes(n));
}

/// Writes a number that may be missing, in five octets.
pub fn put_optional<const N: usize>(out: &mut ArrayVec<u8, N>, n: Option<u32>)
    requires room { array_vec_len out.old + 5 ≤ N }
    ensures put { out.new.items ≡ out.old.items ++ optional n }
    ensures len { array_vec_len out.new ≡ array_vec_len out.old + 5 }
    ensures range { IfSome n (λ m. m < 2 ^ 32) }
{
    match n {
        None => {
            out.push(0);
            put_four(out, 0);
        }
        Some(n) => {
            out.push(1);
            put_four(out, n);
        }
    }
}

/// Writes a few octets: first their number, then the octets, then zeros up to the room for them.
pub fn put_held<const N: usize>(out: &mut ArrayVec<u8, N>, octets: &[u8], room: usize)
    requires room { array_vec_len out.old + 1 + room ≤ N }
    requires few { length octets.now ≤ room }
    requires small { room ≤ 255 }
    ensures put { out.new.items ≡ out.old.items ++ held room octets.now }
    ensures len { array_vec_len out.new ≡ array_vec_len out.old + 1 + room }
{
    out.push(octets.len() as u8);
    put_octets(out, octets);
    put_zeros(out, room - octets.len());
}
