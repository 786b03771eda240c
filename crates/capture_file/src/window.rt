//! The octets that are held of a part that comes in pieces.

ghost use Rattle.std.specs.Prelude.{◌≡◌, ℕ, ◌+◌, ◌^◌, ◌<◌, ◌≤◌, min, List, ◌++◌, length, vec_len, vec_capacity};
ghost use Rattle.capture_file.specs.Window.{IsHeld};

/// Copies octets of the next piece of a part into a window. The window is for `size` octets of the part, from offset
/// `begin` on. The piece begins at offset `at` of the part.
pub fn copy_to_window(window: &mut [u8], begin: u64, size: u64, at: u64, piece: &[u8])
    requires room { size ≤ length window.old }
    requires few { begin + size < 2 ^ 64 }
    requires limit { at + length piece.now < 2 ^ 64 }
    ensures { (had : List ℕ) → length had ≡ at → IsHeld begin size had window.old →
        IsHeld begin size (had ++ piece.now) window.new }
{
    let from = at.max(begin);
    let to = (at + piece.len() as u64).min(begin + size);
    if from < to {
        let next = &piece[(from - at) as usize..(to - at) as usize];
        window[(from - begin) as usize..(to - begin) as usize].copy_from_slice(next);
    }
}

/// Adds octets of the next piece of a part to the front that is held. The front is the first `size` octets of the part. The
/// piece begins at offset `at` of the part; what is held after that offset is of an earlier part, and goes.
pub fn push_front(front: &mut Vec<u8>, size: u64, at: u64, piece: &[u8])
    requires room { size ≤ vec_capacity front.old }
    requires come { min at size ≤ length front.old.items }
    ensures held { (had : List ℕ) → length had ≡ at → IsHeld 0 size had front.old.items →
        IsHeld 0 size (had ++ piece.now) front.new.items }
    ensures come { min (at + length piece.now) size ≤ length front.new.items }
    ensures capacity { vec_capacity front.new ≡ vec_capacity front.old }
{
    if at < size {
        let count = (size - at).min(piece.len() as u64) as usize;
        front.truncate(at as usize);
        push_all(front, &piece[..count]);
    }
}

/// Adds octets to a vector that has room for them, so no memory is taken. (The contract of `extend_from_slice` doesn't say
/// that.)
fn push_all(to: &mut Vec<u8>, octets: &[u8])
    requires room { vec_len to.old + length octets.now ≤ vec_capacity to.old }
    ensures items { to.new.items ≡ to.old.items ++ octets.now }
    ensures capacity { vec_capacity to.new ≡ vec_capacity to.old }
{
    for &octet in octets {
        to.push_reserved(octet);
    }
}
