//! What is kept to find the flow that gives up: the one that holds the most blocks. If several hold
//! as many, it is the one whose last stream began first.

ghost use Rattle.std.specs.Prelude.{◌≡◌, ◌≤◌, ℕ, get_or};
ghost use Rattle.std.specs.Vec.{vec_len};
ghost use Rattle.std.proofs.Props.{props};

use tcp_slots::Ranks;

/// The rank of each flow. The flow that gives up has the least rank.
#[derive(Drop)]
pub struct GapRanks {
    pub(crate) ranks: Ranks,
    /// A number for each flow. The later its last stream began, the greater it is.
    pub(crate) numbers: Vec<u64>,
    /// No number is greater.
    pub(crate) greatest: u64,
    ghost as_many: { vec_len numbers ≡ ranks.slots },
    ghost most: { (id : ℕ) → get_or numbers.items id 0 ≤ greatest } by { Prim.hlevel props },
}
