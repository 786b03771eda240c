//! The places of flows in an order. If an id goes, its place stays, but has no id.

ghost use Rattle.std.specs.Prelude.{◌≡◌, ◌≤◌, ◌<◌, ◌++◌, ◌∷◌, [], ℕ, List, eqb, false, length, get_or, IfSome, None};
ghost use Rattle.std.specs.List.{AllByRecursion, last_or};
ghost use Rattle.std.specs.Vec.{vec_capacity};
ghost use Rattle.tcp_streams.specs.Lives.{without, most_ids, index_of};
ghost use Rattle.tcp_streams.specs.Places.{IsQueue, ids_of, place_of as spec_place_of};
ghost use Rattle.tcp_streams.specs.Stamped.{AreStamped, first_side as spec_first_side};

use crate::pair::Side;
use crate::stamps::Stamps;

/// The ids of flows are below this: two for each of 65,536 connections. A place whose id went has
/// this number.
pub(crate) const MOST_IDS: u32 = 131_072;

/// How many places there are. When all are in use, the places without an id are given up.
pub(crate) const PLACES: usize = 262_144;

/// How many places the front has, and how many of them have an id. Each place after the front has
/// an id.
#[derive(Drop)]
pub(crate) struct Front {
    pub(crate) places: usize,
    pub(crate) count: usize,
}

/// Which of the two flows of a slot stands first, from the places of both. It is the side of the
/// lesser endpoint if neither has a place.
#[tactic(auto, unfolding(crate::specs::Stamped::first_side))]
pub(crate) fn first_side(lesser: Option<usize>, greater: Option<usize>) -> Side
    ensures { result ≡ spec_first_side lesser greater }
{
    match (lesser, greater) {
        (Some(lesser), Some(greater)) if greater < lesser => Side::FromGreater,
        (None, Some(_)) => Side::FromGreater,
        _ => Side::FromLesser,
    }
}

/// The place at which an id stands. It is found by the id's stamp; if another id stands at that
/// place, it is found by a walk.
pub(crate) fn place_of(ids: &Vec<u32>, stamps: &Stamps, front: &Front, flow: u32) -> Option<usize>
    requires { IsQueue ids.now.items stamps.now.flows.items front.now.places front.now.count }
    ensures { result ≡ spec_place_of flow ids.now.items }
{
    if flow >= MOST_IDS {
        return None;
    }
    let stamp = stamps.of(flow) as usize;
    if stamp == 0 {
        return None;
    }
    if stamp <= ids.len() && ids[stamp - 1] == flow {
        return Some(stamp - 1);
    }
    first_index_of(ids, flow)
}

/// The index of the first number that is the wanted one.
fn first_index_of(numbers: &Vec<u32>, wanted: u32) -> Option<usize>
    ensures { result ≡ index_of wanted numbers.now.items }
{
    let mut index = 0;
    while index < numbers.len() {
        if numbers[index] == wanted {
            return Some(index);
        }
        index += 1;
    }
    None
}

/// The id at a rank, found by a walk.
pub(crate) fn id_at_rank(ids: &Vec<u32>, rank: usize) -> Option<u32>
    ensures none { (result ≡ None) → length (ids_of ids.now.items) ≤ rank }
    ensures some { IfSome result (λ id. (rank < length (ids_of ids.now.items))
        × (id ≡ get_or (ids_of ids.now.items) rank 0)) }
{
    let mut left = rank;
    let mut index = 0;
    while index < ids.len() {
        if ids[index] < MOST_IDS {
            if left == 0 {
                return Some(ids[index]);
            }
            left -= 1;
        }
        index += 1;
    }
    None
}

/// Takes an id away if it has a place. The place has no id afterwards.
pub(crate) fn take_away(ids: &mut Vec<u32>, stamps: &mut Stamps, front: &mut Front, flow: u32)
    requires { IsQueue ids.old.items stamps.old.flows.items front.old.places front.old.count }
    ensures queue { IsQueue ids.new.items stamps.new.flows.items front.new.places front.new.count }
    ensures items { ids_of ids.new.items ≡ without flow (ids_of ids.old.items) }
    ensures capacity { vec_capacity ids.new ≡ vec_capacity ids.old }
{
    let Some(index) = place_of(ids, stamps, front, flow) else {
        return;
    };
    ids[index] = MOST_IDS;
    stamps.note(flow, 0);
    if index < front.places {
        front.count -= 1;
    } else {
        front.count += index - front.places;
        front.places = index + 1;
    }
}

/// Adds an id that has no place. It comes last.
pub(crate) fn push(ids: &mut Vec<u32>, stamps: &mut Stamps, front: &Front, flow: u32)
    requires queue { IsQueue ids.old.items stamps.old.flows.items front.now.places
        front.now.count }
    requires id { flow < most_ids }
    requires apart { AllByRecursion (λ id. eqb flow id ≡ false) (ids_of ids.old.items) }
    requires room { length ids.old.items < 262144 }
    requires capacity { 262144 ≤ vec_capacity ids.old }
    ensures queue { IsQueue ids.new.items stamps.new.flows.items front.now.places front.now.count }
    ensures items { ids_of ids.new.items ≡ ids_of ids.old.items ++ flow ∷ [] }
    ensures capacity { vec_capacity ids.new ≡ vec_capacity ids.old }
{
    ids.push_reserved(flow);
    stamps.note(flow, ids.len() as u32);
}

/// Makes a place free for one more id, if there are fewer ids than there may be.
pub(crate) fn make_free_place(ids: &mut Vec<u32>, stamps: &mut Stamps, front: &mut Front)
    requires queue { IsQueue ids.old.items stamps.old.flows.items front.old.places
        front.old.count }
    requires fewer { length (ids_of ids.old.items) < most_ids }
    ensures queue { IsQueue ids.new.items stamps.new.flows.items front.new.places front.new.count }
    ensures items { ids_of ids.new.items ≡ ids_of ids.old.items }
    ensures room { length ids.new.items < 262144 }
    ensures capacity { vec_capacity ids.new ≡ vec_capacity ids.old }
{
    if ids.len() >= PLACES {
        pack(ids, stamps, front);
    }
}

/// The id that stands last. Gives up the places after it.
pub(crate) fn last_id(ids: &mut Vec<u32>, front: &mut Front) -> Option<u32>
    ensures last { result ≡ last_or None (ids_of ids.old.items) }
    ensures queue { (stamps : List ℕ)
        → IsQueue ids.old.items stamps front.old.places front.old.count
        → IsQueue ids.new.items stamps front.new.places front.new.count }
    ensures items { ids_of ids.new.items ≡ ids_of ids.old.items }
    ensures capacity { vec_capacity ids.new ≡ vec_capacity ids.old }
{
    while let Some(id) = ids.last().copied() {
        if id < MOST_IDS {
            return Some(id);
        }
        ids.pop();
        front.places = ids.len();
    }
    None
}

/// Gives up the places without an id.
pub(crate) fn pack(ids: &mut Vec<u32>, stamps: &mut Stamps, front: &mut Front)
    requires { IsQueue ids.old.items stamps.old.flows.items front.old.places front.old.count }
    ensures queue { IsQueue ids.new.items stamps.new.flows.items front.new.places front.new.count }
    ensures items { ids.new.items ≡ ids_of ids.old.items }
    ensures capacity { vec_capacity ids.new ≡ vec_capacity ids.old }
{
    ids.retain(|id| *id < MOST_IDS);
    stamp(ids, stamps);
    front.places = 0;
    front.count = 0;
}

/// Notes one more than the index of each id as its stamp.
fn stamp(ids: &Vec<u32>, stamps: &mut Stamps)
    requires few { length ids.now.items ≤ 262144 }
    requires stamped { AreStamped stamps.old.flows.items ids.now.items }
    ensures { AreStamped stamps.new.flows.items ids.now.items }
{
    let mut index = 0;
    while index < ids.len() {
        stamps.note(ids[index], index as u32 + 1);
        index += 1;
    }
}
