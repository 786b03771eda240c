//! The fronts of repository ids, by which an id that comes in pieces is recognized.
ghost use Rattle.std.specs.Prelude.{◌≡◌, ℕ, ◌≤◌, List, ◌∷◌, ◌++◌, length, map, IfOk, OnOk, IfSome, IfNone};
ghost use Rattle.giop_sig.specs.HeaderTypes.{KnowsAnys};
ghost use Rattle.giop_sig.specs.Table.{Node};
ghost use Rattle.giop_sig.specs.Heard.{first_fronts, with_front, with_front_of_length, with_fronts};

use arrayvec::ArrayVec;
use indexmap::IndexSet;
use std::alloc::{AllocError, Global};

/// The octet of a type's kind, and then the octets of its repository id or of a front of it.
pub(crate) type Front = ArrayVec<u8, 129>;

/// The kind of a struct.
pub(crate) const STRUCT_KIND: u8 = 15;
/// The kind of a union.
pub(crate) const UNION_KIND: u8 = 16;
/// The kind of an enum.
pub(crate) const ENUM_KIND: u8 = 17;

/// How many fronts there may be.
const FRONTS_MAX: usize = 65_536;

/// The front with these octets, of an id of a type of this kind.
fn front_of(kind: u8, octets: &[u8]) -> Front
    requires { length octets.now ≤ 128 }
    ensures { result.items ≡ kind ∷ octets.now }
{
    let mut front: Front = ArrayVec::new();
    front.push(kind);
    front.try_extend_from_slice(octets).unwrap();
    front
}

/// Adds a front, if it is new. If no number is left for it, memory is refused: no file has so many.
fn add_front(fronts: &mut IndexSet<Front>, kind: u8, octets: &[u8]) -> Result<(), AllocError>
    requires { length octets.now ≤ 128 }
    ensures added { OnOk result (map (λ f. f.items) fronts.new.keys
        ≡ with_front (map (λ f. f.items) fronts.old.keys) (kind ∷ octets.now)) }
    ensures known { (version : ℕ) (types : List Node) →
        KnowsAnys version types (map (λ f. f.items) fronts.old.keys) →
        KnowsAnys version types (map (λ f. f.items) fronts.new.keys) }
{
    if fronts.len() >= FRONTS_MAX {
        return Err(AllocError);
    }
    fronts.insert(front_of(kind, octets))?;
    Ok(())
}

/// The fronts before the first octet of an id, one for each kind.
pub(crate) fn first_fronts(alloc: Global) -> Result<IndexSet<Front>, AllocError>
    ensures { IfOk result (λ fronts. map (λ f. f.items) fronts.keys ≡ first_fronts) }
{
    let mut fronts = IndexSet::new(alloc);
    add_front(&mut fronts, STRUCT_KIND, b"")?;
    add_front(&mut fronts, UNION_KIND, b"")?;
    add_front(&mut fronts, ENUM_KIND, b"")?;
    Ok(fronts)
}

/// Adds the front of `count` octets of an id, if the id has more and the front is new.
fn add_front_of_length(
    fronts: &mut IndexSet<Front>,
    kind: u8,
    id: &[u8],
    count: usize,
) -> Result<(), AllocError>
    requires { length id.now ≤ 128 }
    ensures added { OnOk result (map (λ f. f.items) fronts.new.keys
        ≡ with_front_of_length kind id.now count (map (λ f. f.items) fronts.old.keys)) }
    ensures known { (version : ℕ) (types : List Node) →
        KnowsAnys version types (map (λ f. f.items) fronts.old.keys) →
        KnowsAnys version types (map (λ f. f.items) fronts.new.keys) }
{
    if count < id.len() {
        add_front(fronts, kind, &id[..count])?;
    }
    Ok(())
}

/// Adds the fronts of an id that are new: its first 32, 64 and 96 octets, if it has more. If memory
/// is refused, some of them may have been added.
pub(crate) fn add_fronts(
    fronts: &mut IndexSet<Front>,
    kind: u8,
    id: &[u8],
) -> Result<(), AllocError>
    requires { length id.now ≤ 128 }
    ensures added { OnOk result (map (λ f. f.items) fronts.new.keys
        ≡ with_fronts kind id.now (map (λ f. f.items) fronts.old.keys)) }
    ensures known { (version : ℕ) (types : List Node) →
        KnowsAnys version types (map (λ f. f.items) fronts.old.keys) →
        KnowsAnys version types (map (λ f. f.items) fronts.new.keys) }
{
    add_front_of_length(fronts, kind, id, 32)?;
    add_front_of_length(fronts, kind, id, 64)?;
    add_front_of_length(fronts, kind, id, 96)
}

/// A front with the octets of a piece after it, which comes in two parts. None if that is longer
/// than a front can be.
pub(crate) fn longer_front(front: &[u8], held: &[u8], rest: &[u8]) -> Option<Front>
    ensures some { IfSome result (λ longer.
        longer.items ≡ front.now ++ (held.now ++ rest.now)) }
    ensures none { IfNone result (130 ≤ length (front.now ++ (held.now ++ rest.now))) }
{
    let mut octets: Front = ArrayVec::new();
    octets.try_extend_from_slice(front).ok()?;
    octets.try_extend_from_slice(held).ok()?;
    octets.try_extend_from_slice(rest).ok()?;
    Some(octets)
}
