//! Reads the fields of the fixed part that follow the counts.

ghost use Rattle.std.specs.Prelude.{◌≡◌, ◌↔◌, ℕ, Bool, List, ◌+◌, ◌≤◌, ◌++◌, length, Option, Some, IfSome, IsTrue};
ghost use Rattle.giop_checkpoint.specs.Layouts.{OpenHasRange, IsAmongRecords, MixedFits, record_number_or, owner_octet, limit_octets};
ghost use Rattle.giop_checkpoint.specs.Fixed.{HasRange, PlaceHasRange, fault_octet, place_octets, place_octet, place_fault_octet, place_held_count, place_header_octets, place_octets_left, state_octets};
ghost use Rattle.giop_checkpoint.specs.declared.fixed.Fixed.{Fixed as FixedPart};
ghost use Rattle.giop_checkpoint.specs.declared.fixed.NextOctet.{NextOctet as PlaceOf};
ghost use Rattle.giop_checkpoint.specs.declared.fault.StreamFault.{StreamFault as Fault};
ghost use Rattle.giop_checkpoint.specs.declared.layout.Layout.{Layout as LayoutOf};

use crate::fault::StreamFault;
use crate::fixed::{Counts, Fixed, NextOctet};
use crate::layout::Layout;
use crate::sizes::LAYOUT_2_MOST_OPEN;
use arrayvec::ArrayVec;
use giop_octets::{eight_at, four_at, octet_at, octets_at};

/// The fixed part with these counts, if the octets after them are its fields in this layout: each
/// field is in its range, and unused octets are zero.
pub fn state_at(layout: Layout, counts: Counts, octets: &[u8]) -> Option<Fixed>
    requires long { length octets.now ≡ 68 }
    ensures counts { IfSome result (λ f. f.counts ≡ counts) }
    ensures octets { IfSome result (λ f. octets.now ≡ state_octets layout f) }
    ensures range { IfSome result (λ f. HasRange layout f) }
    ensures again { (f : FixedPart) → f.counts ≡ counts → HasRange layout f →
        octets.now ≡ state_octets layout f → result ≡ Some f }
{
    let Some(fixed) = unchecked_state(layout, counts, octets) else {
        return None;
    };
    if !fixed.is_in_range(layout) {
        return None;
    }
    let mut again: ArrayVec<u8, 68> = ArrayVec::new();
    fixed.write_state(layout, &mut again);
    if !same(again.as_slice(), octets) {
        return None;
    }
    Some(fixed)
}

/// The fixed part that octets give. Unused octets and the ranges aren't checked.
fn unchecked_state(layout: Layout, counts: Counts, octets: &[u8]) -> Option<Fixed>
    requires long { length octets.now ≡ 68 }
    ensures counts { IfSome result (λ f. f.counts ≡ counts) }
    ensures place { IfSome result (λ f. PlaceHasRange f.place) }
    ensures again { (f : FixedPart) → f.counts ≡ counts → HasRange layout f →
        octets.now ≡ state_octets layout f → result ≡ Some f }
{
    let (_, behind) = octets.split_at(28);
    let (_, limits) = octets.split_at(52);
    let Some(place) = place_at(behind) else {
        return None;
    };
    Some(Fixed {
        counts,
        most_open: most_open_at(layout, limits),
        records: four_at(octets, 0),
        octets: eight_at(octets, 4),
        messages: eight_at(octets, 12),
        faults: eight_at(octets, 20),
        place,
        owner: owner_at(layout, octet_at(octets, 31), limits),
        is_mixed: is_mixed_at(limits),
    })
}

/// The place that the first octets give.
fn place_at(octets: &[u8]) -> Option<NextOctet>
    requires long { 24 ≤ length octets.now }
    ensures range { IfSome result (λ place. PlaceHasRange place) }
    ensures again { (place : PlaceOf) (owner : ℕ) (rest : List ℕ) → PlaceHasRange place →
        octets.now ≡ place_octets place owner ++ rest → result ≡ Some place }
{
    place_of(
        octet_at(octets, 0),
        octet_at(octets, 1),
        octet_at(octets, 2),
        octets_at(octets, 4),
        eight_at(octets, 16),
    )
}

/// The place that these fields give.
fn place_of(kind: u8, fault: u8, held: u8, header: [u8; 12], left: u64) -> Option<NextOctet>
    ensures range { IfSome result (λ place. PlaceHasRange place) }
    ensures again { (place : PlaceOf) → PlaceHasRange place → kind ≡ place_octet place →
        fault ≡ place_fault_octet place →
        held ≡ place_held_count place → header ≡ place_header_octets place → left
        ≡ place_octets_left place →
        result ≡ Some place }
{
    match kind {
        0 => Some(NextOctet::Header(held_header_octets(&header, held))),
        1 => match u32::try_from(left) {
            Ok(left) => Some(NextOctet::Payload { header, left }),
            Err(_) => None,
        },
        2 => match fault_of(fault) {
            Some(fault) => Some(NextOctet::Stopped(fault)),
            None => None,
        },
        _ => None,
    }
}

/// The header octets that are held: the first `count` of these.
fn held_header_octets(header: &[u8; 12], count: u8) -> ArrayVec<u8, 11>
    ensures few { length result.items ≤ 11 }
    ensures again { (held rest : List ℕ) → length held ≤ 11 → length held ≡ count →
        header.now ≡ held ++ rest → result.items ≡ held }
{
    let len = usize::from(count).min(11);
    let mut held = ArrayVec::new();
    for octet in &header[..len] {
        held.push(*octet);
    }
    held
}

/// The stream fault of this number.
fn fault_of(number: u8) -> Option<StreamFault>
    ensures { (fault : Fault) → number ≡ fault_octet fault → result ≡ Some fault }
{
    match number {
        1 => Some(StreamFault::Magic),
        2 => Some(StreamFault::Version),
        3 => Some(StreamFault::ByteOrder),
        5 => Some(StreamFault::StreamLimit),
        _ => None,
    }
}

/// How many messages may be open at once, from the octets after the place.
fn most_open_at(layout: Layout, octets: &[u8]) -> u32
    requires long { length octets.now ≡ 16 }
    ensures { (n : ℕ) (owner : Option ℕ) (is_mixed : Bool) → OpenHasRange layout n →
        octets.now ≡ limit_octets layout n owner is_mixed → result ≡ n }
{
    match layout {
        Layout::Second => LAYOUT_2_MOST_OPEN,
        Layout::Third | Layout::Latest => four_at(octets, 0),
    }
}

/// The payload's record, from the octet of the place that names it and the octets after the place.
fn owner_at(layout: Layout, octet: u8, octets: &[u8]) -> Option<u32>
    requires long { length octets.now ≡ 16 }
    ensures { (n : ℕ) (owner : Option ℕ) (is_mixed : Bool) → OpenHasRange layout n →
        IsAmongRecords (n + 1) owner → octet ≡ owner_octet layout owner →
        octets.now ≡ limit_octets layout n owner is_mixed → result ≡ owner }
{
    match layout {
        Layout::Second => record_unless_nobody(u32::from(octet), 255),
        Layout::Third | Layout::Latest => record_unless_nobody(four_at(octets, 4), 4_294_967_295),
    }
}

/// Whether messages of GIOP 1.1 are mixed, from the octets after the place.
fn is_mixed_at(octets: &[u8]) -> bool
    requires long { length octets.now ≡ 16 }
    ensures { (layout : LayoutOf) (n : ℕ) (owner : Option ℕ) (is_mixed : Bool) →
        MixedFits layout is_mixed → octets.now ≡ limit_octets layout n owner is_mixed →
        result ≡ is_mixed }
{
    octet_at(octets, 8) == 1
}

/// The record that a number names. The number `nobody` names none.
fn record_unless_nobody(number: u32, nobody: u32) -> Option<u32>
    ensures { (owner : Option ℕ) → IsAmongRecords nobody owner → number
        ≡ record_number_or nobody owner →
        result ≡ owner }
{
    if number == nobody { None } else { Some(number) }
}

/// Whether these octets and the others are the same.
pub fn same(octets: &[u8], others: &[u8]) -> bool
    ensures { IsTrue result ↔ (octets.now ≡ others.now) }
{
    octets == others
}

impl Fixed {
    /// Whether each field except the place is in its range.
    fn is_in_range(&self, layout: Layout) -> bool
        requires { PlaceHasRange self.now.place }
        ensures { IsTrue result ↔ HasRange layout self.now }
    {
        layout.allows_most_open(self.most_open)
            && u64::from(self.records) <= u64::from(self.most_open) + 1
            && self.octets <= (1 << 48) + 1
            && self.messages <= 1 << 45
            && self.faults <= (1 << 45) + 1
            && is_among_records(self.records, self.owner)
            && layout.allows_mixed(self.is_mixed)
    }
}

/// Whether the record that is named is one of the records. If none is named, this is true.
fn is_among_records(records: u32, owner: Option<u32>) -> bool
    ensures { IsTrue result ↔ IsAmongRecords records owner }
{
    match owner {
        Some(record) => record < records,
        None => true,
    }
}
