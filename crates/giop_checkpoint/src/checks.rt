//! The checks of a checkpoint, in their order.

ghost use Rattle.std.specs.Prelude.{◌≡◌, ◌↔◌, ℕ, List, ◌++◌, ◌≤◌, true, drop, length, IfOk, IfErr, IsOkAnd, IsTrue};
ghost use Rattle.giop_checkpoint.specs.Layouts.{reads_layout};
ghost use Rattle.giop_checkpoint.specs.Fixed.{HasRange, counts_octets, fixed_octets};
ghost use Rattle.giop_checkpoint.specs.Records.{AreRecords};
ghost use Rattle.giop_checkpoint.specs.Refusals.{HasLayoutVersion, PassesUpToCounts, FailsUpToCounts, IsFirstFailure, PassesAllChecks};
ghost use Rattle.giop_checkpoint.specs.declared.fixed.Fixed.{Fixed as FixedPart};
ghost use Rattle.giop_checkpoint.specs.declared.layout.Layout.{Layout as LayoutOf};

use crate::fault::LoadFault;
use crate::fixed::{Counts, Fixed, magic};
use crate::layout::Layout;
use crate::record::are_records;
use crate::sizes::FIXED_SIZE;
use crate::state::{same, state_at};
use arrayvec::ArrayVec;

/// The layout, and what follows the counts, if the octets up to there are those that are written in
/// this layout with these counts.
fn after_counts<'a>(octets: &'a [u8], counts: Counts) -> Result<(Layout, &'a [u8]), LoadFault>
    ensures ours { IfOk result (λ r. PassesUpToCounts counts octets.now) }
    ensures layout { IfOk result (λ r. HasLayoutVersion octets.now r.0) }
    ensures read { IfOk result (λ r. reads_layout counts.version r.0 ≡ true) }
    ensures rest { IfOk result (λ r. r.1.now ≡ drop 28 octets.now) }
    ensures refused { IfErr result (λ why. FailsUpToCounts counts octets.now why) }
{
    if octets.len() < FIXED_SIZE {
        return Err(LoadFault::Length);
    }
    let (text, behind) = octets.split_at(8);
    if !same(text, &magic()) {
        return Err(LoadFault::Magic);
    }
    let (version, behind) = behind.split_at(4);
    let Some(layout) = Layout::of_if_read(version, counts.version) else {
        return Err(LoadFault::Version);
    };
    let (read_with, behind) = behind.split_at(16);
    if !counts.are_written_in(read_with) {
        return Err(LoadFault::Catalogue);
    }
    Ok((layout, behind))
}

/// The fixed part of a checkpoint, and the octets of its records; no record is cut short. `counts`
/// are those of the catalogue and the request list with which it is read.
pub fn fixed_part<'a>(octets: &'a [u8], counts: Counts) -> Result<(Fixed, &'a [u8]), LoadFault>
    ensures passes { IfOk result (λ r. PassesAllChecks counts octets.now r.0 r.1.now) }
    ensures refused { IfErr result (λ why. IsFirstFailure counts octets.now why) }
    // If a layout is read, what is written in it is read.
    ensures again { (layout : LayoutOf) (f : FixedPart) (records : List ℕ) → f.counts ≡ counts →
        reads_layout counts.version layout ≡ true → HasRange layout f → AreRecords f.records records
        →
        octets.now ≡ fixed_octets layout f ++ records → IsOkAnd result (λ r. (r.0 ≡ f)
        × (r.1.now ≡ records)) }
{
    let (layout, behind) = match after_counts(octets, counts) {
        Ok(front) => front,
        Err(why) => return Err(why),
    };
    let (state, records) = behind.split_at(68);
    let Some(fixed) = state_at(layout, counts, state) else {
        return Err(LoadFault::State);
    };
    if !are_records(fixed.records, records) {
        return Err(LoadFault::Length);
    }
    Ok((fixed, records))
}

impl Counts {
    /// Whether the octets are those of these counts.
    fn are_written_in(&self, octets: &[u8]) -> bool
        ensures { IsTrue result ↔ (octets.now ≡ counts_octets self.now) }
    {
        let mut own: ArrayVec<u8, 16> = ArrayVec::new();
        self.write(&mut own);
        same(own.as_slice(), octets)
    }
}
