//! The cases of a union. The case of a label is found by binary search in a list of all labels.
ghost use Rattle.std.specs.Prelude.{◌≡◌, ℕ, ◌<◌, ◌≤◌, ◌++◌, List, length, map, true, Some, IfOk, OnOk, slice_get, slice_index_or};
ghost use Rattle.std.specs.List.{list_any};
ghost use Rattle.giop_sig.specs.Table.{Case, case_part, case_with, same_number};
ghost use Rattle.giop_sig.specs.UnionCases.{part_view, case_view, sort_key_of, placed_label, KeysRise, AreLabels, AreLabelsRisingIf};

use crate::entries::{CaseEntry, PartEntry};
use giop_cdr::Number;
use std::alloc::{AllocError, Global};
use std::marker::Model;

/// A label, and the index of the case that it selects.
#[derive(Clone, Copy)]
pub(crate) struct PlacedLabel {
    pub(crate) number: Number,
    pub(crate) index: usize,
}

/// The cases of a union, in order. A contract sees a list of `Case`.
#[derive(Drop)]
pub(crate) struct UnionCases {
    cases: Vec<CaseEntry>,
    /// The labels of all cases, sorted by their keys.
    labels: Vec<PlacedLabel>,
    /// Whether the keys ascend, so that no two are the same. They do for different values of one
    /// type.
    rises: bool,
}

impl Model for UnionCases {
    ghost use Rattle.std.specs.Prelude.{List, map};
    ghost use Rattle.giop_sig.specs.Table.{Case};
    ghost use Rattle.giop_sig.specs.UnionCases.{case_view, AreLabelsRisingIf};

    ghost Value = { List Case };

    ghost view = { λ a. map case_view a.cases.items };

    ghost invariant = { λ a. AreLabelsRisingIf
        (map case_view a.cases.items) a.labels.items a.rises };
}

impl UnionCases {
    /// Cases in this order. Refused only for memory.
    pub(crate) fn new(alloc: Global, cases: Vec<CaseEntry>) -> Result<UnionCases, AllocError>
        ensures { IfOk result (λ made. made ≡ map case_view cases.items) }
    {
        let mut labels = labels_of(alloc, &cases)?;
        labels.sort_unstable_by_key(|label| sort_key_of(label.number));
        let rises = keys_rise(&labels);
        Ok(UnionCases {
            cases,
            labels,
            rises,
        })
    }

    /// How many cases there are.
    #[inline(always)]
    pub(crate) fn len(&self) -> u32
        requires { length self.now ≤ 256 }
        ensures { result ≡ length self.now }
    {
        self.cases.len() as u32
    }

    /// The case at an index: its name and its type.
    #[inline(always)]
    pub(crate) fn part(&self, index: u32) -> &PartEntry
        requires { index < length self.now }
        ensures { case_part (slice_get self.now index) ≡ Some (part_view result.now) }
    {
        &self.cases[index as usize].part
    }

    /// The first case with this number among its labels.
    #[inline(always)]
    pub(crate) fn find(&self, number: Number) -> Option<u32>
        requires { length self.now ≤ 256 }
        ensures { result ≡ case_with number self.now }
    {
        let found = if self.rises {
            case_by_search(&self.labels, number)
        } else {
            first_case_with(&self.cases, number)
        };
        match found {
            None => None,
            Some(index) => Some(index as u32),
        }
    }
}

/// The key by which labels are sorted. Different values of one type have different keys.
fn sort_key_of(number: Number) -> u64
    ensures { result ≡ sort_key_of number }
{
    match number {
        Number::Unsigned(n) => n,
        Number::Signed(n) => n.cast_unsigned(),
        Number::Bits(n) => n,
        Number::Truth(truth) => u64::from(truth),
        Number::Char(n) => u64::from(n),
    }
}

/// Adds the labels of the case at an index.
fn add_labels(
    labels: &mut Vec<PlacedLabel>,
    numbers: &[Number],
    index: usize,
) -> Result<(), AllocError>
    ensures { OnOk result
        (labels.new.items ≡ labels.old.items ++ map (placed_label index) numbers.now) }
{
    for number in numbers {
        labels.push(PlacedLabel {
            number: *number,
            index,
        })?;
    }
    Ok(())
}

/// The labels of cases.
fn labels_of(alloc: Global, cases: &[CaseEntry]) -> Result<Vec<PlacedLabel>, AllocError>
    ensures { IfOk result (λ labels. AreLabels (map case_view cases.now) labels.items) }
{
    let mut labels = Vec::new(alloc);
    for index in 0..cases.len() {
        add_labels(&mut labels, &cases[index].labels, index)?;
    }
    Ok(labels)
}

/// Whether each label has a greater key than the label before it.
fn keys_rise(labels: &[PlacedLabel]) -> bool
    ensures { result ≡ true → KeysRise labels.now }
{
    for index in 1..labels.len() {
        if sort_key_of(labels[index].number) <= sort_key_of(labels[index - 1].number) {
            return false;
        }
    }
    true
}

/// The index of the first label whose key isn't less than `key`.
fn first_not_below(labels: &[PlacedLabel], key: u64) -> usize
    requires { KeysRise labels.now }
    ensures bound { result ≤ length labels.now }
    ensures below { (i : ℕ) (d : PlacedLabel) → i < result
        → sort_key_of (slice_index_or labels.now i d).number < key }
    ensures above { (i : ℕ) (d : PlacedLabel) → result ≤ i → i < length labels.now
        → key ≤ sort_key_of (slice_index_or labels.now i d).number }
{
    labels.partition_point(|label| sort_key_of(label.number) < key)
}

/// Whether two numbers are the same value of the same type.
fn is_same(one: Number, other: Number) -> bool
    ensures { result ≡ same_number one other }
{
    one == other
}

/// The case of a number, found in the list of its union's labels.
fn case_by_search(labels: &[PlacedLabel], number: Number) -> Option<usize>
    requires { KeysRise labels.now }
    ensures { (cases : List Case) → AreLabels cases labels.now
        → result ≡ case_with number cases }
{
    let at = first_not_below(labels, sort_key_of(number));
    if at < labels.len() && is_same(labels[at].number, number) {
        Some(labels[at].index)
    } else {
        None
    }
}

/// Whether a number is among these labels.
fn has_label(labels: &[Number], number: Number) -> bool
    ensures { result ≡ list_any (λ label. same_number label number) labels.now }
{
    labels.contains(&number)
}

/// The first case with this number among its labels, in whatever order the labels are.
fn first_case_with(cases: &[CaseEntry], number: Number) -> Option<usize>
    ensures { result ≡ case_with number (map case_view cases.now) }
{
    cases
        .iter()
        .position(|case| has_label(&case.labels, number))
}
