//! The order in which rows and repository ids are written.

use crate::row::Row;
use crate::table::Table;
use std::alloc::{AllocError, Global};
use std::cmp::Ordering;

/// The rows of a table in their order: those with the most time first; of these, those with the most calls first; of these,
/// those with the most octets first; and of these by their names.
pub(crate) fn sorted_rows<'a>(
    alloc: Global,
    table: &'a Table,
) -> Result<Vec<(&'a str, &'a Row)>, AllocError> {
    let mut rows = Vec::new(alloc);
    for (names, row) in table.rows().iter() {
        rows.push((names.as_str(), row))?;
    }
    rows.sort_by(|a, b| compare_rows(*a, *b))?;
    Ok(rows)
}

fn compare_rows(row: (&str, &Row), other: (&str, &Row)) -> Ordering {
    other
        .1
        .times
        .total()
        .cmp(&row.1.times.total())
        .then(other.1.calls.cmp(&row.1.calls))
        .then(other.1.octets.cmp(&row.1.octets))
        .then(row.0.cmp(other.0))
}

/// The repository ids of a row in their order: those that came most often first, and of these by their names.
pub(crate) fn sorted_exception_ids<'a>(
    alloc: Global,
    row: &'a Row,
) -> Result<Vec<(&'a [u8], u64)>, AllocError> {
    let mut ids = Vec::new(alloc);
    let known = row.exception_ids();
    for i in 0..known.len() {
        let (id, count) = &known[i];
        ids.push((id.as_slice(), *count))?;
    }
    ids.sort_by(|a, b| b.1.cmp(&a.1).then(a.0.cmp(b.0)))?;
    Ok(ids)
}
