//! Reads the rows, tells each to its listeners, and prints whether it differs.

use crate::row::Row;
use crate::running::told_of;
use giop_testing::{Tally, compare};
use std::io;

/// Prints for each row whether it is told as it says, and at the end how many there were.
pub fn tell(rt: &HostRuntime, text: &str, tally: &mut Tally) -> io::Result<()> {
    for text in text.strip_suffix('\n').unwrap_or("").split("\n\n") {
        tell_row(rt, text, tally)?;
    }
    println!(rt;
        "{} rows, {} listeners, {} rows differ",
        tally.rows, tally.runs, tally.differ
    )
}

fn tell_row(rt: &HostRuntime, text: &str, tally: &mut Tally) -> io::Result<()> {
    let Some(row) = Row::read(rt.alloc(), text) else {
        tally.count(false);
        return println!(rt; "MALFORMED row:\n{text}");
    };
    let is_as_told = is_told(rt, &row, tally)?;
    tally.count(is_as_told);
    if is_as_told {
        println!(rt; "ok {}", row.name)?;
    }
    Ok(())
}

/// Tells a row to a listener that goes on, and to those that fail, up to the first one that is told another thing.
fn is_told(rt: &HostRuntime, row: &Row, tally: &mut Tally) -> io::Result<bool> {
    let count = row.told.lines().count();
    if !is_told_to(rt, row, count, false, tally)? {
        return Ok(false);
    }
    for left in 0..count {
        if !is_told_to(rt, row, left, true, tally)? {
            return Ok(false);
        }
    }
    Ok(true)
}

/// Tells a row to a listener: one that fails after so many things, or one that may be told all that happens.
fn is_told_to(
    rt: &HostRuntime,
    row: &Row,
    count: usize,
    fails: bool,
    tally: &mut Tally,
) -> io::Result<bool> {
    tally.count_run();
    let left = if fails { count } else { usize::MAX };
    let Some(teller) = told_of(rt.alloc(), row, left) else {
        println!(rt; "NOT RUN {}", row.name)?;
        return Ok(false);
    };
    if let Some(difference) = compare(row.told, count, &teller.told) {
        println!(rt; "DIFFERS {}, listener of {count}: {difference}", row.name)?;
        return Ok(false);
    }
    if teller.has_failed != fails {
        println!(rt;
            "DIFFERS {}, listener of {count}: whether it fails",
            row.name
        )?;
        return Ok(false);
    }
    Ok(true)
}
