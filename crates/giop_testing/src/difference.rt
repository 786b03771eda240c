//! What differs between the lines that are wanted and those that came.

use std::fmt;

/// The first line that differs, counted from 1. An empty text means that there is no such line.
#[derive(Clone, Copy)]
pub struct LineDifference<'w, 'g> {
    pub number: usize,
    pub wanted: &'w str,
    pub got: &'g str,
}

impl fmt::Display for LineDifference<'_, '_> {
    fn fmt<W: fmt::Write>(&self, f: &mut fmt::Formatter<W>) -> fmt::Result {
        write!(
            f,
            "line {}\n  wanted: {}\n  got: {}",
            self.number, self.wanted, self.got
        )
    }
}

/// The first line in which two texts differ, or the first one after the end of one of them.
pub fn first_line<'w, 'g>(wanted: &'w str, got: &'g str) -> LineDifference<'w, 'g> {
    let mut number = 1usize;
    let mut left = got.split('\n');
    for wanted in wanted.split('\n') {
        let got = left.next().unwrap_or("");
        if wanted != got {
            return LineDifference {
                number,
                wanted,
                got,
            };
        }
        number = number.saturating_add(1);
    }
    LineDifference {
        number,
        wanted: "",
        got: left.next().unwrap_or(""),
    }
}

/// Compares the first lines that are wanted, so many, with those that were told.
pub fn compare<'w, 'g>(
    wanted: &'w str,
    count: usize,
    told: &'g str,
) -> Option<LineDifference<'w, 'g>> {
    let mut number = 1usize;
    let mut left = told.lines();
    for wanted in wanted.lines().take(count) {
        let got = left.next().unwrap_or("");
        if wanted != got {
            return Some(LineDifference {
                number,
                wanted,
                got,
            });
        }
        number = number.saturating_add(1);
    }
    let got = left.next()?;
    Some(LineDifference {
        number,
        wanted: "",
        got,
    })
}
