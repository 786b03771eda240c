//! What differs between the lines and the status that a row wants, and those of a dump.

use giop_stream::LoadFault;
use std::fmt;

/// The first thing that differs.
#[derive(Clone, Copy)]
pub enum Difference<'w, 'g> {
    /// A line, counted from 1. An empty text means that there is no such line.
    Line {
        number: usize,
        wanted: &'w str,
        got: &'g str,
    },
    /// The status.
    Status {
        wanted: u8,
        got: u8,
    },
    /// The length of the checkpoint after this number of octets.
    Length {
        at: usize,
        wanted: usize,
        got: usize,
    },
    /// Why the checkpoint after this number of octets is refused.
    Refused {
        at: usize,
        why: LoadFault,
    },
    /// The octet at this index of what is saved.
    Saved {
        at: usize,
    },
    /// What a checkpoint leads to if its octet at this index is complemented.
    Outcome {
        at: usize,
        wanted: &'w str,
        got: &'g str,
    },
    /// The hash of the fixed parts of the checkpoints.
    FixedParts {
        wanted: u32,
        got: u32,
    },
}

impl fmt::Display for Difference<'_, '_> {
    fn fmt<W: fmt::Write>(&self, f: &mut fmt::Formatter<W>) -> fmt::Result {
        match self {
            Difference::Line {
                number,
                wanted,
                got,
            } => write!(f, "line {number}\n  wanted: {wanted}\n  got: {got}"),
            Difference::Status { wanted, got } => {
                write!(f, "status\n  wanted: {wanted}\n  got: {got}")
            }
            Difference::Length { at, wanted, got } => {
                write!(f, "length behind {at}\n  wanted: {wanted}\n  got: {got}")
            }
            Difference::Refused { at, why } => {
                write!(
                    f,
                    "checkpoint behind {at}\n  wanted: an engine\n  got: {why}"
                )
            }
            Difference::Saved { at } => write!(f, "octet {at} of the checkpoint"),
            Difference::Outcome { at, wanted, got } => {
                write!(
                    f,
                    "octet {at} complemented\n  wanted: {wanted}\n  got: {got}"
                )
            }
            Difference::FixedParts { wanted, got } => {
                write!(f, "fixed parts\n  wanted: {wanted:08x}\n  got: {got:08x}")
            }
        }
    }
}

/// Compares the lines that are wanted, without the last line feed, and the status with those of a dump.
pub fn compare<'w, 'g>(
    wanted: &'w str,
    wanted_status: u8,
    written: &'g [u8],
    status: u8,
) -> Option<Difference<'w, 'g>> {
    let got = str::from_utf8(written).unwrap_or("octets that are no text");
    if !is_same(wanted, got) {
        return Some(first_line(wanted, got));
    }
    if status != wanted_status {
        return Some(Difference::Status {
            wanted: wanted_status,
            got: status,
        });
    }
    None
}

/// Whether a text is these lines. They are given without the last line feed.
fn is_same(wanted: &str, got: &str) -> bool {
    if wanted.is_empty() {
        return got.is_empty();
    }
    got.strip_suffix('\n') == Some(wanted)
}

/// Compares the lines that are wanted with those that were written before a put failed, and the status with the status of a
/// run that failed. What was written must be a front of the lines; the last line may be cut.
pub fn compare_front<'w, 'g>(
    wanted: &'w str,
    written: &'g [u8],
    status: u8,
) -> Option<Difference<'w, 'g>> {
    let got = str::from_utf8(written).unwrap_or("octets that are no text");
    if !wanted.starts_with(got.strip_suffix('\n').unwrap_or(got)) {
        return Some(first_line(wanted, got));
    }
    if status != 4 {
        return Some(Difference::Status {
            wanted: 4,
            got: status,
        });
    }
    None
}

/// The first line in which two texts differ, or the first line after the end of one of them.
fn first_line<'w, 'g>(wanted: &'w str, got: &'g str) -> Difference<'w, 'g> {
    let mut number = 1usize;
    let mut left = got.split('\n');
    for wanted in wanted.split('\n') {
        let got = left.next().unwrap_or("");
        if wanted != got {
            return Difference::Line {
                number,
                wanted,
                got,
            };
        }
        number = number.saturating_add(1);
    }
    Difference::Line {
        number,
        wanted: "",
        got: left.next().unwrap_or(""),
    }
}
