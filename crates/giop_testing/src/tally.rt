//! Counts rows, and those that differ.

use std::io;
use std::process::ExitCode;

/// How many rows there were, in how many runs, and how many of the rows differ.
#[derive(Clone, Copy)]
pub struct Tally {
    pub rows: u64,
    pub runs: u64,
    pub differ: u64,
}

impl Tally {
    /// No row yet.
    pub fn new() -> Tally {
        Tally {
            rows: 0,
            runs: 0,
            differ: 0,
        }
    }

    /// Counts a row.
    pub fn count(&mut self, is_as_told: bool) {
        self.rows = self.rows.saturating_add(1);
        if !is_as_told {
            self.differ = self.differ.saturating_add(1);
        }
    }

    /// Counts a run.
    pub fn count_run(&mut self) {
        self.runs = self.runs.saturating_add(1);
    }

    /// The status of a program that tried the rows, or could not go on: 0 where there are rows and
    /// none differs.
    pub fn status(&self, tried: io::Result<()>) -> ExitCode {
        match tried {
            Ok(()) if self.rows > 0 && self.differ == 0 => ExitCode::from(0),
            Ok(()) => ExitCode::from(1),
            Err(_) => ExitCode::from(4),
        }
    }
}
