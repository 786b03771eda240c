//! Counts the rows, and those that differ.

/// The number of rows, and how many of them differ.
#[derive(Clone, Copy)]
pub struct Tally {
    pub rows: u64,
    pub differ: u64,
}

impl Tally {
    /// Makes a tally without rows.
    pub fn new() -> Tally {
        Tally { rows: 0, differ: 0 }
    }

    /// Counts a row.
    pub fn count(&mut self, is_as_told: bool) {
        self.rows = self.rows.saturating_add(1);
        if !is_as_told {
            self.differ = self.differ.saturating_add(1);
        }
    }

    /// Whether there are rows, and none differs.
    pub fn is_clean(&self) -> bool {
        self.rows > 0 && self.differ == 0
    }
}
