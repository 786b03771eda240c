//! A table of rows by their names.

use crate::row::Row;
use indexmap::IndexMap;
use std::alloc::{AllocError, Global};

/// The greatest number of rows in a table. All others are one row.
pub(crate) const ROWS_MAX: usize = 4_096;

/// Rows by their names, in the order in which they came. The names of a row are one text, with line feeds between them.
#[derive(Drop)]
pub(crate) struct Table {
    alloc: Global,
    rows: IndexMap<String, Row>,
    others: Option<Row>,
}

impl Table {
    /// Makes a table without rows.
    pub(crate) fn new(alloc: Global) -> Table {
        Table {
            alloc,
            rows: IndexMap::new(alloc),
            others: None,
        }
    }

    /// The rows by their names.
    pub(crate) fn rows(&self) -> &IndexMap<String, Row> {
        &self.rows
    }

    /// The row of all others, if there are any.
    pub(crate) fn others(&self) -> Option<&Row> {
        match &self.others {
            None => None,
            Some(row) => Some(row),
        }
    }

    /// The index of the row with these names; None if the row is counted with the others.
    pub(crate) fn index_or_insert(&mut self, names: &str) -> Result<Option<usize>, AllocError> {
        if let Some(index) = self.rows.get_index_of(names) {
            return Ok(Some(index));
        }
        if self.rows.len() >= ROWS_MAX {
            if self.others.is_none() {
                self.others = Some(Row::new(self.alloc, true));
            }
            return Ok(None);
        }
        let name = String::from_str(self.alloc, names)?;
        let (index, _) = self.rows.insert_full(name, Row::new(self.alloc, true))?;
        Ok(Some(index))
    }

    /// The row at this index, or the row of all others.
    pub(crate) fn row(&mut self, index: Option<usize>) -> Option<&mut Row> {
        match index {
            Some(index) => self.rows.get_index_mut(index),
            None => match &mut self.others {
                None => None,
                Some(row) => Some(row),
            },
        }
    }
}
