//! A table as text: columns of equal width, without the columns in which nothing was counted.

use std::alloc::{AllocError, Global};

/// A column.
#[derive(Drop)]
struct Column {
    // Whether the column has names. Names begin at the left, and their column is written if one of them isn't empty.
    is_name: bool,
    width: usize,
    is_shown: bool,
}

/// A line of cells, and the lines below it.
#[derive(Drop)]
struct Cells {
    cells: Vec<Vec<u8>>,
    below: Vec<u8>,
}

/// A table as text.
#[derive(Drop)]
pub(crate) struct TextTable {
    alloc: Global,
    columns: Vec<Column>,
    rows: Vec<Cells>,
}

impl TextTable {
    /// Makes a table without lines.
    pub(crate) fn new(alloc: Global) -> TextTable {
        TextTable {
            alloc,
            columns: Vec::new(alloc),
            rows: Vec::new(alloc),
        }
    }

    /// Whether there is only the line of titles.
    pub(crate) fn has_only_titles(&self) -> bool {
        self.rows.len() <= 1
    }

    /// Begins a line.
    pub(crate) fn begin_line(&mut self) -> Result<(), AllocError> {
        let line = Cells {
            cells: Vec::new(self.alloc),
            below: Vec::new(self.alloc),
        };
        self.rows.push(line)?;
        Ok(())
    }

    /// Adds a cell to the last line. The cells of the first line are the titles.
    pub(crate) fn add_cell(&mut self, text: Vec<u8>, is_name: bool) -> Result<(), AllocError> {
        let is_first = self.rows.len() <= 1;
        let Some(line) = self.rows.last_mut() else {
            return Ok(());
        };
        let index = line.cells.len();
        let width = text.len();
        let is_counted = is_name && !text.is_empty()
            || !matches!(text.as_slice(), b"" | b"0" | b"-");
        line.cells.push(text)?;
        if is_first {
            self.columns.push(Column {
                is_name,
                width,
                is_shown: false,
            })?;
        } else if let Some(column) = self.columns.get_mut(index) {
            column.width = column.width.max(width);
            column.is_shown |= is_counted;
        }
        Ok(())
    }

    /// Adds a text below the last line.
    pub(crate) fn add_below(&mut self, text: &[u8]) -> Result<(), AllocError> {
        match self.rows.last_mut() {
            None => Ok(()),
            Some(line) => line.below.extend_from_slice(text),
        }
    }

    /// Appends the lines.
    pub(crate) fn put_lines(&self, text: &mut Vec<u8>) -> Result<(), AllocError> {
        for line in &self.rows {
            let start = text.len();
            for (column, cell) in self.columns.iter().zip(&line.cells) {
                if column.is_shown {
                    put_cell(text, column, cell, text.len() == start)?;
                }
            }
            trim_end_spaces(text);
            text.push(b'\n')?;
            text.extend_from_slice(&line.below)?;
        }
        Ok(())
    }
}

/// Appends a cell, with two spaces before it unless it is the first.
fn put_cell(
    text: &mut Vec<u8>,
    column: &Column,
    cell: &[u8],
    is_first: bool,
) -> Result<(), AllocError> {
    if !is_first {
        text.extend_from_slice(b"  ")?;
    }
    let spaces = column.width.saturating_sub(cell.len());
    if column.is_name {
        text.extend_from_slice(cell)?;
    }
    for _ in 0..spaces {
        text.push(b' ')?;
    }
    if column.is_name {
        return Ok(());
    }
    text.extend_from_slice(cell)
}

/// Takes away the spaces at the end.
fn trim_end_spaces(text: &mut Vec<u8>) {
    for _ in 0..text.len() {
        if text.last() != Some(&b' ') {
            break;
        }
        let _ = text.pop();
    }
}
