//! A table in memory: its cells stand row by row in one list.
#![tactic(auto)]

ghost use Rattle.std.specs.Prelude.{◌≡◌, ◌<◌, ◌^◌, [], ◌∷◌, ◌++◌, length, map, All, IfOk, OnOk, OnErr, slice_get, Some};

use std::alloc::{AllocError, Global};
use std::marker::Model;
use words::Column;

/// Columns and rows of words below 2^64, each row as long as the columns; seen as its columns and its list of rows.
#[derive(Debug, Drop)]
pub struct Table {
    columns: Vec<Column>,
    cells: Vec<u64>,
    count: usize,
}

impl Model for Table {
    ghost use Rattle.tables.specs.Content.{Content};

    ghost Value = { Content };

    ghost use Rattle.tables.specs.Table.{content_of, IsFilled};

    ghost view = { content_of };

    ghost invariant = { IsFilled };
}

impl Table {
    ghost use Rattle.tables.specs.Content.{with_row, HasWords, IsRectangular};

    /// A table with these columns and no row.
    pub fn new(alloc: Global, columns: Vec<Column>) -> Table
        ensures { result ≡ record { columns = columns.items; rows = [] } }
    {
        Table {
            columns,
            cells: Vec::new(alloc),
            count: 0,
        }
    }

    /// Adds a row behind the others; without memory the table stays as it was.
    pub fn push(&mut self, row: &[u64]) -> Result<(), AllocError>
        requires { length row.now ≡ length self.old.columns }
        ensures ok { OnOk result (self.new ≡ with_row self.old row.now) }
        ensures err { OnErr result (self.new ≡ self.old) }
    {
        let count = self.count.checked_add(1).ok_or(AllocError)?;
        push_words(&mut self.cells, row)?;
        self.count = count;
        Ok(())
    }

    /// The columns, in order.
    pub fn columns(&self) -> &Vec<Column>
        ensures columns { result.now.items ≡ self.now.columns }
        ensures rectangular { IsRectangular self.now }
    {
        &self.columns
    }

    /// How many rows there are.
    pub fn rows(&self) -> usize
        ensures count { result ≡ length self.now.rows }
        ensures rectangular { IsRectangular self.now }
        ensures words { HasWords self.now }
    {
        self.count
    }

    /// The words of a row, counted from 0.
    pub fn row(&self, index: usize) -> &[u64]
        requires { index < length self.now.rows }
        ensures words { slice_get self.now.rows index ≡ Some result.now }
        ensures width { length result.now ≡ length self.now.columns }
        ensures below { All (λ word. word < 2 ^ 64) result.now }
    {
        let width = self.columns.len();
        let (_, rest) = self.cells.as_slice().split_at(index * width);
        let (row, _) = rest.split_at(width);
        row
    }

    /// The rows in order, lent.
    pub fn lent_rows(&self, alloc: Global) -> Result<Vec<&[u64]>, AllocError>
        ensures rows { IfOk result (λ rows. map (λ row. row.now) rows.items ≡ self.now.rows) }
        ensures rectangular { IsRectangular self.now }
        ensures words { HasWords self.now }
    {
        let mut rows = Vec::with_capacity(alloc, self.rows())?;
        for index in 0..self.rows() {
            rows.push(self.row(index))?;
        }
        Ok(rows)
    }
}

// Adds a row's words behind the others; without memory it adds none.
fn push_words(cells: &mut Vec<u64>, row: &[u64]) -> Result<(), AllocError>
    ensures added { OnOk result (cells.new.items ≡ cells.old.items ++ row.now) }
    ensures words { OnOk result (All (λ word. word < 2 ^ 64) row.now) }
    ensures kept { OnErr result (cells.new.items ≡ cells.old.items) }
{
    cells.reserve(row.len())?;
    for word in row {
        cells.push_reserved(*word);
    }
    Ok(())
}
