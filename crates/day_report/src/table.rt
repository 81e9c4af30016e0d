ghost use Rattle.std.specs.Prelude.{◌≡◌, ◌<◌, ◌+◌, ◌*◌, ◌^◌, length, slice_set, IfOk};
ghost use Rattle.day_report.specs.Table as table;
ghost use Rattle.day_report.specs.Table.{sum_at, IsTable};

use fx_amounts::Memory;
use std::alloc::Global;

/// Sums by rows and columns, each below 2^128.
#[derive(Debug, Drop)]
pub struct Table {
    columns: usize,
    /// Row by row.
    cells: Vec<u128>,
}

impl Table {
    /// Sums of nothing. `Memory` when out of memory.
    pub fn open(alloc: Global, rows: usize, columns: usize) -> Result<Table, Memory>
        requires cells { rows * columns < 2 ^ 64 }
        ensures value { IfOk result (IsTable rows columns (λ _ _. 0)) }
    {
        Ok(Table {
            columns,
            cells: vec![in alloc; 0; rows * columns]?,
        })
    }

    /// The sum of a row and a column.
    pub fn at(&self, row: usize, column: usize) -> u128
        requires { table.place self.now.columns row column < length self.now.cells.items }
        ensures { result ≡ sum_at self.now row column }
    {
        self.cells[row * self.columns + column]
    }

    /// Adds to the sum of a row and a column.
    pub fn add(&mut self, row: usize, column: usize, amount: u128)
        requires within { table.place self.old.columns row column < length self.old.cells.items }
        requires room { sum_at self.old row column + amount < 2 ^ 128 }
        ensures columns { self.new.columns ≡ self.old.columns }
        ensures cells { self.new.cells.items ≡ slice_set self.old.cells.items (table.place self.old.columns row column) (sum_at self.old row column + amount) }
    {
        self.cells[row * self.columns + column] += amount;
    }
}
