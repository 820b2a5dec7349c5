ghost use Rattle.std.specs.Prelude.{◌≡◌, IfOk, map, ◌≢◌, IsSome, Some};
ghost use Rattle.ot_check.specs.walk.Rows.{widths, found_at, rows_filled};

use ot_model::{ArrayShape, Cell};
use std::alloc::{AllocError, Global};
use std::marker::Model;

/// A number for each cell of a shape.
#[derive(Debug, Drop)]
pub(crate) struct Table {
    rows: Vec<Vec<usize>>,
}

impl Model for Table {
    ghost use Rattle.std.specs.Prelude.{List, ℕ, map};

    ghost Value = { List (List ℕ) };

    ghost view = { λ t. map (λ row. row.items) t.rows.items };
}

impl Table {
    ghost use Rattle.ot_model.specs.Programs.{arrays_of};
    ghost use Rattle.ot_model.specs.declared.expr.Cell.{Cell};

    /// 0 for each cell of these arrays.
    pub(crate) fn new(alloc: Global, arrays: &[ArrayShape]) -> Result<Table, AllocError>
        ensures { IfOk result (λ table. table ≡ rows_filled 0 (map (λ a. a.1) (arrays_of arrays.now))) }
    {
        let mut rows = Vec::with_capacity(alloc, arrays.len())?;
        for array in arrays {
            rows.push(vec![in alloc; 0; array.len as usize]?)?;
        }
        Ok(Table { rows })
    }

    /// The number of a cell that is there.
    pub(crate) fn at(&self, cell: Cell) -> usize
        requires { IsSome (found_at self.now cell) }
        ensures { found_at self.now cell ≡ Some result }
    {
        let row = &self.rows[cell.array as usize];
        row[cell.index as usize]
    }

    /// Gives a cell that is there a number.
    pub(crate) fn set(&mut self, cell: Cell, number: usize)
        requires { IsSome (found_at self.old cell) }
        ensures widths { widths self.new ≡ widths self.old }
        ensures there { found_at self.new cell ≡ Some number }
        ensures others { (other : Cell) → cell ≢ other → found_at self.new other ≡ found_at self.old other }
    {
        let row = &mut self.rows[cell.array as usize];
        row[cell.index as usize] = number;
    }
}
