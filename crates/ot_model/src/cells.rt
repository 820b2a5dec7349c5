ghost use Rattle.ot_model.specs.Cells.{cell_of, with_cell, lengths};

use crate::expr::{Cell, Look};
use std::alloc::{AllocError, Global};
use std::marker::Model;

/// The numbers of all cells: a list for each array of the shape.
#[derive(Debug, Drop)]
pub struct Cells {
    arrays: Vec<Vec<u64>>,
}

impl Model for Cells {
    ghost use Rattle.std.specs.Prelude.{ℕ, List, map};

    ghost Value = { List (List ℕ) };

    ghost view = { λ c. map (λ a. a.items) c.arrays.items };
}

impl Cells {
    ghost use Rattle.std.specs.Prelude.{◌≡◌, ◌≢◌, map, IsSome, IfOk, Some};
    ghost use Rattle.ot_model.specs.declared.expr.Cell.{Cell};

    /// The cells of these arrays. It takes no memory.
    pub fn new(arrays: Vec<Vec<u64>>) -> Cells
        ensures { result ≡ map (λ a. a.items) arrays.items }
    {
        Cells { arrays }
    }

    /// The arrays themselves. It takes no memory.
    pub fn into_arrays(self) -> Vec<Vec<u64>>
        ensures { map (λ a. a.items) result.items ≡ self }
    {
        let Cells { arrays } = self;
        arrays
    }

    /// The arrays in order of the shape.
    pub fn arrays(&self) -> &[Vec<u64>]
        ensures { map (λ a. a.items) result.now ≡ self.now }
    {
        self.arrays.as_slice()
    }

    /// The same cells once more.
    pub fn copy(&self, alloc: Global) -> Result<Cells, AllocError>
        ensures { IfOk result (λ copied. copied ≡ self.now) }
    {
        let mut arrays = Vec::with_capacity(alloc, self.arrays.len())?;
        for array in &self.arrays {
            arrays.push(array.as_slice().to_vec(alloc)?)?;
        }
        Ok(Cells { arrays })
    }

    /// Writes `number` to a cell that is there.
    pub fn set(&mut self, cell: Cell, number: u64)
        requires { IsSome (cell_of self.old cell) }
        ensures written { self.new ≡ with_cell self.old cell (λ _. number) }
        ensures kept { lengths self.new ≡ lengths self.old }
        ensures found { cell_of self.new cell ≡ Some number }
        ensures others { (other : Cell) → cell ≢ other → cell_of self.new other ≡ cell_of self.old other }
    {
        let array = &mut self.arrays[cell.array as usize];
        array[cell.index as usize] = number;
    }
}

impl Look for Cells {
    ghost found = { cell_of };

    fn at(&self, cell: Cell) -> u64 {
        let array = &self.arrays[cell.array as usize];
        array[cell.index as usize]
    }
}
