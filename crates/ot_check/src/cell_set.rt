ghost use Rattle.std.specs.Prelude.{◌≡◌, ◌||◌, ◌<◌, IfOk, OnOk, false, length};
ghost use Rattle.ot_check.specs.walk.States.{holds, rows_of};
ghost use Rattle.ot_check.specs.Offences.{has_cell};
ghost use Rattle.ot_model.specs.Cells.{same_cell};
ghost use Rattle.ot_model.specs.declared.expr.Cell.{Cell};

use ot_model::Cell;
use ot_sets::Numbers;
use std::alloc::{AllocError, Global};

/// A set of cells.
#[derive(Debug, Drop)]
pub(crate) struct CellSet {
    /// For each array the indices of its cells.
    rows: Vec<Numbers>,
}

impl CellSet {
    /// No cell at all. It takes no memory.
    pub(crate) fn new(alloc: Global) -> CellSet
        ensures { (c : Cell) → holds result c ≡ false }
    {
        CellSet {
            rows: Vec::new(alloc),
        }
    }

    /// Whether a cell is among them.
    pub(crate) fn has(&self, cell: Cell) -> bool
        ensures { result ≡ holds self.now cell }
    {
        match self.rows.get(cell.array as usize) {
            Some(row) => row.has(cell.index as usize),
            None => false,
        }
    }

    /// Puts a cell among them.
    fn insert(&mut self, alloc: Global, cell: Cell) -> Result<(), AllocError>
        ensures { OnOk result ((c : Cell) → holds self.new c ≡ (holds self.old c || same_cell cell c)) }
    {
        self.reach(alloc, cell.array)?;
        self.rows[cell.array as usize].insert(cell.index as usize)
    }

    /// Makes a row for the array.
    fn reach(&mut self, alloc: Global, array: u32) -> Result<(), AllocError>
        ensures same { (c : Cell) → holds self.new c ≡ holds self.old c }
        ensures there { OnOk result (array < length self.new.rows.items) }
    {
        for _ in self.rows.len()..array as usize + 1 {
            self.rows.push(Numbers::new(alloc))?;
        }
        Ok(())
    }

    /// Puts several cells among them.
    pub(crate) fn enter(&mut self, alloc: Global, cells: &[Cell]) -> Result<(), AllocError>
        ensures { OnOk result ((c : Cell) → holds self.new c ≡ (holds self.old c || has_cell cells.now c)) }
    {
        for cell in cells {
            self.insert(alloc, *cell)?;
        }
        Ok(())
    }

    /// The same cells once more.
    pub(crate) fn copy(&self, alloc: Global) -> Result<CellSet, AllocError>
        ensures { IfOk result (λ copied. rows_of copied ≡ rows_of self.now) }
    {
        let mut rows = Vec::with_capacity(alloc, self.rows.len())?;
        for row in &self.rows {
            rows.push(row.copy(alloc)?)?;
        }
        Ok(CellSet { rows })
    }
}
