//! The touches of all cells.
ghost use Rattle.std.specs.Prelude.{◌≡◌, ◌≢◌, ◌<◌, ◌++◌, ◌∷◌, OnOk, length, get_or, [], ℕ};
ghost use Rattle.ot_model.specs.declared.expr.Cell.{Cell};
ghost use Rattle.ot_race_all.specs.Found.{row_of_touches, touches_of, touches_at};

use ot_model::{Cell, Mode};
use std::alloc::{AllocError, Global};

/// An event touched a cell in this mode.
#[derive(Clone, Copy, Debug)]
pub(crate) struct Touch {
    pub(crate) mode: Mode,
    pub(crate) number: u32,
}

/// The touches of a cell.
#[derive(Debug, Drop)]
pub(crate) struct Touches {
    touches: Vec<Touch>,
}

/// Those of the first cells of an array.
#[derive(Debug, Drop)]
pub(crate) struct Row {
    cells: Vec<Touches>,
}

/// Those of the first arrays.
#[derive(Debug, Drop)]
pub(crate) struct Touched {
    rows: Vec<Row>,
}

impl Touched {
    /// No touch at all. It takes no memory.
    pub(crate) fn new(alloc: Global) -> Touched
        ensures { (c : Cell) → touches_at result.rows.items c ≡ [] }
    {
        Touched {
            rows: Vec::new(alloc),
        }
    }

    /// The touches of a cell.
    pub(crate) fn of(&self, cell: Cell) -> &[Touch]
        ensures { result.now ≡ touches_at self.now.rows.items cell }
    {
        match self.rows.get(cell.array as usize) {
            Some(row) => row.of(cell.index),
            None => &[],
        }
    }

    /// One touch more.
    pub(crate) fn add(&mut self, alloc: Global, cell: Cell, touch: Touch) -> Result<(), AllocError>
        ensures there { OnOk result (touches_at self.new.rows.items cell ≡ touches_at self.old.rows.items cell ++ touch ∷ []) }
        ensures others { OnOk result ((c : Cell) → c ≢ cell → touches_at self.new.rows.items c ≡ touches_at self.old.rows.items c) }
    {
        self.reach(alloc, cell.array)?;
        self.rows[cell.array as usize].add(alloc, cell.index, touch)
    }

    /// Makes a row for the array.
    fn reach(&mut self, alloc: Global, array: u32) -> Result<(), AllocError>
        ensures same { (c : Cell) → touches_at self.new.rows.items c ≡ touches_at self.old.rows.items c }
        ensures there { OnOk result (array < length self.new.rows.items) }
    {
        for _ in self.rows.len()..array as usize + 1 {
            self.rows.push(Row {
                cells: Vec::new(alloc),
            })?;
        }
        Ok(())
    }
}

impl Row {
    fn of(&self, index: u32) -> &[Touch]
        ensures { result.now ≡ get_or (row_of_touches self.now) index [] }
    {
        match self.cells.get(index as usize) {
            Some(cell) => &cell.touches,
            None => &[],
        }
    }

    fn add(&mut self, alloc: Global, index: u32, touch: Touch) -> Result<(), AllocError>
        ensures there { OnOk result (get_or (row_of_touches self.new) index [] ≡ get_or (row_of_touches self.old) index [] ++ touch ∷ []) }
        ensures others { OnOk result ((i : ℕ) → i ≢ index → get_or (row_of_touches self.new) i [] ≡ get_or (row_of_touches self.old) i []) }
    {
        self.reach(alloc, index)?;
        self.cells[index as usize].add(touch)
    }

    /// Makes a place for the cell.
    fn reach(&mut self, alloc: Global, index: u32) -> Result<(), AllocError>
        ensures same { (i : ℕ) → get_or (row_of_touches self.new) i [] ≡ get_or (row_of_touches self.old) i [] }
        ensures there { OnOk result (index < length self.new.cells.items) }
    {
        for _ in self.cells.len()..index as usize + 1 {
            self.cells.push(Touches {
                touches: Vec::new(alloc),
            })?;
        }
        Ok(())
    }
}

impl Touches {
    fn add(&mut self, touch: Touch) -> Result<(), AllocError>
        ensures { OnOk result (touches_of self.new ≡ touches_of self.old ++ touch ∷ []) }
    {
        self.touches.push(touch)?;
        Ok(())
    }
}
