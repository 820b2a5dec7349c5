//! The histories of all cells that were touched.
ghost use Rattle.std.specs.Prelude.{◌≡◌, ◌≢◌, ◌<◌, OnOk, length, get_or, [], ℕ};
ghost use Rattle.ot_model.specs.declared.expr.Cell.{Cell};
ghost use Rattle.ot_race.specs.Missing.{IsMissing};
ghost use Rattle.ot_race.specs.Histories.{row_of, phases_at, behind_of, HasThose, IsTouched, no_phases};

use crate::history::History;
use ot_model::{Cell, Mode};
use ot_sets::Numbers;
use std::alloc::{AllocError, Global};

/// The histories of the first cells of an array.
#[derive(Debug, Drop)]
pub(crate) struct Row {
    histories: Vec<History>,
}

/// The histories of the first arrays.
#[derive(Debug, Drop)]
pub(crate) struct Histories {
    rows: Vec<Row>,
}

impl Histories {
    /// No history at all. It takes no memory.
    pub(crate) fn new(alloc: Global) -> Histories
        ensures { (c : Cell) → phases_at result.rows.items c ≡ phases_at [] c }
    {
        Histories {
            rows: Vec::new(alloc),
        }
    }

    /// An earlier event that touched the cell, conflicts with this mode and isn't in the set.
    pub(crate) fn racing(&self, cell: Cell, mode: Mode, known: &Numbers) -> Option<u32>
        requires { HasThose (phases_at self.now.rows.items cell) mode known.now }
        ensures { IsMissing (behind_of (phases_at self.now.rows.items cell) mode) known.now result }
    {
        let row = self.rows.get(cell.array as usize)?;
        let history = row.histories.get(cell.index as usize)?;
        history.racing(mode, known)
    }

    /// A touch by an event that comes behind all that it conflicts with, and behind these.
    pub(crate) fn add(
        &mut self,
        alloc: Global,
        cell: Cell,
        mode: Mode,
        event: u32,
        known: &Numbers,
    ) -> Result<(), AllocError>
        ensures there { OnOk result (IsTouched (phases_at self.old.rows.items cell) mode event known.now (phases_at self.new.rows.items cell)) }
        ensures others { OnOk result ((c : Cell) → c ≢ cell → phases_at self.new.rows.items c ≡ phases_at self.old.rows.items c) }
    {
        self.reach(alloc, cell.array)?;
        self.rows[cell.array as usize].add(alloc, cell.index, mode, event, known)
    }

    /// Makes a row for the array.
    fn reach(&mut self, alloc: Global, array: u32) -> Result<(), AllocError>
        ensures same { (c : Cell) → phases_at self.new.rows.items c ≡ phases_at self.old.rows.items c }
        ensures there { OnOk result (array < length self.new.rows.items) }
    {
        for _ in self.rows.len()..array as usize + 1 {
            self.rows.push(Row {
                histories: Vec::new(alloc),
            })?;
        }
        Ok(())
    }
}

impl Row {
    fn add(
        &mut self,
        alloc: Global,
        index: u32,
        mode: Mode,
        event: u32,
        known: &Numbers,
    ) -> Result<(), AllocError>
        ensures there { OnOk result (IsTouched (get_or (row_of self.old) index no_phases) mode event known.now (get_or (row_of self.new) index no_phases)) }
        ensures others { OnOk result ((i : ℕ) → i ≢ index → get_or (row_of self.new) i no_phases ≡ get_or (row_of self.old) i no_phases) }
    {
        self.reach(alloc, index)?;
        self.histories[index as usize].add(mode, event, known)
    }

    /// Makes a history for the cell.
    fn reach(&mut self, alloc: Global, index: u32) -> Result<(), AllocError>
        ensures same { (i : ℕ) → get_or (row_of self.new) i no_phases ≡ get_or (row_of self.old) i no_phases }
        ensures there { OnOk result (index < length self.new.histories.items) }
    {
        for _ in self.histories.len()..index as usize + 1 {
            self.histories.push(History::new(alloc))?;
        }
        Ok(())
    }
}
