//! The touches of all cells.
ghost use Rattle.std.specs.Prelude.{◌≡◌, ◌≢◌, ◌<◌, IfOk, OnOk, length, get_or, [], ℕ};
ghost use Rattle.ot_model.specs.declared.expr.Cell.{Cell};
ghost use Rattle.ot_race_locks.specs.Kinds.{kind, kind_row, groups_at, KindFits};

use crate::group::Group;
use crate::line::Line;
use ot_model::{Cell, Mode};
use ot_sets::Numbers;
use std::alloc::{AllocError, Global};

/// Those of the first cells of an array.
#[derive(Debug, Drop)]
pub(crate) struct Row {
    lines: Vec<Line>,
}

/// Those of the first arrays.
#[derive(Debug, Drop)]
pub(crate) struct Kept {
    rows: Vec<Row>,
}

impl Kept {
    /// No touch at all. It takes no memory.
    pub(crate) fn new(alloc: Global) -> Kept
        ensures { (c : Cell) → groups_at result.rows.items c ≡ [] }
    {
        Kept {
            rows: Vec::new(alloc),
        }
    }

    /// The touches of a cell.
    pub(crate) fn of(&self, cell: Cell) -> &[Group]
        ensures { result.now ≡ groups_at self.now.rows.items cell }
    {
        match self.rows.get(cell.array as usize) {
            Some(row) => row.of(cell.index),
            None => &[],
        }
    }

    /// One touch more, where it is of no kind that is one too many.
    pub(crate) fn add(
        &mut self,
        alloc: Global,
        cell: Cell,
        set: u32,
        mode: Mode,
        number: u32,
        known: &Numbers,
    ) -> Result<bool, AllocError>
        ensures there { IfOk result (KindFits (kind set mode) number known.now (groups_at self.old.rows.items cell) (groups_at self.new.rows.items cell)) }
        ensures others { OnOk result ((c : Cell) → c ≢ cell → groups_at self.new.rows.items c ≡ groups_at self.old.rows.items c) }
    {
        self.reach(alloc, cell.array)?;
        self.rows[cell.array as usize].add(alloc, cell.index, set, mode, number, known)
    }

    /// Makes a row for the array.
    fn reach(&mut self, alloc: Global, array: u32) -> Result<(), AllocError>
        ensures same { (c : Cell) → groups_at self.new.rows.items c ≡ groups_at self.old.rows.items c }
        ensures there { OnOk result (array < length self.new.rows.items) }
    {
        for _ in self.rows.len()..array as usize + 1 {
            self.rows.push(Row {
                lines: Vec::new(alloc),
            })?;
        }
        Ok(())
    }
}

impl Row {
    fn of(&self, index: u32) -> &[Group]
        ensures { result.now ≡ get_or (kind_row self.now) index [] }
    {
        match self.lines.get(index as usize) {
            Some(line) => &line.groups,
            None => &[],
        }
    }

    fn add(
        &mut self,
        alloc: Global,
        index: u32,
        set: u32,
        mode: Mode,
        number: u32,
        known: &Numbers,
    ) -> Result<bool, AllocError>
        ensures there { IfOk result (KindFits (kind set mode) number known.now (get_or (kind_row self.old) index []) (get_or (kind_row self.new) index [])) }
        ensures others { OnOk result ((i : ℕ) → i ≢ index → get_or (kind_row self.new) i [] ≡ get_or (kind_row self.old) i []) }
    {
        self.reach(alloc, index)?;
        self.lines[index as usize].add(alloc, set, mode, number, known)
    }

    /// Makes a line for the cell.
    fn reach(&mut self, alloc: Global, index: u32) -> Result<(), AllocError>
        ensures same { (i : ℕ) → get_or (kind_row self.new) i [] ≡ get_or (kind_row self.old) i [] }
        ensures there { OnOk result (index < length self.new.lines.items) }
    {
        for _ in self.lines.len()..index as usize + 1 {
            self.lines.push(Line::new(alloc))?;
        }
        Ok(())
    }
}
