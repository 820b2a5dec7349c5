//! A number for each of some cells.
use ot_model::Cell;
use std::alloc::{AllocError, Global};

/// The numbers of cells, by array and index.
#[derive(Drop)]
pub(crate) struct Places {
    rows: Vec<Vec<Option<usize>>>,
}

impl Places {
    /// No cell has a number. It takes no memory.
    pub(crate) fn new(alloc: Global) -> Places {
        Places {
            rows: Vec::new(alloc),
        }
    }

    /// The number of a cell, where it has one.
    pub(crate) fn of(&self, cell: Cell) -> Option<usize> {
        let row = self.rows.get(cell.array as usize)?;
        row.get(cell.index as usize).copied().flatten()
    }

    /// From now on the cell has this number.
    pub(crate) fn set(
        &mut self,
        alloc: Global,
        cell: Cell,
        number: usize,
    ) -> Result<(), AllocError> {
        let array = cell.array as usize;
        for _ in self.rows.len()..array + 1 {
            self.rows.push(Vec::new(alloc))?;
        }
        if let Some(row) = self.rows.get_mut(array) {
            put(row, cell.index, number)?;
        }
        Ok(())
    }
}

/// Puts a number at an index of a row, which grows up to there.
fn put(row: &mut Vec<Option<usize>>, index: u32, number: usize) -> Result<(), AllocError> {
    let index = index as usize;
    if row.len() <= index {
        row.resize(index + 1, None)?;
    }
    if let Some(place) = row.get_mut(index) {
        *place = Some(number);
    }
    Ok(())
}
