ghost use Rattle.std.specs.Prelude.{◌≡◌, ◌||◌, ◌&&◌, ◌<◌, IfOk, OnOk, false, length};
ghost use Rattle.ot_model.specs.Cells.{same_fold};
ghost use Rattle.ot_model.specs.declared.fold.Fold.{Fold as Operation};
ghost use Rattle.ot_model.specs.declared.expr.Cell.{Cell};
ghost use Rattle.ot_check.specs.Offences.{has_cell, opened_by_any};
ghost use Rattle.ot_check.specs.walk.States.{is_open, sets_of};

use crate::cell_set::CellSet;
use crate::modes::number;
use ot_model::{Cell, Fold};
use std::alloc::{AllocError, Global};

/// The cells that the open groups of a body name, by the operations of the groups.
#[derive(Debug, Drop)]
pub(crate) struct Opened {
    /// For each operation, by its number, the cells of its groups.
    sets: Vec<CellSet>,
}

impl Opened {
    /// No cell at all. It takes no memory.
    pub(crate) fn new(alloc: Global) -> Opened
        ensures { (o : Operation) (c : Cell) → is_open result o c ≡ false }
    {
        Opened {
            sets: Vec::new(alloc),
        }
    }

    /// Whether a group by this operation names a cell.
    pub(crate) fn has(&self, op: Fold, cell: Cell) -> bool
        ensures { result ≡ is_open self.now op cell }
    {
        match self.sets.get(number(op)) {
            Some(set) => set.has(cell),
            None => false,
        }
    }

    /// Whether a group names a cell, whatever its operation.
    #[tactic(auto, unfolding(crate::specs::Offences::opened_by_any))]
    pub(crate) fn has_any(&self, cell: Cell) -> bool
        ensures { result ≡ opened_by_any (is_open self.now) cell }
    {
        if self.has(Fold::Plus, cell) {
            return true;
        }
        if self.has(Fold::Times, cell) {
            return true;
        }
        if self.has(Fold::And, cell) {
            return true;
        }
        if self.has(Fold::Or, cell) {
            return true;
        }
        if self.has(Fold::Xor, cell) {
            return true;
        }
        if self.has(Fold::Min, cell) {
            return true;
        }
        self.has(Fold::Max, cell)
    }

    /// Makes a set for an operation, by its number.
    fn reach(&mut self, alloc: Global, number: usize) -> Result<(), AllocError>
        requires { number < 7 }
        ensures same { (o : Operation) (c : Cell) → is_open self.new o c ≡ is_open self.old o c }
        ensures there { OnOk result (number < length self.new.sets.items) }
    {
        for _ in self.sets.len()..number + 1 {
            self.sets.push(CellSet::new(alloc))?;
        }
        Ok(())
    }

    /// Puts the cells of a group by this operation among them.
    pub(crate) fn enter(
        &mut self,
        alloc: Global,
        op: Fold,
        cells: &[Cell],
    ) -> Result<(), AllocError>
        ensures { OnOk result ((o : Operation) (c : Cell) → is_open self.new o c ≡ (is_open self.old o c || (same_fold op o && has_cell cells.now c))) }
    {
        let place = number(op);
        self.reach(alloc, place)?;
        self.sets[place].enter(alloc, cells)
    }

    /// The same cells once more.
    pub(crate) fn copy(&self, alloc: Global) -> Result<Opened, AllocError>
        ensures { IfOk result (λ copied. sets_of copied ≡ sets_of self.now) }
    {
        let mut sets = Vec::with_capacity(alloc, self.sets.len())?;
        for set in &self.sets {
            sets.push(set.copy(alloc)?)?;
        }
        Ok(Opened { sets })
    }
}
