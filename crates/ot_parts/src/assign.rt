ghost use Rattle.std.specs.Prelude.{◌≡◌, IfOk};
ghost use Rattle.ot_parts.specs.Assigns.{assign_of};

use ot_model::{Cell, Expr, Fold};
use std::alloc::{AllocError, Global};

/// A set or a fold.
#[derive(Debug, Drop)]
pub enum Assign {
    /// Writes the value to the cell.
    Set(Cell, Expr),
    /// Joins the cell with the value by the operation.
    Fold(Fold, Cell, Expr),
}

impl Assign {
    /// The same set or fold once more.
    pub(crate) fn copy(&self, alloc: Global) -> Result<Assign, AllocError>
        ensures { IfOk result (λ copied. assign_of copied ≡ assign_of self.now) }
    {
        match self {
            Assign::Set(cell, value) => Ok(Assign::Set(*cell, value.copy(alloc)?)),
            Assign::Fold(op, cell, value) => Ok(Assign::Fold(*op, *cell, value.copy(alloc)?)),
        }
    }
}
