ghost use Rattle.std.specs.Prelude.{◌≡◌, ◌≤◌, [], IfOk, vec_capacity};

use crate::lent::LentCell;
use std::alloc::{AllocError, Global};
use std::marker::Model;
use std::mem;

/// No memory of a lease of more cells than so many is kept.
const MOST: usize = 1024;

/// The memory of a lease that ended, for one to come: a list for the values that cells are lent with, and
/// one for the cells. It has no value and no cell of the lease that ended.
#[derive(Debug, Drop)]
pub(crate) struct Spare {
    firsts: Vec<u64>,
    cells: Vec<LentCell>,
}

impl Model for Spare {
    ghost use Rattle.std.specs.Prelude.{◌≡◌, ◌≤◌, ⊤, [], vec_capacity};

    ghost Value = { ⊤ };

    ghost view = { λ _. tt };

    ghost invariant = { λ s. (s.firsts.items ≡ []) × (s.cells.items ≡ []) × (vec_capacity s.firsts ≤ 1024) × (vec_capacity s.cells ≤ 1024) };
}

impl Spare {
    /// No lease has ended. It takes no memory.
    pub(crate) fn new(alloc: Global) -> Spare {
        Spare {
            firsts: Vec::new(alloc),
            cells: Vec::new(alloc),
        }
    }

    /// Empty lists for the first values and for the cells of a lease of so many: what is kept, where there
    /// is room for them, and new ones elsewhere.
    pub(crate) fn take(
        &mut self,
        alloc: Global,
        len: usize,
    ) -> Result<(Vec<u64>, Vec<LentCell>), AllocError>
        ensures firsts { IfOk result (λ lists. (lists.0.items ≡ []) × (len ≤ vec_capacity lists.0)) }
        ensures cells { IfOk result (λ lists. (lists.1.items ≡ []) × (len ≤ vec_capacity lists.1)) }
    {
        if self.firsts.capacity() < len || self.cells.capacity() < len {
            let firsts = Vec::with_capacity(alloc, len)?;
            let cells = Vec::with_capacity(alloc, len)?;
            return Ok((firsts, cells));
        }
        let firsts = mem::replace(&mut self.firsts, Vec::new(alloc));
        let cells = mem::replace(&mut self.cells, Vec::new(alloc));
        Ok((firsts, cells))
    }

    /// Keeps the memory of a lease that ended, where it has more room than what is kept, and not too much.
    /// What isn't kept is freed. It takes no memory.
    pub(crate) fn keep(&mut self, mut firsts: Vec<u64>, mut cells: Vec<LentCell>) {
        let is_small = firsts.capacity() <= MOST && cells.capacity() <= MOST;
        if is_small && self.cells.capacity() < cells.capacity() {
            firsts.clear();
            cells.clear();
            self.firsts = firsts;
            self.cells = cells;
        }
    }
}
