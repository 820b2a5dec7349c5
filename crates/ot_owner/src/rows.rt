//! The private copies that workers keep of the cells of an open group.
ghost use Rattle.std.specs.Prelude.{◌≡◌, ℕ, IsSome, OnOk, All, length, position, option_map, true, ◌<◌, false, if◌then◌else◌, is_some, Some};
ghost use Rattle.ot_model.specs.Cells.{cell_of, lengths, updated, is_before, AreInOrder, is_fold};
ghost use Rattle.ot_model.specs.Joining.{join_by};
ghost use Rattle.ot_model.specs.declared.expr.Cell.{Cell};
ghost use Rattle.ot_owner.specs.Owning.{is_of, copy_in, copies_at, copies_where, begun_row, place_in, folds_in, row_in, folded_in, begun_in, copies_in};
ghost use Rattle.ot_owner.specs.Kept.{row_of, rows_of, summed_of, made_of};
ghost use Rattle.ot_owner.specs.Worth.{combined_by, copies_combined};

use ot_model::fold::{Conjunction, Disjunction, Maximum, Minimum, Parity, Product, Sum};
use ot_model::{Cell, Cells, Decl, Fold, Look, Mode, Monoid, Use};
use std::alloc::AllocError;

/// A worker's copies of the cells that a group names, one for each. It is kept before it begins, so that
/// it takes no memory when it does: until then its numbers mean nothing.
#[derive(Debug, Drop)]
pub(crate) struct Row {
    pub(crate) begun: bool,
    pub(crate) copies: Vec<u64>,
}

impl Row {
    /// The copy at a place.
    fn copy(&self, place: usize) -> Option<u64>
        ensures { result ≡ copy_in place (row_of self.now) }
    {
        if self.begun && place < self.copies.len() {
            return Some(self.copies[place]);
        }
        None
    }

    /// Makes it as long as it is to be when it begins. One that has begun is so long.
    fn make(&mut self, len: usize) -> Result<(), AllocError>
        requires { self.old.begun ≡ true → length self.old.copies.items ≡ len }
        ensures same { row_of self.new ≡ row_of self.old }
        ensures made { OnOk result (length self.new.copies.items ≡ len) }
    {
        if self.begun {
            return Ok(());
        }
        self.copies.resize(len, 0)
    }

    /// Begins at the unit of the operation, where it has not begun.
    fn begin(&mut self, op: Fold)
        ensures begun { row_of self.new ≡ begun_row op (length self.old.copies.items) (row_of self.old) }
        ensures long { length self.new.copies.items ≡ length self.old.copies.items }
    {
        if !self.begun {
            self.copies.fill(op.unit());
            self.begun = true;
        }
    }

    /// Folds a number into the copy at a place, by the operation.
    fn fold(&mut self, op: Fold, place: usize, number: u64)
        requires { IsSome (copy_in place (row_of self.old)) }
        ensures folded { row_of self.new ≡ option_map (λ copies. updated copies place (λ copy. join_by op copy number)) (row_of self.old) }
        ensures long { length self.new.copies.items ≡ length self.old.copies.items }
    {
        let copy = self.copies[place];
        self.copies[place] = op.join(copy, number);
    }
}

/// The number combined with all copies at a place.
fn total<M: Monoid>(monoid: &M, rows: &[Row], place: usize, stored: u64) -> u64
    ensures { result ≡ combined_by (M.join_is monoid.now) stored (copies_at (rows_of rows.now) place) }
{
    let mut total = stored;
    for row in rows {
        if let Some(copy) = row.copy(place) {
            total = monoid.join(total, copy);
        }
    }
    total
}

/// Combines each of these cells with all copies at its place. What joins them is chosen by its type, so
/// that no cell asks for the operation.
fn combine_all<M: Monoid>(monoid: &M, cells: &mut Cells, uses: &[Use], rows: &[Row])
    requires ordered { AreInOrder uses.now }
    requires there { All (λ u. IsSome (cell_of cells.old u.cell)) uses.now }
    ensures combined { (cell : Cell) → cell_of cells.new cell ≡ option_map (λ stored. combined_by (M.join_is monoid.now) stored (copies_where (rows_of rows.now) (position (is_of cell) uses.now))) (cell_of cells.old cell) }
    ensures lengths { lengths cells.new ≡ lengths cells.old }
{
    for place in 0..uses.len() {
        let cell = uses[place].cell;
        let stored = cells.at(cell);
        cells.set(cell, total(monoid, rows, place, stored));
    }
}

/// An open group: its operation, the cells that it names, each to be written, and the row of each worker.
/// No worker has the number 0.
#[derive(Debug, Drop)]
pub(crate) struct Group {
    pub(crate) group: u32,
    pub(crate) op: Fold,
    pub(crate) decl: Decl,
    pub(crate) rows: Vec<Row>,
}

impl Group {
    ghost use Rattle.std.specs.List.Sorted.{IsPartitionPoint};
    ghost use Rattle.ot_owner.specs.Keeping.{HasRow, IsRegular};

    /// How many cells that it names come before this one. It halves the list.
    fn before(&self, cell: Cell) -> usize
        ensures { IsPartitionPoint (λ u. is_before u.cell cell ≡ true) (λ u. is_before u.cell cell ≡ false) self.now.decl result }
    {
        self.decl
            .uses()
            .partition_point(|used| used.cell.is_before(cell))
    }

    /// The place of a cell that it names.
    pub(crate) fn place(&self, cell: Cell) -> Option<usize>
        ensures { result ≡ place_in self.now.decl cell }
    {
        let place = self.before(cell);
        let uses = self.decl.uses();
        if place < uses.len() && uses[place].cell == cell {
            return Some(place);
        }
        None
    }

    /// Whether the use folds values into a cell that it names.
    fn is_folded_into(&self, used: Use) -> bool
        ensures { result ≡ (if is_fold used.mode then is_some (place_in self.now.decl used.cell) else false) }
    {
        matches!(used.mode, Mode::Folds(_)) && self.place(used.cell).is_some()
    }

    /// Whether one of these uses folds values into a cell that it names.
    fn meets(&self, uses: &[Use]) -> bool
        ensures { result ≡ folds_in self.now.decl uses.now }
    {
        uses.iter().any(|used| self.is_folded_into(*used))
    }

    /// The copy of a worker at a place.
    pub(crate) fn copy(&self, worker: usize, place: usize) -> Option<u64>
        ensures { result ≡ copy_in place (row_in (summed_of self.now).rows worker) }
    {
        if worker < self.rows.len() {
            return self.rows[worker].copy(place);
        }
        None
    }

    /// The number combined with all copies of a cell.
    pub(crate) fn worth(&self, cell: Cell, stored: u64) -> u64
        ensures { result ≡ copies_combined self.now.op stored (copies_in cell (summed_of self.now)) }
    {
        match self.place(cell) {
            Some(place) => total(&self.op, &self.rows, place, stored),
            None => stored,
        }
    }

    /// Folds a number into a worker's copy at a place, by its operation.
    pub(crate) fn fold(&mut self, worker: usize, place: usize, number: u64)
        requires { IsSome (copy_in place (row_in (summed_of self.old).rows worker)) }
        ensures folded { summed_of self.new ≡ folded_in worker number (summed_of self.old) (Some place) }
        ensures made { made_of self.new ≡ made_of self.old }
    {
        self.rows[worker].fold(self.op, place, number);
    }

    /// Makes the row of a worker, which does not begin by it.
    fn make_row(&mut self, worker: usize) -> Result<(), AllocError>
        requires known { worker < 17 }
        requires regular { IsRegular (summed_of self.old) }
        ensures same { summed_of self.new ≡ summed_of self.old }
        ensures made { OnOk result (HasRow worker (made_of self.new)) }
    {
        let len = self.decl.uses().len();
        self.rows[worker].make(len)
    }

    /// Begins the row of a worker, where it has not begun. It is to be made.
    fn begin_row(&mut self, worker: usize)
        requires { HasRow worker (made_of self.old) }
        ensures begun { summed_of self.new ≡ begun_in worker (summed_of self.old) }
        ensures made { made_of self.new ≡ made_of self.old }
    {
        self.rows[worker].begin(self.op);
    }

    /// Makes the row of a worker, where one of these uses folds values into a cell that it names.
    pub(crate) fn make_for(&mut self, uses: &[Use], worker: usize) -> Result<(), AllocError>
        requires known { worker < 17 }
        requires regular { IsRegular (summed_of self.old) }
        ensures same { summed_of self.new ≡ summed_of self.old }
        ensures made { OnOk result (folds_in self.new.decl uses.now ≡ true → HasRow worker (made_of self.new)) }
    {
        if !self.meets(uses) {
            return Ok(());
        }
        self.make_row(worker)
    }

    /// Begins the row of a worker, where one of these uses folds values into a cell that it names. It is to be
    /// made.
    pub(crate) fn begin_for(&mut self, uses: &[Use], worker: usize)
        requires { folds_in self.old.decl uses.now ≡ true → HasRow worker (made_of self.old) }
        ensures begun { summed_of self.new ≡ (if folds_in self.old.decl uses.now then begun_in worker (summed_of self.old) else summed_of self.old) }
        ensures made { made_of self.new ≡ made_of self.old }
    {
        if self.meets(uses) {
            self.begin_row(worker);
        }
    }

    /// Combines each cell that it names with all copies of it. The copies stay as they are.
    pub(crate) fn combine(&self, cells: &mut Cells)
        requires { All (λ u. IsSome (cell_of cells.old u.cell)) self.now.decl }
        ensures combined { (cell : Cell) → cell_of cells.new cell ≡ option_map (λ stored. copies_combined self.now.op stored (copies_in cell (summed_of self.now))) (cell_of cells.old cell) }
        ensures lengths { lengths cells.new ≡ lengths cells.old }
    {
        let uses = self.decl.uses();
        match self.op {
            Fold::Plus => combine_all(&Sum {}, cells, uses, &self.rows),
            Fold::Times => combine_all(&Product {}, cells, uses, &self.rows),
            Fold::And => combine_all(&Conjunction {}, cells, uses, &self.rows),
            Fold::Or => combine_all(&Disjunction {}, cells, uses, &self.rows),
            Fold::Xor => combine_all(&Parity {}, cells, uses, &self.rows),
            Fold::Min => combine_all(&Minimum {}, cells, uses, &self.rows),
            Fold::Max => combine_all(&Maximum {}, cells, uses, &self.rows),
        }
    }
}
