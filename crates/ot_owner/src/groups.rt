//! The open groups, one after another.
ghost use Rattle.std.specs.Prelude.{◌≡◌, ◌≢◌, ◌<◌, ◌^◌, ◌==◌, IsSome, OnOk, All, true, option_map, position, vec_capacity, vec_len};
ghost use Rattle.ot_model.specs.Cells.{cell_of, lengths, AreInOrder, is_fold};
ghost use Rattle.ot_model.specs.declared.expr.Cell.{Cell};
ghost use Rattle.ot_owner.specs.Worth.{stored_kept, AreStored, taken_back, all_back, worth_over};
ghost use Rattle.ot_owner.specs.Keeping.{HasRow, IsRegular};
ghost use Rattle.ot_owner.specs.Kept.{summeds_of, mades_of, holder_from};
ghost use Rattle.ot_owner.specs.Lending.{uses_of};
ghost use Rattle.ot_owner.specs.Owning.{copy_among, copies_folded, folds_in, begun_for};

use crate::lent::LentCell;
use crate::rows::Group;
use ot_model::{Cell, Cells, Mode, Use};
use std::alloc::AllocError;

/// The first group that names the cell, and the cell's place there.
fn find(groups: &[Group], cell: Cell) -> Option<(usize, usize)>
    ensures { result ≡ holder_from 0 (summeds_of groups.now) cell }
{
    for i in 0..groups.len() {
        if let Some(place) = groups[i].place(cell) {
            return Some((i, place));
        }
    }
    None
}

/// The place of the first group of this number.
pub(crate) fn place_of(groups: &[Group], group: u32) -> Option<usize>
    ensures { result ≡ position (λ g. g.group == group) groups.now }
{
    groups.iter().position(|open| open.group == group)
}

/// A worker's copy of a cell.
pub(crate) fn copy_of(groups: &Vec<Group>, worker: usize, cell: Cell) -> Option<u64>
    ensures { result ≡ copy_among (summeds_of groups.now.items) worker cell }
{
    match find(groups, cell) {
        Some((i, place)) => groups[i].copy(worker, place),
        None => None,
    }
}

/// What a cell with this stored number is worth.
pub(crate) fn worth(groups: &[Group], cell: Cell, stored: u64) -> u64
    ensures { result ≡ worth_over (summeds_of groups.now) cell stored }
{
    let mut worth = stored;
    for group in groups {
        worth = group.worth(cell, worth);
    }
    worth
}

/// Makes the worker's row in each group that names a cell into which one of these uses folds. No row
/// begins by it.
pub(crate) fn make_rows(
    groups: &mut Vec<Group>,
    uses: &[Use],
    worker: usize,
) -> Result<(), AllocError>
    requires known { worker < 17 }
    requires regular { All IsRegular (summeds_of groups.old.items) }
    ensures same { summeds_of groups.new.items ≡ summeds_of groups.old.items }
    ensures made { OnOk result (All (λ m. folds_in m.uses uses.now ≡ true → HasRow worker m) (mades_of groups.new.items)) }
    ensures capacity { vec_capacity groups.new ≡ vec_capacity groups.old }
    ensures len { vec_len groups.new ≡ vec_len groups.old }
{
    for i in 0..groups.len() {
        groups[i].make_for(uses, worker)?;
    }
    Ok(())
}

/// Begins the worker's row in each group that names a cell into which one of these uses folds, where it
/// has not begun. It is to be made.
pub(crate) fn begin_rows(groups: &mut Vec<Group>, uses: &[Use], worker: usize)
    requires { All (λ m. folds_in m.uses uses.now ≡ true → HasRow worker m) (mades_of groups.old.items) }
    ensures begun { summeds_of groups.new.items ≡ begun_for worker uses.now (summeds_of groups.old.items) }
    ensures made { mades_of groups.new.items ≡ mades_of groups.old.items }
    ensures capacity { vec_capacity groups.new ≡ vec_capacity groups.old }
    ensures len { vec_len groups.new ≡ vec_len groups.old }
{
    for i in 0..groups.len() {
        groups[i].begin_for(uses, worker);
    }
}

/// Folds a number into a worker's copy of a cell, by the operation of its group.
fn fold(groups: &mut Vec<Group>, worker: usize, cell: Cell, number: u64)
    requires { IsSome (copy_among (summeds_of groups.old.items) worker cell) }
    ensures folded { summeds_of groups.new.items ≡ copies_folded worker cell number (summeds_of groups.old.items) }
    ensures made { mades_of groups.new.items ≡ mades_of groups.old.items }
    ensures capacity { vec_capacity groups.new ≡ vec_capacity groups.old }
    ensures len { vec_len groups.new ≡ vec_len groups.old }
{
    if let Some((i, place)) = find(groups, cell) {
        groups[i].fold(worker, place, number);
    }
}

/// Takes one lent cell back: a written one has its present value, and what was folded goes to the
/// worker's row.
fn give_one(cells: &mut Cells, groups: &mut Vec<Group>, worker: usize, copy: LentCell)
    requires there { IsSome (cell_of cells.old copy.cell) }
    requires row { is_fold copy.mode ≡ true → IsSome (copy_among (summeds_of groups.old.items) worker copy.cell) }
    ensures stored { cell_of cells.new copy.cell ≡ option_map (λ stored. stored_kept copy.mode stored copy.value) (cell_of cells.old copy.cell) }
    ensures others { (other : Cell) → copy.cell ≢ other → cell_of cells.new other ≡ cell_of cells.old other }
    ensures lengths { lengths cells.new ≡ lengths cells.old }
    ensures back { summeds_of groups.new.items ≡ taken_back worker copy (summeds_of groups.old.items) }
    ensures small { copy.value < 2 ^ 64 }
    ensures made { mades_of groups.new.items ≡ mades_of groups.old.items }
    ensures capacity { vec_capacity groups.new ≡ vec_capacity groups.old }
    ensures len { vec_len groups.new ≡ vec_len groups.old }
{
    match copy.mode {
        Mode::Reads => {}
        Mode::Writes => cells.set(copy.cell, copy.value),
        Mode::Folds(_) => fold(groups, worker, copy.cell, copy.value),
    }
}

/// Takes all lent cells back.
pub(crate) fn give_all(cells: &mut Cells, groups: &mut Vec<Group>, worker: usize, lent: &[LentCell])
    requires ordered { AreInOrder (uses_of lent.now) }
    requires there { All (λ l. IsSome (cell_of cells.old l.cell)) lent.now }
    requires rows { All (λ l. is_fold l.mode ≡ true → IsSome (copy_among (summeds_of groups.old.items) worker l.cell)) lent.now }
    ensures stored { AreStored lent.now (cell_of cells.old) (cell_of cells.new) }
    ensures back { summeds_of groups.new.items ≡ all_back worker lent.now (summeds_of groups.old.items) }
    ensures small { All (λ l. l.value < 2 ^ 64) lent.now }
    ensures lengths { lengths cells.new ≡ lengths cells.old }
    ensures made { mades_of groups.new.items ≡ mades_of groups.old.items }
    ensures capacity { vec_capacity groups.new ≡ vec_capacity groups.old }
    ensures len { vec_len groups.new ≡ vec_len groups.old }
{
    for copy in lent {
        give_one(cells, groups, worker, *copy);
    }
}
