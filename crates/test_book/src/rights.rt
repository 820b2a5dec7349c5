//! Leases over 1, 2, 3: what comes back, what stays out, and want of memory.
ghost use Rattle.std.specs.Prelude.{◌≡◌, ◌≤◌, ◌<◌, ◌∷◌, [], false, IfOk, IsPermutation};
ghost use Rattle.ot_model.specs.Cells.{is_fold};
ghost use Rattle.ot_owner.specs.Lending.{lent_from};
ghost use Rattle.ot_owner.specs.Owning.{loan_of};

use super::table::{Asked, assert_rows};
use ot_model::{Cell, Cells, Decl, Look, Mode, Use};
use ot_owner::{Lent, Owners};
use std::alloc::{AllocError, Global};
use std::sync::Arc;

/// One array of the numbers 1, 2, 3.
pub(crate) fn one_two_three(alloc: Global) -> Result<Cells, AllocError>
    ensures { IfOk result (λ cells. cells ≡ (1 ∷ 2 ∷ 3 ∷ []) ∷ []) }
{
    let array = vec![in alloc; 1, 2, 3]?;
    Ok(Cells::new(vec![in alloc; array]?))
}

pub(crate) fn cell(index: u32) -> Cell
    ensures { result ≡ record { array = 0; index = index } }
{
    Cell { array: 0, index }
}

pub(crate) fn declared(alloc: Global, mode: Mode, index: u32) -> Result<Decl, AllocError>
    ensures { IfOk result (λ decl. decl ≡ record { cell = record { array = 0; index = index }; mode = mode } ∷ []) }
{
    let only = Use {
        cell: cell(index),
        mode,
    };
    Ok(Decl::new(vec![in alloc; only]?))
}

/// Lends one cell of 1, 2, 3 to a worker, where it is free.
fn lend(
    alloc: Global,
    owners: &mut Owners,
    cells: &Cells,
    mode: Mode,
    index: u32,
    worker: u32,
) -> Result<Lent, AllocError>
    requires cells { cells.now ≡ (1 ∷ 2 ∷ 3 ∷ []) ∷ [] }
    requires within { index < 3 }
    requires no_folds { is_fold mode ≡ false }
    requires worker { (1 ≤ worker) × (worker ≤ 16) }
    ensures lent { IfOk result (λ lent. lent
        ≡ lent_from cells.now (record { cell = record { array = 0; index = index }; mode = mode } ∷ [])) }
    ensures out { IfOk result (λ lent. IsPermutation (loan_of worker lent ∷ owners.old.owned.out) owners.new.owned.out) }
{
    let decl = declared(alloc, mode, index)?;
    if !owners.free_for(&decl) {
        return Err(AllocError);
    }
    let slip = owners.prepare(alloc, Arc::new(alloc, decl)?, worker)?;
    Ok(owners.lease(cells, slip))
}

/// Writes 9 to the second cell by a lease, which is looked for first where no cell is: its value before and after, the value that it was lent
/// with, its value and that of the first cell in the lease, and all cells once it has come back.
fn written(alloc: Global, owners: &mut Owners, cells: &mut Cells) -> Result<String, AllocError>
    requires { cells.old ≡ (1 ∷ 2 ∷ 3 ∷ []) ∷ [] }
{
    let mut lent = lend(alloc, owners, cells, Mode::Writes, 1, 1)?;
    let before = lent.at(cell(1));
    lent.set(7, cell(1), 9);
    let after = lent.at(cell(1));
    let told = [
        lent.first(cell(1)),
        lent.value(cell(1)),
        lent.value(cell(0)),
    ];
    owners.give_back(cells, lent, 1);
    format!(in alloc; "{before} {after} {told:?} {:?}", cells.arrays())
}

/// Lends the second cell to two workers that read it: whether a writer is free to it once the first has given it
/// back, and once the second's right has ended too.
fn read_twice(alloc: Global, owners: &mut Owners, cells: &mut Cells) -> Result<String, AllocError>
    requires { cells.old ≡ (1 ∷ 2 ∷ 3 ∷ []) ∷ [] }
{
    let writer = declared(alloc, Mode::Writes, 1)?;
    let one = lend(alloc, owners, cells, Mode::Reads, 1, 1)?;
    let two = match lend(alloc, owners, cells, Mode::Reads, 1, 2) {
        Ok(two) => two,
        Err(error) => {
            one.discard();
            return Err(error);
        }
    };
    owners.give_back(cells, one, 1);
    let free_beside_one = owners.free_for(&writer);
    owners.drop_right(two, 2);
    format!(in alloc; "{free_beside_one} {}", owners.free_for(&writer))
}

/// Whether a reader is free to the second cell once a writer's lease of it was discarded.
fn discarded(alloc: Global, owners: &mut Owners, cells: &Cells) -> Result<String, AllocError>
    requires { cells.now ≡ (1 ∷ 2 ∷ 3 ∷ []) ∷ [] }
{
    let reader = declared(alloc, Mode::Reads, 1)?;
    lend(alloc, owners, cells, Mode::Writes, 1, 1)?.discard();
    format!(in alloc; "{}", owners.free_for(&reader))
}

const LEASES: &str = "written gives 2 9 [Some(2), Some(9), None] [[1, 9, 3]]
read twice gives false true
discarded gives false";

/// What comes of a lease of this kind.
pub(crate) fn lent(alloc: Global, kind: &str) -> Result<String, AllocError> {
    let mut owners = Owners::new(alloc);
    let mut cells = one_two_three(alloc)?;
    match kind {
        "written" => written(alloc, &mut owners, &mut cells),
        "read twice" => read_twice(alloc, &mut owners, &mut cells),
        _ => discarded(alloc, &mut owners, &cells),
    }
}

#[test]
fn what_comes_of_leases(rt: HostRuntime) {
    assert_rows(&rt, rt.alloc(), Asked::Lent, [1, 1, 0], LEASES);
}

/// Lends the second cell to a reader and ends its right.
fn lend_and_end(alloc: Global, owners: &mut Owners) -> Result<(), AllocError> {
    let cells = one_two_three(alloc)?;
    let lent = lend(alloc, owners, &cells, Mode::Reads, 1, 1)?;
    owners.drop_right(lent, 1);
    Ok(())
}

/// Whether a writer is free to the second cell.
fn is_free(alloc: Global, owners: &Owners) -> Result<bool, AllocError> {
    let writer = declared(alloc, Mode::Writes, 1)?;
    Ok(owners.free_for(&writer))
}

/// It passes whichever allocation fails, and prints a line where one did.
#[test]
fn a_lease_that_wants_memory_leaves_no_right(rt: HostRuntime) {
    let mut owners = Owners::new(rt.alloc());
    let ended = lend_and_end(rt.alloc(), &mut owners);
    let free = is_free(rt.alloc(), &owners);
    if ended.is_err() || free.is_err() {
        let _ = println!(rt; "memory was refused");
    }
    assert!(rt; free.unwrap_or(true));
}
