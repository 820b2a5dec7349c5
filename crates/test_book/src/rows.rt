//! Two groups that are open over three cells, by one operation: the rows of workers that fold, what the cells
//! are worth, what the groups leave behind, who is free beside whom, and want of memory.
ghost use Rattle.std.specs.Prelude.{◌≡◌, ◌≢◌, ◌↔◌, ◌≤◌, ◌++◌, ◌∷◌, [], IfOk, OnOk, All, Contains, ◌<◌, IsPermutation};
ghost use Rattle.ot_model.specs.declared.expr.Cell.{Cell};
ghost use Rattle.ot_owner.specs.Keeping.{IsLast, IsOpenable};
ghost use Rattle.ot_owner.specs.Owning.{IsNamed, IsSummed, Summed, loan_of};
ghost use Rattle.test_book.specs.TwoGroups.{nth, IsFoldOf, IsOver};

use super::modes::OPERATIONS;
use super::rights::{cell, declared};
use super::table::{Asked, assert_rows};
use ot_model::{Cells, Decl, Fold, Look, Mode};
use ot_owner::{Lent, Owners, Room, Slip};
use std::alloc::{AllocError, Global};
use std::marker::Model;
use std::sync::Arc;

/// Room for a group that names one cell, asked for once more where memory was refused.
fn room_again(alloc: Global, owners: &mut Owners, index: u32) -> Result<Room, AllocError>
    ensures names { IfOk result (λ room. (c : Cell) → IsNamed room c ↔ Contains (nth index ∷ []) c) }
    ensures openable { IfOk result (λ _. IsOpenable owners.new) }
    ensures owned { owners.new.owned ≡ owners.old.owned }
{
    let named = [cell(index)];
    match owners.room(alloc, &named) {
        Ok(room) => Ok(room),
        Err(_) => owners.room(alloc, &named),
    }
}

/// Opens a group by the operation that names one cell. None of its number is open, none names the cell, and
/// nothing is out.
fn open(
    alloc: Global,
    owners: &mut Owners,
    group: u32,
    op: Fold,
    index: u32,
) -> Result<(), AllocError>
    requires new { All (λ g. g.group ≢ group) owners.old.owned.groups }
    requires unnamed { ¬ IsSummed owners.old.owned.groups (nth index) }
    requires none { owners.old.owned.out ≡ [] }
    ensures opened { OnOk result ((g : Summed) × IsOver group op index g × (owners.new.owned.groups ≡ owners.old.owned.groups ++ g ∷ [])) }
    ensures out { owners.new.owned.out ≡ owners.old.owned.out }
{
    let room = room_again(alloc, owners, index)?;
    owners.open_group(group, op, room);
    Ok(())
}

/// The memory of a lease, asked for once more where it was refused.
fn prepare_again(
    alloc: Global,
    owners: &mut Owners,
    decl: Decl,
    worker: u32,
) -> Result<Slip, AllocError>
    requires { (1 ≤ worker) × (worker ≤ 16) }
    ensures slip { IfOk result (λ slip. slip ≡ record { uses = decl; worker = worker }) }
    ensures last { IfOk result (λ slip. IsLast owners.new slip) }
    ensures owned { owners.new.owned ≡ owners.old.owned }
{
    let decl = Arc::new(alloc, decl)?;
    let same = Arc::try_clone(&decl)?;
    match owners.prepare(alloc, decl, worker) {
        Ok(slip) => Ok(slip),
        Err(_) => owners.prepare(alloc, same, worker),
    }
}

/// Group 1, which names the first cell, and in it group 2, which names the second.
#[derive(Drop)]
struct Groups {
    op: Fold,
    owners: Owners,
    cells: Cells,
}

impl Model for Groups {
    ghost use Rattle.std.specs.Prelude.{◌≡◌, List, [], ◌∷◌};
    ghost use Rattle.ot_model.specs.Cells.{lengths};
    ghost use Rattle.ot_owner.specs.Owning.{Loan};
    ghost use Rattle.test_book.specs.TwoGroups.{AreTwo};

    ghost Value = { List Loan };

    ghost view = { λ g. g.owners.owned.out };

    ghost invariant = { λ g. AreTwo g.op g.owners.owned.groups × (lengths g.cells ≡ 3 ∷ []) };
}

impl Groups {
    ghost use Rattle.ot_owner.specs.Lending.{uses_of};

    /// Both are opened over this number, 2, 3. Nothing is out.
    fn new(alloc: Global, op: Fold, first: u64) -> Result<Groups, AllocError>
        ensures { IfOk result (λ groups. groups ≡ []) }
    {
        let mut owners = Owners::new(alloc);
        open(alloc, &mut owners, 1, op, 0)?;
        open(alloc, &mut owners, 2, op, 1)?;
        let array = vec![in alloc; first, 2, 3]?;
        let cells = Cells::new(vec![in alloc; array]?);
        Ok(Groups { op, owners, cells })
    }

    /// Lends a cell to a worker that folds into it.
    fn lend(&mut self, alloc: Global, index: u32, worker: u32) -> Result<Lent, AllocError>
        requires named { index < 2 }
        requires worker { (1 ≤ worker) × (worker ≤ 16) }
        ensures lent { IfOk result (λ lent. IsFoldOf index (uses_of lent)) }
        ensures out { IfOk result (λ lent. IsPermutation (loan_of worker lent ∷ self.old) self.new) }
    {
        let decl = declared(alloc, Mode::Folds(self.op), index)?;
        if !self.owners.free_for(&decl) {
            return Err(AllocError);
        }
        let slip = prepare_again(alloc, &mut self.owners, decl, worker)?;
        Ok(self.owners.lease(&self.cells, slip))
    }

    /// The worker gives its copy back.
    fn back(&mut self, lent: Lent, index: u32, worker: u32)
        requires named { index < 2 }
        requires lent { IsFoldOf index (uses_of lent) }
        requires out { Contains self.old (loan_of worker lent) }
        ensures { IsPermutation self.old (loan_of worker lent ∷ self.new) }
    {
        self.owners.give_back(&mut self.cells, lent, worker);
    }

    /// The worker sets its copy to a number, and gives it back.
    fn put(&mut self, lent: Lent, index: u32, worker: u32, number: u64)
        requires named { index < 2 }
        requires lent { IsFoldOf index (uses_of lent) }
        requires out { Contains self.old (loan_of worker lent) }
        ensures { IsPermutation self.old (loan_of worker lent ∷ self.new) }
    {
        let mut lent = lent;
        lent.set(0, cell(index), number);
        self.back(lent, index, worker);
    }

    /// A worker folds a number into a cell.
    fn fold(
        &mut self,
        alloc: Global,
        index: u32,
        worker: u32,
        number: u64,
    ) -> Result<(), AllocError>
        requires named { index < 2 }
        requires worker { (1 ≤ worker) × (worker ≤ 16) }
        requires none { self.old ≡ [] }
        ensures { OnOk result (self.new ≡ []) }
    {
        let lent = self.lend(alloc, index, worker)?;
        self.put(lent, index, worker, number);
        Ok(())
    }

    /// Worker 3 folds 5 and 6 into the first cell by two leases that are out at once.
    fn fold_at_once(&mut self, alloc: Global) -> Result<(), AllocError>
        requires { self.old ≡ [] }
        ensures { OnOk result (self.new ≡ []) }
    {
        let one = self.lend(alloc, 0, 3)?;
        let two = match self.lend(alloc, 0, 3) {
            Ok(two) => two,
            Err(error) => {
                one.discard();
                return Err(error);
            }
        };
        self.put(one, 0, 3, 5);
        self.put(two, 0, 3, 6);
        Ok(())
    }

    /// Worker 1 folds 5 into its copy of the first cell, and what it folded is dropped.
    fn fold_and_drop(&mut self, alloc: Global) -> Result<(), AllocError>
        requires { self.old ≡ [] }
        ensures { OnOk result (self.new ≡ []) }
    {
        let mut lent = self.lend(alloc, 0, 1)?;
        lent.set(0, cell(0), 5);
        self.owners.drop_right(lent, 1);
        Ok(())
    }

    /// Worker 1 has a copy of the first cell, and gives it back as it is.
    fn fold_nothing(&mut self, alloc: Global) -> Result<(), AllocError>
        requires { self.old ≡ [] }
        ensures { OnOk result (self.new ≡ []) }
    {
        let lent = self.lend(alloc, 0, 1)?;
        self.back(lent, 0, 1);
        Ok(())
    }

    /// The row of worker 2 is prepared, and never leased.
    fn prepare_alone(&mut self, alloc: Global) -> Result<(), AllocError>
        requires { self.old ≡ [] }
        ensures { OnOk result (self.new ≡ []) }
    {
        let decl = declared(alloc, Mode::Folds(self.op), 0)?;
        let _slip = prepare_again(alloc, &mut self.owners, decl, 2)?;
        Ok(())
    }

    /// Whether one who folds by an operation is free to the first cell while worker 1 has a copy of it.
    fn is_free_beside(&mut self, alloc: Global, op: Fold) -> Result<bool, AllocError>
        requires { self.old ≡ [] }
    {
        let decl = declared(alloc, Mode::Folds(op), 0)?;
        let lent = self.lend(alloc, 0, 1)?;
        let is_free = self.owners.free_for(&decl);
        self.owners.drop_right(lent, 1);
        Ok(is_free)
    }

    /// What the first cell holds, its copies of the workers 1, 2 and 3, what it is worth, and all cells
    /// once the inner group is closed and once both are.
    fn told(self, alloc: Global) -> Result<String, AllocError>
        requires { self ≡ [] }
    {
        let Groups {
            op: _,
            mut owners,
            mut cells,
        } = self;
        let first = cell(0);
        let copies = [
            owners.copy_of(1, first),
            owners.copy_of(2, first),
            owners.copy_of(3, first),
        ];
        let open = format!(in alloc;
            "{} {copies:?} {}",
            cells.at(first),
            owners.worth(&cells, first)
        )?;
        owners.close_group(&mut cells, 2);
        let inner = format!(in alloc; "{open} {:?}", cells.arrays())?;
        owners.close_group(&mut cells, 1);
        format!(in alloc; "{inner} {:?}", cells.arrays())
    }
}

/// Those who fold, each with a cell, a worker and a number.
fn fold_each(
    alloc: Global,
    groups: &mut Groups,
    folders: [(u32, u32, u64); 3],
) -> Result<(), AllocError>
    requires { groups.old ≡ [] }
    ensures { OnOk result (groups.new ≡ []) }
{
    for (index, worker, number) in folders {
        if index < 2 && worker >= 1 && worker <= 16 {
            groups.fold(alloc, index, worker, number)?;
        }
    }
    Ok(())
}

/// An operation, the number of the first cell, and who folds.
const FOLDS: &str =
    "+ of 1: folders of one cell gives 1 [Some(4), Some(1), None] 6 [[1, 2, 3]] [[6, 2, 3]]
+ of 1: folders of two cells gives 1 [Some(3), None, None] 4 [[1, 11, 3]] [[4, 11, 3]]
+ of 1: folders past the end gives 1 [Some(18446744073709551614), Some(2), None] 1 [[1, 2, 3]] [[1, 2, 3]]
+ of 1: two at once gives 1 [None, None, Some(11)] 12 [[1, 2, 3]] [[12, 2, 3]]
+ of 1: dropped gives 1 [Some(0), None, None] 1 [[1, 2, 3]] [[1, 2, 3]]
+ of 1: prepared alone gives 1 [None, None, None] 1 [[1, 2, 3]] [[1, 2, 3]]
+ of 1: no row gives 1 [None, None, None] 1 [[1, 2, 3]] [[1, 2, 3]]
+ of 7: three folders gives 7 [Some(12), Some(13), None] 32 [[7, 2, 3]] [[32, 2, 3]]
* of 7: three folders gives 7 [Some(35), Some(13), None] 3185 [[7, 2, 3]] [[3185, 2, 3]]
& of 7: three folders gives 7 [Some(5), Some(13), None] 5 [[7, 2, 3]] [[5, 2, 3]]
| of 7: three folders gives 7 [Some(7), Some(13), None] 15 [[7, 2, 3]] [[15, 2, 3]]
^ of 7: three folders gives 7 [Some(2), Some(13), None] 8 [[7, 2, 3]] [[8, 2, 3]]
min of 7: three folders gives 7 [Some(5), Some(13), None] 5 [[7, 2, 3]] [[5, 2, 3]]
max of 7: three folders gives 7 [Some(7), Some(13), None] 13 [[7, 2, 3]] [[13, 2, 3]]
+ of 7: nobody gives 7 [Some(0), None, None] 7 [[7, 2, 3]] [[7, 2, 3]]
* of 7: nobody gives 7 [Some(1), None, None] 7 [[7, 2, 3]] [[7, 2, 3]]
& of 7: nobody gives 7 [Some(18446744073709551615), None, None] 7 [[7, 2, 3]] [[7, 2, 3]]
| of 7: nobody gives 7 [Some(0), None, None] 7 [[7, 2, 3]] [[7, 2, 3]]
^ of 7: nobody gives 7 [Some(0), None, None] 7 [[7, 2, 3]] [[7, 2, 3]]
min of 7: nobody gives 7 [Some(18446744073709551615), None, None] 7 [[7, 2, 3]] [[7, 2, 3]]
max of 7: nobody gives 7 [Some(0), None, None] 7 [[7, 2, 3]] [[7, 2, 3]]
* of 7: dropped gives 7 [Some(1), None, None] 7 [[7, 2, 3]] [[7, 2, 3]]
min of 7: two at once gives 7 [None, None, Some(5)] 5 [[7, 2, 3]] [[5, 2, 3]]";

fn folded(alloc: Global, groups: &mut Groups, kind: &str) -> Result<(), AllocError>
    requires { groups.old ≡ [] }
    ensures { OnOk result (groups.new ≡ []) }
{
    match kind {
        "folders of one cell" => fold_each(alloc, groups, [(0, 1, 3), (0, 2, 1), (0, 1, 1)]),
        "folders of two cells" => fold_each(alloc, groups, [(0, 1, 3), (1, 1, 4), (1, 2, 5)]),
        "folders past the end" => {
            fold_each(
                alloc,
                groups,
                [(0, 1, u64::MAX), (0, 2, 2), (0, 1, u64::MAX)],
            )
        }
        "three folders" => fold_each(alloc, groups, [(0, 1, 5), (0, 2, 13), (0, 1, 7)]),
        "two at once" => groups.fold_at_once(alloc),
        "dropped" => groups.fold_and_drop(alloc),
        "nobody" => groups.fold_nothing(alloc),
        "prepared alone" => groups.prepare_alone(alloc),
        _ => Ok(()),
    }
}

fn operation_of(name: &str) -> Fold {
    match name {
        "*" => Fold::Times,
        "&" => Fold::And,
        "|" => Fold::Or,
        "^" => Fold::Xor,
        "min" => Fold::Min,
        "max" => Fold::Max,
        _ => Fold::Plus,
    }
}

/// What comes of leases of this kind to workers that fold.
pub(crate) fn combined(alloc: Global, row: &str) -> Result<String, AllocError> {
    let (over, kind) = row.split_once(": ").unwrap_or(("", ""));
    let (name, first) = over.split_once(" of ").unwrap_or(("", ""));
    let mut groups = Groups::new(alloc, operation_of(name), first.parse().unwrap_or(0))?;
    folded(alloc, &mut groups, kind)?;
    groups.told(alloc)
}

#[test]
fn what_comes_of_folds(rt: HostRuntime) {
    assert_rows(&rt, rt.alloc(), Asked::Combined, [1, 1, 0], FOLDS);
}

/// The first two operations of which one isn't free beside the other as it should be.
fn other_beside(alloc: Global) -> Result<Option<(Fold, Fold)>, AllocError> {
    for one in &OPERATIONS {
        for two in &OPERATIONS {
            let mut groups = Groups::new(alloc, *one, 1)?;
            if groups.is_free_beside(alloc, *two)? != (*one == *two) {
                return Ok(Some((*one, *two)));
            }
        }
    }
    Ok(None)
}

#[test]
fn folders_are_free_beside_those_by_their_operation(rt: HostRuntime) -> Result<(), AllocError> {
    assert_eq!(rt; other_beside(rt.alloc())?, None);
    Ok(())
}

/// Where room or the memory of a lease is refused, it is asked for again: then all goes on as if it had
/// not been refused. It passes whichever allocation fails, and prints a line where another one did.
#[test]
fn folds_that_want_memory_go_on(rt: HostRuntime) {
    match combined(rt.alloc(), "+ of 1: folders of one cell") {
        Ok(told) => {
            let right = told.as_str() == "1 [Some(4), Some(1), None] 6 [[1, 2, 3]] [[6, 2, 3]]";
            assert!(rt; right);
        }
        Err(_) => {
            let _ = println!(rt; "memory was refused");
        }
    }
}
