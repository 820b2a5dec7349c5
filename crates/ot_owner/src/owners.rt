use crate::groups::{begin_rows, copy_of, give_all, make_rows, place_of, worth};
use crate::lent::{Keyed, Lent};
use crate::numbers::numbers;
use crate::rights::Rights;
use crate::room::Room;
use crate::rows::Group;
use crate::slip::Slip;
use crate::spare::Spare;
use ot_model::{Cell, Cells, Decl, Fold, Look};
use std::alloc::{AllocError, Global};
use std::marker::Model;
use std::sync::Arc;

/// Who reads, writes or folds into which cell at this moment: the rights that are out, and for each open
/// group a row of private copies for each worker that folds in it. No two rights conflict at a cell, as uses
/// of one cell do unless both read or both fold by one operation, and no cell is in two open groups. Only
/// `room` and `prepare` take memory, and the memory of one lease that ended is kept for the next.
#[derive(Debug, Drop)]
pub struct Owners {
    rights: Rights,
    groups: Vec<Group>,
    spare: Spare,
}

impl Model for Owners {
    ghost use Rattle.std.specs.Prelude.{◌-◌, vec_capacity, vec_len};
    ghost use Rattle.ot_owner.specs.Keeping.{Keeping, IsSound};

    ghost Value = { Keeping };

    ghost use Rattle.ot_owner.specs.Kept.{loans_in, spare_in, summeds_of, mades_of};

    ghost view = { λ o. record {
      owned = record { out = loans_in o.rights; groups = summeds_of o.groups.items };
      made = mades_of o.groups.items;
      loans = spare_in o.rights;
      places = vec_capacity o.groups - vec_len o.groups;
    } };

    ghost invariant = { λ o. IsSound (record { out = loans_in o.rights; groups = summeds_of o.groups.items }) };
}

impl Owners {
    ghost use Rattle.std.specs.Arc.{arc_value};
    ghost use Rattle.std.specs.Prelude.{◌≡◌, ◌≢◌, ◌↔◌, ◌≤◌, ◌++◌, ◌∷◌, [], ℕ, List, None, Some, IsTrue, IsSome, IfOk, All, Any, Contains, IsPermutation, option_map, replicate};
    ghost use Rattle.ot_model.specs.Cells.{cell_of, lengths};
    ghost use Rattle.ot_model.specs.declared.expr.Cell.{Cell};
    ghost use Rattle.ot_model.specs.declared.fold.Fold.{Fold as Operation};
    ghost use Rattle.ot_model.specs.declared.stmt.Mode.TheVariants.{Writes, Folds};
    ghost use Rattle.ot_owner.specs.Lending.{lent_from};
    ghost use Rattle.ot_owner.specs.Owning.{loan_of, IsFreeFor, NoTwoConflict, IsNamed, IsSummed, IsSummedBy, NoTwoShare, copy_among, begun_for, without};
    ghost use Rattle.ot_owner.specs.Worth.{closed_over, worth, IsCombined, AreWorthSame, AreJoined, AreStored, all_back};
    ghost use Rattle.ot_owner.specs.Keeping.{Prepared, IsLast, IsOpenable};

    /// No right is out, and no group is open. It takes no memory.
    pub fn new(alloc: Global) -> Owners
        ensures owned { result.owned ≡ record { out = []; groups = [] } }
        ensures worth { IsCombined result.owned }
    {
        Owners {
            rights: Rights::new(alloc),
            groups: Vec::new(alloc),
            spare: Spare::new(alloc),
        }
    }

    /// Whether no right that is out conflicts with the declaration. It looks at each right, and takes no
    /// memory.
    pub fn free_for(&self, decl: &Decl) -> bool
        ensures exact { IsTrue result ↔ IsFreeFor self.now.owned.out decl.now }
        ensures apart { NoTwoConflict self.now.owned.out }
    {
        self.rights.is_free_for(decl)
    }

    /// A worker's copy of a cell: None exactly where no open group names the cell, or the worker has no
    /// row of it. It goes over the groups one after another, and halves the list of each.
    pub fn copy_of(&self, worker: u32, cell: Cell) -> Option<u64>
        ensures { result ≡ copy_among self.now.owned.groups worker cell }
    {
        copy_of(&self.groups, worker as usize, cell)
    }

    /// What a cell that is there is worth: its stored number combined with all copies of it, by the
    /// operation of their group. No two open groups share a number or a cell.
    pub fn worth(&self, cells: &Cells, cell: Cell) -> u64
        requires { IsSome (cell_of cells.now cell) }
        ensures is { worth self.now.owned cells.now cell ≡ Some result }
        ensures single { NoTwoShare self.now.owned.groups }
    {
        worth(&self.groups, cell, cells.at(cell))
    }

    /// Room for a group that names these cells, in any order, and as often as they come. What is out and
    /// open stays, whatever the answer.
    pub fn room(&mut self, alloc: Global, cells: &[Cell]) -> Result<Room, AllocError>
        ensures names { IfOk result (λ room. (c : Cell) → IsNamed room c ↔ Contains cells.now c) }
        ensures openable { IfOk result (λ _. IsOpenable self.new) }
        ensures owned { self.new.owned ≡ self.old.owned }
        ensures slips { (s : Prepared) → IsLast self.old s → IsLast self.new s }
    {
        let room = Room::of(alloc, cells)?;
        self.groups.reserve(1)?;
        Ok(room)
    }

    /// All memory of a lease of these uses to a worker, 1 to 16, and of its rows. What is out and open
    /// stays, whatever the answer.
    pub fn prepare(
        &mut self,
        alloc: Global,
        decl: Arc<Decl>,
        worker: u32,
    ) -> Result<Slip, AllocError>
        requires { (1 ≤ worker) × (worker ≤ 16) }
        ensures slip { IfOk result (λ slip. slip ≡ record { uses = arc_value decl; worker = worker }) }
        ensures last { IfOk result (λ slip. IsLast self.new slip) }
        ensures owned { self.new.owned ≡ self.old.owned }
        ensures rooms { IsOpenable self.old → IsOpenable self.new }
    {
        let slip = Slip::of(alloc, decl, worker, &mut self.spare)?;
        make_rows(&mut self.groups, slip.folds(), worker as usize)?;
        self.rights.make()?;
        Ok(slip)
    }

    /// Opens a group by this operation in the room of the last `room`, with no row. No group of its number is
    /// open, none names a cell of it, and no right on one is out. It takes no memory.
    pub fn open_group(&mut self, group: u32, op: Fold, room: Room)
        requires last { IsOpenable self.old }
        requires new { All (λ g. g.group ≢ group) self.old.owned.groups }
        requires unnamed { (c : Cell) → IsNamed room c → ¬ IsSummed self.old.owned.groups c }
        requires unused { IsFreeFor self.old.owned.out room }
        ensures out { self.new.owned.out ≡ self.old.owned.out }
        ensures groups { self.new.owned.groups ≡ self.old.owned.groups ++ record { group = group; op = op; uses = room; rows = replicate 17 None } ∷ [] }
        ensures worth { (cells : List (List ℕ)) → AreWorthSame self.old.owned self.new.owned cells cells }
    {
        self.groups.push_reserved(room.open(group, op));
    }

    /// Lends what the slip of the last `prepare` says, where it is free and no group was opened since.
    /// Each cell is to be there, and each under `Folds` is to be named by an open group of its operation. A
    /// cell under `Reads` or `Writes` comes with its stored number, and one under `Folds` begins at the unit of
    /// its operation: so those who fold into one cell by one operation are out side by side. Where such a
    /// cell's group has no row of the worker, one begins at the unit of the group's operation. It takes no
    /// memory.
    pub fn lease(&mut self, cells: &Cells, slip: Slip) -> Lent
        requires last { IsLast self.old slip }
        requires free { IsFreeFor self.old.owned.out slip.uses }
        requires there { All (λ u. IsSome (cell_of cells.now u.cell)) slip.uses }
        requires summed { All (λ u. (op : Operation) → u.mode ≡ Folds op → IsSummedBy self.old.owned.groups op u.cell) slip.uses }
        ensures lent { result ≡ lent_from cells.now slip.uses }
        ensures out { IsPermutation (loan_of slip.worker result ∷ self.old.owned.out) self.new.owned.out }
        ensures groups { self.new.owned.groups ≡ begun_for slip.worker slip.uses self.old.owned.groups }
        ensures worth { AreWorthSame self.old.owned self.new.owned cells.now cells.now }
        ensures rooms { IsOpenable self.old → IsOpenable self.new }
    {
        begin_rows(&mut self.groups, slip.folds(), slip.worker() as usize);
        numbers(cells);
        let (lent, loan) = slip.fill(cells);
        let key = self.rights.put(loan);
        Lent::new(Keyed { cells: lent, key })
    }

    /// Takes back what is out to the worker, and whose cells are there: a written cell has its present
    /// value from now on, what was folded goes to the worker's row, by the operation of its group, every
    /// other stored number and copy stays, and the right ends. It takes no memory.
    pub fn give_back(&mut self, cells: &mut Cells, lent: Lent, worker: u32)
        requires out { Contains self.old.owned.out (loan_of worker lent) }
        requires there { All (λ l. IsSome (cell_of cells.old l.cell)) lent }
        ensures stored { AreStored lent (cell_of cells.old) (cell_of cells.new) }
        ensures groups { self.new.owned.groups ≡ all_back worker lent self.old.owned.groups }
        ensures worth { All (λ l. l.mode ≡ Writes → ¬ IsSummed self.old.owned.groups l.cell) lent → AreJoined lent (worth self.old.owned cells.old) (worth self.new.owned cells.new) }
        ensures lengths { lengths cells.new ≡ lengths cells.old }
        ensures ended { IsPermutation self.old.owned.out (loan_of worker lent ∷ self.new.owned.out) }
        ensures slips { (s : Prepared) → IsLast self.old s → IsLast self.new s }
        ensures rooms { IsOpenable self.old → IsOpenable self.new }
    {
        give_all(cells, &mut self.groups, worker as usize, lent.cells());
        self.drop_right(lent, worker);
    }

    /// Ends the right of what is out to the worker. No cell and no copy changes. It takes no memory.
    pub fn drop_right(&mut self, lent: Lent, worker: u32)
        requires { Contains self.old.owned.out (loan_of worker lent) }
        ensures groups { self.new.owned.groups ≡ self.old.owned.groups }
        ensures ended { IsPermutation self.old.owned.out (loan_of worker lent ∷ self.new.owned.out) }
        ensures slips { (s : Prepared) → IsLast self.old s → IsLast self.new s }
        ensures rooms { IsOpenable self.old → IsOpenable self.new }
    {
        let right = self.rights.end(lent.keyed(), worker);
        self.spare.keep(right.into_firsts(), lent.into_cells());
    }

    /// Closes an open group, whose cells are there, and of which none is out: each stored number is combined
    /// with all copies of its cell, by the operation of the group, and the rows are gone. It takes no memory.
    pub fn close_group(&mut self, cells: &mut Cells, group: u32)
        requires is_open { Any (λ g. g.group ≡ group) self.old.owned.groups }
        requires unused { All (λ g. g.group ≡ group → IsFreeFor self.old.owned.out g.uses) self.old.owned.groups }
        requires there { All (λ g. g.group ≡ group → All (λ u. IsSome (cell_of cells.old u.cell)) g.uses) self.old.owned.groups }
        ensures stored { (cell : Cell) → cell_of cells.new cell ≡ option_map (closed_over group self.old.owned.groups cell) (cell_of cells.old cell) }
        ensures groups { self.new.owned.groups ≡ without group self.old.owned.groups }
        ensures out { self.new.owned.out ≡ self.old.owned.out }
        ensures worth { AreWorthSame self.old.owned self.new.owned cells.old cells.new }
        ensures lengths { lengths cells.new ≡ lengths cells.old }
        ensures slips { (s : Prepared) → IsLast self.old s → IsLast self.new s }
        ensures rooms { IsOpenable self.new }
    {
        let Some(place) = place_of(&self.groups, group) else {
            unreachable!()
        };
        self.groups[place].combine(cells);
        self.groups.remove(place);
    }
}
