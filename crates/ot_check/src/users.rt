ghost use Rattle.std.specs.Prelude.{◌≡◌, ◌||◌, Bool, IfOk, OnOk};
ghost use Rattle.std.specs.List.{list_any};
ghost use Rattle.ot_check.specs.declared.users.User.{User};
ghost use Rattle.ot_check.specs.walk.Rows.{found_at, rows_filled, widths};

use crate::block::Block;
use crate::table::Table;
use ot_model::{ArrayShape, Cell, Mode, Use};
use ot_sets::Numbers;
use std::alloc::{AllocError, Global};
use std::marker::Model;

/// A task that declares a cell.
#[derive(Clone, Copy, Debug, PartialEq, Eq)]
pub(crate) struct User {
    pub(crate) task: u32,
    pub(crate) mode: Mode,
}

/// The tasks that declare a cell.
#[derive(Debug, Drop)]
pub(crate) struct Row {
    cell: Cell,
    /// Those of earlier places, and those of the latest that fold by operations that came before.
    earlier: Vec<Block>,
    /// Those of the latest place that fold by the latest operation, if they fold.
    latest: Block,
}

impl Row {
    ghost use Rattle.std.specs.Prelude.{◌&&◌, ℕ, not, IfSome, slice_get};
    ghost use Rattle.ot_model.specs.Cells.{conflicts};
    ghost use Rattle.ot_sets.specs.Sets.{has};
    ghost use Rattle.ot_check.specs.walk.Rows.{awaited_as, users_of_row, IsRoom};

    /// One task alone. It takes no memory.
    fn of(alloc: Global, cell: Cell, user: User) -> Row
        ensures cell { result.cell ≡ cell }
        ensures users { (test : User → Bool) → list_any test (users_of_row result) ≡ test user }
    {
        Row {
            cell,
            earlier: Vec::new(alloc),
            latest: Block::of(user),
        }
    }

    /// Puts a task among them.
    fn enter(&mut self, user: User) -> Result<(), AllocError>
        ensures cell { self.new.cell ≡ self.old.cell }
        ensures users { OnOk result ((test : User → Bool) → list_any test (users_of_row self.new) ≡ (list_any test (users_of_row self.old) || test user)) }
    {
        if self.latest.place == user.task / 64 {
            if self.latest.takes(user.mode) {
                self.latest.insert(user);
                return Ok(());
            }
            if let Some(at) = self.room_for(user) {
                self.earlier[at].insert(user);
                return Ok(());
            }
        }
        self.earlier.push(self.latest)?;
        self.latest = Block::of(user);
        Ok(())
    }

    /// Where the task can stand among the earlier ones. Blocks of one place stand one behind another, and
    /// no two of them fold by one operation, so it looks at six of them at most.
    fn room_for(&self, user: User) -> Option<usize>
        ensures { IfSome result (λ at. IsRoom (slice_get self.now.earlier.items at) user) }
    {
        let mut at = self.earlier.len();
        while at > 0 {
            at -= 1;
            let block = &self.earlier[at];
            if block.place != user.task / 64 {
                return None;
            }
            if block.takes(user.mode) {
                return Some(at);
            }
        }
        None
    }

    /// Whether one of them is among these tasks and declares the cell in conflict with this mode.
    /// It looks at 64 tasks at once.
    fn clashes(&self, tasks: &Numbers, mode: Mode) -> bool
        ensures { result ≡ list_any (λ v. has tasks.now v.task && conflicts v.mode mode) (users_of_row self.now) }
    {
        for block in &self.earlier {
            if block.clashes(tasks, mode) {
                return true;
            }
        }
        self.latest.clashes(tasks, mode)
    }

    /// Takes out of these tasks those that a wait awaits that declares the cell in this mode. It looks
    /// at 64 tasks at once, and takes no memory.
    fn take_awaited(&self, tasks: &mut Numbers, mode: Mode)
        ensures { (k : ℕ) → has tasks.new k ≡ (has tasks.old k && not (list_any (awaited_as mode k) (users_of_row self.now))) }
    {
        for block in &self.earlier {
            block.take_awaited(tasks, mode);
        }
        self.latest.take_awaited(tasks, mode);
    }
}

/// For each cell of a shape the tasks that declare it.
#[derive(Debug, Drop)]
pub(crate) struct Users {
    /// For each cell the number of its row, from 1 on, or 0 where no task declares it.
    places: Table,
    rows: Vec<Row>,
}

impl Model for Users {
    ghost use Rattle.std.specs.Prelude.{List, map};
    ghost use Rattle.ot_check.specs.declared.users.User.{User};
    ghost use Rattle.ot_check.specs.walk.Rows.{users_in, HaveRows};

    ghost Value = { List (List (List User)) };

    ghost view = { λ u. map (map (users_in u.rows.items)) u.places };

    ghost invariant = { λ u. HaveRows u.rows.items u.places };
}

impl Users {
    ghost use Rattle.std.specs.Prelude.{◌≢◌, ◌&&◌, ℕ, [], IsSome, map, not};
    ghost use Rattle.ot_model.specs.Programs.{arrays_of};
    ghost use Rattle.ot_model.specs.declared.expr.Cell.{Cell};
    ghost use Rattle.ot_sets.specs.Sets.{has};
    ghost use Rattle.ot_check.specs.walk.Rows.{awaited_as};
    ghost use Rattle.ot_check.specs.walk.States.{is_met_by, users_at};

    /// No task declares a cell of these arrays.
    pub(crate) fn new(alloc: Global, arrays: &[ArrayShape]) -> Result<Users, AllocError>
        ensures { IfOk result (λ users. users ≡ rows_filled [] (map (λ a. a.1) (arrays_of arrays.now))) }
    {
        let places = Table::new(alloc, arrays)?;
        Ok(Users {
            places,
            rows: Vec::new(alloc),
        })
    }

    /// Whether one of these tasks declares a cell that is there in conflict with a use of it.
    pub(crate) fn clash(&self, tasks: &Numbers, used: Use) -> bool
        requires { IsSome (found_at self.now used.cell) }
        ensures { result ≡ is_met_by tasks.now self.now used }
    {
        let place = self.places.at(used.cell);
        place > 0 && self.rows[place - 1].clashes(tasks, used.mode)
    }

    /// Takes out of these tasks those that a wait awaits that declares this use of a cell that is
    /// there. It takes no memory.
    pub(crate) fn take_awaited(&self, tasks: &mut Numbers, used: Use)
        requires { IsSome (found_at self.now used.cell) }
        ensures { (k : ℕ) → has tasks.new k ≡ (has tasks.old k && not (list_any (awaited_as used.mode k) (users_at self.now used.cell))) }
    {
        let place = self.places.at(used.cell);
        if place > 0 {
            self.rows[place - 1].take_awaited(tasks, used.mode);
        }
    }

    /// Puts a task among those that declare a cell that is there.
    pub(crate) fn enter(&mut self, alloc: Global, cell: Cell, user: User) -> Result<(), AllocError>
        requires { IsSome (found_at self.old cell) }
        ensures widths { OnOk result (widths self.new ≡ widths self.old) }
        ensures there { OnOk result ((test : User → Bool) → list_any test (users_at self.new cell) ≡ (list_any test (users_at self.old cell) || test user)) }
        ensures others { OnOk result ((other : Cell) → cell ≢ other → found_at self.new other ≡ found_at self.old other) }
    {
        let place = self.places.at(cell);
        if place > 0 {
            return self.rows[place - 1].enter(user);
        }
        self.rows.push(Row::of(alloc, cell, user))?;
        let last = self.rows.len();
        self.places.set(cell, last);
        Ok(())
    }
}
