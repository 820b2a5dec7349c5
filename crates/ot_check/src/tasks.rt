ghost use Rattle.std.specs.Prelude.{◌≡◌, ◌+◌, ◌<◌, ◌^◌, ◌||◌, ◌&&◌, Bool, IfOk, OnOk, ℕ, [], not};
ghost use Rattle.std.specs.List.{list_any};
ghost use Rattle.ot_model.specs.Programs.{array_lengths};
ghost use Rattle.ot_model.specs.Names.{IsInShape, AreDeclaredIn};
ghost use Rattle.ot_model.specs.declared.expr.Cell.{Cell};
ghost use Rattle.ot_check.specs.walk.States.{Tells, is_met_by, user_has, users_at};
ghost use Rattle.ot_check.specs.walk.Rows.{awaited_as, widths};
ghost use Rattle.ot_sets.specs.Sets.{has};
ghost use Rattle.ot_check.specs.declared.users.User.{User};

use crate::users::{User, Users};
use ot_model::{Decl, Shape, Use};
use ot_sets::Numbers;
use std::alloc::{AllocError, Global};

/// The tasks that a walk has passed. They have numbers from 0 on.
#[derive(Debug, Drop)]
pub(crate) struct Tasks {
    /// How many there are.
    pub(crate) passed: u32,
    /// Those that declare a cell, for each cell.
    pub(crate) users: Users,
}

impl Tasks {
    /// No task yet.
    pub(crate) fn new(alloc: Global, shape: &Shape) -> Result<Tasks, AllocError>
        ensures none { IfOk result (λ tasks. Tells tasks.users []) }
        ensures passed { IfOk result (λ tasks. tasks.passed ≡ 0) }
        ensures widths { IfOk result (λ tasks. widths tasks.users ≡ array_lengths shape.now) }
    {
        let users = Users::new(alloc, shape.arrays())?;
        Ok(Tasks { passed: 0, users })
    }

    /// Whether one of these tasks declares the cell in conflict with a use of it.
    pub(crate) fn clash(&self, numbers: &Numbers, used: Use) -> bool
        requires { IsInShape (widths self.now.users) used.cell }
        ensures { result ≡ is_met_by numbers.now self.now.users used }
    {
        self.users.clash(numbers, used)
    }

    /// Takes out of these tasks those that a wait with this declaration awaits. It takes no memory.
    pub(crate) fn take_awaited(&self, numbers: &mut Numbers, decl: &Decl)
        requires { AreDeclaredIn (widths self.now.users) decl.now }
        ensures { (k : ℕ) → has numbers.new k ≡ (has numbers.old k && not (list_any (λ u. list_any (awaited_as u.mode k) (users_at self.now.users u.cell)) decl.now)) }
    {
        for used in decl.uses() {
            self.users.take_awaited(numbers, *used);
        }
    }

    /// One task more, and its number.
    pub(crate) fn add(&mut self, alloc: Global, decl: &Decl) -> Result<u32, AllocError>
        requires declared { AreDeclaredIn (widths self.old.users) decl.now }
        requires short { self.old.passed + 1 < 2 ^ 32 }
        ensures number { IfOk result (λ number. number ≡ self.old.passed) }
        ensures passed { IfOk result (λ _. self.new.passed ≡ self.old.passed + 1) }
        ensures widths { IfOk result (λ _. widths self.new.users ≡ widths self.old.users) }
        ensures told { IfOk result (λ _. (test : User → Bool) (c : Cell)
            → list_any test (users_at self.new.users c) ≡ (list_any test (users_at self.old.users c) || list_any (user_has test c self.old.passed) decl.now)) }
    {
        let number = self.passed;
        for used in decl.uses() {
            let user = User {
                task: number,
                mode: used.mode,
            };
            self.users.enter(alloc, used.cell, user)?;
        }
        self.passed = number + 1;
        Ok(number)
    }
}
