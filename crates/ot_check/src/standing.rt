ghost use Rattle.std.specs.Prelude.{◌≡◌, ◌+◌, ◌<◌, ◌≤◌, ◌^◌, ◌||◌, ◌==◌, ◌∷◌, ◌++◌, List, ℕ, [], IfOk, OnOk, None, Some, false, true, not};
ghost use Rattle.ot_check.specs.Offences.{allows, exceeds, folds_to, misfits, awaits, Touch, Enter};
ghost use Rattle.ot_check.specs.walk.States.{is_open, AreOf, IsBegun, Leads, Whatever, lens_of, with_others};

use crate::fault::Offence;
use crate::modes::{covers, folds_by};
use crate::opened::Opened;
use crate::tasks::Tasks;
use ot_model::{Cell, Decl, Fold, Mode, Shape, Use};
use ot_sets::Numbers;
use std::alloc::{AllocError, Global};
use std::mem;

/// What stands at a place of a body.
#[derive(Debug, Drop)]
pub(crate) struct Region {
    /// What the body declares. The program's own, which may use each cell, declares nothing.
    own: Option<Decl>,
    /// The cells of the groups that are open in it.
    opened: Opened,
    /// The children that may be unawaited.
    pub(crate) unawaited: Numbers,
}

/// What stood before a group.
#[derive(Debug, Drop)]
pub(crate) struct Outside {
    opened: Opened,
    /// How many tasks the walk had passed.
    passed: u32,
}

/// What stands at a place of a walk.
#[derive(Debug, Drop)]
pub(crate) struct Standing {
    pub(crate) region: Region,
    pub(crate) tasks: Tasks,
}

impl Region {
    ghost use Rattle.std.specs.List.{list_any};

    /// Whether the body may use a cell so.
    fn allows(&self, used: Use) -> bool
        ensures { result ≡ allows self.now.own used }
    {
        match &self.own {
            None => true,
            Some(decl) => match decl.mode(used.cell) {
                None => false,
                Some(mode) => covers(mode, used.mode),
            },
        }
    }

    /// Whether the body declares a cell as `Folds` of this operation.
    fn folds_to(&self, op: Fold, cell: Cell) -> bool
        ensures { result ≡ folds_to self.now.own op cell }
    {
        match &self.own {
            None => false,
            Some(decl) => match decl.mode(cell) {
                None => false,
                Some(mode) => folds_by(op, mode),
            },
        }
    }

    /// Whether a child's use goes beyond what the body declares.
    fn use_exceeds(&self, used: Use) -> bool
        ensures { result ≡ exceeds self.now.own used }
    {
        !matches!(used.mode, Mode::Folds(_)) && !self.allows(used)
    }

    /// Whether a child's declaration goes beyond the body's.
    pub(crate) fn exceeds(&self, decl: &Decl) -> bool
        ensures { result ≡ list_any (exceeds self.now.own) decl.now }
    {
        for used in decl.uses() {
            if self.use_exceeds(*used) {
                return true;
            }
        }
        false
    }

    /// Whether a child's use doesn't fit the reductions that are open in the body.
    fn use_misfits(&self, used: Use) -> bool
        ensures { result ≡ misfits self.now.own (is_open self.now.opened) used }
    {
        match used.mode {
            Mode::Folds(op) => { !self.folds_to(op, used.cell) && !self.opened.has(op, used.cell) }
            Mode::Reads | Mode::Writes => self.opened.has_any(used.cell),
        }
    }

    /// Whether a child's declaration doesn't fit the reductions that are open in the body.
    pub(crate) fn misfits(&self, decl: &Decl) -> bool
        ensures { result ≡ list_any (misfits self.now.own (is_open self.now.opened)) decl.now }
    {
        for used in decl.uses() {
            if self.use_misfits(*used) {
                return true;
            }
        }
        false
    }
}

impl Standing {
    ghost use Rattle.ot_model.specs.Programs.{array_lengths};
    ghost use Rattle.ot_model.specs.Names.{IsInShape, OneNamedIn, AreInShape, AreDeclaredIn};
    ghost use Rattle.ot_model.specs.Tree.{Wait};
    ghost use Rattle.ot_model.specs.declared.expr.Cell.{Cell};
    ghost use Rattle.ot_model.specs.declared.fold.Fold.{Fold as Operation};
    ghost use Rattle.ot_model.specs.declared.stmt.Use.{Use};
    ghost use Rattle.ot_check.specs.Discipline.{anyone, behind_one, with_group, may_break};
    ghost use Rattle.ot_sets.specs.Sets.{has};

    /// What stands at the beginning of a program: its body may use each cell.
    pub(crate) fn of_root(alloc: Global, shape: &Shape) -> Result<Standing, AllocError>
        ensures begun { IfOk result (λ s. IsBegun None s.region) }
        ensures none { IfOk result (λ s. AreOf [] s.tasks) }
        ensures lens { IfOk result (λ s. lens_of s ≡ array_lengths shape.now) }
        ensures passed { IfOk result (λ s. s.tasks.passed ≡ 0) }
    {
        let tasks = Tasks::new(alloc, shape)?;
        let region = Region {
            own: None,
            opened: Opened::new(alloc),
            unawaited: Numbers::new(alloc),
        };
        Ok(Standing { region, tasks })
    }

    /// Goes into the body of a task. What stood before it is the answer.
    pub(crate) fn begin_task(&mut self, alloc: Global, decl: &Decl) -> Result<Region, AllocError>
        ensures begun { IfOk result (λ _. IsBegun (Some decl.now) self.new.region) }
        ensures outer { IfOk result (λ outer. outer ≡ self.old.region) }
        ensures tasks { self.new.tasks ≡ self.old.tasks }
    {
        let region = Region {
            own: Some(decl.copy(alloc)?),
            opened: Opened::new(alloc),
            unawaited: Numbers::new(alloc),
        };
        Ok(mem::replace(&mut self.region, region))
    }

    /// Comes out of the body of a task, which is one child more that may be unawaited.
    pub(crate) fn end_task(
        &mut self,
        alloc: Global,
        outer: Region,
        decl: &Decl,
    ) -> Result<(), AllocError>
        requires declared { AreDeclaredIn (lens_of self.old) decl.now }
        requires short { self.old.tasks.passed + 1 < 2 ^ 32 }
        ensures own { self.new.region.own ≡ outer.own }
        ensures opened { self.new.region.opened ≡ outer.opened }
        ensures child { OnOk result ((k : ℕ) → has self.new.region.unawaited k ≡ (has outer.unawaited k || (k == self.old.tasks.passed))) }
        ensures known { OnOk result ((decls : List (List Use)) → AreOf decls self.old.tasks → AreOf (decls ++ decl.now ∷ []) self.new.tasks) }
        ensures passed { OnOk result (self.new.tasks.passed ≡ self.old.tasks.passed + 1) }
        ensures lens { OnOk result (lens_of self.new ≡ lens_of self.old) }
    {
        self.region = outer;
        let number = self.tasks.add(alloc, decl)?;
        self.region.unawaited.insert(number as usize)
    }

    /// Goes into a group by this operation that names these cells. What stood before it is the answer.
    pub(crate) fn begin_group(
        &mut self,
        alloc: Global,
        op: Fold,
        cells: &[Cell],
    ) -> Result<Outside, AllocError>
        ensures own { IfOk result (λ _. self.new.region.own ≡ self.old.region.own) }
        ensures entered { IfOk result (λ _. (o : Operation) (c : Cell) → is_open self.new.region.opened o c ≡ with_group (is_open self.old.region.opened) op cells.now o c) }
        ensures opened { IfOk result (λ outside. (o : Operation) (c : Cell) → is_open outside.opened o c ≡ is_open self.old.region.opened o c) }
        ensures passed { IfOk result (λ outside. outside.passed ≡ self.old.tasks.passed) }
        ensures same { IfOk result (λ _. self.new.region.unawaited ≡ self.old.region.unawaited) }
        ensures tasks { IfOk result (λ _. self.new.tasks ≡ self.old.tasks) }
    {
        let opened = self.region.opened.copy(alloc)?;
        self.region.opened.enter(alloc, op, cells)?;
        Ok(Outside {
            opened,
            passed: self.tasks.passed,
        })
    }

    /// Comes out of a group, whose end awaits the children made in it: those of later numbers than had
    /// been passed before it. It takes no memory.
    pub(crate) fn end_group(&mut self, outside: Outside)
        ensures own { self.new.region.own ≡ self.old.region.own }
        ensures opened { self.new.region.opened ≡ outside.opened }
        ensures below { (k : ℕ) → k < outside.passed → has self.new.region.unawaited k ≡ has self.old.region.unawaited k }
        ensures rest { (k : ℕ) → outside.passed ≤ k → has self.new.region.unawaited k ≡ false }
        ensures tasks { self.new.tasks ≡ self.old.tasks }
    {
        self.region.opened = outside.opened;
        self.region.unawaited.truncate(outside.passed as usize);
    }

    /// Comes to a wait, which awaits all children, or where it declares cells those on which an empty
    /// task with its declaration would depend (OpenMP API 5.2, section 15.5). It takes no memory.
    pub(crate) fn await_children(&mut self, wait: &Option<Decl>)
        requires { OneNamedIn (lens_of self.old) (Wait wait.now) }
        ensures behind { Leads self.old self.new (λ children. behind_one children (Wait wait.now)) (λ d. not (awaits wait.now d)) }
        ensures tasks { self.new.tasks ≡ self.old.tasks }
    {
        match wait {
            None => self.region.unawaited.clear(),
            Some(decl) => self.tasks.take_awaited(&mut self.region.unawaited, decl),
        }
    }

    /// Whether a child may be unawaited.
    pub(crate) fn has_children(&self) -> bool
        ensures { Whatever self.now (λ own opened children. result ≡ children anyone) }
    {
        !self.region.unawaited.is_empty()
    }

    /// Goes back to the children from before one way through an `if`. Those behind it are the answer.
    /// It takes no memory.
    pub(crate) fn begin_other(&mut self, before: Numbers) -> Numbers
        ensures before { self.new ≡ with_others self.old before }
        ensures behind { result ≡ self.old.region.unawaited }
    {
        mem::replace(&mut self.region.unawaited, before)
    }

    /// The children behind one way through an `if` may be unawaited too.
    pub(crate) fn end_other(&mut self, one: &Numbers) -> Result<(), AllocError>
        ensures own { self.new.region.own ≡ self.old.region.own }
        ensures opened { self.new.region.opened ≡ self.old.region.opened }
        ensures both { OnOk result ((k : ℕ) → has self.new.region.unawaited k ≡ (has self.old.region.unawaited k || has one.now k)) }
        ensures tasks { self.new.tasks ≡ self.old.tasks }
    {
        self.region.unawaited.join(one)
    }

    /// Whether a use of a cell is this offence here.
    pub(crate) fn touch_breaks(&self, used: Use, offence: Offence) -> bool
        requires { IsInShape (lens_of self.now) used.cell }
        ensures { Whatever self.now (λ own opened children. result ≡ may_break own opened children (Touch used) offence) }
    {
        match offence {
            Offence::NotDeclared => !self.region.allows(used),
            Offence::ReductionMisuse => self.region.opened.has_any(used.cell),
            Offence::ConflictsWithChild => self.tasks.clash(&self.region.unawaited, used),
            Offence::ChildBeyond | Offence::EndsWithChildren => false,
        }
    }

    /// Whether a group that names the cell is this offence here, whatever its operation.
    fn cell_breaks(&self, cell: Cell, offence: Offence) -> bool
        requires { IsInShape (lens_of self.now) cell }
        ensures { Whatever self.now (λ own opened children. (op : Operation) → result ≡ may_break own opened children (Enter op (cell ∷ [])) offence) }
    {
        let used = Use {
            cell,
            mode: Mode::Writes,
        };
        match offence {
            Offence::ReductionMisuse => {
                !self.region.allows(used) || self.region.opened.has_any(cell)
            }
            Offence::ConflictsWithChild => self.tasks.clash(&self.region.unawaited, used),
            Offence::NotDeclared | Offence::ChildBeyond | Offence::EndsWithChildren => false,
        }
    }

    /// Whether a group of these cells is this offence here, whatever its operation.
    pub(crate) fn group_breaks(&self, cells: &[Cell], offence: Offence) -> bool
        requires { AreInShape (lens_of self.now) cells.now }
        ensures { Whatever self.now (λ own opened children. (op : Operation) → result ≡ may_break own opened children (Enter op cells.now) offence) }
    {
        for cell in cells {
            if self.cell_breaks(*cell, offence) {
                return true;
            }
        }
        false
    }
}
