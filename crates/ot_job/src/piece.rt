ghost use Rattle.std.specs.Prelude.{◌≡◌, IfSome, option_map, ◌∷◌, ◌↔◌, IsTrue, All, Contains, IsSome, IsPermutation};
ghost use Rattle.ot_model.specs.View.{expr_of};
ghost use Rattle.ot_model.specs.Tree.{val, HasAll};
ghost use Rattle.ot_owner.specs.Lending.{value_at};
ghost use Rattle.ot_job.specs.Taken.{IsRun, taken_by};

use ot_job_task::{Assigns, Task, assign_all};
use ot_model::{Cells, Expr, value};
use ot_owner::{Lent, Owners};
use std::marker::Model;

/// A piece of a task's body that was claimed: sets and folds, the condition of an `if` that comes
/// behind them, and copies of the cells that these touch. What it does, it does to its copies alone.
#[derive(Debug)]
pub struct Piece {
    task: u32,
    assigns: Assigns,
    condition: Option<Expr>,
    lent: Lent,
}

impl Model for Piece {
    ghost use Rattle.std.specs.Coded.{codes};
    ghost use Rattle.std.specs.Prelude.{option_map};
    ghost use Rattle.ot_model.specs.Code.{body_code, value_code};
    ghost use Rattle.ot_model.specs.View.{expr_of};
    ghost use Rattle.ot_job_task.specs.Assigns.{CanRun};
    ghost use Rattle.ot_job.specs.Taken.{Taken};

    ghost Value = { Taken };

    ghost coded = { Prim.hlevel (codes, body_code, value_code) };

    ghost view = { λ p. record { task = p.task; assigns = p.assigns; test = option_map expr_of p.condition; lent = p.lent } };

    ghost invariant = { λ p. CanRun p.assigns (option_map expr_of p.condition) p.lent };
}

/// A piece that was run: its copies have what its assigns make of the inputs, and the answer is its
/// condition's value on them.
#[derive(Debug)]
pub struct Done {
    task: u32,
    assigns: Assigns,
    condition: Option<Expr>,
    lent: Lent,
    answer: Option<u64>,
}

impl Model for Done {
    ghost use Rattle.std.specs.Coded.{codes};
    ghost use Rattle.ot_model.specs.Code.{body_code, value_code};
    ghost use Rattle.ot_job.specs.Taken.{Came};

    ghost Value = { Came };

    ghost coded = { Prim.hlevel (codes, body_code, value_code) };

    ghost use Rattle.ot_job.specs.JobView.{came_of};
    ghost use Rattle.ot_job.specs.Taken.{IsRun};

    ghost view = { came_of };

    ghost invariant = { λ d. IsRun (came_of d) };
}

impl Piece {
    ghost use Rattle.ot_job_task.specs.Assigns.{CanRun};
    ghost use Rattle.ot_job.specs.Dealings.{work_brought, work_of};
    ghost use Rattle.ot_job.specs.Taken.{is_short};

    /// A piece that may be run on these copies.
    pub(crate) fn new(task: u32, assigns: Assigns, condition: Option<Expr>, lent: Lent) -> Piece
        requires { CanRun assigns (option_map expr_of condition) lent }
        ensures { result ≡ record { task = task; assigns = assigns; test = option_map expr_of condition; lent = lent } }
    {
        Piece {
            task,
            assigns,
            condition,
            lent,
        }
    }

    /// The number of its task.
    pub fn task(&self) -> u32
        ensures { result ≡ self.now.task }
    {
        self.task
    }

    /// Whether it has fewer than 64 sets and folds, which take about as long as to claim it and to take it back.
    pub fn is_short(&self) -> bool
        ensures { result ≡ is_short self.now }
    {
        self.assigns.len() < 64
    }

    /// Makes the assignments on the copies, and evaluates the condition. It takes no memory.
    pub fn run(self) -> Done
        ensures task { result.task ≡ self.task }
        ensures ran { work_brought result ≡ work_of self }
        ensures made { IsRun result }
    {
        let Piece {
            task,
            assigns,
            condition,
            lent,
        } = self;
        let mut lent = lent;
        assign_all(&assigns, &mut lent);
        let answer = answer(condition.as_ref(), &lent);
        Done {
            task,
            assigns,
            condition,
            lent,
            answer,
        }
    }

    /// Gives it up. No right ends by it.
    pub fn discard(self) {
        let Piece {
            task: _,
            assigns: _,
            condition: _,
            lent,
        } = self;
        lent.discard();
    }
}

/// The condition's value on the copies, if there is one.
fn answer(condition: Option<&Expr>, lent: &Lent) -> Option<u64>
    requires { IfSome condition (λ e. HasAll (value_at lent.now) (expr_of e.now)) }
    ensures { result ≡ option_map (λ e. val (value_at lent.now) (expr_of e.now)) condition.entry }
{
    match condition {
        None => None,
        Some(condition) => Some(value(condition, lent)),
    }
}

impl Done {
    ghost use Rattle.ot_model.specs.Cells.{cell_of, lengths};
    ghost use Rattle.ot_model.specs.declared.stmt.Mode.TheVariants.{Writes};
    ghost use Rattle.ot_owner.specs.Worth.{AreStored, all_back, AreJoined, worth};
    ghost use Rattle.ot_owner.specs.Keeping.{IsOpenable};
    ghost use Rattle.ot_owner.specs.Owning.{loan_of, IsSummed};
    ghost use Rattle.ot_job_task.specs.Pieces.{Runs, leading_len};

    /// The number of its task.
    pub(crate) fn task(&self) -> u32
        ensures { result ≡ self.now.task }
    {
        self.task
    }

    /// How many sets and folds it has.
    pub(crate) fn assigns(&self) -> usize
        ensures { result ≡ leading_len self.now.assigns }
    {
        self.assigns.len()
    }

    /// Its sets and folds, held once more, so that whoever holds them lets them go, and not whoever takes the piece
    /// back. It takes no memory, and there are none where more hold them than can be counted.
    pub fn hold(&self) -> Option<Assigns>
        ensures { IfSome result (λ held. held ≡ self.now.assigns) }
    {
        match self.assigns.share() {
            Ok(held) => Some(held),
            Err(_) => None,
        }
    }

    /// Whether the task runs these assigns with this condition on these inputs.
    pub(crate) fn is_of(&self, task: &Task) -> bool
        ensures { IsTrue result ↔ Runs task.now self.now.assigns self.now.test self.now.lent }
    {
        task.runs(&self.assigns, self.condition.as_ref(), &self.lent)
    }

    /// Whether the condition's value takes the first body.
    pub(crate) fn is_taken(&self) -> bool
        ensures { result ≡ taken_by self.now.answer }
    {
        match self.answer {
            Some(number) => number > 0,
            None => false,
        }
    }

    /// Gives back its copies, which are out to the worker: its cells have their present values from now on,
    /// what was folded is in the worker's row, and its right ends.
    pub(crate) fn give_back(self, owners: &mut Owners, cells: &mut Cells, worker: u32)
        requires out { Contains owners.old.owned.out (loan_of worker self.lent) }
        requires there { All (λ l. IsSome (cell_of cells.old l.cell)) self.lent }
        ensures stored { AreStored self.lent (cell_of cells.old) (cell_of cells.new) }
        ensures groups { owners.new.owned.groups ≡ all_back worker self.lent owners.old.owned.groups }
        ensures worth { All (λ l. l.mode ≡ Writes → ¬ IsSummed owners.old.owned.groups l.cell) self.lent → AreJoined self.lent (worth owners.old.owned cells.old) (worth owners.new.owned cells.new) }
        ensures lengths { lengths cells.new ≡ lengths cells.old }
        ensures ended { IsPermutation owners.old.owned.out (loan_of worker self.lent ∷ owners.new.owned.out) }
        ensures rooms { IsOpenable owners.old → IsOpenable owners.new }
        ensures run { IsRun self }
    {
        let Done {
            task: _,
            assigns: _,
            condition: _,
            lent,
            answer: _,
        } = self;
        owners.give_back(cells, lent, worker);
    }

    /// Ends its right, which is out to the worker. No cell and no copy changes.
    pub(crate) fn drop_right(self, owners: &mut Owners, worker: u32)
        requires { Contains owners.old.owned.out (loan_of worker self.lent) }
        ensures ended { IsPermutation owners.old.owned.out (loan_of worker self.lent ∷ owners.new.owned.out) }
        ensures groups { owners.new.owned.groups ≡ owners.old.owned.groups }
    {
        let Done {
            task: _,
            assigns: _,
            condition: _,
            lent,
            answer: _,
        } = self;
        owners.drop_right(lent, worker);
    }

    /// Gives it up. No right ends by it.
    pub fn discard(self) {
        let Done {
            task: _,
            assigns: _,
            condition: _,
            lent,
            answer: _,
        } = self;
        lent.discard();
    }
}

/// Why a piece that comes back was refused.
#[derive(Clone, Copy, Debug, PartialEq, Eq)]
pub enum Refused {
    /// That task does not run these assigns with this condition on these inputs.
    Stranger,
    /// The job fails.
    Failing,
    /// Memory was refused.
    Memory,
}
