ghost use Rattle.std.specs.Prelude.{◌↔◌, IsTrue, ◌≡◌, [], ◌∷◌, IfOk, ◌<◌, ◌≤◌, ◌+◌, ◌*◌, Some, IsSome, length, OnErr, IfErr};
ghost use Rattle.ot_job.specs.Taken.{IsOut};
ghost use Rattle.ot_model.specs.Cells.{lengths, cell_of};
ghost use Rattle.ot_model.specs.Names.{NamedIn};
ghost use Rattle.ot_model.specs.Programs.{expanded_of};
ghost use Rattle.ot_job_task.specs.Regions.{root_region, weight_of};

use crate::lending::{lend, room_for, take_back};
use crate::piece::{Done, Piece, Refused};
use crate::state::State;
use crate::tasks::{Tasks, weigh_tasks};
use ot_check::{JobSpec, Outcome};
use ot_job_task::{Prepared, Running, Task, prepare};
use ot_model::{Cell, Cells, Counts, Look};
use ot_owner::Owners;
use std::alloc::{AllocError, Global};
use std::marker::Model;
use std::sync::Arc;

/// A live job: what it was asked to run, its cells, who holds which of them, its tasks, and what it has
/// executed. As long as it hasn't failed, what is left of it, run serially from what its cells are worth,
/// gives the serial meaning of its program.
#[derive(Debug, Drop)]
pub struct Job {
    spec: JobSpec,
    cells: Cells,
    owners: Owners,
    tasks: Tasks,
    counts: Counts,
    failing: bool,
}

impl Model for Job {
    ghost use Rattle.std.specs.Coded.{codes};
    ghost use Rattle.ot_model.specs.Code.{body_code};
    ghost use Rattle.ot_job.specs.Dealings.{Live};

    ghost Value = { Live };

    ghost coded = { Prim.hlevel (codes, body_code) };

    ghost use Rattle.ot_job.specs.JobView.{live_of};
    ghost use Rattle.ot_job.specs.Well.{IsWell};

    ghost view = { live_of };

    ghost invariant = { λ j. IsWell (live_of j) };
}

impl Job {
    ghost use Rattle.ot_model.specs.Tree.{size};
    ghost use Rattle.ot_owner.specs.Owning.{NoTwoShare};
    ghost use Rattle.ot_owner.specs.Worth.{worth};
    ghost use Rattle.ot_job.specs.Moves.{Settles, Refuses, Claimed};
    ghost use Rattle.ot_job.specs.Claiming.{picked_at};
    ghost use Rattle.ot_job.specs.Dealings.{Starts, Fails, state_in, claimable_in, job_aborted, live_state, IsOver, NoneOut, IsOf};
    ghost use Rattle.ot_job.specs.declared.state.State.TheVariants.{Working, Failing, Ended, Failed};
    ghost use Rattle.ot_check.specs.Jobs.{Spec, IsMeaning};
    ghost use Rattle.ot_job.specs.Kept.{IsKeptIn};
    ghost use Rattle.ot_job.specs.Holding.{AllHold, HavePresent, ArePiecesApart};

    /// A job that begins. It has the whole program left. Where memory is refused, the spec comes back.
    pub fn start(alloc: Global, spec: JobSpec) -> Result<Job, (JobSpec, AllocError)>
        ensures starts { IfOk result (λ job. Starts spec job) }
        ensures back { IfErr result (λ r. r.0 ≡ spec) }
    {
        match beginning(alloc, &spec) {
            Ok((cells, tasks)) => Ok(Job {
                spec,
                cells,
                owners: Owners::new(alloc),
                tasks,
                counts: Counts { tasks: 0, units: 0 },
                failing: false,
            }),
            Err(error) => Err((spec, error)),
        }
    }

    /// Where it stands, and what holds of it there: its arrays are as long as those that were handed in. It
    /// takes no memory.
    pub fn state(&self) -> State
        ensures is { result ≡ live_state self.now }
        ensures calm { IsOver result → NoneOut self.now }
        ensures going { result ≡ Failing → NoneOut self.now → ⊥ }
        ensures kept { IsKeptIn result self.now }
        ensures holds { AllHold self.now }
        ensures present { HavePresent self.now }
        ensures apart { ArePiecesApart self.now }
        ensures lengths { lengths self.now.cells ≡ lengths self.now.before }
    {
        if self.failing {
            if self.tasks.any_out() {
                State::Failing
            } else {
                State::Failed
            }
        } else if self.tasks.all_ended() {
            State::Ended
        } else {
            State::Working
        }
    }

    /// How many tasks are claimable. Some task of a working job is, where no piece of it is out. It takes
    /// no memory.
    pub fn claimable(&self) -> usize
        ensures count { result ≡ length (claimable_in self.now) }
        ensures never_stuck { live_state self.now ≡ Working → NoneOut self.now → 0 < result }
        ensures few { result ≤ 20001 }
    {
        if self.failing {
            return 0;
        }
        self.tasks.claimable()
    }

    /// How many settles it may still take, at most: no more than when it began. It takes no memory.
    pub fn weight(&self) -> u64
        ensures is { result ≡ weight_of self.now.regions }
        ensures light { result ≤ 2 * size self.now.program.body + 1 }
    {
        weigh_tasks(self.tasks.all())
    }

    /// Whether it is the job of this spec. It takes no memory.
    pub fn is_of(&self, spec: &JobSpec) -> bool
        ensures { IsTrue result ↔ IsOf spec.now self.now }
    {
        spec.same_as(&self.spec)
    }

    /// The claimable task at `pick` modulo their count. A job that fails has none.
    fn pick(&self, pick: usize) -> Option<usize>
        ensures { result ≡ picked_at (claimable_in self.now) pick }
    {
        if self.failing {
            return None;
        }
        self.tasks.pick(pick)
    }

    /// Hands out the next piece of the claimable task at `pick` modulo their count to a worker, 1 to 16.
    /// Where the task passes a group's end, what was folded in the group goes to the stored numbers first
    /// (OpenMP API 5.2, section 5.5). Memory is refused only where a task is claimable, and then nothing
    /// changes.
    pub fn claim(
        &mut self,
        alloc: Global,
        pick: usize,
        worker: u32,
    ) -> Result<Option<Piece>, AllocError>
        requires { (1 ≤ worker) × (worker ≤ 16) }
        ensures claimed { IfOk result (λ p. Claimed self.old pick worker p self.new) }
        ensures working { OnErr result (live_state self.old ≡ Working) }
        ensures some { OnErr result (0 < length (claimable_in self.old)) }
        ensures refused { OnErr result (self.new ≡ self.old) }
    {
        let Some(task) = self.pick(pick) else {
            return Ok(None);
        };
        let picked = self.tasks.get(task);
        let Prepared {
            assigns,
            shared,
            condition,
            decl,
            room,
        } = prepare(alloc, picked)?;
        let slip = self.owners.prepare(alloc, decl, worker)?;
        let passed = picked.group_passed();
        let lent = lend(&mut self.owners, &mut self.cells, passed, slip);
        self.tasks
            .begin(task, Running::new(worker, shared, room, &lent));
        Ok(Some(Piece::new(task as u32, assigns, condition, lent)))
    }

    /// Takes a piece back: its cells have their present values from now on, what it folded is in the row of
    /// the worker to whom it was handed out, and the control statement that ended it takes effect. The answer
    /// is the units. Where it is refused, nothing changes.
    pub fn settle(&mut self, alloc: Global, done: Done) -> Result<u32, (Done, Refused)>
        ensures settled { IfOk result (λ units. Settles self.old done units self.new) }
        ensures same { IfErr result (λ r. r.0 ≡ done) }
        ensures refuses { IfErr result (λ r. Refuses self.old done r.1) }
        ensures refused { OnErr result (self.new ≡ self.old) }
    {
        if !is_out(self.tasks.all(), &done) {
            return Err((done, Refused::Stranger));
        }
        if self.failing {
            return Err((done, Refused::Failing));
        }
        let task = done.task() as usize;
        let assigns = done.assigns();
        let running = self.tasks.get(task);
        let worker = running.worker();
        let control = running.units_next();
        let created = running.tasks_next();
        let number = self.counts.units;
        let Ok(room) = room_for(&mut self.owners, alloc, running.group_next()) else {
            return Err((done, Refused::Memory));
        };
        if self
            .tasks
            .settle(alloc, task, done.is_taken(), number)
            .is_err()
        {
            return Err((done, Refused::Memory));
        }
        take_back(
            &mut self.owners,
            &mut self.cells,
            done,
            worker,
            room,
            number,
        );
        let units = assigns as u32 + control;
        self.counts = Counts {
            tasks: self.counts.tasks + created,
            units: self.counts.units + units,
        };
        Ok(units)
    }

    /// Takes a piece back without its results: its rights end, and the job fails. A piece that isn't out
    /// changes nothing. It takes no memory.
    pub fn fail(&mut self, done: Done)
        ensures fails { Fails self.old done self.new }
        ensures weight { weight_of self.new.regions ≤ weight_of self.old.regions }
    {
        if !is_out(self.tasks.all(), &done) {
            done.discard();
            return;
        }
        let task = done.task() as usize;
        let worker = self.tasks.get(task).worker();
        done.drop_right(&mut self.owners, worker);
        self.tasks.stop(task);
        self.failing = true;
    }

    /// The stored number of a cell that is there. It takes no memory.
    pub fn stored(&self, cell: Cell) -> u64
        requires { IsSome (cell_of self.now.cells cell) }
        ensures { cell_of self.now.cells cell ≡ Some result }
    {
        self.cells.at(cell)
    }

    /// What a cell that is there is worth: its stored number combined with all copies of it, which are those of
    /// one open group. It goes over the open groups, and takes no memory.
    pub fn worth(&self, cell: Cell) -> u64
        requires { IsSome (cell_of self.now.cells cell) }
        ensures is { worth self.now.owned self.now.cells cell ≡ Some result }
        ensures single { NoTwoShare self.now.owned.groups }
    {
        self.owners.worth(&self.cells, cell)
    }

    /// Makes a working job fail. It takes no memory.
    pub fn abort(&mut self)
        requires { state_in self.old ≡ Working }
        ensures { self.new ≡ job_aborted self.old }
    {
        self.failing = true;
    }

    /// What an ended job leaves: the serial meaning of its spec. It takes no memory.
    pub fn into_outcome(self) -> Outcome
        requires { state_in self ≡ Ended }
        ensures { (spec : Spec) → IsOf spec self → IsMeaning spec result }
    {
        Outcome {
            cells: self.cells,
            counts: self.counts,
        }
    }

    /// The spec of a failed job, as it was handed in. It takes no memory.
    pub fn into_spec(self) -> JobSpec
        requires { state_in self ≡ Failed }
        ensures { IsOf result self }
    {
        self.spec
    }
}

/// Whether that task runs these assigns with this condition on these inputs.
pub fn is_out(tasks: &[Task], done: &Done) -> bool
    ensures { IsTrue result ↔ IsOut tasks.now done.now }
{
    let task = done.task() as usize;
    if task >= tasks.len() {
        return false;
    }
    done.is_of(&tasks[task])
}

/// The cells as a job begins with them, and its root task, with room for all tasks that its program may create.
pub(crate) fn beginning(alloc: Global, spec: &JobSpec) -> Result<(Cells, Tasks), AllocError>
    ensures cells { IfOk result (λ parts. parts.0 ≡ spec.now.before) }
    ensures named { IfOk result (λ parts. NamedIn (lengths spec.now.before) (expanded_of spec.now.checked.program).body) }
    ensures root { IfOk result (λ parts. parts.1 ≡ root_region (expanded_of spec.now.checked.program).body ∷ []) }
{
    let cells = spec.before().copy(alloc)?;
    let checked = spec.checked();
    let body = Arc::try_clone(&checked.parts)?;
    let tasks = Tasks::root(alloc, body, checked.program.tasks)?;
    Ok((cells, tasks))
}
