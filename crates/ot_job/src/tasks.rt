ghost use Rattle.ot_job_task.specs.Regions.{control_executed, over, region_stopped, tasks_next, without, root_region, weight_of};
ghost use Rattle.std.specs.Prelude.{◌≡◌, ◌<◌, ◌≤◌, length, vec_len, OnOk, OnErr, ◌^◌, [], ◌∷◌, None, false, slice_index_or, IfOk};
ghost use Rattle.ot_job.specs.Numbered.{at, parent_of};
ghost use Rattle.ot_job.specs.Moves.{CreatesInOrder, region_ended_at, moved_on, regions_settled};

use crate::pick::{is_claimable, refresh_children};
use ot_job_roster::Roster;
use ot_job_task::{Running, Task};
use ot_parts::Part;
use std::alloc::{AllocError, Global};
use std::marker::Model;
use std::sync::Arc;

/// The tasks of a job in order of their creation, and what is kept so that none has to be passed over.
#[derive(Debug, Drop)]
pub struct Tasks {
    tasks: Vec<Task>,
    /// Whose children they are, which are claimable, and how many have a piece out and have not ended.
    roster: Roster,
}

impl Model for Tasks {
    ghost use Rattle.std.specs.Coded.{codes};
    ghost use Rattle.std.specs.Prelude.{List};
    ghost use Rattle.ot_model.specs.Code.{body_code};
    ghost use Rattle.ot_job_task.specs.Regions.{Region};

    ghost Value = { List Region };

    ghost coded = { Prim.hlevel (codes, body_code) };

    ghost use Rattle.ot_job.specs.Listing.{AreKept};

    ghost view = { λ t. t.tasks.items };

    ghost invariant = { λ t. AreKept t.tasks.items t.roster };
}

impl Tasks {
    ghost use Rattle.std.specs.Arc.{arc_value};
    ghost use Rattle.ot_model.specs.Cells.{updated};
    ghost use Rattle.ot_parts.specs.Parts.{parts_of};
    ghost use Rattle.ot_job_task.specs.Pieces.{leading, awake, piece_begun};
    ghost use Rattle.ot_job.specs.Claiming.{claimable_of, picked_at};
    ghost use Rattle.ot_job.specs.Dealings.{any_out, all_ended};
    ghost use Rattle.ot_job.specs.Calls.{HasPiece, MayEnd, MayFinish};

    /// The root task alone, at the beginning of the program's body. There is room for so many more tasks.
    pub fn root(alloc: Global, body: Arc<Vec<Part>>, more: u32) -> Result<Tasks, AllocError>
        ensures { IfOk result (λ tasks. tasks ≡ root_region (parts_of (arc_value body).items) ∷ []) }
    {
        let mut tasks = Vec::with_capacity(alloc, more as usize + 1)?;
        let roster = Roster::alone(alloc)?;
        tasks.push_reserved(Task::root(alloc, body));
        Ok(Tasks { tasks, roster })
    }

    /// All of them.
    pub fn all(&self) -> &[Task]
        ensures { result.now ≡ self.now }
    {
        &self.tasks
    }

    /// The task of this number.
    pub fn get(&self, i: usize) -> &Task
        requires { i < length self.now }
        ensures { result.now ≡ slice_index_or self.now i result.now }
    {
        &self.tasks[i]
    }

    /// Whether a piece of some task is out.
    pub fn any_out(&self) -> bool
        ensures { result ≡ any_out self.now }
    {
        self.roster.any_out()
    }

    /// Whether each task has ended its body.
    pub fn all_ended(&self) -> bool
        ensures { result ≡ all_ended self.now }
    {
        self.roster.all_ended()
    }

    /// How many are claimable.
    pub fn claimable(&self) -> usize
        ensures { result ≡ length (claimable_of self.now) }
    {
        self.roster.count()
    }

    /// The claimable task at `pick` modulo their count.
    pub fn pick(&self, pick: usize) -> Option<usize>
        ensures { result ≡ picked_at (claimable_of self.now) pick }
    {
        let count = self.roster.count();
        if count == 0 {
            return None;
        }
        self.roster.at(pick % count)
    }

    /// A task goes on with a piece that is out from now on, of which it keeps this. It takes no memory.
    pub fn begin(&mut self, i: usize, running: Running)
        requires known { i < length self.old }
        requires idle { (at self.old i).running ≡ None }
        requires assigns { running.assigns ≡ leading (awake (at self.old i)).rest }
        ensures { self.new ≡ updated self.old i (piece_begun running.worker running.lease) }
    {
        self.tasks[i].begin(running);
        self.roster.begin(i);
    }

    /// The piece of a task is not out any more. It takes no memory.
    pub fn stop(&mut self, i: usize)
        requires { HasPiece self.old i }
        ensures { self.new ≡ updated self.old i region_stopped }
    {
        self.tasks[i].stop();
        self.roster.stop(i, is_claimable(&self.tasks, i));
    }

    /// Settles a task's piece: the task ends its body where it has reached its end, and else executes
    /// the control statement that comes next. Where memory is refused, nothing changes.
    pub fn settle(
        &mut self,
        alloc: Global,
        i: usize,
        taken: bool,
        group: u32,
    ) -> Result<(), AllocError>
        requires { MayEnd self.old i }
        ensures ordered { OnOk result (CreatesInOrder (at self.old i)) }
        ensures settled { OnOk result (self.new ≡ regions_settled taken group i self.old) }
        ensures refused { OnErr result (self.new ≡ self.old) }
    {
        self.move_on(alloc, i, taken, group)?;
        self.stop(i);
        Ok(())
    }

    /// A task ends its body where it has reached its end, and else executes the control statement that
    /// comes next. Where memory is refused, nothing changes.
    fn move_on(
        &mut self,
        alloc: Global,
        i: usize,
        taken: bool,
        group: u32,
    ) -> Result<(), AllocError>
        requires { MayEnd self.old i }
        ensures ordered { OnOk result (CreatesInOrder (at self.old i)) }
        ensures moved { OnOk result (self.new ≡ moved_on taken group i self.old) }
        ensures refused { OnErr result (self.new ≡ self.old) }
    {
        if self.tasks[i].is_at_end() {
            self.close(i);
            Ok(())
        } else if self.tasks[i].tasks_next() == 0 {
            self.advance(alloc, i, taken, group)
        } else {
            self.create(alloc, i, taken, group)
        }
    }

    /// A task ends its body. It takes no memory.
    fn close(&mut self, i: usize)
        requires { MayEnd self.old i }
        ensures { self.new ≡ region_ended_at i self.old }
    {
        if i > 0 {
            self.tell_parent(i);
        }
        self.end(i);
    }

    /// Tells the parent that a child has finished. It takes no memory.
    fn tell_parent(&mut self, i: usize)
        requires known { i < length self.old }
        requires finish { MayFinish self.old i }
        ensures { self.new ≡ updated self.old (parent_of self.old i) (without (at self.old i).child) }
    {
        let (parent, child) = self.tasks[i].place_among();
        let waiters = self.tasks[parent].release_child(child);
        self.roster.mark(parent, is_claimable(&self.tasks, parent));
        refresh_children(&mut self.roster, &self.tasks, parent, &waiters);
    }

    /// A task has ended its body. It takes no memory.
    fn end(&mut self, i: usize)
        requires piece { HasPiece self.old i }
        requires alive { (at self.old i).ended ≡ false }
        ensures { self.new ≡ updated self.old i over }
    {
        self.tasks[i].end();
        self.roster.end();
    }

    /// A task executes the control statement that comes next, if one does, which is not a task. Where
    /// memory is refused, nothing changes.
    fn advance(
        &mut self,
        alloc: Global,
        i: usize,
        taken: bool,
        group: u32,
    ) -> Result<(), AllocError>
        requires piece { HasPiece self.old i }
        requires none { tasks_next (at self.old i).rest ≡ 0 }
        ensures ordered { OnOk result (CreatesInOrder (at self.old i)) }
        ensures executed { OnOk result (self.new ≡ control_executed taken group i self.old) }
        ensures refused { OnErr result (self.new ≡ self.old) }
    {
        execute(&mut self.tasks, alloc, i, taken, group)
    }

    /// A task creates the task that comes next. Where memory is refused, nothing changes.
    fn create(&mut self, alloc: Global, i: usize, taken: bool, group: u32) -> Result<(), AllocError>
        requires piece { HasPiece self.old i }
        requires some { tasks_next (at self.old i).rest ≡ 0 → ⊥ }
        ensures ordered { OnOk result (CreatesInOrder (at self.old i)) }
        ensures executed { OnOk result (self.new ≡ control_executed taken group i self.old) }
        ensures refused { OnErr result (self.new ≡ self.old) }
    {
        let number = self.tasks.len();
        self.roster.make_room(i)?;
        execute(&mut self.tasks, alloc, i, taken, group)?;
        let claimable = is_claimable(&self.tasks, number);
        self.roster.add(alloc, i, claimable);
        Ok(())
    }
}

/// Executes the control statement that comes next for task `i`, if one does: the one body or the other
/// of an `if`, the group under this number. Where memory is refused, nothing changes.
pub fn execute(
    tasks: &mut Vec<Task>,
    alloc: Global,
    i: usize,
    taken: bool,
    group: u32,
) -> Result<(), AllocError>
    requires known { i < vec_len tasks.old }
    ensures executed { OnOk result (tasks.new.items ≡ control_executed taken group i tasks.old.items) }
    ensures ordered { OnOk result (CreatesInOrder (at tasks.old.items i)) }
    ensures refused { OnErr result (tasks.new.items ≡ tasks.old.items) }
    ensures long { length tasks.old.items ≤ length tasks.new.items }
{
    tasks.reserve(1)?;
    if let Some(child) = tasks[i].step(alloc, i, taken, group)? {
        tasks.push_reserved(child);
    }
    Ok(())
}

/// The weight of all tasks.
pub fn weigh_tasks(tasks: &[Task]) -> u64
    requires { weight_of tasks.now < 2 ^ 64 }
    ensures { result ≡ weight_of tasks.now }
{
    let mut sum = 0;
    for task in tasks {
        sum += task.weigh();
    }
    sum
}
