ghost use Rattle.ot_job_task.specs.Regions.{Region, root_region, new_region, child_of, region_stepped, next_task, with_noted, is_control, tasks_next, group_next, with_child, with_rest, without, over, region_stopped, is_let_go, end_lets_go, region_weight};

use crate::place::Place;
use crate::running::Running;
use crate::waiting::Waiting;
use ot_depend::Siblings;
use ot_model::{Cell, Decl, Expr, Fold};
use ot_owner::Lent;
use ot_parts::{Assigns, Leading, Part};
use std::alloc::{AllocError, Global};
use std::marker::Model;
use std::sync::Arc;

/// A task that was created: where it stands, and its children.
#[derive(Debug, Drop)]
pub struct Task {
    parent: usize,
    child: usize,
    decl: Option<Arc<Decl>>,
    place: Place,
    children: Siblings,
    waiting: Waiting,
    ended: bool,
    running: Option<Running>,
}

impl Model for Task {
    ghost use Rattle.std.specs.Coded.{codes};
    ghost use Rattle.ot_model.specs.Code.{body_code};
    ghost use Rattle.ot_job_task.specs.Regions.{Region};

    ghost Value = { Region };

    ghost coded = { Prim.hlevel (codes, body_code) };

    ghost use Rattle.ot_job_task.specs.RegionView.{region_of};

    ghost view = { region_of };

    ghost use Rattle.ot_job_task.specs.RegionView.{KnowsFree};

    ghost invariant = { λ t. KnowsFree t.waiting t.children };
}

impl Task {
    ghost use Rattle.std.specs.Prelude.{◌≡◌, ◌+◌, ◌≤◌, ◌<◌, ◌^◌, ◌↔◌, ◌&&◌, true, not, if◌then◌else◌, ℕ, List, length, None, Some, is_some, option_map, All, IsTrue, OnOk, OnErr, IfOk};
    ghost use Rattle.std.specs.Arc.{arc_value};
    ghost use Rattle.ot_model.specs.Names.{NamedIn};
    ghost use Rattle.ot_model.specs.Tree.{Body};
    ghost use Rattle.ot_model.specs.Cells.{AreInOrder};
    ghost use Rattle.ot_model.specs.View.{expr_of};
    ghost use Rattle.ot_model.specs.declared.stmt.Use.{Use};
    ghost use Rattle.ot_parts.specs.Parts.{past_control, parts_of};
    ghost use Rattle.ot_parts.specs.Assigns.{AreHeldBy};
    ghost use Rattle.ot_depend.specs.Siblings.{IsReady, IsUnfinished, is_ready, with_finished, LetsTheSame, WaitForLess};
    ghost use Rattle.ot_job_task.specs.Pieces.{leading, after_parts, test_of, awake, piece_begun, Runs, group_passed, is_at_end};

    /// The root task at the beginning of the program's body. It takes no memory.
    pub fn root(alloc: Global, body: Arc<Vec<Part>>) -> Task
        ensures { result ≡ root_region (parts_of (arc_value body).items) }
    {
        Task {
            parent: 0,
            child: 0,
            decl: None,
            place: Place::new(alloc, body),
            children: Siblings::new(alloc),
            waiting: Waiting::Nowhere,
            ended: false,
            running: None,
        }
    }

    /// A child at the beginning of its body, which shares its declaration. It takes no memory.
    fn new(
        alloc: Global,
        parent: usize,
        child: usize,
        decl: Arc<Decl>,
        body: Arc<Vec<Part>>,
    ) -> Task
        ensures { result ≡ new_region parent child (arc_value decl) (parts_of (arc_value body).items) }
    {
        Task {
            parent,
            child,
            decl: Some(decl),
            place: Place::new(alloc, body),
            children: Siblings::new(alloc),
            waiting: Waiting::Nowhere,
            ended: false,
            running: None,
        }
    }

    /// The number of the task that created it, and its own number among that task's children.
    pub fn place_among(&self) -> (usize, usize)
        ensures { result ≡ (self.now.parent, self.now.child) }
    {
        (self.parent, self.child)
    }

    /// Whether a child may begin as far as its earlier siblings go.
    pub fn lets_begin(&self, child: usize) -> bool
        ensures { result ≡ is_ready self.now.children child }
    {
        self.children.ready(child)
    }

    /// Whether it has not ended, and no piece of it is out.
    pub fn is_idle(&self) -> bool
        ensures { result ≡ (not self.now.ended && not (is_some self.now.running)) }
    {
        !self.ended && self.running.is_none()
    }

    /// Whether a piece of it is out.
    fn is_out(&self) -> bool
        ensures { result ≡ is_some self.now.running }
    {
        self.running.is_some()
    }

    /// Its weight. It takes no memory.
    pub fn weigh(&self) -> u64
        requires { region_weight self.now < 2 ^ 64 }
        ensures { result ≡ region_weight self.now }
    {
        if self.ended {
            return 0;
        }
        1 + self.place.weigh(self.is_out())
    }

    /// Whether no group's end holds it.
    fn end_lets_go(&self) -> bool
        ensures { result ≡ end_lets_go self.now.rest self.now.groups self.now.children }
    {
        match self.group_passed() {
            Some(group) => self.children.unfinished_in(group) == 0,
            None => true,
        }
    }

    /// Whether neither a wait nor a group's end holds it.
    pub fn is_let_go(&self) -> bool
        ensures { result ≡ is_let_go self.now }
    {
        self.waiting.lets_go(&self.children) && self.end_lets_go()
    }

    /// What comes first once it goes on. What that names is to be there in arrays of some lengths.
    pub(crate) fn leading(&self, alloc: Global) -> Result<Leading, AllocError>
        requires named { (lens : List ℕ) × NamedIn lens (awake self.now).rest }
        ensures assigns { IfOk result (λ l. l.assigns ≡ leading (awake self.now).rest) }
        ensures condition { IfOk result (λ l. option_map expr_of l.condition ≡ test_of (after_parts (awake self.now).rest)) }
        ensures held { IfOk result (λ l. AreHeldBy self.now.own (leading (awake self.now).rest) (test_of (after_parts (awake self.now).rest)) (arc_value l.held)) }
        ensures ordered { IfOk result (λ l. AreInOrder (arc_value l.held)) }
    {
        self.place.leading(alloc, self.own())
    }

    /// What it declares, if it isn't the root.
    fn own(&self) -> Option<&Decl>
        ensures { option_map (λ o. o.now) result ≡ self.now.own }
    {
        match &self.decl {
            Some(decl) => Some(decl),
            None => None,
        }
    }

    /// The number of the innermost open group, where its end is reached: as it goes on it passes that end.
    pub fn group_passed(&self) -> Option<u32>
        ensures { result ≡ group_passed self.now }
    {
        if !self.place.is_at_end() {
            return None;
        }
        Some(self.place.groups.last()?.group)
    }

    /// The operation and the cells of the group that the control statement which comes next enters, if it
    /// does.
    pub fn group_next(&self) -> Option<(Fold, &[Cell])>
        ensures { option_map (λ g. (g.0, g.1.now)) result ≡ group_next self.now.rest }
    {
        match self.place.next_control()? {
            Part::Group(_, op, cells, _) => Some((*op, cells.as_slice())),
            _ => None,
        }
    }

    /// Goes on with a piece that is out from now on, of which it keeps this. It takes no memory.
    pub fn begin(&mut self, running: Running)
        requires { running.assigns ≡ leading (awake self.old).rest }
        ensures { self.new ≡ piece_begun running.worker running.lease self.old }
    {
        self.place.go_on();
        self.waiting = Waiting::Nowhere;
        self.running = Some(running);
    }

    /// The worker that has its piece. One is to be out.
    pub fn worker(&self) -> u32
        requires { is_some self.now.running ≡ true }
        ensures { option_map (λ run. run.worker) self.now.running ≡ Some result }
    {
        let Some(running) = &self.running else {
            unreachable!()
        };
        running.worker()
    }

    /// Whether it runs these assigns with this condition on these inputs.
    pub fn runs(&self, assigns: &Assigns, condition: Option<&Expr>, lent: &Lent) -> bool
        ensures { IsTrue result ↔ Runs self.now assigns.now (option_map (λ e. expr_of e.now) condition.entry) lent.now }
    {
        match &self.running {
            Some(running) => running.is_of(assigns, lent) && self.place.has_test(condition),
            None => false,
        }
    }

    /// The unit of the control statement that comes next, if one does.
    pub fn units_next(&self) -> u32
        ensures exact { result ≡ (if is_control self.now.rest then 1 else 0) }
        ensures one { result ≤ 1 }
    {
        if self.place.is_at_end() { 0 } else { 1 }
    }

    /// How many tasks the statement that comes next creates.
    pub fn tasks_next(&self) -> u32
        ensures exact { result ≡ tasks_next self.now.rest }
        ensures one { result ≤ 1 }
    {
        let Some(part) = self.place.next_control() else {
            return 0;
        };
        match part {
            Part::Task(_, _, _) => 1,
            _ => 0,
        }
    }

    /// Whether its place is at its body's end.
    pub fn is_at_end(&self) -> bool
        ensures { result ≡ is_at_end self.now.rest self.now.groups }
    {
        self.place.is_at_end() && self.place.groups.is_empty()
    }

    /// Notes a child that is created where it stands. The answer is its number, counted from 0. Where
    /// memory is refused, nothing changes.
    fn note_child(&mut self, alloc: Global, decl: Arc<Decl>) -> Result<usize, AllocError>
        ensures number { IfOk result (λ child. child ≡ length self.old.children) }
        ensures noted { OnOk result (self.new ≡ with_child (arc_value decl) self.old) }
        ensures refused { OnErr result (self.new ≡ self.old) }
    {
        let groups = self.place.group_numbers(alloc)?;
        let child = self.children.add(alloc, decl, &groups)?;
        self.waiting.begin_again();
        Ok(child)
    }

    /// A child has finished. The answer is the children that waited for it by themselves, each once: those
    /// wait for less now, and each other is as ready as before.
    pub fn release_child(&mut self, child: usize) -> Vec<usize>
        requires ready { IsReady self.old.children child }
        requires unfinished { IsUnfinished self.old.children child }
        ensures released { self.new ≡ without child self.old }
        ensures known { All (λ w. w < length self.old.children) result.items }
        ensures others { LetsTheSame result.items self.old.children (with_finished self.old.children child) }
        ensures exact { WaitForLess result.items self.old.children (with_finished self.old.children child) }
    {
        let freed = self.children.release(child);
        self.waiting.pass_free(&self.children);
        freed
    }

    /// It has ended its body.
    pub fn end(&mut self)
        ensures { self.new ≡ over self.old }
    {
        self.ended = true;
    }

    /// No piece of it is out any more.
    pub fn stop(&mut self)
        ensures { self.new ≡ region_stopped self.old }
    {
        self.running = None;
    }

    /// Executes the control statement that comes next, if one does: the one body or the other of an
    /// `if`, the group under this number. Where it creates a task, the answer is the child of this task,
    /// whose own number is `number`. Where memory is refused, nothing changes.
    pub fn step(
        &mut self,
        alloc: Global,
        number: usize,
        taken: bool,
        group: u32,
    ) -> Result<Option<Task>, AllocError>
        ensures stepped { OnOk result (self.new ≡ with_noted (next_task self.old.rest) (region_stepped taken group self.old)) }
        ensures child { IfOk result (λ child. child ≡ option_map (child_of number self.old) (next_task self.old.rest)) }
        ensures ordered { OnOk result ((c : List Use × Body) → next_task self.old.rest ≡ Some c → AreInOrder c.0) }
        ensures refused { OnErr result (self.new ≡ self.old) }
    {
        let Some(part) = self.place.next_control() else {
            return Ok(None);
        };
        match part {
            Part::Task(_, decl, body) => {
                let _ = decl.uses();
                let noted = Arc::try_clone(decl)?;
                let decl = Arc::try_clone(decl)?;
                let body = Arc::try_clone(body)?;
                self.create(alloc, number, noted, decl, body)
            }
            Part::If(_, _, _) => {
                self.place.branch(taken)?;
                Ok(None)
            }
            Part::Wait(_, decl) => {
                let waiting = Waiting::at(alloc, decl.as_ref())?;
                self.place.pass_control();
                self.waiting = waiting;
                Ok(None)
            }
            Part::Group(_, op, cells, body) => {
                let op = *op;
                let cells = cells.as_slice().to_vec(alloc)?;
                let body = Arc::try_clone(body)?;
                self.place.enter(alloc, group, op, cells, body)?;
                Ok(None)
            }
            Part::End(_) => Ok(None),
        }
    }

    /// Goes past the control statement that comes next, and creates a task with this declaration, which is noted,
    /// and this body. Where memory is refused, nothing changes.
    fn create(
        &mut self,
        alloc: Global,
        number: usize,
        noted: Arc<Decl>,
        decl: Arc<Decl>,
        body: Arc<Vec<Part>>,
    ) -> Result<Option<Task>, AllocError>
        requires { arc_value noted ≡ arc_value decl }
        ensures created { OnOk result (self.new ≡ with_child (arc_value decl) (with_rest (past_control self.old.rest) self.old)) }
        ensures child { IfOk result (λ child. child ≡ Some (child_of number self.old (arc_value decl, parts_of (arc_value body).items))) }
        ensures refused { OnErr result (self.new ≡ self.old) }
    {
        let child = self.note_child(alloc, noted)?;
        self.place.pass_control();
        Ok(Some(Task::new(alloc, number, child, decl, body)))
    }
}
