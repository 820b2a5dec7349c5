//! What the machine does with tasks and regions.
ghost use Rattle.std.specs.Prelude.{◌≡◌, IfOk};
ghost use Rattle.ot_model.specs.Cells.{AreInOrder};
ghost use Rattle.ot_exec_state.specs.Results.{Gives};
ghost use Rattle.ot_exec_machine.specs.Steps.{is_undeferred, apart, beginning_task, opening, tasking, awaiting, finishing, waiting, waiting_for, grouping, leaving, joining};
ghost use Rattle.ot_exec_machine.specs.View.{machine_state};
ghost use Rattle.ot_exec_state.specs.View.{slots_of, memory_of};

use crate::machine::Machine;
use ot_exec_code::{Folded, Item};
use ot_exec_outline::Did;
use ot_exec_state::{
    Halt, Kept, Limits, Memory, Reason, Slots, Value, add_use, items_of, parts_of,
};
use ot_model::{Cell, Decl, Fold, Mode, Use};
use std::alloc::Global;

/// Whether a task is undeferred.
fn at_once(slots: &Slots, when: Option<u32>, answer: bool) -> Result<bool, Halt>
    ensures { Gives (λ b. b) result (is_undeferred (slots_of slots.now) when answer) }
{
    match when {
        Some(slot) => {
            let value = slots.read(slot)?;
            Ok(!value.is_so(answer))
        }
        None => Ok(false),
    }
}

/// How the end of a task is told that declares this. That of one that is undeferred stands for a write of a cell of its own.
#[tactic(auto, unfolding(crate::specs::Steps::apart))]
fn apart(
    limits: Limits,
    site: u32,
    now: bool,
    uses: &mut Vec<Use>,
    memory: &mut Memory,
) -> Result<Kept, Halt>
    requires { AreInOrder uses.old.items }
    ensures told { Gives (λ kept. ((uses.new.items, kept), memory_of memory.new)) result (apart limits site now uses.old.items (memory_of memory.old)) }
    ensures ordered { IfOk result (λ _. AreInOrder uses.new.items) }
{
    if !now {
        return Ok(Kept::Deferred);
    }
    let object = memory.begin(limits, 0, Value::Unknown, 0)?;
    let cell = Cell {
        array: object,
        index: 0,
    };
    add_use(
        uses,
        Use {
            cell,
            mode: Mode::Writes,
        },
    )?;
    Ok(Kept::AtOnce(site, object))
}

/// What a form says of a task that is created.
#[derive(Clone, Copy)]
pub(crate) struct Created<'a> {
    pub(crate) site: u32,
    pub(crate) first: u32,
    pub(crate) slots: u32,
    pub(crate) behind: u32,
    pub(crate) items: &'a Vec<Item>,
    pub(crate) when: Option<u32>,
}

impl Machine {
    #[tactic(auto, unfolding(crate::specs::Steps::tasking))]
    pub(crate) fn create(
        &mut self,
        alloc: Global,
        limits: Limits,
        it: Created<'_>,
        answer: bool,
    ) -> Result<(), Halt>
        ensures { Gives (λ _. machine_state self.new) result
            (tasking limits it.entry.site it.entry.first it.entry.slots it.entry.behind it.entry.items.now.items it.entry.when answer (machine_state self.old)) }
    {
        let uses = items_of(
            alloc,
            limits,
            &self.slots,
            &self.memory,
            None,
            &self.siblings,
            it.items,
        )?;
        let mut set = Vec::new(alloc);
        self.side(alloc, limits, it.site, it.items, &mut set)?;
        self.open(alloc, limits, it, uses, answer, set)
    }

    /// A task begins that declares this, and holds these locks.
    #[tactic(auto, unfolding(crate::specs::Steps::opening))]
    fn open(
        &mut self,
        alloc: Global,
        limits: Limits,
        it: Created<'_>,
        declared: Vec<Use>,
        answer: bool,
        set: Vec<u32>,
    ) -> Result<(), Halt>
        requires { AreInOrder declared.items }
        ensures { Gives (λ _. machine_state self.new) result
            (opening limits it.entry.site it.entry.first it.entry.slots it.entry.behind declared.items it.entry.when answer (machine_state self.old) set.items) }
    {
        let mut uses = declared;
        let now = at_once(&self.slots, it.when, answer)?;
        let kept = apart(limits, it.site, now, &mut uses, &mut self.memory)?;
        let frame = self.frame(it.behind as usize, kept);
        self.nest.open(limits, frame)?;
        self.slots.enter(limits, it.first, it.slots)?;
        self.hold_own(limits, set)?;
        self.begin_task(alloc, limits, it.site, Decl::new(uses))
    }

    /// The next task begins, which declares this.
    #[tactic(auto, unfolding(crate::specs::Steps::beginning_task))]
    pub(crate) fn begin_task(
        &mut self,
        alloc: Global,
        limits: Limits,
        site: u32,
        decl: Decl,
    ) -> Result<(), Halt>
        ensures { Gives (λ _. machine_state self.new) result (beginning_task limits site decl (machine_state self.old)) }
    {
        if self.tasks >= limits.tasks {
            return Err(Halt::For(Reason::TooManyTasks));
        }
        let parent = self.trail.task;
        let context = self.trail.context;
        let task = self.tasks + 1;
        self.tasks = task;
        self.trail.by_task(task, context);
        self.trail.note(limits, site, 0, Did::Begins(parent, decl), Vec::new(alloc))?;
        Ok(())
    }

    /// The parent of a task that was undeferred awaits it.
    #[tactic(auto, unfolding(crate::specs::Steps::awaiting))]
    fn await_it(&mut self, alloc: Global, limits: Limits, kept: Kept) -> Result<(), Halt>
        ensures { Gives (λ _. machine_state self.new) result (awaiting limits kept (machine_state self.old)) }
    {
        match kept {
            Kept::Call => Err(Halt::For(Reason::Broken)),
            Kept::Deferred => Ok(()),
            Kept::AtOnce(site, object) => {
                let decl = only_read(alloc, object)?;
                self.trail
                    .note(limits, site, 0, Did::Awaits(Some(decl)), Vec::new(alloc))?;
                Ok(())
            }
        }
    }

    #[tactic(auto, unfolding(crate::specs::Steps::finishing))]
    pub(crate) fn finish(&mut self, alloc: Global, limits: Limits) -> Result<(), Halt>
        ensures { Gives (λ _. machine_state self.new) result (finishing limits (machine_state self.old)) }
    {
        let frame = self.nest.close()?;
        self.resume(frame);
        self.hold_again(frame.held);
        self.await_it(alloc, limits, frame.kept)
    }

    #[tactic(auto, unfolding(crate::specs::Steps::waiting))]
    pub(crate) fn wait(&mut self, alloc: Global, limits: Limits, site: u32) -> Result<(), Halt>
        ensures { Gives (λ _. machine_state self.new) result (waiting limits site (machine_state self.old)) }
    {
        self.trail
            .note(limits, site, 0, Did::Awaits(None), Vec::new(alloc))?;
        Ok(())
    }

    #[tactic(auto, unfolding(crate::specs::Steps::waiting_for))]
    pub(crate) fn wait_for(
        &mut self,
        alloc: Global,
        limits: Limits,
        site: u32,
        items: &Vec<Item>,
    ) -> Result<(), Halt>
        ensures { Gives (λ _. machine_state self.new) result (waiting_for limits site items.now.items (machine_state self.old)) }
    {
        let task = self.trail.task;
        let uses = items_of(
            alloc,
            limits,
            &self.slots,
            &self.memory,
            Some(task),
            &self.siblings,
            items,
        )?;
        self.trail.note(
            limits,
            site,
            0,
            Did::Awaits(Some(Decl::new(uses))),
            Vec::new(alloc),
        )?;
        Ok(())
    }

    #[tactic(auto, unfolding(crate::specs::Steps::grouping))]
    pub(crate) fn group(
        &mut self,
        alloc: Global,
        limits: Limits,
        items: &Vec<Folded>,
    ) -> Result<(), Halt>
        ensures { Gives (λ _. machine_state self.new) result (grouping limits items.now.items (machine_state self.old)) }
    {
        let parts = parts_of(alloc, limits, &self.slots, &self.memory, items)?;
        let start = self.trail.rows.len();
        self.nest.group(limits, start, &parts)?;
        Ok(())
    }

    #[tactic(auto, unfolding(crate::specs::Steps::leaving))]
    pub(crate) fn leave(&mut self, alloc: Global, limits: Limits, site: u32) -> Result<(), Halt>
        ensures { Gives (λ _. machine_state self.new) result (leaving limits site (machine_state self.old)) }
    {
        let mut parts = Vec::new(alloc);
        let start = self.nest.ungroup(&mut parts)?;
        self.trail.leave(alloc, limits, site, start, &parts)?;
        Ok(())
    }

    #[tactic(auto, unfolding(crate::specs::Steps::joining))]
    pub(crate) fn join(&mut self, fold: Fold, slot: u32) -> Result<(), Halt>
        ensures { Gives (λ _. machine_state self.new) result (joining fold slot (machine_state self.old)) }
    {
        let place = self.slots.read(slot)?;
        let span = self.memory.span_at(place, 1)?;
        if self.nest.joins(fold, span) {
            Ok(())
        } else {
            Err(Halt::For(Reason::NoGroup))
        }
    }
}

ghost use Rattle.std.specs.Prelude.{◌∷◌, [], Ok};
ghost use Rattle.ot_model.specs.declared.stmt.Mode.TheVariants.{Reads};
ghost use Rattle.ot_parts.specs.Modes.{use_as};
ghost use Rattle.ot_exec_state.specs.Memory.{cell};

/// What declares that the first cell of an object is read.
fn only_read(alloc: Global, object: u32) -> Result<Decl, Halt>
    ensures { Gives (λ d. d) result (Ok (use_as Reads (cell object 0) ∷ [])) }
{
    let cell = Cell {
        array: object,
        index: 0,
    };
    let mut uses = Vec::new(alloc);
    uses.push(Use {
        cell,
        mode: Mode::Reads,
    })?;
    Ok(Decl::new(uses))
}
