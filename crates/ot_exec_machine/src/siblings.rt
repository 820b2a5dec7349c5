//! Children that depend by cells in no order among themselves.
ghost use Rattle.std.specs.Prelude.{◌≡◌, ◌∷◌, [], Ok};
ghost use Rattle.ot_model.specs.declared.stmt.Mode.TheVariants.{Writes};
ghost use Rattle.ot_parts.specs.Modes.{use_as};
ghost use Rattle.ot_exec_state.specs.Results.{Gives, each};
ghost use Rattle.ot_exec_state.specs.View.{locks_of};
ghost use Rattle.ot_exec_machine.specs.Steps.{parting, parting_where, excluding, siding_at, siding, holding_own};
ghost use Rattle.ot_exec_machine.specs.View.{machine_state};

use crate::machine::Machine;
use ot_exec_code::{Depends, Item};
use ot_exec_state::{Halt, Limits, Lock, Locks, Reason, mode_at, put_behind, turns};
use ot_model::{Cell, Decl, Mode, Use};
use std::alloc::Global;

/// What declares that a cell is written.
fn only_written(alloc: Global, cell: Cell) -> Result<Decl, Halt>
    ensures { Gives (λ d. d) result (Ok (use_as Writes cell ∷ [])) }
{
    let mut uses = Vec::new(alloc);
    uses.push(Use {
        cell,
        mode: Mode::Writes,
    })?;
    Ok(Decl::new(uses))
}

/// The locks of a child that excludes its siblings by an item.
#[tactic(auto, unfolding(crate::specs::Steps::excluding))]
fn exclude(
    locks: &mut Locks,
    limits: Limits,
    mode: Depends,
    lock: Lock,
    set: &mut Vec<u32>,
) -> Result<(), Halt>
    ensures { Gives (λ _. (set.new.items, locks_of locks.new)) result (excluding limits mode lock set.old.items (locks_of locks.old)) }
{
    match mode {
        Depends::MutexInOutSet => locks.add(limits, lock, set),
        Depends::In | Depends::InOut | Depends::InOutSet => Ok(()),
    }
}

impl Machine {
    /// An empty child that writes a cell stands between siblings that name it.
    #[tactic(auto, unfolding(crate::specs::Steps::parting))]
    fn part(&mut self, alloc: Global, limits: Limits, site: u32, cell: Cell) -> Result<(), Halt>
        ensures { Gives (λ _. machine_state self.new) result (parting limits site cell (machine_state self.old)) }
    {
        let task = self.trail.task;
        let context = self.trail.context;
        let decl = only_written(alloc, cell)?;
        self.begin_task(alloc, limits, site, decl)?;
        self.trail.by_task(task, context);
        Ok(())
    }

    #[tactic(auto, unfolding(crate::specs::Steps::parting_where))]
    fn part_where(
        &mut self,
        alloc: Global,
        limits: Limits,
        turns: bool,
        site: u32,
        cell: Cell,
    ) -> Result<(), Halt>
        ensures { Gives (λ _. machine_state self.new) result (parting_where turns limits site cell (machine_state self.old)) }
    {
        if turns {
            self.part(alloc, limits, site, cell)
        } else {
            Ok(())
        }
    }

    /// Behind a child that depends by a cell so, and holds these locks besides.
    #[tactic(auto, unfolding(crate::specs::Steps::siding_at))]
    fn side_at(
        &mut self,
        alloc: Global,
        limits: Limits,
        site: u32,
        mode: Depends,
        cell: Cell,
        set: &mut Vec<u32>,
    ) -> Result<(), Halt>
        ensures { Gives (λ _. (machine_state self.new, set.new.items)) result (siding_at limits site mode cell (machine_state self.old, set.old.items)) }
    {
        let last = mode_at(&self.siblings, self.trail.task, cell);
        self.part_where(alloc, limits, turns(mode, last), site, cell)?;
        let task = self.trail.task;
        put_behind(&mut self.siblings, limits, task, cell, mode)?;
        let lock = Lock::ByItem(task, cell.array, cell.index);
        exclude(&mut self.locks, limits, mode, lock, set)?;
        Ok(())
    }

    #[tactic(auto, unfolding(crate::specs::Steps::siding))]
    fn side_one(
        &mut self,
        alloc: Global,
        limits: Limits,
        site: u32,
        item: Item,
        set: &mut Vec<u32>,
    ) -> Result<(), Halt>
        ensures { Gives (λ _. (machine_state self.new, set.new.items)) result (siding limits site item (machine_state self.old, set.old.items)) }
    {
        let place = self.slots.read(item.slot)?;
        match self.memory.span_at(place, 1) {
            Ok(span) => {
                let cell = Cell {
                    array: span.object,
                    index: span.index,
                };
                self.side_at(alloc, limits, site, item.mode, cell, set)
            }
            // no cell is there
            Err(Halt::For(Reason::Outside)) => Ok(()),
            Err(halt) => Err(halt),
        }
    }

    /// The same of all items.
    pub(crate) fn side(
        &mut self,
        alloc: Global,
        limits: Limits,
        site: u32,
        items: &[Item],
        set: &mut Vec<u32>,
    ) -> Result<(), Halt>
        ensures { Gives (λ _. (machine_state self.new, set.new.items)) result (each (siding limits site) items.now (machine_state self.old, set.old.items)) }
    {
        for item in items {
            self.side_one(alloc, limits, site, *item, set)?;
        }
        Ok(())
    }

    /// The task that runs holds these locks.
    #[tactic(auto, unfolding(crate::specs::Steps::holding_own))]
    pub(crate) fn hold_own(&mut self, limits: Limits, set: Vec<u32>) -> Result<(), Halt>
        ensures { Gives (λ _. machine_state self.new) result (holding_own limits set.items (machine_state self.old)) }
    {
        self.locks.hold(limits, set)?;
        Ok(())
    }
}
