//! Which events are before which.
ghost use Rattle.std.specs.Prelude.{◌≡◌, ◌<◌, ◌+◌, ◌^◌, ◌↔◌, ℕ, IfOk, OnOk, true, false, length};
ghost use Rattle.ot_race.specs.Order.{IsBefore};
ghost use Rattle.ot_sets.specs.Sets.{has};
ghost use Rattle.ot_race.specs.Standings.{kept_at, last_of, IsUpTo, AreKept, ArePending};
ghost use Rattle.ot_race.specs.Siblings.{AreSiblings};
ghost use Rattle.ot_race.specs.Stands.{Stands, SiblingsNote, PendingNote};
ghost use Rattle.ot_race.specs.View.{events_in};

use crate::ends::ends_of;
use crate::event::{Deed, Event};
use crate::siblings::{Moment, Siblings};
use crate::standing::{
    Standing, add_pending, add_touch, join_inside, join_listed, join_pending, join_task,
    pass_pending, settle,
};
use ot_sets::Numbers;
use std::alloc::{AllocError, Global};

/// What is kept of all tasks: whoever goes along a list of events learns from it which events are before each.
#[derive(Drop)]
pub struct Standings {
    tasks: Vec<Standing>,
    siblings: Siblings,
    /// Where each task ends in the whole list.
    ends: Vec<u32>,
}

impl Standings {
    /// What is kept before the first event.
    pub fn new(alloc: Global, events: &[Event<'_>]) -> Result<Standings, AllocError>
        requires { length events.now < 2 ^ 32 }
        ensures { IfOk result (Stands (events_in events.now) 0) }
    {
        let ends = ends_of(alloc, events)?;
        Ok(Standings {
            tasks: Vec::new(alloc),
            siblings: Siblings::new(alloc),
            ends,
        })
    }

    /// Takes an event in, where what is kept is that of all events before it. Before a touch is just what
    /// its task knows: so the touch is put into the task's own set.
    pub fn take_in(
        &mut self,
        alloc: Global,
        events: &[Event<'_>],
        number: u32,
    ) -> Result<(), AllocError>
        requires there { number < length events.now }
        requires stands { Stands (events_in events.now) number self.old }
        ensures { OnOk result (Stands (events_in events.now) (number + 1) self.new) }
    {
        let event = &events[number as usize];
        if let Deed::Touches = event.deed {
            add_touch(alloc, &mut self.tasks, event.task, number)?;
            return Ok(());
        }
        let (tasks, siblings) = (&self.tasks, &self.siblings);
        let mut known = Numbers::new(alloc);
        join_before(alloc, &mut known, tasks, siblings, events, number)?;
        known.insert(number as usize)?;
        let at = Moment {
            number,
            ends: &self.ends,
        };
        note_siblings(alloc, &mut self.siblings, events, at)?;
        note_pending(alloc, &mut self.tasks, events, at)?;
        settle(alloc, &mut self.tasks, event.task, known, number)?;
        Ok(())
    }

    /// The event that was taken in last, and those that are before it.
    pub fn up_to(&self, events: &[Event<'_>], number: u32) -> &Numbers
        requires there { number < length events.now }
        requires stands { Stands (events_in events.now) (number + 1) self.now }
        ensures { (i : ℕ) → (has result.now i ≡ true) ↔ IsUpTo (events_in events.now) i number }
    {
        &self.tasks[events[number as usize].task as usize].known
    }
}

/// Puts the events that are before this one into an empty set.
fn join_before(
    alloc: Global,
    known: &mut Numbers,
    tasks: &[Standing],
    siblings: &Siblings,
    events: &[Event<'_>],
    number: u32,
) -> Result<(), AllocError>
    requires there { number < length events.now }
    requires empty { (i : ℕ) → has known.old i ≡ false }
    requires kept { AreKept (events_in events.now) number tasks.now }
    requires pending { ArePending (events_in events.now) number tasks.now }
    requires siblings { AreSiblings (events_in events.now) number tasks.now siblings.now }
    ensures { OnOk result ((i : ℕ) → (has known.new i ≡ true) ↔ IsBefore (events_in events.now) i number) }
{
    let event = &events[number as usize];
    join_task(known, tasks, event.task)?;
    match event.deed {
        Deed::Touches => Ok(()),
        Deed::Begins(parent, decl) => {
            join_task(known, tasks, parent)?;
            let listed = siblings.list(alloc, parent, decl.uses())?;
            join_listed(known, tasks, &listed)
        }
        Deed::Awaits(wait) => match wait {
            None => join_pending(known, tasks, event.task),
            Some(decl) => {
                let listed = siblings.list(alloc, event.task, decl.uses())?;
                join_listed(known, tasks, &listed)
            }
        },
        Deed::Leaves(count) => {
            join_inside(known, tasks, events, number.saturating_sub(count), number)
        }
    }
}

/// Notes by its cells a task that begins, and what a wait that declares cells awaited.
fn note_siblings(
    alloc: Global,
    siblings: &mut Siblings,
    events: &[Event<'_>],
    at: Moment<'_>,
) -> Result<(), AllocError>
    requires there { at.number < length events.now }
    ensures { OnOk result (SiblingsNote (events_in events.now) at.entry.number at.entry.ends.now siblings.old siblings.new) }
{
    let event = &events[at.number as usize];
    match event.deed {
        Deed::Begins(parent, decl) => { siblings.enter(alloc, parent, event.task, decl.uses(), at) }
        Deed::Awaits(wait) => match wait {
            Some(decl) => siblings.pass(alloc, event.task, decl.uses(), at),
            None => Ok(()),
        },
        Deed::Touches | Deed::Leaves(_) => Ok(()),
    }
}

/// Notes a task that begins as pending, and what a wait for all awaited.
fn note_pending(
    alloc: Global,
    tasks: &mut Vec<Standing>,
    events: &[Event<'_>],
    at: Moment<'_>,
) -> Result<(), AllocError>
    requires there { at.number < length events.now }
    ensures pending { OnOk result (PendingNote (events_in events.now) at.entry.number at.entry.ends.now tasks.old.items tasks.new.items) }
    ensures known { OnOk result ((t : ℕ) → (kept_at tasks.new.items t).known ≡ (kept_at tasks.old.items t).known) }
    ensures last { OnOk result ((t : ℕ) → last_of tasks.new.items t ≡ last_of tasks.old.items t) }
{
    let event = &events[at.number as usize];
    match event.deed {
        Deed::Begins(parent, _) => add_pending(alloc, tasks, parent, event.task),
        Deed::Awaits(wait) => match wait {
            None => pass_pending(alloc, tasks, event.task, at),
            Some(_) => Ok(()),
        },
        Deed::Touches | Deed::Leaves(_) => Ok(()),
    }
}
