//! What a judge keeps of tasks: which events are before their next one.
ghost use Rattle.std.specs.Prelude.{◌≡◌, ◌≢◌, ◌<◌, ◌≤◌, ◌||◌, ◌⊎◌, ◌↔◌, ◌++◌, ◌==◌, ℕ, OnOk, true, [], ◌∷◌, length};
ghost use Rattle.ot_race.specs.Ends.{going_on};
ghost use Rattle.ot_sets.specs.Sets.{has, words_of};
ghost use Rattle.ot_race.specs.Standings.{kept_at, knows, last_of, pending_of, IsWhole, AreNested, IsOfListed, IsInside};
ghost use Rattle.ot_race.specs.View.{events_in};

use crate::ends::going_on;
use crate::event::Event;
use crate::siblings::Moment;
use ot_sets::Numbers;
use std::alloc::{AllocError, Global};

/// A task of the run.
#[derive(Drop)]
pub(crate) struct Standing {
    /// Its events so far, and all that is before them.
    pub(crate) known: Numbers,
    /// The last of its events.
    last: u32,
    /// Its children, without those that have ended before a wait for all of them.
    pending: Vec<u32>,
}

/// Puts all that a task knows into a set. It is there where the set has the task's last event.
pub(crate) fn join_task(
    known: &mut Numbers,
    tasks: &[Standing],
    task: u32,
) -> Result<(), AllocError>
    requires nested { AreNested tasks.now }
    requires whole { IsWhole tasks.now known.old }
    ensures joined { OnOk result ((i : ℕ) → (has known.new i ≡ true) ↔ ((has known.old i ≡ true) ⊎ (knows tasks.now task i ≡ true))) }
    ensures whole { OnOk result (IsWhole tasks.now known.new) }
{
    match tasks.get(task as usize) {
        Some(standing) if !known.has(standing.last as usize) => known.join(&standing.known),
        _ => Ok(()),
    }
}

/// The same for each of these tasks. They are looked at from the last: so of a chain of children, each
/// of which depends on the one before, one alone is joined.
pub(crate) fn join_listed(
    known: &mut Numbers,
    tasks: &[Standing],
    listed: &[u32],
) -> Result<(), AllocError>
    requires nested { AreNested tasks.now }
    requires whole { IsWhole tasks.now known.old }
    ensures joined { OnOk result ((i : ℕ) → (has known.new i ≡ true) ↔ ((has known.old i ≡ true) ⊎ IsOfListed tasks.now listed.now 0 i)) }
    ensures whole { OnOk result (IsWhole tasks.now known.new) }
{
    let count = listed.len();
    for passed in 0..count {
        join_task(known, tasks, listed[count - 1 - passed])?;
    }
    Ok(())
}

/// The same for each child of a task that is pending.
pub(crate) fn join_pending(
    known: &mut Numbers,
    tasks: &[Standing],
    parent: u32,
) -> Result<(), AllocError>
    requires nested { AreNested tasks.now }
    requires whole { IsWhole tasks.now known.old }
    ensures joined { OnOk result ((i : ℕ) → (has known.new i ≡ true) ↔ ((has known.old i ≡ true) ⊎ IsOfListed tasks.now (pending_of tasks.now parent) 0 i)) }
    ensures whole { OnOk result (IsWhole tasks.now known.new) }
{
    match tasks.get(parent as usize) {
        Some(standing) => join_listed(known, tasks, &standing.pending),
        None => Ok(()),
    }
}

/// The same for all tasks that have an event from this one on and before that one.
pub(crate) fn join_inside(
    known: &mut Numbers,
    tasks: &[Standing],
    events: &[Event<'_>],
    from: u32,
    until: u32,
) -> Result<(), AllocError>
    requires nested { AreNested tasks.now }
    requires whole { IsWhole tasks.now known.old }
    requires there { until ≤ length events.now }
    requires ordered { from ≤ until }
    ensures joined { OnOk result ((i : ℕ) → (has known.new i ≡ true)
        ↔ ((has known.old i ≡ true) ⊎ IsInside (events_in events.now) tasks.now from until i)) }
    ensures whole { OnOk result (IsWhole tasks.now known.new) }
{
    for inside in from..until {
        join_task(known, tasks, events[inside as usize].task)?;
    }
    Ok(())
}

/// Makes a place for this task.
fn reach(alloc: Global, tasks: &mut Vec<Standing>, task: u32) -> Result<(), AllocError>
    ensures same { (t : ℕ) → kept_at tasks.new.items t ≡ kept_at tasks.old.items t }
    ensures there { OnOk result (task < length tasks.new.items) }
{
    for _ in tasks.len()..task as usize + 1 {
        tasks.push(Standing {
            known: Numbers::new(alloc),
            last: 0,
            pending: Vec::new(alloc),
        })?;
    }
    Ok(())
}

/// A task has a child more.
pub(crate) fn add_pending(
    alloc: Global,
    tasks: &mut Vec<Standing>,
    parent: u32,
    child: u32,
) -> Result<(), AllocError>
    ensures known { OnOk result ((t : ℕ) → (kept_at tasks.new.items t).known ≡ (kept_at tasks.old.items t).known) }
    ensures last { OnOk result ((t : ℕ) → last_of tasks.new.items t ≡ last_of tasks.old.items t) }
    ensures there { OnOk result (pending_of tasks.new.items parent ≡ pending_of tasks.old.items parent ++ child ∷ []) }
    ensures others { OnOk result ((t : ℕ) → t ≢ parent → pending_of tasks.new.items t ≡ pending_of tasks.old.items t) }
{
    reach(alloc, tasks, parent)?;
    tasks[parent as usize].pending.push(child)?;
    Ok(())
}

/// A task has waited for all its children: only those that go on are pending.
pub(crate) fn pass_pending(
    alloc: Global,
    tasks: &mut Vec<Standing>,
    parent: u32,
    at: Moment<'_>,
) -> Result<(), AllocError>
    ensures known { OnOk result ((t : ℕ) → (kept_at tasks.new.items t).known ≡ (kept_at tasks.old.items t).known) }
    ensures last { OnOk result ((t : ℕ) → last_of tasks.new.items t ≡ last_of tasks.old.items t) }
    ensures there { OnOk result (pending_of tasks.new.items parent ≡ going_on at.entry.ends.now at.entry.number (pending_of tasks.old.items parent)) }
    ensures others { OnOk result ((t : ℕ) → t ≢ parent → pending_of tasks.new.items t ≡ pending_of tasks.old.items t) }
{
    reach(alloc, tasks, parent)?;
    let standing = &mut tasks[parent as usize];
    standing.pending = going_on(alloc, at.ends, at.number, &standing.pending)?;
    Ok(())
}

/// A task has an event more, before which these are or which is one of these.
pub(crate) fn settle(
    alloc: Global,
    tasks: &mut Vec<Standing>,
    task: u32,
    known: Numbers,
    number: u32,
) -> Result<(), AllocError>
    ensures known { OnOk result ((kept_at tasks.new.items task).known ≡ words_of known) }
    ensures last { OnOk result (last_of tasks.new.items task ≡ number) }
    ensures pending { OnOk result ((t : ℕ) → pending_of tasks.new.items t ≡ pending_of tasks.old.items t) }
    ensures others { OnOk result ((t : ℕ) → t ≢ task → kept_at tasks.new.items t ≡ kept_at tasks.old.items t) }
{
    reach(alloc, tasks, task)?;
    let standing = &mut tasks[task as usize];
    standing.known = known;
    standing.last = number;
    Ok(())
}

/// A task has an event more, before which is just what it knows.
pub(crate) fn add_touch(
    alloc: Global,
    tasks: &mut Vec<Standing>,
    task: u32,
    number: u32,
) -> Result<(), AllocError>
    ensures known { OnOk result ((i : ℕ) → knows tasks.new.items task i ≡ (knows tasks.old.items task i || (i == number))) }
    ensures last { OnOk result (last_of tasks.new.items task ≡ number) }
    ensures pending { OnOk result ((t : ℕ) → pending_of tasks.new.items t ≡ pending_of tasks.old.items t) }
    ensures others { OnOk result ((t : ℕ) → t ≢ task → kept_at tasks.new.items t ≡ kept_at tasks.old.items t) }
{
    reach(alloc, tasks, task)?;
    let standing = &mut tasks[task as usize];
    standing.known.insert(number as usize)?;
    standing.last = number;
    Ok(())
}
