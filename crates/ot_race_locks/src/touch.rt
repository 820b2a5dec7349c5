//! The touches of an event, beside those before it.
ghost use Rattle.std.specs.Prelude.{◌≡◌, ◌<◌, ◌+◌, ◌↔◌, ℕ, IfOk, true, length, []};
ghost use Rattle.ot_race.specs.Standings.{IsUpTo};
ghost use Rattle.ot_race.specs.View.{events_in};
ghost use Rattle.ot_sets.specs.Sets.{has};
ghost use Rattle.ot_race_locks.specs.Kinds.{AreAllGroups, AreOrdered, OpensWith, IsKeptOr};

use crate::kept::Kept;
use crate::line::racing as racing_in;
use crate::locks::Locks;
use ot_model::Cell;
use ot_race::Event;
use ot_sets::Numbers;
use std::alloc::{AllocError, Global};

/// A cell, and an earlier event that races there with this event and holds no lock of it.
pub(crate) fn racing(
    kept: &Kept,
    locks: &Locks<'_>,
    events: &[Event<'_>],
    number: u32,
    known: &Numbers,
) -> Option<(Cell, u32)>
    requires there { number < length events.now }
    requires known { (i : ℕ) → (has known.now i ≡ true) ↔ IsUpTo (events_in events.now) i number }
    requires kept { AreAllGroups (events_in events.now) locks.now number [] kept.now.rows.items }
    requires ordered { AreOrdered (events_in events.now) locks.now number }
    ensures { OpensWith (events_in events.now) locks.now number result }
{
    let set = locks.set_at(number);
    let event = &events[number as usize];
    let uses = event.uses.as_slice();
    for used in uses {
        let groups = kept.of(used.cell);
        if let Some(earlier) = racing_in(groups, locks, set, used.mode, known) {
            return Some((used.cell, earlier));
        }
    }
    None
}

/// Keeps the touches of an event. There is a cell that is touched in too many kinds, where one is.
pub(crate) fn keep(
    alloc: Global,
    kept: &mut Kept,
    locks: &Locks<'_>,
    events: &[Event<'_>],
    number: u32,
    known: &Numbers,
) -> Result<Option<Cell>, AllocError>
    requires there { number < length events.now }
    requires known { (i : ℕ) → (has known.now i ≡ true) ↔ IsUpTo (events_in events.now) i number }
    requires kept { AreAllGroups (events_in events.now) locks.now number [] kept.old.rows.items }
    ensures { IfOk result (IsKeptOr (events_in events.now) locks.now (number + 1) kept.new.rows.items) }
{
    let set = locks.set_at(number);
    let event = &events[number as usize];
    let uses = event.uses.as_slice();
    for used in uses {
        if !kept.add(alloc, used.cell, set, used.mode, number, known)? {
            return Ok(Some(used.cell));
        }
    }
    Ok(None)
}
