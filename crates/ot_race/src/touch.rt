//! The touches of an event, beside those before it.
ghost use Rattle.std.specs.Prelude.{◌≡◌, ◌<◌, ◌+◌, ◌↔◌, ℕ, IfOk, true, length, None, []};
ghost use Rattle.ot_sets.specs.Sets.{has};
ghost use Rattle.ot_race.specs.Standings.{IsUpTo};
ghost use Rattle.ot_race.specs.Histories.{AreHistories, RacesWith};
ghost use Rattle.ot_race.specs.View.{events_in};

use crate::event::Event;
use crate::histories::Histories;
use ot_model::Cell;
use ot_sets::Numbers;
use std::alloc::{AllocError, Global};

/// A cell and an earlier event that touched it, and that races there with this event. There is None
/// where no earlier event races with it; then its touches are kept.
pub(crate) fn touch(
    alloc: Global,
    histories: &mut Histories,
    events: &[Event<'_>],
    number: u32,
    known: &Numbers,
) -> Result<Option<(Cell, u32)>, AllocError>
    requires there { number < length events.now }
    requires known { (i : ℕ) → (has known.now i ≡ true) ↔ IsUpTo (events_in events.now) i number }
    requires histories { AreHistories (events_in events.now) number [] histories.old.rows.items }
    ensures races { IfOk result (RacesWith (events_in events.now) number) }
    ensures histories { IfOk result (λ found. found ≡ None → AreHistories (events_in events.now) (number + 1) [] histories.new.rows.items) }
{
    let event = &events[number as usize];
    let uses = event.uses.as_slice();
    for used in uses {
        if let Some(earlier) = histories.racing(used.cell, used.mode, known) {
            return Ok(Some((used.cell, earlier)));
        }
        histories.add(alloc, used.cell, used.mode, number, known)?;
    }
    Ok(None)
}
