//! The judge of events that hold locks.
ghost use Rattle.std.specs.Prelude.{◌<◌, ◌^◌, IfOk, length};
ghost use Rattle.ot_race.specs.View.{events_in};
ghost use Rattle.ot_race_locks.specs.OpenRaces.{TellsApart};

use crate::apart::Apart;
use crate::kept::Kept;
use crate::locks::Locks;
use crate::touch::{keep, racing};
use ot_race::{Event, Race, Standings};
use std::alloc::{AllocError, Global};

/// The first race of two events that hold no lock in common, or that there is none; or a cell that is touched in too many
/// kinds.
pub fn judge_apart(
    alloc: Global,
    events: &[Event<'_>],
    locks: &Locks<'_>,
) -> Result<Apart, AllocError>
    requires { length events.now < 2 ^ 32 }
    ensures { IfOk result (TellsApart (events_in events.now) locks.now) }
{
    let mut standings = Standings::new(alloc, events)?;
    let mut kept = Kept::new(alloc);
    for number in 0..events.len() as u32 {
        standings.take_in(alloc, events, number)?;
        let known = standings.up_to(events, number);
        if let Some((cell, earlier)) = racing(&kept, locks, events, number, known) {
            return Ok(Apart::Races(Race {
                cell,
                place: events[earlier as usize].place,
                later: events[number as usize].place,
            }));
        }
        if let Some(cell) = keep(alloc, &mut kept, locks, events, number, known)? {
            return Ok(Apart::TooMany(cell));
        }
    }
    Ok(Apart::RacesNowhere)
}
