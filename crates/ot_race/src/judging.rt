//! The judge of a list of events.
ghost use Rattle.std.specs.Prelude.{◌<◌, ◌^◌, IfOk, length};
ghost use Rattle.ot_race.specs.Races.{TellsFirst};
ghost use Rattle.ot_race.specs.View.{events_in};

use crate::event::Event;
use crate::histories::Histories;
use crate::order::Standings;
use crate::race::Race;
use crate::touch::touch;
use std::alloc::{AllocError, Global};

/// The first race of a list of events, or that nothing races.
pub fn judge(alloc: Global, events: &[Event<'_>]) -> Result<Option<Race>, AllocError>
    requires { length events.now < 2 ^ 32 }
    ensures { IfOk result (TellsFirst (events_in events.now)) }
{
    let mut standings = Standings::new(alloc, events)?;
    let mut histories = Histories::new(alloc);
    for number in 0..events.len() as u32 {
        standings.take_in(alloc, events, number)?;
        let known = standings.up_to(events, number);
        if let Some((cell, earlier)) = touch(alloc, &mut histories, events, number, known)? {
            return Ok(Some(Race {
                cell,
                place: events[earlier as usize].place,
                later: events[number as usize].place,
            }));
        }
    }
    Ok(None)
}
