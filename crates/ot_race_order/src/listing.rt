//! All races of a list of events, by what orders tasks.
ghost use Rattle.std.specs.Prelude.{◌<◌, ◌^◌, IfOk, length, map};
ghost use Rattle.ot_race.specs.View.{events_in};
ghost use Rattle.ot_race_all.specs.AllRaces.{TellsAll};
ghost use Rattle.ot_race_order.specs.Orders.{ordered_by, event_in_c};

use crate::depends::declared_by;
use crate::judging::{events_by_pointers, events_in_c};
use crate::order::Order;
use ot_race::Event;
use ot_race_all::{Races, all_races};
use std::alloc::{AllocError, Global};

/// So many first races of a list of events where this orders tasks and they touch what this says, and how many more there are. The
/// first is the one that `judge_by` tells, and where nothing races it costs what that one does. The list is given up.
pub fn races_by(
    alloc: Global,
    order: Order,
    events: Vec<Event<'_>>,
    most: usize,
) -> Result<Races, AllocError>
    requires { length events.items < 2 ^ 32 }
    ensures { IfOk result (TellsAll (ordered_by order (events_in events.entry.items)) most) }
{
    match order {
        Order::OfLanguage => all_races(alloc, &events, most),
        Order::OfC => races_in_c(alloc, events, most),
        Order::OfCByPointers => all_races(alloc, &events_by_pointers(events), most),
    }
}

fn races_in_c(alloc: Global, events: Vec<Event<'_>>, most: usize) -> Result<Races, AllocError>
    requires { length events.items < 2 ^ 32 }
    ensures { IfOk result (TellsAll (map event_in_c (events_in events.entry.items)) most) }
{
    let declared = declared_by(alloc, &events)?;
    let taken = events_in_c(events, &declared);
    all_races(alloc, &taken, most)
}
