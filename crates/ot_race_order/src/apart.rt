//! The judge of events that hold locks, by what orders tasks.
ghost use Rattle.std.specs.Prelude.{◌<◌, ◌^◌, IfOk, length, map};
ghost use Rattle.ot_race.specs.View.{events_in};
ghost use Rattle.ot_race_locks.specs.OpenRaces.{TellsApart};
ghost use Rattle.ot_race_order.specs.Orders.{ordered_by, event_in_c};

use crate::depends::declared_by;
use crate::judging::{events_by_pointers, events_in_c};
use crate::order::Order;
use ot_race::Event;
use ot_race_locks::{Apart, Locks, judge_apart};
use std::alloc::{AllocError, Global};

/// The first race of two events of a list that hold no lock in common, where this orders tasks and they touch what this says, or that
/// there is none; or a cell that is touched in too many kinds. The list is given up.
pub fn judge_apart_by(
    alloc: Global,
    order: Order,
    events: Vec<Event<'_>>,
    locks: &Locks<'_>,
) -> Result<Apart, AllocError>
    requires { length events.items < 2 ^ 32 }
    ensures { IfOk result (TellsApart (ordered_by order (events_in events.entry.items)) locks.now) }
{
    match order {
        Order::OfLanguage => judge_apart(alloc, &events, locks),
        Order::OfC => apart_in_c(alloc, events, locks),
        Order::OfCByPointers => judge_apart(alloc, &events_by_pointers(events), locks),
    }
}

fn apart_in_c(alloc: Global, events: Vec<Event<'_>>, locks: &Locks<'_>) -> Result<Apart, AllocError>
    requires { length events.items < 2 ^ 32 }
    ensures { IfOk result (TellsApart (map event_in_c (events_in events.entry.items)) locks.now) }
{
    let declared = declared_by(alloc, &events)?;
    let taken = events_in_c(events, &declared);
    judge_apart(alloc, &taken, locks)
}
