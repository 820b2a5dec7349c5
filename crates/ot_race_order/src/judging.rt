//! The judge of a list of events, by what orders tasks.
ghost use Rattle.std.specs.Prelude.{◌<◌, ◌^◌, IfOk, length, ◌≡◌, map, unwrap_or};
ghost use Rattle.ot_race.specs.Races.{TellsFirst};
ghost use Rattle.ot_race.specs.View.{events_in, deed_of};
ghost use Rattle.ot_race_order.specs.Orders.{ordered_by, event_in_c, event_by_pointers, deed_in_c, touched_of};

use crate::depends::{declared_by, is_fold};
use crate::order::Order;
use ot_model::{Decl, Use};
use ot_race::{Deed, Event, Race, judge};
use std::alloc::{AllocError, Global};

/// The first race of a list of events where this orders tasks and they touch what this says, or that nothing races. The list is given
/// up.
pub fn judge_by(
    alloc: Global,
    order: Order,
    events: Vec<Event<'_>>,
) -> Result<Option<Race>, AllocError>
    requires { length events.items < 2 ^ 32 }
    ensures { IfOk result (TellsFirst (ordered_by order (events_in events.entry.items))) }
{
    match order {
        Order::OfLanguage => judge(alloc, &events),
        Order::OfC => judge_in_c(alloc, events),
        Order::OfCByPointers => judge(alloc, &events_by_pointers(events)),
    }
}

ghost use Rattle.ot_race_order.specs.Instead.{instead};

fn judge_in_c(alloc: Global, events: Vec<Event<'_>>) -> Result<Option<Race>, AllocError>
    requires { length events.items < 2 ^ 32 }
    ensures { IfOk result (TellsFirst (map event_in_c (events_in events.entry.items))) }
{
    let declared = declared_by(alloc, &events)?;
    let taken = events_in_c(events, &declared);
    judge(alloc, &taken)
}

/// The events as C takes them, with what they declare there in place of what they declare in the language.
pub(crate) fn events_in_c<'d>(
    mut events: Vec<Event<'d>>,
    declared: &'d [Option<Decl>],
) -> Vec<Event<'d>>
    requires { declared.now ≡ map (λ e. instead e.deed) (events_in events.items) }
    ensures { events_in result.items ≡ map event_in_c (events_in events.entry.items) }
{
    for number in 0..events.len() {
        let event = &mut events[number];
        event.deed = deed_in_c(event.deed, &declared[number]);
        leave_out_folds(&mut event.uses);
    }
    events
}

/// The events as C takes them where tasks take part by pointers.
pub(crate) fn events_by_pointers(mut events: Vec<Event<'_>>) -> Vec<Event<'_>>
    ensures { events_in result.items ≡ map event_by_pointers (events_in events.entry.items) }
{
    for number in 0..events.len() {
        leave_out_folds(&mut events[number].uses);
    }
    events
}

/// Leaves what is touched in C.
fn leave_out_folds(uses: &mut Vec<Use>)
    ensures { uses.new.items ≡ touched_of uses.old.items }
{
    uses.retain(|used| !is_fold(used.mode));
}

fn deed_in_c<'d>(deed: Deed<'d>, own: &'d Option<Decl>) -> Deed<'d>
    requires { own.now ≡ instead (deed_of deed) }
    ensures { deed_of result ≡ deed_in_c (deed_of deed.entry) }
{
    match deed {
        Deed::Begins(parent, decl) => Deed::Begins(parent, kept_of(decl, own)),
        Deed::Touches => Deed::Touches,
        Deed::Awaits(wait) => Deed::Awaits(wait),
        Deed::Leaves(count) => Deed::Leaves(count),
    }
}

/// What stands for a declaration, or the declaration itself.
fn kept_of<'d>(decl: &'d Decl, own: &'d Option<Decl>) -> &'d Decl
    ensures { result.now ≡ unwrap_or own.now decl.now }
{
    match own {
        Some(own) => own,
        None => decl,
    }
}
