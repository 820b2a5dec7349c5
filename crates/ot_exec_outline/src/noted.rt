//! Events that own what they declare.
ghost use Rattle.std.specs.Prelude.{◌≡◌, IfOk, length};
ghost use Rattle.ot_race.specs.View.{event_of, events_in, deed_of};
ghost use Rattle.ot_exec_outline.specs.View.{did_of, noted_of, noted_in};

use ot_model::{Decl, Use};
use ot_race::{Deed, Event};
use std::alloc::{AllocError, Global};

/// What an event is: as `ot_race::Deed`.
#[derive(Debug, Drop)]
pub enum Did {
    Touches,
    Begins(u32, Decl),
    Awaits(Option<Decl>),
    Leaves(u32),
}

/// An event: the number of the task that does it, its place, what it is, and the cells that it uses.
#[derive(Debug, Drop)]
pub struct Noted {
    pub task: u32,
    pub place: u32,
    pub did: Did,
    pub uses: Vec<Use>,
}

/// The events that were noted.
pub fn events_of(alloc: Global, log: &[Noted]) -> Result<Vec<Event<'_>>, AllocError>
    ensures events { IfOk result (λ events. events_in events.items ≡ noted_in log.now) }
    ensures length { IfOk result (λ events. length events.items ≡ length log.now) }
{
    let mut events = Vec::with_capacity(alloc, log.len())?;
    for noted in log {
        events.push(event_of(alloc, noted)?)?;
    }
    Ok(events)
}

fn event_of(alloc: Global, noted: &Noted) -> Result<Event<'_>, AllocError>
    ensures { IfOk result (λ event. event_of event ≡ noted_of noted.now) }
{
    let uses = noted.uses.as_slice().to_vec(alloc)?;
    Ok(Event {
        task: noted.task,
        place: noted.place,
        deed: deed_of(&noted.did),
        uses,
    })
}

fn deed_of(did: &Did) -> Deed<'_>
    ensures { deed_of result ≡ did_of did.now }
{
    match did {
        Did::Touches => Deed::Touches,
        Did::Begins(parent, decl) => Deed::Begins(*parent, decl),
        Did::Awaits(None) => Deed::Awaits(None),
        Did::Awaits(Some(decl)) => Deed::Awaits(Some(decl)),
        Did::Leaves(count) => Deed::Leaves(*count),
    }
}
