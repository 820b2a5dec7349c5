//! All races of a list of events.
ghost use Rattle.std.specs.Prelude.{◌≡◌, ◌<◌, ◌≤◌, ◌-◌, ◌^◌, ℕ, IfOk, if◌then◌else◌, length, take};
ghost use Rattle.ot_race.specs.Races.{IsAt, IsFirstRace};
ghost use Rattle.ot_race.specs.View.{events_in};
ghost use Rattle.ot_race_all.specs.AllRaces.{AreRaces, TellsAll};
ghost use Rattle.ot_race_all.specs.Found.{IsEnd};
ghost use Rattle.ot_race_all.specs.declared.races.More.TheVariants.{Exactly, AtLeast};

use crate::compare::{compare, keep};
use crate::found::Found;
use crate::races::{More, Races};
use crate::touched::Touched;
use ot_race::{Event, Race, Standings, judge};
use std::alloc::{AllocError, Global};

/// So many comparisons of two touches, and no more.
const COMPARISONS: u64 = 100_000_000;
/// No more events are looked at when so many races are found.
const RACES: usize = 1_000_000;

/// So many first races of a list of events, and how many more there are. The first is the one that `judge` tells; a list
/// without a race costs what that one does.
pub fn all_races(alloc: Global, events: &[Event<'_>], most: usize) -> Result<Races, AllocError>
    requires { length events.now < 2 ^ 32 }
    ensures { IfOk result (TellsAll (events_in events.now) most) }
{
    match judge(alloc, events)? {
        Some(first) => {
            let (all, whole) = found_from(alloc, events, first)?;
            Ok(tell(all, most, whole))
        }
        None => Ok(Races {
            told: Vec::new(alloc),
            more: More::Exactly(0),
        }),
    }
}

/// All races of a list whose first one this is, or those by its first events.
fn found_from(
    alloc: Global,
    events: &[Event<'_>],
    first: Race,
) -> Result<(Vec<Race>, bool), AllocError>
    requires few { length events.now < 2 ^ 32 }
    requires first { IsFirstRace (events_in events.now) first.cell first.place first.later }
    ensures { IfOk result (λ found. (n : ℕ) × AreRaces (events_in events.now) n found.0.items × IsEnd (events_in events.now) n found.0.items found.1) }
{
    let start = first_at(events, first.later);
    let mut standings = Standings::new(alloc, events)?;
    let mut touched = Touched::new(alloc);
    let mut found = Found::new(alloc, first)?;
    let mut left = COMPARISONS;
    for number in 0..events.len() as u32 {
        standings.take_in(alloc, events, number)?;
        if start <= number {
            let known = standings.up_to(events, number);
            if !compare(&mut found, &touched, events, number, known, &mut left)? {
                return Ok((found.all, false));
            }
            if RACES < found.all.len() {
                return Ok((found.all, false));
            }
        }
        keep(alloc, &mut touched, events, number)?;
    }
    Ok((found.all, true))
}

/// The first event of this place, or of a later number where there is none.
fn first_at(events: &[Event<'_>], place: u32) -> u32
    requires { length events.now < 2 ^ 32 }
    ensures { (j : ℕ) → IsAt (events_in events.now) place j → result ≤ j }
{
    for number in 0..events.len() as u32 {
        if events[number as usize].place == place {
            return number;
        }
    }
    events.len() as u32
}

/// So many of the races, and how many more there are.
fn tell(mut all: Vec<Race>, most: usize, whole: bool) -> Races
    ensures told { result.told.items ≡ take most all.items }
    ensures more { result.more ≡ (if whole then Exactly (length all.items - most) else AtLeast (length all.items - most)) }
{
    let more = all.len().saturating_sub(most) as u64;
    all.truncate(most);
    let more = if whole {
        More::Exactly(more)
    } else {
        More::AtLeast(more)
    };
    Races { told: all, more }
}
