//! Races of one run.
ghost use Rattle.std.specs.Prelude.{◌<◌, ◌^◌, length, IfOk};
ghost use Rattle.ot_race_all.specs.AllRaces.{TellsAll};
ghost use Rattle.ot_exec_verdict.specs.Findings.{events_of_run, TellsOpen, FindsAlone};

use crate::finding::{Finding, Rest};
use ot_exec_machine::Run;
use ot_exec_outline::events_of;
use ot_race_all::Races;
use ot_race_locks::{Apart, Locks};
use ot_race_order::{Order, judge_apart_by, races_by};
use std::alloc::{AllocError, Global};

/// How many races of a run are looked at.
const ALL: usize = 1_000_000;

/// What is found in a run that came to its end and asked nothing.
pub(crate) fn found_alone(alloc: Global, run: Run) -> Result<Finding, AllocError>
    requires { length run.log.items < 2 ^ 32 }
    ensures { IfOk result (FindsAlone run) }
{
    if run.sets.len() > 1 {
        return found_apart(alloc, run);
    }
    let races = races_of(alloc, &run)?;
    if races.told.is_empty() {
        Ok(Finding::Nothing(Rest::Run))
    } else {
        Ok(Finding::InRun(run, races))
    }
}

/// The same of one whose tasks held locks.
fn found_apart(alloc: Global, run: Run) -> Result<Finding, AllocError>
    requires few { length run.log.items < 2 ^ 32 }
    requires locks { 1 < length run.sets.items }
    ensures { IfOk result (FindsAlone run) }
{
    match open_race(alloc, &run)? {
        Apart::RacesNowhere => Ok(Finding::Nothing(Rest::Run)),
        Apart::Races(race) => Ok(Finding::Apart(run, race)),
        Apart::TooMany(_) => Ok(Finding::Crowded),
    }
}

/// The races of a run.
fn races_of(alloc: Global, run: &Run) -> Result<Races, AllocError>
    requires { length run.now.log.items < 2 ^ 32 }
    ensures { IfOk result (TellsAll (events_of_run run.now) 1000000) }
{
    let events = events_of(alloc, &run.log)?;
    races_by(alloc, Order::OfC, events, ALL)
}

/// The first race of a run of two touches that hold no lock in common.
pub(crate) fn open_race(alloc: Global, run: &Run) -> Result<Apart, AllocError>
    requires { length run.now.log.items < 2 ^ 32 }
    ensures { IfOk result (TellsOpen run.now) }
{
    let events = events_of(alloc, &run.log)?;
    let locks = Locks {
        sets: &run.sets,
        held: &run.held,
    };
    judge_apart_by(alloc, Order::OfC, events, &locks)
}
