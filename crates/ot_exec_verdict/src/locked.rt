//! Code whose tasks hold locks, and its ways.
ghost use Rattle.std.specs.Prelude.{◌≡◌, ◌<◌, ◌^◌, length, IfOk, OnOk, Ok, None};
ghost use Rattle.ot_exec_verdict.specs.Findings.{Meets, MeetsSome, MeetsOne, OpenOnNone, AreFaults, HasMore, TellsFaults};

use crate::finding::{Met, Rest};
use crate::join::Other;
use crate::running::open_race;
use crate::ways::{QUESTIONS, is_limit, with};
use ot_exec_code::{Code, Depends, Form, Item};
use ot_exec_machine::{Fault, Limits, Reason, Run, run_code};
use ot_race_locks::Apart;
use std::alloc::{AllocError, Global};

fn excludes(items: &[Item]) -> bool {
    items.iter().any(|item| item.mode == Depends::MutexInOutSet)
}

/// Whether a task may hold a lock.
pub(crate) fn has_locks(code: &Code) -> bool {
    code.forms.iter().any(|form| match form {
        Form::Lock(_, _) => true,
        Form::Task { items, .. } => excludes(items),
        _ => false,
    })
}

/// The name of what a run writes under a lock, where the code doesn't say so.
pub(crate) fn changes(fault: Option<Fault>) -> Option<u32> {
    match fault {
        Some(fault) => name_in(fault.reason),
        None => None,
    }
}

fn name_in(reason: Reason) -> Option<u32> {
    match reason {
        Reason::Changes(name) => Some(name),
        _ => None,
    }
}

/// Code whose ways are gone, how far each, and of what it was made where less is known.
#[derive(Clone, Copy)]
struct Gone<'a> {
    code: &'a Code,
    limits: Limits,
    joined: Option<&'a Other>,
}

/// The faults of ways: one that ends the judging, one of the program's own; and whether a way came to its end.
#[derive(Clone, Copy)]
struct Faults {
    limit: Option<Fault>,
    error: Option<Fault>,
    has_ended: bool,
}

/// Of code that asks, and whose tasks hold locks: all its ways, unless there are too many. Each takes one from the budget.
pub(crate) fn locked_ways(
    alloc: Global,
    code: &Code,
    limits: Limits,
    joined: Option<&Other>,
    budget: &mut u32,
) -> Result<Met, AllocError>
    ensures { IfOk result (Meets code.now limits) }
{
    let mut faults = Faults {
        limit: None,
        error: None,
        has_ended: false,
    };
    let gone = Gone {
        code,
        limits,
        joined,
    };
    let none = Vec::new(alloc);
    match met_from(alloc, gone, QUESTIONS, budget, &mut faults, &none)? {
        Some(met) => Ok(met),
        None => Ok(told(faults)),
    }
}

/// What ends the ways that begin with these answers; none where all are gone, and nothing races on any.
fn met_from(
    alloc: Global,
    gone: Gone<'_>,
    questions: u32,
    budget: &mut u32,
    faults: &mut Faults,
    given: &[bool],
) -> Result<Option<Met>, AllocError>
    ensures met { IfOk result (MeetsSome gone.entry.code.now gone.entry.limits) }
    ensures none { result ≡ Ok None → OpenOnNone gone.entry.code.now gone.entry.limits given.now }
    ensures faults { AreFaults gone.entry.code.now gone.entry.limits faults.old → OnOk result (AreFaults gone.entry.code.now gone.entry.limits faults.new) }
{
    let run = run_code(alloc, gone.code, gone.limits, given)?;
    if let Some(name) = changes(run.fault) {
        return Ok(Some(Met::Changes(name)));
    }
    if run.asked <= given.len() {
        if *budget == 0 {
            return Ok(Some(Met::TooMany));
        }
        *budget -= 1;
        return met_on(alloc, gone.joined, faults, run);
    }
    if questions == 0 {
        return Ok(Some(Met::TooMany));
    }
    let one = with(alloc, given, true)?;
    match met_from(alloc, gone, questions - 1, budget, faults, &one)? {
        Some(met) => Ok(Some(met)),
        None => {
            let two = with(alloc, given, false)?;
            met_from(alloc, gone, questions - 1, budget, faults, &two)
        }
    }
}

/// What ends one way; its fault is noted.
fn met_on(
    alloc: Global,
    joined: Option<&Other>,
    faults: &mut Faults,
    run: Run,
) -> Result<Option<Met>, AllocError>
    requires { length run.log.items < 2 ^ 32 }
    ensures met { IfOk result (MeetsOne run) }
    ensures faults { OnOk result (HasMore run faults.old faults.new) }
{
    if let Some(fault) = run.fault {
        if is_limit(fault, joined) {
            faults.limit = Some(fault);
        } else {
            faults.error = Some(fault);
        }
        return Ok(None);
    }
    faults.has_ended = true;
    match open_race(alloc, &run)? {
        Apart::RacesNowhere => Ok(None),
        Apart::TooMany(_) => Ok(Some(Met::Crowded)),
        Apart::Races(race) => Ok(Some(Met::Races(run, race))),
    }
}

/// What is told where all ways are gone.
fn told(faults: Faults) -> Met
    ensures { TellsFaults faults result }
{
    match (faults.limit, faults.error) {
        (Some(fault), _) => Met::Fault(fault),
        (None, Some(fault)) if !faults.has_ended => Met::Fault(fault),
        (None, _) => Met::Nothing(Rest::LockedWays),
    }
}
