//! What is told of code.
use ot_exec_code::Code;
use ot_exec_machine::{Entered, Fault, Limits, Met, Run, Ways, contexts_of, first_fault, run_code};
use ot_exec_outline::{Told, events_of, race_of};
use ot_race::Race;
use ot_race_locks::{Apart, Locks};
use ot_race_order::{Order, judge_apart_by};
use std::alloc::{AllocError, Global};
use std::fmt::Write;

/// The run of code whose answers are all no: its events and questions, or its fault. Then, of all ways, the first race: the sites of both
/// touches, each with its context, the object's name and the index, and the answers; or that there is none, or that there are too many ways.
pub(crate) fn told(alloc: Global, code: &Code) -> Result<String, AllocError> {
    let none = Vec::new(alloc);
    let limits = Limits {
        steps: 100_000,
        ..Limits::usual()
    };
    let run = run_code(alloc, code, limits, &none)?;
    let mut told = told_of_run(alloc, &run)?;
    let ways = Ways { code, limits };
    let mut budget = 64;
    match race_of(alloc, Order::OfC, &ways, 6, &mut budget, &none)? {
        Told::RacesNowhere => told.push_str("none")?,
        Told::TooMany => told.push_str("many")?,
        Told::RacesOn(answers, race) => {
            let run = run_code(alloc, code, limits, &answers)?;
            told.push_str(told_of_race(alloc, &run, race)?.as_str())?;
            for answer in &answers {
                told.push_str(if *answer { "+" } else { "-" })?;
            }
        }
    }
    Ok(told)
}

/// The run of code whose answers are all no, and its first race without a common lock.
pub(crate) fn told_apart(alloc: Global, code: &Code) -> Result<String, AllocError> {
    let none = Vec::new(alloc);
    let run = run_code(alloc, code, Limits::usual(), &none)?;
    let mut told = told_of_run(alloc, &run)?;
    let events = events_of(alloc, &run.log)?;
    if events.len() > 100 {
        return Ok(told);
    }
    let locks = Locks {
        sets: &run.sets,
        held: &run.held,
    };
    match judge_apart_by(alloc, Order::OfC, events, &locks)? {
        Apart::RacesNowhere => told.push_str("none")?,
        Apart::Races(race) => told.push_str(told_of_race(alloc, &run, race)?.as_str())?,
        Apart::TooMany(_) => told.push_str("many")?,
    }
    Ok(told)
}

/// The first fault on a way, with its form and the answers; or that there is none on any, or that there are too many ways.
pub(crate) fn told_of_faults(
    alloc: Global,
    code: &Code,
    questions: u32,
) -> Result<String, AllocError> {
    let none = Vec::new(alloc);
    let ways = Ways {
        code,
        limits: Limits::usual(),
    };
    let mut budget = 4;
    match first_fault(alloc, &ways, questions, &mut budget, &none)? {
        Met::NoFault => format!(in alloc; "none {budget}"),
        Met::TooMany => format!(in alloc; "many {budget}"),
        Met::FaultOn(answers, fault) => {
            let mut told = format!(in alloc; "{:?} {} {budget} ", fault.reason, fault.at)?;
            for answer in &answers {
                told.push_str(if *answer { "+" } else { "-" })?;
            }
            Ok(told)
        }
    }
}

fn told_of_run(alloc: Global, run: &Run) -> Result<String, AllocError> {
    match run.fault {
        Some(
            Fault {
                reason,
                at,
                asked,
                ..
            },
        ) => format!(in alloc; "{reason:?} {at} {asked} "),
        None => format!(in alloc; "{} {} ", run.log.len(), run.asked),
    }
}

fn told_of_race(alloc: Global, run: &Run, race: Race) -> Result<String, AllocError> {
    let first = place_of(alloc, run, race.place)?;
    let later = place_of(alloc, run, race.later)?;
    let name = match run.objects.get(race.cell.array as usize) {
        Some(object) => object.name,
        None => 0,
    };
    format!(in alloc; "{first} {later} {name}.{}", race.cell.index)
}

/// A site, and the contexts in which it stands, the innermost first.
fn place_of(alloc: Global, run: &Run, place: u32) -> Result<String, AllocError> {
    let Some(row) = run.rows.get(place as usize) else {
        return String::from_str(alloc, "?");
    };
    let mut told = format!(in alloc; "{}", row.site)?;
    let contexts = contexts_of(alloc, &run.contexts, row.context, 8)?;
    for found in &contexts {
        let step = match found.entered {
            Entered::Run => String::new(alloc),
            Entered::Call => format!(in alloc; "<{}", found.site)?,
            Entered::Turn(n) => format!(in alloc; "<{}:{n}", found.site)?,
            Entered::SomeTurn => format!(in alloc; "<{}:?", found.site)?,
        };
        told.push_str(step.as_str())?;
    }
    Ok(told)
}
